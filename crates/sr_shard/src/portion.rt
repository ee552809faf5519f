use sr_queue::Queue;

/// What was moved out of a world into one part.
#[derive(Drop)]
pub struct Portion {
    pub number: usize,
    pub blocks: sr_store::Bucket,
    pub calls: sr_calls::Bucket,
    pub queue: Queue,
}
