/// Who waits for the answer to an invocation, and the number that it waits under. It is process 0 where
/// nobody waits.
#[derive(Clone, Copy)]
pub struct Duty {
    pub back: u32,
    pub back_id: u32,
}

/// An invocation that its process hands on.
#[derive(Clone, Copy)]
pub struct Forwarded {
    pub process: u32,
    pub id: u32,
}

/// How a step invokes: the number of the new invocation, the duty to answer it, and the invocation in
/// service that it comes from.
#[derive(Clone, Copy)]
pub struct Sending {
    pub name: u32,
    pub duty: Duty,
    pub forwarded: Option<Forwarded>,
}
