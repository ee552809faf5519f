/// A moment of a worker's round, by the number of the entry that it is about to commit or has committed. They
/// are numbered from 1 in each round.
#[derive(Clone, Copy, Debug, PartialEq, Eq)]
pub enum Point {
    BeforeCommit(u32),
    AfterCommit(u32),
}

/// What workers pass at the points of a round. A test holds them there; it changes no answer.
pub trait Gate {
    /// Lets `worker`, counted from 0, pass this point.
    fn pass(&self, worker: u32, point: Point);
}

/// A gate that holds nobody.
#[derive(Clone, Copy, Debug)]
pub struct FreeGate;

impl Gate for FreeGate {
    fn pass(&self, _worker: u32, _point: Point) {}
}
