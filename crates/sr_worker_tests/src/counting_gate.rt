use sr_ports::{Gate, Point};
use std::sync::atomic::{AtomicU64, Ordering};

/// A gate that counts who passes.
#[derive(Drop)]
pub struct CountingGate {
    before: AtomicU64,
    after: AtomicU64,
}

impl CountingGate {
    pub fn new() -> Self {
        CountingGate {
            before: AtomicU64::new(0),
            after: AtomicU64::new(0),
        }
    }

    /// How often a worker was about to ask the desk.
    pub fn before(&self) -> u64 {
        self.before.load(Ordering::SeqCst)
    }

    /// How many steps were made.
    pub fn after(&self) -> u64 {
        self.after.load(Ordering::SeqCst)
    }
}

impl Gate for CountingGate {
    fn pass(&self, _worker: u32, point: Point) {
        match point {
            Point::BeforeCommit(_) => {
                let _ = self.before.fetch_add(1, Ordering::SeqCst);
            }
            Point::AfterCommit(_) => {
                let _ = self.after.fetch_add(1, Ordering::SeqCst);
            }
        }
    }
}
