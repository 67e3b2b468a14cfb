//! A gate that counts.
use gu_workers::Gate;
use std::sync::atomic::{AtomicU64, Ordering};

/// Counts the joins of all workers.
#[derive(Drop)]
pub struct Counter {
    passes: AtomicU64,
}

impl Counter {
    /// Nothing counted.
    pub fn new() -> Counter {
        Counter {
            passes: AtomicU64::new(0),
        }
    }

    /// How many joins were counted so far.
    pub fn count(&self) -> u64 {
        self.passes.load(Ordering::SeqCst)
    }
}

impl Gate for Counter {
    /// Counts a join.
    fn pass(&self, _worker: u32, _cell: usize) {
        self.passes.fetch_add(1, Ordering::SeqCst);
    }
}
