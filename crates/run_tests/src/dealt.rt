//! A gate that tells which worker builds which output.

use net_jobs::Gate;
use std::sync::atomic::{AtomicU64, Ordering};

/// Counts the outputs that come to the worker whose turn they are, and all others.
#[derive(Drop)]
pub struct Dealt {
    workers: u32,
    dealt: AtomicU64,
    others: AtomicU64,
}

impl Dealt {
    /// A gate for so many workers.
    pub fn new(workers: u32) -> Dealt {
        Dealt {
            workers,
            dealt: AtomicU64::new(0),
            others: AtomicU64::new(0),
        }
    }

    /// How many outputs came to the worker whose turn they were.
    pub fn dealt(&self) -> u64 {
        self.dealt.load(Ordering::SeqCst)
    }

    /// How many came to another one.
    pub fn others(&self) -> u64 {
        self.others.load(Ordering::SeqCst)
    }
}

impl Gate for Dealt {
    fn pass(&self, worker: u32, item: u32) {
        if item.checked_rem(self.workers) == Some(worker) {
            self.dealt.fetch_add(1, Ordering::SeqCst);
        } else {
            self.others.fetch_add(1, Ordering::SeqCst);
        }
    }
}
