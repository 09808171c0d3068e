//! A gate at which two workers must meet.

use net_jobs::Gate;
use std::sync::atomic::{AtomicU64, Ordering};
use std::thread::yield_now;

/// Holds worker 0 in its first call until worker 1 has made one, and worker 1 until worker 0 has made one, for at most
/// 1,000,000 turns.
#[derive(Drop)]
pub struct Pair {
    first: AtomicU64,
    second: AtomicU64,
    gave_up: AtomicU64,
}

impl Pair {
    /// A gate that no worker has come to.
    pub fn new() -> Pair {
        Pair {
            first: AtomicU64::new(0),
            second: AtomicU64::new(0),
            gave_up: AtomicU64::new(0),
        }
    }

    /// Whether the turns ran out.
    pub fn gave_up(&self) -> bool {
        self.gave_up.load(Ordering::SeqCst) != 0
    }

    fn meet(&self, mine: &AtomicU64, other: &AtomicU64) {
        mine.store(1, Ordering::SeqCst);
        for _ in 0..1_000_000u32 {
            if other.load(Ordering::SeqCst) != 0 {
                return;
            }
            yield_now();
        }
        self.gave_up.store(1, Ordering::SeqCst);
    }
}

impl Gate for Pair {
    fn pass(&self, worker: u32, _item: u32) {
        if worker == 0 {
            self.meet(&self.first, &self.second);
        } else if worker == 1 {
            self.meet(&self.second, &self.first);
        }
    }
}
