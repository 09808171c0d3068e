//! Workers that go in step.

use crossbeam_utils::Backoff;
use std::alloc::{AllocError, Global};
use std::sync::Wait;
use std::sync::atomic::{AtomicU64, Ordering};

/// The calls by which a worker may be ahead of one that is at work too.
const LEAD: u64 = 32;

/// Stands for a worker that has not begun or has ended.
const AWAY: u64 = 0xffff_ffff_ffff_ffff;

/// How many calls each worker of a network has made. Most gates are wanted by several workers, and what the first one made of a gate is
/// remembered for a while: the others find it there while they go in step, and would make it anew where they came much later.
#[derive(Drop)]
pub struct Pace {
    calls: Vec<AtomicU64>,
}

impl Pace {
    /// So many workers that have not begun.
    pub fn new(alloc: Global, workers: usize) -> Result<Pace, AllocError> {
        let mut calls = Vec::new(alloc);
        for _ in 0..workers {
            calls.push(AtomicU64::new(AWAY))?;
        }
        Ok(Pace { calls })
    }

    /// No workers: whoever makes calls waits for none.
    pub fn alone(alloc: Global) -> Pace {
        Pace {
            calls: Vec::new(alloc),
        }
    }

    /// Notes how many calls a worker has made.
    fn note(&self, worker: u32, made: u64) {
        if let Some(calls) = self.calls.get(worker as usize) {
            calls.store(made, Ordering::Relaxed);
        }
    }

    /// A worker ends: no other waits for it any more.
    pub fn leave(&self, worker: u32) {
        self.note(worker, AWAY);
    }

    /// Whether a worker that has made so many calls is far ahead of another one at work.
    fn is_ahead(&self, made: u64) -> bool {
        self.calls.iter().any(|calls| calls.load(Ordering::Relaxed).saturating_add(LEAD) < made)
    }

    /// A worker that has made so many calls waits while it is far ahead.
    pub fn step<R: Wait>(&self, rt: &R, worker: u32, made: u64) {
        self.note(worker, made);
        let backoff = Backoff::new();
        for _ in rt.forever() {
            if !self.is_ahead(made) {
                return;
            }
            backoff.snooze();
        }
    }
}
