//! A gate at which a thread goes on, yields or sleeps.

use edge_bits::scatter;
use net_jobs::Gate;
use std::thread::{sleep, yield_now};
use std::time::{Clock, Duration};

/// What a thread does before each command of its section: by a number that is mixed of a seed, the section and the command it goes on
/// three times of four, and else yields, or sleeps for at most 128 microseconds.
#[derive(Drop)]
pub struct Pacing<'a, R> {
    pub rt: &'a R,
    pub seed: u64,
}

impl<R: Clock + Sync> Gate for Pacing<'_, R> {
    fn pass(&self, worker: u32, item: u32) {
        let command = u64::from(worker) << 32 | u64::from(item);
        match scatter(self.seed.wrapping_mul(64) ^ command, 1024) {
            0..768 => {}
            768..896 => yield_now(),
            mixed => sleep(self.rt, Duration::from_micros(mixed as u64 - 896)),
        }
    }
}
