//! Sources and sinks in memory.

ghost use Rattle.std.specs.Prelude.{◌≡◌, ◌+◌, ◌≤◌, ◌<◌, ◌++◌, take, ℕ, List, [], Some, None, drop, vec_len, length};

use crate::{Failed, Sink, Source};
use std::marker::Model;

/// The next bytes, as many as the step, the buffer and the items allow.
fn give(items: &[u8], read: usize, step: usize, buf: &mut [u8]) -> usize
    requires some { 0 < step }
    requires within { read ≤ length items.now }
    ensures count { (result ≤ length buf.old) × (read + result ≤ length items.now) }
    ensures bytes { drop read items.now ≡ take result buf.new ++ drop (read + result) items.now }
    ensures end { result ≡ 0 → 0 < length buf.old → length items.now ≤ read }
{
    let count = step.min(buf.len()).min(items.len() - read);
    buf[..count].copy_from_slice(&items[read..read + count]);
    count
}

/// A source that gives at most `step` bytes a call, and fails at the calls whose flag is set, counted from 0. A contract
/// sees what is left, and the count of faults.
#[derive(Drop)]
pub struct Bytes {
    items: Vec<u8>,
    read: usize,
    step: usize,
    fails: Vec<bool>,
    calls: usize,
    faults: u64,
}

impl Model for Bytes {
    ghost use Rattle.std.specs.Prelude.{ℕ, ◌<◌, ◌≤◌, List, drop, vec_len};

    ghost Value = { List ℕ × ℕ };

    ghost view = { λ b. (drop b.read b.items.items, b.faults) };

    ghost invariant = { λ b. (b.read ≤ vec_len b.items) × (0 < b.step) };
}

impl Bytes {
    /// All of the items are left, and there was no fault.
    pub fn new(items: Vec<u8>, step: usize, fails: Vec<bool>) -> Bytes
        requires { 0 < step }
        ensures { result ≡ (items.items, 0) }
    {
        Bytes {
            items,
            read: 0,
            step,
            fails,
            calls: 0,
            faults: 0,
        }
    }
}

impl Source for Bytes {
    ghost left = { λ b. Some b.0 };

    ghost faults = { λ b. b.1 };

    fn read(&mut self, buf: &mut [u8]) -> Result<usize, Failed> {
        let fails = self.fails.get(self.calls).copied().unwrap_or(false);
        self.calls = self.calls.saturating_add(1);
        if fails {
            self.faults = self.faults.saturating_add(1);
            return Err(Failed);
        }
        let count = give(&self.items, self.read, self.step, buf);
        self.read += count;
        Ok(count)
    }
}

/// A sink that takes at most `step` bytes a call, and fails at the calls whose flag is set, counted from 0, where it
/// could take none of some bytes, and where memory is wanting. A contract sees what was written, and the count of faults.
#[derive(Drop)]
pub struct Pieces {
    items: Vec<u8>,
    step: usize,
    fails: Vec<bool>,
    calls: usize,
    faults: u64,
}

impl Model for Pieces {
    ghost use Rattle.std.specs.Prelude.{ℕ, List};

    ghost Value = { List ℕ × ℕ };

    ghost view = { λ p. (p.items.items, p.faults) };
}

impl Pieces {
    /// The items were written, and there was no fault.
    pub fn new(items: Vec<u8>, step: usize, fails: Vec<bool>) -> Pieces
        ensures { result ≡ (items.items, 0) }
    {
        Pieces {
            items,
            step,
            fails,
            calls: 0,
            faults: 0,
        }
    }

    /// What was written.
    pub fn written(&self) -> &[u8]
        ensures { result.now ≡ self.now.0 }
    {
        &self.items
    }
}

impl Sink for Pieces {
    ghost written = { λ p. Some p.0 };

    ghost faults = { λ p. p.1 };

    fn write(&mut self, bytes: &[u8]) -> Result<usize, Failed> {
        let fails = self.fails.get(self.calls).copied().unwrap_or(false);
        self.calls = self.calls.saturating_add(1);
        let count = self.step.min(bytes.len());
        if fails || (count == 0 && bytes.len() > 0) {
            self.faults = self.faults.saturating_add(1);
            return Err(Failed);
        }
        match self.items.extend_from_slice(&bytes[..count]) {
            Ok(()) => Ok(count),
            Err(_) => {
                self.faults = self.faults.saturating_add(1);
                Err(Failed)
            }
        }
    }
}

/// A source that never fails: its count of faults is always 0. A contract sees what is left.
#[derive(Drop)]
pub struct SureBytes {
    items: Vec<u8>,
    read: usize,
}

impl Model for SureBytes {
    ghost use Rattle.std.specs.Prelude.{ℕ, ◌≤◌, List, drop, vec_len};

    ghost Value = { List ℕ };

    ghost view = { λ b. drop b.read b.items.items };

    ghost invariant = { λ b. b.read ≤ vec_len b.items };
}

impl SureBytes {
    /// All of the items are left.
    pub fn new(items: Vec<u8>) -> SureBytes
        ensures { result ≡ items.items }
    {
        SureBytes { items, read: 0 }
    }
}

impl Source for SureBytes {
    ghost left = { λ b. Some b };

    ghost faults = { λ _. 0 };

    fn read(&mut self, buf: &mut [u8]) -> Result<usize, Failed> {
        let count = give(&self.items, self.read, usize::MAX, buf);
        self.read += count;
        Ok(count)
    }
}

/// A sink that never fails: it takes all bytes and keeps none, so it does not tell what was written.
#[derive(Clone, Copy)]
pub struct Discard;

impl Sink for Discard {
    ghost written = { λ _. None };

    ghost faults = { λ _. 0 };

    fn write(&mut self, bytes: &[u8]) -> Result<usize, Failed> {
        Ok(bytes.len())
    }
}
