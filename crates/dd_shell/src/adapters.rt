//! A reader and a writer of std as a source and a sink, with a count of their faults. They tell what std's do: of the standard
//! streams nothing is known but the count.

ghost use Rattle.std.specs.Prelude.{◌≡◌, ◌+◌, ◌-◌, ◌<◌, ◌^◌, ◌⊎◌, ℕ, List, Option, Ok, IfOk, OnErr, OnOk, length, min};

use net_jobs::{Failed, Sink, Source};
use std::io::{Read, Write};

/// A reader as a source. Each of its errors is a fault.
#[derive(Drop)]
pub struct Reading<R> {
    pub inner: R,
    pub faults: u64,
}

impl<R: Read> Reading<R> {
    /// There was no fault so far.
    pub fn new(inner: R) -> Reading<R>
        ensures { result ≡ record { inner = inner; faults = 0 } }
    {
        Reading { inner, faults: 0 }
    }
}

impl<R: Read> Source for Reading<R> {
    ghost use Rattle.std.specs.Io.{ReadsAtMost};
    ghost use Rattle.std.specs.Io.KnownBytes.{ReadConsumes};
    ghost use Rattle.byte_streams.specs.Causes.{HasCause};

    ghost left = { λ s. R.remaining s.inner };

    ghost faults = { λ s. s.faults };

    /// The reader's next bytes. The count of faults rises by one at an error, and not else.
    fn read(&mut self, buf: &mut [u8]) -> Result<usize, Failed>
        ensures bound { ReadsAtMost result buf.new }
        ensures bytes { ReadConsumes (R.remaining self.old.inner) (R.remaining self.new.inner) result buf.new }
        ensures cause { HasCause self.old.faults self.new.faults result }
        ensures counted { OnErr result (self.new.faults ≡ min (self.old.faults + 1) (2 ^ 64 - 1)) }
        ensures uncounted { OnOk result (self.new.faults ≡ self.old.faults) }
    {
        match self.inner.read(buf) {
            Ok(count) => Ok(count),
            Err(_) => {
                self.faults = self.faults.saturating_add(1);
                Err(Failed)
            }
        }
    }
}

/// A writer as a sink. Each of its errors is a fault, and so is a write that takes none of some bytes.
#[derive(Drop)]
pub struct Writing<W> {
    pub inner: W,
    pub faults: u64,
}

impl<W: Write> Writing<W> {
    /// There was no fault so far.
    pub fn new(inner: W) -> Writing<W>
        ensures { result ≡ record { inner = inner; faults = 0 } }
    {
        Writing { inner, faults: 0 }
    }
}

impl<W: Write> Sink for Writing<W> {
    ghost use Rattle.std.specs.Io.{WritesAtMost};
    ghost use Rattle.std.specs.Io.KnownBytes.{WriteAppends};
    ghost use Rattle.byte_streams.specs.Causes.{HasCause, FaultsRose};

    ghost written = { λ s. W.contents s.inner };

    ghost faults = { λ s. s.faults };

    /// Hands a front of the bytes to the writer. The count of faults rises by one at an error and where the writer takes none of some bytes, and not else.
    fn write(&mut self, bytes: &[u8]) -> Result<usize, Failed>
        ensures bound { WritesAtMost result bytes.now }
        ensures bytes { WriteAppends (W.contents self.old.inner) (W.contents self.new.inner) result bytes.now }
        ensures cause { HasCause self.old.faults self.new.faults result }
        ensures stuck { result ≡ Ok 0 → 0 < length bytes.now → FaultsRose self.old.faults self.new.faults }
        ensures counted { OnErr result (self.new.faults ≡ min (self.old.faults + 1) (2 ^ 64 - 1)) }
        ensures stuck_counted { IfOk result (λ count. count ≡ 0 → 0 < length bytes.now → self.new.faults ≡ min (self.old.faults + 1) (2 ^ 64 - 1)) }
        ensures uncounted { IfOk result (λ count. (0 < count) ⊎ (length bytes.now ≡ 0) → self.new.faults ≡ self.old.faults) }
    {
        match self.inner.write(bytes) {
            Ok(count) => {
                if count == 0 && bytes.len() > 0 {
                    self.faults = self.faults.saturating_add(1);
                }
                Ok(count)
            }
            Err(_) => {
                self.faults = self.faults.saturating_add(1);
                Err(Failed)
            }
        }
    }
}
