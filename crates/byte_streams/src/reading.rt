//! Reads the source to its end.

ghost use Rattle.std.specs.Prelude.{◌≡◌, ◌^◌, ◌+◌, ◌<◌, ◌≤◌, ◌++◌, ℕ, List, [], length, IfSome, IfOk, OnOk, OnErr, vec_len, IsErrOf, IfErr, ◌≢◌};
ghost use Rattle.std.specs.Io.KnownBytes.{Consumes, IsAtEnd};
ghost use Rattle.byte_streams.specs.Causes.{FaultsRose};

use crate::Source;
use std::alloc::{AllocError, Global};

/// Why a source wasn't read to its end.
#[derive(Debug, Clone, Copy, PartialEq, Eq)]
pub enum ReadStop {
    /// Want of memory.
    Memory,
    /// A read failed.
    Failed,
    /// More bytes came than were allowed.
    TooLong,
}

impl From<AllocError> for ReadStop {
    ghost use Rattle.byte_streams.specs.declared.reading.ReadStop.TheVariants.{Memory};

    ghost from_gives = { λ _ e. e ≡ Memory };

    fn from(_: AllocError) -> ReadStop {
        ReadStop::Memory
    }
}

const CHUNK: usize = 16384;

/// Room for the bytes of one read.
fn buffer(alloc: Global, len: usize) -> Result<Vec<u8>, AllocError>
    ensures { IfOk result (λ v. vec_len v ≡ len) }
{
    vec![in alloc; 0u8; len]
}

/// One read, whose bytes go to the end of the text: how many came.
fn read_part<S: Source>(
    source: &mut S,
    buffer: &mut [u8],
    text: &mut Vec<u8>,
) -> Result<usize, ReadStop>
    requires { 0 < length buffer.old }
    ensures count { IfOk result (λ count. (count ≤ length buffer.old) × (vec_len text.new ≡ vec_len text.old + count)) }
    ensures took { IfOk result (λ count. (bytes : List ℕ) × (text.new.items ≡ text.old.items ++ bytes)
        × Consumes (S.left source.old) (S.left source.new) bytes) }
    ensures end { result ≡ Ok 0 → IsAtEnd (S.left source.new) }
    ensures stop { IfErr result (λ e. e ≢ ReadStop.TooLong) }
    ensures failed { IsErrOf result ReadStop.Failed → FaultsRose (S.faults source.old) (S.faults source.new) }
    ensures later { S.faults source.old ≤ S.faults source.new }
{
    match source.read(buffer) {
        Ok(count) => {
            text.extend_from_slice(&buffer[..count])?;
            Ok(count)
        }
        Err(_) => Err(ReadStop::Failed),
    }
}

/// Reads to the end of input, to a fault or to one byte past the limit.
pub fn read_to_end<S: Source>(
    alloc: Global,
    limit: usize,
    source: &mut S,
) -> Result<Vec<u8>, ReadStop>
    requires { limit < 2 ^ 48 }
    ensures text { IfOk result (λ text. Consumes (S.left source.old) (S.left source.new) text.items) }
    ensures end { OnOk result (IsAtEnd (S.left source.new)) }
    ensures within { IfOk result (λ text. vec_len text ≤ limit) }
    ensures too_long { IsErrOf result ReadStop.TooLong → (bytes : List ℕ) × Consumes (S.left source.old) (S.left source.new) bytes × (length bytes ≡ limit + 1) }
    ensures failed { IsErrOf result ReadStop.Failed → FaultsRose (S.faults source.old) (S.faults source.new) }
    ensures later { S.faults source.old ≤ S.faults source.new }
{
    let mut chunk = buffer(alloc, CHUNK)?;
    let mut text = Vec::new(alloc);
    while text.len() <= limit {
        let room = CHUNK.min(limit + 1 - text.len());
        let part = &mut chunk[..room];
        if read_part(source, part, &mut text)? == 0 {
            return Ok(text);
        }
    }
    Err(ReadStop::TooLong)
}
