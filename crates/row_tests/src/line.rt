//! What stands behind the first word of a line.

use crate::row::Pace;
use std::alloc::{AllocError, AllocFailed, Global};
use std::num::NonZeroUsize;

/// Why a line says nothing.
#[derive(Debug, Clone, Copy)]
pub enum LineError {
    /// Memory was wanting.
    Memory,
    /// It has not the form of a line.
    Malformed,
}

impl From<AllocError> for LineError {
    fn from(_: AllocError) -> LineError {
        LineError::Memory
    }
}

impl<T: Drop> From<AllocFailed<T>> for LineError {
    fn from(_: AllocFailed<T>) -> LineError {
        LineError::Memory
    }
}

/// The byte for which a front of the text stands behind a `\`, and the rest of the text.
fn escaped(text: &str) -> Option<(u8, &str)> {
    if let Some(rest) = text.strip_prefix('t') {
        return Some((b'\t', rest));
    }
    if let Some(rest) = text.strip_prefix('r') {
        return Some((b'\r', rest));
    }
    let (digits, rest) = text.strip_prefix('x')?.split_at_checked(2)?;
    let byte = u8::from_str_radix(digits, 16).ok()?;
    Some((byte, rest))
}

/// Adds the bytes for which a piece behind a `\` stands.
fn add_piece(bytes: &mut Vec<u8>, piece: &str) -> Result<(), LineError> {
    let (byte, rest) = escaped(piece).ok_or(LineError::Malformed)?;
    bytes.push(byte)?;
    bytes.extend_from_slice(rest.as_bytes())?;
    Ok(())
}

/// Adds the bytes for which a line stands.
pub fn add_bytes(bytes: &mut Vec<u8>, line: &str) -> Result<(), LineError> {
    let mut pieces = line.split('\\');
    bytes.extend_from_slice(pieces.next().unwrap_or("").as_bytes())?;
    for piece in pieces {
        add_piece(bytes, piece)?;
    }
    Ok(())
}

/// Adds the bytes for which a line stands, and a line feed unless a `\` ends it.
pub fn add_line(bytes: &mut Vec<u8>, line: &str) -> Result<(), LineError> {
    match line.strip_suffix('\\') {
        Some(front) => add_bytes(bytes, front),
        None => {
            add_bytes(bytes, line)?;
            bytes.push(b'\n')?;
            Ok(())
        }
    }
}

/// Adds whether a call fails.
fn add_call(fails: &mut Vec<bool>, call: u8) -> Result<(), LineError> {
    match call {
        b'0' => fails.push(false)?,
        b'1' => fails.push(true)?,
        _ => return Err(LineError::Malformed),
    }
    Ok(())
}

/// Adds for each of some calls whether it fails.
fn add_calls(fails: &mut Vec<bool>, calls: &str) -> Result<(), LineError> {
    for call in calls.bytes() {
        add_call(fails, call)?;
    }
    Ok(())
}

/// `STEP`, or `STEP CALLS`.
pub fn parse_pace(alloc: Global, text: &str) -> Result<Pace, LineError> {
    let (step, calls) = text.split_once(' ').unwrap_or((text, "0"));
    let step = step
        .parse::<NonZeroUsize>()
        .map_err(|_| LineError::Malformed)?;
    let mut fails = Vec::new(alloc);
    add_calls(&mut fails, calls)?;
    Ok(Pace { step, fails })
}
