//! The last gate that reads each signal of a network, of the gates that some outputs need.

ghost use Rattle.std.specs.Prelude.{◌≡◌, ◌≢◌, ◌⊎◌, ◌+◌, ◌<◌, ◌≤◌, ◌^◌, length, replicate, slice_index, All, IfOk, ℕ};
ghost use Rattle.cover_nets.specs.Bounds.{signal_count};
ghost use Rattle.cover_nets.specs.Networks.{IsOrdered};
ghost use Rattle.net_builds.specs.Uses.{AreLastUses, IsReader, KnowsReads, Raises};

use cover_nets::Net;
use edge_bits::Memory;
use std::alloc::{AllocError, Global};

/// What is noted of an output's signal: it is used to the end.
pub const TO_THE_END: u32 = u32::MAX;

/// So many zeros.
fn none_used(alloc: Global, count: usize) -> Result<Vec<u32>, AllocError>
    ensures { IfOk result (λ last. last.items ≡ replicate count 0) }
{
    vec![in alloc; 0u32; count]
}

/// Notes that the signals are used by the reader, or later.
fn raise(last: &mut [u32], signals: &[u32], reader: u32)
    requires { All (λ signal. signal < length last.old) signals.now }
    ensures { Raises signals.now reader last.old last.new }
{
    for signal in signals {
        let i = *signal as usize;
        last[i] = last[i].max(reader);
    }
}

/// Notes for each gate that is used, from the last to the first, which signals it reads.
fn follow(last: &mut [u32], net: &Net)
    requires ordered { IsOrdered net.now }
    requires long { length last.old ≡ signal_count net.now }
    requires few { signal_count net.now < 2 ^ 32 }
    ensures long { length last.new ≡ signal_count net.now }
    ensures raised { (signal : ℕ) → slice_index last.old signal ≤ slice_index last.new signal }
    ensures reads { KnowsReads net.now 0 last.new }
    ensures told { (signal : ℕ) → slice_index last.new signal ≢ 0 → (slice_index last.new signal ≡ slice_index last.old signal) ⊎ IsReader net.now last.new signal (slice_index last.new signal) }
{
    let inputs = net.inputs().len();
    let mut left = net.gates().len();
    while left > 0 {
        left -= 1;
        let reader = inputs + left;
        if last[reader] != 0 {
            raise(last, net.gates()[left].ins.as_slice(), reader as u32);
        }
    }
}

/// Notes the last uses of all signals, of which none is noted.
fn note(last: &mut [u32], net: &Net, own: &[u32])
    requires ordered { IsOrdered net.now }
    requires none { last.old ≡ replicate (signal_count net.now) 0 }
    requires few { signal_count net.now < 2 ^ 32 }
    requires own { All (λ signal. signal < signal_count net.now) own.now }
    ensures { AreLastUses net.now own.now last.new }
{
    raise(last, own, TO_THE_END);
    follow(last, net);
}

/// By signal, the last gate that reads it, by its own signal: of the gates that these outputs' signals need. It is 0 for a
/// signal that is not needed, and the greatest number for one of the outputs'.
pub fn last_uses(alloc: Global, net: &Net, own: &[u32]) -> Result<Vec<u32>, Memory>
    requires ordered { IsOrdered net.now }
    requires few { signal_count net.now < 2 ^ 32 }
    requires own { All (λ signal. signal < signal_count net.now) own.now }
    ensures { IfOk result (λ last. AreLastUses net.now own.now last.items) }
{
    let mut last = none_used(alloc, net.inputs().len() + net.gates().len())?;
    note(&mut last, net, own);
    Ok(last)
}
