//! The reader of networks.

ghost use Rattle.std.specs.Prelude.{◌≡◌, IfErr, IfOk, List as ListOf};
ghost use Rattle.blif_net.specs.Ending.{ErrorIs, IsNetFrom};
ghost use Rattle.blif_net.specs.Faults.{HasFault, fault_in, last_number};
ghost use Rattle.blif_net.specs.Networks.{IsBlifText};
ghost use Rattle.blif_net.specs.Reading.{IsReadWhole, stopped_at};
ghost use Rattle.blif_net.specs.Sound.{ArePlainLines};
ghost use Rattle.blif_text.specs.Text.{Line, kept_bytes};

use crate::ending::{fault_at, network_in, uses_of, whole_in};
use crate::faults::{BlifError, BlifStop};
use crate::reading::Reading;
use blif_drafts::Judged;
use blif_text::{kept_bytes, next_line};
use cover_nets::Net;
use std::alloc::Global;
use std::hash::RandomState;

/// Why a text was not read of which the line of this number was not taken.
fn stopped_at(line: u64, stop: BlifStop) -> BlifError
    ensures { result ≡ stopped_at line stop }
{
    match stop {
        BlifStop::Memory => BlifError::Memory,
        BlifStop::Fault(what) => fault_at(line, what),
    }
}

/// The network of all lines, where the last one has this number, or what is wrong with their models or with the whole.
fn finish(alloc: Global, reading: Reading<'_>, last: u64) -> Result<Net, BlifError>
    requires { (lines : ListOf Line) × ArePlainLines lines × IsReadWhole lines reading }
    ensures net { IfOk result (λ net. (lines : ListOf Line) → ArePlainLines lines → IsReadWhole lines reading.entry → IsNetFrom lines net) }
    ensures fault { IfErr result (λ error. (lines : ListOf Line) → ArePlainLines lines → IsReadWhole lines reading.entry → last ≡ last_number lines → ErrorIs (fault_in lines) error) }
{
    let Reading {
        models,
        mut closed,
        rows,
        outputs,
        ..
    } = reading;
    closed.push(rows)?;
    let Judged {
        names,
        interfaces,
        verdict,
    } = models.judge(alloc)?;
    let whole = whole_in(verdict)?;
    let main = &interfaces[0];
    let uses = uses_of(alloc, main.outputs.as_slice(), &outputs)?;
    let inputs = main.inputs.as_slice();
    network_in(alloc, names, whole, inputs, &uses, &closed, last)
}

/// The network of a text, or its fault. These bytes are kept of its joined lines.
fn read_kept(alloc: Global, keys: RandomState, text: &[u8], kept: &[u8]) -> Result<Net, BlifError>
    requires { kept.now ≡ kept_bytes text.now }
    ensures net { IfOk result (λ net. IsBlifText text.now net) }
    ensures fault { IfErr result (λ error. HasFault text.now error) }
{
    let mut reading = Reading::new(alloc, keys);
    let mut words = Vec::new(alloc);
    let mut rest = text;
    let mut kept = kept;
    let mut number = 1u64;
    let mut last = 0u64;
    while !rest.is_empty() {
        let next = next_line(rest, kept, number);
        match reading.take(alloc, keys, &mut words, next.bytes, number) {
            Ok(()) => {}
            Err(stop) => return Err(stopped_at(number, stop)),
        }
        last = number;
        number = next.number;
        rest = next.rest;
        kept = next.kept;
    }
    reading.close(alloc)?;
    finish(alloc, reading, last)
}

/// The network of a text of any length in the Berkeley Logic Interchange Format, or its first faulty line and the first fault on it;
/// where no line is faulty, what is wrong with its models or with the whole. The network is that of the first model, in which each
/// `.subckt` stands for a copy of its model; latches are cut: what they show are inputs, and what they read are outputs.
///
/// Names are looked up by indices whose hashes have these keys, so that chosen names do not make it slow. Want of memory may be
/// the answer to any text.
pub fn read(alloc: Global, keys: RandomState, text: &[u8]) -> Result<Net, BlifError>
    ensures net { IfOk result (λ net. IsBlifText text.now net) }
    ensures fault { IfErr result (λ error. HasFault text.now error) }
{
    let kept = kept_bytes(alloc, text)?;
    read_kept(alloc, keys, text, &kept)
}
