//! The top call.

ghost use Rattle.std.specs.Prelude.{◌≡◌, ◌≢◌, ◌<◌, ◌^◌, ◌++◌, All, codes, length, ℕ, List, Some, None, IfOk, IfErr, map, string_bytes};
ghost use Rattle.std.specs.Io.KnownBytes.{Appends};
ghost use Rattle.command_words.specs.declared.order.Order.TheVariants.{Gen};
ghost use Rattle.command_words.specs.Orders.{order_of};
ghost use Rattle.byte_streams.specs.Causes.{FaultsRose, AppendsFront};
ghost use Rattle.net_jobs.specs.Ends.{Due, IsComplete, IsCompleteForBuilds, IsCompleteForLoads, IsCompleteForMade, PlaysAlone};
ghost use Rattle.net_jobs.specs.Refusals.{refusal_line, status_of};
ghost use Rattle.net_jobs.specs.declared.status.Status.{Status};
ghost use Rattle.net_jobs.specs.declared.status.Status.TheVariants.{Memory as WantOfMemory, WriteFault};

use crate::finding::{build_source, load_source, made_summary, play_source};
use crate::gate::Gate;
use crate::refusal::RunRefusal;
use crate::status::Status;
use byte_streams::{Sink, Source, write_to_end};
use command_words::{Options, Order, read_words};
use edge_bits::Memory;
use std::alloc::Global;
use std::random::RandomSource;
use std::sync::Wait;
use std::thread::Threads;

/// The text that the words ask for; else why there is none.
fn find<R: Threads + Wait + Sync + RandomSource, S: Source, G: Gate>(
    rt: &R,
    alloc: Global,
    words: &[String],
    source: &mut S,
    gate: &G,
) -> Result<Vec<u8>, RunRefusal>
    ensures text { IfOk result (λ text. Due (order_of (map string_bytes words.now)) (S.left source.old) (S.left source.new)
        (FaultsRose (S.faults source.old) (S.faults source.new)) Status.Ok text.items) }
    ensures refusal { IfErr result (λ refusal. Due (order_of (map string_bytes words.now)) (S.left source.old) (S.left source.new)
        (FaultsRose (S.faults source.old) (S.faults source.new)) (status_of refusal) (refusal_line refusal)) }
    ensures untouched { order_of (map string_bytes words.now) ≡ None → source.new ≡ source.old }
    ensures generated { (workers bits : ℕ) → order_of (map string_bytes words.now) ≡ Some (Gen workers bits) → source.new ≡ source.old }
{
    match read_words(alloc, words) {
        Ok(Some(Order::Play)) => play_source(rt, alloc, source, gate),
        Ok(
            Some(
                Order::Build {
                    workers,
                    limit,
                    options,
                },
            ),
        ) => build_source(rt, alloc, workers, limit, &options, source, gate),
        Ok(Some(Order::Gen { workers, bits })) => made_summary(rt, alloc, workers, bits, gate),
        Ok(Some(Order::Load { patterns })) => {
            let options = Options {
                sift: false,
                store: false,
                blif: false,
                patterns,
            };
            load_source(rt, alloc, &options, source, gate)
        }
        Ok(None) => Err(RunRefusal::Usage),
        Err(Memory) => Err(RunRefusal::Memory),
    }
}

/// Writes what there is to tell. A failing sink is told of in place of any other end.
fn tell<K: Sink>(sink: &mut K, text: &[u8], status: Status) -> Status
    requires { status ≢ WriteFault }
    ensures told { result ≢ WriteFault → (result ≡ status) × Appends (K.written sink.old) (K.written sink.new) text.now }
    ensures cut_off { result ≡ WriteFault → FaultsRose (K.faults sink.old) (K.faults sink.new) × AppendsFront (K.written sink.old) (K.written sink.new) text.now }
{
    match write_to_end(sink, text) {
        Ok(()) => status,
        Err(_) => Status::WriteFault,
    }
}

/// Writes the one line of a run for which memory is wanting, as of one that cannot have its words.
pub fn refuse_memory<K: Sink>(sink: &mut K) -> Status
    ensures told { result ≢ WriteFault → (result ≡ WantOfMemory) × Appends (K.written sink.old) (K.written sink.new) (codes "fault: memory\n") }
    ensures cut_off { result ≡ WriteFault → FaultsRose (K.faults sink.old) (K.faults sink.new) × AppendsFront (K.written sink.old) (K.written sink.new) (codes "fault: memory\n") }
{
    tell(sink, b"fault: memory\n", Status::Memory)
}

/// Runs the command that the words ask for, from the source to the sink. The words are those after the program's name.
///
/// `play` reads the text of a job and writes the text of its history. `build` reads a network and writes its report, with `--store` the
/// stored diagram of its outputs behind it, and with `--blif` behind both the outputs as a network of multiplexers; with `--sift` all are
/// under the order that a sift leaves for the outputs' functions. `load` reads a stored diagram and writes its report. `gen` makes a network and writes its summary. What `build` and `gen` write does not
/// depend on the number of workers. The checks come in this order: words, reading, length, format, work, writing; a refused run
/// writes its one line alone.
#[tactic(auto, using(crate::proofs::WordLemmas::plays_alone))]
pub fn run<R: Threads + Wait + Sync + RandomSource, S: Source, K: Sink, G: Gate>(
    rt: &R,
    alloc: Global,
    words: &[String],
    source: &mut S,
    sink: &mut K,
    gate: &G,
) -> Status
    // The status has its cause, and its whole text was written.
    ensures told { result ≢ WriteFault → (text : List ℕ)
        × Due (order_of (map string_bytes words.now)) (S.left source.old) (S.left source.new) (FaultsRose (S.faults source.old) (S.faults source.new)) result text
        × Appends (K.written sink.old) (K.written sink.new) text }

    // The sink failed, and a front of what there was to tell was written.
    ensures cut_off { result ≡ WriteFault → FaultsRose (K.faults sink.old) (K.faults sink.new)
        × ((status : Status) × (text : List ℕ)
        × Due (order_of (map string_bytes words.now)) (S.left source.old) (S.left source.new) (FaultsRose (S.faults source.old) (S.faults source.new)) status text
        × AppendsFront (K.written sink.old) (K.written sink.new) text) }

    // Where the words ask for nothing, nothing is read.
    ensures untouched { order_of (map string_bytes words.now) ≡ None → source.new ≡ source.old }

    // Nor is it for a network that is made.
    ensures generated { (workers bits : ℕ) → order_of (map string_bytes words.now) ≡ Some (Gen workers bits) → source.new ≡ source.old }

    // `play` is asked for by that word alone.
    ensures plays_alone { PlaysAlone (map string_bytes words.now) }
{
    match find(rt, alloc, words, source, gate) {
        Ok(text) => tell(sink, &text, Status::Ok),
        Err(refusal) => match refusal.line(alloc) {
            Ok(line) => tell(sink, line.as_bytes(), refusal.status()),
            Err(_) => refuse_memory(sink),
        },
    }
}

/// Where the text is that of a job and nothing failed, a run of `play` tells the history, or want of memory.
pub fn plays_are_complete()
    ensures { IsComplete }
{}

/// Where the text is that of a network and nothing failed, a run of `build` tells what is due of it, that the manager is full, that
/// the network of multiplexers is too large, or want of memory.
pub fn builds_are_complete()
    ensures { IsCompleteForBuilds }
{}

/// Where the text is that of a stored diagram and nothing failed, a run of `load` tells its report, that the manager is full, or want of
/// memory.
pub fn loads_are_complete()
    ensures { IsCompleteForLoads }
{}

/// A run of `gen` tells the summary, that the manager is full, or want of memory, whatever becomes of the source.
pub fn made_networks_are_complete()
    ensures { IsCompleteForMade }
{}
