//! What the commands tell: of what the source holds, or of a network that is made.

ghost use Rattle.std.specs.Prelude.{◌≡◌, ◌<◌, ◌≤◌, ◌^◌, All, length, ℕ, List as ListOf, Option, Some, IfOk, IfErr, string_bytes};
ghost use Rattle.edge_bits.specs.declared.limits.TheConstants.{MOST_BITS, MOST_LIMIT, MOST_ROWS, MOST_SESSIONS};
ghost use Rattle.command_words.specs.declared.order.Order.{Order};
ghost use Rattle.command_words.specs.declared.order.Order.TheVariants.{Build, Gen, Load, Play};
ghost use Rattle.job_text.specs.Grammar.{IsJob};
ghost use Rattle.job_text.specs.Histories.{IsPlayed, left_text};
ghost use Rattle.byte_streams.specs.Causes.{FaultsRose};
ghost use Rattle.net_jobs.specs.Ends.{Due, IsWhole, Reads};
ghost use Rattle.net_jobs.specs.Refusals.{part_refusal, refusal_line, status_of};
ghost use Rattle.net_jobs.specs.declared.status.Status.{Status};

use crate::diagrams::diagram_report;
use crate::gate::Gate;
use crate::networks::{report_of, summary_of};
use crate::playing::play;
use crate::refusal::RunRefusal;
use crate::stops::PartStop;
use blif_net::{BlifError, read};
use byte_streams::{ReadStop, Source, read_to_end};
use command_words::Options;
use dd_session::{Config, Manager, OpenFault};
use dddmp_text::{DddmpError, dumps_are_bounded, read as read_diagram};
use edge_bits::{LONGEST_TEXT, Memory};
use job_text::{Job, JobError, parse};
use std::alloc::{AllocError, Global};
use std::hash::RandomState;
use std::random::RandomSource;
use std::sync::Wait;
use std::thread::Threads;

/// The last line of a history: the number of slots in use at its end.
fn left_line(alloc: Global, count: u32) -> Result<String, AllocError>
    ensures { IfOk result (λ line. string_bytes line ≡ left_text count) }
{
    format!(in alloc; "left {count}\n")
}

/// Plays a job in a manager of its own, each section in a session: the text of its history, and then the number of slots that
/// are left once all rows are dropped, five and one for each variable.
fn history<R: Threads + Wait + Sync, G: Gate>(
    rt: &R,
    alloc: Global,
    job: &Job,
    gate: &G,
) -> Result<Vec<u8>, Memory>
    requires job { IsJob job.now }
    requires few { All (λ commands. length commands < MOST_ROWS) job.now.sections }
    ensures { IfOk result (λ text. IsPlayed job.now text.items) }
{
    let config = Config {
        vars: job.vars,
        elements: job.elements,
        limit: job.limit,
    };
    let (manager, mut sessions) = match Manager::open(alloc, config, job.sections.len() as u32) {
        Ok(opened) => opened,
        Err(OpenFault::Memory) => return Err(Memory),
        Err(OpenFault::Config) => unreachable!(),
    };
    let mut text = play(rt, alloc, &manager, &mut sessions, job, gate)?;
    let closed = manager.close(rt, sessions);
    text.extend_from_slice(left_line(alloc, closed.left)?.as_bytes())?;
    Ok(text)
}

/// The whole text of the source.
fn whole_text<S: Source>(alloc: Global, source: &mut S) -> Result<Vec<u8>, RunRefusal>
    ensures text { IfOk result (λ text. IsWhole (S.left source.old) (S.left source.new) text.items) }
    ensures refusal { IfErr result (λ refusal. (order : Order) → Reads (Some order) → Due (Some order) (S.left source.old) (S.left source.new)
        (FaultsRose (S.faults source.old) (S.faults source.new)) (status_of refusal) (refusal_line refusal)) }
{
    match read_to_end(alloc, LONGEST_TEXT as usize, source) {
        Ok(text) => Ok(text),
        Err(ReadStop::Memory) => Err(RunRefusal::Memory),
        Err(ReadStop::Failed) => Err(RunRefusal::Read),
        Err(ReadStop::TooLong) => Err(RunRefusal::TooLong),
    }
}

/// The history of the job that the source holds.
pub fn play_source<R: Threads + Wait + Sync, S: Source, G: Gate>(
    rt: &R,
    alloc: Global,
    source: &mut S,
    gate: &G,
) -> Result<Vec<u8>, RunRefusal>
    ensures text { IfOk result (λ text. Due (Some Play) (S.left source.old) (S.left source.new)
        (FaultsRose (S.faults source.old) (S.faults source.new)) Status.Ok text.items) }
    ensures refusal { IfErr result (λ refusal. Due (Some Play) (S.left source.old) (S.left source.new)
        (FaultsRose (S.faults source.old) (S.faults source.new)) (status_of refusal) (refusal_line refusal)) }
{
    let text = whole_text(alloc, source)?;
    let job = match parse(alloc, &text) {
        Ok(job) => job,
        Err(JobError::Memory) => return Err(RunRefusal::Memory),
        Err(JobError::Fault(fault)) => return Err(RunRefusal::Job(fault)),
    };
    match history(rt, alloc, &job, gate) {
        Ok(text) => Ok(text),
        Err(Memory) => Err(RunRefusal::Memory),
    }
}

/// Why a part has nothing to tell.
fn refusal_of(stop: PartStop) -> RunRefusal
    ensures { result ≡ part_refusal stop }
{
    match stop {
        PartStop::Memory => RunRefusal::Memory,
        PartStop::Full(full) => RunRefusal::Full(full),
        PartStop::Large { signals } => RunRefusal::Large(signals),
    }
}

/// What is due of the network that the source holds, built by so many workers.
pub fn build_source<R: Threads + Wait + Sync + RandomSource, S: Source, G: Gate>(
    rt: &R,
    alloc: Global,
    workers: u32,
    limit: u32,
    options: &Options,
    source: &mut S,
    gate: &G,
) -> Result<Vec<u8>, RunRefusal>
    requires workers { (1 ≤ workers) × (workers ≤ MOST_SESSIONS) }
    requires limit { limit ≤ MOST_LIMIT }
    ensures text { IfOk result (λ text. Due (Some (Build workers limit options.now)) (S.left source.old) (S.left source.new)
        (FaultsRose (S.faults source.old) (S.faults source.new)) Status.Ok text.items) }
    ensures refusal { IfErr result (λ refusal. Due (Some (Build workers limit options.now)) (S.left source.old) (S.left source.new)
        (FaultsRose (S.faults source.old) (S.faults source.new)) (status_of refusal) (refusal_line refusal)) }
{
    let text = whole_text(alloc, source)?;
    let Ok(keys) = RandomState::new(rt) else {
        // No status tells that there are no keys.
        return Err(RunRefusal::Memory);
    };
    let net = match read(alloc, keys, &text) {
        Ok(net) => net,
        Err(BlifError::Memory) => return Err(RunRefusal::Memory),
        Err(BlifError::Fault(fault)) => return Err(RunRefusal::Blif(fault)),
    };
    match report_of(rt, alloc, &net, workers, limit, options, gate) {
        Ok(text) => Ok(text),
        Err(stop) => Err(refusal_of(stop)),
    }
}

/// The report of the stored diagram that the source holds.
pub fn load_source<R: Wait, S: Source, G: Gate>(
    rt: &R,
    alloc: Global,
    options: &Options,
    source: &mut S,
    gate: &G,
) -> Result<Vec<u8>, RunRefusal>
    ensures text { IfOk result (λ text. Due (Some (Load options.now.patterns)) (S.left source.old) (S.left source.new)
        (FaultsRose (S.faults source.old) (S.faults source.new)) Status.Ok text.items) }
    ensures refusal { IfErr result (λ refusal. Due (Some (Load options.now.patterns)) (S.left source.old) (S.left source.new)
        (FaultsRose (S.faults source.old) (S.faults source.new)) (status_of refusal) (refusal_line refusal)) }
{
    let text = whole_text(alloc, source)?;
    let dump = match read_diagram(alloc, &text) {
        Ok(dump) => dump,
        Err(DddmpError::Memory) => return Err(RunRefusal::Memory),
        Err(DddmpError::Fault(fault)) => return Err(RunRefusal::Dddmp(fault)),
    };
    dumps_are_bounded();
    match diagram_report(rt, alloc, &dump, options, gate) {
        Ok(text) => Ok(text),
        Err(stop) => Err(refusal_of(stop)),
    }
}

/// The summary of the network that is made for so many bits, built by so many workers. No source is read.
pub fn made_summary<R: Threads + Wait + Sync + RandomSource, G: Gate>(
    rt: &R,
    alloc: Global,
    workers: u32,
    bits: u32,
    gate: &G,
) -> Result<Vec<u8>, RunRefusal>
    requires workers { (1 ≤ workers) × (workers ≤ MOST_SESSIONS) }
    requires bits { bits ≤ MOST_BITS }
    ensures text { IfOk result (λ text. (before now : ℕ) (left : Option (ListOf ℕ)) → Due (Some (Gen workers bits)) left left (FaultsRose before now) Status.Ok text.items) }
    ensures refusal { IfErr result (λ refusal. (before now : ℕ) (left : Option (ListOf ℕ)) → Due (Some (Gen workers bits)) left left (FaultsRose before now) (status_of refusal) (refusal_line refusal)) }
{
    match summary_of(rt, alloc, workers, bits, gate) {
        Ok(text) => Ok(text),
        Err(stop) => Err(refusal_of(stop)),
    }
}
