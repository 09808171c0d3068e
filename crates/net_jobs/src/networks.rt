//! Networks that are built by the sessions of a manager, and what is told of them.

ghost use Rattle.std.specs.Prelude.{◌≡◌, ◌⊎◌, ◌+◌, ◌*◌, ◌≤◌, [], false, true, length, map, All, IfErr, IfOk, List as ListOf, ℕ};
ghost use Rattle.edge_bits.specs.declared.limits.TheConstants.{MOST_BITS, MOST_LIMIT, MOST_SESSIONS, MOST_VARIABLES};
ghost use Rattle.cover_nets.specs.Bounds.{IsBounded};
ghost use Rattle.cover_nets.specs.declared.net.Net.{Net as NetOf};
ghost use Rattle.blif_net.specs.Networks.{IsBlifText};
ghost use Rattle.net_builds.specs.Builds.{AreUnsifted, Builds, FindsOf};
ghost use Rattle.net_builds.specs.Outputs.{AreRefused};
ghost use Rattle.net_builds.specs.Sifting.{BuildsSifted};
ghost use Rattle.net_builds.specs.declared.host.HostRefusal.{HostRefusal as RefusalOf};
ghost use Rattle.net_builds.specs.declared.telling.Findings.{Findings as FindingsOf};
ghost use Rattle.net_builds.specs.declared.telling.Telling.TheVariants.{Summary};
ghost use Rattle.blif_net.specs.GenTexts.{gen_text};
ghost use Rattle.net_reports.specs.Reports.{IsSummary, net_subject, output_functions};
ghost use Rattle.net_jobs.specs.Ends.{IsBuildText, built_subject, rising};
ghost use Rattle.net_jobs.specs.Hosts.{TellsFullOf, standing_of};
ghost use Rattle.net_jobs.specs.Networks.{IsBuildStopped, IsFilledBy, IsFoundIn, IsFreshOf, IsOpenedFor, IsReportStopped, part_stop};
ghost use Rattle.net_jobs.specs.Texts.{IsTextOf};
ghost use Rattle.net_jobs.specs.declared.stops.PartStop.TheVariants as stops;

use crate::gate::Gate;
use crate::hosting::SessionHost;
use crate::pace::Pace;
use crate::stops::PartStop;
use crate::texts::text_of;
use crate::workers::built_shares;
use blif_net::{
    BlifError, Net, dumps_are_read_again, gen_text, networks_are_bounded, networks_have_names,
    read, texts_have_one_reading,
};
use command_words::Options;
use dd_session::{Config, Full, Manager, OpenFault, Session};
use edge_bits::{List, Memory, USUAL_LIMIT};
use net_builds::{
    Findings, HostRefusal, Telling, finish_network, sifted_tellings_are_true, tellings_are_true,
};
use std::alloc::Global;
use std::hash::RandomState;
use std::random::RandomSource;
use std::sync::Wait;
use std::thread::Threads;

/// The cell of the board by which outputs are handed over.
pub const OUTPUTS_CELL: u32 = 0;

/// Builds a network by the sessions of a manager, each of which is a worker's in a thread of its own, and tells what is due of it by the
/// first one, which sifts the variables before, if that is asked for.
fn built_and_told<R: Threads + Wait + Sync, G: Gate>(
    rt: &R,
    alloc: Global,
    manager: &Manager,
    sessions: &mut [Session],
    net: &Net,
    sifts: bool,
    telling: Telling,
    patterns: &[List<bool>],
    gate: &G,
) -> Result<Findings, HostRefusal<Full>>
    requires some { (1 ≤ length sessions.old) × (length sessions.old ≤ MOST_SESSIONS) }
    requires fresh { All (IsFreshOf manager.now) sessions.old }
    requires bounded { IsBounded net.now }
    requires vars { manager.now.vars ≡ length net.now.inputs }
    ensures fresh { All (IsFreshOf manager.now) sessions.new }
    ensures built { IfOk result (λ found. Builds (FindsOf net.now patterns.now telling) OUTPUTS_CELL (output_functions net.now) (map standing_of sessions.old) (map standing_of sessions.new) found) }
    ensures sifted { sifts ≡ true → IfOk result (λ found. BuildsSifted (FindsOf net.now patterns.now telling) manager.now.limit OUTPUTS_CELL (output_functions net.now) (map standing_of sessions.old) (map standing_of sessions.new) found) }
    ensures unsifted { sifts ≡ false → AreUnsifted (map standing_of sessions.old) (map standing_of sessions.new) }
    ensures refused { IfErr result (AreRefused (TellsFullOf manager.now) OUTPUTS_CELL sifts (map standing_of sessions.old) (map standing_of sessions.new)) }
{
    let shares = built_shares(rt, alloc, manager, sessions, net, gate)?;
    let pace = Pace::alone(alloc);
    let host = SessionHost {
        rt,
        manager,
        gate,
        worker: 0,
        pace: &pace,
    };
    finish_network(
        rt,
        alloc,
        &host,
        sessions,
        OUTPUTS_CELL,
        net,
        &shares,
        sifts,
        telling,
        patterns,
    )
}

/// Builds a network by the sessions of a manager, 1 to 64 of them, which have no live row and know of no variable that was added: the
/// report of its outputs, with their values at each pattern, and behind it the stored diagram of the outputs, and then their network of
/// multiplexers, each where the options ask for it. Where the latter would have too many signals, their number is told at the end.
/// Session k is worker k of as many, in a thread of its own: it passes the gate as such before each of its outputs, with the output's
/// number. Where the options ask for a sift, the first session sifts the variables once, over one block, when it has all outputs; the
/// report and the diagram are under the order that this leaves. The sessions are left as they came, with no live row, also where one was
/// refused; the cell of the outputs keeps what was posted last.
pub fn build<R: Threads + Wait + Sync, G: Gate>(
    rt: &R,
    alloc: Global,
    manager: &Manager,
    sessions: &mut [Session],
    net: &Net,
    options: &Options,
    gate: &G,
) -> Result<Vec<u8>, PartStop>
    requires some { (1 ≤ length sessions.old) × (length sessions.old ≤ MOST_SESSIONS) }
    requires fresh { All (IsFreshOf manager.now) sessions.old }
    requires bounded { IsBounded net.now }
    requires vars { manager.now.vars ≡ length net.now.inputs }
    ensures fresh { All (IsFreshOf manager.now) sessions.new }
    ensures built { IfOk result (λ text. (found : FindingsOf) × IsFoundIn manager.now net.now options.now sessions.old sessions.new found × IsTextOf net.now options.now found text) }
    ensures unsifted { options.now.sift ≡ false → AreUnsifted (map standing_of sessions.old) (map standing_of sessions.new) }
    ensures refused { IfErr result (IsBuildStopped manager.now net.now options.now sessions.old sessions.new) }
{
    let patterns = options.patterns.as_slice();
    let found = built_and_told(
        rt,
        alloc,
        manager,
        sessions,
        net,
        options.sift,
        Telling::Report,
        patterns,
        gate,
    )?;
    text_of(alloc, net, options, found)
}

/// The network that is made for so many bits. Its text has no fault, so memory may be wanted and nothing else.
fn made<R: RandomSource>(rt: &R, alloc: Global, bits: u32) -> Result<Net, Memory>
    requires { bits ≤ MOST_BITS }
    ensures text { IfOk result (λ net. IsBlifText (gen_text bits) net) }
    ensures inputs { IfOk result (λ net. length net.inputs ≡ 2 * bits) }
{
    let text = gen_text(alloc, bits)?;
    let Ok(keys) = RandomState::new(rt) else {
        return Err(Memory);
    };
    texts_have_one_reading();
    match read(alloc, keys, &text) {
        Ok(net) => Ok(net),
        Err(BlifError::Memory) => Err(Memory),
        Err(BlifError::Fault(_)) => unreachable!(),
    }
}

/// Builds the network that is made for so many bits by the sessions of a manager, 1 to 64 of them, which have no live row, know of no
/// variable that was added, and have two variables for each bit: the summary of its outputs. Who passes the gate, and what is left of
/// the sessions and of the cell, is as for a report without a sift.
pub fn generate<R: Threads + Wait + Sync + RandomSource, G: Gate>(
    rt: &R,
    alloc: Global,
    manager: &Manager,
    sessions: &mut [Session],
    bits: u32,
    gate: &G,
) -> Result<Vec<u8>, PartStop>
    requires some { (1 ≤ length sessions.old) × (length sessions.old ≤ MOST_SESSIONS) }
    requires fresh { All (IsFreshOf manager.now) sessions.old }
    requires bits { bits ≤ MOST_BITS }
    requires vars { manager.now.vars ≡ 2 * bits }
    ensures fresh { All (IsFreshOf manager.now) sessions.new }
    ensures unsifted { AreUnsifted (map standing_of sessions.old) (map standing_of sessions.new) }
    ensures built { IfOk result (λ text. (net : NetOf) × IsBlifText (gen_text bits) net × (length net.inputs ≡ 2 * bits) × ((found : FindingsOf) × (text ≡ found.text) × Builds (FindsOf net [] Summary) OUTPUTS_CELL (output_functions net) (map standing_of sessions.old) (map standing_of sessions.new) found)) }
    ensures refused { IfErr result (λ stop. ((stop ≡ stops.Memory) × (sessions.new ≡ sessions.old)) ⊎ ((net : NetOf) × IsBlifText (gen_text bits) net × (length net.inputs ≡ 2 * bits) × ((refusal : RefusalOf Full) × (stop ≡ part_stop refusal) × AreRefused (TellsFullOf manager.now) OUTPUTS_CELL false (map standing_of sessions.old) (map standing_of sessions.new) refusal))) }
{
    let Ok(net) = made(rt, alloc, bits) else {
        return Err(PartStop::Memory);
    };
    networks_are_bounded();
    let none: [List<bool>; 0] = [];
    let found = built_and_told(
        rt,
        alloc,
        manager,
        sessions,
        &net,
        false,
        Telling::Summary,
        none.as_slice(),
        gate,
    )?;
    Ok(found.text)
}

/// A manager with so many sessions, for so many inputs and so many slots beyond the permanent ones.
pub fn opened(
    alloc: Global,
    inputs: u32,
    limit: u32,
    workers: u32,
) -> Result<(Manager, Vec<Session>), Memory>
    requires inputs { inputs ≤ MOST_VARIABLES }
    requires limit { limit ≤ MOST_LIMIT }
    requires workers { (1 ≤ workers) × (workers ≤ MOST_SESSIONS) }
    ensures { IfOk result (λ r. IsOpenedFor inputs limit workers r.0 r.1.items) }
{
    let config = Config {
        vars: inputs,
        elements: 0,
        limit: 5 + inputs + limit,
    };
    match Manager::open(alloc, config, workers) {
        Ok(opened) => Ok(opened),
        Err(OpenFault::Memory) => Err(Memory),
        Err(OpenFault::Config) => unreachable!(),
    }
}

/// What is due of a text's network, built by so many workers in a manager of its own with so many slots beyond the permanent ones. A call
/// bound to nothing is there for what it tells.
pub fn report_of<R: Threads + Wait + Sync, G: Gate>(
    rt: &R,
    alloc: Global,
    net: &Net,
    workers: u32,
    limit: u32,
    options: &Options,
    gate: &G,
) -> Result<Vec<u8>, PartStop>
    requires text { (bytes : ListOf ℕ) × IsBlifText bytes net.now }
    requires workers { (1 ≤ workers) × (workers ≤ MOST_SESSIONS) }
    requires limit { limit ≤ MOST_LIMIT }
    ensures report { IfOk result (λ text. IsBuildText options.now net.now.inputs (built_subject net.now limit options.now) text.items) }
    ensures stopped { IfErr result (IsReportStopped net.now limit options.now) }
{
    networks_are_bounded();
    let inputs = net.inputs().len() as u32;
    let Ok((manager, mut sessions)) = opened(alloc, inputs, limit, workers) else {
        return Err(PartStop::Memory);
    };
    let told = build(rt, alloc, &manager, &mut sessions, net, options, gate);
    let _closed = manager.close(rt, sessions);
    tellings_are_true();
    sifted_tellings_are_true();
    networks_have_names();
    dumps_are_read_again();
    told
}

/// The summary of the network that is made for so many bits, built by so many workers in a manager of its own with the usual number of
/// slots.
pub fn summary_of<R: Threads + Wait + Sync + RandomSource, G: Gate>(
    rt: &R,
    alloc: Global,
    workers: u32,
    bits: u32,
    gate: &G,
) -> Result<Vec<u8>, PartStop>
    requires workers { (1 ≤ workers) × (workers ≤ MOST_SESSIONS) }
    requires bits { bits ≤ MOST_BITS }
    ensures summary { IfOk result (λ text. (net : NetOf) × IsBlifText (gen_text bits) net × IsSummary (net_subject net (rising net) []) text.items) }
    ensures full { IfErr result (IsFilledBy (λ slots. (net : NetOf) × IsBlifText (gen_text bits) net × (slots ≡ 5 + length net.inputs + USUAL_LIMIT))) }
{
    let Ok((manager, mut sessions)) = opened(alloc, 2 * bits, USUAL_LIMIT, workers) else {
        return Err(PartStop::Memory);
    };
    let text = generate(rt, alloc, &manager, &mut sessions, bits, gate)?;
    let _closed = manager.close(rt, sessions);
    tellings_are_true();
    Ok(text)
}
