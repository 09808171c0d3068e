//! A network whose shares were built by some sessions, gathered and told of by the first one.

ghost use Rattle.std.specs.List.{AllZip};
ghost use Rattle.std.specs.Prelude.{◌≡◌, ◌<◌, ◌^◌, false, true, length, map, All, IfErr, IfOk, List as ListOf, ℕ};
ghost use Rattle.edge_bits.specs.declared.limits.TheConstants.{CELLS};
ghost use Rattle.net_reports.specs.Reports.{output_functions};
ghost use Rattle.net_builds.specs.Asked.{MayMakeRows, MayReport};
ghost use Rattle.net_builds.specs.Builds.{AreUnsifted, Builds, FindsOf};
ghost use Rattle.net_builds.specs.Handings.{Returns};
ghost use Rattle.net_builds.specs.Outputs.{AreRefused, AreShared};
ghost use Rattle.net_builds.specs.Shares.{AreBuilt, HandsAndTells, MayFinish, MayGather, SiftsAndTells, SiftsIf, StopsOnly};
ghost use Rattle.net_builds.specs.Sifting.{BuildsSifted};
ghost use Rattle.net_builds.specs.Standings.{Standing};

use crate::handing::{Handover, gather};
use crate::host::{Host, HostRefusal};
use crate::letting::let_go_fetched;
use crate::sharing::{Share, first_stop, let_go_shares};
use crate::telling::{Findings, Telling, tell};
use cover_nets::Net;
use edge_bits::{List, Memory};
use function_laws::Name;
use std::alloc::Global;
use std::sync::Wait;

/// The names that were fetched.
fn fetched(alloc: Global, handovers: &[Handover]) -> Result<Vec<Name>, Memory>
    ensures { IfOk result (λ names. names.items ≡ map (λ h. h.to) handovers.now) }
{
    let mut names = Vec::new(alloc);
    for handover in handovers {
        names.push(handover.to)?;
    }
    Ok(names)
}

/// Sifts the variables, if that is asked for.
fn sift_if<H: Host>(
    alloc: Global,
    host: &H,
    session: &mut H::Session,
    net: &Net,
    sifts: bool,
) -> Result<(), Memory>
    requires may { MayMakeRows H.has H.standing host.now session.old 1 }
    requires vars { (H.standing session.old).vars ≡ length net.now.inputs }
    requires few { length net.now.inputs < 2 ^ 32 }
    ensures own { H.has host.now session.new }
    ensures sifted { IfOk result (λ _. SiftsIf sifts (H.limit host.now) (H.standing session.old) (H.standing session.new)) }
    ensures same { IfErr result (λ _. H.standing session.new ≡ H.standing session.old) }
{
    if !sifts {
        return Ok(());
    }
    host.sift(alloc, session, net.inputs().len() as u32)
}

/// Sifts, if that is asked for, and tells what is due of the functions that were fetched.
fn told_fetched<H: Host>(
    alloc: Global,
    host: &H,
    session: &mut H::Session,
    net: &Net,
    handovers: &[Handover],
    sifts: bool,
    telling: Telling,
    patterns: &[List<bool>],
) -> Result<Findings, Memory>
    requires may { MayReport H.has H.standing host.now session.old (length net.now.inputs) (length net.now.outputs) (map (λ h. h.to) handovers.now) }
    requires few { length net.now.inputs < 2 ^ 32 }
    ensures own { H.has host.now session.new }
    ensures told { IfOk result (λ found. SiftsAndTells sifts (H.limit host.now) (FindsOf net.now patterns.now telling) (H.standing session.old) (H.standing session.new) (map (λ h. h.to) handovers.now) found) }
    ensures returns { (cell : ℕ) → Returns cell sifts (H.standing session.old) (H.standing session.new) }
{
    let names = fetched(alloc, handovers)?;
    sift_if(alloc, host, session, net, sifts)?;
    tell(alloc, host, session, net, &names, telling, patterns)
}

/// Gathers the functions of all shares, sifts if that is asked for, and tells what is due of what was fetched, which is let go, also where
/// memory is wanting.
fn told_gathered<R: Wait, H: Host>(
    rt: &R,
    alloc: Global,
    host: &H,
    sessions: &mut [H::Session],
    cell: u32,
    net: &Net,
    shares: &[Share<H::Full>],
    sifts: bool,
    telling: Telling,
    patterns: &[List<bool>],
) -> Result<Findings, Memory>
    requires may { MayGather H.has H.standing host.now sessions.old (output_functions net.now) shares.now }
    requires vars { All (λ s. s.vars ≡ length net.now.inputs) (map H.standing sessions.old) }
    requires few { length net.now.inputs < 2 ^ 32 }
    requires cell { cell < CELLS }
    ensures own { All (H.has host.now) sessions.new }
    ensures told { IfOk result (λ found. HandsAndTells sifts (H.limit host.now) (FindsOf net.now patterns.now telling) cell (output_functions net.now) (map H.standing sessions.old) (map H.standing sessions.new) found) }
    ensures returns { AllZip (Returns cell sifts) (map H.standing sessions.old) (map H.standing sessions.new) }
{
    let outputs = net.outputs().len();
    let handovers = gather(rt, alloc, host, sessions, cell, shares, outputs)?;
    let first = &mut sessions[0];
    let found = told_fetched(
        alloc, host, first, net, &handovers, sifts, telling, patterns,
    );
    let_go_fetched(host, &mut sessions[0], &handovers);
    found
}

/// Tells what is due of a network, if no worker was refused.
fn told_unless_stopped<R: Wait, H: Host>(
    rt: &R,
    alloc: Global,
    host: &H,
    sessions: &mut [H::Session],
    cell: u32,
    net: &Net,
    shares: &[Share<H::Full>],
    sifts: bool,
    telling: Telling,
    patterns: &[List<bool>],
) -> Result<Findings, HostRefusal<H::Full>>
    requires may { MayFinish H.has H.standing H.tells host.now sessions.old net.now shares.now }
    requires cell { cell < CELLS }
    ensures own { All (H.has host.now) sessions.new }
    ensures told { IfOk result (λ found. HandsAndTells sifts (H.limit host.now) (FindsOf net.now patterns.now telling) cell (output_functions net.now) (map H.standing sessions.old) (map H.standing sessions.new) found) }
    ensures returns { AllZip (Returns cell sifts) (map H.standing sessions.old) (map H.standing sessions.new) }
    ensures done { IfOk result (λ _. AreBuilt shares.now) }
    ensures stopped { IfErr result (StopsOnly shares.now (map H.standing sessions.old) (map H.standing sessions.new)) }
{
    if let Some(stop) = first_stop(shares) {
        return Err(stop);
    }
    let found = told_gathered(
        rt, alloc, host, sessions, cell, net, shares, sifts, telling, patterns,
    )?;
    Ok(found)
}

/// Tells what is due of a network whose shares were built by some sessions: its outputs are handed over to the first session by a cell of
/// the board, in their order. That one sifts the variables, if that is asked for, and then tells of what it fetched, with the values at
/// the patterns where that is a report, under the order of the variables that it noted last, and gives the listing by which it told. The sessions have no live row at the end,
/// also where some worker was refused, or memory is wanting; the cell keeps what was posted. Calls of other sessions may come between;
/// where a fetch does not find its post for them, it waits for ever. An error is want of memory, or a call of some worker that was
/// refused for a full node table.
pub fn finish_network<R: Wait, H: Host>(
    rt: &R,
    alloc: Global,
    host: &H,
    sessions: &mut [H::Session],
    cell: u32,
    net: &Net,
    shares: &[Share<H::Full>],
    sifts: bool,
    telling: Telling,
    patterns: &[List<bool>],
) -> Result<Findings, HostRefusal<H::Full>>
    requires may { MayFinish H.has H.standing H.tells host.now sessions.old net.now shares.now }
    requires cell { cell < CELLS }
    ensures own { All (H.has host.now) sessions.new }
    ensures none { All (λ s. s.rows ≡ 0) (map H.standing sessions.new) }
    ensures built { IfOk result (λ found. (old : ListOf Standing) → AreShared (H.tells host.now) net.now (length sessions.old) 0 old (map H.standing sessions.old) shares.now
        → Builds (FindsOf net.now patterns.now telling) cell (output_functions net.now) old (map H.standing sessions.new) found) }
    ensures sifted { sifts ≡ true → IfOk result (λ found. (old : ListOf Standing) → AreShared (H.tells host.now) net.now (length sessions.old) 0 old (map H.standing sessions.old) shares.now
        → BuildsSifted (FindsOf net.now patterns.now telling) (H.limit host.now) cell (output_functions net.now) old (map H.standing sessions.new) found) }
    ensures unsifted { sifts ≡ false → (old : ListOf Standing) → AreShared (H.tells host.now) net.now (length sessions.old) 0 old (map H.standing sessions.old) shares.now
        → AreUnsifted old (map H.standing sessions.new) }
    ensures refused { IfErr result (λ refusal. (old : ListOf Standing) → AreShared (H.tells host.now) net.now (length sessions.old) 0 old (map H.standing sessions.old) shares.now
        → AreRefused (H.tells host.now) cell sifts old (map H.standing sessions.new) refusal) }
{
    let told = told_unless_stopped(
        rt, alloc, host, sessions, cell, net, shares, sifts, telling, patterns,
    );
    let_go_shares(host, sessions, shares);
    told
}
