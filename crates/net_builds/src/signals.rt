//! The functions of the outputs of a network that one worker builds.

ghost use Rattle.std.specs.Prelude.{◌≡◌, ◌<◌, ◌≤◌, [], All, length, map, replicate, IfErr, IfOk, None, ℕ};
ghost use Rattle.cover_nets.specs.Bounds.{IsBounded, signal_count};
ghost use Rattle.edge_bits.specs.declared.limits.TheConstants.{MOST_SESSIONS};
ghost use Rattle.net_builds.specs.Building.{IsBegun, IsBuilt, ended};
ghost use Rattle.net_builds.specs.Asked.{MayBuild, StaysBuilt};
ghost use Rattle.net_builds.specs.Outputs.{AreOnlyOf, BuildsOutputs, IsUndone, share, wanted_of};
ghost use Rattle.net_builds.specs.Signals.{BuildsAll};
ghost use Rattle.net_builds.specs.Uses.{AreLastUses};

use crate::host::{Host, HostRefusal};
use crate::letting::let_go_rows;
use crate::rows::{let_go_ended, make_inputs, make_outputs, note_names};
use crate::uses::last_uses;
use crate::worker::Worker;
use cover_nets::Net;
use edge_bits::Memory;
use function_laws::Name;
use std::alloc::{AllocError, Global};

/// What is noted while outputs are built: the outputs' signals, the last use of each signal, the signals' rows, and the outputs'
/// names.
#[derive(Drop)]
struct Ledger {
    own: Vec<u32>,
    last: Vec<u32>,
    rows: Vec<Option<Name>>,
    names: Vec<Name>,
}

/// The names of the functions of a worker's outputs, one for each, and their rows by signal.
#[derive(Drop)]
pub struct Outputs {
    pub names: Vec<Name>,
    pub rows: Vec<Option<Name>>,
}

/// No output.
pub fn no_outputs(alloc: Global) -> Outputs
    ensures { (result.names.items ≡ []) × (result.rows.items ≡ []) }
{
    Outputs {
        names: Vec::new(alloc),
        rows: Vec::new(alloc),
    }
}

/// The signals of the worker's outputs.
fn output_signals(alloc: Global, net: &Net, worker: Worker) -> Result<Vec<u32>, AllocError>
    requires { worker.number < worker.of }
    ensures { IfOk result (λ own. own.items ≡ share worker.number worker.of (map (λ output. output.signal) net.now.outputs)) }
{
    let mut own = Vec::new(alloc);
    let mut wait = worker.number;
    for output in net.outputs() {
        if wait == 0 {
            own.push(output.signal)?;
            wait = worker.of;
        }
        wait -= 1;
    }
    Ok(own)
}

/// So many signals without a row.
fn no_rows(alloc: Global, count: usize) -> Result<Vec<Option<Name>>, AllocError>
    ensures { IfOk result (λ rows. rows.items ≡ replicate count None) }
{
    vec![in alloc; None; count]
}

/// So many names, of no row.
fn no_names(alloc: Global, count: usize) -> Result<Vec<Name>, AllocError>
    ensures { IfOk result (λ names. length names.items ≡ count) }
{
    vec![in alloc; Name {
        row: 0,
        generation: 0
    }; count]
}

/// All the memory that the building of these outputs' signals needs.
fn begin(alloc: Global, net: &Net, own: Vec<u32>) -> Result<Ledger, Memory>
    requires bounded { IsBounded net.now }
    requires own { All (λ signal. signal < signal_count net.now) own.items }
    ensures { IfOk result (IsBegun net.now own.items) }
{
    let last = last_uses(alloc, net, &own)?;
    let rows = no_rows(alloc, last.len())?;
    let names = no_names(alloc, own.len())?;
    Ok(Ledger {
        own,
        last,
        rows,
        names,
    })
}

/// Makes the rows of the worker's outputs and notes their names, where no signal has a row yet. Rows of other signals are let go.
fn make_rows<H: Host>(
    host: &H,
    session: &mut H::Session,
    net: &Net,
    worker: Worker,
    own: &[u32],
    last: &[u32],
    rows: &mut [Option<Name>],
    names: &mut [Name],
) -> Result<(), HostRefusal<H::Full>>
    requires may { MayBuild H.has H.standing host.now session.old net.now }
    requires workers { (worker.number < worker.of) × (worker.of ≤ MOST_SESSIONS) }
    requires signals { own.now ≡ share worker.number worker.of (map (λ output. output.signal) net.now.outputs) }
    requires last { AreLastUses net.now own.now last.now }
    requires rows { rows.old ≡ replicate (signal_count net.now) None }
    requires names { length names.old ≡ length own.now }
    ensures built { IfOk result (λ _. BuildsAll (wanted_of net.now worker.of worker.number) (signal_count net.now) (H.standing session.old) (H.standing session.new) names.new) }
    ensures rows { IfOk result (λ _. (next : ℕ) × IsBuilt net.now (ended last.now) next (H.standing session.new) rows.new) }
    ensures only { IfOk result (λ _. AreOnlyOf names.new rows.new) }
    ensures back { StaysBuilt H.has H.standing H.tells host.now net.now last.now session.old session.new rows.new result }
{
    make_inputs(host, session, net, last, rows)?;
    let next = make_outputs(host, session, net, worker, last, rows, own)?;
    let_go_ended(host, session, net, last, rows, next);
    note_names(names, rows, own);
    Ok(())
}

/// Builds the worker's outputs and notes their names, where no signal has a row yet. Where that is refused, all rows are let go.
fn build_all<H: Host>(
    host: &H,
    session: &mut H::Session,
    net: &Net,
    worker: Worker,
    own: &[u32],
    last: &[u32],
    rows: &mut [Option<Name>],
    names: &mut [Name],
) -> Result<(), HostRefusal<H::Full>>
    requires may { MayBuild H.has H.standing host.now session.old net.now }
    requires workers { (worker.number < worker.of) × (worker.of ≤ MOST_SESSIONS) }
    requires signals { own.now ≡ share worker.number worker.of (map (λ output. output.signal) net.now.outputs) }
    requires last { AreLastUses net.now own.now last.now }
    requires rows { rows.old ≡ replicate (signal_count net.now) None }
    requires names { length names.old ≡ length own.now }
    ensures own { H.has host.now session.new }
    ensures built { IfOk result (λ _. BuildsAll (wanted_of net.now worker.of worker.number) (signal_count net.now) (H.standing session.old) (H.standing session.new) names.new) }
    ensures rows { IfOk result (λ _. (next : ℕ) × IsBuilt net.now (ended last.now) next (H.standing session.new) rows.new) }
    ensures only { IfOk result (λ _. AreOnlyOf names.new rows.new) }
    ensures undone { IfErr result (IsUndone (H.tells host.now) (H.standing session.old) (H.standing session.new)) }
{
    match make_rows(host, session, net, worker, own, last, rows, names) {
        Ok(()) => Ok(()),
        Err(refusal) => {
            let_go_rows(host, session, rows);
            Err(refusal)
        }
    }
}

/// Builds the functions of the worker's outputs, in the outputs' order, and leaves no other row. All gates up to an output's signal that
/// some output of the worker needs are built before it is told as built, in the gates' order, and a signal's row is let go behind the
/// last gate that reads it. A worker without outputs makes no call. Where it is refused, all rows are let go.
pub fn build_outputs<H: Host>(
    alloc: Global,
    host: &H,
    session: &mut H::Session,
    net: &Net,
    worker: Worker,
) -> Result<Outputs, HostRefusal<H::Full>>
    requires may { MayBuild H.has H.standing host.now session.old net.now }
    requires workers { (worker.number < worker.of) × (worker.of ≤ MOST_SESSIONS) }
    ensures own { H.has host.now session.new }
    ensures built { IfOk result (BuildsOutputs (wanted_of net.now worker.of worker.number) (signal_count net.now) (H.standing session.old) (H.standing session.new)) }
    ensures idle { wanted_of net.now worker.of worker.number ≡ [] → H.standing session.new ≡ H.standing session.old }
    ensures undone { IfErr result (IsUndone (H.tells host.now) (H.standing session.old) (H.standing session.new)) }
{
    let own = output_signals(alloc, net, worker)?;
    if own.is_empty() {
        return Ok(no_outputs(alloc));
    }
    let Ledger {
        own,
        last,
        mut rows,
        mut names,
    } = begin(alloc, net, own)?;
    build_all(
        host, session, net, worker, &own, &last, &mut rows, &mut names,
    )?;
    Ok(Outputs { names, rows })
}
