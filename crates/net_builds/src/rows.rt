//! The rows of a network's signals, made and let go in the order of the signals.

ghost use Rattle.std.specs.Prelude.{◌≡◌, ◌+◌, ◌<◌, ◌≤◌, ◌^◌, length, slice_index_or, All, IfOk, IsSome, ℕ, Some};
ghost use Rattle.cover_nets.specs.Bounds.{signal_count};
ghost use Rattle.edge_bits.specs.declared.limits.TheConstants.{MOST_SESSIONS};
ghost use Rattle.net_builds.specs.Building.{AreEnded, BuildsTo, IsEndedAt, ended, row_at};
ghost use Rattle.net_builds.specs.Asked.{HasBuilt, HasEnded, StaysBuilt};

use crate::host::{Host, HostRefusal};
use crate::products::cover;
use crate::uses::TO_THE_END;
use crate::worker::Worker;
use cover_nets::Net;
use function_laws::Name;

/// Makes the row of an input, if it is needed.
fn make_input<H: Host>(
    host: &H,
    session: &mut H::Session,
    net: &Net,
    last: &[u32],
    rows: &mut [Option<Name>],
    signal: u32,
) -> Result<(), HostRefusal<H::Full>>
    requires has { HasBuilt H.has H.standing host.now session.old net.now last.now signal rows.old }
    requires input { signal < length net.now.inputs }
    ensures built { IfOk result (λ _. BuildsTo net.now last.now (signal + 1) (H.standing session.old) (H.standing session.new) rows.new) }
    ensures back { StaysBuilt H.has H.standing H.tells host.now net.now last.now session.old session.new rows.new result }
{
    let place = signal as usize;
    if last[place] == 0 {
        return Ok(());
    }
    rows[place] = Some(host.projection(session, signal)?);
    Ok(())
}

/// Makes the rows of the inputs that are needed.
pub fn make_inputs<H: Host>(
    host: &H,
    session: &mut H::Session,
    net: &Net,
    last: &[u32],
    rows: &mut [Option<Name>],
) -> Result<(), HostRefusal<H::Full>>
    requires has { HasBuilt H.has H.standing host.now session.old net.now last.now 0 rows.old }
    ensures built { IfOk result (λ _. BuildsTo net.now last.now (length net.now.inputs) (H.standing session.old) (H.standing session.new) rows.new) }
    ensures back { StaysBuilt H.has H.standing H.tells host.now net.now last.now session.old session.new rows.new result }
{
    for signal in 0..net.inputs().len() {
        make_input(host, session, net, last, rows, signal as u32)?;
    }
    Ok(())
}

/// Lets the row of a signal go, if the gate that was built is the last one that reads it.
fn let_go_read<H: Host>(
    host: &H,
    session: &mut H::Session,
    net: &Net,
    last: &[u32],
    rows: &mut [Option<Name>],
    reader: usize,
    signal: u32,
)
    requires has { HasBuilt H.has H.standing host.now session.old net.now last.now (reader + 1) rows.old }
    requires within { signal < signal_count net.now }
    ensures own { H.has host.now session.new }
    ensures built { BuildsTo net.now last.now (reader + 1) (H.standing session.old) (H.standing session.new) rows.new }
{
    let place = signal as usize;
    if last[place] as usize == reader {
        if let Some(name) = rows[place] {
            host.let_go(session, name);
            rows[place] = None;
        }
    }
}

/// Lets the rows go for which the gate that was built is the last one that reads them.
fn let_go_all_read<H: Host>(
    host: &H,
    session: &mut H::Session,
    net: &Net,
    last: &[u32],
    rows: &mut [Option<Name>],
    reader: usize,
    ins: &[u32],
)
    requires has { HasBuilt H.has H.standing host.now session.old net.now last.now (reader + 1) rows.old }
    requires within { All (λ signal. signal < signal_count net.now) ins.now }
    ensures own { H.has host.now session.new }
    ensures built { BuildsTo net.now last.now (reader + 1) (H.standing session.old) (H.standing session.new) rows.new }
{
    for signal in ins {
        let_go_read(host, session, net, last, rows, reader, *signal);
    }
}

/// Makes the row of a gate, if it is needed, and lets the rows go that no later gate reads.
fn make_gate<H: Host>(
    host: &H,
    session: &mut H::Session,
    net: &Net,
    last: &[u32],
    rows: &mut [Option<Name>],
    signal: usize,
) -> Result<(), HostRefusal<H::Full>>
    requires has { HasBuilt H.has H.standing host.now session.old net.now last.now signal rows.old }
    requires gate { length net.now.inputs ≤ signal }
    requires within { signal < signal_count net.now }
    ensures built { IfOk result (λ _. BuildsTo net.now last.now (signal + 1) (H.standing session.old) (H.standing session.new) rows.new) }
    ensures back { StaysBuilt H.has H.standing H.tells host.now net.now last.now session.old session.new rows.new result }
{
    if last[signal] == 0 {
        return Ok(());
    }
    let gate = &net.gates()[signal - net.inputs().len()];
    rows[signal] = Some(cover(host, session, gate, rows)?);
    let_go_all_read(host, session, net, last, rows, signal, gate.ins.as_slice());
    Ok(())
}

/// Makes the rows of the needed gates up to a signal. Tells which gate is the next one.
fn make_up_to<H: Host>(
    host: &H,
    session: &mut H::Session,
    net: &Net,
    last: &[u32],
    rows: &mut [Option<Name>],
    first: usize,
    signal: u32,
) -> Result<usize, HostRefusal<H::Full>>
    requires has { HasBuilt H.has H.standing host.now session.old net.now last.now first rows.old }
    requires gate { length net.now.inputs ≤ first }
    requires within { signal < signal_count net.now }
    ensures built { IfOk result (λ next. BuildsTo net.now last.now next (H.standing session.old) (H.standing session.new) rows.new) }
    ensures behind { IfOk result (λ next. (signal < next) × (first ≤ next)) }
    ensures back { StaysBuilt H.has H.standing H.tells host.now net.now last.now session.old session.new rows.new result }
{
    let mut next = first;
    while next <= signal as usize {
        make_gate(host, session, net, last, rows, next)?;
        next += 1;
    }
    Ok(next)
}

/// Makes the rows of the signals of the worker's outputs, one after another. Tells which gate is the next one.
pub fn make_outputs<H: Host>(
    host: &H,
    session: &mut H::Session,
    net: &Net,
    worker: Worker,
    last: &[u32],
    rows: &mut [Option<Name>],
    own: &[u32],
) -> Result<usize, HostRefusal<H::Full>>
    requires has { HasBuilt H.has H.standing host.now session.old net.now last.now (length net.now.inputs) rows.old }
    requires within { All (λ signal. signal < signal_count net.now) own.now }
    requires few { length own.now < 2 ^ 24 }
    requires workers { (worker.number < worker.of) × (worker.of ≤ MOST_SESSIONS) }
    ensures built { IfOk result (λ next. BuildsTo net.now last.now next (H.standing session.old) (H.standing session.new) rows.new) }
    ensures behind { IfOk result (λ next. All (λ signal. signal < next) own.now) }
    ensures back { StaysBuilt H.has H.standing H.tells host.now net.now last.now session.old session.new rows.new result }
{
    let mut next = net.inputs().len();
    let mut output = worker.number as usize;
    for number in 0..own.len() {
        host.pass(output as u32);
        next = make_up_to(host, session, net, last, rows, next, own[number])?;
        output += worker.of as usize;
    }
    Ok(next)
}

/// Lets the row of a signal go that is not used to the end.
fn let_go_unless_ended<H: Host>(
    host: &H,
    session: &mut H::Session,
    net: &Net,
    last: &[u32],
    rows: &mut [Option<Name>],
    next: usize,
    signal: usize,
)
    requires has { HasEnded H.has H.standing host.now session.old net.now last.now next rows.old }
    requires within { signal < signal_count net.now }
    ensures own { H.has host.now session.new }
    ensures built { BuildsTo net.now (ended last.now) next (H.standing session.old) (H.standing session.new) rows.new }
    ensures gone { IsEndedAt last.now signal rows.old rows.new }
{
    if last[signal] == TO_THE_END {
        return;
    }
    if let Some(name) = rows[signal] {
        host.let_go(session, name);
        rows[signal] = None;
    }
}

/// Lets the rows go that are not of outputs, behind the last gate that was made.
pub fn let_go_ended<H: Host>(
    host: &H,
    session: &mut H::Session,
    net: &Net,
    last: &[u32],
    rows: &mut [Option<Name>],
    next: usize,
)
    requires has { HasBuilt H.has H.standing host.now session.old net.now last.now next rows.old }
    ensures own { H.has host.now session.new }
    ensures built { BuildsTo net.now (ended last.now) next (H.standing session.old) (H.standing session.new) rows.new }
    ensures gone { AreEnded last.now rows.new }
{
    for signal in 0..last.len() {
        let_go_unless_ended(host, session, net, last, rows, next, signal);
    }
}

/// Notes the names of these signals' rows, one after another.
pub fn note_names(names: &mut [Name], rows: &[Option<Name>], own: &[u32])
    requires long { length names.old ≡ length own.now }
    requires within { All (λ signal. signal < length rows.now) own.now }
    requires rows { All (λ signal. IsSome (row_at rows.now signal)) own.now }
    ensures long { length names.new ≡ length own.now }
    ensures noted { (i : ℕ) (d : ℕ) (e : Name) → i < length own.now → row_at rows.now (slice_index_or own.now i d) ≡ Some (slice_index_or names.new i e) }
{
    for number in 0..own.len() {
        if let Some(name) = rows[own[number] as usize] {
            names[number] = name;
        }
    }
}
