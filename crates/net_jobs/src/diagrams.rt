//! Stored diagrams that are made by the session of a manager, and what is told of them.

ghost use Rattle.std.specs.Prelude.{◌≡◌, ◌+◌, ◌*◌, ◌≤◌, length, map, All, IfErr, IfOk, ℕ};
ghost use Rattle.std.specs.List.{range_with_len};
ghost use Rattle.edge_bits.specs.declared.limits.TheConstants.{MOST_ROWS, USUAL_LIMIT};
ghost use Rattle.dddmp_text.specs.Bounds.{IsBounded};
ghost use Rattle.dd_session.specs.declared.answers.Full.{Full};
ghost use Rattle.net_builds.specs.Builds.{AreUnsifted};
ghost use Rattle.net_builds.specs.declared.host.HostRefusal.{HostRefusal};
ghost use Rattle.net_reports.specs.Reports.{IsReport, dump_subject};
ghost use Rattle.net_jobs.specs.Hosts.{standing_of};
ghost use Rattle.net_jobs.specs.Networks.{IsFilledBy, IsFreshOf, IsLoadedIn, IsRefusedIn, part_stop};

use crate::gate::Gate;
use crate::hosting::SessionHost;
use crate::networks::opened;
use crate::pace::Pace;
use crate::stops::PartStop;
use command_words::Options;
use dd_session::{Manager, Session};
use diagram_dumps::Dump;
use edge_bits::USUAL_LIMIT;
use net_builds::{load_report, loads_are_true};
use std::alloc::Global;
use std::sync::Wait;

/// Makes a stored diagram by the one session of a manager, which has no live row and knows of no variable that was added: the report
/// of its roots, with their values at each pattern. The session is left so, with no live row, also where it was refused, and it posts
/// to no cell.
pub fn load<R: Wait, G: Gate>(
    rt: &R,
    alloc: Global,
    manager: &Manager,
    sessions: &mut [Session],
    dump: &Dump,
    options: &Options,
    gate: &G,
) -> Result<Vec<u8>, PartStop>
    requires one { length sessions.old ≡ 1 }
    requires fresh { All (IsFreshOf manager.now) sessions.old }
    requires bounded { IsBounded dump.now }
    requires few { 2 * length dump.now.nodes + 6 ≤ MOST_ROWS }
    requires vars { manager.now.vars ≡ dump.now.nvars }
    ensures fresh { All (IsFreshOf manager.now) sessions.new }
    ensures unsifted { AreUnsifted (map standing_of sessions.old) (map standing_of sessions.new) }
    ensures loaded { IfOk result (λ text. IsLoadedIn dump.now options.now.patterns sessions.old sessions.new text.items) }
    ensures refused { IfErr result (λ stop. (refusal : HostRefusal Full) × (stop ≡ part_stop refusal) × ((cell : ℕ) → IsRefusedIn cell manager.now sessions.old sessions.new refusal)) }
{
    let pace = Pace::alone(alloc);
    let host = SessionHost {
        rt,
        manager,
        gate,
        worker: 0,
        pace: &pace,
    };
    let patterns = options.patterns.as_slice();
    let text = load_report(alloc, &host, &mut sessions[0], dump, patterns)?;
    Ok(text)
}

/// The report of a stored diagram, made in a manager of its own with the usual number of slots.
pub fn diagram_report<R: Wait, G: Gate>(
    rt: &R,
    alloc: Global,
    dump: &Dump,
    options: &Options,
    gate: &G,
) -> Result<Vec<u8>, PartStop>
    requires bounded { IsBounded dump.now }
    requires few { 2 * length dump.now.nodes + 6 ≤ MOST_ROWS }
    ensures report { IfOk result (λ text. IsReport (dump_subject dump.now (range_with_len 0 dump.now.nvars) options.now.patterns) text.items) }
    ensures full { IfErr result (IsFilledBy (λ slots. slots ≡ 5 + dump.now.nvars + USUAL_LIMIT)) }
{
    let Ok((manager, mut sessions)) = opened(alloc, dump.nvars, USUAL_LIMIT, 1) else {
        return Err(PartStop::Memory);
    };
    let text = load(rt, alloc, &manager, &mut sessions, dump, options, gate)?;
    let _closed = manager.close(rt, sessions);
    loads_are_true();
    Ok(text)
}
