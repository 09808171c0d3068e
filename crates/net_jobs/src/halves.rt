//! The parts of several sessions, each in a thread of its own.

ghost use Rattle.std.specs.Prelude.{◌≡◌, ◌+◌, ◌<◌, ◌≤◌, [], ◌∷◌, ◌++◌, IfOk, length};
ghost use Rattle.std.specs.Prelude.{List as ListOf};
ghost use Rattle.edge_bits.specs.declared.limits.TheConstants.{MOST_SESSIONS};
ghost use denote.Param.Send.{IsSync};
ghost use Rattle.net_jobs.specs.declared.said.Said.{Said as Written};
ghost use Rattle.net_jobs.specs.Plays.{AllCan, AllKept, AllPlay, AreNumbered};

use crate::gate::Gate;
use crate::said::Said;
use crate::section::play_section;
use dd_session::{Manager, Session};
use edge_bits::{List, Memory};
use job_text::Command;
use std::alloc::Global;
use std::sync::Wait;
use std::thread::{Threads, join_mut};

/// Plays each section in its session, each in a thread of its own, and gives what they wrote, one session after another. The
/// sessions are halved at each step. The first one passes the gate as the worker `first`.
#[cycle(halves)]
pub fn parts<R: Threads + Wait + Sync, G: Gate>(
    rt: &R,
    alloc: Global,
    manager: &Manager,
    gate: &G,
    first: u32,
    sections: &[List<Command>],
    sessions: &mut [Session],
) -> Result<Vec<Said>, Memory>
    requires can { AllCan manager.now sections.now sessions.old }
    requires numbers { AreNumbered first sessions.old }
    requires few { first + length sessions.old ≤ MOST_SESSIONS }
    ensures said { IfOk result (λ said. AllPlay sections.now sessions.old sessions.new said.items) }
    ensures kept { AllKept sessions.old sessions.new }
{
    if sessions.is_empty() {
        return Ok(Vec::new(alloc));
    }
    if sessions.len() == 1 {
        let commands = sections[0].as_slice();
        return play_section(rt, alloc, manager, gate, first, &mut sessions[0], commands);
    }
    let mid = sessions.len() / 2;
    let up = first + mid as u32;
    let (low_sections, high_sections) = sections.split_at(mid);
    let (low, high) = sessions.split_at_mut(mid);
    both_halves(
        rt,
        alloc,
        manager,
        gate,
        first,
        low_sections,
        low,
        up,
        high_sections,
        high,
    )
}

#[cycle(halves)]
fn both_halves<R: Threads + Wait + Sync, G: Gate>(
    rt: &R,
    alloc: Global,
    manager: &Manager,
    gate: &G,
    first: u32,
    low_sections: &[List<Command>],
    low: &mut [Session],
    up: u32,
    high_sections: &[List<Command>],
    high: &mut [Session],
) -> Result<Vec<Said>, Memory>
    requires some { (0 < length low.old) × (0 < length high.old) }
    requires low { AllCan manager.now low_sections.now low.old × AreNumbered first low.old × (first + length low.old ≤ MOST_SESSIONS) }
    requires high { AllCan manager.now high_sections.now high.old × AreNumbered up high.old × (up + length high.old ≤ MOST_SESSIONS) }
    ensures said { IfOk result (λ said. (here : ListOf Written) × (rest : ListOf Written) × (said.items ≡ here ++ rest) × AllPlay low_sections.now low.old low.new here × AllPlay high_sections.now high.old high.new rest) }
    ensures kept { AllKept low.old low.new × AllKept high.old high.new }
{
    let mut front = || -> Result<Vec<Said>, Memory>
        requires { IsSync R.row × IsSync G.row × AllCan manager.now low_sections.now low.now × AreNumbered first low.now × (first + length low.now ≤ MOST_SESSIONS) }
        ensures { IfOk result (λ said. AllPlay low_sections.entry.now low.entry.now low.exit.now said.items) × AllKept low.entry.now low.exit.now }
    { parts(rt, alloc, manager, gate, first, low_sections, low) };
    let mut back = || -> Result<Vec<Said>, Memory>
        requires { IsSync R.row × IsSync G.row × AllCan manager.now high_sections.now high.now × AreNumbered up high.now × (up + length high.now ≤ MOST_SESSIONS) }
        ensures { IfOk result (λ said. AllPlay high_sections.entry.now high.entry.now high.exit.now said.items) × AllKept high.entry.now high.exit.now }
    { parts(rt, alloc, manager, gate, up, high_sections, high) };
    let (a, b) = join_mut(rt, &mut front, &mut back);
    let mut said = a?;
    let mut rest = b?;
    said.append(&mut rest)?;
    Ok(said)
}
