//! The play of a job by the sessions of a manager.

ghost use Rattle.std.specs.Prelude.{◌≡◌, ◌≤◌, IfOk, length};
ghost use Rattle.std.specs.List.{flat_map};
ghost use Rattle.edge_bits.specs.declared.limits.TheConstants.{MOST_SESSIONS};
ghost use Rattle.net_jobs.specs.Plays.{AllCan, AllKept, AreNumbered, PlaysIn};

use crate::gate::Gate;
use crate::halves::parts;
use crate::said::Said;
use dd_session::{Manager, Session};
use edge_bits::Memory;
use job_text::Job;
use std::alloc::Global;
use std::sync::Wait;
use std::thread::Threads;

/// The texts of lines, one after another.
fn written(alloc: Global, said: &[Said]) -> Result<Vec<u8>, Memory>
    ensures { IfOk result (λ text. text.items ≡ flat_map (λ line. line.text.items) said.now) }
{
    let mut text = Vec::new(alloc);
    for line in said {
        text.extend_from_slice(&line.text)?;
    }
    Ok(text)
}

/// Plays each section of a job in a session of its own, all at once: the lines of their calls in the order of places. Session
/// k passes the gate as worker k before each command, with the command's number from 0. After want of memory too the sessions are
/// the manager's, for its caller to close.
pub fn play<R: Threads + Wait + Sync, G: Gate>(
    rt: &R,
    alloc: Global,
    manager: &Manager,
    sessions: &mut [Session],
    job: &Job,
    gate: &G,
) -> Result<Vec<u8>, Memory>
    requires can { AllCan manager.now job.now.sections sessions.old }
    requires numbers { AreNumbered 0 sessions.old }
    requires few { length sessions.old ≤ MOST_SESSIONS }
    ensures played { IfOk result (λ text. PlaysIn manager.now job.now.sections sessions.old sessions.new text.items) }
    ensures kept { AllKept sessions.old sessions.new }
{
    let sections = job.sections.as_slice();
    let mut said = parts(rt, alloc, manager, gate, 0, sections, sessions)?;
    said.sort_unstable_by_key(|line| line.place);
    written(alloc, &said)
}
