//! The workers of a network: each builds its share of the outputs by a session of its own, in a thread of its own.

ghost use Rattle.std.specs.Prelude.{◌≡◌, ◌<◌, ◌≤◌, All, IfErr, IfOk, length, map};
ghost use Rattle.cover_nets.specs.Bounds.{IsBounded};
ghost use Rattle.edge_bits.specs.declared.limits.TheConstants.{MOST_SESSIONS};
ghost use denote.Param.Send.{IsSync};
ghost use Rattle.net_builds.specs.Outputs.{AreShared};
ghost use Rattle.net_jobs.specs.Hosts.{IsSessionOf, TellsFullOf, standing_of};
ghost use Rattle.net_jobs.specs.Networks.{IsFreshOf};
ghost use Rattle.net_jobs.specs.Workers.{MayWork};

use crate::gate::Gate;
use crate::hosting::SessionHost;
use crate::pace::Pace;
use blif_net::Net;
use dd_session::{Full, Manager, Session};
use edge_bits::Memory;
use net_builds::{Share, Worker, build_share, no_share};
use std::alloc::Global;
use std::sync::Wait;
use std::thread::{Threads, join_mut};

/// The shares of so many workers that have not begun.
fn no_shares(alloc: Global, count: usize) -> Result<Vec<Share<Full>>, Memory>
    ensures { IfOk result (λ shares. length shares.items ≡ count) }
{
    let mut shares = Vec::new(alloc);
    for _ in 0..count {
        shares.push(no_share(alloc))?;
    }
    Ok(shares)
}

/// Builds the shares of some workers, from this one on, each in a thread of its own. The sessions are halved at each step; where no
/// thread can be had, both halves are built one after the other.
#[cycle(sharing)]
fn build_shares<R: Threads + Wait + Sync, G: Gate>(
    rt: &R,
    alloc: Global,
    manager: &Manager,
    gate: &G,
    pace: &Pace,
    net: &Net,
    first: Worker,
    sessions: &mut [Session],
    shares: &mut [Share<Full>],
)
    requires may { MayWork manager.now net.now first sessions.old (length shares.old) }
    ensures own { All (IsSessionOf manager.now) sessions.new }
    ensures shared { AreShared (TellsFullOf manager.now) net.now first.of first.number (map standing_of sessions.old) (map standing_of sessions.new) shares.new }
{
    if sessions.is_empty() {
        return;
    }
    if sessions.len() == 1 {
        let host = SessionHost {
            rt,
            manager,
            gate,
            worker: first.number,
            pace,
        };
        shares[0] = build_share(alloc, &host, &mut sessions[0], net, first);
        pace.leave(first.number);
        return;
    }
    let mid = sessions.len() / 2;
    let next = Worker {
        number: first.number + mid as u32,
        of: first.of,
    };
    let (low, high) = sessions.split_at_mut(mid);
    let (low_shares, high_shares) = shares.split_at_mut(mid);
    both_halves(
        rt,
        alloc,
        manager,
        gate,
        pace,
        net,
        first,
        low,
        low_shares,
        next,
        high,
        high_shares,
    );
}

#[cycle(sharing)]
fn both_halves<R: Threads + Wait + Sync, G: Gate>(
    rt: &R,
    alloc: Global,
    manager: &Manager,
    gate: &G,
    pace: &Pace,
    net: &Net,
    first: Worker,
    low: &mut [Session],
    low_shares: &mut [Share<Full>],
    next: Worker,
    high: &mut [Session],
    high_shares: &mut [Share<Full>],
)
    requires some { (0 < length low.old) × (0 < length high.old) }
    requires low { MayWork manager.now net.now first low.old (length low_shares.old) }
    requires high { MayWork manager.now net.now next high.old (length high_shares.old) }
    ensures own { All (IsSessionOf manager.now) low.new × All (IsSessionOf manager.now) high.new }
    ensures low { AreShared (TellsFullOf manager.now) net.now first.of first.number (map standing_of low.old) (map standing_of low.new) low_shares.new }
    ensures high { AreShared (TellsFullOf manager.now) net.now next.of next.number (map standing_of high.old) (map standing_of high.new) high_shares.new }
{
    let mut front = ||
        requires { IsSync R.row × IsSync G.row × MayWork manager.now net.now first low.now (length low_shares.now) }
        ensures { All (IsSessionOf manager.entry.now) low.exit.now × AreShared (TellsFullOf manager.entry.now) net.entry.now first.of first.number (map standing_of low.entry.now) (map standing_of low.exit.now) low_shares.exit.now }
    { build_shares(rt, alloc, manager, gate, pace, net, first, low, low_shares) };
    let mut back = ||
        requires { IsSync R.row × IsSync G.row × MayWork manager.now net.now next high.now (length high_shares.now) }
        ensures { All (IsSessionOf manager.entry.now) high.exit.now × AreShared (TellsFullOf manager.entry.now) net.entry.now next.of next.number (map standing_of high.entry.now) (map standing_of high.exit.now) high_shares.exit.now }
    { build_shares(rt, alloc, manager, gate, pace, net, next, high, high_shares) };
    let _joined = join_mut(rt, &mut front, &mut back);
}

/// Builds the shares of all workers of a network, one for each session, each in a thread of its own. Want of memory, where it is
/// told here, changes nothing.
pub fn built_shares<R: Threads + Wait + Sync, G: Gate>(
    rt: &R,
    alloc: Global,
    manager: &Manager,
    sessions: &mut [Session],
    net: &Net,
    gate: &G,
) -> Result<Vec<Share<Full>>, Memory>
    requires few { length sessions.old ≤ MOST_SESSIONS }
    requires fresh { All (IsFreshOf manager.now) sessions.old }
    requires bounded { IsBounded net.now }
    requires vars { manager.now.vars ≡ length net.now.inputs }
    ensures own { All (IsSessionOf manager.now) sessions.new }
    ensures shared { IfOk result (λ shares. AreShared (TellsFullOf manager.now) net.now (length sessions.old) 0 (map standing_of sessions.old) (map standing_of sessions.new) shares.items) }
    ensures same { IfErr result (λ _. sessions.new ≡ sessions.old) }
{
    let workers = sessions.len();
    let mut shares = no_shares(alloc, workers)?;
    let first = Worker {
        number: 0,
        of: workers as u32,
    };
    let pace = Pace::new(alloc, workers)?;
    build_shares(
        rt,
        alloc,
        manager,
        gate,
        &pace,
        net,
        first,
        sessions,
        &mut shares,
    );
    Ok(shares)
}
