//! The shares of several workers: each builds some of a network's outputs.

ghost use Rattle.std.specs.Prelude.{◌≡◌, ◌<◌, ◌≤◌, [], All, None, length, map};
ghost use Rattle.cover_nets.specs.Bounds.{signal_count};
ghost use Rattle.edge_bits.specs.declared.limits.TheConstants.{MOST_SESSIONS};
ghost use Rattle.net_builds.specs.Asked.{MayBuild};
ghost use Rattle.net_builds.specs.Outputs.{IsShared, wanted_of};
ghost use Rattle.net_builds.specs.Shares.{AllGo, MayGo, stop_of, told_first};

use crate::host::{Host, HostRefusal};
use crate::letting::let_go_rows;
use crate::signals::{Outputs, build_outputs, no_outputs};
use crate::worker::Worker;
use cover_nets::Net;
use std::alloc::Global;

/// What a worker made: its outputs, or why it was refused and has none.
#[derive(Drop)]
pub struct Share<F> {
    pub outputs: Outputs,
    pub stop: Option<HostRefusal<F>>,
}

/// The share of a worker that has not begun.
pub fn no_share<F>(alloc: Global) -> Share<F>
    ensures { (result.outputs.names.items ≡ []) × (result.outputs.rows.items ≡ []) × (result.stop ≡ None) }
{
    Share {
        outputs: no_outputs(alloc),
        stop: None,
    }
}

/// Builds the functions of a worker's outputs, in the outputs' order, and leaves no other row. The host is passed before each output. All
/// gates up to an output's signal that some output of the worker needs are built before it passes on, in the gates' order, and a
/// signal's row is let go behind the last gate that reads it. A worker without outputs makes no call. At first the session has one
/// variable for each input, and no live row; it has none where it was refused.
pub fn build_share<H: Host>(
    alloc: Global,
    host: &H,
    session: &mut H::Session,
    net: &Net,
    worker: Worker,
) -> Share<H::Full>
    requires may { MayBuild H.has H.standing host.now session.old net.now }
    requires workers { (worker.number < worker.of) × (worker.of ≤ MOST_SESSIONS) }
    ensures own { H.has host.now session.new }
    ensures shared { IsShared (H.tells host.now) (wanted_of net.now worker.of worker.number) (signal_count net.now) (H.standing session.old) (H.standing session.new) result.outputs result.stop }
{
    match build_outputs(alloc, host, session, net, worker) {
        Ok(outputs) => Share {
            outputs,
            stop: None,
        },
        Err(refusal) => Share {
            outputs: no_outputs(alloc),
            stop: Some(refusal),
        },
    }
}

/// Of two refusals the one that is told: want of memory, else the first.
fn told_first<F: Copy>(
    first: Option<HostRefusal<F>>,
    later: Option<HostRefusal<F>>,
) -> Option<HostRefusal<F>>
    ensures { result ≡ told_first first later }
{
    let Some(_) = first else {
        return later;
    };
    match later {
        None => first,
        Some(HostRefusal::Memory) => later,
        Some(HostRefusal::Full(_)) => first,
    }
}

/// Why some worker was refused, if one was: want of memory, where that is why one was; else the first one's full node table.
pub fn first_stop<F: Copy>(shares: &[Share<F>]) -> Option<HostRefusal<F>>
    ensures { result ≡ stop_of shares.now }
{
    let mut first = None;
    for share in shares {
        first = told_first(first, share.stop);
    }
    first
}

/// Lets the rows of all shares go.
pub fn let_go_shares<H: Host>(host: &H, sessions: &mut [H::Session], shares: &[Share<H::Full>])
    requires may { MayGo H.has H.standing host.now sessions.old shares.now }
    ensures own { All (H.has host.now) sessions.new }
    ensures gone { AllGo (map H.standing sessions.old) (map H.standing sessions.new) shares.now }
{
    for number in 0..sessions.len() {
        let rows = &shares[number].outputs.rows;
        let_go_rows(host, &mut sessions[number], rows);
    }
}
