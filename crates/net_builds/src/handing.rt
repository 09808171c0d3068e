//! The handing over of built functions to the first session.

ghost use Rattle.std.specs.List.{AllZip};
ghost use Rattle.std.specs.Prelude.{◌≡◌, ◌<◌, ◌≤◌, [], ◌∷◌, ◌++◌, Bool, List as ListOf, false, true, length, map, vec_capacity, All, IfErr, IfOk, ℕ};
ghost use Rattle.edge_bits.specs.declared.limits.TheConstants.{CELLS};
ghost use Rattle.net_builds.specs.Handings.{AreInTurn, Gathers, GathersSome, HandsOne, Returns};
ghost use Rattle.net_builds.specs.Shares.{IsLiveAt, MayGather};
ghost use Rattle.net_builds.specs.Standings.{HasRoom};

use crate::host::Host;
use crate::letting::let_go_fetched;
use crate::sharing::Share;
use crossbeam_utils::Backoff;
use edge_bits::Memory;
use function_laws::Name;
use std::alloc::Global;
use std::sync::Wait;

/// A function that went from one session to another by a cell of the board: the name under which it was built, the name
/// under which it was fetched, the places of the two calls, and the name that the fetch had beside.
#[derive(Debug, Clone, Copy, PartialEq, Eq, Drop)]
pub struct Handover {
    pub from: Name,
    pub to: Name,
    pub other: Name,
    pub post: u64,
    pub fetch: u64,
}

/// Goes on where the condition holds, and waits for ever where it does not: it backs off, so that other threads get the processor.
fn wait_unless<R: Wait>(rt: &R, holds: bool)
    ensures { holds ≡ true }
{
    if holds {
        return;
    }
    let backoff = Backoff::new();
    for _ in rt.forever() {
        backoff.snooze();
    }
    unreachable!()
}

/// Whether a handover comes behind the earlier ones.
fn is_behind(earlier: &[Handover], next: &Handover) -> bool
    ensures { result ≡ true → AreInTurn 0 earlier.now → AreInTurn 0 (next.now ∷ []) → AreInTurn 0 (earlier.now ++ next.now ∷ []) }
{
    match earlier.last() {
        None => true,
        Some(last) => last.fetch < next.post,
    }
}

/// Hands over one name: its session posts it to the cell, and the first session fetches it from there, where it has another name. It
/// waits for ever where the fetch finds nothing posted, or lies below the post.
fn hand_one<R: Wait, H: Host>(
    rt: &R,
    host: &H,
    sessions: &mut [H::Session],
    cell: u32,
    giver: usize,
    name: Name,
    other: Name,
) -> Result<Handover, Memory>
    requires own { All (H.has host.now) sessions.old }
    requires room { All HasRoom (map H.standing sessions.old) }
    requires cell { cell < CELLS }
    requires giver { giver < length sessions.old }
    requires held { IsLiveAt (map H.standing sessions.old) giver name }
    requires other { IsLiveAt (map H.standing sessions.old) 0 other }
    ensures own { All (H.has host.now) sessions.new }
    ensures handed { IfOk result (λ handover. HandsOne cell giver (map H.standing sessions.old) (map H.standing sessions.new) name handover) }
    ensures refused { IfErr result (λ _. AllZip (Returns cell false) (map H.standing sessions.old) (map H.standing sessions.new)) }
{
    let posted = host.post(&mut sessions[giver], cell, name);
    let fetched = host.fetch(&mut sessions[0], cell, other)?;
    wait_unless(rt, fetched.value.posted);
    wait_unless(rt, posted.place < fetched.place);
    Ok(Handover {
        from: name,
        to: fetched.value.name,
        other,
        post: posted.place,
        fetch: fetched.place,
    })
}

/// Hands over the functions of all shares in the order of the outputs, and notes the handovers.
fn hand_all<R: Wait, H: Host>(
    rt: &R,
    host: &H,
    sessions: &mut [H::Session],
    cell: u32,
    shares: &[Share<H::Full>],
    outputs: usize,
    handovers: &mut Vec<Handover>,
) -> Result<(), Memory>
    requires may { (wanted : ListOf (ℕ → Bool)) × MayGather H.has H.standing host.now sessions.old wanted shares.now × (length wanted ≡ outputs) }
    requires cell { cell < CELLS }
    requires none { handovers.old.items ≡ [] }
    requires room { outputs ≤ vec_capacity handovers.old }
    ensures own { All (H.has host.now) sessions.new }
    ensures handed { IfOk result (λ _. (wanted : ListOf (ℕ → Bool)) → MayGather H.has H.standing host.now sessions.old wanted shares.now → length wanted ≡ outputs → Gathers cell wanted (map H.standing sessions.old) (map H.standing sessions.new) handovers.new.items) }
    ensures refused { IfErr result (λ _. GathersSome cell outputs (map H.standing sessions.old) (map H.standing sessions.new) handovers.new.items) }
{
    let other = shares[0].outputs.names[0];
    for output in 0..outputs {
        let giver = output % sessions.len();
        let name = shares[giver].outputs.names[output / sessions.len()];
        let next = hand_one(rt, host, sessions, cell, giver, name, other)?;
        wait_unless(rt, is_behind(handovers, &next));
        handovers.push_reserved(next);
    }
    Ok(())
}

/// Hands the functions of all shares over to the first session, in the order of the outputs, by a cell of the board: each is posted by
/// the session that built it and fetched by the first, the fetch above the post and below the next post. Where the places are not so,
/// or a fetch finds nothing posted, it waits for ever. Where memory is wanting, what was fetched is let go.
pub fn gather<R: Wait, H: Host>(
    rt: &R,
    alloc: Global,
    host: &H,
    sessions: &mut [H::Session],
    cell: u32,
    shares: &[Share<H::Full>],
    outputs: usize,
) -> Result<Vec<Handover>, Memory>
    requires may { (wanted : ListOf (ℕ → Bool)) × MayGather H.has H.standing host.now sessions.old wanted shares.now × (length wanted ≡ outputs) }
    requires cell { cell < CELLS }
    ensures own { All (H.has host.now) sessions.new }
    ensures handed { IfOk result (λ handovers. (wanted : ListOf (ℕ → Bool)) → MayGather H.has H.standing host.now sessions.old wanted shares.now → length wanted ≡ outputs → Gathers cell wanted (map H.standing sessions.old) (map H.standing sessions.new) handovers.items) }
    ensures refused { IfErr result (λ _. AllZip (Returns cell false) (map H.standing sessions.old) (map H.standing sessions.new)) }
{
    let mut handovers = Vec::with_capacity(alloc, outputs)?;
    match hand_all(rt, host, sessions, cell, shares, outputs, &mut handovers) {
        Ok(()) => Ok(handovers),
        Err(Memory) => {
            let_go_fetched(host, &mut sessions[0], &handovers);
            Err(Memory)
        }
    }
}
