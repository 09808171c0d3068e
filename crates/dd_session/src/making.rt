//! What makes a function of a session's rows: by their edges, in one turn; where no slot was free with a sweep and another try in a second one.

ghost use Rattle.std.specs.Prelude.{◌≡◌, [], is_err, map, All, IfNone, IfOk, IfSome, IsErrOf, IsTrue, None, Some, false, true};
ghost use Rattle.edge_bits.specs.declared.edges.Kind.{Kind as KindOf};
ghost use Rattle.edge_bits.specs.declared.edges.Kind.TheVariants as kinds;
ghost use Rattle.function_laws.specs.Makings.{kind_made as kind_of_made, needs_nodes};
ghost use Rattle.node_slots.specs.Stores.{IsStore};
ghost use Rattle.operator_calls.specs.Making.{takes, told_by, unmade_as, work};
ghost use Rattle.operator_calls.specs.Taking.{of_lent, with_given};
ghost use Rattle.shared_store.specs.Counted.{AreRead};
ghost use Rattle.shared_store.specs.Sharing.{Serving, view_of};
ghost use Rattle.seat_guard.specs.declared.view.Hold.TheVariants.{Holding};
ghost use Rattle.seat_guard.specs.Passes.{IsPassOf, counts_of, known, shares};
ghost use Rattle.seat_guard.specs.Recounts.{OnlyCounts};
ghost use Rattle.shared_store.specs.Lasting.{IsRecounted};
ghost use Rattle.dd_session.specs.MadeRows.{Awaits, HasTaken, MakesRow, MakesOrExceeds, MakesOrTells, MayMake, adding_by, by_edges, chooses};
ghost use Rattle.dd_session.specs.Sessions.{IsLiveAs, edge_in, elements_in, variables_in};
ghost use Rattle.dd_session.specs.Turns.{HasPlace, IsCalm, IsClear, IsSettled, IsStill, Keeps, MayCount, Ran, Tried, seen_of};

use crate::answers::{Placed, Refusal};
use crate::book::Book;
use crate::held;
use crate::manager::Manager;
use crate::request::{Adding, Request};
use crate::session::{Session, take_seat};
use crate::settling::settle;
use crate::starting::start;
use edge_bits::{Edge, Kind, Memory};
use function_laws::{BddMaking, Making, ZddMaking};
use handle_count::H;
use node_slots::Stop;
use operator_calls::{Overflow, Renaming, Unmade, renamed, renamed_pairs, run};
use seat_guard::seat::{Guard, Pass};
use shared_store::{Shared, put_back, read_counts};
use std::alloc::Global;
use std::sync::Wait;

/// One try.
fn try_once(
    shared: &mut Shared,
    making: &Making<Edge, &[u32], &[(u32, Edge)]>,
) -> Result<Result<Edge, Unmade>, Stop>
    requires { IsStore shared.old.store → takes (of_lent making.now) (view_of shared.old) }
    ensures ran { Ran (told_by (of_lent making.now)) (work (of_lent making.now)) shared.old shared.new result }
    ensures sure { IsTrue (is_err result) → IsTrue (needs_nodes (of_lent making.now)) }
{
    shared.store.tell_sound();
    let made = run(shared.store.get_mut(), making);
    shared.store.tell_sound();
    made
}

/// A sweep, and a try.
fn sweep_and_try(
    pass: &Pass<Shared>,
    shared: Shared,
    making: &Making<Edge, &[u32], &[(u32, Edge)]>,
) -> (Shared, Result<Result<Edge, Unmade>, Stop>)
    requires serves { Serving shared (known pass.now) (counts_of pass.now) }
    requires read { AreRead shared (known pass.now) (counts_of pass.now) }
    requires takes { (y : Shared) → Serving y (known pass.now) (counts_of pass.now) → IsStore y.store → takes (of_lent making.now) (view_of y) }
    ensures tried { Tried (known pass.now) (counts_of pass.now) (told_by (of_lent making.now)) (work (of_lent making.now)) shared result.0 result.1 }
    ensures sure { IsTrue (is_err result.1) → IsTrue (needs_nodes (of_lent making.now)) }
{
    let _ = pass;
    shared.store.tell_sound();
    let (mut shared, _swept) = shared.sweep();
    let made = try_once(&mut shared, making);
    (shared, made)
}

/// Whether another try is due: no slot was free, and this one was not the last.
fn awaits(made: &Result<Result<Edge, Unmade>, Stop>, is_last: bool) -> bool
    ensures first { result ≡ true → is_last ≡ false }
    ensures last { result ≡ false → IsErrOf made.now Stop.Full → is_last ≡ true }
{
    !is_last && matches!(made, Err(Stop::Full))
}

/// A try: the last one begins with a sweep.
fn try_of(
    pass: &Pass<Shared>,
    mut shared: Shared,
    making: &Making<Edge, &[u32], &[(u32, Edge)]>,
    is_last: bool,
) -> (Shared, Result<Result<Edge, Unmade>, Stop>)
    requires serves { Serving shared (known pass.now) (counts_of pass.now) }
    requires read { is_last ≡ true → AreRead shared (known pass.now) (counts_of pass.now) }
    requires takes { (y : Shared) → Serving y (known pass.now) (counts_of pass.now) → IsStore y.store → takes (of_lent making.now) (view_of y) }
    ensures ran { is_last ≡ false → Ran (told_by (of_lent making.now)) (work (of_lent making.now)) shared result.0 result.1 }
    ensures tried { (IsErrOf result.1 Stop.Full → is_last ≡ true) → Tried (known pass.now) (counts_of pass.now) (told_by (of_lent making.now)) (work (of_lent making.now)) shared result.0 result.1 }
    ensures sure { IsTrue (is_err result.1) → IsTrue (needs_nodes (of_lent making.now)) }
{
    if is_last {
        return sweep_and_try(pass, shared, making);
    }
    let made = try_once(&mut shared, making);
    (shared, made)
}

/// What all share, with the counts of its slots as the words have them where a sweep follows.
fn counted(
    guard: &Guard<Shared>,
    pass: &mut Pass<Shared>,
    mut shared: Shared,
    is_last: bool,
) -> Shared
    requires own { IsPassOf guard.now pass.old × ((known pass.old).live ≡ true) × ((known pass.old).holds ≡ true) }
    requires hold { is_last ≡ true → (shares pass.old).order ≡ Holding }
    requires serves { Serving shared (known pass.old) (counts_of pass.old) }
    requires clear { IsClear (counts_of pass.old) }
    ensures own { OnlyCounts guard.now pass.old pass.new }
    ensures settled { IsSettled (counts_of pass.new) }
    ensures first { is_last ≡ false → counts_of pass.new ≡ counts_of pass.old }
    ensures read { is_last ≡ true → AreRead result (known pass.new) (counts_of pass.new) }
    ensures serves { Serving result (known pass.new) (counts_of pass.new) }
    ensures rest { IsRecounted shared result }
{
    if is_last {
        read_counts(guard, pass, &mut shared);
    }
    shared
}

/// The kind of what is made.
fn kind_made(making: &Making<H, &[u32], &[(u32, H)]>) -> Kind
    ensures { result ≡ kind_of_made (of_lent making.now) }
{
    match making {
        Making::Bdd(_) => Kind::Bdd,
        Making::Add(_) => Kind::Add,
        Making::Exact(_) => Kind::Add,
        Making::Zdd(_) => Kind::Zdd,
    }
}

/// How the row of what is made comes to be.
fn adding_of(making: &Making<H, &[u32], &[(u32, H)]>) -> Adding
    ensures { result ≡ adding_by (chooses (of_lent making.now)) }
{
    match making {
        Making::Bdd(BddMaking::Restrict(_, _)) => Adding::Chosen,
        Making::Zdd(ZddMaking::Isop(_, _)) => Adding::Chosen,
        _ => Adding::Made,
    }
}

/// The edges of a session's rows.
#[derive(Drop)]
struct Edges<'a> {
    session: &'a Session,
}

impl<'b> Renaming<H, Edge, &'b [u32], &'b [(u32, H)]> for Edges<'_> {
    ghost is = { λ e k h. IsLiveAs k e.session.now h };

    ghost most = { λ e. e.session.now.manager.vars };

    ghost vars = { λ e. variables_in e.session.now };

    ghost elements = { λ e. elements_in e.session.now };

    ghost gives = { λ e h. edge_in e.session.now.rows h };

    ghost listed = { λ vars. vars.now };

    ghost paired = { λ pairs. pairs.now };

    fn give(&self, one: &H) -> Edge
        requires { (k : KindOf) × IsLiveAs k self.now.session.now one.now }
        ensures { result ≡ edge_in self.now.session.now.rows one.now }
    {
        self.session.edge(*one)
    }

    fn give_pairs(&self, alloc: Global, pairs: &&'b [(u32, H)]) -> Result<Vec<(u32, Edge)>, Memory>
        requires { All (λ pair. IsLiveAs kinds.Bdd self.now.session.now pair.1) pairs.now.now }
        ensures { IfOk result (λ given. given.items ≡ map (with_given (edge_in self.now.session.now.rows)) pairs.now.now) }
    {
        self.session.edges(alloc, pairs)
    }

    fn lend<'a>(&self, list: &'a &'b [u32]) -> &'a [u32]
        ensures { result.now ≡ list.now.now }
    {
        list
    }
}

/// A try to make a function of rows by their edges, in one turn, over a session's seat and its rows. None where no slot was free and it
/// is not the last: then nothing was told, and another try is due.
pub fn make_once<R: Wait>(
    rt: &R,
    guard: &Guard<Shared>,
    pass: &mut Pass<Shared>,
    book: &mut Book,
    making: Making<H, &[u32], &[(u32, H)]>,
    edges: &Making<Edge, &[u32], &[(u32, Edge)]>,
    is_last: bool,
) -> Option<Result<Placed<Result<H, Unmade>>, Refusal>>
    requires idle { IsCalm guard.now pass.old }
    requires keeps { Keeps (known pass.old) book.old }
    requires place { HasPlace (known pass.old) }
    requires may { MayCount (shares pass.old) }
    requires hold { is_last ≡ true → (shares pass.old).order ≡ Holding }
    requires can { HasTaken (seen_of pass.old book.old) (of_lent making) }
    requires same { of_lent edges.now ≡ by_edges (known pass.old).rows (of_lent making) }
    requires needs { needs_nodes (of_lent edges.now) ≡ needs_nodes (of_lent making) }
    requires unmade { unmade_as (of_lent edges.now) ≡ unmade_as (of_lent making) }
    ensures idle { IsStill guard.now pass.new }
    ensures first { is_last ≡ false → (counts_of pass.new).zeros ≡ [] }
    ensures stands { shares pass.new ≡ shares pass.old }
    ensures keeps { Keeps (known pass.new) book.new }
    ensures made { IfSome result (MakesOrTells (seen_of pass.old book.old) (seen_of pass.new book.new) (of_lent making.entry)) }
    ensures waits { IfNone result ((is_last ≡ false) × Awaits (work (by_edges (known pass.old).rows (of_lent making.entry))) (seen_of pass.old book.old) (seen_of pass.new book.new)) }
{
    let Ok(shared) = start(rt, guard, pass, book) else {
        return Some(Err(Refusal::Memory));
    };
    let shared = counted(guard, pass, shared, is_last);
    let (shared, made) = try_of(pass, shared, edges, is_last);
    if awaits(&made, is_last) {
        put_back(guard, pass, shared);
        return None;
    }
    let kind = kind_made(&making);
    let adding = adding_of(&making);
    Some(settle(
        guard,
        pass,
        book,
        shared,
        Request::Makes(making),
        adding,
        kind,
        made,
    ))
}

impl Session {
    /// Makes a function of rows, as a new row; or tells why there is none, where that may be.
    pub fn make<R: Wait>(
        &mut self,
        rt: &R,
        manager: &Manager,
        making: Making<H, &[u32], &[(u32, H)]>,
    ) -> Result<Placed<Result<H, Unmade>>, Refusal>
        requires { MayMake self.old manager.now (of_lent making) }
        ensures { MakesOrTells self.old self.new (of_lent making.entry) result }
    {
        let rows = Edges { session: self };
        let Ok(pairs) = renamed_pairs(&rows, manager.allocator(), &making) else {
            return Err(Refusal::Memory);
        };
        let edges = renamed(&rows, &making, &pairs);
        let pass = take_seat(&mut self.seat);
        let (pass, made) = held::make(rt, &manager.guard, pass, &mut self.book, making, &edges);
        self.seat = Some(pass);
        made
    }

    /// The same, where there is always one.
    pub(crate) fn make_row<R: Wait>(
        &mut self,
        rt: &R,
        manager: &Manager,
        making: Making<H, &[u32], &[(u32, H)]>,
    ) -> Result<Placed<H>, Refusal>
        requires may { MayMake self.old manager.now (of_lent making) }
        requires sure { unmade_as (of_lent making) ≡ None }
        ensures { MakesRow self.old self.new (of_lent making.entry) result }
    {
        let made = self.make(rt, manager, making)?;
        let place = made.place;
        match made.value {
            Ok(value) => Ok(Placed { place, value }),
            Err(_) => unreachable!(),
        }
    }

    /// The same, where only a value may be out of range.
    pub(crate) fn make_exact<R: Wait>(
        &mut self,
        rt: &R,
        manager: &Manager,
        making: Making<H, &[u32], &[(u32, H)]>,
    ) -> Result<Placed<Result<H, Overflow>>, Refusal>
        requires may { MayMake self.old manager.now (of_lent making) }
        requires sure { unmade_as (of_lent making) ≡ Some Unmade.Overflow }
        ensures { MakesOrExceeds self.old self.new (of_lent making.entry) result }
    {
        let made = self.make(rt, manager, making)?;
        let place = made.place;
        match made.value {
            Ok(name) => Ok(Placed {
                place,
                value: Ok(name),
            }),
            Err(Unmade::Overflow) => Ok(Placed {
                place,
                value: Err(Overflow),
            }),
            Err(Unmade::Apart) => unreachable!(),
        }
    }
}
