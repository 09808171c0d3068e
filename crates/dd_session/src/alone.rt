//! The calls of a session on its rows alone. They wait for nobody, and have no turn at the store.

ghost use Rattle.std.specs.Prelude.{◌≡◌, ◌+◌, ◌<◌, ◌≤◌, ◌^◌, ℕ, length, false, true};
ghost use Rattle.edge_bits.specs.declared.edges.Kind.{Kind as KindOf};
ghost use Rattle.function_laws.specs.declared.history.Call.TheVariants as calls;
ghost use Rattle.function_laws.specs.declared.history.Reply.TheVariants as replies;
ghost use Rattle.seat_guard.specs.Moves.{MayMove};
ghost use Rattle.seat_guard.specs.Passes.{IsPassOf, counts_of, in_hand, known, shares};
ghost use Rattle.seat_guard.specs.Recounts.{OnlyCounts};
ghost use Rattle.seat_guard.specs.Tallies.{counts_after, raised_by};
ghost use Rattle.seat_guard.specs.Views.{MayTell};
ghost use Rattle.dd_session.specs.Requests.{alone_telling, row_held};
ghost use Rattle.dd_session.specs.Sessions.{Called, IsNamed, LeadsTo, fulls_in};
ghost use Rattle.dd_session.specs.Turns.{AreSound, DrewAlone, HasPlace, IsCalm, IsSettled, Keeps, Tied, seen_of};
ghost use Rattle.dd_session.specs.Works.{HadNoTurn};

use crate::answers::Placed;
use crate::book::Book;
use crate::drawing::{edge_at, kind_at};
use crate::request::Alone;
use edge_bits::Edge;
use function_laws::Name;
use seat_guard::seat::{Guard, Pass};
use seat_guard::told::{Raises, Told as Tells};
use shared_store::Shared;
use std::marker::Brand;

/// Counts the slot of a row up once more, and answers its generation.
fn raise_row<E: Raises>(guard: &Guard<Shared>, pass: &mut Pass<Shared>, h: Name, edge: Edge) -> u32
    requires held { E.held ≡ row_held (known pass.old).rows h }
    requires edge { edge ≡ (row_held (known pass.old).rows h).edge }
    requires own { IsPassOf guard.now pass.old × ((known pass.old).live ≡ true) }
    requires live { (k : KindOf) × IsNamed k (known pass.old).rows h }
    requires sound { AreSound (known pass.old) }
    requires place { HasPlace (known pass.old) }
    requires settled { IsSettled (counts_of pass.old) }
    ensures own { OnlyCounts guard.now pass.old pass.new }
    ensures raised { counts_of pass.new ≡ raised_by (row_held (known pass.old).rows h) result (counts_of pass.old) }
{
    let _ = h;
    guard.count_up::<E>(pass, edge.index())
}

/// Draws the place of a call.
fn draw_alone<E: Tells>(
    guard: &Guard<Shared>,
    pass: &mut Pass<Shared>,
    book: &mut Book,
    alone: Alone,
) -> u64
    requires told { E.told ≡ alone_telling (known pass.old).rows alone }
    requires own { IsPassOf guard.now pass.old × ((known pass.old).live ≡ true) }
    requires room { length (known pass.old).entries < 2 ^ 48 }
    requires calls { (book.old.calls ≡ length (known pass.old).entries) × (book.old.fulls ≡ fulls_in (known pass.old).entries) }
    requires step { MayTell (known pass.old) (alone_telling (known pass.old).rows alone) }
    requires moves { MayMove (known pass.old) (counts_of pass.old) (alone_telling (known pass.old).rows alone) }
    ensures own { IsPassOf guard.now pass.new × (in_hand pass.new ≡ in_hand pass.old) }
    ensures drew { DrewAlone (known pass.old) (known pass.new) (alone_telling (known pass.old).rows alone) result }
    ensures moved { counts_of pass.new ≡ counts_after (alone_telling (known pass.old).rows alone).change (known pass.old).cells (known pass.old).rows (counts_of pass.old) }
    ensures stands { shares pass.new ≡ shares pass.old }
    ensures calls { (book.new.calls ≡ length (known pass.new).entries) × (book.new.fulls ≡ fulls_in (known pass.new).entries) }
    ensures rows { book.new.rows ≡ book.old.rows }
{
    let _ = alone;
    let place = guard.place::<E>(pass);
    book.calls += 1;
    place
}

/// A further row with the function of a row. There is room for it.
pub fn copy(
    guard: &Guard<Shared>,
    pass: &mut Pass<Shared>,
    book: &mut Book,
    h: Name,
) -> Placed<Name>
    requires idle { IsCalm guard.now pass.old }
    requires keeps { Keeps (known pass.old) book.old }
    requires place { HasPlace (known pass.old) }
    requires spare { 1 ≤ book.old.rows.spare }
    requires live { (k : KindOf) × IsNamed k (known pass.old).rows h }
    ensures idle { IsCalm guard.now pass.new }
    ensures stands { shares pass.new ≡ shares pass.old }
    ensures keeps { Keeps (known pass.new) book.new }
    ensures told { Called (seen_of pass.old book.old) (seen_of pass.new book.new) (calls.Copy h) (replies.Made result.value) result.place }
    ensures turns { HadNoTurn (seen_of pass.old book.old) (seen_of pass.new book.new) }
    ensures spare { book.new.rows.spare + 1 ≡ book.old.rows.spare }
{
    let kind = kind_at(pass, book, h);
    let edge = edge_at(pass, book, h);
    let generation = raise_row::<Brand>(guard, pass, h, edge);
    let name = book.rows.add(kind, edge);
    let copied = Alone::Copied(h, name, generation);
    let place = draw_alone::<Brand>(guard, pass, book, copied);
    Placed { place, value: name }
}

/// Lets a row go. Its name is live no more.
pub fn drop_row(
    guard: &Guard<Shared>,
    pass: &mut Pass<Shared>,
    book: &mut Book,
    h: Name,
) -> Placed<()>
    requires idle { IsCalm guard.now pass.old }
    requires keeps { Keeps (known pass.old) book.old }
    requires place { HasPlace (known pass.old) }
    requires live { (k : KindOf) × IsNamed k (known pass.old).rows h }
    ensures idle { IsCalm guard.now pass.new }
    ensures stands { shares pass.new ≡ shares pass.old }
    ensures keeps { Keeps (known pass.new) book.new }
    ensures told { Called (seen_of pass.old book.old) (seen_of pass.new book.new) (calls.DropRow h) replies.Done result.place }
    ensures turns { HadNoTurn (seen_of pass.old book.old) (seen_of pass.new book.new) }
    ensures fewer { length (known pass.new).rows + 1 ≡ length (known pass.old).rows }
    ensures spare { book.new.rows.spare ≡ book.old.rows.spare + 1 }
{
    let edge = edge_at(pass, book, h);
    book.rows.remove(h);
    let place = draw_alone::<Brand>(guard, pass, book, Alone::Dropped(h));
    guard.count_down(pass, edge.index());
    Placed { place, value: () }
}

/// The slot of a row's edge, and its generation.
pub fn where_of(guard: &Guard<Shared>, pass: &mut Pass<Shared>, book: &Book, h: Name) -> (u32, u32)
    requires idle { IsCalm guard.now pass.old }
    requires keeps { Keeps (known pass.old) book.now }
    requires live { (k : KindOf) × IsNamed k (known pass.old).rows h }
    ensures idle { IsCalm guard.now pass.new }
    ensures stands { shares pass.new ≡ shares pass.old }
    ensures same { known pass.new ≡ known pass.old }
    ensures leads { LeadsTo (known pass.old).rows h result.0 result.1 }
{
    let slot = edge_at(pass, book, h).index();
    let generation = guard.generation(pass, slot);
    (slot, generation)
}

/// Whether two rows of one kind have one function: they have one edge then.
pub fn same(
    guard: &Guard<Shared>,
    pass: &mut Pass<Shared>,
    book: &mut Book,
    f: Name,
    g: Name,
) -> Placed<bool>
    requires idle { IsCalm guard.now pass.old }
    requires keeps { Keeps (known pass.old) book.old }
    requires place { HasPlace (known pass.old) }
    requires alike { (k : KindOf) × IsNamed k (known pass.old).rows f × IsNamed k (known pass.old).rows g }
    ensures idle { IsCalm guard.now pass.new }
    ensures stands { shares pass.new ≡ shares pass.old }
    ensures keeps { Keeps (known pass.new) book.new }
    ensures told { Called (seen_of pass.old book.old) (seen_of pass.new book.new) (calls.Same f g) (replies.Truth result.value) result.place }
    ensures turns { HadNoTurn (seen_of pass.old book.old) (seen_of pass.new book.new) }
    ensures rows { book.new.rows ≡ book.old.rows }
{
    let first = edge_at(pass, book, f);
    let second = edge_at(pass, book, g);
    let told = first == second;
    let place = draw_alone::<Brand>(guard, pass, book, Alone::Compared(f, g, told));
    Placed { place, value: told }
}
