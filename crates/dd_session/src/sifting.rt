//! The sift of an order.

ghost use Rattle.std.specs.Prelude.{◌≡◌, []};
ghost use Rattle.function_laws.specs.declared.history.Reply.TheVariants as replies;
ghost use Rattle.group_sift.specs.Sifts.{IsSifted};
ghost use Rattle.group_sift.specs.Turns.{last_end};
ghost use Rattle.node_slots.specs.Held.{Alone};
ghost use Rattle.node_slots.specs.Stores.{IsStore};
ghost use Rattle.node_slots.specs.Wholes.{content_view};
ghost use Rattle.seat_guard.specs.declared.view.Hold.TheVariants.{Holding};
ghost use Rattle.seat_guard.specs.Moves.{MayMove};
ghost use Rattle.seat_guard.specs.Tallies.{counts_after};
ghost use Rattle.seat_guard.specs.Passes.{IsPassOf, counts_of, in_hand, known, shares};
ghost use Rattle.seat_guard.specs.Views.{MayTell, told_of};
ghost use Rattle.seat_guard.specs.declared.view.Change.TheVariants.{Nothing};
ghost use Rattle.shared_store.specs.declared.shared.Shared.{Shared as SharedOf};
ghost use Rattle.shared_store.specs.Counted.{AreRead};
ghost use Rattle.shared_store.specs.Sharing.{Serving};
ghost use Rattle.shared_store.specs.Sifting.{sift_call, sifting_of};
ghost use Rattle.dd_session.specs.Reorderings.{levels_of};
ghost use Rattle.dd_session.specs.Sessions.{HasRoom, elements_in, variables_in};
ghost use Rattle.dd_session.specs.Siftings.{SiftsLevels, sift_telling};
ghost use Rattle.dd_session.specs.Turns.{Drew, HasPlace, IsCalm, IsHolding, IsStill, Keeps, Settles, Told, levels_in, seen_of};

use crate::answers::Placed;
use crate::book::Book;
use crate::held;
use crate::manager::Manager;
use crate::session::{Session, take_seat};
use function_laws::Order;
use group_sift::{Blocks, Sifted};
use seat_guard::seat::{Guard, Pass};
use seat_guard::told::Told as Tells;
use shared_store::{Shared, put_back, read_counts};
use std::marker::Brand;
use std::sync::Wait;

/// Draws the place of a call that is done and changes no row and no cell, and gives the turn back.
fn finish_done<E: Tells>(
    guard: &Guard<Shared>,
    pass: &mut Pass<Shared>,
    book: &mut Book,
    shared: Shared,
) -> u64
    requires hold { IsHolding guard.now pass.old }
    requires place { HasPlace (known pass.old) }
    requires keeps { Keeps (known pass.old) book.old }
    requires done { E.told.reply ≡ replies.Done }
    requires quiet { E.told.change ≡ Nothing }
    requires step { MayTell (known pass.old) E.told }
    requires moves { MayMove (known pass.old) (counts_of pass.old) E.told }
    requires serves { Serving shared (told_of (known pass.old) 0 E.told) (counts_after E.told.change (known pass.old).cells (known pass.old).rows (counts_of pass.old)) }
    ensures own { IsPassOf guard.now pass.new × (in_hand pass.new ≡ []) }
    ensures drew { Drew (known pass.old) (known pass.new) shared E.told result }
    ensures stands { shares pass.new ≡ shares pass.old }
    ensures settles { Settles (counts_of pass.old) (counts_of pass.new) }
    ensures keeps { Keeps (known pass.new) book.new }
    ensures rows { book.new.rows ≡ book.old.rows }
{
    let place = guard.place::<E>(pass);
    put_back(guard, pass, shared);
    book.calls += 1;
    place
}

/// Sifts an order of what all share, tells of it, and gives the turn back.
fn sift_shared<E: Tells>(
    guard: &Guard<Shared>,
    pass: &mut Pass<Shared>,
    book: &mut Book,
    shared: Shared,
    order: Order,
    blocks: &mut Blocks,
) -> Placed<Sifted>
    requires hold { IsHolding guard.now pass.old }
    requires serves { Serving shared (known pass.old) (counts_of pass.old) }
    requires read { AreRead shared (known pass.old) (counts_of pass.old) }
    requires store { IsStore shared.store }
    requires place { HasPlace (known pass.old) }
    requires keeps { Keeps (known pass.old) book.old }
    requires end { last_end 0 blocks.old ≡ levels_in (known pass.old) order }
    requires tells { E.told ≡ sift_telling order blocks.old shared }
    ensures own { IsPassOf guard.now pass.new × (in_hand pass.new ≡ []) }
    ensures keeps { Keeps (known pass.new) book.new }
    ensures told { Told (known pass.old) (known pass.new) (sift_call order (sifting_of order blocks.old shared)) replies.Done result.place }
    ensures sifted { (y : SharedOf) × IsSifted Alone order blocks.old (content_view shared.store) (content_view y.store) result.value }
    ensures stands { shares pass.new ≡ shares pass.old }
    ensures settles { Settles (counts_of pass.old) (counts_of pass.new) }
    ensures blocks { blocks.new ≡ blocks.old }
    ensures rows { book.new.rows ≡ book.old.rows }
{
    let (shared, sifted) = shared.sift(order, blocks);
    let place = finish_done::<E>(guard, pass, book, shared);
    Placed {
        place,
        value: sifted,
    }
}

/// A sift of one of both orders, over a session's seat and its rows.
pub fn sift_at<R: Wait>(
    rt: &R,
    guard: &Guard<Shared>,
    pass: &mut Pass<Shared>,
    book: &mut Book,
    order: Order,
    blocks: &mut Blocks,
) -> Placed<Sifted>
    requires idle { IsCalm guard.now pass.old }
    requires keeps { Keeps (known pass.old) book.old }
    requires place { HasPlace (known pass.old) }
    requires end { last_end 0 blocks.old ≡ levels_in (known pass.old) order }
    requires hold { (shares pass.old).order ≡ Holding }
    ensures idle { IsStill guard.now pass.new }
    ensures stands { shares pass.new ≡ shares pass.old }
    ensures keeps { Keeps (known pass.new) book.new }
    ensures sifted { SiftsLevels order blocks.old (seen_of pass.old book.old) (seen_of pass.new book.new) result }
    ensures blocks { blocks.new ≡ blocks.old }
{
    let mut shared = guard.take(rt, pass);
    read_counts(guard, pass, &mut shared);
    shared.store.tell_sound();
    sift_shared::<Brand>(guard, pass, book, shared, order, blocks)
}

impl Session {
    /// A sift of one of both orders.
    fn sift_levels<R: Wait>(
        &mut self,
        rt: &R,
        manager: &Manager,
        order: Order,
        blocks: &mut Blocks,
    ) -> Placed<Sifted>
        requires own { self.old.manager ≡ manager.now }
        requires room { HasRoom self.old }
        requires end { last_end 0 blocks.old ≡ levels_of self.old order }
        ensures sifted { SiftsLevels order blocks.old self.old self.new result }
        ensures blocks { blocks.new ≡ blocks.old }
    {
        let pass = take_seat(&mut self.seat);
        let (pass, placed) = held::sift(rt, &manager.guard, pass, &mut self.book, order, blocks);
        self.seat = Some(pass);
        placed
    }

    /// Sifts the variables in blocks (Rudell 1993), for the functions that rows and cells hold: `sift` of group_sift says how. Every
    /// row, every cell and every value stays; what is told are the slots in use before and after, and the number of swaps. The blocks
    /// end at the number of variables.
    pub fn sift<R: Wait>(
        &mut self,
        rt: &R,
        manager: &Manager,
        blocks: &mut Blocks,
    ) -> Placed<Sifted>
        requires own { self.old.manager ≡ manager.now }
        requires room { HasRoom self.old }
        requires end { last_end 0 blocks.old ≡ variables_in self.old }
        ensures sifted { SiftsLevels Order.Variables blocks.old self.old self.new result }
        ensures blocks { blocks.new ≡ blocks.old }
    {
        self.sift_levels(rt, manager, Order::Variables, blocks)
    }

    /// The same of the elements, at whose number the blocks end.
    pub fn sift_elements<R: Wait>(
        &mut self,
        rt: &R,
        manager: &Manager,
        blocks: &mut Blocks,
    ) -> Placed<Sifted>
        requires own { self.old.manager ≡ manager.now }
        requires room { HasRoom self.old }
        requires end { last_end 0 blocks.old ≡ elements_in self.old }
        ensures sifted { SiftsLevels Order.Elements blocks.old self.old self.new result }
        ensures blocks { blocks.new ≡ blocks.old }
    {
        self.sift_levels(rt, manager, Order::Elements, blocks)
    }
}
