//! The swaps of two neighbouring levels.

ghost use Rattle.std.specs.Prelude.{◌≡◌, ◌+◌, ◌<◌, ◌≤◌, [], IfErr, IsTrue, MatchResult, is_err};
ghost use Rattle.function_laws.specs.declared.history.Reply.TheVariants as replies;
ghost use Rattle.seat_guard.specs.declared.view.Hold.TheVariants.{Holding};
ghost use Rattle.seat_guard.specs.Passes.{IsPassOf, counts_of, in_hand, known, shares};
ghost use Rattle.seat_guard.specs.Views.{orders_of};
ghost use Rattle.shared_store.specs.Reordering.{orders_left, swap_call};
ghost use Rattle.shared_store.specs.Sharing.{Serving, orders};
ghost use Rattle.dd_session.specs.Reorderings.{SwapsLevels, crowded_in, levels_of};
ghost use Rattle.dd_session.specs.Sessions.{HasRoom, elements_in, variables_in};
ghost use Rattle.dd_session.specs.Turns.{HasPlace, IsCalm, IsHolding, IsRefused, IsStill, Keeps, Notes, Settles, Told, levels_in, ordered_by, seen_of};

use crate::answers::{Full, Placed, Refusal};
use crate::book::Book;
use crate::drawing::finish;
use crate::held;
use crate::manager::Manager;
use crate::request::{Answer, Request};
use crate::session::{Session, take_seat};
use crate::settling::be_full;
use function_laws::Order;
use seat_guard::seat::{Guard, Pass};
use shared_store::{Crowded, Shared, read_counts};
use std::sync::Wait;

/// What a swap leaves that was made, or for which there was no room.
fn settle_swap(
    guard: &Guard<Shared>,
    pass: &mut Pass<Shared>,
    book: &mut Book,
    shared: Shared,
    order: Order,
    level: u32,
    done: Result<(), Crowded>,
) -> Result<Placed<()>, Full>
    requires hold { IsHolding guard.now pass.old }
    requires serves { Serving shared (ordered_by (known pass.old) (orders shared)) (counts_of pass.old) }
    requires ordered { orders shared ≡ orders_left order level (orders_of (known pass.old)) done }
    requires keeps { Keeps (known pass.old) book.old }
    requires place { HasPlace (known pass.old) }
    requires level { level + 1 < levels_in (known pass.old) order }
    requires full { IfErr done (λ crowded. (crowded.in_use ≤ (known pass.old).slots) × ((known pass.old).slots < crowded.in_use + crowded.need)) }
    ensures own { IsPassOf guard.now pass.new × (in_hand pass.new ≡ []) }
    ensures keeps { Keeps (known pass.new) book.new }
    ensures told { MatchResult result (λ placed. Told (known pass.old) (known pass.new) (swap_call order level) replies.Done placed.place) (λ full. IsRefused (known pass.old) (known pass.new) (swap_call order level) (Refusal.Full full)) }
    ensures notes { Notes (known pass.old) (known pass.new) shared }
    ensures done { crowded_in result ≡ done }
    ensures stands { shares pass.new ≡ shares pass.old }
    ensures settles { Settles (counts_of pass.old) (counts_of pass.new) }
    ensures rows { book.new.rows ≡ book.old.rows }
{
    let request = Request::Swap(order, level);
    match done {
        Ok(()) => {
            let place = finish(guard, pass, book, shared, request, Answer::Done);
            Ok(Placed { place, value: () })
        }
        Err(crowded) => {
            let Crowded { in_use, need } = crowded;
            Err(be_full(guard, pass, book, shared, request, in_use, need))
        }
    }
}

/// A swap of a level of an order and the next, over a session's seat and its rows.
pub fn swap_at<R: Wait>(
    rt: &R,
    guard: &Guard<Shared>,
    pass: &mut Pass<Shared>,
    book: &mut Book,
    order: Order,
    level: u32,
) -> Result<Placed<()>, Full>
    requires idle { IsCalm guard.now pass.old }
    requires keeps { Keeps (known pass.old) book.old }
    requires place { HasPlace (known pass.old) }
    requires level { level + 1 < levels_in (known pass.old) order }
    requires hold { (shares pass.old).order ≡ Holding }
    ensures idle { IsStill guard.now pass.new }
    ensures stands { shares pass.new ≡ shares pass.old }
    ensures keeps { Keeps (known pass.new) book.new }
    ensures swaps { SwapsLevels order level (seen_of pass.old book.old) (seen_of pass.new book.new) result }
{
    let mut shared = guard.take(rt, pass);
    read_counts(guard, pass, &mut shared);
    shared.store.tell_sound();
    let (shared, done) = shared.swap(order, level);
    settle_swap(guard, pass, book, shared, order, level, done)
}

impl Session {
    /// A swap of a level of an order and the next.
    fn swap_levels<R: Wait>(
        &mut self,
        rt: &R,
        manager: &Manager,
        order: Order,
        level: u32,
    ) -> Result<Placed<()>, Full>
        requires own { self.old.manager ≡ manager.now }
        requires room { HasRoom self.old }
        requires level { level + 1 < levels_of self.old order }
        ensures { SwapsLevels order level self.old self.new result }
    {
        let pass = take_seat(&mut self.seat);
        let (pass, done) = held::swap(rt, &manager.guard, pass, &mut self.book, order, level);
        self.seat = Some(pass);
        done
    }

    /// Sweeps, and exchanges a level of the variables and the next in place (Rudell 1993), where as many slots are free as twice
    /// the nodes of the level and those of the next. Else the table is full, and nothing more is changed. Every row, every cell
    /// and every value stays. `level + 1` is below the variables.
    pub fn swap<R: Wait>(
        &mut self,
        rt: &R,
        manager: &Manager,
        level: u32,
    ) -> Result<Placed<()>, Full>
        requires own { self.old.manager ≡ manager.now }
        requires room { HasRoom self.old }
        requires level { level + 1 < variables_in self.old }
        ensures { SwapsLevels Order.Variables level self.old self.new result }
    {
        self.swap_levels(rt, manager, Order::Variables, level)
    }

    /// The same of the elements, whose number is above `level + 1`.
    pub fn swap_elements<R: Wait>(
        &mut self,
        rt: &R,
        manager: &Manager,
        level: u32,
    ) -> Result<Placed<()>, Full>
        requires own { self.old.manager ≡ manager.now }
        requires room { HasRoom self.old }
        requires level { level + 1 < elements_in self.old }
        ensures { SwapsLevels Order.Elements level self.old self.new result }
    {
        self.swap_levels(rt, manager, Order::Elements, level)
    }
}
