//! The table under the rule.
ghost use Rattle.std.specs.Prelude.{◌≡◌, ◌+◌, ◌<◌, ◌≤◌, ◌^◌, ℕ, List, [], ◌∷◌, ◌++◌, length, true, false, IfOk, Option, None, Some, All};
ghost use Rattle.edge_bits.specs.declared.limits.TheConstants.{CELLS};
ghost use Rattle.function_laws.specs.declared.history.Entry.{Entry};
ghost use Rattle.seat_guard.specs.declared.view.Held.{Held};
ghost use Rattle.function_laws.specs.Sizes.{Orders};
ghost use Rattle.seat_guard.specs.Moves.{MayMove};
ghost use Rattle.seat_guard.specs.Tallies.{counts_after, no_counts};
ghost use Rattle.seat_guard.specs.Views.{sizes_for, session_of, holding, letting_go, one_more, with_gone, told_of, told_with, noting, orders_of, AreTold, MayTell};
ghost use Rattle.seat_guard.specs.Rule.{AllBack, Ends, Whole};
ghost use Rattle.seat_guard.specs.Turn.{Serves};
ghost use Rattle.seat_guard.specs.Phase.{HasNoShare};
ghost use Rattle.seat_guard.specs.Passes.{known, counts_of, in_hand, shares, HasSettled, IsPassOf, IsIdle};

use crate::content::Content;
use crate::layout::{JOURNAL, TURN};
use crate::plays::{Back, Draw, End, Give, Last, Look, Next, Take};
use crate::seat::{Guard, Pass};
use crate::told::{Leaves, Told};
use crossbeam_utils::Backoff;
use edge_bits::MOST_SESSIONS;
use std::sync::Wait;

/// What the turn word holds from the closing on: no session has this number.
const CLOSING_TURN: u64 = MOST_SESSIONS as u64 + 1;

impl<S: Content> Guard<S> {
    /// Gives the closing seat's next session a seat. There are no more sessions than the table was made for.
    pub fn split(&self, pass: &mut Pass<S>) -> Pass<S>
        requires own { IsPassOf self.now pass.old }
        requires closing { (known pass.old).closing ≡ true }
        requires room { (known pass.old).given < (known pass.old).sessions }
        requires few { (known pass.old).sessions ≤ MOST_SESSIONS }
        ensures closing { IsPassOf self.now pass.new × (known pass.new ≡ one_more (known pass.old)) × (in_hand pass.new ≡ in_hand pass.old) }
        ensures session { IsPassOf self.now result × (known result ≡ session_of (known pass.old)) × (in_hand result ≡ []) }
        ensures unshared { HasNoShare (shares result) }
        ensures uncounted { (counts_of result ≡ no_counts) × (counts_of pass.new ≡ counts_of pass.old) }
    {
        let seat = self.table.shared.split_seat::<Next>(&mut pass.seat);
        let number = pass.given;
        pass.given += 1;
        Pass {
            seat,
            number,
            given: 0,
        }
    }

    /// Takes a session's seat in, which has raised and owes nothing.
    pub fn join(&self, pass: &mut Pass<S>, other: Pass<S>)
        requires own { IsPassOf self.now pass.old × ((known pass.old).closing ≡ true) }
        requires other { IsIdle self.now other }
        requires unshared { HasNoShare (shares other) }
        requires settled { HasSettled other }
        ensures { IsPassOf self.now pass.new × (known pass.new ≡ with_gone (known pass.old) (known other)) × (in_hand pass.new ≡ in_hand pass.old) × (counts_of pass.new ≡ no_counts) }
    {
        let Pass {
            seat,
            number: _,
            given: _,
        } = other;
        self.table.shared.join_seat::<Back>(&mut pass.seat, seat);
    }

    /// Waits for the turn, and takes what all share.
    pub fn take<R: Wait>(&self, rt: &R, pass: &mut Pass<S>) -> S
        requires { IsIdle self.now pass.old }
        ensures own { IsPassOf self.now pass.new }
        ensures took { (others : List Held) × (known pass.new ≡ holding (known pass.old) (S.board result) others (S.orders result) (S.functions result)) × Serves S.keeps S.board S.counts S.orders result (known pass.new) (counts_of pass.new) }
        ensures board { length (S.board result) ≡ CELLS }
        ensures hand { in_hand pass.new ≡ (0, None) ∷ [] }
        ensures stands { (shares pass.new ≡ shares pass.old) × (counts_of pass.new ≡ counts_of pass.old) }
    {
        let backoff = Backoff::new();
        let turn = u64::from(pass.number) + 1;
        for _ in rt.forever() {
            let found = self
                .table
                .shared
                .compare_exchange::<Take>(&mut pass.seat, TURN, 0, turn);
            if found == 0 {
                return self.table.shared.exchange(&mut pass.seat, 0, None).unwrap();
            }
            backoff.snooze();
        }
        unreachable!()
    }

    /// Draws the place of a call. What it adds was raised, and becomes a row or a cell; a row or cell that it takes away is owed. Who has not
    /// the turn is told the orders at this place.
    pub fn place<E: Told>(&self, pass: &mut Pass<S>) -> u64
        requires own { IsPassOf self.now pass.old × ((known pass.old).live ≡ true) }
        requires room { length (known pass.old).entries < 2 ^ 48 }
        requires step { MayTell (known pass.old) E.told }
        requires moves { MayMove (known pass.old) (counts_of pass.old) E.told }
        ensures own { IsPassOf self.now pass.new × (in_hand pass.new ≡ in_hand pass.old) }
        ensures drew { (now : Orders) × ((known pass.old).holds ≡ true → now ≡ orders_of (known pass.old)) × (known pass.new ≡ told_with now (known pass.old) result E.told) }
        ensures held { (known pass.old).holds ≡ true → known pass.new ≡ told_of (known pass.old) result E.told }
        ensures moved { counts_of pass.new ≡ counts_after E.told.change (known pass.old).cells (known pass.old).rows (counts_of pass.old) }
        ensures stands { shares pass.new ≡ shares pass.old }
        ensures later { All (λ (e : Entry). e.place < result) (known pass.old).entries }
    {
        self.table
            .shared
            .fetch_add::<Draw<E>>(&mut pass.seat, JOURNAL, 1)
    }

    /// Notes the orders, at the number of the calls so far: those that the entries below this place leave. It draws no place.
    pub fn look(&self, pass: &mut Pass<S>) -> u64
        requires own { IsPassOf self.now pass.old × ((known pass.old).holds ≡ true) }
        ensures own { IsPassOf self.now pass.new × (in_hand pass.new ≡ in_hand pass.old) }
        ensures noted { known pass.new ≡ noting (known pass.old) result }
        ensures stands { (shares pass.new ≡ shares pass.old) × (counts_of pass.new ≡ counts_of pass.old) }
        ensures later { All (λ (e : Entry). e.place < result) (known pass.old).entries }
    {
        self.table.shared.load::<Look>(&mut pass.seat, JOURNAL)
    }

    /// Puts what all share and the turn back, and notes what was stored since the turn was taken, and what was due at the last Full.
    pub fn put_back<E: Leaves>(&self, pass: &mut Pass<S>, content: S)
        requires own { IsPassOf self.now pass.old × ((known pass.old).holds ≡ true) }
        requires hand { in_hand pass.old ≡ (0, None) ∷ [] }
        requires serves { Serves S.keeps S.board S.counts S.orders content (known pass.old) (counts_of pass.old) }
        requires stored { AreTold (known pass.old) E.leaving.stored (S.functions content) }
        requires due { E.leaving.due ≡ S.due content }
        ensures own { IsPassOf self.now pass.new }
        ensures gave { known pass.new ≡ letting_go (known pass.old) E.leaving }
        ensures hand { in_hand pass.new ≡ [] }
        ensures stands { (shares pass.new ≡ shares pass.old) × (counts_of pass.new ≡ counts_of pass.old) }
    {
        match self.table.shared.exchange(&mut pass.seat, 0, Some(content)) {
            None => {}
            Some(_) => unreachable!(),
        }
        self.table.shared.store::<Give<E>>(&mut pass.seat, TURN, 0);
    }

    /// The number of calls so far, which are a legal history.
    pub fn calls(&self, pass: &mut Pass<S>) -> u64
        requires { IsPassOf self.now pass.old × ((known pass.old).closing ≡ true) }
        ensures own { IsPassOf self.now pass.new × (known pass.new ≡ known pass.old) × (in_hand pass.new ≡ in_hand pass.old) }
        ensures whole { Whole result (sizes_for (known pass.old).vars (known pass.old).elements) (known pass.old).given (known pass.old).gone }
    {
        self.table.shared.load::<Last>(&mut pass.seat, JOURNAL)
    }

    /// Waits for the turn, and takes what all shared, once all sessions have come back. It is not put back.
    pub fn take_last<R: Wait>(&self, rt: &R, pass: &mut Pass<S>) -> S
        requires own { IsPassOf self.now pass.old × ((known pass.old).closing ≡ true) × (in_hand pass.old ≡ []) }
        requires back { AllBack (known pass.old) }
        ensures own { IsPassOf self.now pass.new × (known pass.new ≡ known pass.old) }
        ensures ends { Ends S.keeps S.board S.counts S.orders result (known pass.old) }
    {
        let backoff = Backoff::new();
        for _ in rt.forever() {
            let found = self
                .table
                .shared
                .compare_exchange::<End>(&mut pass.seat, TURN, 0, CLOSING_TURN);
            if found == 0 {
                return self.table.shared.exchange(&mut pass.seat, 0, None).unwrap();
            }
            backoff.snooze();
        }
        unreachable!()
    }
}
