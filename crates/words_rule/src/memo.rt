//! The computed table: it is taken, and put back.
ghost use Rattle.std.specs.Prelude.{◌≡◌, ◌<◌, ◌∷◌, true, false, None, IfSome, IfNone};
ghost use Rattle.atomic_table.specs.Table.{rest, turned};
ghost use Rattle.words_rule.specs.declared.view.Share.TheVariants.{Held};
ghost use Rattle.words_rule.specs.Known.{known_of};
ghost use Rattle.words_rule.specs.Loads.{LearntMemo};
ghost use Rattle.words_rule.specs.Remembered.{AreAnswers};
ghost use Rattle.words_rule.specs.Passes.{me, view, in_hand, IsLiveOf, IsPassOf};

use crate::content::Content;
use crate::layout::{MEMO, MEMO_SLOT};
use crate::plays::{GiveMemo, TakeMemo};
use crate::seat::{Guard, Pass};
use crate::told::Beside;

impl<S> Pass<S> {
    /// The slot that was taken last goes behind the others that are in hand.
    pub fn turn(&mut self)
        ensures same { (self.new.seat.table_id ≡ self.old.seat.table_id) × (view self.new ≡ view self.old) }
        ensures turned { in_hand self.new ≡ turned (in_hand self.old) }
    {
        self.seat.turn();
    }
}

impl<S: Content> Guard<S> {
    /// Takes the computed table, if it is at home. What each of its entries says holds in what the seat knows then.
    pub fn take_memo<E: Beside>(&self, pass: &mut Pass<S>) -> Option<S>
        requires own { IsLiveOf self.now pass.old }
        requires share { (view pass.old).shares.op ≡ Held }
        requires few { E.own.fulls < 18446744073709551616 }
        ensures own { IsPassOf self.now pass.new }
        ensures taken { IfSome result (λ x. LearntMemo E.own (S.memo x) (view pass.old) (view pass.new) × (in_hand pass.new ≡ (2, None) ∷ in_hand pass.old)) }
        ensures missed { IfNone result (me pass.new ≡ me pass.old) }
    {
        let mine = u64::from(pass.number) + 1;
        let found = self
            .table
            .shared
            .compare_exchange::<TakeMemo<E>>(&mut pass.seat, MEMO, 0, mine);
        if found == 0 {
            self.table.shared.exchange(&mut pass.seat, MEMO_SLOT, None)
        } else {
            None
        }
    }

    /// Puts the computed table back. Each of its entries holds in what the seat knows.
    pub fn give_memo<E: Beside>(&self, pass: &mut Pass<S>, content: S)
        requires own { IsLiveOf self.now pass.old }
        requires share { (view pass.old).shares.op ≡ Held }
        requires hand { in_hand pass.old ≡ (2, None) ∷ rest (in_hand pass.old) }
        requires has { (view pass.old).hand.memo ≡ true }
        requires holds { AreAnswers (known_of (view pass.old) E.own).view (S.memo content) }
        ensures own { IsPassOf self.now pass.new × (in_hand pass.new ≡ rest (in_hand pass.old)) }
        ensures given { view pass.new ≡ record (view pass.old) { hand = record (view pass.old).hand { memo = false } } }
    {
        match self
            .table
            .shared
            .exchange(&mut pass.seat, MEMO_SLOT, Some(content))
        {
            None => {}
            Some(_) => unreachable!(),
        }
        self.table.shared.store::<GiveMemo>(&mut pass.seat, MEMO, 0);
    }
}
