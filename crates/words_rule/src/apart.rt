//! Which shares and holds are never there at once. Each function takes two of them, and tells what is false: so no two seats have them.
ghost use Rattle.std.specs.Prelude.{◌≡◌, []};
ghost use Rattle.words_rule.specs.Passes.{IsPassOf, in_hand, view};
ghost use Rattle.words_rule.specs.Aparts.{AreApart};

use crate::apart_plays::{Crossed, Never};
use crate::content::Content;
use crate::layout::PHASE;
use crate::seat::{FullHold, Guard, OpShare, OrderHold, Pass, WalkShare};

impl<S: Content> Guard<S> {
    /// While an operation share lives, nobody has the order.
    pub fn shares_and_orders(&self, share: OpShare<S>, hold: OrderHold<S>)
        requires own { IsPassOf self.now share.pass × IsPassOf self.now hold.pass }
        requires hand { in_hand hold.pass ≡ [] }
        ensures { ⊥ }
    {
        self.meet(share.pass, hold.pass);
    }

    /// Nor the full hold.
    pub fn shares_and_full_holds(&self, share: OpShare<S>, hold: FullHold<S>)
        requires own { IsPassOf self.now share.pass × IsPassOf self.now hold.pass }
        requires hand { in_hand hold.pass ≡ [] }
        ensures { ⊥ }
    {
        self.meet(share.pass, hold.pass);
    }

    /// While a walk share lives, nobody has the full hold.
    pub fn walks_and_full_holds(&self, share: WalkShare<S>, hold: FullHold<S>)
        requires own { IsPassOf self.now share.pass × IsPassOf self.now hold.pass }
        requires hand { in_hand hold.pass ≡ [] }
        ensures { ⊥ }
    {
        self.meet(share.pass, hold.pass);
    }

    /// No two have the order.
    pub fn orders_and_orders(&self, hold: OrderHold<S>, other: OrderHold<S>)
        requires own { IsPassOf self.now hold.pass × IsPassOf self.now other.pass }
        requires hand { in_hand other.pass ≡ [] }
        ensures { ⊥ }
    {
        self.meet(hold.pass, other.pass);
    }

    /// Joins two seats that are never there at once, and looks at the phase word.
    fn meet(&self, pass: Pass<S>, other: Pass<S>)
        requires own { IsPassOf self.now pass × IsPassOf self.now other }
        requires hand { in_hand other ≡ [] }
        requires apart { AreApart (view pass).shares (view other).shares }
        ensures { ⊥ }
    {
        let Pass {
            mut seat,
            number: _,
            sizes: _,
        } = pass;
        let Pass {
            seat: other,
            number: _,
            sizes: _,
        } = other;
        self.table.shared.join_seat::<Crossed>(&mut seat, other);
        self.table.shared.load::<Never>(&mut seat, PHASE);
    }
}
