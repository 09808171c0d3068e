//! Shares, each of which owns its session's seat.
ghost use Rattle.std.specs.Prelude.{◌≡◌, [], MatchResult};
ghost use Rattle.words_rule.specs.Holds.{IsFullHold};
ghost use Rattle.words_rule.specs.Passes.{view};
ghost use Rattle.words_rule.specs.Tokens.{BarsOperations, BarsWalks, Begins, BeginsAlone, Enters, IsFreeOf, IsLoneShare, IsShare, IsWalk, Keeps, SetsOut};
ghost use Rattle.words_rule.specs.Views.{orders_of, told_orders};

use crate::content::Content;
use crate::layout::PHASE;
use crate::phase::{FULL, ORDER};
use crate::seat::{FullHold, Guard, OpShare, Pass, WalkShare};
use crossbeam_utils::Backoff;
use std::sync::Wait;

/// What barred a share: the phase word as it was found.
#[derive(Drop)]
pub struct Busy {
    pub phase: u64,
}

impl<S: Content> Guard<S> {
    /// Takes an operation share. Busy comes exactly where the word before has the order bit or the full bit.
    pub fn op_in(&self, mut pass: Pass<S>) -> Result<OpShare<S>, (Pass<S>, Busy)>
        requires { IsFreeOf self.now pass }
        ensures { MatchResult result (λ s. IsShare self.now s × Enters pass s.pass) (λ e. IsFreeOf self.now e.0 × Keeps pass e.0 × BarsOperations e.1.phase) }
    {
        let found = self.enter_operation(&mut pass);
        if found < ORDER {
            return Ok(OpShare { pass });
        }
        self.leave_operation(&mut pass);
        Err((pass, Busy { phase: found }))
    }

    /// Gives an operation share back. What was noted of nodes goes.
    pub fn op_out(&self, share: OpShare<S>) -> Pass<S>
        requires { IsShare self.now share }
        ensures { IsFreeOf self.now result × Keeps share.pass result }
    {
        let OpShare { mut pass } = share;
        self.leave_operation(&mut pass);
        pass
    }

    /// An operation share of a seat with the full hold, which keeps both bits, but as claims: nobody else gets a share or a hold meanwhile.
    /// No slot is pinned, and the entries told the orders.
    pub fn share_alone(&self, hold: FullHold<S>) -> OpShare<S>
        requires own { IsFullHold self.now hold }
        requires pins { (view hold.pass).counts.pins ≡ [] }
        requires told { orders_of (view hold.pass).known ≡ told_orders (view hold.pass).known }
        ensures { IsLoneShare self.now result × BeginsAlone hold.pass result.pass }
    {
        let FullHold { mut pass } = hold;
        self.keep_operation(&mut pass);
        OpShare { pass }
    }

    /// Gives such a share back, and both claims. What was noted of nodes goes.
    pub fn alone_out(&self, share: OpShare<S>) -> Pass<S>
        requires { IsLoneShare self.now share }
        ensures { IsFreeOf self.now result × Keeps share.pass result }
    {
        let OpShare { mut pass } = share;
        self.leave_operation(&mut pass);
        self.unclaim_full(&mut pass);
        self.unclaim_order(&mut pass);
        pass
    }

    /// Takes a walk share. Busy comes exactly where the word before has the full bit.
    pub fn walk_in(&self, mut pass: Pass<S>) -> Result<WalkShare<S>, (Pass<S>, Busy)>
        requires { IsFreeOf self.now pass }
        ensures { MatchResult result (λ s. IsWalk self.now s × SetsOut pass s.pass) (λ e. IsFreeOf self.now e.0 × Keeps pass e.0 × BarsWalks e.1.phase) }
    {
        let found = self.enter_walk(&mut pass);
        if found < FULL {
            return Ok(WalkShare { pass });
        }
        self.leave_walk(&mut pass);
        Err((pass, Busy { phase: found }))
    }

    /// Gives a walk share back. What was noted of nodes goes.
    pub fn walk_out(&self, share: WalkShare<S>) -> Pass<S>
        requires { IsWalk self.now share }
        ensures { IsFreeOf self.now result × Keeps share.pass result }
    {
        let WalkShare { mut pass } = share;
        self.leave_walk(&mut pass);
        pass
    }

    /// Waits for an operation share. It peeks at the word until that would let it through, and only then makes its step: who adds a share
    /// and takes it back would keep the count above 0.
    #[tactic(auto, using(crate::proofs::Waits::keeps_trans))]
    pub fn op_wait<R: Wait>(&self, rt: &R, pass: Pass<S>) -> OpShare<S>
        requires { IsFreeOf self.now pass }
        ensures { IsShare self.now result × Begins pass result.pass }
    {
        let backoff = Backoff::new();
        let mut mine = pass;
        for _ in rt.forever() {
            if self.table.shared.peek(PHASE) < ORDER {
                match self.op_in(mine) {
                    Ok(share) => return share,
                    Err((back, _)) => mine = back,
                }
            }
            backoff.snooze();
        }
        unreachable!()
    }
}
