//! The forms of shares and holds that wait. Each peeks at the word until that would let it through, and only then makes its step: who
//! adds a share and takes it back would keep the count above 0, and the holder of the order would never find it clear.
ghost use Rattle.words_rule.specs.Holds.{IsClaim, IsFull, IsFullClaim, IsFullHold, IsOrdered, TakesAll};
ghost use Rattle.words_rule.specs.Tokens.{HasOrders, IsFreeOf, IsHold, IsWalk, Keeps, SetsBegun};

use crate::content::Content;
use crate::layout::PHASE;
use crate::phase::{FULL, ORDER, WALK};
use crate::seat::{FullHold, Guard, OrderHold, Pass, WalkShare};
use crossbeam_utils::Backoff;
use std::sync::Wait;

impl<S: Content> Guard<S> {
    /// Waits for a walk share.
    #[tactic(auto, using(crate::proofs::Waits::keeps_trans))]
    pub fn walk_wait<R: Wait>(&self, rt: &R, pass: Pass<S>) -> WalkShare<S>
        requires { IsFreeOf self.now pass }
        ensures { IsWalk self.now result × SetsBegun pass result.pass }
    {
        let backoff = Backoff::new();
        let mut mine = pass;
        for _ in rt.forever() {
            if self.table.shared.peek(PHASE) < FULL {
                match self.walk_in(mine) {
                    Ok(share) => return share,
                    Err((back, _)) => mine = back,
                }
            }
            backoff.snooze();
        }
        unreachable!()
    }

    /// Waits for the order hold: for the bit, and then for the operation shares to go.
    pub fn order_wait<R: Wait>(&self, rt: &R, mut pass: Pass<S>) -> OrderHold<S>
        requires { IsFreeOf self.now pass }
        ensures { IsHold self.now result × HasOrders pass result.pass }
    {
        self.await_bit(rt, &mut pass);
        self.await_operations(rt, &mut pass);
        OrderHold { pass }
    }

    /// Waits for the full hold: for the walk shares to go.
    pub fn full_wait<R: Wait>(&self, rt: &R, hold: OrderHold<S>) -> FullHold<S>
        requires { IsHold self.now hold }
        ensures { IsFullHold self.now result × TakesAll hold.pass result.pass }
    {
        let OrderHold { mut pass } = hold;
        self.claim_full(&mut pass);
        self.await_walks(rt, &mut pass);
        FullHold { pass }
    }

    /// Waits for the order bit.
    fn await_bit<R: Wait>(&self, rt: &R, pass: &mut Pass<S>)
        requires { IsFreeOf self.now pass.old }
        ensures { IsClaim self.now pass.new × Keeps pass.old pass.new }
    {
        let backoff = Backoff::new();
        for _ in rt.forever() {
            if self.table.shared.peek(PHASE) / ORDER % 2 == 0 {
                let found = self.claim_order(pass);
                if found / ORDER % 2 == 0 {
                    return;
                }
            }
            backoff.snooze();
        }
        unreachable!()
    }

    /// Waits for the operation shares to go.
    fn await_operations<R: Wait>(&self, rt: &R, pass: &mut Pass<S>)
        requires { IsClaim self.now pass.old }
        ensures { IsOrdered self.now pass.new × Keeps pass.old pass.new }
    {
        let backoff = Backoff::new();
        for _ in rt.forever() {
            if self.table.shared.peek(PHASE) % WALK == 0 {
                let found = self.look_order(pass);
                if found % WALK == 0 {
                    return;
                }
            }
            backoff.snooze();
        }
        unreachable!()
    }

    /// Waits for the walk shares to go.
    fn await_walks<R: Wait>(&self, rt: &R, pass: &mut Pass<S>)
        requires { IsFullClaim self.now pass.old }
        ensures { IsFull self.now pass.new × TakesAll pass.old pass.new }
    {
        let backoff = Backoff::new();
        for _ in rt.forever() {
            if self.table.shared.peek(PHASE) / WALK % WALK == 0 {
                let found = self.look_full(pass);
                if found / WALK % WALK == 0 {
                    return;
                }
            }
            backoff.snooze();
        }
        unreachable!()
    }
}
