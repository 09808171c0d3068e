//! Shares and holds of the phase word, each of which owns its session's seat.
ghost use Rattle.std.specs.Prelude.{◌≡◌, MatchResult, []};
ghost use Rattle.seat_guard.specs.declared.view.Hold.TheVariants.{Free, Holding};
ghost use Rattle.seat_guard.specs.declared.view.Share.TheVariants.{Nothing};
ghost use Rattle.seat_guard.specs.Passes.{IsPassOf, counts_of, shares};
ghost use Rattle.seat_guard.specs.Phase.{bit, passed, weight};
ghost use Rattle.seat_guard.specs.Tokens.{BarsFull, BarsOperations, BarsOrder, BarsWalks, IsFreeOf, IsFullHold, IsHold, IsLiveOf, IsShare, IsWalk, Keeps, KeepsBut, Looked};

use crate::content::Content;
use crate::layout::PHASE;
use crate::phase_plays::{
    ClaimFull, ClaimOrder, ClearFull, ClearOrder, EnterOperation, EnterWalk, LeaveOperation,
    LeaveWalk, LookFull, LookOrder,
};
use crate::seat::{FullHold, Guard, OpShare, OrderHold, Pass, WalkShare};

/// A walk share, in the phase word; an operation share is 1.
pub(crate) const WALK: u64 = 1 << 16;

/// The order bit.
pub(crate) const ORDER: u64 = 1 << 32;

/// The full bit.
pub(crate) const FULL: u64 = 1 << 33;

/// What barred a share or a hold: the phase word as it was found.
#[derive(Drop)]
pub struct Busy {
    pub phase: u64,
}

impl<S: Content> Guard<S> {
    /// Takes an operation share. Busy comes exactly where the word before has the order bit or the full bit.
    pub fn op_in(&self, mut pass: Pass<S>) -> Result<OpShare<S>, (Pass<S>, Busy)>
        requires { IsFreeOf self.now pass }
        ensures { MatchResult result (λ s. IsShare self.now s × Keeps pass s.pass) (λ e. IsFreeOf self.now e.0 × Keeps pass e.0 × Looked pass e.0 e.1.phase × BarsOperations e.1.phase) }
    {
        let found = self
            .table
            .shared
            .fetch_add::<EnterOperation>(&mut pass.seat, PHASE, 1);
        if found < ORDER {
            return Ok(OpShare { pass });
        }
        self.leave_operation(&mut pass);
        Err((pass, Busy { phase: found }))
    }

    /// Gives an operation share back.
    pub fn op_out(&self, share: OpShare<S>) -> Pass<S>
        requires { IsShare self.now share }
        ensures { IsFreeOf self.now result × Keeps share.pass result }
    {
        let OpShare { mut pass } = share;
        self.leave_operation(&mut pass);
        pass
    }

    /// Takes an operation share, or what is owed of one, out of the word.
    fn leave_operation(&self, pass: &mut Pass<S>)
        requires { IsLiveOf self.now pass.old × (weight (shares pass.old).op ≡ 1) }
        ensures { IsPassOf self.now pass.new × Keeps pass.old pass.new × (shares pass.new ≡ record (passed (shares pass.old)) { op = Nothing }) }
    {
        self.table
            .shared
            .fetch_sub::<LeaveOperation>(&mut pass.seat, PHASE, 1);
    }

    /// Takes a walk share. Busy comes exactly where the word before has the full bit.
    pub fn walk_in(&self, mut pass: Pass<S>) -> Result<WalkShare<S>, (Pass<S>, Busy)>
        requires { IsFreeOf self.now pass }
        ensures { MatchResult result (λ s. IsWalk self.now s × Keeps pass s.pass) (λ e. IsFreeOf self.now e.0 × Keeps pass e.0 × Looked pass e.0 e.1.phase × BarsWalks e.1.phase) }
    {
        let found = self
            .table
            .shared
            .fetch_add::<EnterWalk>(&mut pass.seat, PHASE, WALK);
        if found < FULL {
            return Ok(WalkShare { pass });
        }
        self.leave_walk(&mut pass);
        Err((pass, Busy { phase: found }))
    }

    /// Gives a walk share back.
    pub fn walk_out(&self, share: WalkShare<S>) -> Pass<S>
        requires { IsWalk self.now share }
        ensures { IsFreeOf self.now result × Keeps share.pass result }
    {
        let WalkShare { mut pass } = share;
        self.leave_walk(&mut pass);
        pass
    }

    /// Takes a walk share, or what is owed of one, out of the word.
    fn leave_walk(&self, pass: &mut Pass<S>)
        requires { IsLiveOf self.now pass.old × (weight (shares pass.old).walk ≡ 1) }
        ensures { IsPassOf self.now pass.new × Keeps pass.old pass.new × (shares pass.new ≡ record (passed (shares pass.old)) { walk = Nothing }) }
    {
        self.table
            .shared
            .fetch_sub::<LeaveWalk>(&mut pass.seat, PHASE, WALK);
    }

    /// Takes the order hold. Busy comes exactly where the word before has the order bit, or where the load behind it shows an
    /// operation share, and tells the word that was found so.
    pub fn try_order(&self, mut pass: Pass<S>) -> Result<OrderHold<S>, (Pass<S>, Busy)>
        requires { IsFreeOf self.now pass }
        ensures { MatchResult result (λ h. IsHold self.now h × Keeps pass h.pass) (λ e. IsFreeOf self.now e.0 × Keeps pass e.0 × Looked pass e.0 e.1.phase × BarsOrder e.1.phase) }
    {
        let found = self
            .table
            .shared
            .fetch_or::<ClaimOrder>(&mut pass.seat, PHASE, ORDER);
        if found / ORDER % 2 != 0 {
            return Err((pass, Busy { phase: found }));
        }
        let found = self.table.shared.load::<LookOrder>(&mut pass.seat, PHASE);
        if found % WALK == 0 {
            return Ok(OrderHold { pass });
        }
        self.clear_order(&mut pass);
        Err((pass, Busy { phase: found }))
    }

    /// Gives the order hold back. No pin is left, and what was noted of counts under the hold goes.
    pub fn order_out(&self, hold: OrderHold<S>) -> Pass<S>
        requires hold { IsHold self.now hold }
        requires pins { (counts_of hold.pass).pins ≡ [] }
        ensures { IsFreeOf self.now result × KeepsBut hold.pass result }
    {
        let OrderHold { mut pass } = hold;
        self.clear_order(&mut pass);
        pass
    }

    /// Clears the order bit, which the seat has claimed or holds.
    fn clear_order(&self, pass: &mut Pass<S>)
        requires own { IsLiveOf self.now pass.old × (bit (shares pass.old).order ≡ 1) × ((shares pass.old).full ≡ Free) }
        requires pins { (shares pass.old).order ≡ Holding → (counts_of pass.old).pins ≡ [] }
        ensures { IsPassOf self.now pass.new × KeepsBut pass.old pass.new × (shares pass.new ≡ record (passed (shares pass.old)) { order = Free }) }
    {
        self.table
            .shared
            .fetch_and::<ClearOrder>(&mut pass.seat, PHASE, !ORDER);
    }

    /// Takes the full hold. Busy comes exactly where its load shows a walk share; then the full bit is clear again.
    pub fn try_full(&self, hold: OrderHold<S>) -> Result<FullHold<S>, (OrderHold<S>, Busy)>
        requires { IsHold self.now hold }
        ensures { MatchResult result (λ h. IsFullHold self.now h × Keeps hold.pass h.pass) (λ e. IsHold self.now e.0 × Keeps hold.pass e.0.pass × Looked hold.pass e.0.pass e.1.phase × BarsFull e.1.phase) }
    {
        let OrderHold { mut pass } = hold;
        self.table
            .shared
            .fetch_xor::<ClaimFull>(&mut pass.seat, PHASE, FULL);
        let found = self.table.shared.load::<LookFull>(&mut pass.seat, PHASE);
        if found / WALK % WALK == 0 {
            return Ok(FullHold { pass });
        }
        self.clear_full(&mut pass);
        Err((OrderHold { pass }, Busy { phase: found }))
    }

    /// Gives the full hold back, and keeps the order.
    pub fn full_out(&self, hold: FullHold<S>) -> OrderHold<S>
        requires { IsFullHold self.now hold }
        ensures { IsHold self.now result × Keeps hold.pass result.pass }
    {
        let FullHold { mut pass } = hold;
        self.clear_full(&mut pass);
        OrderHold { pass }
    }

    /// Clears the full bit, which the seat has claimed or holds.
    fn clear_full(&self, pass: &mut Pass<S>)
        requires { IsLiveOf self.now pass.old × (bit (shares pass.old).full ≡ 1) }
        ensures { IsPassOf self.now pass.new × Keeps pass.old pass.new × (shares pass.new ≡ record (passed (shares pass.old)) { full = Free }) }
    {
        self.table
            .shared
            .fetch_xor::<ClearFull>(&mut pass.seat, PHASE, FULL);
    }
}
