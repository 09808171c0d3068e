//! The full hold, which owns its session's seat.
ghost use Rattle.std.specs.Prelude.{MatchResult};
ghost use Rattle.words_rule.specs.Holds.{BarsFull, IsFullHold, KeepsNotes, TakesAll};
ghost use Rattle.words_rule.specs.Tokens.{IsHold};

use crate::content::Content;
use crate::phase::WALK;
use crate::seat::{FullHold, Guard, OrderHold};
use crate::sharing::Busy;

impl<S: Content> Guard<S> {
    /// Takes the full hold. Busy comes exactly where its load shows a walk share; then the full bit is clear again. With the hold the seat
    /// knows that no swap is half made.
    pub fn try_full(&self, hold: OrderHold<S>) -> Result<FullHold<S>, (OrderHold<S>, Busy)>
        requires { IsHold self.now hold }
        ensures { MatchResult result (λ h. IsFullHold self.now h × TakesAll hold.pass h.pass) (λ e. IsHold self.now e.0 × KeepsNotes hold.pass e.0.pass × BarsFull e.1.phase) }
    {
        let OrderHold { mut pass } = hold;
        self.claim_full(&mut pass);
        let found = self.look_full(&mut pass);
        if found / WALK % WALK == 0 {
            return Ok(FullHold { pass });
        }
        self.unclaim_full(&mut pass);
        Err((OrderHold { pass }, Busy { phase: found }))
    }

    /// Gives the full hold back, and keeps the order. No swap is half made, and no order word is due.
    pub fn full_out(&self, hold: FullHold<S>) -> OrderHold<S>
        requires { IsFullHold self.now hold }
        ensures { IsHold self.now result × KeepsNotes hold.pass result.pass }
    {
        let FullHold { mut pass } = hold;
        self.leave_full(&mut pass);
        OrderHold { pass }
    }
}
