//! The order hold, which owns its session's seat.
ghost use Rattle.std.specs.Prelude.{◌≡◌, MatchResult, []};
ghost use Rattle.words_rule.specs.Tokens.{BarsOrder, HasOrders, IsFreeOf, IsHold, Keeps, KeepsBut};
ghost use Rattle.words_rule.specs.Passes.{view};
ghost use Rattle.words_rule.specs.Views.{orders_of, told_orders};

use crate::content::Content;
use crate::phase::{ORDER, WALK};
use crate::seat::{Guard, OrderHold, Pass};
use crate::sharing::Busy;

impl<S: Content> Guard<S> {
    /// Takes the order hold. Busy comes exactly where the word before has the order bit, or where the load behind it shows an operation
    /// share, and tells the word that was found so.
    pub fn try_order(&self, mut pass: Pass<S>) -> Result<OrderHold<S>, (Pass<S>, Busy)>
        requires { IsFreeOf self.now pass }
        ensures { MatchResult result (λ h. IsHold self.now h × HasOrders pass h.pass) (λ e. IsFreeOf self.now e.0 × Keeps pass e.0 × BarsOrder e.1.phase) }
    {
        let found = self.claim_order(&mut pass);
        if found / ORDER % 2 != 0 {
            return Err((pass, Busy { phase: found }));
        }
        let found = self.look_order(&mut pass);
        if found % WALK == 0 {
            return Ok(OrderHold { pass });
        }
        self.unclaim_order(&mut pass);
        Err((pass, Busy { phase: found }))
    }

    /// Gives the order hold back. No pin is left, and the entries told the orders. What was noted under the hold goes.
    pub fn order_out(&self, hold: OrderHold<S>) -> Pass<S>
        requires hold { IsHold self.now hold }
        requires pins { (view hold.pass).counts.pins ≡ [] }
        requires told { orders_of (view hold.pass).known ≡ told_orders (view hold.pass).known }
        ensures { IsFreeOf self.now result × KeepsBut hold.pass result }
    {
        let OrderHold { mut pass } = hold;
        self.leave_order(&mut pass);
        pass
    }
}
