//! Shares and holds of the phase word, step by step.
ghost use Rattle.std.specs.Prelude.{List, ℕ, None, [], ◌≡◌, ◌≢◌, ◌<◌, ◌≤◌, ◌⊎◌};
ghost use Rattle.words_rule.specs.declared.view.Hold.TheVariants.{Free, Claimed, Holding};
ghost use Rattle.words_rule.specs.declared.view.Share.TheVariants.{Nothing, Held, Owed};
ghost use Rattle.words_rule.specs.Views.{orders_of, told_orders};
ghost use Rattle.words_rule.specs.Hands.{IsIdle};
ghost use Rattle.words_rule.specs.Holds.{IsUnswapped};
ghost use Rattle.words_rule.specs.Phase.{claims, order_of, ops_of, walks_of, with_op, with_walk, with_order, with_full};
ghost use Rattle.words_rule.specs.PhasePlays.{HasEntered, HasSetOut, forgetting, unswapped};
ghost use Rattle.words_rule.specs.Seen.{HasShare};
ghost use Rattle.words_rule.specs.Passes.{me, view, in_hand, IsLiveOf, IsPassOf};

use crate::content::Content;
use crate::layout::PHASE;
use crate::phase_plays::{
    ClaimFull, ClaimOrder, EnterOperation, EnterWalk, KeepOperation, LeaveFull, LeaveOperation,
    LeaveOrder, LeaveWalk, LookFull, LookOrder, UnclaimFull, UnclaimOrder,
};
use crate::seat::{Guard, Pass};

/// A walk share, in the phase word; an operation share is 1.
pub(crate) const WALK: u64 = 1 << 16;

/// The order bit.
pub(crate) const ORDER: u64 = 1 << 32;

/// The full bit.
pub(crate) const FULL: u64 = 1 << 33;

impl<S: Content> Guard<S> {
    /// Takes an operation share where the word before, which it answers, has neither bit; else it is owed. With the share the seat
    /// knows what its rows' edges denote, the slots that are told by their number, and the projections.
    pub fn enter_operation(&self, pass: &mut Pass<S>) -> u64
        requires own { IsLiveOf self.now pass.old }
        requires free { (view pass.old).shares.op ≡ Nothing }
        requires unnoted { ((view pass.old).known.words ≡ []) × ((view pass.old).known.seen ≡ []) }
        ensures own { IsPassOf self.now pass.new × (in_hand pass.new ≡ in_hand pass.old) }
        ensures held { result < 4294967296 → HasEntered (view pass.old) (view pass.new) (with_op (view pass.old).shares Held result) }
        ensures owed { 4294967296 ≤ result → view pass.new ≡ record (view pass.old) { shares = with_op (view pass.old).shares Owed result } }
    {
        self.table
            .shared
            .fetch_add::<EnterOperation>(&mut pass.seat, PHASE, 1)
    }

    /// Takes an operation share with both holds, which are claims from then on, and answers the word before: nobody else gets a share or a
    /// hold meanwhile. No pin is left, nothing is in hand, no swap is half made, and the entries told the orders. What was noted under the
    /// holds goes; the seat knows what its rows' edges denote, the slots that are told by their number, and the projections.
    pub fn keep_operation(&self, pass: &mut Pass<S>) -> u64
        requires own { IsLiveOf self.now pass.old }
        requires holds { ((view pass.old).shares.order ≡ Holding) × ((view pass.old).shares.full ≡ Holding) × ((view pass.old).shares.op ≡ Nothing) }
        requires idle { IsIdle (view pass.old).hand }
        requires pins { (view pass.old).counts.pins ≡ [] }
        requires told { orders_of (view pass.old).known ≡ told_orders (view pass.old).known }
        requires done { IsUnswapped (view pass.old) }
        ensures own { IsPassOf self.now pass.new × (in_hand pass.new ≡ in_hand pass.old) }
        ensures held { HasEntered (record (view pass.old) { counts = record (view pass.old).counts { zeros = []; above = [] } }) (view pass.new) (with_op (claims (view pass.old).shares) Held result) }
    {
        self.table
            .shared
            .fetch_add::<KeepOperation>(&mut pass.seat, PHASE, 1)
    }

    /// Takes an operation share, or what is owed of one, out of the word, and answers the word before. What was noted of nodes goes.
    pub fn leave_operation(&self, pass: &mut Pass<S>) -> u64
        requires own { IsLiveOf self.now pass.old }
        requires has { (((view pass.old).shares.op ≡ Held) × IsIdle (view pass.old).hand) ⊎ ((view pass.old).shares.op ≡ Owed) }
        ensures own { IsPassOf self.now pass.new × (in_hand pass.new ≡ in_hand pass.old) }
        ensures left { view pass.new ≡ forgetting (record (view pass.old) { shares = with_op (view pass.old).shares Nothing result }) }
    {
        self.table
            .shared
            .fetch_sub::<LeaveOperation>(&mut pass.seat, PHASE, 1)
    }

    /// Takes a walk share where the word before, which it answers, has not the full bit; else it is owed. With the share the seat knows
    /// what its rows' edges denote.
    pub fn enter_walk(&self, pass: &mut Pass<S>) -> u64
        requires own { IsLiveOf self.now pass.old }
        requires free { (view pass.old).shares.walk ≡ Nothing }
        requires unseen { HasShare (view pass.old) ⊎ ((view pass.old).known.seen ≡ []) }
        ensures own { IsPassOf self.now pass.new × (in_hand pass.new ≡ in_hand pass.old) }
        ensures held { result < 8589934592 → HasSetOut (view pass.old) (view pass.new) (with_walk (view pass.old).shares Held result) }
        ensures owed { 8589934592 ≤ result → view pass.new ≡ record (view pass.old) { shares = with_walk (view pass.old).shares Owed result } }
    {
        self.table
            .shared
            .fetch_add::<EnterWalk>(&mut pass.seat, PHASE, WALK)
    }

    /// Takes a walk share, or what is owed of one, out of the word, and answers the word before. What was noted of nodes goes.
    pub fn leave_walk(&self, pass: &mut Pass<S>) -> u64
        requires own { IsLiveOf self.now pass.old }
        requires has { ((view pass.old).shares.walk ≡ Held) ⊎ ((view pass.old).shares.walk ≡ Owed) }
        ensures own { IsPassOf self.now pass.new × (in_hand pass.new ≡ in_hand pass.old) }
        ensures left { view pass.new ≡ forgetting (record (view pass.old) { shares = with_walk (view pass.old).shares Nothing result }) }
    {
        self.table
            .shared
            .fetch_sub::<LeaveWalk>(&mut pass.seat, PHASE, WALK)
    }

    /// Claims the order bit, if it was clear in the word before, which it answers.
    pub fn claim_order(&self, pass: &mut Pass<S>) -> u64
        requires own { IsLiveOf self.now pass.old }
        requires free { (view pass.old).shares.order ≡ Free }
        ensures own { IsPassOf self.now pass.new × (in_hand pass.new ≡ in_hand pass.old) }
        ensures claimed { order_of result ≡ 0 → view pass.new ≡ record (view pass.old) { shares = with_order (view pass.old).shares Claimed result } }
        ensures missed { order_of result ≢ 0 → view pass.new ≡ view pass.old }
    {
        self.table
            .shared
            .fetch_or::<ClaimOrder>(&mut pass.seat, PHASE, ORDER)
    }

    /// Looks at the word, which it answers: where it shows no operation share, the claim is the order hold, and the seat knows both
    /// orders.
    pub fn look_order(&self, pass: &mut Pass<S>) -> u64
        requires own { IsLiveOf self.now pass.old }
        requires claim { (view pass.old).shares.order ≡ Claimed }
        ensures own { IsPassOf self.now pass.new × (in_hand pass.new ≡ in_hand pass.old) }
        ensures holds { ops_of result ≡ 0 → (variables : List ℕ) × (elements : List ℕ) × (view pass.new ≡ record (view pass.old) { shares = with_order (view pass.old).shares Holding result; known = record (view pass.old).known { variable_order = variables; element_order = elements; told_variables = variables; told_elements = elements; words = []; seen = []; ages = [] } }) }
        ensures missed { ops_of result ≢ 0 → view pass.new ≡ view pass.old }
    {
        self.table.shared.load::<LookOrder>(&mut pass.seat, PHASE)
    }

    /// Takes a claim on the order back, and answers the word before.
    pub fn unclaim_order(&self, pass: &mut Pass<S>) -> u64
        requires own { IsLiveOf self.now pass.old }
        requires claim { ((view pass.old).shares.order ≡ Claimed) × ((view pass.old).shares.full ≡ Free) }
        ensures own { IsPassOf self.now pass.new × (in_hand pass.new ≡ in_hand pass.old) }
        ensures left { view pass.new ≡ record (view pass.old) { shares = with_order (view pass.old).shares Free result } }
    {
        self.table
            .shared
            .fetch_and::<UnclaimOrder>(&mut pass.seat, PHASE, !ORDER)
    }

    /// Gives the order hold up, and answers the word before. No pin is left, nothing is in hand, and the entries told the orders. What
    /// was noted under the hold goes.
    pub fn leave_order(&self, pass: &mut Pass<S>) -> u64
        requires own { IsLiveOf self.now pass.old }
        requires hold { ((view pass.old).shares.order ≡ Holding) × ((view pass.old).shares.full ≡ Free) × ((view pass.old).shares.op ≡ Nothing) }
        requires idle { IsIdle (view pass.old).hand }
        requires pins { (view pass.old).counts.pins ≡ [] }
        requires told { orders_of (view pass.old).known ≡ told_orders (view pass.old).known }
        ensures own { IsPassOf self.now pass.new × (in_hand pass.new ≡ in_hand pass.old) }
        ensures left { view pass.new ≡ forgetting (record (view pass.old) { shares = with_order (view pass.old).shares Free result; counts = record (view pass.old).counts { zeros = []; above = [] } }) }
    {
        self.table
            .shared
            .fetch_and::<LeaveOrder>(&mut pass.seat, PHASE, !ORDER)
    }

    /// Claims the full bit, under the order hold, and answers the word before.
    pub fn claim_full(&self, pass: &mut Pass<S>) -> u64
        requires own { IsLiveOf self.now pass.old }
        requires hold { ((view pass.old).shares.order ≡ Holding) × ((view pass.old).shares.full ≡ Free) }
        ensures own { IsPassOf self.now pass.new × (in_hand pass.new ≡ in_hand pass.old) }
        ensures claimed { view pass.new ≡ record (view pass.old) { shares = with_full (view pass.old).shares Claimed result } }
    {
        self.table
            .shared
            .fetch_xor::<ClaimFull>(&mut pass.seat, PHASE, FULL)
    }

    /// Looks at the word, which it answers: where it shows no walk share, the claim is the full hold, and the seat knows that no swap is
    /// half made.
    pub fn look_full(&self, pass: &mut Pass<S>) -> u64
        requires own { IsLiveOf self.now pass.old }
        requires claim { ((view pass.old).shares.order ≡ Holding) × ((view pass.old).shares.full ≡ Claimed) }
        ensures own { IsPassOf self.now pass.new × (in_hand pass.new ≡ in_hand pass.old) }
        ensures holds { walks_of result ≡ 0 → view pass.new ≡ record (view pass.old) { shares = with_full (view pass.old).shares Holding result; known = unswapped (view pass.old).known } }
        ensures missed { walks_of result ≢ 0 → view pass.new ≡ view pass.old }
    {
        self.table.shared.load::<LookFull>(&mut pass.seat, PHASE)
    }

    /// Takes a claim on the full hold back, and answers the word before.
    pub fn unclaim_full(&self, pass: &mut Pass<S>) -> u64
        requires own { IsLiveOf self.now pass.old }
        requires claim { (view pass.old).shares.full ≡ Claimed }
        ensures own { IsPassOf self.now pass.new × (in_hand pass.new ≡ in_hand pass.old) }
        ensures left { view pass.new ≡ record (view pass.old) { shares = with_full (view pass.old).shares Free result } }
    {
        self.table
            .shared
            .fetch_xor::<UnclaimFull>(&mut pass.seat, PHASE, FULL)
    }
    /// Gives the full hold up, and keeps the order; answers the word before. No swap is half made, and no order word is due.
    pub fn leave_full(&self, pass: &mut Pass<S>) -> u64
        requires own { IsLiveOf self.now pass.old }
        requires hold { (view pass.old).shares.full ≡ Holding }
        requires done { ((view pass.old).known.half ≡ None) × ((view pass.old).known.pending ≡ []) }
        ensures own { IsPassOf self.now pass.new × (in_hand pass.new ≡ in_hand pass.old) }
        ensures left { view pass.new ≡ record (view pass.old) { shares = with_full (view pass.old).shares Free result } }
    {
        self.table
            .shared
            .fetch_xor::<LeaveFull>(&mut pass.seat, PHASE, FULL)
    }
}
