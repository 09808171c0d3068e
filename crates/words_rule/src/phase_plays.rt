//! What each step on the phase word tells.

use crate::view::View;
use atomic_table::Play;

/// An operation share is taken, or owed.
pub struct EnterOperation;

impl<S> Play<Option<S>, View> for EnterOperation {
    ghost use Rattle.words_rule.specs.PhasePlays.{op_entered};

    ghost then = { op_entered };
}

/// It is taken by who has both holds, which become claims.
pub struct KeepOperation;

impl<S> Play<Option<S>, View> for KeepOperation {
    ghost use Rattle.words_rule.specs.PhasePlays.{op_kept};

    ghost then = { op_kept };
}

/// It is given back, or what was owed is paid.
pub struct LeaveOperation;

impl<S> Play<Option<S>, View> for LeaveOperation {
    ghost use Rattle.words_rule.specs.PhasePlays.{op_left};

    ghost then = { op_left };
}

/// A walk share is taken, or owed.
pub struct EnterWalk;

impl<S> Play<Option<S>, View> for EnterWalk {
    ghost use Rattle.words_rule.specs.PhasePlays.{walk_entered};

    ghost then = { walk_entered };
}

/// It is given back, or what was owed is paid.
pub struct LeaveWalk;

impl<S> Play<Option<S>, View> for LeaveWalk {
    ghost use Rattle.words_rule.specs.PhasePlays.{walk_left};

    ghost then = { walk_left };
}

/// The order bit is claimed, if it was clear.
pub struct ClaimOrder;

impl<S> Play<Option<S>, View> for ClaimOrder {
    ghost use Rattle.words_rule.specs.PhasePlays.{order_claimed};

    ghost then = { order_claimed };
}

/// The claim becomes a hold, if no operation share is left.
pub struct LookOrder;

impl<S> Play<Option<S>, View> for LookOrder {
    ghost use Rattle.words_rule.specs.PhasePlays.{order_looked};

    ghost then = { order_looked };
}

/// The claim is taken back.
pub struct UnclaimOrder;

impl<S> Play<Option<S>, View> for UnclaimOrder {
    ghost use Rattle.words_rule.specs.PhasePlays.{order_unclaimed};

    ghost then = { order_unclaimed };
}

/// The order hold is given up.
pub struct LeaveOrder;

impl<S> Play<Option<S>, View> for LeaveOrder {
    ghost use Rattle.words_rule.specs.PhasePlays.{order_left};

    ghost then = { order_left };
}

/// The full bit is claimed.
pub struct ClaimFull;

impl<S> Play<Option<S>, View> for ClaimFull {
    ghost use Rattle.words_rule.specs.PhasePlays.{full_claimed};

    ghost then = { full_claimed };
}

/// The claim becomes a hold, if no walk share is left.
pub struct LookFull;

impl<S> Play<Option<S>, View> for LookFull {
    ghost use Rattle.words_rule.specs.PhasePlays.{full_looked};

    ghost then = { full_looked };
}

/// The claim is taken back.
pub struct UnclaimFull;

impl<S> Play<Option<S>, View> for UnclaimFull {
    ghost use Rattle.words_rule.specs.PhasePlays.{full_unclaimed};

    ghost then = { full_unclaimed };
}

/// The full hold is given up.
pub struct LeaveFull;

impl<S> Play<Option<S>, View> for LeaveFull {
    ghost use Rattle.words_rule.specs.PhasePlays.{full_left};

    ghost then = { full_left };
}
