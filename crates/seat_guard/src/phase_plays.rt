//! What each step on the phase word tells.

use crate::view::View;
use atomic_table::{Join, Play};

/// An operation share is taken, or owed.
pub struct EnterOperation;

impl<S> Play<Option<S>, View> for EnterOperation {
    ghost use Rattle.seat_guard.specs.PhasePlays.{op_entered};

    ghost then = { op_entered };
}

/// It is given back, or what was owed is paid.
pub struct LeaveOperation;

impl<S> Play<Option<S>, View> for LeaveOperation {
    ghost use Rattle.seat_guard.specs.PhasePlays.{op_left};

    ghost then = { op_left };
}

/// A walk share is taken, or owed.
pub struct EnterWalk;

impl<S> Play<Option<S>, View> for EnterWalk {
    ghost use Rattle.seat_guard.specs.PhasePlays.{walk_entered};

    ghost then = { walk_entered };
}

/// It is given back, or what was owed is paid.
pub struct LeaveWalk;

impl<S> Play<Option<S>, View> for LeaveWalk {
    ghost use Rattle.seat_guard.specs.PhasePlays.{walk_left};

    ghost then = { walk_left };
}

/// The order bit is claimed, if it was clear.
pub struct ClaimOrder;

impl<S> Play<Option<S>, View> for ClaimOrder {
    ghost use Rattle.seat_guard.specs.PhasePlays.{order_claimed};

    ghost then = { order_claimed };
}

/// The claim becomes a hold, if no operation share is left.
pub struct LookOrder;

impl<S> Play<Option<S>, View> for LookOrder {
    ghost use Rattle.seat_guard.specs.PhasePlays.{order_looked};

    ghost then = { order_looked };
}

/// The order bit is cleared.
pub struct ClearOrder;

impl<S> Play<Option<S>, View> for ClearOrder {
    ghost use Rattle.seat_guard.specs.PhasePlays.{order_cleared};

    ghost then = { order_cleared };
}

/// The full bit is claimed.
pub struct ClaimFull;

impl<S> Play<Option<S>, View> for ClaimFull {
    ghost use Rattle.seat_guard.specs.PhasePlays.{full_claimed};

    ghost then = { full_claimed };
}

/// The claim becomes a hold, if no walk share is left.
pub struct LookFull;

impl<S> Play<Option<S>, View> for LookFull {
    ghost use Rattle.seat_guard.specs.PhasePlays.{full_looked};

    ghost then = { full_looked };
}

/// The full bit is cleared.
pub struct ClearFull;

impl<S> Play<Option<S>, View> for ClearFull {
    ghost use Rattle.seat_guard.specs.PhasePlays.{full_cleared};

    ghost then = { full_cleared };
}

/// One seat has what two would have that are never there at once.
pub struct Crossed;

impl Join<View> for Crossed {
    ghost use Rattle.seat_guard.specs.Phase.{crossed};
    ghost use Rattle.seat_guard.specs.Views.{blank, viewed};

    ghost both = { λ v w. crossed v };

    ghost spent = { viewed blank };
}

/// No table has such a seat.
pub struct Never;

impl<S> Play<Option<S>, View> for Never {
    ghost use Rattle.seat_guard.specs.PhasePlays.{never};

    ghost then = { never };
}
