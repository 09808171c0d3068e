//! What each step on a count word tells, and the load of the number of sessions.

use crate::told::Raises;
use crate::view::View;
use atomic_table::Play;
use std::marker::PhantomData;

/// A slot is counted up, and its generation is told.
pub struct CountUp<E> {
    held: PhantomData<E>,
}

impl<S, E: Raises> Play<Option<S>, View> for CountUp<E> {
    ghost use Rattle.seat_guard.specs.CountPlays.{counted_up};

    ghost then = { counted_up E.held };
}

/// What is owed is counted down.
pub struct CountDown;

impl<S> Play<Option<S>, View> for CountDown {
    ghost use Rattle.seat_guard.specs.CountPlays.{counted_down};

    ghost then = { counted_down };
}

/// A count is found.
pub struct LookAt;

impl<S> Play<Option<S>, View> for LookAt {
    ghost use Rattle.seat_guard.specs.CountPlays.{looked_at};

    ghost then = { looked_at };
}

/// One pin more.
pub struct Pin;

impl<S> Play<Option<S>, View> for Pin {
    ghost use Rattle.seat_guard.specs.CountPlays.{pinned};

    ghost then = { pinned };
}

/// One pin less.
pub struct Unpin;

impl<S> Play<Option<S>, View> for Unpin {
    ghost use Rattle.seat_guard.specs.CountPlays.{unpinned};

    ghost then = { unpinned };
}

/// The generation of a slot is read.
pub struct ReadGeneration;

impl<S> Play<Option<S>, View> for ReadGeneration {
    ghost use Rattle.seat_guard.specs.CountPlays.{generation_read};

    ghost then = { generation_read };
}

/// The number of sessions is read.
pub struct ReadSessions;

impl<S> Play<Option<S>, View> for ReadSessions {
    ghost use Rattle.seat_guard.specs.CountPlays.{sessions_read};

    ghost then = { sessions_read };
}
