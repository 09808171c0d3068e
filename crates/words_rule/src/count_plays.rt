//! What each step on a count word tells.

use crate::told::Raises;
use crate::view::View;
use atomic_table::Play;
use std::marker::PhantomData;

/// A slot is counted up, and its generation is told.
pub struct CountUp<E> {
    held: PhantomData<E>,
}

impl<S, E: Raises> Play<Option<S>, View> for CountUp<E> {
    ghost use Rattle.words_rule.specs.CountPlays.{counted_up};

    ghost then = { counted_up E.held };
}

/// What is owed first is counted down.
pub struct CountDown;

impl<S> Play<Option<S>, View> for CountDown {
    ghost use Rattle.words_rule.specs.CountPlays.{counted_down};

    ghost then = { counted_down };
}

/// One pin more.
pub struct Pin;

impl<S> Play<Option<S>, View> for Pin {
    ghost use Rattle.words_rule.specs.CountPlays.{pinned};

    ghost then = { pinned };
}

/// The newest pin goes.
pub struct Unpin;

impl<S> Play<Option<S>, View> for Unpin {
    ghost use Rattle.words_rule.specs.CountPlays.{unpinned};

    ghost then = { unpinned };
}

/// A count is loaded, under the order hold.
pub struct LoadCount;

impl<S> Play<Option<S>, View> for LoadCount {
    ghost use Rattle.words_rule.specs.CountLoads.{count_loaded};

    ghost then = { count_loaded };
}
