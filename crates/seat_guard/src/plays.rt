//! What each step on the table tells.

use crate::content::Content;
use crate::told::{Leaves, Told};
use crate::view::View;
use atomic_table::{Join, Play, Split};
use std::marker::PhantomData;

/// The turn is taken.
pub struct Take;

impl<S: Content> Play<Option<S>, View> for Take {
    ghost use Rattle.seat_guard.specs.Rule.{took};

    ghost then = { took S.keeps S.board S.counts S.orders S.functions };
}

/// It is taken for good, once all sessions have come back.
pub struct End;

impl<S: Content> Play<Option<S>, View> for End {
    ghost use Rattle.seat_guard.specs.Rule.{ended};

    ghost then = { ended S.keeps S.board S.counts S.orders };
}

/// It is given back, with what was stored meanwhile.
pub struct Give<E> {
    leaving: PhantomData<E>,
}

impl<S, E: Leaves> Play<Option<S>, View> for Give<E> {
    ghost use Rattle.seat_guard.specs.Rule.{gave};

    ghost then = { gave E.leaving };
}

/// A call draws its place.
pub struct Draw<E> {
    told: PhantomData<E>,
}

impl<S, E: Told> Play<Option<S>, View> for Draw<E> {
    ghost use Rattle.seat_guard.specs.Rule.{drew};

    ghost then = { drew E.told };
}

/// The orders are noted.
pub struct Look;

impl<S> Play<Option<S>, View> for Look {
    ghost use Rattle.seat_guard.specs.Rule.{looked};

    ghost then = { looked };
}

/// The calls of all sessions are told.
pub struct Last;

impl<S> Play<Option<S>, View> for Last {
    ghost use Rattle.seat_guard.specs.Rule.{closed};

    ghost then = { closed };
}

/// The next session gets a seat of its own.
pub struct Next;

impl Split<View> for Next {
    ghost use Rattle.seat_guard.specs.Views.{viewed, with_draws, one_more, session_of};

    ghost left = { λ v. with_draws v (one_more v.draws) };

    ghost right = { λ v. viewed (session_of v.draws) };
}

/// A session's seat is taken in.
pub struct Back;

impl Join<View> for Back {
    ghost use Rattle.seat_guard.specs.Views.{viewed, blank, joined_with};

    ghost both = { λ v w. joined_with v w.draws };

    ghost spent = { viewed blank };
}
