//! What the steps of the closing seat tell.

use crate::view::View;
use atomic_table::{Join, Play, Split};

/// The next session gets a seat of its own.
pub struct Next;

impl Split<View> for Next {
    ghost use Rattle.words_rule.specs.Views.{one_more, session_of};
    ghost use Rattle.words_rule.specs.Rule.{bare};

    ghost left = { λ v. bare (one_more v.draws) };

    ghost right = { λ v. bare (session_of v.draws) };
}

/// A session's seat is taken in.
pub struct Back;

impl Join<View> for Back {
    ghost use Rattle.words_rule.specs.Views.{blank, with_gone};
    ghost use Rattle.words_rule.specs.Rule.{bare};

    ghost both = { λ v w. bare (with_gone v.draws w.draws) };

    ghost spent = { bare blank };
}

/// The closing seat reads the number of calls.
pub struct Last;

impl<S> Play<Option<S>, View> for Last {
    ghost use Rattle.words_rule.specs.Endings.{closed};

    ghost then = { closed };
}
