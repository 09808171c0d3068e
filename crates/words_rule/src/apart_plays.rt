//! What steps of a seat would tell that no table has.

use crate::view::View;
use atomic_table::{Join, Play};

/// Two seats that are never there at once become one.
pub struct Crossed;

impl Join<View> for Crossed {
    ghost use Rattle.words_rule.specs.Aparts.{crossed};
    ghost use Rattle.words_rule.specs.Rule.{bare};
    ghost use Rattle.words_rule.specs.Views.{blank};

    ghost both = { λ v w. crossed v };

    ghost spent = { bare blank };
}

/// No table has such a seat.
pub struct Never;

impl<S> Play<Option<S>, View> for Never {
    ghost use Rattle.words_rule.specs.Aparts.{never};

    ghost then = { never };
}
