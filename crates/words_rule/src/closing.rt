//! The closing seat, which gives seats to sessions and takes them in.
ghost use Rattle.std.specs.Prelude.{◌≡◌, ◌<◌, ◌≤◌, [], true};
ghost use Rattle.words_rule.specs.Layout.{heads, word_count};
ghost use Rattle.words_rule.specs.Shapes.{shape_by, shape_in};
ghost use Rattle.words_rule.specs.Rule.{IsBare};

use crate::sizes::Sizes;
use crate::view::View;
use atomic_table::Seat;

/// The closing seat, and how many sessions it has given a seat.
#[derive(Drop)]
pub struct Closing<S> {
    pub(crate) seat: Seat<Option<S>, View>,
    pub(crate) sizes: Sizes,
    pub(crate) given: u32,
    ghost closes: { (seat.me.0.draws.closing ≡ true) × IsBare seat.me.0 × (seat.me.1 ≡ []) },
    ghost given_is: { given ≡ seat.me.0.draws.given },
    ghost sizes_are: { shape_by sizes ≡ shape_in seat.me.0.draws },
    ghost heads_are: { sizes.heads ≡ heads (shape_by sizes) },
    ghost words_are: { seat.table_id.words ≡ word_count (shape_in seat.me.0.draws) },
}
