//! Where each word stands.
ghost use Rattle.std.specs.Prelude.{◌≡◌, ◌+◌};
ghost use Rattle.words_rule.specs.Layout.{count_at, head_at, next_at, node_at, order_at, places, turn_at};
ghost use Rattle.words_rule.specs.Exchanges.{item, position};
ghost use Rattle.words_rule.specs.Hands.{place_of};
ghost use Rattle.words_rule.specs.Shapes.{shape_by};

use crate::sizes::{Sizes, TURNS};
use edge_bits::FIRST_ELEMENT;
use function_laws::Order;

/// The number of calls so far.
pub(crate) const JOURNAL: usize = 0;

/// The shares and the bits of the holds.
pub(crate) const PHASE: usize = 1;

/// The turn of the board.
pub(crate) const BOARD: usize = 2;

/// The turn of the free list.
pub(crate) const FREE: usize = 3;

/// The turn of the computed table.
pub(crate) const MEMO: usize = 5;

/// The slot in which the board lies.
pub(crate) const BOARD_SLOT: usize = 0;

/// The slot in which the free list lies.
pub(crate) const FREE_SLOT: usize = 1;

/// The slot in which the computed table lies.
pub(crate) const MEMO_SLOT: usize = 2;

/// The turn of a level.
pub(crate) fn turn(level: u32) -> usize
    ensures { result ≡ turn_at level }
{
    TURNS + level as usize
}

impl Sizes {
    /// The level word of a variable or an element.
    pub(crate) fn level(&self, var: u32) -> usize
        ensures { result ≡ order_at (shape_by self.now) (places (shape_by self.now) + place_of (shape_by self.now) var) }
    {
        let places = self.vars as usize + self.elements as usize;
        let place = if var < FIRST_ELEMENT {
            var as usize
        } else {
            self.vars as usize + (var - FIRST_ELEMENT) as usize
        };
        TURNS + 1 + places * 2 + place
    }

    /// The position of a level of an order.
    pub(crate) fn position(&self, order: Order, level: u32) -> usize
        ensures { result ≡ order_at (shape_by self.now) (position (shape_by self.now) order level) }
    {
        let places = self.vars as usize + self.elements as usize;
        let before = match order {
            Order::Variables => 0,
            Order::Elements => self.vars as usize,
        };
        TURNS + 1 + places + before + level as usize
    }

    /// The level word of a variable or an element, by its own number.
    pub(crate) fn level_of(&self, order: Order, number: u32) -> usize
        ensures { result ≡ order_at (shape_by self.now) (places (shape_by self.now) + item (shape_by self.now) order number) }
    {
        let places = self.vars as usize + self.elements as usize;
        let before = match order {
            Order::Variables => 0,
            Order::Elements => self.vars as usize,
        };
        TURNS + 1 + places * 2 + before + number as usize
    }

    /// The node word of a slot.
    pub(crate) fn node(&self, slot: u32) -> usize
        ensures { result ≡ node_at (shape_by self.now) slot }
    {
        self.first() + slot as usize * 2
    }

    /// The link from a slot to the next in its chain.
    pub(crate) fn next(&self, slot: u32) -> usize
        ensures { result ≡ next_at (shape_by self.now) slot }
    {
        self.first() + slot as usize * 2 + 1
    }

    /// The count word of a slot.
    pub(crate) fn count(&self, slot: u32) -> usize
        ensures { result ≡ count_at (shape_by self.now) slot }
    {
        self.first() + self.slots as usize * 2 + slot as usize
    }

    /// A head.
    pub(crate) fn head(&self, head: u32) -> usize
        ensures { result ≡ head_at (shape_by self.now) head }
    {
        self.first() + self.slots as usize * 3 + head as usize
    }
}
