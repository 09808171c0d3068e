//! Peeks at words, which tell nothing; the sizes that a seat carries.
ghost use Rattle.std.specs.Prelude.{◌≡◌, ◌<◌};
ghost use Rattle.words_rule.specs.Layout.{heads, levels};
ghost use Rattle.words_rule.specs.Shapes.{shape_by, shape_in};
ghost use Rattle.words_rule.specs.Passes.{view, IsPassOf};

use crate::content::Content;
use crate::layout::{FREE, turn};
use crate::seat::{Guard, Pass};
use crate::sizes::Sizes;

impl<S: Content> Guard<S> {
    /// Whether a level's turn is at home.
    pub fn peek_turn(&self, pass: &Pass<S>, level: u32) -> bool
        requires own { IsPassOf self.now pass.now }
        requires within { level < levels (shape_in (view pass.now).draws) }
    {
        let _ = pass;
        self.table.shared.peek(turn(level)) == 0
    }

    /// Whether the free list is at home.
    pub fn peek_free(&self, pass: &Pass<S>) -> bool
        requires { IsPassOf self.now pass.now }
    {
        let _ = pass;
        self.table.shared.peek(FREE) == 0
    }

    /// The link in a head.
    pub fn peek_head(&self, pass: &Pass<S>, head: u32) -> u64
        requires own { IsPassOf self.now pass.now }
        requires within { head < heads (shape_in (view pass.now).draws) }
    {
        self.table.shared.peek(pass.sizes.head(head))
    }

    /// The link from a slot to the next in its chain.
    pub fn peek_next(&self, pass: &Pass<S>, slot: u32) -> u64
        requires own { IsPassOf self.now pass.now }
        requires within { slot < (view pass.now).draws.slots }
    {
        self.table.shared.peek(pass.sizes.next(slot))
    }

    /// The word of a slot.
    pub fn peek_node(&self, pass: &Pass<S>, slot: u32) -> u64
        requires own { IsPassOf self.now pass.now }
        requires within { slot < (view pass.now).draws.slots }
    {
        self.table.shared.peek(pass.sizes.node(slot))
    }
}

impl<S> Pass<S> {
    /// How many variables, elements, slots and heads the table has.
    pub fn sizes(&self) -> Sizes
        ensures shape { shape_by result ≡ shape_in (view self.now).draws }
        ensures heads { result.heads ≡ heads (shape_in (view self.now).draws) }
    {
        self.sizes
    }
}
