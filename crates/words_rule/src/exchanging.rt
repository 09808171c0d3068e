//! The order words of an exchange of two neighbours.
ghost use Rattle.std.specs.Prelude.{◌≡◌, ◌+◌, ◌<◌, [], true, None, length, slice_index};
ghost use Rattle.function_laws.specs.Sizes.{in_order};
ghost use Rattle.function_laws.specs.SiftedOrders.{place_of};
ghost use Rattle.node_store.specs.Changes.{CanExchange};
ghost use Rattle.words_rule.specs.declared.view.Hold.TheVariants.{Holding};
ghost use Rattle.words_rule.specs.Exchanges.{item, position};
ghost use Rattle.words_rule.specs.Hands.{without_level};
ghost use Rattle.words_rule.specs.HeldContents.{KnowsAll, held_content};
ghost use Rattle.words_rule.specs.HolderPlays.{HasExchanged};
ghost use Rattle.words_rule.specs.Layout.{places};
ghost use Rattle.words_rule.specs.OneSession.{storing_order};
ghost use Rattle.words_rule.specs.Shapes.{shape_in};
ghost use Rattle.words_rule.specs.Views.{orders_of};
ghost use Rattle.words_rule.specs.Passes.{view, in_hand, IsLiveOf, IsPassOf};

use crate::content::Content;
use crate::holder_plays::{Exchange, StoreDue};
use crate::seat::{Guard, Pass};
use function_laws::Order;

impl<S: Content> Guard<S> {
    /// Stores the first order word of an exchange of two neighbours, that of the upper level, with the computed table in hand. The
    /// orders are exchanged from then on, and the other words are due.
    pub fn exchange(&self, pass: &mut Pass<S>, order: Order, level: u32, lower: u32)
        requires own { IsLiveOf self.now pass.old }
        requires hold { (view pass.old).shares.full ≡ Holding }
        requires knows { KnowsAll (view pass.old) }
        requires settled { (view pass.old).known.pending ≡ [] }
        requires hand { ((view pass.old).hand.memo ≡ true) × ((view pass.old).hand.taken ≡ None) }
        requires can { CanExchange (held_content (view pass.old)) order level }
        requires lower { lower ≡ slice_index (in_order (orders_of (view pass.old).known) order) (level + 1) }
        ensures own { IsPassOf self.now pass.new × (in_hand pass.new ≡ in_hand pass.old) }
        ensures exchanged { HasExchanged order level (view pass.old) (view pass.new) }
    {
        let word = pass.sizes.position(order, level);
        self.table
            .shared
            .store::<Exchange>(&mut pass.seat, word, lower as u64);
    }

    /// Stores the position of a level.
    pub fn store_position(&self, pass: &mut Pass<S>, order: Order, level: u32, number: u32)
        requires own { IsLiveOf self.now pass.old }
        requires hold { ((view pass.old).shares.full ≡ Holding) × ((view pass.old).hand.taken ≡ None) }
        requires knows { KnowsAll (view pass.old) }
        requires within { level < length (in_order (orders_of (view pass.old).known) order) }
        requires number { number ≡ slice_index (in_order (orders_of (view pass.old).known) order) level }
        ensures own { IsPassOf self.now pass.new × (in_hand pass.new ≡ in_hand pass.old) }
        ensures stored { view pass.new ≡ record (view pass.old) { known = record (view pass.old).known { pending = without_level (position (shape_in (view pass.old).draws) order level) (view pass.old).known.pending }; stored = storing_order (position (shape_in (view pass.old).draws) order level) number (view pass.old).stored } }
    {
        let word = pass.sizes.position(order, level);
        self.table
            .shared
            .store::<StoreDue>(&mut pass.seat, word, number as u64);
    }

    /// Stores the level of a variable or an element, by its own number.
    pub fn store_level(&self, pass: &mut Pass<S>, order: Order, number: u32, level: u32)
        requires own { IsLiveOf self.now pass.old }
        requires hold { ((view pass.old).shares.full ≡ Holding) × ((view pass.old).hand.taken ≡ None) }
        requires knows { KnowsAll (view pass.old) }
        requires within { number < length (in_order (orders_of (view pass.old).known) order) }
        requires level { level ≡ place_of number (in_order (orders_of (view pass.old).known) order) }
        ensures own { IsPassOf self.now pass.new × (in_hand pass.new ≡ in_hand pass.old) }
        ensures stored { view pass.new ≡ record (view pass.old) { known = record (view pass.old).known { pending = without_level (places (shape_in (view pass.old).draws) + item (shape_in (view pass.old).draws) order number) (view pass.old).known.pending }; stored = storing_order (places (shape_in (view pass.old).draws) + item (shape_in (view pass.old).draws) order number) level (view pass.old).stored } }
    {
        let word = pass.sizes.level_of(order, number);
        self.table
            .shared
            .store::<StoreDue>(&mut pass.seat, word, level as u64);
    }
}
