//! Loads of the holder of the order, which knows the store.
ghost use Rattle.std.specs.Prelude.{◌≡◌, ◌<◌, [], length, slice_index};
ghost use Rattle.function_laws.specs.Sizes.{in_order};
ghost use Rattle.words_rule.specs.declared.view.Hold.TheVariants.{Holding};
ghost use Rattle.words_rule.specs.Exchanges.{position};
ghost use Rattle.words_rule.specs.Hands.{HasLevel};
ghost use Rattle.words_rule.specs.HeldContents.{KnowsAll, held_bits};
ghost use Rattle.words_rule.specs.HolderPlays.{HasLoadedWhole};
ghost use Rattle.words_rule.specs.Layout.{heads};
ghost use Rattle.words_rule.specs.Shapes.{shape_in};
ghost use Rattle.words_rule.specs.Views.{orders_of};
ghost use Rattle.words_rule.specs.OneSession.{node_by, order_by};
ghost use Rattle.words_rule.specs.Passes.{me, view, IsLiveOf, IsPassOf};

use crate::content::Content;
use crate::holder_plays::{LoadHeld, LoadPosition, LoadWhole};
use crate::seat::{Guard, Pass};
use crate::told::Level;
use function_laws::Order;

impl<S: Content> Guard<S> {
    /// The word of a slot.
    pub fn load_held(&self, pass: &mut Pass<S>, slot: u32) -> u64
        requires own { IsLiveOf self.now pass.old }
        requires hold { (view pass.old).shares.order ≡ Holding }
        requires knows { KnowsAll (view pass.old) }
        requires within { slot < (view pass.old).draws.slots }
        ensures own { IsPassOf self.now pass.new }
        ensures same { me pass.new ≡ me pass.old }
        ensures bits { result ≡ held_bits (view pass.old) slot }
        ensures one { (view pass.old).draws.sessions ≡ 1 → result ≡ node_by (shape_in (view pass.old).draws) (view pass.old).stored slot }
    {
        let word = pass.sizes.node(slot);
        self.table.shared.load::<LoadHeld>(&mut pass.seat, word)
    }

    /// Loads a head under the turn of a level, which tells the whole of its chain.
    pub fn load_whole<E: Level>(&self, pass: &mut Pass<S>, head: u32) -> u64
        requires own { IsLiveOf self.now pass.old }
        requires hold { (view pass.old).shares.order ≡ Holding }
        requires knows { KnowsAll (view pass.old) }
        requires has { HasLevel (view pass.old).hand E.level }
        requires within { head < heads (shape_in (view pass.old).draws) }
        ensures own { IsPassOf self.now pass.new }
        ensures loaded { HasLoadedWhole head E.level (me pass.old) result (me pass.new) }
    {
        let word = pass.sizes.head(head);
        self.table.shared.load::<LoadWhole<E>>(&mut pass.seat, word)
    }

    /// What stands at a level of an order: a variable, or an element by its own number. No order word is due.
    pub fn load_position(&self, pass: &mut Pass<S>, order: Order, level: u32) -> u64
        requires own { IsLiveOf self.now pass.old }
        requires hold { (view pass.old).shares.order ≡ Holding }
        requires knows { KnowsAll (view pass.old) }
        requires settled { (view pass.old).known.pending ≡ [] }
        requires within { level < length (in_order (orders_of (view pass.old).known) order) }
        ensures own { IsPassOf self.now pass.new }
        ensures same { me pass.new ≡ me pass.old }
        ensures there { result ≡ slice_index (in_order (orders_of (view pass.old).known) order) level }
        ensures one { (view pass.old).draws.sessions ≡ 1 → result ≡ order_by (shape_in (view pass.old).draws) (view pass.old).stored (position (shape_in (view pass.old).draws) order level) }
    {
        let word = pass.sizes.position(order, level);
        self.table.shared.load::<LoadPosition>(&mut pass.seat, word)
    }
}
