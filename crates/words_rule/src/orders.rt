//! Loads of order words.
ghost use Rattle.std.specs.Prelude.{◌≡◌, ◌+◌, ◌<◌};
ghost use Rattle.edge_bits.specs.Permanent.{first_element};
ghost use Rattle.edge_bits.specs.declared.edges.Kind.{Kind};
ghost use Rattle.node_store.specs.Contents.{level_of};
ghost use Rattle.node_store.specs.Views.{IsVariable};
ghost use Rattle.words_rule.specs.declared.view.Share.TheVariants.{Held};
ghost use Rattle.words_rule.specs.Hands.{place_of};
ghost use Rattle.words_rule.specs.Layout.{places};
ghost use Rattle.words_rule.specs.Shapes.{shape_in};
ghost use Rattle.words_rule.specs.Known.{known_of, own_none};
ghost use Rattle.words_rule.specs.Views.{orders_of};
ghost use Rattle.words_rule.specs.OneSession.{order_by};
ghost use Rattle.words_rule.specs.Passes.{me, view, IsLiveOf, IsPassOf};

use crate::content::Content;
use crate::plays::LoadLevel;
use crate::seat::{Guard, Pass};

impl<S: Content> Guard<S> {
    /// The level of a variable or an element in its order, under an operation share.
    pub fn load_level(&self, pass: &mut Pass<S>, var: u32) -> u64
        requires own { IsLiveOf self.now pass.old }
        requires share { (view pass.old).shares.op ≡ Held }
        requires var { (k : Kind) × IsVariable k (known_of (view pass.old) own_none).view var }
        ensures own { IsPassOf self.now pass.new }
        ensures same { me pass.new ≡ me pass.old }
        ensures level { result ≡ level_of (orders_of (view pass.old).known) var }
        ensures few { result < first_element }
        ensures one { (view pass.old).draws.sessions ≡ 1 → result ≡ order_by (shape_in (view pass.old).draws) (view pass.old).stored (places (shape_in (view pass.old).draws) + place_of (shape_in (view pass.old).draws) var) }
    {
        let word = pass.sizes.level(var);
        self.table.shared.load::<LoadLevel>(&mut pass.seat, word)
    }
}
