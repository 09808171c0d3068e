//! The holder of everything stores, rewrites and frees nodes.
ghost use Rattle.std.specs.Prelude.{List, ℕ, ◌≡◌, ◌<◌, ◌∷◌, true, Some, None};
ghost use Rattle.edge_bits.specs.Reading.{plain};
ghost use Rattle.edge_bits.specs.Words.{unpack_of};
ghost use Rattle.edge_bits.specs.declared.edges.Kind.{Kind};
ghost use Rattle.edge_bits.specs.declared.words.Node.{Node};
ghost use Rattle.edge_bits.specs.declared.words.Word.TheVariants.{Inner};
ghost use Rattle.node_store.specs.Changes.{CanFree, CanRewrite};
ghost use Rattle.words_rule.specs.declared.view.Hold.TheVariants.{Holding};
ghost use Rattle.words_rule.specs.Hands.{HasLevel, level_of};
ghost use Rattle.words_rule.specs.HeldContents.{KnowsAll, held_content};
ghost use Rattle.words_rule.specs.HolderPlays.{HasAdded, HasFreed, HasRewritten, IsAddable};
ghost use Rattle.words_rule.specs.Shapes.{shape_in};
ghost use Rattle.words_rule.specs.Passes.{view, in_hand, IsLiveOf, IsPassOf};

use crate::content::Content;
use crate::holder_plays::{AddNode, FreeNode, RewriteNode};
use crate::seat::{Guard, Pass};

impl<S: Content> Guard<S> {
    /// Stores a new node in the first slot of the free list, which is in hand, with the turn of its level. The slot is in use from then on, and on no chain.
    pub fn add_node(&self, pass: &mut Pass<S>, slot: u32, bits: u64)
        requires own { IsLiveOf self.now pass.old }
        requires hold { (view pass.old).shares.full ≡ Holding }
        requires knows { KnowsAll (view pass.old) }
        requires within { slot < (view pass.old).draws.slots }
        requires free { (list : List ℕ) × ((view pass.old).hand.free ≡ Some (slot ∷ list)) }
        requires calm { ((view pass.old).hand.taken ≡ None) × ((view pass.old).hand.loose ≡ None) }
        requires new { (k : Kind) × (node : Node) × (unpack_of bits ≡ Some (Inner node)) × IsAddable k (held_content (view pass.old)) node × HasLevel (view pass.old).hand (level_of (shape_in (view pass.old).draws) (Inner node)) }
        ensures own { IsPassOf self.now pass.new × (in_hand pass.new ≡ in_hand pass.old) }
        ensures added { (k : Kind) (node : Node) (list : List ℕ) → unpack_of bits ≡ Some (Inner node) → IsAddable k (held_content (view pass.old)) node → (view pass.old).hand.free ≡ Some (slot ∷ list) → HasAdded k node list slot bits (view pass.old) (view pass.new) }
    {
        let word = pass.sizes.node(slot);
        self.table
            .shared
            .store::<AddNode>(&mut pass.seat, word, bits);
    }

    /// Puts another node of the same function into a slot that is on no chain, with the turn of its new level.
    pub fn rewrite_node(&self, pass: &mut Pass<S>, slot: u32, bits: u64)
        requires own { IsLiveOf self.now pass.old }
        requires hold { (view pass.old).shares.full ≡ Holding }
        requires knows { KnowsAll (view pass.old) }
        requires within { slot < (view pass.old).draws.slots }
        requires loose { ((view pass.old).hand.taken ≡ None) × ((view pass.old).hand.loose ≡ Some slot) }
        requires can { (k : Kind) × (node : Node) × (unpack_of bits ≡ Some (Inner node)) × CanRewrite k (held_content (view pass.old)) slot node.var (plain node.hi) node.lo × HasLevel (view pass.old).hand (level_of (shape_in (view pass.old).draws) (Inner node)) }
        ensures own { IsPassOf self.now pass.new × (in_hand pass.new ≡ in_hand pass.old) }
        ensures rewritten { (node : Node) → unpack_of bits ≡ Some (Inner node) → HasRewritten node slot bits (view pass.old) (view pass.new) }
    {
        let word = pass.sizes.node(slot);
        self.table
            .shared
            .store::<RewriteNode>(&mut pass.seat, word, bits);
    }

    /// Frees a slot that is on no chain and that nothing holds, with the free list and the computed table in hand.
    pub fn free_node(&self, pass: &mut Pass<S>, slot: u32)
        requires own { IsLiveOf self.now pass.old }
        requires hold { (view pass.old).shares.full ≡ Holding }
        requires knows { KnowsAll (view pass.old) }
        requires within { slot < (view pass.old).draws.slots }
        requires loose { ((view pass.old).hand.taken ≡ None) × ((view pass.old).hand.loose ≡ Some slot) }
        requires hand { ((view pass.old).hand.memo ≡ true) × ((list : List ℕ) × ((view pass.old).hand.free ≡ Some list)) }
        requires dead { CanFree (held_content (view pass.old)) slot }
        ensures own { IsPassOf self.now pass.new × (in_hand pass.new ≡ in_hand pass.old) }
        ensures freed { (list : List ℕ) → (view pass.old).hand.free ≡ Some list → HasFreed list slot (view pass.old) (view pass.new) }
    {
        let word = pass.sizes.node(slot);
        self.table.shared.store::<FreeNode>(&mut pass.seat, word, 0);
    }
}
