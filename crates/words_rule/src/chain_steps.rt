//! Steps on turns, heads, links and node words, under an operation share or a walk share.
ghost use Rattle.std.specs.Prelude.{List, ℕ, ◌≡◌, ◌≢◌, ◌<◌, ◌∷◌, true, false, Some, None};
ghost use mathlib.Core.Option.{some};
ghost use lib.ListN.{get_elem?};
ghost use Rattle.function_laws.specs.Kinds.{Denoted};
ghost use Rattle.words_rule.specs.declared.view.Share.TheVariants as shares;
ghost use Rattle.words_rule.specs.Layout.{heads, head_of, levels};
ghost use Rattle.words_rule.specs.Shapes.{shape_in};
ghost use Rattle.words_rule.specs.Hands.{HasLevel, Owns, linking, pushing, with_level, without_level};
ghost use Rattle.words_rule.specs.Seen.{HasShare};
ghost use Rattle.words_rule.specs.Known.{known_of, with_made};
ghost use Rattle.words_rule.specs.Loads.{IsSeatOf, LoadedNode, LoadedWord, StoredNode, TakenReads, seeing, sees_of};
ghost use Rattle.words_rule.specs.OneSession.{node_by, storing_node};
ghost use Rattle.words_rule.specs.Plays.{HasLoaded, LeadsOn};
ghost use Rattle.words_rule.specs.Passes.{me, view, in_hand, IsLiveOf, IsPassOf};

use crate::content::Content;
use crate::layout::turn;
use crate::plays::{
    GiveTurn, LoadHead, LoadNext, LoadNode, LoadWord, Push, StoreNext, StoreNode, TakeTurn,
};
use crate::seat::{Guard, Pass};
use crate::told::{Beside, Level};

impl<S: Content> Guard<S> {
    /// Takes the turn of a level, if it is at home.
    pub fn take_turn(&self, pass: &mut Pass<S>, level: u32) -> bool
        requires own { IsLiveOf self.now pass.old }
        requires within { level < levels (shape_in (view pass.old).draws) }
        ensures own { IsPassOf self.now pass.new × (in_hand pass.new ≡ in_hand pass.old) }
        ensures taken { result ≡ true → view pass.new ≡ record (view pass.old) { hand = with_level level (view pass.old).hand } }
        ensures missed { result ≡ false → view pass.new ≡ view pass.old }
    {
        let mine = u64::from(pass.number) + 1;
        let found = self
            .table
            .shared
            .compare_exchange::<TakeTurn>(&mut pass.seat, turn(level), 0, mine);
        found == 0
    }

    /// Gives a level's turn back. What was known of a chain goes with it.
    pub fn give_turn(&self, pass: &mut Pass<S>, level: u32)
        requires own { IsLiveOf self.now pass.old }
        requires within { level < levels (shape_in (view pass.old).draws) }
        requires has { HasLevel (view pass.old).hand level }
        requires calm { ((view pass.old).hand.taken ≡ None) × ((view pass.old).hand.loose ≡ None) }
        ensures own { IsPassOf self.now pass.new × (in_hand pass.new ≡ in_hand pass.old) }
        ensures given { view pass.new ≡ record (view pass.old) { hand = record (view pass.old).hand { levels = without_level level (view pass.old).hand.levels; walk = None } } }
    {
        self.table
            .shared
            .store::<GiveTurn>(&mut pass.seat, turn(level), 0);
    }

    /// Loads a head under the turn of a level, which tells the whole of its chain.
    pub fn load_head<E: Level>(&self, pass: &mut Pass<S>, head: u32) -> u64
        requires own { IsLiveOf self.now pass.old }
        requires share { (view pass.old).shares.op ≡ shares.Held }
        requires has { HasLevel (view pass.old).hand E.level }
        requires within { head < heads (shape_in (view pass.old).draws) }
        ensures own { IsPassOf self.now pass.new }
        ensures loaded { HasLoaded head E.level (me pass.old) result (me pass.new) }
    {
        let word = pass.sizes.head(head);
        self.table.shared.load::<LoadHead<E>>(&mut pass.seat, word)
    }

    /// Loads the link behind a slot of the chain that is known.
    pub fn load_next(&self, pass: &mut Pass<S>, slot: u32) -> u64
        requires own { IsLiveOf self.now pass.old }
        requires within { slot < (view pass.old).draws.slots }
        ensures own { IsPassOf self.now pass.new }
        ensures same { me pass.new ≡ me pass.old }
        ensures next { LeadsOn slot (me pass.old) result }
    {
        let word = pass.sizes.next(slot);
        self.table.shared.load::<LoadNext>(&mut pass.seat, word)
    }

    /// Loads the word of a slot. Where it is in use, what it denotes is known from then on, and its children.
    pub fn load_node<E: Beside>(&self, pass: &mut Pass<S>, slot: u32) -> u64
        requires own { IsLiveOf self.now pass.old }
        requires share { (view pass.old).shares.op ≡ shares.Held }
        requires within { slot < (view pass.old).draws.slots }
        requires few { E.own.fulls < 18446744073709551616 }
        ensures own { IsPassOf self.now pass.new × (in_hand pass.new ≡ in_hand pass.old) }
        ensures stands { IsSeatOf (view pass.old) (view pass.new) × ((view pass.new).hand ≡ (view pass.old).hand) × ((view pass.new).work ≡ (view pass.old).work) }
        ensures told { (view pass.new).stored ≡ (view pass.old).stored }
        ensures one { (view pass.old).draws.sessions ≡ 1 → result ≡ node_by (shape_in (view pass.old).draws) (view pass.old).stored slot }
        ensures loaded { LoadedNode (known_of (view pass.old) E.own) (known_of (view pass.new) E.own) slot result }
    {
        let word = pass.sizes.node(slot);
        self.table.shared.load::<LoadNode<E>>(&mut pass.seat, word)
    }

    /// Stores the link of a slot that is this seat's own.
    pub fn store_next(&self, pass: &mut Pass<S>, slot: u32, link: u32)
        requires own { IsLiveOf self.now pass.old }
        requires within { slot < (view pass.old).draws.slots }
        requires owns { Owns (view pass.old).hand slot }
        ensures own { IsPassOf self.now pass.new × (in_hand pass.new ≡ in_hand pass.old) }
        ensures stored { view pass.new ≡ record (view pass.old) { hand = linking slot link (view pass.old).hand } }
    {
        let word = pass.sizes.next(slot);
        self.table
            .shared
            .store::<StoreNext>(&mut pass.seat, word, link as u64);
    }

    /// Stores the word that is due in the slot that was taken for it. The slot is in use from then on, and on no chain yet.
    pub fn store_node<E: Beside>(&self, pass: &mut Pass<S>, slot: u32, bits: u64)
        requires own { IsLiveOf self.now pass.old }
        requires share { (view pass.old).shares.op ≡ shares.Held }
        requires taken { (known_of (view pass.old) E.own).hand.taken ≡ Some (record { slot = slot; bits = bits }) }
        requires calm { (view pass.old).hand.loose ≡ None }
        requires within { slot < (view pass.old).draws.slots }
        requires reads { TakenReads (view pass.old) }
        requires few { E.own.fulls < 18446744073709551616 }
        ensures own { IsPassOf self.now pass.new × (in_hand pass.new ≡ in_hand pass.old) }
        ensures stands { IsSeatOf (view pass.old) (view pass.new) × ((view pass.new).work ≡ record (view pass.old).work { made = slot ∷ (view pass.old).work.made }) }
        ensures told { (view pass.new).stored ≡ storing_node slot bits (view pass.old).stored }
        ensures stored { StoredNode (known_of (view pass.old) E.own) (known_of (view pass.new) (with_made E.own slot)) slot bits }
    {
        let word = pass.sizes.node(slot);
        self.table
            .shared
            .store::<StoreNode<E>>(&mut pass.seat, word, bits);
    }

    /// The step of a head: where it finds the link that the slot has, the slot stands before the others. Answers what it found.
    pub fn push_head(&self, pass: &mut Pass<S>, head: u32, slot: u32, link: u32) -> u64
        requires own { IsLiveOf self.now pass.old }
        requires within { head < heads (shape_in (view pass.old).draws) }
        requires loose { (view pass.old).hand.loose ≡ Some slot }
        requires linked { (view pass.old).hand.link ≡ Some (record { slot = slot; link = link }) }
        requires share { HasShare (view pass.old) }
        requires noted { (bits : ℕ) × (k : ℕ) × (get_elem? (view pass.old).known.words k ≡ some (record { slot = slot; bits = bits })) × (head ≡ head_of (shape_in (view pass.old).draws) bits) }
        ensures own { IsPassOf self.now pass.new × (in_hand pass.new ≡ in_hand pass.old) }
        ensures done { result ≡ link → view pass.new ≡ record (view pass.old) { hand = pushing (view pass.old).hand } }
        ensures missed { result ≢ link → view pass.new ≡ view pass.old }
    {
        let word = pass.sizes.head(head);
        self.table
            .shared
            .compare_exchange::<Push>(&mut pass.seat, word, link as u64, slot as u64 + 1)
    }

    /// Loads the word of a slot that is known to be in use, under a walk share, and then knows its children.
    pub fn load_word(&self, pass: &mut Pass<S>, slot: u32) -> u64
        requires own { IsLiveOf self.now pass.old }
        requires share { (view pass.old).shares.walk ≡ shares.Held }
        requires within { slot < (view pass.old).draws.slots }
        requires met { (f : Denoted) × ((sees_of (view pass.old)).content slot ≡ Some f) }
        ensures own { IsPassOf self.now pass.new × (in_hand pass.new ≡ in_hand pass.old) }
        ensures stands { view pass.new ≡ seeing (view pass.old) (view pass.new).known.seen }
        ensures loaded { LoadedWord (view pass.old) (view pass.new) slot result }
        ensures one { (view pass.old).draws.sessions ≡ 1 → result ≡ node_by (shape_in (view pass.old).draws) (view pass.old).stored slot }
    {
        let word = pass.sizes.node(slot);
        self.table.shared.load::<LoadWord>(&mut pass.seat, word)
    }
}
