//! The single steps that the holder of a table makes on its words.

use node_store::Order;

/// A holder at its table: it has the order hold and the full one, so nobody else stores, changes or frees a node, and nobody walks. Others may change counts, but a count that was 0 stays 0.
///
/// Each call is one step on one word, but for the peeks, which tell nothing, and what lies in the holder's own hand. Levels are numbered through both kinds: variable v has v, element e the number of variables and e, the leaves the last. A link is 0, or one more than a slot.
pub trait Holds {
    ghost use Rattle.std.specs.Prelude.{◌≡◌, ◌≢◌, ℕ, ◌+◌, ◌<◌, ◌≤◌, List, [], ◌∷◌, ◌++◌, Bool, Option, Some, None, IfSome, IfNone, if◌then◌else◌, true, false, length, slice_index};
    ghost use Rattle.edge_bits.specs.Words.{unpack_of};
    ghost use Rattle.edge_bits.specs.declared.edges.Edge.{Edge};
    ghost use Rattle.edge_bits.specs.declared.edges.Kind.{Kind};
    ghost use Rattle.edge_bits.specs.declared.words.Node.{Node};
    ghost use Rattle.edge_bits.specs.declared.words.Word.{Word};
    ghost use Rattle.edge_bits.specs.declared.words.Word.TheVariants.{Inner};
    ghost use Rattle.function_laws.specs.Sizes.{in_order};
    ghost use Rattle.handle_count.specs.CountWords.{count_of, generation_of};
    ghost use Rattle.node_store.specs.Contents.{IsUsed};
    ghost use Rattle.node_store.specs.Changes.{CanExchange, CanRewrite, exchanged, put_at, rewritten, with_node, with_pin};
    ghost use Rattle.step_store.specs.Chains.{Lists, head_of, link_to};
    ghost use Rattle.step_store.specs.Knowing.{Walk, without_level};
    ghost use Rattle.hold_store.specs.Held.{HasLevel, HasTurnOf, IsDead, IsForgotten, IsFront, IsNew, IsNextOf, IsWhole, Knowledge, Stands, StandsBefore, all_turns, freed, handed, level_of_word, node_function};

    /// What the holder knows besides: of the journal, its rows and entries. No value of it is made.
    type Rest;

    /// What it knows of the words, and what it has in hand.
    ghost known: { Self → Knowledge };

    /// It has the full hold.
    ghost holds: { Self → Type 0 };

    /// The number of its table, and what it knows besides: no step changes these.
    ghost table: { Self → ℕ };

    ghost rest: { Self → Self.Rest };

    /// How many variables there are.
    fn vars(&self) -> u32
        requires { holds self.now }
        ensures { result ≡ length (known self.now).content.orders.variables };

    /// How many elements there are.
    fn elements(&self) -> u32
        requires { holds self.now }
        ensures { result ≡ length (known self.now).content.orders.elements };

    /// How many slots there are, free or not.
    fn limit(&self) -> u32
        requires { holds self.now }
        ensures { result ≡ (known self.now).content.limit };

    /// How many heads there are.
    fn heads(&self) -> u32
        requires { holds self.now }
        ensures { result ≡ (known self.now).heads };

    /// Whether a level's turn is at home. As all peeks, it tells nothing.
    fn peek_turn(&self, level: u32) -> bool
        requires own { holds self.now }
        requires within { level < all_turns (known self.now) };

    /// Whether the free list is at home.
    fn peek_free(&self) -> bool
        requires { holds self.now };

    /// The link in a head.
    fn peek_head(&self, head: u32) -> u32
        requires own { holds self.now }
        requires within { head < (known self.now).heads };

    /// Takes the turn of a level, if it is at home.
    fn take_turn(&mut self, level: u32) -> bool
        requires own { holds self.old }
        requires within { level < all_turns (known self.old) }
        ensures own { holds self.new }
        ensures home { (table self.new ≡ table self.old) × (rest self.new ≡ rest self.old) }
        ensures taken { result ≡ true → known self.new ≡ handed (known self.old) (record (known self.old).hand { levels = level ∷ (known self.old).hand.levels }) }
        ensures missed { result ≡ false → known self.new ≡ known self.old };

    /// Gives back the turn that was taken last. What was known of a chain goes with it.
    fn give_turn(&mut self, level: u32)
        requires own { holds self.old }
        requires last { (others : List ℕ) × ((known self.old).hand.levels ≡ level ∷ others) }
        requires calm { (known self.old).hand.loose ≡ None }
        ensures own { holds self.new }
        ensures home { (table self.new ≡ table self.old) × (rest self.new ≡ rest self.old) }
        ensures given { known self.new ≡ handed (known self.old) (record (known self.old).hand { levels = without_level level (known self.old).hand.levels; walk = None }) };

    /// Takes the free list, if it is at home, with all slots that are free.
    fn take_free(&mut self) -> bool
        requires own { holds self.old }
        ensures own { holds self.new }
        ensures home { (table self.new ≡ table self.old) × (rest self.new ≡ rest self.old) }
        ensures taken { result ≡ true → (list : List ℕ) × (known self.new ≡ handed (known self.old) (record (known self.old).hand { free = Some list })) }
        ensures missed { result ≡ false → known self.new ≡ known self.old };

    /// Gives the free list back.
    fn give_free(&mut self)
        requires own { holds self.old }
        requires free { (list : List ℕ) × ((known self.old).hand.free ≡ Some list) }
        requires calm { (known self.old).hand.loose ≡ None }
        ensures own { holds self.new }
        ensures home { (table self.new ≡ table self.old) × (rest self.new ≡ rest self.old) }
        ensures given { known self.new ≡ handed (known self.old) (record (known self.old).hand { free = None }) };

    /// The first of the free list, which is in hand, or None where it is empty.
    fn first_free(&self) -> Option<u32>
        requires own { holds self.now }
        requires free { (list : List ℕ) × ((known self.now).hand.free ≡ Some list) }
        ensures some { IfSome result (λ slot. (list : List ℕ) × ((known self.now).hand.free ≡ Some (slot ∷ list))) }
        ensures none { IfNone result ((known self.now).hand.free ≡ Some []) };

    /// No slot from this one on was ever taken, as the free list tells, which is in hand.
    fn taken(&self) -> u32
        requires own { holds self.now }
        requires free { (list : List ℕ) × ((known self.now).hand.free ≡ Some list) }
        ensures within { result ≤ (known self.now).content.limit }
        ensures beyond { (s : ℕ) → result ≤ s → (known self.now).content.word s ≡ None };

    /// Loads the word of a slot.
    fn load_node(&mut self, slot: u32) -> u64
        requires own { holds self.old }
        requires within { slot < (known self.old).content.limit }
        ensures own { holds self.new }
        ensures home { (table self.new ≡ table self.old) × (rest self.new ≡ rest self.old) }
        ensures same { known self.new ≡ known self.old }
        ensures bits { result ≡ (known self.old).bits slot };

    /// Loads a head with a level's turn in hand, which tells the whole of its chain.
    fn load_head(&mut self, head: u32, level: u32) -> u32
        requires own { holds self.old }
        requires has { HasLevel (known self.old).hand level }
        requires within { head < (known self.old).heads }
        ensures own { holds self.new }
        ensures home { (table self.new ≡ table self.old) × (rest self.new ≡ rest self.old) }
        ensures loaded { (chain : List ℕ) × (known self.new ≡ handed (known self.old) (record (known self.old).hand { walk = Some (record { head = head; level = level; rest = chain }) })) × (result ≡ link_to chain) × IsWhole (known self.old) head level chain };

    /// Loads the link behind a slot of the chain that is known.
    fn load_next(&mut self, slot: u32) -> u32
        requires own { holds self.old }
        requires on { (n : Walk) × ((known self.old).hand.walk ≡ Some n) × Lists n.rest slot }
        ensures own { holds self.new }
        ensures home { (table self.new ≡ table self.old) × (rest self.new ≡ rest self.old) }
        ensures same { known self.new ≡ known self.old }
        ensures next { (n : Walk) (front behind : List ℕ) → (known self.old).hand.walk ≡ Some n → n.rest ≡ front ++ slot ∷ behind → result ≡ link_to behind };

    /// Takes the first slot of the chain that is known off it: its link is stored in the head.
    fn unlink_first(&mut self, head: u32, slot: u32, link: u32)
        requires own { holds self.old }
        requires calm { (known self.old).hand.loose ≡ None }
        requires first { IsFront (known self.old) head slot }
        requires link { (n : Walk) (behind : List ℕ) → (known self.old).hand.walk ≡ Some n → n.rest ≡ slot ∷ behind → link ≡ link_to behind }
        requires turn { HasTurnOf (known self.old) slot }
        ensures own { holds self.new }
        ensures home { (table self.new ≡ table self.old) × (rest self.new ≡ rest self.old) }
        ensures off { known self.new ≡ handed (known self.old) (record (known self.old).hand { loose = Some slot; renewed = None; link = None; walk = None }) };

    /// Takes a later one off: its link is stored in the slot before it.
    fn unlink_later(&mut self, before: u32, slot: u32, link: u32)
        requires own { holds self.old }
        requires calm { (known self.old).hand.loose ≡ None }
        requires later { StandsBefore (known self.old) before slot }
        requires link { (n : Walk) (front behind : List ℕ) → (known self.old).hand.walk ≡ Some n → n.rest ≡ front ++ slot ∷ behind → link ≡ link_to behind }
        requires turn { HasTurnOf (known self.old) slot }
        ensures own { holds self.new }
        ensures home { (table self.new ≡ table self.old) × (rest self.new ≡ rest self.old) }
        ensures off { known self.new ≡ handed (known self.old) (record (known self.old).hand { loose = Some slot; renewed = None; link = None; walk = None }) };

    /// Stores the link of a slot that is on no chain.
    fn store_next(&mut self, slot: u32, link: u32)
        requires own { holds self.old }
        requires loose { (known self.old).hand.loose ≡ Some slot }
        ensures own { holds self.new }
        ensures home { (table self.new ≡ table self.old) × (rest self.new ≡ rest self.old) }
        ensures stored { known self.new ≡ handed (known self.old) (record (known self.old).hand { link = Some (record { slot = slot; next = link }) }) };

    /// The step of a head, by compare_exchange: where it finds the link that was stored in the slot, the slot stands before the others. Answers what it found.
    fn push_head(&mut self, head: u32, slot: u32, link: u32) -> u32
        requires own { holds self.old }
        requires loose { (known self.old).hand.loose ≡ Some slot }
        requires linked { (known self.old).hand.link ≡ Some (record { slot = slot; next = link }) }
        requires head { head ≡ head_of (known self.old).heads ((known self.old).bits slot) }
        ensures own { holds self.new }
        ensures home { (table self.new ≡ table self.old) × (rest self.new ≡ rest self.old) }
        ensures pushed { result ≡ link → known self.new ≡ handed (known self.old) (record (known self.old).hand { loose = None; renewed = None; link = None; walk = None }) }
        ensures missed { result ≢ link → known self.new ≡ known self.old };

    /// Stores a new node in the first slot of the free list, which is in hand. The slot is in use from then on, and on no chain yet.
    fn store_node(&mut self, slot: u32, bits: u64)
        requires own { holds self.old }
        requires calm { (known self.old).hand.loose ≡ None }
        requires first { (list : List ℕ) × ((known self.old).hand.free ≡ Some (slot ∷ list)) }
        requires new { (k : Kind) × (node : Node) × (unpack_of bits ≡ Some (Inner node)) × IsNew k (known self.old).content node × HasLevel (known self.old).hand (level_of_word (known self.old) (Inner node)) }
        ensures own { holds self.new }
        ensures home { (table self.new ≡ table self.old) × (rest self.new ≡ rest self.old) }
        ensures stored { (k : Kind) (node : Node) (list : List ℕ) → unpack_of bits ≡ Some (Inner node) → IsNew k (known self.old).content node → (known self.old).hand.free ≡ Some (slot ∷ list) → known self.new ≡ record { content = with_node (known self.old).content slot node (node_function k (known self.old).content node); bits = put_at (known self.old).bits slot bits; heads = (known self.old).heads; hand = record (known self.old).hand { free = Some list; loose = Some slot; renewed = None; link = None } } };

    /// Puts another node of the same function into a slot that is on no chain, with the turn of its new level in hand.
    fn rewrite_node(&mut self, slot: u32, bits: u64)
        requires own { holds self.old }
        requires loose { (known self.old).hand.loose ≡ Some slot }
        requires can { (k : Kind) × (node : Node) × (unpack_of bits ≡ Some (Inner node)) × CanRewrite k (known self.old).content slot node.var (record { index = node.hi; complement = false }) node.lo × HasLevel (known self.old).hand (level_of_word (known self.old) (Inner node)) }
        ensures own { holds self.new }
        ensures home { (table self.new ≡ table self.old) × (rest self.new ≡ rest self.old) }
        ensures rewritten { (node : Node) → unpack_of bits ≡ Some (Inner node) → known self.new ≡ record (known self.old) { content = rewritten (known self.old).content slot node.var (record { index = node.hi; complement = false }) node.lo; bits = put_at (known self.old).bits slot bits } };

    /// Frees a slot that is on no chain, has its next generation, and is named by no answer of the computed table, with the free list in hand: it stands first there.
    fn free_node(&mut self, slot: u32)
        requires own { holds self.old }
        requires loose { (known self.old).hand.loose ≡ Some slot }
        requires renewed { (known self.old).hand.renewed ≡ Some slot }
        requires forgotten { IsForgotten (known self.old).hand slot }
        requires free { (list : List ℕ) × ((known self.old).hand.free ≡ Some list) }
        requires dead { IsDead (known self.old).content slot }
        ensures own { holds self.new }
        ensures home { (table self.new ≡ table self.old) × (rest self.new ≡ rest self.old) }
        ensures freed { (list : List ℕ) → (known self.old).hand.free ≡ Some list → known self.new ≡ record { content = freed (known self.old).content slot; bits = put_at (known self.old).bits slot 0; heads = (known self.old).heads; hand = record (known self.old).hand { free = Some (slot ∷ list); loose = None; renewed = None; link = None } } };

    /// Loads the count word of a slot. Its low half counts the holder's pin too.
    fn load_count(&mut self, slot: u32) -> u64
        requires own { holds self.old }
        requires within { slot < (known self.old).content.limit }
        ensures own { holds self.new }
        ensures home { (table self.new ≡ table self.old) × (rest self.new ≡ rest self.old) }
        ensures counted { (count : ℕ) × (known self.new ≡ record (known self.old) { content = record (known self.old).content { count = put_at (known self.old).content.count slot count } }) × (count_of result ≡ count + (if (known self.old).content.pinned slot then 1 else 0)) }
        ensures stays { (known self.old).content.count slot ≡ 0 → (known self.new).content.count slot ≡ 0 }
        ensures generation { generation_of result ≡ (known self.old).content.generation slot };

    /// Stores the next generation of a slot that is on no chain, and that nothing holds.
    fn store_generation(&mut self, slot: u32, word: u64)
        requires own { holds self.old }
        requires loose { (known self.old).hand.loose ≡ Some slot }
        requires uncounted { (known self.old).content.count slot ≡ 0 }
        requires unpinned { (known self.old).content.pinned slot ≡ false }
        requires next { IsNextOf (known self.old).content slot word }
        ensures own { holds self.new }
        ensures home { (table self.new ≡ table self.old) × (rest self.new ≡ rest self.old) }
        ensures renewed { known self.new ≡ record (known self.old) { content = record (known self.old).content { generation = put_at (known self.old).content.generation slot (generation_of word) }; hand = record (known self.old).hand { renewed = Some slot } } };

    /// Counts a slot up, as a pin of the holder. It is in use, and not pinned yet.
    fn pin_count(&mut self, slot: u32)
        requires own { holds self.old }
        requires used { IsUsed (known self.old).content slot }
        requires unpinned { (known self.old).content.pinned slot ≡ false }
        ensures own { holds self.new }
        ensures home { (table self.new ≡ table self.old) × (rest self.new ≡ rest self.old) }
        ensures pinned { known self.new ≡ record (known self.old) { content = with_pin (known self.old).content slot true } };

    /// Counts a slot down that the holder has pinned.
    fn unpin_count(&mut self, slot: u32)
        requires own { holds self.old }
        requires pinned { (known self.old).content.pinned slot ≡ true }
        ensures own { holds self.new }
        ensures home { (table self.new ≡ table self.old) × (rest self.new ≡ rest self.old) }
        ensures unpinned { known self.new ≡ record (known self.old) { content = with_pin (known self.old).content slot false } };

    /// Loads what stands at a level of an order: a variable, or an element by its own number.
    fn load_order(&mut self, order: Order, level: u32) -> u32
        requires own { holds self.old }
        requires within { level < length (in_order (known self.old).content.orders order) }
        requires settled { (known self.old).hand.pending ≡ None }
        ensures own { holds self.new }
        ensures home { (table self.new ≡ table self.old) × (rest self.new ≡ rest self.old) }
        ensures same { known self.new ≡ known self.old }
        ensures there { result ≡ slice_index (in_order (known self.old).content.orders order) level };

    /// Stores the first of the two order words of an exchange, that of the upper level. The orders are exchanged from then on, and the word of the next level is due.
    fn store_upper(&mut self, order: Order, level: u32, lower: u32)
        requires own { holds self.old }
        requires settled { (known self.old).hand.pending ≡ None }
        requires can { CanExchange (known self.old).content order level }
        requires lower { lower ≡ slice_index (in_order (known self.old).content.orders order) (level + 1) }
        ensures own { holds self.new }
        ensures home { (table self.new ≡ table self.old) × (rest self.new ≡ rest self.old) }
        ensures exchanged { known self.new ≡ record (known self.old) { content = record (known self.old).content { orders = exchanged (known self.old).content.orders order level; half = None }; hand = record (known self.old).hand { pending = Some (record { order = order; level = level + 1 }) } } };

    /// Stores the order word that is due.
    fn store_lower(&mut self, order: Order, level: u32, upper: u32)
        requires own { holds self.old }
        requires due { (known self.old).hand.pending ≡ Some (record { order = order; level = level }) }
        requires upper { upper ≡ slice_index (in_order (known self.old).content.orders order) level }
        ensures own { holds self.new }
        ensures home { (table self.new ≡ table self.old) × (rest self.new ≡ rest self.old) }
        ensures stored { known self.new ≡ handed (known self.old) (record (known self.old).hand { pending = None }) };

    /// Takes the computed table, if it is at home.
    fn take_memo(&mut self) -> bool
        requires own { holds self.old }
        ensures own { holds self.new }
        ensures home { (table self.new ≡ table self.old) × (rest self.new ≡ rest self.old) }
        ensures taken { result ≡ true → (named : ℕ → Bool) × (known self.new ≡ handed (known self.old) (record (known self.old).hand { named = Some named })) }
        ensures missed { result ≡ false → known self.new ≡ known self.old };

    /// Drops all answers of the computed table, which is in hand.
    fn clear_memo(&mut self)
        requires own { holds self.old }
        requires memo { (named : ℕ → Bool) × ((known self.old).hand.named ≡ Some named) }
        ensures own { holds self.new }
        ensures home { (table self.new ≡ table self.old) × (rest self.new ≡ rest self.old) }
        ensures cleared { known self.new ≡ handed (known self.old) (record (known self.old).hand { named = Some (λ _. false) }) };

    /// Gives the computed table back.
    fn give_memo(&mut self)
        requires own { holds self.old }
        requires memo { (named : ℕ → Bool) × ((known self.old).hand.named ≡ Some named) }
        ensures own { holds self.new }
        ensures home { (table self.new ≡ table self.old) × (rest self.new ≡ rest self.old) }
        ensures given { known self.new ≡ handed (known self.old) (record (known self.old).hand { named = None }) };

    ghost stands: { (s : Self) → holds s → Stands (known s) };
}
