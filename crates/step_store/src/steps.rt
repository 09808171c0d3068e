//! The single steps that a seat with an operation share makes on the words of its table.

use crate::job::Job;
use edge_bits::Edge;
use node_store::{Key, Stack};

/// A seat at its table, while it has an operation share. Others step beside it: they store nodes, take turns and change heads, but what this seat knows changes by its own steps alone.
///
/// Each call is one step on one word, but for the peeks, which tell nothing, and what lies in the seat's own hand. Levels are numbered through both kinds: variable v has v, element e the number of variables and e, the leaves the last. A link is 0, or one more than a slot.
pub trait Steps {
    ghost use Rattle.std.specs.Prelude.{◌≡◌, ◌≢◌, ℕ, ◌<◌, ◌≤◌, ◌⊎◌, List, [], ◌∷◌, ◌++◌, Option, Some, None, IfSome, true, false};
    ghost use Rattle.edge_bits.specs.Words.{unpack_of};
    ghost use Rattle.edge_bits.specs.declared.edges.Kind.{Kind};
    ghost use Rattle.edge_bits.specs.declared.words.Word.{Word};
    ghost use Rattle.node_store.specs.Memo.{MemoHolds};
    ghost use Rattle.node_store.specs.Stacks.{levels_in};
    ghost use Rattle.node_store.specs.Views.{IsKey, IsVariable};
    ghost use Rattle.step_store.specs.Chains.{Lists, head_of, link_to};
    ghost use Rattle.step_store.specs.Knowing.{Grows, HasLevel, HasWord, IsChain, IsDue, IsMet, IsWanted, Knowledge, Learns, MayMake, Meets, Owns, Stands, Walk, handed, risen, turns, without_level, word_of};

    /// What the seat knows besides: of the journal, its rows and entries. No value of it is made.
    type Rest;

    /// What it knows of the words, and what it has in hand.
    ghost known: { Self → Knowledge };

    /// It has an operation share.
    ghost shares: { Self → Type 0 };

    /// The number of its table, and what it knows besides: no step changes these.
    ghost table: { Self → ℕ };

    ghost rest: { Self → Self.Rest };

    /// How many variables there are.
    fn vars(&self) -> u32
        requires { shares self.now }
        ensures { result ≡ (known self.now).view.vars };

    /// How many elements there are.
    fn elements(&self) -> u32
        requires { shares self.now }
        ensures { result ≡ (known self.now).view.elements };

    /// How many slots there are, free or not.
    fn limit(&self) -> u32
        requires { shares self.now }
        ensures { result ≡ (known self.now).view.slots };

    /// How many heads there are.
    fn heads(&self) -> u32
        requires { shares self.now }
        ensures { result ≡ (known self.now).heads };

    /// Whether a level's turn is at home. As all peeks, it tells nothing.
    fn peek_turn(&self, level: u32) -> bool
        requires own { shares self.now }
        requires within { level < turns (known self.now).view };

    /// Whether the free list is at home.
    fn peek_free(&self) -> bool
        requires { shares self.now };

    /// The link in a head.
    fn peek_head(&self, head: u32) -> u32
        requires own { shares self.now }
        requires within { head < (known self.now).heads };

    /// The link from a slot to the next in its chain.
    fn peek_next(&self, slot: u32) -> u32
        requires own { shares self.now }
        requires within { slot < (known self.now).view.slots };

    /// The word of a slot.
    fn peek_node(&self, slot: u32) -> u64
        requires own { shares self.now }
        requires within { slot < (known self.now).view.slots };

    /// Takes the turn of a level, if it is at home.
    fn take_turn(&mut self, level: u32) -> bool
        requires own { shares self.old }
        requires within { level < turns (known self.old).view }
        ensures own { shares self.new }
        ensures home { (table self.new ≡ table self.old) × (rest self.new ≡ rest self.old) }
        ensures taken { result ≡ true → known self.new ≡ handed (known self.old) (record (known self.old).hand { levels = level ∷ (known self.old).hand.levels }) }
        ensures missed { result ≡ false → known self.new ≡ known self.old };

    /// Gives a level's turn back. What was known of a chain goes with it.
    fn give_turn(&mut self, level: u32)
        requires own { shares self.old }
        requires has { HasLevel (known self.old).hand level }
        requires calm { ((known self.old).hand.taken ≡ None) × ((known self.old).hand.loose ≡ None) }
        ensures own { shares self.new }
        ensures home { (table self.new ≡ table self.old) × (rest self.new ≡ rest self.old) }
        ensures given { known self.new ≡ handed (known self.old) (record (known self.old).hand { levels = without_level level (known self.old).hand.levels; walk = None }) };

    /// Loads a head with a level's turn in hand, which tells the whole of its chain.
    fn load_head(&mut self, head: u32, level: u32) -> u32
        requires own { shares self.old }
        requires has { HasLevel (known self.old).hand level }
        requires within { head < (known self.old).heads }
        ensures own { shares self.new }
        ensures home { (table self.new ≡ table self.old) × (rest self.new ≡ rest self.old) }
        ensures loaded { (chain : List ℕ) × (known self.new ≡ handed (known self.old) (record (known self.old).hand { walk = Some (record { head = head; level = level; rest = chain }) })) × (result ≡ link_to chain) × IsChain (known self.old).view.slots chain };

    /// Loads the link behind a slot of the chain that is known.
    fn load_next(&mut self, slot: u32) -> u32
        requires own { shares self.old }
        requires on { (n : Walk) × ((known self.old).hand.walk ≡ Some n) × Lists n.rest slot }
        ensures own { shares self.new }
        ensures home { (table self.new ≡ table self.old) × (rest self.new ≡ rest self.old) }
        ensures same { known self.new ≡ known self.old }
        ensures next { (n : Walk) (front behind : List ℕ) → (known self.old).hand.walk ≡ Some n → n.rest ≡ front ++ slot ∷ behind → result ≡ link_to behind };

    /// Loads the word of a slot. Where it is in use, what it denotes is known from then on, and its children.
    fn load_node(&mut self, slot: u32) -> u64
        requires own { shares self.old }
        requires within { slot < (known self.old).view.slots }
        ensures own { shares self.new }
        ensures home { (table self.new ≡ table self.old) × (rest self.new ≡ rest self.old) }
        ensures learns { Learns (known self.old) (known self.new) }
        ensures hand { (known self.new).hand ≡ (known self.old).hand }
        ensures meets { (word : Word) → unpack_of result ≡ Some word → Meets (known self.new) slot result word }
        ensures used { IsMet (known self.old) slot → (word : Word) × (unpack_of result ≡ Some word) };

    /// Takes the free list, if it is at home.
    fn take_free(&mut self) -> bool
        requires own { shares self.old }
        ensures own { shares self.new }
        ensures home { (table self.new ≡ table self.old) × (rest self.new ≡ rest self.old) }
        ensures taken { result ≡ true → (list : List ℕ) × (known self.new ≡ handed (known self.old) (record (known self.old).hand { free = Some list })) }
        ensures missed { result ≡ false → known self.new ≡ known self.old };

    /// Whether a slot is on the free list, which is in hand.
    fn has_free(&self) -> bool
        requires own { shares self.now }
        requires free { (list : List ℕ) × ((known self.now).hand.free ≡ Some list) }
        ensures some { result ≡ true → (slot : ℕ) × (list : List ℕ) × ((known self.now).hand.free ≡ Some (slot ∷ list)) }
        ensures none { result ≡ false → (known self.now).hand.free ≡ Some [] };

    /// Gives the free list back without its first slot, which is taken for a word that is due. It is absent, and the turn of its level is in hand.
    fn take_slot(&mut self, bits: u64) -> u32
        requires own { shares self.old }
        requires some { (slot : ℕ) × (list : List ℕ) × ((known self.old).hand.free ≡ Some (slot ∷ list)) }
        requires calm { ((known self.old).hand.taken ≡ None) × ((known self.old).hand.loose ≡ None) }
        requires wanted { (word : Word) × IsWanted (known self.old) bits word }
        ensures own { shares self.new }
        ensures home { (table self.new ≡ table self.old) × (rest self.new ≡ rest self.old) }
        ensures within { result < (known self.old).view.slots }
        ensures taken { known self.new ≡ handed (known self.old) (record (known self.old).hand { free = None; taken = Some (record { slot = result; bits = bits }); link = None }) };

    /// Gives the free list back, empty. What was due is noted.
    fn give_empty(&mut self, bits: u64, job: &Job)
        requires own { shares self.old }
        requires empty { (known self.old).hand.free ≡ Some [] }
        requires calm { ((known self.old).hand.taken ≡ None) × ((known self.old).hand.loose ≡ None) }
        requires wanted { IsWanted (known self.old) bits (word_of job.now) }
        requires may { MayMake (known self.old).view job.now }
        ensures own { shares self.new }
        ensures home { (table self.new ≡ table self.old) × (rest self.new ≡ rest self.old) }
        ensures given { known self.new ≡ record (known self.old) { view = record (known self.old).view { fulls = risen (known self.old).view.fulls; due = (known self.new).view.due }; hand = record (known self.old).hand { free = None } } }
        ensures due { IsDue (known self.old).view (known self.new).view job.now };

    /// Stores the link of a slot that is this seat's own.
    fn store_next(&mut self, slot: u32, link: u32)
        requires own { shares self.old }
        requires owns { Owns (known self.old).hand slot }
        ensures own { shares self.new }
        ensures home { (table self.new ≡ table self.old) × (rest self.new ≡ rest self.old) }
        ensures stored { known self.new ≡ handed (known self.old) (record (known self.old).hand { link = Some (record { slot = slot; next = link }) }) };

    /// Stores the word that is due in the slot that was taken for it. The slot is in use from then on, and on no chain yet.
    fn store_node(&mut self, slot: u32, bits: u64)
        requires own { shares self.old }
        requires taken { (known self.old).hand.taken ≡ Some (record { slot = slot; bits = bits }) }
        requires calm { (known self.old).hand.loose ≡ None }
        ensures own { shares self.new }
        ensures home { (table self.new ≡ table self.old) × (rest self.new ≡ rest self.old) }
        ensures grows { Grows (known self.old) (known self.new) }
        ensures hand { (known self.new).hand ≡ record (known self.old).hand { taken = None; loose = Some slot } }
        ensures noted { (known self.new).word slot ≡ Some bits }
        ensures stored { (word : Word) → unpack_of bits ≡ Some word → HasWord (known self.old).view (known self.new).view slot word }
        ensures made { (s : ℕ) → (known self.new).view.made s ≡ true → ((known self.old).view.made s ≡ true) ⊎ (slot ≡ s) }
        ensures fulls { (known self.new).view.fulls ≡ (known self.old).view.fulls }
        ensures due { (known self.new).view.due ≡ (known self.old).view.due };

    /// The step of a head, by compare_exchange: where it finds the link that was stored in the slot, the slot stands before the others. Answers what it found.
    fn push_head(&mut self, head: u32, slot: u32, link: u32) -> u32
        requires own { shares self.old }
        requires loose { (known self.old).hand.loose ≡ Some slot }
        requires linked { (known self.old).hand.link ≡ Some (record { slot = slot; next = link }) }
        requires noted { (bits : ℕ) × ((known self.old).word slot ≡ Some bits) × (head ≡ head_of (known self.old).heads bits) }
        requires within { head < (known self.old).heads }
        ensures own { shares self.new }
        ensures home { (table self.new ≡ table self.old) × (rest self.new ≡ rest self.old) }
        ensures pushed { result ≡ link → known self.new ≡ handed (known self.old) (record (known self.old).hand { loose = None; link = None; walk = None }) }
        ensures missed { result ≢ link → known self.new ≡ known self.old };

    /// The level of a variable or an element in its order.
    fn load_level(&mut self, var: u32) -> u32
        requires own { shares self.old }
        requires var { (k : Kind) × IsVariable k (known self.old).view var }
        ensures own { shares self.new }
        ensures home { (table self.new ≡ table self.old) × (rest self.new ≡ rest self.old) }
        ensures same { known self.new ≡ known self.old }
        ensures level { result ≡ (known self.old).view.level var };

    /// Takes the computed table, if it is at home, with all that it tells.
    fn take_memo(&mut self) -> bool
        requires own { shares self.old }
        ensures own { shares self.new }
        ensures home { (table self.new ≡ table self.old) × (rest self.new ≡ rest self.old) }
        ensures learns { Learns (known self.old) (known self.new) }
        ensures taken { result ≡ true → (known self.new).hand ≡ record (known self.old).hand { memo = true } }
        ensures missed { result ≡ false → (known self.new).hand ≡ (known self.old).hand };

    /// What the computed table, which is in hand, has under a key.
    fn recall(&mut self, key: &Key) -> Option<Edge>
        requires own { shares self.old }
        requires memo { (known self.old).hand.memo ≡ true }
        requires key { IsKey (known self.old).view key.now }
        ensures own { shares self.new }
        ensures home { (table self.new ≡ table self.old) × (rest self.new ≡ rest self.old) }
        ensures same { known self.new ≡ known self.old }
        ensures hit { IfSome result (λ e. MemoHolds (known self.old).view key.now e) };

    /// Puts an answer into the computed table, which is in hand.
    fn remember(&mut self, key: Key, edge: Edge)
        requires own { shares self.old }
        requires memo { (known self.old).hand.memo ≡ true }
        requires key { IsKey (known self.old).view key }
        requires holds { MemoHolds (known self.old).view key edge }
        ensures own { shares self.new }
        ensures home { (table self.new ≡ table self.old) × (rest self.new ≡ rest self.old) }
        ensures same { known self.new ≡ known self.old };

    /// Gives the computed table back.
    fn give_memo(&mut self)
        requires own { shares self.old }
        requires memo { (known self.old).hand.memo ≡ true }
        ensures own { shares self.new }
        ensures home { (table self.new ≡ table self.old) × (rest self.new ≡ rest self.old) }
        ensures given { known self.new ≡ handed (known self.old) (record (known self.old).hand { memo = false }) };

    /// Lends the scratch that lies beside the seat. While it is away, a further call gets an empty one.
    fn take_scratch(&mut self) -> Stack
        requires { shares self.old }
        ensures own { shares self.new }
        ensures home { (table self.new ≡ table self.old) × (rest self.new ≡ rest self.old) }
        ensures same { known self.new ≡ record (known self.old) { view = record (known self.old).view { room = (known self.new).view.room } } }
        ensures empty { result.frames ≡ [] }
        ensures room { (known self.old).view.room ≤ levels_in result };

    /// Takes the scratch back.
    fn give_scratch(&mut self, stack: Stack)
        requires own { shares self.old }
        requires empty { stack.frames ≡ [] }
        ensures own { shares self.new }
        ensures home { (table self.new ≡ table self.old) × (rest self.new ≡ rest self.old) }
        ensures same { known self.new ≡ record (known self.old) { view = record (known self.old).view { room = levels_in stack } } };

    ghost stands: { (s : Self) → shares s → Stands (known s) };
}
