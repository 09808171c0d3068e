//! The trait of a store that one holder sweeps and reorders.

use crate::grow::Opened;
pub use edge_bits::Edge;
pub use function_laws::Order;

/// A store of decision diagrams in the hands of one holder, who sweeps it (Brace, Rudell and Bryant 1990) and reorders it (Rudell 1993): nobody else makes, changes or frees a node. Others may change counts between its calls, but a count that was 0 stays 0.
///
/// A variable is named by its number, element e by 16,384 + e. Slots are below 8,388,607, and an order has at most 16,384 levels, the first at the top. No call takes memory or refuses anything.
pub trait Whole {
    ghost use Rattle.std.specs.Prelude.{◌≡◌, ℕ, ◌+◌, ◌<◌, length, if◌then◌else◌, true, false, Some, None};
    ghost use Rattle.edge_bits.specs.declared.edges.Kind.{Kind};
    ghost use Rattle.edge_bits.specs.declared.words.Word.{Word};
    ghost use Rattle.function_laws.specs.Sizes.{in_order};
    ghost use Rattle.node_store.specs.Views.{Is};
    ghost use Rattle.node_store.specs.Contents.{Content, IsUsed, IsNamed, var_at as number_at, is_node_of, is_leaf, used_slots, nodes_of, opened_of, view_of};
    ghost use Rattle.node_store.specs.Changes.{After, with_mark, with_pin, rewritten, without, exchanged, CanRewrite, CanAdd, HasRoomFor, Added, CanFree, CanExchange, IsLeastFrom};

    /// What its holder knows of it.
    ghost view: { Self → Content };

    /// What others may do to the counts between two calls.
    ghost others: { (ℕ → ℕ) → (ℕ → ℕ) → Type 0 };

    /// How many levels an order has.
    fn levels_of(&mut self, order: Order) -> u32
        ensures after { After others (view self.old) (view self.new) }
        ensures levels { result ≡ length (in_order (view self.new).orders order) };

    /// The variable at a level.
    fn var_of(&mut self, order: Order, level: u32) -> u32
        requires { level < length (in_order (view self.old).orders order) }
        ensures after { After others (view self.old) (view self.new) }
        ensures var { result ≡ number_at (view self.old) order level };

    /// How many nodes stand at a level.
    fn nodes_of(&mut self, order: Order, level: u32) -> u32
        requires { level < length (in_order (view self.old).orders order) }
        ensures after { After others (view self.old) (view self.new) }
        ensures nodes { result ≡ nodes_of (view self.old) (number_at (view self.old) order level) };

    /// The least slot from this one on with a node of a level, or none. A loop that asks from 0 on, and then from behind each answer, should take time in proportion to the level's nodes while a sweep is on, and while a swap changes them.
    fn next_of(&mut self, order: Order, level: u32, from: u32) -> Option<u32>
        requires { level < length (in_order (view self.old).orders order) }
        ensures after { After others (view self.old) (view self.new) }
        ensures next { IsLeastFrom (view self.old) (λ s. is_node_of (number_at (view self.old) order level) ((view self.old).word s) ≡ true) from result };

    /// The least slot from this one on with a leaf, or none.
    fn next_leaf(&mut self, from: u32) -> Option<u32>
        ensures after { After others (view self.old) (view self.new) }
        ensures next { IsLeastFrom (view self.old) (λ s. is_leaf ((view self.old).word s) ≡ true) from result };

    /// The node of an edge, with the edge's complement pushed to both children.
    fn open(&mut self, edge: Edge) -> Opened
        requires { (k : Kind) × Is k (view_of (view self.old)) edge }
        ensures after { After others (view self.old) (view self.new) }
        ensures opens { (word : Word) → (view self.old).word edge.index ≡ Some word → result ≡ opened_of word edge.complement };

    /// How many hold a slot: rows and cells, and one more if it is pinned. Nothing holds a free slot.
    fn count_of(&mut self, slot: u32) -> u32
        requires { slot < (view self.old).limit }
        ensures after { After others (view self.old) (view self.new) }
        ensures count { result ≡ (view self.new).count slot + (if (view self.new).pinned slot then 1 else 0) };

    /// How many slots are in use.
    fn in_use(&mut self) -> u32
        ensures after { After others (view self.old) (view self.new) }
        ensures in_use { result ≡ used_slots (view self.old) };

    /// How many slots are free.
    fn room(&mut self) -> u32
        ensures after { After others (view self.old) (view self.new) }
        ensures room { result + used_slots (view self.old) ≡ (view self.old).limit };

    /// How many slots there are.
    fn limit(&mut self) -> u32
        ensures after { After others (view self.old) (view self.new) }
        ensures limit { result ≡ (view self.old).limit };

    /// Puts another node of the same function into a slot, a step of a swap. The slot holds a node that is not permanent, of a variable next to this one in the order, and no swap but that of these two is half made. The children are in use and of the slot's kind, do not depend on the variable, and are not such that the node is one of them; the then child is not complemented.
    fn rewrite(&mut self, slot: u32, var: u32, hi: Edge, lo: Edge)
        requires { (k : Kind) × CanRewrite k (view self.old) slot var hi lo }
        ensures { After others (rewritten (view self.old) slot var hi lo) (view self.new) };

    /// The edge of a node, which is stored if it is not there. A slot is free, or some edge denotes the node. The children denote functions below the variable, and no slot of another variable denotes the node's function, or its complement.
    fn add(&mut self, var: u32, hi: Edge, lo: Edge) -> Edge
        requires { (k : Kind) × CanAdd k (view self.old) var hi lo × HasRoomFor k (view self.old) var hi lo }
        ensures { (k : Kind) → CanAdd k (view self.old) var hi lo → Added others k (view self.old) (view self.new) var hi lo result };

    /// Begins a sweep, where none is on and no swap is half made. No slot is marked then.
    fn sweep_in(&mut self)
        requires idle { (view self.old).sweeping ≡ false }
        requires whole { (view self.old).half ≡ None }
        ensures { After others (record (view self.old) { sweeping = true; marked = λ s. false }) (view self.new) };

    /// Ends the sweep that is on.
    fn sweep_out(&mut self)
        requires { (view self.old).sweeping ≡ true }
        ensures { After others (record (view self.old) { sweeping = false }) (view self.new) };

    /// Frees a slot, and its next generation begins, modulo 2^32. A sweep is on. The slot is in use and not permanent, nothing holds it, and no node names it.
    fn free(&mut self, slot: u32)
        requires { CanFree (view self.old) slot }
        ensures { After others (without (view self.old) slot) (view self.new) };

    /// Exchanges the variables of a level and the next, the end of a swap. No function of a node of the upper one depends on the lower one, and no other swap is half made.
    fn exchange(&mut self, order: Order, level: u32)
        requires { CanExchange (view self.old) order level }
        ensures { After others (record (view self.old) { orders = exchanged (view self.old).orders order level; half = None }) (view self.new) };

    /// Marks a slot.
    fn mark(&mut self, slot: u32)
        requires { slot < (view self.old).limit }
        ensures { After others (with_mark (view self.old) slot true) (view self.new) };

    /// Takes a slot's mark away.
    fn unmark(&mut self, slot: u32)
        requires { slot < (view self.old).limit }
        ensures { After others (with_mark (view self.old) slot false) (view self.new) };

    /// Whether a slot is marked.
    fn is_marked(&mut self, slot: u32) -> bool
        requires { slot < (view self.old).limit }
        ensures after { After others (view self.old) (view self.new) }
        ensures marked { result ≡ (view self.old).marked slot };

    /// Holds a slot in use, which is not pinned, as a handle does.
    fn pin(&mut self, slot: u32)
        requires used { IsUsed (view self.old) slot }
        requires unpinned { (view self.old).pinned slot ≡ false }
        ensures { After others (with_pin (view self.old) slot true) (view self.new) };

    /// Gives a pin up.
    fn unpin(&mut self, slot: u32)
        requires { (view self.old).pinned slot ≡ true }
        ensures { After others (with_pin (view self.old) slot false) (view self.new) };

    /// Whether a slot is pinned.
    fn is_pinned(&mut self, slot: u32) -> bool
        requires { slot < (view self.old).limit }
        ensures after { After others (view self.old) (view self.new) }
        ensures pinned { result ≡ (view self.old).pinned slot };

    /// Whether a node in use names a slot. It should take constant time, but for the first call since the store came into its holder's hands.
    fn is_named(&mut self, slot: u32) -> bool
        requires { slot < (view self.old).limit }
        ensures after { After others (view self.old) (view self.new) }
        ensures named { result ≡ true → IsNamed (view self.old) slot }
        ensures unnamed { result ≡ false → IsNamed (view self.old) slot → ⊥ };

    /// How many levels the order has, of the variables.
    fn levels(&mut self) -> u32
        ensures after { After others (view self.old) (view self.new) }
        ensures levels { result ≡ length (in_order (view self.new).orders Order.Variables) }
    {
        self.levels_of(Order::Variables)
    }

    /// How many levels the order has, of the elements.
    fn levels_e(&mut self) -> u32
        ensures after { After others (view self.old) (view self.new) }
        ensures levels { result ≡ length (in_order (view self.new).orders Order.Elements) }
    {
        self.levels_of(Order::Elements)
    }

    /// The one at a level of the variables.
    fn var_at(&mut self, level: u32) -> u32
        requires { level < length (in_order (view self.old).orders Order.Variables) }
        ensures after { After others (view self.old) (view self.new) }
        ensures var { result ≡ number_at (view self.old) Order.Variables level }
    {
        self.var_of(Order::Variables, level)
    }

    /// The one at a level of the elements.
    fn var_at_e(&mut self, level: u32) -> u32
        requires { level < length (in_order (view self.old).orders Order.Elements) }
        ensures after { After others (view self.old) (view self.new) }
        ensures var { result ≡ number_at (view self.old) Order.Elements level }
    {
        self.var_of(Order::Elements, level)
    }

    /// How many nodes stand at a level of the variables.
    fn nodes_at(&mut self, level: u32) -> u32
        requires { level < length (in_order (view self.old).orders Order.Variables) }
        ensures after { After others (view self.old) (view self.new) }
        ensures nodes { result ≡ nodes_of (view self.old) (number_at (view self.old) Order.Variables level) }
    {
        self.nodes_of(Order::Variables, level)
    }

    /// How many nodes stand at a level of the elements.
    fn nodes_at_e(&mut self, level: u32) -> u32
        requires { level < length (in_order (view self.old).orders Order.Elements) }
        ensures after { After others (view self.old) (view self.new) }
        ensures nodes { result ≡ nodes_of (view self.old) (number_at (view self.old) Order.Elements level) }
    {
        self.nodes_of(Order::Elements, level)
    }

    /// The least slot from this one on with a node of a level of the variables.
    fn next_at(&mut self, level: u32, from: u32) -> Option<u32>
        requires { level < length (in_order (view self.old).orders Order.Variables) }
        ensures after { After others (view self.old) (view self.new) }
        ensures next { IsLeastFrom (view self.old) (λ s. is_node_of (number_at (view self.old) Order.Variables level) ((view self.old).word s) ≡ true) from result }
    {
        self.next_of(Order::Variables, level, from)
    }

    /// The least slot from this one on with a node of a level of the elements.
    fn next_at_e(&mut self, level: u32, from: u32) -> Option<u32>
        requires { level < length (in_order (view self.old).orders Order.Elements) }
        ensures after { After others (view self.old) (view self.new) }
        ensures next { IsLeastFrom (view self.old) (λ s. is_node_of (number_at (view self.old) Order.Elements level) ((view self.old).word s) ≡ true) from result }
    {
        self.next_of(Order::Elements, level, from)
    }

    /// Exchanges a level and the next of the variables.
    fn swap_order(&mut self, level: u32)
        requires { CanExchange (view self.old) Order.Variables level }
        ensures { After others (record (view self.old) { orders = exchanged (view self.old).orders Order.Variables level; half = None }) (view self.new) }
    {
        self.exchange(Order::Variables, level)
    }

    /// Exchanges a level and the next of the elements.
    fn swap_order_e(&mut self, level: u32)
        requires { CanExchange (view self.old) Order.Elements level }
        ensures { After others (record (view self.old) { orders = exchanged (view self.old).orders Order.Elements level; half = None }) (view self.new) }
    {
        self.exchange(Order::Elements, level)
    }

    // Others leave the counts, do so one after another, and leave a 0.
    ghost others_none: { (c : ℕ → ℕ) → others c c };

    ghost others_both: { (a b c : ℕ → ℕ) → others a b → others b c → others a c };

    ghost others_zero: { (a b : ℕ → ℕ) → others a b → (s : ℕ) → a s ≡ 0 → b s ≡ 0 };
}
