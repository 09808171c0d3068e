//! A store of decision diagrams that only grows.

use crate::stack::Stack;
pub use computed_cache::Key;
pub use edge_bits::{Edge, Kind};

/// What an edge leads to: a node's variable with its then and its else edge, or a leaf's value.
#[derive(Debug, Clone, Copy, PartialEq, Eq, Drop)]
pub enum Opened {
    Inner(u32, Edge, Edge),
    Leaf(i64),
}

/// Why a node was not stored: want of memory, or no slot was free.
#[derive(Debug, Clone, Copy, PartialEq, Eq, Drop)]
pub enum Stop {
    Memory,
    Full,
}

/// A store of decision diagrams, as an operator sees it. Others may make nodes in it between two calls. A variable is named by its number, element e by 16,384 + e.
pub trait Grow {
    ghost use Rattle.std.specs.Prelude.{◌≡◌, ℕ, ◌<◌, ◌≤◌, IfOk, IfSome, IsErrOf, IsOkAnd, OnOk, ◌⊎◌, true, Some, []};
    ghost use Rattle.edge_bits.specs.declared.edges.Kind.{Kind};
    ghost use Rattle.edge_bits.specs.declared.edges.Kind.TheVariants.{Add, Bdd};
    ghost use Rattle.edge_bits.specs.Words.{IsLeafValue};
    ghost use Rattle.function_laws.specs.Values.{constant};
    ghost use Rattle.function_laws.specs.Kinds.{function_of};
    ghost use Rattle.node_store.specs.Views.{View, Is, IsFunction, IsVariable, Denotes, Grown, Kept, Rose, Opens, CanMake, Permanent, IsKey, IsProjection, levels as levels_of, values_at, node_values};
    ghost use Rattle.node_store.specs.Memo.{MemoHolds};
    ghost use Rattle.node_store.specs.Stacks.{levels_in};

    /// What a caller knows of it.
    ghost view: { Self → View };

    /// The number of levels of a kind's order. Its contract also tells what stands in the permanent slots.
    fn levels(&mut self, kind: Kind) -> u32
        ensures kept { Kept (view self.old) (view self.new) }
        ensures room { (view self.new).room ≡ (view self.old).room }
        ensures levels { result ≡ levels_of kind (view self.new) }
        ensures permanent { Permanent (view self.new) };

    /// The node of an edge, with the edge's complement pushed to both children.
    fn open(&mut self, edge: Edge) -> Opened
        requires { IsFunction (view self.old) edge }
        ensures kept { Kept (view self.old) (view self.new) }
        ensures room { (view self.new).room ≡ (view self.old).room }
        ensures opens { (k : Kind) → Is k (view self.old) edge → Opens k (view self.new) edge (values_at k (view self.old) edge) result }
        ensures permanent { Permanent (view self.new) };

    /// The edge of a node, which is stored if it is not there.
    fn make(&mut self, var: u32, hi: Edge, lo: Edge) -> Result<Edge, Stop>
        requires { (k : Kind) × CanMake k (view self.old) var hi lo }
        ensures grown { Grown (view self.old) (view self.new) }
        ensures room { (view self.new).room ≡ (view self.old).room }
        ensures ok { (k : Kind) → CanMake k (view self.old) var hi lo → IfOk result (λ e. Denotes k (view self.new) e (node_values k (view self.old) var hi lo)) }
        ensures made { (s : ℕ) → (view self.new).made s ≡ true → ((view self.old).made s ≡ true) ⊎ IsOkAnd result (λ e. e.index ≡ s) }
        ensures memory { IsErrOf result Stop.Memory → (view self.old).may_want_memory ≡ true }
        ensures full { IsErrOf result Stop.Full → Rose (view self.old) (view self.new) }
        ensures due { IsErrOf result Stop.Full → (k : Kind) → CanMake k (view self.old) var hi lo → (view self.new).due ≡ Some (function_of k (node_values k (view self.old) var hi lo)) }
        ensures still_due { OnOk result ((view self.new).due ≡ (view self.old).due) };

    /// The edge of a number's leaf, which is stored if it is not there.
    fn leaf(&mut self, value: i64) -> Result<Edge, Stop>
        requires { IsLeafValue value }
        ensures grown { Grown (view self.old) (view self.new) }
        ensures room { (view self.new).room ≡ (view self.old).room }
        ensures ok { IfOk result (λ e. Denotes Add (view self.new) e (constant value)) }
        ensures made { (s : ℕ) → (view self.new).made s ≡ true → ((view self.old).made s ≡ true) ⊎ IsOkAnd result (λ e. e.index ≡ s) }
        ensures memory { IsErrOf result Stop.Memory → (view self.old).may_want_memory ≡ true }
        ensures full { IsErrOf result Stop.Full → Rose (view self.old) (view self.new) }
        ensures due { IsErrOf result Stop.Full → (view self.new).due ≡ Some (function_of Add (constant value)) }
        ensures still_due { OnOk result ((view self.new).due ≡ (view self.old).due) };

    /// The level of a variable or an element in its order.
    fn level(&mut self, var: u32) -> u32
        requires { (k : Kind) × IsVariable k (view self.old) var }
        ensures kept { Kept (view self.old) (view self.new) }
        ensures room { (view self.new).room ≡ (view self.old).room }
        ensures level { result ≡ (view self.old).level var };

    /// The edge of a variable's projection, the function that has the variable's value. It stands in a permanent slot.
    fn projection(&mut self, var: u32) -> Edge
        requires { IsVariable Bdd (view self.old) var }
        ensures kept { Kept (view self.old) (view self.new) }
        ensures room { (view self.new).room ≡ (view self.old).room }
        ensures projection { IsProjection (view self.new) var result };

    /// What was computed under this key, if it is still known.
    fn memo_get(&mut self, key: &Key) -> Option<Edge>
        requires { IsKey (view self.old) key.now }
        ensures kept { Kept (view self.old) (view self.new) }
        ensures room { (view self.new).room ≡ (view self.old).room }
        ensures hit { IfSome result (λ e. MemoHolds (view self.new) key.now e) };

    /// Keeps what was computed under this key, in place of another entry.
    fn memo_put(&mut self, key: Key, edge: Edge)
        requires key { IsKey (view self.old) key }
        requires holds { MemoHolds (view self.old) key edge }
        ensures kept { Kept (view self.old) (view self.new) }
        ensures room { (view self.new).room ≡ (view self.old).room };

    /// Lends the scratch in which operators run. While it is away, a further call gets an empty one.
    fn take_scratch(&mut self) -> Stack
        ensures kept { Kept (view self.old) (view self.new) }
        ensures empty { result.frames ≡ [] }
        ensures room { (view self.old).room ≤ levels_in result };

    /// Gives the scratch back.
    fn give_scratch(&mut self, stack: Stack)
        requires { stack.frames ≡ [] }
        ensures kept { Kept (view self.old) (view self.new) }
        ensures room { (view self.new).room ≡ levels_in stack };
}
