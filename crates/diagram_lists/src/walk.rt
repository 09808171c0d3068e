//! The walk that numbers the nodes of a store's BDDs.

ghost use Rattle.std.specs.Prelude.{◌≡◌, ◌⊎◌, ◌<◌, ◌≤◌, ◌+◌, ◌^◌, ◌++◌, ◌∷◌, [], ℕ, List as ListOf, IfOk, OnOk, IfSome, IfNone, Some, length, slice_set};
ghost use Rattle.edge_bits.specs.declared.edges.Kind.TheVariants.{Bdd};
ghost use Rattle.edge_bits.specs.declared.words.Node.{Node as NodeOf};
ghost use Rattle.edge_bits.specs.declared.words.Word.TheVariants as words;
ghost use Rattle.edge_bits.specs.Reading.{plain};
ghost use Rattle.node_store.specs.Views.{Is};
ghost use Rattle.node_slots.specs.Stores.{IsStore, Plain, plain_view, slots};
ghost use Rattle.diagram_lists.specs.Walks.{Extended, IsOpen, IsWalk, Leads, OnWay, index_of, line_of, next, number, steps_left};

use edge_bits::{Edge, Line, List, Memory, Node, Word, unpack};
use node_slots::PlainStore;
use std::alloc::Global;

/// A walk over the nodes of a store in depth. It leaves a node behind its then child and its else child, and numbers it then.
#[derive(Drop)]
pub(crate) struct Walk {
    /// The number of each slot, 1 for the constant, and 0 where it has none yet.
    pub(crate) numbers: Vec<u32>,
    /// The lines of the numbers from 2 on.
    pub(crate) lines: List<Line>,
    /// The slots that were met and aren't left, from the root on.
    pub(crate) stack: Vec<u32>,
}

/// The node of a slot.
fn node_in(store: &PlainStore, slot: u32) -> Node
    requires { (node : NodeOf) × (slots store.now slot ≡ Some (words.Inner node)) }
    ensures { slots store.now slot ≡ Some (words.Inner result) }
{
    match unpack(store.words()[slot as usize]) {
        Some(Word::Inner(node)) => node,
        _ => unreachable!(),
    }
}

impl Walk {
    /// A walk over a store of so many slots, of which the constant alone has a number.
    pub(crate) fn new(alloc: Global, slots: u32) -> Result<Walk, Memory>
        requires { 0 < slots }
        ensures walk { IfOk result (λ walk. (p : Plain) → length p.words ≡ slots → IsWalk p walk) }
        ensures lines { IfOk result (λ walk. walk.lines ≡ []) }
        ensures stack { IfOk result (λ walk. walk.stack.items ≡ []) }
    {
        let mut numbers = vec![in alloc; 0u32; slots as usize]?;
        numbers[0] = 1;
        Ok(Walk {
            numbers,
            lines: List::new(alloc),
            stack: Vec::new(alloc),
        })
    }

    fn number(&self, slot: u32) -> u32
        requires { slot < length self.now.numbers.items }
        ensures { result ≡ number self.now.numbers.items slot }
    {
        self.numbers[slot as usize]
    }

    /// The index of an edge, negative where it is complemented.
    pub(crate) fn index_of(&self, edge: Edge) -> i32
        requires within { edge.index < length self.now.numbers.items }
        requires small { number self.now.numbers.items edge.index < 2 ^ 31 }
        ensures { result ≡ index_of self.now.numbers.items edge }
    {
        let index = self.number(edge.index()) as i32;
        if edge.complement() { -index } else { index }
    }

    /// The first child of a node that has no number yet.
    fn open_child(&self, node: &Node) -> Option<u32>
        requires hi { node.now.hi < length self.now.numbers.items }
        requires lo { node.now.lo.index < length self.now.numbers.items }
        ensures some { IfSome result (λ child. (number self.now.numbers.items child ≡ 0)
            × ((child ≡ node.now.hi) ⊎ ((child ≡ node.now.lo.index) × (1 ≤ number self.now.numbers.items node.now.hi)))) }
        ensures none { IfNone result ((1 ≤ number self.now.numbers.items node.now.hi) × (1 ≤ number self.now.numbers.items node.now.lo.index)) }
    {
        if self.number(node.hi) == 0 {
            Some(node.hi)
        } else if self.number(node.lo.index()) == 0 {
            Some(node.lo.index())
        } else {
            None
        }
    }

    /// Numbers the node of an open slot whose children have numbers.
    fn leave(&mut self, store: &PlainStore, slot: u32, node: &Node) -> Result<(), Memory>
        requires store { IsStore store.now }
        requires walk { IsWalk store.now self.old }
        requires open { IsOpen store.now self.old.numbers.items slot node.now }
        requires hi { 1 ≤ number self.old.numbers.items node.now.hi }
        requires lo { 1 ≤ number self.old.numbers.items node.now.lo.index }
        ensures walk { OnOk result (IsWalk store.now self.new) }
        ensures numbers { OnOk result (self.new.numbers.items ≡ slice_set self.old.numbers.items slot (next self.old.lines)) }
        ensures lines { OnOk result (self.new.lines ≡ self.old.lines ++ line_of self.old.numbers.items node.now ∷ []) }
        ensures stack { OnOk result (self.new.stack.items ≡ self.old.stack.items) }
    {
        let line = Line {
            var: node.var as u32,
            hi: self.number(node.hi),
            lo: self.index_of(node.lo),
        };
        self.lines.push(line)?;
        self.numbers[slot as usize] = self.lines.len() as u32 + 1;
        Ok(())
    }

    fn top(&self) -> Option<u32>
        ensures some { IfSome result (λ top. (front : ListOf ℕ) × (self.now.stack.items ≡ front ++ top ∷ [])) }
        ensures none { IfNone result (self.now.stack.items ≡ []) }
    {
        self.stack.as_slice().last().copied()
    }

    /// One step from the top of the stack: to a child without a number, or back from the slot, which gets its number.
    fn step(&mut self, store: &PlainStore, slot: u32) -> Result<(), Memory>
        requires store { IsStore store.now }
        requires walk { IsWalk store.now self.old }
        requires top { (front : ListOf ℕ) × (self.old.stack.items ≡ front ++ slot ∷ []) }
        requires way { (start : ℕ) × (root : ℕ) × OnWay store.now self.old start root }
        ensures walk { OnOk result (IsWalk store.now self.new) }
        ensures extended { OnOk result (Extended self.old self.new) }
        ensures way { OnOk result ((start : ℕ) (root : ℕ) → OnWay store.now self.old start root → OnWay store.now self.new start root) }
        ensures fewer { OnOk result (steps_left store.now self.new.numbers.items self.new.stack.items < steps_left store.now self.old.numbers.items self.old.stack.items) }
    {
        let node = node_in(store, slot);
        match self.open_child(&node) {
            Some(child) => self.stack.push(child)?,
            None => {
                self.leave(store, slot, &node)?;
                let _slot = self.stack.pop();
            }
        }
        Ok(())
    }

    /// Numbers a slot, and all below it that have no number yet.
    pub(crate) fn walk_from(&mut self, store: &PlainStore, root: u32) -> Result<(), Memory>
        requires store { IsStore store.now }
        requires walk { IsWalk store.now self.old }
        requires stack { self.old.stack.items ≡ [] }
        requires root { Is Bdd (plain_view store.now) (plain root) }
        ensures walk { OnOk result (IsWalk store.now self.new) }
        ensures extended { OnOk result (Extended self.old self.new) }
        ensures stack { OnOk result (self.new.stack.items ≡ []) }
        ensures has { OnOk result (1 ≤ number self.new.numbers.items root) }
        ensures leads { OnOk result (Leads self.new.lines (next self.old.lines) (number self.new.numbers.items root) (next self.new.lines)) }
    {
        if self.number(root) != 0 {
            return Ok(());
        }
        self.stack.push(root)?;
        while let Some(slot) = self.top() {
            self.step(store, slot)?;
        }
        Ok(())
    }
}
