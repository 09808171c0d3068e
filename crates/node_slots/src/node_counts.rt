//! How many nodes each variable has.

ghost use Rattle.std.specs.Prelude.{◌≡◌, ℕ, ◌+◌, ◌<◌, ◌^◌, if◌then◌else◌, IfOk, length, slice_index, Some, true};
ghost use Rattle.edge_bits.specs.Words.{IsInRange};
ghost use Rattle.node_store.specs.Contents.{is_node_of as is_node_in};

use edge_bits::{Memory, Word};
use std::alloc::Global;
use std::marker::Model;

/// The number of nodes of each variable, and of element e at 16,384 + e.
#[derive(Drop)]
pub struct NodeCounts {
    counts: Vec<u32>,
}

impl Model for NodeCounts {
    ghost use Rattle.std.specs.Prelude.{ℕ, List};

    ghost Value = { List ℕ };

    ghost view = { λ c. c.counts.items };
}

impl NodeCounts {
    /// No nodes of variables below this number.
    pub fn new(alloc: Global, numbers: u32) -> Result<NodeCounts, Memory>
        ensures all { IfOk result (λ c. length c ≡ numbers) }
        ensures none { IfOk result (λ c. (v : ℕ) → slice_index c v ≡ 0) }
    {
        let counts = vec![in alloc; 0u32; numbers as usize]?;
        Ok(NodeCounts { counts })
    }

    /// The number of nodes of a variable.
    pub fn of(&self, var: u32) -> u32
        requires { var < length self.now }
        ensures { result ≡ slice_index self.now var }
    {
        self.counts[var as usize]
    }

    /// Counts the word's node, if it is one.
    pub fn add(&mut self, word: &Word)
        requires range { IsInRange word.now }
        requires all { length self.old ≡ 2 ^ 15 }
        requires few { (v : ℕ) → slice_index self.old v < 2 ^ 23 }
        ensures all { length self.new ≡ length self.old }
        ensures each { (v : ℕ) → slice_index self.new v ≡ slice_index self.old v + (if is_node_in v (Some word.now) then 1 else 0) }
    {
        match word {
            Word::Inner(node) => self.counts[node.var as usize] += 1,
            Word::Leaf(_) => {}
        }
    }

    /// Counts the word's node no more, if it is one.
    pub fn remove(&mut self, word: &Word)
        requires range { IsInRange word.now }
        requires all { length self.old ≡ 2 ^ 15 }
        requires some { (v : ℕ) → is_node_in v (Some word.now) ≡ true → 0 < slice_index self.old v }
        ensures all { length self.new ≡ length self.old }
        ensures each { (v : ℕ) → slice_index self.new v + (if is_node_in v (Some word.now) then 1 else 0) ≡ slice_index self.old v }
    {
        match word {
            Word::Inner(node) => self.counts[node.var as usize] -= 1,
            Word::Leaf(_) => {}
        }
    }
}
