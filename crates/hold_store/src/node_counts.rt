//! How many nodes each variable has.

ghost use Rattle.std.specs.Prelude.{◌≡◌, ℕ, ◌+◌, ◌<◌, ◌^◌, if◌then◌else◌, IfOk, length, slice_index, true};
ghost use Rattle.node_slots.specs.Taking.{is_node_of};

use edge_bits::{Memory, Word, unpack};
use std::alloc::Global;
use std::marker::Model;

/// As many variable numbers as a word has room for.
const VARIABLE_NUMBERS: u32 = 1 << 15;

/// The number of nodes of each variable, and of element e at 16,384 + e.
#[derive(Drop)]
pub struct NodeCounts {
    counts: Vec<u32>,
}

impl Model for NodeCounts {
    ghost use Rattle.std.specs.Prelude.{◌≡◌, ℕ, ◌^◌, List, length};

    ghost Value = { List ℕ };

    ghost view = { λ c. c.counts.items };

    ghost invariant = { λ c. length c.counts.items ≡ 2 ^ 15 };
}

/// So many zeros.
fn zeros(alloc: Global, count: u32) -> Result<Vec<u32>, Memory>
    ensures all { IfOk result (λ v. length v.items ≡ count) }
    ensures none { IfOk result (λ v. (i : ℕ) → slice_index v.items i ≡ 0) }
{
    Ok(vec![in alloc; 0u32; count as usize]?)
}

impl NodeCounts {
    /// No nodes.
    pub fn new(alloc: Global) -> Result<NodeCounts, Memory>
        ensures all { IfOk result (λ c. length c ≡ 2 ^ 15) }
        ensures none { IfOk result (λ c. (v : ℕ) → slice_index c v ≡ 0) }
    {
        let counts = zeros(alloc, VARIABLE_NUMBERS)?;
        Ok(NodeCounts { counts })
    }

    /// The number of nodes of a variable.
    pub fn of(&self, var: u32) -> u32
        requires { var < 2 ^ 15 }
        ensures { result ≡ slice_index self.now var }
    {
        self.counts[var as usize]
    }

    /// Counts the node of a word, if it has one.
    pub fn add(&mut self, bits: u64)
        requires few { (v : ℕ) → slice_index self.old v < 2 ^ 23 }
        ensures all { length self.new ≡ length self.old }
        ensures each { (v : ℕ) → slice_index self.new v ≡ slice_index self.old v + (if is_node_of v bits then 1 else 0) }
    {
        if let Some(Word::Inner(node)) = unpack(bits) {
            self.counts[node.var as usize] += 1;
        }
    }

    /// Counts the node of a word no more, if it has one.
    pub fn remove(&mut self, bits: u64)
        requires some { (v : ℕ) → is_node_of v bits ≡ true → 0 < slice_index self.old v }
        ensures all { length self.new ≡ length self.old }
        ensures each { (v : ℕ) → slice_index self.new v + (if is_node_of v bits then 1 else 0) ≡ slice_index self.old v }
    {
        if let Some(Word::Inner(node)) = unpack(bits) {
            self.counts[node.var as usize] -= 1;
        }
    }

    /// Counts none any more.
    pub fn clear(&mut self)
        ensures all { length self.new ≡ length self.old }
        ensures none { (v : ℕ) → slice_index self.new v ≡ 0 }
    {
        self.counts.fill(0);
    }
}
