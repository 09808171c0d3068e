//! A new table with one user.

ghost use Rattle.std.specs.Prelude.{◌≡◌, ℕ, ◌+◌, ◌*◌, ◌<◌, ◌≤◌, ◌⊎◌, ◌^◌, IfOk, List, length, slice_index, Some, None};
ghost use Rattle.std.specs.List.{range_with_len};
ghost use Rattle.edge_bits.specs.Permanent.{first_projection};
ghost use Rattle.edge_bits.specs.Reading.{slots_of};
ghost use Rattle.edge_bits.specs.Words.{IsInRange};
ghost use Rattle.node_slots.specs.Stores.{permanent_word};
ghost use Rattle.step_store.specs.Chains.{Chains, head_of};
ghost use Rattle.step_store.specs.Knowing.{idle};
ghost use Rattle.step_store.specs.Plain.{IsHeadCount, IsSeat, known_of, on_upto};

use crate::table::{Core, PlainTable};
use computed_cache::Memo;
use edge_bits::{
    Edge, FIRST_PROJECTION, MOST_ELEMENTS, MOST_SLOTS, MOST_VARIABLES, Memory, Node, TRUE_SLOT,
    Word, pack, scatter,
};
use std::alloc::Global;

/// As many answers as the computed table has room for.
const REMEMBERED: u32 = 65_536;

/// The least number of heads.
const LEAST_HEADS: u32 = 64;

/// How many heads there are for so many slots: the least power of two that is at least half of them, and at least 64.
pub fn head_count(limit: u32) -> u32
    requires { limit ≤ MOST_SLOTS }
    ensures { IsHeadCount limit result }
{
    let mut heads = LEAST_HEADS;
    while 2 * heads < limit {
        heads *= 2;
    }
    heads
}

/// The word of a permanent slot.
fn permanent(slot: u32) -> Word
    requires { slot < first_projection + MOST_VARIABLES }
    ensures word { result ≡ permanent_word slot }
    ensures range { IsInRange result }
{
    match slot {
        0 | 2 | 4 => Word::Leaf(1),
        1 | 3 => Word::Leaf(0),
        _ => Word::Inner(Node {
            var: (slot - FIRST_PROJECTION) as u16,
            hi: TRUE_SLOT,
            lo: Edge::truth(false),
        }),
    }
}

/// Writes the words of the permanent slots, where all are 0.
fn write_permanent(words: &mut Vec<u64>, vars: u32)
    requires vars { vars ≤ MOST_VARIABLES }
    requires room { first_projection + vars ≤ length words.old.items }
    requires free { (s : ℕ) → slice_index words.old.items s ≡ 0 }
    ensures length { length words.new.items ≡ length words.old.items }
    ensures permanent { (s : ℕ) → s < first_projection + vars → slots_of words.new.items s ≡ Some (permanent_word s) }
    ensures free { (s : ℕ) → first_projection + vars ≤ s → slice_index words.new.items s ≡ 0 }
    ensures fits { (s : ℕ) → slice_index words.new.items s < 2 ^ 64 }
{
    for slot in 0..FIRST_PROJECTION + vars {
        words[slot as usize] = pack(permanent(slot));
    }
}

/// Puts the slots from 3 on, so many in all, on the chains of their words.
fn link_slots(heads: &mut Vec<u32>, nexts: &mut Vec<u32>, words: &Vec<u64>, count: u32)
    requires some { 0 < length heads.old.items }
    requires few { length heads.old.items < 2 ^ 32 }
    requires least { 3 ≤ count }
    requires most { count < 2 ^ 23 }
    requires words { count ≤ length words.now.items }
    requires nexts { count ≤ length nexts.old.items }
    requires zero { (h : ℕ) → slice_index heads.old.items h ≡ 0 }
    ensures heads { length heads.new.items ≡ length heads.old.items }
    ensures nexts { length nexts.new.items ≡ length nexts.old.items }
    ensures chains { (chain : ℕ → List ℕ) × Chains (length heads.new.items) (slice_index heads.new.items) (slice_index nexts.new.items) (head_of (length heads.new.items)) (slice_index words.now.items) (on_upto count) chain }
{
    let places = heads.len();
    for slot in 3..count {
        let head = scatter(words[slot as usize], places);
        nexts[slot as usize] = heads[head];
        heads[head] = slot + 1;
    }
}

impl PlainTable {
    /// A table of so many variables and elements with so many slots, in which the permanent ones have their words: 5 and one for each variable at least. Both orders are 0, 1, 2, ..
    pub fn new(alloc: Global, vars: u32, elements: u32, limit: u32) -> Result<PlainTable, Memory>
        requires vars { vars ≤ MOST_VARIABLES }
        requires elements { elements ≤ MOST_ELEMENTS }
        requires least { 5 + vars ≤ limit }
        requires most { limit ≤ MOST_SLOTS }
        ensures own { IfOk result IsSeat }
        ensures idle { IfOk result (λ t. (known_of t).hand ≡ idle) }
        ensures sizes { IfOk result (λ t. ((known_of t).view.vars ≡ vars) × ((known_of t).view.elements ≡ elements) × ((known_of t).view.slots ≡ limit)) }
        ensures heads { IfOk result (λ t. IsHeadCount limit (known_of t).heads) }
        ensures words { IfOk result (λ t. (s : ℕ) → s < 5 + vars → slots_of t.core.words.items s ≡ Some (permanent_word s)) }
        ensures free { IfOk result (λ t. (s : ℕ) → 5 + vars ≤ s → slots_of t.core.words.items s ≡ None) }
        ensures fulls { IfOk result (λ t. ((known_of t).view.fulls ≡ 0) × ((known_of t).view.due ≡ None)) }
    {
        let mut words = vec![in alloc; 0u64; limit as usize]?;
        let mut nexts = vec![in alloc; 0u32; limit as usize]?;
        let mut heads = vec![in alloc; 0u32; head_count(limit) as usize]?;
        write_permanent(&mut words, vars);
        link_slots(&mut heads, &mut nexts, &words, FIRST_PROJECTION + vars);
        let memo = Memo::new(alloc, REMEMBERED)?;
        Ok(PlainTable {
            core: Core {
                alloc,
                vars,
                elements,
                limit,
                words,
                nexts,
                heads,
                first_free: FIRST_PROJECTION + vars,
                taken: None,
                loose: None,
                link: None,
                memo,
                fulls: 0,
                due: None,
                scratch: None,
            },
            turn: None,
            has_free: false,
            chain: None,
            has_memo: false,
            loads: 0,
        })
    }
}
