//! A new table.
ghost use Rattle.std.specs.Prelude.{◌≡◌, ◌⊎◌, ℕ, ◌+◌, ◌^◌, ◌<◌, ◌≤◌, List, length, replicate, slice_index, IfOk, Some, None};
ghost use Rattle.computed_cache.specs.Entries.{kept_at, places as answer_places};
ghost use Rattle.edge_bits.specs.Words.{IsInRange, unpack_of};
ghost use Rattle.edge_bits.specs.declared.limits.TheConstants.{CELLS};
ghost use Rattle.edge_bits.specs.declared.permanent.TheConstants.{FIRST_ELEMENT};
ghost use Rattle.function_laws.specs.EntryOrders.{opening_orders};
ghost use Rattle.words_rule.specs.Views.{closing_of, sizes_for};
ghost use Rattle.words_rule.specs.Layout.{Shape, entry_at, head_bits, heads, node_at, order_at, places, word_count, words_of};
ghost use Rattle.words_rule.specs.Shapes.{shape_by};
ghost use Rattle.words_rule.specs.Openings.{AreFree, opening_on, opening_word, shape_of};
ghost use Rattle.words_rule.specs.Beginnings.{AreFirst, AreLinked, HasNodes, HasOrders, IsEmpty};
ghost use Rattle.words_rule.specs.Closings.{IsClosingOf, known};

use crate::closing::Closing;
use crate::content::Content;
use crate::layout::turn;
use crate::seat::Guard;
use crate::sizes::Sizes;
use crate::view::Opening;
use atomic_table::Table;
use edge_bits::{
    CELLS, Edge, FIRST_ELEMENT, FIRST_PROJECTION, MOST_SLOTS, Node, TRUE_SLOT, Word, pack, scatter,
};
use std::alloc::{AllocError, Global};

/// The least number of heads, and how often it is doubled at most.
const LEAST_HEADS: u32 = 64;

const DOUBLINGS: u32 = 18;

/// How many heads there are for so many slots.
fn head_count(slots: u32) -> u32
    requires { slots ≤ MOST_SLOTS }
    ensures { result ≡ 2 ^ head_bits 18 slots }
{
    let mut count = LEAST_HEADS;
    for _round in 0..DOUBLINGS {
        if count * 2 < slots {
            count *= 2;
        }
    }
    count
}

/// The sizes of a table to be opened.
fn sizes_of(key: &Opening) -> Sizes
    requires { key.now.slots ≤ MOST_SLOTS }
    ensures shape { shape_by result ≡ shape_of key.now }
    ensures heads { result.heads ≡ heads (shape_by result) }
{
    Sizes::new(key.vars, key.elements, key.slots, head_count(key.slots))
}

/// Writes 0, 1, 2, .. from a word on.
fn number_from(words: &mut Vec<u64>, first: usize, count: u32)
    requires within { first + count ≤ length words.old.items }
    ensures length { length words.new.items ≡ length words.old.items }
    ensures numbered { (k : ℕ) → k < count → slice_index words.new.items (first + k) ≡ k }
    ensures others { (i : ℕ) → (i < first) ⊎ (first + count ≤ i) → slice_index words.new.items i ≡ slice_index words.old.items i }
{
    for number in 0..count {
        words[first + number as usize] = u64::from(number);
    }
}

/// Writes both orders, and behind them the levels in them.
fn write_orders(words: &mut Vec<u64>, sizes: &Sizes)
    requires long { length words.old.items ≡ word_count (shape_by sizes.now) }
    requires few { (sizes.now.vars ≤ FIRST_ELEMENT) × (sizes.now.elements ≤ FIRST_ELEMENT) }
    requires empty { (i : ℕ) → slice_index words.old.items i ≡ 0 }
    ensures long { length words.new.items ≡ length words.old.items }
    ensures orders { HasOrders (shape_by sizes.now) words.new.items }
    ensures empty { IsEmpty (shape_by sizes.now) words.new.items }
{
    let vars = sizes.vars as usize;
    let elements = sizes.elements as usize;
    let first = turn(sizes.vars + sizes.elements) + 1;
    number_from(words, first, sizes.vars);
    number_from(words, first + vars, sizes.elements);
    number_from(words, first + vars + elements, sizes.vars);
    number_from(words, first + vars + elements + vars, sizes.elements);
}

/// The word of a slot that is told by its number.
fn permanent(slot: u32, vars: u32) -> Word
    requires few { vars ≤ FIRST_ELEMENT }
    requires within { slot < FIRST_PROJECTION + vars }
    ensures word { opening_word vars slot ≡ Some result }
    ensures range { IsInRange result }
{
    match slot {
        0 | 2 | 4 => Word::Leaf(1),
        1 | 3 => Word::Leaf(0),
        _ => Word::Inner(Node {
            var: (slot - FIRST_PROJECTION) as u16,
            hi: TRUE_SLOT,
            lo: Edge::truth(false),
        }),
    }
}

/// Writes the words of the slots that are told by their number.
fn write_nodes(words: &mut Vec<u64>, sizes: &Sizes)
    requires long { length words.old.items ≡ word_count (shape_by sizes.now) }
    requires few { sizes.now.vars ≤ FIRST_ELEMENT }
    requires room { FIRST_PROJECTION + sizes.now.vars ≤ sizes.now.slots }
    requires empty { (s : ℕ) → (words_of (shape_by sizes.now) words.old.items).node s ≡ 0 }
    ensures long { length words.new.items ≡ length words.old.items }
    ensures nodes { HasNodes (shape_by sizes.now) words.old.items words.new.items }
{
    for slot in 0..FIRST_PROJECTION + sizes.vars {
        let word = sizes.node(slot);
        words[word] = pack(permanent(slot, sizes.vars));
    }
}

/// Puts the slots from 3 on that are told by their number on the chains of their words.
fn link_nodes(words: &mut Vec<u64>, sizes: &Sizes)
    requires long { length words.old.items ≡ word_count (shape_by sizes.now) }
    requires room { FIRST_PROJECTION + sizes.now.vars ≤ sizes.now.slots }
    requires few { sizes.now.slots ≤ MOST_SLOTS }
    requires heads { sizes.now.heads ≡ heads (shape_by sizes.now) }
    requires empty { (h : ℕ) → (words_of (shape_by sizes.now) words.old.items).head h ≡ 0 }
    ensures long { length words.new.items ≡ length words.old.items }
    ensures linked { AreLinked (shape_by sizes.now) words.old.items words.new.items (opening_on sizes.now.vars) }
{
    for slot in 3..FIRST_PROJECTION + sizes.vars {
        let node = sizes.node(slot);
        let next = sizes.next(slot);
        let place = scatter(words[node], sizes.heads as usize);
        let head = sizes.head(place as u32);
        words[next] = words[head];
        words[head] = u64::from(slot) + 1;
    }
}

/// The words of a table to be opened.
fn first_words(alloc: Global, sizes: &Sizes) -> Result<Vec<u64>, AllocError>
    requires few { (sizes.now.vars ≤ FIRST_ELEMENT) × (sizes.now.elements ≤ FIRST_ELEMENT) × (sizes.now.slots ≤ MOST_SLOTS) }
    requires room { FIRST_PROJECTION + sizes.now.vars ≤ sizes.now.slots }
    requires heads { sizes.now.heads ≡ heads (shape_by sizes.now) }
    ensures long { IfOk result (λ w. length w.items ≡ word_count (shape_by sizes.now)) }
    ensures first { IfOk result (λ w. AreFirst (shape_by sizes.now) (words_of (shape_by sizes.now) w.items)) }
{
    let mut words = vec![in alloc; 0u64; sizes.head(sizes.heads)]?;
    write_orders(&mut words, sizes);
    write_nodes(&mut words, sizes);
    link_nodes(&mut words, sizes);
    Ok(words)
}

impl<S: Content + Drop> Guard<S> {
    /// A new table over an empty board, a list of the free slots and a computed table without answers, with the closing seat.
    pub fn open(
        alloc: Global,
        board: S,
        free: S,
        answers: S,
        key: &Opening,
    ) -> Result<(Guard<S>, Closing<S>), AllocError>
        requires few { (key.now.vars ≤ FIRST_ELEMENT) × (key.now.elements ≤ FIRST_ELEMENT) × (key.now.slots ≤ MOST_SLOTS) }
        requires room { FIRST_PROJECTION + key.now.vars ≤ key.now.slots }
        requires cells { S.board board ≡ replicate CELLS None }
        requires free { AreFree (shape_of key.now) (S.free_slots free).slots }
        requires roomy { (S.free_slots free).room ≡ key.now.slots }
        requires places { 0 < answer_places (S.memo answers) }
        requires blank { (i : ℕ) → kept_at (S.memo answers) i ≡ None }
        ensures { IfOk result (λ r. IsClosingOf r.0 r.1 × (known r.1 ≡ closing_of key.now)) }
    {
        let sizes = sizes_of(key);
        let mut slots = Vec::new(alloc);
        slots.push(Some(board))?;
        slots.push(Some(free))?;
        slots.push(Some(answers))?;
        let words = first_words(alloc, &sizes)?;
        let Ok((table, seat)) = Table::new(alloc, words.as_slice(), slots, key) else {
            return Err(AllocError);
        };
        let guard = Guard { table };
        let closing = Closing {
            seat,
            sizes,
            given: 0,
        };
        Ok((guard, closing))
    }
}
