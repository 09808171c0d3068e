//! A table with what a store has.

ghost use Rattle.std.specs.Prelude.{◌≡◌, ℕ, ◌+◌, ◌<◌, ◌≤◌, ◌^◌, IfOk, List, [], length, replicate, slice_index, vec_capacity, Some, None};
ghost use Rattle.edge_bits.specs.Reading.{slots_of};
ghost use Rattle.function_laws.specs.Sizes.{in_order};
ghost use Rattle.handle_count.specs.CountWords.{count_of, generation_of};
ghost use Rattle.node_slots.specs.Held.{held_view};
ghost use Rattle.node_slots.specs.Stores.{count_at};
ghost use Rattle.step_store.specs.Plain.{IsHeadCount};
ghost use Rattle.hold_store.specs.Held.{idle};
ghost use Rattle.held_table.specs.Opened.{AreAllFree, AreLinked, opened_of};
ghost use Rattle.held_table.specs.Tables.{IsTable, known_of, view_of};

use crate::table::HeldTable;
use edge_bits::{FIRST_ELEMENT, Memory, scatter, unpack};
use node_slots::{HeldStore, PlainStore};
use node_store::{Order, Whole};
use std::alloc::Global;
use step_store::head_count;

/// The words of so many slots: 0 for each of which there is none.
fn copy_words(alloc: Global, words: &[u64], limit: u32) -> Result<Vec<u64>, Memory>
    ensures long { IfOk result (λ v. length v.items ≡ limit) }
    ensures words { IfOk result (λ v. (s : ℕ) → s < limit → slice_index v.items s ≡ slice_index words.now s) }
    ensures fits { IfOk result (λ v. (s : ℕ) → slice_index v.items s < 2 ^ 64) }
{
    let mut copy = vec![in alloc; 0u64; limit as usize]?;
    for slot in 0..limit as usize {
        if slot < words.len() {
            copy[slot] = words[slot];
        }
    }
    Ok(copy)
}

/// The count words of so many slots, each in its first generation.
fn copy_counts(alloc: Global, store: &PlainStore, limit: u32) -> Result<Vec<u64>, Memory>
    requires { limit ≤ length store.now.words }
    ensures long { IfOk result (λ v. length v.items ≡ limit) }
    ensures counts { IfOk result (λ v. (s : ℕ) → s < limit → slice_index v.items s ≡ count_at store.now s) }
{
    let mut counts = vec![in alloc; 0u64; limit as usize]?;
    for slot in 0..limit {
        counts[slot as usize] = store.count_of(slot) as u64;
    }
    Ok(counts)
}

/// What stands at a level of an order: a variable, or an element by its own number.
fn number_at(store: &mut HeldStore, order: Order, level: u32) -> u32
    requires { level < length (in_order (held_view store.old).orders order) }
    ensures same { (held_view store.new).orders ≡ (held_view store.old).orders }
    ensures number { result ≡ slice_index (in_order (held_view store.old).orders order) level }
{
    let var = store.var_of(order, level);
    match order {
        Order::Variables => var,
        Order::Elements => var - FIRST_ELEMENT,
    }
}

/// What stands at each level of an order.
fn copy_order(alloc: Global, store: &mut HeldStore, order: Order) -> Result<Vec<u32>, Memory>
    ensures same { (held_view store.new).orders ≡ (held_view store.old).orders }
    ensures order { IfOk result (λ v. v.items ≡ in_order (held_view store.old).orders order) }
{
    let levels = store.levels_of(order);
    let mut at = Vec::new(alloc);
    for level in 0..levels {
        at.push(number_at(store, order, level))?;
    }
    Ok(at)
}

/// Puts a slot on the chain of its word's head, if it has a word.
fn link_slot(heads: &mut Vec<u32>, nexts: &mut Vec<u32>, words: &Vec<u64>, slot: usize)
    requires some { 0 < length heads.old.items }
    requires few { length heads.old.items < 2 ^ 32 }
    requires high { 3 ≤ slot }
    requires within { slot < length words.now.items }
    requires words { length words.now.items < 2 ^ 23 }
    requires nexts { length nexts.old.items ≡ length words.now.items }
    requires before { AreLinked heads.old.items nexts.old.items words.now.items slot }
    ensures heads { length heads.new.items ≡ length heads.old.items }
    ensures nexts { length nexts.new.items ≡ length nexts.old.items }
    ensures chains { AreLinked heads.new.items nexts.new.items words.now.items (slot + 1) }
{
    let bits = words[slot];
    if unpack(bits).is_none() {
        return;
    }
    let head = scatter(bits, heads.len());
    nexts[slot] = heads[head];
    heads[head] = slot as u32 + 1;
}

/// Puts each slot with a word, from 3 on, on the chain of its head.
fn link_used(heads: &mut Vec<u32>, nexts: &mut Vec<u32>, words: &Vec<u64>)
    requires some { 0 < length heads.old.items }
    requires few { length heads.old.items < 2 ^ 32 }
    requires least { 3 ≤ length words.now.items }
    requires words { length words.now.items < 2 ^ 23 }
    requires nexts { length nexts.old.items ≡ length words.now.items }
    requires zero { (h : ℕ) → slice_index heads.old.items h ≡ 0 }
    ensures heads { length heads.new.items ≡ length heads.old.items }
    ensures nexts { length nexts.new.items ≡ length nexts.old.items }
    ensures chains { AreLinked heads.new.items nexts.new.items words.now.items (length words.now.items) }
{
    for slot in 3..words.len() {
        link_slot(heads, nexts, words, slot);
    }
}

/// Puts a slot on the free list, if it has no word.
fn list_slot(freed: &mut Vec<u32>, words: &Vec<u64>, slot: usize)
    requires within { slot < length words.now.items }
    requires few { length words.now.items < 2 ^ 23 }
    requires room { length words.now.items ≤ vec_capacity freed.old }
    requires before { AreAllFree words.now.items slot freed.old.items }
    ensures free { AreAllFree words.now.items (slot + 1) freed.new.items }
    ensures room { vec_capacity freed.new ≡ vec_capacity freed.old }
{
    if unpack(words[slot]).is_some() {
        return;
    }
    freed.push_reserved(slot as u32);
}

/// Lists the slots without a word.
fn list_free(freed: &mut Vec<u32>, words: &Vec<u64>)
    requires none { freed.old.items ≡ [] }
    requires few { length words.now.items < 2 ^ 23 }
    requires room { length words.now.items ≤ vec_capacity freed.old }
    ensures free { AreAllFree words.now.items (length words.now.items) freed.new.items }
    ensures room { vec_capacity freed.new ≡ vec_capacity freed.old }
{
    for slot in 0..words.len() {
        list_slot(freed, words, slot);
    }
}

/// The links of all words, and the heads of their chains.
struct Chained {
    nexts: Vec<u32>,
    heads: Vec<u32>,
}

/// The links and the heads, with each slot that has a word, from 3 on, on the chain of its head.
fn chains_of(alloc: Global, words: &Vec<u64>) -> Result<Chained, Memory>
    requires least { 3 ≤ length words.now.items }
    requires few { length words.now.items < 2 ^ 23 }
    ensures nexts { IfOk result (λ made. length made.nexts.items ≡ length words.now.items) }
    ensures heads { IfOk result (λ made. IsHeadCount (length words.now.items) (length made.heads.items)) }
    ensures chains { IfOk result (λ made. AreLinked made.heads.items made.nexts.items words.now.items (length words.now.items)) }
{
    let limit = words.len();
    let mut nexts = vec![in alloc; 0u32; limit]?;
    let mut heads = vec![in alloc; 0u32; head_count(limit as u32) as usize]?;
    link_used(&mut heads, &mut nexts, words);
    Ok(Chained { nexts, heads })
}

/// The slots without a word, with room for all.
fn freed_of(alloc: Global, words: &Vec<u64>) -> Result<Vec<u32>, Memory>
    requires { length words.now.items < 2 ^ 23 }
    ensures free { IfOk result (λ v. AreAllFree words.now.items (length words.now.items) v.items) }
    ensures room { IfOk result (λ v. length words.now.items ≤ vec_capacity v) }
{
    let mut freed = Vec::with_capacity(alloc, words.len())?;
    list_free(&mut freed, words);
    Ok(freed)
}

/// The words of all slots, those of them that are free, the links, and the heads of the chains.
#[derive(Drop)]
struct Laid {
    words: Vec<u64>,
    freed: Vec<u32>,
    nexts: Vec<u32>,
    heads: Vec<u32>,
}

/// A store's words, each on its chain or in its free slot.
fn lay_words(alloc: Global, words: &[u64], limit: u32) -> Result<Laid, Memory>
    requires least { 3 ≤ limit }
    requires few { limit < 2 ^ 23 }
    ensures long { IfOk result (λ made. (length made.words.items ≡ limit) × (length made.nexts.items ≡ limit)) }
    ensures words { IfOk result (λ made. (s : ℕ) → s < limit → slice_index made.words.items s ≡ slice_index words.now s) }
    ensures fits { IfOk result (λ made. (s : ℕ) → slice_index made.words.items s < 2 ^ 64) }
    ensures free { IfOk result (λ made. AreAllFree made.words.items limit made.freed.items) }
    ensures room { IfOk result (λ made. limit ≤ vec_capacity made.freed) }
    ensures heads { IfOk result (λ made. IsHeadCount limit (length made.heads.items)) }
    ensures chains { IfOk result (λ made. AreLinked made.heads.items made.nexts.items made.words.items limit) }
{
    let words = copy_words(alloc, words, limit)?;
    let freed = freed_of(alloc, &words)?;
    let Chained { nexts, heads } = chains_of(alloc, &words)?;
    Ok(Laid {
        words,
        freed,
        nexts,
        heads,
    })
}

/// The count words and the pins of a store's table.
#[derive(Drop)]
struct Counted {
    counts: Vec<u64>,
    pins: Vec<u32>,
}

/// The counts, with no pin.
fn count_slots(alloc: Global, store: &PlainStore, limit: u32) -> Result<Counted, Memory>
    requires { limit ≤ length store.now.words }
    ensures long { IfOk result (λ made. (length made.counts.items ≡ limit) × (length made.pins.items ≡ limit)) }
    ensures counts { IfOk result (λ made. (s : ℕ) → s < limit → slice_index made.counts.items s ≡ count_at store.now s) }
    ensures pins { IfOk result (λ made. (s : ℕ) → slice_index made.pins.items s ≡ 0) }
{
    let counts = copy_counts(alloc, store, limit)?;
    let pins = vec![in alloc; 0u32; limit as usize]?;
    Ok(Counted { counts, pins })
}

/// Both orders of a store.
struct BothOrders {
    variables_at: Vec<u32>,
    elements_at: Vec<u32>,
}

/// The orders, where the store itself is not asked for any more.
fn orders_of(alloc: Global, store: PlainStore) -> Result<BothOrders, Memory>
    ensures variables { IfOk result (λ made. made.variables_at.items ≡ store.variables_at) }
    ensures elements { IfOk result (λ made. made.elements_at.items ≡ store.elements_at) }
{
    let mut held = store.hold();
    let variables_at = copy_order(alloc, &mut held, Order::Variables)?;
    let elements_at = copy_order(alloc, &mut held, Order::Elements)?;
    Ok(BothOrders {
        variables_at,
        elements_at,
    })
}

impl HeldTable {
    /// A table with the words, the counts and both orders of a store: what an edge denotes there it denotes here. No slot is pinned, each is in its first generation, and nothing is in hand.
    pub fn of_store(alloc: Global, store: PlainStore) -> Result<HeldTable, Memory>
        ensures own { IfOk result IsTable }
        ensures idle { IfOk result (λ t. (known_of t).hand ≡ idle) }
        ensures content { IfOk result (λ t. view_of t ≡ opened_of store) }
    {
        let limit = store.limit();
        let laid = lay_words(alloc, store.words(), limit)?;
        let counted = count_slots(alloc, &store, limit)?;
        let orders = orders_of(alloc, store)?;
        let Laid {
            words,
            freed,
            nexts,
            heads,
        } = laid;
        let Counted { counts, pins } = counted;
        let BothOrders {
            variables_at,
            elements_at,
        } = orders;
        Ok(HeldTable {
            limit,
            variables_at,
            elements_at,
            words,
            nexts,
            heads,
            counts,
            pins,
            next_free: limit,
            freed,
            half: None,
            answers: true,
            turns: 0,
            has_free: false,
            has_memo: false,
            loose: None,
            renewed: None,
            link: None,
            walk: None,
            due: None,
        })
    }
}
