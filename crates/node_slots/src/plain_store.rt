//! A store of diagrams in one vector of words, with one unique table for all nodes and leaves.

ghost use Rattle.std.specs.Prelude.{◌≡◌, ℕ, ◌+◌, ◌-◌, ◌<◌, ◌≤◌, ◌^◌, ◌↔◌, ◌⊎◌, min, IfOk, IfSome, IfNone, IsErrOf, IsOkAnd, IsTrue, OnOk, length, slice_index, MatchBool, ◌≢◌, Some, None, true, false};
ghost use Rattle.std.specs.List.{range_with_len};
ghost use Rattle.edge_bits.specs.Permanent.{first_projection};
ghost use Rattle.edge_bits.specs.Reading.{slots_of};
ghost use Rattle.edge_bits.specs.Words.{IsInRange, unpack_of};
ghost use Rattle.handle_count.specs.CountWords.{count_of, generation_of};
ghost use Rattle.node_slots.specs.Placing.{IsChild, HasNoChild};
ghost use Rattle.node_store.specs.Contents.{opened_of};

use crate::count_table::CountTable;
use crate::held_store::HeldStore;
use crate::node_table::{NodeTable, pack};
use computed_cache::Memo;
use edge_bits::{
    EMPTY_SLOT, Edge, FIRST_ELEMENT, FIRST_PROJECTION, Kind, MOST_ELEMENTS, MOST_SLOTS,
    MOST_VARIABLES, Memory, Node, Word, unpack,
};
use handle_count::{lower, next_generation, raise};
use held_slots::SlotNotes;
use node_store::binary::flip_if;
use node_store::{Grow, Key, Opened, Stack, Stop};
use std::alloc::Global;
use std::marker::Model;

/// The arguments of a call that was refused.
#[derive(Clone, Copy, PartialEq, Eq, Drop)]
pub enum Refused {
    Node(u32, Edge, Edge),
    Leaf(i64),
}

/// As many answers as every store remembers across operations.
const LEAST_REMEMBERED: u32 = 65_536;

/// As many as one remembers at most.
const MOST_REMEMBERED: u32 = 1_048_576;

/// The number of answers that a store with so many slots remembers across operations: the least power of two that is not below them, but
/// 65,536 at least and 1,048,576 at most.
fn remembered(slots: u32) -> u32
    ensures { LEAST_REMEMBERED ≤ result }
{
    slots
        .min(MOST_REMEMBERED)
        .max(LEAST_REMEMBERED)
        .next_power_of_two()
}

/// A store in one vector of words. It finds a node or a leaf by its word in one unique table, and remembers answers of operations in a computed table.
#[derive(Drop)]
pub struct PlainStore {
    alloc: Global,
    variable_levels: Vec<u32>,
    element_levels: Vec<u32>,
    variables_at: Vec<u32>,
    elements_at: Vec<u32>,
    nodes: NodeTable,
    counts: CountTable,
    notes: SlotNotes,
    sweeping: bool,
    fulls: u64,
    due: Option<Refused>,
    memo: Memo,
    scratch: Option<Stack>,
}

impl Model for PlainStore {
    ghost use Rattle.node_slots.specs.Stores.{Plain, IsStore, lent_room};

    ghost Value = { Plain };

    ghost view = { λ s. record { variable_levels = s.variable_levels.items; element_levels = s.element_levels.items; variables_at = s.variables_at.items; elements_at = s.elements_at.items; words = s.nodes; counts = s.counts; marks = s.notes.marks; pins = s.notes.pins; sweeping = s.sweeping; fulls = s.fulls; due = s.due; memo = s.memo; scratch_room = lent_room s.scratch } };

    ghost invariant = { λ s. IsStore (record { variable_levels = s.variable_levels.items; element_levels = s.element_levels.items; variables_at = s.variables_at.items; elements_at = s.elements_at.items; words = s.nodes; counts = s.counts; marks = s.notes.marks; pins = s.notes.pins; sweeping = s.sweeping; fulls = s.fulls; due = s.due; memo = s.memo; scratch_room = lent_room s.scratch }) };
}

/// The child that a node would be, if it would be one.
pub(crate) fn only_child(var: u32, hi: Edge, lo: Edge) -> Option<Edge>
    ensures child { IfSome result (IsChild var hi lo) }
    ensures none { IfNone result (HasNoChild var hi lo) }
{
    if var < FIRST_ELEMENT {
        if hi == lo { Some(hi) } else { None }
    } else if hi.index() == EMPTY_SLOT {
        Some(lo)
    } else {
        None
    }
}

/// A word, with the complement of the edge to it pushed to both children.
pub(crate) fn opened(word: Word, complement: bool) -> Opened
    requires { IsInRange word }
    ensures { result ≡ opened_of word complement }
{
    match word {
        Word::Leaf(value) => Opened::Leaf(if complement { 0 } else { value }),
        Word::Inner(node) => {
            let hi = Edge::new(node.hi, false);
            Opened::Inner(
                node.var as u32,
                flip_if(hi, complement),
                flip_if(node.lo, complement),
            )
        }
    }
}

/// One more, or the same at the end of its type.
fn risen(fulls: u64) -> u64
    ensures capped { result ≡ min (fulls + 1) (2 ^ 64 - 1) }
    ensures least { fulls ≤ result }
    ensures more { result + 1 < 2 ^ 64 → fulls < result }
{
    fulls.saturating_add(1)
}

impl Grow for PlainStore {
    ghost use Rattle.edge_bits.specs.declared.edges.Kind.{Kind};
    ghost use Rattle.edge_bits.specs.declared.edges.Kind.TheVariants.{Add};
    ghost use Rattle.edge_bits.specs.Words.{IsLeafValue};
    ghost use Rattle.function_laws.specs.Values.{constant};
    ghost use Rattle.function_laws.specs.Kinds.{function_of, AddFunction};
    ghost use Rattle.computed_cache.specs.Entries.{kept_at, place_of, places};
    ghost use Rattle.node_store.specs.Memo.{MemoHolds};
    ghost use Rattle.node_store.specs.Views.{Denotes, Grown, IsKey, Kept, Rose, CanMake, node_values};
    ghost use Rattle.node_slots.specs.Stores.{HasNoFree, IsUnknown, plain_view};
    ghost use Rattle.node_slots.specs.Placing.{IsUnknownNode};

    ghost view = { plain_view };

    fn levels(&mut self, kind: Kind) -> u32 {
        match kind {
            Kind::Bdd => self.variable_levels.len() as u32,
            Kind::Add => self.variable_levels.len() as u32,
            Kind::Zdd => self.element_levels.len() as u32,
        }
    }

    fn open(&mut self, edge: Edge) -> Opened {
        match unpack(self.nodes.word(edge.index())) {
            Some(word) => opened(word, edge.complement()),
            None => unreachable!(),
        }
    }

    /// The edge of a node, which is stored if it is not there: Full exactly where no edge denotes its function and each slot has a word.
    fn make(&mut self, var: u32, hi: Edge, lo: Edge) -> Result<Edge, Stop>
        requires { (k : Kind) × CanMake k (plain_view self.old) var hi lo }
        ensures grown { Grown (plain_view self.old) (plain_view self.new) }
        ensures room { (plain_view self.new).room ≡ (plain_view self.old).room }
        ensures ok { (k : Kind) → CanMake k (plain_view self.old) var hi lo → IfOk result (λ e. Denotes k (plain_view self.new) e (node_values k (plain_view self.old) var hi lo)) }
        ensures made { (s : ℕ) → (plain_view self.new).made s ≡ true → ((plain_view self.old).made s ≡ true) ⊎ IsOkAnd result (λ e. e.index ≡ s) }
        ensures memory { IsErrOf result Stop.Memory → (plain_view self.old).may_want_memory ≡ true }
        ensures full { IsErrOf result Stop.Full → Rose (plain_view self.old) (plain_view self.new) }
        ensures due { IsErrOf result Stop.Full → (k : Kind) → CanMake k (plain_view self.old) var hi lo → (plain_view self.new).due ≡ Some (function_of k (node_values k (plain_view self.old) var hi lo)) }
        ensures still_due { OnOk result ((plain_view self.new).due ≡ (plain_view self.old).due) }
        ensures exactly { IsErrOf result Stop.Full ↔ (IsUnknownNode self.old var hi lo × HasNoFree self.old) }
        ensures counted { IsErrOf result Stop.Full → (plain_view self.new).fulls ≡ min ((plain_view self.old).fulls + 1) (2 ^ 64 - 1) }
        ensures uncounted { OnOk result ((plain_view self.new).fulls ≡ (plain_view self.old).fulls) }
    {
        let fulls = self.fulls;
        if let Some(child) = only_child(var, hi, lo) {
            return Ok(child);
        }
        let word = Word::Inner(Node {
            var: var as u16,
            hi: hi.index(),
            lo: flip_if(lo, hi.complement()),
        });
        match self.nodes.place(pack(&word), word) {
            Some(slot) => Ok(Edge::new(slot, hi.complement())),
            None => {
                self.fulls = risen(fulls);
                self.due = Some(Refused::Node(var, hi, lo));
                Err(Stop::Full)
            }
        }
    }

    /// The edge of a number's leaf, which is stored if it is not there: Full exactly where no edge denotes the number and each slot has a word.
    fn leaf(&mut self, value: i64) -> Result<Edge, Stop>
        requires { IsLeafValue value }
        ensures grown { Grown (plain_view self.old) (plain_view self.new) }
        ensures room { (plain_view self.new).room ≡ (plain_view self.old).room }
        ensures ok { IfOk result (λ e. Denotes Add (plain_view self.new) e (constant value)) }
        ensures made { (s : ℕ) → (plain_view self.new).made s ≡ true → ((plain_view self.old).made s ≡ true) ⊎ IsOkAnd result (λ e. e.index ≡ s) }
        ensures memory { IsErrOf result Stop.Memory → (plain_view self.old).may_want_memory ≡ true }
        ensures full { IsErrOf result Stop.Full → Rose (plain_view self.old) (plain_view self.new) }
        ensures due { IsErrOf result Stop.Full → (plain_view self.new).due ≡ Some (function_of Add (constant value)) }
        ensures still_due { OnOk result ((plain_view self.new).due ≡ (plain_view self.old).due) }
        ensures exactly { IsErrOf result Stop.Full ↔ (IsUnknown self.old (AddFunction (constant value)) × HasNoFree self.old) }
        ensures counted { IsErrOf result Stop.Full → (plain_view self.new).fulls ≡ min ((plain_view self.old).fulls + 1) (2 ^ 64 - 1) }
        ensures uncounted { OnOk result ((plain_view self.new).fulls ≡ (plain_view self.old).fulls) }
    {
        let word = Word::Leaf(value);
        match self.nodes.place(pack(&word), word) {
            Some(slot) => Ok(Edge::new(slot, false)),
            None => {
                self.fulls = risen(self.fulls);
                self.due = Some(Refused::Leaf(value));
                Err(Stop::Full)
            }
        }
    }

    fn level(&mut self, var: u32) -> u32 {
        if var < FIRST_ELEMENT {
            self.variable_levels[var as usize]
        } else {
            self.element_levels[(var - FIRST_ELEMENT) as usize]
        }
    }

    fn projection(&mut self, var: u32) -> Edge {
        prove!((var as usize) < self.variable_levels.len());
        Edge::new(FIRST_PROJECTION + var, false)
    }

    /// The answer that is kept under the key. None where the entry at its place has another key, or there is none.
    fn memo_get(&mut self, key: &Key) -> Option<Edge>
        requires { IsKey (plain_view self.old) key.now }
        ensures kept { Kept (plain_view self.old) (plain_view self.new) }
        ensures room { (plain_view self.new).room ≡ (plain_view self.old).room }
        ensures hit { IfSome result (λ e. MemoHolds (plain_view self.new) key.now e) }
        ensures some { IfSome result (λ e. kept_at self.old.memo (place_of key.now (places self.old.memo)) ≡ Some (record { key = key.now; edge = e })) }
        ensures none { IfNone result ((e : Edge) → kept_at self.old.memo (place_of key.now (places self.old.memo)) ≡ Some (record { key = key.now; edge = e }) → ⊥) }
        ensures same { self.new ≡ self.old }
    {
        self.memo.get(key)
    }

    /// Keeps an answer under its key: the key's place has it then, and no other entry changes.
    fn memo_put(&mut self, key: Key, edge: Edge)
        requires key { IsKey (plain_view self.old) key }
        requires holds { MemoHolds (plain_view self.old) key edge }
        ensures kept { Kept (plain_view self.old) (plain_view self.new) }
        ensures room { (plain_view self.new).room ≡ (plain_view self.old).room }
        ensures put { kept_at self.new.memo (place_of key (places self.old.memo)) ≡ Some (record { key = key; edge = edge }) }
        ensures others { (i : ℕ) → (i ≡ place_of key (places self.old.memo) → ⊥) → kept_at self.new.memo i ≡ kept_at self.old.memo i }
        ensures places { places self.new.memo ≡ places self.old.memo }
        ensures rest { self.new ≡ record self.old { memo = self.new.memo } }
    {
        self.memo.put(key, edge);
    }

    fn take_scratch(&mut self) -> Stack {
        match self.scratch.take() {
            Some(mut stack) => {
                stack.truncate(0);
                stack
            }
            None => Stack::new(self.alloc),
        }
    }

    fn give_scratch(&mut self, stack: Stack) {
        self.scratch = Some(stack);
    }
}

/// The order 0, 1, 2, ..
fn ascending(alloc: Global, count: u32) -> Result<Vec<u32>, Memory>
    ensures { IfOk result (λ levels. levels.items ≡ range_with_len 0 count) }
{
    let mut levels = Vec::new(alloc);
    for level in 0..count {
        levels.push(level)?;
    }
    Ok(levels)
}

impl PlainStore {
    ghost use Rattle.edge_bits.specs.declared.edges.Kind.{Kind};
    ghost use Rattle.std.specs.Prelude.{Bool, ℤ};
    ghost use Rattle.edge_bits.specs.declared.edges.Edge.{Edge};
    ghost use Rattle.edge_bits.specs.declared.edges.Kind.TheVariants.{Bdd, Add, Zdd};
    ghost use Rattle.edge_bits.specs.Reading.{DenotesBdd, DenotesAdd, DenotesZdd};
    ghost use Rattle.node_store.specs.Views.{AreTwo, Denotes, IsVariable, values_at};
    ghost use Rattle.function_laws.specs.Kinds.{Denoted};
    ghost use Rattle.computed_cache.specs.Entries.{kept_at, places};
    ghost use Rattle.node_store.specs.Contents.{IsSound, is_leaf, is_node_of as is_node_in, nodes_of as nodes_at, used_slots};
    ghost use Rattle.node_store.specs.Changes.{IsLeastFrom, with_mark, with_pin};
    ghost use Rattle.node_slots.specs.Stores.{IsStore, plain_view, count_at, generation_at, in_use, is_set, slots, IsOpening, IsUnknown};
    ghost use Rattle.node_slots.specs.Wholes.{content_view};
    ghost use Rattle.node_slots.specs.Held.{held_view};
    ghost use Rattle.node_slots.specs.Counts.{IsFreed, IsRecounted, IsUnnamed};
    ghost use Rattle.node_slots.specs.Taking.{nodes_of};

    /// A store of so many variables and elements, at most `MOST_VARIABLES` and `MOST_ELEMENTS`, with so many slots: 5 and one for each variable at least, `MOST_SLOTS` at most. Both orders are 0, 1, 2, .. It remembers as many answers as suit its slots.
    pub fn new(alloc: Global, vars: u32, elements: u32, limit: u32) -> Result<PlainStore, Memory>
        requires vars { vars ≤ MOST_VARIABLES }
        requires elements { elements ≤ MOST_ELEMENTS }
        requires least { 5 + vars ≤ limit }
        requires most { limit ≤ MOST_SLOTS }
        ensures { IfOk result (IsOpening vars elements limit) }
    {
        PlainStore::remembering(alloc, vars, elements, limit, remembered(limit))
    }

    /// A store as `new` makes it that has room for so many answers of operations, at least one.
    pub fn remembering(
        alloc: Global,
        vars: u32,
        elements: u32,
        limit: u32,
        entries: u32,
    ) -> Result<PlainStore, Memory>
        requires vars { vars ≤ MOST_VARIABLES }
        requires elements { elements ≤ MOST_ELEMENTS }
        requires least { 5 + vars ≤ limit }
        requires most { limit ≤ MOST_SLOTS }
        requires entries { 0 < entries }
        ensures opening { IfOk result (IsOpening vars elements limit) }
        ensures remembers { IfOk result (λ s. places s.memo ≡ entries) }
    {
        let variable_levels = ascending(alloc, vars)?;
        let element_levels = ascending(alloc, elements)?;
        let variables_at = ascending(alloc, vars)?;
        let elements_at = ascending(alloc, elements)?;
        let nodes = NodeTable::new(alloc, vars, limit)?;
        let counts = CountTable::new(alloc, limit)?;
        let notes = SlotNotes::new(alloc, limit)?;
        let memo = Memo::new(alloc, entries)?;
        Ok(PlainStore {
            alloc,
            variable_levels,
            element_levels,
            variables_at,
            elements_at,
            nodes,
            counts,
            notes,
            sweeping: false,
            fulls: 0,
            due: None,
            memo,
            scratch: None,
        })
    }

    /// The number of variables.
    pub fn vars(&self) -> u32
        ensures vars { result ≡ (plain_view self.now).vars }
        ensures few { result ≤ MOST_VARIABLES }
    {
        self.variable_levels.len() as u32
    }

    /// The variable at a level of the order of the variables.
    pub fn var_at(&self, level: u32) -> u32
        requires { level < (plain_view self.now).vars }
        ensures in_range { IsVariable Bdd (plain_view self.now) result }
        ensures level { (plain_view self.now).level result ≡ level }
    {
        self.variables_at[level as usize]
    }

    /// The number of slots. Between two calls the store is sound, as a holder knows it.
    pub fn limit(&self) -> u32
        ensures limit { result ≡ length self.now.words }
        ensures store { IsStore self.now }
        ensures sound { IsSound (content_view self.now) }
    {
        self.nodes.limit()
    }

    /// Tells that the store is sound, as it is between two calls. It does no work.
    #[inline]
    pub fn tell_sound(&self)
        ensures store { IsStore self.now }
        ensures sound { IsSound (content_view self.now) }
    {
        // The words make it so.
        let _ = &self.nodes;
    }

    /// The words of all slots up to the last that was ever in use, out of which the function of an edge is read.
    pub fn words(&self) -> &[u64]
        ensures words { (s : ℕ) → slots_of result.now s ≡ slots self.now s }
        ensures bdd { (e : Edge) (f : ℕ → Bool) → Denotes Bdd (plain_view self.now) e f → DenotesBdd (plain_view self.now).vars (slots_of result.now) e f }
        ensures add { (e : Edge) (f : ℕ → ℤ) → Denotes Add (plain_view self.now) e f → DenotesAdd (plain_view self.now).vars (slots_of result.now) e f }
        ensures zdd { (e : Edge) (p : ℕ → Bool) → Denotes Zdd (plain_view self.now) e p → DenotesZdd (plain_view self.now).elements (slots_of result.now) e p }
    {
        self.nodes.words()
    }

    /// The number of slots that have a word: all, where a function was refused and nothing was freed since, and then no slot has that function.
    pub fn in_use(&self) -> u32
        ensures count { result ≡ in_use self.now }
        ensures of_holder { result ≡ used_slots (content_view self.now) }
        ensures full { (f : Denoted) → (plain_view self.now).due ≡ Some f → result ≡ length self.now.words }
        ensures missing { (f : Denoted) → (plain_view self.now).due ≡ Some f → IsUnknown self.now f }
    {
        self.nodes.in_use() as u32
    }

    /// How many rows and cells hold a slot. A pin is not counted.
    pub fn count_of(&self, slot: u32) -> u32
        ensures { result ≡ count_at self.now slot }
    {
        (self.counts.word(slot) % (1 << 32)) as u32
    }

    /// One more row or cell holds the slot, which has a word.
    pub fn raise(&mut self, slot: u32)
        requires used { slots self.old slot ≡ None → ⊥ }
        requires few { count_at self.old slot + 1 < 2 ^ 32 - 1 }
        ensures count { count_at self.new slot ≡ count_at self.old slot + 1 }
        ensures generation { generation_at self.new slot ≡ generation_at self.old slot }
        ensures rest { IsRecounted self.old slot self.new }
    {
        let word = self.counts.word(slot);
        self.counts.write(slot, raise(word));
    }

    /// One row or cell less holds the slot, which has a word.
    pub fn lower(&mut self, slot: u32)
        requires used { slots self.old slot ≡ None → ⊥ }
        requires some { 0 < count_at self.old slot }
        ensures count { count_at self.new slot + 1 ≡ count_at self.old slot }
        ensures generation { generation_at self.new slot ≡ generation_at self.old slot }
        ensures rest { IsRecounted self.old slot self.new }
    {
        let word = self.counts.word(slot);
        self.counts.write(slot, lower(word));
    }

    /// Whether a slot is pinned.
    pub fn is_pinned(&self, slot: u32) -> bool
        ensures { result ≡ is_set self.now.pins slot }
    {
        self.notes.is_pinned(slot)
    }

    /// Frees a slot that no row, cell or pin holds and no node names: what the other slots denote stays, and the slot is the next that a node takes, in its next generation. No answer is kept of it, and nothing is due then, since the arguments of a refused call may name the slot.
    pub fn free(&mut self, slot: u32)
        requires used { slots self.old slot ≡ None → ⊥ }
        requires not_permanent { first_projection + (plain_view self.old).vars ≤ slot }
        requires not_held { count_at self.old slot ≡ 0 }
        requires not_pinned { is_set self.old.pins slot ≡ false }
        requires not_named { IsUnnamed self.old slot }
        ensures freed { IsFreed self.old slot self.new }
        ensures content { (s : ℕ) → (s ≡ slot → ⊥) → (plain_view self.new).content s ≡ (plain_view self.old).content s }
        ensures gone { (plain_view self.new).content slot ≡ None }
    {
        self.nodes.free(slot);
        let word = self.counts.word(slot);
        self.counts.write(slot, next_generation(word));
        self.memo.forget(slot);
        self.due = None;
    }

    /// Whether two edges of one kind denote one function: they are equal then.
    pub fn same(&self, f: Edge, g: Edge) -> bool
        requires { (k : Kind) × AreTwo k (plain_view self.now) f g }
        ensures { (k : Kind) → AreTwo k (plain_view self.now) f g → IsTrue result ↔ (values_at k (plain_view self.now) f ≡ values_at k (plain_view self.now) g) }
    {
        // The words make them so.
        let _ = &self.nodes;
        f == g
    }

    /// Hands the store over to one holder, who sweeps it or reorders it, and gives it back by `release`. No answer is remembered then, and nothing is due, since slots are freed and variables change their levels.
    pub fn hold(self) -> HeldStore
        ensures content { held_view result ≡ content_view self }
        ensures memo { (i : ℕ) → kept_at result.plain.memo i ≡ None }
        ensures rest { result ≡ record { plain = record self { due = None; memo = result.plain.memo }; half = None; chain = result.chain } }
    {
        let PlainStore {
            alloc,
            variable_levels,
            element_levels,
            variables_at,
            elements_at,
            nodes,
            counts,
            mut notes,
            sweeping,
            fulls,
            due: _,
            mut memo,
            scratch,
        } = self;
        memo.clear();
        notes.unlink();
        HeldStore {
            alloc,
            variable_levels,
            element_levels,
            variables_at,
            elements_at,
            nodes,
            counts,
            notes,
            sweeping,
            fulls,
            memo,
            scratch,
            half: None,
        }
    }
}

impl HeldStore {
    ghost use Rattle.node_slots.specs.Held.{held_view};

    /// Gives the store back. No swap is half made.
    pub fn release(self) -> PlainStore
        requires { (held_view self).half ≡ None }
        ensures { result ≡ self.plain }
    {
        let HeldStore {
            alloc,
            variable_levels,
            element_levels,
            variables_at,
            elements_at,
            mut nodes,
            counts,
            notes,
            sweeping,
            fulls,
            memo,
            scratch,
            half: _,
        } = self;
        nodes.forget_arcs();
        PlainStore {
            alloc,
            variable_levels,
            element_levels,
            variables_at,
            elements_at,
            nodes,
            counts,
            notes,
            sweeping,
            fulls,
            due: None,
            memo,
            scratch,
        }
    }
}
