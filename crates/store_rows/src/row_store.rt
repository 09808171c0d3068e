//! A store, and rows that hold its functions.

ghost use Rattle.std.specs.Prelude.{◌≡◌, ◌+◌, ◌<◌, ◌≤◌, ◌↔◌, ℕ, map, All, IfOk, IfSome, OnErr, IsTrue, [], None};
ghost use Rattle.computed_cache.specs.Entries.{places};
ghost use Rattle.edge_bits.specs.declared.edges.Kind.{Kind as KindOf};
ghost use Rattle.edge_bits.specs.declared.edges.Kind.TheVariants as kinds;
ghost use Rattle.function_laws.specs.Kinds.{ValueOf};
ghost use Rattle.node_slots.specs.Stores.{IsOpening};
ghost use Rattle.node_store.specs.Views.{Is};
ghost use Rattle.operator_calls.specs.Taking.{with_given};
ghost use Rattle.store_upkeep.specs.Lasting.{orders_of};
ghost use Rattle.store_rows.specs.RowStores.{Gains, IsLive, IsLiveAs, Loses, Names, Same, differs_in_counts, edge_in, view_of};

use edge_bits::{Edge, Kind, MOST_ELEMENTS, MOST_ROWS, MOST_SLOTS, MOST_VARIABLES, Memory};
use handle_count::{H, Rows};
use node_slots::PlainStore;
use std::alloc::Global;
use std::marker::Model;
use store_upkeep::{lower, raise};

/// The most rows ever, so that no generation is given twice.
const MOST_MADE: u64 = 1 << 62;

/// A store, and the rows that hold its functions: each slot is counted as often as rows hold it.
#[derive(Drop)]
pub struct RowStore {
    pub(crate) alloc: Global,
    pub(crate) store: PlainStore,
    pub(crate) rows: Rows,
    pub(crate) made: u64,
}

impl Model for RowStore {
    ghost use Rattle.store_rows.specs.RowStores.{IsRowStore, RowStoreView};

    ghost Value = { RowStoreView };

    ghost view = { λ s. record { store = s.store; rows = s.rows; made = s.made } };

    ghost invariant = { λ s. IsRowStore (record { store = s.store; rows = s.rows; made = s.made }) };
}

/// A store with room for so many answers, or for as many as suit its slots.
fn opened(
    alloc: Global,
    vars: u32,
    elements: u32,
    limit: u32,
    entries: Option<u32>,
) -> Result<PlainStore, Memory>
    requires vars { vars ≤ MOST_VARIABLES }
    requires elements { elements ≤ MOST_ELEMENTS }
    requires least { 5 + vars ≤ limit }
    requires most { limit ≤ MOST_SLOTS }
    requires entries { IfSome entries (λ n. 0 < n) }
    ensures opening { IfOk result (IsOpening vars elements limit) }
    ensures remembers { IfSome entries (λ n. IfOk result (λ s. places s.memo ≡ n)) }
{
    match entries {
        Some(n) => PlainStore::remembering(alloc, vars, elements, limit, n),
        None => PlainStore::new(alloc, vars, elements, limit),
    }
}

impl RowStore {
    /// A store of so many variables and elements, at most `MOST_VARIABLES` and `MOST_ELEMENTS`, with so many slots: 5 and one for each
    /// variable at least, `MOST_SLOTS` at most. Both orders are 0, 1, 2, .., and there is no row. It remembers so many answers of operations,
    /// at least one, or as many as suit the slots where no number is told.
    pub fn new(
        alloc: Global,
        vars: u32,
        elements: u32,
        limit: u32,
        entries: Option<u32>,
    ) -> Result<RowStore, Memory>
        requires vars { vars ≤ MOST_VARIABLES }
        requires elements { elements ≤ MOST_ELEMENTS }
        requires least { 5 + vars ≤ limit }
        requires most { limit ≤ MOST_SLOTS }
        requires entries { IfSome entries (λ n. 0 < n) }
        ensures opening { IfOk result (λ s. IsOpening vars elements limit s.store × (s.rows.live ≡ [])) }
        ensures remembers { IfSome entries (λ n. IfOk result (λ s. places s.store.memo ≡ n)) }
    {
        let store = opened(alloc, vars, elements, limit, entries)?;
        let rows = Rows::new(alloc);
        Ok(RowStore {
            alloc,
            store,
            rows,
            made: 0,
        })
    }

    /// Whether the name is live.
    pub fn is_live(&self, h: H) -> bool
        ensures { IsTrue result ↔ IsLive self.now.rows.live h }
    {
        self.rows.is_live(h)
    }

    /// The kind of a row.
    pub fn kind(&self, h: H) -> Kind
        requires { IsLive self.now.rows.live h }
        ensures { IsLiveAs result self.now.rows.live h }
    {
        self.rows.kind(h)
    }

    /// The edge of a row.
    pub(crate) fn edge(&self, h: H) -> Edge
        requires { IsLive self.now.rows.live h }
        ensures own { result ≡ edge_in self.now.rows.live h }
        ensures is { (k : KindOf) → IsLiveAs k self.now.rows.live h → Is k (view_of self.now) result }
    {
        self.rows.edge(h)
    }

    /// The variables of some pairs with the edges of their rows.
    pub(crate) fn edges(
        &self,
        alloc: Global,
        pairs: &[(u32, H)],
    ) -> Result<Vec<(u32, Edge)>, Memory>
        requires { All (λ pair. IsLiveAs kinds.Bdd self.now.rows.live pair.1) pairs.now }
        ensures { IfOk result (λ edges. edges.items ≡ map (with_given (edge_in self.now.rows.live)) pairs.now) }
    {
        let mut edges = Vec::new(alloc);
        for pair in pairs {
            edges.push((pair.0, self.edge(pair.1)))?;
        }
        Ok(edges)
    }

    /// A new row that holds an edge.
    pub(crate) fn keep(&mut self, kind: Kind, edge: Edge) -> Result<H, Memory>
        requires { Is kind (view_of self.old) edge }
        ensures ok { IfOk result (λ h. Gains self.old self.new h kind edge) }
        ensures counts { differs_in_counts (view_of self.old) (view_of self.new) }
        ensures orders { orders_of self.new.store ≡ orders_of self.old.store }
        ensures err { OnErr result (self.new ≡ self.old) }
    {
        if self.made >= MOST_MADE || self.rows.live() >= MOST_ROWS {
            return Err(Memory);
        }
        self.rows.reserve(1)?;
        raise(&mut self.store, edge);
        self.made += 1;
        Ok(self.rows.add(kind, edge))
    }

    /// A further row with the function of a row.
    pub fn copy(&mut self, h: H) -> Result<H, Memory>
        requires { IsLive self.old.rows.live h }
        ensures ok { IfOk result (λ name. (k : KindOf) → IsLiveAs k self.old.rows.live h → Gains self.old self.new name k (edge_in self.old.rows.live h)) }
        ensures orders { orders_of self.new.store ≡ orders_of self.old.store }
        ensures err { OnErr result (self.new ≡ self.old) }
    {
        let kind = self.kind(h);
        let edge = self.edge(h);
        self.keep(kind, edge)
    }

    /// Lets a row go. Its name is live no more.
    pub fn drop_row(&mut self, h: H)
        requires { IsLive self.old.rows.live h }
        ensures lost { Loses self.old self.new h }
        ensures orders { orders_of self.new.store ≡ orders_of self.old.store }
    {
        let (_kind, edge) = self.rows.remove(h);
        lower(&mut self.store, edge);
    }

    /// Whether two rows of one kind have one function.
    pub fn same(&self, f: H, g: H) -> bool
        requires { (k : KindOf) × IsLiveAs k self.now.rows.live f × IsLiveAs k self.now.rows.live g }
        ensures { (k : KindOf) (a b : ℕ → ValueOf k) → Names self.now k f a → Names self.now k g b → IsTrue result ↔ (a ≡ b) }
    {
        let first = self.edge(f);
        let second = self.edge(g);
        self.store.same(first, second)
    }
}
