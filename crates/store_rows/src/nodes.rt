//! The nodes of rows, from the top down.

ghost use Rattle.std.specs.Prelude.{◌≡◌, ℕ, IfOk, OnErr, if◌then◌else◌};
ghost use Rattle.edge_bits.specs.declared.edges.Kind.{Kind as KindOf};
ghost use Rattle.function_laws.specs.Kinds.{ValueOf};
ghost use Rattle.node_store.specs.Views.{IsVariable, Opens, View, values_at};
ghost use Rattle.store_upkeep.specs.Lasting.{orders_of};
ghost use Rattle.store_rows.specs.Nodes.{IsChild, IsTop, numbered};
ghost use Rattle.store_rows.specs.RowStores.{IsLive, IsLiveAs, Names, Same, edge_in, view_of};

use crate::row_store::RowStore;
use edge_bits::{Edge, FIRST_ELEMENT, Kind, Memory};
use handle_count::H;
use node_store::{Grow, Opened};

/// What is at the top of a diagram.
#[derive(Clone, Copy, PartialEq, Eq, Debug, Drop)]
pub enum Top {
    /// A node of the variable, or of the element, with this number.
    Node(u32),
    /// A leaf with this value: 0 or 1 of a BDD or a ZDD.
    Leaf(i64),
}

/// The number of a variable among the variables, or of an element among the elements.
fn own_number(kind: Kind, var: u32) -> u32
    requires { (w : View) × IsVariable kind w var }
    ensures { numbered kind result ≡ var }
{
    match kind {
        Kind::Bdd => var,
        Kind::Add => var,
        Kind::Zdd => var - FIRST_ELEMENT,
    }
}

/// The then or the else edge.
fn arc(taken: bool, hi: Edge, lo: Edge) -> Edge
    ensures { result ≡ (if taken then hi else lo) }
{
    if taken { hi } else { lo }
}

impl RowStore {
    /// What the edge of a row leads to.
    fn open(&mut self, h: H) -> Opened
        requires { IsLive self.old.rows.live h }
        ensures same { Same self.old self.new }
        ensures orders { orders_of self.new.store ≡ orders_of self.old.store }
        ensures rows { self.new.rows ≡ self.old.rows }
        ensures opens { (k : KindOf) → IsLiveAs k self.old.rows.live h → Opens k (view_of self.new) (edge_in self.old.rows.live h) (values_at k (view_of self.old) (edge_in self.old.rows.live h)) result }
    {
        let edge = self.edge(h);
        self.store.tell_sound();
        let opened = self.store.open(edge);
        self.store.tell_sound();
        opened
    }

    /// What is at the top of a row's diagram: the first variable, or element, of the order on which its function depends, or the value of
    /// a function that depends on none.
    pub fn top(&mut self, h: H) -> Top
        requires { IsLive self.old.rows.live h }
        ensures same { Same self.old self.new }
        ensures orders { orders_of self.new.store ≡ orders_of self.old.store }
        ensures top { (k : KindOf) (f : ℕ → ValueOf k) → Names self.old k h f → IsTop k (view_of self.new) (edge_in self.old.rows.live h) f result }
    {
        let kind = self.kind(h);
        match self.open(h) {
            Opened::Inner(var, _, _) => Top::Node(own_number(kind, var)),
            Opened::Leaf(value) => Top::Leaf(value),
        }
    }

    /// The then child of a row's node, or its else child, as a new row; none of a leaf. Of a BDD the edge's complement is pushed to the child.
    pub fn child(&mut self, h: H, taken: bool) -> Result<Option<H>, Memory>
        requires { IsLive self.old.rows.live h }
        ensures ok { IfOk result (IsChild self.old self.new h taken) }
        ensures orders { orders_of self.new.store ≡ orders_of self.old.store }
        ensures err { OnErr result (Same self.old self.new) }
    {
        let kind = self.kind(h);
        match self.open(h) {
            Opened::Leaf(_) => Ok(None),
            Opened::Inner(_, hi, lo) => Ok(Some(self.keep(kind, arc(taken, hi, lo))?)),
        }
    }
}
