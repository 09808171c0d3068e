//! What makes a function of rows: by their edges, at once or behind a sweep.

ghost use Rattle.std.specs.Prelude.{◌≡◌, map, All, IfOk, IsErrOf, OnErr};
ghost use Rattle.edge_bits.specs.declared.edges.Kind.{Kind as KindOf};
ghost use Rattle.edge_bits.specs.declared.edges.Kind.TheVariants as kinds;
ghost use Rattle.function_laws.specs.Makings.{kind_made as kind_of_made};
ghost use Rattle.node_slots.specs.Stores.{IsStore, is_held, plain_view};
ghost use Rattle.node_store.specs.Views.{Grown};
ghost use Rattle.operator_calls.specs.Making.{RunsMaking, takes};
ghost use Rattle.operator_calls.specs.Taking.{of_lent, with_given};
ghost use Rattle.store_upkeep.specs.Lasting.{orders_of};
ghost use Rattle.store_rows.specs.MadeRows.{CanMake, IsFull, IsSweptFirst, Tells};
ghost use Rattle.store_rows.specs.RowStores.{IsLiveAs, edge_in, view_of};

use crate::row_store::RowStore;
use edge_bits::{Edge, Kind, Memory};
use function_laws::Making;
use handle_count::H;
use node_slots::{PlainStore, Stop};
use operator_calls::{Renaming, Unmade, renamed, renamed_pairs, run};
use std::alloc::Global;

/// One try, over the store.
fn run_once(
    store: &mut PlainStore,
    making: &Making<Edge, &[u32], &[(u32, Edge)]>,
) -> Result<Result<Edge, Unmade>, Stop>
    requires { IsStore store.old → takes (of_lent making.now) (plain_view store.old) }
    ensures runs { RunsMaking (of_lent making.now) (plain_view store.old) (plain_view store.new) result }
    ensures full { IsErrOf result Stop.Full → IsFull (of_lent making.now) (plain_view store.old) store.new }
    ensures orders { orders_of store.new ≡ orders_of store.old }
{
    store.tell_sound();
    let made = run(store, making);
    store.tell_sound();
    made
}

/// The kind of what is made.
fn kind_made(making: &Making<Edge, &[u32], &[(u32, Edge)]>) -> Kind
    ensures { result ≡ kind_of_made (of_lent making.now) }
{
    match making {
        Making::Bdd(_) => Kind::Bdd,
        Making::Add(_) => Kind::Add,
        Making::Exact(_) => Kind::Add,
        Making::Zdd(_) => Kind::Zdd,
    }
}

/// The edges of rows.
#[derive(Drop)]
struct Edges<'a> {
    rows: &'a RowStore,
}

impl<'b> Renaming<H, Edge, &'b [u32], &'b [(u32, H)]> for Edges<'_> {
    ghost is = { λ e k h. IsLiveAs k e.rows.now.rows.live h };

    ghost most = { λ e. (view_of e.rows.now).vars };

    ghost vars = { λ e. (view_of e.rows.now).vars };

    ghost elements = { λ e. (view_of e.rows.now).elements };

    ghost gives = { λ e h. edge_in e.rows.now.rows.live h };

    ghost listed = { λ vars. vars.now };

    ghost paired = { λ pairs. pairs.now };

    fn give(&self, one: &H) -> Edge
        requires { (k : KindOf) × IsLiveAs k self.now.rows.now.rows.live one.now }
        ensures { result ≡ edge_in self.now.rows.now.rows.live one.now }
    {
        self.rows.edge(*one)
    }

    fn give_pairs(&self, alloc: Global, pairs: &&'b [(u32, H)]) -> Result<Vec<(u32, Edge)>, Memory>
        requires { All (λ pair. IsLiveAs kinds.Bdd self.now.rows.now.rows.live pair.1) pairs.now.now }
        ensures { IfOk result (λ given. given.items ≡ map (with_given (edge_in self.now.rows.now.rows.live)) pairs.now.now) }
    {
        self.rows.edges(alloc, pairs)
    }

    fn lend<'a>(&self, list: &'a &'b [u32]) -> &'a [u32]
        ensures { result.now ≡ list.now.now }
    {
        list
    }
}

impl RowStore {
    /// One try by the edges of rows.
    fn run_edges(
        &mut self,
        edges: &Making<Edge, &[u32], &[(u32, Edge)]>,
    ) -> Result<Result<Edge, Unmade>, Stop>
        requires { IsStore self.old.store → takes (of_lent edges.now) (view_of self.old) }
        ensures runs { RunsMaking (of_lent edges.now) (view_of self.old) (view_of self.new) result }
        ensures full { IsErrOf result Stop.Full → IsFull (of_lent edges.now) (view_of self.old) self.new.store }
        ensures rows { self.new.rows ≡ self.old.rows }
        ensures orders { orders_of self.new.store ≡ orders_of self.old.store }
    {
        run_once(&mut self.store, edges)
    }

    /// One try to make a function of rows, as a new row; or tells why there is none, where that may be. Where no slot is free, a sweep may free
    /// some. It takes the operator's time.
    pub fn try_once(
        &mut self,
        making: &Making<H, &[u32], &[(u32, H)]>,
    ) -> Result<Result<H, Unmade>, Stop>
        requires { CanMake self.old (of_lent making.now) }
        ensures tells { Tells self.old self.new (of_lent making.now) result }
        ensures grown { OnErr result (Grown (view_of self.old) (view_of self.new)) }
        ensures orders { orders_of self.new.store ≡ orders_of self.old.store }
    {
        let alloc = self.alloc;
        let rows = Edges { rows: self };
        let Ok(pairs) = renamed_pairs(&rows, alloc, making) else {
            return Err(Stop::Memory);
        };
        let edges = renamed(&rows, making, &pairs);
        let kind = kind_made(&edges);
        let made = self.run_edges(&edges);
        let told = match made {
            Ok(told) => told,
            Err(stop) => return Err(stop),
        };
        let edge = match told {
            Ok(edge) => edge,
            Err(why) => return Ok(Err(why)),
        };
        match self.keep(kind, edge) {
            Ok(h) => Ok(Ok(h)),
            Err(_) => Err(Stop::Memory),
        }
    }

    /// Sweeps, and then tries to make a function of rows, as a new row; or tells why there is none, where that may be. So where no slot is free
    /// even then, none was in use but those that rows reach and those that the operator took. It takes the operator's time, and a sweep's.
    pub fn sweep_and_try(
        self,
        making: &Making<H, &[u32], &[(u32, H)]>,
    ) -> (RowStore, Result<Result<H, Unmade>, Stop>)
        requires { CanMake self (of_lent making.now) }
        ensures tells { Tells self result.0 (of_lent making.now) result.1 }
        ensures swept { IsErrOf result.1 Stop.Full → IsSweptFirst self result.0 }
        ensures orders { orders_of result.0.store ≡ orders_of self.store }
    {
        let (mut left, _swept) = self.sweep();
        let made = left.try_once(making);
        (left, made)
    }
}
