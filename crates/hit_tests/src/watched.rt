//! A store that counts the calls of an operation.

ghost use Rattle.std.specs.Prelude.{◌≡◌, ◌≤◌, IfOk};
ghost use Rattle.node_slots.specs.Stores.{plain_view};

use edge_bits::{Edge, Kind, MOST_ELEMENTS, MOST_VARIABLES};
use node_slots::{Grow, Key, Opened, PlainStore, Stack, Stop};
use std::alloc::Global;
use std::process::Abort;
use std::test::Fail;

/// As many calls of one sort may an operation make: a remembering operation on the diagrams here makes a small part of
/// them, and a forgetting one more than 2^30.
const MOST: u32 = 10_000;

/// As many slots as no test here fills.
const SLOTS: u32 = 100_000;

/// A store that ends the test at the 10,001st node that is asked of it, or opened, in one operation. An operation begins where it takes the scratch.
#[derive(Drop)]
pub struct Watched<R: Abort + Drop> {
    rt: R,
    store: PlainStore,
    makes: u32,
    opens: u32,
}

impl<R: Abort + Drop> Watched<R> {
    /// A store of so many variables and elements, at most `MOST_VARIABLES` and `MOST_ELEMENTS`.
    pub fn new(rt: R, alloc: Global, vars: u32, elements: u32) -> Result<Watched<R>, Fail>
        requires vars { vars ≤ MOST_VARIABLES }
        requires elements { elements ≤ MOST_ELEMENTS }
        ensures vars { IfOk result (λ w. (plain_view w.store).vars ≡ vars) }
        ensures elements { IfOk result (λ w. (plain_view w.store).elements ≡ elements) }
    {
        let store = PlainStore::new(alloc, vars, elements, SLOTS)?;
        Ok(Watched {
            rt,
            store,
            makes: 0,
            opens: 0,
        })
    }
}

impl<R: Abort + Drop> Grow for Watched<R> {
    ghost view = { λ w. plain_view w.store };

    fn levels(&mut self, kind: Kind) -> u32 {
        self.store.levels(kind)
    }

    fn open(&mut self, edge: Edge) -> Opened {
        assert!(self.rt; self.opens < MOST);
        self.opens += 1;
        self.store.open(edge)
    }

    fn make(&mut self, var: u32, hi: Edge, lo: Edge) -> Result<Edge, Stop> {
        assert!(self.rt; self.makes < MOST);
        self.makes += 1;
        self.store.make(var, hi, lo)
    }

    fn leaf(&mut self, value: i64) -> Result<Edge, Stop> {
        self.store.leaf(value)
    }

    fn level(&mut self, var: u32) -> u32 {
        self.store.level(var)
    }

    fn projection(&mut self, var: u32) -> Edge {
        self.store.projection(var)
    }

    fn memo_get(&mut self, key: &Key) -> Option<Edge> {
        self.store.memo_get(key)
    }

    fn memo_put(&mut self, key: Key, edge: Edge) {
        self.store.memo_put(key, edge);
    }

    fn take_scratch(&mut self) -> Stack {
        // An operation begins.
        self.makes = 0;
        self.opens = 0;
        self.store.take_scratch()
    }

    fn give_scratch(&mut self, stack: Stack) {
        self.store.give_scratch(stack);
    }
}
