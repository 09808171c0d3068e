//! A seat with an operation share, as a store that only grows.

ghost use Rattle.std.specs.Prelude.{◌≡◌};
ghost use Rattle.step_store.specs.Knowing.{idle};

use crate::steps::Steps;
use crate::{making, memo, opening};
use edge_bits::{Edge, FIRST_PROJECTION, Kind};
use node_store::{Grow, Key, Opened, Stack, Stop};
use std::marker::{Model, PhantomData};
use std::sync::Wait;

/// Whose seat it is: a type that the caller picks, so that an operator, which sees a store alone, gives back the very seat.
pub trait Home<K> {
    ghost use Rattle.std.specs.Prelude.{ℕ};

    /// The number of the table.
    ghost number: { ℕ };

    /// What the seat knows besides the words.
    ghost rest: { K };
}

/// What an operator works over: a seat with an operation share and nothing in hand. Others store nodes meanwhile. It waits for turns and for the free list.
pub struct Growing<'a, R: Wait, S: Steps, E: Home<S::Rest>> {
    rt: &'a R,
    seat: S,
    home: PhantomData<E>,
}

impl<'a, R: Wait, S: Steps, E: Home<S::Rest>> Model for Growing<'a, R, S, E> {
    ghost use Rattle.std.specs.Prelude.{◌≡◌};
    ghost use Rattle.step_store.specs.Knowing.{idle};

    ghost Value = { S };

    ghost view = { λ s. s.seat };

    ghost invariant = { λ s. S.shares s.seat × (S.table s.seat ≡ E.number) × (S.rest s.seat ≡ E.rest) × ((S.known s.seat).hand ≡ idle) };
}

impl<'a, R: Wait, S: Steps, E: Home<S::Rest>> Growing<'a, R, S, E> {
    /// The store of a seat.
    pub fn new(rt: &'a R, seat: S) -> Growing<'a, R, S, E>
        requires own { S.shares seat }
        requires home { (S.table seat ≡ E.number) × (S.rest seat ≡ E.rest) }
        requires idle { (S.known seat).hand ≡ idle }
        ensures { result ≡ seat }
    {
        Growing {
            rt,
            seat,
            home: PhantomData,
        }
    }

    /// The seat, which is still the one that it was.
    pub fn into_seat(self) -> S
        ensures seat { result ≡ self.entry }
        ensures own { S.shares result }
        ensures home { (S.table result ≡ E.number) × (S.rest result ≡ E.rest) }
        ensures idle { (S.known result).hand ≡ idle }
    {
        let Growing {
            rt: _,
            seat,
            home: _,
        } = self;
        seat
    }
}

impl<'a, R: Wait, S: Steps, E: Home<S::Rest>> Grow for Growing<'a, R, S, E> {
    ghost view = { λ s. (S.known s).view };

    fn levels(&mut self, kind: Kind) -> u32 {
        match kind {
            Kind::Bdd => self.seat.vars(),
            Kind::Add => self.seat.vars(),
            Kind::Zdd => self.seat.elements(),
        }
    }

    fn open(&mut self, edge: Edge) -> Opened {
        opening::open(&mut self.seat, edge)
    }

    fn make(&mut self, var: u32, hi: Edge, lo: Edge) -> Result<Edge, Stop> {
        making::make(self.rt, &mut self.seat, var, hi, lo)
    }

    fn leaf(&mut self, value: i64) -> Result<Edge, Stop> {
        making::leaf(self.rt, &mut self.seat, &value)
    }

    fn level(&mut self, var: u32) -> u32 {
        self.seat.load_level(var)
    }

    fn projection(&mut self, var: u32) -> Edge {
        // The seat has known it since it took the share.
        let _ = &self.seat;
        Edge::new(FIRST_PROJECTION + var, false)
    }

    fn memo_get(&mut self, key: &Key) -> Option<Edge> {
        memo::get(&mut self.seat, key)
    }

    fn memo_put(&mut self, key: Key, edge: Edge) {
        memo::put(&mut self.seat, key, edge);
    }

    fn take_scratch(&mut self) -> Stack {
        self.seat.take_scratch()
    }

    fn give_scratch(&mut self, stack: Stack) {
        self.seat.give_scratch(stack);
    }
}
