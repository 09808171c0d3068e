//! The levels of both orders.

ghost use Rattle.std.specs.Prelude.{◌≡◌, ◌+◌, ◌^◌, ◌<◌, ◌≤◌, ℕ, length};
ghost use Rattle.edge_bits.specs.declared.edges.Kind.{Kind as KindOf};
ghost use Rattle.function_laws.specs.Sizes.{in_order};
ghost use Rattle.node_store.specs.Views.{IsVariable, Kept};
ghost use Rattle.store_upkeep.specs.Lasting.{orders_of};
ghost use Rattle.store_rows.specs.Levels.{StandsAt, first_of as first_number, kind_of as kind_by};
ghost use Rattle.store_rows.specs.RowStores.{Same};

use crate::row_store::RowStore;
use edge_bits::{FIRST_ELEMENT, Kind, MOST_LEVELS};
use node_store::{Grow, Order};

/// A kind whose diagrams go by an order.
fn kind_of(order: Order) -> Kind
    ensures { result ≡ kind_by order }
{
    match order {
        Order::Variables => Kind::Bdd,
        Order::Elements => Kind::Zdd,
    }
}

/// By which number a store knows the first variable, or the first element.
fn first_of(order: Order) -> u32
    ensures { result ≡ first_number order }
{
    match order {
        Order::Variables => 0,
        Order::Elements => FIRST_ELEMENT,
    }
}

/// Which of so many variables, or elements, from a first on has a level, which one has.
fn with_level<G: Grow>(store: &mut G, first: u32, count: u32, level: u32) -> u32
    requires few { first + count < 2 ^ 32 }
    requires each { (n : ℕ) → n < count → (k : KindOf) × IsVariable k (G.view store.old) (first + n) }
    requires there { (n : ℕ) × (n < count) × ((G.view store.old).level (first + n) ≡ level) }
    ensures kept { Kept (G.view store.old) (G.view store.new) }
    ensures within { result < count }
    ensures level { (G.view store.old).level (first + result) ≡ level }
{
    for number in 0..count {
        if store.level(first + number) == level {
            return number;
        }
    }
    unreachable!()
}

impl RowStore {
    /// How many levels an order has: one for each variable, or for each element.
    pub fn levels_in(&mut self, order: Order) -> u32
        ensures same { Same self.old self.new }
        ensures orders { orders_of self.new.store ≡ orders_of self.old.store }
        ensures levels { result ≡ length (in_order (orders_of self.old.store) order) }
        ensures few { result ≤ MOST_LEVELS }
    {
        self.store.tell_sound();
        let levels = self.store.levels(kind_of(order));
        self.store.tell_sound();
        levels
    }

    /// The level of a variable, or of an element, in its order.
    pub fn level_of(&mut self, order: Order, number: u32) -> u32
        requires { number < length (in_order (orders_of self.old.store) order) }
        ensures same { Same self.old self.new }
        ensures orders { orders_of self.new.store ≡ orders_of self.old.store }
        ensures level { StandsAt (orders_of self.old.store) order number result }
    {
        self.store.tell_sound();
        let level = self.store.level(first_of(order) + number);
        self.store.tell_sound();
        level
    }

    /// Which variable, or element, stands at a level of its order. It takes the time of the order's length.
    pub fn at_level(&mut self, order: Order, level: u32) -> u32
        requires { level < length (in_order (orders_of self.old.store) order) }
        ensures same { Same self.old self.new }
        ensures orders { orders_of self.new.store ≡ orders_of self.old.store }
        ensures number { StandsAt (orders_of self.old.store) order result level }
    {
        let count = self.levels_in(order);
        self.find(order, count, level)
    }

    /// The same, where it is known how many levels there are.
    fn find(&mut self, order: Order, count: u32, level: u32) -> u32
        requires count { count ≡ length (in_order (orders_of self.old.store) order) }
        requires level { level < length (in_order (orders_of self.old.store) order) }
        ensures same { Same self.old self.new }
        ensures orders { orders_of self.new.store ≡ orders_of self.old.store }
        ensures number { StandsAt (orders_of self.old.store) order result level }
    {
        self.store.tell_sound();
        let number = with_level(&mut self.store, first_of(order), count, level);
        self.store.tell_sound();
        number
    }
}
