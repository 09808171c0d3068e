//! A seat at a table with one user, as operators use it, and walks of what they made.

ghost use Rattle.std.specs.Prelude.{◌≡◌, IfOk};
ghost use Rattle.edge_bits.specs.declared.edges.Kind.TheVariants.{Bdd, Zdd};
ghost use Rattle.node_store.specs.Views.{Is};
ghost use Rattle.step_store.specs.Knowing.{idle};
ghost use Rattle.step_store.specs.Plain.{IsSeat, known_of};

use edge_bits::{Edge, VALUE_END};
use ite_core::and;
use node_store::{Grow, Opened, Stop};
use std::process::Abort;
use std::sync::Wait;
use std::test::Fail;
use step_store::{Growing, Home, PlainTable, Walks, walk};
use zdd_ops::single;

/// Where the seat of a table with one user belongs.
struct Here;

impl Home<bool> for Here {
    ghost use Rattle.std.specs.Prelude.{false};

    ghost number = { 0 };

    ghost rest = { false };
}

/// What the leaf of a value that is not negative opens into.
fn leaf_of<G: Grow>(store: &mut G, value: i64) -> Result<Opened, Stop> {
    if value < 0 || value >= VALUE_END {
        return Ok(Opened::Leaf(0));
    }
    let leaf = store.leaf(value)?;
    Ok(store.open(leaf))
}

/// Asks for 200 leaves.
fn ask<G: Grow>(rt: &impl Abort, store: &mut G) {
    for value in 2..202 {
        assert!(rt; leaf_of(store, value) == Ok(Opened::Leaf(value)));
    }
}

/// As many leaves as there are free slots: each is found again, and one more has no room.
fn fill<G: Grow>(rt: &impl Abort, store: &mut G) {
    ask(rt, store);
    ask(rt, store);
    assert!(rt; leaf_of(store, 202) == Err(Stop::Full));
}

/// The same over a seat.
fn fill_table<R: Wait + Abort>(rt: &R, table: PlainTable)
    requires own { IsSeat table }
    requires idle { (known_of table).hand ≡ idle }
{
    let mut store: Growing<'_, R, PlainTable, Here> = Growing::new(rt, table);
    fill(rt, &mut store);
    let _table = store.into_seat();
}

#[test]
fn leaves_to_the_last_slot(rt: HostRuntime) -> Result<(), Fail> {
    // Five permanent slots, and 200 more.
    let table = PlainTable::new(rt.alloc(), 0, 0, 205)?;
    fill_table(&rt, table);
    Ok(())
}

/// The conjunction of two variables, and the family of the combination of the first of two elements alone.
fn operate<G: Grow>(store: &mut G) -> Result<(Edge, Edge), Stop>
    requires vars { (G.view store.old).vars ≡ 2 }
    requires elements { (G.view store.old).elements ≡ 2 }
    ensures vars { (G.view store.new).vars ≡ 2 }
    ensures elements { (G.view store.new).elements ≡ 2 }
    ensures are { IfOk result (λ made. Is Bdd (G.view store.new) made.0 × Is Zdd (G.view store.new) made.1) }
{
    let first = store.projection(0);
    let second = store.projection(1);
    let both = and(store, first, second)?;
    let family = single(store, 0)?;
    Ok((both, family))
}

/// Their values by walks.
fn tell<S: Walks>(rt: &impl Abort, seat: &mut S, both: Edge, family: Edge)
    requires own { S.walks seat.old }
    requires vars { (S.sees seat.old).vars ≡ 2 }
    requires elements { (S.sees seat.old).elements ≡ 2 }
    requires are { Is Bdd (S.sees seat.old) both × Is Zdd (S.sees seat.old) family }
{
    assert!(rt; walk(seat, both, &[true, true]) == 1);
    assert!(rt; walk(seat, both, &[true, false]) == 0);
    assert!(rt; walk(seat, family, &[true, false]) == 1);
    assert!(rt; walk(seat, family, &[true, true]) == 0);
    assert!(rt; walk(seat, family, &[false, false]) == 0);
}

/// The same over a seat.
fn operate_at_table<R: Wait + Abort>(rt: &R, table: PlainTable) -> Result<(), Fail>
    requires own { IsSeat table }
    requires idle { (known_of table).hand ≡ idle }
    requires vars { (known_of table).view.vars ≡ 2 }
    requires elements { (known_of table).view.elements ≡ 2 }
{
    let mut store: Growing<'_, R, PlainTable, Here> = Growing::new(rt, table);
    let made = operate(&mut store);
    let mut table = store.into_seat();
    let (both, family) = made?;
    tell(rt, &mut table, both, family);
    Ok(())
}

#[test]
fn values_of_what_operators_made(rt: HostRuntime) -> Result<(), Fail> {
    let table = PlainTable::new(rt.alloc(), 2, 2, 20)?;
    operate_at_table(&rt, table)
}
