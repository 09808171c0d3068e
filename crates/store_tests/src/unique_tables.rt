//! Unique tables, with few entries and with thousands.

ghost use Rattle.std.specs.Prelude.{◌≡◌, ◌+◌, ◌-◌, ◌<◌, ◌≤◌, ◌^◌, length, []};

use edge_bits::Edge;
use level_table::{LeafTable, LevelTable};
use std::process::Abort;
use std::test::Fail;

/// Adds a pair that is seen to be absent.
fn add(rt: &impl Abort, table: &mut LevelTable, hi: u32, lo: Edge, slot: u32)
    requires room { 1 ≤ table.old.spare }
    requires few { length table.old.entries < 2 ^ 32 - 1 }
    ensures spare { table.new.spare + 1 ≡ table.old.spare }
    ensures longer { length table.new.entries ≡ length table.old.entries + 1 }
{
    let found = table.find(hi, lo);
    assert!(rt; found.is_none());
    table.insert(hi, lo, slot);
}

/// The pair of a number, with many that differ in one part alone.
fn numbered(i: u32) -> (u32, Edge) {
    (i % 71, Edge::new(i / 142, i / 71 % 2 == 1))
}

/// Adds so many pairs, each with its number as its slot.
fn fill(rt: &impl Abort, table: &mut LevelTable, count: u32)
    requires empty { table.old.entries ≡ [] }
    requires room { count ≤ table.old.spare }
{
    for i in 0..count {
        let (hi, lo) = numbered(i);
        add(rt, table, hi, lo, i);
    }
}

/// The edge to slot 6.
fn six() -> Edge {
    Edge::new(6, false)
}

/// Adds three pairs, of which two differ in the complement alone.
fn add_by_hand(rt: &impl Abort, table: &mut LevelTable)
    requires empty { table.old.entries ≡ [] }
    requires room { 3 ≤ table.old.spare }
{
    add(rt, table, 5, six(), 9);
    add(rt, table, 5, six().flip(), 10);
    add(rt, table, 6, Edge::new(5, false), 11);
    assert!(rt; table.find(5, six()) == Some(9));
    assert!(rt; table.find(5, six().flip()) == Some(10));
    assert!(rt; table.find(6, Edge::new(5, false)) == Some(11));
    assert!(rt; table.find(6, six()) == None);
}

/// Removes one of them, and a pair that is absent.
fn remove_by_hand(rt: &impl Abort, table: &mut LevelTable) {
    table.remove(5, six());
    table.remove(6, six());
    assert!(rt; table.find(5, six()) == None);
    assert!(rt; table.find(5, six().flip()) == Some(10));
    assert!(rt; table.find(6, Edge::new(5, false)) == Some(11));
}

/// Two pairs are left, and the last takes the place of the one that was removed.
fn places_by_hand(rt: &impl Abort, table: &LevelTable) {
    assert!(rt; table.len() == 2);
    assert!(rt; table.pair_at(0) == (6, Edge::new(5, false)));
    assert!(rt; table.pair_at(1) == (5, six().flip()));
}

/// A few pairs by hand.
#[test]
fn by_hand(rt: HostRuntime) -> Result<(), Fail> {
    let mut table = LevelTable::new(rt.alloc())?;
    table.reserve(4)?;
    add_by_hand(&rt, &mut table);
    remove_by_hand(&rt, &mut table);
    places_by_hand(&rt, &table);
    Ok(())
}

/// Removes every third of the numbered pairs.
fn remove_thirds(table: &mut LevelTable) {
    for i in (0..5000).filter(|i| i % 3 == 0) {
        let (hi, lo) = numbered(i);
        table.remove(hi, lo);
    }
}

/// The others are found, and these are not.
fn find_others(rt: &impl Abort, table: &LevelTable) {
    for i in 0..5000 {
        let (hi, lo) = numbered(i);
        let slot = if i % 3 == 0 { None } else { Some(i) };
        assert!(rt; table.find(hi, lo) == slot);
    }
}

/// Thousands of pairs, of which every third is removed.
#[test]
fn thousands(rt: HostRuntime) -> Result<(), Fail> {
    let mut table = LevelTable::new(rt.alloc())?;
    table.reserve(5000)?;
    fill(&rt, &mut table, 5000);
    remove_thirds(&mut table);
    assert!(rt; table.len() == 3333);
    find_others(&rt, &table);
    Ok(())
}

/// Adds a value that is seen to be absent.
fn add_value(rt: &impl Abort, table: &mut LeafTable, value: i64, slot: u32)
    requires room { 1 ≤ table.old.spare }
    requires few { length table.old.entries < 2 ^ 32 - 1 }
    ensures spare { table.new.spare + 1 ≡ table.old.spare }
    ensures longer { length table.new.entries ≡ length table.old.entries + 1 }
{
    let found = table.find_value(value);
    assert!(rt; found.is_none());
    table.insert(value, slot);
}

/// Adds values of both signs and at both ends.
fn add_values(rt: &impl Abort, table: &mut LeafTable)
    requires empty { table.old.entries ≡ [] }
    requires room { 4 ≤ table.old.spare }
{
    add_value(rt, table, 7, 9);
    add_value(rt, table, -7, 10);
    add_value(rt, table, i64::MIN, 11);
    add_value(rt, table, i64::MAX, 12);
    assert!(rt; table.find_value(7) == Some(9));
    assert!(rt; table.find_value(-7) == Some(10));
    assert!(rt; table.find_value(i64::MIN) == Some(11));
    assert!(rt; table.find_value(i64::MAX) == Some(12));
    assert!(rt; table.find_value(0) == None);
}

/// Removes one of them, and a value that is absent. The last takes its place.
fn remove_values(rt: &impl Abort, table: &mut LeafTable) {
    table.remove(7);
    table.remove(0);
    assert!(rt; table.find_value(7) == None);
    assert!(rt; table.find_value(-7) == Some(10));
    assert!(rt; table.len() == 3);
    assert!(rt; table.value_at(0) == i64::MAX);
}

/// Removes all that are left.
fn clear_values(rt: &impl Abort, table: &mut LeafTable) {
    table.clear();
    assert!(rt; table.len() == 0);
    assert!(rt; table.find_value(-7) == None);
}

/// A few values by hand.
#[test]
fn values_by_hand(rt: HostRuntime) -> Result<(), Fail> {
    let mut table = LeafTable::new(rt.alloc())?;
    table.reserve(4)?;
    add_values(&rt, &mut table);
    remove_values(&rt, &mut table);
    clear_values(&rt, &mut table);
    Ok(())
}
