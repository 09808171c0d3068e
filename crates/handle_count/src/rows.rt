//! The rows of one session.

ghost use Rattle.std.specs.Prelude.{◌≡◌, ◌≢◌, ◌+◌, ◌-◌, ◌<◌, ◌≤◌, ◌^◌, ◌↔◌, max, length, vec_capacity, slice_index_or, option_map, IfOk, OnOk, OnErr, IfSome, IsTrue, IsOk, IsSome, All, Option, Some, None, []};
ghost use Rattle.handle_count.specs.RowMaps.{AreFree, IsPut, IsWithOne, find_row, held_at, live_from};

use crate::H;
use edge_bits::{Edge, Kind, Memory};
use std::alloc::Global;
use std::marker::Model;

/// The most rows that may be live at once, 2^32 - 1.
const MOST: u32 = u32::MAX;

/// A live row as contracts see it: its name, and the edge that it holds, with its kind.
#[derive(Debug, Clone, Copy, PartialEq, Eq)]
pub struct Held {
    pub name: H,
    pub kind: Kind,
    pub edge: Edge,
}

/// What stands at a place.
#[derive(Debug, Clone, Copy, PartialEq, Eq)]
pub struct Row {
    pub generation: u64,
    pub kind: Kind,
    pub edge: Edge,
}

/// The rows of one session: a finite map from live names to edges. A name is a place and a generation, which is the number of
/// adds before it, so none is given twice. A place is taken again once its row is removed.
#[derive(Drop)]
pub struct Rows {
    places: Vec<Option<Row>>,
    /// The places that have no row.
    free: Vec<u32>,
    adds: u64,
    /// How many more adds take no memory.
    spare: u32,
}

impl Model for Rows {
    ghost use Rattle.std.specs.Prelude.{vec_capacity};
    ghost use Rattle.handle_count.specs.RowMaps.{AreRows, RowMap, live_from};

    ghost Value = { RowMap };

    ghost view = { λ r. record { live = live_from 0 r.places.items; adds = r.adds; spare = r.spare } };

    ghost invariant = { λ r. AreRows r.places.items (vec_capacity r.places) r.free.items (vec_capacity r.free) r.adds r.spare };
}

/// Puts a row at the place that was freed last, or else behind all places.
fn put(places: &mut Vec<Option<Row>>, free: &mut Vec<u32>, row: Row) -> u32
    requires free { AreFree places.old.items free.old.items }
    requires room { length free.old.items ≡ 0 → length places.old.items < vec_capacity places.old }
    requires few { length free.old.items ≡ 0 → length places.old.items < 2 ^ 32 - 1 }
    ensures put { IsPut places.old.items free.old.items row places.new.items free.new.items result }
    ensures places_room { vec_capacity places.new ≡ vec_capacity places.old }
    ensures free_room { vec_capacity free.new ≡ vec_capacity free.old }
{
    match free.pop() {
        Some(place) => {
            places[place as usize] = Some(row);
            place
        }
        None => {
            let place = places.len() as u32;
            places.push_reserved(Some(row));
            place
        }
    }
}

/// The row at a place, if there is one.
fn row_at(places: &[Option<Row>], place: u32) -> Option<Row>
    ensures { result ≡ slice_index_or places.now place None }
{
    match places.get(place as usize) {
        Some(row) => *row,
        None => None,
    }
}

impl Rows {
    /// No rows, and room for none.
    pub fn new(alloc: Global) -> Rows
        ensures { result ≡ record { live = []; adds = 0; spare = 0 } }
    {
        Rows {
            places: Vec::new(alloc),
            free: Vec::new(alloc),
            adds: 0,
            spare: 0,
        }
    }

    /// How many more adds take no memory.
    pub fn spare(&self) -> u32
        ensures { result ≡ self.now.spare }
    {
        self.spare
    }

    /// How many rows are live.
    pub fn live(&self) -> u32
        ensures { result ≡ length self.now.live }
    {
        (self.places.len() - self.free.len()) as u32
    }

    /// Makes room for so many more adds. Want of memory is the answer too where more than 2^32 - 1 rows might be live then.
    pub fn reserve(&mut self, more: u32) -> Result<(), Memory>
        ensures ok { OnOk result (self.new ≡ record self.old { spare = max self.old.spare more }) }
        ensures err { OnErr result (self.new ≡ self.old) }
        ensures enough { more ≤ self.old.spare → IsOk result }
    {
        if more <= self.spare {
            return Ok(());
        }
        let live = self.live();
        if more > MOST - live {
            return Err(Memory);
        }
        let all = (live + more) as usize;
        self.places.reserve(all - self.places.len())?;
        self.free.reserve(all - self.free.len())?;
        self.spare = more;
        Ok(())
    }

    /// Adds a row. Its name was never given before. It takes no memory.
    pub fn add(&mut self, kind: Kind, edge: Edge) -> H
        requires spare { 1 ≤ self.old.spare }
        requires few { length self.old.live < 2 ^ 32 - 1 }
        requires adds { self.old.adds < 2 ^ 63 }
        ensures generation { result.generation ≡ self.old.adds }
        ensures added { IsWithOne self.old.live (record { name = result; kind = kind; edge = edge }) self.new.live }
        ensures never { All (λ (held : Held). held.name.generation < result.generation) self.old.live }
        ensures adds { self.new.adds ≡ self.old.adds + 1 }
        ensures spare { self.new.spare + 1 ≡ self.old.spare }
    {
        let generation = self.adds;
        let row = Row {
            generation,
            kind,
            edge,
        };
        self.adds += 1;
        self.spare -= 1;
        let place = put(&mut self.places, &mut self.free, row);
        H {
            row: place,
            generation,
        }
    }

    /// The row of a name.
    fn row_of(&self, h: H) -> Option<Row>
        ensures { option_map (held_at h.row) result ≡ find_row self.now.live h }
    {
        let Some(row) = row_at(&self.places, h.row) else {
            return None;
        };
        if row.generation == h.generation {
            Some(row)
        } else {
            None
        }
    }

    /// Whether the name is live.
    pub fn is_live(&self, h: H) -> bool
        ensures { IsTrue result ↔ IsSome (find_row self.now.live h) }
    {
        self.row_of(h).is_some()
    }

    /// The kind of a live row's edge.
    pub fn kind(&self, h: H) -> Kind
        requires { IsSome (find_row self.now.live h) }
        ensures { IfSome (find_row self.now.live h) (λ held. result ≡ held.kind) }
    {
        match self.row_of(h) {
            Some(row) => row.kind,
            None => unreachable!(),
        }
    }

    /// The edge of a live row.
    pub fn edge(&self, h: H) -> Edge
        requires { IsSome (find_row self.now.live h) }
        ensures { IfSome (find_row self.now.live h) (λ held. result ≡ held.edge) }
    {
        match self.row_of(h) {
            Some(row) => row.edge,
            None => unreachable!(),
        }
    }

    /// Takes a live row away, with its kind and its edge. Its name is live no more.
    pub fn remove(&mut self, h: H) -> (Kind, Edge)
        requires { IsSome (find_row self.old.live h) }
        ensures removed { IsWithOne self.new.live (record { name = h; kind = result.0; edge = result.1 }) self.old.live }
        ensures gone { find_row self.new.live h ≡ None }
        ensures adds { self.new.adds ≡ self.old.adds }
        ensures spare { self.new.spare ≡ self.old.spare + 1 }
    {
        let Some(row) = row_at(&self.places, h.row) else {
            unreachable!()
        };
        self.places[h.row as usize] = None;
        self.free.push_reserved(h.row);
        self.spare += 1;
        (row.kind, row.edge)
    }

    /// The places at the end of the session, each with its row if it has one.
    pub fn into_places(self) -> Vec<Option<Row>>
        ensures { live_from 0 result.items ≡ self.live }
    {
        self.places
    }
}
