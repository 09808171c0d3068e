//! The calls of a session on its rows and on the board, and what it tells of itself.

ghost use Rattle.std.specs.Prelude.{◌≡◌, ◌+◌, ◌<◌, ◌≤◌, ◌↔◌, max, length, All, IsTrue, MatchResult, OnOk, OnErr, IsOk};
ghost use Rattle.edge_bits.specs.declared.edges.Kind.{Kind as KindOf};
ghost use Rattle.edge_bits.specs.declared.edges.Kind.TheVariants as kinds;
ghost use Rattle.function_laws.specs.declared.history.Call.TheVariants as calls;
ghost use Rattle.function_laws.specs.declared.history.Reply.TheVariants as replies;
ghost use Rattle.dd_session.specs.Sessions.{Called, HasRoom, IsAsBefore, IsLive, IsLiveAs, LeadsTo, fulls_in};
ghost use Rattle.dd_session.specs.Listings.{IsListed};
ghost use Rattle.dd_session.specs.Works.{HadNoTurn, IsSweepAsked, StoresNothing};
ghost use Rattle.dd_session.specs.Managing.{is_posted};
ghost use Rattle.dd_session.specs.Reorderings.{levels_of};

use crate::answers::{Fetched, Placed};
use crate::manager::Manager;
use crate::session::{Session, take_seat};
use crate::{alone, held};
use dead_sweep::Swept;
use diagram_dumps::Listing;
use edge_bits::{Kind, Memory};
use function_laws::Order;
use handle_count::H;
use std::sync::Wait;

impl Session {
    /// Makes room for so many more rows. Want of memory changes nothing.
    pub fn reserve(&mut self, more: u32) -> Result<(), Memory>
        ensures ok { OnOk result (self.new ≡ record self.old { spare = max self.old.spare more }) }
        ensures err { OnErr result (self.new ≡ self.old) }
        ensures enough { more ≤ self.old.spare → IsOk result }
    {
        self.book.rows.reserve(more)
    }

    /// How many more rows take no memory.
    pub fn spare(&self) -> u32
        ensures { result ≡ self.now.spare }
    {
        self.book.rows.spare()
    }

    /// How many rows are live.
    pub fn live(&self) -> u32
        ensures { result ≡ length self.now.rows }
    {
        self.book.rows.live()
    }

    /// How many calls with a place the session made.
    pub fn calls(&self) -> u64
        ensures { result ≡ length self.now.entries }
    {
        self.book.calls
    }

    /// How many of them were refused for a full node table.
    pub fn fulls(&self) -> u64
        ensures { result ≡ fulls_in self.now.entries }
    {
        self.book.fulls
    }

    /// How many levels an order has, as the session knows: one for each variable, or for each element.
    pub fn levels(&self, manager: &Manager, order: Order) -> u32
        requires { self.now.manager ≡ manager.now }
        ensures { result ≡ levels_of self.now order }
    {
        let _ = &self.seat;
        manager.levels(order)
    }

    /// Whether the name is live.
    pub fn is_live(&self, h: H) -> bool
        ensures { IsTrue result ↔ IsLive self.now h }
    {
        self.book.rows.is_live(h)
    }

    /// The kind of a row.
    pub fn kind(&self, h: H) -> Kind
        requires { IsLive self.now h }
        ensures { (k : KindOf) → IsLiveAs k self.now h → result ≡ k }
    {
        self.book.rows.kind(h)
    }

    /// Where a row leads: the number of its slot, and the slot's generation. Both stay as long as the row is live, whatever other
    /// calls do. It draws no place.
    pub fn where_of(&mut self, manager: &Manager, h: H) -> (u32, u32)
        requires own { self.old.manager ≡ manager.now }
        requires live { IsLive self.old h }
        ensures same { self.new ≡ self.old }
        ensures leads { LeadsTo self.old.rows h result.0 result.1 }
    {
        let mut pass = take_seat(&mut self.seat);
        let place = alone::where_of(&manager.guard, &mut pass, &self.book, h);
        self.seat = Some(pass);
        place
    }

    /// A further row with the function of a row. There is room for it.
    pub fn copy(&mut self, manager: &Manager, h: H) -> Placed<H>
        requires own { self.old.manager ≡ manager.now }
        requires room { HasRoom self.old }
        requires spare { 1 ≤ self.old.spare }
        requires live { IsLive self.old h }
        ensures told { Called self.old self.new (calls.Copy h) (replies.Made result.value) result.place }
        ensures turns { HadNoTurn self.old self.new }
        ensures spare { self.new.spare + 1 ≡ self.old.spare }
    {
        let mut pass = take_seat(&mut self.seat);
        let placed = alone::copy(&manager.guard, &mut pass, &mut self.book, h);
        self.seat = Some(pass);
        placed
    }

    /// Lets a row go. Its name is live no more.
    pub fn drop_row(&mut self, manager: &Manager, h: H) -> Placed<()>
        requires own { self.old.manager ≡ manager.now }
        requires room { HasRoom self.old }
        requires live { IsLive self.old h }
        ensures told { Called self.old self.new (calls.DropRow h) replies.Done result.place }
        ensures turns { HadNoTurn self.old self.new }
        ensures fewer { length self.new.rows + 1 ≡ length self.old.rows }
        ensures spare { self.new.spare ≡ self.old.spare + 1 }
    {
        let mut pass = take_seat(&mut self.seat);
        let placed = alone::drop_row(&manager.guard, &mut pass, &mut self.book, h);
        self.seat = Some(pass);
        placed
    }

    /// Whether two rows of one kind have one function.
    pub fn same(&mut self, manager: &Manager, f: H, g: H) -> Placed<bool>
        requires own { self.old.manager ≡ manager.now }
        requires room { HasRoom self.old }
        requires alike { (k : KindOf) × IsLiveAs k self.old f × IsLiveAs k self.old g }
        ensures told { Called self.old self.new (calls.Same f g) (replies.Truth result.value) result.place }
        ensures turns { HadNoTurn self.old self.new }
        ensures spare { self.new.spare ≡ self.old.spare }
    {
        let mut pass = take_seat(&mut self.seat);
        let placed = alone::same(&manager.guard, &mut pass, &mut self.book, f, g);
        self.seat = Some(pass);
        placed
    }

    /// Puts the function of a row into a cell of the board, in place of what was there.
    pub fn post<R: Wait>(&mut self, rt: &R, manager: &Manager, cell: u8, h: H) -> Placed<()>
        requires own { self.old.manager ≡ manager.now }
        requires room { HasRoom self.old }
        requires live { IsLive self.old h }
        ensures told { Called self.old self.new (calls.Post cell h) replies.Done result.place }
        ensures stored { StoresNothing self.old self.new }
        ensures spare { self.new.spare ≡ self.old.spare }
    {
        let pass = take_seat(&mut self.seat);
        let (pass, placed) = held::post(rt, &manager.guard, pass, &mut self.book, cell, h);
        self.seat = Some(pass);
        placed
    }

    /// A new row with the function of a cell, and Posted, where that has the kind of another row; else with the other's, and
    /// Empty. There is room for it.
    pub fn fetch<R: Wait>(
        &mut self,
        rt: &R,
        manager: &Manager,
        cell: u8,
        other: H,
    ) -> Placed<(H, Fetched)>
        requires own { self.old.manager ≡ manager.now }
        requires room { HasRoom self.old }
        requires spare { 1 ≤ self.old.spare }
        requires live { IsLive self.old other }
        ensures told { Called self.old self.new (calls.Fetch cell other) (replies.Fetched result.value.0 (is_posted result.value.1)) result.place }
        ensures stored { StoresNothing self.old self.new }
        ensures spare { self.new.spare + 1 ≡ self.old.spare }
    {
        let pass = take_seat(&mut self.seat);
        let (pass, placed) = held::fetch(rt, &manager.guard, pass, &mut self.book, cell, other);
        self.seat = Some(pass);
        placed
    }

    /// The nodes of some rows under the order of the variables that the calls of all sessions below a place leave, which the
    /// session notes. It draws no place itself. Want of memory leaves the session as it was.
    pub fn list<R: Wait>(
        &mut self,
        rt: &R,
        manager: &Manager,
        rows: &[H],
    ) -> Result<Listing, Memory>
        requires own { self.old.manager ≡ manager.now }
        requires live { All (IsLiveAs kinds.Bdd self.old) rows.now }
        ensures told { MatchResult result (IsListed self.old self.new rows.now) (λ _. IsAsBefore self.old self.new) }
        ensures stored { StoresNothing self.old self.new }
        ensures spare { self.new.spare ≡ self.old.spare }
    {
        let alloc = manager.allocator();
        let pass = take_seat(&mut self.seat);
        let (pass, listing) = held::list(rt, alloc, &manager.guard, pass, &self.book, rows);
        self.seat = Some(pass);
        listing
    }

    /// Frees the slots that nothing reaches.
    pub fn sweep<R: Wait>(&mut self, rt: &R, manager: &Manager) -> Placed<Swept>
        requires own { self.old.manager ≡ manager.now }
        requires room { HasRoom self.old }
        ensures told { Called self.old self.new calls.Sweep replies.Done result.place }
        ensures swept { IsSweepAsked self.old self.new result.value }
        ensures stored { StoresNothing self.old self.new }
        ensures spare { self.new.spare ≡ self.old.spare }
    {
        let pass = take_seat(&mut self.seat);
        let (pass, placed) = held::sweep(rt, &manager.guard, pass, &mut self.book);
        self.seat = Some(pass);
        placed
    }
}
