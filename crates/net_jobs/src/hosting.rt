//! The sessions of a manager, as those that build the functions of networks.

ghost use Rattle.std.specs.Prelude.{◌≡◌, ◌<◌, ◌≤◌, ◌^◌, length};
ghost use Rattle.edge_bits.specs.declared.limits.TheConstants.{CELLS, MOST_ROWS};
ghost use Rattle.dd_session.specs.Managing.{is_posted};
ghost use Rattle.net_builds.specs.Standings.{Fetches, IsLive};
ghost use Rattle.net_jobs.specs.Hosts.{named_by, standing_of};

use crate::evaluation::evaluate;
use crate::gate::Gate;
use crate::pace::Pace;
use crossbeam_utils::Backoff;
use dd_session::{Blocks, Fetched, Full, Manager, Placed, Refusal, Session};
use diagram_dumps::Listing;
use edge_bits::Memory;
use function_laws::Name;
use net_builds::{Host, HostRefusal, Taken, Told};
use std::alloc::Global;
use std::sync::Wait;

/// A manager whose sessions build functions. The gate is passed before each output, with the number of the worker.
#[derive(Drop)]
pub struct SessionHost<'a, R, G> {
    pub rt: &'a R,
    pub manager: &'a Manager,
    pub gate: &'a G,
    pub worker: u32,
    pub pace: &'a Pace,
}

/// Waits for ever where the session has made all the calls that it may make.
fn ready<R: Wait>(rt: &R, session: &Session)
    ensures { length session.now.entries < 2 ^ 47 }
{
    let backoff = Backoff::new();
    for _ in rt.forever() {
        if session.calls() < 1 << 47 {
            return;
        }
        backoff.snooze();
    }
    unreachable!()
}

/// The name that a call made, without its place.
fn named(told: Result<Placed<Name>, Refusal>) -> Result<Name, HostRefusal<Full>>
    ensures { result ≡ named_by told }
{
    match told {
        Ok(placed) => Ok(placed.value),
        Err(Refusal::Memory) => Err(HostRefusal::Memory),
        Err(Refusal::Full(full)) => Err(HostRefusal::Full(full)),
    }
}

/// Whether a fetch took what the board had.
fn was_posted(from: Fetched) -> bool
    ensures { result ≡ is_posted from }
{
    match from {
        Fetched::Posted => true,
        Fetched::Empty => false,
    }
}

/// Fetches from a cell of the board. There is room for a row.
fn fetch_row<R: Wait>(
    rt: &R,
    manager: &Manager,
    session: &mut Session,
    cell: u32,
    other: Name,
) -> Told<Taken>
    requires cell { cell < CELLS }
    requires own { session.old.manager ≡ manager.now }
    requires room { length session.old.rows < MOST_ROWS }
    requires spare { 1 ≤ session.old.spare }
    requires live { IsLive (standing_of session.old) other }
    ensures own { session.new.manager ≡ session.old.manager }
    ensures none_added { session.new.more_variables ≡ session.old.more_variables }
    ensures fetches { Fetches cell (standing_of session.old) (standing_of session.new) other result.value.name result.value.posted result.place }
{
    ready(rt, session);
    let fetched = session.fetch(rt, manager, cell as u8, other);
    let (name, from) = fetched.value;
    let posted = was_posted(from);
    Told {
        place: fetched.place,
        value: Taken { name, posted },
    }
}

impl<'a, R: Wait, G: Gate> Host for SessionHost<'a, R, G> {
    ghost use Rattle.std.specs.Prelude.{◌≡◌};
    ghost use Rattle.net_jobs.specs.Hosts.{IsSessionOf, TellsFullOf, standing_of};

    type Session = Session;

    type Full = Full;

    ghost standing = { λ s. standing_of s };

    ghost has = { λ host s. IsSessionOf host.manager.now s };

    ghost tells = { λ host full e. TellsFullOf host.manager.now full e };

    ghost limit = { λ host. host.manager.now.limit };

    fn pass(&self, output: u32) {
        self.gate.pass(self.worker, output);
    }

    fn constant(&self, session: &mut Session, value: bool) -> Result<Name, HostRefusal<Full>> {
        self.pace.step(self.rt, self.worker, session.calls());
        ready(self.rt, session);
        if value {
            named(session.one(self.rt, self.manager))
        } else {
            named(session.zero(self.rt, self.manager))
        }
    }

    fn projection(&self, session: &mut Session, variable: u32) -> Result<Name, HostRefusal<Full>> {
        self.pace.step(self.rt, self.worker, session.calls());
        ready(self.rt, session);
        named(session.var(self.rt, self.manager, variable))
    }

    fn complement(&self, session: &mut Session, f: Name) -> Result<Name, HostRefusal<Full>> {
        self.pace.step(self.rt, self.worker, session.calls());
        ready(self.rt, session);
        named(session.not(self.rt, self.manager, f))
    }

    fn conjunction(
        &self,
        session: &mut Session,
        f: Name,
        g: Name,
    ) -> Result<Name, HostRefusal<Full>> {
        self.pace.step(self.rt, self.worker, session.calls());
        ready(self.rt, session);
        named(session.and(self.rt, self.manager, f, g))
    }

    fn disjunction(
        &self,
        session: &mut Session,
        f: Name,
        g: Name,
    ) -> Result<Name, HostRefusal<Full>> {
        self.pace.step(self.rt, self.worker, session.calls());
        ready(self.rt, session);
        named(session.or(self.rt, self.manager, f, g))
    }

    fn choice(
        &self,
        session: &mut Session,
        f: Name,
        g: Name,
        h: Name,
    ) -> Result<Name, HostRefusal<Full>> {
        self.pace.step(self.rt, self.worker, session.calls());
        ready(self.rt, session);
        named(session.ite(self.rt, self.manager, f, g, h))
    }

    fn let_go(&self, session: &mut Session, f: Name) {
        self.pace.step(self.rt, self.worker, session.calls());
        ready(self.rt, session);
        let _placed = session.drop_row(self.manager, f);
    }

    fn value(&self, session: &mut Session, f: Name, bits: &[bool]) -> bool {
        self.pace.step(self.rt, self.worker, session.calls());
        ready(self.rt, session);
        evaluate(self.rt, self.manager, session, f, bits).value != 0
    }

    fn post(&self, session: &mut Session, cell: u32, f: Name) -> Told<()> {
        self.pace.step(self.rt, self.worker, session.calls());
        ready(self.rt, session);
        let posted = session.post(self.rt, self.manager, cell as u8, f);
        Told {
            place: posted.place,
            value: (),
        }
    }

    fn fetch(&self, session: &mut Session, cell: u32, other: Name) -> Result<Told<Taken>, Memory> {
        match session.reserve(1) {
            Ok(()) => Ok(fetch_row(self.rt, self.manager, session, cell, other)),
            Err(Memory) => Err(Memory),
        }
    }

    fn sift(&self, alloc: Global, session: &mut Session, variables: u32) -> Result<(), Memory> {
        let mut blocks = Blocks::one(alloc, variables)?;
        self.pace.step(self.rt, self.worker, session.calls());
        ready(self.rt, session);
        let _sifted = session.sift(self.rt, self.manager, &mut blocks);
        Ok(())
    }

    fn list(&self, session: &mut Session, names: &[Name]) -> Result<Listing, Memory> {
        session.list(self.rt, self.manager, names)
    }
}
