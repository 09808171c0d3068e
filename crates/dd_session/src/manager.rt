//! The manager, which opens and closes the sessions of one store.

ghost use Rattle.std.specs.Prelude.{◌≡◌, ◌+◌, ◌<◌, ◌≤◌, ◌↔◌, [], IfOk, IsErrOf, true};
ghost use Rattle.seat_guard.specs.Passes.{IsPassOf, in_hand, known};
ghost use Rattle.seat_guard.specs.Views.{one_more};
ghost use Rattle.dd_session.specs.Managing.{AreAll, IsClosing, IsClosed, IsConfig, newcomer, opened};
ghost use Rattle.dd_session.specs.Reorderings.{opened_levels};
ghost use Rattle.dd_session.specs.Turns.{managed_by};

use crate::book::Book;
use crate::closing::join_all;
use crate::session::Session;
use edge_bits::{
    FIRST_PROJECTION, MOST_ELEMENTS, MOST_SESSIONS, MOST_SLOTS, MOST_VARIABLES, Memory,
};
use function_laws::Order;
use handle_count::Rows;
use seat_guard::opening::open;
use seat_guard::seat::{Guard, Pass, Rest};
use seat_guard::view::Opening;
use shared_store::Shared;
use std::alloc::Global;
use std::marker::Model;
use std::sync::Wait;

/// The numbers of a manager: of variables and of elements, at most 1,024 each, and of slots, 5 and one for each variable at
/// least and 8,388,607 at most.
#[derive(Debug, Clone, Copy, PartialEq, Eq, Drop)]
pub struct Config {
    pub vars: u32,
    pub elements: u32,
    pub limit: u32,
}

/// Why no manager was opened.
#[derive(Debug, Clone, Copy, PartialEq, Eq, Drop)]
pub enum OpenFault {
    Memory,
    Config,
}

/// One store and one board, for the sessions that it was opened with.
#[derive(Drop)]
pub struct Manager {
    pub(crate) guard: Guard<Shared>,
    closing: Rest<Shared>,
    vars: u32,
    elements: u32,
    /// Where calls take memory for lists of their own.
    alloc: Global,
}

impl Model for Manager {
    ghost use Rattle.std.specs.Prelude.{◌≡◌};
    ghost use Rattle.seat_guard.specs.Passes.{IsRestOf, resting};
    ghost use Rattle.dd_session.specs.Managing.{IsClosing, Managed, managed_of};

    ghost Value = { Managed };

    ghost view = { λ m. managed_of m.guard m.closing };

    ghost invariant = { λ m. IsRestOf m.guard m.closing × IsClosing (resting m.closing) × ((resting m.closing).vars ≡ m.vars) × ((resting m.closing).elements ≡ m.elements) };
}

/// The next session.
fn next_session(alloc: Global, guard: &Guard<Shared>, closing: &mut Pass<Shared>) -> Session
    requires own { IsPassOf guard.now closing.old × ((known closing.old).closing ≡ true) }
    requires room { (known closing.old).given < (known closing.old).sessions }
    requires few { (known closing.old).sessions ≤ MOST_SESSIONS }
    ensures closing { IsPassOf guard.now closing.new × (known closing.new ≡ one_more (known closing.old)) × (in_hand closing.new ≡ in_hand closing.old) }
    ensures new { result ≡ newcomer (managed_by guard.now.table.shared.table_id (known closing.old)) (known closing.old).given }
{
    let pass = guard.split(closing);
    let book = Book {
        rows: Rows::new(alloc),
        calls: 0,
        fulls: 0,
    };
    Session {
        seat: Some(pass),
        book,
    }
}

/// The sessions of a new manager.
fn open_sessions(
    alloc: Global,
    guard: &Guard<Shared>,
    closing: &mut Pass<Shared>,
    count: u32,
) -> Result<Vec<Session>, Memory>
    requires own { IsPassOf guard.now closing.old × (in_hand closing.old ≡ []) }
    requires closing { ((known closing.old).closing ≡ true) × ((known closing.old).gone ≡ []) × ((known closing.old).rows ≡ []) }
    requires first { (known closing.old).given ≡ 0 }
    requires room { (count ≡ (known closing.old).sessions) × (count ≤ MOST_SESSIONS) }
    ensures own { IsPassOf guard.now closing.new × (in_hand closing.new ≡ []) }
    ensures kept { managed_by guard.now.table.shared.table_id (known closing.new) ≡ managed_by guard.now.table.shared.table_id (known closing.old) }
    ensures sessions { IfOk result (λ all. IsClosing (known closing.new) × (all.items ≡ opened (managed_by guard.now.table.shared.table_id (known closing.old)))) }
{
    let mut all = Vec::new(alloc);
    for _ in 0..count {
        all.push(next_session(alloc, guard, closing))?;
    }
    Ok(all)
}

/// The manager of a new table, and its sessions.
fn with_sessions(
    alloc: Global,
    guard: Guard<Shared>,
    mut closing: Pass<Shared>,
    config: Config,
    sessions: u32,
) -> Result<(Manager, Vec<Session>), Memory>
    requires own { IsPassOf guard closing × (in_hand closing ≡ []) }
    requires numbers { ((known closing).vars ≡ config.vars) × ((known closing).elements ≡ config.elements) }
    requires closing { ((known closing).closing ≡ true) × ((known closing).gone ≡ []) × ((known closing).rows ≡ []) }
    requires first { (known closing).given ≡ 0 }
    requires room { (sessions ≡ (known closing).sessions) × (sessions ≤ MOST_SESSIONS) }
    ensures { IfOk result (λ r. (r.0 ≡ managed_by guard.table.shared.table_id (known closing)) × (r.1.items ≡ opened r.0)) }
{
    let all = open_sessions(alloc, &guard, &mut closing, sessions)?;
    let closing = closing.rest().ok_or(Memory)?;
    Ok((
        Manager {
            guard,
            closing,
            vars: config.vars,
            elements: config.elements,
            alloc,
        },
        all,
    ))
}

/// A manager with numbers in range, and its sessions.
fn open_in_range(
    alloc: Global,
    config: Config,
    sessions: u32,
) -> Result<(Manager, Vec<Session>), Memory>
    requires { IsConfig config.vars config.elements config.limit sessions }
    ensures { IfOk result (λ r. (r.0.vars ≡ config.vars) × (r.0.elements ≡ config.elements) × (r.0.limit ≡ config.limit) × (r.0.sessions ≡ sessions) × (r.1.items ≡ opened r.0)) }
{
    let key = Opening {
        vars: config.vars,
        elements: config.elements,
        slots: config.limit,
        sessions,
    };
    let shared = Shared::new(alloc, config.vars, config.elements, config.limit)?;
    let (guard, closing) = open(alloc, shared, &key)?;
    with_sessions(alloc, guard, closing, config, sessions)
}

/// How many calls there were, and how many slots were left in use.
#[derive(Debug, Clone, Copy, PartialEq, Eq, Drop)]
pub struct Closed {
    pub calls: u64,
    pub left: u32,
}

impl Manager {
    /// Where a call takes memory for a list of its own.
    pub(crate) fn allocator(&self) -> Global {
        self.alloc
    }

    /// How many levels an order had as the manager was opened: one for each variable, or for each element.
    pub(crate) fn levels(&self, order: Order) -> u32
        ensures { result ≡ opened_levels self.now order }
    {
        match order {
            Order::Variables => self.vars,
            Order::Elements => self.elements,
        }
    }

    /// A manager and its sessions, 1 to 64, which have made no call. Config is answered exactly where a number is out of range.
    pub fn open(
        alloc: Global,
        config: Config,
        sessions: u32,
    ) -> Result<(Manager, Vec<Session>), OpenFault>
        ensures ok { IfOk result (λ r. (r.0.vars ≡ config.vars) × (r.0.elements ≡ config.elements) × (r.0.sessions ≡ sessions) × (r.1.items ≡ opened r.0)) }
        ensures limit { IfOk result (λ r. r.0.limit ≡ config.limit) }
        ensures config { IsErrOf result OpenFault.Config ↔ (IsConfig config.vars config.elements config.limit sessions → ⊥) }
    {
        let Config {
            vars,
            elements,
            limit,
        } = config;
        if vars > MOST_VARIABLES
            || elements > MOST_ELEMENTS
            || limit < FIRST_PROJECTION + vars
            || limit > MOST_SLOTS
            || sessions == 0
            || sessions > MOST_SESSIONS
        {
            return Err(OpenFault::Config);
        }
        match open_in_range(alloc, config, sessions) {
            Ok(opened) => Ok(opened),
            Err(Memory) => Err(OpenFault::Memory),
        }
    }

    /// Takes the sessions in, lets go what they and the board held, and sweeps. The calls of all sessions, each once, are one legal
    /// history, which leaves each session its rows; what is left in use is 5 slots and one for each variable.
    pub fn close<R: Wait>(self, rt: &R, sessions: Vec<Session>) -> Closed
        requires { AreAll self sessions.items }
        ensures history { IsClosed self sessions.items result.calls result.left }
        ensures left { result.left ≡ 5 + self.vars }
    {
        let Manager {
            guard,
            closing,
            vars: _,
            elements: _,
            alloc: _,
        } = self;
        let mut closing = closing.wake(rt);
        join_all(&guard, &mut closing, sessions);
        let calls = guard.calls(&mut closing);
        let mut shared = guard.take_last(rt, &mut closing);
        shared.let_all_go();
        let (_shared, swept) = shared.sweep();
        Closed {
            calls,
            left: swept.in_use,
        }
    }
}
