//! A manager, and one call on it.

ghost use Rattle.std.specs.Prelude.{◌≡◌, ◌<◌, [], Err, IfSome, IsErrOf, None, Some};
ghost use Rattle.computed_cache.specs.Entries.{places};
ghost use Rattle.dd_manager.specs.declared.requests.Asked.TheVariants as asked;
ghost use Rattle.dd_manager.specs.Answers.{IsAnswerOf};
ghost use Rattle.dd_manager.specs.Makings.{MakesAs, MakesBy};
ghost use Rattle.dd_manager.specs.Refusals.{Judges};
ghost use Rattle.dd_manager.specs.Requests.{Codes, is_foreign as is_other, names_taken as names_by};
ghost use Rattle.dd_manager.specs.Served.{CanOpen, IsFresh, IsServed, Serves, SweepsBy, Waits};
ghost use Rattle.function_laws.specs.Makings.{taken};
ghost use Rattle.node_slots.specs.Stores.{IsOpening};
ghost use Rattle.node_store.specs.declared.grow.Stop.TheVariants as stops;
ghost use Rattle.operator_calls.specs.Taking.{of_lent};
ghost use Rattle.store_rows.specs.RowStores.{RowStoreView, Same, view_of};
ghost use Rattle.store_upkeep.specs.Lasting.{orders_of};

use crate::answers::{answered, counted, told};
use crate::faults::{Fault, There, fault_of};
use crate::level_calls::serve_level;
use crate::lists::{Lists, empty, no_lists, serve_list};
use crate::node_calls::serve_node;
use crate::requests::{Answer, Asked, Request, asked_by, is_foreign, making_of, names_taken};
use crate::row_calls::serve_row;
use crate::statuses::{Status, status_of};
use edge_bits::{Kind, MOST_ELEMENTS, MOST_SLOTS, MOST_VARIABLES};
use function_laws::Making;
use std::alloc::Global;
use store_rows::{H, RowStore, Stop, Unmade};

/// A manager: its number, its rows while it is open, and the lists that were told.
#[derive(Drop)]
pub struct Manager {
    pub number: u32,
    pub rows: Option<RowStore>,
    pub lists: Lists,
}

/// What of all that a making takes is not there first.
fn fault_in(
    rows: &RowStore,
    vars: u32,
    elements: u32,
    making: &Making<H, &[u32], &[(u32, H)]>,
) -> Option<Fault>
    requires vars { vars ≡ (view_of rows.now).vars }
    requires elements { elements ≡ (view_of rows.now).elements }
    ensures { Judges rows.now (taken (of_lent making.now)) result }
{
    let there = There {
        rows,
        vars,
        elements,
    };
    fault_of(&there, making)
}

/// What one try told; none where no slot was free.
fn unless_full(manager: u32, made: Result<Result<H, Unmade>, Stop>) -> Option<Answer>
    ensures some { IfSome result (λ a. IsAnswerOf manager made a × (IsErrOf made stops.Full → ⊥)) }
    ensures none { result ≡ None → made ≡ Err stops.Full }
{
    match made {
        Err(Stop::Full) => None,
        _ => Some(answered(manager, made)),
    }
}

/// Makes a function, where all that it takes is there. It answers none where no slot was free: `make` sweeps then, and tries again.
fn try_make(
    manager: u32,
    rows: &mut RowStore,
    making: &Making<H, &[u32], &[(u32, H)]>,
) -> Option<Answer>
    ensures some { IfSome result (λ a. MakesAs manager rows.old rows.new (of_lent making.now) a) }
    ensures none { result ≡ None → Same rows.old rows.new }
    ensures orders { orders_of rows.new.store ≡ orders_of rows.old.store }
{
    let vars = rows.levels(Kind::Bdd);
    let elements = rows.levels(Kind::Zdd);
    let fault = fault_in(rows, vars, elements, making);
    match fault {
        Some(fault) => Some(told(status_of(fault))),
        None => {
            let made = rows.try_once(making);
            unless_full(manager, made)
        }
    }
}

/// Makes a function behind a sweep, where all that it takes is there.
fn make(
    manager: u32,
    mut rows: RowStore,
    making: &Making<H, &[u32], &[(u32, H)]>,
) -> (RowStore, Answer)
    ensures makes { MakesAs manager rows result.0 (of_lent making.now) result.1 }
    ensures orders { orders_of result.0.store ≡ orders_of rows.store }
{
    let vars = rows.levels(Kind::Bdd);
    let elements = rows.levels(Kind::Zdd);
    let fault = fault_in(&rows, vars, elements, making);
    match fault {
        Some(fault) => (rows, told(status_of(fault))),
        None => {
            let (left, made) = rows.sweep_and_try(making);
            (left, answered(manager, made))
        }
    }
}

/// A call that makes a function, where the rows stand. It answers none where no slot was free.
fn try_own(manager: u32, rows: &mut RowStore, lists: &Lists, request: &Request) -> Option<Answer>
    requires { Codes asked.Makes request.now.call }
    ensures some { IfSome result (λ a. MakesBy (is_other manager (names_by request.now.call) request.now) manager rows.old lists.now request.now rows.new a) }
    ensures none { result ≡ None → Same rows.old rows.new }
    ensures orders { orders_of rows.new.store ≡ orders_of rows.old.store }
{
    if is_foreign(manager, names_taken(request.call), request) {
        return Some(told(Status::Handle));
    }
    let making = making_of(request, lists);
    try_make(manager, rows, &making)
}

/// A call that makes a function, behind a sweep.
fn make_own(manager: u32, rows: RowStore, lists: &Lists, request: &Request) -> (RowStore, Answer)
    requires { Codes asked.Makes request.now.call }
    ensures makes { MakesBy (is_other manager (names_by request.now.call) request.now) manager rows lists.now request.now result.0 result.1 }
    ensures orders { orders_of result.0.store ≡ orders_of rows.store }
{
    if is_foreign(manager, names_taken(request.call), request) {
        return (rows, told(Status::Handle));
    }
    let making = making_of(request, lists);
    make(manager, rows, &making)
}

/// What nothing reaches is freed.
fn sweep_own(rows: RowStore) -> (RowStore, Answer)
    ensures { SweepsBy rows result.0 result.1 }
{
    let (rows, swept) = rows.sweep();
    (rows, counted(swept.in_use))
}

/// One call on a manager that is open, where its rows stand. It answers none of what has to take them: a sweep, a call on an order, a close,
/// and a making for which no slot was free.
fn serve_there(
    manager: u32,
    rows: &mut RowStore,
    lists: &mut Lists,
    what: Asked,
    request: &Request,
) -> Option<Answer>
    requires { Codes what request.now.call }
    ensures some { IfSome result (λ a. Serves what manager rows.old lists.old request.now (Some rows.new) lists.new a) }
    ensures none { result ≡ None → Waits what rows.old rows.new × (lists.new ≡ lists.old) }
{
    match what {
        Asked::Makes => try_own(manager, rows, lists, request),
        Asked::Row(call) => Some(serve_row(manager, rows, lists, call, request)),
        Asked::Node(call) => Some(serve_node(manager, rows, call, request)),
        Asked::List(call) => Some(serve_list(manager, lists, call, request)),
        Asked::Nothing => Some(told(Status::Call)),
        Asked::Level(_, _) => None,
        Asked::Sweep => None,
        Asked::Close => None,
    }
}

/// One call on a manager that is open, with its rows in hand: one that has to take them.
fn serve_whole(
    manager: u32,
    rows: RowStore,
    lists: &mut Lists,
    what: Asked,
    request: &Request,
) -> (Option<RowStore>, Answer)
    requires codes { Codes what request.now.call }
    requires waits { (d : RowStoreView) × Waits what d rows }
    ensures { Serves what manager rows lists.old request.now result.0 lists.new result.1 }
{
    match what {
        Asked::Makes => {
            let (left, answer) = make_own(manager, rows, lists, request);
            (Some(left), answer)
        }
        Asked::Level(order, call) => {
            let (left, answer) = serve_level(rows, order, call, request);
            (Some(left), answer)
        }
        Asked::Sweep => {
            let (left, answer) = sweep_own(rows);
            (Some(left), answer)
        }
        Asked::Close => {
            empty(lists);
            (None, told(Status::Done))
        }
        Asked::Row(_) => unreachable!(),
        Asked::Node(_) => unreachable!(),
        Asked::List(_) => unreachable!(),
        Asked::Nothing => unreachable!(),
    }
}

/// One call.
pub fn serve(manager: &mut Manager, request: Request) -> Answer
    ensures { IsServed manager.old request manager.new result }
{
    let what = asked_by(request.call);
    match &mut manager.rows {
        Some(rows) => {
            let there = serve_there(manager.number, rows, &mut manager.lists, what, &request);
            if let Some(answer) = there {
                return answer;
            }
        }
        None => return told(Status::Closed),
    }
    let Some(rows) = manager.rows.take() else {
        unreachable!();
    };
    let (left, answer) = serve_whole(manager.number, rows, &mut manager.lists, what, &request);
    manager.rows = left;
    answer
}

/// A store with no rows, where the numbers are in range.
fn opened(alloc: Global, vars: u32, elements: u32, limit: u32, remembered: u32) -> Option<RowStore>
    ensures opening { IfSome result (λ rows. CanOpen vars elements limit × IsOpening vars elements limit rows.store × (rows.rows.live ≡ [])) }
    ensures remembers { 0 < remembered → IfSome result (λ rows. places rows.store.memo ≡ remembered) }
{
    if vars > MOST_VARIABLES || elements > MOST_ELEMENTS || limit > MOST_SLOTS {
        return None;
    }
    if limit < 5 + vars {
        return None;
    }
    let entries = if remembered == 0 {
        None
    } else {
        Some(remembered)
    };
    match RowStore::new(alloc, vars, elements, limit, entries) {
        Ok(rows) => Some(rows),
        Err(_) => None,
    }
}

/// A manager with a number, of so many variables and elements, with so many slots, which remembers so many answers of operations, or with 0
/// as many as suit its slots. It is closed where variables, elements or slots are out of range, or where memory is wanting.
pub fn fresh(
    alloc: Global,
    number: u32,
    vars: u32,
    elements: u32,
    limit: u32,
    remembered: u32,
) -> Manager
    ensures { IsFresh number vars elements limit remembered result }
{
    let rows = opened(alloc, vars, elements, limit, remembered);
    Manager {
        number,
        rows,
        lists: no_lists(alloc),
    }
}
