//! The calls on rows.

ghost use Rattle.std.specs.Prelude.{◌≡◌, MatchBool};
ghost use Rattle.store_upkeep.specs.Lasting.{orders_of};
ghost use Rattle.store_rows.specs.RowStores.{IsLive, IsLiveAs, Same};
ghost use Rattle.dd_manager.specs.Requests.{is_foreign as is_other};
ghost use Rattle.dd_manager.specs.RowCalls.{CopiesBy, DropsBy, ServesRow, TellsImplied, TellsSame, TellsValue};

use crate::answers::{named, told, truth, valued};
use crate::lists::Lists;
use crate::requests::{Answer, Request, RowCall, first_of, is_foreign, second_of};
use crate::statuses::Status;
use edge_bits::Kind;
use store_rows::{H, RowStore};

/// A further row with the function of a row.
fn copy_own(manager: u32, rows: &mut RowStore, request: &Request) -> Answer
    ensures serves { CopiesBy (is_other manager 1 request.now) manager rows.old request.now rows.new result }
    ensures orders { orders_of rows.new.store ≡ orders_of rows.old.store }
{
    let h = first_of(request);
    if is_foreign(manager, 1, request) {
        return told(Status::Handle);
    }
    if !rows.is_live(h) {
        return told(Status::Handle);
    }
    let copied = rows.copy(h);
    match copied {
        Ok(name) => named(manager, name),
        Err(_) => told(Status::Memory),
    }
}

/// A row is let go.
fn drop_own(manager: u32, rows: &mut RowStore, request: &Request) -> Answer
    ensures serves { DropsBy (is_other manager 1 request.now) rows.old request.now rows.new result }
    ensures orders { orders_of rows.new.store ≡ orders_of rows.old.store }
{
    let h = first_of(request);
    if is_foreign(manager, 1, request) {
        return told(Status::Handle);
    }
    if !rows.is_live(h) {
        return told(Status::Handle);
    }
    rows.drop_row(h);
    told(Status::Done)
}

/// Whether a row is of a kind.
pub fn has_kind(rows: &RowStore, kind: Kind, h: H) -> bool
    requires { IsLive rows.now.rows.live h }
    ensures { MatchBool result (IsLiveAs kind rows.now.rows.live h) (IsLiveAs kind rows.now.rows.live h → ⊥) }
{
    rows.kind(h) == kind
}

/// Whether two rows of one kind have one function.
fn same_own(manager: u32, rows: &RowStore, request: &Request) -> Answer
    ensures { TellsSame (is_other manager 2 request.now) rows.now request.now rows.now result }
{
    let f = first_of(request);
    let g = second_of(request);
    if is_foreign(manager, 2, request) {
        return told(Status::Handle);
    }
    if !rows.is_live(f) {
        return told(Status::Handle);
    }
    if !rows.is_live(g) {
        return told(Status::Handle);
    }
    let kind = rows.kind(f);
    if !has_kind(rows, kind, g) {
        return told(Status::Kind);
    }
    truth(rows.same(f, g))
}

/// The value of a row at the bits that were set.
fn value_own(manager: u32, rows: &mut RowStore, lists: &Lists, request: &Request) -> Answer
    ensures serves { TellsValue (is_other manager 1 request.now) rows.old lists.now request.now rows.new result }
    ensures orders { orders_of rows.new.store ≡ orders_of rows.old.store }
{
    let h = first_of(request);
    if is_foreign(manager, 1, request) {
        return told(Status::Handle);
    }
    if !rows.is_live(h) {
        return told(Status::Handle);
    }
    let kind = rows.kind(h);
    let levels = rows.levels(kind);
    let value = rows.eval(h, &lists.bits[..levels as usize]);
    valued(value, 0)
}

/// Whether a BDD is true wherever another is.
fn implies_own(manager: u32, rows: &mut RowStore, request: &Request) -> Answer
    ensures serves { TellsImplied (is_other manager 2 request.now) rows.old request.now rows.new result }
    ensures orders { orders_of rows.new.store ≡ orders_of rows.old.store }
{
    let f = first_of(request);
    let g = second_of(request);
    if is_foreign(manager, 2, request) {
        return told(Status::Handle);
    }
    if !rows.is_live(f) {
        return told(Status::Handle);
    }
    if !rows.is_live(g) {
        return told(Status::Handle);
    }
    if !has_kind(rows, Kind::Bdd, f) {
        return told(Status::Kind);
    }
    if !has_kind(rows, Kind::Bdd, g) {
        return told(Status::Kind);
    }
    let implied = rows.leq(f, g);
    match implied {
        Ok(yes) => truth(yes),
        Err(_) => told(Status::Memory),
    }
}

/// A call on rows.
pub fn serve_row(
    manager: u32,
    rows: &mut RowStore,
    lists: &Lists,
    call: RowCall,
    request: &Request,
) -> Answer
    ensures serves { ServesRow call manager rows.old lists.now request.now rows.new result }
    ensures orders { orders_of rows.new.store ≡ orders_of rows.old.store }
{
    match call {
        RowCall::Copy => copy_own(manager, rows, request),
        RowCall::DropRow => drop_own(manager, rows, request),
        RowCall::Same => same_own(manager, rows, request),
        RowCall::Value => value_own(manager, rows, lists, request),
        RowCall::Implies => implies_own(manager, rows, request),
    }
}
