//! The calls on the node of a row, by which a program goes down a diagram.

ghost use Rattle.std.specs.Prelude.{◌≡◌};
ghost use Rattle.store_upkeep.specs.Lasting.{orders_of};
ghost use Rattle.dd_manager.specs.NodeCalls.{GivesChild, IsChildTold, ServesNode, TellsKind, TellsTop};
ghost use Rattle.dd_manager.specs.Requests.{is_foreign as is_other};

use crate::answers::{counted, named, told, topped};
use crate::requests::{Answer, NodeCall, Request, first_of, is_foreign};
use crate::statuses::{Status, code_of_kind};
use edge_bits::Memory;
use store_rows::{H, RowStore};

/// The kind of a row.
fn kind_own(manager: u32, rows: &RowStore, request: &Request) -> Answer
    ensures { TellsKind (is_other manager 1 request.now) rows.now request.now rows.now result }
{
    let h = first_of(request);
    if is_foreign(manager, 1, request) {
        return told(Status::Handle);
    }
    if !rows.is_live(h) {
        return told(Status::Handle);
    }
    counted(code_of_kind(rows.kind(h)))
}

/// What is at the top of a row's diagram.
fn top_own(manager: u32, rows: &mut RowStore, request: &Request) -> Answer
    ensures serves { TellsTop (is_other manager 1 request.now) rows.old request.now rows.new result }
    ensures orders { orders_of rows.new.store ≡ orders_of rows.old.store }
{
    let h = first_of(request);
    if is_foreign(manager, 1, request) {
        return told(Status::Handle);
    }
    if !rows.is_live(h) {
        return told(Status::Handle);
    }
    let top = rows.top(h);
    topped(top)
}

/// What was told of a child.
fn child_told(manager: u32, made: Result<Option<H>, Memory>) -> Answer
    ensures { IsChildTold manager made result }
{
    match made {
        Ok(Some(name)) => named(manager, name),
        Ok(None) => told(Status::Range),
        Err(_) => told(Status::Memory),
    }
}

/// A child of a row's node, as a new row.
fn child_own(manager: u32, taken: bool, rows: &mut RowStore, request: &Request) -> Answer
    ensures serves { GivesChild (is_other manager 1 request.now) manager taken rows.old request.now rows.new result }
    ensures orders { orders_of rows.new.store ≡ orders_of rows.old.store }
{
    let h = first_of(request);
    if is_foreign(manager, 1, request) {
        return told(Status::Handle);
    }
    if !rows.is_live(h) {
        return told(Status::Handle);
    }
    let made = rows.child(h, taken);
    child_told(manager, made)
}

/// A call on the node of a row.
pub fn serve_node(manager: u32, rows: &mut RowStore, call: NodeCall, request: &Request) -> Answer
    ensures serves { ServesNode call manager rows.old request.now rows.new result }
    ensures orders { orders_of rows.new.store ≡ orders_of rows.old.store }
{
    match call {
        NodeCall::Kind => kind_own(manager, rows, request),
        NodeCall::Top => top_own(manager, rows, request),
        NodeCall::Then => child_own(manager, true, rows, request),
        NodeCall::Else => child_own(manager, false, rows, request),
    }
}
