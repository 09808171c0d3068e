//! The calls on the levels of an order.

ghost use Rattle.dd_manager.specs.Answers.{Says};
ghost use Rattle.dd_manager.specs.LevelCalls.{ServesLevel, SiftsBy, SwapsBy, TellsAt, TellsLevel, swap_status};

use crate::answers::{counted, told};
use crate::requests::{Answer, LevelCall, Request};
use crate::statuses::Status;
use function_laws::Order;
use store_rows::{Crowded, RowStore};

/// The level of a variable, or of an element.
fn level_own(mut rows: RowStore, order: Order, number: u32) -> (RowStore, Answer)
    ensures { TellsLevel order rows number result.0 result.1 }
{
    let count = rows.levels_in(order);
    if number >= count {
        return (rows, told(Status::Range));
    }
    let level = rows.level_of(order, number);
    (rows, counted(level))
}

/// What stands at a level.
fn at_own(mut rows: RowStore, order: Order, level: u32) -> (RowStore, Answer)
    ensures { TellsAt order rows level result.0 result.1 }
{
    let count = rows.levels_in(order);
    if level >= count {
        return (rows, told(Status::Range));
    }
    let number = rows.at_level(order, level);
    (rows, counted(number))
}

/// What a swap told.
fn swapped(done: Result<(), Crowded>) -> Answer
    ensures { Says (swap_status done) result }
{
    match done {
        Ok(()) => told(Status::Done),
        Err(_) => told(Status::Full),
    }
}

/// A level and the next are exchanged.
fn swap_own(mut rows: RowStore, order: Order, level: u32) -> (RowStore, Answer)
    ensures { SwapsBy order rows level result.0 result.1 }
{
    let count = rows.levels_in(order);
    if level >= count || level + 1 >= count {
        return (rows, told(Status::Range));
    }
    let (left, done) = rows.swap(order, level);
    (left, swapped(done))
}

/// An order is sifted.
fn sift_own(mut rows: RowStore, order: Order) -> (RowStore, Answer)
    ensures { SiftsBy order rows result.0 result.1 }
{
    let count = rows.levels_in(order);
    let Ok(mut blocks) = rows.one_block(count) else {
        return (rows, told(Status::Memory));
    };
    let (left, sifted) = rows.sift(order, &mut blocks);
    (left, counted(sifted.after))
}

/// A call on the levels of an order.
pub fn serve_level(
    rows: RowStore,
    order: Order,
    call: LevelCall,
    request: &Request,
) -> (RowStore, Answer)
    ensures { ServesLevel call order rows request.now result.0 result.1 }
{
    match call {
        LevelCall::LevelOf => level_own(rows, order, request.number),
        LevelCall::At => at_own(rows, order, request.number),
        LevelCall::Swap => swap_own(rows, order, request.number),
        LevelCall::Sift => sift_own(rows, order),
    }
}
