//! The answers.

ghost use Rattle.std.specs.Prelude.{◌≡◌, ◌↔◌, IsTrue, pos};
ghost use Rattle.dd_manager.specs.Answers.{HasName, HasValue, IsAnswerOf, IsTopTold, Says};
ghost use Rattle.dd_manager.specs.declared.statuses.Status.TheVariants as statuses;

use crate::requests::Answer;
use crate::statuses::{Status, code};
use store_rows::{H, Stop, Top, Unmade};

/// A status alone.
pub fn told(status: Status) -> Answer
    ensures { Says status result }
{
    Answer {
        status: code(status),
        number: 0,
        manager: 0,
        row: 0,
        generation: 0,
        value: 0,
    }
}

/// A name.
pub fn named(manager: u32, h: H) -> Answer
    ensures { HasName manager h result }
{
    Answer {
        status: code(Status::Done),
        number: 0,
        manager,
        row: h.row,
        generation: h.generation,
        value: 0,
    }
}

/// A value, with a number beside it.
pub fn valued(value: i64, number: u32) -> Answer
    ensures value { HasValue value result }
    ensures number { result.number ≡ number }
{
    Answer {
        status: code(Status::Done),
        number,
        manager: 0,
        row: 0,
        generation: 0,
        value,
    }
}

/// A number as a value.
pub fn counted(count: u32) -> Answer
    ensures { HasValue (pos count) result }
{
    valued(i64::from(count), 0)
}

/// A truth value.
pub fn truth(value: bool) -> Answer
    ensures status { Says statuses.Done result }
    ensures value { (result.value ≡ pos 1) ↔ IsTrue value }
{
    valued(i64::from(value), 0)
}

/// What a making told.
pub fn answered(manager: u32, made: Result<Result<H, Unmade>, Stop>) -> Answer
    ensures { IsAnswerOf manager made result }
{
    match made {
        Ok(Ok(h)) => named(manager, h),
        Ok(Err(Unmade::Overflow)) => told(Status::Overflow),
        Ok(Err(Unmade::Apart)) => told(Status::Apart),
        Err(Stop::Memory) => told(Status::Memory),
        Err(Stop::Full) => told(Status::Full),
    }
}

/// What is at the top of a diagram.
pub fn topped(top: Top) -> Answer
    ensures { IsTopTold top result }
{
    match top {
        Top::Node(number) => valued(i64::from(number), 1),
        Top::Leaf(value) => valued(value, 0),
    }
}
