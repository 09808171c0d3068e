//! What a command is answered.

ghost use Rattle.std.specs.Prelude.{◌≡◌, ℕ, Bool, List, true, false, IfOk, MatchResult};
ghost use Rattle.function_laws.specs.declared.history.Call.{Call};
ghost use Rattle.function_laws.specs.declared.history.Call.TheVariants as calls;
ghost use Rattle.function_laws.specs.declared.history.Reply.TheVariants as laws;
ghost use Rattle.function_laws.specs.declared.making.Making.{Making};
ghost use Rattle.dd_session.specs.declared.answers.Refusal.TheVariants as refusals;
ghost use Rattle.dd_session.specs.MadeRows.{MakesOrTells, TellsRow, with_why};
ghost use Rattle.dd_session.specs.Managing.{is_posted};
ghost use Rattle.dd_session.specs.Sessions.{Called, Denies, Seen};
ghost use Rattle.net_jobs.specs.Saying.{IsAnswered, makes_row};

use dd_session::{Fetched, Full, Placed, Refusal, Unmade};
use edge_bits::Memory;
use function_laws::Name;
use job_text::Reply;

/// What a call was answered at its place, and the name that it gave.
#[derive(Clone, Copy, Drop)]
pub struct Answered {
    pub place: u64,
    pub reply: Reply,
    pub made: Option<Name>,
}

/// What is answered of a row, or of why there is none.
fn row_or_why(told: Placed<Result<Name, Unmade>>) -> Answered
    ensures { (old new : Seen) (call : Call) (chosen : Bool) → makes_row call ≡ true → TellsRow chosen old new call (with_why (λ why. why) told.value) told.place → IsAnswered old new call result }
{
    match told.value {
        Ok(name) => Answered {
            place: told.place,
            reply: Reply::Done,
            made: Some(name),
        },
        Err(Unmade::Overflow) => Answered {
            place: told.place,
            reply: Reply::Overflow,
            made: None,
        },
        Err(Unmade::Apart) => Answered {
            place: told.place,
            reply: Reply::Apart,
            made: None,
        },
    }
}

/// What a command that makes a row of others is answered.
pub fn answer_of(made: Result<Placed<Result<Name, Unmade>>, Refusal>) -> Result<Answered, Memory>
    ensures { IfOk result (λ answered. (old new : Seen) (making : Making Name (List ℕ) (List (ℕ × Name))) → MakesOrTells old new making made → IsAnswered old new (calls.Makes making) answered) }
{
    match made {
        Ok(placed) => Ok(row_or_why(placed)),
        Err(Refusal::Full(full)) => Ok(Answered {
            place: full.place,
            reply: Reply::Full,
            made: None,
        }),
        Err(Refusal::Memory) => Err(Memory),
    }
}

/// What a call that made a row is answered.
pub fn made(placed: Placed<Name>) -> Answered
    ensures { (old new : Seen) (call : Call) → makes_row call ≡ true → Called old new call (laws.Made placed.value) placed.place → IsAnswered old new call result }
{
    Answered {
        place: placed.place,
        reply: Reply::Done,
        made: Some(placed.value),
    }
}

/// What a fetch is answered.
pub fn fetched(placed: Placed<(Name, Fetched)>) -> Answered
    ensures { (old new : Seen) (call : Call) → makes_row call ≡ true → Called old new call (laws.Fetched placed.value.0 (is_posted placed.value.1)) placed.place → IsAnswered old new call result }
{
    let (name, told) = placed.value;
    Answered {
        place: placed.place,
        reply: match told {
            Fetched::Posted => Reply::Posted,
            Fetched::Empty => Reply::Empty,
        },
        made: Some(name),
    }
}

/// What a call that is done is answered.
pub fn done(place: u64) -> Answered
    ensures { (old new : Seen) (call : Call) → makes_row call ≡ false → Called old new call laws.Done place → IsAnswered old new call result }
{
    Answered {
        place,
        reply: Reply::Done,
        made: None,
    }
}

/// What a swap of two levels is answered.
pub fn swapped(told: Result<Placed<()>, Full>) -> Answered
    ensures { (old new : Seen) (call : Call) → makes_row call ≡ false → MatchResult told (λ placed. Called old new call laws.Done placed.place) (λ full. Denies old new call (refusals.Full full)) → IsAnswered old new call result }
{
    match told {
        Ok(placed) => done(placed.place),
        Err(full) => Answered {
            place: full.place,
            reply: Reply::Full,
            made: None,
        },
    }
}

/// What a question is answered.
pub fn yes_or_no(told: Placed<bool>) -> Answered
    ensures { (old new : Seen) (call : Call) → makes_row call ≡ false → Called old new call (laws.Truth told.value) told.place → IsAnswered old new call result }
{
    Answered {
        place: told.place,
        reply: if told.value { Reply::Yes } else { Reply::No },
        made: None,
    }
}

/// What an evaluation is answered.
pub fn valued(told: Placed<i64>) -> Answered
    ensures { (old new : Seen) (call : Call) → makes_row call ≡ false → Called old new call (laws.Value told.value) told.place → IsAnswered old new call result }
{
    Answered {
        place: told.place,
        reply: Reply::Number(told.value),
        made: None,
    }
}
