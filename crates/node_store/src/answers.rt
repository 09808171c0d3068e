//! The table of a call's own answers, which is lossy.

ghost use Rattle.std.specs.Prelude.{◌<◌, IfOk, IfSome};
ghost use Rattle.node_store.specs.Remembering.{IsBlank, IsOf, IsRecalled, Remembers};

use crate::operator::Task;
use edge_bits::{Edge, Memory};
use std::alloc::Global;

/// An answer of the present call.
#[derive(Clone, Copy, PartialEq, Eq, Drop)]
pub struct Answer {
    pub task: Task,
    pub edge: Edge,
}

/// The places of a table at its start.
const FIRST_PLACES: usize = 64;

/// The most places of a table.
const MOST_PLACES: usize = 1 << 22;

/// An edge with its complement as one number.
fn number_of(edge: Edge) -> u64 {
    u64::from(edge.word())
}

/// Where the answer of a task stands in a table of this size: multiplicative hashing (Knuth 1973) of all three operands.
fn place_of(task: Task, size: usize) -> usize
    requires { 0 < size }
    ensures { result < size }
{
    let mixed = number_of(task.f)
        .wrapping_mul(0x9e37_79b9_7f4a_7c15)
        .wrapping_add(number_of(task.g).wrapping_mul(0xc2b2_ae3d_27d4_eb4f))
        .wrapping_add(number_of(task.h).wrapping_mul(0x1656_67b1_9e37_79f9));
    ((u128::from(mixed) * size as u128) >> 64) as usize
}

/// The answer of a task, if it stands there.
pub fn look_up(answers: &[Option<Answer>], task: Task) -> Option<Edge>
    ensures { IfSome result (λ e. IsRecalled answers.now task e) }
{
    if answers.is_empty() {
        return None;
    }
    match answers[place_of(task, answers.len())] {
        Some(answer) => {
            if answer.task == task {
                Some(answer.edge)
            } else {
                None
            }
        }
        None => None,
    }
}

/// Puts an answer at its place, and tells whether that was empty.
pub fn write(answers: &mut Vec<Option<Answer>>, answer: Answer) -> bool
    ensures { Remembers answers.old.items answers.new.items answer.task answer.edge }
{
    if answers.is_empty() {
        return false;
    }
    let place = place_of(answer.task, answers.len());
    let was_empty = answers[place].is_none();
    answers[place] = Some(answer);
    was_empty
}

/// A wider table with these answers, or fewer of them: of twice as many places, or of the first few; want of memory also
/// where there are as many places as may be.
pub fn grown(alloc: Global, answers: &[Option<Answer>]) -> Result<Vec<Option<Answer>>, Memory>
    ensures { IfOk result (λ table. IsOf answers.now table.items) }
{
    if answers.len() >= MOST_PLACES {
        return Err(Memory);
    }
    let places = if answers.is_empty() {
        FIRST_PLACES
    } else {
        2 * answers.len()
    };
    let mut table = vec![in alloc; None; places]?;
    for answer in answers {
        if let Some(answer) = answer {
            let _ = write(&mut table, *answer);
        }
    }
    Ok(table)
}

/// Makes a table blank; one that has grown is given back.
pub fn blank(answers: &mut Vec<Option<Answer>>)
    ensures { IsBlank answers.new.items }
{
    if answers.len() > FIRST_PLACES {
        *answers = Vec::new(*answers.allocator());
        return;
    }
    answers.fill(None);
}
