//! The call of a command.

ghost use Rattle.std.specs.Prelude.{◌≡◌, ◌<◌, true, IfOk, List as ListOf};
ghost use Rattle.function_laws.specs.declared.history.Call.TheVariants as calls;
ghost use Rattle.function_laws.specs.Makings.{named};
ghost use Rattle.dd_session.specs.Sessions.{HasRoom, IsLive};
ghost use Rattle.net_jobs.specs.declared.registers.Assigned.{Assigned as AssignedOf};
ghost use Rattle.net_jobs.specs.Sections.{counts_of};
ghost use Rattle.net_jobs.specs.Saying.{AnswersAct, CanCall, CanMake, IsAnswered, IsKept, name_at};

use crate::answering::{Answered, answer_of, done, fetched, made, swapped, valued, yes_or_no};
use crate::evaluation::evaluate;
use crate::registers::{Assigned, Registers, at};
use dd_session::{Blocks, H, Manager, Session};
use edge_bits::{List, Memory};
use function_laws::{Making, Order};
use job_commands::Act;
use operator_calls::{renamed, renamed_pairs};
use std::alloc::Global;
use std::sync::Wait;

/// Makes the call of a command that makes a row of others, by the names of its registers.
fn make<R: Wait>(
    rt: &R,
    alloc: Global,
    manager: &Manager,
    session: &mut Session,
    names: &[Assigned],
    making: &Making<u32, List<u32>, List<(u32, u32)>>,
) -> Result<Answered, Memory>
    requires own { session.old.manager ≡ manager.now }
    requires room { HasRoom session.old }
    requires can { CanMake (counts_of session.old.manager) session.old names.now making.now }
    ensures answered { IfOk result (IsAnswered session.old session.new (calls.Makes (named (name_at names.now) making.now))) }
    ensures kept { IsKept session.old session.new }
{
    let registers = Registers { names, session };
    let pairs = renamed_pairs(&registers, alloc, making)?;
    let named = renamed(&registers, making, &pairs);
    answer_of(session.make(rt, manager, named))
}

/// Makes the call of a `copy`.
fn copy(manager: &Manager, session: &mut Session, name: H) -> Result<Answered, Memory>
    requires own { session.old.manager ≡ manager.now }
    requires room { HasRoom session.old }
    requires live { IsLive session.old name }
    ensures answered { IfOk result (IsAnswered session.old session.new (calls.Copy name)) }
    ensures kept { IsKept session.old session.new }
{
    session.reserve(1)?;
    Ok(made(session.copy(manager, name)))
}

/// Makes the call of a `fetch`.
fn fetch<R: Wait>(
    rt: &R,
    manager: &Manager,
    session: &mut Session,
    cell: u8,
    name: H,
) -> Result<Answered, Memory>
    requires own { session.old.manager ≡ manager.now }
    requires room { HasRoom session.old }
    requires live { IsLive session.old name }
    ensures answered { IfOk result (IsAnswered session.old session.new (calls.Fetch cell name)) }
    ensures kept { IsKept session.old session.new }
{
    session.reserve(1)?;
    Ok(fetched(session.fetch(rt, manager, cell, name)))
}

/// Makes the call of a `sift` or an `esift`, which is over one block.
fn sift<R: Wait>(
    rt: &R,
    alloc: Global,
    manager: &Manager,
    session: &mut Session,
    order: Order,
) -> Result<Answered, Memory>
    requires own { session.old.manager ≡ manager.now }
    requires room { HasRoom session.old }
    ensures answered { IfOk result (λ answered. (names : ListOf AssignedOf) → AnswersAct session.old session.new names (Act.Sift order) answered) }
    ensures kept { IsKept session.old session.new }
{
    let mut blocks = Blocks::one(alloc, session.levels(manager, order))?;
    let placed = match order {
        Order::Variables => session.sift(rt, manager, &mut blocks),
        Order::Elements => session.sift_elements(rt, manager, &mut blocks),
    };
    Ok(done(placed.place))
}

/// Makes the call of a command.
pub fn perform<R: Wait>(
    rt: &R,
    alloc: Global,
    manager: &Manager,
    session: &mut Session,
    names: &[Assigned],
    act: &Act,
) -> Result<Answered, Memory>
    requires own { session.old.manager ≡ manager.now }
    requires room { HasRoom session.old }
    requires can { CanCall (counts_of session.old.manager) session.old names.now act.now }
    ensures answered { IfOk result (AnswersAct session.old session.new names.now act.now) }
    ensures kept { IsKept session.old session.new }
{
    Ok(match act {
        Act::Copy(a) => copy(manager, session, at(names, *a))?,
        Act::Fetch(cell, a) => fetch(rt, manager, session, *cell, at(names, *a))?,
        Act::Post(cell, a) => done(session.post(rt, manager, *cell, at(names, *a)).place),
        Act::Drop(a) => done(session.drop_row(manager, at(names, *a)).place),
        Act::Sweep => done(session.sweep(rt, manager).place),
        Act::Swap(Order::Variables, level) => swapped(session.swap(rt, manager, *level)),
        Act::Swap(Order::Elements, level) => swapped(session.swap_elements(rt, manager, *level)),
        Act::Sift(order) => sift(rt, alloc, manager, session, *order)?,
        Act::Same(a, b) => { yes_or_no(session.same(manager, at(names, *a), at(names, *b))) }
        Act::Leq(a, b) => { yes_or_no(session.leq(rt, manager, at(names, *a), at(names, *b))?) }
        Act::Eval(a, bits) => valued(evaluate(
            rt,
            manager,
            session,
            at(names, *a),
            bits.as_slice(),
        )),
        Act::Makes(making) => make(rt, alloc, manager, session, names, making)?,
    })
}
