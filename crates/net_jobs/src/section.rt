//! The part of one session of a play: its commands, one after another, the drops at its end, and the lines of both.

ghost use Rattle.std.specs.Prelude.{◌≡◌, ◌<◌, ◌≤◌, ◌+◌, ◌^◌, ◌++◌, [], ◌∷◌, length, map, not, slice_get, All, Some, codes, IfOk, IfSome, OnOk, List as ListOf};
ghost use Rattle.edge_bits.specs.declared.limits.TheConstants.{MOST_ROWS};
ghost use Rattle.job_commands.specs.declared.acts.Act.TheVariants as acts;
ghost use Rattle.job_text.specs.Histories.{HistoryLine, line_text, stops};
ghost use Rattle.dd_session.specs.Sessions.{HasRoom, Seen};
ghost use Rattle.net_jobs.specs.Sections.{CanPlay, PlaysSection, counts_of, written_as};
ghost use Rattle.net_jobs.specs.Saying.{AnswersAct, AreWithin, CanCall, DropsOne, DropsTheRest, IsKept, SaysOne, SaysThrough, HasSaid, assigned_after, target_at};

use crate::answering::Answered;
use crate::gate::Gate;
use crate::performing::perform;
use crate::registers::Assigned;
use crate::said::Said;
use dd_session::{Manager, Session};
use edge_bits::Memory;
use function_laws::Name;
use job_commands::Act;
use job_text::{Command, Reply, line};
use std::alloc::Global;
use std::sync::Wait;

/// What a session said so far: its registers, by number of assignment, and its lines.
#[derive(Drop)]
pub struct Script {
    pub names: Vec<Assigned>,
    pub lines: Vec<Said>,
}

/// Makes the call of a command and writes its line.
fn speak<R: Wait>(
    rt: &R,
    manager: &Manager,
    session: &mut Session,
    script: &mut Script,
    number: u32,
    command: &Command,
) -> Result<Answered, Memory>
    requires own { session.old.manager ≡ manager.now }
    requires room { HasRoom session.old }
    requires number { number ≡ session.old.number }
    requires can { CanCall (counts_of session.old.manager) session.old script.old.names.items command.now.act }
    ensures answered { IfOk result (AnswersAct session.old session.new script.old.names.items command.now.act) }
    ensures lines { IfOk result (λ answered. map written_as script.new.lines.items ≡ map written_as script.old.lines.items ++ (answered.place, line_text answered.place session.old.number command.now.words answered.reply) ∷ []) }
    ensures names { OnOk result (script.new.names.items ≡ script.old.names.items) }
    ensures kept { IsKept session.old session.new }
{
    let alloc = *script.lines.allocator();
    let answered = perform(rt, alloc, manager, session, &script.names, &command.act)?;
    let text = line(alloc, answered.place, number, command, answered.reply)?;
    script.lines.push(Said {
        place: answered.place,
        text,
    })?;
    Ok(answered)
}

/// Whether a session goes on after the reply.
fn goes_on(reply: Reply) -> bool
    ensures { result ≡ not (stops reply) }
{
    !matches!(reply, Reply::Full | Reply::Overflow | Reply::Apart)
}

/// Notes the register that the command at this place assigned, where it did.
fn note(names: &mut Vec<Assigned>, made: Option<Name>, command: u32) -> Result<(), Memory>
    ensures { OnOk result (names.new.items ≡ assigned_after made command names.old.items) }
{
    if let Some(name) = made {
        names.push(Assigned { name, command })?;
    }
    Ok(())
}

/// Says the command at this place: whether the session goes on.
fn say<R: Wait>(
    rt: &R,
    manager: &Manager,
    session: &mut Session,
    script: &mut Script,
    number: u32,
    commands: &[Command],
    i: u32,
) -> Result<bool, Memory>
    requires own { session.old.manager ≡ manager.now }
    requires room { HasRoom session.old }
    requires number { number ≡ session.old.number }
    requires within { i < length commands.now }
    requires can { IfSome (slice_get commands.now i) (λ command. CanCall (counts_of session.old.manager) session.old script.old.names.items command.act) }
    ensures said { IfOk result (λ goes_on. IfSome (slice_get commands.now i) (λ command. SaysOne session.old session.new script.old script.new i command goes_on)) }
    ensures kept { IsKept session.old session.new }
{
    let answered = speak(rt, manager, session, script, number, &commands[i as usize])?;
    note(&mut script.names, answered.made, i)?;
    Ok(goes_on(answered.reply))
}

/// Says the commands in order, up to the first that stops the session or to their end. The gate is passed before each.
fn say_all<R: Wait, G: Gate>(
    rt: &R,
    manager: &Manager,
    gate: &G,
    session: &mut Session,
    script: &mut Script,
    number: u32,
    commands: &[Command],
) -> Result<(), Memory>
    requires can { CanPlay manager.now commands.now session.old }
    requires number { number ≡ session.old.number }
    requires start { (script.old.names.items ≡ []) × (script.old.lines.items ≡ []) }
    ensures said { OnOk result ((said : ListOf HistoryLine) × HasSaid session.old session.new commands.now script.new.names.items script.new.lines.items said × SaysThrough commands.now said × (length said ≤ length commands.now)) }
    ensures names { OnOk result (length script.new.names.items ≤ length commands.now) }
    ensures kept { IsKept session.old session.new }
{
    for i in 0..commands.len() {
        gate.pass(number, i as u32);
        if !say(rt, manager, session, script, number, commands, i as u32)? {
            return Ok(());
        }
    }
    Ok(())
}

/// The command that drops the register of this number, which the command at the place assigned.
fn drop_command(
    alloc: Global,
    commands: &[Command],
    place: u32,
    number: u32,
) -> Result<Command, Memory>
    requires { place < length commands.now }
    ensures words { IfOk result (λ command. command.words ≡ codes "drop" ∷ target_at commands.now place ∷ []) }
    ensures act { IfOk result (λ command. command.act ≡ Act.Drop number) }
{
    let words = commands[place as usize].words.dropping(alloc)?;
    Ok(Command {
        words,
        act: Act::Drop(number),
    })
}

/// Drops the register that was assigned as this number, where it is live.
fn drop_at<R: Wait>(
    rt: &R,
    manager: &Manager,
    session: &mut Session,
    script: &mut Script,
    number: u32,
    commands: &[Command],
    a: u32,
) -> Result<(), Memory>
    requires own { session.old.manager ≡ manager.now }
    requires room { HasRoom session.old }
    requires number { number ≡ session.old.number }
    requires within { a < length script.old.names.items }
    requires assigned { AreWithin commands.now script.old.names.items }
    ensures dropped { OnOk result (IfSome (slice_get script.old.names.items a) (λ assigned. DropsOne commands.now session.old session.new script.old script.new a assigned)) }
    ensures rows { OnOk result (length session.new.rows ≤ length session.old.rows) }
    ensures entries { OnOk result (length session.new.entries ≤ length session.old.entries + 1) }
    ensures kept { IsKept session.old session.new }
{
    let Assigned { name, command } = script.names[a as usize];
    if !session.is_live(name) {
        return Ok(());
    }
    let alloc = *script.lines.allocator();
    let command = drop_command(alloc, commands, command, a)?;
    let _answered = speak(rt, manager, session, script, number, &command)?;
    Ok(())
}

/// Drops the registers that are left, in order of assignment.
fn drop_all<R: Wait>(
    rt: &R,
    manager: &Manager,
    session: &mut Session,
    script: &mut Script,
    number: u32,
    commands: &[Command],
) -> Result<(), Memory>
    requires own { session.old.manager ≡ manager.now }
    requires number { number ≡ session.old.number }
    requires assigned { AreWithin commands.now script.old.names.items }
    requires few { length script.old.names.items < MOST_ROWS }
    requires rows { length session.old.rows < MOST_ROWS }
    requires entries { length session.old.entries ≤ 2 ^ 47 + MOST_ROWS }
    ensures said { OnOk result ((start : Seen) (said : ListOf HistoryLine) → HasSaid start session.old commands.now script.old.names.items script.old.lines.items said → DropsTheRest start session.new commands.now script.new said) }
    ensures kept { IsKept session.old session.new }
{
    for a in 0..script.names.len() {
        drop_at(rt, manager, session, script, number, commands, a as u32)?;
    }
    Ok(())
}

/// Says the commands of one session, up to the first that stops it or to their end, and then drops its registers that are left.
/// The lines are those of its calls, in order; the place of each is that in the history of all sessions. The gate is passed
/// before each command, with the number of the session and that of the command, from 0. Want of memory ends it.
pub fn play_section<R: Wait, G: Gate>(
    rt: &R,
    alloc: Global,
    manager: &Manager,
    gate: &G,
    worker: u32,
    session: &mut Session,
    commands: &[Command],
) -> Result<Vec<Said>, Memory>
    requires can { CanPlay manager.now commands.now session.old }
    requires number { worker ≡ session.old.number }
    ensures said { IfOk result (λ said. PlaysSection commands.now session.old session.new said.items) }
    ensures own { IsKept session.old session.new }
{
    let mut script = Script {
        names: Vec::new(alloc),
        lines: Vec::new(alloc),
    };
    say_all(rt, manager, gate, session, &mut script, worker, commands)?;
    drop_all(rt, manager, session, &mut script, worker, commands)?;
    let Script { lines, .. } = script;
    Ok(lines)
}
