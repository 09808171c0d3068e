//! The rows of a stored diagram: of its lines, and of its roots.

ghost use Rattle.std.specs.Prelude.{◌≡◌, ◌+◌, ◌-◌, ◌*◌, ◌<◌, ◌≤◌, [], length, nat_abs, replicate, slice_get, vec_capacity, Bool, IfOk, None, Some, ℕ};
ghost use Rattle.dddmp_text.specs.Bounds.{IsBounded};
ghost use Rattle.std.specs.Int.{is_negative};
ghost use Rattle.diagram_dumps.specs.Dumps.{line_value, root_value};
ghost use Rattle.function_laws.specs.Values.{choice, if_then_else, negation};
ghost use Rattle.net_reports.specs.RootClasses.{root_functions};
ghost use Rattle.net_builds.specs.Asked.{ComesBack, MayMakeRows};
ghost use Rattle.net_builds.specs.Loads.{HoldLines, IsTurned, MayLoad, MayTurn, StaysMade, turned_if};
ghost use Rattle.net_builds.specs.Signals.{AllHold};
ghost use Rattle.net_builds.specs.Standings.{Holds, IsHeld, Makes};

use crate::host::{Host, HostRefusal};
use diagram_dumps::{Dump, Line};
use function_laws::Name;

/// An index without its sign.
fn magnitude(index: &i32) -> usize
    ensures { result ≡ nat_abs index.now }
{
    index.unsigned_abs() as usize
}

/// Whether an index is complemented.
fn is_complemented(index: &i32) -> bool
    ensures { result ≡ is_negative index.now }
{
    *index < 0
}

/// The row of an index, where those of the indices from 1 on stand one behind another.
fn row_of(made: &[Name], index: usize) -> Name
    requires from_one { 1 ≤ index }
    requires within { index ≤ length made.now }
    ensures { slice_get made.now (index - 1) ≡ Some result }
{
    made[index - 1]
}

/// The choice between a function and the complement of another. The complement is let go, also where the choice is refused.
fn choice_turned<H: Host>(
    host: &H,
    session: &mut H::Session,
    variable: Name,
    high: Name,
    low: Name,
) -> Result<Name, HostRefusal<H::Full>>
    requires may { MayMakeRows H.has H.standing host.now session.old 3 }
    requires variable { IsHeld (H.standing session.old) variable }
    requires high { IsHeld (H.standing session.old) high }
    requires low { IsHeld (H.standing session.old) low }
    ensures made { IfOk result (λ name. (v f g : ℕ → Bool) → Holds (H.standing session.old) variable v → Holds (H.standing session.old) high f → Holds (H.standing session.old) low g → Makes (H.standing session.old) (H.standing session.new) name (if_then_else v f (negation g))) }
    ensures back { ComesBack H.has H.standing H.tells host.now session.old session.new result }
{
    let turned = host.complement(session, low)?;
    let made = host.choice(session, variable, high, turned);
    host.let_go(session, turned);
    made
}

/// The choice between two functions, of which the second may be complemented.
fn choice_between<H: Host>(
    host: &H,
    session: &mut H::Session,
    variable: Name,
    high: Name,
    low: Name,
    is_complemented: bool,
) -> Result<Name, HostRefusal<H::Full>>
    requires may { MayMakeRows H.has H.standing host.now session.old 3 }
    requires variable { IsHeld (H.standing session.old) variable }
    requires high { IsHeld (H.standing session.old) high }
    requires low { IsHeld (H.standing session.old) low }
    ensures made { IfOk result (λ name. (v f g : ℕ → Bool) → Holds (H.standing session.old) variable v → Holds (H.standing session.old) high f → Holds (H.standing session.old) low g → Makes (H.standing session.old) (H.standing session.new) name (if_then_else v f (turned_if is_complemented g))) }
    ensures back { ComesBack H.has H.standing H.tells host.now session.old session.new result }
{
    if is_complemented {
        choice_turned(host, session, variable, high, low)
    } else {
        host.choice(session, variable, high, low)
    }
}

/// The function of a line, of its children's. What is made on the way is let go, also where a call is refused.
fn line_between<H: Host>(
    host: &H,
    session: &mut H::Session,
    line: &Line,
    high: Name,
    low: Name,
) -> Result<Name, HostRefusal<H::Full>>
    requires may { MayMakeRows H.has H.standing host.now session.old 4 }
    requires variable { line.now.var < (H.standing session.old).vars }
    requires high { IsHeld (H.standing session.old) high }
    requires low { IsHeld (H.standing session.old) low }
    ensures made { IfOk result (λ name. (f g : ℕ → Bool) → Holds (H.standing session.old) high f → Holds (H.standing session.old) low g → Makes (H.standing session.old) (H.standing session.new) name (choice line.now.var f (turned_if (is_negative line.now.lo) g))) }
    ensures back { ComesBack H.has H.standing H.tells host.now session.old session.new result }
{
    let variable = host.projection(session, line.var)?;
    let made = choice_between(
        host,
        session,
        variable,
        high,
        low,
        is_complemented(&line.lo),
    );
    host.let_go(session, variable);
    made
}

/// The line at a place.
fn line_at(dump: &Dump, place: usize) -> &Line
    requires { place < length dump.now.nodes }
    ensures { slice_get dump.now.nodes place ≡ Some result.now }
{
    &dump.nodes.as_slice()[place]
}

/// The row of a line, by the rows of the indices before it.
fn make_line<H: Host>(
    host: &H,
    session: &mut H::Session,
    dump: &Dump,
    place: usize,
    made: &[Name],
) -> Result<Name, HostRefusal<H::Full>>
    requires may { MayMakeRows H.has H.standing host.now session.old 4 }
    requires bounded { IsBounded dump.now }
    requires vars { (H.standing session.old).vars ≡ dump.now.nvars }
    requires within { place < length dump.now.nodes }
    requires long { length made.now ≡ place + 1 }
    requires lines { HoldLines (H.standing session.old) dump.now made.now }
    ensures made { IfOk result (λ name. Makes (H.standing session.old) (H.standing session.new) name (line_value dump.now (place + 2))) }
    ensures back { ComesBack H.has H.standing H.tells host.now session.old session.new result }
{
    let line = line_at(dump, place);
    let high = row_of(made, line.hi as usize);
    let low = row_of(made, magnitude(&line.lo));
    line_between(host, session, line, high, low)
}

/// Makes the rows of the constant and of the lines, in their order. They are noted one behind another.
fn make_lines<H: Host>(
    host: &H,
    session: &mut H::Session,
    dump: &Dump,
    made: &mut Vec<Name>,
) -> Result<(), HostRefusal<H::Full>>
    requires may { MayLoad H.has H.standing host.now session.old dump.now }
    requires none { made.old.items ≡ [] }
    requires room { length dump.now.nodes + 1 ≤ vec_capacity made.old }
    ensures back { StaysMade H.has H.standing H.tells host.now session.old session.new made.new.items result }
    ensures lines { IfOk result (λ _. HoldLines (H.standing session.new) dump.now made.new.items) }
    ensures long { IfOk result (λ _. length made.new.items ≡ length dump.now.nodes + 1) }
    ensures room { vec_capacity made.new ≡ vec_capacity made.old }
{
    made.push_reserved(host.constant(session, true)?);
    for place in 0..dump.nodes.as_slice().len() {
        let name = make_line(host, session, dump, place, made)?;
        made.push_reserved(name);
    }
    Ok(())
}

/// The row of an index's complement: the one that was made for it, or a new one, which is noted behind the others.
fn turned_row<H: Host>(
    host: &H,
    session: &mut H::Session,
    dump: &Dump,
    index: usize,
    made: &mut Vec<Name>,
    turned: &mut [Option<Name>],
) -> Result<Name, HostRefusal<H::Full>>
    requires may { MayTurn H.has H.standing host.now session.old dump.now made.old.items turned.old }
    requires from_one { 1 ≤ index }
    requires within { index ≤ length dump.now.nodes + 1 }
    requires room { 2 * length dump.now.nodes + 3 ≤ vec_capacity made.old }
    ensures held { IfOk result (λ name. Holds (H.standing session.new) name (negation (line_value dump.now index))) }
    ensures back { ComesBack H.has H.standing H.tells host.now session.old session.new result }
    ensures turned { IsTurned (H.standing session.new) dump.now made.new.items turned.new }
    ensures room { vec_capacity made.new ≡ vec_capacity made.old }
{
    if let Some(name) = turned[index] {
        return Ok(name);
    }
    let name = host.complement(session, row_of(made, index))?;
    made.push_reserved(name);
    turned[index] = Some(name);
    Ok(name)
}

/// The row of a root: that of its line, or of the line's complement.
fn root_row<H: Host>(
    host: &H,
    session: &mut H::Session,
    dump: &Dump,
    root: &i32,
    made: &mut Vec<Name>,
    turned: &mut [Option<Name>],
) -> Result<Name, HostRefusal<H::Full>>
    requires may { MayTurn H.has H.standing host.now session.old dump.now made.old.items turned.old }
    requires from_one { 1 ≤ nat_abs root.now }
    requires within { nat_abs root.now ≤ length dump.now.nodes + 1 }
    requires room { 2 * length dump.now.nodes + 3 ≤ vec_capacity made.old }
    ensures held { IfOk result (λ name. Holds (H.standing session.new) name (root_value dump.now root.now)) }
    ensures back { ComesBack H.has H.standing H.tells host.now session.old session.new result }
    ensures turned { IsTurned (H.standing session.new) dump.now made.new.items turned.new }
    ensures room { vec_capacity made.new ≡ vec_capacity made.old }
{
    let index = magnitude(root);
    if is_complemented(root) {
        turned_row(host, session, dump, index, made, turned)
    } else {
        Ok(row_of(made, index))
    }
}

/// Notes a row for each root, in their order.
fn name_roots<H: Host>(
    host: &H,
    session: &mut H::Session,
    dump: &Dump,
    made: &mut Vec<Name>,
    turned: &mut [Option<Name>],
    names: &mut Vec<Name>,
) -> Result<(), HostRefusal<H::Full>>
    requires may { MayTurn H.has H.standing host.now session.old dump.now made.old.items turned.old }
    requires room { 2 * length dump.now.nodes + 3 ≤ vec_capacity made.old }
    requires none { names.old.items ≡ [] }
    requires place { length dump.now.roots ≤ vec_capacity names.old }
    ensures back { StaysMade H.has H.standing H.tells host.now session.old session.new made.new.items result }
    ensures held { IfOk result (λ _. AllHold (H.standing session.new) (root_functions dump.now) names.new.items) }
{
    for root in dump.roots.as_slice() {
        let name = root_row(host, session, dump, root, made, turned)?;
        names.push_reserved(name);
    }
    Ok(())
}

/// Makes the rows of a stored diagram, those of the lines and then those of the complemented roots, each once, and notes the roots'
/// names. Where that is refused, the rows that were made are noted.
pub fn make_diagram<H: Host>(
    host: &H,
    session: &mut H::Session,
    dump: &Dump,
    made: &mut Vec<Name>,
    turned: &mut [Option<Name>],
    names: &mut Vec<Name>,
) -> Result<(), HostRefusal<H::Full>>
    requires may { MayLoad H.has H.standing host.now session.old dump.now }
    requires none { made.old.items ≡ [] }
    requires room { 2 * length dump.now.nodes + 3 ≤ vec_capacity made.old }
    requires unturned { turned.old ≡ replicate (length dump.now.nodes + 2) None }
    requires unnamed { names.old.items ≡ [] }
    requires place { length dump.now.roots ≤ vec_capacity names.old }
    ensures back { StaysMade H.has H.standing H.tells host.now session.old session.new made.new.items result }
    ensures held { IfOk result (λ _. AllHold (H.standing session.new) (root_functions dump.now) names.new.items) }
{
    make_lines(host, session, dump, made)?;
    name_roots(host, session, dump, made, turned, names)
}
