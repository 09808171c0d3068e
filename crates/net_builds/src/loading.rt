//! A stored diagram made by one session, and told of.

ghost use Rattle.std.specs.Prelude.{◌≡◌, ◌+◌, ◌*◌, ◌≤◌, [], ◌∷◌, length, replicate, IfErr, IfOk, None, ℕ};
ghost use Rattle.edge_bits.specs.declared.limits.TheConstants.{MOST_ROWS};
ghost use Rattle.net_builds.specs.Builds.{AreUnsifted};
ghost use Rattle.net_builds.specs.Loads.{IsRoomFor, Loads, LoadsUp, MayLoad};
ghost use Rattle.net_builds.specs.Outputs.{IsRefused};

use crate::diagrams::make_diagram;
use crate::host::{Host, HostRefusal};
use crate::letting::let_go_names;
use crate::telling::{Reported, tell_report};
use diagram_dumps::Dump;
use edge_bits::{List, Memory};
use function_laws::Name;
use std::alloc::{AllocError, Global};

/// What is noted while a stored diagram is made: the rows, those of the complements by their index, and the roots' names.
#[derive(Drop)]
struct Rows {
    made: Vec<Name>,
    turned: Vec<Option<Name>>,
    names: Vec<Name>,
}

/// So many indices without a complement.
fn none_turned(alloc: Global, count: usize) -> Result<Vec<Option<Name>>, AllocError>
    ensures { IfOk result (λ turned. turned.items ≡ replicate count None) }
{
    vec![in alloc; None; count]
}

/// All the memory that the making needs: rows of the lines and of as many complements, and names of the roots.
fn begin(alloc: Global, dump: &Dump) -> Result<Rows, Memory>
    requires { 2 * length dump.now.nodes + 6 ≤ MOST_ROWS }
    ensures { IfOk result (IsRoomFor dump.now) }
{
    let lines = dump.nodes.as_slice().len();
    let made = Vec::with_capacity(alloc, 2 * lines + 3)?;
    let turned = none_turned(alloc, lines + 2)?;
    let names = Vec::with_capacity(alloc, dump.roots.as_slice().len())?;
    Ok(Rows {
        made,
        turned,
        names,
    })
}

/// Makes a stored diagram and tells the report of its roots. The rows that were made are noted, also where that is refused.
fn made_and_told<H: Host>(
    alloc: Global,
    host: &H,
    session: &mut H::Session,
    dump: &Dump,
    rows: &mut Rows,
    patterns: &[List<bool>],
) -> Result<Vec<u8>, HostRefusal<H::Full>>
    requires may { MayLoad H.has H.standing host.now session.old dump.now }
    requires room { IsRoomFor dump.now rows.old }
    ensures own { H.has host.now session.new }
    ensures loads { LoadsUp (H.tells host.now) dump.now patterns.now (H.standing session.old) (H.standing session.new) rows.new.made.items result }
{
    make_diagram(
        host,
        session,
        dump,
        &mut rows.made,
        &mut rows.turned,
        &mut rows.names,
    )?;
    let reported = &Reported::Diagram(dump);
    let found = tell_report(alloc, host, session, reported, &rows.names, patterns)?;
    Ok(found.text)
}

/// Makes a stored diagram, each line by one choice of its children in the order of the lines, and tells the report of its roots, with
/// their values at each pattern, under the order of the variables that the session noted last. A root takes the row of its line; the
/// complement of a line is made once. At first the session has one variable for each of the diagram's, and no live row, and it has
/// none at the end, also where it was refused. It posts nothing, and leaves the orders as they are. An error is want of memory, or a call
/// that was refused for a full node table.
pub fn load_report<H: Host>(
    alloc: Global,
    host: &H,
    session: &mut H::Session,
    dump: &Dump,
    patterns: &[List<bool>],
) -> Result<Vec<u8>, HostRefusal<H::Full>>
    requires may { MayLoad H.has H.standing host.now session.old dump.now }
    ensures own { H.has host.now session.new }
    ensures none { (H.standing session.new).rows ≡ 0 }
    ensures unsifted { AreUnsifted (H.standing session.old ∷ []) (H.standing session.new ∷ []) }
    ensures loads { IfOk result (λ text. Loads dump.now patterns.now (H.standing session.old) (H.standing session.new) text.items) }
    ensures refused { IfErr result (λ refusal. (cell : ℕ) → IsRefused (H.tells host.now) cell (H.standing session.old) (H.standing session.new) refusal) }
{
    let mut rows = begin(alloc, dump)?;
    let told = made_and_told(alloc, host, session, dump, &mut rows, patterns);
    let_go_names(host, session, &rows.made);
    told
}
