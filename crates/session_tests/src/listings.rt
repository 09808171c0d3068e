//! A session lists the nodes of its rows, and the listing is told of.

ghost use Rattle.std.specs.Prelude.{◌≡◌, ◌<◌, ◌^◌, length, IfOk};
ghost use Rattle.diagram_dumps.specs.WellMade.{IsWritable};
ghost use Rattle.diagram_dumps.specs.Listings.{dump_of};

use crate::calls::{and, ready, var};
use dd_session::{Config, H, Manager, OpenFault, Session};
use dddmp_text::write;
use diagram_dumps::Listing;
use edge_bits::Line;
use net_reports::{Class, classes_of, padded};
use std::alloc::Global;
use std::process::Abort;
use std::sync::Wait;
use std::test::Fail;

/// The exclusive disjunction of two variables and its complement, as they are stored.
const STORED: &str =
    ".ver DDDMP-2.0\n.mode A\n.varinfo 0\n.nnodes 3\n.nvars 2\n.nsuppvars 2\n.ids 0 1\n.permids 0 1\n.nroots 2\n.rootids -3 3\n.nodes\n1 T 1 0 0\n2 1 1 1 -1\n3 0 0 2 -2\n.end\n";

/// The exclusive disjunction of two rows.
fn xor<R: Abort + Wait>(rt: &R, manager: &Manager, session: &mut Session, f: H, g: H) -> H
    requires own { session.old.manager ≡ manager.now }
    ensures { (session.new.manager ≡ session.old.manager) × (session.new.number ≡ session.old.number) }
{
    ready(rt, session, f, g);
    match session.xor(rt, manager, f, g) {
        Ok(placed) => placed.value,
        Err(_) => panic!(rt; "refused"),
    }
}

/// The complement of a row.
fn not<R: Abort + Wait>(rt: &R, manager: &Manager, session: &mut Session, f: H) -> H
    requires own { session.old.manager ≡ manager.now }
    ensures { (session.new.manager ≡ session.old.manager) × (session.new.number ≡ session.old.number) }
{
    ready(rt, session, f, f);
    match session.not(rt, manager, f) {
        Ok(placed) => placed.value,
        Err(_) => panic!(rt; "refused"),
    }
}

/// The listing of two rows.
fn list<R: Abort + Wait>(
    rt: &R,
    manager: &Manager,
    session: &mut Session,
    first: H,
    second: H,
) -> Listing
    requires own { session.old.manager ≡ manager.now }
    ensures own { (session.new.manager ≡ session.old.manager) × (session.new.number ≡ session.old.number) }
    ensures writable { IsWritable (dump_of result) }
    ensures few { length result.order < 2 ^ 32 }
{
    ready(rt, session, first, second);
    let Ok(listing) = session.list(rt, manager, &[first, second]) else {
        panic!(rt; "no memory");
    };
    listing
}

fn line(var: u32, hi: u32, lo: i32) -> Line {
    Line { var, hi, lo }
}

/// Both functions of a listing are one class, the second as the complement.
fn is_one_class(rt: &impl Abort, alloc: Global, listing: &Listing)
    requires { IsWritable (dump_of listing.now) }
{
    let Ok(classes) = classes_of(alloc, listing) else {
        panic!(rt; "no memory");
    };
    assert!(rt; classes.as_slice() == [class(false), class(true)].as_slice());
}

/// What is told of the exclusive disjunction of two variables and its complement: they have three nodes and are one class, and
/// are stored as in a worked example.
fn told_of(rt: &impl Abort, alloc: Global, listing: Listing)
    requires writable { IsWritable (dump_of listing) }
    requires few { length listing.order < 2 ^ 32 }
{
    assert!(rt; listing.node_count() == 3);
    is_one_class(rt, alloc, &listing);
    let Ok(dump) = listing.into_dump(alloc) else {
        panic!(rt; "no memory");
    };
    let Ok(text) = write(alloc, &dump) else {
        panic!(rt; "no memory");
    };
    assert!(rt; text.as_slice() == STORED.as_bytes());
}

/// The class of the first function, or of its complement.
fn class(complement: bool) -> Class {
    Class {
        first: 0,
        complement,
    }
}

/// A listing as a stored diagram has the variables of its lines.
fn dumped(rt: &impl Abort, alloc: Global, listing: Listing)
    requires { length listing.order < 2 ^ 32 }
{
    let Ok(dump) = listing.into_dump(alloc) else {
        panic!(rt; "no memory");
    };
    assert!(rt; dump.nvars == 2 && dump.ids.as_slice() == [0, 1].as_slice());
}

/// A listing has these lines and roots.
fn has_lines(rt: &impl Abort, listing: &Listing, nodes: &[Line], roots: &[i32]) {
    assert!(rt; listing.nodes.as_slice() == nodes);
    assert!(rt; listing.roots.as_slice() == roots);
}

/// The exclusive disjunction of two rows and its complement have the same lines, behind those that their arcs lead to, and no
/// call is drawn.
fn list_with_complement<R: Abort + Wait>(
    rt: &R,
    alloc: Global,
    manager: &Manager,
    session: &mut Session,
    a: H,
    b: H,
)
    requires own { session.old.manager ≡ manager.now }
    ensures { (session.new.manager ≡ session.old.manager) × (session.new.number ≡ session.old.number) }
{
    let either = xor(rt, manager, session, a, b);
    let alike = not(rt, manager, session, either);
    let calls = session.calls();
    let listing = list(rt, manager, session, either, alike);
    assert!(rt; session.calls() == calls);
    assert!(rt; listing.order.as_slice() == [0, 1].as_slice());
    has_lines(rt, &listing, &[line(1, 1, -1), line(0, 2, -2)], &[-3, 3]);
    told_of(rt, alloc, listing);
}

/// The conjunction of two rows and the second of them: the line of the second stands first.
fn list_with_part<R: Abort + Wait>(
    rt: &R,
    alloc: Global,
    manager: &Manager,
    session: &mut Session,
    a: H,
    b: H,
)
    requires own { session.old.manager ≡ manager.now }
{
    let Some(both) = and(rt, manager, session, a, b) else {
        panic!(rt; "full");
    };
    let listing = list(rt, manager, session, both, b);
    has_lines(rt, &listing, &[line(1, 1, -1), line(0, 2, -1)], &[3, 2]);
    dumped(rt, alloc, listing);
}

/// A manager of two variables, and its one session.
fn open_two(alloc: Global) -> Result<(Manager, Session), OpenFault>
    ensures { IfOk result (λ r. (r.1.manager ≡ r.0) × (r.0.vars ≡ 2)) }
{
    let config = Config {
        vars: 2,
        elements: 0,
        limit: 1000,
    };
    let (manager, mut sessions) = Manager::open(alloc, config, 1)?;
    match sessions.pop() {
        Some(session) => Ok((manager, session)),
        None => unreachable!(),
    }
}

/// Lists what two variables make.
fn list_both<R: Abort + Wait>(rt: &R, alloc: Global, manager: &Manager, session: &mut Session)
    requires own { session.old.manager ≡ manager.now }
    requires variables { manager.now.vars ≡ 2 }
{
    let a = var(rt, manager, session, 0);
    let b = var(rt, manager, session, 1);
    list_with_complement(rt, alloc, manager, session, a, b);
    list_with_part(rt, alloc, manager, session, a, b);
}

#[test]
fn rows_are_listed(rt: HostRuntime) -> Result<(), Fail> {
    let Ok((manager, mut session)) = open_two(rt.alloc()) else {
        panic!(rt; "not opened");
    };
    list_both(&rt, rt.alloc(), &manager, &mut session);
    Ok(())
}

/// A pattern is this one when it has so many bits.
fn is_padded(
    rt: &impl Abort,
    alloc: Global,
    len: usize,
    bits: &[bool],
    wanted: &[bool],
) -> Result<(), Fail> {
    let found = padded(alloc, len, bits)?;
    assert!(rt; found.as_slice() == wanted);
    Ok(())
}

/// A pattern that is too short is filled up with zeros, and one that is too long is cut.
#[test]
fn patterns_are_padded(rt: HostRuntime) -> Result<(), Fail> {
    is_padded(&rt, rt.alloc(), 3, &[true], &[true, false, false])?;
    is_padded(&rt, rt.alloc(), 1, &[false, true], &[false])
}
