//! What is told of the functions of a network's outputs, and of a stored diagram's roots.

ghost use Rattle.std.specs.Prelude.{◌≡◌, Bool, List as ListOf, Some, length, map, slice_get, IfOk};
ghost use Rattle.function_laws.specs.Values.{assignment_of, differs};
ghost use Rattle.net_reports.specs.Reports.{report_text};
ghost use Rattle.net_builds.specs.Builds.{FindingsOf, FindsOf, TellingOf, inputs_of, names_of};
ghost use Rattle.net_builds.specs.Asked.{MayEvaluate, MayReport};
ghost use Rattle.net_builds.specs.Handings.{IsTold, Looks};
ghost use Rattle.net_builds.specs.Standings.{Asks, HasRoom, IsLive, Lists, Standing};
ghost use Rattle.net_builds.specs.declared.telling.Telling.TheVariants.{Report, Summary};
ghost use Rattle.net_builds.specs.Tellings.{evaluation_in, value_in, values_in};

use crate::host::Host;
use cover_nets::Net;
use diagram_dumps::{Dump, Listing};
use edge_bits::{List, Memory};
use function_laws::Name;
use net_reports::{Class, Evaluation, classes_of, dump_report, padded, report, summary};
use std::alloc::Global;

/// What is told of the functions of a network's outputs.
#[derive(Debug, Clone, Copy, PartialEq, Eq)]
pub enum Telling {
    /// Their report, with their values at some patterns. Input i takes bit i of a pattern; inputs past its end are 0, and further
    /// bits have no effect.
    Report,
    /// How many inputs, outputs, classes of outputs and nodes there are.
    Summary,
}

/// What was found of the functions of a network's outputs, or of a stored diagram's roots.
#[derive(Drop)]
pub struct Findings {
    /// What is told of them.
    pub text: Vec<u8>,
    /// Their diagrams, as they were listed for that.
    pub listing: Listing,
}

/// What a report is of: the outputs of a network, or the roots of a stored diagram.
#[derive(Clone, Copy)]
pub enum Reported<'a> {
    Network(&'a Net),
    Diagram(&'a Dump),
}

/// The value of a name's function at an assignment, from the values of earlier names: that of the first of its class, turned where it
/// is the complement of that; the host is asked where the name is itself the first.
fn class_value<H: Host>(
    host: &H,
    session: &mut H::Session,
    name: Name,
    class: &Class,
    earlier: &[bool],
    bits: &[bool],
) -> bool
    requires own { H.has host.now session.old }
    requires room { HasRoom (H.standing session.old) }
    requires held { IsLive (H.standing session.old) name }
    requires long { length bits.now ≡ (H.standing session.old).vars }
    requires turned { (first : Bool) → slice_get earlier.now class.now.first ≡ Some first → value_in (assignment_of bits.now) ((H.standing session.old).stands name) ≡ differs first class.now.complement }
    ensures own { H.has host.now session.new }
    ensures asks { Asks (H.standing session.old) (H.standing session.new) }
    ensures value { result ≡ value_in (assignment_of bits.now) ((H.standing session.old).stands name) }
{
    match earlier.get(class.first) {
        Some(first) => *first != class.complement,
        None => host.value(session, name, bits),
    }
}

/// The value of each name's function at an assignment. The host is asked for the first of each class alone.
fn values<H: Host>(
    alloc: Global,
    host: &H,
    session: &mut H::Session,
    names: &[Name],
    classes: &[Class],
    bits: &[bool],
) -> Result<List<bool>, Memory>
    requires may { MayEvaluate H.has H.standing host.now session.old names.now classes.now }
    requires long { length bits.now ≡ (H.standing session.old).vars }
    ensures own { H.has host.now session.new }
    ensures asks { Asks (H.standing session.old) (H.standing session.new) }
    ensures values { IfOk result (λ values. values ≡ values_in (H.standing session.old) names.now (assignment_of bits.now)) }
{
    let mut values = List::new(alloc);
    for (name, class) in names.iter().zip(classes) {
        let value = class_value(host, session, *name, class, values.as_slice(), bits);
        values.push(value)?;
    }
    Ok(values)
}

/// A pattern, and the value of each name's function there.
fn evaluate<H: Host>(
    alloc: Global,
    host: &H,
    session: &mut H::Session,
    names: &[Name],
    classes: &[Class],
    inputs: usize,
    pattern: &[bool],
) -> Result<Evaluation, Memory>
    requires may { MayEvaluate H.has H.standing host.now session.old names.now classes.now }
    requires vars { (H.standing session.old).vars ≡ inputs }
    ensures own { H.has host.now session.new }
    ensures asks { Asks (H.standing session.old) (H.standing session.new) }
    ensures evaluation { IfOk result (λ evaluation. evaluation ≡ evaluation_in (H.standing session.old) names.now pattern.now) }
{
    let bits = padded(alloc, inputs, pattern)?;
    let values = values(alloc, host, session, names, classes, &bits)?;
    let pattern = List::from_vec(Vec::from_slice(alloc, pattern)?);
    Ok(Evaluation { pattern, values })
}

/// The patterns in turn, with the values of each name's function.
fn evaluations<H: Host>(
    alloc: Global,
    host: &H,
    session: &mut H::Session,
    names: &[Name],
    classes: &[Class],
    inputs: usize,
    patterns: &[List<bool>],
) -> Result<Vec<Evaluation>, Memory>
    requires may { MayEvaluate H.has H.standing host.now session.old names.now classes.now }
    requires vars { (H.standing session.old).vars ≡ inputs }
    ensures own { H.has host.now session.new }
    ensures asks { Asks (H.standing session.old) (H.standing session.new) }
    ensures evaluations { IfOk result (λ evaluations. evaluations.items ≡ map (evaluation_in (H.standing session.old) names.now) patterns.now) }
{
    let mut evaluations = Vec::new(alloc);
    for pattern in patterns {
        let evaluation = evaluate(
            alloc,
            host,
            session,
            names,
            classes,
            inputs,
            pattern.as_slice(),
        )?;
        evaluations.push(evaluation)?;
    }
    Ok(evaluations)
}

/// How many inputs there are.
fn inputs(reported: &Reported) -> usize
    ensures { result ≡ inputs_of reported.now }
{
    match reported {
        Reported::Network(net) => net.inputs().len(),
        Reported::Diagram(dump) => dump.nvars as usize,
    }
}

/// The text of a report, of its classes, its evaluations, an order and the number of nodes.
fn text_of(
    alloc: Global,
    reported: &Reported,
    classes: &[Class],
    evaluations: &[Evaluation],
    order: &[u32],
    nodes: usize,
) -> Result<Vec<u8>, Memory>
    requires { length classes.now ≡ length (names_of reported.now) }
    ensures { IfOk result (λ text. text.items ≡ report_text (inputs_of reported.now) (names_of reported.now) classes.now evaluations.now order.now nodes) }
{
    match reported {
        Reported::Network(net) => report(alloc, net, classes, evaluations, order, nodes),
        Reported::Diagram(dump) => dump_report(alloc, dump, classes, evaluations, order, nodes),
    }
}

/// The report of functions that were listed, and have these names, with their values at each pattern.
fn report_listed<H: Host>(
    alloc: Global,
    host: &H,
    session: &mut H::Session,
    reported: &Reported,
    names: &[Name],
    listing: &Listing,
    patterns: &[List<bool>],
) -> Result<Vec<u8>, Memory>
    requires may { MayReport H.has H.standing host.now session.old (inputs_of reported.now) (length (names_of reported.now)) names.now }
    requires listed { (before : Standing) × Lists before (H.standing session.old) names.now listing.now }
    ensures own { H.has host.now session.new }
    ensures asks { Asks (H.standing session.old) (H.standing session.new) }
    ensures report { IfOk result (λ text. (before : Standing) (lists : Lists before (H.standing session.old) names.now listing.now) → TellingOf (inputs_of reported.now) (names_of reported.now) patterns.now Report lists.functions listing.now.order text.items) }
{
    let classes = classes_of(alloc, listing)?;
    let evaluations = evaluations(
        alloc,
        host,
        session,
        names,
        &classes,
        inputs(reported),
        patterns,
    )?;
    let nodes = listing.node_count();
    let order = listing.order.as_slice();
    text_of(alloc, reported, &classes, &evaluations, order, nodes)
}

/// The report of the functions that have these names, with their values at each pattern, and the listing that it was made by.
pub fn tell_report<H: Host>(
    alloc: Global,
    host: &H,
    session: &mut H::Session,
    reported: &Reported,
    names: &[Name],
    patterns: &[List<bool>],
) -> Result<Findings, Memory>
    requires may { MayReport H.has H.standing host.now session.old (inputs_of reported.now) (length (names_of reported.now)) names.now }
    ensures told { IfOk result (λ found. IsTold (FindingsOf (inputs_of reported.now) (names_of reported.now) patterns.now Report) (H.standing session.old) (H.standing session.new) names.now found) }
    ensures own { H.has host.now session.new }
    ensures looks { Looks (H.standing session.old) (H.standing session.new) }
{
    let listing = host.list(session, names)?;
    let text = report_listed(alloc, host, session, reported, names, &listing, patterns)?;
    Ok(Findings { text, listing })
}

/// The summary of a network whose outputs' functions have these names, and the listing that it was made by.
fn tell_summary<H: Host>(
    alloc: Global,
    host: &H,
    session: &mut H::Session,
    net: &Net,
    names: &[Name],
) -> Result<Findings, Memory>
    requires may { MayReport H.has H.standing host.now session.old (length net.now.inputs) (length net.now.outputs) names.now }
    ensures told { IfOk result (λ found. (patterns : ListOf (ListOf Bool)) → IsTold (FindsOf net.now patterns Summary) (H.standing session.old) (H.standing session.new) names.now found) }
    ensures own { H.has host.now session.new }
    ensures looks { Looks (H.standing session.old) (H.standing session.new) }
{
    let listing = host.list(session, names)?;
    let classes = classes_of(alloc, &listing)?;
    let text = summary(alloc, net, &classes, listing.node_count())?;
    Ok(Findings { text, listing })
}

/// What is due of a network whose outputs' functions have these names, and the listing that it was made by.
pub fn tell<H: Host>(
    alloc: Global,
    host: &H,
    session: &mut H::Session,
    net: &Net,
    names: &[Name],
    telling: Telling,
    patterns: &[List<bool>],
) -> Result<Findings, Memory>
    requires may { MayReport H.has H.standing host.now session.old (length net.now.inputs) (length net.now.outputs) names.now }
    ensures told { IfOk result (λ found. IsTold (FindsOf net.now patterns.now telling) (H.standing session.old) (H.standing session.new) names.now found) }
    ensures own { H.has host.now session.new }
    ensures looks { Looks (H.standing session.old) (H.standing session.new) }
{
    let reported = &Reported::Network(net);
    match telling {
        Telling::Report => tell_report(alloc, host, session, reported, names, patterns),
        Telling::Summary => tell_summary(alloc, host, session, net, names),
    }
}
