//! The text of a network whose outputs were built: the report, and what may follow it.

ghost use Rattle.std.specs.Prelude.{◌≡◌, ◌≤◌, ◌<◌, ◌^◌, IfErr, IfOk, length, map, true};
ghost use Rattle.edge_bits.specs.declared.limits.TheConstants.{MOST_SIGNALS};
ghost use Rattle.blif_dump.specs.Calls.{names_in};
ghost use Rattle.blif_dump.specs.Multiplexers.{multiplexers};
ghost use Rattle.diagram_dumps.specs.Listings.{dump_of};
ghost use Rattle.diagram_dumps.specs.WellMade.{IsWritable};
ghost use Rattle.net_reports.specs.Reports.{output_names};
ghost use Rattle.net_jobs.specs.Texts.{IsTextOf, MayFollow, StopsBehind, StopsNetwork, StopsText, behind_report, signals_for};

use crate::stops::PartStop;
use blif_dump::{Name, write};
use blif_net::Net;
use command_words::Options;
use dddmp_text::write as write_diagram;
use diagram_dumps::{Dump, Listing};
use net_builds::Findings;
use std::alloc::{AllocError, Global};

/// The names of a network's inputs.
fn input_names(alloc: Global, net: &Net) -> Result<Vec<Name<'_>>, AllocError>
    ensures { IfOk result (λ names. names_in names.items ≡ net.now.inputs) }
{
    let mut names = Vec::new(alloc);
    for input in net.inputs() {
        names.push(input.as_slice())?;
    }
    Ok(names)
}

/// The names of a network's outputs.
fn output_names(alloc: Global, net: &Net) -> Result<Vec<Name<'_>>, AllocError>
    ensures { IfOk result (λ names. names_in names.items ≡ output_names net.now) }
{
    let mut names = Vec::new(alloc);
    for output in net.outputs() {
        names.push(output.name.as_slice())?;
    }
    Ok(names)
}

/// The stored diagram of a network's outputs as a network of multiplexers with the network's names.
fn network_text(alloc: Global, net: &Net, dump: &Dump) -> Result<Vec<u8>, PartStop>
    requires { MayFollow net.now dump.now }
    ensures text { IfOk result (λ text. text.items ≡ multiplexers dump.now net.now.inputs (output_names net.now)) }
    ensures few { IfOk result (λ _. signals_for net.now dump.now ≤ MOST_SIGNALS) }
    ensures stopped { IfErr result (StopsNetwork net.now dump.now) }
{
    let inputs = input_names(alloc, net)?;
    let outputs = output_names(alloc, net)?;
    let text = write(alloc, dump, &inputs, &outputs)?;
    Ok(text)
}

/// What follows the report of a network: the stored diagram of its outputs, and then the network of multiplexers, each where the options
/// ask for it. That the latter is too large is told before anything is written.
fn behind(
    alloc: Global,
    net: &Net,
    options: &Options,
    listing: Listing,
) -> Result<Vec<u8>, PartStop>
    requires may { MayFollow net.now (dump_of listing) }
    requires few { length listing.order < 2 ^ 32 }
    ensures text { IfOk result (λ text. text.items ≡ behind_report net.now options.now (dump_of listing)) }
    ensures few { options.now.blif ≡ true → IfOk result (λ _. signals_for net.now (dump_of listing) ≤ MOST_SIGNALS) }
    ensures stopped { IfErr result (StopsBehind net.now options.now (dump_of listing)) }
{
    let dump = listing.into_dump(alloc)?;
    let network = if options.blif {
        network_text(alloc, net, &dump)?
    } else {
        Vec::new(alloc)
    };
    let mut text = if options.store {
        write_diagram(alloc, &dump)?
    } else {
        Vec::new(alloc)
    };
    text.extend_from_slice(&network)?;
    Ok(text)
}

/// The text of what was found of a network's outputs: the report, and what follows it.
pub fn text_of(
    alloc: Global,
    net: &Net,
    options: &Options,
    found: Findings,
) -> Result<Vec<u8>, PartStop>
    requires may { MayFollow net.now (dump_of found.listing) }
    requires few { length found.listing.order < 2 ^ 32 }
    ensures text { IfOk result (IsTextOf net.now options.now found) }
    ensures stopped { IfErr result (StopsText net.now options.now found) }
{
    let Findings { mut text, listing } = found;
    if options.store || options.blif {
        let behind = behind(alloc, net, options, listing)?;
        text.extend_from_slice(&behind)?;
    }
    Ok(text)
}
