//! What comes of a row.

use crate::dumps;
use crate::rows::{Row, Subject};
use crate::told::told;
use blif_net::{BlifError, Net, read};
use edge_bits::Memory;
use net_reports::{report, summary};
use std::alloc::Global;
use std::hash::RandomState;
use std::io;
use std::random::RandomSource;

/// The report of a network with so many nodes, and its summary behind it.
fn report_and_summary(
    alloc: Global,
    net: &Net,
    row: &Row,
    nodes: usize,
) -> Result<Vec<u8>, Memory> {
    if row.classes.len() != net.outputs().len() {
        return Ok(Vec::from_slice(alloc, b"another number of classes\n")?);
    }
    let mut text = report(
        alloc,
        net,
        row.classes.as_slice(),
        row.evaluations.as_slice(),
        row.order.as_slice(),
        nodes,
    )?;
    let summary = summary(alloc, net, row.classes.as_slice(), nodes)?;
    text.extend_from_slice(summary.as_slice())?;
    Ok(text)
}

/// What is due of a network that was read: its report and its summary, or its lines.
fn net_of(alloc: Global, net: &Net, row: &Row) -> Result<Vec<u8>, Memory> {
    match row.nodes {
        Some(nodes) => report_and_summary(alloc, net, row, nodes),
        None => Ok(told(alloc, net)?),
    }
}

/// What is due of a network that was read, or why it was not.
fn written_of(alloc: Global, read: &Result<Net, BlifError>, row: &Row) -> Result<Vec<u8>, Memory> {
    match read {
        Ok(net) => net_of(alloc, net, row),
        Err(BlifError::Memory) => Err(Memory),
        Err(BlifError::Fault(fault)) => {
            let line = format!(in alloc; "fault {fault}\n")?;
            Ok(line.into_bytes())
        }
    }
}

/// What is due of a row's text, or why it was not read.
pub fn written<R: AllocGlobal + RandomSource>(rt: &R, row: &Row) -> io::Result<Vec<u8>> {
    let alloc = rt.alloc();
    let text = row.text.as_slice();
    let told = match row.subject {
        Subject::Network => {
            let keys = RandomState::new(rt)?;
            written_of(alloc, &read(alloc, keys, text), row)
        }
        Subject::StoredDiagram => dumps::told(alloc, text),
    };
    match told {
        Ok(text) => Ok(text),
        Err(Memory) => Ok(Vec::from_slice(alloc, b"memory\n")?),
    }
}
