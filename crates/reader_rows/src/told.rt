//! A network, as lines.

use blif_net::{Cover, Literal, Net, Output};
use std::alloc::{AllocError, Global};

fn add_number(text: &mut Vec<u8>, alloc: Global, number: u32) -> Result<(), AllocError> {
    let word = format!(in alloc; " {number}")?;
    text.extend_from_slice(word.as_bytes())?;
    Ok(())
}

/// Adds a gate: the signals that it reads, what it is where a row matches, and its rows.
fn add_gate(text: &mut Vec<u8>, alloc: Global, gate: &Cover) -> Result<(), AllocError> {
    text.extend_from_slice("gate".as_bytes())?;
    for signal in gate.ins.as_slice() {
        add_number(text, alloc, *signal)?;
    }
    let on = if gate.on { " on" } else { " off" };
    text.extend_from_slice(on.as_bytes())?;
    add_rows(text, gate)
}

/// Adds the rows of a gate.
fn add_rows(text: &mut Vec<u8>, gate: &Cover) -> Result<(), AllocError> {
    for row in gate.rows.as_slice() {
        text.extend_from_slice(" |".as_bytes())?;
        for literal in row.literals.as_slice() {
            text.push(match literal {
                Literal::Zero => b'0',
                Literal::One => b'1',
                Literal::Any => b'-',
            })?;
        }
    }
    text.push(b'\n')?;
    Ok(())
}

/// Adds the names of the inputs.
fn add_inputs(text: &mut Vec<u8>, net: &Net) -> Result<(), AllocError> {
    text.extend_from_slice("inputs".as_bytes())?;
    for name in net.inputs() {
        text.push(b' ')?;
        text.extend_from_slice(name.as_slice())?;
    }
    text.push(b'\n')?;
    Ok(())
}

/// Adds an output: its name and its signal.
fn add_output(text: &mut Vec<u8>, alloc: Global, output: &Output) -> Result<(), AllocError> {
    text.extend_from_slice("output ".as_bytes())?;
    text.extend_from_slice(output.name.as_slice())?;
    add_number(text, alloc, output.signal)?;
    text.push(b'\n')?;
    Ok(())
}

/// Adds the outputs.
fn add_outputs(text: &mut Vec<u8>, alloc: Global, net: &Net) -> Result<(), AllocError> {
    for output in net.outputs() {
        add_output(text, alloc, output)?;
    }
    Ok(())
}

/// Adds a network.
fn add_net(text: &mut Vec<u8>, alloc: Global, net: &Net) -> Result<(), AllocError> {
    add_inputs(text, net)?;
    for gate in net.gates() {
        add_gate(text, alloc, gate)?;
    }
    add_outputs(text, alloc, net)
}

/// A network, as lines.
pub fn told(alloc: Global, net: &Net) -> Result<Vec<u8>, AllocError> {
    let mut text = Vec::new(alloc);
    add_net(&mut text, alloc, net)?;
    Ok(text)
}
