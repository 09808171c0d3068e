//! The generated networks are read.

use blif_net::{BlifError, Net, gen_text, read};
use edge_bits::Memory;
use std::hash::RandomState;
use std::io;
use std::random::RandomSource;

/// Prints how many inputs and outputs a network has, or why it was not read.
fn show<R: Print>(rt: &R, bits: u32, read: &Result<Net, BlifError>) -> io::Result<()> {
    match read {
        Ok(net) => {
            let inputs = net.inputs().len();
            let outputs = net.outputs().len();
            println!(rt; "{bits} bits: {inputs} inputs, {outputs} outputs")
        }
        Err(BlifError::Memory) => println!(rt; "{bits} bits: memory"),
        Err(BlifError::Fault(fault)) => println!(rt; "{bits} bits: fault {fault}"),
    }
}

/// Reads the text of a generated network.
fn read_text<R: AllocGlobal + Print + RandomSource>(
    rt: &R,
    bits: u32,
    text: &[u8],
) -> io::Result<()> {
    let keys = RandomState::new(rt)?;
    show(rt, bits, &read(rt.alloc(), keys, text))
}

/// Reads the generated network of so many bits, and prints how many inputs and outputs it has.
fn read_generated<R: AllocGlobal + Print + RandomSource>(rt: &R, bits: u32) -> io::Result<()> {
    match gen_text(rt.alloc(), bits) {
        Ok(text) => read_text(rt, bits, text.as_slice()),
        Err(Memory) => println!(rt; "{bits} bits: memory"),
    }
}

/// Reads the generated networks of 1 to 256 bits.
pub fn read_all<R: AllocGlobal + Print + RandomSource>(rt: &R) -> io::Result<()> {
    for bits in 1..=256 {
        read_generated(rt, bits)?;
    }
    Ok(())
}
