//! The formal names of a model, by number.

ghost use Rattle.std.specs.Prelude.{◌≡◌, ◌<◌, All, IfOk, length, true, ℕ, vec_len, if◌then◌else◌};
ghost use Rattle.blif_order.specs.Orders.{is_in};
ghost use Rattle.blif_formals.specs.Joining.{IsInterface, is_once, port_of};

use edge_bits::List;
use std::alloc::{AllocError, Global};

/// What a name of a model is to those that hold the model: no formal name, an input, or an output.
#[derive(Debug, Clone, Copy, PartialEq, Eq, Drop)]
pub enum Port {
    Inner,
    Input,
    Output,
}

/// The formal names of a model, by number, and the port of each of its names. What is an input and an output is an input.
#[derive(Drop)]
pub struct Interface {
    pub inputs: List<u32>,
    pub outputs: List<u32>,
    pub ports: Vec<Port>,
}

/// Gives some names this port.
fn mark(ports: &mut Vec<Port>, numbers: &[u32], port: Port)
    requires { All (λ n. n < length ports.old.items) numbers.now }
    ensures many { length ports.new.items ≡ length ports.old.items }
    ensures ports { (n : ℕ) → port_of ports.new.items n ≡ (if is_in numbers.now n then port else port_of ports.old.items n) }
{
    for number in numbers {
        ports[*number as usize] = port;
    }
}

/// The interface of a model with so many names, of which these are its inputs, each once, and its outputs.
pub fn interface_of(
    alloc: Global,
    names: u32,
    inputs: List<u32>,
    outputs: List<u32>,
) -> Result<Interface, AllocError>
    requires inputs { All (λ n. n < names) inputs }
    requires once { is_once inputs ≡ true }
    requires outputs { All (λ n. n < names) outputs }
    ensures inputs { IfOk result (λ interface. interface.inputs ≡ inputs) }
    ensures outputs { IfOk result (λ interface. interface.outputs ≡ outputs) }
    ensures many { IfOk result (λ interface. vec_len interface.ports ≡ names) }
    ensures interface { IfOk result IsInterface }
{
    let mut ports = vec![in alloc; Port::Inner; names as usize]?;
    mark(&mut ports, outputs.as_slice(), Port::Output);
    mark(&mut ports, inputs.as_slice(), Port::Input);
    Ok(Interface {
        inputs,
        outputs,
        ports,
    })
}
