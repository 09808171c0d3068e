//! Whether an instance joins the formal names of its model well.

ghost use Rattle.std.specs.Prelude.{◌≡◌, ◌<◌, All, IfOk, count_by, length, vec_len};
ghost use Rattle.std.specs.List.{list_all};
ghost use Rattle.blif_order.specs.Orders.{is_in};
ghost use Rattle.blif_formals.specs.Joining.{IsInterface, is_formal, is_input, is_once, is_rising, joins_well, port_of};

use crate::interface::{Interface, Port};
use std::alloc::{AllocError, Global};

/// Whether each number is lower than the next.
fn is_rising(numbers: &[u32]) -> bool
    ensures { result ≡ is_rising numbers.now }
{
    for place in 1..numbers.len() {
        if numbers[place - 1] >= numbers[place] {
            return false;
        }
    }
    true
}

/// Whether no number stands twice.
fn is_once(alloc: Global, numbers: &[u32]) -> Result<bool, AllocError>
    ensures { IfOk result (λ once. once ≡ is_once numbers.now) }
{
    let mut sorted = Vec::from_slice(alloc, numbers)?;
    sorted.sort_unstable();
    Ok(is_rising(&sorted))
}

/// Whether each of these is a formal name.
fn are_formal(ports: &[Port], numbers: &[u32]) -> bool
    requires { All (λ n. n < length ports.now) numbers.now }
    ensures { result ≡ list_all (λ n. is_formal (port_of ports.now n)) numbers.now }
{
    for number in numbers {
        if ports[*number as usize] == Port::Inner {
            return false;
        }
    }
    true
}

/// How many of these are inputs.
fn count_inputs(ports: &[Port], numbers: &[u32]) -> usize
    requires { All (λ n. n < length ports.now) numbers.now }
    ensures { result ≡ count_by (λ n. is_input (port_of ports.now n)) numbers.now }
{
    let mut count = 0;
    for number in numbers {
        if ports[*number as usize] == Port::Input {
            count += 1;
        }
    }
    count
}

/// Whether joined names of these numbers are formal names of a model, none of them joined twice, and among them is each input.
pub fn joins_well(alloc: Global, interface: &Interface, formals: &[u32]) -> Result<bool, AllocError>
    requires interface { IsInterface interface.now }
    requires within { All (λ n. n < vec_len interface.now.ports) formals.now }
    ensures { IfOk result (λ well. well ≡ joins_well interface.now.inputs interface.now.outputs formals.now) }
{
    let ports = interface.ports.as_slice();
    if !are_formal(ports, formals) || count_inputs(ports, formals) != interface.inputs.len() {
        return Ok(false);
    }
    is_once(alloc, formals)
}
