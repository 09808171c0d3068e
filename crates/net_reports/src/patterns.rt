//! Patterns of inputs' values, and the values of outputs at them.

ghost use Rattle.std.specs.Prelude.{◌≡◌, IfOk, vec_len};
ghost use Rattle.function_laws.specs.Values.{assignment_of};
ghost use Rattle.net_reports.specs.Evaluations.{assignment};

use edge_bits::{List, Memory};
use std::alloc::Global;

/// A pattern, and the value of each output there. Input i takes bit i; inputs past its end are 0, and further bits have no
/// effect.
#[derive(Drop)]
pub struct Evaluation {
    pub pattern: List<bool>,
    pub values: List<bool>,
}

/// The values of n inputs by a pattern.
pub fn padded(alloc: Global, n: usize, pattern: &[bool]) -> Result<Vec<bool>, Memory>
    ensures length { IfOk result (λ bits. vec_len bits ≡ n) }
    ensures assignment { IfOk result (λ bits. assignment_of bits.items ≡ assignment n pattern.now) }
{
    let mut bits = Vec::from_slice(alloc, pattern)?;
    bits.resize(n, false)?;
    Ok(bits)
}
