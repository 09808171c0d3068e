//! Signals that are defined twice.

ghost use Rattle.std.specs.Prelude.{◌≡◌, ◌<◌, All, IfOk};
ghost use Rattle.blif_models.specs.ModelFaults.{least, lesser};
ghost use Rattle.blif_formals.specs.Clashes.{clashes, later};

use std::alloc::{AllocError, Global};

/// The definition of a signal of a model: the number of its name, and the line.
#[derive(Debug, Clone, Copy, PartialEq, Eq, Drop)]
pub struct Definition {
    pub name: u32,
    pub line: u64,
}

/// The lower one of a line and another, if there is another.
pub fn lesser(line: u64, other: Option<u64>) -> u64
    ensures { result ≡ lesser line other }
{
    match other {
        Some(other) if other < line => other,
        _ => line,
    }
}

/// The higher one of two lines.
fn later(line: u64, other: u64) -> u64
    ensures { result ≡ later line other }
{
    if line < other { other } else { line }
}

/// The first line by which a signal is defined twice, in a model with so many names. Definitions come in any order.
pub fn clash_line(
    alloc: Global,
    names: u32,
    definitions: &[Definition],
) -> Result<Option<u64>, AllocError>
    requires { All (λ one. one.name < names) definitions.now }
    ensures { IfOk result (λ line. line ≡ least (clashes definitions.now)) }
{
    let mut lines = vec![in alloc; None::<u64>; names as usize]?;
    let mut clash = None;
    for one in definitions {
        let name = one.name as usize;
        let before = lines[name];
        if let Some(first) = before {
            clash = Some(lesser(later(first, one.line), clash));
        }
        lines[name] = Some(lesser(one.line, before));
    }
    Ok(clash)
}
