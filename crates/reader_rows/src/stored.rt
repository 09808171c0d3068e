//! The text of a stored diagram.

ghost use Rattle.std.specs.Prelude.{IfOk};
ghost use Rattle.diagram_dumps.specs.WellMade.{IsWritable};

use dddmp_text::{Dump, Line, write};
use edge_bits::{List, Memory};
use std::alloc::Global;
use std::io;

/// The exclusive or of two variables, complemented at its root.
fn exclusive_or(alloc: Global) -> Result<Dump, Memory>
    ensures { IfOk result (λ dump. IsWritable dump) }
{
    let lower = Line {
        var: 1,
        hi: 1,
        lo: -1,
    };
    let upper = Line {
        var: 0,
        hi: 2,
        lo: -2,
    };
    let nodes = vec![in alloc; lower, upper]?;
    let ids = vec![in alloc; 0u32, 1u32]?;
    let permids = vec![in alloc; 0u32, 1u32]?;
    let roots = vec![in alloc; -3i32]?;
    Ok(Dump {
        nvars: 2,
        ids: List::from_vec(ids),
        permids: List::from_vec(permids),
        nodes: List::from_vec(nodes),
        roots: List::from_vec(roots),
    })
}

/// The text of that diagram.
fn stored(alloc: Global) -> Result<Vec<u8>, Memory> {
    let dump = exclusive_or(alloc)?;
    write(alloc, &dump)
}

/// Writes the text of that diagram.
pub fn tell<R: AllocGlobal + Print>(rt: &R) -> io::Result<()> {
    let alloc = rt.alloc();
    match stored(alloc) {
        Ok(text) => {
            let shown = String::from_utf8_lossy(alloc, text.as_slice())?;
            print!(rt; "{shown}")
        }
        Err(Memory) => println!(rt; "want of memory"),
    }
}
