//! The text of a dump.

ghost use Rattle.std.specs.Prelude.{◌≡◌, ◌<◌, ◌++◌, ◌∷◌, [], All, Contains, OnOk, IfOk, length, map, string_bytes};
ghost use Rattle.std.specs.Fmt.{decimal, signed_decimal};
ghost use Rattle.diagram_dumps.specs.WellMade.{IsWritable};
ghost use Rattle.dddmp_text.specs.Written.{AreInternals, counts, header, item, node_item, node_items, written};

use crate::sorting::places_by_rank;
use diagram_dumps::Dump;
use edge_bits::{Line, Memory};
use std::alloc::{AllocError, Global};

/// By variable, the internal index of the node lines of each id.
fn internals_of(alloc: Global, dump: &Dump) -> Result<Vec<usize>, AllocError>
    requires { IsWritable dump.now }
    ensures { IfOk result (λ internals. AreInternals dump.now internals.items) }
{
    let places = places_by_rank(alloc, dump.permids.as_slice())?;
    let mut internals = vec![in alloc; 0usize; dump.nvars as usize]?;
    for rank in 0..places.len() {
        let place = places[rank] as usize;
        internals[dump.ids.as_slice()[place] as usize] = rank;
    }
    Ok(internals)
}

/// A line of a word and one number.
fn put_number(text: &mut String, word: &str, number: usize) -> Result<(), AllocError>
    ensures { OnOk result (string_bytes text.new ≡ string_bytes text.old ++ item word.now (decimal number ∷ [])) }
{
    text.push_str(word)?;
    write!(text, " {number}\n")
}

/// A line of a word and numbers.
fn put_numbers(text: &mut String, word: &str, numbers: &[u32]) -> Result<(), AllocError>
    ensures { OnOk result (string_bytes text.new ≡ string_bytes text.old ++ item word.now (map decimal numbers.now)) }
{
    text.push_str(word)?;
    for number in numbers {
        write!(text, " {number}")?;
    }
    text.push_str("\n")
}

/// A line of a word and whole numbers.
fn put_integers(text: &mut String, word: &str, numbers: &[i32]) -> Result<(), AllocError>
    ensures { OnOk result (string_bytes text.new ≡ string_bytes text.old ++ item word.now (map signed_decimal numbers.now)) }
{
    text.push_str(word)?;
    for whole in numbers {
        write!(text, " {whole}")?;
    }
    text.push_str("\n")
}

/// The first lines of the header.
#[tactic(auto, unfolding(crate::specs::Written::counts))]
fn counted(alloc: Global, dump: &Dump) -> Result<String, AllocError>
    ensures { IfOk result (λ text. string_bytes text ≡ counts dump.now) }
{
    let mut text = String::from_str(alloc, ".ver DDDMP-2.0\n.mode A\n.varinfo 0\n")?;
    put_number(&mut text, ".nnodes", dump.nodes.as_slice().len() + 1)?;
    put_number(&mut text, ".nvars", dump.nvars as usize)?;
    put_number(&mut text, ".nsuppvars", dump.ids.len())?;
    Ok(text)
}

/// The header, with the line of the constant.
#[tactic(auto, unfolding(crate::specs::Written::header))]
fn header(alloc: Global, dump: &Dump) -> Result<String, AllocError>
    ensures { IfOk result (λ text. string_bytes text ≡ header dump.now) }
{
    let mut text = counted(alloc, dump)?;
    put_numbers(&mut text, ".ids", dump.ids.as_slice())?;
    put_numbers(&mut text, ".permids", dump.permids.as_slice())?;
    put_number(&mut text, ".nroots", dump.roots.len())?;
    put_integers(&mut text, ".rootids", dump.roots.as_slice())?;
    text.push_str(".nodes\n1 T 1 0 0\n")?;
    Ok(text)
}

/// A node line.
fn put_node(text: &mut String, index: usize, line: &Line, internal: usize) -> Result<(), AllocError>
    ensures { OnOk result (string_bytes text.new ≡ string_bytes text.old ++ node_item internal index line.now) }
{
    write!(text, "{index} {}", line.var)?;
    write!(text, " {internal} {}", line.hi)?;
    write!(text, " {}\n", line.lo)?;
    Ok(())
}

/// The node lines behind that of the constant.
fn put_nodes(text: &mut String, dump: &Dump, internals: &[usize]) -> Result<(), AllocError>
    requires internals { AreInternals dump.now internals.now }
    requires holds { All (λ line. Contains dump.now.ids line.var) dump.now.nodes }
    ensures { OnOk result (string_bytes text.new ≡ string_bytes text.old ++ node_items dump.now dump.now.nodes) }
{
    for (place, line) in dump.nodes.as_slice().iter().enumerate() {
        put_node(text, place + 2, line, internals[line.var as usize])?;
    }
    Ok(())
}

/// The text of a well made dump whose `ids` rise, are below `nvars` and hold each line's variable, and whose `permids` are as
/// many and distinct. Want of memory may be the answer to any dump.
#[tactic(auto, unfolding(crate::specs::Written::written))]
pub fn write(alloc: Global, dump: &Dump) -> Result<Vec<u8>, Memory>
    requires { IsWritable dump.now }
    ensures { IfOk result (λ text. text.items ≡ written dump.now) }
{
    let internals = internals_of(alloc, dump)?;
    let mut text = header(alloc, dump)?;
    put_nodes(&mut text, dump, &internals)?;
    text.push_str(".end\n")?;
    Ok(text.into_bytes())
}
