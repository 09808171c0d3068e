//! The text of a dump as a network of multiplexers.

ghost use Rattle.std.specs.Prelude.{◌≡◌, ◌+◌, ◌∷◌, [], ◌++◌, ◌<◌, ◌≤◌, codes, nat_abs, All, IfOk, MatchResult, OnOk, length, map};
ghost use Rattle.edge_bits.specs.declared.limits.TheConstants.{MOST_SIGNALS};
ghost use Rattle.diagram_dumps.specs.WellMade.{IsWritable};
ghost use Rattle.blif_dump.specs.Calls.{StopIs, names_in, signals_needed};
ghost use Rattle.blif_dump.specs.Lines.{spaced, text_of};
ghost use Rattle.blif_dump.specs.Multiplexers.{head_lines, lines_at, lines_of, literal_for, multiplexers, node_lines, nodes_lines, output_lines, outputs_lines};
ghost use Rattle.blif_dump.specs.Names.{called, node_name};
ghost use Rattle.blif_dump.specs.Naming.{naming_in};

use crate::names::{Name, Names};
use crate::stops::DumpStop;
use diagram_dumps::{Dump, Line};
use edge_bits::MOST_SIGNALS;
use std::alloc::{AllocError, Global};

/// The byte that a row has for the signal of an index.
fn literal_for(index: &i32) -> u8
    ensures { result ≡ literal_for index.now }
{
    if *index < 0 { b'0' } else { b'1' }
}

/// Adds names as they are written, each behind a blank.
fn put_names<'a>(
    text: &mut Vec<u8>,
    naming: &Names<'a>,
    names: &[Name<'a>],
) -> Result<(), AllocError>
    ensures { OnOk result (text.new.items ≡ text.old.items ++ spaced (map (called (naming_in naming.now)) (names_in names.now))) }
{
    for name in names {
        naming.put_word(text, name)?;
    }
    Ok(())
}

/// What declares the inputs, the outputs and the constant.
fn head<'a>(
    alloc: Global,
    naming: &Names<'a>,
    inputs: &[Name<'a>],
    outputs: &[Name<'a>],
) -> Result<Vec<u8>, AllocError>
    ensures { IfOk result (λ text. text.items ≡ text_of (head_lines (naming_in naming.now).front (map (called (naming_in naming.now)) (names_in inputs.now)) (map (called (naming_in naming.now)) (names_in outputs.now)))) }
{
    let mut text = Vec::from_slice(alloc, b".model dd\n.inputs")?;
    put_names(&mut text, naming, inputs)?;
    text.extend_from_slice(b"\n.outputs")?;
    put_names(&mut text, naming, outputs)?;
    text.extend_from_slice(b"\n.names")?;
    naming.put_signal(&mut text, 1)?;
    text.extend_from_slice(b"\n1\n")?;
    Ok(text)
}

/// A name as it is written.
fn word_of<'a>(alloc: Global, naming: &Names<'a>, name: Name<'a>) -> Result<Vec<u8>, AllocError>
    ensures { IfOk result (λ word. word.items ≡ called (naming_in naming.now) name.now) }
{
    let mut word = Vec::new(alloc);
    naming.put_name(&mut word, name)?;
    Ok(word)
}

/// Names as they are written.
fn words_of<'a>(
    alloc: Global,
    naming: &Names<'a>,
    names: &[Name<'a>],
) -> Result<Vec<Vec<u8>>, AllocError>
    ensures { IfOk result (λ words. map (λ word. word.items) words.items ≡ map (called (naming_in naming.now)) (names_in names.now)) }
{
    let mut words = Vec::new(alloc);
    for name in names {
        words.push(word_of(alloc, naming, name)?)?;
    }
    Ok(words)
}

/// Adds what begins a node line: the name of its variable.
fn put_opening(text: &mut Vec<u8>, var: &[u8]) -> Result<(), AllocError>
    ensures { OnOk result (text.new.items ≡ text.old.items ++ codes ".names " ++ var.now) }
{
    text.extend_from_slice(b".names ")?;
    text.extend_from_slice(var)
}

/// Adds a blank and the name of the signal of an index, whatever its sign.
fn put_index(text: &mut Vec<u8>, naming: &Names<'_>, index: &i32) -> Result<(), AllocError>
    ensures { OnOk result (text.new.items ≡ text.old.items ++ 32 ∷ node_name (naming_in naming.now).front (nat_abs index.now)) }
{
    naming.put_signal(text, index.unsigned_abs() as usize)
}

/// Adds the names of the signals of a node line's children and of itself.
fn put_signals(
    text: &mut Vec<u8>,
    naming: &Names<'_>,
    index: usize,
    line: &Line,
) -> Result<(), AllocError>
    ensures { let front = (naming_in naming.now).front in OnOk result (text.new.items ≡ text.old.items ++ spaced (node_name front line.now.hi ∷ node_name front (nat_abs line.now.lo) ∷ node_name front index ∷ [])) }
{
    naming.put_signal(text, line.hi as usize)?;
    put_index(text, naming, &line.lo)?;
    naming.put_signal(text, index)?;
    Ok(())
}

/// Adds what ends a line and opens the last row, with its literal and its output.
fn put_rows(text: &mut Vec<u8>, opening: &[u8], literal: u8) -> Result<(), AllocError>
    ensures { OnOk result (text.new.items ≡ text.old.items ++ opening.now ++ literal ∷ codes " 1\n") }
{
    text.extend_from_slice(opening)?;
    text.push(literal)?;
    text.extend_from_slice(b" 1\n")
}

/// Adds a node line: `v then else node`, and its rows.
fn put_node(
    text: &mut Vec<u8>,
    naming: &Names<'_>,
    var: &[u8],
    index: usize,
    line: &Line,
) -> Result<(), AllocError>
    ensures { OnOk result (text.new.items ≡ text.old.items ++ text_of (node_lines (naming_in naming.now).front var.now index line.now)) }
{
    put_opening(text, var)?;
    put_signals(text, naming, index, line)?;
    put_rows(text, b"\n11- 1\n0-", literal_for(&line.lo))?;
    Ok(())
}

/// Adds the node lines, by the words of the inputs.
fn put_nodes<'a>(
    text: &mut Vec<u8>,
    naming: &Names<'a>,
    inputs: &[Name<'a>],
    words: &[Vec<u8>],
    nodes: &[Line],
) -> Result<(), AllocError>
    requires words { map (λ word. word.items) words.now ≡ map (called (naming_in naming.now)) (names_in inputs.now) }
    requires below { All (λ line. line.var < length inputs.now) nodes.now }
    ensures { OnOk result (text.new.items ≡ text.old.items ++ text_of (nodes_lines (naming_in naming.now) (names_in inputs.now) nodes.now)) }
{
    for (place, line) in nodes.iter().enumerate() {
        put_node(text, naming, &words[line.var as usize], place + 2, line)?;
    }
    Ok(())
}

/// Adds what defines an output: its root, or the root's complement.
fn put_output<'a>(
    text: &mut Vec<u8>,
    naming: &Names<'a>,
    name: Name<'a>,
    root: &i32,
) -> Result<(), AllocError>
    ensures { OnOk result (text.new.items ≡ text.old.items ++ text_of (output_lines (naming_in naming.now).front (called (naming_in naming.now) name.now) root.now)) }
{
    text.extend_from_slice(b".names")?;
    put_index(text, naming, root)?;
    naming.put_word(text, name)?;
    put_rows(text, b"\n", literal_for(root))?;
    Ok(())
}

/// Adds what defines the output at a place, where that is due there.
fn put_at<'a>(
    text: &mut Vec<u8>,
    naming: &Names<'a>,
    place: usize,
    name: Name<'a>,
    root: &i32,
) -> Result<(), AllocError>
    ensures { OnOk result (text.new.items ≡ text.old.items ++ text_of (lines_at (naming_in naming.now) place name.now root.now)) }
{
    if naming.is_due(name, place) {
        put_output(text, naming, name, root)
    } else {
        Ok(())
    }
}

/// Adds the definitions of the outputs.
fn put_outputs<'a>(
    text: &mut Vec<u8>,
    naming: &Names<'a>,
    outputs: &[Name<'a>],
    roots: &[i32],
) -> Result<(), AllocError>
    requires { length outputs.now ≡ length roots.now }
    ensures { OnOk result (text.new.items ≡ text.old.items ++ text_of (outputs_lines (naming_in naming.now) (names_in outputs.now) roots.now)) }
{
    for (place, root) in roots.iter().enumerate() {
        put_at(text, naming, place, outputs[place], root)?;
    }
    Ok(())
}

/// The text of a dump whose variables are the inputs and whose roots are the outputs.
#[tactic(auto, unfolding(crate::specs::Multiplexers::multiplexers))]
fn multiplexers<'a>(
    alloc: Global,
    dump: &Dump,
    inputs: &[Name<'a>],
    outputs: &[Name<'a>],
) -> Result<Vec<u8>, AllocError>
    requires writable { IsWritable dump.now }
    requires inputs { length inputs.now ≡ dump.now.nvars }
    requires outputs { length outputs.now ≡ length dump.now.roots }
    ensures { IfOk result (λ text. text.items ≡ multiplexers dump.now (names_in inputs.now) (names_in outputs.now)) }
{
    let naming = Names::new(alloc, inputs, outputs)?;
    let words = words_of(alloc, &naming, inputs)?;
    let mut text = head(alloc, &naming, inputs, outputs)?;
    put_nodes(&mut text, &naming, inputs, &words, dump.nodes.as_slice())?;
    put_outputs(&mut text, &naming, outputs, dump.roots.as_slice())?;
    text.extend_from_slice(b".end\n")?;
    Ok(text)
}

/// Inputs, node lines with the constant, and outputs.
fn signals_needed(dump: &Dump, inputs: &[Name<'_>], outputs: &[Name<'_>]) -> u64
    ensures { result ≡ signals_needed dump.now (names_in inputs.now) (names_in outputs.now) }
{
    inputs.len() as u64 + (dump.nodes.as_slice().len() as u64 + 1) + outputs.len() as u64
}

/// The text of a dump as a network of multiplexers, with the dump's variables as these inputs and its roots as these outputs. A name that
/// holds `#` or ends with `\` is written by its place.
///
/// Where no two inputs have one name, outputs of one name have one root, and one that is an input is its variable, the text is read as a
/// network of these inputs and outputs, each of which has its root's function: that is a law of what reads such texts. A network's names
/// are so.
///
/// `Large` is the answer exactly where inputs, node lines with the constant, and outputs are more than `MOST_SIGNALS`. Want of
/// memory may be the answer to any other.
pub fn write<'a>(
    alloc: Global,
    dump: &Dump,
    inputs: &[Name<'a>],
    outputs: &[Name<'a>],
) -> Result<Vec<u8>, DumpStop>
    requires writable { IsWritable dump.now }
    requires inputs { length inputs.now ≡ dump.now.nvars }
    requires outputs { length outputs.now ≡ length dump.now.roots }
    ensures text { IfOk result (λ text. text.items ≡ multiplexers dump.now (names_in inputs.now) (names_in outputs.now)) }
    ensures large { let needed = signals_needed dump.now (names_in inputs.now) (names_in outputs.now) in MatchResult result (λ _. needed ≤ MOST_SIGNALS) (StopIs needed) }
{
    let signals = signals_needed(dump, inputs, outputs);
    if signals > u64::from(MOST_SIGNALS) {
        return Err(DumpStop::Large { signals });
    }
    let text = multiplexers(alloc, dump, inputs, outputs)?;
    Ok(text)
}
