//! Instances that join the formal names of their models wrongly.

ghost use Rattle.std.specs.Prelude.{◌≡◌, All, IfOk, length, map};
ghost use Rattle.blif_formals.specs.Calls.{AreCallsBelow};
ghost use Rattle.blif_formals.specs.Formals.{AreCallees, AreLinesOf, IsFormalLine, IsLineOf, IsToldOf};
ghost use Rattle.blif_formals.specs.Titles.{IsTitleBelow};

use crate::calls::{Call, model_by};
use crate::clashes::lesser;
use crate::interface::Interface;
use crate::parting::is_misjoined;
use crate::reached::first_met;
use crate::titles::Title;
use crate::words::Words;
use edge_bits::List;
use std::alloc::{AllocError, Global};

/// The models that instances call: by the number of a name the model that has it, and by the number of a model its names and its
/// interface.
#[derive(Drop)]
pub struct Callees<'a> {
    pub titles: &'a [Option<Title>],
    pub names: &'a [Words],
    pub interfaces: &'a [Interface],
}

/// Whether an instance of this name's model, with these words behind the name, joins formal names wrongly; one of no model does not.
fn joins_wrongly(
    alloc: Global,
    callees: &Callees<'_>,
    title: Option<u32>,
    words: &[&[u8]],
) -> Result<bool, AllocError>
    requires callees { AreCallees callees.now }
    requires title { IsTitleBelow (length callees.now.titles.now) title }
    ensures { IfOk result (IsToldOf callees.now title words.now) }
{
    match model_by(callees.titles, title) {
        None => Ok(false),
        Some(model) => {
            let place = model as usize;
            is_misjoined(
                alloc,
                &callees.names[place],
                &callees.interfaces[place],
                words,
            )
        }
    }
}

/// The first line of some instances, of which each has these words behind the name of its model, that joins formal names wrongly.
fn misjoined_line(
    alloc: Global,
    callees: &Callees<'_>,
    calls: &[Call],
    joined: &[List<&[u8]>],
) -> Result<Option<u64>, AllocError>
    requires callees { AreCallees callees.now }
    requires calls { AreCallsBelow (length callees.now.titles.now) calls.now }
    requires joined { length joined.now ≡ length calls.now }
    ensures { IfOk result (IsLineOf callees.now calls.now joined.now) }
{
    let mut first = None;
    for place in 0..calls.len() {
        let call = calls[place];
        if joins_wrongly(alloc, callees, call.title, joined[place].as_slice())? {
            first = Some(lesser(call.line, first));
        }
    }
    Ok(first)
}

/// For each model the first line of an instance that joins formal names wrongly.
fn all_misjoined(
    alloc: Global,
    callees: &Callees<'_>,
    calls: &[List<Call>],
    joined: &[List<List<&[u8]>>],
) -> Result<Vec<Option<u64>>, AllocError>
    requires callees { AreCallees callees.now }
    requires calls { All (AreCallsBelow (length callees.now.titles.now)) calls.now }
    requires joined { map length joined.now ≡ map length calls.now }
    ensures { IfOk result (λ lines. AreLinesOf callees.now calls.now joined.now lines.items) }
{
    let mut lines = Vec::with_capacity(alloc, calls.len())?;
    for model in 0..calls.len() {
        let ones = calls[model].as_slice();
        lines.push(misjoined_line(alloc, callees, ones, joined[model].as_slice())?)?;
    }
    Ok(lines)
}

/// The first line of an instance that joins formal names wrongly, in the models that were met. For each model stand its instances, and
/// for each of these the words behind the name of its model.
pub fn formal_line(
    alloc: Global,
    callees: &Callees<'_>,
    calls: &[List<Call>],
    joined: &[List<List<&[u8]>>],
    met: &[bool],
) -> Result<Option<u64>, AllocError>
    requires callees { AreCallees callees.now }
    requires calls { All (AreCallsBelow (length callees.now.titles.now)) calls.now }
    requires joined { map length joined.now ≡ map length calls.now }
    requires met { length met.now ≡ length calls.now }
    ensures { IfOk result (IsFormalLine callees.now calls.now joined.now met.now) }
{
    let lines = all_misjoined(alloc, callees, calls, joined)?;
    Ok(first_met(met, &lines))
}
