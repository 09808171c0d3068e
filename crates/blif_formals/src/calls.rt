//! Which models instances are of, by the numbers of their names.

ghost use Rattle.std.specs.Prelude.{◌≡◌, ◌<◌, ◌++◌, All, IfOk, filter, get_or, length, map, option_to_list, vec_len, None, ℕ};
ghost use Rattle.std.specs.List.{flat_map};
ghost use Rattle.blif_models.specs.ModelFaults.{least};
ghost use Rattle.blif_formals.specs.Calls.{AreCallsBelow, held_by, model_by, nameless_lines, unknown_lines};
ghost use Rattle.blif_formals.specs.Clashes.{least_of};
ghost use Rattle.blif_formals.specs.Titles.{IsTitleBelow, title_of};

use crate::clashes::lesser;
use crate::reached::first_met;
use crate::titles::{Heading, Title, mistitled_line};
use edge_bits::List;
use std::alloc::{AllocError, Global};

/// An instance: its line, and the number of the name of its model, if one stands there.
#[derive(Debug, Clone, Copy, PartialEq, Eq, Drop)]
pub struct Call {
    pub line: u64,
    pub title: Option<u32>,
}

/// The model of a name.
pub fn model_by(titles: &[Option<Title>], title: Option<u32>) -> Option<u32>
    requires { IsTitleBelow (length titles.now) title }
    ensures { result ≡ model_by titles.now title }
{
    let number = title?;
    match titles[number as usize] {
        None => None,
        Some(title) => Some(title.model),
    }
}

/// The models that are there, of some instances, in their order.
fn held_by(alloc: Global, titles: &[Option<Title>], calls: &[Call]) -> Result<List<u32>, AllocError>
    requires { AreCallsBelow (length titles.now) calls.now }
    ensures { IfOk result (λ held. held ≡ held_by titles.now calls.now) }
{
    let mut held = List::new(alloc);
    for call in calls {
        if let Some(model) = model_by(titles, call.title) {
            held.push(model)?;
        }
    }
    Ok(held)
}

/// For each model those that its instances are of and that are there, in their order.
pub fn holds_by(
    alloc: Global,
    titles: &[Option<Title>],
    calls: &[List<Call>],
) -> Result<Vec<List<u32>>, AllocError>
    requires { All (AreCallsBelow (length titles.now)) calls.now }
    ensures { IfOk result (λ holds. holds.items ≡ map (held_by titles.now) calls.now) }
{
    let mut holds = Vec::with_capacity(alloc, calls.len())?;
    for ones in calls {
        holds.push(held_by(alloc, titles, ones.as_slice())?)?;
    }
    Ok(holds)
}

/// The first line of an instance of no model.
fn unknown_line(titles: &[Option<Title>], calls: &[Call]) -> Option<u64>
    requires { AreCallsBelow (length titles.now) calls.now }
    ensures { result ≡ least (unknown_lines titles.now calls.now) }
{
    let mut first = None;
    for call in calls {
        if model_by(titles, call.title).is_none() {
            first = Some(lesser(call.line, first));
        }
    }
    first
}

/// For each model the first line of an instance of no model.
fn all_unknown(
    alloc: Global,
    titles: &[Option<Title>],
    calls: &[List<Call>],
) -> Result<Vec<Option<u64>>, AllocError>
    requires { All (AreCallsBelow (length titles.now)) calls.now }
    ensures { IfOk result (λ lines. lines.items ≡ map (λ ones. least (unknown_lines titles.now ones)) calls.now) }
{
    let mut lines = Vec::with_capacity(alloc, calls.len())?;
    for ones in calls {
        lines.push(unknown_line(titles, ones.as_slice()))?;
    }
    Ok(lines)
}

/// The lower one of two lines, where either may lack.
fn least_of(one: Option<u64>, other: Option<u64>) -> Option<u64>
    ensures { result ≡ least_of one other }
{
    let line = match one {
        None => return other,
        Some(line) => line,
    };
    Some(lesser(line, other))
}

/// The first line of a further model that has no name of its own, or of an instance of no model in the models that were met.
pub fn nameless_line(
    alloc: Global,
    headings: &[Heading],
    titles: &[Option<Title>],
    calls: &[List<Call>],
    met: &[bool],
) -> Result<Option<u64>, AllocError>
    requires headings { All (λ heading. IsTitleBelow (length titles.now) heading.title) headings.now }
    requires titles { (n : ℕ) → get_or titles.now n None ≡ title_of headings.now n }
    requires calls { All (AreCallsBelow (length titles.now)) calls.now }
    requires met { length met.now ≡ length calls.now }
    ensures { IfOk result (λ line. line ≡ least (nameless_lines headings.now titles.now calls.now met.now)) }
{
    let mistitled = mistitled_line(headings, titles);
    let unknown = first_met(met, &all_unknown(alloc, titles, calls)?);
    Ok(least_of(mistitled, unknown))
}
