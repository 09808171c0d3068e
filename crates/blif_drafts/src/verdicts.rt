//! What is wrong with several models, or what the main one expands into.

ghost use Rattle.std.specs.Prelude.{◌≡◌, ◌<◌, All, IfOk, None, get_or, length, map, vec_len, ℕ, List as ListOf};
ghost use Rattle.blif_models.specs.Additions.{AreRising, lines_of};
ghost use Rattle.blif_models.specs.Graphs.{AreReached};
ghost use Rattle.blif_models.specs.Layouts.{model_at};
ghost use Rattle.blif_models.specs.Models.{Model};
ghost use Rattle.blif_formals.specs.Calls.{AreCallsBelow, held_by};
ghost use Rattle.blif_drafts.specs.Drafts.{AreDraftsOf};
ghost use Rattle.blif_formals.specs.Formals.{AreCallees};
ghost use Rattle.blif_formals.specs.Titles.{IsTitleBelow, title_of};
ghost use Rattle.blif_formals.specs.Twice.{AreDefining};
ghost use Rattle.blif_drafts.specs.Verdicts.{Comes, IsJudgedOf, IsMisnaming};

use crate::drafts::Draft;
use crate::entries::models_in;
use crate::parts::{Parts, parts_of};
use blif_formals::{
    Call, Callees, Definition, Heading, Interface, Title, Words, formal_line, holds_by,
    nameless_line, titles_of, twice_line,
};
use blif_models::{Adding, NumberedModel, Outcome, expand, reached_from};
use edge_bits::List;
use std::alloc::{AllocError, Global};

/// What is told of several models: the first line of a model without a name of its own or of an instance of no model, that of an
/// instance that joins formal names wrongly, or that by which a signal is defined twice; or what comes of the first model. Each comes only
/// where none before it does.
#[derive(Drop)]
pub enum Verdict {
    Nameless(u64),
    Misjoined(u64),
    Twice(u64),
    Comes(Outcome),
}

/// Several models with the names of each and its interface, and what is told of them.
#[derive(Drop)]
pub struct Judged {
    pub names: Vec<Words>,
    pub interfaces: Vec<Interface>,
    pub verdict: Verdict,
}

/// Which model has a name, and whether another one has it; and which models the first one reaches.
#[derive(Drop)]
pub struct Reach {
    pub titles: Vec<Option<Title>>,
    pub met: Vec<bool>,
}

/// Which models have which of so many names, and which ones the first reaches by its instances.
fn reach_in(
    alloc: Global,
    headings: &[Heading],
    calls: &[List<Call>],
    names: usize,
) -> Result<Reach, AllocError>
    requires some { 0 < length calls.now }
    requires as_many { length calls.now ≡ length headings.now }
    requires headings { All (λ heading. IsTitleBelow names heading.title) headings.now }
    requires calls { All (AreCallsBelow names) calls.now }
    ensures many { IfOk result (λ reach. vec_len reach.titles ≡ names) }
    ensures titles { IfOk result (λ reach. (n : ℕ) → get_or reach.titles.items n None ≡ title_of headings.now n) }
    ensures met { IfOk result (λ reach. AreReached (map (held_by reach.titles.items) calls.now) 0 reach.met.items) }
{
    let titles = titles_of(alloc, headings, names)?;
    let holds = holds_by(alloc, &titles, calls)?;
    let met = reached_from(alloc, &holds, 0)?;
    Ok(Reach { titles, met })
}

/// The first line of a model without a name of its own or of an instance of no model, or else of an instance that joins formal names
/// wrongly, in the models that were met.
fn misnaming(
    alloc: Global,
    callees: &Callees<'_>,
    headings: &[Heading],
    calls: &[List<Call>],
    joined: &[List<List<&[u8]>>],
    met: &[bool],
) -> Result<Option<Verdict>, AllocError>
    requires callees { AreCallees callees.now }
    requires headings { All (λ heading. IsTitleBelow (length callees.now.titles.now) heading.title) headings.now }
    requires titles { (n : ℕ) → get_or callees.now.titles.now n None ≡ title_of headings.now n }
    requires calls { All (AreCallsBelow (length callees.now.titles.now)) calls.now }
    requires joined { map length joined.now ≡ map length calls.now }
    requires met { length met.now ≡ length calls.now }
    ensures { IfOk result (IsMisnaming callees.now headings.now calls.now joined.now met.now) }
{
    if let Some(line) = nameless_line(alloc, headings, callees.titles, calls, met)? {
        return Ok(Some(Verdict::Nameless(line)));
    }
    if let Some(line) = formal_line(alloc, callees, calls, joined, met)? {
        return Ok(Some(Verdict::Misjoined(line)));
    }
    Ok(None)
}

/// The first line by which a signal is defined twice in the models that were met, or else what comes of the first model.
fn come_of(
    alloc: Global,
    interfaces: &[Interface],
    inputs: &[List<Definition>],
    mut models: Vec<NumberedModel>,
    met: &[bool],
    added: &[Adding],
) -> Result<Verdict, AllocError>
    requires some { 0 < length models.items }
    requires models { AreDefining interfaces.now inputs.now models.items }
    requires met { length met.now ≡ length models.items }
    requires added { AreRising added.now }
    requires entries { AreRising (lines_of (model_at models.items 0).entries) }
    ensures { IfOk result (Comes interfaces.now inputs.now models.items met.now added.now) }
{
    if let Some(line) = twice_line(alloc, interfaces, inputs, &models, met)? {
        return Ok(Verdict::Twice(line));
    }
    let outcome = expand(alloc, &mut models, 0, added)?;
    Ok(Verdict::Comes(outcome))
}

/// What is told of models of which these are the drafts, the main one first, where the names of models have these numbers.
pub fn judge(alloc: Global, titles: &Words, drafts: Vec<Draft<'_>>) -> Result<Judged, AllocError>
    requires some { 0 < length drafts.items }
    requires drafts { (models : ListOf Model) × AreDraftsOf titles.now models drafts.items }
    ensures names { IfOk result (λ judged. judged.names.items ≡ map (λ draft. draft.names) drafts.entry.items) }
    ensures judged { IfOk result (IsJudgedOf titles.now drafts.entry.items) }
{
    let Parts {
        headings,
        names,
        interfaces,
        inputs,
        added,
        items,
        calls,
        joined,
    } = parts_of(alloc, drafts)?;
    let reach = reach_in(alloc, &headings, &calls, titles.len())?;
    let callees = Callees {
        titles: &reach.titles,
        names: &names,
        interfaces: &interfaces,
    };
    let met = reach.met.as_slice();
    let lines = added.as_slice();
    let verdict = match misnaming(alloc, &callees, &headings, &calls, &joined, met)? {
        Some(verdict) => verdict,
        None => {
            let models = models_in(alloc, &callees, &calls, &joined, met, items)?;
            come_of(
                alloc,
                &interfaces,
                &inputs,
                models,
                met,
                lines[0].as_slice(),
            )?
        }
    };
    Ok(Judged {
        names,
        interfaces,
        verdict,
    })
}
