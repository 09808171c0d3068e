//! A model whose lines are still read.

ghost use Rattle.std.specs.Prelude.{◌≡◌, ◌+◌, ◌++◌, ◌∷◌, ◌||◌, [], IfErr, IfOk, List as ListOf, OnOk, ℕ, drop, length, map, nat_lt};
ghost use Rattle.blif_models.specs.Circuits.{Row};
ghost use Rattle.blif_models.specs.Models.{join_of};
ghost use Rattle.blif_formals.specs.Actuals.{Keeps};
ghost use Rattle.blif_formals.specs.Definitions.{defined};
ghost use Rattle.blif_formals.specs.Formals.{words_in};
ghost use Rattle.blif_formals.specs.Titles.{IsTitleOf};
ghost use Rattle.blif_formals.specs.Words.{AddsOnly};
ghost use Rattle.blif_drafts.specs.OpenDrafts.{Begins, Holds, Stops, Takes, cover_at, cover_refused, first_word, inputs_refused, latch_at, latch_refused, outputs_refused, with_inputs, with_item, with_outputs};

use crate::drafts::{Draft, DraftItem};
use crate::signals::{define, define_all, numbers_of};
use crate::stops::{LineStop, Refusal};
use blif_formals::{Call, Definition, Heading, Words, actuals_in};
use blif_models::{Adding, NumberedCover, NumberedLatch};
use edge_bits::{List, MOST_OUTPUTS, MOST_SIGNALS, MOST_VARIABLES};
use std::alloc::{AllocError, Global};
use std::hash::RandomState;

/// The draft of a model whose lines are still read, with marks at those of its names that are signals, and how many signals there are.
#[derive(Drop)]
pub struct OpenDraft<'a> {
    pub draft: Draft<'a>,
    pub marks: Vec<bool>,
    pub signals: usize,
}

/// The number of the model's name that stands first among words, if one stands there.
fn title_in(alloc: Global, titles: &mut Words, words: &[&[u8]]) -> Result<Option<u32>, AllocError>
    ensures titles { OnOk result (Keeps titles.old titles.new) }
    ensures title { IfOk result (IsTitleOf titles.new (first_word (words_in words.now))) }
{
    match words {
        [name, ..] => Ok(Some(titles.number_of(alloc, name)?)),
        _ => Ok(None),
    }
}

/// What begins a model on this line, whose name stands first among these words, if they are any.
pub fn heading_of(
    alloc: Global,
    titles: &mut Words,
    line: u64,
    words: &[&[u8]],
) -> Result<Heading, AllocError>
    ensures titles { OnOk result (Keeps titles.old titles.new) }
    ensures line { IfOk result (λ heading. heading.line ≡ line) }
    ensures title { IfOk result (λ heading. IsTitleOf titles.new (first_word (words_in words.now)) heading.title) }
{
    let title = title_in(alloc, titles, words)?;
    Ok(Heading { line, title })
}

/// The words behind the first.
fn behind_first<'a, 'b>(words: &'b [&'a [u8]]) -> &'b [&'a [u8]]
    ensures { result.now ≡ drop 1 words.now }
{
    match words {
        [_, behind @ ..] => behind,
        _ => words,
    }
}

/// Whether so many and so many more are more than these.
fn are_more(count: usize, more: usize, most: u32) -> bool
    ensures { result ≡ nat_lt most (count + more) }
{
    let most = most as usize;
    count > most || more > most - count
}

/// Whether so many inputs are too many or so many signals, both with so many more.
fn pass_limits(inputs: usize, signals: usize, more: usize) -> bool
    ensures { result ≡ (nat_lt MOST_VARIABLES (inputs + more) || nat_lt MOST_SIGNALS (signals + more)) }
{
    are_more(inputs, more, MOST_VARIABLES) || are_more(signals, more, MOST_SIGNALS)
}

/// How many there are with so many more. They are counted in 64 bits: for more there is no memory.
fn sum_of(count: usize, more: usize) -> Result<usize, AllocError>
    ensures { IfOk result (λ sum. sum ≡ count + more) }
{
    count.checked_add(more).ok_or(AllocError)
}

/// Adds definitions on one line of the names of these numbers.
fn add_definitions(
    inputs: &mut List<Definition>,
    line: u64,
    numbers: &[u32],
) -> Result<(), AllocError>
    ensures { OnOk result (inputs.new ≡ inputs.old ++ map (defined line) numbers.now) }
{
    for number in numbers {
        inputs.push(Definition {
            name: *number,
            line,
        })?;
    }
    Ok(())
}

/// Adds numbers to others.
fn add_numbers(numbers: &mut List<u32>, more: &[u32]) -> Result<(), AllocError>
    ensures { OnOk result (numbers.new ≡ numbers.old ++ more.now) }
{
    for number in more {
        numbers.push(*number)?;
    }
    Ok(())
}

impl<'a> OpenDraft<'a> {
    /// A model of which only the line was read that begins it. The index of its names has these keys.
    pub fn new(alloc: Global, keys: RandomState, heading: Heading) -> OpenDraft<'a>
        ensures begins { Begins heading result }
        ensures names { result.draft.names ≡ [] }
    {
        let draft = Draft {
            heading,
            names: Words::new(alloc, keys),
            inputs: List::new(alloc),
            outputs: List::new(alloc),
            added: List::new(alloc),
            items: List::new(alloc),
            calls: List::new(alloc),
            joined: List::new(alloc),
        };
        OpenDraft {
            draft,
            marks: Vec::new(alloc),
            signals: 0,
        }
    }

    /// `.inputs` and these names. Behind an error the draft is no model's.
    pub fn add_inputs(&mut self, alloc: Global, line: u64, words: &[&[u8]]) -> Result<(), LineStop>
        ensures ok { OnOk result (Takes self.old (inputs_refused (words_in words.now)) (with_inputs line (words_in words.now)) self.new) }
        ensures stop { IfErr result (Stops self.old (inputs_refused (words_in words.now))) }
        ensures names { OnOk result (AddsOnly self.old.draft.names (words_in words.now) self.new.draft.names) }
    {
        let many = words.len();
        let inputs = self.draft.inputs.len();
        let numbers = define_all(alloc, &mut self.draft.names, &mut self.marks, words)?;
        if pass_limits(inputs, self.signals, many) {
            return Err(LineStop::Refused(Refusal::TooMany));
        }
        self.signals = sum_of(self.signals, many)?;
        add_definitions(&mut self.draft.inputs, line, numbers.as_slice())?;
        self.draft.added.push(Adding {
            line,
            signals: many as u64,
            inputs: many as u64,
        })?;
        Ok(())
    }

    /// `.outputs` and these names. Behind an error the draft is no model's.
    pub fn add_outputs(&mut self, alloc: Global, words: &[&[u8]]) -> Result<(), LineStop>
        ensures ok { OnOk result ((line : ℕ) → Takes self.old (outputs_refused (words_in words.now)) (with_outputs line (words_in words.now)) self.new) }
        ensures stop { IfErr result (Stops self.old (outputs_refused (words_in words.now))) }
        ensures names { OnOk result (AddsOnly self.old.draft.names (words_in words.now) self.new.draft.names) }
    {
        if are_more(self.draft.outputs.len(), words.len(), MOST_OUTPUTS) {
            return Err(LineStop::Refused(Refusal::TooMany));
        }
        let numbers = numbers_of(alloc, &mut self.draft.names, words)?;
        add_numbers(&mut self.draft.outputs, numbers.as_slice())?;
        Ok(())
    }

    /// `.names`, the names of a cover's inputs, and its own; its rows are kept elsewhere. Behind an error the draft is no model's.
    pub fn add_cover(
        &mut self,
        alloc: Global,
        line: u64,
        ins: &[&[u8]],
        name: &[u8],
    ) -> Result<(), LineStop>
        ensures ok { OnOk result ((rows : ListOf Row) → Takes self.old (cover_refused name.now) (with_item (cover_at line (words_in ins.now) name.now rows)) self.new) }
        ensures stop { IfErr result (Stops self.old (cover_refused name.now)) }
        ensures names { OnOk result (AddsOnly self.old.draft.names (words_in ins.now ++ name.now ∷ []) self.new.draft.names) }
    {
        let ins = numbers_of(alloc, &mut self.draft.names, ins)?;
        let name = define(alloc, &mut self.draft.names, &mut self.marks, name)?;
        if are_more(self.signals, 1, MOST_SIGNALS) {
            return Err(LineStop::Refused(Refusal::TooMany));
        }
        self.signals = sum_of(self.signals, 1)?;
        let cover = NumberedCover { line, ins, name };
        self.draft.items.push(DraftItem::Cover(cover))?;
        Ok(())
    }

    /// `.latch`, the signal that it reads, and the one that it shows. Behind an error the draft is no model's.
    pub fn add_latch(
        &mut self,
        alloc: Global,
        line: u64,
        input: &[u8],
        output: &[u8],
    ) -> Result<(), LineStop>
        ensures ok { OnOk result (Takes self.old (latch_refused output.now) (with_item (latch_at line input.now output.now)) self.new) }
        ensures stop { IfErr result (Stops self.old (latch_refused output.now)) }
        ensures names { OnOk result (AddsOnly self.old.draft.names (input.now ∷ output.now ∷ []) self.new.draft.names) }
    {
        let input = self.draft.names.number_of(alloc, input)?;
        let output = define(alloc, &mut self.draft.names, &mut self.marks, output)?;
        self.signals = sum_of(self.signals, 1)?;
        let latch = NumberedLatch {
            line,
            input,
            output,
        };
        self.draft.items.push(DraftItem::Latch(latch))?;
        Ok(())
    }

    /// `.subckt` and these words: the name of a model, and what is joined. Names of models that are new get numbers among these. Behind
    /// an error the draft is no model's.
    pub fn add_instance(
        &mut self,
        alloc: Global,
        titles: &mut Words,
        line: u64,
        words: &[&'a [u8]],
    ) -> Result<(), AllocError>
        ensures ok { OnOk result (Holds titles.old self.old line (words_in words.now) titles.new self.new) }
        ensures names { OnOk result (AddsOnly self.old.draft.names (map (λ word. (join_of word).actual) (drop 1 (words_in words.now))) self.new.draft.names) }
    {
        let title = title_in(alloc, titles, words)?;
        let joins = behind_first(words);
        let actuals = actuals_in(alloc, &mut self.draft.names, joins)?;
        self.draft.calls.push(Call { line, title })?;
        let joined = Vec::from_slice(alloc, joins)?;
        self.draft.joined.push(List::from_vec(joined))?;
        self.draft.items.push(DraftItem::Instance(actuals))?;
        Ok(())
    }
}
