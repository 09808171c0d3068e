//! Several models whose lines are still read.

ghost use Rattle.std.specs.Prelude.{◌≡◌, ◌∷◌, ◌++◌, [], All, Bool, IfErr, IfOk, List as ListOf, None, OnOk, drop, map, true, ℕ};
ghost use Rattle.std.specs.List.{list_all};
ghost use Rattle.job_words.specs.Text.{Word};
ghost use Rattle.blif_models.specs.Circuits.{Row};
ghost use Rattle.blif_models.specs.Models.{Model as ModelIs, join_of};
ghost use Rattle.blif_models.specs.Numberings.{words_at};
ghost use Rattle.blif_formals.specs.Formals.{words_in};
ghost use Rattle.blif_formals.specs.Words.{HaveOneNumber};
ghost use Rattle.blif_drafts.specs.OpenDrafts.{bare_model, cover_at, cover_refused, first_word, inputs_refused, latch_at, latch_refused, outputs_refused, with_inputs, with_item, with_outputs};
ghost use Rattle.blif_drafts.specs.OpenModels.{AddNames, AreOpen, AreSomeOpen, BeginsFurther, BeginsMain, HoldsLine, IsToldOfOpen, NamesPass, StopsLine, TakesLine};

use crate::drafts::Draft;
use crate::open_draft::{OpenDraft, heading_of};
use crate::stops::LineStop;
use crate::verdicts::{Judged, judge};
use blif_formals::{Heading, Words};
use std::alloc::{AllocError, Global};
use std::hash::RandomState;
use std::mem::replace;

/// Several models whose lines are still read: names of models, the drafts of the models that are closed, and the one that goes on.
/// Behind an error of a call that takes a line the drafts are no models'.
#[derive(Drop)]
pub struct OpenModels<'a> {
    pub titles: Words,
    pub closed: Vec<Draft<'a>>,
    pub current: OpenDraft<'a>,
}

impl<'a> OpenModels<'a> {
    /// A main model of which no line was read. The indices of names have these keys.
    pub fn new(alloc: Global, keys: RandomState) -> OpenModels<'a>
        ensures begun { AreOpen 1 [] (bare_model 0 None) result }
        ensures names { (p : Word → Bool) → NamesPass p result }
    {
        let heading = Heading {
            line: 0,
            title: None,
        };
        OpenModels {
            titles: Words::new(alloc, keys),
            closed: Vec::new(alloc),
            current: OpenDraft::new(alloc, keys, heading),
        }
    }

    /// `.model` and these words, where no line was read that has words: it begins the main model.
    pub fn begin_main(
        &mut self,
        alloc: Global,
        keys: RandomState,
        line: u64,
        words: &[&[u8]],
    ) -> Result<(), AllocError>
        ensures ok { OnOk result (BeginsMain self.old line (first_word (words_in words.now)) self.new) }
        ensures names { OnOk result (AddNames self.old [] self.new) }
    {
        let heading = heading_of(alloc, &mut self.titles, line, words)?;
        self.current = OpenDraft::new(alloc, keys, heading);
        Ok(())
    }

    /// `.model` and these words: the model that goes on is closed, and a further one begins.
    pub fn begin_further(
        &mut self,
        alloc: Global,
        keys: RandomState,
        line: u64,
        words: &[&[u8]],
    ) -> Result<(), AllocError>
        ensures ok { OnOk result (BeginsFurther self.old line (first_word (words_in words.now)) self.new) }
        ensures names { OnOk result (AddNames self.old [] self.new) }
    {
        let heading = heading_of(alloc, &mut self.titles, line, words)?;
        let begun = OpenDraft::new(alloc, keys, heading);
        let ended = replace(&mut self.current, begun);
        self.closed.push(ended.draft)?;
        Ok(())
    }

    /// `.inputs` and these names.
    pub fn add_inputs(&mut self, alloc: Global, line: u64, words: &[&[u8]]) -> Result<(), LineStop>
        ensures ok { OnOk result (TakesLine self.old line (inputs_refused (words_in words.now)) (with_inputs line (words_in words.now)) self.new) }
        ensures stop { IfErr result (StopsLine self.old (inputs_refused (words_in words.now))) }
        ensures names { OnOk result (AddNames self.old (words_in words.now) self.new) }
    {
        self.current.add_inputs(alloc, line, words)
    }

    /// `.outputs` and these names.
    pub fn add_outputs(&mut self, alloc: Global, words: &[&[u8]]) -> Result<(), LineStop>
        ensures ok { OnOk result ((line : ℕ) → TakesLine self.old line (outputs_refused (words_in words.now)) (with_outputs line (words_in words.now)) self.new) }
        ensures stop { IfErr result (StopsLine self.old (outputs_refused (words_in words.now))) }
        ensures names { OnOk result (AddNames self.old (words_in words.now) self.new) }
    {
        self.current.add_outputs(alloc, words)
    }

    /// `.names`, the names of a cover's inputs, and its own. Its rows are kept elsewhere.
    pub fn add_cover(
        &mut self,
        alloc: Global,
        line: u64,
        ins: &[&[u8]],
        name: &[u8],
    ) -> Result<(), LineStop>
        ensures ok { OnOk result ((rows : ListOf Row) → TakesLine self.old line (cover_refused name.now) (with_item (cover_at line (words_in ins.now) name.now rows)) self.new) }
        ensures stop { IfErr result (StopsLine self.old (cover_refused name.now)) }
        ensures names { OnOk result (AddNames self.old (words_in ins.now ++ name.now ∷ []) self.new) }
    {
        self.current.add_cover(alloc, line, ins, name)
    }

    /// `.latch`, the signal that it reads, and the one that it shows.
    pub fn add_latch(
        &mut self,
        alloc: Global,
        line: u64,
        input: &[u8],
        output: &[u8],
    ) -> Result<(), LineStop>
        ensures ok { OnOk result (TakesLine self.old line (latch_refused output.now) (with_item (latch_at line input.now output.now)) self.new) }
        ensures stop { IfErr result (StopsLine self.old (latch_refused output.now)) }
        ensures names { OnOk result (AddNames self.old (input.now ∷ output.now ∷ []) self.new) }
    {
        self.current.add_latch(alloc, line, input, output)
    }

    /// `.subckt` and these words: the name of a model, and what is joined.
    pub fn add_instance(
        &mut self,
        alloc: Global,
        line: u64,
        words: &[&'a [u8]],
    ) -> Result<(), AllocError>
        ensures ok { OnOk result (HoldsLine self.old line (words_in words.now) self.new) }
        ensures names { OnOk result (AddNames self.old (map (λ word. (join_of word).actual) (drop 1 (words_in words.now))) self.new) }
    {
        self.current
            .add_instance(alloc, &mut self.titles, line, words)
    }

    /// What is told of the models, where no further line comes.
    pub fn judge(self, alloc: Global) -> Result<Judged, AllocError>
        requires { (line : ℕ) × AreSomeOpen line self }
        ensures told { IfOk result (IsToldOfOpen self.entry) }
        ensures names { IfOk result (λ judged. (p : Word → Bool) → NamesPass p self.entry → All (λ names. list_all p names ≡ true) judged.names.items) }
        ensures one_number { IfOk result (λ judged. (line : ℕ) (before : ListOf ModelIs) (model : ModelIs) → AreOpen line before model self.entry → (m : ℕ) → HaveOneNumber (words_at judged.names.items m)) }
    {
        let OpenModels {
            titles,
            mut closed,
            current,
        } = self;
        closed.push(current.draft)?;
        judge(alloc, &titles, closed)
    }
}
