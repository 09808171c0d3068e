//! The lines of a text, taken one by one.

ghost use Rattle.std.specs.Prelude.{◌≡◌, ◌++◌, IfErr, OnOk, ℕ, [], map, replicate, true, false};
ghost use Rattle.blif_net.specs.Circuits.{at_start, close};
ghost use Rattle.blif_net.specs.Reading.{Closes, IsReadingOf, StopsLine, StopsStatement, TakesLine, TakesStatement, follows_end};
ghost use Rattle.blif_text.specs.Said.{statement_in};
ghost use Rattle.blif_text.specs.Statements.{ends, inputs, latch, model, names, outputs, row, subckt};
ghost use Rattle.blif_text.specs.Text.{line_at};

use crate::covers::OpenCover;
use crate::faults::{BlifStop, FaultKind};
use crate::sharing::shared_rows;
use blif_drafts::{OpenModels, latch_in};
use blif_text::{Statement, put_words, statement_of};
use blif_wholes::CoverRows;
use edge_bits::List;
use job_words::{ByteClass, all_in};
use std::alloc::{AllocError, Global};
use std::hash::RandomState;
use std::mem::replace;

/// What the lines so far declare: the models; for each closed one, and for the one that goes on, the rows of its covers in the order in
/// which all stands in it; the open cover; the lines of the main model's outputs, one by one; whether a line had words; and whether `.end`
/// came behind which no further model began.
#[derive(Drop)]
pub struct Reading<'a> {
    pub models: OpenModels<'a>,
    pub closed: Vec<Vec<Option<CoverRows>>>,
    pub rows: Vec<Option<CoverRows>>,
    pub cover: Option<OpenCover>,
    pub outputs: Vec<u64>,
    pub begun: bool,
    pub ended: bool,
}

/// Whether a line that says this may stand behind `.end`.
fn may_follow_end(statement: Statement) -> bool
    ensures { result ≡ follows_end (statement_in statement.entry) }
{
    matches!(statement, Statement::Nothing | Statement::Model(_))
}

/// One line for each of so many outputs on it.
fn add_lines(lines: &mut Vec<u64>, line: u64, many: usize) -> Result<(), AllocError>
    ensures { OnOk result (lines.new.items ≡ lines.old.items ++ replicate many line) }
{
    let long = lines.len().checked_add(many).ok_or(AllocError)?;
    lines.resize(long, line)
}

impl<'a> Reading<'a> {
    /// Nothing was read. The indices of names have these keys.
    pub fn new(alloc: Global, keys: RandomState) -> Reading<'a>
        ensures { IsReadingOf 1 at_start result }
    {
        Reading {
            models: OpenModels::new(alloc, keys),
            closed: Vec::new(alloc),
            rows: Vec::new(alloc),
            cover: None,
            outputs: Vec::new(alloc),
            begun: false,
            ended: false,
        }
    }

    /// Closes the open cover, as each line does whose first word begins with `.`.
    pub fn close(&mut self, alloc: Global) -> Result<(), AllocError>
        ensures { OnOk result (Closes self.old self.new) }
    {
        self.begun = true;
        if let Some(OpenCover { rows, on, .. }) = self.cover.take() {
            let rows = shared_rows(alloc, self.rows.last(), rows)?;
            self.rows.push(Some(CoverRows { rows, on }))?;
        }
        Ok(())
    }

    /// `.model` and these words: it begins the main model where no line had words, and else a further one.
    fn model_line(
        &mut self,
        alloc: Global,
        keys: RandomState,
        line: u64,
        words: &[&'a [u8]],
    ) -> Result<(), AllocError>
        ensures { OnOk result (TakesStatement self.old line (model (map (λ word. word.now) words.now)) self.new) }
    {
        let is_further = self.begun;
        self.close(alloc)?;
        if is_further {
            self.models.begin_further(alloc, keys, line, words)?;
            let rows = replace(&mut self.rows, Vec::new(alloc));
            self.closed.push(rows)?;
        } else {
            self.models.begin_main(alloc, keys, line, words)?;
            self.rows.clear();
            self.outputs.clear();
        }
        self.ended = false;
        Ok(())
    }

    /// `.inputs` and these names.
    fn inputs_line(&mut self, alloc: Global, line: u64, words: &[&'a [u8]]) -> Result<(), BlifStop>
        ensures ok { OnOk result (TakesStatement self.old line (inputs (map (λ word. word.now) words.now)) self.new) }
        ensures stop { IfErr result (StopsStatement self.old line (inputs (map (λ word. word.now) words.now))) }
    {
        self.close(alloc)?;
        self.models.add_inputs(alloc, line, words)?;
        Ok(())
    }

    /// `.outputs` and these names.
    fn outputs_line(&mut self, alloc: Global, line: u64, words: &[&'a [u8]]) -> Result<(), BlifStop>
        ensures ok { OnOk result (TakesStatement self.old line (outputs (map (λ word. word.now) words.now)) self.new) }
        ensures stop { IfErr result (StopsStatement self.old line (outputs (map (λ word. word.now) words.now))) }
    {
        self.close(alloc)?;
        self.models.add_outputs(alloc, words)?;
        if self.closed.is_empty() {
            add_lines(&mut self.outputs, line, words.len())?;
        }
        Ok(())
    }

    /// `.names`, the names of a cover's inputs, and its own.
    fn names_line(&mut self, alloc: Global, line: u64, words: &[&'a [u8]]) -> Result<(), BlifStop>
        ensures ok { OnOk result (TakesStatement self.old line (names (map (λ word. word.now) words.now)) self.new) }
        ensures stop { IfErr result (StopsStatement self.old line (names (map (λ word. word.now) words.now))) }
    {
        let Some((name, ins)) = words.split_last() else {
            return Err(BlifStop::Fault(FaultKind::Word));
        };
        self.close(alloc)?;
        self.models.add_cover(alloc, line, ins, name)?;
        self.cover = Some(OpenCover {
            ins: ins.len(),
            rows: List::new(alloc),
            on: true,
        });
        Ok(())
    }

    /// `.latch` and these words.
    fn latch_line(&mut self, alloc: Global, line: u64, words: &[&'a [u8]]) -> Result<(), BlifStop>
        ensures ok { OnOk result (TakesStatement self.old line (latch (map (λ word. word.now) words.now)) self.new) }
        ensures stop { IfErr result (StopsStatement self.old line (latch (map (λ word. word.now) words.now))) }
    {
        let Some((input, output)) = latch_in(words) else {
            return Err(BlifStop::Fault(FaultKind::Word));
        };
        self.close(alloc)?;
        self.models.add_latch(alloc, line, input, output)?;
        self.rows.push(None)?;
        Ok(())
    }

    /// `.subckt` and these words.
    fn subckt_line(
        &mut self,
        alloc: Global,
        line: u64,
        words: &[&'a [u8]],
    ) -> Result<(), AllocError>
        ensures { OnOk result (TakesStatement self.old line (subckt (map (λ word. word.now) words.now)) self.new) }
    {
        self.close(alloc)?;
        self.models.add_instance(alloc, line, words)?;
        self.rows.push(None)?;
        Ok(())
    }

    /// `.end` and further words.
    fn end_line(&mut self, alloc: Global, words: &[&'a [u8]]) -> Result<(), BlifStop>
        ensures ok { OnOk result ((line : ℕ) → TakesStatement self.old line (ends (map (λ word. word.now) words.now)) self.new) }
        ensures stop { IfErr result (λ stop. (line : ℕ) → StopsStatement self.old line (ends (map (λ word. word.now) words.now)) stop) }
    {
        if !words.is_empty() {
            return Err(BlifStop::Fault(FaultKind::Word));
        }
        self.close(alloc)?;
        self.ended = true;
        Ok(())
    }

    /// A row of these words.
    fn row_line(&mut self, alloc: Global, words: &[&'a [u8]]) -> Result<(), BlifStop>
        ensures ok { OnOk result ((line : ℕ) → TakesStatement self.old line (row (map (λ word. word.now) words.now)) self.new) }
        ensures stop { IfErr result (λ stop. (line : ℕ) → StopsStatement self.old line (row (map (λ word. word.now) words.now)) stop) }
    {
        self.begun = true;
        match &mut self.cover {
            Some(cover) => cover.add_row(alloc, words),
            None => Err(BlifStop::Fault(FaultKind::Word)),
        }
    }

    /// A line that says this, where `.end` did not come or it may stand behind one.
    fn take_statement(
        &mut self,
        alloc: Global,
        keys: RandomState,
        statement: Statement<'a, '_>,
        line: u64,
    ) -> Result<(), BlifStop>
        ensures ok { OnOk result (TakesStatement self.old line (statement_in statement.entry) self.new) }
        ensures stop { IfErr result (StopsStatement self.old line (statement_in statement.entry)) }
    {
        match statement {
            Statement::Nothing => Ok(()),
            Statement::Row(words) => self.row_line(alloc, words),
            Statement::Model(words) => Ok(self.model_line(alloc, keys, line, words)?),
            Statement::Inputs(words) => self.inputs_line(alloc, line, words),
            Statement::Outputs(words) => self.outputs_line(alloc, line, words),
            Statement::Names(words) => self.names_line(alloc, line, words),
            Statement::Latch(words) => self.latch_line(alloc, line, words),
            Statement::Subckt(words) => Ok(self.subckt_line(alloc, line, words)?),
            Statement::Ends(words) => self.end_line(alloc, words),
            Statement::PassedOver => Ok(self.close(alloc)?),
            Statement::LeftOut => Err(BlifStop::Fault(FaultKind::LeftOut)),
            Statement::Unknown => Err(BlifStop::Fault(FaultKind::Word)),
        }
    }

    /// Takes a joined line of this number, which is higher than those before it, with its words in this list, in the place of what it
    /// holds. Behind an error what was read is no models'.
    pub fn take(
        &mut self,
        alloc: Global,
        keys: RandomState,
        words: &mut Vec<&'a [u8]>,
        bytes: &'a [u8],
        line: u64,
    ) -> Result<(), BlifStop>
        ensures ok { OnOk result (TakesLine self.old (line_at line bytes.now) self.new) }
        ensures stop { IfErr result (StopsLine self.old (line_at line bytes.now)) }
    {
        if !all_in(bytes, ByteClass::Extended) {
            return Err(BlifStop::Fault(FaultKind::Word));
        }
        put_words(words, bytes)?;
        let statement = statement_of(words);
        if self.ended && !may_follow_end(statement) {
            return Err(BlifStop::Fault(FaultKind::Word));
        }
        self.take_statement(alloc, keys, statement, line)
    }
}
