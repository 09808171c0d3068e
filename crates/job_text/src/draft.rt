//! What the lines that were read give.

ghost use Rattle.std.specs.Prelude.{◌≡◌, ◌++◌, ◌∷◌, [], ◌<◌, ◌≤◌, length, map, codes, IfErr, OnOk, MatchOption, true, false};
ghost use Rattle.edge_bits.specs.declared.limits.TheConstants.{MOST_ELEMENTS, MOST_VARIABLES};
ghost use Rattle.job_words.specs.Text.{split_words};
ghost use Rattle.job_text.specs.Grammar.{Says, registers_after, without, is_drop};
ghost use Rattle.job_text.specs.Drafts.{CommandStop, new_section, with_act};

use crate::faults::JobStop;
use crate::job::{Command, Counts};
use crate::line_words::Words;
use crate::registers::Registers;
use crate::scope::Scope;
use edge_bits::List;
use job_commands::Act;
use std::alloc::Global;
use std::mem;

/// A section so far.
#[derive(Drop)]
pub struct Section {
    pub scope: Scope,
    pub commands: List<Command>,
}

/// A job, as far as its lines were read.
#[derive(Drop)]
pub enum Draft {
    /// Nothing was read.
    Nothing,
    /// The number of variables was read, and those of elements and of slots if they were given.
    Sized {
        vars: u32,
        elements: Option<u32>,
        limit: Option<u32>,
    },
    /// A section has begun. Before it stand the commands of those that are done.
    Begun {
        limit: u32,
        done: List<List<Command>>,
        section: Section,
    },
}

impl Section {
    /// A section without commands, where there are so many variables and elements.
    pub fn new(alloc: Global, counts: Counts) -> Section
        ensures { result ≡ new_section counts }
    {
        let scope = Scope {
            counts,
            registers: Registers::new(alloc),
        };
        Section {
            scope,
            commands: List::new(alloc),
        }
    }

    /// Takes one more command.
    pub fn add_command(&mut self, alloc: Global, words: &[u8]) -> Result<(), JobStop>
        requires some { 0 < length (split_words words.now) }
        requires vars { self.old.scope.counts.vars ≤ MOST_VARIABLES }
        requires elements { self.old.scope.counts.elements ≤ MOST_ELEMENTS }
        ensures ok { OnOk result ((act : Act) × Says self.old.scope.counts self.old.scope.registers (split_words words.now) act × (self.new ≡ with_act self.old (split_words words.now) act)) }
        ensures stop { IfErr result (CommandStop self.old.scope.counts self.old.scope.registers (split_words words.now)) }
    {
        let act = self.scope.command(alloc, words)?;
        let registers = mem::replace(&mut self.scope.registers, Registers::new(alloc));
        self.scope.registers = registers.after(alloc, words, &act)?;
        let words = Words::copied(alloc, words)?;
        Ok(self.commands.push(Command { words, act })?)
    }
}
