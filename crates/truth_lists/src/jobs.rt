//! Jobs with the replies that are due in them, and how many of these come.

use crate::oracles::{Oracles, Tally};
use crate::registers::Register;
use net_jobs::{Open, Pieces, SureBytes, run};
use std::alloc::{AllocError, Global};
use std::fmt::{Display, Write};
use std::random::RandomSource;
use std::sync::Wait;
use std::thread::Threads;

/// A reply that tells something.
#[derive(Clone, Copy, PartialEq, Eq)]
pub enum Reply {
    Yes,
    No,
    Overflow,
    Value(i64),
}

impl Reply {
    /// The reply to a question of this truth.
    pub fn of(truth: bool) -> Reply {
        if truth { Reply::Yes } else { Reply::No }
    }

    /// What a line of a history tells behind its arrow, if it is more than that all went well.
    pub fn in_line(line: &str) -> Option<Reply> {
        let (_, reply) = line.split_once("-> ")?;
        match reply {
            "yes" => Some(Reply::Yes),
            "no" => Some(Reply::No),
            "overflow" => Some(Reply::Overflow),
            value => Some(Reply::Value(value.parse().ok()?)),
        }
    }
}

/// What a command is to make.
#[derive(Clone, Copy)]
pub enum Due {
    /// The function of a register.
    Function(Register),
    /// Nothing: the reply is to be that.
    Overflow,
    /// Nobody says.
    Unsaid,
}

impl Due {
    /// The reply that is due, if it is not that all went well.
    fn reply(self) -> Option<Reply> {
        match self {
            Due::Overflow => Some(Reply::Overflow),
            _ => None,
        }
    }
}

/// The text of a job, and for each of its commands the replies that are due.
#[derive(Drop)]
pub struct Job {
    alloc: Global,
    text: String,
    due: Vec<Oracles<Option<Reply>>>,
}

impl Job {
    /// A job of these first lines and so many slots, without commands.
    pub fn new(alloc: Global, head: &str, limit: u32) -> Result<Job, AllocError> {
        Ok(Job {
            alloc,
            text: format!(in alloc; "{head}\nlimit {limit}\nsession\n")?,
            due: Vec::new(alloc),
        })
    }

    /// The allocator.
    pub fn alloc(&self) -> Global {
        self.alloc
    }

    /// Adds a command, and the replies that are due to it.
    pub fn ask<C: Display>(
        &mut self,
        command: &C,
        due: Oracles<Option<Reply>>,
    ) -> Result<(), AllocError> {
        writeln!(self.text, "{command}")?;
        self.due.push(due)?;
        Ok(())
    }

    /// Adds a command to which any reply will do.
    pub fn tell<C: Display>(&mut self, command: &C) -> Result<(), AllocError> {
        let due = Oracles {
            lists: None,
            words: None,
        };
        self.ask(command, due)
    }

    /// Adds a command that makes a function in a new register, and asks of each function that is due whether it is that
    /// one.
    pub fn make<C: Display>(
        &mut self,
        command: &C,
        due: Oracles<Due>,
    ) -> Result<Register, AllocError> {
        let made = Register::new('x', self.due.len());
        let replies = Oracles {
            lists: due.lists.reply(),
            words: due.words.reply(),
        };
        self.ask(&format_args!("{made} = {command}"), replies)?;
        if let Due::Function(register) = due.lists {
            let due = Oracles::by_lists(Reply::Yes);
            self.ask(&format_args!("same {made} {register}"), due)?;
        }
        if let Due::Function(register) = due.words {
            let due = Oracles::by_words(Reply::Yes);
            self.ask(&format_args!("same {made} {register}"), due)?;
        }
        Ok(made)
    }

    /// The text of the job's history.
    pub fn history<R: RandomSource + Threads + Wait + Sync>(
        &self,
        rt: &R,
    ) -> Result<String, AllocError> {
        let alloc = self.alloc;
        let mut source = SureBytes::new(Vec::from_slice(alloc, self.text.as_bytes())?);
        let mut sink = Pieces::new(Vec::new(alloc), usize::MAX, Vec::new(alloc));
        played(rt, alloc, &mut source, &mut sink)
    }

    /// Counts the lines of a history that are as due.
    fn count(&self, history: &str) -> Tally {
        let mut tally = Tally::NONE;
        for (line, due) in history.lines().zip(&self.due) {
            let reply = Reply::in_line(line);
            tally.count(Oracles {
                lists: due.lists.map(|due| reply == Some(due)),
                words: due.words.map(|due| reply == Some(due)),
            });
        }
        tally
    }

    /// Plays the job, and counts the replies that are as due.
    pub fn tally<R: RandomSource + Threads + Wait + Sync>(
        &self,
        rt: &R,
    ) -> Result<Tally, AllocError> {
        let history = self.history(rt)?;
        Ok(self.count(&history))
    }
}

/// What is written where the job of a source is played.
fn played<R: RandomSource + Threads + Wait + Sync>(
    rt: &R,
    alloc: Global,
    source: &mut SureBytes,
    sink: &mut Pieces,
) -> Result<String, AllocError> {
    let words = vec![in alloc; String::from_str(alloc, "play")?]?;
    let _status = run(rt, alloc, &words, source, sink, &Open);
    String::from_utf8_lossy(alloc, sink.written())
}
