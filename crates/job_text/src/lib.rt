//! Jobs: the scripts that are played, their grammar, and the text of their histories.
#![tactic(auto)]

mod draft;
mod faults;
mod history_line;
mod job;
mod line_words;
mod operands;
mod reader;
mod registers;
mod scope;

pub use faults::{FaultKind, JobError, JobFault};
pub use history_line::{Reply, line};
pub use job::{Command, Job, Register};
pub use job_commands::Act;
pub use line_words::Words;
pub use reader::{parse, texts_have_one_reading};
