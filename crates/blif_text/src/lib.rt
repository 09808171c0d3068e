//! The lines of a text in the Berkeley Logic Interchange Format, their words, and what they say.
#![tactic(auto)]

ghost use Rattle.blif_text.specs.Marks.{WordsArePlain};

mod statements;
mod text;

pub use statements::{Statement, statement_of};
pub use text::{Next, kept_bytes, next_line, put_words};

/// No word of a text has a `#`, which begins a comment.
pub fn words_are_plain()
    ensures { WordsArePlain }
{}
