//! The lines of a history.

ghost use Rattle.std.specs.Prelude.{◌≡◌, IfOk, codes};
ghost use Rattle.std.specs.Fmt.{decimal};
ghost use Rattle.job_text.specs.Histories.{line_text, reply_text};

use crate::job::Command;
use edge_bits::Memory;
use itoa::Buffer;
use std::alloc::Global;

/// How many bytes of a line are not its command's, where its numbers are not long.
const REST: usize = 32;

/// The reply to a command.
#[derive(Debug, Clone, Copy, PartialEq, Eq)]
pub enum Reply {
    /// `ok`.
    Done,
    Yes,
    No,
    /// The value of an `eval`, in decimal.
    Number(i64),
    /// No slot was free where a new node was due. The session stops.
    Full,
    /// A value was out of range. The session stops.
    Overflow,
    /// Of two functions the first did not lie below the second. The session stops.
    Apart,
    /// A `fetch` found what a `post` had left.
    Posted,
    /// A `fetch` found nothing of the kind.
    Empty,
}

/// A reply in words, whose digits are kept if it is a number.
fn said<'a>(digits: &'a mut Buffer, reply: Reply) -> &'a str
    ensures { result.now ≡ reply_text reply }
{
    match reply {
        Reply::Done => "ok",
        Reply::Yes => "yes",
        Reply::No => "no",
        Reply::Number(value) => digits.format(value),
        Reply::Full => "full",
        Reply::Overflow => "overflow",
        Reply::Apart => "apart",
        Reply::Posted => "posted",
        Reply::Empty => "empty",
    }
}

/// The line of one call in a history: `PLACE SESSION COMMAND -> REPLY` and a line feed, with the words of the command as they stand in the text.
#[tactic(auto, unfolding(crate::specs::Histories::line_text))]
pub fn line(
    alloc: Global,
    place: u64,
    session: u32,
    command: &Command,
    reply: Reply,
) -> Result<Vec<u8>, Memory>
    ensures { IfOk result (λ text. text.items ≡ line_text place session command.now.words reply) }
{
    let words = command.words.as_slice();
    let mut digits = Buffer::new();
    let mut text = Vec::with_capacity(alloc, words.len().saturating_add(REST))?;
    text.extend_from_slice(digits.format(place).as_bytes())?;
    text.push(b' ')?;
    text.extend_from_slice(digits.format(session).as_bytes())?;
    text.push(b' ')?;
    text.extend_from_slice(words)?;
    text.extend_from_slice(b" -> ")?;
    text.extend_from_slice(said(&mut digits, reply).as_bytes())?;
    text.push(b'\n')?;
    Ok(text)
}
