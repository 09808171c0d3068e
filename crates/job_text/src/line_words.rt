//! The words of a command, as they are kept for its line in a history.

ghost use Rattle.std.specs.Prelude.{◌≡◌, ◌<◌, ◌==◌, ◌∷◌, [], codes, length, true, IfOk};
ghost use Rattle.job_words.specs.Text.{is_whole, split_words};
ghost use Rattle.std.specs.List.{slice_split};
ghost use Rattle.job_text.specs.Grammar.{target_of};
ghost use Rattle.job_text.specs.Histories.{spaced};

use job_words::{before_byte, first_word};
use smallvec::SmallVec;
use std::alloc::{AllocError, Global};
use std::marker::Model;

/// A command of so many bytes takes no memory beside itself.
const SHORT: usize = 16;

/// One word at least, in one piece of memory with a blank between each two. Contracts see the words.
#[derive(Drop)]
pub struct Words {
    text: SmallVec<u8, SHORT>,
}

impl Model for Words {
    ghost use Rattle.std.specs.Prelude.{ℕ, ◌==◌, List as ListOf};
    ghost use Rattle.std.specs.List.{slice_split};

    ghost Value = { ListOf (ListOf ℕ) };

    ghost view = { λ words. slice_split (λ b. b == 32) words.text.items };
}

impl Words {
    /// A copy of the words of this part of a line.
    pub fn copied(alloc: Global, words: &[u8]) -> Result<Words, AllocError>
        requires { 0 < length (split_words words.now) }
        ensures { IfOk result (λ own. own ≡ split_words words.now) }
    {
        match first_word(words) {
            Some((first, rest)) => Ok(Words {
                text: joined(alloc, first, rest)?,
            }),
            None => unreachable!(),
        }
    }

    /// The words with a blank between each two.
    pub fn as_slice(&self) -> &[u8]
        ensures { result.now ≡ spaced self.now }
    {
        self.text.as_slice()
    }

    /// The first word, which is the target of an assignment.
    pub fn first(&self) -> &[u8]
        ensures { result.now ≡ target_of self.now }
    {
        before_byte(self.text.as_slice(), b' ')
    }

    /// The words that drop the register that these assign.
    pub fn dropping(&self, alloc: Global) -> Result<Words, AllocError>
        ensures { IfOk result (λ own. own ≡ codes "drop" ∷ target_of self.now ∷ []) }
    {
        let mut text = SmallVec::new(alloc);
        text.extend_from_slice(b"drop ")?;
        text.extend_from_slice(before_byte(self.text.as_slice(), b' '))?;
        Ok(Words { text })
    }
}

/// A word and others with a blank between each two.
fn joined(alloc: Global, first: &[u8], rest: &[u8]) -> Result<SmallVec<u8, SHORT>, AllocError>
    requires { is_whole first.now ≡ true }
    ensures { IfOk result (λ text. slice_split (λ b. b == 32) text.items ≡ first.now ∷ split_words rest.now) }
{
    let mut text = SmallVec::new(alloc);
    text.extend_from_slice(first)?;
    let mut left = rest;
    while let Some((word, behind)) = first_word(left) {
        text.push(b' ')?;
        text.extend_from_slice(word)?;
        left = behind;
    }
    Ok(text)
}
