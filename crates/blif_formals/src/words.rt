//! Words by number.

ghost use Rattle.std.specs.Prelude.{◌≡◌, ◌∷◌, ◌++◌, [], ◌<◌, ◌^◌, length, slice_get, IfOk, IfSome, MatchOption, OnOk, Some, false};
ghost use Rattle.job_words.specs.Text.{is_among};
ghost use Rattle.blif_formals.specs.Words.{with_word};

use indexmap::IndexSet;
use std::alloc::{AllocError, Global};
use std::hash::RandomState;
use std::marker::Model;

/// The most words, whose numbers are 32 bits.
const MOST_WORDS: usize = 4_294_967_295;

/// Words, each once, in the order in which they came. The number of a word is its place.
#[derive(Drop)]
pub struct Words {
    index: IndexSet<Vec<u8>, RandomState>,
}

impl Model for Words {
    ghost use Rattle.std.specs.Prelude.{◌<◌, ◌^◌, length, List as ListOf};
    ghost use Rattle.job_words.specs.Text.{Word};
    ghost use Rattle.blif_formals.specs.Words.{words_of};

    ghost Value = { ListOf Word };

    ghost view = { λ words. words_of words.index.keys };

    ghost invariant = { λ words. length words.index.keys < 2 ^ 32 };
}

impl Words {
    /// No words. The index has these keys.
    pub fn new(alloc: Global, keys: RandomState) -> Words
        ensures { result ≡ [] }
    {
        Words {
            index: IndexSet::with_hasher(alloc, keys),
        }
    }

    /// How many there are.
    pub fn len(&self) -> usize
        ensures number { result ≡ length self.now }
        ensures few { result < 2 ^ 32 }
    {
        self.index.len()
    }

    /// The number of the word that came last, if it is this one.
    fn last_number(&self, word: &[u8]) -> Option<u32>
        ensures { IfSome result (λ number. slice_get self.now number ≡ Some word.now) }
    {
        let (last, before) = self.index.as_slice().split_last()?;
        if last.as_slice() == word {
            Some(before.len() as u32)
        } else {
            None
        }
    }

    /// The number of a word, if it came. A model often uses the name that it defined last, which takes no look-up.
    pub fn find(&self, word: &[u8]) -> Option<u32>
        ensures { MatchOption result (is_among self.now word.now ≡ false) (λ number. slice_get self.now number ≡ Some word.now) }
    {
        if let Some(number) = self.last_number(word) {
            return Some(number);
        }
        match self.index.get_index_of(word) {
            Some(place) => Some(place as u32),
            None => None,
        }
    }

    /// The word of a number.
    pub fn word_at(&self, number: u32) -> &[u8]
        requires { number < length self.now }
        ensures { slice_get self.now number ≡ Some result.now }
    {
        self.index.as_slice()[number as usize].as_slice()
    }

    /// Adds a word that is new. There are fewer than 2^32: for more there is no memory.
    fn add(&mut self, alloc: Global, word: &[u8]) -> Result<(), AllocError>
        requires { is_among self.old word.now ≡ false }
        ensures { OnOk result (self.new ≡ self.old ++ word.now ∷ []) }
    {
        if self.index.len() >= MOST_WORDS {
            return Err(AllocError);
        }
        let key = Vec::from_slice(alloc, word)?;
        self.index.insert(key)?;
        Ok(())
    }

    /// The number of a word, which is a new one where the word did not come yet.
    pub fn number_of(&mut self, alloc: Global, word: &[u8]) -> Result<u32, AllocError>
        ensures words { OnOk result (self.new ≡ with_word self.old word.now) }
        ensures number { IfOk result (λ number. slice_get self.new number ≡ Some word.now) }
    {
        if let Some(number) = self.find(word) {
            return Ok(number);
        }
        let number = self.len() as u32;
        self.add(alloc, word)?;
        Ok(number)
    }

    /// The number of a word as `number_of` gives it, at less cost where the word is likely to be new.
    pub fn number_of_new(&mut self, alloc: Global, word: &[u8]) -> Result<u32, AllocError>
        ensures words { OnOk result (self.new ≡ with_word self.old word.now) }
        ensures number { IfOk result (λ number. slice_get self.new number ≡ Some word.now) }
    {
        if self.index.len() >= MOST_WORDS {
            return self.number_of(alloc, word);
        }
        let key = Vec::from_slice(alloc, word)?;
        let (place, _added) = self.index.insert_full(key)?;
        Ok(place as u32)
    }
}
