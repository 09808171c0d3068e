//! Which names of a model are signals, while its lines are read.

ghost use Rattle.std.specs.Prelude.{◌≡◌, ◌∷◌, ◌==◌, ◌||◌, [], IfErr, IfOk, OnOk, ℕ};
ghost use Rattle.blif_models.specs.Numberings.{AreNumbersOf};
ghost use Rattle.blif_formals.specs.Actuals.{Keeps};
ghost use Rattle.blif_formals.specs.Formals.{words_in};
ghost use Rattle.blif_formals.specs.Words.{AddsOnly};
ghost use Rattle.blif_drafts.specs.Signals.{DefineStop, Defines, is_marked};

use crate::stops::{LineStop, Refusal};
use blif_formals::Words;
use edge_bits::List;
use std::alloc::{AllocError, Global};

/// Whether the name of this number is marked.
fn is_marked(marks: &[bool], number: u32) -> bool
    ensures { result ≡ is_marked marks.now number }
{
    match marks.get(number as usize) {
        Some(mark) => *mark,
        None => false,
    }
}

/// Marks the name of this number too.
fn mark(marks: &mut Vec<bool>, number: u32) -> Result<(), AllocError>
    ensures { OnOk result ((n : ℕ) → is_marked marks.new.items n ≡ (is_marked marks.old.items n || number == n)) }
{
    let place = number as usize;
    if place >= marks.len() {
        marks.resize(place + 1, false)?;
    }
    marks[place] = true;
    Ok(())
}

/// The number of a word that becomes a signal, unless it is one.
pub fn define(
    alloc: Global,
    names: &mut Words,
    marks: &mut Vec<bool>,
    word: &[u8],
) -> Result<u32, LineStop>
    ensures ok { IfOk result (λ number. Defines names.old marks.old.items (word.now ∷ []) (number ∷ []) names.new marks.new.items) }
    ensures stop { IfErr result (DefineStop names.old marks.old.items (word.now ∷ [])) }
    ensures added { OnOk result (AddsOnly names.old (word.now ∷ []) names.new) }
{
    let number = names.number_of_new(alloc, word)?;
    if is_marked(marks, number) {
        return Err(LineStop::Refused(Refusal::Twice));
    }
    mark(marks, number)?;
    Ok(number)
}

/// The numbers of words that become signals, unless one of them is one already or stands twice.
pub fn define_all(
    alloc: Global,
    names: &mut Words,
    marks: &mut Vec<bool>,
    words: &[&[u8]],
) -> Result<List<u32>, LineStop>
    ensures ok { IfOk result (λ numbers. Defines names.old marks.old.items (words_in words.now) numbers names.new marks.new.items) }
    ensures stop { IfErr result (DefineStop names.old marks.old.items (words_in words.now)) }
    ensures added { OnOk result (AddsOnly names.old (words_in words.now) names.new) }
{
    let mut numbers = List::new(alloc);
    for word in words {
        let number = define(alloc, names, marks, word)?;
        numbers.push(number)?;
    }
    Ok(numbers)
}

/// The numbers of words.
pub fn numbers_of(
    alloc: Global,
    names: &mut Words,
    words: &[&[u8]],
) -> Result<List<u32>, AllocError>
    ensures names { OnOk result (Keeps names.old names.new) }
    ensures numbers { IfOk result (λ numbers. AreNumbersOf (names.new ∷ []) 0 numbers (words_in words.now)) }
    ensures added { OnOk result (AddsOnly names.old (words_in words.now) names.new) }
{
    let mut numbers = List::new(alloc);
    for word in words {
        numbers.push(names.number_of(alloc, word)?)?;
    }
    Ok(numbers)
}
