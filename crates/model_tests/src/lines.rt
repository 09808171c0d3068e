//! Models of which each line is some words with a blank between each two.

ghost use Rattle.std.specs.Prelude.{◌≡◌, OnOk, suc};
ghost use Rattle.blif_drafts.specs.OpenModels.{AreSomeOpen};

use blif_drafts::{Judged, OpenModels};
use job_words::{ByteClass, cut};
use std::alloc::{AllocError, Global};
use std::hash::RandomState;
use std::test::Fail;

/// What stands between blanks.
fn words_in<'a>(alloc: Global, line: &'a [u8]) -> Result<Vec<&'a [u8]>, AllocError> {
    let mut words = Vec::new(alloc);
    let mut rest = line;
    while let Some((word, behind)) = cut(rest, ByteClass::One(b' ')) {
        words.push(word)?;
        rest = behind;
    }
    words.push(rest)?;
    Ok(words)
}

/// Takes a cover or a latch.
fn take_item<'a>(
    alloc: Global,
    models: &mut OpenModels<'a>,
    number: u64,
    first: &[u8],
    words: &[&'a [u8]],
) -> Result<(), Fail>
    ensures { OnOk result (AreSomeOpen number models.old → AreSomeOpen (suc number) models.new) }
{
    let (last, others) = words.split_last().ok_or("no name")?;
    if first == b".names".as_slice() {
        return Ok(models.add_cover(alloc, number, others, last)?);
    }
    let input = others.first().ok_or("no input")?;
    Ok(models.add_latch(alloc, number, input, last)?)
}

/// Takes the line of this number, of which this word stands first.
fn take<'a>(
    alloc: Global,
    keys: RandomState,
    models: &mut OpenModels<'a>,
    number: u64,
    first: &[u8],
    words: &[&'a [u8]],
) -> Result<(), Fail>
    ensures { OnOk result (AreSomeOpen number models.old → AreSomeOpen (suc number) models.new) }
{
    if first == b".model".as_slice() {
        return Ok(models.begin_further(alloc, keys, number, words)?);
    }
    if first == b".inputs".as_slice() {
        return Ok(models.add_inputs(alloc, number, words)?);
    }
    if first == b".outputs".as_slice() {
        return Ok(models.add_outputs(alloc, words)?);
    }
    if first == b".subckt".as_slice() {
        return Ok(models.add_instance(alloc, number, words)?);
    }
    take_item(alloc, models, number, first, words)
}

/// What is told of a main model of this name, which the first line begins, and of the models that the lines behind it continue with.
pub fn told<'a>(
    alloc: Global,
    keys: RandomState,
    name: &'a [u8],
    lines: &[&'a [u8]],
) -> Result<Judged, Fail> {
    let mut models = OpenModels::new(alloc, keys);
    models.begin_main(alloc, keys, 1, [name].as_slice())?;
    let mut number = 2;
    for line in lines {
        let words = words_in(alloc, line)?;
        let (first, others) = words.split_first().ok_or("no word")?;
        take(alloc, keys, &mut models, number, first, others)?;
        number += 1;
    }
    Ok(models.judge(alloc)?)
}
