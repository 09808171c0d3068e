//! The lines before the nodes.

ghost use Rattle.std.specs.Prelude.{◌≡◌, ◌==◌, IfErr, IfOk, None, OnOk, length, nat_abs, nat_lt, not, true};
ghost use Rattle.std.specs.Bool.{then_some};
ghost use Rattle.std.specs.List.{list_all, list_any};
ghost use Rattle.std.specs.Option.{option_or};
ghost use Rattle.std.specs.Str.{bytes_eq};
ghost use Rattle.job_words.specs.Text.{is_among, split_words};
ghost use Rattle.dddmp_text.specs.Fields.{field_of, number, passed_words, whole_numbers};
ghost use Rattle.dddmp_text.specs.Faults.{field_fault, heading, is_bad_root, is_other_count, nodes_fault, with_field, words_fault};
ghost use Rattle.dddmp_text.specs.Reading.{HeadsOn, StopIs, has_bad_variable, is_any_other_count};

use crate::faults::{DddmpStop, FaultKind};
use crate::fields::{
    Field, Given, are_given, field_of, is_given, number_in, numbers_in, numbers_of,
};
use edge_bits::{List, MOST_VARIABLES};
use job_words::first_word;
use std::alloc::Global;

/// Words that are passed over, with what stands behind them on their lines.
const PASSED_WORDS: [&[u8]; 6] = [
    b".dd",
    b".suppvarnames",
    b".orderedvarnames",
    b".varnames",
    b".auxids",
    b".rootnames",
];

fn is_among(words: &[&[u8]], word: &[u8]) -> bool
    ensures { result ≡ list_any (λ known. bytes_eq word.now known.now) words.now }
{
    words.iter().any(|known| word == *known)
}

fn is_passed_over(word: &[u8]) -> bool
    ensures { result ≡ is_among passed_words word.now }
{
    is_among(PASSED_WORDS.as_slice(), word)
}

/// Whether a list is of another length than is said.
fn is_other_count(given: &[Given], list: Field, count: Field) -> bool
    ensures { result ≡ is_other_count given.now list count }
{
    numbers_in(given, list).len() != number_in(given, count) as usize
}

fn is_any_other_count(given: &[Given]) -> bool
    ensures { result ≡ is_any_other_count given.now }
{
    is_other_count(given, Field::Ids, Field::Nsuppvars)
        || is_other_count(given, Field::Permids, Field::Nsuppvars)
        || is_other_count(given, Field::Rootids, Field::Nroots)
}

/// Whether all of these are below a bound.
fn are_below(ids: &[i32], bound: u32) -> bool
    ensures { result ≡ list_all (λ id. nat_lt (nat_abs id) bound) ids.now }
{
    ids.iter().all(|id| id.unsigned_abs() < bound)
}

/// Whether there are too many variables, or an id is not among them.
fn has_bad_variable(given: &[Given]) -> bool
    ensures { result ≡ has_bad_variable given.now }
{
    let vars = number_in(given, Field::Nvars);
    vars > MOST_VARIABLES || !are_below(numbers_in(given, Field::Ids), vars)
}

/// Whether a root is 0, or beyond so many nodes.
fn is_bad_root(nodes: u32, root: i32) -> bool
    ensures { result ≡ is_bad_root nodes root }
{
    root.unsigned_abs() == 0 || root.unsigned_abs() > nodes
}

fn has_bad_root(given: &[Given]) -> bool
    ensures { result ≡ list_any (is_bad_root (number given.now Field.Nnodes)) (whole_numbers given.now Field.Rootids) }
{
    let nodes = number_in(given, Field::Nnodes);
    numbers_in(given, Field::Rootids)
        .iter()
        .any(|root| is_bad_root(nodes, *root))
}

/// What is wrong with `.nodes` behind these fields.
fn nodes_fault(given: &[Given]) -> Option<FaultKind>
    ensures { result ≡ nodes_fault given.now }
{
    if !are_given(given) {
        Some(FaultKind::Missing)
    } else if is_any_other_count(given) {
        Some(FaultKind::Count)
    } else if has_bad_variable(given) {
        Some(FaultKind::Variable)
    } else if has_bad_root(given) {
        Some(FaultKind::Root)
    } else {
        None
    }
}

/// `.nodes`, with what stands behind it.
fn check_nodes(given: &[Given], behind: &[u8]) -> Result<(), DddmpStop>
    ensures ok { OnOk result ((length (split_words behind.now) == 0) ≡ true × (nodes_fault given.now ≡ None)) }
    ensures stop { IfErr result (StopIs (option_or (then_some (not (length (split_words behind.now) == 0)) FaultKind.Header) (nodes_fault given.now))) }
{
    if first_word(behind).is_some() {
        return Err(DddmpStop::Fault(FaultKind::Header));
    }
    match nodes_fault(given) {
        Some(what) => Err(DddmpStop::Fault(what)),
        None => Ok(()),
    }
}

/// A line of a field, or one that has no due word.
fn take_field(
    alloc: Global,
    given: &mut List<Given>,
    word: &[u8],
    behind: &[u8],
) -> Result<(), DddmpStop>
    ensures ok { OnOk result ((field_fault given.old (field_of word.now) (split_words behind.now) ≡ None) × (given.new ≡ with_field given.old (field_of word.now) (split_words behind.now))) }
    ensures stop { IfErr result (StopIs (field_fault given.old (field_of word.now) (split_words behind.now))) }
{
    let Some(field) = field_of(word) else {
        return Err(DddmpStop::Fault(FaultKind::Header));
    };
    if is_given(given.as_slice(), field) {
        return Err(DddmpStop::Fault(FaultKind::Header));
    }
    let Some(numbers) = numbers_of(alloc, field, behind)? else {
        return Err(DddmpStop::Fault(FaultKind::Header));
    };
    given.push(Given { field, numbers })?;
    Ok(())
}

/// Takes a line before the nodes. Whether it is `.nodes`.
pub fn take_header_line(
    alloc: Global,
    given: &mut List<Given>,
    line: &[u8],
) -> Result<bool, DddmpStop>
    ensures ok { IfOk result (HeadsOn given.old (split_words line.now) given.new) }
    ensures stop { IfErr result (StopIs (words_fault (heading given.old) (split_words line.now))) }
{
    let Some((word, behind)) = first_word(line) else {
        return Ok(false);
    };
    if word == b".nodes".as_slice() {
        check_nodes(given.as_slice(), behind)?;
        return Ok(true);
    }
    if !is_passed_over(word) {
        take_field(alloc, given, word, behind)?;
    }
    Ok(false)
}
