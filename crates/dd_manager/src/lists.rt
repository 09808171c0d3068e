//! The lists that a program tells one by one, for a call that takes them.

ghost use Rattle.std.specs.Prelude.{◌≡◌, ◌⊎◌, ◌<◌, ◌≤◌};
ghost use Rattle.edge_bits.specs.declared.limits.TheConstants.{MOST_LEVELS as most};
ghost use Rattle.dd_manager.specs.Answers.{Says};
ghost use Rattle.dd_manager.specs.ListCalls.{AreClear, AreEmpty, AreMarked, AreSame, AreSet, PutsBy, ServesList};
ghost use Rattle.dd_manager.specs.Requests.{is_foreign as is_other};
ghost use Rattle.dd_manager.specs.declared.statuses.Status.TheVariants as statuses;

use crate::answers::told;
use crate::requests::{Answer, ListCall, Request, first_of, is_foreign};
use crate::statuses::Status;
use edge_bits::MOST_LEVELS;
use std::alloc::Global;
use store_rows::H;

/// How many bits there are: one for each level that an order may have.
const BITS: usize = MOST_LEVELS as usize;

/// The lists of a manager.
#[derive(Drop)]
pub struct Lists {
    /// The variables that were marked.
    pub marks: Vec<u32>,
    /// A bit for each variable, or element, that there may be.
    pub bits: [bool; BITS],
    /// Variables with the functions that are put for them.
    pub pairs: Vec<(u32, H)>,
}

/// Lists in which nothing is.
pub fn no_lists(alloc: Global) -> Lists
    ensures { AreClear result }
{
    Lists {
        marks: Vec::new(alloc),
        bits: [false; BITS],
        pairs: Vec::new(alloc),
    }
}

/// A variable is marked.
fn mark(lists: &mut Lists, var: u32) -> Answer
    ensures { (AreMarked lists.old var lists.new × Says statuses.Done result) ⊎ (AreSame lists.old lists.new × Says statuses.Memory result) }
{
    match lists.marks.push(var) {
        Ok(()) => told(Status::Done),
        Err(_) => told(Status::Memory),
    }
}

/// The bit of a variable, or an element, is set.
fn set_bit(lists: &mut Lists, number: u32, bit: bool) -> Answer
    ensures { ((most ≤ number) × AreSame lists.old lists.new × Says statuses.Range result) ⊎ ((number < most) × AreSet lists.old number bit lists.new × Says statuses.Done result) }
{
    if number >= MOST_LEVELS {
        return told(Status::Range);
    }
    lists.bits[number as usize] = bit;
    told(Status::Done)
}

/// A function is put for a variable.
fn put(manager: u32, lists: &mut Lists, request: &Request) -> Answer
    ensures { PutsBy (is_other manager 1 request.now) lists.old request.now lists.new result }
{
    if is_foreign(manager, 1, request) {
        return told(Status::Handle);
    }
    if lists.pairs.len() >= BITS {
        return told(Status::Range);
    }
    match lists.pairs.push((request.number, first_of(request))) {
        Ok(()) => told(Status::Done),
        Err(_) => told(Status::Memory),
    }
}

/// Nothing is listed any more.
fn clear(lists: &mut Lists) -> Answer
    ensures lists { AreClear lists.new }
    ensures status { Says statuses.Done result }
{
    lists.marks.clear();
    lists.bits = [false; BITS];
    lists.pairs.clear();
    told(Status::Done)
}

/// Nothing is listed any more, and no memory is held for it.
pub fn empty(lists: &mut Lists)
    ensures { AreEmpty lists.new }
{
    lists.marks.clear();
    lists.marks.shrink_to_fit();
    lists.bits = [false; BITS];
    lists.pairs.clear();
    lists.pairs.shrink_to_fit();
}

/// A call that tells one thing of a list.
pub fn serve_list(manager: u32, lists: &mut Lists, call: ListCall, request: &Request) -> Answer
    ensures { ServesList call manager lists.old request.now lists.new result }
{
    match call {
        ListCall::Mark => mark(lists, request.number),
        ListCall::Bit => set_bit(lists, request.number, request.value != 0),
        ListCall::Put => put(manager, lists, request),
        ListCall::Clear => clear(lists),
    }
}
