//! The order in which models are left by a walk from each to those that hold it.

ghost use Rattle.std.specs.Prelude.{◌≡◌, ◌<◌, ◌+◌, ◌++◌, ◌∷◌, [], All, IfOk, OnOk, length, map, replicate, set, vec_len, true, false};
ghost use Rattle.blif_order.specs.Orders.{reads_of};
ghost use Rattle.blif_models.specs.Graphs.{AreWithin, is_met};
ghost use Rattle.blif_models.specs.Ranks.{IsTour, TurnIs, into_each, weight_left};

use crate::arranging::number_of;
use edge_bits::List;
use std::alloc::{AllocError, Global};

/// So many empty lists.
fn no_lists(alloc: Global, count: usize) -> Result<Vec<List<u32>>, AllocError>
    ensures { IfOk result (λ lists. lists.items ≡ replicate count []) }
{
    let mut lists = Vec::with_capacity(alloc, count)?;
    for _ in 0..count {
        lists.push(List::new(alloc))?;
    }
    Ok(lists)
}

/// Notes of the models that one holds that this one does.
fn add_holder(holders: &mut Vec<List<u32>>, held: &[u32], holder: u32) -> Result<(), AllocError>
    requires held { All (λ m. m < vec_len holders.old) held.now }
    requires holder { holder < vec_len holders.old }
    requires within { AreWithin (vec_len holders.old) holders.old.items }
    ensures many { OnOk result (vec_len holders.new ≡ vec_len holders.old) }
    ensures within { OnOk result (AreWithin (vec_len holders.new) holders.new.items) }
{
    for model in held {
        let of_one = &mut holders[*model as usize];
        of_one.push(holder)?;
    }
    Ok(())
}

/// For each model some that hold it.
fn holders_of(alloc: Global, holds: &[List<u32>]) -> Result<Vec<List<u32>>, AllocError>
    requires { AreWithin (length holds.now) holds.now }
    ensures many { IfOk result (λ holders. vec_len holders ≡ length holds.now) }
    ensures within { IfOk result (λ holders. AreWithin (length holds.now) holders.items) }
{
    let count = number_of(holds.len())?;
    let mut holders = no_lists(alloc, holds.len())?;
    for model in 0..count {
        add_holder(&mut holders, holds[model as usize].as_slice(), model)?;
    }
    Ok(holders)
}

/// What is next on a walk: to go into a model, or to leave one behind all that were gone into from it.
#[derive(Clone, Copy, PartialEq, Eq, Drop)]
pub enum Turn {
    Into(u32),
    Leave(u32),
}

/// How far a walk is: which models it went into, what is to come, the next one last, and the models that were left.
#[derive(Drop)]
pub struct Tour {
    pub met: Vec<bool>,
    pub turns: Vec<Turn>,
    pub left: Vec<u32>,
}

/// Going into each of these is to come.
fn turn_into(turns: &mut Vec<Turn>, models: &[u32]) -> Result<(), AllocError>
    ensures { OnOk result (turns.new.items ≡ turns.old.items ++ into_each models.now) }
{
    for model in models {
        turns.push(Turn::Into(*model))?;
    }
    Ok(())
}

impl Tour {
    /// Goes into a model, unless it did.
    fn go_into(&mut self, next: &[List<u32>], model: u32) -> Result<(), AllocError>
        requires model { model < length next.now }
        requires within { AreWithin (length next.now) next.now }
        requires tour { IsTour next.now self.old }
        ensures tour { OnOk result (IsTour next.now self.new) }
        ensures work { OnOk result (weight_left next.now self.new.met.items + length self.new.turns.items < weight_left next.now self.old.met.items + length self.old.turns.items + 1) }
    {
        if !self.met[model as usize] {
            self.met[model as usize] = true;
            self.turns.push(Turn::Leave(model))?;
            turn_into(&mut self.turns, next[model as usize].as_slice())?;
        }
        Ok(())
    }

    /// Takes a turn.
    fn take(&mut self, next: &[List<u32>], turn: Turn) -> Result<(), AllocError>
        requires turn { TurnIs (length next.now) turn }
        requires within { AreWithin (length next.now) next.now }
        requires tour { IsTour next.now self.old }
        ensures tour { OnOk result (IsTour next.now self.new) }
        ensures work { OnOk result (weight_left next.now self.new.met.items + length self.new.turns.items < weight_left next.now self.old.met.items + length self.old.turns.items + 1) }
    {
        match turn {
            Turn::Into(model) => self.go_into(next, model)?,
            Turn::Leave(model) => self.left.push(model)?,
        }
        Ok(())
    }
}

/// A walk before its first turn: it is to go into each of so many models.
fn start(alloc: Global, count: u32) -> Result<Tour, AllocError>
    ensures met { IfOk result (λ tour. tour.met.items ≡ replicate count false) }
    ensures left { IfOk result (λ tour. tour.left.items ≡ []) }
    ensures turns { IfOk result (λ tour. All (TurnIs count) tour.turns.items) }
{
    let mut turns = Vec::with_capacity(alloc, count as usize)?;
    for model in 0..count {
        turns.push(Turn::Into(model))?;
    }
    Ok(Tour {
        met: vec![in alloc; false; count as usize]?,
        turns,
        left: Vec::new(alloc),
    })
}

/// The models in the order in which a walk leaves them that goes from each to these next ones.
fn left_in_order(alloc: Global, next: &[List<u32>]) -> Result<Vec<u32>, AllocError>
    requires { AreWithin (length next.now) next.now }
    ensures { IfOk result (λ order. All (λ m. m < length next.now) order.items) }
{
    let count = number_of(next.len())?;
    let mut tour = start(alloc, count)?;
    while let Some(turn) = tour.turns.pop() {
        tour.take(next, turn)?;
    }
    let Tour { left, .. } = tour;
    Ok(left)
}

/// Models in an order from whose end on the first of those that hold each other comes behind all others that it holds.
pub fn held_last(alloc: Global, holds: &[List<u32>]) -> Result<Vec<u32>, AllocError>
    requires { AreWithin (length holds.now) holds.now }
    ensures { IfOk result (λ order. All (λ m. m < length holds.now) order.items) }
{
    let holders = holders_of(alloc, holds)?;
    left_in_order(alloc, &holders)
}
