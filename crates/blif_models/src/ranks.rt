//! Ranks of models, by which most instances are passed where it is asked by which of them models hold themselves.

ghost use Rattle.std.specs.Prelude.{◌≡◌, ◌<◌, ◌∷◌, [], All, IfOk, OnOk, length, vec_len};
ghost use Rattle.blif_models.specs.Graphs.{AreWithin};
ghost use Rattle.blif_models.specs.Ranks.{AreRanks, Lowers};

use crate::tour::held_last;
use edge_bits::List;
use std::alloc::{AllocError, Global};

/// Ranks so far, and the models that were ranked and whose own models are not yet.
#[derive(Drop)]
pub struct Ranking {
    pub ranks: Vec<u64>,
    pub left: Vec<u32>,
}

impl Ranking {
    /// Gives a model this rank, unless it has no higher one.
    fn lower(&mut self, model: u32, rank: u64) -> Result<(), AllocError>
        requires { model < vec_len self.old.ranks }
        ensures { OnOk result (Lowers rank self.old.ranks.items self.old.left.items (model ∷ []) self.new.ranks.items self.new.left.items) }
    {
        if rank < self.ranks[model as usize] {
            self.ranks[model as usize] = rank;
            self.left.push(model)?;
        }
        Ok(())
    }

    /// Gives models this rank, each unless it has no higher one.
    fn lower_all(&mut self, models: &[u32], rank: u64) -> Result<(), AllocError>
        requires { All (λ m. m < vec_len self.old.ranks) models.now }
        ensures { OnOk result (Lowers rank self.old.ranks.items self.old.left.items models.now self.new.ranks.items self.new.left.items) }
    {
        for model in models {
            self.lower(*model, rank)?;
        }
        Ok(())
    }

    /// Gives a model and all that it holds this rank, each unless it has no higher one.
    fn lower_from(&mut self, holds: &[List<u32>], model: u32, rank: u64) -> Result<(), AllocError>
        requires model { model < length holds.now }
        requires within { AreWithin (length holds.now) holds.now }
        requires many { length self.old.ranks.items ≡ length holds.now }
        requires left { self.old.left.items ≡ [] }
        requires ranks { AreRanks holds.now self.old.ranks.items }
        ensures many { OnOk result (length self.new.ranks.items ≡ length holds.now) }
        ensures left { OnOk result (self.new.left.items ≡ []) }
        ensures ranks { OnOk result (AreRanks holds.now self.new.ranks.items) }
    {
        self.lower(model, rank)?;
        while let Some(next) = self.left.pop() {
            self.lower_all(holds[next as usize].as_slice(), rank)?;
        }
        Ok(())
    }
}

/// A rank for each model, so that none holds one of a higher rank. Two of one rank hold each other, or one would be searched in vain.
pub fn ranks_of(alloc: Global, holds: &[List<u32>]) -> Result<Vec<u64>, AllocError>
    requires { AreWithin (length holds.now) holds.now }
    ensures many { IfOk result (λ ranks. length ranks.items ≡ length holds.now) }
    ensures ranks { IfOk result (λ ranks. AreRanks holds.now ranks.items) }
{
    let order = held_last(alloc, holds)?;
    let mut ranking = Ranking {
        ranks: vec![in alloc; u64::MAX; holds.len()]?,
        left: Vec::new(alloc),
    };
    for place in 0..order.len() {
        let model = order[order.len() - 1 - place];
        ranking.lower_from(holds, model, place as u64)?;
    }
    let Ranking { ranks, .. } = ranking;
    Ok(ranks)
}
