//! Which models another one holds, through any number of levels.

ghost use Rattle.std.specs.Prelude.{◌<◌, ◌∷◌, [], All, IfOk, OnOk, length, vec_len};
ghost use Rattle.blif_models.specs.Graphs.{AreReached, AreWithin, Meets};

use edge_bits::List;
use std::alloc::{AllocError, Global};

/// The models that were met, and those of them whose own models are still to be met.
#[derive(Drop)]
pub struct Search {
    pub met: Vec<bool>,
    pub left: Vec<u32>,
}

impl Search {
    /// Meets a model, which is left if it is new.
    fn meet(&mut self, model: u32) -> Result<(), AllocError>
        requires { model < vec_len self.old.met }
        ensures { OnOk result (Meets self.old.met.items self.old.left.items (model ∷ []) self.new.met.items self.new.left.items) }
    {
        if !self.met[model as usize] {
            self.met[model as usize] = true;
            self.left.push(model)?;
        }
        Ok(())
    }

    /// Meets some models.
    fn meet_all(&mut self, held: &[u32]) -> Result<(), AllocError>
        requires { All (λ m. m < vec_len self.old.met) held.now }
        ensures { OnOk result (Meets self.old.met.items self.old.left.items held.now self.new.met.items self.new.left.items) }
    {
        for model in held {
            self.meet(*model)?;
        }
        Ok(())
    }
}

/// For each model whether it is this one, or one that this one holds through any number of levels.
pub fn reached_from(alloc: Global, holds: &[List<u32>], from: u32) -> Result<Vec<bool>, AllocError>
    requires from { from < length holds.now }
    requires within { AreWithin (length holds.now) holds.now }
    ensures { IfOk result (λ met. AreReached holds.now from met.items) }
{
    let mut search = Search {
        met: vec![in alloc; false; holds.len()]?,
        left: Vec::new(alloc),
    };
    search.meet(from)?;
    while let Some(model) = search.left.pop() {
        search.meet_all(holds[model as usize].as_slice())?;
    }
    let Search { met, .. } = search;
    Ok(met)
}
