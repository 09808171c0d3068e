//! Models of which only those that a main one reaches have entries.

ghost use Rattle.std.specs.Prelude.{◌≡◌, ◌<◌, OnOk, length};
ghost use Rattle.blif_models.specs.Graphs.{is_met};
ghost use Rattle.blif_models.specs.Kept.{kept_from, reached_models};
ghost use Rattle.blif_models.specs.Layouts.{AreNumbered};

use crate::graph::holds_of;
use crate::numbered::NumberedModel;
use crate::reached::reached_from;
use edge_bits::List;
use std::alloc::{AllocError, Global};

/// Takes the entries from each model that was not met.
fn empty_others(alloc: Global, models: &mut Vec<NumberedModel>, met: &[bool])
    requires { length met.now ≡ length models.old.items }
    ensures { models.new.items ≡ kept_from (is_met met.now) 0 models.old.items }
{
    for place in 0..models.len() {
        if !met[place] {
            let model = &mut models[place];
            model.entries = List::new(alloc);
        }
    }
}

/// Takes the entries from each model that the main one does not hold through any number of levels.
pub fn keep_reached(
    alloc: Global,
    models: &mut Vec<NumberedModel>,
    main: u32,
) -> Result<(), AllocError>
    requires main { main < length models.old.items }
    requires numbered { AreNumbered models.old.items }
    ensures { OnOk result (models.new.items ≡ reached_models models.old.items main) }
{
    let holds = holds_of(alloc, models)?;
    let met = reached_from(alloc, &holds, main)?;
    empty_others(alloc, models, &met);
    Ok(())
}
