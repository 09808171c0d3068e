//! Signals that are defined twice, in the models that a main one reaches.

ghost use Rattle.std.specs.Prelude.{◌≡◌, ◌<◌, All, IfOk, length};
ghost use Rattle.blif_models.specs.ModelFaults.{least};
ghost use Rattle.blif_formals.specs.Clashes.{clashes};
ghost use Rattle.blif_formals.specs.Definitions.{JoinsNames};
ghost use Rattle.blif_formals.specs.Twice.{AreDefining, clash_firsts, clash_lines, definitions_in};

use crate::clashes::{Definition, clash_line};
use crate::definitions::add_definitions;
use crate::interface::Interface;
use crate::reached::first_met;
use blif_models::NumberedModel;
use edge_bits::List;
use std::alloc::{AllocError, Global};

/// The first line by which a signal of a model is defined twice, where its inputs have these definitions.
fn clash_in(
    alloc: Global,
    interfaces: &[Interface],
    inputs: &[Definition],
    model: &NumberedModel,
) -> Result<Option<u64>, AllocError>
    requires entries { All (JoinsNames interfaces.now) model.now.entries }
    requires names { All (λ one. one.name < model.now.names) (definitions_in interfaces.now inputs.now model.now) }
    ensures { IfOk result (λ line. line ≡ least (clashes (definitions_in interfaces.now inputs.now model.now))) }
{
    let mut found = Vec::from_slice(alloc, inputs)?;
    add_definitions(&mut found, interfaces, model.entries.as_slice())?;
    clash_line(alloc, model.names, &found)
}

/// For each model the first line by which a signal of it is defined twice.
fn all_clashes(
    alloc: Global,
    interfaces: &[Interface],
    inputs: &[List<Definition>],
    models: &[NumberedModel],
) -> Result<Vec<Option<u64>>, AllocError>
    requires { AreDefining interfaces.now inputs.now models.now }
    ensures { IfOk result (λ lines. lines.items ≡ clash_firsts interfaces.now inputs.now models.now (length models.now)) }
{
    let mut lines = Vec::with_capacity(alloc, models.len())?;
    for model in 0..models.len() {
        let own = inputs[model].as_slice();
        lines.push(clash_in(alloc, interfaces, own, &models[model])?)?;
    }
    Ok(lines)
}

/// The first line by which a signal is defined twice in the models that were met. Each model has an interface, and the definitions of
/// its inputs.
pub fn twice_line(
    alloc: Global,
    interfaces: &[Interface],
    inputs: &[List<Definition>],
    models: &[NumberedModel],
    met: &[bool],
) -> Result<Option<u64>, AllocError>
    requires models { AreDefining interfaces.now inputs.now models.now }
    requires met { length met.now ≡ length models.now }
    ensures { IfOk result (λ line. line ≡ least (clash_lines interfaces.now inputs.now models.now met.now)) }
{
    let lines = all_clashes(alloc, interfaces, inputs, models)?;
    Ok(first_met(met, &lines))
}
