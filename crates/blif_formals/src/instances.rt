//! Instances by number.

ghost use Rattle.std.specs.Prelude.{◌≡◌, IfOk, MatchOption, false, length};
ghost use Rattle.blif_formals.specs.Calls.{model_by};
ghost use Rattle.blif_formals.specs.Formals.{AreCallees, words_in};
ghost use Rattle.blif_formals.specs.Instances.{IsInstanceBy, joins_known};
ghost use Rattle.blif_formals.specs.Titles.{IsTitleBelow};

use crate::actuals::joins_in;
use crate::calls::{Call, model_by};
use crate::formals::Callees;
use blif_models::NumberedInstance;
use std::alloc::{AllocError, Global};

/// The instance of a call, with these words behind the name of its model, whose actual names have these numbers where it stands; none
/// where it is of no model, or a word joins none of the model's names.
pub fn instance_by(
    alloc: Global,
    callees: &Callees<'_>,
    call: Call,
    words: &[&[u8]],
    actuals: &[u32],
) -> Result<Option<NumberedInstance>, AllocError>
    requires callees { AreCallees callees.now }
    requires title { IsTitleBelow (length callees.now.titles.now) call.title }
    requires actuals { length actuals.now ≡ length words.now }
    ensures { IfOk result (λ found. MatchOption found (joins_known callees.now (model_by callees.now.titles.now call.title) (words_in words.now) ≡ false) (IsInstanceBy callees.now call (words_in words.now) actuals.now)) }
{
    let model = match model_by(callees.titles, call.title) {
        None => return Ok(None),
        Some(model) => model,
    };
    match joins_in(alloc, &callees.names[model as usize], words, actuals)? {
        None => Ok(None),
        Some(joins) => Ok(Some(NumberedInstance {
            line: call.line,
            model,
            joins,
        })),
    }
}
