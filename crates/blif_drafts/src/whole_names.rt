//! Names in the whole.

ghost use Rattle.std.specs.Prelude.{◌≡◌, ◌<◌, ◌++◌, IfOk, OnOk, codes, length};
ghost use Rattle.blif_models.specs.Models.{numeral};
ghost use Rattle.blif_models.specs.Numberings.{word_of, words_at};

use blif_formals::Words;
use blif_models::Spot;
use edge_bits::List;
use std::alloc::{AllocError, Global};

/// Puts the number of a copy and `#` behind what stands there.
fn put_number(alloc: Global, name: &mut Vec<u8>, number: u64) -> Result<(), AllocError>
    requires { 0 < number }
    ensures { OnOk result (name.new.items ≡ name.old.items ++ (numeral number ++ codes "#")) }
{
    name.extend_from_slice(number.to_string(alloc)?.as_bytes())?;
    name.extend_from_slice(b"#".as_slice())?;
    Ok(())
}

/// The name in the whole of the signal at a spot, where the models have these names: in a copy it is the copy's number, `#` and the
/// model's own name for it.
pub fn whole_name(alloc: Global, names: &[Words], spot: Spot) -> Result<List<u8>, AllocError>
    requires model { spot.model < length names.now }
    requires name { spot.name < length (words_at names.now spot.model) }
    ensures { IfOk result (λ name. name ≡ word_of names.now spot) }
{
    let own = names[spot.model as usize].word_at(spot.name);
    let mut name = Vec::new(alloc);
    if spot.copy != 0 {
        put_number(alloc, &mut name, spot.copy)?;
    }
    name.extend_from_slice(own)?;
    Ok(List::from_vec(name))
}
