//! What the spots of a whole are.

ghost use Rattle.std.specs.Prelude.{◌≡◌, ◌<◌, ◌++◌, [], All, IfOk, OnOk, length, map, vec_len, ℕ, List as ListOf};
ghost use Rattle.blif_wholes.specs.Roles.{IsRoleIn, IsRoleOf, role_at};

use crate::parting::WholeCover;
use std::alloc::{AllocError, Global};

/// What a spot is: that of no signal, of the input of this number, or of what the cover of this number defines.
#[derive(Debug, Clone, Copy, PartialEq, Eq, Drop)]
pub enum Role {
    Unknown,
    Input(u32),
    Cover(u32),
}

/// The number as one of 32 bits. For more there is no memory.
pub fn number_of(n: usize) -> Result<u32, AllocError>
    ensures { IfOk result (λ number. number ≡ n) }
{
    if n <= 4_294_967_295 {
        Ok(n as u32)
    } else {
        Err(AllocError)
    }
}

/// What each of so many spots is, where these are inputs, and no cover is known yet.
fn input_roles(alloc: Global, spots: usize, inputs: &[u32]) -> Result<Vec<Role>, AllocError>
    requires { All (λ n. n < spots) inputs.now }
    ensures many { IfOk result (λ roles. vec_len roles ≡ spots) }
    ensures roles { IfOk result (λ roles. (covers : ListOf ℕ) (n : ℕ) → IsRoleIn inputs.now covers inputs.now n (role_at roles.items n)) }
{
    let mut roles = vec![in alloc; Role::Unknown; spots]?;
    for (input, spot) in inputs.iter().enumerate() {
        roles[*spot as usize] = Role::Input(number_of(input)?);
    }
    Ok(roles)
}

/// What each of so many spots is, where these are inputs, and these the covers.
pub fn roles_of(
    alloc: Global,
    spots: usize,
    inputs: &[u32],
    covers: &[WholeCover],
) -> Result<Vec<Role>, AllocError>
    requires inputs { All (λ n. n < spots) inputs.now }
    requires covers { All (λ one. one.cover.name < spots) covers.now }
    ensures many { IfOk result (λ roles. vec_len roles ≡ spots) }
    ensures roles { IfOk result (λ roles. (n : ℕ) → IsRoleOf inputs.now (map (λ one. one.cover.name) covers.now) n (role_at roles.items n)) }
{
    let mut roles = input_roles(alloc, spots, inputs)?;
    for (number, one) in covers.iter().enumerate() {
        roles[one.cover.name as usize] = Role::Cover(number_of(number)?);
    }
    Ok(roles)
}
