//! Plain calls over whole lists of values. They are slow and short, and tests compare the store's operations with them.

ghost use Rattle.std.specs.Prelude.{◌≡◌, ◌<◌, ◌^◌, All, length, IsTrue, IfOk};
ghost use Rattle.function_laws.specs.Lists.{is_size, list_of, truth};
ghost use Rattle.function_laws.specs.Values.{exists_one};
ghost use Rattle.function_laws.specs.Functions.{compose_of, exists_of, forall_of, ite_of, not_of};

use crate::places::cofactor_at;
use edge_bits::Memory;
use std::alloc::Global;

/// g where f holds, else h.
#[tactic(auto, unfolding(crate::specs::Lists::list_of))]
pub fn ite_of(alloc: Global, f: &[bool], g: &[bool], h: &[bool]) -> Result<Vec<bool>, Memory>
    requires same_then { length g.now ≡ length f.now }
    requires same_else { length h.now ≡ length f.now }
    ensures { IfOk result (λ v. v.items ≡ ite_of f.now g.now h.now) }
{
    Ok(
        (0..f.len())
            .map(|k| if f[k] { g[k] } else { h[k] })
            .collect(alloc)?,
    )
}

/// The complement.
#[tactic(auto, unfolding(crate::specs::Lists::list_of))]
fn not_of(alloc: Global, f: &[bool]) -> Result<Vec<bool>, Memory>
    ensures { IfOk result (λ v. v.items ≡ not_of f.now) }
{
    Ok((0..f.len()).map(|k| !f[k]).collect(alloc)?)
}

/// The or of both cofactors.
#[tactic(auto, unfolding(crate::specs::Lists::list_of))]
fn exists_one(alloc: Global, f: &[bool], var: u32) -> Result<Vec<bool>, Memory>
    requires size { IsTrue (is_size (length f.now)) }
    requires var { 2 ^ var < length f.now }
    ensures { IfOk result (λ v. v.items ≡ list_of (length f.now) (exists_one (truth f.now) var)) }
{
    Ok(
        (0..f.len())
            .map(|k| cofactor_at(f, var, true, k) || cofactor_at(f, var, false, k))
            .collect(alloc)?,
    )
}

/// The or of both cofactors, for each of the variables.
pub fn exists_of(alloc: Global, f: &[bool], vars: &[u32]) -> Result<Vec<bool>, Memory>
    requires size { IsTrue (is_size (length f.now)) }
    requires vars { All (λ var. 2 ^ var < length f.now) vars.now }
    ensures { IfOk result (λ v. v.items ≡ exists_of f.now vars.now) }
{
    let mut values = Vec::from_slice(alloc, f)?;
    for var in vars {
        values = exists_one(alloc, &values, *var)?;
    }
    Ok(values)
}

/// The and of both cofactors, for each of the variables.
pub fn forall_of(alloc: Global, f: &[bool], vars: &[u32]) -> Result<Vec<bool>, Memory>
    requires size { IsTrue (is_size (length f.now)) }
    requires vars { All (λ var. 2 ^ var < length f.now) vars.now }
    ensures { IfOk result (λ v. v.items ≡ forall_of f.now vars.now) }
{
    let complement = not_of(alloc, f)?;
    let exists = exists_of(alloc, &complement, vars)?;
    not_of(alloc, &exists)
}

/// f with g put for the variable.
#[tactic(auto, unfolding(crate::specs::Lists::list_of))]
pub fn compose_of(alloc: Global, f: &[bool], var: u32, g: &[bool]) -> Result<Vec<bool>, Memory>
    requires size { IsTrue (is_size (length f.now)) }
    requires var { 2 ^ var < length f.now }
    requires same { length g.now ≡ length f.now }
    ensures { IfOk result (λ v. v.items ≡ compose_of f.now var g.now) }
{
    Ok(
        (0..f.len())
            .map(|k| cofactor_at(f, var, g[k], k))
            .collect(alloc)?,
    )
}
