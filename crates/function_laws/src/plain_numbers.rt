//! Plain calls over lists of whole numbers.

ghost use Rattle.std.specs.Prelude.{◌≡◌, ◌<◌, ◌^◌, length, IsTrue, IfOk, if◌then◌else◌, option_map};
ghost use Rattle.function_laws.specs.Lists.{is_size, list_of, whole};
ghost use Rattle.function_laws.specs.Numbers.{exactly, is_value, plus, sum_over};
ghost use Rattle.function_laws.specs.Functions.{plus_of, sum_of};

use crate::places::place_with;
use edge_bits::{LEAST_VALUE, Memory, VALUE_END};
use std::alloc::Global;

/// The sums; none where one is out of the range -2^46 to 2^46 - 1.
pub fn plus_of(alloc: Global, a: &[i64], b: &[i64]) -> Result<Option<Vec<i64>>, Memory>
    requires same { length b.now ≡ length a.now }
    ensures { IfOk result (λ sums. option_map (λ v. v.items) sums ≡ plus_of a.now b.now) }
{
    let sums = exact_sums(alloc, a, b)?;
    in_range(alloc, &sums)
}

/// The sums of both cofactors; none where one is out of the range -2^46 to 2^46 - 1.
pub fn sum_of(alloc: Global, a: &[i64], var: u32) -> Result<Option<Vec<i64>>, Memory>
    requires size { IsTrue (is_size (length a.now)) }
    requires var { 2 ^ var < length a.now }
    ensures { IfOk result (λ sums. option_map (λ v. v.items) sums ≡ sum_of a.now var) }
{
    let sums = exact_cofactor_sums(alloc, a, var)?;
    in_range(alloc, &sums)
}

/// The sums, whatever their range.
#[tactic(auto, unfolding(crate::specs::Lists::list_of))]
fn exact_sums(alloc: Global, a: &[i64], b: &[i64]) -> Result<Vec<i128>, Memory>
    requires same { length b.now ≡ length a.now }
    ensures { IfOk result (λ v. v.items ≡ list_of (length a.now) (plus (whole a.now) (whole b.now))) }
{
    Ok(
        (0..a.len())
            .map(|k| i128::from(a[k]) + i128::from(b[k]))
            .collect(alloc)?,
    )
}

/// The sums of both cofactors, whatever their range.
#[tactic(auto, unfolding(crate::specs::Lists::list_of))]
fn exact_cofactor_sums(alloc: Global, a: &[i64], var: u32) -> Result<Vec<i128>, Memory>
    requires size { IsTrue (is_size (length a.now)) }
    requires var { 2 ^ var < length a.now }
    ensures { IfOk result (λ v. v.items ≡ list_of (length a.now) (sum_over (whole a.now) var)) }
{
    Ok(
        (0..a.len())
            .map(|k| {
                let then_value = a[place_with(a.len(), k, var, true)];
                let else_value = a[place_with(a.len(), k, var, false)];
                i128::from(then_value) + i128::from(else_value)
            })
            .collect(alloc)?,
    )
}

/// The number, if it is from -2^46 to 2^46 - 1.
fn value_in_range(exact: i128) -> Option<i64>
    ensures { result ≡ (if is_value exact then Some exact else None) }
{
    if i128::from(LEAST_VALUE) <= exact && exact < i128::from(VALUE_END) {
        Some(exact as i64)
    } else {
        None
    }
}

/// The numbers, if each is from -2^46 to 2^46 - 1.
fn in_range(alloc: Global, exact: &[i128]) -> Result<Option<Vec<i64>>, Memory>
    ensures { IfOk result (λ values. option_map (λ v. v.items) values ≡ exactly exact.now) }
{
    let mut values = Vec::new(alloc);
    for z in exact {
        match value_in_range(*z) {
            Some(value) => values.push(value)?,
            None => return Ok(None),
        }
    }
    Ok(Some(values))
}
