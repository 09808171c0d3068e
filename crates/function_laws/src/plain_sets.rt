//! Plain calls over families.

ghost use Rattle.std.specs.Prelude.{◌≡◌, ℕ, ◌==◌, not, ◌&&◌, ◌||◌, bit_and, bit_or, ◌<◌, ◌^◌, length, IsTrue, IfOk};
ghost use Rattle.function_laws.specs.Lists.{all_below, any_below, is_size, truth};
ghost use Rattle.function_laws.specs.Functions.{diff_of, flip_of, meet_of, off_of, on_of, product_of, quotient_of, union_of};

use crate::places::{bit_of, cofactor_at, union_at};
use edge_bits::Memory;
use std::alloc::Global;

/// The combinations of either family.
#[tactic(auto, unfolding(crate::specs::Lists::list_of))]
pub fn union_of(alloc: Global, p: &[bool], q: &[bool]) -> Result<Vec<bool>, Memory>
    requires same { length q.now ≡ length p.now }
    ensures { IfOk result (λ v. v.items ≡ union_of p.now q.now) }
{
    Ok((0..p.len()).map(|a| p[a] || q[a]).collect(alloc)?)
}

/// The combinations of both families.
#[tactic(auto, unfolding(crate::specs::Lists::list_of))]
pub fn meet_of(alloc: Global, p: &[bool], q: &[bool]) -> Result<Vec<bool>, Memory>
    requires same { length q.now ≡ length p.now }
    ensures { IfOk result (λ v. v.items ≡ meet_of p.now q.now) }
{
    Ok((0..p.len()).map(|a| p[a] && q[a]).collect(alloc)?)
}

/// The combinations of p that q lacks.
#[tactic(auto, unfolding(crate::specs::Lists::list_of))]
pub fn diff_of(alloc: Global, p: &[bool], q: &[bool]) -> Result<Vec<bool>, Memory>
    requires same { length q.now ≡ length p.now }
    ensures { IfOk result (λ v. v.items ≡ diff_of p.now q.now) }
{
    Ok((0..p.len()).map(|a| p[a] && !q[a]).collect(alloc)?)
}

/// The combinations with e, without it.
#[tactic(auto, unfolding(crate::specs::Lists::list_of))]
pub fn on_of(alloc: Global, p: &[bool], e: u32) -> Result<Vec<bool>, Memory>
    requires size { IsTrue (is_size (length p.now)) }
    requires element { 2 ^ e < length p.now }
    ensures { IfOk result (λ v. v.items ≡ on_of p.now e) }
{
    Ok(
        (0..p.len())
            .map(|a| !bit_of(p.len(), a, e) && cofactor_at(p, e, true, a))
            .collect(alloc)?,
    )
}

/// The combinations without e.
#[tactic(auto, unfolding(crate::specs::Lists::list_of))]
pub fn off_of(alloc: Global, p: &[bool], e: u32) -> Result<Vec<bool>, Memory>
    requires size { IsTrue (is_size (length p.now)) }
    requires element { 2 ^ e < length p.now }
    ensures { IfOk result (λ v. v.items ≡ off_of p.now e) }
{
    Ok(
        (0..p.len())
            .map(|a| !bit_of(p.len(), a, e) && p[a])
            .collect(alloc)?,
    )
}

/// The combinations with e toggled.
#[tactic(auto, unfolding(crate::specs::Lists::list_of))]
pub fn flip_of(alloc: Global, p: &[bool], e: u32) -> Result<Vec<bool>, Memory>
    requires size { IsTrue (is_size (length p.now)) }
    requires element { 2 ^ e < length p.now }
    ensures { IfOk result (λ v. v.items ≡ flip_of p.now e) }
{
    Ok(
        (0..p.len())
            .map(|a| cofactor_at(p, e, !bit_of(p.len(), a, e), a))
            .collect(alloc)?,
    )
}

/// The unions of a combination of one family and one of the other.
pub fn product_of(alloc: Global, p: &[bool], q: &[bool]) -> Result<Vec<bool>, Memory>
    requires size { IsTrue (is_size (length p.now)) }
    requires same { length q.now ≡ length p.now }
    ensures { IfOk result (λ v. v.items ≡ product_of p.now q.now) }
{
    let mut members = vec![in alloc; false; p.len()]?;
    for b in 0..p.len() {
        if p[b] {
            add_unions(&mut members, b, q);
        }
    }
    Ok(members)
}

/// Adds the union of b and each combination of the family.
fn add_unions(members: &mut [bool], b: usize, q: &[bool])
    requires size { IsTrue (is_size (length q.now)) }
    requires same { length members.old ≡ length q.now }
    requires b { b < length q.now }
    ensures length { length members.new ≡ length q.now }
    ensures members { (k : ℕ) → k < length q.now
        → truth members.new k ≡ (truth members.old k || any_below (length q.now) (λ c. truth q.now c && (bit_or b c == k))) }
{
    for c in 0..q.len() {
        if q[c] {
            members[b | c] = true;
        }
    }
}

/// The combinations that are disjoint from each one of q, and give with it one of p; none where q is empty.
#[tactic(auto, unfolding(crate::specs::Lists::list_of))]
pub fn quotient_of(alloc: Global, p: &[bool], q: &[bool]) -> Result<Vec<bool>, Memory>
    requires size { IsTrue (is_size (length p.now)) }
    requires same { length q.now ≡ length p.now }
    ensures { IfOk result (λ v. v.items ≡ quotient_of p.now q.now) }
{
    Ok(
        (0..p.len())
            .map(|a| has_member(q) && fits_each(p, q, a))
            .collect(alloc)?,
    )
}

/// Some combination is in q.
#[tactic(auto, unfolding(crate::specs::Lists::any_below))]
fn has_member(q: &[bool]) -> bool
    ensures { result ≡ any_below (length q.now) (truth q.now) }
{
    (0..q.len()).any(|b| q[b])
}

/// a is disjoint from each combination of q, and gives with it one of p.
#[tactic(auto, unfolding(crate::specs::Lists::all_below))]
fn fits_each(p: &[bool], q: &[bool], a: usize) -> bool
    requires size { IsTrue (is_size (length p.now)) }
    requires same { length q.now ≡ length p.now }
    requires place { a < length p.now }
    ensures { result ≡ all_below (length p.now) (λ b. not (truth q.now b) || ((bit_and a b == 0) && truth p.now (bit_or a b))) }
{
    (0..p.len()).all(|b| !q[b] || (a & b == 0 && union_at(p, a, b)))
}
