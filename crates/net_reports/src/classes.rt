//! Which of a listing's functions are equal up to complement.

ghost use Rattle.std.specs.Prelude.{◌≡◌, ◌<◌, List as ListOf, ℕ, pos, nat_abs, IfOk, length, map, slice_index_or};
ghost use Rattle.std.specs.Int.{is_negative};
ghost use Rattle.function_laws.specs.Values.{differs};
ghost use Rattle.diagram_dumps.specs.WellMade.{IsWellMade};
ghost use Rattle.diagram_dumps.specs.Listings.{IsListing, dump_of};
ghost use Rattle.net_reports.specs.Classes.{AreClasses, Function};
ghost use Rattle.net_reports.specs.RootClasses.{class_among};

use diagram_dumps::Listing;
use edge_bits::Memory;
use std::alloc::Global;

/// Of a function among others: the first of them that is equal to it up to complement, and whether it is the complement of that.
#[derive(Debug, Clone, Copy, PartialEq, Eq, Drop)]
pub struct Class {
    pub first: usize,
    pub complement: bool,
}

/// The magnitude of a root.
fn magnitude(root: &i32) -> usize
    ensures { result ≡ nat_abs root.now }
{
    root.unsigned_abs() as usize
}

/// The class of a root, from the first root of its magnitude.
fn class_from(roots: &[i32], root: &i32, first: usize) -> Class
    requires { first < length roots.now }
    ensures { result ≡ record { first = first; complement = differs (is_negative root.now) (is_negative (slice_index_or roots.now first (pos 0))) } }
{
    let complement = (*root < 0) != (roots[first] < 0);
    Class { first, complement }
}

/// The classes of the functions of a listing. They are equal up to complement exactly where their indices have one magnitude, so
/// that it takes time in proportion to the node lines and the roots.
pub fn classes_of(alloc: Global, listing: &Listing) -> Result<Vec<Class>, Memory>
    requires { IsWellMade (dump_of listing.now) }
    ensures by_index { IfOk result (λ classes. classes.items ≡ map (class_among listing.now.roots) listing.now.roots) }
    ensures by_function { IfOk result (λ classes. (order : ListOf ℕ) (functions : ListOf Function) → IsListing order functions listing.now → AreClasses (length order) functions classes.items) }
{
    let roots = listing.roots.as_slice();
    let mut firsts: Vec<Option<usize>> = vec![in alloc; None; listing.nodes.as_slice().len() + 2]?;
    let mut classes = Vec::with_capacity(alloc, roots.len())?;
    for (place, root) in roots.iter().enumerate() {
        let index = magnitude(root);
        let first = firsts[index].unwrap_or(place);
        firsts[index] = Some(first);
        classes.push(class_from(roots, root, first))?;
    }
    Ok(classes)
}
