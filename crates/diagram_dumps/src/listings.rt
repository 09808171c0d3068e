//! The nodes of some BDDs, numbered as in a stored diagram.

ghost use Rattle.std.specs.Prelude.{◌≡◌, ◌==◌, ◌<◌, ◌^◌, ℕ, Bool, All, IfOk, List as ListOf, length, map};
ghost use Rattle.std.specs.List.{list_any, range_with_len};
ghost use Rattle.function_laws.specs.Kinds.{BddFunction};
ghost use Rattle.function_laws.specs.SiftedOrders.{place_of};
ghost use Rattle.function_laws.specs.Sizes.{Orders, size};
ghost use Rattle.diagram_dumps.specs.Listings.{IsListing, dump_of, ids_of};

use crate::Dump;
use edge_bits::{Line, List, Memory};
use std::alloc::Global;

/// The nodes of some BDDs, numbered as in a stored diagram. Index 1 is the constant one; a negative index is complemented.
#[derive(Drop)]
pub struct Listing {
    /// The variables from the top.
    pub order: List<u32>,
    /// The node lines from index 2 on.
    pub nodes: List<Line>,
    /// The index of each BDD.
    pub roots: List<i32>,
}

/// Whether some line has the variable, for each of so many.
fn marks_of(alloc: Global, lines: &[Line], vars: usize) -> Result<Vec<bool>, Memory>
    ensures { IfOk result (λ marks. marks.items ≡ map (λ v. list_any (λ line. line.var == v) lines.now) (range_with_len 0 vars)) }
{
    let mut marks = vec![in alloc; false; vars]?;
    for line in lines {
        let var = line.var as usize;
        if var < marks.len() {
            marks[var] = true;
        }
    }
    Ok(marks)
}

/// The variables of some lines, of so many, rising.
fn ids_of(alloc: Global, lines: &[Line], vars: u32) -> Result<List<u32>, Memory>
    ensures { IfOk result (λ ids. ids ≡ ids_of vars lines.now) }
{
    let marks = marks_of(alloc, lines, vars as usize)?;
    let mut ids = List::new(alloc);
    for var in 0..vars {
        if marks[var as usize] {
            ids.push(var)?;
        }
    }
    Ok(ids)
}

/// The first place of each variable in an order, which is as long as there are variables. One that has none has the order's length.
fn places_in(alloc: Global, order: &[u32]) -> Result<Vec<u32>, Memory>
    requires { length order.now < 2 ^ 32 }
    ensures { IfOk result (λ places. places.items ≡ map (λ v. place_of v order.now) (range_with_len 0 (length order.now))) }
{
    let mut place = order.len();
    let mut places = vec![in alloc; place as u32; place]?;
    'behind: while place > 0 {
        place -= 1;
        let var = order[place] as usize;
        if var < places.len() {
            places[var] = place as u32;
        }
    }
    Ok(places)
}

/// The places of some variables in an order.
fn places_of(alloc: Global, order: &[u32], vars: &[u32]) -> Result<List<u32>, Memory>
    requires few { length order.now < 2 ^ 32 }
    requires below { All (λ v. v < length order.now) vars.now }
    ensures { IfOk result (λ places. places ≡ map (λ v. place_of v order.now) vars.now) }
{
    let places = places_in(alloc, order)?;
    let mut found = List::new(alloc);
    for var in vars {
        found.push(places[*var as usize])?;
    }
    Ok(found)
}

impl Listing {
    /// The size of the functions under the order: one for each node line and one for the constant, or none where there are no functions.
    pub fn node_count(&self) -> usize
        ensures { (orders : Orders) (functions : ListOf (ℕ → Bool)) → IsListing orders.variables functions self.now → result ≡ size orders (map BddFunction functions) }
    {
        if self.roots.is_empty() {
            0
        } else {
            self.nodes.as_slice().len() + 1
        }
    }

    /// The stored diagram. Its time is that of the order and the lines together.
    pub fn into_dump(self, alloc: Global) -> Result<Dump, Memory>
        requires { length self.order < 2 ^ 32 }
        ensures { IfOk result (λ dump. dump ≡ dump_of self) }
    {
        let nvars = self.order.len() as u32;
        let ids = ids_of(alloc, self.nodes.as_slice(), nvars)?;
        let permids = places_of(alloc, self.order.as_slice(), ids.as_slice())?;
        let Listing {
            order: _,
            nodes,
            roots,
        } = self;
        Ok(Dump {
            nvars,
            ids,
            permids,
            nodes,
            roots,
        })
    }
}
