//! What is asked of a store.

ghost use Rattle.std.specs.Prelude.{◌≡◌, ◌+◌, ◌*◌, ◌<◌, ◌≤◌, IfOk};
ghost use Rattle.edge_bits.specs.declared.edges.Kind.TheVariants.{Bdd};
ghost use Rattle.node_store.specs.Views.{Grown, Is};

use edge_bits::{Edge, Kind, MOST_VARIABLES};
use ite_core::{and, or};
use node_store::{Grow, Stop};
use step_store::Home;

/// Where the seat of a table with one user belongs.
pub struct Here;

impl Home<bool> for Here {
    ghost use Rattle.std.specs.Prelude.{false};

    ghost number = { 0 };

    ghost rest = { false };
}

/// What is asked of a store: a function of so many pairs of variables, so many leaves, so many nodes over so many levels, which lie evenly among
/// all, and so often the conjunctions of the pairs once more. All but the function is asked for in so many rounds.
#[derive(Clone, Copy, Drop)]
pub struct Tasks {
    pub pairs: u32,
    pub leaves: u32,
    pub levels: u32,
    pub nodes: u32,
    pub hits: u32,
    pub rounds: u32,
}

/// Whether the function of pairs was made, and how many leaves, nodes and conjunctions were there at the last round.
#[derive(Clone, Copy, Drop)]
pub struct Done {
    pub pairs: bool,
    pub leaves: u32,
    pub nodes: u32,
    pub hits: u32,
}

/// The conjunction of two variables.
fn both<G: Grow>(store: &mut G, x: u32, y: u32) -> Result<Edge, Stop>
    requires { (x < (G.view store.old).vars) × (y < (G.view store.old).vars) × (x < 32) × (y < 32) }
    ensures grown { Grown (G.view store.old) (G.view store.new) }
    ensures is { IfOk result (Is Bdd (G.view store.new)) }
{
    let first = store.projection(x);
    let second = store.projection(y);
    and(store, first, second)
}

/// A disjunction of a function and the conjunction of two variables.
fn with_pair<G: Grow>(store: &mut G, f: Edge, x: u32, y: u32) -> Result<Edge, Stop>
    requires f { Is Bdd (G.view store.old) f }
    requires variables { (x < (G.view store.old).vars) × (y < (G.view store.old).vars) × (x < 32) × (y < 32) }
    ensures grown { Grown (G.view store.old) (G.view store.new) }
    ensures is { IfOk result (Is Bdd (G.view store.new)) }
{
    let pair = both(store, x, y)?;
    or(store, f, pair)
}

/// The function x0 xK + x1 x(K+1) + ..
fn function_of_pairs<G: Grow>(store: &mut G, pairs: u32) -> Result<Edge, Stop>
    requires few { pairs ≤ 16 }
    requires vars { 2 * pairs ≤ (G.view store.old).vars }
    requires some { 0 < pairs }
    ensures vars { (G.view store.new).vars ≡ (G.view store.old).vars }
{
    let mut sum = both(store, 0, pairs)?;
    for i in 1..pairs {
        sum = with_pair(store, sum, i, i + pairs)?;
    }
    Ok(sum)
}

/// How many leaves of the first numbers are there, or had room.
fn leaves_there<G: Grow>(store: &mut G, leaves: u32) -> u32
    ensures vars { (G.view store.new).vars ≡ (G.view store.old).vars }
{
    let mut there = 0;
    for value in 0..leaves {
        if store.leaf(i64::from(value)).is_ok() {
            there += 1;
        }
    }
    there
}

/// A node of numbers with two leaves.
fn node_of<G: Grow>(store: &mut G, var: u32, x: u32, y: u32) -> Result<Edge, Stop>
    requires var { (var < (G.view store.old).vars) × (var < 1024) }
    ensures vars { (G.view store.new).vars ≡ (G.view store.old).vars }
{
    let hi = store.leaf(i64::from(x))?;
    let lo = store.leaf(i64::from(y))?;
    store.make(var, hi, lo)
}

/// How many nodes at so many variables are there, or had room. The variables lie evenly among all.
fn nodes_there<G: Grow>(store: &mut G, levels: u32, nodes: u32) -> u32
    ensures vars { (G.view store.new).vars ≡ (G.view store.old).vars }
{
    let vars = store.levels(Kind::Add);
    if levels == 0 || levels > vars || vars > MOST_VARIABLES {
        return 0;
    }
    let stride = vars / levels;
    let mut there = 0;
    for i in 0..nodes {
        let var = i % levels * stride;
        let leaves = i / levels;
        if var < vars && node_of(store, var, leaves % 512, 512 + leaves / 512).is_ok() {
            there += 1;
        }
    }
    there
}

/// How many conjunctions of the pairs are there, of so many that are asked for in turn.
fn hits_there<G: Grow>(store: &mut G, pairs: u32, hits: u32) -> u32
    requires few { pairs ≤ 16 }
    requires vars { 2 * pairs ≤ (G.view store.old).vars }
    ensures vars { (G.view store.new).vars ≡ (G.view store.old).vars }
{
    if pairs == 0 {
        return 0;
    }
    let mut there = 0;
    for i in 0..hits {
        let pair = i % pairs;
        if both(store, pair, pair + pairs).is_ok() {
            there += 1;
        }
    }
    there
}

/// Makes the function of pairs, if there are any, and asks for the leaves, the nodes and the conjunctions.
pub fn work<G: Grow>(store: &mut G, asked: Tasks) -> Done
    requires few { asked.pairs ≤ 16 }
    requires vars { 2 * asked.pairs ≤ (G.view store.old).vars }
{
    let pairs = asked.pairs > 0 && function_of_pairs(store, asked.pairs).is_ok();
    let mut leaves = 0;
    let mut nodes = 0;
    let mut hits = 0;
    for _ in 0..asked.rounds {
        leaves = leaves_there(store, asked.leaves);
        nodes = nodes_there(store, asked.levels, asked.nodes);
        hits = hits_there(store, asked.pairs, asked.hits);
    }
    Done {
        pairs,
        leaves,
        nodes,
        hits,
    }
}
