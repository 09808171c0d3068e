//! What a call asks, and what it is answered.

ghost use Rattle.std.specs.Prelude.{◌≡◌, ◌<◌, ◌≤◌};
ghost use Rattle.dd_manager.specs.declared.lists.Lists.{Lists as ListsOf};
ghost use Rattle.dd_manager.specs.declared.requests.Asked.TheVariants as asked;
ghost use Rattle.operator_calls.specs.Taking.{of_lent};
ghost use Rattle.dd_manager.specs.Requests.{Asks, Codes, first, is_foreign as is_other, names_taken as names_by, second, third};

use crate::lists::Lists;
use function_laws::{AddMaking, BddMaking, ExactMaking, Making, Order, ZddMaking};
use store_rows::H;

/// What a call asks: a code, a number, three names with the numbers of their managers, and a value.
#[repr(C)]
#[derive(Clone, Copy, Drop)]
pub struct Request {
    pub call: u32,
    pub number: u32,
    pub f_manager: u32,
    pub f_row: u32,
    pub f_generation: u64,
    pub g_manager: u32,
    pub g_row: u32,
    pub g_generation: u64,
    pub h_manager: u32,
    pub h_row: u32,
    pub h_generation: u64,
    pub value: i64,
}

/// What a call is answered: a status, a number, a name with the number of its manager, and a value.
#[repr(C)]
#[derive(Clone, Copy, Drop)]
pub struct Answer {
    pub status: u32,
    pub number: u32,
    pub manager: u32,
    pub row: u32,
    pub generation: u64,
    pub value: i64,
}

/// The first name.
pub fn first_of(request: &Request) -> H
    ensures { result ≡ first request.now }
{
    H {
        row: request.f_row,
        generation: request.f_generation,
    }
}

/// The second name.
pub fn second_of(request: &Request) -> H
    ensures { result ≡ second request.now }
{
    H {
        row: request.g_row,
        generation: request.g_generation,
    }
}

/// The third name.
pub fn third_of(request: &Request) -> H
    ensures { result ≡ third request.now }
{
    H {
        row: request.h_row,
        generation: request.h_generation,
    }
}

/// What is asked of rows.
#[derive(Clone, Copy, PartialEq, Eq, Debug, Drop)]
pub enum RowCall {
    /// A further row has the function of a row.
    Copy,
    /// A row is let go.
    DropRow,
    /// Whether two rows have one function.
    Same,
    /// The value of a row at the bits that were set.
    Value,
    /// Whether a BDD is true wherever another is.
    Implies,
}

/// What is asked of the node of a row.
#[derive(Clone, Copy, PartialEq, Eq, Debug, Drop)]
pub enum NodeCall {
    /// The kind of the row.
    Kind,
    /// The variable or the element of the node, or the value of a leaf.
    Top,
    /// The then child, as a new row.
    Then,
    /// The else child, as a new row.
    Else,
}

/// What is asked of the levels of an order.
#[derive(Clone, Copy, PartialEq, Eq, Debug, Drop)]
pub enum LevelCall {
    /// The level of a variable, or an element.
    LevelOf,
    /// The variable, or the element, at a level.
    At,
    /// A level and the next are exchanged.
    Swap,
    /// The order is sifted.
    Sift,
}

/// What is told of a list.
#[derive(Clone, Copy, PartialEq, Eq, Debug, Drop)]
pub enum ListCall {
    /// A variable is marked.
    Mark,
    /// The bit of a variable, or an element, is set.
    Bit,
    /// A function is put for a variable.
    Put,
    /// Nothing is listed any more.
    Clear,
}

/// What is asked for.
#[derive(Clone, Copy, PartialEq, Eq, Debug, Drop)]
pub enum Asked {
    /// A function is made.
    Makes,
    /// Something of rows.
    Row(RowCall),
    /// Something of the node of a row.
    Node(NodeCall),
    /// Something of the levels of an order.
    Level(Order, LevelCall),
    /// One thing of a list is told.
    List(ListCall),
    /// What nothing reaches is freed.
    Sweep,
    /// The manager is closed.
    Close,
    /// Nothing that there is.
    Nothing,
}

/// What a code asks for.
pub fn asked_by(call: u32) -> Asked
    ensures { Codes result call }
{
    match call {
        1..=41 => Asked::Makes,
        42 => Asked::Level(Order::Variables, LevelCall::LevelOf),
        43 => Asked::Level(Order::Elements, LevelCall::LevelOf),
        44 => Asked::Level(Order::Variables, LevelCall::At),
        45 => Asked::Level(Order::Elements, LevelCall::At),
        46 => Asked::Level(Order::Variables, LevelCall::Swap),
        47 => Asked::Level(Order::Elements, LevelCall::Swap),
        48 => Asked::Level(Order::Variables, LevelCall::Sift),
        49 => Asked::Level(Order::Elements, LevelCall::Sift),
        50 => Asked::Row(RowCall::Copy),
        51 => Asked::Row(RowCall::DropRow),
        52 => Asked::Row(RowCall::Same),
        53 => Asked::Row(RowCall::Value),
        54 => Asked::Row(RowCall::Implies),
        55 => Asked::Sweep,
        56 => Asked::List(ListCall::Mark),
        57 => Asked::List(ListCall::Clear),
        58 => Asked::List(ListCall::Bit),
        59 => Asked::List(ListCall::Put),
        60 => Asked::Close,
        61 => Asked::Node(NodeCall::Kind),
        62 => Asked::Node(NodeCall::Top),
        63 => Asked::Node(NodeCall::Then),
        64 => Asked::Node(NodeCall::Else),
        _ => Asked::Nothing,
    }
}

/// Whether one of the first names, of so many that a call takes, is of another manager.
pub fn is_foreign(manager: u32, names: u32, request: &Request) -> bool
    ensures { result ≡ is_other manager names request.now }
{
    (0 < names && request.f_manager != manager)
        || (1 < names && request.g_manager != manager)
        || (2 < names && request.h_manager != manager)
}

/// How many names a call takes that makes a function.
pub fn names_taken(call: u32) -> u32
    ensures { result ≡ names_by call }
{
    if call < 8 {
        0
    } else if call < 22 {
        1
    } else if call < 40 {
        2
    } else {
        3
    }
}

/// What is made of no function, by the code of a call.
fn made_of_none<'a>(request: &Request) -> Making<H, &'a [u32], &'a [(u32, H)]>
    requires { (1 ≤ request.now.call) × (request.now.call < 8) }
    ensures { (lists : ListsOf) → Asks (of_lent result) request.now lists }
{
    match request.call {
        1 => Making::Bdd(BddMaking::One),
        2 => Making::Bdd(BddMaking::Zero),
        3 => Making::Bdd(BddMaking::Var(request.number)),
        4 => Making::Add(AddMaking::Constant(request.value)),
        5 => Making::Zdd(ZddMaking::Empty),
        6 => Making::Zdd(ZddMaking::Base),
        7 => Making::Zdd(ZddMaking::Single(request.number)),
        _ => unreachable!(),
    }
}

/// What is made of one function.
fn made_of_one<'a>(request: &Request, lists: &'a Lists) -> Making<H, &'a [u32], &'a [(u32, H)]>
    requires { (8 ≤ request.now.call) × (request.now.call < 22) }
    ensures { Asks (of_lent result) request.now lists.now }
{
    let f = first_of(request);
    match request.call {
        8 => Making::Bdd(BddMaking::Not(f)),
        9 => Making::Bdd(BddMaking::Cofactor(f, request.number, request.value != 0)),
        10 => Making::Bdd(BddMaking::Exists(f, &lists.marks)),
        11 => Making::Bdd(BddMaking::Forall(f, &lists.marks)),
        12 => Making::Bdd(BddMaking::VectorCompose(f, &lists.pairs)),
        13 => Making::Bdd(BddMaking::Support(f)),
        14 => Making::Bdd(BddMaking::AtLeast(f, request.value)),
        15 => Making::Bdd(BddMaking::Pattern(f)),
        16 => Making::Bdd(BddMaking::CoverOf(f)),
        17 => Making::Add(AddMaking::FromBdd(f)),
        18 => Making::Exact(ExactMaking::SumOver(f, request.number)),
        19 => Making::Zdd(ZddMaking::Subset1(f, request.number)),
        20 => Making::Zdd(ZddMaking::Subset0(f, request.number)),
        21 => Making::Zdd(ZddMaking::Change(f, request.number)),
        _ => unreachable!(),
    }
}

/// What is made of two functions.
fn made_of_two<'a>(request: &Request, lists: &'a Lists) -> Making<H, &'a [u32], &'a [(u32, H)]>
    requires { (22 ≤ request.now.call) × (request.now.call < 40) }
    ensures { Asks (of_lent result) request.now lists.now }
{
    let f = first_of(request);
    let g = second_of(request);
    match request.call {
        22 => Making::Bdd(BddMaking::And(f, g)),
        23 => Making::Bdd(BddMaking::Or(f, g)),
        24 => Making::Bdd(BddMaking::Xor(f, g)),
        25 => Making::Bdd(BddMaking::AndExists(f, g, &lists.marks)),
        26 => Making::Bdd(BddMaking::Compose(f, request.number, g)),
        27 => Making::Bdd(BddMaking::Restrict(f, g)),
        28 => Making::Add(AddMaking::Min(f, g)),
        29 => Making::Add(AddMaking::Max(f, g)),
        30 => Making::Add(AddMaking::Threshold(f, g)),
        31 => Making::Exact(ExactMaking::Plus(f, g)),
        32 => Making::Exact(ExactMaking::Minus(f, g)),
        33 => Making::Exact(ExactMaking::Times(f, g)),
        34 => Making::Zdd(ZddMaking::Union(f, g)),
        35 => Making::Zdd(ZddMaking::Meet(f, g)),
        36 => Making::Zdd(ZddMaking::Diff(f, g)),
        37 => Making::Zdd(ZddMaking::Product(f, g)),
        38 => Making::Zdd(ZddMaking::Quotient(f, g)),
        39 => Making::Zdd(ZddMaking::Isop(f, g)),
        _ => unreachable!(),
    }
}

/// What is made of three functions.
fn made_of_three<'a>(request: &Request) -> Making<H, &'a [u32], &'a [(u32, H)]>
    requires { (40 ≤ request.now.call) × (request.now.call ≤ 41) }
    ensures { (lists : ListsOf) → Asks (of_lent result) request.now lists }
{
    let f = first_of(request);
    let g = second_of(request);
    let h = third_of(request);
    match request.call {
        40 => Making::Bdd(BddMaking::Ite(f, g, h)),
        41 => Making::Add(AddMaking::AddIte(f, g, h)),
        _ => unreachable!(),
    }
}

/// What is to be made, by the code of a call that makes a function.
pub fn making_of<'a>(request: &Request, lists: &'a Lists) -> Making<H, &'a [u32], &'a [(u32, H)]>
    requires { Codes asked.Makes request.now.call }
    ensures { Asks (of_lent result) request.now lists.now }
{
    match names_taken(request.call) {
        0 => made_of_none(request),
        1 => made_of_one(request, lists),
        2 => made_of_two(request, lists),
        _ => made_of_three(request),
    }
}
