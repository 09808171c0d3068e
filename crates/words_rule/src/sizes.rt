//! How great a table is.
ghost use Rattle.std.specs.Prelude.{◌≡◌, ◌+◌, ◌*◌};

/// As many words stand before the first turn of a level.
pub(crate) const TURNS: usize = 6;

/// How many variables, elements, slots and heads a table has, and where the words of its slots begin: behind the turns, the orders and the
/// levels.
#[derive(Clone, Copy, Drop)]
pub struct Sizes {
    pub vars: u32,
    pub elements: u32,
    pub slots: u32,
    pub heads: u32,
    first: usize,
    ghost first_is: { first ≡ 7 + (vars + elements) * 3 },
}

impl Sizes {
    /// Those of a table with so many variables, elements, slots and heads.
    pub fn new(vars: u32, elements: u32, slots: u32, heads: u32) -> Sizes
        ensures { (result.vars ≡ vars) × (result.elements ≡ elements) × (result.slots ≡ slots) × (result.heads ≡ heads) }
    {
        let places = vars as usize + elements as usize;
        Sizes {
            vars,
            elements,
            slots,
            heads,
            first: TURNS + 1 + places * 3,
        }
    }

    /// The first of the words of slots.
    pub fn first(&self) -> usize
        ensures { result ≡ 7 + (self.now.vars + self.now.elements) * 3 }
    {
        self.first
    }
}
