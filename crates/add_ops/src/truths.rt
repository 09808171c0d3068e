//! Truth functions as functions of numbers, and what functions of numbers tell at each assignment.

ghost use Rattle.std.specs.Prelude.{◌≡◌};

use crate::conversion::Conversion;
use edge_bits::{Edge, Kind, TRUE_SLOT};
use node_store::{Key, numbers};

/// 1 where a truth function holds, and 0 elsewhere, as the evaluator runs it.
#[derive(Drop)]
pub(crate) struct Indicator;

impl Conversion for Indicator {
    ghost use Rattle.std.specs.Prelude.{if◌then◌else◌, pos};
    ghost use Rattle.edge_bits.specs.declared.edges.Kind.TheVariants.{Add, Bdd};

    ghost source = { Bdd };

    ghost target = { Add };

    ghost op = { λ _ b. if b then pos 1 else pos 0 };

    fn at_leaf(&self, number: i64) -> Edge {
        if number == 0 {
            Edge::number_zero()
        } else {
            Edge::number_one()
        }
    }

    fn answer_kind(&self) -> Kind {
        Kind::Add
    }

    fn key(&self, f: Edge) -> Option<Key> {
        Some(key_of(numbers::FROM_BDD, f))
    }

    ghost from_variables = { tt };

    ghost on_variables = { tt };
}

/// Where a function of numbers is not 0, as the evaluator runs it.
#[derive(Drop)]
pub(crate) struct NonZero;

impl Conversion for NonZero {
    ghost use Rattle.std.specs.Prelude.{not};
    ghost use Rattle.edge_bits.specs.declared.edges.Kind.TheVariants.{Add, Bdd};
    ghost use Rattle.function_laws.specs.Numbers.{is_zero};

    ghost source = { Add };

    ghost target = { Bdd };

    ghost op = { λ _ z. not (is_zero z) };

    fn at_leaf(&self, number: i64) -> Edge {
        Edge::new(TRUE_SLOT, number == 0)
    }

    fn answer_kind(&self) -> Kind {
        Kind::Bdd
    }

    fn key(&self, f: Edge) -> Option<Key> {
        Some(key_of(numbers::PATTERN, f))
    }

    ghost from_variables = { tt };

    ghost on_variables = { tt };
}

/// Where a function of numbers reaches a bound, as the evaluator runs it. Its answers stand in the table of the call, since no key has room for the bound.
#[derive(Drop)]
pub(crate) struct LowerBound {
    pub bound: i64,
}

impl Conversion for LowerBound {
    ghost use Rattle.std.specs.Prelude.{int_le};
    ghost use Rattle.edge_bits.specs.declared.edges.Kind.TheVariants.{Add, Bdd};

    ghost source = { Add };

    ghost target = { Bdd };

    ghost op = { λ o z. int_le o.bound z };

    fn at_leaf(&self, number: i64) -> Edge {
        let reaches = self.bound <= number;
        Edge::new(TRUE_SLOT, !reaches)
    }

    fn answer_kind(&self) -> Kind {
        Kind::Bdd
    }

    fn key(&self, _f: Edge) -> Option<Key> {
        None
    }

    ghost from_variables = { tt };

    ghost on_variables = { tt };
}

fn key_of(op: u8, f: Edge) -> Key
    ensures { result ≡ record { op = op; f = f; g = f; h = f } }
{
    Key { op, f, g: f, h: f }
}
