//! The calls of a session that make a row of functions of numbers.

ghost use Rattle.function_laws.specs.declared.making.Making.TheVariants as makings;
ghost use Rattle.function_laws.specs.declared.making.BddMaking.TheVariants as bdds;
ghost use Rattle.function_laws.specs.declared.making.AddMaking.TheVariants as adds;
ghost use Rattle.function_laws.specs.declared.making.ExactMaking.TheVariants as exacts;
ghost use Rattle.dd_session.specs.MadeRows.{MakesOrExceeds, MakesRow, MayMake};

use crate::answers::{Placed, Refusal};
use crate::manager::Manager;
use crate::session::Session;
use function_laws::{AddMaking, BddMaking, ExactMaking, Making};
use handle_count::H;
use operator_calls::Overflow;
use std::sync::Wait;

impl Session {
    /// The constant function of a number, from -2^46 to 2^46 - 1, as a new row.
    pub fn constant<R: Wait>(
        &mut self,
        rt: &R,
        manager: &Manager,
        value: i64,
    ) -> Result<Placed<H>, Refusal>
        requires { MayMake self.old manager.now (makings.Add (adds.Constant value)) }
        ensures { MakesRow self.old self.new (makings.Add (adds.Constant value)) result }
    {
        self.make_row(rt, manager, Making::Add(AddMaking::Constant(value)))
    }

    /// The function that is 1 where a row holds and 0 elsewhere, as a new row.
    pub fn from_bdd<R: Wait>(
        &mut self,
        rt: &R,
        manager: &Manager,
        f: H,
    ) -> Result<Placed<H>, Refusal>
        requires { MayMake self.old manager.now (makings.Add (adds.FromBdd f)) }
        ensures { MakesRow self.old self.new (makings.Add (adds.FromBdd f)) result }
    {
        self.make_row(rt, manager, Making::Add(AddMaking::FromBdd(f)))
    }

    /// The lesser value of two rows at each assignment, as a new row.
    pub fn min<R: Wait>(
        &mut self,
        rt: &R,
        manager: &Manager,
        f: H,
        g: H,
    ) -> Result<Placed<H>, Refusal>
        requires { MayMake self.old manager.now (makings.Add (adds.Min f g)) }
        ensures { MakesRow self.old self.new (makings.Add (adds.Min f g)) result }
    {
        self.make_row(rt, manager, Making::Add(AddMaking::Min(f, g)))
    }

    /// The greater value of two rows at each assignment, as a new row.
    pub fn max<R: Wait>(
        &mut self,
        rt: &R,
        manager: &Manager,
        f: H,
        g: H,
    ) -> Result<Placed<H>, Refusal>
        requires { MayMake self.old manager.now (makings.Add (adds.Max f g)) }
        ensures { MakesRow self.old self.new (makings.Add (adds.Max f g)) result }
    {
        self.make_row(rt, manager, Making::Add(AddMaking::Max(f, g)))
    }

    /// The first of two rows where it is at least the second, and 0 elsewhere, as a new row.
    pub fn threshold<R: Wait>(
        &mut self,
        rt: &R,
        manager: &Manager,
        f: H,
        g: H,
    ) -> Result<Placed<H>, Refusal>
        requires { MayMake self.old manager.now (makings.Add (adds.Threshold f g)) }
        ensures { MakesRow self.old self.new (makings.Add (adds.Threshold f g)) result }
    {
        self.make_row(rt, manager, Making::Add(AddMaking::Threshold(f, g)))
    }

    /// The second of three rows where the first, a BDD, holds, and the third elsewhere, as a new row.
    pub fn add_ite<R: Wait>(
        &mut self,
        rt: &R,
        manager: &Manager,
        f: H,
        g: H,
        h: H,
    ) -> Result<Placed<H>, Refusal>
        requires { MayMake self.old manager.now (makings.Add (adds.AddIte f g h)) }
        ensures { MakesRow self.old self.new (makings.Add (adds.AddIte f g h)) result }
    {
        self.make_row(rt, manager, Making::Add(AddMaking::AddIte(f, g, h)))
    }

    /// Where a row is at least a number, which may be any, as a new row.
    pub fn at_least<R: Wait>(
        &mut self,
        rt: &R,
        manager: &Manager,
        f: H,
        value: i64,
    ) -> Result<Placed<H>, Refusal>
        requires { MayMake self.old manager.now (makings.Bdd (bdds.AtLeast f value)) }
        ensures { MakesRow self.old self.new (makings.Bdd (bdds.AtLeast f value)) result }
    {
        self.make_row(rt, manager, Making::Bdd(BddMaking::AtLeast(f, value)))
    }

    /// Where a row is not 0, as a new row.
    pub fn pattern<R: Wait>(
        &mut self,
        rt: &R,
        manager: &Manager,
        f: H,
    ) -> Result<Placed<H>, Refusal>
        requires { MayMake self.old manager.now (makings.Bdd (bdds.Pattern f)) }
        ensures { MakesRow self.old self.new (makings.Bdd (bdds.Pattern f)) result }
    {
        self.make_row(rt, manager, Making::Bdd(BddMaking::Pattern(f)))
    }

    /// The sum of two rows, as a new row, or Overflow where a value is below -2^46 or above 2^46 - 1.
    pub fn plus<R: Wait>(
        &mut self,
        rt: &R,
        manager: &Manager,
        f: H,
        g: H,
    ) -> Result<Placed<Result<H, Overflow>>, Refusal>
        requires { MayMake self.old manager.now (makings.Exact (exacts.Plus f g)) }
        ensures { MakesOrExceeds self.old self.new (makings.Exact (exacts.Plus f g)) result }
    {
        self.make_exact(rt, manager, Making::Exact(ExactMaking::Plus(f, g)))
    }

    /// The first of two rows less the second, as a new row, or Overflow where a value is below -2^46 or above 2^46 - 1.
    pub fn minus<R: Wait>(
        &mut self,
        rt: &R,
        manager: &Manager,
        f: H,
        g: H,
    ) -> Result<Placed<Result<H, Overflow>>, Refusal>
        requires { MayMake self.old manager.now (makings.Exact (exacts.Minus f g)) }
        ensures { MakesOrExceeds self.old self.new (makings.Exact (exacts.Minus f g)) result }
    {
        self.make_exact(rt, manager, Making::Exact(ExactMaking::Minus(f, g)))
    }

    /// The product of two rows, as a new row, or Overflow where a value is below -2^46 or above 2^46 - 1.
    pub fn times<R: Wait>(
        &mut self,
        rt: &R,
        manager: &Manager,
        f: H,
        g: H,
    ) -> Result<Placed<Result<H, Overflow>>, Refusal>
        requires { MayMake self.old manager.now (makings.Exact (exacts.Times f g)) }
        ensures { MakesOrExceeds self.old self.new (makings.Exact (exacts.Times f g)) result }
    {
        self.make_exact(rt, manager, Making::Exact(ExactMaking::Times(f, g)))
    }

    /// The sum of both cofactors of a row by a variable, as a new row, or Overflow where a value is below -2^46 or above 2^46 - 1.
    pub fn sum_over<R: Wait>(
        &mut self,
        rt: &R,
        manager: &Manager,
        f: H,
        v: u32,
    ) -> Result<Placed<Result<H, Overflow>>, Refusal>
        requires { MayMake self.old manager.now (makings.Exact (exacts.SumOver f v)) }
        ensures { MakesOrExceeds self.old self.new (makings.Exact (exacts.SumOver f v)) result }
    {
        self.make_exact(rt, manager, Making::Exact(ExactMaking::SumOver(f, v)))
    }
}
