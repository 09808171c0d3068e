//! The calls of a session that make a row of BDDs.

ghost use Rattle.function_laws.specs.declared.making.Making.TheVariants as makings;
ghost use Rattle.function_laws.specs.declared.making.BddMaking.TheVariants as bdds;
ghost use Rattle.dd_session.specs.MadeRows.{MakesRow, MayMake};

use crate::answers::{Placed, Refusal};
use crate::manager::Manager;
use crate::session::Session;
use function_laws::{BddMaking, Making};
use handle_count::H;
use std::sync::Wait;

impl Session {
    /// Logic one, as a new row.
    pub fn one<R: Wait>(&mut self, rt: &R, manager: &Manager) -> Result<Placed<H>, Refusal>
        requires { MayMake self.old manager.now (makings.Bdd bdds.One) }
        ensures { MakesRow self.old self.new (makings.Bdd bdds.One) result }
    {
        self.make_row(rt, manager, Making::Bdd(BddMaking::One))
    }

    /// Logic zero, as a new row.
    pub fn zero<R: Wait>(&mut self, rt: &R, manager: &Manager) -> Result<Placed<H>, Refusal>
        requires { MayMake self.old manager.now (makings.Bdd bdds.Zero) }
        ensures { MakesRow self.old self.new (makings.Bdd bdds.Zero) result }
    {
        self.make_row(rt, manager, Making::Bdd(BddMaking::Zero))
    }

    /// The projection of a variable, as a new row.
    pub fn var<R: Wait>(&mut self, rt: &R, manager: &Manager, v: u32) -> Result<Placed<H>, Refusal>
        requires { MayMake self.old manager.now (makings.Bdd (bdds.Var v)) }
        ensures { MakesRow self.old self.new (makings.Bdd (bdds.Var v)) result }
    {
        self.make_row(rt, manager, Making::Bdd(BddMaking::Var(v)))
    }

    /// The conjunction of two rows, as a new row.
    pub fn and<R: Wait>(
        &mut self,
        rt: &R,
        manager: &Manager,
        f: H,
        g: H,
    ) -> Result<Placed<H>, Refusal>
        requires { MayMake self.old manager.now (makings.Bdd (bdds.And f g)) }
        ensures { MakesRow self.old self.new (makings.Bdd (bdds.And f g)) result }
    {
        self.make_row(rt, manager, Making::Bdd(BddMaking::And(f, g)))
    }

    /// The disjunction of two rows, as a new row.
    pub fn or<R: Wait>(
        &mut self,
        rt: &R,
        manager: &Manager,
        f: H,
        g: H,
    ) -> Result<Placed<H>, Refusal>
        requires { MayMake self.old manager.now (makings.Bdd (bdds.Or f g)) }
        ensures { MakesRow self.old self.new (makings.Bdd (bdds.Or f g)) result }
    {
        self.make_row(rt, manager, Making::Bdd(BddMaking::Or(f, g)))
    }

    /// The function that holds where just one of two rows does, as a new row.
    pub fn xor<R: Wait>(
        &mut self,
        rt: &R,
        manager: &Manager,
        f: H,
        g: H,
    ) -> Result<Placed<H>, Refusal>
        requires { MayMake self.old manager.now (makings.Bdd (bdds.Xor f g)) }
        ensures { MakesRow self.old self.new (makings.Bdd (bdds.Xor f g)) result }
    {
        self.make_row(rt, manager, Making::Bdd(BddMaking::Xor(f, g)))
    }

    /// The second of three rows where the first holds, and the third elsewhere, as a new row.
    pub fn ite<R: Wait>(
        &mut self,
        rt: &R,
        manager: &Manager,
        f: H,
        g: H,
        h: H,
    ) -> Result<Placed<H>, Refusal>
        requires { MayMake self.old manager.now (makings.Bdd (bdds.Ite f g h)) }
        ensures { MakesRow self.old self.new (makings.Bdd (bdds.Ite f g h)) result }
    {
        self.make_row(rt, manager, Making::Bdd(BddMaking::Ite(f, g, h)))
    }

    /// A row with a variable set to a bit, as a new row.
    pub fn cofactor<R: Wait>(
        &mut self,
        rt: &R,
        manager: &Manager,
        f: H,
        v: u32,
        bit: bool,
    ) -> Result<Placed<H>, Refusal>
        requires { MayMake self.old manager.now (makings.Bdd (bdds.Cofactor f v bit)) }
        ensures { MakesRow self.old self.new (makings.Bdd (bdds.Cofactor f v bit)) result }
    {
        self.make_row(rt, manager, Making::Bdd(BddMaking::Cofactor(f, v, bit)))
    }

    /// The disjunction of both cofactors of a row by each variable of a list, which may have one twice, as a new row.
    pub fn exists<R: Wait>(
        &mut self,
        rt: &R,
        manager: &Manager,
        f: H,
        vars: &[u32],
    ) -> Result<Placed<H>, Refusal>
        requires { MayMake self.old manager.now (makings.Bdd (bdds.Exists f vars.now)) }
        ensures { MakesRow self.old self.new (makings.Bdd (bdds.Exists f vars.now)) result }
    {
        self.make_row(rt, manager, Making::Bdd(BddMaking::Exists(f, vars)))
    }

    /// The conjunction of both cofactors of a row by each variable of a list, which may have one twice, as a new row.
    pub fn forall<R: Wait>(
        &mut self,
        rt: &R,
        manager: &Manager,
        f: H,
        vars: &[u32],
    ) -> Result<Placed<H>, Refusal>
        requires { MayMake self.old manager.now (makings.Bdd (bdds.Forall f vars.now)) }
        ensures { MakesRow self.old self.new (makings.Bdd (bdds.Forall f vars.now)) result }
    {
        self.make_row(rt, manager, Making::Bdd(BddMaking::Forall(f, vars)))
    }

    /// `exists` of the conjunction of two rows, as a new row.
    pub fn and_exists<R: Wait>(
        &mut self,
        rt: &R,
        manager: &Manager,
        f: H,
        g: H,
        vars: &[u32],
    ) -> Result<Placed<H>, Refusal>
        requires { MayMake self.old manager.now (makings.Bdd (bdds.AndExists f g vars.now)) }
        ensures { MakesRow self.old self.new (makings.Bdd (bdds.AndExists f g vars.now)) result }
    {
        self.make_row(rt, manager, Making::Bdd(BddMaking::AndExists(f, g, vars)))
    }

    /// A row with another put for a variable, as a new row.
    pub fn compose<R: Wait>(
        &mut self,
        rt: &R,
        manager: &Manager,
        f: H,
        v: u32,
        g: H,
    ) -> Result<Placed<H>, Refusal>
        requires { MayMake self.old manager.now (makings.Bdd (bdds.Compose f v g)) }
        ensures { MakesRow self.old self.new (makings.Bdd (bdds.Compose f v g)) result }
    {
        self.make_row(rt, manager, Making::Bdd(BddMaking::Compose(f, v, g)))
    }

    /// The product of the variables on which a row depends, as a new row.
    pub fn support<R: Wait>(
        &mut self,
        rt: &R,
        manager: &Manager,
        f: H,
    ) -> Result<Placed<H>, Refusal>
        requires { MayMake self.old manager.now (makings.Bdd (bdds.Support f)) }
        ensures { MakesRow self.old self.new (makings.Bdd (bdds.Support f)) result }
    {
        self.make_row(rt, manager, Making::Bdd(BddMaking::Support(f)))
    }

    /// The complement of a row, as a new row.
    pub fn not<R: Wait>(&mut self, rt: &R, manager: &Manager, f: H) -> Result<Placed<H>, Refusal>
        requires { MayMake self.old manager.now (makings.Bdd (bdds.Not f)) }
        ensures { MakesRow self.old self.new (makings.Bdd (bdds.Not f)) result }
    {
        self.make_row(rt, manager, Making::Bdd(BddMaking::Not(f)))
    }

    /// A row with other rows put for variables, all at once, as a new row. No variable stands twice.
    pub fn vector_compose<R: Wait>(
        &mut self,
        rt: &R,
        manager: &Manager,
        f: H,
        pairs: &[(u32, H)],
    ) -> Result<Placed<H>, Refusal>
        requires { MayMake self.old manager.now (makings.Bdd (bdds.VectorCompose f pairs.now)) }
        ensures { MakesRow self.old self.new (makings.Bdd (bdds.VectorCompose f pairs.now)) result }
    {
        self.make_row(rt, manager, Making::Bdd(BddMaking::VectorCompose(f, pairs)))
    }

    /// One of the functions that agree with a row where another holds (Coudert and Madre 1990), as a new row: it depends on no
    /// variable on which the first does not. Another order of the variables may give another such function.
    pub fn restrict<R: Wait>(
        &mut self,
        rt: &R,
        manager: &Manager,
        f: H,
        g: H,
    ) -> Result<Placed<H>, Refusal>
        requires { MayMake self.old manager.now (makings.Bdd (bdds.Restrict f g)) }
        ensures { MakesRow self.old self.new (makings.Bdd (bdds.Restrict f g)) result }
    {
        self.make_row(rt, manager, Making::Bdd(BddMaking::Restrict(f, g)))
    }

    /// The function of a row's family as a cover, as a new row: it is true where all literals of some combination are (Minato 1993).
    /// Element 2v is the variable v, 2v + 1 its complement; elements beyond those of the variables are passed over. There are at
    /// least twice as many elements as variables.
    pub fn cover_of<R: Wait>(
        &mut self,
        rt: &R,
        manager: &Manager,
        p: H,
    ) -> Result<Placed<H>, Refusal>
        requires { MayMake self.old manager.now (makings.Bdd (bdds.CoverOf p)) }
        ensures { MakesRow self.old self.new (makings.Bdd (bdds.CoverOf p)) result }
    {
        self.make_row(rt, manager, Making::Bdd(BddMaking::CoverOf(p)))
    }
}
