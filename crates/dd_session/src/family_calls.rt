//! The calls of a session that make a row of families.

ghost use Rattle.function_laws.specs.declared.making.Making.TheVariants as makings;
ghost use Rattle.function_laws.specs.declared.making.ZddMaking.TheVariants as zdds;
ghost use Rattle.dd_session.specs.MadeRows.{MakesOrIsApart, MakesRow, MayMake};

use crate::answers::{Apart, Placed, Refusal};
use crate::manager::Manager;
use crate::session::Session;
use function_laws::{Making, ZddMaking};
use handle_count::H;
use operator_calls::Unmade;
use std::sync::Wait;

impl Session {
    /// The family without members, as a new row.
    pub fn empty<R: Wait>(&mut self, rt: &R, manager: &Manager) -> Result<Placed<H>, Refusal>
        requires { MayMake self.old manager.now (makings.Zdd zdds.Empty) }
        ensures { MakesRow self.old self.new (makings.Zdd zdds.Empty) result }
    {
        self.make_row(rt, manager, Making::Zdd(ZddMaking::Empty))
    }

    /// The family of the combination of no element, as a new row.
    pub fn base<R: Wait>(&mut self, rt: &R, manager: &Manager) -> Result<Placed<H>, Refusal>
        requires { MayMake self.old manager.now (makings.Zdd zdds.Base) }
        ensures { MakesRow self.old self.new (makings.Zdd zdds.Base) result }
    {
        self.make_row(rt, manager, Making::Zdd(ZddMaking::Base))
    }

    /// The family of the combination of one element, as a new row.
    pub fn single<R: Wait>(
        &mut self,
        rt: &R,
        manager: &Manager,
        e: u32,
    ) -> Result<Placed<H>, Refusal>
        requires { MayMake self.old manager.now (makings.Zdd (zdds.Single e)) }
        ensures { MakesRow self.old self.new (makings.Zdd (zdds.Single e)) result }
    {
        self.make_row(rt, manager, Making::Zdd(ZddMaking::Single(e)))
    }

    /// The members of either of two rows, as a new row.
    pub fn union<R: Wait>(
        &mut self,
        rt: &R,
        manager: &Manager,
        p: H,
        q: H,
    ) -> Result<Placed<H>, Refusal>
        requires { MayMake self.old manager.now (makings.Zdd (zdds.Union p q)) }
        ensures { MakesRow self.old self.new (makings.Zdd (zdds.Union p q)) result }
    {
        self.make_row(rt, manager, Making::Zdd(ZddMaking::Union(p, q)))
    }

    /// The members of both of two rows, as a new row.
    pub fn meet<R: Wait>(
        &mut self,
        rt: &R,
        manager: &Manager,
        p: H,
        q: H,
    ) -> Result<Placed<H>, Refusal>
        requires { MayMake self.old manager.now (makings.Zdd (zdds.Meet p q)) }
        ensures { MakesRow self.old self.new (makings.Zdd (zdds.Meet p q)) result }
    {
        self.make_row(rt, manager, Making::Zdd(ZddMaking::Meet(p, q)))
    }

    /// The members of the first of two rows that the second lacks, as a new row.
    pub fn diff<R: Wait>(
        &mut self,
        rt: &R,
        manager: &Manager,
        p: H,
        q: H,
    ) -> Result<Placed<H>, Refusal>
        requires { MayMake self.old manager.now (makings.Zdd (zdds.Diff p q)) }
        ensures { MakesRow self.old self.new (makings.Zdd (zdds.Diff p q)) result }
    {
        self.make_row(rt, manager, Making::Zdd(ZddMaking::Diff(p, q)))
    }

    /// The members of a row with an element, without it, as a new row.
    pub fn subset1<R: Wait>(
        &mut self,
        rt: &R,
        manager: &Manager,
        p: H,
        e: u32,
    ) -> Result<Placed<H>, Refusal>
        requires { MayMake self.old manager.now (makings.Zdd (zdds.Subset1 p e)) }
        ensures { MakesRow self.old self.new (makings.Zdd (zdds.Subset1 p e)) result }
    {
        self.make_row(rt, manager, Making::Zdd(ZddMaking::Subset1(p, e)))
    }

    /// The members of a row without an element, as a new row.
    pub fn subset0<R: Wait>(
        &mut self,
        rt: &R,
        manager: &Manager,
        p: H,
        e: u32,
    ) -> Result<Placed<H>, Refusal>
        requires { MayMake self.old manager.now (makings.Zdd (zdds.Subset0 p e)) }
        ensures { MakesRow self.old self.new (makings.Zdd (zdds.Subset0 p e)) result }
    {
        self.make_row(rt, manager, Making::Zdd(ZddMaking::Subset0(p, e)))
    }

    /// The members of a row with an element toggled in each, as a new row.
    pub fn change<R: Wait>(
        &mut self,
        rt: &R,
        manager: &Manager,
        p: H,
        e: u32,
    ) -> Result<Placed<H>, Refusal>
        requires { MayMake self.old manager.now (makings.Zdd (zdds.Change p e)) }
        ensures { MakesRow self.old self.new (makings.Zdd (zdds.Change p e)) result }
    {
        self.make_row(rt, manager, Making::Zdd(ZddMaking::Change(p, e)))
    }

    /// The unions of a member of each of two rows, as a new row.
    pub fn product<R: Wait>(
        &mut self,
        rt: &R,
        manager: &Manager,
        p: H,
        q: H,
    ) -> Result<Placed<H>, Refusal>
        requires { MayMake self.old manager.now (makings.Zdd (zdds.Product p q)) }
        ensures { MakesRow self.old self.new (makings.Zdd (zdds.Product p q)) result }
    {
        self.make_row(rt, manager, Making::Zdd(ZddMaking::Product(p, q)))
    }

    /// What gives, with each member of the second of two rows and disjoint from it, a member of the first; it is empty where the second is, as a new row.
    pub fn quotient<R: Wait>(
        &mut self,
        rt: &R,
        manager: &Manager,
        p: H,
        q: H,
    ) -> Result<Placed<H>, Refusal>
        requires { MayMake self.old manager.now (makings.Zdd (zdds.Quotient p q)) }
        ensures { MakesRow self.old self.new (makings.Zdd (zdds.Quotient p q)) result }
    {
        self.make_row(rt, manager, Making::Zdd(ZddMaking::Quotient(p, q)))
    }

    /// An irredundant cover between two rows (Morreale 1970, Minato 1993), as a new row, or Apart where the first does not hold only
    /// where the second does. Some combination fits where the first holds, none where the second does not, and no combination and no
    /// literal of one can be left out. Element 2v is the variable v, 2v + 1 its complement; there are at least twice as many elements
    /// as variables. Another order of the variables may give another such family.
    pub fn isop<R: Wait>(
        &mut self,
        rt: &R,
        manager: &Manager,
        lower: H,
        upper: H,
    ) -> Result<Placed<Result<H, Apart>>, Refusal>
        requires { MayMake self.old manager.now (makings.Zdd (zdds.Isop lower upper)) }
        ensures { MakesOrIsApart self.old self.new (makings.Zdd (zdds.Isop lower upper)) result }
    {
        let made = self.make(rt, manager, Making::Zdd(ZddMaking::Isop(lower, upper)))?;
        let place = made.place;
        match made.value {
            Ok(name) => Ok(Placed {
                place,
                value: Ok(name),
            }),
            Err(Unmade::Apart) => Ok(Placed {
                place,
                value: Err(Apart),
            }),
            Err(Unmade::Overflow) => unreachable!(),
        }
    }
}
