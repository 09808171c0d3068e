//! The calls of a session that tell of rows: whether one implies another, and the value of one.

ghost use Rattle.std.specs.Prelude.{IfOk, IsOk, MatchResult, ◌<◌, ◌≡◌, ◌≤◌, length, true};
ghost use Rattle.edge_bits.specs.declared.edges.Kind.{Kind as KindOf};
ghost use Rattle.edge_bits.specs.declared.edges.Kind.TheVariants as kinds;
ghost use Rattle.function_laws.specs.declared.history.Call.TheVariants as calls;
ghost use Rattle.function_laws.specs.declared.history.Reply.TheVariants as replies;
ghost use Rattle.dd_session.specs.Sessions.{Called, HasRoom, IsAsBefore, IsLiveAs};
ghost use Rattle.dd_session.specs.Walking.{bits_of};
ghost use Rattle.dd_session.specs.Works.{StoresNothing};

use crate::answers::{Again, Placed};
use crate::held;
use crate::manager::Manager;
use crate::session::{Session, take_seat};
use edge_bits::{Kind, Memory};
use function_laws::Order;
use handle_count::H;
use std::sync::Wait;

/// How many bits an evaluation of a kind's function reads: one for each variable, or for each element.
fn bits_read(manager: &Manager, kind: Kind) -> usize
    ensures { result ≡ bits_of kind manager.now }
{
    let order = match kind {
        Kind::Bdd | Kind::Add => Order::Variables,
        Kind::Zdd => Order::Elements,
    };
    manager.levels(order) as usize
}

impl Session {
    /// Whether the second of two rows is true wherever the first is. It makes no node, so that only want of memory leaves it
    /// without an answer.
    pub fn leq<R: Wait>(
        &mut self,
        rt: &R,
        manager: &Manager,
        f: H,
        g: H,
    ) -> Result<Placed<bool>, Memory>
        requires own { self.old.manager ≡ manager.now }
        requires room { HasRoom self.old }
        requires first { IsLiveAs kinds.Bdd self.old f }
        requires second { IsLiveAs kinds.Bdd self.old g }
        ensures told { MatchResult result (λ placed. Called self.old self.new (calls.Leq f g) (replies.Truth placed.value) placed.place) (λ _. IsAsBefore self.old self.new) }
        ensures stored { StoresNothing self.old self.new }
        ensures spare { self.new.spare ≡ self.old.spare }
    {
        let pass = take_seat(&mut self.seat);
        let (pass, told) = held::leq(rt, &manager.guard, pass, &mut self.book, f, g);
        self.seat = Some(pass);
        told
    }

    /// The value of a row: of a BDD 0 or 1, and of an ADD its number, where bit i is the value of variable i; of a family 1 where the
    /// elements whose bits are set are a member, and 0 else. There are at least as many bits as the manager was opened with variables,
    /// or elements; further bits have no effect. While sessions take turns it is never refused.
    pub fn eval<R: Wait>(
        &mut self,
        rt: &R,
        manager: &Manager,
        f: H,
        bits: &[bool],
    ) -> Result<Placed<i64>, Again>
        requires own { self.old.manager ≡ manager.now }
        requires room { HasRoom self.old }
        requires live { (k : KindOf) × IsLiveAs k self.old f × (bits_of k self.old.manager ≤ length bits.now) }
        ensures ok { IsOk result }
        ensures told { IfOk result (λ placed. Called self.old self.new (calls.Eval f bits.now) (replies.Value placed.value) placed.place) }
        ensures stored { StoresNothing self.old self.new }
        ensures spare { self.new.spare ≡ self.old.spare }
    {
        let kind = self.kind(f);
        let count = bits_read(manager, kind);
        let pass = take_seat(&mut self.seat);
        let (pass, placed) = held::eval(
            rt,
            &manager.guard,
            pass,
            &mut self.book,
            kind,
            f,
            bits,
            count,
        );
        self.seat = Some(pass);
        Ok(placed)
    }
}
