//! The calls of a session that tell of rows, over its seat and its rows.

ghost use Rattle.std.specs.Prelude.{◌≡◌, ◌≤◌, length, MatchResult};
ghost use Rattle.edge_bits.specs.declared.edges.Kind.TheVariants as kinds;
ghost use Rattle.function_laws.specs.declared.history.Call.TheVariants as calls;
ghost use Rattle.function_laws.specs.declared.history.Reply.TheVariants as replies;
ghost use Rattle.seat_guard.specs.Passes.{known, shares};
ghost use Rattle.dd_session.specs.Sessions.{Called, IsAsBefore, IsNamed};
ghost use Rattle.dd_session.specs.Turns.{HasPlace, IsCalm, Keeps, seen_of};
ghost use Rattle.dd_session.specs.Walking.{bits_of};
ghost use Rattle.dd_session.specs.Works.{StoresNothing};

use crate::answers::Placed;
use crate::book::Book;
use crate::drawing::{edge_at, finish};
use crate::nodeless::{implies, walked};
use crate::request::{Answer, Request};
use edge_bits::{Kind, Memory};
use function_laws::Name;
use seat_guard::seat::{Guard, Pass};
use shared_store::{Shared, put_back};
use std::sync::Wait;

/// Whether the second of two rows is true wherever the first is.
pub fn leq<R: Wait>(
    rt: &R,
    guard: &Guard<Shared>,
    pass: &mut Pass<Shared>,
    book: &mut Book,
    f: Name,
    g: Name,
) -> Result<Placed<bool>, Memory>
    requires idle { IsCalm guard.now pass.old }
    requires keeps { Keeps (known pass.old) book.old }
    requires place { HasPlace (known pass.old) }
    requires first { IsNamed kinds.Bdd (known pass.old).rows f }
    requires second { IsNamed kinds.Bdd (known pass.old).rows g }
    ensures idle { IsCalm guard.now pass.new }
    ensures stands { shares pass.new ≡ shares pass.old }
    ensures keeps { Keeps (known pass.new) book.new }
    ensures told { MatchResult result (λ placed. Called (seen_of pass.old book.old) (seen_of pass.new book.new) (calls.Leq f g) (replies.Truth placed.value) placed.place) (λ _. IsAsBefore (seen_of pass.old book.old) (seen_of pass.new book.new)) }
    ensures stored { StoresNothing (seen_of pass.old book.old) (seen_of pass.new book.new) }
    ensures rows { book.new.rows ≡ book.old.rows }
{
    let first = edge_at(pass, book, f);
    let second = edge_at(pass, book, g);
    let mut shared = guard.take(rt, pass);
    match implies(&mut shared, first, second) {
        Ok(told) => {
            let place = finish(
                guard,
                pass,
                book,
                shared,
                Request::Leq(f, g),
                Answer::Truth(told),
            );
            Ok(Placed { place, value: told })
        }
        Err(Memory) => {
            put_back(guard, pass, shared);
            Err(Memory)
        }
    }
}

/// The value of a row at these bits, of which so many are read: one for each variable, or for each element.
pub fn eval<R: Wait>(
    rt: &R,
    guard: &Guard<Shared>,
    pass: &mut Pass<Shared>,
    book: &mut Book,
    kind: Kind,
    f: Name,
    bits: &[bool],
    count: usize,
) -> Placed<i64>
    requires idle { IsCalm guard.now pass.old }
    requires keeps { Keeps (known pass.old) book.old }
    requires place { HasPlace (known pass.old) }
    requires live { IsNamed kind (known pass.old).rows f }
    requires count { count ≡ bits_of kind (seen_of pass.old book.old).manager }
    requires bits { count ≤ length bits.now }
    ensures idle { IsCalm guard.now pass.new }
    ensures stands { shares pass.new ≡ shares pass.old }
    ensures keeps { Keeps (known pass.new) book.new }
    ensures told { Called (seen_of pass.old book.old) (seen_of pass.new book.new) (calls.Eval f bits.now) (replies.Value result.value) result.place }
    ensures stored { StoresNothing (seen_of pass.old book.old) (seen_of pass.new book.new) }
    ensures rows { book.new.rows ≡ book.old.rows }
{
    let edge = edge_at(pass, book, f);
    let mut shared = guard.take(rt, pass);
    let value = walked(&mut shared, kind, edge, &bits[..count]);
    let place = finish(
        guard,
        pass,
        book,
        shared,
        Request::Eval(f, bits),
        Answer::Value(value),
    );
    Placed { place, value }
}
