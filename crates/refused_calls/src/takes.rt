//! Whether a session may make a function of its rows.

ghost use Rattle.std.specs.Prelude.{◌≡◌, IsTrue};
ghost use Rattle.edge_bits.specs.declared.edges.Kind.TheVariants as kinds;
ghost use Rattle.function_laws.specs.declared.making.Making.TheVariants as makings;
ghost use Rattle.operator_calls.specs.Taking.{of_lent};
ghost use Rattle.dd_session.specs.MadeRows.{HasTaken};
ghost use Rattle.dd_session.specs.Sessions.{HasRoom, IsLiveAs};

use crate::tables::{ELEMENTS, VARIABLES};
use dd_session::{H, Session};
use edge_bits::Kind;
use function_laws::{AddMaking, BddMaking, ExactMaking, Making, ZddMaking};

/// Whether the session has few rows and has made few calls.
pub fn has_room(session: &Session) -> bool
    ensures { IsTrue result → HasRoom session.now }
{
    session.live() < 1000 && session.calls() < 1_000_000
}

/// Whether a name is that of a row of the kind.
pub fn is_of(session: &Session, kind: Kind, h: H) -> bool
    ensures { IsTrue result → IsLiveAs kind session.now h }
{
    if !session.is_live(h) {
        return false;
    }
    session.kind(h) == kind
}

/// Whether two names are those of rows of the kind.
pub fn are_two(session: &Session, kind: Kind, f: H, g: H) -> bool
    ensures { IsTrue result → IsLiveAs kind session.now f × IsLiveAs kind session.now g }
{
    is_of(session, kind, f) && is_of(session, kind, g)
}

/// Whether three names are those of rows of BDDs.
pub fn are_three(session: &Session, f: H, g: H, h: H) -> bool
    ensures { IsTrue result → IsLiveAs kinds.Bdd session.now f × IsLiveAs kinds.Bdd session.now g × IsLiveAs kinds.Bdd session.now h }
{
    is_of(session, Kind::Bdd, f) && are_two(session, Kind::Bdd, g, h)
}

/// Whether a BDD may be made of rows, by the operations that are tried, but for the one that takes pairs.
fn takes_bdd(session: &Session, making: &BddMaking<H, &[u32], &[(u32, H)]>) -> bool
    requires { (session.now.manager.vars ≡ 3) × (session.now.manager.elements ≡ 6) }
    ensures { IsTrue result → HasTaken session.now (of_lent (makings.Bdd making.now)) }
{
    match making {
        BddMaking::One => true,
        BddMaking::Var(v) => *v < VARIABLES,
        BddMaking::Not(f) => is_of(session, Kind::Bdd, *f),
        BddMaking::And(f, g) => are_two(session, Kind::Bdd, *f, *g),
        BddMaking::Or(f, g) => are_two(session, Kind::Bdd, *f, *g),
        BddMaking::Xor(f, g) => are_two(session, Kind::Bdd, *f, *g),
        BddMaking::Restrict(f, g) => are_two(session, Kind::Bdd, *f, *g),
        BddMaking::Ite(f, g, h) => are_three(session, *f, *g, *h),
        BddMaking::Exists(f, [v]) => is_of(session, Kind::Bdd, *f) && *v < VARIABLES,
        BddMaking::AtLeast(m, _) => is_of(session, Kind::Add, *m),
        BddMaking::CoverOf(p) => is_of(session, Kind::Zdd, *p),
        _ => false,
    }
}

/// Whether a function of numbers may be made.
fn takes_add(session: &Session, making: &AddMaking<H>) -> bool
    ensures { IsTrue result → HasTaken session.now (of_lent (makings.Add making.now)) }
{
    match making {
        AddMaking::Constant(value) => 0 <= *value && *value < 1000,
        AddMaking::FromBdd(f) => is_of(session, Kind::Bdd, *f),
        _ => false,
    }
}

/// Whether a sum may be made.
fn takes_exact(session: &Session, making: &ExactMaking<H>) -> bool
    ensures { IsTrue result → HasTaken session.now (of_lent (makings.Exact making.now)) }
{
    match making {
        ExactMaking::Plus(m, n) => are_two(session, Kind::Add, *m, *n),
        _ => false,
    }
}

/// Whether a family may be made.
fn takes_zdd(session: &Session, making: &ZddMaking<H>) -> bool
    requires { (session.now.manager.vars ≡ 3) × (session.now.manager.elements ≡ 6) }
    ensures { IsTrue result → HasTaken session.now (of_lent (makings.Zdd making.now)) }
{
    match making {
        ZddMaking::Single(e) => *e < ELEMENTS,
        ZddMaking::Product(p, q) => are_two(session, Kind::Zdd, *p, *q),
        ZddMaking::Isop(lower, upper) => are_two(session, Kind::Bdd, *lower, *upper),
        _ => false,
    }
}

/// Whether a function may be made of rows, by the operations that are tried.
pub fn takes(session: &Session, making: &Making<H, &[u32], &[(u32, H)]>) -> bool
    requires { (session.now.manager.vars ≡ 3) × (session.now.manager.elements ≡ 6) }
    ensures { IsTrue result → HasTaken session.now (of_lent making.now) }
{
    match making {
        Making::Bdd(making) => takes_bdd(session, making),
        Making::Add(making) => takes_add(session, making),
        Making::Exact(making) => takes_exact(session, making),
        Making::Zdd(making) => takes_zdd(session, making),
    }
}
