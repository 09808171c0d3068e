//! The function of a cover, from the rows of the signals that it reads.

ghost use Rattle.std.specs.Prelude.{◌≡◌, ◌≢◌, ◌<◌, Some, ℕ, Bool, true, false, IfOk, length, slice_get};
ghost use Rattle.cover_nets.specs.Networks.{cover_value};
ghost use Rattle.cover_nets.specs.declared.net.Literal.TheVariants.{Any};
ghost use Rattle.function_laws.specs.Values.{conjunction, disjunction, negation};
ghost use Rattle.net_builds.specs.Asked.{ComesBack, MayMakeRows};
ghost use Rattle.net_builds.specs.Factors.{Gives, GivesFor, GivesForIf, GivesIf, HoldsIf, IsHeldIf, TakesUp, TakesUpIf, name_of};
ghost use Rattle.net_builds.specs.Products.{fit, match_any, match_at, with_fit};
ghost use Rattle.net_builds.specs.Signals.{HaveRows, HaveValues};
ghost use Rattle.net_builds.specs.Standings.{Holds, IsHeld, Makes};

use crate::factors::{Factor, let_go_made};
use crate::host::{Host, HostRefusal};
use cover_nets::{Cover, Cube, Literal};
use function_laws::Name;

/// The row of a signal.
fn row_of(rows: &[Option<Name>], signal: u32) -> Name
    requires row { (name : Name) × (slice_get rows.now signal ≡ Some (Some name)) }
    ensures { slice_get rows.now signal ≡ Some (Some result) }
{
    match rows[signal as usize] {
        Some(name) => name,
        None => unreachable!(),
    }
}

/// The literal at a place.
fn literal_at(literals: &[Literal], at: usize) -> Literal
    requires { at < length literals.now }
    ensures { slice_get literals.now at ≡ Some result }
{
    literals[at]
}

/// The product with the complement of a row. The complement is let go, also where the product is refused.
fn with_complement<H: Host>(
    host: &H,
    session: &mut H::Session,
    row: Name,
    product: Name,
) -> Result<Name, HostRefusal<H::Full>>
    requires may { MayMakeRows H.has H.standing host.now session.old 3 }
    requires row { IsHeld (H.standing session.old) row }
    requires product { IsHeld (H.standing session.old) product }
    ensures made { IfOk result (λ name. (f g : ℕ → Bool) → Holds (H.standing session.old) row f → Holds (H.standing session.old) product g → Makes (H.standing session.old) (H.standing session.new) name (conjunction (negation f) g)) }
    ensures back { ComesBack H.has H.standing H.tells host.now session.old session.new result }
{
    let factor = host.complement(session, row)?;
    let made = host.conjunction(session, factor, product);
    host.let_go(session, factor);
    made
}

/// The product with a literal of this row in front, which asks something of it.
fn with_factor<H: Host>(
    host: &H,
    session: &mut H::Session,
    literal: Literal,
    row: Name,
    product: Name,
) -> Result<Name, HostRefusal<H::Full>>
    requires may { MayMakeRows H.has H.standing host.now session.old 3 }
    requires row { IsHeld (H.standing session.old) row }
    requires product { IsHeld (H.standing session.old) product }
    requires asks { literal ≢ Any }
    ensures made { IfOk result (λ name. (f g : ℕ → Bool) → Holds (H.standing session.old) row f → Holds (H.standing session.old) product g → Makes (H.standing session.old) (H.standing session.new) name (with_fit literal f g)) }
    ensures back { ComesBack H.has H.standing H.tells host.now session.old session.new result }
{
    match literal {
        Literal::Zero => with_complement(host, session, row, product),
        Literal::One => host.conjunction(session, row, product),
        Literal::Any => unreachable!(),
    }
}

/// The first factor of a product: a literal of this row, which asks something of it.
fn first_factor<H: Host>(
    host: &H,
    session: &mut H::Session,
    literal: Literal,
    row: Name,
) -> Result<Option<Factor>, HostRefusal<H::Full>>
    requires may { MayMakeRows H.has H.standing host.now session.old 3 }
    requires row { IsHeld (H.standing session.old) row }
    requires asks { literal ≢ Any }
    ensures made { IfOk result (λ next. (f : ℕ → Bool) → Holds (H.standing session.old) row f → GivesIf true (H.standing session.old) (H.standing session.new) next (fit literal f)) }
    ensures back { ComesBack H.has H.standing H.tells host.now session.old session.new result }
{
    match literal {
        Literal::Zero => match host.complement(session, row) {
            Ok(name) => Ok(Some(Factor::Made(name))),
            Err(stop) => Err(stop),
        },
        Literal::One => Ok(Some(Factor::Given(row))),
        Literal::Any => unreachable!(),
    }
}

/// The product with a literal of this row in front, which asks something of it. The product is let go where it was made on the way,
/// also where that is refused.
fn next_factor<H: Host>(
    host: &H,
    session: &mut H::Session,
    literal: Literal,
    row: Name,
    product: Factor,
) -> Result<Option<Factor>, HostRefusal<H::Full>>
    requires may { MayMakeRows H.has H.standing host.now session.old 3 }
    requires row { IsHeld (H.standing session.old) row }
    requires product { IsHeld (H.standing session.old) (name_of product) }
    requires asks { literal ≢ Any }
    ensures made { IfOk result (λ next. (f g : ℕ → Bool) → Holds (H.standing session.old) row f → Holds (H.standing session.old) (name_of product) g → GivesForIf true (H.standing session.old) (H.standing session.new) (Some product) next (with_fit literal f g)) }
    ensures over { TakesUp H.has H.standing H.tells host.now session.old session.new product result }
{
    let made = with_factor(host, session, literal, row, product.name());
    let_go_made(host, session, product);
    match made {
        Ok(name) => Ok(Some(Factor::Made(name))),
        Err(stop) => Err(stop),
    }
}

/// The product with a literal of this row in front. Where the literal asks nothing it stays as it is.
fn with_literal<H: Host>(
    host: &H,
    session: &mut H::Session,
    literal: Literal,
    row: Name,
    product: Option<Factor>,
) -> Result<Option<Factor>, HostRefusal<H::Full>>
    requires may { MayMakeRows H.has H.standing host.now session.old 3 }
    requires row { IsHeld (H.standing session.old) row }
    requires product { IsHeldIf (H.standing session.old) product }
    ensures made { IfOk result (λ next. (f g : ℕ → Bool) → Holds (H.standing session.old) row f → HoldsIf true (H.standing session.old) product g → GivesForIf true (H.standing session.old) (H.standing session.new) product next (with_fit literal f g)) }
    ensures over { TakesUpIf H.has H.standing H.tells host.now session.old session.new product result }
{
    if literal == Literal::Any {
        return Ok(product);
    }
    match product {
        None => first_factor(host, session, literal, row),
        Some(factor) => next_factor(host, session, literal, row, factor),
    }
}

/// The product of a row's literals, from the last on.
fn product<H: Host>(
    host: &H,
    session: &mut H::Session,
    literals: &[Literal],
    ins: &[u32],
    rows: &[Option<Name>],
) -> Result<Factor, HostRefusal<H::Full>>
    requires may { MayMakeRows H.has H.standing host.now session.old 4 }
    requires rows { HaveRows (H.standing session.old) rows.now ins.now }
    ensures made { IfOk result (λ factor. (values : ℕ → ℕ → Bool) → HaveValues (H.standing session.old) rows.now values ins.now → Gives (H.standing session.old) (H.standing session.new) factor (match_at values ins.now literals.now)) }
    ensures back { ComesBack H.has H.standing H.tells host.now session.old session.new result }
{
    let mut product = None;
    let mut at = literals.len().min(ins.len());
    while at > 0 {
        at -= 1;
        let literal = literal_at(literals, at);
        let row = row_of(rows, ins[at]);
        product = with_literal(host, session, literal, row, product)?;
    }
    match product {
        Some(factor) => Ok(factor),
        None => match host.constant(session, true) {
            Ok(name) => Ok(Factor::Made(name)),
            Err(stop) => Err(stop),
        },
    }
}

/// The sum with the product of a row behind, under a new name. The product is let go where it was made on the way, also where the sum
/// is refused.
fn added_product<H: Host>(
    host: &H,
    session: &mut H::Session,
    cube: &Cube,
    ins: &[u32],
    rows: &[Option<Name>],
    sum: Name,
) -> Result<Name, HostRefusal<H::Full>>
    requires may { MayMakeRows H.has H.standing host.now session.old 4 }
    requires rows { HaveRows (H.standing session.old) rows.now ins.now }
    requires sum { IsHeld (H.standing session.old) sum }
    ensures made { IfOk result (λ name. (values : ℕ → ℕ → Bool) (f : ℕ → Bool) → HaveValues (H.standing session.old) rows.now values ins.now → Holds (H.standing session.old) sum f → Makes (H.standing session.old) (H.standing session.new) name (disjunction f (match_at values ins.now cube.now.literals))) }
    ensures back { ComesBack H.has H.standing H.tells host.now session.old session.new result }
{
    let product = product(host, session, cube.literals.as_slice(), ins, rows)?;
    let made = host.disjunction(session, sum, product.name());
    let_go_made(host, session, product);
    made
}

/// The sum with the product of a row behind. The sum is let go where it was made on the way, also where that is refused.
fn next_term<H: Host>(
    host: &H,
    session: &mut H::Session,
    cube: &Cube,
    ins: &[u32],
    rows: &[Option<Name>],
    sum: Factor,
) -> Result<Factor, HostRefusal<H::Full>>
    requires may { MayMakeRows H.has H.standing host.now session.old 4 }
    requires rows { HaveRows (H.standing session.old) rows.now ins.now }
    requires sum { IsHeld (H.standing session.old) (name_of sum) }
    ensures made { IfOk result (λ next. (values : ℕ → ℕ → Bool) (f : ℕ → Bool) → HaveValues (H.standing session.old) rows.now values ins.now → Holds (H.standing session.old) (name_of sum) f → GivesFor (H.standing session.old) (H.standing session.new) sum next (disjunction f (match_at values ins.now cube.now.literals))) }
    ensures over { TakesUp H.has H.standing H.tells host.now session.old session.new sum result }
{
    let made = added_product(host, session, cube, ins, rows, sum.name());
    let_go_made(host, session, sum);
    match made {
        Ok(name) => Ok(Factor::Made(name)),
        Err(stop) => Err(stop),
    }
}

/// The sum of the rows so far with the product of one more behind.
fn with_product<H: Host>(
    host: &H,
    session: &mut H::Session,
    cube: &Cube,
    ins: &[u32],
    rows: &[Option<Name>],
    sum: Option<Factor>,
) -> Result<Factor, HostRefusal<H::Full>>
    requires may { MayMakeRows H.has H.standing host.now session.old 4 }
    requires rows { HaveRows (H.standing session.old) rows.now ins.now }
    requires sum { IsHeldIf (H.standing session.old) sum }
    ensures made { IfOk result (λ next. (values : ℕ → ℕ → Bool) (f : ℕ → Bool) → HaveValues (H.standing session.old) rows.now values ins.now → HoldsIf false (H.standing session.old) sum f → GivesForIf false (H.standing session.old) (H.standing session.new) sum (Some next) (disjunction f (match_at values ins.now cube.now.literals))) }
    ensures over { TakesUpIf H.has H.standing H.tells host.now session.old session.new sum result }
{
    match sum {
        None => product(host, session, cube.literals.as_slice(), ins, rows),
        Some(term) => next_term(host, session, cube, ins, rows, term),
    }
}

/// The disjunction of a cover's rows, from the first on, under a new name.
fn sum<H: Host>(
    host: &H,
    session: &mut H::Session,
    cubes: &[Cube],
    ins: &[u32],
    rows: &[Option<Name>],
) -> Result<Name, HostRefusal<H::Full>>
    requires may { MayMakeRows H.has H.standing host.now session.old 5 }
    requires rows { HaveRows (H.standing session.old) rows.now ins.now }
    ensures made { IfOk result (λ name. (values : ℕ → ℕ → Bool) → HaveValues (H.standing session.old) rows.now values ins.now → Makes (H.standing session.old) (H.standing session.new) name (match_any values ins.now cubes.now)) }
    ensures back { ComesBack H.has H.standing H.tells host.now session.old session.new result }
{
    let mut sum = None;
    for cube in cubes {
        let next = with_product(host, session, cube, ins, rows, sum)?;
        sum = Some(next);
    }
    match sum {
        None => host.constant(session, false),
        Some(factor) => match factor {
            Factor::Given(name) => host.conjunction(session, name, name),
            Factor::Made(name) => Ok(name),
        },
    }
}

/// The function of a cover, under a new name: the disjunction of its rows from the first on, each the product of its literals from
/// the last on, and the complement of that where the rows tell where the cover is 0. What is made on the way is let go, also where a
/// call is refused.
pub fn cover<H: Host>(
    host: &H,
    session: &mut H::Session,
    gate: &Cover,
    rows: &[Option<Name>],
) -> Result<Name, HostRefusal<H::Full>>
    requires may { MayMakeRows H.has H.standing host.now session.old 5 }
    requires rows { HaveRows (H.standing session.old) rows.now gate.now.ins }
    ensures made { IfOk result (λ name. (values : ℕ → ℕ → Bool) → HaveValues (H.standing session.old) rows.now values gate.now.ins → Makes (H.standing session.old) (H.standing session.new) name (λ k. cover_value gate.now (λ signal. values signal k))) }
    ensures back { ComesBack H.has H.standing H.tells host.now session.old session.new result }
{
    let sum = sum(
        host,
        session,
        gate.rows.as_slice(),
        gate.ins.as_slice(),
        rows,
    )?;
    if gate.on {
        return Ok(sum);
    }
    let made = host.complement(session, sum);
    host.let_go(session, sum);
    made
}
