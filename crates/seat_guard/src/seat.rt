//! The types of the table and of a seat.
ghost use Rattle.std.specs.Prelude.{◌≡◌, ◌+◌, ◌<◌, ◌≤◌};
ghost use Rattle.edge_bits.specs.declared.limits.TheConstants.{MOST_SESSIONS};
ghost use Rattle.seat_guard.specs.declared.layout.TheConstants.{COUNTS};
ghost use Rattle.seat_guard.specs.declared.view.Hold.TheVariants.{Holding};
ghost use Rattle.seat_guard.specs.declared.view.Share.TheVariants as shares;

use crate::content::Content;
use crate::view::{Opening, View};
use atomic_table::{Perch, Seat, Table, TableRule};
use std::alloc::Global;
use std::marker::PhantomData;

/// The rule of the table, which holds whatever the interleaving.
pub struct Turns<S> {
    shared: PhantomData<S>,
}

impl<S: Content> TableRule<Option<S>, View, Opening> for Turns<S> {
    ghost use Rattle.seat_guard.specs.Rule.{Rule};
    ghost use Rattle.seat_guard.specs.Views.{viewed, closing_of};

    ghost holds = { λ _. Rule S.keeps S.board S.counts S.orders };

    ghost first = { λ key. viewed (closing_of key) };
}

/// The table: a journal word, a phase word, a turn word, the number of sessions, a count word for each slot of the store, and a slot of
/// its own for what all sessions share.
#[derive(Drop)]
pub struct Guard<S: Content> {
    pub(crate) table: Table<Option<S>, View, Opening, Turns<S>, Global>,
    ghost sized: { (COUNTS ≤ table.shared.table_id.words) × (table.shared.table_id.slots ≡ 1) },
}

/// A session's seat, or the closing one, which counts the seats that it has given.
#[derive(Drop)]
pub struct Pass<S> {
    pub(crate) seat: Seat<Option<S>, View>,
    pub(crate) number: u32,
    pub(crate) given: u32,
    ghost number_is: { (number ≡ seat.me.0.draws.session) × (number < MOST_SESSIONS) },
    ghost given_is: { given ≡ seat.me.0.draws.given },
    ghost words_are: { seat.table_id.words ≡ COUNTS + seat.me.0.draws.slots },
}

/// The closing seat, at rest: it may be shared, and takes no step.
#[derive(Drop)]
pub struct Rest<S> {
    pub(crate) perch: Perch<Option<S>, View>,
    pub(crate) number: u32,
    pub(crate) given: u32,
    ghost number_is: { (number ≡ perch.view.draws.session) × (number < MOST_SESSIONS) },
    ghost given_is: { given ≡ perch.view.draws.given },
    ghost words_are: { perch.table_id.words ≡ COUNTS + perch.view.draws.slots },
}

/// An operation share, which owns its session's seat: nobody has the order meanwhile.
#[derive(Drop)]
pub struct OpShare<S> {
    pub pass: Pass<S>,
    ghost held: { pass.seat.me.0.shares.op ≡ shares.Held },
}

/// A walk share: nobody has the full hold meanwhile.
#[derive(Drop)]
pub struct WalkShare<S> {
    pub pass: Pass<S>,
    ghost held: { pass.seat.me.0.shares.walk ≡ shares.Held },
}

/// The order hold: nobody has an operation share meanwhile, nor the order.
#[derive(Drop)]
pub struct OrderHold<S> {
    pub pass: Pass<S>,
    ghost held: { pass.seat.me.0.shares.order ≡ Holding },
}

/// The full hold, on top of the order: nobody has a share of either kind meanwhile.
#[derive(Drop)]
pub struct FullHold<S> {
    pub pass: Pass<S>,
    ghost held: { (pass.seat.me.0.shares.order ≡ Holding) × (pass.seat.me.0.shares.full ≡ Holding) },
}
