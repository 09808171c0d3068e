//! The trip of one variable or element over the places of its block.

ghost use Rattle.std.specs.Prelude.{◌≡◌, ◌+◌, ◌<◌, ◌≤◌, ◌^◌, length, IfSome, IfNone};
ghost use Rattle.function_laws.specs.Sizes.{in_order};
ghost use Rattle.node_store.specs.Contents.{Content};
ghost use Rattle.group_sift.specs.Trips.{stand_at as stood_at};
ghost use Rattle.group_sift.specs.Settled.{Trip, IsAt, trip_line};
ghost use Rattle.group_sift.specs.Ways.{neighbour_of, upper_place, HasNext, HasSteps, stand_of, IsMoved, IsScanned, IsStopped, HasPath, IsTurned, other_way, places_ahead, turn_of, home_stand};
ghost use Rattle.function_laws.specs.SiftedOrders.{is_too_large as too_large, distance as how_far, turn, moved, Line, line_of};
ghost use Rattle.group_sift.specs.Settled.{IsSettled, measure_at};

use crate::moves::{exchange_and_sweep, go_down, go_up, has_reserve};
use node_store::{Order, Whole};

/// The two ways of a move: towards the last level, and towards the first.
#[derive(Debug, Clone, Copy, PartialEq, Eq)]
pub enum Way {
    Down,
    Up,
}

/// Where a trip stands: the place with the size there, the least size that this direction goes by, the first place of the smallest size that was met, and how many moves were made.
#[derive(Debug, Clone, Copy, PartialEq, Eq)]
pub struct Stand {
    pub place: u32,
    pub size: u32,
    pub least: u32,
    pub best: u32,
    pub smallest: u32,
    pub count: u32,
}

// The neighbour of a place.
fn next_place(way: Way, place: u32) -> u32
    requires { HasNext way place (2 ^ 32) }
    ensures { result ≡ neighbour_of way place }
{
    match way {
        Way::Down => place + 1,
        Way::Up => place - 1,
    }
}

// The upper one of a place and its neighbour.
fn level_of(way: Way, place: u32) -> u32
    requires { HasNext way place (2 ^ 32) }
    ensures { result ≡ upper_place way place }
{
    match way {
        Way::Down => place,
        Way::Up => place - 1,
    }
}

// After a move to a place of this size.
fn stand_at(to: u32, size: u32, now: Stand) -> Stand
    requires { now.count + 1 < 2 ^ 32 }
    ensures stand { stand_of result ≡ stood_at to size (stand_of now) }
    ensures place { result.place ≡ to }
    ensures size { result.size ≡ size }
{
    let is_better = size < now.smallest;
    Stand {
        place: to,
        size,
        least: now.least.min(size),
        best: if is_better { to } else { now.best },
        smallest: if is_better { size } else { now.smallest },
        count: now.count + 1,
    }
}

// Whether a size is more than 120 per cent of the least.
fn is_too_large(size: u32, least: u32) -> bool
    ensures { result ≡ too_large size least }
{
    120 * u64::from(least) < 100 * u64::from(size)
}

// One move to the neighbour, where there is room for it.
fn try_move<W: Whole>(w: &mut W, order: Order, way: Way, now: Stand) -> Option<Stand>
    ghost trip: { Trip }
    requires at { IsAt W.others order trip now.place (W.view w.old) }
    requires next { HasNext way now.place (length trip.list) }
    requires count { now.count + 1 < 2 ^ 32 }
    ensures none { IfNone result (IsStopped W.others order trip way now (W.view w.new)) }
    ensures some { IfSome result (λ s. IsMoved W.others order trip way now s (W.view w.new)) }
{
    let level = level_of(way, now.place);
    if !has_reserve(w, order, level) {
        return None;
    }
    let size = exchange_and_sweep(w, order, level);
    Some(stand_at(next_place(way, now.place), size, now))
}

// The moves in one direction, at most so many.
fn scan<W: Whole>(w: &mut W, order: Order, way: Way, steps: u32, from: Stand) -> Stand
    ghost trip: { Trip }
    requires at { IsAt W.others order trip from.place (W.view w.old) }
    requires steps { HasSteps way steps from.place (length trip.list) }
    requires count { from.count ≡ 0 }
    ensures { IsScanned W.others order trip way from steps result (W.view w.new) }
{
    let mut now = from;
    for _step in 0..steps {
        match try_move(w, order, way, now) {
            Some(next) => now = next,
            None => return now,
        }
        if is_too_large(now.size, now.least) {
            return now;
        }
    }
    now
}

// Takes it to a place over places that were met.
fn go<W: Whole>(w: &mut W, order: Order, from: u32, to: u32)
    ghost trip: { Trip }
    requires at { IsAt W.others order trip from (W.view w.old) }
    requires path { HasPath order trip from to }
    ensures { IsAt W.others order trip to (W.view w.new) }
{
    if from < to {
        go_down(w, order, from, to);
    } else {
        go_up(w, order, from, to);
    }
}

fn other(way: Way) -> Way
    ensures { result ≡ other_way way }
{
    match way {
        Way::Down => Way::Up,
        Way::Up => Way::Down,
    }
}

// How many places lie that way in a block.
fn steps(way: Way, lo: u32, hi: u32, place: u32) -> u32
    requires lo { lo ≤ place }
    requires hi { place ≤ hi }
    ensures { result ≡ places_ahead way lo hi place }
{
    match way {
        Way::Down => hi - place,
        Way::Up => place - lo,
    }
}

fn distance(from: u32, to: u32) -> u32
    ensures { result ≡ how_far from to }
{
    if from < to { to - from } else { from - to }
}

// The trip of one: the way that is given, back, the other way, and to the first place of the smallest size. It tells the number of swaps.
fn travel<W: Whole>(w: &mut W, order: Order, way: Way, lo: u32, hi: u32, here: Stand) -> u32
    ghost trip: { Trip }
    requires at { IsAt W.others order trip here.place (W.view w.old) }
    requires home { stand_of here ≡ home_stand (trip_line order trip) trip.home }
    requires lo { lo ≤ here.place }
    requires hi { here.place ≤ hi }
    requires within { hi < length trip.list }
    ensures turned { IsTurned W.others order trip (turn_of way (trip_line order trip) lo hi trip.home) result (W.view w.new) }
    ensures few { result < 2 ^ 17 }
{
    let first = scan(w, order, way, steps(way, lo, hi, here.place), here);
    go(w, order, first.place, here.place);
    let back = Stand {
        place: here.place,
        size: first.size,
        least: first.least,
        best: first.best,
        smallest: first.smallest,
        count: 0,
    };
    let way_back = other(way);
    let second = scan(
        w,
        order,
        way_back,
        steps(way_back, lo, hi, here.place),
        back,
    );
    go(w, order, second.place, second.best);
    2 * first.count + second.count + distance(second.place, second.best)
}

// The way to the nearer end of a block, up if both are as near.
fn nearer(lo: u32, hi: u32, place: u32) -> Way
    requires lo { lo ≤ place }
    requires hi { place ≤ hi }
    ensures { (line : Line) → turn_of result line lo hi place ≡ turn line lo hi place }
{
    if hi - place < place - lo {
        Way::Down
    } else {
        Way::Up
    }
}

// Sifts what stands at a place of a block.
pub(crate) fn sift_one<W: Whole>(w: &mut W, order: Order, lo: u32, hi: u32, place: u32) -> u32
    ghost start: { Content }
    requires settled { IsSettled W.others order start (W.view w.old) }
    requires lo { lo ≤ place }
    requires hi { place ≤ hi }
    requires within { hi < length (in_order (W.view w.old).orders order) }
    ensures settled { IsSettled W.others order start (W.view w.new) }
    ensures order { in_order (W.view w.new).orders order ≡ moved (in_order (W.view w.old).orders order) place (turn (line_of (measure_at order start) start.limit (in_order (W.view w.old).orders order) place) lo hi place).place }
    ensures swaps { result ≡ (turn (line_of (measure_at order start) start.limit (in_order (W.view w.old).orders order) place) lo hi place).swaps }
    ensures few { result < 2 ^ 17 }
{
    let size = w.in_use();
    let here = Stand {
        place,
        size,
        least: size,
        best: place,
        smallest: size,
        count: 0,
    };
    let way = nearer(lo, hi, place);
    travel(w, order, way, lo, hi, here)
}
