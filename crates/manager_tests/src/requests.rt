//! Requests by their codes.

use dd_manager::{Answer, Manager, Request, serve};

pub const ONE: u32 = 1;

pub const VAR: u32 = 3;

pub const NUMBER: u32 = 4;

pub const SINGLE: u32 = 7;

pub const ZERO: u32 = 2;

pub const EMPTY: u32 = 5;

pub const BASE: u32 = 6;

pub const NOT: u32 = 8;

pub const EXISTS: u32 = 10;

pub const VECTOR_COMPOSE: u32 = 12;

pub const FROM_BDD: u32 = 17;

pub const AND: u32 = 22;

pub const OR: u32 = 23;

pub const PLUS: u32 = 31;

pub const UNION: u32 = 34;

pub const ISOP: u32 = 39;

pub const LEVEL: u32 = 42;

pub const ELEMENT_LEVEL: u32 = 43;

pub const AT_LEVEL: u32 = 44;

pub const ELEMENT_AT_LEVEL: u32 = 45;

pub const SWAP: u32 = 46;

pub const SWAP_ELEMENTS: u32 = 47;

pub const SIFT: u32 = 48;

pub const SIFT_ELEMENTS: u32 = 49;

pub const COPY: u32 = 50;

pub const DROP: u32 = 51;

pub const SAME: u32 = 52;

pub const VALUE: u32 = 53;

pub const IMPLIES: u32 = 54;

pub const SWEEP: u32 = 55;

pub const MARK: u32 = 56;

pub const CLEAR: u32 = 57;

pub const BIT: u32 = 58;

pub const PUT: u32 = 59;

pub const CLOSE: u32 = 60;

pub const KIND: u32 = 61;

pub const TOP: u32 = 62;

pub const THEN: u32 = 63;

pub const ELSE: u32 = 64;

/// The name of nothing.
pub fn nothing() -> Answer {
    Answer {
        status: 0,
        number: 0,
        manager: 0,
        row: 0,
        generation: 0,
        value: 0,
    }
}

/// A call with two names, a number and a value.
pub fn ask(m: &mut Manager, call: u32, f: &Answer, g: &Answer, number: u32, value: i64) -> Answer {
    let request = Request {
        call,
        number,
        f_manager: f.manager,
        f_row: f.row,
        f_generation: f.generation,
        g_manager: g.manager,
        g_row: g.row,
        g_generation: g.generation,
        h_manager: 0,
        h_row: 0,
        h_generation: 0,
        value,
    };
    serve(m, request)
}

/// One with a number alone.
pub fn ask_number(m: &mut Manager, call: u32, number: u32) -> Answer {
    let none = nothing();
    ask(m, call, &none, &none, number, 0)
}

/// One with a name alone.
pub fn ask_one(m: &mut Manager, call: u32, f: &Answer) -> Answer {
    ask(m, call, f, &nothing(), 0, 0)
}

/// One with two names.
pub fn ask_two(m: &mut Manager, call: u32, f: &Answer, g: &Answer) -> Answer {
    ask(m, call, f, g, 0, 0)
}

/// Whether two rows were told to be the same.
pub fn are_same(m: &mut Manager, f: &Answer, g: &Answer) -> bool {
    let told = ask_two(m, SAME, f, g);
    told.status == 0 && told.value == 1
}

/// Sets a bit.
pub fn set_bit(m: &mut Manager, number: u32, bit: bool) -> u32 {
    let none = nothing();
    ask(m, BIT, &none, &none, number, i64::from(bit)).status
}

/// Puts a function for a variable.
pub fn put(m: &mut Manager, var: u32, f: &Answer) -> u32 {
    ask(m, PUT, f, &nothing(), var, 0).status
}
