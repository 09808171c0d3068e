//! What a call may come to.

ghost use Rattle.std.specs.Prelude.{◌≡◌};
ghost use Rattle.dd_manager.specs.Statuses.{code_of, kind_code, status_of as status_by};

use crate::faults::Fault;
use edge_bits::Kind;

/// That a call was done, or why not.
#[derive(Clone, Copy, PartialEq, Eq, Debug, Drop)]
pub enum Status {
    /// It was done.
    Done,
    /// Want of memory, or too many rows.
    Memory,
    /// No slot is free.
    Full,
    /// A value of an ADD would be out of range.
    Overflow,
    /// Two bounds are apart, so that there is no cover between them.
    Apart,
    /// No row is live under a name, or it is of another manager.
    Handle,
    /// A row is of another kind.
    Kind,
    /// There is no such variable, element or number.
    Range,
    /// There is no such call.
    Call,
    /// The manager is closed.
    Closed,
}

/// Its number.
pub fn code(status: Status) -> u32
    ensures { result ≡ code_of status }
{
    match status {
        Status::Done => 0,
        Status::Memory => 1,
        Status::Full => 2,
        Status::Overflow => 3,
        Status::Apart => 4,
        Status::Handle => 5,
        Status::Kind => 6,
        Status::Range => 7,
        Status::Call => 8,
        Status::Closed => 9,
    }
}

/// The status by what is not there.
pub fn status_of(fault: Fault) -> Status
    ensures { result ≡ status_by fault }
{
    match fault {
        Fault::Handle => Status::Handle,
        Fault::Kind => Status::Kind,
        Fault::Range => Status::Range,
    }
}

/// The number of a kind.
pub fn code_of_kind(kind: Kind) -> u32
    ensures { result ≡ kind_code kind }
{
    match kind {
        Kind::Bdd => 0,
        Kind::Add => 1,
        Kind::Zdd => 2,
    }
}
