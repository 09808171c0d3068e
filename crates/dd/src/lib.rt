//! Decision diagrams for C programs: what the static library exports.
#![tactic(auto)]

ghost use Rattle.std.specs.Prelude.{◌≡◌};
ghost use Rattle.std.specs.Borrow.{full_share, sem};
ghost use Rattle.std.specs.Ptr.{lies_at, room_at};
ghost use denote.Param.{layout};
ghost use prog.Memory.{capped, size};
ghost use Rattle.dd_manager.specs.contracts.serving.Manager.{the_row as manager_row};
ghost use Rattle.dd_manager.specs.declared.serving.Manager.{Manager as ManagerValue};
ghost use Rattle.dd_manager.specs.Served.{IsFresh, IsServed};

use dd_manager::{Answer, Manager, Request, fresh, serve};
use std::alloc::Global;

/// A manager as C sees it: bytes of its own.
#[repr(C)]
#[derive(Drop)]
pub struct Opaque {
    pub first: u64,
}

/// One call on the manager at a pointer: what is asked and what is answered are numbers, by value. The pointer is one that `dd_init` wrote
/// through. Whatever the numbers are the call answers a status, and `IsServed` of dd_manager says which, and what it leaves.
#[unsafe(no_mangle)]
pub unsafe extern "C" fn dd_call(m: *mut Opaque, request: Request) -> Answer
    ghost was: { ManagerValue }
    requires* { sem 𝓛 (lies_at manager_row full_share m was) }
    ensures* { ∃ₛ (λ (now : ManagerValue). sem 𝓛 (lies_at manager_row full_share m now) ∗ ⌜ IsServed was request now result ⌝) }
{
    serve(&mut *(m as *mut Manager), request)
}

/// Makes a manager in the memory at a pointer, where `dd_size` bytes are free for it: with its number, at most 1,024 variables and 1,024
/// elements, and 5 + variables to 8,388,607 slots, and with room for so many answers of operations, or with 0 for as many as suit its slots.
/// Where these are out of range, or memory is wanting, it is a closed one.
#[unsafe(no_mangle)]
pub unsafe extern "C" fn dd_init(
    alloc: Global,
    m: *mut Opaque,
    number: u32,
    vars: u32,
    elements: u32,
    limit: u32,
    remembered: u32,
)
    requires* { sem 𝓛 (room_at manager_row m) }
    ensures* { ∃ₛ (λ (now : ManagerValue). sem 𝓛 (lies_at manager_row full_share m now) ∗ ⌜ IsFresh number vars elements limit remembered now ⌝) }
{
    std::ptr::write(
        m as *mut Manager,
        fresh(alloc, number, vars, elements, limit, remembered),
    );
}

/// How many bytes a manager takes.
#[unsafe(no_mangle)]
pub extern "C" fn dd_size() -> usize
    ensures { result ≡ capped (size (layout manager_row)) }
{
    std::mem::size_of::<Manager>()
}
