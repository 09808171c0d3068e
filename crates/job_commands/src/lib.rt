//! The commands of jobs: their words, what is due behind each, and what it does with its operands.
#![tactic(auto)]

mod acts;
mod commands;
mod operands;
mod slots;

pub use acts::Act;
pub use commands::{Opcode, Place};
pub use operands::Operands;
pub use slots::{Line, Slot, Slots, all_have_form, command_line};
