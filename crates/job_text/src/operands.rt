//! The operands of a command.

ghost use Rattle.std.specs.Prelude.{◌≡◌, ◌==◌, OnOk};
ghost use Rattle.std.specs.List.{list_any};
ghost use Rattle.job_text.specs.Places.{with_operand, with_register};

use crate::job::Register;
use crate::registers::kind_at;
use edge_bits::{Kind, List};
use function_laws::Order;
use job_commands::Operands;
use std::alloc::AllocError;

/// What a word of a command stands for.
#[derive(Drop)]
pub enum Operand {
    /// The register that the command assigns.
    Target,
    /// A register of the kind that is due, by its number.
    Register(Kind, u32),
    /// A register of any kind, by its number.
    Any(u32),
    /// A register that is due to have the kind of the one to its left, by its number.
    Alike(u32),
    /// A variable, by its number.
    Variable(u32),
    /// A variable that no word to the left names, by its number.
    NewVariable(u32),
    /// An element, by its number.
    Element(u32),
    /// A level of the order that has a next one, by its number from 0.
    Level(Order, u32),
    /// A cell, by its number.
    Cell(u8),
    /// A whole number.
    Value(i64),
    /// The value of a variable.
    Bit(bool),
    /// The values of all variables, or of all elements.
    Bits(List<bool>),
    /// The word of a command that takes an element for each literal.
    Literals,
}

/// Takes one more register, where these are known.
fn add_register(others: &mut Operands, known: &[Register], a: u32) -> Result<(), AllocError>
    ensures { OnOk result (others.new ≡ with_register known.now others.old a) }
{
    others.kind = kind_at(known, a);
    Ok(others.registers.push(a)?)
}

/// Takes one more operand, where these registers are known.
pub fn add_operand(
    others: &mut Operands,
    known: &[Register],
    operand: Operand,
) -> Result<(), AllocError>
    ensures { OnOk result (others.new ≡ with_operand known.now others.old operand) }
{
    match operand {
        Operand::Target | Operand::Literals => {}
        Operand::Register(_, a) | Operand::Any(a) | Operand::Alike(a) => {
            add_register(others, known, a)?;
        }
        Operand::Variable(v) | Operand::NewVariable(v) => others.variables.push(v)?,
        Operand::Element(e) => others.elements.push(e)?,
        Operand::Level(_, level) => others.levels.push(level)?,
        Operand::Cell(k) => others.cells.push(k)?,
        Operand::Value(w) => others.values.push(w)?,
        Operand::Bit(bit) => others.bits.push(bit)?,
        Operand::Bits(all) => others.bits = all,
    }
    Ok(())
}

/// Whether the variable is one of theirs.
pub fn names(others: &Operands, v: u32) -> bool
    ensures { result ≡ list_any (λ other. other == v) others.now.variables }
{
    contains(others.variables.as_slice(), v)
}

/// Whether the number is one of them.
fn contains(numbers: &[u32], number: u32) -> bool
    ensures { result ≡ list_any (λ other. other == number) numbers.now }
{
    numbers.iter().any(|other| *other == number)
}
