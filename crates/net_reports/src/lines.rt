//! The lines of a report.

ghost use Rattle.std.specs.Prelude.{◌≡◌, ◌++◌, OnOk, map};
ghost use Rattle.std.specs.Fmt.{decimal};
ghost use Rattle.net_reports.specs.Reports.{count_line, digit, eval_line, order_line, out_line};

use crate::classes::Class;
use crate::patterns::Evaluation;
use std::alloc::{AllocError, Global};

/// A number in decimal.
fn put_number(alloc: Global, text: &mut Vec<u8>, number: usize) -> Result<(), AllocError>
    ensures { OnOk result (text.new.items ≡ text.old.items ++ decimal number) }
{
    text.extend_from_slice(number.to_string(alloc)?.as_bytes())
}

/// A word and a number.
pub fn put_count(
    alloc: Global,
    text: &mut Vec<u8>,
    word: &str,
    count: usize,
) -> Result<(), AllocError>
    ensures { OnOk result (text.new.items ≡ text.old.items ++ count_line word.now count) }
{
    text.extend_from_slice(word.as_bytes())?;
    text.extend_from_slice(b" ")?;
    put_number(alloc, text, count)?;
    text.extend_from_slice(b"\n")
}

/// An output: its number, its name and its class.
pub fn put_output(
    alloc: Global,
    text: &mut Vec<u8>,
    number: usize,
    name: &[u8],
    class: &Class,
) -> Result<(), AllocError>
    ensures { OnOk result (text.new.items ≡ text.old.items ++ out_line number name.now class.now) }
{
    text.extend_from_slice(b"out ")?;
    put_number(alloc, text, number)?;
    text.extend_from_slice(b" ")?;
    text.extend_from_slice(name)?;
    text.extend_from_slice(b" ")?;
    put_number(alloc, text, class.first)?;
    text.extend_from_slice(if class.complement { b" -\n" } else { b" +\n" })
}

/// A digit for each bit.
fn put_digits(text: &mut Vec<u8>, bits: &[bool]) -> Result<(), AllocError>
    ensures { OnOk result (text.new.items ≡ text.old.items ++ map digit bits.now) }
{
    for bit in bits {
        text.push(if *bit { b'1' } else { b'0' })?;
    }
    Ok(())
}

/// A pattern, and the outputs' values there.
pub fn put_evaluation(text: &mut Vec<u8>, evaluation: &Evaluation) -> Result<(), AllocError>
    ensures { OnOk result (text.new.items ≡ text.old.items ++ eval_line evaluation.now.pattern evaluation.now.values) }
{
    text.extend_from_slice(b"eval ")?;
    put_digits(text, evaluation.pattern.as_slice())?;
    text.extend_from_slice(b" -> ")?;
    put_digits(text, evaluation.values.as_slice())?;
    text.extend_from_slice(b"\n")
}

/// The variables from the top.
pub fn put_order(alloc: Global, text: &mut Vec<u8>, order: &[u32]) -> Result<(), AllocError>
    ensures { OnOk result (text.new.items ≡ text.old.items ++ order_line order.now) }
{
    text.extend_from_slice(b"order")?;
    for variable in order {
        text.extend_from_slice(b" ")?;
        put_number(alloc, text, *variable as usize)?;
    }
    text.extend_from_slice(b"\n")
}
