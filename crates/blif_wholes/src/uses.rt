//! The signals of a whole by their spots, and the first line that uses what is none.

ghost use Rattle.std.specs.Prelude.{◌≡◌, ◌<◌, ◌++◌, not, true, All, IfOk, length, map, vec_len, ℕ, if◌then◌else◌};
ghost use Rattle.std.specs.List.{list_any};
ghost use Rattle.blif_models.specs.ModelFaults.{least};
ghost use Rattle.blif_models.specs.Unfinished.{LaidIs};
ghost use Rattle.blif_order.specs.Orders.{is_in};
ghost use Rattle.blif_drafts.specs.Signals.{is_marked};
ghost use Rattle.blif_formals.specs.Clashes.{least_of};
ghost use Rattle.blif_wholes.specs.Uses.{laid_line, laid_name, laid_reads, signals_laid, undefined_among, unmarked_lines, uses_laid};

use blif_formals::lesser;
use blif_models::{Laid, Whole};
use std::alloc::{AllocError, Global};

/// A use of a signal: the number of the signal's spot, and the line.
#[derive(Debug, Clone, Copy, PartialEq, Eq, Drop)]
pub struct SpotUse {
    pub spot: u32,
    pub line: u64,
}

/// Marks these spots.
fn mark(marks: &mut Vec<bool>, spots: &[u32])
    requires { All (λ n. n < length marks.old.items) spots.now }
    ensures many { length marks.new.items ≡ length marks.old.items }
    ensures marks { (n : ℕ) → is_marked marks.new.items n ≡ (if is_in spots.now n then true else is_marked marks.old.items n) }
{
    for spot in spots {
        marks[*spot as usize] = true;
    }
}

/// The spot of what a cover or a latch defines.
fn laid_name(one: &Laid) -> u32
    ensures { result ≡ laid_name one.now }
{
    match one {
        Laid::Cover { cover, .. } => cover.name,
        Laid::Latch(latch) => latch.output,
    }
}

/// Marks what covers and latches define.
fn mark_laid(marks: &mut Vec<bool>, laid: &[Laid])
    requires { All (LaidIs (length marks.old.items)) laid.now }
    ensures many { length marks.new.items ≡ length marks.old.items }
    ensures marks { (n : ℕ) → is_marked marks.new.items n ≡ (if is_in (signals_laid laid.now) n then true else is_marked marks.old.items n) }
{
    for one in laid {
        marks[laid_name(one) as usize] = true;
    }
}

/// For each of so many spots whether it is that of a signal: of one of these inputs, or of what a cover or a latch defines.
fn signal_marks(
    alloc: Global,
    spots: usize,
    inputs: &[u32],
    laid: &[Laid],
) -> Result<Vec<bool>, AllocError>
    requires inputs { All (λ n. n < spots) inputs.now }
    requires laid { All (LaidIs spots) laid.now }
    ensures many { IfOk result (λ marks. vec_len marks ≡ spots) }
    ensures marks { IfOk result (λ marks. (n : ℕ) → is_marked marks.items n ≡ is_in (inputs.now ++ signals_laid laid.now) n) }
{
    let mut marks = vec![in alloc; false; spots]?;
    mark_laid(&mut marks, laid);
    mark(&mut marks, inputs);
    Ok(marks)
}

/// Whether this spot is not marked.
fn is_unmarked(marks: &[bool], spot: u32) -> bool
    requires { spot < length marks.now }
    ensures { result ≡ not (is_marked marks.now spot) }
{
    !marks[spot as usize]
}

/// Whether one of these spots is not marked.
fn some_unmarked(marks: &[bool], spots: &[u32]) -> bool
    requires { All (λ n. n < length marks.now) spots.now }
    ensures { result ≡ list_any (λ n. not (is_marked marks.now n)) spots.now }
{
    spots.iter().any(|spot| is_unmarked(marks, *spot))
}

/// The first line of these uses of spots that are not marked.
fn first_of_uses(marks: &[bool], uses: &[SpotUse]) -> Option<u64>
    requires { All (λ one. one.spot < length marks.now) uses.now }
    ensures { result ≡ least (unmarked_lines marks.now uses.now) }
{
    let mut first = None;
    for one in uses {
        if is_unmarked(marks, one.spot) {
            first = Some(lesser(one.line, first));
        }
    }
    first
}

/// Whether a cover or a latch reads a spot that is not marked.
fn reads_unmarked(marks: &[bool], one: &Laid) -> bool
    requires { LaidIs (length marks.now) one.now }
    ensures { result ≡ list_any (λ n. not (is_marked marks.now n)) (laid_reads one.now) }
{
    match one {
        Laid::Cover { cover, .. } => some_unmarked(marks, cover.ins.as_slice()),
        Laid::Latch(latch) => is_unmarked(marks, latch.input),
    }
}

/// The line of a cover or a latch.
fn laid_line(one: &Laid) -> u64
    ensures { result ≡ laid_line one.now }
{
    match one {
        Laid::Cover { cover, .. } => cover.line,
        Laid::Latch(latch) => latch.line,
    }
}

/// The lower one of a line, if there is one, and the first line of these covers and latches that read a spot which is not marked.
fn first_of_laid(marks: &[bool], laid: &[Laid], before: Option<u64>) -> Option<u64>
    requires { All (LaidIs (length marks.now)) laid.now }
    ensures { result ≡ least_of before (least (unmarked_lines marks.now (uses_laid laid.now))) }
{
    let mut first = before;
    for one in laid {
        if reads_unmarked(marks, one) {
            first = Some(lesser(laid_line(one), first));
        }
    }
    first
}

/// The first line that uses what is no signal of a whole, where its main model has these inputs and uses its outputs so: signals are
/// the inputs and what covers and latches define, and uses are the outputs and what covers and latches read.
pub fn undefined_line(
    alloc: Global,
    whole: &Whole,
    inputs: &[u32],
    outputs: &[SpotUse],
) -> Result<Option<u64>, AllocError>
    requires laid { All (LaidIs (vec_len whole.now.spots)) whole.now.laid.items }
    requires inputs { All (λ n. n < vec_len whole.now.spots) inputs.now }
    requires outputs { All (λ one. one.spot < vec_len whole.now.spots) outputs.now }
    ensures { IfOk result (λ line. line ≡ undefined_among (inputs.now ++ signals_laid whole.now.laid.items) (outputs.now ++ uses_laid whole.now.laid.items)) }
{
    let laid = whole.laid.as_slice();
    let marks = signal_marks(alloc, whole.spots.len(), inputs, laid)?;
    let first = first_of_uses(&marks, outputs);
    Ok(first_of_laid(&marks, laid, first))
}
