//! What the lines of a main model add to the whole, in the order of lines, and the line by which the limits are passed.

ghost use Rattle.std.specs.Prelude.{◌≡◌, ◌<◌, ◌++◌, All, IfOk, get_or, length, map, slice_get};
ghost use Rattle.edge_bits.specs.declared.limits.TheConstants.{MOST_SIGNALS, MOST_VARIABLES};
ghost use Rattle.blif_models.specs.Additions.{AreRising, HoldsWithin, adding_by, goes_first};
ghost use Rattle.blif_models.specs.ModelFaults.{by_line, passing_line};

use crate::limits::{Adding, line_passing};
use crate::numbered::Entry;
use edge_bits::{MOST_SIGNALS, MOST_VARIABLES};
use std::alloc::{AllocError, Global};

/// What an entry adds, where each model has so many signals and latches in all.
fn adding_of(signals: &[u64], latches: &[u64], entry: &Entry) -> Adding
    requires signals { HoldsWithin (length signals.now) entry.now }
    requires latches { HoldsWithin (length latches.now) entry.now }
    ensures { result ≡ adding_by (λ m. get_or signals.now m 0) (λ m. get_or latches.now m 0) entry.now }
{
    match entry {
        Entry::Cover(cover) => Adding {
            line: cover.line,
            signals: 1,
            inputs: 0,
        },
        Entry::Latch(latch) => Adding {
            line: latch.line,
            signals: 1,
            inputs: 1,
        },
        Entry::Instance(instance) => Adding {
            line: instance.line,
            signals: signals[instance.model as usize],
            inputs: latches[instance.model as usize],
        },
    }
}

/// What entries add, one by one.
fn additions_of(
    alloc: Global,
    signals: &[u64],
    latches: &[u64],
    entries: &[Entry],
) -> Result<Vec<Adding>, AllocError>
    requires signals { All (HoldsWithin (length signals.now)) entries.now }
    requires latches { All (HoldsWithin (length latches.now)) entries.now }
    ensures { IfOk result (λ adding. adding.items ≡ map (adding_by (λ m. get_or signals.now m 0) (λ m. get_or latches.now m 0)) entries.now) }
{
    let mut adding = Vec::with_capacity(alloc, entries.len())?;
    for entry in entries {
        adding.push(adding_of(signals, latches, entry))?;
    }
    Ok(adding)
}

/// Whether the first list goes on, where so many were taken from it and so many from the other one.
fn goes_first(ones: &[Adding], taken: usize, others: &[Adding], passed: usize) -> bool
    ensures { result ≡ goes_first (slice_get ones.now taken) (slice_get others.now passed) }
{
    let Some(one) = ones.get(taken) else {
        return false;
    };
    match others.get(passed) {
        Some(other) => other.line >= one.line,
        None => true,
    }
}

/// Two lists that go by rising lines as one.
fn merged(alloc: Global, ones: &[Adding], others: &[Adding]) -> Result<Vec<Adding>, AllocError>
    requires ones { AreRising ones.now }
    requires others { AreRising others.now }
    ensures { IfOk result (λ all. all.items ≡ by_line (ones.now ++ others.now)) }
{
    let mut all = Vec::new(alloc);
    let mut taken = 0;
    let mut passed = 0;
    while taken < ones.len() || passed < others.len() {
        if goes_first(ones, taken, others, passed) {
            all.push(ones[taken])?;
            taken += 1;
        } else {
            all.push(others[passed])?;
            passed += 1;
        }
    }
    Ok(all)
}

/// The first line by which a main model passes the limits, where its lines of inputs add this much, its entries are these, and each
/// model has so many signals and latches in all.
pub fn limit_line(
    alloc: Global,
    inputs: &[Adding],
    signals: &[u64],
    latches: &[u64],
    entries: &[Entry],
) -> Result<Option<u64>, AllocError>
    requires signals { All (HoldsWithin (length signals.now)) entries.now }
    requires latches { All (HoldsWithin (length latches.now)) entries.now }
    requires inputs { AreRising inputs.now }
    requires entries { AreRising (map (adding_by (λ m. get_or signals.now m 0) (λ m. get_or latches.now m 0)) entries.now) }
    ensures { IfOk result (λ line. line ≡ passing_line MOST_SIGNALS MOST_VARIABLES 0 0 (by_line (inputs.now ++ map (adding_by (λ m. get_or signals.now m 0) (λ m. get_or latches.now m 0)) entries.now))) }
{
    let adding = additions_of(alloc, signals, latches, entries)?;
    let all = merged(alloc, inputs, &adding)?;
    Ok(line_passing(MOST_SIGNALS as u64, MOST_VARIABLES as u64, &all))
}
