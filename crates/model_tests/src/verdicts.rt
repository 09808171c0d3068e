//! The verdict on models that make a network, and on models that are wrong in one way each.

use crate::lines::told;
use blif_drafts::{Judged, Verdict};
use blif_models::{Laid, NumberedLatch, Outcome, Spot, Whole};
use std::hash::RandomState;
use std::process::Abort;
use std::test::Fail;

/// Whether the whole has the four names of the main model by their numbers, and behind them name 3 of model 1 in copy 1.
fn has_inner_name(whole: &Whole) -> bool {
    let inner = Spot {
        copy: 1,
        model: 1,
        name: 3,
    };
    whole.spots.len() == 5 && whole.spots.last() == Some(&inner)
}

/// Whether the whole has these covers by line, inputs and output, and behind them a latch.
fn is_laid_so(whole: &Whole) -> bool {
    let latch = NumberedLatch {
        line: 5,
        input: 2,
        output: 3,
    };
    match whole.laid.as_slice() {
        [
            Laid::Cover { cover: first, .. },
            Laid::Cover { cover: second, .. },
            Laid::Latch(last),
        ] => {
            first.line == 9
                && first.ins.as_slice() == [0, 1].as_slice()
                && first.name == 4
                && second.line == 10
                && second.ins.as_slice() == [4].as_slice()
                && second.name == 2
                && *last == latch
        }
        _ => false,
    }
}

/// The main model's names are a, b, s and t, the second one's p, q, r and w, of which w alone is joined to none of the first: the network
/// has it as a fifth signal, which the cover at line 9 defines from a and b, and that at line 10 reads for s; the latch stands behind both.
#[test]
fn main_model_holds_the_second(rt: HostRuntime) -> Result<(), Fail> {
    let keys = RandomState::new(&rt)?;
    let lines = [
        b".inputs a b".as_slice(),
        b".outputs s",
        b".subckt x p=a q=b r=s",
        b".latch s t",
        b".model x",
        b".inputs p q",
        b".outputs r",
        b".names p q w",
        b".names w r",
    ];
    let Judged { verdict, .. } = told(rt.alloc(), keys, b"top".as_slice(), lines.as_slice())?;
    let Verdict::Comes(Outcome::Expanded(whole)) = verdict else {
        panic!(&rt; "no network");
    };
    assert!(rt; has_inner_name(&whole));
    assert!(rt; is_laid_so(&whole));
    Ok(())
}

/// A further model without a name is told at its line, which stands before two of one name.
#[test]
fn models_have_names_of_their_own(rt: HostRuntime) -> Result<(), Fail> {
    let keys = RandomState::new(&rt)?;
    let lines = [
        b".model y".as_slice(),
        b".outputs f",
        b".model",
        b".model x",
        b".model x",
    ];
    let judged = told(rt.alloc(), keys, b"top".as_slice(), lines.as_slice())?;
    assert!(rt; matches!(&judged.verdict, Verdict::Nameless(4)));
    Ok(())
}

/// An instance that joins what is no formal name of its model is told at its line, though a signal is defined twice too.
#[test]
fn instances_join_formal_names(rt: HostRuntime) -> Result<(), Fail> {
    let keys = RandomState::new(&rt)?;
    let lines = [
        b".inputs a".as_slice(),
        b".outputs f",
        b".names a f",
        b".subckt x p=a r=f",
        b".subckt x p=a z=f",
        b".model x",
        b".inputs p",
        b".outputs r",
        b".names p z",
    ];
    let judged = told(rt.alloc(), keys, b"top".as_slice(), lines.as_slice())?;
    assert!(rt; matches!(&judged.verdict, Verdict::Misjoined(6)));
    Ok(())
}

/// A signal that a cover defines and an instance joins to an output is told at the later line.
#[test]
fn signals_have_one_definition(rt: HostRuntime) -> Result<(), Fail> {
    let keys = RandomState::new(&rt)?;
    let lines = [
        b".inputs a".as_slice(),
        b".outputs f",
        b".subckt x p=a r=f",
        b".names a f",
        b".model x",
        b".inputs p",
        b".outputs r",
        b".names p r",
    ];
    let judged = told(rt.alloc(), keys, b"top".as_slice(), lines.as_slice())?;
    assert!(rt; matches!(&judged.verdict, Verdict::Twice(5)));
    Ok(())
}
