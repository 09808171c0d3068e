//! Runs whose gates and sources tell more than a row.

use crate::dealt::Dealt;
use crate::pair::Pair;
use net_jobs::{Bytes, Discard, Gate, Open, Source, Status, SureBytes, run};
use std::alloc::{AllocError, Global};
use std::process::Abort;
use std::random::RandomSource;
use std::sync::Wait;
use std::test::Fail;
use std::thread::Threads;

const JOB: &str = "vars 2\nsession\na = var 0\nb = var 1\nc = and a b\neval c 11\n";

/// The words, as those of a command line.
fn words_of(alloc: Global, words: &[&str]) -> Result<Vec<String>, AllocError> {
    let mut line = Vec::new(alloc);
    for word in words {
        line.push(word.to_string(alloc)?)?;
    }
    Ok(line)
}

/// The status of a run whose text is not kept.
fn status_of<R: Threads + Wait + Sync + RandomSource, S: Source, G: Gate>(
    rt: &R,
    alloc: Global,
    words: &[&str],
    source: &mut S,
    gate: &G,
) -> Result<Status, AllocError> {
    let words = words_of(alloc, words)?;
    Ok(run(rt, alloc, &words, source, &mut Discard, gate))
}

#[test]
fn a_sink_that_keeps_nothing(rt: HostRuntime) -> Result<(), Fail> {
    let alloc = rt.alloc();
    let mut source = SureBytes::new(Vec::from_slice(alloc, JOB.as_bytes())?);
    let status = status_of(&rt, alloc, &["play"], &mut source, &Open)?;
    assert!(rt; status == Status::Ok);
    Ok(())
}

/// A source of the job whose first call fails.
fn failing(alloc: Global) -> Result<Bytes, AllocError> {
    let fails = vec![in alloc; true]?;
    Ok(Bytes::new(Vec::from_slice(alloc, JOB.as_bytes())?, 1, fails))
}

/// Words that are no command read nothing: the first call is still to come.
fn refuse_words<R: Abort + Threads + Wait + Sync + RandomSource>(
    rt: &R,
    alloc: Global,
    source: &mut Bytes,
) -> Result<(), Fail> {
    let status = status_of(rt, alloc, &["plays"], source, &Open)?;
    assert!(rt; status == Status::Usage);
    assert!(rt; source.read(&mut [0u8; 4]).is_err());
    Ok(())
}

#[test]
fn words_that_are_no_command_read_nothing(rt: HostRuntime) -> Result<(), Fail> {
    let mut source = failing(rt.alloc())?;
    refuse_words(&rt, rt.alloc(), &mut source)
}

/// A job of two sections that exchange functions.
const PAIR: &str =
    "vars 1\nsession\na = true\npost 0 a\nb = fetch 1 a\nc = fetch 0 a\nsession\nx = var 0\npost 1 x\ny = fetch 0 x\n";

/// Two sections whose sessions meet before their first calls, which they cannot where one of them is played after the other.
#[test]
fn two_sessions_work_at_once(rt: HostRuntime) -> Result<(), Fail> {
    let alloc = rt.alloc();
    let gate = Pair::new();
    let mut source = SureBytes::new(Vec::from_slice(alloc, PAIR.as_bytes())?);
    let status = status_of(&rt, alloc, &["play"], &mut source, &gate)?;
    assert!(rt; status == Status::Ok);
    assert!(rt; !gate.gave_up());
    Ok(())
}

/// A network of two outputs.
const OUTPUTS: &str =
    ".inputs a b\n.outputs f g\n.names a b f\n11 1\n.names a b g\n1- 1\n-1 1\n.end\n";

/// Two workers that meet before their first outputs, which they cannot where one of them builds behind the other.
#[test]
fn two_workers_build_at_once(rt: HostRuntime) -> Result<(), Fail> {
    let alloc = rt.alloc();
    let gate = Pair::new();
    let mut source = SureBytes::new(Vec::from_slice(alloc, OUTPUTS.as_bytes())?);
    let words = ["build", "--workers", "2"];
    let status = status_of(&rt, alloc, &words, &mut source, &gate)?;
    assert!(rt; status == Status::Ok);
    assert!(rt; !gate.gave_up());
    Ok(())
}

/// Twenty-five outputs are dealt to four workers in turn.
#[test]
fn outputs_are_dealt_in_turn(rt: HostRuntime) -> Result<(), Fail> {
    let alloc = rt.alloc();
    let gate = Dealt::new(4);
    let mut source = SureBytes::new(Vec::new(alloc));
    let words = ["gen", "--workers", "4", "8"];
    let status = status_of(&rt, alloc, &words, &mut source, &gate)?;
    assert!(rt; status == Status::Ok);
    assert!(rt; gate.dealt() == 25);
    assert!(rt; gate.others() == 0);
    Ok(())
}
