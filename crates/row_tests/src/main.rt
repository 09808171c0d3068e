//! Plays the rows of the files that it is given through `run`, and prints a line for each row, in order: `ok NAME` where all
//! came as the row says, and else `NOT AS DUE NAME` with what came. A row is data: the head of reader.rt says how it is
//! written.
#![tactic(auto)]

mod line;
mod reader;
mod row;
mod told;

use row::Row;
use std::random::RandomSource;
use std::rt::Files;
use std::sync::Wait;
use std::thread::Threads;
use std::{env, fs, io};

/// Plays a row.
fn play_row<R: AllocGlobal + Print + Threads + Wait + Sync + RandomSource>(
    rt: &R,
    row: Row,
) -> io::Result<()> {
    let told = told::play(rt, rt.alloc(), row)?;
    println!(rt; "{told}")
}

/// Plays rows, in order.
fn play_rows<R: AllocGlobal + Print + Threads + Wait + Sync + RandomSource>(
    rt: &R,
    rows: Vec<Row>,
) -> io::Result<()> {
    for row in rows {
        play_row(rt, row)?;
    }
    Ok(())
}

/// Plays the rows of a file.
fn play_file<R: AllocGlobal + Files + Print + Threads + Wait + Sync + RandomSource>(
    rt: &R,
    file: &str,
) -> io::Result<()> {
    let text = fs::read_to_string(rt, file)?;
    let rows = reader::rows(rt.alloc(), text.as_str())?;
    play_rows(rt, rows)
}

fn main(rt: HostRuntime) -> io::Result<()> {
    for file in env::args(&rt)?.into_iter().skip(1) {
        play_file(&rt, file.as_str())?;
    }
    Ok(())
}
