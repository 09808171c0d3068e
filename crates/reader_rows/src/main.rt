//! Plays the files that it is given through the readers of texts.
//!
//! Of a file of rows it prints a line for each row, in order: `ok NAME` where what was read or written is as the row says, and else
//! `NOT AS DUE NAME` with what was read or written. The head of rows.rt says how a row is written. Each line of any other file is
//! told as the words of a command line. Behind the files it reads the generated networks, and writes the text of a stored diagram.
#![tactic(auto)]

mod dumps;
mod generated;
mod orders;
mod rows;
mod stored;
mod told;
mod words;
mod written;

use rows::Row;
use std::random::RandomSource;
use std::rt::Files;
use std::{env, fs, io};

/// Prints whether what came of a row is due, and else what came.
fn show<R: AllocGlobal + Print>(rt: &R, row: &Row, told: &[u8]) -> io::Result<()> {
    let name = row.name.as_str();
    if told == row.due.as_slice() {
        return println!(rt; "ok {name}");
    }
    let came = String::from_utf8_lossy(rt.alloc(), told)?;
    println!(rt; "NOT AS DUE {name}\n{came}")
}

/// Reads what rows give.
fn read_rows<R: AllocGlobal + Print + RandomSource>(rt: &R, rows: &[Row]) -> io::Result<()> {
    for row in rows {
        let told = written::written(rt, row)?;
        show(rt, row, told.as_slice())?;
    }
    Ok(())
}

/// Plays a file: rows, or lines of words.
fn play_file<R: AllocGlobal + Files + Print + RandomSource>(rt: &R, file: &str) -> io::Result<()> {
    let text = fs::read_to_string(rt, file)?;
    if !file.ends_with(".rows") {
        return words::tell_lines(rt, text.as_str());
    }
    let rows = rows::rows(rt.alloc(), text.as_str())?;
    read_rows(rt, rows.as_slice())
}

fn main(rt: HostRuntime) -> io::Result<()> {
    for file in env::args(&rt)?.into_iter().skip(1) {
        play_file(&rt, file.as_str())?;
    }
    generated::read_all(&rt)?;
    stored::tell(&rt)
}
