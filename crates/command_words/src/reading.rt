//! What the words ask for.

ghost use Rattle.std.specs.Prelude.{◌≡◌, ◌<◌, IfOk, IfSome, Some, map, string_bytes, option_map, option_and_then, true, false};
ghost use Rattle.clap.specs.Values.{kind_of};
ghost use Rattle.clap.specs.Matches.{found_of};
ghost use Rattle.clap.specs.Walk.{rows_of, first_of};
ghost use Rattle.clap.specs.Simple.{subcommand_rows_of};
ghost use Rattle.command_words.specs.declared.order.Order.TheVariants.{Play};
ghost use Rattle.command_words.specs.Values.{number_or};
ghost use Rattle.command_words.specs.Orders.{IsInRange, build_in, gen_in, is_play, is_set, load_in, order_in, order_of, patterns_in, table_order, workers_in};

use crate::order::{Options, Order};
use crate::table::commands;
use crate::values::{number_in, patterns_of};
use clap::error::ErrorKind;
use clap::{ArgMatches, Error};
use edge_bits::{List, MOST_BITS, MOST_LIMIT, Memory, USUAL_LIMIT};
use std::alloc::Global;

/// The most workers that may be asked for.
const MOST_WORKERS: u32 = 16;

fn is_play(words: &[String]) -> bool
    ensures { result ≡ is_play (map string_bytes words.now) }
{
    match words {
        [word] => word.as_str() == "play",
        _ => false,
    }
}

/// The first value of an argument.
fn value_of<'a>(found: &ArgMatches<'a>, name: &str) -> Option<&'a str>
    ensures { option_map (λ s. s.now) result ≡ first_of name.now (rows_of (found_of found.now)) }
{
    found.get_str(name)
}

/// The number of an option, if it is in range; where it is not given, the usual one.
fn number_of(found: &ArgMatches<'_>, name: &str, usual: u32, least: u32, most: u32) -> Option<u32>
    requires { most < 4000000000 }
    ensures { result ≡ number_or usual least most (first_of name.now (rows_of (found_of found.now))) }
{
    match value_of(found, name) {
        None => Some(usual),
        Some(word) => number_in(least, most, word),
    }
}

fn workers_in(found: &ArgMatches<'_>) -> Option<u32>
    ensures { result ≡ workers_in (rows_of (found_of found.now)) }
{
    number_of(found, "workers", 1, 1, MOST_WORKERS)
}

fn is_set(found: &ArgMatches<'_>, name: &str) -> bool
    ensures { result ≡ is_set name.now (rows_of (found_of found.now)) }
{
    match value_of(found, name) {
        Some(text) => text == "true",
        None => false,
    }
}

fn patterns_in(alloc: Global, found: &ArgMatches<'_>) -> Result<Option<List<List<bool>>>, Memory>
    ensures { IfOk result (λ patterns. patterns ≡ patterns_in (rows_of (found_of found.now))) }
{
    match found.get_raw("bits") {
        Some(words) => patterns_of(alloc, words),
        None => Ok(Some(List::new(alloc))),
    }
}

fn build_in(alloc: Global, found: &ArgMatches<'_>) -> Result<Option<Order>, Memory>
    ensures { IfOk result (λ order. order ≡ build_in (rows_of (found_of found.now))) }
{
    let Some(workers) = workers_in(found) else {
        return Ok(None);
    };
    let Some(limit) = number_of(found, "limit", USUAL_LIMIT, 0, MOST_LIMIT) else {
        return Ok(None);
    };
    let Some(patterns) = patterns_in(alloc, found)? else {
        return Ok(None);
    };
    let options = Options {
        sift: is_set(found, "sift"),
        store: is_set(found, "store"),
        blif: is_set(found, "blif"),
        patterns,
    };
    Ok(Some(Order::Build {
        workers,
        limit,
        options,
    }))
}

fn load_in(alloc: Global, found: &ArgMatches<'_>) -> Result<Option<Order>, Memory>
    ensures { IfOk result (λ order. order ≡ load_in (rows_of (found_of found.now))) }
{
    let Some(patterns) = patterns_in(alloc, found)? else {
        return Ok(None);
    };
    Ok(Some(Order::Load { patterns }))
}

fn gen_in(found: &ArgMatches<'_>) -> Option<Order>
    ensures { result ≡ gen_in (rows_of (found_of found.now)) }
{
    let workers = workers_in(found)?;
    let word = value_of(found, "count")?;
    let bits = number_in(1, MOST_BITS, word)?;
    Some(Order::Gen { workers, bits })
}

/// What a command of the table asks for, by what was found behind it.
fn order_in(alloc: Global, name: &str, found: &ArgMatches<'_>) -> Result<Option<Order>, Memory>
    ensures { IfOk result (λ order. order ≡ order_in (name.now, rows_of (found_of found.now))) }
{
    match name {
        "build" => build_in(alloc, found),
        "load" => load_in(alloc, found),
        "gen" => Ok(gen_in(found)),
        _ => Ok(None),
    }
}

fn order_of_matches(alloc: Global, matches: &ArgMatches<'_>) -> Result<Option<Order>, Memory>
    ensures { IfOk result (λ order. order ≡ option_and_then order_in (subcommand_rows_of matches.now)) }
{
    match matches.subcommand() {
        Some((name, found)) => order_in(alloc, name, found),
        None => Ok(None),
    }
}

/// Whether memory was wanting.
fn wants_memory(error: &Error) -> bool
    ensures yes { result ≡ true → kind_of error.now ≡ ErrorKind.OutOfMemory }
    ensures no { result ≡ false → kind_of error.now ≡ ErrorKind.OutOfMemory → ⊥ }
{
    match error.kind() {
        ErrorKind::OutOfMemory => true,
        _ => false,
    }
}

/// What words that the table takes ask for; none where it does not take them, or where a number or bits are out of range.
fn read_table(alloc: Global, words: &[String]) -> Result<Option<Order>, Memory>
    ensures { IfOk result (λ order. order ≡ table_order (map string_bytes words.now)) }
{
    let command = commands(alloc)?;
    match command.try_get_matches_from(words) {
        Ok(matches) => order_of_matches(alloc, &matches),
        Err(error) => {
            if wants_memory(&error) {
                Err(Memory)
            } else {
                Ok(None)
            }
        }
    }
}

/// What the words behind the program's name ask for; none where they are no command in range. Nothing is printed, and nothing
/// else is read. Want of memory may be the answer to any words.
#[tactic(auto, unfolding(crate::specs::Orders::order_of))]
pub fn read_words(alloc: Global, words: &[String]) -> Result<Option<Order>, Memory>
    ensures order { IfOk result (λ order. order ≡ order_of (map string_bytes words.now)) }
    ensures in_range { IfOk result (λ order. IfSome order IsInRange) }
    ensures play_alone { IfOk result (λ order. order ≡ Some Play → is_play (map string_bytes words.now) ≡ true) }
{
    if is_play(words) {
        return Ok(Some(Order::Play));
    }
    read_table(alloc, words)
}
