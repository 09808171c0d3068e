//! What words ask for, as a line.

use command_words::{Options, Order};
use edge_bits::List;
use std::alloc::{AllocError, Global};

/// Adds patterns, each behind a blank.
fn add_patterns(text: &mut String, patterns: &List<List<bool>>) -> Result<(), AllocError> {
    for pattern in patterns.as_slice() {
        text.push_str(" ")?;
        add_bits(text, pattern)?;
    }
    Ok(())
}

/// Adds the bits of a pattern.
fn add_bits(text: &mut String, bits: &List<bool>) -> Result<(), AllocError> {
    for bit in bits.as_slice() {
        text.push_str(if *bit { "1" } else { "0" })?;
    }
    Ok(())
}

/// Adds what `build` is asked for beside its numbers.
fn add_options(text: &mut String, options: &Options) -> Result<(), AllocError> {
    if options.sift {
        text.push_str(" sift")?;
    }
    if options.store {
        text.push_str(" store")?;
    }
    add_patterns(text, &options.patterns)
}

/// The line of `build`: workers, limit, flags and patterns.
fn build_told(
    alloc: Global,
    workers: u32,
    limit: u32,
    options: &Options,
) -> Result<String, AllocError> {
    let mut text = format!(in alloc; "build {workers} {limit}")?;
    add_options(&mut text, options)?;
    Ok(text)
}

/// The line of `load`: its patterns.
fn load_told(alloc: Global, patterns: &List<List<bool>>) -> Result<String, AllocError> {
    let mut text = String::from_str(alloc, "load")?;
    add_patterns(&mut text, patterns)?;
    Ok(text)
}

/// The command with its numbers, flags and patterns in a fixed order.
pub fn told(alloc: Global, order: &Option<Order>) -> Result<String, AllocError> {
    match order {
        None => String::from_str(alloc, "nothing"),
        Some(Order::Play) => String::from_str(alloc, "play"),
        Some(
            Order::Build {
                workers,
                limit,
                options,
            },
        ) => build_told(alloc, *workers, *limit, options),
        Some(Order::Load { patterns }) => load_told(alloc, patterns),
        Some(Order::Gen { workers, bits }) => format!(in alloc; "gen {workers} {bits}"),
    }
}
