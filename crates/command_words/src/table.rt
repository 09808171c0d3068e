//! The commands that have options, as `clap` takes them.

ghost use Rattle.std.specs.Prelude.{◌≡◌, IfOk, codes, false};
ghost use Rattle.clap.specs.declared.builder.command.Command.TheViews.{out-Command as fields_of};
ghost use Rattle.clap.specs.Words.{app_of, rule_of, shape_of, with_rule};
ghost use Rattle.command_words.specs.Table.{bits, build_options, build_shape, count, flag, gen_shape, load_shape, option, table, top};

use clap::{Arg, ArgAction, Command};
use std::alloc::{AllocError, Global};

/// `--NAME VALUE` or `--NAME=VALUE`.
fn option<'a>(alloc: Global, name: &'a str) -> Arg<'a>
    ensures rule { rule_of result ≡ option name.entry.now }
    ensures local { result.global ≡ false }
{
    Arg::new(alloc, name).long(name).action(ArgAction::Set)
}

/// `--NAME`.
fn flag<'a>(alloc: Global, name: &'a str) -> Arg<'a>
    ensures rule { rule_of result ≡ flag name.entry.now }
    ensures local { result.global ≡ false }
{
    Arg::new(alloc, name).long(name).action(ArgAction::SetTrue)
}

/// `[BITS]..`.
fn bits<'a>(alloc: Global) -> Arg<'a>
    ensures rule { rule_of result ≡ bits }
    ensures local { result.global ≡ false }
{
    Arg::new(alloc, "bits").action(ArgAction::Append)
}

/// `K`.
fn count<'a>(alloc: Global) -> Arg<'a>
    ensures rule { rule_of result ≡ count }
    ensures local { result.global ≡ false }
{
    Arg::new(alloc, "count")
        .action(ArgAction::Set)
        .required(true)
}

fn with_option<'a>(
    alloc: Global,
    command: Command<'a>,
    name: &'a str,
) -> Result<Command<'a>, AllocError>
    requires local { (fields_of command).has_globals ≡ false }
    ensures app { IfOk result (λ c. app_of c ≡ with_rule (app_of command.entry) (option name.entry.now)) }
    ensures local { IfOk result (λ c. (fields_of c).has_globals ≡ false) }
{
    command.arg(option(alloc, name))
}

fn with_flag<'a>(
    alloc: Global,
    command: Command<'a>,
    name: &'a str,
) -> Result<Command<'a>, AllocError>
    requires local { (fields_of command).has_globals ≡ false }
    ensures app { IfOk result (λ c. app_of c ≡ with_rule (app_of command.entry) (flag name.entry.now)) }
    ensures local { IfOk result (λ c. (fields_of c).has_globals ≡ false) }
{
    command.arg(flag(alloc, name))
}

fn build_options<'a>(alloc: Global) -> Result<Command<'a>, AllocError>
    ensures app { IfOk result (λ c. app_of c ≡ build_options) }
    ensures local { IfOk result (λ c. (fields_of c).has_globals ≡ false) }
{
    let workers = with_option(alloc, Command::new(alloc, "build"), "workers")?;
    with_option(alloc, workers, "limit")
}

fn build_flags<'a>(alloc: Global, command: Command<'a>) -> Result<Command<'a>, AllocError>
    requires local { (fields_of command).has_globals ≡ false }
    ensures app { IfOk result (λ c. app_of c ≡ with_rule (with_rule (with_rule (app_of command.entry) (flag (codes "sift"))) (flag (codes "store"))) (flag (codes "blif"))) }
    ensures local { IfOk result (λ c. (fields_of c).has_globals ≡ false) }
{
    let sift = with_flag(alloc, command, "sift")?;
    let store = with_flag(alloc, sift, "store")?;
    with_flag(alloc, store, "blif")
}

fn build_command<'a>(alloc: Global) -> Result<Command<'a>, AllocError>
    ensures shape { IfOk result (λ c. shape_of c ≡ build_shape) }
    ensures local { IfOk result (λ c. (fields_of c).has_globals ≡ false) }
{
    let flags = build_flags(alloc, build_options(alloc)?)?;
    flags.arg(bits(alloc))
}

fn load_command<'a>(alloc: Global) -> Result<Command<'a>, AllocError>
    ensures shape { IfOk result (λ c. shape_of c ≡ load_shape) }
    ensures local { IfOk result (λ c. (fields_of c).has_globals ≡ false) }
{
    Command::new(alloc, "load").arg(bits(alloc))
}

fn gen_command<'a>(alloc: Global) -> Result<Command<'a>, AllocError>
    ensures shape { IfOk result (λ c. shape_of c ≡ gen_shape) }
    ensures local { IfOk result (λ c. (fields_of c).has_globals ≡ false) }
{
    Command::new(alloc, "gen")
        .arg(option(alloc, "workers"))?
        .arg(count(alloc))
}

fn top<'a>(alloc: Global) -> Command<'a>
    ensures { app_of result ≡ top }
{
    Command::new(alloc, "ddsh")
        .no_binary_name(true)
        .disable_help_flag(true)
        .disable_help_subcommand(true)
        .subcommand_required(true)
}

/// The commands with their options and words.
pub fn commands<'a>(alloc: Global) -> Result<Command<'a>, AllocError>
    ensures { IfOk result (λ c. app_of c ≡ table) }
{
    let build = build_command(alloc)?;
    let load = load_command(alloc)?;
    let generate = gen_command(alloc)?;
    top(alloc)
        .subcommand(build)?
        .subcommand(load)?
        .subcommand(generate)
}
