//! The simple command of each row of the table of commands, and its parse.

ghost use Rattle.std.specs.Prelude.{◌≡◌, IfOk, codes, map, option_map, true, false};
ghost use Rattle.std.specs.String.{string_bytes};
ghost use Rattle.clap.specs.Words.{app_of, rule_of, rows_of, found_of, with_rule, is_simple_and_free};
ghost use Rattle.command_words.specs.Rows.{blobs_app, build_app, demo_app, nameless, required_option, required_place, option_or, parsed_by};

use clap::error::ErrorKind;
use clap::{Arg, ArgMatches, Command};
use std::alloc::{AllocError, Global};

/// The command of `blobs`.
pub(crate) fn blobs_command<'a>(alloc: Global) -> Result<Command<'a>, AllocError>
    ensures { IfOk result (λ command. app_of command ≡ blobs_app) }
{
    let path = required_place(alloc, "path");
    let nameless = nameless(alloc, "blobs");
    add(nameless, path)
}

/// The command of `build`.
pub(crate) fn build_command<'a>(alloc: Global) -> Result<Command<'a>, AllocError>
    ensures { IfOk result (λ command. app_of command ≡ build_app) }
{
    let input = required_option(alloc, "input");
    let output = required_option(alloc, "output");
    let workers = option_or(alloc, "workers", "1");
    let modes = option_or(alloc, "modes", "auto,pedestrian,bicycle,truck,bus");
    let nameless = nameless(alloc, "build");
    let with_input = add(nameless, input)?;
    let with_output = add(with_input, output)?;
    let with_workers = add(with_output, workers)?;
    add(with_workers, modes)
}

/// The command of `demo`.
pub(crate) fn demo_command<'a>(alloc: Global) -> Result<Command<'a>, AllocError>
    ensures { IfOk result (λ command. app_of command ≡ demo_app) }
{
    let side = required_place(alloc, "n");
    let seed = required_place(alloc, "seed");
    let workers = option_or(alloc, "workers", "1");
    let nameless = nameless(alloc, "demo");
    let with_side = add(nameless, side)?;
    let with_seed = add(with_side, seed)?;
    add(with_seed, workers)
}

/// A command whose words don't begin with its name.
fn nameless<'a>(alloc: Global, name: &'a str) -> Command<'a>
    ensures { app_of result ≡ nameless name.now }
{
    Command::new(alloc, name).no_binary_name(true)
}

/// Adds an argument.
fn add<'a>(command: Command<'a>, argument: Arg<'a>) -> Result<Command<'a>, AllocError>
    requires { argument.global ≡ false }
    ensures { IfOk result (λ r. app_of r ≡ with_rule (app_of command.entry) (rule_of argument.entry)) }
{
    command.arg(argument)
}

/// A word by its place, which has to be there.
fn required_place<'a>(alloc: Global, name: &'a str) -> Arg<'a>
    ensures rule { rule_of result ≡ required_place name.now }
    ensures local { result.global ≡ false }
{
    Arg::new(alloc, name).required(true)
}

/// The option `--NAME VALUE`, which has to be there.
fn required_option<'a>(alloc: Global, name: &'a str) -> Arg<'a>
    ensures rule { rule_of result ≡ required_option name.now }
    ensures local { result.global ≡ false }
{
    Arg::new(alloc, name).long(name).required(true)
}

/// The option `--NAME VALUE`, with a value where it isn't there.
fn option_or<'a>(alloc: Global, name: &'a str, value: &'a str) -> Arg<'a>
    ensures rule { rule_of result ≡ option_or name.now value.now }
    ensures local { result.global ≡ false }
{
    Arg::new(alloc, name).long(name).default_value(value)
}

/// What the command's parse gives of the words, unless it refuses them.
pub(crate) fn parse<'a>(
    command: Command<'a>,
    words: &'a [String],
) -> Result<Option<ArgMatches<'a>>, AllocError>
    requires { is_simple_and_free (app_of command) ≡ true }
    ensures { IfOk result (λ matches. option_map (λ m. rows_of (found_of m)) matches
        ≡ parsed_by (app_of command.entry) (map string_bytes words.now)) }
{
    match command.try_get_matches_from(words) {
        Ok(matches) => Ok(Some(matches)),
        Err(error) => match error.kind() {
            ErrorKind::OutOfMemory => Err(AllocError),
            _ => Ok(None),
        },
    }
}
