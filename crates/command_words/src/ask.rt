//! What the words ask for.

ghost use Rattle.std.specs.Prelude.{◌≡◌, IfOk, map, codes, option_and_then, option_map};
ghost use Rattle.std.specs.String.{string_bytes};
ghost use Rattle.clap.specs.Words.{rows_of, found_of, first_of};
ghost use Rattle.command_words.specs.Rows.{parsed_by, blobs_app, build_app, demo_app};
ghost use Rattle.command_words.specs.Values.{not_empty};
ghost use Rattle.command_words.specs.Asks.{asked_by, text_of, number_of, workers_of, modes_in, blobs_of, options_of, build_of, demo_of};

use crate::command::{BuildOptions, Request};
use crate::rows::{blobs_command, build_command, demo_command, parse};
use crate::values::{modes_of, number_within};
use clap::ArgMatches;
use host_port::Text;
use std::alloc::{AllocError, Global};

/// What the words ask for.
pub fn asked(alloc: Global, words: &[String]) -> Result<Option<Request>, AllocError>
    ensures { IfOk result (λ request. request ≡ asked_by (map string_bytes words.now)) }
{
    match words {
        [] => Ok(None),
        [name, rest @ ..] => {
            if name.as_str() == "blobs" {
                blobs_asked(alloc, rest)
            } else if name.as_str() == "build" {
                build_asked(alloc, rest)
            } else if name.as_str() == "demo" {
                demo_asked(alloc, rest)
            } else {
                Ok(None)
            }
        }
    }
}

fn blobs_asked(alloc: Global, words: &[String]) -> Result<Option<Request>, AllocError>
    ensures { IfOk result (λ request. request ≡ option_and_then blobs_of (parsed_by blobs_app (map string_bytes words.now))) }
{
    let command = blobs_command(alloc)?;
    let matches = parse(command, words)?;
    blobs_found(alloc, matches)
}

fn build_asked(alloc: Global, words: &[String]) -> Result<Option<Request>, AllocError>
    ensures { IfOk result (λ request. request ≡ option_and_then build_of (parsed_by build_app (map string_bytes words.now))) }
{
    let command = build_command(alloc)?;
    let matches = parse(command, words)?;
    build_found(alloc, matches)
}

fn demo_asked(alloc: Global, words: &[String]) -> Result<Option<Request>, AllocError>
    ensures { IfOk result (λ request. request ≡ option_and_then demo_of (parsed_by demo_app (map string_bytes words.now))) }
{
    let command = demo_command(alloc)?;
    let matches = parse(command, words)?;
    Ok(demo_found(matches))
}

fn blobs_found(
    alloc: Global,
    matches: Option<ArgMatches<'_>>,
) -> Result<Option<Request>, AllocError>
    ensures { IfOk result (λ request. request ≡ option_and_then blobs_of (option_map (λ m. rows_of (found_of m)) matches.entry)) }
{
    match matches {
        None => Ok(None),
        Some(matches) => blobs_of(alloc, &matches),
    }
}

fn build_found(
    alloc: Global,
    matches: Option<ArgMatches<'_>>,
) -> Result<Option<Request>, AllocError>
    ensures { IfOk result (λ request. request ≡ option_and_then build_of (option_map (λ m. rows_of (found_of m)) matches.entry)) }
{
    match matches {
        None => Ok(None),
        Some(matches) => build_of(alloc, &matches),
    }
}

fn demo_found(matches: Option<ArgMatches<'_>>) -> Option<Request>
    ensures { result ≡ option_and_then demo_of (option_map (λ m. rows_of (found_of m)) matches.entry) }
{
    match matches {
        None => None,
        Some(matches) => demo_of(&matches),
    }
}

fn blobs_of(alloc: Global, matches: &ArgMatches<'_>) -> Result<Option<Request>, AllocError>
    ensures { IfOk result (λ request. request ≡ blobs_of (rows_of (found_of matches.now))) }
{
    match text_of(matches, "path") {
        None => Ok(None),
        Some(path) => Ok(Some(Request::Blobs {
            path: Text::from_str(alloc, path)?,
        })),
    }
}

fn build_of(alloc: Global, matches: &ArgMatches<'_>) -> Result<Option<Request>, AllocError>
    ensures { IfOk result (λ request. request ≡ build_of (rows_of (found_of matches.now))) }
{
    let Some(input) = text_of(matches, "input") else {
        return Ok(None);
    };
    let Some(output) = text_of(matches, "output") else {
        return Ok(None);
    };
    let Some(workers) = workers_of(matches) else {
        return Ok(None);
    };
    let Some(modes) = modes_in(matches) else {
        return Ok(None);
    };
    Ok(Some(Request::Build(BuildOptions {
        input: Text::from_str(alloc, input)?,
        output: Text::from_str(alloc, output)?,
        workers,
        modes,
    })))
}

fn demo_of(matches: &ArgMatches<'_>) -> Option<Request>
    ensures { result ≡ demo_of (rows_of (found_of matches.now)) }
{
    let Some(side) = number_of(matches, "n", 2, 500) else {
        return None;
    };
    let Some(seed) = number_of(matches, "seed", 0, 2_147_483_647) else {
        return None;
    };
    let Some(workers) = workers_of(matches) else {
        return None;
    };
    Some(Request::Demo {
        side,
        seed,
        workers,
    })
}

/// The value of that name, where it isn't empty.
fn text_of<'a>(matches: &ArgMatches<'a>, name: &str) -> Option<&'a str>
    ensures { option_map (λ text. text.now) result ≡ text_of name.now (rows_of (found_of matches.now)) }
{
    match matches.get_str(name) {
        None => None,
        Some(text) => not_empty(text),
    }
}

/// The text, where it isn't empty.
fn not_empty(text: &str) -> Option<&str>
    ensures { option_map (λ text. text.now) result ≡ not_empty text.now }
{
    if text.is_empty() { None } else { Some(text) }
}

fn workers_of(matches: &ArgMatches<'_>) -> Option<u64>
    ensures { result ≡ workers_of (rows_of (found_of matches.now)) }
{
    number_of(matches, "workers", 1, 64)
}

/// The number of that name, in its bounds.
fn number_of(matches: &ArgMatches<'_>, name: &str, low: u64, high: u64) -> Option<u64>
    ensures { result ≡ number_of name.now low high (rows_of (found_of matches.now)) }
{
    match matches.get_str(name) {
        None => None,
        Some(text) => number_within(text, low, high),
    }
}

fn modes_in(matches: &ArgMatches<'_>) -> Option<u16>
    ensures { result ≡ modes_in (rows_of (found_of matches.now)) }
{
    match matches.get_str("modes") {
        None => None,
        Some(text) => modes_of(text),
    }
}
