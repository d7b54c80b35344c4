//! What can be typed: the usage of a command, or of all.

ghost use Rattle.std.specs.Prelude.{◌≡◌, IfOk, map};
ghost use Rattle.std.specs.String.{string_bytes};
ghost use Rattle.command_words.specs.Usage.{usage_of, usage_named};

use crate::rows::{blobs_command, build_command, demo_command};
use clap::Command;
use clap::error::ErrorKind;
use std::alloc::{AllocError, Global};

/// How `blobs` is typed.
pub const BLOBS_USAGE: &str = "usage: mjolnir blobs PATH

Says a line for each blob of the extract: its place, its type, its size in bytes.

  PATH            the extract, in the PBF format

  mjolnir blobs city.osm.pbf
";

/// How `build` is typed.
pub const BUILD_USAGE: &str =
    "usage: mjolnir build --input PATH --output DIR [--workers W] [--modes LIST]

Puts a file for each tile of the extract's local roads into the folder, as DIR/2/000/519/120.gph. Roads from
motorway to tertiary road and turn restrictions aren't built yet: an extract with one is refused.

  --input PATH    the extract, in the PBF format, written without compression
  --output DIR    the folder; it is made where it isn't there
  --workers W     1 to 64 workers (1); one does the work yet
  --modes LIST    modes, with commas between them (auto,pedestrian,bicycle,truck,bus);
                  a road is built where one of them may use it

  mjolnir build --input city.osm.pbf --output out/city
";

/// How `demo` is typed.
pub const DEMO_USAGE: &str = "usage: mjolnir demo N SEED [--workers W]

Isn't done yet: these words are refused. It is to make the extract of a grid of roads with drawn turn restrictions,
and to build it in memory.

  N               rows and columns, 2 to 500
  SEED            what the draws begin with, 0 to 2147483647
  --workers W     1 to 64 workers (1)

  mjolnir demo 100 1
";

/// All commands. `mjolnir.sh --help` prints it out of this file.
pub const COMMANDS_USAGE: &str =
    "mjolnir: the offline tile builder of a road router, as verified software

usage: mjolnir COMMAND ...

  blobs PATH
      says a line for each blob of the extract: its place, its type, its size in bytes
      mjolnir blobs city.osm.pbf

  build --input PATH --output DIR [--workers W] [--modes LIST]
      puts a file for each tile of the extract's local roads into the folder, as DIR/2/000/519/120.gph
      W is 1 to 64 (1) and changes nothing yet, LIST some of auto,pedestrian,bicycle,truck,bus (all)
      mjolnir build --input city.osm.pbf --output out/city

  COMMAND --help says more of a command

An extract has to be written without compression. The program ends with a status that README.md lists; what isn't
done is said in one line that begins with `error`.

There is no release yet: a version is a commit, which `mjolnir.sh --version` names.
";

/// The usage of the command that the first word names, or of all commands where it names none.
pub fn usage(alloc: Global, words: &[String]) -> Result<String, AllocError>
    ensures { IfOk result (λ text. string_bytes text ≡ usage_of (map string_bytes words.now)) }
{
    match words {
        [] => String::from_str(alloc, COMMANDS_USAGE),
        [name, ..] => usage_named(alloc, name.as_str()),
    }
}

/// The usage of the command of that name, or of all commands.
#[tactic(auto, unfolding(crate::specs::Usage::usage_named))]
fn usage_named(alloc: Global, name: &str) -> Result<String, AllocError>
    ensures { IfOk result (λ text. string_bytes text ≡ usage_named name.now) }
{
    if name == "blobs" {
        String::from_str(alloc, BLOBS_USAGE)
    } else if name == "build" {
        String::from_str(alloc, BUILD_USAGE)
    } else if name == "demo" {
        String::from_str(alloc, DEMO_USAGE)
    } else {
        String::from_str(alloc, COMMANDS_USAGE)
    }
}

/// What clap says of the words where it refuses them, as of a misspelt option, with the one that may have been meant.
/// None where they are no command's, are taken, or call for help. The text is clap's own: nothing is promised of it.
pub fn complaint(alloc: Global, words: &[String]) -> Result<Option<String>, AllocError> {
    match words {
        [] => Ok(None),
        [name, rest @ ..] => {
            if name.as_str() == "blobs" {
                complaint_of(alloc, blobs_command(alloc)?, rest)
            } else if name.as_str() == "build" {
                complaint_of(alloc, build_command(alloc)?, rest)
            } else if name.as_str() == "demo" {
                complaint_of(alloc, demo_command(alloc)?, rest)
            } else {
                Ok(None)
            }
        }
    }
}

/// What clap says of the words of this command.
fn complaint_of<'a>(
    alloc: Global,
    command: Command<'a>,
    words: &'a [String],
) -> Result<Option<String>, AllocError> {
    match command.try_get_matches_from(words) {
        Ok(_) => Ok(None),
        Err(error) => match error.kind() {
            ErrorKind::OutOfMemory => Err(AllocError),
            ErrorKind::DisplayHelp => Ok(None),
            _ => Ok(Some(format!(in alloc; "{error}")?)),
        },
    }
}
