//! What the words of a command line ask the program for.

ghost use Rattle.std.specs.Prelude.{◌≡◌, IfOk, map};
ghost use Rattle.std.specs.String.{string_bytes};
ghost use Rattle.mjolnir_cli.specs.Commands.{command_of, command_asked};

use command_words::{BuildOptions, Request};
use host_port::Text;
use std::alloc::{AllocError, Global};

/// A command that the program does.
#[derive(Debug, Drop)]
pub enum Command {
    /// `blobs PATH`: list the blobs of the file of that path.
    Blobs { path: Text },
    /// `build --input PATH --output DIR --modes LIST`: put the tiles of the extract of that path into that folder.
    Build { options: BuildOptions },
}

/// What the words ask for: one of the program's commands, with its values, or nothing.
#[tactic(auto, unfolding(crate::specs::Commands::command_asked))]
pub fn asked(alloc: Global, words: &[String]) -> Result<Option<Command>, AllocError>
    ensures { IfOk result (λ command. command ≡ command_asked (map string_bytes words.now)) }
{
    match command_words::asked(alloc, words)? {
        None => Ok(None),
        Some(request) => Ok(command_of(request)),
    }
}

/// The command of the program that is asked for.
fn command_of(request: Request) -> Option<Command>
    ensures { result ≡ command_of request }
{
    match request {
        Request::Blobs { path } => Some(Command::Blobs { path }),
        Request::Build(options) => Some(Command::Build { options }),
        // Nothing makes its extract yet.
        Request::Demo { .. } => None,
    }
}
