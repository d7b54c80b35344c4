//! The program `mjolnir`: the top call over real files and the standard output. Where the words are refused, what can be
//! typed is written to standard error.
#![tactic(auto)]

use command_words::{complaint, usage};
use host_port::{NoGate, RealHost};
use mjolnir_cli::{mjolnir, wordless};
use std::io::ErrorKind;
use std::process::ExitCode;
use std::{env, io, process};

/// The status of words that ask for nothing.
const WORDS_REFUSED: u8 = 2;

/// The words that the program was given, without its name.
fn words(rt: &HostRuntime) -> io::Result<Vec<String>> {
    let mut words = Vec::new(rt.alloc());
    for word in env::args(rt)?.skip(1) {
        words.push(word)?;
    }
    Ok(words)
}

/// Writes to standard error what `clap` has to say of these words, if anything, and the usage of the command that the
/// first word names, or of all commands. What standard error doesn't take, or there is no memory for, is lost.
fn help(rt: &HostRuntime, words: &[String]) {
    if let Ok(Some(message)) = complaint(rt.alloc(), words) {
        let _ = rt.eprintln(message.as_str());
    }
    if let Ok(text) = usage(rt.alloc(), words) {
        let _ = rt.eprint(text.as_str());
    }
}

fn main(rt: HostRuntime) -> ExitCode {
    let mut host = RealHost::new(&rt, process::id(rt.process()));
    let status = match words(&rt) {
        Ok(words) => {
            let status = mjolnir(&rt, rt.alloc(), &words, &mut host, &NoGate);
            if status == WORDS_REFUSED {
                help(&rt, &words);
            }
            status
        }
        Err(error) => match error.kind() {
            ErrorKind::OutOfMemory => wordless(rt.alloc(), &mut host),
            // A word that isn't UTF-8 asks for nothing, as no words do.
            _ => {
                let status = mjolnir(&rt, rt.alloc(), &[], &mut host, &NoGate);
                help(&rt, &[]);
                status
            }
        },
    };
    ExitCode::from(status)
}
