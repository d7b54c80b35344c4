//! The top call: all that the program does.

ghost use Rattle.std.specs.Prelude.{◌≡◌, ◌⊎◌, ℕ, List, map, length, Some, IsSome, IfOk, IfErr, OnOk};
ghost use Rattle.std.specs.String.{string_bytes};
ghost use Rattle.host_port.specs.Told.{named};
ghost use Rattle.host_port.specs.HostState.{OnlyOpens, OnlySays};
ghost use Rattle.mjolnir_cli.specs.declared.failure.Failure.TheVariants.{OutOfMemory};
ghost use Rattle.mjolnir_cli.specs.Commands.{command_asked, input_of, ArePathsOf, HasGoodValues, IsAnswer, IsRefused};
ghost use Rattle.mjolnir_cli.specs.Ends.{IsStatus, EndsBy, HasCauses, IsComplete, IsHeardBy, KeepsHeadline, IsEnd};
ghost use Rattle.mjolnir_cli.specs.Failures.{cause_of, line_of};
ghost use Rattle.mjolnir_cli.specs.Listing.{IfOfInput, IsMet, CountedRead, IfRead};
ghost use Rattle.mjolnir_cli.specs.Puts.{paths};
ghost use Rattle.mjolnir_cli.specs.Said.{Adds};

use crate::answer::Answer;
use crate::blobs::blob_list;
use crate::build::tiles_to_put;
use crate::deliver::deliver;
use crate::failure::Failure;
use crate::law::one_end;
use crate::say::say_failure;
use crate::words::{Command, asked};
use build_flow::built_walks;
use command_words::modes_are_known;
use host_port::{Gate, Host, HostFiles, Text};
use std::alloc::Global;
use std::thread::Threads;

/// Runs the command that the arguments name and returns the exit status.
///
/// | Status | Meaning |
/// |---|---|
/// | 0 | done: the files were put, the text was said, and the input was read to its end |
/// | 2 | the words ask for nothing |
/// | 3 | the host counted a fault of reading |
/// | 4 | the host counted a fault of putting; the files before that one are put |
/// | 5 | the input is refused |
/// | 6 | the roads of the input pass a limit |
/// | 7 | there was no memory |
/// | 9 | the host counted a fault of saying, so that the text is lost |
///
/// On 2 to 6 one line is said; where the host fails to say it, it is lost and the status stays. On 2, 3, 5 and 6
/// no file is put. Out of memory (7) can occur instead of any other status: it is the one answer that has no
/// cause here.
pub fn mjolnir<R: Threads + Sync, H: Host, G: Gate>(
    _rt: &R,
    alloc: Global,
    words: &[String],
    host: &mut H,
    _gate: &G,
) -> u8
    ensures statuses { IsStatus result }
    // What the status says of the words, the input, the files and the text.
    ensures ends { EndsBy result (command_asked (map string_bytes words.now)) (H.state host.old) (H.state host.new) }
    // The other way round: the status where a cause stands.
    ensures causes { HasCauses result (command_asked (map string_bytes words.now)) (H.state host.old) (H.state host.new) }
    ensures complete { IsComplete result (command_asked (map string_bytes words.now)) (H.state host.old) (H.state host.new) }
    // A willing host that has the file which the command opens counts no fault.
    ensures willing { IsHeardBy (command_asked (map string_bytes words.now)) (H.state host.old) (H.state host.new) }
    // What a command that is done promises beside its answer: the tiles of `build` have the walks of the roads.
    ensures headline { KeepsHeadline result (command_asked (map string_bytes words.now)) (H.state host.old) (H.state host.new) }
{
    modes_are_known();
    match asked(alloc, words) {
        Ok(Some(command)) => obey(alloc, &command, host),
        Ok(None) => say_failure(alloc, host, &Failure::Words),
        Err(_) => say_failure(alloc, host, &Failure::OutOfMemory),
    }
}

/// Runs the command, puts its files and says its text, or says the line of the failure. Answers the status.
fn obey<H: Host>(alloc: Global, command: &Command, host: &mut H) -> u8
    requires { HasGoodValues command.now }
    ensures statuses { IsStatus result }
    ensures end { IsEnd result (Some command.now) (H.state host.old) (H.state host.new) }
{
    built_walks();
    one_end();
    match run(alloc, command, host) {
        Ok(answer) => deliver(alloc, host, &answer),
        Err(failure) => say_failure(alloc, host, &failure),
    }
}

/// What is done where there is no memory for the words: the line of that is said, where there is memory for it. Answers
/// its status.
pub fn wordless<H: Host>(alloc: Global, host: &mut H) -> u8
    ensures status { result ≡ 7 }
    ensures line { Adds (line_of OutOfMemory) (H.state host.old).told (H.state host.new).told ⊎ ((H.state host.new).told.said ≡ (H.state host.old).told.said) }
    ensures frame { OnlySays (H.state host.old) (H.state host.new) }
{
    say_failure(alloc, host, &Failure::OutOfMemory)
}

/// Runs the command up to the files that are to be put and the text that is to be said.
fn run<H: Host>(alloc: Global, command: &Command, host: &mut H) -> Result<Answer, Failure>
    requires { HasGoodValues command.now }
    ensures answered { IfOk result (λ answer. (bytes : List ℕ) → named (input_of command.now) (H.state host.old).told ≡ Some bytes → IsAnswer command.now bytes answer) }
    ensures paths { IfOk result (λ answer. ArePathsOf command.now (paths answer.files)) }
    ensures whole { OnOk result ((bytes : List ℕ) → named (input_of command.now) (H.state host.old).told ≡ Some bytes → (H.state host.new).told.place ≡ Some (length bytes)) }
    ensures refused { IfErr result (λ failure. (bytes : List ℕ) → named (input_of command.now) (H.state host.old).told ≡ Some bytes → IfOfInput (cause_of failure) (IsRefused command.now bytes failure)) }
    ensures met { IfErr result (λ failure. IsMet (cause_of failure)) }
    ensures frame { OnlyOpens (H.state host.old) (H.state host.new) }
    ensures faults { CountedRead (H.state host.old).read_faults (H.state host.new).read_faults result }
    ensures cause { (H.state host.old).willing → IsSome (named (input_of command.now) (H.state host.old).told) → IfRead result ⊥ }
{
    match command {
        Command::Blobs { path } => match blob_list(alloc, path.as_str(), host) {
            Ok(text) => Ok(Answer {
                files: HostFiles::new(alloc),
                text: Text::from(text),
            }),
            Err(failure) => Err(failure),
        },
        Command::Build { options } => tiles_to_put(
            alloc,
            options.input.as_str(),
            options.output.as_str(),
            options.modes,
            host,
        ),
    }
}
