//! What a command that is done puts and says.

ghost use Rattle.std.specs.Prelude.{◌≡◌, ◌≢◌, ◌⊎◌, ℕ, List, []};
ghost use Rattle.host_port.specs.Faults.{Rose};
ghost use Rattle.mjolnir_cli.specs.declared.failure.Failure.TheVariants.{Put, OutOfMemory};
ghost use Rattle.mjolnir_cli.specs.Failures.{line_of};
ghost use Rattle.mjolnir_cli.specs.Puts.{PutsAll, BeginsWith, IsFront, Unput};
ghost use Rattle.mjolnir_cli.specs.Said.{Adds, SaysLine};

use crate::answer::Answer;
use crate::failure::Failure;
use crate::put::put_files;
use crate::say::{say_failure, say_text};
use host_port::Host;
use std::alloc::Global;

/// Puts the files of an answer and then says its text, and answers the status. Where a file can't be put, the
/// line of that failure is said in place of the text.
pub(crate) fn deliver<H: Host>(alloc: Global, host: &mut H, answer: &Answer) -> u8
    ensures statuses { (result ≡ 0) ⊎ (result ≡ 4) ⊎ (result ≡ 7) ⊎ (result ≡ 9) }

    ensures done { result ≡ 0 → PutsAll answer.now.files (H.state host.old).told (H.state host.new).told }
    ensures said { result ≡ 0 → Adds answer.now.text (H.state host.old).told (H.state host.new).told }

    ensures put { result ≡ 4 → Rose (H.state host.old).put_faults (H.state host.new).put_faults }
    ensures put_only { result ≢ 4 → result ≢ 7 → (H.state host.new).put_faults ≡ (H.state host.old).put_faults }
    ensures put_line { result ≡ 4 → SaysLine (line_of Put) (H.state host.old).told (H.state host.new).told (H.state host.old).say_faults (H.state host.new).say_faults }
    ensures put_front { result ≡ 4 → (front : List (List ℕ × List ℕ)) × IsFront front answer.now.files × PutsAll front (H.state host.old).told (H.state host.new).told }

    ensures memory { result ≡ 7 → Adds (line_of OutOfMemory) (H.state host.old).told (H.state host.new).told ⊎ ((H.state host.new).told.said ≡ (H.state host.old).told.said) }
    ensures memory_front { result ≡ 7 → (front : List (List ℕ × List ℕ)) × BeginsWith front answer.now.files × PutsAll front (H.state host.old).told (H.state host.new).told }

    ensures say { result ≡ 9 → Rose (H.state host.old).say_faults (H.state host.new).say_faults }
    ensures say_only { result ≡ 0 → (H.state host.new).say_faults ≡ (H.state host.old).say_faults }
    ensures say_lost { result ≡ 9 → (H.state host.new).told.said ≡ (H.state host.old).told.said }
    ensures say_done { result ≡ 9 → PutsAll answer.now.files (H.state host.old).told (H.state host.new).told }
    ensures say_text { result ≡ 9 → answer.now.text ≢ [] }

    ensures place { (H.state host.new).told.place ≡ (H.state host.old).told.place }
    ensures reads { (H.state host.new).read_faults ≡ (H.state host.old).read_faults }
    ensures none { answer.now.files ≡ [] → Unput (H.state host.old).told (H.state host.new).told × ((H.state host.new).put_faults ≡ (H.state host.old).put_faults) }
    ensures willing_puts { (H.state host.old).willing → (H.state host.new).put_faults ≡ (H.state host.old).put_faults }
    ensures willing_says { (H.state host.old).willing → (H.state host.new).say_faults ≡ (H.state host.old).say_faults }
{
    match put_files(host, answer.files.as_slice()) {
        Ok(()) => say_text(alloc, host, answer.text.as_str()),
        Err(fault) => say_failure(alloc, host, &Failure::of_put(fault)),
    }
}
