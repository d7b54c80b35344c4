//! What is said: the text of a command that is done, or the line of a failure.

ghost use Rattle.std.specs.Prelude.{◌≡◌, ◌≢◌, ◌⊎◌, []};
ghost use Rattle.host_port.specs.HostState.{OnlySays};
ghost use Rattle.host_port.specs.Faults.{Rose};
ghost use Rattle.mjolnir_cli.specs.Failures.{status_of, line_of};
ghost use Rattle.mjolnir_cli.specs.Said.{Adds, SaysLine};
ghost use Rattle.mjolnir_cli.specs.declared.failure.Failure.TheVariants.{OutOfMemory};

use crate::failure::Failure;
use host_port::{Host, HostFault};
use std::alloc::Global;

/// Says the text of a command that is done, in one call; an empty text makes none. Answers the status.
pub(crate) fn say_text<H: Host>(alloc: Global, host: &mut H, text: &str) -> u8
    ensures statuses { (result ≡ 0) ⊎ (result ≡ 7) ⊎ (result ≡ 9) }
    ensures done { result ≡ 0 → Adds text.now (H.state host.old).told (H.state host.new).told }
    ensures heard { result ≡ 0 → (H.state host.new).say_faults ≡ (H.state host.old).say_faults }
    ensures memory { result ≡ 7 → Adds (line_of OutOfMemory) (H.state host.old).told (H.state host.new).told ⊎ ((H.state host.new).told.said ≡ (H.state host.old).told.said) }
    // Nothing is called for an empty text, so nothing can fail.
    ensures empty { result ≡ 9 → text.now ≢ [] }
    ensures lost { result ≡ 9 → (H.state host.new).told.said ≡ (H.state host.old).told.said }
    ensures rose { result ≡ 9 → Rose (H.state host.old).say_faults (H.state host.new).say_faults }
    ensures frame { OnlySays (H.state host.old) (H.state host.new) }
    ensures willing { (H.state host.old).willing → (H.state host.new).say_faults ≡ (H.state host.old).say_faults }
{
    if text.is_empty() {
        return 0;
    }
    match host.say(text.as_bytes()) {
        Ok(()) => 0,
        Err(HostFault::Failed) => 9,
        Err(HostFault::OutOfMemory) => say_failure(alloc, host, &Failure::OutOfMemory),
    }
}

/// Says the line of a failure, and answers its status. Where saying it fails, the line is lost; where
/// there is no memory for it, it is lost too, and the status is that of want of memory.
pub(crate) fn say_failure<H: Host>(alloc: Global, host: &mut H, failure: &Failure) -> u8
    ensures status { (result ≡ status_of failure.now) ⊎ (result ≡ 7) }
    ensures line { result ≢ 7 → SaysLine (line_of failure.now) (H.state host.old).told (H.state host.new).told (H.state host.old).say_faults (H.state host.new).say_faults }
    ensures memory { result ≡ 7 → Adds (line_of OutOfMemory) (H.state host.old).told (H.state host.new).told ⊎ ((H.state host.new).told.said ≡ (H.state host.old).told.said) }
    ensures frame { OnlySays (H.state host.old) (H.state host.new) }
    ensures willing { (H.state host.old).willing → (H.state host.new).say_faults ≡ (H.state host.old).say_faults }
{
    match failure.line(alloc) {
        Ok(line) => match host.say(line.as_slice()) {
            Ok(()) => failure.status(),
            Err(HostFault::Failed) => failure.status(),
            Err(HostFault::OutOfMemory) => Failure::OutOfMemory.status(),
        },
        Err(_) => Failure::OutOfMemory.status(),
    }
}
