//! The command `blobs`: a line for each blob of the input.

ghost use Rattle.std.specs.Prelude.{◌≡◌, ℕ, ◌++◌, List, length, Some, IsSome, false, IfOk, IfErr, OnOk};
ghost use Rattle.std.specs.String.{string_bytes};
ghost use Rattle.host_port.specs.Told.{named};
ghost use Rattle.host_port.specs.HostState.{OnlyOpens, OnlyReads};
ghost use Rattle.mjolnir_cli.specs.Commands.BlobsCommand.{ListsBlobs, StopsAt, blob_line};
ghost use Rattle.mjolnir_cli.specs.Failures.{cause_of};
ghost use Rattle.mjolnir_cli.specs.Listing.{IfOfInput, IsMet, CountedRead, IfRead};

use crate::failure::Failure;
use host_port::Host;
use pbf_blobs::{Blob, next_blob};
use std::alloc::{AllocError, Global};

/// The lines of all blobs of the file of that path. The file is read to its end.
pub(crate) fn blob_list<H: Host>(alloc: Global, path: &str, host: &mut H) -> Result<String, Failure>
    ensures listed { IfOk result (λ text. (bytes : List ℕ) → named path.now (H.state host.old).told ≡ Some bytes → ListsBlobs bytes (string_bytes text)) }
    ensures whole { OnOk result ((bytes : List ℕ) → named path.now (H.state host.old).told ≡ Some bytes → (H.state host.new).told.place ≡ Some (length bytes)) }
    ensures refused { IfErr result (λ failure. (bytes : List ℕ) → named path.now (H.state host.old).told ≡ Some bytes → IfOfInput (cause_of failure) (StopsAt bytes failure)) }
    ensures met { IfErr result (λ failure. IsMet (cause_of failure)) }
    ensures frame { OnlyOpens (H.state host.old) (H.state host.new) }
    ensures faults { CountedRead (H.state host.old).read_faults (H.state host.new).read_faults result }
    ensures cause { (H.state host.old).willing → IsSome (named path.now (H.state host.old).told) → IfRead result ⊥ }
{
    host.open_input(path)?;
    list_blobs(alloc, host)
}

/// The lines of the blobs of an input that stands at its start. It is read to its end.
fn list_blobs<H: Host>(alloc: Global, host: &mut H) -> Result<String, Failure>
    ensures listed { IfOk result (λ text. (bytes : List ℕ) → (H.state host.old).told.input ≡ Some bytes → (H.state host.old).told.place ≡ Some 0 → ListsBlobs bytes (string_bytes text)) }
    ensures whole { OnOk result ((bytes : List ℕ) → (H.state host.old).told.input ≡ Some bytes → (H.state host.old).told.place ≡ Some 0 → (H.state host.new).told.place ≡ Some (length bytes)) }
    ensures refused { IfErr result (λ failure. (bytes : List ℕ) → (H.state host.old).told.input ≡ Some bytes → (H.state host.old).told.place ≡ Some 0 → IfOfInput (cause_of failure) (StopsAt bytes failure)) }
    ensures met { IfErr result (λ failure. IsMet (cause_of failure)) }
    ensures frame { OnlyReads (H.state host.old) (H.state host.new) }
    ensures faults { CountedRead (H.state host.old).read_faults (H.state host.new).read_faults result }
    ensures cause { (H.state host.old).willing → IfRead result ((H.state host.old).told.is_open ≡ Some false) }
{
    let mut text = String::new(alloc);
    let mut at = 0;
    loop {
        match next_blob(alloc, host, at) {
            Ok(None) => return Ok(text),
            Ok(Some(blob)) => {
                push_line(&mut text, &blob)?;
                at = blob.end;
            }
            Err(fault) => return Err(Failure::from(fault)),
        }
    }
}

/// Adds the line of a blob: the place of its triple, its type and its size.
fn push_line(text: &mut String, blob: &Blob) -> Result<(), AllocError>
    ensures { OnOk result (string_bytes text.new ≡ string_bytes text.old ++ blob_line blob.now) }
{
    writeln!(text, "{} {} {}", blob.at, blob.kind.as_str(), blob.size)
}
