//! The whole file.

ghost use Rattle.std.specs.Prelude.{◌≡◌, ◌+◌, ◌≤◌, ℕ, List, drop, false, Some, OnOk, IfOk, IfErr, IfSome, MatchOption, length};
ghost use Rattle.host_port.specs.Told.{moved};
ghost use Rattle.host_port.specs.HostState.{OnlyReads};
ghost use Rattle.pbf_blobs.specs.Next.{next_of};
ghost use Rattle.pbf_blobs.specs.Answers.{Where};
ghost use Rattle.osm_blocks.specs.Extracts.{lists_of};
ghost use Rattle.osm_blocks.specs.Faults.{is_of_bytes};
ghost use Rattle.osm_blocks.specs.FileContent.{IsFileOf};
ghost use Rattle.osm_blocks.specs.FileFaults.{IsFaultyFile};
ghost use Rattle.osm_objects.specs.Sizes.{parts_in};
ghost use Rattle.osm_blocks.specs.Steps.{seen, ArePlaced};
ghost use Rattle.osm_blocks.specs.ReadAnswers.{AddsNext, Answers, CountedRead, IfRead, bytes_to};

use crate::draft::Draft;
use crate::fault::ExtractFault;
use crate::law::{content_law, refusal_law};
use host_port::Host;
use osm_model::Extract;
use pbf_blobs::next_blob;
use std::alloc::Global;

/// Reads the blob at the place `at` and adds what it says to the draft. The place behind it is answered, or nothing
/// at the end of the input. What has been read is never more than the bytes before that place.
fn add_next<H: Host>(
    alloc: Global,
    host: &mut H,
    at: u64,
    draft: &mut Draft,
) -> Result<Option<u64>, ExtractFault>
    requires low { at ≤ 536870912 }
    requires room { parts_in (seen draft.now).objects ≤ at }
    ensures bytes { (input : List ℕ) → (H.state host.old).told.input ≡ Some input → (H.state host.old).told.place ≡ Some at →
        AddsNext (seen draft.old) (seen draft.new) result (next_of at (drop at input)) }
    ensures draft { ArePlaced draft.old → OnOk result (ArePlaced draft.new) }
    ensures room { IfOk result (λ end. IfSome end (λ end. parts_in (seen draft.new).objects ≤ end)) }
    ensures within { (input : List ℕ) → (H.state host.old).told.input ≡ Some input → (H.state host.old).told.place ≡ Some at →
        IfOk result (λ end. MatchOption end (length input ≤ at) (λ end. end ≤ length input)) }
    ensures moved { IfOk result (λ end. (H.state host.new).told ≡ moved (bytes_to at end) (H.state host.old).told) }
    ensures ahead { IfOk result (λ end. IfSome end (λ end. (at + 4 ≤ end) × (end ≤ 536870912))) }
    ensures frame { OnlyReads (H.state host.old) (H.state host.new) }
    ensures faults { CountedRead (H.state host.old).read_faults (H.state host.new).read_faults result }
    ensures cause { (H.state host.old).willing → IfRead result ((H.state host.old).told.is_open ≡ Some false) }
{
    match next_blob(alloc, host, at) {
        Ok(Some(blob)) => match draft.add_blob(alloc, &blob) {
            Ok(()) => Ok(Some(blob.end)),
            Err(fault) => Err(fault),
        },
        Ok(None) => Ok(None),
        Err(fault) => Err(ExtractFault::from(fault)),
    }
}

/// Reads the extract of an input that was opened and stands at its first byte.
///
/// `Ok` is the extract of the bytes, and the input was read to its end. Each fault of the bytes comes exactly where it
/// is their first one (`docs/PBF.md`). After a fault the place in the input isn't told here.
pub fn read_extract<H: Host>(alloc: Global, host: &mut H) -> Result<Extract, ExtractFault>
    ensures bytes { (input : List ℕ) → (H.state host.old).told.input ≡ Some input → (H.state host.old).told.place ≡ Some 0 →
        Answers input result }
    ensures end { (input : List ℕ) → (H.state host.old).told.input ≡ Some input → (H.state host.old).told.place ≡ Some 0 →
        OnOk result ((H.state host.new).told.place ≡ Some (length input)) }
    // The same in the words of the format. What a host tells are bytes, so no premise says so.
    ensures file { (input : List ℕ) → (H.state host.old).told.input ≡ Some input → (H.state host.old).told.place ≡ Some 0 →
        IfOk result (λ extract. IsFileOf input (lists_of extract)) }
    ensures faulty { (input : List ℕ) → (H.state host.old).told.input ≡ Some input → (H.state host.old).told.place ≡ Some 0 →
        IfErr result (λ fault. Where (is_of_bytes fault) (IsFaultyFile input fault)) }
    ensures frame { OnlyReads (H.state host.old) (H.state host.new) }
    ensures faults { CountedRead (H.state host.old).read_faults (H.state host.new).read_faults result }
    ensures cause { (H.state host.old).willing → IfRead result ((H.state host.old).told.is_open ≡ Some false) }
{
    content_law();
    refusal_law();
    let mut draft = Draft::new(alloc);
    let mut at = 0;
    loop {
        match add_next(alloc, host, at, &mut draft) {
            Ok(Some(end)) => at = end,
            Ok(None) => return draft.finish(alloc, at),
            Err(fault) => return Err(fault),
        }
    }
}
