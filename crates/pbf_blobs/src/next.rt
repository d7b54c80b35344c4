//! The next triple of the input, part by part. Each part is one function with one reading call.

ghost use Rattle.std.specs.Prelude.{◌≡◌, ◌+◌, ◌-◌, ◌<◌, ◌≤◌, ◌^◌, ◌++◌, List, ℕ, min, drop, length, true, false, Some, None, IfErr, IfOk, IfSome, MatchOption};
ghost use Rattle.host_port.specs.Told.{moved};
ghost use Rattle.host_port.specs.HostState.{OnlyReads};
ghost use Rattle.pbf_blobs.specs.Input.{OfRest};
ghost use Rattle.pbf_blobs.specs.Answers.{Answers, AnswersBlob, CountedRead, IfRead, bytes_over, is_read};
ghost use Rattle.pbf_blobs.specs.Triple.{is_known};
ghost use Rattle.pbf_blobs.specs.Next.{next_of, framed, sized, bodied, paid, payload_of, ShowsPayload};
ghost use Rattle.pbf_blobs.specs.declared.limits.TheConstants.{HEADER_LIMIT, MOST_BLOB, MOST_INPUT};

use crate::blob::{Blob, Head};
use crate::fault::PbfFault;
use crate::input::{read_behind, read_full};
use crate::limits::{HEADER_LIMIT, MOST_BLOB, MOST_INPUT};
use crate::parts::{is_known, payload_front, read_header, read_payload};
use host_port::{Bytes, Host, Text};
use std::alloc::Global;

/// So many bytes of a Blob are looked at before its payload: a tag, and a varint of five bytes.
const MOST_FRONT: usize = 6;

/// Reads the next blob of an input that stands at the place `at`, or finds its end.
///
/// The answer is by what stands there: the end of the input before a length, a triple, or the first fault in the
/// order of the parts (`docs/PBF.md`). It is the same whatever pieces the host reads in. After a fault of the
/// bytes the place in the input isn't told here.
pub fn next_blob<H: Host>(alloc: Global, host: &mut H, at: u64) -> Result<Option<Blob>, PbfFault>
    requires { at ≤ MOST_INPUT }
    ensures bytes { (input : List ℕ) → (H.state host.old).told.input ≡ Some input → (H.state host.old).told.place ≡ Some at →
        Answers result (next_of at (drop at input)) }
    ensures within { (input : List ℕ) → (H.state host.old).told.input ≡ Some input → (H.state host.old).told.place ≡ Some at →
        IfOk result (λ found. MatchOption found (length input ≤ at) (λ blob. blob.end ≤ length input)) }
    ensures few { IfOk result (λ found. IfSome found (λ blob. at + length blob.raw ≤ blob.end)) }
    ensures moved { IfOk result (λ found. (H.state host.new).told ≡ moved (bytes_over at found) (H.state host.old).told) }
    ensures ahead { IfOk result (λ found. IfSome found (λ blob. (at + 4 ≤ blob.end) × (blob.end ≤ MOST_INPUT))) }
    ensures raw { IfOk result (λ found. IfSome found (λ blob. blob.raw_at + length blob.raw < 2 ^ 64)) }
    ensures frame { OnlyReads (H.state host.old) (H.state host.new) }
    ensures faults { CountedRead (H.state host.old).read_faults (H.state host.new).read_faults result }
    ensures cause { (H.state host.old).willing → IfRead result ((H.state host.old).told.is_open ≡ Some false) }
{
    let mut length = [0; 4];
    let count = read_full(host, &mut length)?;
    if count == 0 {
        return Ok(None);
    }
    if count < 4 {
        return Err(PbfFault::Truncated { at });
    }
    let length = u32::from_be_bytes(length);
    if length >= HEADER_LIMIT {
        return Err(PbfFault::HeaderTooLong {
            at,
            len: u64::from(length),
        });
    }
    match after_length(alloc, host, at, length as usize) {
        Ok(blob) => Ok(Some(blob)),
        Err(fault) => Err(fault),
    }
}

/// Reads the header, which has this length, and the Blob behind it.
fn after_length<H: Host>(alloc: Global, host: &mut H, at: u64, len: usize) -> Result<Blob, PbfFault>
    requires place { at ≤ MOST_INPUT }
    requires short { len < HEADER_LIMIT }
    ensures bytes { OfRest (H.state host.old).told (λ rest. AnswersBlob result (framed at len rest)) }
    ensures few { IfOk result (λ blob. at + length blob.raw ≤ blob.end) }
    ensures moved { IfOk result (λ blob. (H.state host.new).told ≡ moved (blob.end - (at + 4)) (H.state host.old).told) }
    ensures ahead { IfOk result (λ blob. (at + 4 ≤ blob.end) × (blob.end ≤ MOST_INPUT)) }
    ensures raw { IfOk result (λ blob. blob.raw_at + length blob.raw < 2 ^ 64) }
    ensures frame { OnlyReads (H.state host.old) (H.state host.new) }
    ensures faults { CountedRead (H.state host.old).read_faults (H.state host.new).read_faults result }
    ensures cause { (H.state host.old).willing → IfRead result ((H.state host.old).told.is_open ≡ Some false) }
{
    let header = read_behind(alloc, host, &[], len)?;
    if header.len() < len {
        return Err(PbfFault::Truncated { at: at + 4 });
    }
    let (kind, size) = match read_header(&header, at + 4) {
        Ok(found) => found,
        Err(fault) => return Err(fault),
    };
    let kind = Text::from_str(alloc, kind)?;
    let body_at = at + 4 + len as u64;
    after_header(
        alloc,
        host,
        Head {
            at,
            body_at,
            kind,
            size,
        },
    )
}

/// Reads the Blob, where its size is within the limits.
fn after_header<H: Host>(alloc: Global, host: &mut H, head: Head) -> Result<Blob, PbfFault>
    requires body { head.body_at < 2 ^ 32 }
    ensures bytes { OfRest (H.state host.old).told (λ rest. AnswersBlob result (sized head rest)) }
    ensures few { IfOk result (λ blob. length blob.raw ≤ head.size) }
    ensures moved { IfOk result (λ blob. (H.state host.new).told ≡ moved head.size (H.state host.old).told) }
    ensures end { IfOk result (λ blob. (blob.end ≡ head.body_at + head.size) × (blob.end ≤ MOST_INPUT)) }
    ensures raw { IfOk result (λ blob. blob.raw_at + length blob.raw < 2 ^ 64) }
    ensures frame { OnlyReads (H.state host.old) (H.state host.new) }
    ensures faults { CountedRead (H.state host.old).read_faults (H.state host.new).read_faults result }
    ensures cause { (H.state host.old).willing → IfRead result ((H.state host.old).told.is_open ≡ Some false) }
{
    if head.size > MOST_BLOB {
        return Err(PbfFault::BlobTooLong {
            at: head.at,
            len: head.size,
        });
    }
    let end = head.body_at + head.size;
    if end > MOST_INPUT {
        return Err(PbfFault::TooLarge { bytes: end });
    }
    any_blob(alloc, host, head)
}

/// Reads the Blob.
fn any_blob<H: Host>(alloc: Global, host: &mut H, head: Head) -> Result<Blob, PbfFault>
    requires size { head.size ≤ MOST_BLOB }
    requires end { head.body_at + head.size ≤ MOST_INPUT }
    ensures bytes { OfRest (H.state host.old).told (λ rest. AnswersBlob result (bodied head rest)) }
    ensures few { IfOk result (λ blob. length blob.raw ≤ head.size) }
    ensures moved { IfOk result (λ blob. (H.state host.new).told ≡ moved head.size (H.state host.old).told) }
    ensures end { IfOk result (λ blob. blob.end ≡ head.body_at + head.size) }
    ensures raw { IfOk result (λ blob. blob.raw_at + length blob.raw < 2 ^ 64) }
    ensures frame { OnlyReads (H.state host.old) (H.state host.new) }
    ensures faults { CountedRead (H.state host.old).read_faults (H.state host.new).read_faults result }
    ensures cause { (H.state host.old).willing → IfRead result ((H.state host.old).told.is_open ≡ Some false) }
{
    if is_known(head.kind.as_str()) {
        known_blob(alloc, host, head)
    } else {
        other_blob(alloc, host, head)
    }
}

/// Reads over a Blob of another type.
fn other_blob<H: Host>(alloc: Global, host: &mut H, head: Head) -> Result<Blob, PbfFault>
    requires size { head.size ≤ MOST_BLOB }
    requires end { head.body_at + head.size ≤ MOST_INPUT }
    requires other { is_known head.kind ≡ false }
    ensures bytes { OfRest (H.state host.old).told (λ rest. AnswersBlob result (bodied head rest)) }
    ensures few { IfOk result (λ blob. length blob.raw ≤ head.size) }
    ensures moved { IfOk result (λ blob. (H.state host.new).told ≡ moved head.size (H.state host.old).told) }
    ensures end { IfOk result (λ blob. blob.end ≡ head.body_at + head.size) }
    ensures raw { IfOk result (λ blob. blob.raw_at + length blob.raw < 2 ^ 64) }
    ensures frame { OnlyReads (H.state host.old) (H.state host.new) }
    ensures faults { CountedRead (H.state host.old).read_faults (H.state host.new).read_faults result }
    ensures cause { (H.state host.old).willing → IfRead result ((H.state host.old).told.is_open ≡ Some false) }
{
    let body = read_behind(alloc, host, &[], head.size as usize)?;
    if (body.len() as u64) < head.size {
        return Err(PbfFault::Truncated { at: head.body_at });
    }
    Ok(Blob {
        at: head.at,
        kind: head.kind,
        size: head.size,
        known: false,
        raw_at: head.body_at,
        raw: Bytes::new(alloc),
        end: head.body_at + head.size,
    })
}

/// Reads a Blob of a known type: first the few bytes that show where its payload begins, so that the payload is
/// read to where it stays.
fn known_blob<H: Host>(alloc: Global, host: &mut H, head: Head) -> Result<Blob, PbfFault>
    requires size { head.size ≤ MOST_BLOB }
    requires end { head.body_at + head.size ≤ MOST_INPUT }
    requires known { is_known head.kind ≡ true }
    ensures bytes { OfRest (H.state host.old).told (λ rest. AnswersBlob result (bodied head rest)) }
    ensures few { IfOk result (λ blob. length blob.raw ≤ head.size) }
    ensures moved { IfOk result (λ blob. (H.state host.new).told ≡ moved head.size (H.state host.old).told) }
    ensures end { IfOk result (λ blob. blob.end ≡ head.body_at + head.size) }
    ensures raw { IfOk result (λ blob. blob.raw_at + length blob.raw < 2 ^ 64) }
    ensures frame { OnlyReads (H.state host.old) (H.state host.new) }
    ensures faults { CountedRead (H.state host.old).read_faults (H.state host.new).read_faults result }
    ensures cause { (H.state host.old).willing → IfRead result ((H.state host.old).told.is_open ≡ Some false) }
{
    let mut front = [0; MOST_FRONT];
    let room = head.size.min(MOST_FRONT as u64) as usize;
    let count = read_full(host, &mut front[..room])?;
    if count < room {
        return Err(PbfFault::Truncated { at: head.body_at });
    }
    after_front(alloc, host, head, &front[..room])
}

/// Reads what is left of a Blob of a known type behind this front.
fn after_front<H: Host>(
    alloc: Global,
    host: &mut H,
    head: Head,
    front: &[u8],
) -> Result<Blob, PbfFault>
    requires size { head.size ≤ MOST_BLOB }
    requires end { head.body_at + head.size ≤ MOST_INPUT }
    requires known { is_known head.kind ≡ true }
    requires front { length front.now ≡ min head.size 6 }
    ensures bytes { OfRest (H.state host.old).told (λ rest. AnswersBlob result (bodied head (front.now ++ rest))) }
    ensures few { IfOk result (λ blob. length blob.raw ≤ head.size) }
    ensures moved { IfOk result (λ blob. (H.state host.new).told ≡ moved (head.size - length front.now) (H.state host.old).told) }
    ensures end { IfOk result (λ blob. blob.end ≡ head.body_at + head.size) }
    ensures raw { IfOk result (λ blob. blob.raw_at + length blob.raw < 2 ^ 64) }
    ensures frame { OnlyReads (H.state host.old) (H.state host.new) }
    ensures faults { CountedRead (H.state host.old).read_faults (H.state host.new).read_faults result }
    ensures cause { (H.state host.old).willing → IfRead result ((H.state host.old).told.is_open ≡ Some false) }
{
    let left = head.size as usize - front.len();
    match payload_front(front, left) {
        Some(start) => payload(alloc, host, head, start, left),
        None => walked_blob(alloc, host, head, front, left),
    }
}

/// Reads the payload of a Blob of a known type that is nothing more: it begins with `start`, and `left` bytes
/// follow.
fn payload<H: Host>(
    alloc: Global,
    host: &mut H,
    head: Head,
    start: &[u8],
    left: usize,
) -> Result<Blob, PbfFault>
    requires size { length start.now + left ≤ head.size }
    requires size_limit { head.size ≤ MOST_BLOB }
    requires end { head.body_at + head.size ≤ MOST_INPUT }
    requires known { is_known head.kind ≡ true }
    ensures bytes { (front : List ℕ) → length front + left ≡ head.size → ShowsPayload left front start.now →
        OfRest (H.state host.old).told (λ rest. AnswersBlob result (bodied head (front ++ rest))) }
    ensures few { IfOk result (λ blob. length blob.raw ≤ head.size) }
    ensures moved { IfOk result (λ blob. (H.state host.new).told ≡ moved left (H.state host.old).told) }
    ensures end { IfOk result (λ blob. blob.end ≡ head.body_at + head.size) }
    ensures raw { IfOk result (λ blob. blob.raw_at + length blob.raw < 2 ^ 64) }
    ensures frame { OnlyReads (H.state host.old) (H.state host.new) }
    ensures faults { CountedRead (H.state host.old).read_faults (H.state host.new).read_faults result }
    ensures cause { (H.state host.old).willing → IfRead result ((H.state host.old).told.is_open ≡ Some false) }
{
    let raw = read_behind(alloc, host, start, left)?;
    if raw.len() < start.len() + left {
        return Err(PbfFault::Truncated { at: head.body_at });
    }
    let end = head.body_at + head.size;
    Ok(Blob {
        at: head.at,
        kind: head.kind,
        size: head.size,
        known: true,
        raw_at: end - raw.len() as u64,
        raw: Bytes::from(raw),
        end,
    })
}

/// Reads what is left of a Blob of a known type behind this front, and looks for its payload.
fn walked_blob<H: Host>(
    alloc: Global,
    host: &mut H,
    head: Head,
    front: &[u8],
    left: usize,
) -> Result<Blob, PbfFault>
    requires size { length front.now + left ≡ head.size }
    requires size_limit { head.size ≤ MOST_BLOB }
    requires end { head.body_at + head.size ≤ MOST_INPUT }
    requires known { is_known head.kind ≡ true }
    ensures bytes { OfRest (H.state host.old).told (λ rest. AnswersBlob result (bodied head (front.now ++ rest))) }
    ensures few { IfOk result (λ blob. length blob.raw ≤ head.size) }
    ensures moved { IfOk result (λ blob. (H.state host.new).told ≡ moved left (H.state host.old).told) }
    ensures end { IfOk result (λ blob. blob.end ≡ head.body_at + head.size) }
    ensures raw { IfOk result (λ blob. blob.raw_at + length blob.raw < 2 ^ 64) }
    ensures frame { OnlyReads (H.state host.old) (H.state host.new) }
    ensures faults { CountedRead (H.state host.old).read_faults (H.state host.new).read_faults result }
    ensures cause { (H.state host.old).willing → IfRead result ((H.state host.old).told.is_open ≡ Some false) }
{
    let body = read_behind(alloc, host, front, left)?;
    if body.len() < front.len() + left {
        return Err(PbfFault::Truncated { at: head.body_at });
    }
    blob_with_payload(alloc, head, &body)
}

/// The blob of a known type that has these bytes: its payload is copied out of them.
fn blob_with_payload(alloc: Global, head: Head, body: &[u8]) -> Result<Blob, PbfFault>
    requires place { head.body_at + length body.now ≤ MOST_INPUT }
    requires size { length body.now ≤ head.size }
    requires end { head.body_at + head.size ≤ MOST_INPUT }
    requires known { is_known head.kind ≡ true }
    ensures bytes { AnswersBlob result (paid head (payload_of head.body_at body.now)) }
    ensures few { IfOk result (λ blob. length blob.raw ≤ head.size) }
    ensures end { IfOk result (λ blob. blob.end ≡ head.body_at + head.size) }
    ensures raw { IfOk result (λ blob. blob.raw_at + length blob.raw < 2 ^ 64) }
    ensures no_read { IfErr result (λ fault. is_read fault ≡ false) }
{
    match read_payload(body, head.body_at) {
        Ok((raw_at, raw)) => {
            let raw = Bytes::from_slice(alloc, raw)?;
            Ok(Blob {
                at: head.at,
                kind: head.kind,
                size: head.size,
                known: true,
                raw_at,
                raw,
                end: head.body_at + head.size,
            })
        }
        Err(fault) => Err(fault),
    }
}
