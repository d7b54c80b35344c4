//! The parts of a triple, read from slices.

ghost use Rattle.std.specs.Prelude.{◌≡◌, ◌+◌, ◌≤◌, ◌<◌, ◌^◌, length, false, Ok, Err, IfOk, IfErr, IfSome};
ghost use Rattle.pbf_blobs.specs.Answers.{is_read};
ghost use Rattle.pbf_blobs.specs.Triple.{is_known};
ghost use Rattle.pbf_blobs.specs.Next.{header_of, payload_of, ShowsPayload};

use crate::fault::PbfFault;
use crate::walk::{header_fields, payload_fields};
use std::str;
use wire_read::read_varint;

/// The tag of field 1 with bytes, the raw payload.
const RAW_TAG: u8 = 0x0a;

/// Whether the payload of blobs of this type is read.
pub fn is_known(kind: &str) -> bool
    ensures { result ≡ is_known kind.now }
{
    kind == "OSMHeader" || kind == "OSMData"
}

/// The type and the datasize that a BlobHeader gives. `at` is the place of its first byte.
#[tactic(auto, unfolding(crate::specs::Next::header_of))]
pub fn read_header(header: &[u8], at: u64) -> Result<(&str, u64), PbfFault>
    requires { at + length header.now < 2 ^ 64 }
    ensures found { IfOk result (λ found. header_of at header.now ≡ Ok (found.0.now, found.1)) }
    ensures fault { IfErr result (λ fault. header_of at header.now ≡ Err fault) }
    ensures no_read { IfErr result (λ fault. is_read fault ≡ false) }
{
    let (kind, size) = match header_fields(header, at) {
        Ok(found) => found,
        Err(fault) => return Err(PbfFault::Wire { fault }),
    };
    let Some((_, kind)) = kind else {
        return Err(PbfFault::MissingField { at, number: 1 });
    };
    let Some(size) = size else {
        return Err(PbfFault::MissingField { at, number: 3 });
    };
    match str::from_utf8(kind) {
        Ok(text) => Ok((text, size)),
        Err(_) => Err(PbfFault::BadType { at }),
    }
}

/// The place and the bytes of the raw payload of a Blob of a known type. `at` is the place of its first byte.
#[tactic(auto, unfolding(crate::specs::Next::payload_of))]
pub fn read_payload(blob: &[u8], at: u64) -> Result<(u64, &[u8]), PbfFault>
    requires { at + length blob.now < 2 ^ 64 }
    ensures found { IfOk result (λ found. payload_of at blob.now ≡ Ok (found.0, found.1.now)) }
    ensures inside { IfOk result (λ found. found.0 + length found.1.now < 2 ^ 64) }
    ensures few { IfOk result (λ found. length found.1.now ≤ length blob.now) }
    ensures fault { IfErr result (λ fault. payload_of at blob.now ≡ Err fault) }
    ensures no_read { IfErr result (λ fault. is_read fault ≡ false) }
{
    let (compressed, raw) = match payload_fields(blob, at) {
        Ok(found) => found,
        Err(fault) => return Err(PbfFault::Wire { fault }),
    };
    if let Some(field) = compressed {
        return Err(PbfFault::Compressed { at, field });
    }
    match raw {
        Some(raw) => Ok(raw),
        None => Err(PbfFault::NoPayload { at }),
    }
}

/// The payload's bytes in the front of a Blob, of which `left` bytes follow, where the Blob is the payload's field
/// and nothing more, as nearly all are; otherwise nothing.
pub fn payload_front(front: &[u8], left: usize) -> Option<&[u8]>
    requires { length front.now + left < 2 ^ 64 }
    ensures shows { IfSome result (λ start. ShowsPayload left front.now start.now) }
    ensures shorter { IfSome result (λ start. length start.now ≤ length front.now) }
{
    let (tag, bytes) = front.split_first()?;
    if *tag != RAW_TAG {
        return None;
    }
    match read_varint(bytes, 0) {
        Ok((size, start)) if size == (start.len() + left) as u64 => Some(start),
        _ => None,
    }
}
