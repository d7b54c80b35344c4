//! What counts among the fields of a message: of a field that comes more than once, the last.

ghost use Rattle.std.specs.Prelude.{◌≡◌, ◌+◌, ◌<◌, ◌≤◌, ◌^◌, length, IfOk, IfErr, IfSome, Err};
ghost use Rattle.std.specs.Option.{option_map};
ghost use Rattle.wire_read.specs.Fields.{seen, content_of, inner_length, fields_of};
ghost use Rattle.pbf_blobs.specs.Messages.{field_bytes, field_varint};
ghost use Rattle.pbf_blobs.specs.Walk.{FindsHeader, FindsPayload, compressed_number};

use wire_read::{Body, Field, Fields, WireFault};

/// The bytes that a field of this number holds, and the place of the first of them.
fn field_bytes<'a>(number: u32, field: &Field<'a>) -> Option<(u64, &'a [u8])>
    ensures bytes { option_map (λ bytes. (bytes.0, bytes.1.now)) result ≡ field_bytes number (seen field.now) }
    ensures inside { field.now.body_at + inner_length (content_of field.now.body) < 2 ^ 64 →
        IfSome result (λ bytes. bytes.0 + length bytes.1.now < 2 ^ 64) }
    ensures held { IfSome result (λ bytes. length bytes.1.now ≤ inner_length (content_of field.now.body)) }
{
    match field.body {
        Body::Bytes(bytes) if field.number == number => Some((field.body_at, bytes)),
        _ => None,
    }
}

/// The number that a field of this number holds as a varint.
fn field_varint(number: u32, field: &Field<'_>) -> Option<u64>
    ensures { result ≡ field_varint number (seen field.now) }
{
    match field.body {
        Body::Varint(value) if field.number == number => Some(value),
        _ => None,
    }
}

/// The number of a field that holds a compressed payload.
fn compressed_number(field: &Field<'_>) -> Option<u32>
    ensures { result ≡ compressed_number (seen field.now) }
{
    if field.number >= 3 && field.number <= 7 {
        Some(field.number)
    } else {
        None
    }
}

/// The type with its place and the datasize in a BlobHeader, which begins at the place `at`.
pub fn header_fields(
    header: &[u8],
    at: u64,
) -> Result<(Option<(u64, &[u8])>, Option<u64>), WireFault>
    requires { at + length header.now < 2 ^ 64 }
    ensures found { IfOk result (λ found. FindsHeader at header.now (option_map (λ bytes. (bytes.0, bytes.1.now)) found.0) found.1) }
    ensures fault { IfErr result (λ fault. fields_of at header.now ≡ Err fault) }
{
    let mut kind = None;
    let mut size = None;
    for field in Fields::new(header, at) {
        match field {
            Ok(field) => {
                kind = field_bytes(1, &field).or(kind);
                size = field_varint(3, &field).or(size);
            }
            Err(fault) => return Err(fault),
        }
    }
    Ok((kind, size))
}

/// The number of the first field that holds a compressed payload, and the raw payload with its place, in a Blob,
/// which begins at the place `at`.
pub fn payload_fields(
    blob: &[u8],
    at: u64,
) -> Result<(Option<u32>, Option<(u64, &[u8])>), WireFault>
    requires { at + length blob.now < 2 ^ 64 }
    ensures found { IfOk result (λ found. FindsPayload at blob.now found.0 (option_map (λ bytes. (bytes.0, bytes.1.now)) found.1)) }
    ensures inside { IfOk result (λ found. IfSome found.1 (λ raw. raw.0 + length raw.1.now < 2 ^ 64)) }
    ensures few { IfOk result (λ found. IfSome found.1 (λ raw. length raw.1.now ≤ length blob.now)) }
    ensures fault { IfErr result (λ fault. fields_of at blob.now ≡ Err fault) }
{
    let mut compressed = None;
    let mut raw = None;
    for field in Fields::new(blob, at) {
        match field {
            Ok(field) => {
                compressed = compressed.or(compressed_number(&field));
                raw = field_bytes(1, &field).or(raw);
            }
            Err(fault) => return Err(fault),
        }
    }
    Ok((compressed, raw))
}
