//! Small extracts, and a writer of them: the messages of osmformat.proto and fileformat.proto, field by field.

use std::alloc::{AllocError, Global};

/// A header alone: the length 13, the BlobHeader at 4, the Blob of 18 bytes at 17.
pub const HEADER: [u8; 35] = [
    0x00, 0x00, 0x00, 0x0d, 0x0a, 0x09, 0x4f, 0x53, 0x4d, 0x48, 0x65, 0x61, 0x64, 0x65, 0x72, 0x18,
    0x12, 0x0a, 0x10, 0x22, 0x0e, 0x4f, 0x73, 0x6d, 0x53, 0x63, 0x68, 0x65, 0x6d, 0x61, 0x2d, 0x56,
    0x30, 0x2e, 0x36,
];

/// The triple behind it: the length 11 at 35, the BlobHeader at 39, the Blob of 62 bytes at 50.
pub const NODES_AND_WAY: [u8; 77] = [
    0x00, 0x00, 0x00, 0x0b, 0x0a, 0x07, 0x4f, 0x53, 0x4d, 0x44, 0x61, 0x74, 0x61, 0x18, 0x3e, 0x0a,
    0x3c, 0x0a, 0x18, 0x0a, 0x00, 0x0a, 0x07, 0x68, 0x69, 0x67, 0x68, 0x77, 0x61, 0x79, 0x0a, 0x0b,
    0x72, 0x65, 0x73, 0x69, 0x64, 0x65, 0x6e, 0x74, 0x69, 0x61, 0x6c, 0x12, 0x10, 0x12, 0x0e, 0x0a,
    0x02, 0x02, 0x02, 0x42, 0x02, 0x00, 0x00, 0x4a, 0x04, 0x00, 0xa0, 0x9c, 0x01, 0x12, 0x0e, 0x1a,
    0x0c, 0x08, 0x0a, 0x12, 0x01, 0x01, 0x1a, 0x01, 0x02, 0x42, 0x02, 0x02, 0x02,
];

/// A Blob whose payload is compressed by zlib: field 3 instead of field 1.
pub const COMPRESSED: [u8; 21] = [
    0x00, 0x00, 0x00, 0x0d, 0x0a, 0x09, 0x4f, 0x53, 0x4d, 0x48, 0x65, 0x61, 0x64, 0x65, 0x72, 0x18,
    0x04, 0x1a, 0x02, 0x78, 0x9c,
];

/// The same bytes under the type `Unknown00`.
pub const UNKNOWN: [u8; 21] = [
    0x00, 0x00, 0x00, 0x0d, 0x0a, 0x09, 0x55, 0x6e, 0x6b, 0x6e, 0x6f, 0x77, 0x6e, 0x30, 0x30, 0x18,
    0x04, 0x1a, 0x02, 0x78, 0x9c,
];

/// The header alone, with a length that isn't below 65,536.
pub const LONG: [u8; 8] = [0x01, 0x00, 0x00, 0x0d, 0x0a, 0x09, 0x4f, 0x53];

/// The first `count` bytes of the two triples.
pub fn front(alloc: Global, count: usize) -> Result<Vec<u8>, AllocError> {
    let mut bytes = Vec::from_slice(alloc, &HEADER)?;
    bytes.extend_from_slice(&NODES_AND_WAY)?;
    bytes.truncate(count);
    Ok(bytes)
}

/// The texts "", "highway" and "residential", numbered from 0: the string table of a block, field 1.
const STRINGS: [u8; 26] = [
    0x0a, 0x18, 0x0a, 0x00, 0x0a, 0x07, 0x68, 0x69, 0x67, 0x68, 0x77, 0x61, 0x79, 0x0a, 0x0b, 0x72,
    0x65, 0x73, 0x69, 0x64, 0x65, 0x6e, 0x74, 0x69, 0x61, 0x6c,
];

/// Seven bits a byte, the lowest first; each byte but the last has its highest bit set.
pub fn put_varint(bytes: &mut Vec<u8>, number: u64) -> Result<(), AllocError> {
    let mut left = number;
    for _ in 0..10 {
        if left < 128 {
            break;
        }
        bytes.push((left % 128) as u8 + 128)?;
        left /= 128;
    }
    bytes.push((left % 128) as u8)?;
    Ok(())
}

/// A field of bytes behind its tag, the number times eight and two.
pub fn put_field(bytes: &mut Vec<u8>, tag: u8, body: &[u8]) -> Result<(), AllocError> {
    bytes.push(tag)?;
    put_varint(bytes, body.len() as u64)?;
    bytes.extend_from_slice(body)
}

/// Twice a number that isn't negative, and one less than twice the size of one that is.
pub(crate) fn zigzag(number: i64) -> u64 {
    let twice = number.unsigned_abs().saturating_mul(2);
    if number < 0 {
        twice.saturating_sub(1)
    } else {
        twice
    }
}

/// Each number as its zigzag difference from the one before it.
pub(crate) fn deltas(alloc: Global, numbers: &[i64]) -> Result<Vec<u8>, AllocError> {
    let mut bytes = Vec::new(alloc);
    let mut last = 0i64;
    for number in numbers {
        put_varint(&mut bytes, zigzag(number.saturating_sub(last)))?;
        last = *number;
    }
    Ok(bytes)
}

/// The group of nodes 1, 2 and so on with these latitudes and longitudes: a dense message, field 2.
fn node_group(alloc: Global, lats: &[i64], lons: &[i64]) -> Result<Vec<u8>, AllocError> {
    let mut ids = Vec::new(alloc);
    for place in 0..lats.len() {
        ids.push(place as i64 + 1)?;
    }
    let mut dense = Vec::new(alloc);
    put_field(&mut dense, 0x0a, &deltas(alloc, &ids)?)?;
    put_field(&mut dense, 0x42, &deltas(alloc, lats)?)?;
    put_field(&mut dense, 0x4a, &deltas(alloc, lons)?)?;
    let mut group = Vec::new(alloc);
    put_field(&mut group, 0x12, &dense)?;
    Ok(group)
}

/// The group of a residential way with these refs: its id, which is below 128, keys, values and refs, in field 3.
fn way_group(alloc: Global, id: u8, refs: &[i64]) -> Result<Vec<u8>, AllocError> {
    let mut way = Vec::from_slice(alloc, &[0x08, id, 0x12, 0x01, 0x01, 0x1a, 0x01, 0x02])?;
    put_field(&mut way, 0x42, &deltas(alloc, refs)?)?;
    let mut group = Vec::new(alloc);
    put_field(&mut group, 0x1a, &way)?;
    Ok(group)
}

/// A data triple of a raw block: the length of its header in four bytes, the BlobHeader, the Blob.
pub fn data_triple(alloc: Global, block: &[u8]) -> Result<Vec<u8>, AllocError> {
    let mut blob = Vec::new(alloc);
    put_field(&mut blob, 0x0a, block)?;
    let mut header = Vec::new(alloc);
    put_field(&mut header, 0x0a, b"OSMData")?;
    header.push(0x18)?;
    put_varint(&mut header, blob.len() as u64)?;
    let mut triple = Vec::from_slice(alloc, &[0, 0, 0, (header.len() % 256) as u8])?;
    triple.extend_from_slice(&header)?;
    triple.extend_from_slice(&blob)?;
    Ok(triple)
}

/// The extract of this header, of nodes 1, 2 and so on at these latitudes and longitudes, and of residential
/// way 10 with these refs.
pub fn extract_of(
    alloc: Global,
    header: &[u8],
    lats: &[i64],
    lons: &[i64],
    refs: &[i64],
) -> Result<Vec<u8>, AllocError> {
    extract_with_way(alloc, header, lats, lons, 10, refs)
}

/// The same, with another id of the way, which is below 128.
pub fn extract_with_way(
    alloc: Global,
    header: &[u8],
    lats: &[i64],
    lons: &[i64],
    id: u8,
    refs: &[i64],
) -> Result<Vec<u8>, AllocError> {
    let mut block = Vec::from_slice(alloc, &STRINGS)?;
    put_field(&mut block, 0x12, &node_group(alloc, lats, lons)?)?;
    put_field(&mut block, 0x12, &way_group(alloc, id, refs)?)?;
    let mut bytes = Vec::from_slice(alloc, header)?;
    bytes.extend_from_slice(&data_triple(alloc, &block)?)?;
    Ok(bytes)
}
