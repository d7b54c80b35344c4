//! The triples of a PBF file: a length, a BlobHeader and a Blob.

ghost use Rattle.std.specs.Prelude.{◌≡◌, ◌<◌, ◌≤◌, ◌++◌, length, codes, OnOk};
ghost use Rattle.extract_maker.specs.GridFile.{triple_front, block_bytes, data_bytes, header_file};

use crate::spelling::{field_len, push_bytes, push_front, push_number, varint_len};
use std::alloc::AllocError;

/// Puts all of a triple but its payload, of which there are so many bytes.
fn push_triple_front(file: &mut Vec<u8>, kind: &str, many: u64) -> Result<(), AllocError>
    requires kind { length kind.now ≤ 100 }
    requires many { many ≤ 1000000 }
    ensures { OnOk result (file.new.items ≡ file.old.items ++ triple_front kind.now many) }
{
    let size = field_len(1, many);
    let header = field_len(1, kind.len() as u64) + varint_len(24) + varint_len(size);
    file.extend_from_slice((header as u32).to_be_bytes().as_slice())?;
    push_bytes(file, 1, kind.as_bytes())?;
    push_number(file, 3, size)?;
    push_front(file, 1, many)
}

/// Puts the header, which names the features that a reader has to know.
pub(crate) fn push_header(file: &mut Vec<u8>) -> Result<(), AllocError>
    ensures { OnOk result (file.new.items ≡ file.old.items ++ header_file) }
{
    let schema = "OsmSchema-V0.6";
    let dense = "DenseNodes";
    push_triple_front(file, "OSMHeader", 28)?;
    push_bytes(file, 4, schema.as_bytes())?;
    push_bytes(file, 4, dense.as_bytes())
}

/// Appends a PrimitiveBlock with this string table and one object, which is the field of this number of a
/// PrimitiveGroup.
pub(crate) fn push_data(
    file: &mut Vec<u8>,
    table: &[u8],
    field: u64,
    object: &[u8],
) -> Result<(), AllocError>
    requires table { length table.now ≤ 10000 }
    requires field { field < 16 }
    requires object { length object.now ≤ 100000 }
    ensures { OnOk result (file.new.items ≡ file.old.items ++ data_bytes (block_bytes table.now field object.now)) }
{
    let group = field_len(field, object.len() as u64);
    let payload = field_len(1, table.len() as u64) + field_len(2, group);
    push_triple_front(file, "OSMData", payload)?;
    push_bytes(file, 1, table)?;
    push_front(file, 2, group)?;
    push_bytes(file, field, object)
}
