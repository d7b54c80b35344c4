//! An input that would end past the largest one that is read.

use program_runs::build_in;
use std::alloc::{AllocError, Global};
use std::test::Fail;
use test_support::{HEADER, data_triple, host_of};

// A data block without objects: an empty table of texts, and 33,000,000 bytes in a field that no reader knows. The
// block has 33,000,007 bytes, its Blob 33,000,012, its triple 33,000,030.
fn wide_triple(alloc: Global) -> Result<Vec<u8>, AllocError> {
    let mut block = Vec::from_slice(alloc, b"\x0a\x00\x7a\xc0\x94\xde\x0f")?;
    block.resize(33_000_007, 0)?;
    data_triple(alloc, &block)
}

// The small header, sixteen of these triples, and the BlobHeader of one more: they end at 528,000,515, and the next one
// would end 33,000,030 bytes behind that.
fn wide_file(alloc: Global) -> Result<Vec<u8>, AllocError> {
    let triple = wide_triple(alloc)?;
    let mut bytes = Vec::from_slice(alloc, &HEADER)?;
    for _ in 0..16 {
        bytes.extend_from_slice(&triple)?;
    }
    bytes.extend_from_slice(triple.get(..18).unwrap_or(&[]))?;
    Ok(bytes)
}

#[test]
fn too_large(rt: HostRuntime) -> Result<(), Fail> {
    let alloc = rt.alloc();
    let mut host = host_of(alloc, &wide_file(alloc)?, &[], 65_536)?;
    let status = build_in(&rt, &mut host)?;
    assert_eq!(rt; status, 5);
    assert!(rt; host.said.as_slice() == b"error 5 TooLarge bytes=561000545\n".as_slice());
    Ok(())
}
