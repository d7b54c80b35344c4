//! What is looked for where no blob had a fault, an id that comes twice; which tags and places are read. How places are
//! counted stands in `faults` of `refusal_tests`; where nothing is wrong the line is empty.

use program_runs::{build_in, ends, says, two_say};
use std::alloc::{AllocError, Global};
use std::test::Fail;
use std::thread::Threads;
use test_support::{HEADER, data_triple, file_is, host_of, puts_are, word_bytes};

// Two data blocks. An id of a node is zigzag: 03 is -2, 0e is 7.
#[test]
fn ids_that_come_twice(rt: HostRuntime) -> Result<(), Fail> {
    for (name, first, second, said) in [
        (
            "a node",
            b"\x0a\x00\x12\x08\x0a\x06\x08\x0e\x40\x00\x48\x00".as_slice(),
            b"\x0a\x00\x12\x08\x0a\x06\x08\x0e\x40\x00\x48\x00".as_slice(),
            "error 5 DuplicateId kind=node id=7\n",
        ),
        (
            "a node and a dense one",
            b"\x0a\x00\x12\x08\x0a\x06\x08\x0e\x40\x00\x48\x00",
            b"\x0a\x00\x12\x0b\x12\x09\x0a\x01\x0e\x42\x01\x00\x4a\x01\x00",
            "error 5 DuplicateId kind=node id=7\n",
        ),
        (
            "a way",
            b"\x0a\x00\x12\x04\x1a\x02\x08\x07",
            b"\x0a\x00\x12\x04\x1a\x02\x08\x07",
            "error 5 DuplicateId kind=way id=7\n",
        ),
        (
            "a relation",
            b"\x0a\x00\x12\x04\x22\x02\x08\x07",
            b"\x0a\x00\x12\x04\x22\x02\x08\x07",
            "error 5 DuplicateId kind=relation id=7\n",
        ),
        (
            "a node, a way and a relation",
            b"\x0a\x00\x12\x08\x0a\x06\x08\x0e\x40\x00\x48\x00",
            b"\x0a\x00\x12\x04\x1a\x02\x08\x07\x12\x04\x22\x02\x08\x07",
            "",
        ),
        (
            "nodes before ways before relations",
            b"\x0a\x00\x12\x04\x22\x02\x08\x05\x12\x04\x1a\x02\x08\x06\x12\x08\x0a\x06\x08\x0e\x40\x00\x48\x00",
            b"\x0a\x00\x12\x04\x22\x02\x08\x05\x12\x04\x1a\x02\x08\x06\x12\x08\x0a\x06\x08\x0e\x40\x00\x48\x00",
            "error 5 DuplicateId kind=node id=7\n",
        ),
        (
            "ways before relations",
            b"\x0a\x00\x12\x04\x22\x02\x08\x05\x12\x04\x1a\x02\x08\x06",
            b"\x0a\x00\x12\x04\x22\x02\x08\x05\x12\x04\x1a\x02\x08\x06",
            "error 5 DuplicateId kind=way id=6\n",
        ),
        (
            "the least of two nodes",
            b"\x0a\x00\x12\x08\x0a\x06\x08\x0e\x40\x00\x48\x00\x12\x08\x0a\x06\x08\x03\x40\x00\x48\x00",
            b"\x0a\x00\x12\x08\x0a\x06\x08\x0e\x40\x00\x48\x00\x12\x08\x0a\x06\x08\x03\x40\x00\x48\x00",
            "error 5 DuplicateId kind=node id=-2\n",
        ),
        // the id -1 of a way is ff .. 01, with no zigzag
        (
            "the least of two ways",
            b"\x0a\x00\x12\x04\x1a\x02\x08\x07\x12\x0d\x1a\x0b\x08\xff\xff\xff\xff\xff\xff\xff\xff\xff\x01",
            b"\x0a\x00\x12\x04\x1a\x02\x08\x07\x12\x0d\x1a\x0b\x08\xff\xff\xff\xff\xff\xff\xff\xff\xff\x01",
            "error 5 DuplicateId kind=way id=-1\n",
        ),
        (
            "the least of two relations",
            b"\x0a\x00\x12\x04\x22\x02\x08\x07\x12\x04\x22\x02\x08\x05",
            b"\x0a\x00\x12\x04\x22\x02\x08\x07\x12\x04\x22\x02\x08\x05",
            "error 5 DuplicateId kind=relation id=5\n",
        ),
        // the second block begins at 52 + 8 + 17 = 77, and its second way at 77 + 8 + 4 = 89
        (
            "behind the faults of the blocks",
            b"\x0a\x00\x12\x04\x1a\x02\x08\x07",
            b"\x0a\x00\x12\x04\x1a\x02\x08\x07\x12\x02\x1a\x00",
            "error 5 MissingField at=89 number=1\n",
        ),
        // the first block has 6 bytes, and its way is at 58; the second has a fault in its bytes
        (
            "a fault of the first block before one of the second",
            b"\x0a\x00\x12\x02\x1a\x00",
            b"\x0a\x00\x0b",
            "error 5 MissingField at=58 number=1\n",
        ),
    ] {
        assert!(rt; two_say(&rt, first, second, said)?, "{name}");
    }
    Ok(())
}

/// The tile of nodes 1 and 2 on a meridian, 10,000 units apart, and of residential way 10 between them.
const SOUTH_NORTH: [u64; 29] = [
    0x3130_454c_4954_4a4d,
    0x3f_5e82,
    0,
    0x2_0000_0002,
    0,
    0,
    0x28,
    0x4f_0000_0000_00e8,
    1,
    0,
    0x20_0000,
    0x4f,
    2,
    0x2710,
    0x20_0001,
    0x4f,
    0x23f_5e82,
    0x2000_0000_2b7c,
    0x6_004f_004f,
    0,
    0x3f_5e82,
    0x2b7c,
    0x6_004f_004f,
    0,
    0xa,
    0,
    2,
    0x2710_0000_0000,
    0,
];

/// The same road 10 degrees north and 20 degrees east of there, in row (90 + 10) * 4 = 400 and column (180 + 20) * 4 =
/// 800: tile 400 * 1440 + 800 = 576800, whose value is 2 + 8 * 576800 = 4614402.
const FARTHER: [u64; 29] = [
    0x3130_454c_4954_4a4d,
    0x46_6902,
    0xbeb_c200_05f5_e100,
    0x2_0000_0002,
    0,
    0,
    0x28,
    0x4f_0000_0000_00e8,
    1,
    0xbeb_c200_05f5_e100,
    0x20_0000,
    0x4f,
    2,
    0xbeb_c200_05f6_0810,
    0x20_0001,
    0x4f,
    0x246_6902,
    0x2000_0000_2b7c,
    0x6_004f_004f,
    0,
    0x46_6902,
    0x2b7c,
    0x6_004f_004f,
    0,
    0xa,
    0,
    0x5f5_e100_0000_0002,
    0x5f6_0810_0beb_c200,
    0xbeb_c200,
];

// The way has `highway=residential` twice.
#[test]
fn a_tag_twice(rt: HostRuntime) -> Result<(), Fail> {
    let block =
        b"\x0a\x18\x0a\x00\x0a\x07highway\x0a\x0bresidential\x12\x10\x12\x0e\x0a\x02\x02\x02\x42\x04\x00\xa0\x9c\x01\x4a\x02\x00\x00\x12\x10\x1a\x0e\x08\x0a\x12\x02\x01\x01\x1a\x02\x02\x02\x42\x02\x02\x02";
    let mut bytes = Vec::from_slice(rt.alloc(), &HEADER)?;
    bytes.extend_from_slice(&data_triple(rt.alloc(), block.as_slice())?)?;
    let tile = word_bytes(rt.alloc(), &SOUTH_NORTH)?;
    assert!(rt; ends(&rt, &bytes, 0, &tile, "")?);
    Ok(())
}

// Behind the objects stand granularity 1,000 (e8 07) and the offsets of 10 and 20 degrees, so that 1,000 steps are 10,000
// units.
#[test]
fn steps_and_offsets(rt: HostRuntime) -> Result<(), Fail> {
    let block =
        b"\x0a\x18\x0a\x00\x0a\x07highway\x0a\x0bresidential\x12\x0f\x12\x0d\x0a\x02\x02\x02\x42\x03\x00\xd0\x0f\x4a\x02\x00\x00\x12\x0e\x1a\x0c\x08\x0a\x12\x01\x01\x1a\x01\x02\x42\x02\x02\x02\x88\x01\xe8\x07\x98\x01\x80\xc8\xaf\xa0\x25\xa0\x01\x80\x90\xdf\xc0\x4a";
    let mut bytes = Vec::from_slice(rt.alloc(), &HEADER)?;
    bytes.extend_from_slice(&data_triple(rt.alloc(), block.as_slice())?)?;
    let mut host = host_of(rt.alloc(), &bytes, &[], 65_536)?;
    let status = build_in(&rt, &mut host)?;
    assert_eq!(rt; (status, host.said.len()), (0, 0));
    assert!(rt; puts_are(rt.alloc(), &host, "out/2/000/576/800.gph")?);
    assert!(rt; file_is(rt.alloc(), &host, "out/2/000/576/800.gph", &FARTHER)?);
    Ok(())
}

/// A block with way 7, which has a byte ff, text 2, under this key of fewer than 100 bytes.
fn way_with_key(alloc: Global, key: &str) -> Result<Vec<u8>, AllocError> {
    let len = (key.len() % 100) as u8;
    let mut block = Vec::from_slice(alloc, &[0x0a, len + 7, 0x0a, 0x00, 0x0a, len])?;
    block.extend_from_slice(key.as_bytes())?;
    block.extend_from_slice(
        b"\x0a\x01\xff\x12\x0a\x1a\x08\x08\x07\x12\x01\x01\x1a\x01\x02".as_slice(),
    )?;
    Ok(block)
}

/// Whether a tag of this key is kept: its value has to be UTF-8 then. The table has 2 + 2 + 2 bytes, the key and 3 bytes,
/// so the way is at 52 + 9 + 4 = 65, and the length of the key behind that.
fn is_kept<R: Threads + Sync + AllocGlobal>(rt: &R, key: &str) -> Result<bool, AllocError> {
    let block = way_with_key(rt.alloc(), key)?;
    let at = key.len().saturating_add(65);
    let said = format!(in rt.alloc(); "error 5 BadString at={at} index=2\n")?;
    says(rt, &block, &said)
}

/// Whether a tag of this key isn't kept, whatever its value.
fn is_passed_over<R: Threads + Sync + AllocGlobal>(rt: &R, key: &str) -> Result<bool, AllocError> {
    let block = way_with_key(rt.alloc(), key)?;
    says(rt, &block, "")
}

#[test]
fn kept_keys(rt: HostRuntime) -> Result<(), Fail> {
    for key in [
        "highway",
        "area",
        "oneway",
        "oneway:bicycle",
        "oneway:bus",
        "oneway:psv",
        "junction",
        "name",
        "ref",
        "access",
        "vehicle",
        "motor_vehicle",
        "motorcar",
        "hgv",
        "psv",
        "bus",
        "bicycle",
        "foot",
        "barrier",
        "type",
        "except",
        "restriction",
        "restriction:",
        "restriction:hgv",
    ] {
        assert!(rt; is_kept(&rt, key)?, "{key}");
    }
    Ok(())
}

#[test]
fn other_keys(rt: HostRuntime) -> Result<(), Fail> {
    for key in [
        "",
        "Highway",
        "highway ",
        "highways",
        "surface",
        "maxspeed",
        "oneway:foot",
        "name:de",
        "motorcar:forward",
        "restrictions",
        "restriction;hgv",
        "type:restriction:",
    ] {
        assert!(rt; is_passed_over(&rt, key)?, "{key}");
    }
    Ok(())
}
