//! One fault in the shortest data block that has it, and the line that `build` says. Where nothing is wrong the line is
//! empty, and nothing is put.
//!
//! Places are counted by hand. The header has 35 bytes. A block of at most 125 bytes begins at 52: behind the length of
//! 4 bytes, a BlobHeader of 11, and the tag and the length of the payload. An object that is the first of its group
//! has four bytes before it: two tags and two lengths.

use program_runs::says;
use std::test::Fail;

// The string table of a block, and the fields that an object has to have. A block begins at 52. The object of the
// next rows begins at 58: behind an empty table of 2 bytes, and the tag and length of its group and its own.
#[test]
fn missing_fields(rt: HostRuntime) -> Result<(), Fail> {
    for (name, block, said) in [
        (
            "no table",
            b"".as_slice(),
            "error 5 MissingField at=52 number=1\n",
        ),
        (
            "a number in the place of the table",
            b"\x08\x00",
            "error 5 MissingField at=52 number=1\n",
        ),
        (
            "a node without id",
            b"\x0a\x00\x12\x06\x0a\x04\x40\x00\x48\x00",
            "error 5 MissingField at=58 number=1\n",
        ),
        (
            "a node without latitude",
            b"\x0a\x00\x12\x06\x0a\x04\x08\x00\x48\x00",
            "error 5 MissingField at=58 number=8\n",
        ),
        (
            "a node without longitude",
            b"\x0a\x00\x12\x06\x0a\x04\x08\x00\x40\x00",
            "error 5 MissingField at=58 number=9\n",
        ),
        (
            "a way without id",
            b"\x0a\x00\x12\x02\x1a\x00",
            "error 5 MissingField at=58 number=1\n",
        ),
        (
            "a relation without id",
            b"\x0a\x00\x12\x02\x22\x00",
            "error 5 MissingField at=58 number=1\n",
        ),
        // another wire type: packed numbers, and four bytes
        (
            "a node with its id packed",
            b"\x0a\x00\x12\x09\x0a\x07\x0a\x01\x00\x40\x00\x48\x00",
            "error 5 MissingField at=58 number=1\n",
        ),
        (
            "a node with its longitude packed",
            b"\x0a\x00\x12\x09\x0a\x07\x08\x00\x40\x00\x4a\x01\x00",
            "error 5 MissingField at=58 number=9\n",
        ),
        (
            "a way with its id packed",
            b"\x0a\x00\x12\x05\x1a\x03\x0a\x01\x00",
            "error 5 MissingField at=58 number=1\n",
        ),
        (
            "a relation with an id of four bytes",
            b"\x0a\x00\x12\x07\x22\x05\x0d\x00\x00\x00\x00",
            "error 5 MissingField at=58 number=1\n",
        ),
    ] {
        assert!(rt; says(&rt, block, said)?, "{name}");
    }
    Ok(())
}

// Lists that go together, in the object at 52 + 2 + 4 = 58.
#[test]
fn uneven_lists(rt: HostRuntime) -> Result<(), Fail> {
    for (name, block, said) in [
        (
            "a node with a key more",
            b"\x0a\x00\x12\x0b\x0a\x09\x08\x00\x40\x00\x48\x00\x12\x01\x00".as_slice(),
            "error 5 Uneven at=58\n",
        ),
        (
            "a node with a value more",
            b"\x0a\x00\x12\x0b\x0a\x09\x08\x00\x40\x00\x48\x00\x1a\x01\x00",
            "error 5 Uneven at=58\n",
        ),
        (
            "a way with a key more",
            b"\x0a\x00\x12\x07\x1a\x05\x08\x00\x12\x01\x00",
            "error 5 Uneven at=58\n",
        ),
        (
            "a way with a value more",
            b"\x0a\x00\x12\x07\x1a\x05\x08\x00\x1a\x01\x00",
            "error 5 Uneven at=58\n",
        ),
        (
            "a relation with a key more",
            b"\x0a\x00\x12\x07\x22\x05\x08\x00\x12\x01\x00",
            "error 5 Uneven at=58\n",
        ),
        (
            "a relation with a value more",
            b"\x0a\x00\x12\x07\x22\x05\x08\x00\x1a\x01\x00",
            "error 5 Uneven at=58\n",
        ),
        (
            "a member without role",
            b"\x0a\x00\x12\x0a\x22\x08\x08\x00\x4a\x01\x00\x52\x01\x00",
            "error 5 Uneven at=58\n",
        ),
        (
            "a member without id",
            b"\x0a\x00\x12\x0a\x22\x08\x08\x00\x42\x01\x00\x52\x01\x00",
            "error 5 Uneven at=58\n",
        ),
        (
            "a member without type",
            b"\x0a\x00\x12\x0a\x22\x08\x08\x00\x42\x01\x00\x4a\x01\x00",
            "error 5 Uneven at=58\n",
        ),
        (
            "a dense node without id",
            b"\x0a\x00\x12\x08\x12\x06\x42\x01\x00\x4a\x01\x00",
            "error 5 Uneven at=58\n",
        ),
        (
            "a dense node without latitude",
            b"\x0a\x00\x12\x08\x12\x06\x0a\x01\x00\x4a\x01\x00",
            "error 5 Uneven at=58\n",
        ),
        (
            "a dense node without longitude",
            b"\x0a\x00\x12\x08\x12\x06\x0a\x01\x00\x42\x01\x00",
            "error 5 Uneven at=58\n",
        ),
    ] {
        assert!(rt; says(&rt, block, said)?, "{name}");
    }
    Ok(())
}

// Keys and values that aren't a group for each node of the dense message at 58. The texts aren't looked for yet.
#[test]
fn groups_of_keys_and_values(rt: HostRuntime) -> Result<(), Fail> {
    for (name, block, said) in [
        (
            "a key alone",
            b"\x0a\x00\x12\x0e\x12\x0c\x0a\x01\x00\x42\x01\x00\x4a\x01\x00\x52\x01\x01".as_slice(),
            "error 5 Uneven at=58\n",
        ),
        (
            "a group without end",
            b"\x0a\x00\x12\x0f\x12\x0d\x0a\x01\x00\x42\x01\x00\x4a\x01\x00\x52\x02\x01\x01",
            "error 5 Uneven at=58\n",
        ),
        (
            "a group without end, and with text 0",
            b"\x0a\x00\x12\x0f\x12\x0d\x0a\x01\x00\x42\x01\x00\x4a\x01\x00\x52\x02\x01\x00",
            "error 5 Uneven at=58\n",
        ),
        (
            "a key alone behind a group",
            b"\x0a\x00\x12\x0f\x12\x0d\x0a\x01\x00\x42\x01\x00\x4a\x01\x00\x52\x02\x00\x01",
            "error 5 Uneven at=58\n",
        ),
        (
            "a group too few",
            b"\x0a\x00\x12\x11\x12\x0f\x0a\x02\x00\x02\x42\x02\x00\x00\x4a\x02\x00\x00\x52\x01\x00",
            "error 5 Uneven at=58\n",
        ),
        (
            "a group too many",
            b"\x0a\x00\x12\x0f\x12\x0d\x0a\x01\x00\x42\x01\x00\x4a\x01\x00\x52\x02\x00\x00",
            "error 5 Uneven at=58\n",
        ),
        (
            "a group of no node",
            b"\x0a\x00\x12\x05\x12\x03\x52\x01\x00",
            "error 5 Uneven at=58\n",
        ),
        (
            "two nodes without groups",
            b"\x0a\x00\x12\x10\x12\x0e\x0a\x02\x00\x02\x42\x02\x00\x00\x4a\x02\x00\x00\x52\x00",
            "",
        ),
        (
            "two nodes with empty groups",
            b"\x0a\x00\x12\x12\x12\x10\x0a\x02\x00\x02\x42\x02\x00\x00\x4a\x02\x00\x00\x52\x02\x00\x00",
            "",
        ),
    ] {
        assert!(rt; says(&rt, block, said)?, "{name}");
    }
    Ok(())
}

// A member's type, which is 0, 1 or 2 and isn't cut to fewer bits. The table has one text, so that a role is there:
// the relation is at 52 + 4 + 4 = 60.
#[test]
fn types_of_members(rt: HostRuntime) -> Result<(), Fail> {
    for (name, block, said) in [
        (
            "types 0, 1 and 2",
            b"\x0a\x02\x0a\x00\x12\x13\x22\x11\x08\x00\x42\x03\x00\x00\x00\x4a\x03\x00\x00\x00\x52\x03\x00\x01\x02".as_slice(),
            "",
        ),
        (
            "type 3",
            b"\x0a\x02\x0a\x00\x12\x0d\x22\x0b\x08\x00\x42\x01\x00\x4a\x01\x00\x52\x01\x03",
            "error 5 Uneven at=60\n",
        ),
        (
            "type 2^8",
            b"\x0a\x02\x0a\x00\x12\x0e\x22\x0c\x08\x00\x42\x01\x00\x4a\x01\x00\x52\x02\x80\x02",
            "error 5 Uneven at=60\n",
        ),
        (
            "type 2^32",
            b"\x0a\x02\x0a\x00\x12\x11\x22\x0f\x08\x00\x42\x01\x00\x4a\x01\x00\x52\x05\x80\x80\x80\x80\x10",
            "error 5 Uneven at=60\n",
        ),
        (
            "type 2^64 - 1",
            b"\x0a\x02\x0a\x00\x12\x16\x22\x14\x08\x00\x42\x01\x00\x4a\x01\x00\x52\x0a\xff\xff\xff\xff\xff\xff\xff\xff\xff\x01",
            "error 5 Uneven at=60\n",
        ),
    ] {
        assert!(rt; says(&rt, block, said)?, "{name}");
    }
    Ok(())
}

// Sums of differences past 2^63 - 1 and below -2^63, which are the varints fe .. 01 and ff .. 01; the differences 1
// and -1 are 02 and 01. Ways and dense messages stand at 58. A relation has a role of the one text, and stands at 60.
#[test]
fn sums_past_64_bits(rt: HostRuntime) -> Result<(), Fail> {
    for (name, block, said) in [
        (
            "refs: the greatest, and the least with the greatest and 1",
            b"\x0a\x00\x12\x10\x1a\x0e\x08\x00\x42\x0a\xfe\xff\xff\xff\xff\xff\xff\xff\xff\x01\x12\x1b\x1a\x19\x08\x01\x42\x15\xff\xff\xff\xff\xff\xff\xff\xff\xff\x01\xfe\xff\xff\xff\xff\xff\xff\xff\xff\x01\x02".as_slice(),
            "",
        ),
        (
            "refs, one too many",
            b"\x0a\x00\x12\x11\x1a\x0f\x08\x00\x42\x0b\xfe\xff\xff\xff\xff\xff\xff\xff\xff\x01\x02",
            "error 5 BadNumber at=58\n",
        ),
        (
            "refs, one too few",
            b"\x0a\x00\x12\x11\x1a\x0f\x08\x00\x42\x0b\xff\xff\xff\xff\xff\xff\xff\xff\xff\x01\x01",
            "error 5 BadNumber at=58\n",
        ),
        (
            "refs, too many between others",
            b"\x0a\x00\x12\x12\x1a\x10\x08\x00\x42\x0c\xfe\xff\xff\xff\xff\xff\xff\xff\xff\x01\x02\x01",
            "error 5 BadNumber at=58\n",
        ),
        (
            "members, one too many",
            b"\x0a\x02\x0a\x00\x12\x19\x22\x17\x08\x00\x42\x02\x00\x00\x4a\x0b\xfe\xff\xff\xff\xff\xff\xff\xff\xff\x01\x02\x52\x02\x00\x00",
            "error 5 BadNumber at=60\n",
        ),
        (
            "members, one too few",
            b"\x0a\x02\x0a\x00\x12\x19\x22\x17\x08\x00\x42\x02\x00\x00\x4a\x0b\xff\xff\xff\xff\xff\xff\xff\xff\xff\x01\x01\x52\x02\x00\x00",
            "error 5 BadNumber at=60\n",
        ),
        (
            "ids, one too many",
            b"\x0a\x00\x12\x17\x12\x15\x0a\x0b\xfe\xff\xff\xff\xff\xff\xff\xff\xff\x01\x02\x42\x02\x00\x00\x4a\x02\x00\x00",
            "error 5 BadNumber at=58\n",
        ),
        (
            "ids, one too few",
            b"\x0a\x00\x12\x17\x12\x15\x0a\x0b\xff\xff\xff\xff\xff\xff\xff\xff\xff\x01\x01\x42\x02\x00\x00\x4a\x02\x00\x00",
            "error 5 BadNumber at=58\n",
        ),
        (
            "latitudes, one too many",
            b"\x0a\x00\x12\x17\x12\x15\x0a\x02\x00\x00\x42\x0b\xfe\xff\xff\xff\xff\xff\xff\xff\xff\x01\x02\x4a\x02\x00\x00",
            "error 5 BadNumber at=58\n",
        ),
        (
            "latitudes, one too few",
            b"\x0a\x00\x12\x17\x12\x15\x0a\x02\x00\x00\x42\x0b\xff\xff\xff\xff\xff\xff\xff\xff\xff\x01\x01\x4a\x02\x00\x00",
            "error 5 BadNumber at=58\n",
        ),
        (
            "longitudes, one too many",
            b"\x0a\x00\x12\x17\x12\x15\x0a\x02\x00\x00\x42\x02\x00\x00\x4a\x0b\xfe\xff\xff\xff\xff\xff\xff\xff\xff\x01\x02",
            "error 5 BadNumber at=58\n",
        ),
        (
            "longitudes, one too few",
            b"\x0a\x00\x12\x17\x12\x15\x0a\x02\x00\x00\x42\x02\x00\x00\x4a\x0b\xff\xff\xff\xff\xff\xff\xff\xff\xff\x01\x01",
            "error 5 BadNumber at=58\n",
        ),
    ] {
        assert!(rt; says(&rt, block, said)?, "{name}");
    }
    Ok(())
}
