//! Texts that a data block doesn't have, and coordinates of no place, one in a block. How places are counted stands in
//! `faults`; where nothing is wrong the line is empty.

use program_runs::says;
use std::test::Fail;

// A text past the table. Where the table has one text, "", the object is at 52 + 4 + 4 = 60; a dense message has a
// table of two, since a key isn't 0, and is at 62. A tag is looked through also where its key isn't kept.
#[test]
fn texts_that_are_not_there(rt: HostRuntime) -> Result<(), Fail> {
    for (name, block, said) in [
        (
            "a key of a node",
            b"\x0a\x02\x0a\x00\x12\x0e\x0a\x0c\x08\x00\x40\x00\x48\x00\x12\x01\x01\x1a\x01\x00".as_slice(),
            "error 5 BadString at=60 index=1\n",
        ),
        (
            "a value of a node",
            b"\x0a\x02\x0a\x00\x12\x0e\x0a\x0c\x08\x00\x40\x00\x48\x00\x12\x01\x00\x1a\x01\x01",
            "error 5 BadString at=60 index=1\n",
        ),
        (
            "a key of a dense node",
            b"\x0a\x04\x0a\x00\x0a\x00\x12\x10\x12\x0e\x0a\x01\x00\x42\x01\x00\x4a\x01\x00\x52\x03\x02\x00\x00",
            "error 5 BadString at=62 index=2\n",
        ),
        (
            "a value of a dense node",
            b"\x0a\x04\x0a\x00\x0a\x00\x12\x10\x12\x0e\x0a\x01\x00\x42\x01\x00\x4a\x01\x00\x52\x03\x01\x02\x00",
            "error 5 BadString at=62 index=2\n",
        ),
        (
            "a key of a way",
            b"\x0a\x02\x0a\x00\x12\x0a\x1a\x08\x08\x00\x12\x01\x01\x1a\x01\x00",
            "error 5 BadString at=60 index=1\n",
        ),
        (
            "a value of a way",
            b"\x0a\x02\x0a\x00\x12\x0a\x1a\x08\x08\x00\x12\x01\x00\x1a\x01\x01",
            "error 5 BadString at=60 index=1\n",
        ),
        (
            "a key of a relation",
            b"\x0a\x02\x0a\x00\x12\x0a\x22\x08\x08\x00\x12\x01\x01\x1a\x01\x00",
            "error 5 BadString at=60 index=1\n",
        ),
        (
            "a value of a relation",
            b"\x0a\x02\x0a\x00\x12\x0a\x22\x08\x08\x00\x12\x01\x00\x1a\x01\x01",
            "error 5 BadString at=60 index=1\n",
        ),
        (
            "a role",
            b"\x0a\x02\x0a\x00\x12\x0d\x22\x0b\x08\x00\x42\x01\x01\x4a\x01\x00\x52\x01\x00",
            "error 5 BadString at=60 index=1\n",
        ),
        // the table is empty, and the way at 58
        (
            "the first text",
            b"\x0a\x00\x12\x0a\x1a\x08\x08\x00\x12\x01\x00\x1a\x01\x00",
            "error 5 BadString at=58 index=0\n",
        ),
        // numbers that aren't cut to 32 bits, or taken as signed ones
        (
            "a key 2^32",
            b"\x0a\x02\x0a\x00\x12\x0e\x1a\x0c\x08\x00\x12\x05\x80\x80\x80\x80\x10\x1a\x01\x00",
            "error 5 BadString at=60 index=4294967296\n",
        ),
        (
            "a value 2^32",
            b"\x0a\x02\x0a\x00\x12\x0e\x1a\x0c\x08\x00\x12\x01\x00\x1a\x05\x80\x80\x80\x80\x10",
            "error 5 BadString at=60 index=4294967296\n",
        ),
        (
            "a role 2^64 - 1",
            b"\x0a\x02\x0a\x00\x12\x16\x22\x14\x08\x00\x42\x0a\xff\xff\xff\xff\xff\xff\xff\xff\xff\x01\x4a\x01\x00\x52\x01\x00",
            "error 5 BadString at=60 index=18446744073709551615\n",
        ),
    ] {
        assert!(rt; says(&rt, block, said)?, "{name}");
    }
    Ok(())
}

// Text 1 is `restriction:` and a byte ff; its table has 2 + 2 + 15 = 19 bytes, and the object is at 52 + 19 + 4 = 75.
// Text 1 is `highway` and text 2 a byte ff; their table has 2 + 2 + 9 + 3 = 16 bytes, and the object is at 72.
#[test]
fn texts_that_are_not_utf_8(rt: HostRuntime) -> Result<(), Fail> {
    for (name, block, said) in [
        (
            "a key of a node",
            b"\x0a\x11\x0a\x00\x0a\x0drestriction:\xff\x12\x0e\x0a\x0c\x08\x00\x40\x00\x48\x00\x12\x01\x01\x1a\x01\x00".as_slice(),
            "error 5 BadString at=75 index=1\n",
        ),
        (
            "a key of a dense node",
            b"\x0a\x11\x0a\x00\x0a\x0drestriction:\xff\x12\x10\x12\x0e\x0a\x01\x00\x42\x01\x00\x4a\x01\x00\x52\x03\x01\x00\x00",
            "error 5 BadString at=75 index=1\n",
        ),
        (
            "a key of a way",
            b"\x0a\x11\x0a\x00\x0a\x0drestriction:\xff\x12\x0a\x1a\x08\x08\x00\x12\x01\x01\x1a\x01\x00",
            "error 5 BadString at=75 index=1\n",
        ),
        (
            "a key of a relation",
            b"\x0a\x11\x0a\x00\x0a\x0drestriction:\xff\x12\x0a\x22\x08\x08\x00\x12\x01\x01\x1a\x01\x00",
            "error 5 BadString at=75 index=1\n",
        ),
        (
            "a value of a node",
            b"\x0a\x0e\x0a\x00\x0a\x07highway\x0a\x01\xff\x12\x0e\x0a\x0c\x08\x00\x40\x00\x48\x00\x12\x01\x01\x1a\x01\x02",
            "error 5 BadString at=72 index=2\n",
        ),
        (
            "a value of a dense node",
            b"\x0a\x0e\x0a\x00\x0a\x07highway\x0a\x01\xff\x12\x10\x12\x0e\x0a\x01\x00\x42\x01\x00\x4a\x01\x00\x52\x03\x01\x02\x00",
            "error 5 BadString at=72 index=2\n",
        ),
        (
            "a value of a way",
            b"\x0a\x0e\x0a\x00\x0a\x07highway\x0a\x01\xff\x12\x0a\x1a\x08\x08\x00\x12\x01\x01\x1a\x01\x02",
            "error 5 BadString at=72 index=2\n",
        ),
        (
            "a value of a relation",
            b"\x0a\x0e\x0a\x00\x0a\x07highway\x0a\x01\xff\x12\x0a\x22\x08\x08\x00\x12\x01\x01\x1a\x01\x02",
            "error 5 BadString at=72 index=2\n",
        ),
        // a table of one byte ff, and the relation at 52 + 5 + 4 = 61
        (
            "a role",
            b"\x0a\x03\x0a\x01\xff\x12\x0d\x22\x0b\x08\x00\x42\x01\x00\x4a\x01\x00\x52\x01\x00",
            "error 5 BadString at=61 index=0\n",
        ),
        // tags that aren't kept: text 0 is "" and text 1 the byte ff; and `highway` with a byte ff isn't a kept key
        (
            "another key that is no UTF-8",
            b"\x0a\x05\x0a\x00\x0a\x01\xff\x12\x0a\x1a\x08\x08\x00\x12\x01\x01\x1a\x01\x00",
            "",
        ),
        (
            "a value that is no UTF-8 of another key",
            b"\x0a\x05\x0a\x00\x0a\x01\xff\x12\x0a\x1a\x08\x08\x00\x12\x01\x00\x1a\x01\x01",
            "",
        ),
        (
            "a key that begins with a kept one",
            b"\x0a\x0c\x0a\x00\x0a\x08highway\xff\x12\x0a\x1a\x08\x08\x00\x12\x01\x01\x1a\x01\x00",
            "",
        ),
    ] {
        assert!(rt; says(&rt, block, said)?, "{name}");
    }
    Ok(())
}

// Node 7, whose id is 0e. 900,000,000 is 80 a4 a7 da 06 and its negative ff a3 a7 da 06; 1,800,000,000 is
// 80 c8 ce b4 0d and its negative ff c7 ce b4 0d.
#[test]
fn edges_of_the_earth(rt: HostRuntime) -> Result<(), Fail> {
    for (name, block, said) in [
        (
            "north and east",
            b"\x0a\x00\x12\x10\x0a\x0e\x08\x0e\x40\x80\xa4\xa7\xda\x06\x48\x80\xc8\xce\xb4\x0d".as_slice(),
            "",
        ),
        (
            "south and west",
            b"\x0a\x00\x12\x10\x0a\x0e\x08\x0e\x40\xff\xa3\xa7\xda\x06\x48\xff\xc7\xce\xb4\x0d",
            "",
        ),
        (
            "one unit north",
            b"\x0a\x00\x12\x0c\x0a\x0a\x08\x0e\x40\x82\xa4\xa7\xda\x06\x48\x00",
            "error 5 BadCoordinate id=7\n",
        ),
        (
            "one unit south",
            b"\x0a\x00\x12\x0c\x0a\x0a\x08\x0e\x40\x81\xa4\xa7\xda\x06\x48\x00",
            "error 5 BadCoordinate id=7\n",
        ),
        (
            "one unit east",
            b"\x0a\x00\x12\x0c\x0a\x0a\x08\x0e\x40\x00\x48\x82\xc8\xce\xb4\x0d",
            "error 5 BadCoordinate id=7\n",
        ),
        (
            "one unit west",
            b"\x0a\x00\x12\x0c\x0a\x0a\x08\x0e\x40\x00\x48\x81\xc8\xce\xb4\x0d",
            "error 5 BadCoordinate id=7\n",
        ),
        (
            "the least number",
            b"\x0a\x00\x12\x11\x0a\x0f\x08\x0e\x40\xff\xff\xff\xff\xff\xff\xff\xff\xff\x01\x48\x00",
            "error 5 BadCoordinate id=7\n",
        ),
        (
            "the greatest number",
            b"\x0a\x00\x12\x11\x0a\x0f\x08\x0e\x40\x00\x48\xfe\xff\xff\xff\xff\xff\xff\xff\xff\x01",
            "error 5 BadCoordinate id=7\n",
        ),
        (
            "a dense node one unit north",
            b"\x0a\x00\x12\x0f\x12\x0d\x0a\x01\x0e\x42\x05\x82\xa4\xa7\xda\x06\x4a\x01\x00",
            "error 5 BadCoordinate id=7\n",
        ),
        (
            "a dense node one unit west",
            b"\x0a\x00\x12\x0f\x12\x0d\x0a\x01\x0e\x42\x01\x00\x4a\x05\x81\xc8\xce\xb4\x0d",
            "error 5 BadCoordinate id=7\n",
        ),
    ] {
        assert!(rt; says(&rt, block, said)?, "{name}");
    }
    Ok(())
}

// Node 7 again. Behind it granularity 1,000 (e8 07), 1 or -100 (9c ff .. 01), and offsets of 90 degrees north and 180
// east, which are 80 88 ac a3 cf 02 and 80 90 d8 c6 9e 05 in units of 1e-9 degree, or of as many south and west and one
// unit of 1e-9 degree more, ff f7 .. 01 and ff ef .. 01. Steps are zigzag: 90,000,000 is 80 aa ea 55.
#[test]
fn granularity_and_offsets(rt: HostRuntime) -> Result<(), Fail> {
    for (name, block, said) in [
        (
            "90,000,000 steps of 1,000",
            b"\x0a\x00\x12\x0b\x0a\x09\x08\x0e\x40\x80\xaa\xea\x55\x48\x00\x88\x01\xe8\x07".as_slice(),
            "",
        ),
        (
            "and one step more",
            b"\x0a\x00\x12\x0b\x0a\x09\x08\x0e\x40\x82\xaa\xea\x55\x48\x00\x88\x01\xe8\x07",
            "error 5 BadCoordinate id=7\n",
        ),
        (
            "a step of -100",
            b"\x0a\x00\x12\x0c\x0a\x0a\x08\x0e\x40\x02\x48\x80\xc8\xce\xb4\x0d\x88\x01\x9c\xff\xff\xff\xff\xff\xff\xff\xff\x01",
            "",
        ),
        (
            "steps of -100, one unit south",
            b"\x0a\x00\x12\x0c\x0a\x0a\x08\x0e\x40\x82\xa4\xa7\xda\x06\x48\x00\x88\x01\x9c\xff\xff\xff\xff\xff\xff\xff\xff\x01",
            "error 5 BadCoordinate id=7\n",
        ),
        // 2 * (2^63 - 1) isn't -2
        (
            "two of the greatest steps",
            b"\x0a\x00\x12\x08\x0a\x06\x08\x0e\x40\x04\x48\x00\x88\x01\xff\xff\xff\xff\xff\xff\xff\xff\x7f",
            "error 5 BadCoordinate id=7\n",
        ),
        (
            "both offsets",
            b"\x0a\x00\x12\x08\x0a\x06\x08\x0e\x40\x00\x48\x00\x98\x01\x80\x88\xac\xa3\xcf\x02\xa0\x01\x80\x90\xd8\xc6\x9e\x05",
            "",
        ),
        (
            "both offsets, and a step south and west",
            b"\x0a\x00\x12\x08\x0a\x06\x08\x0e\x40\x01\x48\x01\x98\x01\x80\x88\xac\xa3\xcf\x02\xa0\x01\x80\x90\xd8\xc6\x9e\x05",
            "",
        ),
        (
            "both offsets, and a step north",
            b"\x0a\x00\x12\x08\x0a\x06\x08\x0e\x40\x02\x48\x00\x98\x01\x80\x88\xac\xa3\xcf\x02\xa0\x01\x80\x90\xd8\xc6\x9e\x05",
            "error 5 BadCoordinate id=7\n",
        ),
        (
            "both offsets, and a step east",
            b"\x0a\x00\x12\x08\x0a\x06\x08\x0e\x40\x00\x48\x02\x98\x01\x80\x88\xac\xa3\xcf\x02\xa0\x01\x80\x90\xd8\xc6\x9e\x05",
            "error 5 BadCoordinate id=7\n",
        ),
        (
            "the offset of latitudes, and a step east",
            b"\x0a\x00\x12\x08\x0a\x06\x08\x0e\x40\x00\x48\x02\x98\x01\x80\x88\xac\xa3\xcf\x02",
            "",
        ),
        (
            "the offset of longitudes, and a step north",
            b"\x0a\x00\x12\x08\x0a\x06\x08\x0e\x40\x02\x48\x00\xa0\x01\x80\x90\xd8\xc6\x9e\x05",
            "",
        ),
        // 1e-9 degree: 99 steps more than the edge are rounded down to it, and 100 are a unit
        (
            "99 steps of 1 north",
            b"\x0a\x00\x12\x09\x0a\x07\x08\x0e\x40\xc6\x01\x48\x00\x88\x01\x01\x98\x01\x80\x88\xac\xa3\xcf\x02",
            "",
        ),
        (
            "100 steps of 1 north",
            b"\x0a\x00\x12\x09\x0a\x07\x08\x0e\x40\xc8\x01\x48\x00\x88\x01\x01\x98\x01\x80\x88\xac\xa3\xcf\x02",
            "error 5 BadCoordinate id=7\n",
        ),
        (
            "the south edge less 1e-9 degree",
            b"\x0a\x00\x12\x08\x0a\x06\x08\x0e\x40\x00\x48\x00\x98\x01\xff\xf7\xd3\xdc\xb0\xfd\xff\xff\xff\x01",
            "error 5 BadCoordinate id=7\n",
        ),
        (
            "the west edge less 1e-9 degree",
            b"\x0a\x00\x12\x08\x0a\x06\x08\x0e\x40\x00\x48\x00\xa0\x01\xff\xef\xa7\xb9\xe1\xfa\xff\xff\xff\x01",
            "error 5 BadCoordinate id=7\n",
        ),
        (
            "the south edge, one step of 1 back",
            b"\x0a\x00\x12\x08\x0a\x06\x08\x0e\x40\x02\x48\x00\x88\x01\x01\x98\x01\xff\xf7\xd3\xdc\xb0\xfd\xff\xff\xff\x01",
            "",
        ),
    ] {
        assert!(rt; says(&rt, block, said)?, "{name}");
    }
    Ok(())
}
