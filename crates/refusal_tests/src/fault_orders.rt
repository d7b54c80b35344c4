//! Two faults in one data block: the one that `build` says. How places are counted stands in `faults`; where nothing is
//! wrong the line is empty. Text 9 isn't in any table.

use program_runs::says;
use std::test::Fail;

// MissingField, Uneven, BadString, BadCoordinate, in the node at 58.
#[test]
fn in_a_node(rt: HostRuntime) -> Result<(), Fail> {
    for (name, block, said) in [
        (
            "no number at all",
            b"\x0a\x00\x12\x05\x0a\x03\x12\x01\x09".as_slice(),
            "error 5 MissingField at=58 number=1\n",
        ),
        (
            "an id alone",
            b"\x0a\x00\x12\x07\x0a\x05\x08\x00\x12\x01\x09",
            "error 5 MissingField at=58 number=8\n",
        ),
        (
            "no longitude, and a key more",
            b"\x0a\x00\x12\x09\x0a\x07\x08\x00\x40\x00\x12\x01\x09",
            "error 5 MissingField at=58 number=9\n",
        ),
        (
            "no longitude, and a latitude that is none",
            b"\x0a\x00\x12\x0a\x0a\x08\x08\x00\x40\x82\xa4\xa7\xda\x06",
            "error 5 MissingField at=58 number=9\n",
        ),
        (
            "a key more, and keys past the table",
            b"\x0a\x00\x12\x0f\x0a\x0d\x08\x00\x40\x00\x48\x00\x12\x02\x09\x09\x1a\x01\x09",
            "error 5 Uneven at=58\n",
        ),
        (
            "a key more, and a latitude that is none",
            b"\x0a\x00\x12\x0f\x0a\x0d\x08\x00\x40\x82\xa4\xa7\xda\x06\x48\x00\x12\x01\x09",
            "error 5 Uneven at=58\n",
        ),
        (
            "a key past the table, and a latitude that is none",
            b"\x0a\x00\x12\x12\x0a\x10\x08\x00\x40\x82\xa4\xa7\xda\x06\x48\x00\x12\x01\x09\x1a\x01\x09",
            "error 5 BadString at=58 index=9\n",
        ),
    ] {
        assert!(rt; says(&rt, block, said)?, "{name}");
    }
    Ok(())
}

// Uneven, BadNumber, BadString, BadCoordinate, in the message at 58; the first of two bad coordinates.
#[test]
fn in_a_dense_message(rt: HostRuntime) -> Result<(), Fail> {
    for (name, block, said) in [
        (
            "a longitude less, and a sum",
            b"\x0a\x00\x12\x16\x12\x14\x0a\x0b\xfe\xff\xff\xff\xff\xff\xff\xff\xff\x01\x02\x42\x02\x00\x00\x4a\x01\x00".as_slice(),
            "error 5 Uneven at=58\n",
        ),
        (
            "a group less, and a sum",
            b"\x0a\x00\x12\x1a\x12\x18\x0a\x0b\xfe\xff\xff\xff\xff\xff\xff\xff\xff\x01\x02\x42\x02\x00\x00\x4a\x02\x00\x00\x52\x01\x00",
            "error 5 Uneven at=58\n",
        ),
        (
            "a group less, and keys past the table",
            b"\x0a\x00\x12\x13\x12\x11\x0a\x02\x02\x02\x42\x02\x00\x00\x4a\x02\x00\x00\x52\x03\x09\x09\x00",
            "error 5 Uneven at=58\n",
        ),
        (
            "a group more, and a latitude that is none",
            b"\x0a\x00\x12\x13\x12\x11\x0a\x01\x00\x42\x05\x82\xa4\xa7\xda\x06\x4a\x01\x00\x52\x02\x00\x00",
            "error 5 Uneven at=58\n",
        ),
        (
            "a sum of longitudes, and a key past the table",
            b"\x0a\x00\x12\x1d\x12\x1b\x0a\x02\x02\x02\x42\x02\x00\x00\x4a\x0b\xfe\xff\xff\xff\xff\xff\xff\xff\xff\x01\x02\x52\x04\x09\x09\x00\x00",
            "error 5 BadNumber at=58\n",
        ),
        (
            "a sum of ids, and a latitude that is none",
            b"\x0a\x00\x12\x1b\x12\x19\x0a\x0b\xfe\xff\xff\xff\xff\xff\xff\xff\xff\x01\x02\x42\x06\x82\xa4\xa7\xda\x06\x00\x4a\x02\x00\x00",
            "error 5 BadNumber at=58\n",
        ),
        (
            "a key of the second node, and the latitude of the first",
            b"\x0a\x00\x12\x18\x12\x16\x0a\x02\x02\x02\x42\x06\x82\xa4\xa7\xda\x06\x00\x4a\x02\x00\x00\x52\x04\x00\x09\x09\x00",
            "error 5 BadString at=58 index=9\n",
        ),
        (
            "keys of both nodes",
            b"\x0a\x00\x12\x16\x12\x14\x0a\x02\x02\x02\x42\x02\x00\x00\x4a\x02\x00\x00\x52\x06\x08\x09\x00\x07\x09\x00",
            "error 5 BadString at=58 index=8\n",
        ),
        (
            "two latitudes",
            b"\x0a\x00\x12\x12\x12\x10\x0a\x02\x0e\x02\x42\x06\x82\xa4\xa7\xda\x06\x00\x4a\x02\x00\x00",
            "error 5 BadCoordinate id=7\n",
        ),
        (
            "a longitude, and then a latitude",
            b"\x0a\x00\x12\x16\x12\x14\x0a\x02\x0e\x02\x42\x06\x00\x82\xa4\xa7\xda\x06\x4a\x06\x82\xc8\xce\xb4\x0d\x00",
            "error 5 BadCoordinate id=7\n",
        ),
        (
            "a latitude behind a node at a place",
            b"\x0a\x00\x12\x12\x12\x10\x0a\x02\x0e\x02\x42\x06\x00\x82\xa4\xa7\xda\x06\x4a\x02\x00\x00",
            "error 5 BadCoordinate id=8\n",
        ),
    ] {
        assert!(rt; says(&rt, block, said)?, "{name}");
    }
    Ok(())
}

// MissingField, Uneven, BadNumber, BadString, in the way at 58.
#[test]
fn in_a_way(rt: HostRuntime) -> Result<(), Fail> {
    for (name, block, said) in [
        (
            "no id, and a key more",
            b"\x0a\x00\x12\x05\x1a\x03\x12\x01\x09".as_slice(),
            "error 5 MissingField at=58 number=1\n",
        ),
        (
            "no id, and a sum",
            b"\x0a\x00\x12\x0f\x1a\x0d\x42\x0b\xfe\xff\xff\xff\xff\xff\xff\xff\xff\x01\x02",
            "error 5 MissingField at=58 number=1\n",
        ),
        (
            "no id, and a key past the table",
            b"\x0a\x00\x12\x08\x1a\x06\x12\x01\x09\x1a\x01\x09",
            "error 5 MissingField at=58 number=1\n",
        ),
        (
            "a key more, and a sum",
            b"\x0a\x00\x12\x14\x1a\x12\x08\x00\x12\x01\x09\x42\x0b\xfe\xff\xff\xff\xff\xff\xff\xff\xff\x01\x02",
            "error 5 Uneven at=58\n",
        ),
        (
            "a value more, and a key past the table",
            b"\x0a\x00\x12\x0b\x1a\x09\x08\x00\x12\x01\x09\x1a\x02\x09\x09",
            "error 5 Uneven at=58\n",
        ),
        (
            "a sum, and a key past the table",
            b"\x0a\x00\x12\x17\x1a\x15\x08\x00\x12\x01\x09\x1a\x01\x09\x42\x0b\xfe\xff\xff\xff\xff\xff\xff\xff\xff\x01\x02",
            "error 5 BadNumber at=58\n",
        ),
    ] {
        assert!(rt; says(&rt, block, said)?, "{name}");
    }
    Ok(())
}

// The same in the relation at 58; tags come before roles, and the first role before the second.
#[test]
fn in_a_relation(rt: HostRuntime) -> Result<(), Fail> {
    for (name, block, said) in [
        (
            "no id, and a member without role",
            b"\x0a\x00\x12\x08\x22\x06\x4a\x01\x00\x52\x01\x00".as_slice(),
            "error 5 MissingField at=58 number=1\n",
        ),
        (
            "no id, and a type 3",
            b"\x0a\x00\x12\x0b\x22\x09\x42\x01\x09\x4a\x01\x00\x52\x01\x03",
            "error 5 MissingField at=58 number=1\n",
        ),
        (
            "a type 3, and a sum",
            b"\x0a\x00\x12\x19\x22\x17\x08\x00\x42\x02\x09\x09\x4a\x0b\xfe\xff\xff\xff\xff\xff\xff\xff\xff\x01\x02\x52\x02\x00\x03",
            "error 5 Uneven at=58\n",
        ),
        (
            "a role more, and a sum",
            b"\x0a\x00\x12\x1a\x22\x18\x08\x00\x42\x03\x09\x09\x09\x4a\x0b\xfe\xff\xff\xff\xff\xff\xff\xff\xff\x01\x02\x52\x02\x00\x00",
            "error 5 Uneven at=58\n",
        ),
        (
            "a key more, and a sum",
            b"\x0a\x00\x12\x1c\x22\x1a\x08\x00\x12\x01\x09\x42\x02\x09\x09\x4a\x0b\xfe\xff\xff\xff\xff\xff\xff\xff\xff\x01\x02\x52\x02\x00\x00",
            "error 5 Uneven at=58\n",
        ),
        (
            "a type 3, and a key past the table",
            b"\x0a\x00\x12\x13\x22\x11\x08\x00\x12\x01\x09\x1a\x01\x09\x42\x01\x00\x4a\x01\x00\x52\x01\x03",
            "error 5 Uneven at=58\n",
        ),
        (
            "a member without type, and a key past the table",
            b"\x0a\x00\x12\x10\x22\x0e\x08\x00\x12\x01\x09\x1a\x01\x09\x42\x01\x00\x4a\x01\x00",
            "error 5 Uneven at=58\n",
        ),
        (
            "a sum, and a key past the table",
            b"\x0a\x00\x12\x1f\x22\x1d\x08\x00\x12\x01\x09\x1a\x01\x09\x42\x02\x00\x00\x4a\x0b\xfe\xff\xff\xff\xff\xff\xff\xff\xff\x01\x02\x52\x02\x00\x00",
            "error 5 BadNumber at=58\n",
        ),
        (
            "a sum, and a role past the table",
            b"\x0a\x00\x12\x19\x22\x17\x08\x00\x42\x02\x09\x09\x4a\x0b\xfe\xff\xff\xff\xff\xff\xff\xff\xff\x01\x02\x52\x02\x00\x00",
            "error 5 BadNumber at=58\n",
        ),
        (
            "a key, and a role",
            b"\x0a\x00\x12\x13\x22\x11\x08\x00\x42\x01\x08\x4a\x01\x00\x52\x01\x00\x12\x01\x09\x1a\x01\x09",
            "error 5 BadString at=58 index=9\n",
        ),
        (
            "two roles",
            b"\x0a\x00\x12\x10\x22\x0e\x08\x00\x42\x02\x09\x08\x4a\x02\x00\x00\x52\x02\x00\x00",
            "error 5 BadString at=58 index=9\n",
        ),
    ] {
        assert!(rt; says(&rt, block, said)?, "{name}");
    }
    Ok(())
}

// The texts are 0 "", 1 `highway`, 2 `restriction:` and a byte ff, 3 a byte ff, 4 `x`; 5 and more are past the table.
// It has 2 + 2 + 9 + 15 + 3 + 3 = 34 bytes, and the way is at 52 + 34 + 4 = 90.
#[test]
fn in_two_tags(rt: HostRuntime) -> Result<(), Fail> {
    for (name, block, said) in [
        (
            "a key and its value past the table",
            b"\x0a\x20\x0a\x00\x0a\x07highway\x0a\x0drestriction:\xff\x0a\x01\xff\x0a\x01x\x12\x0a\x1a\x08\x08\x00\x12\x01\x09\x1a\x01\x08".as_slice(),
            "error 5 BadString at=90 index=9\n",
        ),
        (
            "a kept key, and its value past the table",
            b"\x0a\x20\x0a\x00\x0a\x07highway\x0a\x0drestriction:\xff\x0a\x01\xff\x0a\x01x\x12\x0a\x1a\x08\x08\x00\x12\x01\x02\x1a\x01\x09",
            "error 5 BadString at=90 index=2\n",
        ),
        (
            "a kept key, and its value",
            b"\x0a\x20\x0a\x00\x0a\x07highway\x0a\x0drestriction:\xff\x0a\x01\xff\x0a\x01x\x12\x0a\x1a\x08\x08\x00\x12\x01\x02\x1a\x01\x03",
            "error 5 BadString at=90 index=2\n",
        ),
        (
            "another key, and its value past the table",
            b"\x0a\x20\x0a\x00\x0a\x07highway\x0a\x0drestriction:\xff\x0a\x01\xff\x0a\x01x\x12\x0a\x1a\x08\x08\x00\x12\x01\x03\x1a\x01\x09",
            "error 5 BadString at=90 index=9\n",
        ),
        (
            "a value, and a key past the table",
            b"\x0a\x20\x0a\x00\x0a\x07highway\x0a\x0drestriction:\xff\x0a\x01\xff\x0a\x01x\x12\x0c\x1a\x0a\x08\x00\x12\x02\x01\x08\x1a\x02\x09\x01",
            "error 5 BadString at=90 index=9\n",
        ),
        (
            "a value of another key, and a key past the table",
            b"\x0a\x20\x0a\x00\x0a\x07highway\x0a\x0drestriction:\xff\x0a\x01\xff\x0a\x01x\x12\x0c\x1a\x0a\x08\x00\x12\x02\x04\x08\x1a\x02\x09\x04",
            "error 5 BadString at=90 index=9\n",
        ),
        (
            "a value that is no UTF-8, and a key past the table",
            b"\x0a\x20\x0a\x00\x0a\x07highway\x0a\x0drestriction:\xff\x0a\x01\xff\x0a\x01x\x12\x0c\x1a\x0a\x08\x00\x12\x02\x01\x09\x1a\x02\x03\x01",
            "error 5 BadString at=90 index=3\n",
        ),
        (
            "a kept key that is no UTF-8, and a key past the table",
            b"\x0a\x20\x0a\x00\x0a\x07highway\x0a\x0drestriction:\xff\x0a\x01\xff\x0a\x01x\x12\x0c\x1a\x0a\x08\x00\x12\x02\x02\x09\x1a\x02\x04\x04",
            "error 5 BadString at=90 index=2\n",
        ),
        (
            "a key past the table behind a tag that is kept",
            b"\x0a\x20\x0a\x00\x0a\x07highway\x0a\x0drestriction:\xff\x0a\x01\xff\x0a\x01x\x12\x0c\x1a\x0a\x08\x00\x12\x02\x01\x09\x1a\x02\x04\x04",
            "error 5 BadString at=90 index=9\n",
        ),
        (
            "a node",
            b"\x0a\x20\x0a\x00\x0a\x07highway\x0a\x0drestriction:\xff\x0a\x01\xff\x0a\x01x\x12\x10\x0a\x0e\x08\x00\x40\x00\x48\x00\x12\x02\x01\x09\x1a\x02\x03\x01",
            "error 5 BadString at=90 index=3\n",
        ),
        (
            "a dense node",
            b"\x0a\x20\x0a\x00\x0a\x07highway\x0a\x0drestriction:\xff\x0a\x01\xff\x0a\x01x\x12\x12\x12\x10\x0a\x01\x00\x42\x01\x00\x4a\x01\x00\x52\x05\x01\x03\x09\x01\x00",
            "error 5 BadString at=90 index=3\n",
        ),
        (
            "a relation",
            b"\x0a\x20\x0a\x00\x0a\x07highway\x0a\x0drestriction:\xff\x0a\x01\xff\x0a\x01x\x12\x0c\x22\x0a\x08\x00\x12\x02\x01\x09\x1a\x02\x03\x01",
            "error 5 BadString at=90 index=3\n",
        ),
    ] {
        assert!(rt; says(&rt, block, said)?, "{name}");
    }
    Ok(())
}

// Objects in the order of the bytes: the first begins at 58. A way whose key is past the table has 8 bytes and stands
// in 10; one without id has none and stands in 2, a relation without id too.
#[test]
fn in_two_objects(rt: HostRuntime) -> Result<(), Fail> {
    for (name, block, said) in [
        (
            "a key, and a way without id",
            b"\x0a\x00\x12\x0c\x1a\x08\x08\x00\x12\x01\x09\x1a\x01\x09\x1a\x00".as_slice(),
            "error 5 BadString at=58 index=9\n",
        ),
        (
            "a way without id, and a key",
            b"\x0a\x00\x12\x0c\x1a\x00\x1a\x08\x08\x00\x12\x01\x09\x1a\x01\x09",
            "error 5 MissingField at=58 number=1\n",
        ),
        (
            "in two groups, a key first",
            b"\x0a\x00\x12\x0a\x1a\x08\x08\x00\x12\x01\x09\x1a\x01\x09\x12\x02\x1a\x00",
            "error 5 BadString at=58 index=9\n",
        ),
        (
            "in two groups, a way without id first",
            b"\x0a\x00\x12\x02\x1a\x00\x12\x0a\x1a\x08\x08\x00\x12\x01\x09\x1a\x01\x09",
            "error 5 MissingField at=58 number=1\n",
        ),
        (
            "a relation before a node, which has a key more",
            b"\x0a\x00\x12\x0d\x22\x00\x0a\x09\x08\x00\x40\x00\x48\x00\x12\x01\x09",
            "error 5 MissingField at=58 number=1\n",
        ),
        (
            "a node with a key more before a relation",
            b"\x0a\x00\x12\x0d\x0a\x09\x08\x00\x40\x00\x48\x00\x12\x01\x09\x22\x00",
            "error 5 Uneven at=58\n",
        ),
        (
            "a way at 58, and a dense message at 62 with a latitude less",
            b"\x0a\x00\x12\x09\x1a\x02\x08\x00\x12\x03\x0a\x01\x00",
            "error 5 Uneven at=62\n",
        ),
        (
            "a latitude that is none, and a way without id",
            b"\x0a\x00\x12\x0e\x0a\x0a\x08\x0e\x40\x82\xa4\xa7\xda\x06\x48\x00\x1a\x00",
            "error 5 BadCoordinate id=7\n",
        ),
        (
            "a way without id, and a latitude that is none",
            b"\x0a\x00\x12\x0e\x1a\x00\x0a\x0a\x08\x0e\x40\x82\xa4\xa7\xda\x06\x48\x00",
            "error 5 MissingField at=58 number=1\n",
        ),
    ] {
        assert!(rt; says(&rt, block, said)?, "{name}");
    }
    Ok(())
}

// Wire and Repeated, wherever they stand in a block, come before the table that is missing and before all objects,
// and the first of them is said.
#[test]
fn in_a_block(rt: HostRuntime) -> Result<(), Fail> {
    for (name, block, said) in [
        // a group of 2 bytes without a table, and what is no field at 54
        (
            "no table",
            b"\x12\x00\x0b".as_slice(),
            "error 5 Wire fault=BadWire at=54 kind=3\n",
        ),
        (
            "no table, and two dense messages",
            b"\x12\x04\x12\x00\x12\x00",
            "error 5 Repeated at=56 number=2\n",
        ),
        (
            "no table, and a way without id",
            b"\x12\x02\x1a\x00",
            "error 5 MissingField at=52 number=1\n",
        ),
        // a way without id in a group of 4 bytes at 54, and the fault at 58
        (
            "a way without id, and no field",
            b"\x0a\x00\x12\x02\x1a\x00\x0b",
            "error 5 Wire fault=BadWire at=58 kind=3\n",
        ),
        (
            "a way without id, and a second table",
            b"\x0a\x00\x12\x02\x1a\x00\x0a\x00",
            "error 5 Repeated at=58 number=1\n",
        ),
        (
            "a way without id, and a group that is none",
            b"\x0a\x00\x12\x02\x1a\x00\x12\x01\x00",
            "error 5 Wire fault=BadNumber at=60\n",
        ),
        (
            "a way without id, and a varint of another way",
            b"\x0a\x00\x12\x07\x1a\x00\x1a\x03\x42\x01\x80",
            "error 5 Wire fault=Short at=62\n",
        ),
        (
            "an object without its fields, and its varint",
            b"\x0a\x00\x12\x05\x0a\x03\x12\x01\x80",
            "error 5 Wire fault=Short at=60\n",
        ),
        (
            "lists that differ in length, and a varint",
            b"\x0a\x00\x12\x08\x12\x06\x0a\x01\x00\x42\x01\x80",
            "error 5 Wire fault=Short at=63\n",
        ),
        (
            "a second table, and no field",
            b"\x0a\x00\x0a\x00\x0b",
            "error 5 Repeated at=54 number=1\n",
        ),
        (
            "no field in a table, and a second table",
            b"\x0a\x01\x0b\x0a\x00",
            "error 5 Wire fault=BadWire at=54 kind=3\n",
        ),
        (
            "a second table that is none",
            b"\x0a\x00\x0a\x01\x0b",
            "error 5 Repeated at=54 number=1\n",
        ),
        (
            "a second dense message that is none",
            b"\x0a\x00\x12\x05\x12\x00\x12\x01\x0b",
            "error 5 Repeated at=58 number=2\n",
        ),
        (
            "no field in a dense message, and a second one",
            b"\x0a\x00\x12\x05\x12\x01\x0b\x12\x00",
            "error 5 Wire fault=BadWire at=58 kind=3\n",
        ),
        (
            "a varint, and behind it a field of the same way",
            b"\x0a\x00\x12\x06\x1a\x04\x42\x01\x80\x0b",
            "error 5 Wire fault=Short at=60\n",
        ),
        // nothing is wrong with a table behind its objects: the key is text 0
        (
            "a table behind the way",
            b"\x12\x0a\x1a\x08\x08\x00\x12\x01\x00\x1a\x01\x00\x0a\x03\x0a\x01\xff",
            "",
        ),
        (
            "a table behind a way without id, at 52 + 4",
            b"\x12\x02\x1a\x00\x0a\x00",
            "error 5 MissingField at=56 number=1\n",
        ),
    ] {
        assert!(rt; says(&rt, block, said)?, "{name}");
    }
    Ok(())
}

// Where one number is wanted the last one counts; where many are wanted all do, packed or not, in pieces or not.
#[test]
fn last_values(rt: HostRuntime) -> Result<(), Fail> {
    for (name, block, said) in [
        (
            "granularity 1, and then 100",
            b"\x0a\x00\x12\x0c\x0a\x0a\x08\x0e\x40\x82\xa4\xa7\xda\x06\x48\x00\x88\x01\x01\x88\x01\x64".as_slice(),
            "error 5 BadCoordinate id=7\n",
        ),
        (
            "granularity 100, and then 1",
            b"\x0a\x00\x12\x0c\x0a\x0a\x08\x0e\x40\x82\xa4\xa7\xda\x06\x48\x00\x88\x01\x64\x88\x01\x01",
            "",
        ),
        (
            "an offset, and then none",
            b"\x0a\x00\x12\x08\x0a\x06\x08\x0e\x40\x02\x48\x00\x98\x01\x80\x88\xac\xa3\xcf\x02\x98\x01\x00",
            "",
        ),
        (
            "no offset, and then one",
            b"\x0a\x00\x12\x08\x0a\x06\x08\x0e\x40\x00\x48\x02\xa0\x01\x00\xa0\x01\x80\x90\xd8\xc6\x9e\x05",
            "error 5 BadCoordinate id=7\n",
        ),
        (
            "ids 1 and 7 of a node",
            b"\x0a\x00\x12\x0e\x0a\x0c\x08\x02\x08\x0e\x40\x82\xa4\xa7\xda\x06\x48\x00",
            "error 5 BadCoordinate id=7\n",
        ),
        (
            "two latitudes, of which the last is none",
            b"\x0a\x00\x12\x0e\x0a\x0c\x08\x0e\x40\x00\x40\x82\xa4\xa7\xda\x06\x48\x00",
            "error 5 BadCoordinate id=7\n",
        ),
        (
            "two latitudes, of which the first is none",
            b"\x0a\x00\x12\x0e\x0a\x0c\x08\x0e\x40\x82\xa4\xa7\xda\x06\x40\x00\x48\x00",
            "",
        ),
        (
            "two longitudes, of which the last is none",
            b"\x0a\x00\x12\x0e\x0a\x0c\x08\x0e\x40\x00\x48\x00\x48\x81\xc8\xce\xb4\x0d",
            "error 5 BadCoordinate id=7\n",
        ),
        // ways 5 and 7, which say their ids at last
        (
            "ids 7 and 5, and 7",
            b"\x0a\x00\x12\x0a\x1a\x04\x08\x07\x08\x05\x1a\x02\x08\x07",
            "",
        ),
        (
            "ids 5 and 7, and 7",
            b"\x0a\x00\x12\x0a\x1a\x04\x08\x05\x08\x07\x1a\x02\x08\x07",
            "error 5 DuplicateId kind=way id=7\n",
        ),
        (
            "ids 5 and 7 of a relation, and 7",
            b"\x0a\x00\x12\x0a\x22\x04\x08\x05\x08\x07\x22\x02\x08\x07",
            "error 5 DuplicateId kind=relation id=7\n",
        ),
        // the way is at 58, or at 60 where there is a text
        (
            "two keys in pieces",
            b"\x0a\x02\x0a\x00\x12\x0e\x1a\x0c\x08\x00\x12\x01\x00\x12\x01\x09\x1a\x02\x00\x00",
            "error 5 BadString at=60 index=9\n",
        ),
        (
            "two keys of which one isn't packed",
            b"\x0a\x02\x0a\x00\x12\x0d\x1a\x0b\x08\x00\x12\x01\x00\x10\x09\x1a\x02\x00\x00",
            "error 5 BadString at=60 index=9\n",
        ),
        (
            "two values that aren't packed",
            b"\x0a\x02\x0a\x00\x12\x0c\x1a\x0a\x08\x00\x12\x02\x00\x00\x18\x00\x18\x09",
            "error 5 BadString at=60 index=9\n",
        ),
        (
            "refs that aren't packed",
            b"\x0a\x00\x12\x11\x1a\x0f\x08\x00\x40\xfe\xff\xff\xff\xff\xff\xff\xff\xff\x01\x40\x02",
            "error 5 BadNumber at=58\n",
        ),
        (
            "refs in pieces",
            b"\x0a\x00\x12\x13\x1a\x11\x08\x00\x42\x0a\xfe\xff\xff\xff\xff\xff\xff\xff\xff\x01\x42\x01\x02",
            "error 5 BadNumber at=58\n",
        ),
        // a 0 in the place of a value is text 0, here a byte ff behind the key `highway`: its table has 2 + 3 + 9 bytes
        (
            "text 0 as a value",
            b"\x0a\x0c\x0a\x01\xff\x0a\x07highway\x12\x10\x12\x0e\x0a\x01\x00\x42\x01\x00\x4a\x01\x00\x52\x03\x01\x00\x00",
            "error 5 BadString at=70 index=0\n",
        ),
    ] {
        assert!(rt; says(&rt, block, said)?, "{name}");
    }
    Ok(())
}
