//! Bytes of a data block that aren't in the wire format, and fields that come again: the place that `build` names. How
//! places are counted stands in `faults`; where nothing is wrong the line is empty.

use program_runs::says;
use std::test::Fail;

// A field that may come once: the second one is named. The group of the dense messages begins at 52 + 2 + 2 = 56.
#[test]
fn fields_that_come_again(rt: HostRuntime) -> Result<(), Fail> {
    for (name, block, said) in [
        (
            "two tables",
            b"\x0a\x00\x0a\x00".as_slice(),
            "error 5 Repeated at=54 number=1\n",
        ),
        (
            "two tables, with a group between",
            b"\x0a\x00\x12\x00\x0a\x00",
            "error 5 Repeated at=56 number=1\n",
        ),
        (
            "two dense messages",
            b"\x0a\x00\x12\x04\x12\x00\x12\x00",
            "error 5 Repeated at=58 number=2\n",
        ),
        (
            "two dense messages, with a way of 4 bytes between",
            b"\x0a\x00\x12\x08\x12\x00\x1a\x02\x08\x00\x12\x00",
            "error 5 Repeated at=62 number=2\n",
        ),
        (
            "a dense message in each of two groups",
            b"\x0a\x00\x12\x02\x12\x00\x12\x02\x12\x00",
            "",
        ),
        ("a number and a table", b"\x08\x00\x0a\x00\x08\x00", ""),
        (
            "a dense message and a number",
            b"\x0a\x00\x12\x04\x12\x00\x10\x00",
            "",
        ),
    ] {
        assert!(rt; says(&rt, block, said)?, "{name}");
    }
    Ok(())
}

// What is no field of a block, which begins at 52.
#[test]
fn blocks(rt: HostRuntime) -> Result<(), Fail> {
    for (name, block, said) in [
        (
            "a tag alone",
            b"\x0a".as_slice(),
            "error 5 Wire fault=Short at=52\n",
        ),
        (
            "a table that ends past the block",
            b"\x0a\x01",
            "error 5 Wire fault=Short at=52\n",
        ),
        (
            "a tag that doesn't end",
            b"\x80",
            "error 5 Wire fault=Short at=52\n",
        ),
        (
            "a tag of more than ten bytes",
            b"\xff\xff\xff\xff\xff\xff\xff\xff\xff\xff",
            "error 5 Wire fault=LongVarint at=52\n",
        ),
        (
            "wire type 3",
            b"\x0b",
            "error 5 Wire fault=BadWire at=52 kind=3\n",
        ),
        (
            "wire type 4",
            b"\x0c",
            "error 5 Wire fault=BadWire at=52 kind=4\n",
        ),
        (
            "wire type 6",
            b"\x0e",
            "error 5 Wire fault=BadWire at=52 kind=6\n",
        ),
        (
            "wire type 7",
            b"\x0f",
            "error 5 Wire fault=BadWire at=52 kind=7\n",
        ),
        ("field 0", b"\x00", "error 5 Wire fault=BadNumber at=52\n"),
        (
            "field 2^29",
            b"\x80\x80\x80\x80\x10",
            "error 5 Wire fault=BadNumber at=52\n",
        ),
        ("field 2^29 - 1", b"\x0a\x00\xf8\xff\xff\xff\x0f\x00", ""),
        (
            "behind the table",
            b"\x0a\x00\x0b",
            "error 5 Wire fault=BadWire at=54 kind=3\n",
        ),
        (
            "four bytes of which one is missing",
            b"\x0a\x00\x1d\x00\x00\x00",
            "error 5 Wire fault=Short at=54\n",
        ),
        (
            "eight bytes of which one is missing",
            b"\x0a\x00\x19\x00\x00\x00\x00\x00\x00\x00",
            "error 5 Wire fault=Short at=54\n",
        ),
    ] {
        assert!(rt; says(&rt, block, said)?, "{name}");
    }
    Ok(())
}

// What is no field of a message in a block: the table begins at 54, the group behind an empty table at 56, and its
// object at 58, with an id of two bytes before the fault.
#[test]
fn messages_in_blocks(rt: HostRuntime) -> Result<(), Fail> {
    for (name, block, said) in [
        (
            "the table",
            b"\x0a\x01\x0b".as_slice(),
            "error 5 Wire fault=BadWire at=54 kind=3\n",
        ),
        (
            "the table, behind a text",
            b"\x0a\x03\x0a\x00\x00",
            "error 5 Wire fault=BadNumber at=56\n",
        ),
        (
            "a text that ends past the table",
            b"\x0a\x02\x0a\x01",
            "error 5 Wire fault=Short at=54\n",
        ),
        (
            "a group",
            b"\x0a\x00\x12\x01\x0b",
            "error 5 Wire fault=BadWire at=56 kind=3\n",
        ),
        (
            "a group, behind a way of 4 bytes",
            b"\x0a\x00\x12\x05\x1a\x02\x08\x00\x00",
            "error 5 Wire fault=BadNumber at=60\n",
        ),
        (
            "a way that ends past its group",
            b"\x0a\x00\x12\x04\x1a\x03\x08\x00",
            "error 5 Wire fault=Short at=56\n",
        ),
        (
            "a node",
            b"\x0a\x00\x12\x05\x0a\x03\x08\x00\x0b",
            "error 5 Wire fault=BadWire at=60 kind=3\n",
        ),
        (
            "a dense message",
            b"\x0a\x00\x12\x05\x12\x03\x08\x00\x00",
            "error 5 Wire fault=BadNumber at=60\n",
        ),
        (
            "a way",
            b"\x0a\x00\x12\x06\x1a\x04\x08\x00\x42\x01",
            "error 5 Wire fault=Short at=60\n",
        ),
        (
            "a relation",
            b"\x0a\x00\x12\x0f\x22\x0d\x08\x00\x08\xff\xff\xff\xff\xff\xff\xff\xff\xff\xff",
            "error 5 Wire fault=LongVarint at=60\n",
        ),
    ] {
        assert!(rt; says(&rt, block, said)?, "{name}");
    }
    Ok(())
}

// A varint that doesn't end, in each list that is read. The object is at 58 and begins with the list, whose first
// varint is at 60.
#[test]
fn packed_numbers(rt: HostRuntime) -> Result<(), Fail> {
    for (name, block, said) in [
        (
            "a node, list 2",
            b"\x0a\x00\x12\x05\x0a\x03\x12\x01\x80".as_slice(),
            "error 5 Wire fault=Short at=60\n",
        ),
        (
            "a node, list 3",
            b"\x0a\x00\x12\x05\x0a\x03\x1a\x01\x80",
            "error 5 Wire fault=Short at=60\n",
        ),
        (
            "a dense message, list 1",
            b"\x0a\x00\x12\x05\x12\x03\x0a\x01\x80",
            "error 5 Wire fault=Short at=60\n",
        ),
        (
            "a dense message, list 8",
            b"\x0a\x00\x12\x05\x12\x03\x42\x01\x80",
            "error 5 Wire fault=Short at=60\n",
        ),
        (
            "a dense message, list 9",
            b"\x0a\x00\x12\x05\x12\x03\x4a\x01\x80",
            "error 5 Wire fault=Short at=60\n",
        ),
        (
            "a dense message, list 10",
            b"\x0a\x00\x12\x05\x12\x03\x52\x01\x80",
            "error 5 Wire fault=Short at=60\n",
        ),
        (
            "a way, list 2",
            b"\x0a\x00\x12\x05\x1a\x03\x12\x01\x80",
            "error 5 Wire fault=Short at=60\n",
        ),
        (
            "a way, list 3",
            b"\x0a\x00\x12\x05\x1a\x03\x1a\x01\x80",
            "error 5 Wire fault=Short at=60\n",
        ),
        (
            "a way, list 8",
            b"\x0a\x00\x12\x05\x1a\x03\x42\x01\x80",
            "error 5 Wire fault=Short at=60\n",
        ),
        (
            "a relation, list 2",
            b"\x0a\x00\x12\x05\x22\x03\x12\x01\x80",
            "error 5 Wire fault=Short at=60\n",
        ),
        (
            "a relation, list 3",
            b"\x0a\x00\x12\x05\x22\x03\x1a\x01\x80",
            "error 5 Wire fault=Short at=60\n",
        ),
        (
            "a relation, list 8",
            b"\x0a\x00\x12\x05\x22\x03\x42\x01\x80",
            "error 5 Wire fault=Short at=60\n",
        ),
        (
            "a relation, list 9",
            b"\x0a\x00\x12\x05\x22\x03\x4a\x01\x80",
            "error 5 Wire fault=Short at=60\n",
        ),
        (
            "a relation, list 10",
            b"\x0a\x00\x12\x05\x22\x03\x52\x01\x80",
            "error 5 Wire fault=Short at=60\n",
        ),
        (
            "a varint behind one of two bytes",
            b"\x0a\x00\x12\x07\x1a\x05\x42\x03\x80\x01\x80",
            "error 5 Wire fault=Short at=62\n",
        ),
        (
            "a varint of more than ten bytes, behind one of one",
            b"\x0a\x00\x12\x0f\x1a\x0d\x42\x0b\x00\xff\xff\xff\xff\xff\xff\xff\xff\xff\xff",
            "error 5 Wire fault=LongVarint at=61\n",
        ),
        // field 3 of a node at 60, with a body that ends past the node
        (
            "a list that ends past its object",
            b"\x0a\x00\x12\x07\x0a\x05\x08\x00\x1a\x02\x00",
            "error 5 Wire fault=Short at=60\n",
        ),
    ] {
        assert!(rt; says(&rt, block, said)?, "{name}");
    }
    Ok(())
}

// The same bytes in fields that aren't read, of the numbers that the format has for other things.
#[test]
fn what_is_not_read(rt: HostRuntime) -> Result<(), Fail> {
    for (name, block, said) in [
        ("field 4 of a block", b"\x0a\x00\x22\x01\x80".as_slice(), ""),
        ("field 5 of a group", b"\x0a\x00\x12\x03\x2a\x01\x80", ""),
        (
            "field 4 of a node",
            b"\x0a\x00\x12\x0b\x0a\x09\x08\x00\x40\x00\x48\x00\x22\x01\x80",
            "",
        ),
        (
            "fields 1, 8 and 9 of a node as bytes",
            b"\x0a\x00\x12\x11\x0a\x0f\x0a\x01\x80\x42\x01\x80\x4a\x01\x80\x08\x00\x40\x00\x48\x00",
            "",
        ),
        (
            "field 5 of a dense message",
            b"\x0a\x00\x12\x05\x12\x03\x2a\x01\x80",
            "",
        ),
        (
            "fields 1, 4, 9 and 10 of a way",
            b"\x0a\x00\x12\x10\x1a\x0e\x08\x00\x0a\x01\x80\x22\x01\x80\x4a\x01\x80\x52\x01\x80",
            "",
        ),
        (
            "fields 1 and 4 of a relation",
            b"\x0a\x00\x12\x0a\x22\x08\x08\x00\x0a\x01\x80\x22\x01\x80",
            "",
        ),
    ] {
        assert!(rt; says(&rt, block, said)?, "{name}");
    }
    Ok(())
}
