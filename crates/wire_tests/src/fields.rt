ghost use Rattle.std.specs.Prelude.{◌≡◌, ◌+◌, ◌<◌, ◌^◌, length, map, IfOk};
ghost use Rattle.wire_read.specs.Fields.{seen, message_of};

use std::alloc::{AllocError, Global};
use std::test::Fail;
use wire_read::{Body, Field, Fields, WireFault};

// The fields before the end or the first fault, and the fault.
fn fields_of(
    alloc: Global,
    bytes: &[u8],
    base: u64,
) -> Result<(Vec<Field<'_>>, Option<WireFault>), AllocError>
    requires { base + length bytes.now < 2 ^ 64 }
    ensures { IfOk result (λ read. message_of base bytes.now ≡ record { items = map seen read.0.items; fault = read.1 }) }
{
    let mut fields = Vec::new(alloc);
    for field in Fields::new(bytes, base) {
        match field {
            Ok(field) => fields.push(field)?,
            Err(fault) => return Ok((fields, Some(fault))),
        }
    }
    Ok((fields, None))
}

// Field 536,870,911 with eight bytes, field 3 with four, field 1 with none.
const GREATEST_NUMBER: [u8; 20] = [
    0xf9, 0xff, 0xff, 0xff, 0x0f, 1, 0, 0, 0, 0, 0, 0, 0x80, 0x1d, 1, 2, 0, 0xff, 0x0a, 0,
];

const NONE: [(u32, u64, u64, u8, u64); 0] = [];

// The wire type, and the number or how many bytes there are.
fn shown(body: Body) -> (u8, u64) {
    match body {
        Body::Varint(n) => (0, n),
        Body::Fixed64(n) => (1, n),
        Body::Bytes(bytes) => (2, bytes.len() as u64),
        Body::Fixed32(n) => (5, u64::from(n)),
    }
}

// From the encoding's documentation and by hand; the first byte stands at 100.
#[test]
fn messages(rt: HostRuntime) -> Result<(), Fail> {
    for (bytes, want, fault) in [
        // no bytes
        ([].as_slice(), NONE.as_slice(), None),
        // field 1, varint 150
        (
            [0x08, 0x96, 0x01].as_slice(),
            [(1, 100, 101, 0, 150)].as_slice(),
            None,
        ),
        // field 2, bytes "testing"
        (
            [0x12, 0x07, 0x74, 0x65, 0x73, 0x74, 0x69, 0x6e, 0x67].as_slice(),
            [(2, 100, 102, 2, 7)].as_slice(),
            None,
        ),
        // the greatest number and eight bytes; four bytes; no bytes
        (
            GREATEST_NUMBER.as_slice(),
            [
                (536_870_911, 100, 105, 1, 0x8000_0000_0000_0001),
                (3, 113, 114, 5, 0xff00_0201),
                (1, 118, 120, 2, 0),
            ]
            .as_slice(),
            None,
        ),
        // the tag is cut off, is endless
        (
            [0x80].as_slice(),
            NONE.as_slice(),
            Some(WireFault::Short { at: 100 }),
        ),
        (
            [0x80; 10].as_slice(),
            NONE.as_slice(),
            Some(WireFault::LongVarint { at: 100 }),
        ),
        // a bad wire type, also with a bad number
        (
            [0x0b].as_slice(),
            NONE.as_slice(),
            Some(WireFault::BadWire { at: 100, kind: 3 }),
        ),
        (
            [0x04].as_slice(),
            NONE.as_slice(),
            Some(WireFault::BadWire { at: 100, kind: 4 }),
        ),
        (
            [0x0e].as_slice(),
            NONE.as_slice(),
            Some(WireFault::BadWire { at: 100, kind: 6 }),
        ),
        (
            [0x0f].as_slice(),
            NONE.as_slice(),
            Some(WireFault::BadWire { at: 100, kind: 7 }),
        ),
        // a bad number, also where no body is there
        (
            [0x02].as_slice(),
            NONE.as_slice(),
            Some(WireFault::BadNumber { at: 100 }),
        ),
        (
            [0x80, 0x80, 0x80, 0x80, 0x10].as_slice(),
            NONE.as_slice(),
            Some(WireFault::BadNumber { at: 100 }),
        ),
        // each body is cut off, behind a field that is whole
        (
            [0x08, 0x00, 0x08].as_slice(),
            [(1, 100, 101, 0, 0)].as_slice(),
            Some(WireFault::Short { at: 102 }),
        ),
        (
            [0x08, 0x00, 0x09, 1, 2, 3, 4, 5, 6, 7].as_slice(),
            [(1, 100, 101, 0, 0)].as_slice(),
            Some(WireFault::Short { at: 102 }),
        ),
        (
            [0x08, 0x00, 0x0d, 1, 2, 3].as_slice(),
            [(1, 100, 101, 0, 0)].as_slice(),
            Some(WireFault::Short { at: 102 }),
        ),
        (
            [0x0a, 0x02, 0x41].as_slice(),
            NONE.as_slice(),
            Some(WireFault::Short { at: 100 }),
        ),
        (
            [0x0a, 0x80].as_slice(),
            NONE.as_slice(),
            Some(WireFault::Short { at: 100 }),
        ),
        // its varint is endless
        (
            [
                0x08, 0x80, 0x80, 0x80, 0x80, 0x80, 0x80, 0x80, 0x80, 0x80, 0x80,
            ]
            .as_slice(),
            NONE.as_slice(),
            Some(WireFault::LongVarint { at: 100 }),
        ),
    ] {
        let (found, end) = fields_of(rt.alloc(), bytes, 100)?;
        assert_eq!(rt; found.len(), want.len(), "of {bytes:?}");
        for (field, (number, at, body_at, kind, value)) in found.iter().zip(want) {
            assert_eq!(rt; field.number, *number, "of {bytes:?}");
            assert_eq!(rt; (field.at, field.body_at), (*at, *body_at), "of {bytes:?}");
            assert_eq!(rt; shown(field.body), (*kind, *value), "of {bytes:?}");
        }
        assert_eq!(rt; end, fault, "after {bytes:?}");
    }
    Ok(())
}

// The field 3 of the documentation holds a message with a field 1 of 150; places in it go on from its first byte.
#[test]
fn a_message_in_a_message(rt: HostRuntime) -> Result<(), Fail> {
    let bytes = [0x1a, 0x03, 0x08, 0x96, 0x01];
    let mut outer = Fields::new(bytes.as_slice(), 40);
    let Some(Ok(field)) = outer.next() else {
        assert!(rt; false, "a field");
        return Ok(());
    };
    assert_eq!(rt; field.number, 3);
    let Body::Bytes(inner) = field.body else {
        assert!(rt; false, "bytes");
        return Ok(());
    };
    let (found, fault) = fields_of(rt.alloc(), inner, field.body_at)?;
    assert_eq!(rt; fault, None);
    assert_eq!(rt; found.len(), 1);
    assert_eq!(rt; found[0].at, 42);
    assert_eq!(rt; shown(found[0].body), (0, 150));
    assert_eq!(rt; outer.next(), None);
    assert_eq!(rt; outer.rest().len(), 0);
    Ok(())
}

// A reader stays where it is at the end and after a fault.
#[test]
fn stays(rt: HostRuntime) {
    let mut cut = Fields::new([0x08, 0x05, 0x10].as_slice(), 40);
    assert!(rt; matches!(cut.next(), Some(Ok(_))));
    assert_eq!(rt; cut.rest().len(), 1);
    assert_eq!(rt; cut.next(), Some(Err(WireFault::Short { at: 42 })));
    assert_eq!(rt; cut.next(), None);
    assert_eq!(rt; cut.rest().len(), 1);
}
