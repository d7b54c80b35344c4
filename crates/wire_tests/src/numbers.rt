ghost use Rattle.std.specs.Prelude.{◌≡◌, ◌+◌, ◌<◌, ◌^◌, length, IfOk, IfSome, None};
ghost use Rattle.wire_read.specs.Numbers.{SpellsNumbers, BreaksNumbers};

use std::alloc::{AllocError, Global};
use std::test::Fail;
use wire_read::{Varints, WireFault, read_varint, unzigzag};

const ELEVEN: [u8; 11] = [0x80; 11];

const GREATEST: [u8; 10] = [0xff, 0xff, 0xff, 0xff, 0xff, 0xff, 0xff, 0xff, 0xff, 0x01];

const TENTH_IS_TWO: [u8; 10] = [0x81, 0x80, 0x80, 0x80, 0x80, 0x80, 0x80, 0x80, 0x80, 0x02];

// Values from the encoding's documentation and by hand.
#[test]
fn varints(rt: HostRuntime) {
    for (bytes, value, left) in [
        ([0x00].as_slice(), 0, 0),
        ([0x01].as_slice(), 1, 0),
        ([0x7f].as_slice(), 127, 0),
        ([0x80, 0x01].as_slice(), 128, 0),
        ([0xac, 0x02].as_slice(), 300, 0),
        ([0x96, 0x01, 0x08].as_slice(), 150, 1),
        ([0x80, 0x80, 0x01].as_slice(), 16_384, 0),
        ([0xff, 0xff, 0xff, 0xff, 0x0f].as_slice(), 4_294_967_295, 0),
        (GREATEST.as_slice(), 18_446_744_073_709_551_615, 0),
        // longer than it needs to be
        ([0x80, 0x00, 0x05].as_slice(), 0, 1),
        // 1 + 2 * 2^63, modulo 2^64
        (TENTH_IS_TWO.as_slice(), 1, 0),
    ] {
        match read_varint(bytes, 7) {
            Ok((found, rest)) => {
                assert_eq!(rt; found, value, "of {bytes:?}");
                assert_eq!(rt; rest.len(), left, "after {bytes:?}");
            }
            Err(fault) => assert!(rt; false, "{bytes:?}: {fault}"),
        }
    }
}

#[test]
fn broken_varints(rt: HostRuntime) {
    let short = WireFault::Short { at: 7 };
    let long = WireFault::LongVarint { at: 7 };
    for (bytes, fault) in [
        ([].as_slice(), short),
        ([0x80].as_slice(), short),
        ([0xac, 0x82].as_slice(), short),
        (&GREATEST[..9], short),
        (&ELEVEN[..9], short),
        (&ELEVEN[..10], long),
        (ELEVEN.as_slice(), long),
    ] {
        assert_eq!(rt; read_varint(bytes, 7).err(), Some(fault), "of {bytes:?}");
    }
}

// The numbers before the end or the first fault, and the fault.
fn numbers_of(
    alloc: Global,
    bytes: &[u8],
    base: u64,
) -> Result<(Vec<u64>, Option<WireFault>), AllocError>
    requires { base + length bytes.now < 2 ^ 64 }
    ensures spelled { IfOk result (λ read. read.1 ≡ None → SpellsNumbers bytes.now read.0.items) }
    ensures broken { IfOk result (λ read. IfSome read.1 (BreaksNumbers bytes.now base read.0.items)) }
{
    let mut numbers = Vec::new(alloc);
    for number in Varints::new(bytes, base) {
        match number {
            Ok(value) => numbers.push(value)?,
            Err(fault) => return Ok((numbers, Some(fault))),
        }
    }
    Ok((numbers, None))
}

#[test]
fn packed_numbers(rt: HostRuntime) -> Result<(), Fail> {
    for (bytes, numbers, fault) in [
        ([].as_slice(), [].as_slice(), None),
        // from the documentation of packed fields
        (
            [0x03, 0x8e, 0x02, 0x9e, 0xa7, 0x05].as_slice(),
            [3, 270, 86_942].as_slice(),
            None,
        ),
        (
            [0x03, 0x8e, 0x02, 0x9e, 0xa7].as_slice(),
            [3, 270].as_slice(),
            Some(WireFault::Short { at: 103 }),
        ),
        (
            ELEVEN.as_slice(),
            [].as_slice(),
            Some(WireFault::LongVarint { at: 100 }),
        ),
    ] {
        let (found, end) = numbers_of(rt.alloc(), bytes, 100)?;
        assert_eq!(rt; found.as_slice(), numbers, "of {bytes:?}");
        assert_eq!(rt; end, fault, "after {bytes:?}");
    }
    Ok(())
}

// A reader stays where it is at the end and after a fault.
#[test]
fn stays(rt: HostRuntime) {
    let mut cut = Varints::new([0x05, 0x80].as_slice(), 40);
    assert_eq!(rt; cut.next(), Some(Ok(5)));
    assert_eq!(rt; cut.rest().len(), 1);
    assert_eq!(rt; cut.next(), Some(Err(WireFault::Short { at: 41 })));
    assert_eq!(rt; cut.next(), None);
    assert_eq!(rt; cut.rest().len(), 1);
    let mut whole = Varints::new([0x05].as_slice(), 40);
    assert_eq!(rt; whole.next(), Some(Ok(5)));
    assert_eq!(rt; whole.next(), None);
    assert_eq!(rt; whole.next(), None);
}

#[test]
fn signed_numbers(rt: HostRuntime) {
    for (n, signed) in [
        (0, 0),
        (1, -1),
        (2, 1),
        (3, -2),
        (4_294_967_294, 2_147_483_647),
        (4_294_967_295, -2_147_483_648),
        (18_446_744_073_709_551_614, 9_223_372_036_854_775_807),
        (18_446_744_073_709_551_615, -9_223_372_036_854_775_808),
    ] {
        assert_eq!(rt; unzigzag(n), signed, "of {n}");
    }
}

#[test]
fn texts(rt: HostRuntime) -> Result<(), Fail> {
    for (fault, text) in [
        (WireFault::Short { at: 3 }, "Short at=3"),
        (WireFault::LongVarint { at: 4 }, "LongVarint at=4"),
        (WireFault::BadWire { at: 5, kind: 6 }, "BadWire at=5 kind=6"),
        (WireFault::BadNumber { at: 7 }, "BadNumber at=7"),
    ] {
        let said = fault.to_string(rt.alloc())?;
        assert_eq!(rt; said.as_str(), text);
    }
    Ok(())
}
