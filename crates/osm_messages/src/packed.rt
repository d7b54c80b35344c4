//! Packed numbers: looked through, and read.
ghost use Rattle.std.specs.Prelude.{◌≡◌, ◌+◌, ◌<◌, ◌^◌, length, None, Some, IfOk, IfErr, IsTrue};
ghost use Rattle.wire_read.specs.Fields.{packed_of};
ghost use Rattle.osm_messages.specs.Answers.{Becomes};
ghost use Rattle.osm_messages.specs.Lists.{with_values};
ghost use Rattle.osm_messages.specs.Endings.{EndsOften, EndsWhole};

use crate::fault::MessageFault;
use wire_read::{WireFault, read_varint};

/// The most bytes that a varint has.
const MOST_BYTES: u64 = 10;

/// The count of bytes that are looked at together. Ten bytes in a row have all bytes of one of these groups.
const GROUP: usize = 5;

/// Whether each group of five bytes has one that ends a varint. Then no varint has more than ten bytes.
fn ends_often(bytes: &[u8]) -> bool
    ensures { IsTrue result → EndsOften bytes.now }
{
    for group in 0..bytes.len() / GROUP {
        let i = GROUP * group;
        let least = bytes[i]
            .min(bytes[i + 1])
            .min(bytes[i + 2])
            .min(bytes[i + 3])
            .min(bytes[i + 4]);
        if least >= 128 {
            return false;
        }
    }
    true
}

/// Whether the last byte ends a varint, where there is one.
fn ends_whole(bytes: &[u8]) -> bool
    ensures { IsTrue result → EndsWhole bytes.now }
{
    match bytes.last() {
        Some(last) => *last < 128,
        None => true,
    }
}

/// Looks for the first fault of packed numbers byte by byte.
fn first_fault(bytes: &[u8], at: u64) -> Result<(), WireFault>
    requires { at + length bytes.now < 2 ^ 64 }
    ensures spelled { IfOk result (λ _. (packed_of at bytes.now).fault ≡ None) }
    ensures fault { IfErr result (λ fault. (packed_of at bytes.now).fault ≡ Some fault) }
{
    // the bytes just before this one that all go on
    let mut going: u64 = 0;
    for i in 0..bytes.len() {
        if bytes[i] < 128 {
            going = 0;
        } else {
            going += 1;
            if going == MOST_BYTES {
                return Err(WireFault::LongVarint {
                    at: at + (i as u64 + 1 - MOST_BYTES),
                });
            }
        }
    }
    if going > 0 {
        return Err(WireFault::Short {
            at: at + (bytes.len() as u64 - going),
        });
    }
    Ok(())
}

/// Looks for the first fault of packed numbers, the first byte of which stands at `at`. Nothing is kept of them.
pub fn check_packed(bytes: &[u8], at: u64) -> Result<(), WireFault>
    requires { at + length bytes.now < 2 ^ 64 }
    ensures spelled { IfOk result (λ _. (packed_of at bytes.now).fault ≡ None) }
    ensures fault { IfErr result (λ fault. (packed_of at bytes.now).fault ≡ Some fault) }
{
    if ends_whole(bytes) && ends_often(bytes) {
        return Ok(());
    }
    first_fault(bytes, at)
}

/// Appends the packed numbers to the list. The first byte stands at `at`.
pub fn push_packed(numbers: &mut Vec<u64>, bytes: &[u8], at: u64) -> Result<(), MessageFault>
    requires { at + length bytes.now < 2 ^ 64 }
    ensures { Becomes result numbers.new.items (with_values numbers.old.items at bytes.now) }
{
    let mut rest = bytes;
    while !rest.is_empty() {
        let place = at + (bytes.len() - rest.len()) as u64;
        let (number, behind) = read_varint(rest, place)?;
        numbers.push(number)?;
        rest = behind;
    }
    Ok(())
}
