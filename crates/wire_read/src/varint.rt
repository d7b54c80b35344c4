//! One varint: base 128, the lowest groups of seven bits first.
ghost use Rattle.std.specs.Prelude.{◌≡◌, ◌<◌, List, ℕ, length, IfOk, IfErr, IfSome, Some};
ghost use Rattle.wire_read.specs.Varint.{varint_of, Spelled, fault_at, AreBytes, OutcomeIsByGrammar, HasOneFront};

use crate::fault::WireFault;

/// The most bytes that a varint has.
const MOST_BYTES: u32 = 10;

#[inline(always)]
/// The varint that begins the bytes and the bytes after it, where it has at most three bytes.
fn short_varint(bytes: &[u8]) -> Option<(u64, &[u8])>
    ensures spelled { IfSome result (λ found. varint_of bytes.now ≡ Spelled found.0 found.1.now) }
    ensures shorter { IfSome result (λ found. length found.1.now < length bytes.now) }
{
    let (first, rest) = bytes.split_first()?;
    if *first < 128 {
        return Some((u64::from(*first), rest));
    }
    let (second, rest) = rest.split_first()?;
    let low = u64::from(*first % 128);
    if *second < 128 {
        return Some((low + 128 * u64::from(*second), rest));
    }
    let (third, rest) = rest.split_first()?;
    if *third < 128 {
        let high = u64::from(*second % 128) + 128 * u64::from(*third);
        return Some((low + 128 * high, rest));
    }
    None
}

#[inline(never)]
/// Reads a varint of any length, group by group.
fn read_groups(bytes: &[u8], at: u64) -> Result<(u64, &[u8]), WireFault>
    ensures spelled { IfOk result (λ found. varint_of bytes.now ≡ Spelled found.0 found.1.now) }
    ensures shorter { IfOk result (λ found. length found.1.now < length bytes.now) }
    ensures fault { IfErr result (λ fault. fault_at at (varint_of bytes.now) ≡ Some fault) }
{
    let mut value: u64 = 0;
    let mut rest = bytes;
    for group in 0..MOST_BYTES {
        let Some((first, others)) = rest.split_first() else {
            return Err(WireFault::Short { at });
        };
        let low_bits = u64::from(*first % 128) << (7 * group);
        value = value.wrapping_add(low_bits);
        rest = others;
        if *first < 128 {
            return Ok((value, rest));
        }
    }
    Err(WireFault::LongVarint { at })
}

#[inline]
/// Reads the varint that begins the bytes (section "Base 128 Varints"): its value modulo 2^64, and the bytes after it.
/// Spellings that are longer than they need to be are read too. `at` is the place of the first byte; a fault
/// names it.
pub fn read_varint(bytes: &[u8], at: u64) -> Result<(u64, &[u8]), WireFault>
    ensures spelled { IfOk result (λ found. varint_of bytes.now ≡ Spelled found.0 found.1.now) }
    ensures shorter { IfOk result (λ found. length found.1.now < length bytes.now) }
    ensures fault { IfErr result (λ fault. fault_at at (varint_of bytes.now) ≡ Some fault) }
{
    match short_varint(bytes) {
        Some(found) => Ok(found),
        None => read_groups(bytes, at),
    }
}

/// What a list of bytes begins with is by the grammar of varints alone, and no varint begins another.
pub fn varint_law()
    ensures by_grammar { (bytes : List ℕ) → AreBytes bytes → OutcomeIsByGrammar bytes }
    ensures one_front { HasOneFront }
{}
