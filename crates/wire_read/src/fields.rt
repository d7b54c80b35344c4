//! The fields of a message: a tag and a body each, one after the other to the end of a slice.
ghost use Rattle.std.specs.Prelude.{◌≡◌, ◌+◌, ◌<◌, ◌^◌, ℕ, List, Ok, Err, false, length, ◌≤◌, IfOk, IfErr};
ghost use Rattle.wire_read.specs.Varint.{AreBytes};
ghost use Rattle.wire_read.specs.Numbers.{Unread};
ghost use Rattle.wire_read.specs.Fields.{seen, content_of, part_at, number_at, varint_body, fixed64_body, bytes_body, fixed32_body, body_of, inner_length, body_offset, field_of, NextField, fields_left, IsMessageOneWay, PackedIsComputed};

use crate::fault::WireFault;
use crate::varint::read_varint;
use std::marker::Model;

/// The greatest number that a field may have.
const GREATEST_NUMBER: u64 = 536_870_911;

/// What a field holds, by its wire type: 0, 1, 2, 5 (section "Message Structure"). `Fixed64` and `Fixed32` are spelled
/// with the lowest byte first (section "Non-varint Numbers").
#[derive(Clone, Copy, Debug, PartialEq, Eq)]
pub enum Body<'a> {
    Varint(u64),
    Fixed64(u64),
    /// A slice of the message: a text, a message or packed numbers (section "Length-Delimited Records").
    Bytes(&'a [u8]),
    Fixed32(u32),
}

/// A field of a message. `at` is the place of its first byte. `body_at` is the place of the first of the bytes that
/// it holds, and the place behind its tag where it holds a number; a message in it is read from there on.
#[derive(Clone, Copy, Debug, PartialEq, Eq)]
pub struct Field<'a> {
    pub number: u32,
    pub at: u64,
    pub body_at: u64,
    pub body: Body<'a>,
}

#[tactic(auto, unfolding(crate::specs::Fields::part_at))]
/// Splits off the first `count` bytes.
fn read_part(bytes: &[u8], at: u64, count: u64) -> Result<(&[u8], &[u8]), WireFault>
    ensures part { IfOk result (λ found. part_at at count bytes.now ≡ Ok (found.0.now, found.1.now)) }
    ensures lengths { IfOk result (λ found. length found.1.now + length found.0.now ≡ length bytes.now) }
    ensures fault { IfErr result (λ fault. part_at at count bytes.now ≡ Err fault) }
{
    if (bytes.len() as u64) < count {
        return Err(WireFault::Short { at });
    }
    Ok(bytes.split_at(count as usize))
}

#[tactic(auto, unfolding(crate::specs::Fields::number_at))]
/// The field number of a tag. A bad wire type comes before a bad number.
fn field_number(tag: u64, at: u64) -> Result<u32, WireFault>
    ensures number { IfOk result (λ number. number_at at tag ≡ Ok number) }
    ensures fault { IfErr result (λ fault. number_at at tag ≡ Err fault) }
{
    let kind = (tag % 8) as u8;
    if !matches!(kind, 0 | 1 | 2 | 5) {
        return Err(WireFault::BadWire { at, kind });
    }
    let number = tag / 8;
    if number == 0 || number > GREATEST_NUMBER {
        return Err(WireFault::BadNumber { at });
    }
    Ok(number as u32)
}

#[tactic(auto, unfolding(crate::specs::Fields::varint_body))]
fn read_varint_body(bytes: &[u8], at: u64) -> Result<(Body<'_>, &[u8]), WireFault>
    ensures body { IfOk result (λ found. varint_body at bytes.now ≡ Ok (content_of found.0, found.1.now)) }
    ensures room { IfOk result (λ found. length found.1.now + inner_length (content_of found.0) ≤ length bytes.now) }
    ensures fault { IfErr result (λ fault. varint_body at bytes.now ≡ Err fault) }
{
    let (value, rest) = read_varint(bytes, at)?;
    Ok((Body::Varint(value), rest))
}

#[tactic(auto, unfolding(crate::specs::Fields::fixed64_body, crate::specs::Fields::part_at))]
fn read_fixed64_body(bytes: &[u8], at: u64) -> Result<(Body<'_>, &[u8]), WireFault>
    ensures body { IfOk result (λ found. fixed64_body at bytes.now ≡ Ok (content_of found.0, found.1.now)) }
    ensures room { IfOk result (λ found. length found.1.now + inner_length (content_of found.0) ≤ length bytes.now) }
    ensures fault { IfErr result (λ fault. fixed64_body at bytes.now ≡ Err fault) }
{
    let Some((word, rest)) = bytes.split_first_chunk::<8>() else {
        return Err(WireFault::Short { at });
    };
    Ok((Body::Fixed64(u64::from_le_bytes(*word)), rest))
}

#[tactic(auto, unfolding(crate::specs::Fields::bytes_body))]
fn read_bytes_body(bytes: &[u8], at: u64) -> Result<(Body<'_>, &[u8]), WireFault>
    ensures body { IfOk result (λ found. bytes_body at bytes.now ≡ Ok (content_of found.0, found.1.now)) }
    ensures room { IfOk result (λ found. length found.1.now + inner_length (content_of found.0) ≤ length bytes.now) }
    ensures fault { IfErr result (λ fault. bytes_body at bytes.now ≡ Err fault) }
{
    let (count, rest) = read_varint(bytes, at)?;
    let (part, rest) = read_part(rest, at, count)?;
    Ok((Body::Bytes(part), rest))
}

#[tactic(auto, unfolding(crate::specs::Fields::fixed32_body, crate::specs::Fields::part_at))]
fn read_fixed32_body(bytes: &[u8], at: u64) -> Result<(Body<'_>, &[u8]), WireFault>
    ensures body { IfOk result (λ found. fixed32_body at bytes.now ≡ Ok (content_of found.0, found.1.now)) }
    ensures room { IfOk result (λ found. length found.1.now + inner_length (content_of found.0) ≤ length bytes.now) }
    ensures fault { IfErr result (λ fault. fixed32_body at bytes.now ≡ Err fault) }
{
    let Some((word, rest)) = bytes.split_first_chunk::<4>() else {
        return Err(WireFault::Short { at });
    };
    Ok((Body::Fixed32(u32::from_le_bytes(*word)), rest))
}

#[tactic(auto, unfolding(crate::specs::Fields::body_of))]
/// The body of a wire type that has one.
fn read_body(bytes: &[u8], at: u64, kind: u64) -> Result<(Body<'_>, &[u8]), WireFault>
    ensures body { IfOk result (λ found. body_of at kind bytes.now ≡ Ok (content_of found.0, found.1.now)) }
    ensures room { IfOk result (λ found. length found.1.now + inner_length (content_of found.0) ≤ length bytes.now) }
    ensures fault { IfErr result (λ fault. body_of at kind bytes.now ≡ Err fault) }
{
    match kind {
        0 => read_varint_body(bytes, at),
        1 => read_fixed64_body(bytes, at),
        2 => read_bytes_body(bytes, at),
        _ => read_fixed32_body(bytes, at),
    }
}

/// How far behind the first byte of a field its body stands, where its tag and the whole of it have so many bytes.
fn body_offset(tag: usize, whole: usize, body: &Body<'_>) -> usize
    requires holds { inner_length (content_of body.now) ≤ whole }
    requires tagged { tag ≤ whole }
    ensures offset { result ≡ body_offset tag whole (content_of body.now) }
    ensures inside { result + inner_length (content_of body.now) ≤ whole }
{
    match body {
        Body::Bytes(inner) => whole - inner.len(),
        _ => tag,
    }
}

#[tactic(auto, unfolding(crate::specs::Fields::field_of))]
/// Reads the field that begins the bytes, its tag and its body (section "Message Structure"), and gives the bytes after
/// it. `at` is the place of the first byte.
///
/// The fault is the first of these, each at the place of the field: the tag is no varint, the wire type is bad, the
/// number is bad, the body is no varint or is cut off.
pub fn read_field(bytes: &[u8], at: u64) -> Result<(Field<'_>, &[u8]), WireFault>
    requires { at + length bytes.now < 2 ^ 64 }
    ensures field { IfOk result (λ found. field_of at bytes.now ≡ Ok (seen found.0, found.1.now)) }
    ensures shorter { IfOk result (λ found. length found.1.now < length bytes.now) }
    ensures inside { IfOk result (λ found. found.0.body_at + inner_length (content_of found.0.body) + length found.1.now ≤ at + length bytes.now) }
    ensures fault { IfErr result (λ fault. field_of at bytes.now ≡ Err fault) }
{
    let (tag, behind_tag) = read_varint(bytes, at)?;
    let number = field_number(tag, at)?;
    let (body, rest) = read_body(behind_tag, at, tag % 8)?;
    let offset = body_offset(
        bytes.len() - behind_tag.len(),
        bytes.len() - rest.len(),
        &body,
    );
    let body_at = at + offset as u64;
    Ok((
        Field {
            number,
            at,
            body_at,
            body,
        },
        rest,
    ))
}

/// A reader of the fields of a message. It borrows its bytes, and so do the bodies that it gives.
#[derive(Drop)]
pub struct Fields<'a> {
    rest: &'a [u8],
    at: u64,
    broken: bool,
}

impl<'a> Model for Fields<'a> {
    ghost use Rattle.std.specs.Prelude.{◌+◌, ◌<◌, ◌^◌, length};
    ghost use Rattle.wire_read.specs.Numbers.{Unread};

    ghost Value = { Unread };

    ghost view = { λ f. record { rest = f.rest.now; at = f.at; broken = f.broken } };

    ghost invariant = { λ f. f.at + length f.rest.now < 2 ^ 64 };
}

impl<'a> Fields<'a> {
    /// A reader of these bytes, the first of which stands at the place `base`.
    pub fn new(bytes: &'a [u8], base: u64) -> Fields<'a>
        requires { base + length bytes.now < 2 ^ 64 }
        ensures { result ≡ record { rest = bytes.now; at = base; broken = false } }
    {
        Fields {
            rest: bytes,
            at: base,
            broken: false,
        }
    }

    /// The bytes that aren't read yet.
    pub fn rest(&self) -> &'a [u8]
        ensures { result.now ≡ self.now.rest }
    {
        self.rest
    }
}

impl<'a> Iterator for Fields<'a> {
    type Item = Result<Field<'a>, WireFault>;

    ghost next_gives = { NextField };

    ghost remaining = { fields_left };

    /// The next field, or the fault of the place where none comes. Nothing at the end and after a fault.
    fn next(&mut self) -> Option<Result<Field<'a>, WireFault>> {
        if self.broken || self.rest.is_empty() {
            return None;
        }
        match read_field(self.rest, self.at) {
            Ok((field, rest)) => {
                self.at += (self.rest.len() - rest.len()) as u64;
                self.rest = rest;
                Some(Ok(field))
            }
            Err(fault) => {
                self.broken = true;
                Some(Err(fault))
            }
        }
    }
}

/// Each list of bytes is the spelling of one list of fields, or begins with one such list and has one fault
/// behind it; which of them it is, is computed, and so it is of packed numbers.
pub fn message_law()
    ensures messages { (bytes : List ℕ) (base : ℕ) → AreBytes bytes → IsMessageOneWay bytes base }
    ensures packed { (bytes : List ℕ) (base : ℕ) → PackedIsComputed bytes base }
{}
