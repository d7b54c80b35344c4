//! Packed numbers: varints one after the other, to the end of a slice.
ghost use Rattle.std.specs.Prelude.{◌≡◌, ◌+◌, ◌<◌, ◌^◌, ℕ, List, false, length};
ghost use Rattle.wire_read.specs.Varint.{AreBytes};
ghost use Rattle.wire_read.specs.Numbers.{NextNumber, numbers_left, IsReadOneWay};

use crate::fault::WireFault;
use crate::varint::read_varint;
use std::marker::Model;

/// A reader of packed numbers (section "Packed Repeated Fields"). It borrows its bytes.
#[derive(Drop)]
pub struct Varints<'a> {
    rest: &'a [u8],
    at: u64,
    broken: bool,
}

impl<'a> Model for Varints<'a> {
    ghost use Rattle.std.specs.Prelude.{◌+◌, ◌<◌, ◌^◌, length};
    ghost use Rattle.wire_read.specs.Numbers.{Unread};

    ghost Value = { Unread };

    ghost view = { λ v. record { rest = v.rest.now; at = v.at; broken = v.broken } };

    ghost invariant = { λ v. v.at + length v.rest.now < 2 ^ 64 };
}

impl<'a> Varints<'a> {
    /// A reader of these bytes, the first of which stands at the place `base`.
    pub fn new(bytes: &'a [u8], base: u64) -> Varints<'a>
        requires { base + length bytes.now < 2 ^ 64 }
        ensures { result ≡ record { rest = bytes.now; at = base; broken = false } }
    {
        Varints {
            rest: bytes,
            at: base,
            broken: false,
        }
    }

    /// The bytes that aren't read yet.
    pub fn rest(&self) -> &'a [u8]
        ensures { result.now ≡ self.now.rest }
    {
        self.rest
    }
}

impl<'a> Iterator for Varints<'a> {
    type Item = Result<u64, WireFault>;

    ghost next_gives = { NextNumber };

    ghost remaining = { numbers_left };

    /// The next number, or the fault of the place where none comes. Nothing at the end and after a fault.
    fn next(&mut self) -> Option<Result<u64, WireFault>> {
        if self.broken || self.rest.is_empty() {
            return None;
        }
        match read_varint(self.rest, self.at) {
            Ok((value, rest)) => {
                self.at += (self.rest.len() - rest.len()) as u64;
                self.rest = rest;
                Some(Ok(value))
            }
            Err(fault) => {
                self.broken = true;
                Some(Err(fault))
            }
        }
    }
}

/// Each list of bytes is the spelling of one list of packed numbers, or begins with one such list and has one
/// fault behind it.
pub fn packed_numbers_law()
    ensures { (bytes : List ℕ) (base : ℕ) → AreBytes bytes → IsReadOneWay bytes base }
{}
