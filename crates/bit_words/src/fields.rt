//! A number in some bits of a word.
ghost use Rattle.std.specs.Prelude.{◌≡◌, ◌+◌, ◌<◌, ◌≤◌, ◌^◌};
ghost use Rattle.bit_words.specs.Bits.{bits_of, with_bits};

/// A word whose low bits are set, as many as said.
fn low_bits(width: u32) -> u64
    requires some { 1 ≤ width }
    requires within { width ≤ 64 }
    ensures { result + 1 ≡ 2 ^ width }
{
    u64::MAX >> (u64::BITS - width)
}

/// The number in the bits from `at` on, as many as `width` says.
pub fn get(word: u64, at: u32, width: u32) -> u64
    requires some { 1 ≤ width }
    requires within { at + width ≤ 64 }
    ensures { result ≡ bits_of word at width }
{
    word >> at & low_bits(width)
}

/// The word with a number in the bits from `at` on, as many as `width` says; its other bits stay.
pub fn set(word: u64, at: u32, width: u32, value: u64) -> u64
    requires some { 1 ≤ width }
    requires within { at + width ≤ 64 }
    requires fits { value < 2 ^ width }
    ensures { result ≡ with_bits word at width value }
{
    word & !(low_bits(width) << at) | value << at
}
