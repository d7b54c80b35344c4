//! Numbers put behind bytes.
ghost use Rattle.std.specs.Prelude.{◌≡◌, [], ◌∷◌, ◌++◌, replicate, OnOk};
ghost use Rattle.section_grammar.specs.WordBytes.{word_bytes, words_bytes, half_bytes};

use std::alloc::AllocError;

/// Puts a word behind the bytes.
#[inline]
#[tactic(auto, unfolding(crate::specs::WordBytes::word_bytes))]
pub fn push_word(out: &mut Vec<u8>, word: u64) -> Result<(), AllocError>
    ensures { OnOk result (out.new.items ≡ out.old.items ++ word_bytes word) }
{
    out.extend_from_slice(&word.to_le_bytes())
}

/// Puts a half behind the bytes.
#[inline]
#[tactic(auto, unfolding(crate::specs::WordBytes::half_bytes))]
pub fn push_half(out: &mut Vec<u8>, half: u32) -> Result<(), AllocError>
    ensures { OnOk result (out.new.items ≡ out.old.items ++ half_bytes half) }
{
    out.extend_from_slice(&half.to_le_bytes())
}

/// Puts a count behind the bytes, as a half: of a count of 2^32 or more the lowest four bytes.
#[tactic(auto, using(crate::proofs::WordLaws::low_half_bytes))]
pub fn push_count(out: &mut Vec<u8>, count: usize) -> Result<(), AllocError>
    ensures { OnOk result (out.new.items ≡ out.old.items ++ half_bytes count) }
{
    push_half(out, (count % 0x1_0000_0000) as u32)
}

/// The bytes of four words.
#[inline]
fn record_bytes(a: u64, b: u64, c: u64, d: u64) -> [u8; 32]
    ensures { result ≡ words_bytes (a ∷ b ∷ c ∷ d ∷ []) }
{
    let [a0, a1, a2, a3, a4, a5, a6, a7] = a.to_le_bytes();
    let [b0, b1, b2, b3, b4, b5, b6, b7] = b.to_le_bytes();
    let [c0, c1, c2, c3, c4, c5, c6, c7] = c.to_le_bytes();
    let [d0, d1, d2, d3, d4, d5, d6, d7] = d.to_le_bytes();
    [
        a0, a1, a2, a3, a4, a5, a6, a7, b0, b1, b2, b3, b4, b5, b6, b7, c0, c1, c2, c3, c4, c5, c6,
        c7, d0, d1, d2, d3, d4, d5, d6, d7,
    ]
}

/// Puts four words behind the bytes, all at once.
#[inline]
pub fn push_record(out: &mut Vec<u8>, words: [u64; 4]) -> Result<(), AllocError>
    ensures { OnOk result (out.new.items ≡ out.old.items ++ words_bytes words) }
{
    let [first, second, third, fourth] = words;
    out.extend_from_slice(&record_bytes(first, second, third, fourth))
}

/// Puts so many zeros behind the bytes.
pub fn push_zeros(out: &mut Vec<u8>, count: usize) -> Result<(), AllocError>
    ensures { OnOk result (out.new.items ≡ out.old.items ++ replicate count 0) }
{
    for _ in 0..count {
        out.push(0)?;
    }
    Ok(())
}
