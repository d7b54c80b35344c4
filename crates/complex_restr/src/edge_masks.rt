//! The masks of edges.

ghost use Rattle.std.specs.Prelude.{◌≡◌, ◌<◌, ◌++◌, ◌∷◌, [], ℕ, List, length, replicate, All, IfOk, slice_index};
ghost use Rattle.complex_restr.specs.Codes.{CodesBelow, AreMasks, is_told};

use crate::patterns::{PatternView, TurnPatterns};
use std::alloc::{AllocError, Global};
use way_tags::VEHICLES;

/// The least local index that has no bit in a mask.
const BITS: u8 = 8;

/// Whether a mask tells the pattern: it has two codes, its modes are exactly the vehicles, and the local index of the
/// second code has a bit.
pub(crate) fn is_in_mask(pattern: &PatternView<'_>, locals: &[u8]) -> bool
    requires { All (λ c. c < length locals.now) pattern.now.0 }
    ensures { result ≡ is_told locals.now pattern.now }
{
    match pattern.codes() {
        [_, second] => pattern.modes() == VEHICLES && locals[*second as usize] < BITS,
        _ => false,
    }
}

/// As many masks as said, without a bit.
fn no_bits(alloc: Global, count: usize) -> Result<Vec<u8>, AllocError>
    ensures { IfOk result (λ v. v.items ≡ replicate count 0) }
{
    vec![in alloc; 0; count]
}

/// Puts the bit of a pattern that a mask tells into the mask of its first code.
fn put_bit(pattern: &PatternView<'_>, locals: &[u8], masks: &mut [u8])
    requires below { All (λ c. c < length locals.now) pattern.now.0 }
    requires all { length masks.old ≡ length locals.now }
    ensures { (before : List (List ℕ × ℕ)) → AreMasks locals.now before masks.old → AreMasks locals.now (before ++ pattern.now ∷ []) masks.new }
{
    if is_in_mask(pattern, locals) {
        let codes = pattern.codes();
        let local = locals[codes[1] as usize];
        masks[codes[0] as usize] |= 1 << local;
    }
}

/// Puts the bits of patterns into masks that have none.
fn put_bits(patterns: &TurnPatterns, locals: &[u8], masks: &mut [u8])
    requires below { CodesBelow (length locals.now) patterns.now }
    requires none { masks.old ≡ replicate (length locals.now) 0 }
    ensures { AreMasks locals.now patterns.now masks.new }
{
    for i in 0..patterns.len() {
        put_bit(&patterns.at(i), locals, masks);
    }
}

/// The mask of each directed piece, by its code: the bit of a local index is set exactly where a pattern that a mask
/// tells goes from this piece to the one of that local index. `locals` has the local index of each code.
pub fn masks(alloc: Global, patterns: &TurnPatterns, locals: &[u8]) -> Result<Vec<u8>, AllocError>
    requires { CodesBelow (length locals.now) patterns.now }
    ensures { IfOk result (λ masks. AreMasks locals.now patterns.now masks.items) }
{
    let mut masks = no_bits(alloc, locals.len())?;
    put_bits(patterns, locals, &mut masks);
    Ok(masks)
}
