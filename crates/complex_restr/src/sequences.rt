//! The patterns that no mask tells.

ghost use Rattle.std.specs.Prelude.{◌≡◌, ◌<◌, ◌*◌, ◌++◌, ◌∷◌, [], ◌||◌, ℕ, List, Bool, false, nat_eq, length, replicate, All, IfOk, OnOk, slice_index_or};
ghost use Rattle.std.specs.List.{list_any, list_all};
ghost use Rattle.complex_restr.specs.Codes.{CodesBelow, AreFlags, coded_piece, stored_codes};

use crate::edge_masks::is_in_mask;
use crate::patterns::{PatternView, TurnPatterns};
use std::alloc::{AllocError, Global};

/// As many flags as said, none of them set.
fn no_flags(alloc: Global, count: usize) -> Result<Vec<bool>, AllocError>
    ensures { IfOk result (λ v. v.items ≡ replicate count false) }
{
    vec![in alloc; false; count]
}

/// Flags the pieces of these codes.
fn flag_pieces(codes: &[u32], flags: &mut [bool])
    requires { All (λ c. c < 2 * length flags.old) codes.now }
    ensures { (k : ℕ) → k < length flags.old → slice_index_or flags.new k false ≡ (slice_index_or flags.old k false || list_any (λ c. nat_eq (coded_piece c) k) codes.now) }
{
    for code in codes {
        flags[(*code / 2) as usize] = true;
    }
}

/// Flags the pieces of a pattern that no mask tells.
fn flag_pattern(pattern: &PatternView<'_>, locals: &[u8], flags: &mut [bool])
    requires below { All (λ c. c < length locals.now) pattern.now.0 }
    requires all { length locals.now ≡ 2 * length flags.old }
    ensures { (before : List (List ℕ × ℕ)) → AreFlags locals.now before (length flags.old) flags.old → AreFlags locals.now (before ++ pattern.now ∷ []) (length flags.old) flags.new }
{
    if !is_in_mask(pattern, locals) {
        flag_pieces(pattern.codes(), flags);
    }
}

/// Flags the pieces of the patterns that no mask tells, where none is flagged yet.
fn flag_all(patterns: &TurnPatterns, locals: &[u8], flags: &mut [bool])
    requires below { CodesBelow (length locals.now) patterns.now }
    requires all { length locals.now ≡ 2 * length flags.old }
    requires none { flags.old ≡ replicate (length flags.old) false }
    ensures { AreFlags locals.now patterns.now (length flags.old) flags.new }
{
    for i in 0..patterns.len() {
        flag_pattern(&patterns.at(i), locals, flags);
    }
}

/// The flag of each of so many pieces: whether it stands, in one direction or the other, in a pattern that no mask
/// tells, also where that isn't stored. `locals` has the local index of each code.
pub fn flags(
    alloc: Global,
    patterns: &TurnPatterns,
    locals: &[u8],
    pieces: usize,
) -> Result<Vec<bool>, AllocError>
    requires below { CodesBelow (length locals.now) patterns.now }
    requires all { length locals.now ≡ 2 * pieces }
    ensures { IfOk result (λ flags. AreFlags locals.now patterns.now pieces flags.items) }
{
    let mut flags = no_flags(alloc, pieces)?;
    flag_all(patterns, locals, &mut flags);
    Ok(flags)
}

/// Whether the pieces of all these codes are kept.
fn all_kept(codes: &[u32], kept: &[bool]) -> bool
    requires { All (λ c. c < 2 * length kept.now) codes.now }
    ensures { result ≡ list_all (λ c. slice_index_or kept.now (coded_piece c) false) codes.now }
{
    codes.iter().all(|code| kept[(*code / 2) as usize])
}

/// Puts a pattern after the others where no mask tells it and all its pieces are kept.
fn put_stored(
    pattern: &PatternView<'_>,
    locals: &[u8],
    kept: &[bool],
    stored: &mut TurnPatterns,
) -> Result<(), AllocError>
    requires below { All (λ c. c < length locals.now) pattern.now.0 }
    requires all { length locals.now ≡ 2 * length kept.now }
    ensures { OnOk result (stored.new ≡ stored.old ++ stored_codes locals.now kept.now (pattern.now ∷ [])) }
{
    if is_in_mask(pattern, locals) || !all_kept(pattern.codes(), kept) {
        return Ok(());
    }
    stored.push(pattern.codes(), pattern.modes())
}

/// The patterns that no mask tells and of which all pieces are kept, in order. `kept` says of each piece whether it is.
pub fn stored(
    alloc: Global,
    patterns: &TurnPatterns,
    locals: &[u8],
    kept: &[bool],
) -> Result<TurnPatterns, AllocError>
    requires below { CodesBelow (length locals.now) patterns.now }
    requires all { length locals.now ≡ 2 * length kept.now }
    ensures { IfOk result (λ stored. stored ≡ stored_codes locals.now kept.now patterns.now) }
{
    let mut stored = TurnPatterns::new(alloc);
    for i in 0..patterns.len() {
        put_stored(&patterns.at(i), locals, kept, &mut stored)?;
    }
    Ok(stored)
}
