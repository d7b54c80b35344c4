//! One step of a search over sets of members.

ghost use Rattle.std.specs.Prelude.{◌≡◌, ◌<◌, ℕ, length, IfOk, option_map};
ghost use Rattle.std.specs.List.{list_any};
ghost use Rattle.std.specs.Option.{ForSome};
ghost use Rattle.pattern_search.specs.Members.{state_at};
ghost use Rattle.pattern_search.specs.Spelling.{state_of_some};
ghost use Rattle.pattern_search.specs.ViaSets.{comes_to, members_come};

use std::alloc::{AllocError, Global};

/// Whether a word may be at the member `j` after a letter, where it was at these members before. `can` says of each member
/// whether a word may be completed there, `of` whether the letter is of its way; `goes` whether it goes on in the part of
/// the letter before.
fn may_be_at(set: &[bool], can: &[bool], goes: bool, of: &[bool], j: usize) -> bool
    requires set { j < length set.now }
    requires can { j < length can.now }
    requires of { j < length of.now }
    ensures { result ≡ comes_to set.now can.now goes of.now j }
{
    if j == 0 {
        return false;
    }
    can[j] && ((goes && set[j]) || (of[j] && set[j - 1]))
}

/// Whether a set has a member.
fn has_any(set: &[bool]) -> bool
    ensures { result ≡ list_any (λ b. b) set.now }
{
    set.iter().any(|here| *here)
}

/// The members at which a word may be after a letter, as a set; `None` where there is none.
pub fn next_members(
    alloc: Global,
    set: &[bool],
    can: &[bool],
    goes: bool,
    of: &[bool],
) -> Result<Option<Vec<bool>>, AllocError>
    requires can { length can.now ≡ length set.now }
    requires of { length of.now ≡ length set.now }
    ensures next { IfOk result (λ next. (letter : ℕ) → state_of_some letter (option_map (λ s. s.items) next) ≡ state_at letter (members_come set.now can.now goes of.now)) }
    ensures size { IfOk result (λ next. ForSome next (λ s. length s.items ≡ length set.now)) }
{
    let mut next = Vec::with_capacity(alloc, set.len())?;
    for j in 0..set.len() {
        next.push(may_be_at(set, can, goes, of, j))?;
    }
    if has_any(&next) {
        Ok(Some(next))
    } else {
        Ok(None)
    }
}
