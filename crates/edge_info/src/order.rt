//! The order in which entries name texts.
ghost use Rattle.std.specs.Prelude.{◌≡◌, ◌<◌, ◌≤◌, ◌-◌, ◌^◌, nat_lt, ◌&&◌, if◌then◌else◌, replicate, length, IfOk};
ghost use Rattle.std.specs.List.{list_all};
ghost use Rattle.edge_info.specs.TextReading.{out_of_order};
ghost use Rattle.edge_info.specs.TextLoops.{with_place, ArePlaces, IsFirstLate};

use std::alloc::{AllocError, Global};

/// Puts down that a name stands at a place, where there is such a text.
#[tactic(auto, unfolding(crate::specs::TextLoops::with_place))]
fn put_place(places: &mut Vec<usize>, name: u32, at: usize)
    ensures { places.new.items ≡ with_place places.old.items name at }
{
    if (name as usize) < places.len() {
        places[name as usize] = at;
    }
}

/// A list of so many times the same number.
fn filled(alloc: Global, number: usize, times: usize) -> Result<Vec<usize>, AllocError>
    ensures { IfOk result (λ v. v.items ≡ replicate times number) }
{
    vec![in alloc; number; times]
}

/// Where each of so many texts is first named, and the number of names where it isn't.
pub(crate) fn first_places(
    alloc: Global,
    names: &[u32],
    there: usize,
) -> Result<Vec<usize>, AllocError>
    ensures { IfOk result (λ v. ArePlaces names.now 0 there v.items) }
{
    let mut places = filled(alloc, names.len(), there)?;
    let mut left = names.len();
    while left > 0 {
        left -= 1;
        put_place(&mut places, names[left], left);
    }
    Ok(places)
}

/// Whether a text that is first named here, of so many names, is named behind one that is first named there.
fn is_late(here: usize, there: usize, names: usize) -> bool
    ensures { result ≡ (nat_lt here names && nat_lt there here) }
{
    here < names && there < here
}

/// One of two numbers.
fn picked(first: bool, a: usize, b: usize) -> usize
    ensures { result ≡ (if first then a else b) }
{
    if first { a } else { b }
}

/// The lesser of two numbers.
fn lesser(a: usize, b: usize) -> usize
    ensures { result ≡ (if nat_lt a b then a else b) }
{
    if a < b { a } else { b }
}

/// The first text that is named and behind which one is first named before it, of texts that are first named at these
/// places, and the greatest number where there is none.
pub(crate) fn first_late(places: &[usize], names: &[u32]) -> usize
    requires { ArePlaces names.now 0 (length places.now) places.now }
    ensures { IsFirstLate (out_of_order names.now (length places.now)) result }
{
    let mut found = usize::MAX;
    let mut least = names.len();
    let mut left = places.len();
    while left > 0 {
        left -= 1;
        let place = places[left];
        found = picked(is_late(place, least, names.len()), left, found);
        least = lesser(least, place);
    }
    found
}

/// Whether each of these texts is named.
pub(crate) fn are_named(places: &[usize], names: &[u32]) -> bool
    ensures { result ≡ list_all (λ place. nat_lt place (length names.now)) places.now }
{
    let count = names.len();
    places.iter().all(|place| *place < count)
}
