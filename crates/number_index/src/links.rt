//! The places of each number as a chain.

ghost use Rattle.std.specs.Prelude.{◌≡◌, ◌<◌, ◌≤◌, ◌++◌, length, All, OnOk, replicate, slice_index_or};
ghost use Rattle.number_index.specs.Links.{no_place, AreLinks};
ghost use Rattle.number_index.specs.Standing.{stands_at};

use std::alloc::AllocError;

/// Stands for no place.
pub(crate) const NO_PLACE: u32 = u32::MAX;

/// Links the places of each number, from the last place to the first.
pub(crate) fn link(numbers: &[u32], first: &mut [u32], next: &mut [u32])
    requires below { All (λ n. n < length first.old) numbers.now }
    requires few { length numbers.now ≤ 10_000_000 }
    requires lengths { length next.old ≡ length numbers.now }
    requires none { first.old ≡ replicate (length first.old) no_place }
    ensures links { AreLinks numbers.now first.new next.new }
    ensures firsts { length first.new ≡ length first.old }
{
    for passed in 0..numbers.len() {
        let place = numbers.len() - 1 - passed;
        let number = numbers[place] as usize;
        next[place] = first[number];
        first[number] = place as u32;
    }
}

/// Adds the places that come in turn from the first one of a number on.
pub(crate) fn follow(
    numbers: &[u32],
    first: &[u32],
    next: &[u32],
    number: usize,
    places: &mut Vec<u32>,
) -> Result<(), AllocError>
    requires links { AreLinks numbers.now first.now next.now }
    requires inside { number < length first.now }
    ensures { OnOk result (places.new.items ≡ places.old.items ++ stands_at number numbers.now) }
{
    let mut at = first[number];
    while at != NO_PLACE {
        places.push(at)?;
        at = next[at as usize];
    }
    Ok(())
}
