//! Where each number of a list stands in it.

ghost use Rattle.std.specs.Prelude.{◌≡◌, ◌<◌, ◌≤◌, length, All, IfOk, OnOk, replicate, slice_index_or};
ghost use Rattle.edge_builder.specs.Groups.{places_of, no_place, AreGroups};

use std::alloc::{AllocError, Global};
use std::marker::Model;

/// Stands for no place.
const NO_PLACE: u32 = u32::MAX;

/// A list of numbers, in which the places of each number are found without a search. Contracts see it as that
/// list. `first` has for each number the first place where it stands, `next` for each place the next one
/// where the same number stands.
#[derive(Debug, Drop)]
pub(crate) struct Groups {
    numbers: Vec<u32>,
    first: Vec<u32>,
    next: Vec<u32>,
}

impl Model for Groups {
    ghost use Rattle.std.specs.Prelude.{List, ℕ};

    ghost Value = { List ℕ };

    ghost use Rattle.edge_builder.specs.Groups.{AreGroups};

    ghost view = { λ a. a.numbers.items };

    ghost invariant = { λ a. AreGroups a.numbers.items a.first.items a.next.items };
}

impl Groups {
    /// Finds the places of numbers that are all below `bound`, in one pass.
    pub fn new(alloc: Global, numbers: Vec<u32>, bound: usize) -> Result<Groups, AllocError>
        requires below { All (λ n. n < bound) numbers.items }
        requires few { length numbers.items ≤ 10_000_000 }
        ensures { IfOk result (λ groups. groups ≡ numbers.items) }
    {
        let mut first = vec![in alloc; NO_PLACE; bound]?;
        let mut next = vec![in alloc; NO_PLACE; numbers.len()]?;
        link(&numbers, &mut first, &mut next);
        Ok(Groups {
            numbers,
            first,
            next,
        })
    }

    /// How many numbers there are.
    pub fn len(&self) -> usize
        ensures { result ≡ length self.now }
    {
        self.numbers.len()
    }

    /// The number at place `i`.
    pub fn at(&self, i: usize) -> u32
        requires { i < length self.now }
        ensures { result ≡ slice_index_or self.now i result }
    {
        self.numbers[i]
    }

    /// Fills a list with the places at which that number stands, in order.
    pub fn find(&self, number: u32, places: &mut Vec<u32>) -> Result<(), AllocError>
        ensures { OnOk result (places.new.items ≡ places_of number self.now) }
    {
        places.clear();
        let mut at = first_place(&self.first, number);
        while at != NO_PLACE {
            places.push(at)?;
            at = self.next[at as usize];
        }
        Ok(())
    }

    /// How often that number stands in the list.
    pub fn count(&self, number: u32) -> usize
        ensures { result ≡ length (places_of number self.now) }
    {
        let mut count = 0;
        let mut at = first_place(&self.first, number);
        while at != NO_PLACE {
            count += 1;
            at = self.next[at as usize];
        }
        count
    }
}

/// The first place of a number.
fn first_place(first: &[u32], number: u32) -> u32
    ensures { result ≡ slice_index_or first.now number no_place }
{
    match first.get(number as usize) {
        Some(place) => *place,
        None => NO_PLACE,
    }
}

/// Links the places of each number, from the last place to the first.
fn link(numbers: &[u32], first: &mut [u32], next: &mut [u32])
    requires below { All (λ n. n < length first.old) numbers.now }
    requires few { length numbers.now ≤ 10_000_000 }
    requires lengths { length next.old ≡ length numbers.now }
    requires none { first.old ≡ replicate (length first.old) no_place }
    ensures { AreGroups numbers.now first.new next.new }
{
    for passed in 0..numbers.len() {
        let place = numbers.len() - 1 - passed;
        let number = numbers[place] as usize;
        next[place] = first[number];
        first[number] = place as u32;
    }
}
