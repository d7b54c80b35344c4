//! The index of a list of numbers.

ghost use Rattle.std.specs.Prelude.{◌≡◌, [], ◌<◌, ◌≤◌, length, All, IfOk, OnOk, slice_index_or};
ghost use Rattle.number_index.specs.Links.{AreLinks};
ghost use Rattle.number_index.specs.Indexed.{heads_below, part_of, places_below, HeadsRise};
ghost use Rattle.number_index.specs.Standing.{stands_at};

use crate::links::{NO_PLACE, follow, link};
use std::alloc::{AllocError, Global};
use std::marker::Model;

/// A list of numbers, in which the places of each number are found without a search. Contracts see it as that list.
/// `places` has the places of all numbers, those of 0 first; `heads` has for each number the place in `places` where
/// its own begin, and at last the length.
#[derive(Debug, Drop)]
pub struct NumberIndex {
    numbers: Vec<u32>,
    heads: Vec<u32>,
    places: Vec<u32>,
}

impl Model for NumberIndex {
    ghost use Rattle.std.specs.Prelude.{List, ℕ};

    ghost Value = { List ℕ };

    ghost use Rattle.number_index.specs.Indexed.{AreIndexed};

    ghost view = { λ a. a.numbers.items };

    ghost invariant = { λ a. AreIndexed a.numbers.items a.heads.items a.places.items };
}

impl NumberIndex {
    /// The index of numbers that are all below `bound`, in time linear in both.
    pub fn new(alloc: Global, numbers: Vec<u32>, bound: usize) -> Result<NumberIndex, AllocError>
        requires below { All (λ n. n < bound) numbers.items }
        requires few { length numbers.items ≤ 10_000_000 }
        ensures { IfOk result (λ index. index ≡ numbers.items) }
    {
        let mut first = vec![in alloc; NO_PLACE; bound]?;
        let mut next = vec![in alloc; NO_PLACE; numbers.len()]?;
        link(&numbers, &mut first, &mut next);
        let mut heads = Vec::with_capacity(alloc, bound + 1)?;
        let mut places = Vec::with_capacity(alloc, numbers.len())?;
        gather(&numbers, &first, &next, &mut heads, &mut places)?;
        Ok(NumberIndex {
            numbers,
            heads,
            places,
        })
    }

    /// How many numbers there are.
    pub fn len(&self) -> usize
        ensures { result ≡ length self.now }
    {
        self.numbers.len()
    }

    /// The number at place `i`.
    pub fn at(&self, i: usize) -> u32
        requires { i < length self.now }
        ensures { result ≡ slice_index_or self.now i result }
    {
        self.numbers[i]
    }

    /// The places at which that number stands, in order.
    pub fn places(&self, number: u32) -> &[u32]
        ensures { result.now ≡ stands_at number self.now }
    {
        part(&self.heads, &self.places, number)
    }
}

/// Puts the places of all numbers into one list, and where those of each begin.
fn gather(
    numbers: &[u32],
    first: &[u32],
    next: &[u32],
    heads: &mut Vec<u32>,
    places: &mut Vec<u32>,
) -> Result<(), AllocError>
    requires links { AreLinks numbers.now first.now next.now }
    requires no_heads { heads.old.items ≡ [] }
    requires no_places { places.old.items ≡ [] }
    ensures heads { OnOk result (heads.new.items ≡ heads_below numbers.now (length first.now)) }
    ensures places { OnOk result (places.new.items ≡ places_below numbers.now (length first.now)) }
{
    heads.push(0)?;
    for number in 0..first.len() {
        follow(numbers, first, next, number, places)?;
        heads.push(places.len() as u32)?;
    }
    Ok(())
}

/// The part of the places that begins at the head of a number.
fn part<'a>(heads: &[u32], places: &'a [u32], number: u32) -> &'a [u32]
    requires { HeadsRise heads.now places.now }
    ensures { result.now ≡ part_of heads.now places.now number }
{
    let at = number as usize;
    if at + 1 < heads.len() {
        &places[heads[at] as usize..heads[at + 1] as usize]
    } else {
        &[]
    }
}
