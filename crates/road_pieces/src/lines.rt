//! The runs of ways, as lines of places of nodes.

ghost use Rattle.std.specs.Prelude.{◌≡◌, ◌<◌, ◌≤◌, ◌+◌, ◌++◌, ◌∷◌, [], length, nat_le, IfOk, OnOk, slice_get};
ghost use Rattle.road_pieces.specs.Lines.{Draft, ends_with, extend, closed};

use std::alloc::{AllocError, Global};
use std::marker::Model;

/// Where a line stands among the places of all lines, and whose it is.
#[derive(Clone, Copy, Debug)]
struct Head {
    way: u32,
    number: u32,
    from: usize,
    to: usize,
}

/// A line: a run of a way, as the places of its nodes in the list of nodes. `way` is the place of the way
/// in the list of ways, `number` the run's number in that way.
#[derive(Clone, Copy, Debug)]
pub(crate) struct Line<'a> {
    pub way: u32,
    pub number: u32,
    pub places: &'a [u32],
}

/// Lines, and the places of a run that isn't whole yet. All places stand in one list, which is faster to
/// make and smaller than a list for each line.
#[derive(Debug, Drop)]
pub(crate) struct Lines {
    places: Vec<u32>,
    heads: Vec<Head>,
    begun: usize,
}

impl Model for Lines {
    ghost use Rattle.road_pieces.specs.Lines.{Draft};

    ghost Value = { Draft };

    ghost use Rattle.road_pieces.specs.Heads.{AreKept, draft_of};

    ghost view = { λ a. draft_of a.places.items a.heads.items a.begun };

    ghost invariant = { λ a. AreKept a.places.items a.heads.items a.begun };
}

impl Lines {
    /// No line yet, with room for so many places in all.
    pub fn with_room(alloc: Global, places: usize) -> Result<Lines, AllocError>
        ensures done { IfOk result (λ lines. lines.done ≡ []) }
        ensures begun { IfOk result (λ lines. lines.begun ≡ []) }
    {
        Ok(Lines {
            places: Vec::with_capacity(alloc, places)?,
            heads: Vec::new(alloc),
            begun: 0,
        })
    }

    /// Appends a node to the open run, unless it repeats the last one.
    pub fn extend(&mut self, place: u32) -> Result<(), AllocError>
        ensures done { self.new.done ≡ self.old.done }
        ensures begun { OnOk result (self.new.begun ≡ extend self.old.begun place) }
    {
        if !ends_with(&self.places[self.begun..], place) {
            self.places.push(place)?;
        }
        Ok(())
    }

    /// Ends the begun run: it is a line if it has two nodes or more, and is dropped otherwise. Says whether
    /// it is one.
    pub fn close(&mut self, way: u32, number: u32) -> Result<bool, AllocError>
        ensures done { OnOk result (self.new.done ≡ self.old.done ++ closed way number self.old.begun) }
        ensures begun { OnOk result (self.new.begun ≡ []) }
        ensures line { IfOk result (λ is. is ≡ nat_le 2 (length self.old.begun)) }
    {
        let to = self.places.len();
        let is_line = to - self.begun >= 2;
        if is_line {
            self.heads.push(Head {
                way,
                number,
                from: self.begun,
                to,
            })?;
            self.begun = to;
        } else {
            self.places.truncate(self.begun);
        }
        Ok(is_line)
    }

    /// How many lines there are.
    pub fn len(&self) -> usize
        ensures { result ≡ length self.now.done }
    {
        self.heads.len()
    }

    /// The line with that number, from 0 on.
    pub fn line(&self, i: usize) -> Line<'_>
        requires { i < length self.now.done }
        ensures { slice_get self.now.done i ≡ Some (record { way = result.way; number = result.number; places = result.places.now }) }
    {
        let head = self.heads[i];
        Line {
            way: head.way,
            number: head.number,
            places: &self.places[head.from..head.to],
        }
    }
}

/// Whether the list ends with that place.
fn ends_with(places: &[u32], place: u32) -> bool
    ensures { result ≡ ends_with place places.now }
{
    match places.last() {
        Some(last) => *last == place,
        None => false,
    }
}
