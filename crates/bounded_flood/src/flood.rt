//! The flood from one junction, and the marks that all floods of a worker share.

ghost use Rattle.std.specs.Prelude.{◌≡◌, ◌↔◌, ◌<◌, ◌+◌, true, nat_eq, length, IfOk, []};
ghost use Rattle.bounded_flood.specs.Flood.{CutOff, cut_off};
ghost use Rattle.bounded_flood.specs.FlatGraph.{ListsFit, MarksShow, near_without, side_limit};

use crate::links::{Link, links_at};
use crate::marks::{clear_marks, no_marks, see_ends, see_new};
use arrayvec::ArrayVec;
use std::alloc::{AllocError, Global};
use std::marker::Model;

/// Floods from `v` with the piece `left` left out, and leaves the junctions that were seen marked and listed.
fn flood(
    starts: &[u32],
    links: &[Link],
    left: u32,
    u: u32,
    v: u32,
    marks: &mut [bool],
    seen: &mut ArrayVec<u32, 63>,
) -> bool
    requires lists { ListsFit starts.now links.now }
    requires marks { length marks.old + 1 ≡ length starts.now }
    requires u { u < length marks.old }
    requires v { v < length marks.old }
    requires none { seen.old.items ≡ [] }
    requires clear { MarksShow marks.old [] }
    ensures marked { MarksShow marks.new seen.new.items }
    ensures result { result ≡ cut_off nat_eq (near_without starts.now links.now left) side_limit u v }
{
    see_new(v, marks, seen);
    for n in 0..63 {
        if marks[u as usize] {
            return false;
        }
        if n >= seen.len() {
            return true;
        }
        let at = seen.as_slice()[n];
        if !see_ends(links_at(starts, links, at), left, marks, seen) {
            return false;
        }
    }
    !marks[u as usize]
}

/// A mark for each junction of a graph, for one flood after the other. Each flood takes back the marks that it set, so
/// that its time doesn't depend on the size of the graph. Contracts see the number of junctions.
#[derive(Drop)]
pub struct FloodMarks {
    marks: Vec<bool>,
}

impl Model for FloodMarks {
    ghost use Rattle.std.specs.Prelude.{ℕ, length, []};
    ghost use Rattle.bounded_flood.specs.FlatGraph.{MarksShow};

    ghost Value = { ℕ };

    ghost view = { λ m. length m.marks.items };

    ghost invariant = { λ m. MarksShow m.marks.items [] };
}

impl FloodMarks {
    /// Marks for so many junctions.
    pub fn new(alloc: Global, junctions: usize) -> Result<FloodMarks, AllocError>
        ensures { IfOk result (λ m. m ≡ junctions) }
    {
        Ok(FloodMarks {
            marks: no_marks(alloc, junctions)?,
        })
    }

    /// The number of junctions.
    pub fn junctions(&self) -> usize
        ensures { result ≡ self.now }
    {
        self.marks.len()
    }

    /// Whether few junctions lie behind a piece from `u` to `v`: without the piece `left`, at most 63 junctions are linked
    /// to `v`, itself among them, and `u` isn't one of them.
    pub fn is_cut_off(&mut self, starts: &[u32], links: &[Link], left: u32, u: u32, v: u32) -> bool
        requires lists { ListsFit starts.now links.now }
        requires marks { self.old + 1 ≡ length starts.now }
        requires u { u < self.old }
        requires v { v < self.old }
        ensures stays { self.new ≡ self.old }
        ensures value { result ≡ cut_off nat_eq (near_without starts.now links.now left) side_limit u v }
        ensures decides { (result ≡ true) ↔ CutOff (near_without starts.now links.now left) side_limit u v }
    {
        let mut seen: ArrayVec<u32, 63> = ArrayVec::new();
        let marks = self.marks.as_mut_slice();
        let found = flood(starts, links, left, u, v, marks, &mut seen);
        clear_marks(seen.as_slice(), marks);
        found
    }
}
