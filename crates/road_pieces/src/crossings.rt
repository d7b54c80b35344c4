//! Which nodes are junctions.

ghost use Rattle.std.specs.Prelude.{◌≡◌, ◌<◌, ◌≤◌, ◌+◌, ◌==◌, ◌||◌, ◌&&◌, ℕ, min, nat_le, length, map, All, sum_by, IfOk, slice_index, if◌then◌else◌};
ghost use Rattle.osm_model.specs.declared.extract.Extract.{Extract};
ghost use Rattle.road_pieces.specs.Rules.{is_barrier};
ghost use Rattle.road_pieces.specs.Runs.{is_junction};
ghost use Rattle.road_pieces.specs.Lines.{all_lines, begins_with, ends_with, marks_at, AreCounted};

use crate::lines::Lines;
use crate::rules::is_barrier;
use osm_model::{Extract, NodeView};
use std::alloc::{AllocError, Global};

/// Whether each node is a junction, in the order of the nodes.
///
/// The places where a node stands are counted up to two, with one more for each end of a run: a node that
/// counts twice is a junction, and so is one with a barrier that counts once.
pub(crate) fn find_junctions(
    alloc: Global,
    extract: &Extract,
    lines: &Lines,
) -> Result<Vec<bool>, AllocError>
    requires { lines.now.done ≡ all_lines extract.now }
    ensures { IfOk result (λ flags. flags.items ≡ map (λ n. is_junction extract.now n.id) extract.now.nodes) }
{
    let marks = count_places(alloc, extract, lines)?;
    flag_nodes(alloc, extract, marks.as_slice())
}

/// How often each node counts. Up to two the counts are exact.
fn count_places(alloc: Global, extract: &Extract, lines: &Lines) -> Result<Vec<u8>, AllocError>
    requires { lines.now.done ≡ all_lines extract.now }
    ensures len { IfOk result (λ marks. length marks.items ≡ length extract.now.nodes) }
    ensures counts { IfOk result (λ marks. AreCounted extract.now marks.items) }
{
    let mut marks = vec![in alloc; 0u8; extract.nodes.len()]?;
    mark_all(&mut marks, lines);
    Ok(marks)
}

/// Whether each node is a junction, by how often it counts.
fn flag_nodes(alloc: Global, extract: &Extract, marks: &[u8]) -> Result<Vec<bool>, AllocError>
    requires len { length marks.now ≡ length extract.now.nodes }
    requires counts { AreCounted extract.now marks.now }
    ensures { IfOk result (λ flags. flags.items ≡ map (λ n. is_junction extract.now n.id) extract.now.nodes) }
{
    let mut flags = Vec::with_capacity(alloc, extract.nodes.len())?;
    for place in 0..extract.nodes.len() {
        flags.push(is_crossing(marks[place], &extract.nodes.at(place)))?;
    }
    Ok(flags)
}

/// Whether a node with this count (capped at 2) is a junction. Its tags are looked up only where they decide.
fn is_crossing(mark: u8, node: &NodeView<'_>) -> bool
    ensures { result ≡ (nat_le 2 mark || (is_barrier node.now.tags && nat_le 1 mark)) }
{
    mark >= 2 || (mark >= 1 && is_barrier(&node.tags()))
}

/// Counts the places of all lines. Up to two the counts are exact.
fn mark_all(marks: &mut [u8], lines: &Lines)
    requires { All (λ l. All (λ p. p < length marks.old) l.places) lines.now.done }
    ensures { (p : ℕ) → p < length marks.old → min 2 (slice_index marks.new p) ≡ min 2 (slice_index marks.old p + sum_by (λ l. marks_at p l.places) lines.now.done) }
{
    for i in 0..lines.len() {
        mark_line(marks, lines.line(i).places);
    }
}

/// Counts the places of one line, and its ends once more.
fn mark_line(marks: &mut [u8], places: &[u32])
    requires { All (λ p. p < length marks.old) places.now }
    ensures { (p : ℕ) → p < length marks.old → min 2 (slice_index marks.new p) ≡ min 2 (slice_index marks.old p + marks_at p places.now) }
{
    for place in places {
        mark(marks, *place);
    }
    mark_first(marks, places);
    mark_last(marks, places);
}

/// Counts the first place of a line.
fn mark_first(marks: &mut [u8], places: &[u32])
    requires { All (λ p. p < length marks.old) places.now }
    ensures { (p : ℕ) → p < length marks.old → min 2 (slice_index marks.new p) ≡ min 2 (slice_index marks.old p + (if begins_with p places.now then 1 else 0)) }
{
    if let Some(first) = places.first() {
        mark(marks, *first);
    }
}

/// Counts the last place of a line.
fn mark_last(marks: &mut [u8], places: &[u32])
    requires { All (λ p. p < length marks.old) places.now }
    ensures { (p : ℕ) → p < length marks.old → min 2 (slice_index marks.new p) ≡ min 2 (slice_index marks.old p + (if ends_with p places.now then 1 else 0)) }
{
    if let Some(last) = places.last() {
        mark(marks, *last);
    }
}

/// Counts one place.
fn mark(marks: &mut [u8], place: u32)
    requires { place < length marks.old }
    ensures { (p : ℕ) → p < length marks.old → min 2 (slice_index marks.new p) ≡ min 2 (slice_index marks.old p + (if place == p then 1 else 0)) }
{
    let place = place as usize;
    marks[place] = marks[place].saturating_add(1);
}
