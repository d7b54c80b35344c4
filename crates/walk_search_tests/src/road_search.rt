//! Walks over the segments of roads, found by going on from each in every way that is allowed.

use crate::bits::{BOUND, bit, bit_of_id, has, no_sets, put, set_of};
use crate::draws::Drawn;
use crate::steps::{Step, all_steps, junctions, kept_nodes, open_nodes};
use std::alloc::{AllocError, Global};

/// The segments of the roads of an extract for the asked modes, and its junctions, all and kept ones, as sets of ids.
#[derive(Debug, Drop)]
pub(crate) struct Roads {
    pub steps: Vec<Step>,
    pub junctions: u64,
    pub kept: u64,
}

/// The roads of an extract, where these modes are asked.
pub(crate) fn roads_of(alloc: Global, drawn: &Drawn, asked: u16) -> Result<Roads, AllocError> {
    let steps = all_steps(alloc, drawn, asked)?;
    let junctions = junctions(drawn, &steps);
    let kept = junctions & kept_nodes(&steps);
    Ok(Roads {
        steps,
        junctions,
        kept,
    })
}

/// Whether a walk may go on from a segment along another: from its end, through a node that is open to the mode, on in the
/// same run and direction or anywhere from a junction.
fn may_follow(roads: &Roads, open: u64, step: &Step, next: &Step, mode: u16) -> bool {
    let node = bit_of_id(step.to);
    next.is_open(mode)
        && step.to == next.from
        && open & node != 0
        && (step.goes_on(next) || roads.junctions & node != 0)
}

/// The segments that may come next behind that one in a walk of the mode, as a set of their numbers.
fn followers_of(roads: &Roads, open: u64, step: &Step, mode: u16) -> u64 {
    let mut set = 0u64;
    let mut number = 0usize;
    for next in &roads.steps {
        if may_follow(roads, open, step, next, mode) {
            set |= bit(number);
        }
        number = number.saturating_add(1);
    }
    set
}

/// The same for each segment.
fn followers(alloc: Global, roads: &Roads, open: u64, mode: u16) -> Result<Vec<u64>, AllocError> {
    let mut sets = Vec::new(alloc);
    for step in &roads.steps {
        sets.push(followers_of(roads, open, step, mode))?;
    }
    Ok(sets)
}

/// Goes on along these segments from ends to which walks of a length lead.
fn go_on(roads: &Roads, set: u64, length: usize, reached: &mut Vec<u64>) {
    let mut number = 0usize;
    for next in &roads.steps {
        if has(set, number) {
            put(reached, length.saturating_add(next.cm), bit(number));
        }
        number = number.saturating_add(1);
    }
}

/// The segments that may come next behind one of these.
fn next_of(follow: &[u64], set: u64) -> u64 {
    let mut found = 0u64;
    let mut number = 0usize;
    for next in follow {
        if has(set, number) {
            found |= *next;
        }
        number = number.saturating_add(1);
    }
    found
}

/// Goes on from all segments to whose ends walks of a length lead, until nothing is new, since a segment may have no length.
fn settle(roads: &Roads, follow: &[u64], length: usize, reached: &mut Vec<u64>) {
    for _ in 0..64 {
        let before = set_of(reached, length);
        go_on(roads, next_of(follow, before), length, reached);
        if set_of(reached, length) == before {
            break;
        }
    }
}

/// The segments with which a walk from a node may begin, each under its length.
fn begin(alloc: Global, roads: &Roads, start: i64, mode: u16) -> Result<Vec<u64>, AllocError> {
    let mut reached = no_sets(alloc)?;
    let mut number = 0usize;
    for step in &roads.steps {
        if step.from == start && step.is_open(mode) {
            put(&mut reached, step.cm, bit(number));
        }
        number = number.saturating_add(1);
    }
    Ok(reached)
}

/// The kept junctions where these segments end, as a set of ids.
fn ends_of(roads: &Roads, set: u64) -> u64 {
    let mut ends = 0u64;
    let mut number = 0usize;
    for step in &roads.steps {
        if has(set, number) {
            ends |= bit_of_id(step.to);
        }
        number = number.saturating_add(1);
    }
    ends & roads.kept
}

/// For each length up to the bound the kept junctions to which a walk of the mode leads from that one, as a set of ids.
pub(crate) fn road_ends(
    alloc: Global,
    drawn: &Drawn,
    roads: &Roads,
    start: i64,
    mode: u16,
) -> Result<Vec<u64>, AllocError> {
    let mut ends = no_sets(alloc)?;
    if roads.kept & bit_of_id(start) == 0 {
        return Ok(ends);
    }
    let follow = followers(alloc, roads, open_nodes(drawn, mode), mode)?;
    let mut reached = begin(alloc, roads, start, mode)?;
    put(&mut ends, 0, bit_of_id(start));
    for length in 0..=BOUND {
        if set_of(&reached, length) != 0 {
            settle(roads, &follow, length, &mut reached);
            put(&mut ends, length, ends_of(roads, set_of(&reached, length)));
        }
    }
    Ok(ends)
}
