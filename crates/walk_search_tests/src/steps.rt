//! The segments of roads in both directions, way by way and node by node.

use crate::bits::bit_of_id;
use crate::draws::{Drawn, DrawnNode, DrawnWay};
use crate::tag_table::{is_barrier, is_road, node_modes, road_modes};
use fixed_geo::segment_cm;
use std::alloc::{AllocError, Global};

/// A segment of a road in one direction, with the modes that may use it. A run is a stretch of a way whose nodes are all
/// there; its segments are numbered.
#[derive(Clone, Copy, Debug)]
pub(crate) struct Step {
    pub way: usize,
    pub run: usize,
    pub segment: usize,
    pub forward: bool,
    pub from: i64,
    pub to: i64,
    pub cm: usize,
    pub modes: u16,
    /// Whether an asked mode may use the way in some direction.
    pub kept: bool,
}

impl Step {
    /// Whether a mode may use this segment in its direction.
    pub(crate) fn is_open(&self, mode: u16) -> bool {
        self.kept && self.modes & mode != 0
    }

    /// Whether `next` goes on in the same run and direction.
    pub(crate) fn goes_on(&self, next: &Step) -> bool {
        let (first, second) = if self.forward {
            (self.segment, next.segment)
        } else {
            (next.segment, self.segment)
        };
        self.way == next.way
            && self.run == next.run
            && self.forward == next.forward
            && first.saturating_add(1) == second
    }
}

/// Where a way has come to: its number, its run and segment there, and the node before, if it is there.
#[derive(Debug, Drop)]
struct Course {
    way: usize,
    run: usize,
    segment: usize,
    last: Option<DrawnNode>,
}

/// The length of a segment.
fn length(from: &DrawnNode, to: &DrawnNode) -> usize {
    if from.at.is_place() && to.at.is_place() {
        segment_cm(from.at, to.at) as usize
    } else {
        0
    }
}

/// The segment between two nodes, in one direction.
fn step_between(
    course: &Course,
    from: &DrawnNode,
    to: &DrawnNode,
    row: usize,
    forward: bool,
    asked: u16,
) -> Step {
    Step {
        way: course.way,
        run: course.run,
        segment: course.segment,
        forward,
        from: from.id,
        to: to.id,
        cm: length(from, to),
        modes: road_modes(row, forward),
        kept: (road_modes(row, true) | road_modes(row, false)) & asked != 0,
    }
}

/// Goes on to a node that is there: both directions of the segment, unless it is the node before again.
fn go_on(
    course: &mut Course,
    node: DrawnNode,
    row: usize,
    asked: u16,
    steps: &mut Vec<Step>,
) -> Result<(), AllocError> {
    if let Some(last) = course.last {
        if last.id != node.id {
            steps.push(step_between(course, &last, &node, row, true, asked))?;
            steps.push(step_between(course, &node, &last, row, false, asked))?;
            course.segment = course.segment.saturating_add(1);
        }
    }
    course.last = Some(node);
    Ok(())
}

/// Ends the run at a node that isn't there.
fn break_off(course: &mut Course) {
    course.run = course.run.saturating_add(1);
    course.segment = 0;
    course.last = None;
}

/// The segments of a road.
fn add_way(
    drawn: &Drawn,
    number: usize,
    way: &DrawnWay,
    asked: u16,
    steps: &mut Vec<Step>,
) -> Result<(), AllocError> {
    let mut course = Course {
        way: number,
        run: 0,
        segment: 0,
        last: None,
    };
    for id in &way.refs {
        match drawn.node(*id) {
            Some(node) => go_on(&mut course, node, way.row, asked, steps)?,
            None => break_off(&mut course),
        }
    }
    Ok(())
}

/// The segments of all roads, where these modes are asked.
pub(crate) fn all_steps(alloc: Global, drawn: &Drawn, asked: u16) -> Result<Vec<Step>, AllocError> {
    let mut steps = Vec::new(alloc);
    let mut number = 0usize;
    for way in &drawn.ways {
        if is_road(way.row) {
            add_way(drawn, number, way, asked, &mut steps)?;
        }
        number = number.saturating_add(1);
    }
    Ok(steps)
}

/// At how many places of all runs a node stands.
fn places(steps: &[Step], id: i64) -> usize {
    let ends = steps
        .iter()
        .filter(|step| step.forward && step.to == id)
        .count();
    let begins = steps
        .iter()
        .filter(|step| step.forward && step.segment == 0 && step.from == id)
        .count();
    ends.saturating_add(begins)
}

/// Whether a segment is the last in its run and direction.
fn is_last(steps: &[Step], last: &Step) -> bool {
    !steps.iter().any(|next| last.goes_on(next))
}

/// Whether a node is an end of a run: a segment that is the last forward, or backward, leads to it.
fn is_run_end(steps: &[Step], id: i64) -> bool {
    steps
        .iter()
        .any(|step| step.to == id && is_last(steps, step))
}

/// Whether a node is a junction: an end of a run, at two places of runs, or a barrier in a run.
fn is_junction(steps: &[Step], node: &DrawnNode) -> bool {
    let count = places(steps, node.id);
    is_run_end(steps, node.id) || count >= 2 || (count == 1 && is_barrier(node.row))
}

/// The junctions, as a set of ids.
pub(crate) fn junctions(drawn: &Drawn, steps: &[Step]) -> u64 {
    let mut set = 0u64;
    for node in &drawn.nodes {
        if is_junction(steps, node) {
            set |= bit_of_id(node.id);
        }
    }
    set
}

/// The nodes where a kept road begins a segment, as a set of ids.
pub(crate) fn kept_nodes(steps: &[Step]) -> u64 {
    let mut set = 0u64;
    for step in steps {
        if step.kept {
            set |= bit_of_id(step.from);
        }
    }
    set
}

/// The nodes that a mode may pass, as a set of ids.
pub(crate) fn open_nodes(drawn: &Drawn, mode: u16) -> u64 {
    let mut set = 0u64;
    for node in &drawn.nodes {
        if node_modes(node.row) & mode != 0 {
            set |= bit_of_id(node.id);
        }
    }
    set
}
