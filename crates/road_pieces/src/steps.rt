//! Single segments of roads.

/// One segment of a run of a way, in one direction: from place `segment` of the run to the next place,
/// or backward from the next place to it. Runs and segments are numbered from 0.
#[derive(Clone, Copy, Debug, PartialEq, Eq)]
pub struct Step {
    pub way: i64,
    pub run: u32,
    pub segment: u32,
    pub forward: bool,
}
