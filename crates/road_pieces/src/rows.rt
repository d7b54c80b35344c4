//! The roads of an extract: junctions, and the pieces between them.

use crate::pieces::Pieces;
use fixed_geo::{Point, Shape};
use osm_model::{Names, PieceKey, Seq};

/// A node where roads meet, end or may be closed. `at` is in units of 1e-7 degree. `access` has a bit for
/// each mode that may pass, as Valhalla numbers them: auto 1, pedestrian 2, bicycle 4, truck 8, bus 64.
#[derive(Clone, Copy, Debug, PartialEq, Eq)]
pub struct Junction {
    pub osm: i64,
    pub at: Point,
    pub access: u16,
    pub barrier: bool,
}

/// A road between two junctions, which may be one. `shape` is its course from `start` to `end`, `cm`
/// its length in centimetres. `forward` and `backward` have the bits of the modes that may use it in
/// that direction. `class` is from 0, motorway, to 7.
#[derive(Debug, Drop)]
pub struct Piece {
    pub key: PieceKey,
    pub start: i64,
    pub end: i64,
    pub shape: Shape,
    pub cm: u64,
    pub class: u8,
    pub forward: u16,
    pub backward: u16,
    pub names: Names,
}

/// All roads of an extract: the junctions in order of OSM id, the pieces in order of key. `ways` counts
/// the routable ways, `runs` their runs, `missing` the places in their refs whose node isn't in the
/// extract.
#[derive(Debug, Drop)]
pub struct Roads {
    pub junctions: Junctions,
    pub pieces: Pieces,
    pub ways: u64,
    pub runs: u64,
    pub missing: u64,
}

/// A list of junctions.
pub type Junctions = Seq<Junction>;
