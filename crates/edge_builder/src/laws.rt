//! Laws of roads, which hold by the definitions alone.

ghost use Rattle.edge_builder.specs.BaseStages.{BaseStage, PiecesToldForward};
ghost use Rattle.edge_builder.specs.RoadLaws.{ExtractRoads};

/// The roads of each extract that aren't refused are what `base_tiles` asks for: each junction is at a place on the
/// earth, they are in order of id, each piece starts and ends at one of them, and none is longer than a tile can tell.
pub fn extract_roads()
    ensures { ExtractRoads }
{}

/// The pieces of an extract are its directed pieces that run forward, row by row.
pub fn pieces_told_forward()
    ensures { PiecesToldForward }
{}

/// The base tiles of the roads of an extract are the first stage of a build, row by row: all its directed pieces, in
/// tiles of level 2.
pub fn base_stage()
    ensures { BaseStage }
{}
