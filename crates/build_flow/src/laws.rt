//! Laws of what is built.

ghost use Rattle.build_flow.specs.BuildLaws.{BuiltWalks, BuildsByObjects};

use folder_spec::{folder_walks_agree, roads_from_lists};
use level_tiles::lifted_make_tiles;

/// For each extract whose objects are all built, each mode, each two nodes and each length, there is a road walk exactly
/// where there is a walk over the graph of the tiles.
pub fn built_walks()
    ensures { BuiltWalks }
{
    folder_walks_agree();
    roads_from_lists();
}

/// Two extracts with the same objects have the same folder, and pass the same limit.
pub fn builds_by_objects()
    ensures { BuildsByObjects }
{
    lifted_make_tiles();
}
