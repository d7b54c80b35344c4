//! How junctions are named while tiles are enhanced.
ghost use Rattle.std.specs.Prelude.{◌≡◌};
ghost use Rattle.enhancer.specs.Graph.{same_node, end_of};

use work_tile::{NodeView, WorkEdge};

/// A junction, named by the number of its tile and its OSM id.
#[derive(Clone, Copy, Debug, Default)]
pub(crate) struct NodeName {
    pub tile: u32,
    pub osm: i64,
}

/// Whether two names are of one junction.
pub(crate) fn is_same(a: &NodeName, b: &NodeName) -> bool
    ensures { result ≡ same_node a.now b.now }
{
    a.tile == b.tile && a.osm == b.osm
}

/// The junction where an edge ends.
pub(crate) fn end_name(edge: &WorkEdge) -> NodeName
    ensures { result ≡ end_of edge.now }
{
    NodeName {
        tile: edge.end_tile,
        osm: edge.end,
    }
}

/// The name of a node of a tile.
pub(crate) fn name_in(tile: u32, node: &NodeView<'_>) -> NodeName
    ensures { result ≡ record { tile = tile; osm = node.now.osm } }
{
    NodeName {
        tile,
        osm: node.osm(),
    }
}
