//! The items of walks.
use graph_id::GraphId;
use tile_records::EdgeRec;

/// An item of a walk over tiles.
#[derive(Clone, Copy, Debug, PartialEq, Eq)]
pub enum WalkItem {
    /// The edge with this GraphId, from end to end.
    Edge(GraphId),
    /// The transition at a place, from 0 on, of the node with this GraphId.
    Transition { from: GraphId, place: u8 },
}

/// Where a walk stands: the node, and the last edge that it took; before the first item there is no node.
#[derive(Clone, Copy, Debug)]
pub(crate) struct Stand {
    pub at: Option<GraphId>,
    pub last: Option<EdgeRec>,
}
