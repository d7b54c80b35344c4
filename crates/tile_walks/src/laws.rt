//! Laws of tiles as a graph, which hold by the definitions alone.

ghost use Rattle.tile_walks.specs.GraphLaws.{RecordsAreOfGraph};
ghost use Rattle.tile_walks.specs.WalkLaws.{WalksFollow};

/// Items are a walk exactly where they follow each other and no sequence forbids them.
pub(crate) fn walks_follow()
    ensures { WalksFollow }
{}

/// The records that tiles have under their GraphIds are the nodes and edges of their graph.
pub fn records_are_of_graph()
    ensures { RecordsAreOfGraph }
{}
