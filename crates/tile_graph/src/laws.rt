//! Laws of graphs, which hold by the definitions alone.

ghost use Rattle.tile_graph.specs.Alike.{AlikeWalks};

/// Graphs that differ in the order of their sequences alone have the same walks.
pub fn alike_graphs_agree()
    ensures { AlikeWalks }
{}
