//! The laws.
ghost use Rattle.tile_number_laws.specs.NumberedChecks.{NumberedNodesPass, NumberedEdgesPass, TransitionsPass, NumberedCountsAgree};

/// The records of a tile's nodes pass the check on nodes.
pub fn numbered_nodes_pass()
    ensures { NumberedNodesPass }
{}

/// The records of a tile's edges pass the check on edges.
pub fn numbered_edges_pass()
    ensures { NumberedEdgesPass }
{}

/// The transitions of a tile's nodes pass the check on transitions.
pub fn transitions_pass()
    ensures { TransitionsPass }
{}

/// The nodes' counts add up to the number of edges, and to that of transitions.
pub fn numbered_counts_agree()
    ensures { NumberedCountsAgree }
{}
