//! Tiles.
use crate::chains::Chains;
use crate::ids::Ids;
use crate::items::{EdgeRecs, NodeRecs};
use crate::sequences::Sequences;
use edge_info::{Infos, Texts};
use graph_id::GraphId;

/// A tile of the graph: its nodes with their edges and transitions, the chains of its shortcuts, its sequences, and the
/// entries of its pieces with the texts that they name.
#[derive(Debug, Drop)]
pub struct Tile {
    pub id: GraphId,
    pub modes: u16,
    pub nodes: NodeRecs,
    pub edges: EdgeRecs,
    pub transitions: Ids,
    pub chains: Chains,
    pub sequences: Sequences,
    pub infos: Infos,
    pub texts: Texts,
}
