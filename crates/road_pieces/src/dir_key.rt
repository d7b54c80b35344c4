//! How directed pieces are named.

use osm_model::PieceKey;

/// The name of a directed piece: the name of its piece, and whether it runs the way that the piece runs.
#[derive(Clone, Copy, Debug, PartialEq, Eq)]
pub struct DirKey {
    pub key: PieceKey,
    pub forward: bool,
}
