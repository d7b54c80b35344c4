//! The rows of directed edges.

ghost use Rattle.std.specs.Prelude.{◌≡◌, ◌<◌, ◌≤◌, ◌*◌, true, false, length, slice_index_or};
ghost use Rattle.edge_builder.specs.BaseRows.{DirectedRow, directed_rows, IsShort};
ghost use Rattle.edge_builder.specs.BaseTiles.{edge_row, base_edge, IsPlanned};

use crate::groups::Groups;
use road_pieces::{DirKey, Junction, PieceView, Pieces};
use work_tile::WorkEdge;

/// What the tiles of roads are made from: the roads, the tile of each junction, and the place of the junction
/// where each directed edge starts.
#[derive(Debug, Drop)]
pub(crate) struct Plan<'a> {
    pub junctions: &'a [Junction],
    pub pieces: &'a Pieces,
    pub tiles: &'a Groups,
    pub starts: &'a Groups,
}

/// The edge at a place among all directed edges, with that local index.
pub(crate) fn edge_at(plan: &Plan<'_>, place: usize, local: u8) -> WorkEdge
    requires planned { IsPlanned plan.now.junctions.now plan.now.pieces.now plan.now.tiles.now plan.now.starts.now }
    requires inside { place < 2 * length plan.now.pieces.now }
    ensures { (d : DirectedRow) → result ≡ base_edge plan.now.junctions.now (local, slice_index_or (directed_rows plan.now.pieces.now) place d) }
{
    let index = place / 2;
    let piece = plan.pieces.at(index);
    if place % 2 == 0 {
        // Its reverse stands behind it, and starts where it ends.
        let end = plan.starts.at(place + 1);
        forward_edge(&piece, index as u32, plan.tiles.at(end as usize), local)
    } else {
        let end = plan.starts.at(place - 1);
        backward_edge(&piece, index as u32, plan.tiles.at(end as usize), local)
    }
}

/// A piece as it runs, with its index among the pieces.
fn forward_edge(piece: &PieceView<'_>, place: u32, end_tile: u32, local: u8) -> WorkEdge
    requires { IsShort piece.now }
    ensures { result ≡ edge_row end_tile local (record { piece = piece.now; place = place; forward = true }) }
{
    WorkEdge {
        key: DirKey {
            key: piece.key(),
            forward: true,
        },
        place,
        end: piece.end(),
        end_tile,
        cm: piece.cm() as u32,
        local,
        forward_access: piece.forward(),
        reverse_access: piece.backward(),
        class: piece.class(),
        mask: 0,
        flagged: false,
        consistency: 0,
        not_thru: false,
    }
}

/// A piece against its run, with its index among the pieces.
fn backward_edge(piece: &PieceView<'_>, place: u32, end_tile: u32, local: u8) -> WorkEdge
    requires { IsShort piece.now }
    ensures { result ≡ edge_row end_tile local (record { piece = piece.now; place = place; forward = false }) }
{
    WorkEdge {
        key: DirKey {
            key: piece.key(),
            forward: false,
        },
        place,
        end: piece.start(),
        end_tile,
        cm: piece.cm() as u32,
        local,
        forward_access: piece.backward(),
        reverse_access: piece.forward(),
        class: piece.class(),
        mask: 0,
        flagged: false,
        consistency: 0,
        not_thru: false,
    }
}
