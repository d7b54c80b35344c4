//! Junctions where too many edges start.

ghost use Rattle.std.specs.Prelude.{◌≡◌, ◌≤◌, length, List};
ghost use Rattle.road_pieces.specs.declared.rows.Piece.{Piece};
ghost use Rattle.edge_builder.specs.declared.faults.BaseFault.TheVariants.{TooManyEdges};
ghost use Rattle.edge_builder.specs.BaseRows.{start_places, crowded, JunctionsRise};

use crate::faults::BaseFault;
use crate::groups::Groups;
use road_pieces::Junction;

/// The most base edges that a junction may have.
const MOST_EDGES: usize = 127;

/// Why roads are refused whose directed edges start at these places: the first junction where more than 127 start.
pub(crate) fn first_crowded(junctions: &[Junction], edges: &Groups) -> Option<BaseFault>
    requires rise { JunctionsRise junctions.now }
    requires few { length junctions.now ≤ 10_000_000 }
    ensures { (pieces : List Piece) → edges.now ≡ start_places junctions.now pieces → result ≡ crowded junctions.now pieces }
{
    for i in 0..junctions.len() {
        let count = edges.count(i as u32);
        if count > MOST_EDGES {
            return Some(crowd(&junctions[i], count));
        }
    }
    None
}

/// The refusal of a junction with so many base edges.
fn crowd(junction: &Junction, count: usize) -> BaseFault
    ensures { result ≡ TooManyEdges junction.now.osm count }
{
    BaseFault::TooManyEdges {
        node: junction.osm,
        count: count as u64,
    }
}
