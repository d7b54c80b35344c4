//! The other nodes of a junction.
ghost use Rattle.std.specs.Prelude.{◌≡◌, ◌<◌, ◌≤◌, ◌++◌, ◌∷◌, [], IfSome, IfNone, OnOk};
ghost use Rattle.work_tile.specs.Places.{place_numbers};
ghost use Rattle.tile_numbers.specs.LookUps.{node_in, node_on_level, node_on_other, other_nodes};
ghost use Rattle.tile_numbers.specs.Limits.{IsRecordedNode, CanBeNumbered, TilesCanBeNumbered};

use crate::ends::{Hint, node_place, tile_place};
use graph_id::GraphId;
use std::alloc::AllocError;
use tile_geometry::tile_of;
use work_tile::{NodeView, Places, TileRows, WorkTile};

/// The GraphId of a junction's node in the tile of these rows, if it has one there.
fn node_in(rows: &TileRows, level: u32, tile: u32, osm: &i64, hint: &mut usize) -> Option<GraphId>
    requires rows { CanBeNumbered rows.now }
    requires level { level ≤ 2 }
    requires tile { tile < 4_194_304 }
    ensures some { IfSome result (λ id. node_in rows.now level tile osm.now ≡ id ∷ []) }
    ensures none { IfNone result (node_in rows.now level tile osm.now ≡ []) }
{
    let place = node_place(rows, osm, hint);
    if place == rows.nodes_len() {
        return None;
    }
    Some(GraphId::make(level, tile, place as u32).unwrap())
}

/// The GraphId of a junction's node on a level, if it has one there.
fn node_on_level(
    tiles: &[WorkTile],
    places: &Places,
    level: u32,
    node: &NodeView<'_>,
    hint: &mut Hint,
) -> Option<GraphId>
    requires tiles { TilesCanBeNumbered tiles.now }
    requires places { places.now ≡ place_numbers tiles.now }
    requires level { level ≤ 2 }
    requires node { IsRecordedNode node.now }
    ensures some { IfSome result (λ id. node_on_level tiles.now level node.now ≡ id ∷ []) }
    ensures none { IfNone result (node_on_level tiles.now level node.now ≡ []) }
{
    let tile = tile_of(level, node.at());
    let Some(place) = tile_place(tiles, places, level, tile, hint.tile) else {
        return None;
    };
    hint.tile = place;
    node_in(
        tiles[place].rows(),
        level,
        tile,
        &node.osm(),
        &mut hint.node,
    )
}

/// Puts the GraphId of a junction's node on another level behind the others, if it has one there.
fn push_other(
    ids: &mut Vec<GraphId>,
    tiles: &[WorkTile],
    places: &Places,
    level: u32,
    node: &NodeView<'_>,
    other: u32,
    hint: &mut Hint,
) -> Result<(), AllocError>
    requires tiles { TilesCanBeNumbered tiles.now }
    requires places { places.now ≡ place_numbers tiles.now }
    requires other { other ≤ 2 }
    requires node { IsRecordedNode node.now }
    ensures { OnOk result (ids.new.items ≡ ids.old.items ++ node_on_other tiles.now level node.now other) }
{
    if other == level {
        return Ok(());
    }
    if let Some(id) = node_on_level(tiles, places, other, node, hint) {
        ids.push(id)?;
    }
    Ok(())
}

/// Where to look first on each level.
#[derive(Clone, Copy, Debug)]
pub(crate) struct Hints {
    pub first: Hint,
    pub second: Hint,
    pub third: Hint,
}

/// Puts the GraphIds of the other nodes of a junction behind the others.
pub(crate) fn push_transitions(
    ids: &mut Vec<GraphId>,
    tiles: &[WorkTile],
    places: &Places,
    level: u32,
    node: &NodeView<'_>,
    hints: &mut Hints,
) -> Result<(), AllocError>
    requires tiles { TilesCanBeNumbered tiles.now }
    requires places { places.now ≡ place_numbers tiles.now }
    requires node { IsRecordedNode node.now }
    ensures { OnOk result (ids.new.items ≡ ids.old.items ++ other_nodes tiles.now level node.now) }
{
    push_other(ids, tiles, places, level, node, 0, &mut hints.first)?;
    push_other(ids, tiles, places, level, node, 1, &mut hints.second)?;
    push_other(ids, tiles, places, level, node, 2, &mut hints.third)
}
