//! A tile, finished.
ghost use Rattle.std.specs.Prelude.{◌≡◌, ◌<◌, true, length, slice_index_or, IfOk, IfErr};
ghost use Rattle.work_tile.specs.Places.{place_numbers};
ghost use Rattle.tile_numbers.specs.LookUps.{no_rows};
ghost use Rattle.tile_bytes.specs.Header.{are_modes};
ghost use Rattle.tile_bytes.specs.Tiles.{PassesChecks, TileSpelled};
ghost use Rattle.tile_bytes.specs.Writing.{IsWriteFault};
ghost use Rattle.tile_finish.specs.FinishedTiles.{finished_tile, AreFinishable};

use crate::assembly::tile_of_parts;
use crate::parts::parts_of_tile;
use road_pieces::Pieces;
use std::alloc::Global;
use tile_bytes::{Tile, WriteFault, write_tile};
use tile_infos::{pieces_at_places, tile_infos_pass};
use tile_number_laws::{
    numbered_counts_agree, numbered_edges_pass, numbered_nodes_pass, transitions_pass,
};
use work_tile::{Places, WorkTile};

/// The tile with index `i` among tiles that rise by level and number, before it is written.
fn whole_tile(
    alloc: Global,
    pieces: &Pieces,
    tiles: &[WorkTile],
    places: &Places,
    i: usize,
    modes: u16,
) -> Result<Tile, WriteFault>
    requires inside { i < length tiles.now }
    requires finishable { AreFinishable tiles.now pieces.now }
    requires places { places.now ≡ place_numbers tiles.now }
    requires modes { are_modes modes ≡ true }
    ensures tile { IfOk result (λ tile. tile ≡ finished_tile modes pieces.now tiles.now (slice_index_or tiles.now i no_rows)) }
    ensures passes { IfOk result (λ tile. PassesChecks tile) }
    ensures fault { IfErr result (λ fault. IsWriteFault (finished_tile modes pieces.now tiles.now (slice_index_or tiles.now i no_rows)) fault) }
{
    pieces_at_places();
    tile_infos_pass();
    numbered_nodes_pass();
    numbered_edges_pass();
    transitions_pass();
    numbered_counts_agree();
    match parts_of_tile(alloc, pieces, tiles[i].rows()) {
        Ok(parts) => Ok(tile_of_parts(alloc, tiles, places, i, modes, parts)?),
        Err(fault) => Err(fault),
    }
}

/// The bytes of the file of the tile with index `i` among tiles that rise by level and number, for these modes.
/// `places` are the places of these tiles, and `pieces` the pieces of the roads.
///
/// # Errors
///
/// `Section` exactly where the entries or the texts of the tile have more than 4,294,967,295 bytes, with the first such
/// number. `OutOfMemory` may be answered in place of anything.
pub fn finish_tile(
    alloc: Global,
    pieces: &Pieces,
    tiles: &[WorkTile],
    places: &Places,
    i: usize,
    modes: u16,
) -> Result<Vec<u8>, WriteFault>
    requires inside { i < length tiles.now }
    requires finishable { AreFinishable tiles.now pieces.now }
    requires places { places.now ≡ place_numbers tiles.now }
    requires modes { are_modes modes ≡ true }
    ensures spelled { IfOk result (λ bytes. TileSpelled bytes.items (finished_tile modes pieces.now tiles.now (slice_index_or tiles.now i no_rows))) }
    ensures fault { IfErr result (λ fault. IsWriteFault (finished_tile modes pieces.now tiles.now (slice_index_or tiles.now i no_rows)) fault) }
{
    match whole_tile(alloc, pieces, tiles, places, i, modes) {
        Ok(tile) => write_tile(alloc, &tile),
        Err(fault) => Err(fault),
    }
}
