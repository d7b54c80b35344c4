//! The files of finished tiles.

ghost use Rattle.std.specs.Prelude.{◌≡◌, ◌<◌, ◌≤◌, ◌++◌, ◌∷◌, [], true, None, Some, length, map, slice_index_or, IfOk, IfErr, OnOk};
ghost use Rattle.std.specs.String.{string_bytes};
ghost use Rattle.graph_id.specs.GraphId.{value_of};
ghost use Rattle.graph_id.specs.TilePath.{tile_path_of};
ghost use Rattle.tile_bytes.specs.Header.{are_modes};
ghost use Rattle.work_tile.specs.Places.{place_numbers};
ghost use Rattle.tile_numbers.specs.LookUps.{no_rows};
ghost use Rattle.tile_geometry.specs.Grid.{tile_count};
ghost use Rattle.tile_finish.specs.FinishedTiles.{finished_tile, AreFinishable};
ghost use Rattle.build_flow.specs.Faults.{flow_of_write};
ghost use Rattle.build_flow.specs.FolderFiles.{tile_file, first_given, too_long_section, finished_tiles, IsFault};

use crate::faults::{FlowFault, LimitFault};
use graph_id::{GraphId, parts_and_value, tile_path};
use host_port::{Bytes, HostFiles, Text};
use road_pieces::Pieces;
use std::alloc::{AllocError, Global};
use tile_bytes::WriteFault;
use tile_finish::finish_tile;
use work_tile::{Places, TileRows, WorkTile};

/// The path of the file of a tile, in its folder.
fn path_of(alloc: Global, rows: &TileRows) -> Result<Text, AllocError>
    requires level { rows.now.level ≤ 2 }
    requires tile { rows.now.tile < tile_count rows.now.level }
    ensures { IfOk result (λ path. path ≡ tile_path_of (value_of rows.now.level rows.now.tile 0)) }
{
    match GraphId::make(rows.level(), rows.tile(), 0) {
        Ok(id) => Ok(Text::from(tile_path(alloc, id)?)),
        Err(_) => Err(AllocError),
    }
}

/// Why a tile isn't written, as a fault of the build.
fn fault_of(rows: &TileRows, fault: WriteFault) -> FlowFault
    ensures { result ≡ flow_of_write rows.now fault }
{
    match fault {
        WriteFault::Section { count } => FlowFault::Limit(LimitFault::Section {
            level: u64::from(rows.level()),
            tile: u64::from(rows.tile()),
            count,
        }),
        WriteFault::OutOfMemory => FlowFault::OutOfMemory,
    }
}

/// Puts the file of the tile with index `i` behind the others.
fn add_file(
    alloc: Global,
    pieces: &Pieces,
    tiles: &[WorkTile],
    places: &Places,
    i: usize,
    modes: u16,
    files: &mut HostFiles,
) -> Result<(), FlowFault>
    requires inside { i < length tiles.now }
    requires finishable { AreFinishable tiles.now pieces.now }
    requires places { places.now ≡ place_numbers tiles.now }
    requires modes { are_modes modes ≡ true }
    ensures file { OnOk result (files.new ≡ files.old ++ tile_file (finished_tile modes pieces.now tiles.now (slice_index_or tiles.now i no_rows)) ∷ []) }
    ensures short { OnOk result (too_long_section (finished_tile modes pieces.now tiles.now (slice_index_or tiles.now i no_rows)) ≡ None) }
    ensures fault { IfErr result (λ fault. IsFault (too_long_section (finished_tile modes pieces.now tiles.now (slice_index_or tiles.now i no_rows))) fault) }
{
    parts_and_value();
    match finish_tile(alloc, pieces, tiles, places, i, modes) {
        Ok(bytes) => {
            let path = path_of(alloc, tiles[i].rows())?;
            files.push((path, Bytes::from(bytes)))?;
            Ok(())
        }
        Err(fault) => Err(fault_of(tiles[i].rows(), fault)),
    }
}

/// The files of tiles that rise by level and number, in order.
pub(crate) fn files_of(
    alloc: Global,
    pieces: &Pieces,
    tiles: &[WorkTile],
    modes: u16,
) -> Result<HostFiles, FlowFault>
    requires finishable { AreFinishable tiles.now pieces.now }
    requires modes { are_modes modes ≡ true }
    ensures files { IfOk result (λ files. files ≡ map tile_file (finished_tiles modes pieces.now tiles.now)) }
    ensures short { OnOk result (first_given too_long_section (finished_tiles modes pieces.now tiles.now) ≡ None) }
    ensures fault { IfErr result (λ fault. IsFault (first_given too_long_section (finished_tiles modes pieces.now tiles.now)) fault) }
{
    let places = Places::of_tiles(alloc, tiles)?;
    let mut files = HostFiles::new(alloc);
    for i in 0..tiles.len() {
        match add_file(alloc, pieces, tiles, &places, i, modes, &mut files) {
            Ok(()) => {}
            Err(fault) => return Err(fault),
        }
    }
    Ok(files)
}
