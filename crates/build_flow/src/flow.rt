//! From an extract to the files of its folder.

ghost use Rattle.std.specs.Prelude.{◌≡◌, ◌⊎◌, true, None, Some, map, IfOk, IfErr, OnOk};
ghost use Rattle.tile_bytes.specs.Header.{are_modes};
ghost use Rattle.road_pieces.specs.declared.faults.CutFault.{CutFault};
ghost use Rattle.road_pieces.specs.Rows.{piece_rows, refusal};
ghost use Rattle.road_pieces.specs.RoadsOf.{RoadsOf};
ghost use Rattle.edge_builder.specs.declared.faults.BaseFault.{BaseFault};
ghost use Rattle.edge_builder.specs.BaseRows.{AreRoads, crowded};
ghost use Rattle.hierarchy.specs.Spots.{OwnNodes};
ghost use Rattle.build_flow.specs.Unbuilt.{unbuilt};
ghost use Rattle.build_flow.specs.FolderFiles.{tile_file, folder_files, kept_of_roads, lifted_of_roads, tiles_of_roads, limit_of_roads, limit_passed, CanBeBuilt, IsFault};

use crate::faults::FlowFault;
use crate::files::files_of;
use access_filter::keep;
use edge_builder::{BaseFault, base_tiles, extract_roads};
use hierarchy::lift;
use host_port::HostFiles;
use kept_checks::{lifted_are_finishable, pieces_spell};
use kept_rows::kept_own_nodes;
use level_tiles::lifted_make_tiles;
use osm_model::Extract;
use road_pieces::{CutFault, Roads, cut};
use std::alloc::Global;
use tile_numbers::first_full;
use work_tile::WorkTile;

/// The files of the folder of an extract for the asked modes: its tiles, as far as they are built, in order of level and
/// number. All of them are made before the call returns. The extract is let go once its roads stand.
///
/// # Errors
///
/// `Limit` exactly where the roads pass a limit, with the first that they pass. `OutOfMemory` may be answered in place of
/// anything.
pub fn folder_of(alloc: Global, extract: Extract, modes: u16) -> Result<HostFiles, FlowFault>
    requires built { unbuilt extract ≡ None }
    requires modes { are_modes modes ≡ true }
    ensures files { IfOk result (λ files. files ≡ folder_files extract modes) }
    ensures accepted { OnOk result (limit_passed extract modes ≡ None) }
    ensures refused { IfErr result (λ fault. IsFault (limit_passed extract modes) fault) }
{
    extract_roads();
    kept_own_nodes();
    lifted_are_finishable();
    lifted_make_tiles();
    match roads_of(alloc, extract) {
        Ok(roads) => {
            pieces_spell(&roads.pieces);
            files_of_roads(alloc, &roads, modes)
        }
        Err(fault) => Err(FlowFault::from(fault)),
    }
}

/// The roads of an extract, which is let go.
fn roads_of(alloc: Global, extract: Extract) -> Result<Roads, CutFault>
    ensures roads { IfOk result (λ roads. RoadsOf extract roads) }
    ensures accepted { OnOk result (refusal (piece_rows extract) ≡ None) }
    ensures refused { IfErr result (λ fault. (fault ≡ CutFault.OutOfMemory) ⊎ (refusal (piece_rows extract) ≡ Some fault)) }
{
    cut(alloc, &extract)
}

/// The files of the tiles of roads.
fn files_of_roads(alloc: Global, roads: &Roads, modes: u16) -> Result<HostFiles, FlowFault>
    requires roads { CanBeBuilt modes roads.now.junctions roads.now.pieces }
    requires modes { are_modes modes ≡ true }
    ensures files { IfOk result (λ files. files ≡ map tile_file (tiles_of_roads modes roads.now.junctions roads.now.pieces)) }
    ensures accepted { OnOk result (limit_of_roads modes roads.now.junctions roads.now.pieces ≡ None) }
    ensures refused { IfErr result (λ fault. IsFault (limit_of_roads modes roads.now.junctions roads.now.pieces) fault) }
{
    match lifted_of(alloc, roads, modes) {
        Ok(tiles) => match first_full(&tiles) {
            Some(full) => Err(FlowFault::from(full)),
            None => files_of(alloc, &roads.pieces, &tiles, modes),
        },
        Err(fault) => Err(FlowFault::from(fault)),
    }
}

/// The base tiles of roads, and on its levels what is kept of them.
fn lifted_of(alloc: Global, roads: &Roads, modes: u16) -> Result<Vec<WorkTile>, BaseFault>
    requires roads { AreRoads roads.now.junctions roads.now.pieces }
    requires own { OwnNodes (kept_of_roads modes roads.now.junctions roads.now.pieces) }
    ensures tiles { IfOk result (λ tiles. tiles.items ≡ lifted_of_roads modes roads.now.junctions roads.now.pieces) }
    ensures accepted { OnOk result (crowded roads.now.junctions roads.now.pieces ≡ None) }
    ensures refused { IfErr result (λ fault. (fault ≡ BaseFault.OutOfMemory) ⊎ (crowded roads.now.junctions roads.now.pieces ≡ Some fault)) }
{
    match base_tiles(alloc, roads) {
        Ok(tiles) => {
            let kept = keep(alloc, tiles, modes)?;
            Ok(lift(alloc, kept)?)
        }
        Err(fault) => Err(fault),
    }
}
