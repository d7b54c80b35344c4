//! What a tile has beside its records.
ghost use Rattle.std.specs.Prelude.{◌≡◌, ◌<◌, ◌≤◌, ◌^◌, length, map, All, IfOk, IfErr};
ghost use Rattle.work_tile.specs.declared.edge_rows.WorkEdge.{WorkEdge};
ghost use Rattle.edge_info.specs.Entries.{infos_bytes};
ghost use Rattle.edge_info.specs.Texts.{texts_bytes};
ghost use Rattle.tile_numbers.specs.Records.{edges_of_rows};
ghost use Rattle.tile_finish.specs.FinishedTiles.{entries_of_rows, texts_of_rows, entry_offset};
ghost use Rattle.tile_finish.specs.Finishing.{IsSectionFault};

use crate::edge_offsets::offsets_of_edges;
use crate::edge_places::places_of_pieces;
use crate::sections::check_sections;
use edge_info::{Infos, Texts};
use road_pieces::Pieces;
use std::alloc::Global;
use tile_bytes::WriteFault;
use tile_infos::{pieces_at_places, tile_infos};
use work_tile::TileRows;

/// The entries and the texts of a tile, and for each of its edges where the entry of its piece starts.
#[derive(Debug, Drop)]
pub(crate) struct TileParts {
    pub infos: Infos,
    pub texts: Texts,
    pub offsets: Vec<u32>,
}

/// The parts of the tile of these rows. Their sizes are looked at before the offsets are put into 32 bits.
pub(crate) fn parts_of_tile(
    alloc: Global,
    pieces: &Pieces,
    rows: &TileRows,
) -> Result<TileParts, WriteFault>
    requires { All (λ (e : WorkEdge). e.place < length pieces.now) (edges_of_rows rows.now) }
    ensures infos { IfOk result (λ parts. parts.infos ≡ entries_of_rows pieces.now rows.now) }
    ensures texts { IfOk result (λ parts. parts.texts ≡ texts_of_rows pieces.now rows.now) }
    ensures few { IfOk result (λ parts. length parts.texts ≤ 2 ^ 32) }
    ensures offsets { IfOk result (λ parts. parts.offsets.items ≡ map (entry_offset pieces.now rows.now) (edges_of_rows rows.now)) }
    ensures fault { IfErr result (λ fault. IsSectionFault (length (infos_bytes (entries_of_rows pieces.now rows.now))) (length (texts_bytes (texts_of_rows pieces.now rows.now))) fault) }
{
    pieces_at_places();
    let places = places_of_pieces(alloc, rows)?;
    let made = tile_infos(alloc, pieces, &places)?;
    match check_sections(&made.infos, &made.texts) {
        Ok(()) => {
            let offsets = offsets_of_edges(alloc, rows, &places, made.offsets.as_slice())?;
            Ok(TileParts {
                infos: made.infos,
                texts: made.texts,
                offsets,
            })
        }
        Err(fault) => Err(fault),
    }
}
