//! The infos of a tile.
ghost use Rattle.std.specs.Prelude.{◌≡◌, ◌<◌, ◌≤◌, ◌^◌, length, All, IfOk};
ghost use Rattle.edge_info.specs.Entries.{infos_bytes, starts_of};
ghost use Rattle.tile_infos.specs.TileTexts.{texts_of_pieces};
ghost use Rattle.tile_infos.specs.TileEntries.{pieces_at, entries_of_pieces};

use crate::names::put_names;
use edge_info::{Infos, Texts};
use osm_model::Seq;
use road_pieces::Pieces;
use std::alloc::{AllocError, Global};
use std::collections::BTreeMap;

/// Where entries start among the bytes of all, in order.
pub type Offsets = Seq<u64>;

/// The entries of a tile, the texts that they name, and where each entry starts.
#[derive(Debug, Drop)]
pub struct TileInfos {
    pub infos: Infos,
    pub texts: Texts,
    pub offsets: Offsets,
}

/// The number of the bytes of all entries. Where 64 bits can't say it, no memory holds them.
fn size_of_all(infos: &Infos) -> Result<u64, AllocError>
    ensures { IfOk result (λ size. size ≡ length (infos_bytes infos.now)) }
{
    u64::try_from(infos.size()).map_err(|_| AllocError)
}

/// The entries of the pieces at these places, in that order; the texts that they name, each where it is first named;
/// and the offset in bytes at which each entry starts, of which the first is 0. An offset is exact, also where it is past
/// 4,294,967,295, which an edge of a tile can't say. Fails for want of memory alone; more than 4,294,967,296 texts and
/// entries of 2^64 bytes are answered so too, but no list of pieces has so many names, and no memory so many bytes.
pub fn tile_infos(alloc: Global, pieces: &Pieces, places: &[u32]) -> Result<TileInfos, AllocError>
    requires { All (λ place. place < length pieces.now) places.now }
    ensures infos { IfOk result (λ made. made.infos ≡ entries_of_pieces (pieces_at pieces.now places.now)) }
    ensures texts { IfOk result (λ made. made.texts ≡ texts_of_pieces (pieces_at pieces.now places.now)) }
    ensures few { IfOk result (λ made. length made.texts ≤ 2 ^ 32) }
    ensures offsets { IfOk result (λ made. made.offsets ≡ starts_of (entries_of_pieces (pieces_at pieces.now places.now))) }
{
    let mut infos = Infos::new(alloc);
    let mut offsets = Vec::with_capacity(alloc, places.len())?;
    let mut texts = Vec::new(alloc);
    let mut known = BTreeMap::new(alloc);
    let mut names = Vec::new(alloc);
    for place in places {
        let piece = pieces.at(*place as usize);
        put_names(alloc, piece.names(), &mut known, &mut texts, &mut names)?;
        offsets.push(size_of_all(&infos)?)?;
        infos.push_parts(piece.key(), piece.shape(), &names)?;
    }
    Ok(TileInfos {
        infos,
        texts: Seq::from_vec(texts),
        offsets: Seq::from_vec(offsets),
    })
}
