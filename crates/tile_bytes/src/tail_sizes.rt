//! The sizes of the sections that a header says, before they are written.
ghost use Rattle.std.specs.Prelude.{◌≡◌, ◌≤◌, ◌+◌, ◌^◌, ◌∷◌, [], length, nat_lt};
ghost use Rattle.edge_info.specs.Entries.{infos_bytes};
ghost use Rattle.edge_info.specs.Texts.{texts_bytes};
ghost use Rattle.tile_bytes.specs.Chains.{words_of_chains};
ghost use Rattle.tile_bytes.specs.Sequences.{words_of_sequences};
ghost use Rattle.tile_bytes.specs.Writing.{first_above};

use crate::chains::Chains;
use crate::sequences::Sequences;
use crate::tile::Tile;
use edge_info::texts_size;
use graph_id::GraphId;

/// The sizes of the sections of a tile that its header says: words of chains and of sequences, bytes of entries and of
/// texts. They are computed with room to spare: a section has fewer than 2^64 items, each of at most 2^64 words or a
/// little more bytes.
#[derive(Clone, Copy, Debug)]
pub(crate) struct TailSizes {
    pub chains: u128,
    pub sequences: u128,
    pub infos: u128,
    pub texts: u128,
}

/// The words of a chain or a sequence of these GraphIds: one, and theirs.
fn ids_words(ids: &[GraphId]) -> u128
    ensures value { result ≡ 1 + length ids.now }
    ensures bound { result ≤ 2 ^ 64 }
{
    1 + ids.len() as u128
}

/// The words of chains. The sum fits, since each of fewer than 2^64 chains has at most 2^64 words.
fn chain_words(chains: &Chains) -> u128
    ensures { result ≡ words_of_chains chains.now }
{
    let mut words: u128 = 0;
    for i in 0..chains.len() {
        words += ids_words(chains.at(i));
    }
    words
}

/// The words of sequences. The sum fits as that of chains does.
fn sequence_words(sequences: &Sequences) -> u128
    ensures { result ≡ words_of_sequences sequences.now }
{
    let mut words: u128 = 0;
    for i in 0..sequences.len() {
        words += ids_words(sequences.edges(i));
    }
    words
}

/// The sizes of the sections of a tile that its header says.
pub(crate) fn sizes_of_tile(tile: &Tile) -> TailSizes
    ensures chains { result.chains ≡ words_of_chains tile.now.chains }
    ensures sequences { result.sequences ≡ words_of_sequences tile.now.sequences }
    ensures infos { result.infos ≡ length (infos_bytes tile.now.infos) }
    ensures texts { result.texts ≡ length (texts_bytes tile.now.texts) }
{
    TailSizes {
        chains: chain_words(&tile.chains),
        sequences: sequence_words(&tile.sequences),
        infos: tile.infos.size(),
        texts: texts_size(tile.texts.as_slice()),
    }
}

/// Whether a size fits a header.
fn fits(size: u128) -> bool
    ensures { result ≡ nat_lt size (2 ^ 32) }
{
    size < 0x1_0000_0000
}

/// The first size that doesn't fit a header.
pub(crate) fn too_large(sizes: TailSizes) -> Option<u128>
    ensures { result ≡ first_above (sizes.chains ∷ sizes.sequences ∷ sizes.infos ∷ sizes.texts ∷ []) }
{
    if !fits(sizes.chains) {
        return Some(sizes.chains);
    }
    if !fits(sizes.sequences) {
        return Some(sizes.sequences);
    }
    if !fits(sizes.infos) {
        return Some(sizes.infos);
    }
    if !fits(sizes.texts) {
        return Some(sizes.texts);
    }
    None
}
