//! Writing a whole tile.
ghost use Rattle.std.specs.Prelude.{◌≡◌, ◌<◌, ◌^◌, ◌++◌, Some, true, length, replicate, OnOk, IfOk, IfErr};
ghost use Rattle.section_grammar.specs.WordBytes.{words_bytes};
ghost use Rattle.edge_info.specs.Entries.{infos_bytes};
ghost use Rattle.edge_info.specs.Texts.{texts_bytes};
ghost use Rattle.edge_info.specs.InfoSets.{gap};
ghost use Rattle.tile_bytes.specs.declared.tile.Tile.{Tile};
ghost use Rattle.tile_bytes.specs.Header.{corner_word, file_size, header_words, names_tile};
ghost use Rattle.tile_bytes.specs.Chains.{words_of_chains};
ghost use Rattle.tile_bytes.specs.Sequences.{words_of_sequences};
ghost use Rattle.tile_bytes.specs.Tiles.{PassesChecks, FitsHeader, header_of_tile, spelling_of, TileSpelled};
ghost use Rattle.tile_bytes.specs.Writing.{first_above, section_counts, IsWriteFault};

use crate::header::{Header, file_size, header_words, named_tile};
use crate::tail_sizes::{TailSizes, sizes_of_tile, too_large};
use crate::tile::Tile;
use crate::write::{WriteFault, push_infos_texts, push_lists, push_records};
use graph_id::GraphId;
use section_grammar::{push_word, push_zeros};
use std::alloc::{AllocError, Global};

/// The fault of a section of this size, which is too large. A size past 64 bits, which no memory holds, is want of it.
fn section_fault(size: u128) -> WriteFault
    ensures { (tile : Tile) → first_above (section_counts tile) ≡ Some size → IsWriteFault tile result }
{
    if size > 0xffff_ffff_ffff_ffff {
        return WriteFault::OutOfMemory;
    }
    WriteFault::Section { count: size as u64 }
}

/// The header of a tile whose sections have these sizes.
#[tactic(auto, unfolding(crate::specs::Tiles::header_of_tile))]
fn header_of_tile(tile: &Tile, sizes: TailSizes) -> Header
    requires passes { PassesChecks tile.now }
    requires fits { FitsHeader tile.now }
    requires chains { sizes.chains ≡ words_of_chains tile.now.chains }
    requires sequences { sizes.sequences ≡ words_of_sequences tile.now.sequences }
    requires infos { sizes.infos ≡ length (infos_bytes tile.now.infos) }
    requires texts { sizes.texts ≡ length (texts_bytes tile.now.texts) }
    ensures { result ≡ header_of_tile tile.now }
{
    Header {
        id: tile.id,
        modes: tile.modes,
        nodes: tile.nodes.len() as u32,
        edges: tile.edges.len() as u32,
        transitions: tile.transitions.len() as u32,
        chain_words: sizes.chains as u32,
        sequence_words: sizes.sequences as u32,
        texts: tile.texts.len() as u32,
        info_bytes: sizes.infos as u32,
        text_bytes: sizes.texts as u32,
    }
}

/// The south-west corner of a tile as a word.
fn corner_of(id: GraphId) -> u64
    requires { names_tile id ≡ true }
    ensures { result ≡ corner_word id }
{
    named_tile(id.value()).unwrap().1
}

/// Puts words behind the bytes.
fn push_words(out: &mut Vec<u8>, words: &[u64]) -> Result<(), AllocError>
    ensures { OnOk result (out.new.items ≡ out.old.items ++ words_bytes words.now) }
{
    for word in words {
        push_word(out, *word)?;
    }
    Ok(())
}

/// Puts a header behind the bytes.
fn push_header(out: &mut Vec<u8>, header: &Header) -> Result<(), AllocError>
    requires tile { names_tile header.now.id ≡ true }
    requires size { file_size header.now < 2 ^ 48 }
    ensures { OnOk result (out.new.items ≡ out.old.items ++ words_bytes (header_words header.now)) }
{
    push_words(out, &header_words(header, corner_of(header.id)))
}

/// Puts the zeros behind entries and texts of so many bytes behind the bytes.
fn push_padding(out: &mut Vec<u8>, size: u128) -> Result<(), AllocError>
    ensures { OnOk result (out.new.items ≡ out.old.items ++ replicate (gap size) 0) }
{
    push_zeros(out, ((8 - size % 8) % 8) as usize)
}

/// The bytes of a tile whose sections have these sizes.
fn spelled(alloc: Global, tile: &Tile, sizes: TailSizes) -> Result<Vec<u8>, AllocError>
    requires passes { PassesChecks tile.now }
    requires fits { FitsHeader tile.now }
    requires chains { sizes.chains ≡ words_of_chains tile.now.chains }
    requires sequences { sizes.sequences ≡ words_of_sequences tile.now.sequences }
    requires infos { sizes.infos ≡ length (infos_bytes tile.now.infos) }
    requires texts { sizes.texts ≡ length (texts_bytes tile.now.texts) }
    ensures { IfOk result (λ bytes. bytes.items ≡ spelling_of tile.now) }
{
    let header = header_of_tile(tile, sizes);
    let mut out = Vec::with_capacity(alloc, file_size(&header) as usize)?;
    push_header(&mut out, &header)?;
    push_records(&mut out, tile)?;
    push_lists(&mut out, tile)?;
    push_infos_texts(&mut out, tile)?;
    push_padding(&mut out, sizes.infos + sizes.texts)?;
    Ok(out)
}

/// The one spelling of a tile that passes the checks, however long its shapes and texts.
pub fn write_tile(alloc: Global, tile: &Tile) -> Result<Vec<u8>, WriteFault>
    requires { PassesChecks tile.now }
    // What is written spells the tile.
    ensures spelled { IfOk result (λ bytes. TileSpelled bytes.items tile.now) }
    // The first section that is too large, or want of memory.
    ensures fault { IfErr result (λ fault. IsWriteFault tile.now fault) }
{
    let sizes = sizes_of_tile(tile);
    match too_large(sizes) {
        Some(size) => Err(section_fault(size)),
        None => Ok(spelled(alloc, tile, sizes)?),
    }
}
