//! Reading a tile file.
ghost use Rattle.std.specs.Prelude.{◌≡◌, ◌≤◌, ◌<◌, ◌^◌, ℕ, List, length, IfOk, IfErr, Ok, Err};
ghost use Rattle.section_grammar.specs.Answers.{Check, Gives};
ghost use Rattle.edge_info.specs.Entries.{infos_bytes, starts_of};
ghost use Rattle.edge_info.specs.Starts.{MarkStarts};
ghost use Rattle.edge_info.specs.EntryReading.{entries_at};
ghost use Rattle.tile_bytes.specs.declared.tile.Tile.{Tile};
ghost use Rattle.tile_bytes.specs.Chains.{named_chains};
ghost use Rattle.tile_bytes.specs.Tiles.{has_entry, TileSpelled};
ghost use Rattle.tile_bytes.specs.TileChecks.{TileCheck, check_number, IsFirstFailing, IsFirstFault};
ghost use Rattle.tile_bytes.specs.TileReading.{lists_at, behind_lists, edge_entries_at, infos_at, tile_with, tile_at};

use crate::chain_section::chains_of;
use crate::chains::Chains;
use crate::header::{Header, read_header};
use crate::laws::{checks_law, tile_law};
use crate::record_sections::{Records, read_records};
use crate::sequence_section::sequences_in;
use crate::sequences::Sequences;
use crate::tile::Tile;
use edge_info::{
    InfoSet, Infos, entries_law, entry_starts, is_start, read_entries, read_padding, read_texts,
};
use osm_model::Seq;
use section_grammar::{SectionFault, cut, place};
use std::alloc::Global;
use tile_records::EdgeRec;

/// The first check that fails and its place, or want of memory.
pub type TileFault = SectionFault;

/// The chains and the sequences.
#[tactic(auto, unfolding(crate::specs::TileReading::lists_at))]
fn read_lists(
    alloc: Global,
    end: u64,
    header: &Header,
    records: &Records,
    bytes: &[u8],
) -> Result<(Chains, Sequences), SectionFault>
    requires { records.now.shortcuts ≡ length (named_chains records.now.edges.items) }
    ensures { Gives (λ x. record { chains = x.0; sequences = x.1 }) result (lists_at end header.now records.now.edges.items bytes.now) }
{
    let (chain_words, sequence_words) = (header.chain_words, header.sequence_words);
    let (section, rest) = cut(bytes, 8 * chain_words as usize);
    let chains = chains_of(
        alloc,
        header,
        &records.edges,
        records.shortcuts,
        place(end, rest),
        section,
    )?;
    let (section, rest) = cut(rest, 8 * sequence_words as usize);
    let sequences = sequences_in(alloc, place(end, rest), section)?;
    Ok((chains, sequences))
}

/// What follows the chains and the sequences.
fn behind_lists<'a>(header: &Header, bytes: &'a [u8]) -> &'a [u8]
    ensures { result.now ≡ behind_lists header.now bytes.now }
{
    let (chain_words, sequence_words) = (header.chain_words, header.sequence_words);
    let (_, rest) = cut(bytes, 8 * chain_words as usize);
    let (_, rest) = cut(rest, 8 * sequence_words as usize);
    rest
}

/// Whether the entry of an edge starts at a marked offset.
fn has_entry(marks: &[bool], edge: &EdgeRec) -> bool
    ensures { (starts : List ℕ) → MarkStarts marks.now starts → result ≡ has_entry starts edge.now }
{
    is_start(marks, edge.info)
}

/// Whether each edge has an entry that starts at a marked offset; the first edge stands at this place.
fn check_each(at: u64, marks: &[bool], edges: &[EdgeRec]) -> Result<(), SectionFault>
    requires near { at < 2 ^ 62 }
    ensures { (starts : List ℕ) → MarkStarts marks.now starts → Gives (λ _. tt) result (edge_entries_at at starts edges.now) }
{
    for (i, edge) in edges.iter().enumerate() {
        if !has_entry(marks, edge) {
            return Err(SectionFault::Bad {
                check: 14,
                at: at + 32 * i as u64,
            });
        }
    }
    Ok(())
}

/// The entries that fill a section, which are spelled so.
fn entries_in(alloc: Global, end: u64, count: u64, section: &[u8]) -> Result<Infos, SectionFault>
    ensures entries { Gives (λ x. x) result (entries_at end count section.now) }
    ensures spelled { IfOk result (λ infos. section.now ≡ infos_bytes infos) }
{
    entries_law();
    read_entries(alloc, end, count, section)
}

/// Whether each edge has one of these entries, which take so many bytes; the first edge stands at this place.
fn check_entries(
    alloc: Global,
    at: u64,
    edges: &[EdgeRec],
    infos: &Infos,
    size: usize,
) -> Result<(), SectionFault>
    requires near { at < 2 ^ 62 }
    requires spelled { length (infos_bytes infos.now) ≡ size }
    ensures { Gives (λ _. tt) result (edge_entries_at at (starts_of infos.now) edges.now) }
{
    let marks = entry_starts(alloc, infos, size)?;
    check_each(at, &marks, edges)
}

/// The entries, where each edge has one, and the texts.
#[tactic(auto, unfolding(crate::specs::TileReading::infos_at))]
fn read_set(
    alloc: Global,
    end: u64,
    header: &Header,
    edges: &[EdgeRec],
    bytes: &[u8],
) -> Result<InfoSet, SectionFault>
    ensures { Gives (λ s. s) result (infos_at end header.now edges.now bytes.now) }
{
    let (nodes, count) = (header.nodes, header.texts);
    let (section, rest) = cut(bytes, header.info_bytes as usize);
    let infos = entries_in(alloc, place(end, rest), u64::from(count), section)?;
    check_entries(
        alloc,
        64 + 32 * u64::from(nodes),
        edges,
        &infos,
        section.len(),
    )?;
    let (section, rest) = cut(rest, header.text_bytes as usize);
    let texts = read_texts(alloc, place(end, rest), u64::from(count), &infos, section)?;
    read_padding(end, rest)?;
    Ok(InfoSet { infos, texts })
}

/// The tile of these parts.
fn tile_of(
    header: &Header,
    records: Records,
    chains: Chains,
    sequences: Sequences,
    set: InfoSet,
) -> Tile
    ensures { result ≡ tile_with header.now (record { nodes = records.nodes.items; edges = records.edges.items; transitions = records.transitions.items }) (record { chains = chains; sequences = sequences }) set }
{
    let Records {
        nodes,
        edges,
        transitions,
        shortcuts: _,
    } = records;
    let InfoSet { infos, texts } = set;
    Tile {
        id: header.id,
        modes: header.modes,
        nodes: Seq::from_vec(nodes),
        edges: Seq::from_vec(edges),
        transitions: Seq::from_vec(transitions),
        chains,
        sequences,
        infos,
        texts,
    }
}

/// The tile that the bytes spell, or the first check that fails.
#[tactic(auto, unfolding(crate::specs::TileReading::tile_at))]
fn read_whole(alloc: Global, bytes: &[u8]) -> Result<Tile, SectionFault>
    ensures { Gives (λ t. t) result (tile_at bytes.now) }
{
    let header = read_header(bytes)?;
    let (_, rest) = bytes.split_at(64);
    let end = bytes.len() as u64;
    let (records, rest) = read_records(alloc, end, &header, rest)?;
    let (chains, sequences) = read_lists(alloc, end, &header, &records, rest)?;
    let set = read_set(
        alloc,
        end,
        &header,
        &records.edges,
        behind_lists(&header, rest),
    )?;
    Ok(tile_of(&header, records, chains, sequences, set))
}

/// The tile that the bytes spell, or the first check that fails with its place.
pub fn read_tile(alloc: Global, bytes: &[u8]) -> Result<Tile, TileFault>
    // What is read is spelled so.
    ensures found { IfOk result (λ tile. TileSpelled bytes.now tile) }
    // What is spelled so is read, unless memory runs out.
    ensures only { (tile : Tile) → TileSpelled bytes.now tile → Gives (λ t. t) result (Ok tile) }
    // A fault is that of the first check that fails, at its first place.
    ensures bad { IfErr result (λ fault. IsFirstFault bytes.now fault) }
    // The first check that fails is answered, unless memory runs out.
    ensures first { (check : TileCheck) (at : ℕ) → IsFirstFailing bytes.now check at
        → Gives (λ t. t) result (Err (Check (check_number check) at)) }
    // The same by the checks one after the other.
    ensures exact { Gives (λ t. t) result (tile_at bytes.now) }
{
    tile_law();
    checks_law();
    read_whole(alloc, bytes)
}
