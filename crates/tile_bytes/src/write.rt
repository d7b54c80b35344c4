//! Writing a tile file.
ghost use Rattle.std.specs.Prelude.{◌≡◌, ◌++◌, OnOk};
ghost use Rattle.std.specs.List.{flat_map};
ghost use Rattle.section_grammar.specs.WordBytes.{words_bytes};
ghost use Rattle.edge_info.specs.Entries.{infos_bytes};
ghost use Rattle.edge_info.specs.Texts.{texts_bytes};
ghost use Rattle.tile_bytes.specs.declared.write.WriteFault.TheVariants.{OutOfMemory};
ghost use Rattle.tile_bytes.specs.Items.{node_bytes, edge_bytes};
ghost use Rattle.tile_bytes.specs.Chains.{chain_bytes};
ghost use Rattle.tile_bytes.specs.Sequences.{sequence_bytes};

use crate::chains::Chains;
use crate::sequences::Sequences;
use crate::tile::Tile;
use edge_info::{push_infos, push_texts};
use graph_id::GraphId;
use section_grammar::{push_record, push_word};
use std::alloc::AllocError;
use tile_records::{EdgeRec, NodeRec};

/// Why a tile isn't written: a section is too large for the header, with its number of words, or of bytes for entries
/// and texts; or want of memory.
#[derive(Clone, Copy, Debug, PartialEq, Eq)]
pub enum WriteFault {
    Section { count: u64 },
    OutOfMemory,
}

impl From<AllocError> for WriteFault {
    ghost from_gives = { λ _ e. e ≡ OutOfMemory };

    fn from(_e: AllocError) -> WriteFault {
        WriteFault::OutOfMemory
    }
}

/// Puts nodes behind the bytes.
fn push_nodes(out: &mut Vec<u8>, nodes: &[NodeRec]) -> Result<(), AllocError>
    ensures { OnOk result (out.new.items ≡ out.old.items ++ flat_map node_bytes nodes.now) }
{
    for node in nodes {
        push_record(out, node.words())?;
    }
    Ok(())
}

/// Puts edges behind the bytes.
fn push_edges(out: &mut Vec<u8>, edges: &[EdgeRec]) -> Result<(), AllocError>
    ensures { OnOk result (out.new.items ≡ out.old.items ++ flat_map edge_bytes edges.now) }
{
    for edge in edges {
        push_record(out, edge.words())?;
    }
    Ok(())
}

/// Puts GraphIds behind the bytes.
fn push_ids(out: &mut Vec<u8>, ids: &[GraphId]) -> Result<(), AllocError>
    ensures { OnOk result (out.new.items ≡ out.old.items ++ words_bytes ids.now) }
{
    for id in ids {
        push_word(out, id.value())?;
    }
    Ok(())
}

/// Puts a chain behind the bytes.
#[tactic(auto, unfolding(crate::specs::Chains::chain_bytes))]
fn push_chain(out: &mut Vec<u8>, ids: &[GraphId]) -> Result<(), AllocError>
    ensures { OnOk result (out.new.items ≡ out.old.items ++ chain_bytes ids.now) }
{
    push_word(out, ids.len() as u64)?;
    push_ids(out, ids)
}

/// Puts chains behind the bytes.
fn push_chains(out: &mut Vec<u8>, chains: &Chains) -> Result<(), AllocError>
    ensures { OnOk result (out.new.items ≡ out.old.items ++ flat_map chain_bytes chains.now) }
{
    for i in 0..chains.len() {
        push_chain(out, chains.at(i))?;
    }
    Ok(())
}

/// Puts a sequence behind the bytes.
#[tactic(auto, unfolding(crate::specs::Sequences::sequence_bytes))]
fn push_sequence(out: &mut Vec<u8>, edges: &[GraphId], modes: u16) -> Result<(), AllocError>
    ensures { OnOk result (out.new.items ≡ out.old.items ++ sequence_bytes (record { edges = edges.now; modes = modes })) }
{
    push_word(out, edges.len() as u64 + u64::from(modes) * 65_536)?;
    push_ids(out, edges)
}

/// Puts sequences behind the bytes.
fn push_sequences(out: &mut Vec<u8>, sequences: &Sequences) -> Result<(), AllocError>
    ensures { OnOk result (out.new.items ≡ out.old.items ++ flat_map sequence_bytes sequences.now) }
{
    for i in 0..sequences.len() {
        push_sequence(out, sequences.edges(i), sequences.modes(i))?;
    }
    Ok(())
}

/// Puts the sections of records behind the bytes.
pub(crate) fn push_records(out: &mut Vec<u8>, tile: &Tile) -> Result<(), AllocError>
    ensures { OnOk result (out.new.items ≡ out.old.items ++ (flat_map node_bytes tile.now.nodes ++ (flat_map edge_bytes tile.now.edges ++ words_bytes tile.now.transitions))) }
{
    push_nodes(out, tile.nodes.as_slice())?;
    push_edges(out, tile.edges.as_slice())?;
    push_ids(out, tile.transitions.as_slice())
}

/// Puts the sections of lists behind the bytes.
pub(crate) fn push_lists(out: &mut Vec<u8>, tile: &Tile) -> Result<(), AllocError>
    ensures { OnOk result (out.new.items ≡ out.old.items ++ (flat_map chain_bytes tile.now.chains ++ flat_map sequence_bytes tile.now.sequences)) }
{
    push_chains(out, &tile.chains)?;
    push_sequences(out, &tile.sequences)
}

/// Puts the entries and the texts behind the bytes.
pub(crate) fn push_infos_texts(out: &mut Vec<u8>, tile: &Tile) -> Result<(), AllocError>
    ensures { OnOk result (out.new.items ≡ out.old.items ++ (infos_bytes tile.now.infos ++ texts_bytes tile.now.texts)) }
{
    push_infos(out, &tile.infos)?;
    push_texts(out, tile.texts.as_slice())
}
