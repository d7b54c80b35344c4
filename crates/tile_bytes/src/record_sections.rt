//! The sections of nodes, edges and transitions, read.
ghost use Rattle.std.specs.Prelude.{◌≡◌, ◌≤◌, ◌*◌, length, IfOk};
ghost use Rattle.graph_id.specs.GraphId.{level_of};
ghost use Rattle.section_grammar.specs.Answers.{Gives};
ghost use Rattle.tile_bytes.specs.Header.{file_size};
ghost use Rattle.tile_bytes.specs.Chains.{named_chains};
ghost use Rattle.tile_bytes.specs.TileSections.{nodes_at, edges_at, transitions_at, records_at};

use crate::header::Header;
use crate::ids::{LevelRule, ids_of};
use crate::items::{edges_of, nodes_of};
use graph_id::GraphId;
use section_grammar::{SectionFault, place};
use std::alloc::Global;
use tile_records::{EdgeRec, NodeRec};

/// The nodes, whose counts add up to the header's.
#[tactic(auto, unfolding(crate::specs::TileSections::nodes_at))]
fn all_nodes<'a>(
    alloc: Global,
    end: u64,
    header: &Header,
    bytes: &'a [u8],
) -> Result<(Vec<NodeRec>, &'a [u8]), SectionFault>
    requires level { level_of header.now.id ≤ 2 }
    requires room { 32 * header.now.nodes ≤ end }
    ensures { Gives (λ x. (x.0.items, x.1.now)) result (nodes_at end header.now bytes.now) }
{
    let (level, tile) = (header.id.level(), header.id.tile());
    let (nodes, edges, transitions, rest) = nodes_of(alloc, end, level, tile, header.nodes, bytes)?;
    if edges == u64::from(header.edges) && transitions == u64::from(header.transitions) {
        Ok((nodes, rest))
    } else {
        Err(SectionFault::Bad {
            check: 8,
            at: place(end, rest),
        })
    }
}

/// The edges, and how many of them are shortcuts.
#[tactic(auto, unfolding(crate::specs::TileSections::edges_at))]
fn all_edges<'a>(
    alloc: Global,
    end: u64,
    header: &Header,
    bytes: &'a [u8],
) -> Result<(Vec<EdgeRec>, u64, &'a [u8]), SectionFault>
    requires room { 32 * header.now.edges ≤ end }
    ensures edges { Gives (λ x. (x.0.items, x.2.now)) result (edges_at end header.now bytes.now) }
    ensures shortcuts { IfOk result (λ x. x.1 ≡ length (named_chains x.0.items)) }
{
    edges_of(alloc, end, header.id.level(), header.edges, bytes)
}

/// The transitions.
#[tactic(auto, unfolding(crate::specs::TileSections::transitions_at))]
fn all_transitions<'a>(
    alloc: Global,
    end: u64,
    header: &Header,
    bytes: &'a [u8],
) -> Result<(Vec<GraphId>, &'a [u8]), SectionFault>
    requires room { 8 * header.now.transitions ≤ end }
    ensures { Gives (λ x. (x.0.items, x.1.now)) result (transitions_at end header.now bytes.now) }
{
    let count = header.transitions as usize;
    let mut ids = Vec::with_capacity(alloc, count)?;
    let rest = ids_of(
        LevelRule::Except(header.id.level()),
        10,
        end,
        count,
        bytes,
        &mut ids,
    )?;
    Ok((ids, rest))
}

/// What the sections of records hold, and how many of the edges are shortcuts.
#[derive(Debug, Drop)]
pub(crate) struct Records {
    pub nodes: Vec<NodeRec>,
    pub edges: Vec<EdgeRec>,
    pub transitions: Vec<GraphId>,
    pub shortcuts: u64,
}

/// The sections of records of a file that has the size that its header says.
#[tactic(auto, unfolding(crate::specs::TileSections::records_at))]
pub(crate) fn read_records<'a>(
    alloc: Global,
    end: u64,
    header: &Header,
    bytes: &'a [u8],
) -> Result<(Records, &'a [u8]), SectionFault>
    requires level { level_of header.now.id ≤ 2 }
    requires room { file_size header.now ≤ end }
    ensures records { Gives (λ x. (record { nodes = x.0.nodes.items; edges = x.0.edges.items; transitions = x.0.transitions.items }, x.1.now)) result (records_at end header.now bytes.now) }
    ensures shortcuts { IfOk result (λ x. x.0.shortcuts ≡ length (named_chains x.0.edges.items)) }
{
    let (nodes, rest) = all_nodes(alloc, end, header, bytes)?;
    let (edges, shortcuts, rest) = all_edges(alloc, end, header, rest)?;
    let (transitions, rest) = all_transitions(alloc, end, header, rest)?;
    Ok((
        Records {
            nodes,
            edges,
            transitions,
            shortcuts,
        },
        rest,
    ))
}
