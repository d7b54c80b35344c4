//! The runs of the ways of an extract.

ghost use Rattle.std.specs.Prelude.{◌≡◌, ◌<◌, ◌≤◌, ◌+◌, ◌++◌, ◌∷◌, [], length, not, count_by, IfOk, OnOk};
ghost use Rattle.osm_model.specs.Extract.{NodesRise, refs_in};
ghost use Rattle.osm_model.specs.declared.limits.TheConstants.{MOST_NODES, MOST_REFS};
ghost use Rattle.road_pieces.specs.Runs.{has_node};
ghost use Rattle.road_pieces.specs.Lines.{lines_from, all_lines};
ghost use Rattle.road_pieces.specs.NodeIndex.{IsIndex};
ghost use Rattle.road_pieces.specs.Rows.{routable_ways, missing_refs};

use crate::lines::Lines;
use crate::node_index::NodeIndex;
use crate::rules::is_routable;
use osm_model::{Extract, Nodes, Ways};
use std::alloc::{AllocError, Global};

/// The runs of an extract, the number of its routable ways, and the number of places in their refs whose
/// node isn't there.
#[derive(Debug, Drop)]
pub(crate) struct Survey {
    pub lines: Lines,
    pub ways: u64,
    pub missing: u64,
}

/// Finds the runs of all ways, in one pass over their refs.
pub(crate) fn find_lines(alloc: Global, extract: &Extract) -> Result<Survey, AllocError>
    ensures lines { IfOk result (λ s. s.lines.done ≡ all_lines extract.now) }
    ensures ways { IfOk result (λ s. s.ways ≡ routable_ways extract.now) }
    ensures missing { IfOk result (λ s. s.missing ≡ missing_refs extract.now) }
{
    let nodes = &extract.nodes;
    let index = NodeIndex::new(alloc, nodes)?;
    let mut lines = Lines::with_room(alloc, count_refs(&extract.ways))?;
    let mut routable = 0;
    let mut missing = 0;
    for place in 0..extract.ways.len() {
        let way = extract.ways.at(place);
        if is_routable(way.tags()) {
            routable += 1;
            missing += add_way(&mut lines, nodes, &index, place as u32, way.refs())?;
        }
    }
    Ok(Survey {
        lines,
        ways: routable,
        missing,
    })
}

/// The number of refs of all ways.
fn count_refs(ways: &Ways) -> usize
    requires { refs_in ways.now ≤ MOST_REFS }
    ensures { result ≡ refs_in ways.now }
{
    let mut count = 0;
    for i in 0..ways.len() {
        count += ways.at(i).refs().len();
    }
    count
}

/// Adds the runs of a way to the lines, and says how many of its refs name no node.
fn add_way(
    lines: &mut Lines,
    nodes: &Nodes,
    index: &NodeIndex,
    way: u32,
    refs: &[i64],
) -> Result<u64, AllocError>
    requires rises { NodesRise nodes.now }
    requires few { length nodes.now ≤ MOST_NODES }
    requires index { IsIndex nodes.now index.now.first index.now.shift index.now.starts.items }
    requires short { length refs.now ≤ MOST_REFS }
    requires whole { lines.old.begun ≡ [] }
    ensures done { OnOk result (lines.new.done ≡ lines.old.done ++ lines_from nodes.now way 0 [] refs.now) }
    ensures begun { OnOk result (lines.new.begun ≡ []) }
    ensures missing { IfOk result (λ n. n ≡ count_by (λ id. not (has_node nodes.now id)) refs.now) }
{
    let mut number = 0;
    let mut missing = 0;
    let mut guess = 0;
    for id in refs {
        match index.find(nodes, id, guess) {
            Some(place) => {
                lines.extend(place as u32)?;
                guess = place + 1;
            }
            None => {
                if lines.close(way, number)? {
                    number += 1;
                }
                missing += 1;
            }
        }
    }
    lines.close(way, number)?;
    Ok(missing)
}
