//! DenseNodes.
ghost use Rattle.std.specs.Prelude.{◌≡◌, ◌+◌, ◌<◌, ◌^◌, length, IsOk};
ghost use Rattle.osm_model.specs.Extract.{tags_of_nodes};
ghost use Rattle.osm_messages.specs.RawNumbers.{seen_raw_dense};
ghost use Rattle.osm_objects.specs.Groups.{groups_of};
ghost use Rattle.osm_objects.specs.FirstGroups.{nodes_read};
ghost use Rattle.osm_objects.specs.Nodes.{decoded_dense_nodes};
ghost use Rattle.osm_objects.specs.Answers.{Becomes, after};
ghost use Rattle.osm_objects.specs.Seen.{table_of};

use crate::fault::ObjectFault;
use crate::groups::{check_groups, read_group};
use crate::parts::check_even;
use crate::scale::Scale;
use crate::sums::sum_up;
use crate::texts::Texts;
use osm_messages::RawDenseNodes;
use osm_model::{Nodes, Tag};
use std::alloc::Global;

/// Sums of differences. They keep their memory from one object to the next.
#[derive(Drop)]
pub struct Sums {
    pub ids: Vec<i64>,
    pub lats: Vec<i64>,
    pub lons: Vec<i64>,
}

/// Appends the nodes of these ids, coordinates, keys and values. A fault of a string comes before one of coordinates.
/// The DenseNodes stands at `at`.
fn add_nodes(
    alloc: Global,
    texts: &mut Texts<'_>,
    scale: Scale,
    at: u64,
    sums: &Sums,
    keys_values: &[u64],
    tags: &mut Vec<Tag>,
    nodes: &mut Nodes,
) -> Result<(), ObjectFault>
    requires lats { length sums.now.lats.items ≡ length sums.now.ids.items }
    requires lons { length sums.now.lons.items ≡ length sums.now.ids.items }
    requires groups { IsOk (groups_of at (length sums.now.ids.items) keys_values.now) }
    requires places { length nodes.now + length sums.now.ids.items < 2 ^ 31 }
    requires room { tags_of_nodes nodes.now + length keys_values.now < 2 ^ 31 }
    ensures nodes { Becomes result nodes.new (after nodes.old (nodes_read (table_of texts.old) scale at sums.now.ids.items sums.now.lats.items sums.now.lons.items keys_values.now)) }
    ensures table { table_of texts.new ≡ table_of texts.old }
{
    let mut rest = keys_values;
    let mut misplaced: Option<i64> = None;
    for i in 0..sums.ids.len() {
        rest = read_group(alloc, texts, at, rest, tags)?;
        match scale.place(sums.lats[i], sums.lons[i]) {
            Some((lat, lon)) => nodes.append_parts(sums.ids[i], lat, lon, tags.as_slice())?,
            None => misplaced = misplaced.or(Some(sums.ids[i])),
        }
    }
    match misplaced {
        Some(id) => Err(ObjectFault::BadCoordinate { id }),
        None => Ok(()),
    }
}

#[tactic(auto, unfolding(crate::specs::Nodes::decoded_dense_nodes))]
/// Appends the nodes of a DenseNodes, whose first byte stands at `at`.
pub fn add_dense_nodes(
    alloc: Global,
    texts: &mut Texts<'_>,
    scale: Scale,
    at: u64,
    dense: &RawDenseNodes<'_>,
    sums: &mut Sums,
    tags: &mut Vec<Tag>,
    nodes: &mut Nodes,
) -> Result<(), ObjectFault>
    requires places { length nodes.now + length dense.now.id.now < 2 ^ 31 }
    requires room { tags_of_nodes nodes.now + length dense.now.keys_vals.now < 2 ^ 31 }
    ensures nodes { Becomes result nodes.new (after nodes.old (decoded_dense_nodes (table_of texts.old) scale at (seen_raw_dense dense.now))) }
    ensures table { table_of texts.new ≡ table_of texts.old }
{
    check_even(at, dense.id, dense.lat)?;
    check_even(at, dense.id, dense.lon)?;
    check_groups(at, dense.id.len(), dense.keys_vals)?;
    sum_up(at, dense.id, &mut sums.ids)?;
    sum_up(at, dense.lat, &mut sums.lats)?;
    sum_up(at, dense.lon, &mut sums.lons)?;
    add_nodes(alloc, texts, scale, at, sums, dense.keys_vals, tags, nodes)
}
