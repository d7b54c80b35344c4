//! Objects in order of id.

ghost use Rattle.std.specs.Prelude.{◌≡◌, IfOk};
ghost use Rattle.osm_blocks.specs.Extracts.{node_id, way_id, relation_id};
ghost use Rattle.osm_blocks.specs.Steps.{next_twice, Orders};

use osm_model::{Nodes, Relations, Ways};
use std::alloc::{AllocError, Global};

/// The first node id that occurs twice in a row.
fn node_twice(nodes: &Nodes) -> Option<i64>
    ensures { result ≡ next_twice node_id nodes.now }
{
    for i in 1..nodes.len() {
        let id = nodes.id_at(i - 1);
        if id.cmp(&nodes.id_at(i)).is_eq() {
            return Some(id);
        }
    }
    None
}

/// Sorts nodes by id, or finds the least id that stands twice. A list that is in order already, as in nearly all
/// files, is looked through once.
pub fn order_nodes(alloc: Global, nodes: &mut Nodes) -> Result<Option<i64>, AllocError>
    ensures { IfOk result (λ found. Orders node_id nodes.old nodes.new found) }
{
    if nodes.rises() {
        return Ok(None);
    }
    nodes.sort_by_id(alloc)?;
    Ok(node_twice(nodes))
}

/// The first way id that occurs twice in a row.
fn way_twice(ways: &Ways) -> Option<i64>
    ensures { result ≡ next_twice way_id ways.now }
{
    for i in 1..ways.len() {
        let id = ways.id_at(i - 1);
        if id.cmp(&ways.id_at(i)).is_eq() {
            return Some(id);
        }
    }
    None
}

/// Sorts ways by id, or finds the least id that stands twice. A list that is in order already, as in nearly all
/// files, is looked through once. Does not allocate.
pub fn order_ways(ways: &mut Ways) -> Option<i64>
    ensures { Orders way_id ways.old ways.new result }
{
    if ways.rises() {
        return None;
    }
    ways.sort_by_id();
    way_twice(ways)
}

/// The first relation id that occurs twice in a row.
fn relation_twice(relations: &Relations) -> Option<i64>
    ensures { result ≡ next_twice relation_id relations.now }
{
    for i in 1..relations.len() {
        let id = relations.id_at(i - 1);
        if id.cmp(&relations.id_at(i)).is_eq() {
            return Some(id);
        }
    }
    None
}

/// Sorts relations by id, or finds the least id that stands twice. A list that is in order already, as in nearly all
/// files, is looked through once. Does not allocate.
pub fn order_relations(relations: &mut Relations) -> Option<i64>
    ensures { Orders relation_id relations.old relations.new result }
{
    if relations.rises() {
        return None;
    }
    relations.sort_by_id();
    relation_twice(relations)
}
