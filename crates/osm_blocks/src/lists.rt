//! The objects of all blocks.

ghost use Rattle.std.specs.Prelude.{◌≡◌, ◌+◌, ◌<◌, ◌≤◌, ◌^◌, false, None, length, All, IfOk, IfErr, OnOk};
ghost use Rattle.osm_model.specs.OsmNode.{IsPlaced};
ghost use Rattle.osm_objects.specs.Seen.{seen_objects};
ghost use Rattle.osm_objects.specs.Sizes.{parts_in};
ghost use Rattle.osm_blocks.specs.Faults.{is_read};
ghost use Rattle.osm_blocks.specs.Counts.{counts_of, first_past};
ghost use Rattle.osm_blocks.specs.Extracts.{objects_in, lists_of};
ghost use Rattle.osm_blocks.specs.Steps.{AddsObjects, OrdersAll, AreRising};

use crate::fault::{ExtractFault, meant, spelled};
use crate::order::{order_nodes, order_relations, order_ways};
use osm_messages::read_primitive_block;
use osm_model::{Extract, MemberKind};
use osm_objects::{ObjectLists, add_objects};
use std::alloc::{AllocError, Global};

/// Adds the objects of a PrimitiveBlock, whose first byte stands at `at`.
pub fn add_block(
    alloc: Global,
    lists: &mut ObjectLists,
    bytes: &[u8],
    at: u64,
) -> Result<(), ExtractFault>
    requires places { at + length bytes.now < 2 ^ 64 }
    requires room { parts_in (seen_objects lists.now) + length bytes.now < 2 ^ 31 }
    ensures objects { AddsObjects (seen_objects lists.old) (seen_objects lists.new) result (objects_in at bytes.now) }
    ensures placed { All IsPlaced lists.old.nodes → OnOk result (All IsPlaced lists.new.nodes) }
    ensures grown { OnOk result (parts_in (seen_objects lists.new) ≤ parts_in (seen_objects lists.old) + length bytes.now) }
    ensures no_read { IfErr result (λ fault. is_read fault ≡ false) }
{
    let block = match read_primitive_block(alloc, bytes, at) {
        Ok(block) => block,
        Err(fault) => return Err(spelled(fault)),
    };
    match add_objects(alloc, &block, at, lists) {
        Ok(()) => Ok(()),
        Err(fault) => Err(meant(fault)),
    }
}

/// Puts the lists in order of id, or finds the first kind with an id that stands twice, and the least such id.
pub fn order_all(
    alloc: Global,
    lists: &mut ObjectLists,
) -> Result<Option<(MemberKind, i64)>, AllocError>
    ensures { IfOk result (λ found. OrdersAll (seen_objects lists.old) (seen_objects lists.new) found) }
{
    if let Some(id) = order_nodes(alloc, &mut lists.nodes)? {
        return Ok(Some((MemberKind::Node, id)));
    }
    if let Some(id) = order_ways(&mut lists.ways) {
        return Ok(Some((MemberKind::Way, id)));
    }
    if let Some(id) = order_relations(&mut lists.relations) {
        return Ok(Some((MemberKind::Relation, id)));
    }
    Ok(None)
}

/// The extract of lists that are in order.
pub fn extract_of(lists: ObjectLists) -> Extract
    requires rising { AreRising (seen_objects lists) }
    requires placed { All IsPlaced lists.nodes }
    requires within { first_past (counts_of (seen_objects lists)) ≡ None }
    ensures { lists_of result ≡ seen_objects lists }
{
    let ObjectLists {
        nodes,
        ways,
        relations,
    } = lists;
    Extract {
        nodes,
        ways,
        relations,
    }
}
