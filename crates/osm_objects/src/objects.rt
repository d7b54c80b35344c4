//! The objects of PrimitiveBlocks.
ghost use Rattle.std.specs.Prelude.{◌≡◌, ◌+◌, ◌<◌, ◌≤◌, ◌^◌, [], length, All, OnOk};
ghost use Rattle.osm_messages.specs.Groups.{HasNumbers};
ghost use Rattle.osm_messages.specs.Seen.{seen_object, seen_block};
ghost use Rattle.osm_messages.specs.Sizes.{object_bytes};
ghost use Rattle.osm_model.specs.OsmNode.{IsPlaced};
ghost use Rattle.osm_objects.specs.Objects.{Spelled, no_objects, joined_behind, with_object, scale_of, objects_of};
ghost use Rattle.osm_objects.specs.Answers.{Becomes};
ghost use Rattle.osm_objects.specs.Seen.{table_of, seen_objects};
ghost use Rattle.osm_objects.specs.Sizes.{parts_in};

use crate::dense::{Sums, add_dense_nodes};
use crate::fault::ObjectFault;
use crate::nodes::{Spot, read_node};
use crate::relations::read_relation;
use crate::scale::Scale;
use crate::texts::Texts;
use crate::ways::read_way;
use osm_messages::fields::BLOCK_STRINGTABLE;
use osm_messages::{NumberLists, ObjectKind, RawObject, RawPrimitiveBlock, read_numbers};
use osm_model::{Member, MemberKind, Nodes, Relations, Tag, Ways};
use std::alloc::Global;

/// The objects of PrimitiveBlocks, each list in the order of the bytes.
#[derive(Drop)]
pub struct ObjectLists {
    pub nodes: Nodes,
    pub ways: Ways,
    pub relations: Relations,
}

impl ObjectLists {
    /// Empty lists. Does not allocate.
    pub fn new(alloc: Global) -> ObjectLists
        ensures { seen_objects result ≡ no_objects }
    {
        ObjectLists {
            nodes: Nodes::new(alloc),
            ways: Ways::new(alloc),
            relations: Relations::new(alloc),
        }
    }
}

/// Room for the parts of one object. It is kept from one object to the next.
#[derive(Drop)]
struct Room {
    lists: NumberLists,
    sums: Sums,
    kinds: Vec<MemberKind>,
    tags: Vec<Tag>,
    members: Vec<Member>,
}

/// Decodes one object and appends it to the list of its kind.
fn add_object(
    alloc: Global,
    texts: &mut Texts<'_>,
    scale: Scale,
    object: &RawObject<'_>,
    room: &mut Room,
    lists: &mut ObjectLists,
) -> Result<(), ObjectFault>
    requires numbers { HasNumbers (seen_object object.now) }
    requires room { parts_in (seen_objects lists.now) + length object.now.bytes.now < 2 ^ 31 }
    ensures objects { Becomes result (seen_objects lists.new) (with_object (table_of texts.old) scale (seen_objects lists.old) (seen_object object.now)) }
    ensures table { table_of texts.new ≡ table_of texts.old }
{
    // `read_primitive_block` has looked through the object's numbers (`numbers` above), so only memory can be wanting.
    if read_numbers(object, &mut room.lists).is_err() {
        return Err(ObjectFault::OutOfMemory);
    }
    let at = object.at;
    match object.kind {
        ObjectKind::Node => {
            let raw = room.lists.node();
            let spot = read_node(alloc, texts, scale, at, &raw, &mut room.tags)?;
            let Spot { id, lat, lon } = spot;
            lists
                .nodes
                .append_parts(id, lat, lon, room.tags.as_slice())?;
        }
        ObjectKind::DenseNodes => {
            let raw = room.lists.dense_nodes();
            add_dense_nodes(
                alloc,
                texts,
                scale,
                at,
                &raw,
                &mut room.sums,
                &mut room.tags,
                &mut lists.nodes,
            )?;
        }
        ObjectKind::Way => {
            let raw = room.lists.way();
            let refs = &mut room.sums.ids;
            let id = read_way(alloc, texts, at, &raw, &mut room.tags, refs)?;
            let refs = room.sums.ids.as_slice();
            lists.ways.append_parts(id, room.tags.as_slice(), refs)?;
        }
        ObjectKind::Relation => {
            let raw = room.lists.relation();
            let id = read_relation(
                alloc,
                texts,
                at,
                &raw,
                &mut room.sums.ids,
                &mut room.kinds,
                &mut room.tags,
                &mut room.members,
            )?;
            let members = room.members.as_slice();
            lists
                .relations
                .append_parts(id, room.tags.as_slice(), members)?;
        }
    }
    Ok(())
}

/// The scale of a block's coordinates.
fn block_scale(block: &RawPrimitiveBlock<'_>) -> Scale
    ensures { result ≡ scale_of (seen_block block.now) }
{
    Scale {
        granularity: block.granularity,
        lat_offset: block.lat_offset,
        lon_offset: block.lon_offset,
    }
}

/// Decodes the objects of a PrimitiveBlock (osmformat.proto) and appends each to the list of its kind, in the order of
/// the bytes. The block's first byte stands at `at`.
///
/// There has to be room for an object, a tag, a ref or a member for each byte of the objects; more are never put there.
///
/// The fault is `MissingField` for a block without a string table, or else that of the first object which has one.
/// Nothing is promised of the lists then.
pub fn add_objects(
    alloc: Global,
    block: &RawPrimitiveBlock<'_>,
    at: u64,
    lists: &mut ObjectLists,
) -> Result<(), ObjectFault>
    requires spelled { Spelled (seen_block block.now) }
    requires room { parts_in (seen_objects lists.now) + object_bytes (seen_block block.now).objects < 2 ^ 31 }
    ensures objects { Becomes result (seen_objects lists.new) (joined_behind (seen_objects lists.old) (objects_of at (seen_block block.now))) }
    ensures placed { All IsPlaced lists.old.nodes → OnOk result (All IsPlaced lists.new.nodes) }
    ensures grown { OnOk result (parts_in (seen_objects lists.new) ≤ parts_in (seen_objects lists.old) + object_bytes (seen_block block.now).objects) }
{
    let Some(table) = &block.texts else {
        return Err(ObjectFault::MissingField {
            at,
            number: BLOCK_STRINGTABLE,
        });
    };
    let mut texts = Texts::new(alloc, table)?;
    let scale = block_scale(block);
    let mut room = Room {
        lists: NumberLists::new(alloc),
        sums: Sums {
            ids: Vec::new(alloc),
            lats: Vec::new(alloc),
            lons: Vec::new(alloc),
        },
        kinds: Vec::new(alloc),
        tags: Vec::new(alloc),
        members: Vec::new(alloc),
    };
    for i in 0..block.objects.len() {
        add_object(
            alloc,
            &mut texts,
            scale,
            &block.objects[i],
            &mut room,
            lists,
        )?;
    }
    Ok(())
}
