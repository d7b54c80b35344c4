//! Nodes, one by one.
ghost use Rattle.osm_messages.specs.RawNumbers.{seen_raw_node};
ghost use Rattle.std.specs.Prelude.{◌≡◌};
ghost use Rattle.osm_objects.specs.Nodes.{decoded_node};
ghost use Rattle.osm_objects.specs.Answers.{Answers};
ghost use Rattle.osm_objects.specs.Seen.{table_of, node_with};

use crate::fault::ObjectFault;
use crate::parts::{check_even, one_number};
use crate::scale::Scale;
use crate::tags::read_tags;
use crate::texts::Texts;
use osm_messages::RawNode;
use osm_messages::fields::{NODE_ID, NODE_LAT, NODE_LON};
use osm_model::Tag;
use std::alloc::Global;
use wire_read::unzigzag;

/// A node's id and place.
#[derive(Drop)]
pub struct Spot {
    pub id: i64,
    pub lat: i32,
    pub lon: i32,
}

#[tactic(auto, unfolding(crate::specs::Nodes::decoded_node))]
/// Decodes a node, whose first byte stands at `at`. Its tags are put into the list, in place of what it held.
pub fn read_node(
    alloc: Global,
    texts: &mut Texts<'_>,
    scale: Scale,
    at: u64,
    node: &RawNode<'_>,
    tags: &mut Vec<Tag>,
) -> Result<Spot, ObjectFault>
    ensures node { Answers (λ spot. node_with spot tags.new.items) result (decoded_node (table_of texts.old) scale at (seen_raw_node node.now)) }
    ensures table { table_of texts.new ≡ table_of texts.old }
{
    let id = unzigzag(one_number(at, NODE_ID, node.id)?);
    let lat = unzigzag(one_number(at, NODE_LAT, node.lat)?);
    let lon = unzigzag(one_number(at, NODE_LON, node.lon)?);
    check_even(at, node.keys, node.vals)?;
    read_tags(alloc, texts, at, node.keys, node.vals, tags)?;
    match scale.place(lat, lon) {
        Some((lat, lon)) => Ok(Spot { id, lat, lon }),
        None => Err(ObjectFault::BadCoordinate { id }),
    }
}
