//! How many there are, and how many there may be.

ghost use Rattle.std.specs.Prelude.{◌≡◌};
ghost use Rattle.osm_model.specs.Extract.{refs_in, members_in, tags_of_ways, tags_of_relations};
ghost use Rattle.osm_objects.specs.Seen.{seen_objects};
ghost use Rattle.osm_blocks.specs.Counts.{as_u64, counts_of, first_past};
ghost use Rattle.osm_blocks.specs.Steps.{counts_found};

use crate::fault::Counted;
use osm_model::{
    MOST_MEMBERS, MOST_NODES, MOST_REFS, MOST_RELATIONS, MOST_TAGS, MOST_WAYS, Relations, Ways,
};
use osm_objects::ObjectLists;

/// How many objects of each kind there are, and how many refs, members and tags they have. A count that is past the
/// greatest number of 64 bits is that number.
#[derive(Clone, Copy, Debug)]
pub struct Counts {
    pub nodes: u64,
    pub ways: u64,
    pub relations: u64,
    pub refs: u64,
    pub members: u64,
    pub tags: u64,
}

/// The refs and the tags of all ways.
fn count_ways(ways: &Ways) -> (u64, u64)
    ensures refs { result.0 ≡ as_u64 (refs_in ways.now) }
    ensures tags { result.1 ≡ as_u64 (tags_of_ways ways.now) }
{
    let mut refs = 0u64;
    let mut tags = 0u64;
    for i in 0..ways.len() {
        let way = ways.at(i);
        refs = refs.saturating_add(way.refs().len() as u64);
        tags = tags.saturating_add(way.tags().len() as u64);
    }
    (refs, tags)
}

/// The members and the tags of all relations.
fn count_relations(relations: &Relations) -> (u64, u64)
    ensures members { result.0 ≡ as_u64 (members_in relations.now) }
    ensures tags { result.1 ≡ as_u64 (tags_of_relations relations.now) }
{
    let mut members = 0u64;
    let mut tags = 0u64;
    for i in 0..relations.len() {
        let relation = relations.at(i);
        members = members.saturating_add(relation.members().len() as u64);
        tags = tags.saturating_add(relation.tags().len() as u64);
    }
    (members, tags)
}

/// Counts all objects, in one pass.
pub fn count(lists: &ObjectLists) -> Counts
    ensures { counts_found result ≡ counts_of (seen_objects lists.now) }
{
    let node_tags = lists.nodes.count_tags();
    let (refs, way_tags) = count_ways(&lists.ways);
    let (members, relation_tags) = count_relations(&lists.relations);
    Counts {
        nodes: lists.nodes.len() as u64,
        ways: lists.ways.len() as u64,
        relations: lists.relations.len() as u64,
        refs,
        members,
        tags: node_tags
            .saturating_add(way_tags)
            .saturating_add(relation_tags),
    }
}

/// The first count that is past its limit: of what, and how many were found.
pub fn first_past(counts: &Counts) -> Option<(Counted, u64)>
    ensures { result ≡ first_past (counts_found counts.now) }
{
    if counts.nodes > MOST_NODES {
        return Some((Counted::Nodes, counts.nodes));
    }
    if counts.ways > MOST_WAYS {
        return Some((Counted::Ways, counts.ways));
    }
    if counts.relations > MOST_RELATIONS {
        return Some((Counted::Relations, counts.relations));
    }
    if counts.refs > MOST_REFS {
        return Some((Counted::Refs, counts.refs));
    }
    if counts.members > MOST_MEMBERS {
        return Some((Counted::Members, counts.members));
    }
    if counts.tags > MOST_TAGS {
        return Some((Counted::Tags, counts.tags));
    }
    None
}
