//! One extract in several spellings: each gives the same objects.
//!
//! Node 1 at latitude 3 and longitude -4, node 2 at 5 and 6 with `barrier=gate`; way 7 over 1, 2, 1 with
//! `highway=residential`; relation 9 of node 1 and of way 7 in the role `gate`, with `type=route`.

use host_port::{Bytes, Host, MemHost, Text};
use osm_blocks::read_extract;
use osm_model::{Extract, MemberKind, MembersView};
use std::alloc::{AllocError, Global};
use std::test::Fail;

// A header block that requires `OsmSchema-V0.6`.
const HEADER: [u8; 35] =
    *b"\x00\x00\x00\x0d\x0a\x09OSMHeader\x18\x12\x0a\x10\x22\x0eOsmSchema-V0.6";

// A dense message; all lists are packed.
const DENSE_PACKED: [u8; 134] =
    *b"\x00\x00\x00\x0b\x0a\x07OSMData\x18\x77\x0a\x75\x0a\x34\x0a\x00\x0a\x07highway\x0a\x0bresidential\x0a\x07barrier\x0a\x04gate\x0a\x04type\x0a\x05route\x12\x14\x12\x12\x0a\x02\x02\x02\x42\x02\x06\x04\x4a\x02\x07\x14\x52\x04\x00\x03\x04\x00\x12\x0f\x1a\x0d\x08\x07\x12\x01\x01\x1a\x01\x02\x42\x03\x02\x02\x01\x12\x16\x22\x14\x08\x09\x12\x01\x05\x1a\x01\x06\x42\x02\x00\x04\x4a\x02\x02\x0c\x52\x02\x00\x01";

// Nodes one by one; each number of a list is a field of its own.
const NODES_UNPACKED: [u8; 131] =
    *b"\x00\x00\x00\x0b\x0a\x07OSMData\x18\x74\x0a\x72\x0a\x34\x0a\x00\x0a\x07highway\x0a\x0bresidential\x0a\x07barrier\x0a\x04gate\x0a\x04type\x0a\x05route\x12\x14\x0a\x06\x08\x02\x40\x06\x48\x07\x0a\x0a\x08\x04\x10\x03\x18\x04\x40\x0a\x48\x0c\x12\x0e\x1a\x0c\x08\x07\x10\x01\x18\x02\x40\x02\x40\x02\x40\x01\x12\x14\x22\x12\x08\x09\x10\x05\x18\x06\x40\x00\x40\x04\x48\x02\x48\x0c\x50\x00\x50\x01";

// A dense message without packed lists; refs partly packed, and fields in another order.
const DENSE_UNPACKED: [u8; 138] =
    *b"\x00\x00\x00\x0b\x0a\x07OSMData\x18\x7b\x0a\x79\x0a\x34\x0a\x00\x0a\x07highway\x0a\x0bresidential\x0a\x07barrier\x0a\x04gate\x0a\x04type\x0a\x05route\x12\x16\x12\x14\x08\x02\x08\x02\x40\x06\x40\x04\x48\x07\x48\x14\x50\x00\x50\x03\x50\x04\x50\x00\x12\x12\x1a\x10\x42\x01\x02\x40\x02\x42\x01\x01\x1a\x01\x02\x12\x01\x01\x08\x07\x12\x15\x22\x13\x08\x09\x12\x01\x05\x18\x06\x42\x02\x00\x04\x48\x02\x48\x0c\x52\x02\x00\x01";

// Nodes with packed lists; the relation comes first, and the string table last.
const NODES_PACKED: [u8; 134] =
    *b"\x00\x00\x00\x0b\x0a\x07OSMData\x18\x77\x0a\x75\x12\x25\x22\x14\x08\x09\x12\x01\x05\x1a\x01\x06\x42\x02\x00\x04\x4a\x02\x02\x0c\x52\x02\x00\x01\x1a\x0d\x08\x07\x12\x01\x01\x1a\x01\x02\x42\x03\x02\x02\x01\x12\x16\x0a\x06\x08\x02\x40\x06\x48\x07\x0a\x0c\x08\x04\x12\x01\x03\x1a\x01\x04\x40\x0a\x48\x0c\x0a\x34\x0a\x00\x0a\x07highway\x0a\x0bresidential\x0a\x07barrier\x0a\x04gate\x0a\x04type\x0a\x05route";

// The extract of the header and this data block.
fn extract_of(alloc: Global, data: &[u8]) -> Result<Option<Extract>, AllocError> {
    let mut bytes = Vec::from_slice(alloc, HEADER.as_slice())?;
    bytes.extend_from_slice(data)?;
    let mut files = Vec::new(alloc);
    files.push((Text::from_str(alloc, "in.pbf")?, Bytes::from(bytes)))?;
    let mut host = MemHost::new(alloc, files, Vec::new(alloc), 65_536);
    if host.open_input("in.pbf").is_err() {
        return Ok(None);
    }
    Ok(read_extract(alloc, &mut host).ok())
}

fn has_its_nodes(extract: &Extract) -> bool {
    let nodes = &extract.nodes;
    if nodes.len() != 2 {
        return false;
    }
    let one = nodes.at(0);
    let two = nodes.at(1);
    (one.id(), one.lat(), one.lon()) == (1, 3, -4)
        && one.tags().is_empty()
        && (two.id(), two.lat(), two.lon()) == (2, 5, 6)
        && two.tags().value("barrier") == Some("gate")
}

fn has_its_way(extract: &Extract) -> bool {
    let ways = &extract.ways;
    if ways.len() != 1 {
        return false;
    }
    let way = ways.at(0);
    way.id() == 7
        && way.refs() == [1, 2, 1].as_slice()
        && way.tags().value("highway") == Some("residential")
}

fn has_its_members(members: &MembersView<'_>) -> bool {
    if members.len() != 2 {
        return false;
    }
    let node = members.at(0);
    let way = members.at(1);
    node.kind() == MemberKind::Node
        && node.id() == 1
        && node.role().is_empty()
        && way.kind() == MemberKind::Way
        && way.id() == 7
        && way.role() == "gate"
}

fn has_its_relation(extract: &Extract) -> bool {
    let relations = &extract.relations;
    if relations.len() != 1 {
        return false;
    }
    let relation = relations.at(0);
    relation.id() == 9
        && relation.tags().value("type") == Some("route")
        && has_its_members(relation.members())
}

// What of the extract is as it should be: its nodes, its way, its relation.
fn found(alloc: Global, data: &[u8]) -> Result<(bool, bool, bool), AllocError> {
    match extract_of(alloc, data)? {
        Some(extract) => Ok((
            has_its_nodes(&extract),
            has_its_way(&extract),
            has_its_relation(&extract),
        )),
        None => Ok((false, false, false)),
    }
}

#[test]
fn each_spelling(rt: HostRuntime) -> Result<(), Fail> {
    for (spelling, data) in [
        ("dense, packed", DENSE_PACKED.as_slice()),
        ("nodes, not packed", NODES_UNPACKED.as_slice()),
        ("dense, not packed", DENSE_UNPACKED.as_slice()),
        ("nodes, packed", NODES_PACKED.as_slice()),
    ] {
        assert_eq!(rt; found(rt.alloc(), data)?, (true, true, true), "{spelling}");
    }
    Ok(())
}
