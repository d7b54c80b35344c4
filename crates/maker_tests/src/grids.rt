use extract_maker::{can_be_made, make_extract};
use host_port::{Host, MemHost, Text};
use osm_blocks::read_extract;
use osm_model::{Extract, MemberKind, RelationView, WayView};
use std::alloc::{AllocError, Global};
use std::test::Fail;

// What a reader finds in the grid's file; nothing where no such grid is made.
fn extract_of(alloc: Global, side: u64, seed: u64) -> Result<Option<Extract>, AllocError> {
    if !can_be_made(side, seed) {
        return Ok(None);
    }
    let file = make_extract(alloc, side, seed)?;
    let mut files = Vec::new(alloc);
    files.push((Text::from_str(alloc, "grid.pbf")?, file))?;
    let mut host = MemHost::new(alloc, files, Vec::new(alloc), 65_536);
    if host.open_input("grid.pbf").is_err() {
        return Ok(None);
    }
    Ok(read_extract(alloc, &mut host).ok())
}

// How many nodes, ways and relations the grid has.
fn counts(alloc: Global, side: u64, seed: u64) -> Result<Option<[usize; 3]>, AllocError> {
    match extract_of(alloc, side, seed)? {
        Some(extract) => Ok(Some([
            extract.nodes.len(),
            extract.ways.len(),
            extract.relations.len(),
        ])),
        None => Ok(None),
    }
}

fn is_road(way: &WayView<'_>, id: i64, class: &str, name: &str, refs: &[i64]) -> bool {
    way.id() == id
        && way.tags().value("highway") == Some(class)
        && way.tags().value("name") == Some(name)
        && way.refs() == refs
}

// Whether it is a turn from one way onto another at a node, in these roles.
fn is_turn(relation: &RelationView<'_>, id: i64, kind: &str, ids: [i64; 3]) -> bool {
    let members = relation.members();
    if members.len() != 3 {
        return false;
    }
    let from = members.at(0);
    let via = members.at(1);
    let to = members.at(2);
    relation.id() == id
        && relation.tags().value("type") == Some("restriction")
        && relation.tags().value("restriction") == Some(kind)
        && (from.role(), from.id()) == ("from", ids[0])
        && (via.role(), via.id()) == ("via", ids[1])
        && (to.role(), to.id()) == ("to", ids[2])
        && from.kind() == MemberKind::Way
        && via.kind() == MemberKind::Node
        && to.kind() == MemberKind::Way
}

// The places of the four nodes of a grid of side 2.
fn has_its_nodes(extract: &Extract) -> bool {
    let nodes = &extract.nodes;
    let places = [(0, 0), (0, 10_000), (10_000, 0), (10_000, 10_000)];
    if nodes.len() != 4 {
        return false;
    }
    for (i, (lat, lon)) in places.iter().enumerate() {
        let node = nodes.at(i);
        if (node.id(), node.lat(), node.lon()) != (i as i64 + 1, *lat, *lon) {
            return false;
        }
    }
    true
}

fn has_its_roads(extract: &Extract) -> bool {
    let ways = &extract.ways;
    ways.len() == 4
        && is_road(&ways.at(0), 1_000_000, "primary", "R0", &[1, 2])
        && is_road(&ways.at(1), 1_000_001, "residential", "R1", &[3, 4])
        && is_road(&ways.at(2), 2_000_000, "trunk", "C0", &[1, 3])
        && is_road(&ways.at(3), 2_000_001, "unclassified", "C1", &[2, 4])
}

fn has_its_turns(extract: &Extract) -> bool {
    let turns = &extract.relations;
    turns.len() == 2
        && is_turn(
            &turns.at(0),
            3_000_000,
            "only_right_turn",
            [1_000_000, 1, 2_000_000],
        )
        && is_turn(
            &turns.at(1),
            3_000_001,
            "no_left_turn",
            [1_000_001, 4, 2_000_001],
        )
}

// For seed 1 the first two draws are 16838 and 5758: an only_right_turn at node 1, and a no_left_turn at node 4.
#[test]
fn smallest(rt: HostRuntime) -> Result<(), Fail> {
    let found = match extract_of(rt.alloc(), 2, 1)? {
        Some(extract) => [
            has_its_nodes(&extract),
            has_its_roads(&extract),
            has_its_turns(&extract),
        ],
        None => [false, false, false],
    };
    assert_eq!(rt; found, [true, true, true]);
    Ok(())
}

// Whether the way at this index has this value for a key.
fn way_has(extract: &Extract, i: usize, key: &str, value: &str) -> bool {
    i < extract.ways.len() && extract.ways.at(i).tags().value(key) == Some(value)
}

// Classes and names of a wider grid, by the table of classes.
#[test]
fn classes(rt: HostRuntime) -> Result<(), Fail> {
    let found = match extract_of(rt.alloc(), 17, 0)? {
        Some(extract) => [
            way_has(&extract, 4, "highway", "secondary"),
            way_has(&extract, 8, "highway", "primary"),
            way_has(&extract, 12, "name", "R12"),
            way_has(&extract, 33, "highway", "trunk"),
            way_has(&extract, 33, "name", "C16"),
        ],
        None => [false; 5],
    };
    assert_eq!(rt; found, [true; 5]);
    Ok(())
}

// The largest grid.
#[test]
fn largest(rt: HostRuntime) -> Result<(), Fail> {
    let found = counts(rt.alloc(), 500, 2_147_483_647)?;
    assert_eq!(rt;
        found.map(|counts| [counts[0], counts[1]]),
        Some([250_000, 1_000])
    );
    Ok(())
}

// Sides and seeds of which no grid is made.
#[test]
fn refused(rt: HostRuntime) {
    for (side, seed, made) in [
        (0, 1, false),
        (1, 1, false),
        (2, 1, true),
        (500, 1, true),
        (501, 1, false),
        (2, 2_147_483_647, true),
        (2, 2_147_483_648, false),
    ] {
        assert_eq!(rt; can_be_made(side, seed), made, "{side} {seed}");
    }
}
