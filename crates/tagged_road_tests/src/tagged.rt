//! Roads of small extracts with tags, cut by hand: classes, access, names, barriers.

use osm_model::{Extract, Nodes, OsmNode, OsmWay, Refs, Relations, Tag, TagText, Tags, Ways};
use road_pieces::{Roads, cut};
use std::alloc::{AllocError, Global};
use std::test::Fail;

/// A key and its value.
type Pair<'a> = (&'a str, &'a str);

/// Way, start, end, class, and the modes forward and backward of a piece.
type Told = (i64, i64, i64, u8, u16, u16);

/// Tags of these keys and values.
fn tags_of(alloc: Global, pairs: &[Pair<'_>]) -> Result<Tags, AllocError> {
    let mut tags = Tags::new(alloc);
    for (key, value) in pairs {
        tags.push(Tag {
            key: TagText::from_str(alloc, key)?,
            value: TagText::from_str(alloc, value)?,
        })?;
    }
    Ok(tags)
}

/// Nodes 1 to 5, each 10,000 units north of the one before; the one with that id has these tags.
fn nodes_of(alloc: Global, tagged: i64, pairs: &[Pair<'_>]) -> Result<Nodes, AllocError> {
    let mut nodes = Nodes::new(alloc);
    for (id, lat) in [(1, 0), (2, 10_000), (3, 20_000), (4, 30_000), (5, 40_000)] {
        let tags = if id == tagged {
            tags_of(alloc, pairs)?
        } else {
            Tags::new(alloc)
        };
        nodes.push(&OsmNode {
            id,
            lat,
            lon: 0,
            tags,
        })?;
    }
    Ok(nodes)
}

/// A way with these refs and tags.
fn way_of(alloc: Global, id: i64, refs: &[i64], pairs: &[Pair<'_>]) -> Result<OsmWay, AllocError> {
    let refs = Refs::from_vec(Vec::from_slice(alloc, refs)?);
    let tags = tags_of(alloc, pairs)?;
    Ok(OsmWay { id, tags, refs })
}

/// The roads of way 7 with these refs and tags over nodes 1 to 5, of which that one has these tags.
fn roads_of(
    alloc: Global,
    tagged: i64,
    node: &[Pair<'_>],
    refs: &[i64],
    way: &[Pair<'_>],
) -> Result<Option<Roads>, AllocError> {
    let mut ways = Ways::new(alloc);
    ways.push(&way_of(alloc, 7, refs, way)?)?;
    let nodes = nodes_of(alloc, tagged, node)?;
    Ok(cut_lists(alloc, nodes, ways))
}

/// The roads of these nodes and ways.
fn cut_lists(alloc: Global, nodes: Nodes, ways: Ways) -> Option<Roads> {
    let extract = Extract::of_lists(nodes, ways, Relations::new(alloc))?;
    cut(alloc, &extract).ok()
}

/// Whether the pieces are these, in their order.
fn pieces_are(roads: &Roads, pieces: &[Told]) -> bool {
    if roads.pieces.len() != pieces.len() {
        return false;
    }
    for i in 0..pieces.len() {
        let piece = roads.pieces.at(i);
        let told = (
            piece.key().way,
            piece.start(),
            piece.end(),
            piece.class(),
            piece.forward(),
            piece.backward(),
        );
        if told != pieces[i] {
            return false;
        }
    }
    true
}

/// Whether each piece of that way has these names.
fn names_are(roads: &Roads, way: i64, names: &[&str]) -> bool {
    for i in 0..roads.pieces.len() {
        let piece = roads.pieces.at(i);
        if piece.key().way == way {
            let found = piece.names();
            if found.len() != names.len() {
                return false;
            }
            for k in 0..names.len() {
                if found.at(k) != names[k] {
                    return false;
                }
            }
        }
    }
    true
}

/// Whether the junctions have these ids, modes that may pass, and barriers.
fn junctions_are(roads: &Roads, junctions: &[(i64, u16, bool)]) -> bool {
    let found = roads.junctions.as_slice();
    if found.len() != junctions.len() {
        return false;
    }
    for i in 0..junctions.len() {
        if (found[i].osm, found[i].access, found[i].barrier) != junctions[i] {
            return false;
        }
    }
    true
}

// Footway 5 and primary way 7 cross at node 2; the modes are 2, pedestrians, and 79, all.
#[test]
fn footway_and_primary(rt: HostRuntime) -> Result<(), Fail> {
    let alloc = rt.alloc();
    let mut ways = Ways::new(alloc);
    let footway = [("highway", "footway"), ("name", "Gartenweg")];
    ways.push(&way_of(alloc, 5, &[4, 2, 5], &footway)?)?;
    let primary = [
        ("ref", "B 1"),
        ("highway", "primary"),
        ("name", "Lange Straße"),
    ];
    ways.push(&way_of(alloc, 7, &[1, 2, 3], &primary)?)?;
    let roads = cut_lists(alloc, nodes_of(alloc, 0, &[])?, ways).ok_or("refused")?;
    let pieces = [
        (5, 4, 2, 7, 2, 2),
        (5, 2, 5, 7, 2, 2),
        (7, 1, 2, 2, 79, 79),
        (7, 2, 3, 2, 79, 79),
    ];
    assert!(rt; pieces_are(&roads, &pieces));
    assert!(rt; names_are(&roads, 5, &["Gartenweg"]));
    assert!(rt; names_are(&roads, 7, &["Lange Straße", "B 1"]));
    assert_eq!(rt; (roads.ways, roads.runs, roads.missing), (2, 2, 0));
    Ok(())
}

// A bollard at node 2 lets pedestrians and bicycles pass, 6, and cuts the run there.
#[test]
fn barrier_in_a_run(rt: HostRuntime) -> Result<(), Fail> {
    let way = [("highway", "residential")];
    let roads = roads_of(rt.alloc(), 2, &[("barrier", "bollard")], &[1, 2, 3], &way)?;
    let roads = roads.ok_or("refused")?;
    assert!(rt; pieces_are(&roads, &[(7, 1, 2, 6, 79, 79), (7, 2, 3, 6, 79, 79)]));
    assert!(rt; junctions_are(&roads, &[(1, 79, false), (2, 6, true), (3, 79, false)]));
    Ok(())
}

// A private gate at the end of a run is closed to all: the piece still ends there.
#[test]
fn closed_node_at_the_end_of_a_run(rt: HostRuntime) -> Result<(), Fail> {
    let gate = [("barrier", "gate"), ("access", "private")];
    let way = [("highway", "service"), ("motor_vehicle", "no")];
    let roads = roads_of(rt.alloc(), 3, &gate, &[1, 2, 3], &way)?.ok_or("refused")?;
    assert!(rt; pieces_are(&roads, &[(7, 1, 3, 7, 6, 6)]));
    assert!(rt; junctions_are(&roads, &[(1, 79, false), (3, 0, true)]));
    Ok(())
}

// An area is no road, and its refs without a node aren't counted.
#[test]
fn area(rt: HostRuntime) -> Result<(), Fail> {
    let way = [("highway", "pedestrian"), ("area", "yes")];
    let roads = roads_of(rt.alloc(), 0, &[], &[1, 2, 99, 1], &way)?.ok_or("refused")?;
    assert!(rt; pieces_are(&roads, &[]) && junctions_are(&roads, &[]));
    assert_eq!(rt; (roads.ways, roads.runs, roads.missing), (0, 0, 0));
    Ok(())
}

// A primary way that meets node 1 three times: one junction, two loops.
#[test]
fn loops(rt: HostRuntime) -> Result<(), Fail> {
    let way = [("highway", "primary"), ("name", ""), ("ref", "B 2")];
    let roads = roads_of(rt.alloc(), 0, &[], &[1, 2, 3, 1, 4, 5, 1], &way)?;
    let roads = roads.ok_or("refused")?;
    assert!(rt; pieces_are(&roads, &[(7, 1, 1, 2, 79, 79), (7, 1, 1, 2, 79, 79)]));
    assert!(rt; junctions_are(&roads, &[(1, 79, false)]) && names_are(&roads, 7, &["B 2"]));
    Ok(())
}

// Against the refs alone: bicycles and pedestrians may go along them too. A motorway is for motor vehicles, one way.
#[test]
fn one_way(rt: HostRuntime) -> Result<(), Fail> {
    let alloc = rt.alloc();
    let back = [
        ("highway", "residential"),
        ("oneway", "-1"),
        ("oneway:bicycle", "no"),
    ];
    let roads = roads_of(alloc, 0, &[], &[1, 2], &back)?.ok_or("refused")?;
    assert!(rt; pieces_are(&roads, &[(7, 1, 2, 6, 6, 79)]));
    let motorway = [("highway", "motorway")];
    let roads = roads_of(alloc, 0, &[], &[1, 2], &motorway)?.ok_or("refused")?;
    assert!(rt; pieces_are(&roads, &[(7, 1, 2, 0, 73, 0)]) && names_are(&roads, 7, &[]));
    Ok(())
}
