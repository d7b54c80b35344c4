//! Roads of small extracts, cut by hand.

use osm_model::{Extract, Nodes, OsmNode, OsmWay, Refs, Relations, Tag, TagText, Tags, Ways};
use road_pieces::{CutFault, Roads, cut, list_agrees, turns_agree, walks_agree};
use std::alloc::{AllocError, Global};
use std::test::Fail;

/// A node on the first meridian, at this latitude in units.
fn node(alloc: Global, id: i64, lat: i32) -> OsmNode {
    OsmNode {
        id,
        lat,
        lon: 0,
        tags: Tags::new(alloc),
    }
}

/// A tag.
fn tag(alloc: Global, key: &str, value: &str) -> Result<Tag, AllocError> {
    Ok(Tag {
        key: TagText::from_str(alloc, key)?,
        value: TagText::from_str(alloc, value)?,
    })
}

/// Residential way 7 with these refs.
fn way(alloc: Global, refs: &[i64]) -> Result<OsmWay, AllocError> {
    let mut tags = Tags::new(alloc);
    tags.push(tag(alloc, "highway", "residential")?)?;
    let refs = Refs::from_vec(Vec::from_slice(alloc, refs)?);
    Ok(OsmWay { id: 7, tags, refs })
}

/// The extract of nodes 1 to 5, each 10,000 units north of the one before, and of the way with these refs.
fn with_refs(alloc: Global, refs: &[i64]) -> Result<Option<Extract>, AllocError> {
    let mut nodes = Nodes::new(alloc);
    for (id, lat) in [(1, 0), (2, 10_000), (3, 20_000), (4, 30_000), (5, 40_000)] {
        nodes.push(&node(alloc, id, lat))?;
    }
    let mut ways = Ways::new(alloc);
    ways.push(&way(alloc, refs)?)?;
    Ok(Extract::of_lists(nodes, ways, Relations::new(alloc)))
}

/// The ends and lengths of the pieces, in their order.
fn ends_of(alloc: Global, roads: &Roads) -> Result<Vec<(i64, i64, u64)>, AllocError> {
    let mut ends = Vec::new(alloc);
    for i in 0..roads.pieces.len() {
        let piece = roads.pieces.at(i);
        ends.push((piece.start(), piece.end(), piece.cm()))?;
    }
    Ok(ends)
}

#[test]
fn pieces(rt: HostRuntime) -> Result<(), Fail> {
    let alloc = rt.alloc();
    for (refs, ends, junctions, runs, missing) in [
        // node 2 stands at two places: a piece, and a loop over 3 and 4
        (
            [1, 2, 3, 4, 2].as_slice(),
            [(1, 2, 11_132), (2, 2, 44_528)].as_slice(),
            2,
            1,
            0,
        ),
        // equal neighbours are one
        ([1, 1, 2].as_slice(), [(1, 2, 11_132)].as_slice(), 2, 1, 0),
        ([1, 1].as_slice(), [].as_slice(), 0, 0, 0),
        // node 99 isn't there: two runs
        (
            [1, 2, 99, 3, 4].as_slice(),
            [(1, 2, 11_132), (3, 4, 11_132)].as_slice(),
            4,
            2,
            1,
        ),
        // two loops at one junction
        (
            [1, 2, 3, 1, 4, 5, 1].as_slice(),
            [(1, 1, 44_528), (1, 1, 89_056)].as_slice(),
            1,
            1,
            0,
        ),
    ] {
        let extract = with_refs(alloc, refs)?.ok_or("no extract")?;
        let roads = cut(alloc, &extract).ok().ok_or("refused")?;
        let found = ends_of(alloc, &roads)?;
        assert_eq!(rt; found.as_slice(), ends, "of {refs:?}");
        assert_eq!(rt;
            (roads.junctions.len(), roads.runs, roads.missing, roads.ways),
            (junctions, runs, missing, 1),
            "of {refs:?}"
        );
    }
    Ok(())
}

// A piece may have 268,435,455 cm, and not one more.
#[test]
fn longest_piece(rt: HostRuntime) -> Result<(), Fail> {
    let alloc = rt.alloc();
    for (lat, cm, fault) in [
        (241_138_569, Some(268_435_455), None),
        (
            241_138_570,
            None,
            Some(CutFault::EdgeTooLong {
                way: 7,
                run: 0,
                piece: 0,
                cm: 268_435_456,
            }),
        ),
    ] {
        let mut nodes = Nodes::new(alloc);
        nodes.push(&node(alloc, 1, 0))?;
        nodes.push(&node(alloc, 2, lat))?;
        let mut ways = Ways::new(alloc);
        ways.push(&way(alloc, &[1, 2])?)?;
        let extract = Extract::of_lists(nodes, ways, Relations::new(alloc)).ok_or("no extract")?;
        let roads = cut(alloc, &extract);
        assert_eq!(rt; roads.as_ref().err().copied(), fault, "to {lat}");
        let length = match &roads {
            Ok(roads) if roads.pieces.len() > 0 => Some(roads.pieces.at(0).cm()),
            _ => None,
        };
        assert_eq!(rt; length, cm, "to {lat}");
    }
    Ok(())
}

// A node with a barrier is a junction where it stands in a run, and `barrier=no` is none. Nodes 2 and 5
// have the tag; node 5 stands in no run.
#[test]
fn barriers(rt: HostRuntime) -> Result<(), Fail> {
    let alloc = rt.alloc();
    for (value, ends, junctions) in [
        (
            "gate",
            [(1, 2, 11_132), (2, 3, 11_132)].as_slice(),
            [(1, false), (2, true), (3, false)].as_slice(),
        ),
        (
            "no",
            [(1, 3, 22_264)].as_slice(),
            [(1, false), (3, false)].as_slice(),
        ),
    ] {
        let mut nodes = Nodes::new(alloc);
        for (id, lat) in [(1, 0), (2, 10_000), (3, 20_000), (5, 40_000)] {
            let mut made = node(alloc, id, lat);
            if id == 2 || id == 5 {
                made.tags.push(tag(alloc, "barrier", value)?)?;
            }
            nodes.push(&made)?;
        }
        let mut ways = Ways::new(alloc);
        ways.push(&way(alloc, &[1, 2, 3])?)?;
        let extract = Extract::of_lists(nodes, ways, Relations::new(alloc)).ok_or("no extract")?;
        let roads = cut(alloc, &extract).ok().ok_or("refused")?;
        let found = ends_of(alloc, &roads)?;
        assert_eq!(rt; found.as_slice(), ends, "of {value}");
        let mut crossings = Vec::new(alloc);
        for junction in roads.junctions.as_slice() {
            crossings.push((junction.osm, junction.barrier))?;
        }
        assert_eq!(rt; crossings.as_slice(), junctions, "of {value}");
    }
    Ok(())
}

/// How many refs name no node, and how many runs there are, of a way with these refs over nodes with these ids.
fn missing_and_runs(alloc: Global, ids: &[i64], refs: &[i64]) -> Result<(u64, u64), Fail> {
    let mut nodes = Nodes::new(alloc);
    for id in ids {
        nodes.push(&node(alloc, *id, 0))?;
    }
    let mut ways = Ways::new(alloc);
    ways.push(&way(alloc, refs)?)?;
    let extract = Extract::of_lists(nodes, ways, Relations::new(alloc)).ok_or("no extract")?;
    let roads = cut(alloc, &extract).ok().ok_or("refused")?;
    Ok((roads.missing, roads.runs))
}

// Refs below the first node's id, of nodes, between them and above the last, from the first to the last and back.
#[test]
fn refs_without_nodes(rt: HostRuntime) -> Result<(), Fail> {
    let alloc = rt.alloc();
    for (ids, refs, found) in [
        // no node
        ([].as_slice(), [i64::MIN, 0, i64::MAX].as_slice(), (3, 0)),
        // one
        (
            [5].as_slice(),
            [i64::MIN, 4, 5, 6, i64::MAX].as_slice(),
            (4, 0),
        ),
        // no gaps: the run 1, 2, 3, 4
        (
            [1, 2, 3, 4].as_slice(),
            [-1, 0, 1, 2, 3, 4, 5, 6].as_slice(),
            (4, 1),
        ),
        // nodes side by side in one bucket, the run 10, 11, 12, and one far off
        (
            [10, 11, 12, 1_000].as_slice(),
            [9, 10, 11, 12, 13, 500, 999, 1_000, 1_001].as_slice(),
            (5, 1),
        ),
        // ids below 0, with the run -3, 0, 4
        (
            [-700, -3, 0, 4].as_slice(),
            [-1_404, -701, -700, -699, -4, -3, 0, 4, 5].as_slice(),
            (5, 1),
        ),
        // all ids that there are, from end to end
        (
            [i64::MIN, i64::MAX].as_slice(),
            [i64::MIN, i64::MIN + 1, -1, 0, i64::MAX - 1, i64::MAX].as_slice(),
            (4, 0),
        ),
        // the run -1, 0
        (
            [i64::MIN, -1, 0, i64::MAX].as_slice(),
            [i64::MIN, -2, -1, 0, 1, i64::MAX - 1, i64::MAX].as_slice(),
            (3, 1),
        ),
    ] {
        let mut back = Vec::from_slice(alloc, refs)?;
        back.reverse();
        let forth = missing_and_runs(alloc, ids, refs)?;
        assert!(rt; forth == found, "of {refs:?} in {ids:?}");
        let again = missing_and_runs(alloc, ids, back.as_slice())?;
        assert!(rt; again == found, "of {refs:?} in {ids:?}, backwards");
    }
    Ok(())
}

// Each place of the refs 1, 2, 1, 2, .. is a junction.
#[test]
fn most_pieces(rt: HostRuntime) -> Result<(), Fail> {
    let alloc = rt.alloc();
    let mut refs = Vec::with_capacity(alloc, 4_000_002)?;
    for _ in 0..2_000_001 {
        refs.push(1)?;
        refs.push(2)?;
    }
    let extract = with_refs(alloc, refs.as_slice())?.ok_or("no extract")?;
    let fault = cut(alloc, &extract).err();
    assert_eq!(rt; fault, Some(CutFault::TooManyPieces { count: 4_000_001 }));
    Ok(())
}

#[test]
fn texts(rt: HostRuntime) -> Result<(), Fail> {
    for (fault, text) in [
        (
            CutFault::TooManyPieces { count: 4_000_001 },
            "Pieces count=4000001",
        ),
        (
            CutFault::EdgeTooLong {
                way: -7,
                run: 1,
                piece: 2,
                cm: 268_435_456,
            },
            "EdgeTooLong way=-7 run=1 piece=2 cm=268435456",
        ),
        (CutFault::OutOfMemory, "OutOfMemory"),
    ] {
        let said = fault.to_string(rt.alloc())?;
        assert_eq!(rt; said.as_str(), text);
    }
    Ok(())
}

// The laws hold for all that they name; a call takes nothing and does nothing.
#[test]
fn laws() {
    walks_agree();
    turns_agree();
    list_agrees();
}
