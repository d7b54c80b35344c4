//! Base tiles of small extracts, cut by hand.

use edge_builder::{BaseFault, base_tiles, extract_roads};
use fixed_geo::Point;
use osm_model::{Extract, Nodes, OsmNode, OsmWay, Refs, Relations, Tag, TagText, Tags, Ways};
use road_pieces::{DirKey, Junction, PieceKey, cut};
use std::alloc::{AllocError, Global};
use std::test::Fail;
use work_tile::{NodeView, TileRows, WorkEdge, WorkTile};

/// The tile that begins where the equator meets the first meridian, and the one to the east of it.
const WEST: u32 = 519_120;

const EAST: u32 = 519_121;

/// An edge, with the number of its tile and the id of the node where it starts.
type Told = (u32, i64, WorkEdge);

/// A residential way with these refs, to be used along them alone where it is one way.
fn way(alloc: Global, id: i64, refs: &[i64], one_way: bool) -> Result<OsmWay, AllocError> {
    let mut tags = Tags::new(alloc);
    tags.push(Tag {
        key: TagText::from_str(alloc, "highway")?,
        value: TagText::from_str(alloc, "residential")?,
    })?;
    if one_way {
        tags.push(Tag {
            key: TagText::from_str(alloc, "oneway")?,
            value: TagText::from_str(alloc, "yes")?,
        })?;
    }
    let refs = Refs::from_vec(Vec::from_slice(alloc, refs)?);
    Ok(OsmWay { id, tags, refs })
}

/// Nodes 1 to 3 in the western tile, each 10,000 units east of the one before, and node 4 in the eastern one.
fn nodes(alloc: Global) -> Result<Nodes, AllocError> {
    let mut nodes = Nodes::new(alloc);
    for (id, lon) in [(1, 0), (2, 10_000), (3, 20_000), (4, 2_510_000)] {
        nodes.push(&OsmNode {
            id,
            lat: 0,
            lon,
            tags: Tags::new(alloc),
        })?;
    }
    Ok(nodes)
}

/// The base tiles of the roads of an extract, and `None` where these are refused.
fn tiles_of(alloc: Global, extract: &Extract) -> Option<Result<Vec<WorkTile>, BaseFault>> {
    extract_roads();
    match cut(alloc, extract) {
        Ok(roads) => Some(base_tiles(alloc, &roads)),
        Err(_) => None,
    }
}

/// Puts the edges of a node behind the others.
fn add_edges(rows: &mut Vec<Told>, tile: u32, node: &NodeView<'_>) -> Result<(), AllocError> {
    for k in 0..node.edges_len() {
        rows.push((tile, node.osm(), node.edge(k)))?;
    }
    Ok(())
}

/// Puts the edges of a tile behind the others.
fn add_rows(rows: &mut Vec<Told>, tile: &TileRows) -> Result<(), AllocError> {
    for i in 0..tile.nodes_len() {
        add_edges(rows, tile.tile(), &tile.node(i))?;
    }
    Ok(())
}

/// The edges of the base tiles of these ways, in order, and `None` where there are none.
fn edges_of(alloc: Global, ways: Ways) -> Result<Option<Vec<Told>>, AllocError> {
    let Some(extract) = Extract::of_lists(nodes(alloc)?, ways, Relations::new(alloc)) else {
        return Ok(None);
    };
    let Some(Ok(tiles)) = tiles_of(alloc, &extract) else {
        return Ok(None);
    };
    let mut rows = Vec::new(alloc);
    for tile in tiles.as_slice() {
        add_rows(&mut rows, tile.rows())?;
    }
    Ok(Some(rows))
}

/// The directed edge of a way's first piece, which is the first of all pieces, for all modes in both directions.
fn edge(way: i64, forward: bool, end: i64, cm: u32, local: u8) -> WorkEdge {
    WorkEdge {
        key: DirKey {
            key: PieceKey {
                way,
                run: 0,
                piece: 0,
            },
            forward,
        },
        place: 0,
        end,
        end_tile: WEST,
        cm,
        local,
        forward_access: 79,
        reverse_access: 79,
        class: 6,
        mask: 0,
        flagged: false,
        consistency: 0,
        not_thru: false,
    }
}

/// That edge, where it ends in that tile and may be used so by its modes.
fn across(edge: WorkEdge, end_tile: u32, forward_access: u16, reverse_access: u16) -> WorkEdge {
    WorkEdge {
        end_tile,
        forward_access,
        reverse_access,
        ..edge
    }
}

/// That edge, where its piece is the second of all pieces.
fn second(edge: WorkEdge) -> WorkEdge {
    WorkEdge { place: 1, ..edge }
}

// A way over two tiles, one way: pedestrians alone may go against it. 2,510,000 units are 2,794,132 cm.
#[test]
fn two_tiles(rt: HostRuntime) -> Result<(), Fail> {
    let alloc = rt.alloc();
    for (refs, forward) in [([1, 4].as_slice(), true), ([4, 1].as_slice(), false)] {
        let mut ways = Ways::new(alloc);
        ways.push(&way(alloc, 7, refs, true)?)?;
        let (along, against) = if forward { (79, 2) } else { (2, 79) };
        let there = across(edge(7, forward, 4, 2_794_132, 0), EAST, along, against);
        let back = across(edge(7, !forward, 1, 2_794_132, 0), WEST, against, along);
        let rows = edges_of(alloc, ways)?.ok_or("no tiles")?;
        assert_eq!(rt;
            rows.as_slice(),
            [(WEST, 1, there), (EAST, 4, back)].as_slice()
        );
    }
    Ok(())
}

// Both edges of a loop start at its junction.
#[test]
fn a_loop(rt: HostRuntime) -> Result<(), Fail> {
    let alloc = rt.alloc();
    let mut ways = Ways::new(alloc);
    ways.push(&way(alloc, 7, &[1, 2, 3, 1], false)?)?;
    let rows = edges_of(alloc, ways)?.ok_or("no tiles")?;
    let told = [
        (WEST, 1, edge(7, true, 1, 44_528, 0)),
        (WEST, 1, edge(7, false, 1, 44_528, 1)),
    ];
    assert_eq!(rt; rows.as_slice(), told.as_slice());
    Ok(())
}

// Two pieces between the same junctions, by way id.
#[test]
fn two_ways(rt: HostRuntime) -> Result<(), Fail> {
    let alloc = rt.alloc();
    let mut ways = Ways::new(alloc);
    ways.push(&way(alloc, 7, &[1, 2], false)?)?;
    ways.push(&way(alloc, 8, &[1, 3, 2], false)?)?;
    let rows = edges_of(alloc, ways)?.ok_or("no tiles")?;
    let told = [
        (WEST, 1, edge(7, true, 2, 11_132, 0)),
        (WEST, 1, second(edge(8, true, 2, 33_396, 1))),
        (WEST, 2, edge(7, false, 1, 11_132, 0)),
        (WEST, 2, second(edge(8, false, 1, 33_396, 1))),
    ];
    assert_eq!(rt; rows.as_slice(), told.as_slice());
    Ok(())
}

/// A node where the equator meets the first meridian.
fn node_at_zero(alloc: Global, id: i64) -> OsmNode {
    OsmNode {
        id,
        lat: 0,
        lon: 0,
        tags: Tags::new(alloc),
    }
}

/// The extract of node 1 and so many ways from it, each to a node of its own; all nodes lie at one place.
fn star(alloc: Global, ways: u32) -> Result<Option<Extract>, AllocError> {
    let mut nodes = Nodes::new(alloc);
    let mut spokes = Ways::new(alloc);
    nodes.push(&node_at_zero(alloc, 1))?;
    for id in 0..ways {
        let end = i64::from(id) + 2;
        nodes.push(&node_at_zero(alloc, end))?;
        spokes.push(&way(alloc, i64::from(id), &[1, end], false)?)?;
    }
    Ok(Extract::of_lists(nodes, spokes, Relations::new(alloc)))
}

// A junction has 127 base edges, and not one more.
#[test]
fn most_edges(rt: HostRuntime) -> Result<(), Fail> {
    let alloc = rt.alloc();
    for (count, fault) in [
        (127, None),
        (
            128,
            Some(BaseFault::TooManyEdges {
                node: 1,
                count: 128,
            }),
        ),
    ] {
        let extract = star(alloc, count)?.ok_or("no extract")?;
        let tiles = tiles_of(alloc, &extract).ok_or("refused")?;
        assert_eq!(rt; tiles.err(), fault, "of {count}");
    }
    Ok(())
}

/// The node of a tile without its edges.
fn junction_at(tiles: &[WorkTile], tile: usize, node: usize) -> Option<Junction> {
    if tile >= tiles.len() {
        return None;
    }
    let rows = tiles[tile].rows();
    if node >= rows.nodes_len() {
        return None;
    }
    Some(rows.node(node).junction())
}

// The nodes have what their junctions have.
#[test]
fn junctions(rt: HostRuntime) -> Result<(), Fail> {
    let alloc = rt.alloc();
    let mut ways = Ways::new(alloc);
    ways.push(&way(alloc, 7, &[1, 4], false)?)?;
    let extract = Extract::of_lists(nodes(alloc)?, ways, Relations::new(alloc)).ok_or(
        "no extract",
    )?;
    let tiles = tiles_of(alloc, &extract)
        .ok_or("refused")?
        .ok()
        .ok_or("crowded")?;
    let east = Junction {
        osm: 4,
        at: Point {
            lat: 0,
            lon: 2_510_000,
        },
        access: 79,
        barrier: false,
    };
    assert_eq!(rt; junction_at(tiles.as_slice(), 1, 0), Some(east));
    Ok(())
}
