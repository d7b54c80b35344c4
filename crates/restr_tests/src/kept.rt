//! Which pieces of three ways between two nodes are kept.

use complex_restr::kept_pieces;
use osm_model::{Extract, Nodes, OsmNode, OsmWay, Refs, Relations, Tag, TagText, Tags, Ways};
use road_pieces::cut;
use std::alloc::{AllocError, Global};
use std::test::Fail;

/// A way of this kind between the two nodes.
fn way(alloc: Global, id: i64, highway: &str) -> Result<OsmWay, AllocError> {
    let mut tags = Tags::new(alloc);
    tags.push(Tag {
        key: TagText::from_str(alloc, "highway")?,
        value: TagText::from_str(alloc, highway)?,
    })?;
    let refs = Refs::from_vec(Vec::from_slice(alloc, &[1, 2])?);
    Ok(OsmWay { id, tags, refs })
}

/// The two nodes.
fn nodes(alloc: Global) -> Result<Nodes, AllocError> {
    let mut nodes = Nodes::new(alloc);
    for (id, lon) in [(1, 0), (2, 10_000)] {
        nodes.push(&OsmNode {
            id,
            lat: 0,
            lon,
            tags: Tags::new(alloc),
        })?;
    }
    Ok(nodes)
}

/// A footway, a motorway and a residential street.
fn ways(alloc: Global) -> Result<Ways, AllocError> {
    let mut ways = Ways::new(alloc);
    ways.push(&way(alloc, 7, "footway")?)?;
    ways.push(&way(alloc, 8, "motorway")?)?;
    ways.push(&way(alloc, 9, "residential")?)?;
    Ok(ways)
}

/// Of each piece whether it is kept for these modes, and `None` where there are no roads.
fn kept_of(alloc: Global, asked: u16) -> Result<Option<Vec<bool>>, AllocError> {
    let Some(extract) = Extract::of_lists(nodes(alloc)?, ways(alloc)?, Relations::new(alloc)) else {
        return Ok(None);
    };
    match cut(alloc, &extract) {
        Ok(roads) => Ok(Some(kept_pieces(alloc, &roads.pieces, asked)?)),
        Err(_) => Ok(None),
    }
}

// Cars have no footway, pedestrians no motorway.
#[test]
fn kept_for_modes(rt: HostRuntime) -> Result<(), Fail> {
    let alloc = rt.alloc();
    let for_cars = kept_of(alloc, 1)?.ok_or("no roads")?;
    assert_eq!(rt; for_cars.as_slice(), [false, true, true].as_slice());
    let on_foot = kept_of(alloc, 2)?.ok_or("no roads")?;
    assert_eq!(rt; on_foot.as_slice(), [true, false, true].as_slice());
    let for_both = kept_of(alloc, 3)?.ok_or("no roads")?;
    assert_eq!(rt; for_both.as_slice(), [true, true, true].as_slice());
    Ok(())
}
