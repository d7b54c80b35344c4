//! Tiles of three roads in a row, with their entries, texts and offsets worked out by hand.
ghost use Rattle.std.specs.Prelude.{◌<◌, All, IsTrue};

use osm_model::{Extract, Nodes, OsmNode, OsmWay, Refs, Relations, Tag, TagText, Tags, Ways};
use road_pieces::cut;
use std::alloc::{AllocError, Global};
use std::test::Fail;
use tile_infos::{TileInfos, pieces_at_places, starts_are_sums, tile_infos, tile_infos_pass};

/// A tag.
fn tag(alloc: Global, key: &str, value: &str) -> Result<Tag, AllocError> {
    Ok(Tag {
        key: TagText::from_str(alloc, key)?,
        value: TagText::from_str(alloc, value)?,
    })
}

/// A residential way from a node to the next one.
fn way(
    alloc: Global,
    id: i64,
    from: i64,
    to: i64,
    tags: &[(&str, &str)],
) -> Result<OsmWay, AllocError> {
    let mut all = Tags::new(alloc);
    all.push(tag(alloc, "highway", "residential")?)?;
    for (key, value) in tags {
        all.push(tag(alloc, key, value)?)?;
    }
    let refs = Refs::from_vec(Vec::from_slice(alloc, &[from, to])?);
    Ok(OsmWay {
        id,
        tags: all,
        refs,
    })
}

/// Nodes 1 to 4, each 10,000 units north of the one before, and ways 7, 8 and 9 between them. Way 7 is the road `Weg`,
/// `B1`, way 8 has no name, way 9 is the road `Hof`, `B1`.
fn three_roads(alloc: Global) -> Result<Option<Extract>, AllocError> {
    let mut nodes = Nodes::new(alloc);
    for (id, lat) in [(1, 0), (2, 10_000), (3, 20_000), (4, 30_000)] {
        let tags = Tags::new(alloc);
        nodes.push(&OsmNode {
            id,
            lat,
            lon: 0,
            tags,
        })?;
    }
    let mut ways = Ways::new(alloc);
    ways.push(&way(alloc, 7, 1, 2, &[("name", "Weg"), ("ref", "B1")])?)?;
    ways.push(&way(alloc, 8, 2, 3, &[])?)?;
    ways.push(&way(alloc, 9, 3, 4, &[("ref", "B1"), ("name", "Hof")])?)?;
    Ok(Extract::of_lists(nodes, ways, Relations::new(alloc)))
}

/// Whether there is a piece at each of these places.
fn are_inside(places: &[u32], count: usize) -> bool
    ensures { IsTrue result → All (λ place. place < count) places.now }
{
    places.iter().all(|place| (*place as usize) < count)
}

/// The ways of the entries.
fn ways_of(alloc: Global, made: &TileInfos) -> Result<Vec<i64>, AllocError> {
    let mut ways = Vec::new(alloc);
    for i in 0..made.infos.len() {
        ways.push(made.infos.at(i).key().way)?;
    }
    Ok(ways)
}

/// The latitudes of the points of all entries.
fn lats_of(alloc: Global, made: &TileInfos) -> Result<Vec<i32>, AllocError> {
    let mut lats = Vec::new(alloc);
    for i in 0..made.infos.len() {
        for point in made.infos.at(i).shape() {
            lats.push(point.lat)?;
        }
    }
    Ok(lats)
}

/// The texts, with a slash behind each.
fn texts_of(alloc: Global, made: &TileInfos) -> Result<String, AllocError> {
    let mut texts = String::new(alloc);
    for text in made.texts.as_slice() {
        texts.push_str(text.as_str())?;
        texts.push_str("/")?;
    }
    Ok(texts)
}

/// The infos of a tile with the pieces at these places.
fn made_at(alloc: Global, places: &[u32]) -> Result<TileInfos, Fail> {
    let extract = three_roads(alloc)?.ok_or("no extract")?;
    let roads = cut(alloc, &extract).ok().ok_or("refused")?;
    if !are_inside(places, roads.pieces.len()) {
        return Err(Fail::from("no such piece"));
    }
    Ok(tile_infos(alloc, &roads.pieces, places)?)
}

/// Whether the ways of the entries and the latitudes of their points are these.
fn are_courses(
    alloc: Global,
    made: &TileInfos,
    ways: &[i64],
    lats: &[i32],
) -> Result<bool, AllocError> {
    Ok(ways_of(alloc, made)?.as_slice() == ways && lats_of(alloc, made)?.as_slice() == lats)
}

/// Whether the names of the entries, as places, and the texts are these.
fn are_names(
    alloc: Global,
    made: &TileInfos,
    names: &[u32],
    texts: &str,
) -> Result<bool, AllocError> {
    Ok(made.infos.names() == names && texts_of(alloc, made)?.as_str() == texts)
}

/// Whether the entries start there, and have so many bytes.
fn are_starts(made: &TileInfos, offsets: &[u64], size: u128) -> bool {
    made.offsets.as_slice() == offsets && made.infos.size() == size
}

// An entry has 24 bytes, 8 for each point and 4 for each name: 48, 40 and 48.
#[test]
fn all_roads(rt: HostRuntime) -> Result<(), Fail> {
    let alloc = rt.alloc();
    let made = made_at(alloc, &[0, 1, 2])?;
    let lats = [0, 10_000, 10_000, 20_000, 20_000, 30_000];
    let courses = are_courses(alloc, &made, &[7, 8, 9], &lats)?;
    let names = are_names(alloc, &made, &[0, 1, 2, 1], "Weg/B1/Hof/")?;
    let starts = are_starts(&made, &[0, 48, 88], 136);
    assert_eq!(rt; [courses, names, starts], [true; 3]);
    Ok(())
}

// What the third road has in common with the first is now named behind `Hof`.
#[test]
fn without_the_first(rt: HostRuntime) -> Result<(), Fail> {
    let alloc = rt.alloc();
    let made = made_at(alloc, &[1, 2])?;
    let courses = are_courses(alloc, &made, &[8, 9], &[10_000, 20_000, 20_000, 30_000])?;
    let names = are_names(alloc, &made, &[0, 1], "Hof/B1/")?;
    let starts = are_starts(&made, &[0, 40], 88);
    assert_eq!(rt; [courses, names, starts], [true; 3]);
    Ok(())
}

#[test]
fn road_without_names(rt: HostRuntime) -> Result<(), Fail> {
    let alloc = rt.alloc();
    let made = made_at(alloc, &[1])?;
    let courses = are_courses(alloc, &made, &[8], &[10_000, 20_000])?;
    let names = are_names(alloc, &made, &[], "")?;
    assert_eq!(rt; [courses, names, are_starts(&made, &[0], 40)], [true; 3]);
    Ok(())
}

#[test]
fn no_road(rt: HostRuntime) -> Result<(), Fail> {
    let alloc = rt.alloc();
    let made = made_at(alloc, &[])?;
    let courses = are_courses(alloc, &made, &[], &[])?;
    let names = are_names(alloc, &made, &[], "")?;
    assert_eq!(rt; [courses, names, are_starts(&made, &[], 0)], [true; 3]);
    Ok(())
}

// The laws run no code; a call of each shows that it can be made.
#[test]
fn laws(rt: HostRuntime) -> Result<(), Fail> {
    tile_infos_pass();
    pieces_at_places();
    starts_are_sums();
    Ok(())
}
