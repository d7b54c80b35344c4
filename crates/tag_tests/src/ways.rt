use osm_model::{OsmWay, Refs, Tag, TagText, Tags, Ways};
use std::alloc::{AllocError, Global};
use std::test::Fail;
use way_tags::{
    ALL, AUTO, BICYCLE, BUS, Dir, Oneway, PEDESTRIAN, RoadTags, TRUCK, VEHICLES, access_of,
    class_of, is_barrier, names, node_access, oneway_of, read_road,
};

/// One way with these tags.
fn way_with(alloc: Global, pairs: &[(&str, &str)]) -> Result<Ways, AllocError> {
    let mut list = Vec::new(alloc);
    for (key, value) in pairs {
        list.push(Tag {
            key: TagText::from_str(alloc, key)?,
            value: TagText::from_str(alloc, value)?,
        })?;
    }
    let mut ways = Ways::new(alloc);
    ways.push(&OsmWay {
        id: 1,
        tags: Tags::from_vec(list),
        refs: Refs::new(alloc),
    })?;
    Ok(ways)
}

/// The class, the one-way and the modes forward and backward of a way with these tags.
fn read_way(
    alloc: Global,
    pairs: &[(&str, &str)],
) -> Result<(Option<u8>, Oneway, u16, u16), AllocError> {
    let ways = way_with(alloc, pairs)?;
    if ways.is_empty() {
        return Ok((None, Oneway::Both, 0, 0));
    }
    let way = ways.at(0);
    let tags = way.tags();
    Ok((
        class_of(tags),
        oneway_of(tags),
        access_of(tags, Dir::Forward),
        access_of(tags, Dir::Backward),
    ))
}

/// What one pass reads of a way with these tags.
fn read_whole(alloc: Global, pairs: &[(&str, &str)]) -> Result<Option<RoadTags>, AllocError> {
    let ways = way_with(alloc, pairs)?;
    if ways.is_empty() {
        return Ok(None);
    }
    Ok(read_road(ways.at(0).tags()))
}

/// Whether a node with these tags is a barrier, and who may pass it.
fn read_node(alloc: Global, pairs: &[(&str, &str)]) -> Result<(bool, u16), AllocError> {
    let ways = way_with(alloc, pairs)?;
    if ways.is_empty() {
        return Ok((false, 0));
    }
    let way = ways.at(0);
    Ok((is_barrier(way.tags()), node_access(way.tags())))
}

/// How many names a way with these tags has, and whether they are these.
fn names_are(alloc: Global, pairs: &[(&str, &str)], want: &[&str]) -> Result<bool, AllocError> {
    let ways = way_with(alloc, pairs)?;
    if ways.is_empty() {
        return Ok(false);
    }
    let way = ways.at(0);
    let made = names(alloc, way.tags())?;
    if made.len() != want.len() {
        return Ok(false);
    }
    for (name, text) in made.as_slice().iter().zip(want) {
        if name.as_str() != *text {
            return Ok(false);
        }
    }
    Ok(true)
}

#[test]
fn roads_are_read_in_one_pass(rt: HostRuntime) -> Result<(), Fail> {
    let alloc = rt.alloc();
    let motorway = read_whole(alloc, &[("highway", "motorway"), ("ref", "A1")])?;
    let expected = RoadTags {
        class: 0,
        forward: 73,
        backward: 0,
    };
    assert!(rt; motorway == Some(expected));
    assert!(rt; read_whole(alloc, &[("highway", "raceway")])? == None);
    Ok(())
}

#[test]
fn ways_are_read(rt: HostRuntime) -> Result<(), Fail> {
    let alloc = rt.alloc();
    let street = read_way(alloc, &[("name", "A"), ("highway", "residential")])?;
    assert!(rt; street == (Some(6), Oneway::Both, 79, 79));
    let motorway = read_way(alloc, &[("highway", "motorway"), ("ref", "A1")])?;
    assert!(rt; motorway == (Some(0), Oneway::Forward, 73, 0));
    let lane = read_way(
        alloc,
        &[
            ("oneway", "-1"),
            ("oneway:bicycle", "no"),
            ("oneway:psv", "no"),
            ("motor_vehicle", "no"),
            ("bus", "yes"),
            ("highway", "tertiary_link"),
        ],
    )?;
    assert!(rt; lane == (Some(4), Oneway::Backward, 70, 70));
    let river = read_way(alloc, &[("waterway", "river"), ("foot", "yes")])?;
    assert!(rt; river == (None, Oneway::Both, 0, 0));
    Ok(())
}

#[test]
fn nodes_are_read(rt: HostRuntime) -> Result<(), Fail> {
    let alloc = rt.alloc();
    assert!(rt; read_node(alloc, &[])? == (false, 79));
    assert!(rt; read_node(alloc, &[("highway", "crossing"), ("foot", "no")])? == (false, 79));
    assert!(rt; read_node(alloc, &[("barrier", "bollard"), ("bus", "yes")])? == (true, 70));
    assert!(rt; read_node(alloc, &[("access", "private"), ("barrier", "gate")])? == (true, 0));
    Ok(())
}

#[test]
fn names_are_made(rt: HostRuntime) -> Result<(), Fail> {
    let alloc = rt.alloc();
    assert!(rt;
        names_are(
            alloc,
            &[("ref", "A 1"), ("name", "Straße")],
            &["Straße", "A 1"]
        )?
    );
    assert!(rt; names_are(alloc, &[("ref", "A1"), ("name", "A1")], &["A1"])?);
    assert!(rt; names_are(alloc, &[("ref", ""), ("name", "")], &[])?);
    Ok(())
}

#[test]
fn modes_are_bits(rt: HostRuntime) {
    assert_eq!(rt; [AUTO, PEDESTRIAN, BICYCLE, TRUCK, BUS], [1, 2, 4, 8, 64]);
    assert_eq!(rt; [ALL, VEHICLES], [79, 77]);
}
