use osm_model::{
    Extract, Member, MemberKind, Members, Names, Nodes, OsmNode, OsmRelation, OsmWay, PieceKey,
    Refs, Relations, Tag, TagText, Tags, TextTable, Ways, value,
};
use std::alloc::{AllocError, Global};
use std::test::Fail;

fn text(alloc: Global, text: &str) -> Result<TagText, AllocError> {
    TagText::from_str(alloc, text)
}

fn tag(alloc: Global, key: &str, value: &str) -> Result<Tag, AllocError> {
    Ok(Tag {
        key: text(alloc, key)?,
        value: text(alloc, value)?,
    })
}

#[test]
fn a_key_counts_at_its_first_place(rt: HostRuntime) -> Result<(), Fail> {
    let alloc = rt.alloc();
    let mut list = Vec::new(alloc);
    for (key, value) in [
        ("name", "A"),
        ("highway", "service"),
        ("highway", "primary"),
        ("oneway", ""),
    ] {
        list.push(tag(alloc, key, value)?)?;
    }
    let tags = Tags::from_vec(list);
    for (key, want) in [
        ("highway", Some("service")),
        ("name", Some("A")),
        ("oneway", Some("")),
        ("high", None),
        ("highway2", None),
        ("refname", None),
        ("", None),
    ] {
        assert!(rt; value(&tags, key) == want, "at {key}");
    }
    assert!(rt; value(&Tags::new(alloc), "name").is_none());
    assert_eq!(rt; tags.len(), 4);
    assert!(rt; !tags.is_empty());
    assert_eq!(rt; tags.into_vec().len(), 4);
    Ok(())
}

#[test]
fn texts_are_shared(rt: HostRuntime) -> Result<(), Fail> {
    let alloc = rt.alloc();
    let one = text(alloc, "Straße")?;
    let two = one.clone()?;
    drop(one);
    assert_eq!(rt; two.as_str(), "Straße");
    assert_eq!(rt; two.len(), 7);
    assert!(rt; !two.is_empty());
    assert!(rt; text(alloc, "")?.is_empty());
    assert!(rt; two == text(alloc, "Straße")?);
    assert!(rt; two != text(alloc, "Strasse")?);
    let mut list = Vec::new(alloc);
    list.push(two)?;
    let names = Names::from_vec(list);
    assert_eq!(rt; names.len(), 1);
    assert!(rt; !names.is_empty());
    for name in names.as_slice() {
        assert_eq!(rt; name.as_str(), "Straße");
    }
    assert_eq!(rt; names.into_vec().len(), 1);
    assert!(rt; Names::new(alloc).is_empty());
    Ok(())
}

#[test]
fn keys_are_in_order_of_way_run_piece(rt: HostRuntime) {
    let rising = [(-5, 9, 9), (7, 0, 0), (7, 0, 1), (7, 1, 0), (8, 0, 0)];
    for (i, (way, run, piece)) in rising.iter().enumerate() {
        for (j, (other_way, other_run, other_piece)) in rising.iter().enumerate() {
            let a = PieceKey {
                way: *way,
                run: *run,
                piece: *piece,
            };
            let b = PieceKey {
                way: *other_way,
                run: *other_run,
                piece: *other_piece,
            };
            assert_eq!(rt; a < b, i < j, "{a:?} and {b:?}");
            assert_eq!(rt; a == b, i == j, "{a:?} and {b:?}");
        }
    }
}

fn node(alloc: Global, id: i64, lat: i32, lon: i32) -> OsmNode {
    OsmNode {
        id,
        lat,
        lon,
        tags: Tags::new(alloc),
    }
}

#[test]
fn an_extract_holds_its_lists(rt: HostRuntime) -> Result<(), Fail> {
    let alloc = rt.alloc();
    let mut nodes = Nodes::new(alloc);
    nodes.push(&node(alloc, -3, -900_000_000, 1_800_000_000))?;
    nodes.push(&node(alloc, 4, 900_000_000, -1_800_000_000))?;
    let mut refs = Refs::new(alloc);
    refs.push(4)?;
    refs.push(-3)?;
    let mut ways = Ways::new(alloc);
    ways.push(&OsmWay {
        id: 7,
        tags: Tags::new(alloc),
        refs,
    })?;
    let mut members = Members::new(alloc);
    members.push(Member {
        role: text(alloc, "via")?,
        kind: MemberKind::Node,
        id: 4,
    })?;
    let mut relations = Relations::new(alloc);
    relations.push(&OsmRelation {
        id: 9,
        tags: Tags::new(alloc),
        members,
    })?;
    let extract = Extract::of_lists(nodes, ways, relations).ok_or("refused")?;
    assert_eq!(rt; extract.nodes.len(), 2);
    assert_eq!(rt; ids(alloc, &extract.nodes)?.as_slice(), [-3, 4].as_slice());
    assert_eq!(rt; extract.ways.len(), 1);
    assert_eq!(rt; extract.relations.len(), 1);
    assert!(rt; !extract.relations.is_empty());
    Ok(())
}

#[test]
fn other_lists_are_no_extract(rt: HostRuntime) -> Result<(), Fail> {
    let alloc = rt.alloc();
    for (a, b, lat, lon, good) in [
        (1, 2, 0, 0, true),
        (2, 2, 0, 0, false),
        (2, 1, 0, 0, false),
        (1, 2, 900_000_001, 0, false),
        (1, 2, -900_000_001, 0, false),
        (1, 2, 0, 1_800_000_001, false),
        (1, 2, 0, -1_800_000_001, false),
    ] {
        let mut nodes = Nodes::new(alloc);
        nodes.push(&node(alloc, a, 0, 0))?;
        nodes.push(&node(alloc, b, lat, lon))?;
        let made = Extract::of_lists(nodes, Ways::new(alloc), Relations::new(alloc));
        assert_eq!(rt; made.is_some(), good, "{a} {b} {lat} {lon}");
    }
    Ok(())
}

fn ids(alloc: Global, nodes: &Nodes) -> Result<Vec<i64>, AllocError> {
    let mut ids = Vec::new(alloc);
    for i in 0..nodes.len() {
        ids.push(nodes.at(i).id())?;
    }
    Ok(ids)
}

fn way_ids(alloc: Global, ways: &Ways) -> Result<Vec<i64>, AllocError> {
    let mut ids = Vec::new(alloc);
    for i in 0..ways.len() {
        ids.push(ways.at(i).id())?;
        for id in ways.at(i).refs() {
            ids.push(*id)?;
        }
    }
    Ok(ids)
}

fn with_tag(alloc: Global, id: i64, value: &str) -> Result<OsmNode, AllocError> {
    let mut tags = Tags::new(alloc);
    if !value.is_empty() {
        tags.push(tag(alloc, "barrier", value)?)?;
    }
    Ok(OsmNode {
        id,
        lat: 1,
        lon: 2,
        tags,
    })
}

/// The barriers of the nodes, each behind a comma.
fn barriers(alloc: Global, nodes: &Nodes) -> Result<String, AllocError> {
    let mut all = String::new(alloc);
    for i in 0..nodes.len() {
        all.push_str(",")?;
        if let Some(value) = nodes.at(i).tags().value("barrier") {
            all.push_str(value)?;
        }
    }
    Ok(all)
}

#[test]
fn few_nodes_have_tags(rt: HostRuntime) -> Result<(), Fail> {
    let alloc = rt.alloc();
    let mut nodes = Nodes::new(alloc);
    for (id, value) in [(1, "gate"), (2, ""), (3, "no"), (4, ""), (5, "gate")] {
        nodes.push(&with_tag(alloc, id, value)?)?;
    }
    assert_eq!(rt; barriers(alloc, &nodes)?.as_str(), ",gate,,no,,gate");
    Ok(())
}

fn way_of(alloc: Global, id: i64) -> Result<OsmWay, AllocError> {
    let mut refs = Refs::new(alloc);
    refs.push(10 * (id % 100))?;
    Ok(OsmWay {
        id,
        tags: Tags::new(alloc),
        refs,
    })
}

#[test]
fn ways_are_put_in_order(rt: HostRuntime) -> Result<(), Fail> {
    let alloc = rt.alloc();
    let mut ways = Ways::new(alloc);
    for id in [3, 1, 2] {
        ways.push(&way_of(alloc, id)?)?;
    }
    ways.sort_by_id();
    assert_eq!(rt;
        way_ids(alloc, &ways)?.as_slice(),
        [1, 10, 2, 20, 3, 30].as_slice()
    );
    Ok(())
}

#[test]
fn nodes_are_put_in_order_with_their_tags(rt: HostRuntime) -> Result<(), Fail> {
    let alloc = rt.alloc();
    let mut nodes = Nodes::new(alloc);
    for (id, value) in [(4, "gate"), (1, ""), (3, ""), (2, "bollard")] {
        nodes.push(&with_tag(alloc, id, value)?)?;
    }
    assert!(rt; !nodes.rises());
    nodes.sort_by_id(alloc)?;
    assert!(rt; nodes.rises());
    assert_eq!(rt; barriers(alloc, &nodes)?.as_str(), ",,bollard,,gate");
    assert_eq!(rt; nodes.count_tags(), 2);
    Ok(())
}

fn relation_of(alloc: Global, id: i64, role: &str) -> Result<OsmRelation, AllocError> {
    let mut members = Members::new(alloc);
    members.push(Member {
        role: text(alloc, role)?,
        kind: MemberKind::Way,
        id: 7,
    })?;
    Ok(OsmRelation {
        id,
        tags: Tags::new(alloc),
        members,
    })
}

#[test]
fn relations_are_put_in_order_with_their_members(rt: HostRuntime) -> Result<(), Fail> {
    let alloc = rt.alloc();
    let mut relations = Relations::new(alloc);
    for (id, role) in [(9, "via"), (8, "from")] {
        relations.push(&relation_of(alloc, id, role)?)?;
    }
    relations.sort_by_id();
    assert_eq!(rt; relations.len(), 2);
    let first = relations.at(0);
    assert_eq!(rt; first.id(), 8);
    assert_eq!(rt; first.members().len(), 1);
    let member = first.members().at(0);
    assert!(rt; member.role() == "from" && member.kind() == MemberKind::Way && member.id() == 7);
    Ok(())
}

#[test]
fn texts_have_numbers(rt: HostRuntime) -> Result<(), Fail> {
    let alloc = rt.alloc();
    let mut table = TextTable::new(alloc);
    for (word, number) in [("via", 0), ("to", 1), ("via", 0), ("", 2), ("to", 1)] {
        assert_eq!(rt; table.add(&text(alloc, word)?)?, number);
    }
    assert_eq!(rt; table.len(), 3);
    assert_eq!(rt; table.text(1), "to");
    Ok(())
}
