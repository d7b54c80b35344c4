//! Objects that aren't built yet: turn restrictions. The first relation by id is named.

use program_runs::{ends, puts_nothing};
use std::alloc::{AllocError, Global};
use std::test::Fail;
use std::thread::Threads;
use test_support::{BlockWriter, HEADER, data_triple};

/// Adds an object `KIND ID TAGS`, without refs and members.
fn add(objects: &mut BlockWriter, kind: &str, id: u64, tags: &str) -> Result<(), AllocError> {
    if kind == "way" {
        objects.way(id, tags, &[])
    } else if kind == "relation" {
        objects.relation(id, tags)
    } else {
        objects.node(7, 0, 0, tags)
    }
}

/// Objects that are written as `KIND ID TAGS`, with a comma between two. A node has the id 7.
fn objects_of(alloc: Global, text: &str) -> Result<BlockWriter, AllocError> {
    let mut objects = BlockWriter::new(alloc)?;
    for object in text.split(',') {
        if let Some((kind, rest)) = object.split_once(' ') {
            if let Some((id, tags)) = rest.split_once(' ') {
                let id = id.parse::<u64>().unwrap_or(0);
                add(&mut objects, kind, id, tags)?;
            }
        }
    }
    Ok(objects)
}

/// Whether a build of these objects says this line, or is done where it is empty; either way it puts nothing.
fn says_of<R: Threads + Sync + AllocGlobal>(
    rt: &R,
    text: &str,
    said: &str,
) -> Result<bool, AllocError> {
    let status = if said.is_empty() { 0 } else { 5 };
    puts_nothing(rt, &objects_of(rt.alloc(), text)?, status, said)
}

/// Whether a build of way 7 with this value of `highway` says this line.
fn highway_says<R: Threads + Sync + AllocGlobal>(
    rt: &R,
    value: &str,
    said: &str,
) -> Result<bool, AllocError> {
    let text = format!(in rt.alloc(); "way 7 highway={value}")?;
    says_of(rt, &text, said)
}

// Roads of every class, and values that make no road.
#[test]
fn roads_are_built(rt: HostRuntime) -> Result<(), Fail> {
    for value in [
        "motorway",
        "motorway_link",
        "trunk_link",
        "primary",
        "secondary_link",
        "tertiary",
        "unclassified",
        "residential",
        "service",
        "steps",
        "construction",
        "Motorway",
        "",
    ] {
        assert!(rt; highway_says(&rt, value, "")?, "{value}");
    }
    Ok(())
}

#[test]
fn tags_that_count(rt: HostRuntime) -> Result<(), Fail> {
    for (objects, said) in [
        // the first value of a key counts
        (
            "relation 7 type=restriction;type=route",
            "error 5 NotBuilt kind=relation id=7\n",
        ),
        ("relation 7 type=route;type=restriction", ""),
        ("relation 7 type=restriction:hgv", ""),
        ("relation 7 restriction=no_left_turn", ""),
        ("relation 7 highway=motorway;type=multipolygon", ""),
        ("way 7 type=restriction;highway=primary", ""),
        ("node 7 highway=motorway;type=restriction", ""),
        ("node 7 barrier=gate;access=no", ""),
    ] {
        assert!(rt; says_of(&rt, objects, said)?, "{objects}");
    }
    Ok(())
}

// Relations may come in any order of id, and ways before or behind them.
#[test]
fn the_first_object(rt: HostRuntime) -> Result<(), Fail> {
    for (objects, said) in [
        (
            "relation 7 type=restriction,relation 3 type=restriction",
            "error 5 NotBuilt kind=relation id=3\n",
        ),
        (
            "relation 3 type=route,relation 7 type=restriction",
            "error 5 NotBuilt kind=relation id=7\n",
        ),
        (
            "relation 7 type=restriction,way 3 highway=tertiary",
            "error 5 NotBuilt kind=relation id=7\n",
        ),
        (
            "node 7 highway=motorway,relation 3 type=restriction",
            "error 5 NotBuilt kind=relation id=3\n",
        ),
    ] {
        assert!(rt; says_of(&rt, objects, said)?, "{objects}");
    }
    Ok(())
}

/// Whether a build of these objects and of another block behind them says this line.
fn says_with<R: Threads + Sync + AllocGlobal>(
    rt: &R,
    objects: &BlockWriter,
    second: &[u8],
    said: &str,
) -> Result<bool, AllocError> {
    let mut bytes = Vec::from_slice(rt.alloc(), &HEADER)?;
    bytes.extend_from_slice(&data_triple(rt.alloc(), &objects.block()?)?)?;
    bytes.extend_from_slice(&data_triple(rt.alloc(), second)?)?;
    ends(rt, &bytes, 5, b"older", said)
}

// Every other fault of an extract comes first: an id that comes twice, and a later block without a table. The block of
// relation 7 has a table of 2 + 2 + 6 + 13 bytes and a group of 2 + 2 + 8, so 35; its triple ends at
// 35 + 4 + 11 + 2 + 35 = 87, and the next block begins at 87 + 4 + 11 + 2 = 104.
#[test]
fn other_faults_come_first(rt: HostRuntime) -> Result<(), Fail> {
    assert!(rt;
        says_of(
            &rt,
            "relation 7 type=restriction,way 7 highway=primary,way 7 highway=primary",
            "error 5 DuplicateId kind=way id=7\n"
        )?
    );
    assert!(rt;
        says_of(
            &rt,
            "relation 2 type=route,relation 1 type=restriction,relation 2 type=restriction",
            "error 5 DuplicateId kind=relation id=2\n"
        )?
    );
    let relation = objects_of(rt.alloc(), "relation 7 type=restriction")?;
    assert!(rt;
        says_with(
            &rt,
            &relation,
            b"\x08\x00",
            "error 5 MissingField at=104 number=1\n"
        )?
    );
    Ok(())
}

// Way 1 is residential and too long, between nodes at 0 and 241,138,570 units; relation 2 isn't built yet.
#[test]
fn limits_come_last(rt: HostRuntime) -> Result<(), Fail> {
    let mut objects = BlockWriter::new(rt.alloc())?;
    objects.node(1, 0, 0, "")?;
    objects.node(2, 241_138_570, 0, "")?;
    objects.way(1, "highway=residential", &[1, 2])?;
    objects.relation(2, "type=restriction")?;
    assert!(rt; puts_nothing(&rt, &objects, 5, "error 5 NotBuilt kind=relation id=2\n")?);
    Ok(())
}
