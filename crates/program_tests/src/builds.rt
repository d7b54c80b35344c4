//! The command `build` over a host in memory: the road of docs/TILE-FILE.md, an extract without roads, and faults of the
//! host. What stands in tiles is tried in `tile_build_tests`.

use program_runs::{build_for, build_in, ends};
use std::alloc::AllocError;
use std::test::Fail;
use std::thread::Threads;
use test_support::{BlockWriter, HEADER, extract_of, front, holds, host_of, road_tile};

// The written bytes of nodes 1 and 2 and way 10 are those of the small extract.
#[test]
fn writer(rt: HostRuntime) -> Result<(), Fail> {
    let written = extract_of(rt.alloc(), &HEADER, &[0, 0], &[0, 10_000], &[1, 2])?;
    let both = front(rt.alloc(), 112)?;
    assert_eq!(rt; written.as_slice(), both.as_slice());
    Ok(())
}

/// Whether a build of the small extract for these modes puts the tile of the road with this number of modes.
fn builds_road<R: Threads + Sync + AllocGlobal>(
    rt: &R,
    modes: &str,
    number: u8,
) -> Result<bool, AllocError> {
    let mut host = host_of(rt.alloc(), &front(rt.alloc(), 112)?, &[], 65_536)?;
    let status = build_for(rt, &mut host, modes)?;
    let tile = road_tile(rt.alloc(), number)?;
    Ok(status == 0 && holds(&host, &tile, 1) && host.said.is_empty())
}

// Each mode may use the road, so the tiles differ in the number of modes alone.
#[test]
fn modes_of_a_road(rt: HostRuntime) -> Result<(), Fail> {
    for (modes, number) in [
        ("auto", 1),
        ("pedestrian", 2),
        ("bicycle", 4),
        ("truck", 8),
        ("bus", 64),
        ("bus,auto", 65),
        ("auto,pedestrian,bicycle,truck,bus", 79),
    ] {
        assert!(rt; builds_road(&rt, modes, number)?, "{modes}");
    }
    Ok(())
}

// Without `--modes` all of them are asked for.
#[test]
fn all_modes(rt: HostRuntime) -> Result<(), Fail> {
    let bytes = front(rt.alloc(), 112)?;
    let tile = road_tile(rt.alloc(), 79)?;
    assert!(rt; ends(&rt, &bytes, 0, &tile, "")?);
    Ok(())
}

// The same road from objects that are written one by one, with tags of nodes and another way that is no road.
#[test]
fn other_objects(rt: HostRuntime) -> Result<(), Fail> {
    let mut objects = BlockWriter::new(rt.alloc())?;
    objects.node(1, 0, 0, "highway=crossing;name=A")?;
    objects.node(2, 0, 10_000, "surface=wood")?;
    objects.way(9, "waterway=stream;name=B", &[2, 1])?;
    objects.way(10, "surface=paved;highway=residential", &[1, 2])?;
    objects.relation(3, "type=route;name=C")?;
    let tile = road_tile(rt.alloc(), 79)?;
    assert!(rt; ends(&rt, &objects.extract()?, 0, &tile, "")?);
    Ok(())
}

// Where no road is kept no file is put: without objects, and where no asked mode may use the way.
#[test]
fn no_road(rt: HostRuntime) -> Result<(), Fail> {
    assert!(rt; ends(&rt, &HEADER, 0, b"older", "")?);
    let mut objects = BlockWriter::new(rt.alloc())?;
    objects.nodes_in_a_row(2)?;
    objects.way(10, "highway=footway", &[1, 2])?;
    let mut host = host_of(rt.alloc(), &objects.extract()?, &[], 65_536)?;
    let status = build_for(&rt, &mut host, "auto,bicycle,truck,bus")?;
    assert_eq!(rt; (status, host.said.len()), (0, 0));
    assert!(rt; holds(&host, b"older", 0));
    Ok(())
}

/// Whether a build where these calls of the host fail ends so, with the older file.
fn fails<R: Threads + Sync + AllocGlobal>(
    rt: &R,
    failing: &[u64],
    status: u8,
    said: &str,
) -> Result<bool, AllocError> {
    let bytes = front(rt.alloc(), 112)?;
    let mut host = host_of(rt.alloc(), &bytes, failing, 65_536)?;
    Ok(
        build_in(rt, &mut host)? == status
            && holds(&host, b"older", 0)
            && host.said.as_slice() == said.as_bytes(),
    )
}

// Each call of the host fails in turn: opening, every read, and the put at last. Where the line isn't said either,
// it is lost.
#[test]
fn each_call_fails(rt: HostRuntime) -> Result<(), Fail> {
    let bytes = front(rt.alloc(), 112)?;
    let mut whole = host_of(rt.alloc(), &bytes, &[], 65_536)?;
    assert_eq!(rt; build_in(&rt, &mut whole)?, 0);
    let last = whole.calls.saturating_sub(1);
    for number in 0..last {
        assert!(rt;
            fails(&rt, &[number], 3, "error 3 read\n")?,
            "call {number}"
        );
    }
    assert!(rt; fails(&rt, &[last], 4, "error 4 put\n")?);
    assert!(rt; fails(&rt, &[last, last.saturating_add(1)], 4, "")?);
    Ok(())
}
