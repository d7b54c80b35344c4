//! What is kept for the asked modes, and who may use it.

use program_runs::{built, puts_tile};
use std::alloc::{AllocError, Global};
use std::test::Fail;
use std::thread::Threads;
use test_support::{BlockWriter, file_of, puts_are};

/// A residential way that is one-way, for cars. Backward, pedestrians alone may use it (2); both edges stand.
const ONE_WAY: [u64; 29] = [
    0x3130_454c_4954_4a4d,
    0x3f_5e82,
    0,
    0x2_0000_0002,
    0,
    0,
    0x28,
    0x1_0000_0000_00e8,
    1,
    0,
    0x20_0000,
    0x4f,
    2,
    0x2710_0000_0000,
    0x20_0001,
    0x4f,
    0x23f_5e82,
    0x2000_0000_2b7c,
    0x6_0002_004f,
    0,
    0x3f_5e82,
    0x2b7c,
    0x6_004f_0002,
    0,
    10,
    0,
    2,
    0,
    0x2710,
];

#[test]
fn one_direction(rt: HostRuntime) -> Result<(), Fail> {
    let mut objects = BlockWriter::new(rt.alloc())?;
    objects.nodes_in_a_row(2)?;
    objects.way(10, "highway=residential;oneway=yes", &[1, 2])?;
    assert!(rt; puts_tile(&rt, &objects, "auto", &ONE_WAY)?);
    Ok(())
}

/// Road 10 over nodes 1, 2 and 3, for cars. Footway 5 crosses it at node 2, from 4 to 5, and its two edges there have the
/// local indexes 0 and 1; so the road's have 2 and 3, and are the first and the second of the node. Nodes 4 and 5, and 6
/// and 7 of footway 6, have no edge that is kept.
const CROSSING: [u64; 46] = [
    0x3130_454c_4954_4a4d,
    0x3f_5e82,
    0,
    0x4_0000_0003,
    0,
    0,
    0x50,
    0x1_0000_0000_0170,
    1,
    0,
    0x20_0000,
    0x4f,
    2,
    0x2710_0000_0000,
    0x40_0001,
    0x4f,
    3,
    0x4e20_0000_0000,
    0x20_0003,
    0x4f,
    0x23f_5e82,
    0x2010_0000_2b7c,
    0x6_004f_004f,
    0,
    0x3f_5e82,
    0x2000_2b7c,
    0x6_004f_004f,
    0,
    0x43f_5e82,
    0x2000_3000_2b7c,
    0x6_004f_004f,
    0x28,
    0x40_0000_023f_5e82,
    0x18_0000_2b7c,
    0x6_004f_004f,
    0x28,
    10,
    0,
    2,
    0,
    0x2710,
    10,
    0x1_0000_0000,
    2,
    0x2710,
    0x4e20,
];

#[test]
fn a_footway_across(rt: HostRuntime) -> Result<(), Fail> {
    let mut objects = BlockWriter::new(rt.alloc())?;
    objects.nodes_in_a_row(3)?;
    for (id, lat, lon) in [
        (4, 10_000, 10_000),
        (5, -10_000, 10_000),
        (6, 20_000, 0),
        (7, 20_000, 10_000),
    ] {
        objects.node(id, lat, lon, "")?;
    }
    objects.way(5, "highway=footway", &[4, 2, 5])?;
    objects.way(6, "highway=footway", &[6, 7])?;
    objects.way(10, "highway=residential", &[1, 2, 3])?;
    assert!(rt; puts_tile(&rt, &objects, "auto", &CROSSING)?);
    Ok(())
}

const FOOTWAY: &str = "out/2/000/519/120.gph";

const CYCLEWAY: &str = "out/2/000/519/121.gph";

const STREET: &str = "out/2/000/519/122.gph";

const BUS_ROAD: &str = "out/2/000/519/123.gph";

/// A footway, a cycleway, a residential road and a road for buses, each from one node to another in a tile of its own.
fn four_ways(alloc: Global) -> Result<BlockWriter, AllocError> {
    let mut objects = BlockWriter::new(alloc)?;
    for (id, lon) in [
        (1, 0),
        (2, 10_000),
        (3, 2_500_000),
        (4, 2_510_000),
        (5, 5_000_000),
        (6, 5_010_000),
        (7, 7_500_000),
        (8, 7_510_000),
    ] {
        objects.node(id, 0, lon, "")?;
    }
    objects.way(1, "highway=footway", &[1, 2])?;
    objects.way(2, "highway=cycleway", &[3, 4])?;
    objects.way(3, "highway=residential", &[5, 6])?;
    objects.way(4, "highway=service;access=no;bus=yes", &[7, 8])?;
    Ok(objects)
}

/// Whether a build of the four ways for these modes puts these files, in order.
fn keeps<R: Threads + Sync + AllocGlobal>(
    rt: &R,
    modes: &str,
    paths: &str,
) -> Result<bool, AllocError> {
    let (status, host) = built(rt, &four_ways(rt.alloc())?, modes)?;
    Ok(status == 0 && host.said.is_empty() && puts_are(rt.alloc(), &host, paths)?)
}

#[test]
fn modes_that_keep_a_way(rt: HostRuntime) -> Result<(), Fail> {
    for (modes, paths) in [
        ("auto", "out/2/000/519/122.gph"),
        (
            "pedestrian",
            "out/2/000/519/120.gph out/2/000/519/121.gph out/2/000/519/122.gph",
        ),
        ("bicycle", "out/2/000/519/121.gph out/2/000/519/122.gph"),
        ("truck", "out/2/000/519/122.gph"),
        ("bus", "out/2/000/519/122.gph out/2/000/519/123.gph"),
        ("truck,auto", "out/2/000/519/122.gph"),
        (
            "bus,bicycle",
            "out/2/000/519/121.gph out/2/000/519/122.gph out/2/000/519/123.gph",
        ),
        (
            "auto,pedestrian,bicycle,truck,bus",
            "out/2/000/519/120.gph out/2/000/519/121.gph out/2/000/519/122.gph out/2/000/519/123.gph",
        ),
    ] {
        assert!(rt; keeps(&rt, modes, paths)?, "{modes}");
    }
    Ok(())
}

/// The word of a file at that index.
fn word_at(file: &[u8], index: usize) -> u64 {
    let mut word = 0u64;
    let mut weight = 1u64;
    for byte in file.iter().skip(index.saturating_mul(8)).take(8) {
        word = word.wrapping_add(weight.wrapping_mul(u64::from(*byte)));
        weight = weight.wrapping_mul(256);
    }
    word
}

// Word 18, of a tile with two nodes: the class of edge 0 in bits 32 to 34, and its modes forward and in reverse, 16 bits
// each. 2 is pedestrian, 6 with bicycle, 79 all, 64 bus.
#[test]
fn modes_of_each_way(rt: HostRuntime) -> Result<(), Fail> {
    let (_, host) = built(
        &rt,
        &four_ways(rt.alloc())?,
        "auto,pedestrian,bicycle,truck,bus",
    )?;
    assert_eq!(rt;
        [
            word_at(file_of(&host, FOOTWAY), 18),
            word_at(file_of(&host, CYCLEWAY), 18),
            word_at(file_of(&host, STREET), 18),
            word_at(file_of(&host, BUS_ROAD), 18),
        ],
        [0x7_0002_0002, 0x7_0006_0006, 0x6_004f_004f, 0x7_0040_0040]
    );
    Ok(())
}
