//! Roads of several levels: a file for each tile of each level, and transitions between the nodes of a junction.

use program_runs::built;
use std::alloc::{AllocError, Global};
use std::test::Fail;
use test_support::{BlockWriter, TILE_PATH, file_is, file_of, puts_are};

const ALL: &str = "auto,pedestrian,bicycle,truck,bus";

/// The tile of level 0 at the place (0, 0): in row 22 and column 45 of 90. Its value is 8 * 2025 = 0x3f48.
const LEVEL_0: &str = "out/0/002/025.gph";

/// The tile of level 1 there: in row 90 and column 180 of 360. Its value is 1 + 8 * 32580 = 0x3_fa21.
const LEVEL_1: &str = "out/1/032/580.gph";

/// Motorway ways 11 to 15 between nodes 1 to 6, all named `A1`, and residential way 20 from node 4 to node 7, for
/// cars. Tile 2024 of level 0 has nodes 1 to 3 and the five edges that start there, of which the last, to node 4,
/// leaves the tile.
const MOTORWAY_WEST: [u64; 58] = [
    0x3130_454c_4954_4a4d,
    0x3f40,
    0xfd9d_a600_fece_d300,
    0x5_0000_0003,
    0,
    0x1_0000_0000,
    0x6_0000_0084,
    0x1_0000_0000_01d0,
    1,
    0xffff_9e58_0000_0000,
    0x20_0000,
    0x4f,
    2,
    0xffff_c568_0000_0000,
    0x40_0001,
    0x4f,
    3,
    0xffff_ec78_0000_0000,
    0x40_0003,
    0x4f,
    0x200_3f40,
    0x2000_0000_2b7c,
    0x49_0049,
    0,
    0x3f40,
    0x2b7c,
    0x49_0049,
    0,
    0x400_3f40,
    0x2000_1000_2b7c,
    0x49_0049,
    0x2c,
    0x40_0000_0200_3f40,
    0x8_0000_2b7c,
    0x49_0049,
    0x2c,
    0x3f48,
    0x2400_1000_2b7c,
    0x49_0049,
    0x58,
    11,
    0,
    2,
    0xffff_9e58,
    0x1_ffff_c568,
    0xc_0000_0000,
    0,
    0x2_0000_0000,
    0xffff_c568_0000_0000,
    0xffff_ec78_0000_0000,
    1,
    13,
    0,
    2,
    0xffff_ec78,
    0x1_0000_1388,
    0x2_0000_0000,
    0x3141,
];

/// Tile 2025 has nodes 4 to 6. At node 4 there is a transition, word 40, to node 0 of tile 519120 of level 2; way 13
/// is in the entries of both tiles.
const MOTORWAY_EAST: [u64; 59] = [
    0x3130_454c_4954_4a4d,
    0x3f48,
    0xfece_d300,
    0x5_0000_0003,
    1,
    0x1_0000_0000,
    0x6_0000_0084,
    0x1_0000_0000_01d8,
    4,
    0x1388_0000_0000,
    0x8_0000_0040_0000,
    0x4f,
    5,
    0x3a98_0000_0000,
    0x2040_0002,
    0x4f,
    6,
    0x61a8_0000_0000,
    0x2020_0004,
    0x4f,
    0x40_0000_0400_3f40,
    0x408_0000_2b7c,
    0x49_0049,
    0,
    0x200_3f48,
    0x2000_1000_2b7c,
    0x49_0049,
    0x2c,
    0x40_0000_0000_3f48,
    0x8_0000_2b7c,
    0x49_0049,
    0x2c,
    0x400_3f48,
    0x2000_1000_2b7c,
    0x49_0049,
    0x58,
    0x40_0000_0200_3f48,
    0x8_0000_2b7c,
    0x49_0049,
    0x58,
    0x3f_5e82,
    13,
    0,
    2,
    0xffff_ec78,
    0x1_0000_1388,
    0xe_0000_0000,
    0,
    0x2_0000_0000,
    0x1388_0000_0000,
    0x3a98_0000_0000,
    1,
    15,
    0,
    2,
    0x3a98,
    0x1_0000_61a8,
    0x2_0000_0000,
    0x3141,
];

/// Tile 519120 of level 2 has nodes 4 and 7. The transition of node 4, word 24, leads to node 0 of tile 2025 of level
/// 0. Two base edges of other levels start at node 4 before that of way 20, whose local index is 2.
const EXIT: [u64; 30] = [
    0x3130_454c_4954_4a4d,
    0x3f_5e82,
    0,
    0x2_0000_0002,
    1,
    0,
    0x28,
    0x1_0000_0000_00f0,
    4,
    0x1388_0000_0000,
    0x8_0000_0020_0000,
    0x4f,
    7,
    0x1388_0000_2710,
    0x2020_0001,
    0x4f,
    0x23f_5e82,
    0x2000_2000_2b7c,
    0x6_004f_004f,
    0,
    0x3f_5e82,
    0x10_0000_2b7c,
    0x6_004f_004f,
    0,
    0x3f48,
    0x14,
    0,
    2,
    0x2710_0000_1388,
    0x1388,
];

#[test]
fn a_motorway_and_a_street(rt: HostRuntime) -> Result<(), Fail> {
    let mut objects = BlockWriter::new(rt.alloc())?;
    for (id, lon) in [
        (1, -25_000),
        (2, -15_000),
        (3, -5_000),
        (4, 5_000),
        (5, 15_000),
        (6, 25_000),
    ] {
        objects.node(id, 0, lon, "")?;
    }
    objects.node(7, 10_000, 5_000, "")?;
    for (id, from, to) in [(11, 1, 2), (12, 2, 3), (13, 3, 4), (14, 4, 5), (15, 5, 6)] {
        objects.way(id, "highway=motorway;oneway=no;name=A1", &[from, to])?;
    }
    objects.way(20, "highway=residential", &[4, 7])?;
    let (status, host) = built(&rt, &objects, "auto")?;
    assert_eq!(rt; (status, host.said.len()), (0, 0));
    assert!(rt;
        puts_are(
            rt.alloc(),
            &host,
            "out/0/002/024.gph out/0/002/025.gph out/2/000/519/120.gph"
        )?
    );
    assert!(rt; file_is(rt.alloc(), &host, "out/0/002/024.gph", &MOTORWAY_WEST)?);
    assert!(rt; file_is(rt.alloc(), &host, LEVEL_0, &MOTORWAY_EAST)?);
    assert!(rt; file_is(rt.alloc(), &host, TILE_PATH, &EXIT)?);
    Ok(())
}

/// Primary way 10 from node 1 to node 2, tertiary way 11 from there to 3, and service way 12 to 4. Node 2 has two
/// transitions on each level, in order of level: here to node 0 of the tile of level 1, and to node 0 of that of level
/// 2.
const PRIMARY: [u64; 31] = [
    0x3130_454c_4954_4a4d,
    0x3f48,
    0xfece_d300,
    0x2_0000_0002,
    2,
    0,
    0x28,
    0x4f_0000_0000_00f8,
    1,
    0,
    0x20_0000,
    0x4f,
    2,
    0x2710_0000_0000,
    0x10_0000_0020_0001,
    0x4f,
    0x200_3f48,
    0x2000_0000_2b7c,
    0x2_004f_004f,
    0,
    0x3f48,
    0x2b7c,
    0x2_004f_004f,
    0,
    0x3_fa21,
    0x3f_5e82,
    10,
    0,
    2,
    0,
    0x2710,
];

/// On level 1 the transitions of node 2 lead to node 1 of the tile of level 0, and to node 0 of that of level 2. The
/// local index of way 11 is 1.
const TERTIARY: [u64; 31] = [
    0x3130_454c_4954_4a4d,
    0x3_fa21,
    0,
    0x2_0000_0002,
    2,
    0,
    0x28,
    0x4f_0000_0000_00f8,
    2,
    0x2710_0000_0000,
    0x10_0000_0020_0000,
    0x4f,
    3,
    0x4e20_0000_0000,
    0x4020_0001,
    0x4f,
    0x203_fa21,
    0x2000_1000_2b7c,
    0x4_004f_004f,
    0,
    0x3_fa21,
    0x8_0000_2b7c,
    0x4_004f_004f,
    0,
    0x200_3f48,
    0x3f_5e82,
    11,
    0,
    2,
    0x2710,
    0x4e20,
];

/// On level 2 the transitions of node 2 lead to node 1 of the tile of level 0, and to node 0 of that of level 1. The
/// local index of way 12 is 2.
const SERVICE: [u64; 31] = [
    0x3130_454c_4954_4a4d,
    0x3f_5e82,
    0,
    0x2_0000_0002,
    2,
    0,
    0x28,
    0x4f_0000_0000_00f8,
    2,
    0x2710_0000_0000,
    0x10_0000_0020_0000,
    0x4f,
    4,
    0x7530_0000_0000,
    0x4020_0001,
    0x4f,
    0x23f_5e82,
    0x2000_2000_56f8,
    0x7_004f_004f,
    0,
    0x3f_5e82,
    0x10_0000_56f8,
    0x7_004f_004f,
    0,
    0x200_3f48,
    0x3_fa21,
    12,
    0,
    2,
    0x2710,
    0x7530,
];

#[test]
fn a_junction_on_three_levels(rt: HostRuntime) -> Result<(), Fail> {
    let mut objects = BlockWriter::new(rt.alloc())?;
    objects.nodes_in_a_row(4)?;
    objects.way(10, "highway=primary", &[1, 2])?;
    objects.way(11, "highway=tertiary", &[2, 3])?;
    objects.way(12, "highway=service", &[2, 4])?;
    let (status, host) = built(&rt, &objects, ALL)?;
    assert_eq!(rt; (status, host.said.len()), (0, 0));
    assert!(rt;
        puts_are(
            rt.alloc(),
            &host,
            "out/0/002/025.gph out/1/032/580.gph out/2/000/519/120.gph"
        )?
    );
    assert!(rt; file_is(rt.alloc(), &host, LEVEL_0, &PRIMARY)?);
    assert!(rt; file_is(rt.alloc(), &host, LEVEL_1, &TERTIARY)?);
    assert!(rt; file_is(rt.alloc(), &host, TILE_PATH, &SERVICE)?);
    Ok(())
}

/// Trunk way 10 from node 1 to node 2, a gate that is closed to all modes, and residential way 11 from there to node
/// 3. Node 2 is closed on both levels, and has a transition on each.
const TO_THE_GATE: [u64; 30] = [
    0x3130_454c_4954_4a4d,
    0x3f48,
    0xfece_d300,
    0x2_0000_0002,
    1,
    0,
    0x28,
    0x4f_0000_0000_00f0,
    1,
    0,
    0x20_0000,
    0x4f,
    2,
    0x2710_0000_0000,
    0x8_0000_0020_0001,
    0x10_0000,
    0x200_3f48,
    0x2000_0000_2b7c,
    0x1_004f_004f,
    0,
    0x3f48,
    0x2b7c,
    0x1_004f_004f,
    0,
    0x3f_5e82,
    10,
    0,
    2,
    0,
    0x2710,
];

/// On level 2: nodes 2 and 3.
const BEHIND_THE_GATE: [u64; 30] = [
    0x3130_454c_4954_4a4d,
    0x3f_5e82,
    0,
    0x2_0000_0002,
    1,
    0,
    0x28,
    0x4f_0000_0000_00f0,
    2,
    0x2710_0000_0000,
    0x8_0000_0020_0000,
    0x10_0000,
    3,
    0x4e20_0000_0000,
    0x2020_0001,
    0x4f,
    0x23f_5e82,
    0x2000_1000_2b7c,
    0x6_004f_004f,
    0,
    0x3f_5e82,
    0x8_0000_2b7c,
    0x6_004f_004f,
    0,
    0x200_3f48,
    11,
    0,
    2,
    0x2710,
    0x4e20,
];

#[test]
fn a_closed_gate_between_levels(rt: HostRuntime) -> Result<(), Fail> {
    let mut objects = BlockWriter::new(rt.alloc())?;
    objects.node(1, 0, 0, "")?;
    objects.node(2, 0, 10_000, "barrier=gate;access=no")?;
    objects.node(3, 0, 20_000, "")?;
    objects.way(10, "highway=trunk", &[1, 2])?;
    objects.way(11, "highway=residential", &[2, 3])?;
    let (status, host) = built(&rt, &objects, ALL)?;
    assert_eq!(rt; (status, host.said.len()), (0, 0));
    assert!(rt; puts_are(rt.alloc(), &host, "out/0/002/025.gph out/2/000/519/120.gph")?);
    assert!(rt; file_is(rt.alloc(), &host, LEVEL_0, &TO_THE_GATE)?);
    assert!(rt; file_is(rt.alloc(), &host, TILE_PATH, &BEHIND_THE_GATE)?);
    Ok(())
}

/// Residential way 10 and secondary way 11, both from node 1 to node 2. On level 1 each node has one edge, of way 11:
/// the place of its opposing edge is 0, and its local index is 1. The transition of node 2 is the second of the tile.
const SECONDARY: [u64; 31] = [
    0x3130_454c_4954_4a4d,
    0x3_fa21,
    0,
    0x2_0000_0002,
    2,
    0,
    0x28,
    0x4f_0000_0000_00f8,
    1,
    0,
    0x8_0000_0020_0000,
    0x4f,
    2,
    0x2710_0000_0000,
    0x8_0000_2020_0001,
    0x4f,
    0x203_fa21,
    0x2008_1000_2b7c,
    0x3_004f_004f,
    0,
    0x3_fa21,
    0x8_1000_2b7c,
    0x3_004f_004f,
    0,
    0x3f_5e82,
    0x23f_5e82,
    11,
    0,
    2,
    0,
    0x2710,
];

/// On level 2 the edges of way 10 have the local index 0.
const RESIDENTIAL: [u64; 31] = [
    0x3130_454c_4954_4a4d,
    0x3f_5e82,
    0,
    0x2_0000_0002,
    2,
    0,
    0x28,
    0x4f_0000_0000_00f8,
    1,
    0,
    0x8_0000_0020_0000,
    0x4f,
    2,
    0x2710_0000_0000,
    0x8_0000_2020_0001,
    0x4f,
    0x23f_5e82,
    0x2000_0000_2b7c,
    0x6_004f_004f,
    0,
    0x3f_5e82,
    0x2b7c,
    0x6_004f_004f,
    0,
    0x3_fa21,
    0x203_fa21,
    10,
    0,
    2,
    0,
    0x2710,
];

#[test]
fn two_levels_side_by_side(rt: HostRuntime) -> Result<(), Fail> {
    let mut objects = BlockWriter::new(rt.alloc())?;
    objects.nodes_in_a_row(2)?;
    objects.way(10, "highway=residential", &[1, 2])?;
    objects.way(11, "highway=secondary", &[1, 2])?;
    let (status, host) = built(&rt, &objects, ALL)?;
    assert_eq!(rt; (status, host.said.len()), (0, 0));
    assert!(rt; puts_are(rt.alloc(), &host, "out/1/032/580.gph out/2/000/519/120.gph")?);
    assert!(rt; file_is(rt.alloc(), &host, LEVEL_1, &SECONDARY)?);
    assert!(rt; file_is(rt.alloc(), &host, TILE_PATH, &RESIDENTIAL)?);
    Ok(())
}

/// A way of each class, way k of class k - 1, each in tiles of its own: from node 2 * k - 1 at longitude
/// (k - 1) * 40,000,000 to node 2 * k.
fn eight_ways(alloc: Global) -> Result<BlockWriter, AllocError> {
    let mut objects = BlockWriter::new(alloc)?;
    let mut id = 1i64;
    let mut way = 1u64;
    let mut lon = 0i64;
    for highway in [
        "highway=motorway",
        "highway=trunk",
        "highway=primary",
        "highway=secondary",
        "highway=tertiary",
        "highway=unclassified",
        "highway=residential",
        "highway=service",
    ] {
        let end = id.saturating_add(1);
        objects.node(id, 0, lon, "")?;
        objects.node(end, 0, lon.saturating_add(10_000), "")?;
        objects.way(way, highway, &[id, end])?;
        id = id.saturating_add(2);
        way = way.saturating_add(1);
        lon = lon.saturating_add(40_000_000);
    }
    Ok(objects)
}

/// The word of a file at that index.
fn word_at(file: &[u8], index: usize) -> u64 {
    let mut word = 0u64;
    let mut weight = 1u64;
    for byte in file.iter().skip(index.saturating_mul(8)).take(8) {
        word = word.wrapping_add(weight.wrapping_mul(u64::from(*byte)));
        weight = weight.wrapping_mul(256);
    }
    word
}

// Word 18 of a tile with two nodes has the class of edge 0 in bits 32 to 34, and its modes forward and in reverse: a
// motorway is a one-way road of motor vehicles (73), all others are open to all modes (79) in both directions.
#[test]
fn a_level_for_each_class(rt: HostRuntime) -> Result<(), Fail> {
    let (status, host) = built(&rt, &eight_ways(rt.alloc())?, ALL)?;
    assert_eq!(rt; (status, host.said.len()), (0, 0));
    assert!(rt;
        puts_are(
            rt.alloc(),
            &host,
            "out/0/002/025.gph out/0/002/026.gph out/0/002/027.gph out/1/032/592.gph out/1/032/596.gph out/2/000/519/200.gph out/2/000/519/216.gph out/2/000/519/232.gph"
        )?
    );
    assert_eq!(rt;
        [
            word_at(file_of(&host, LEVEL_0), 18),
            word_at(file_of(&host, "out/0/002/026.gph"), 18),
            word_at(file_of(&host, "out/0/002/027.gph"), 18),
            word_at(file_of(&host, "out/1/032/592.gph"), 18),
            word_at(file_of(&host, "out/1/032/596.gph"), 18),
            word_at(file_of(&host, "out/2/000/519/200.gph"), 18),
            word_at(file_of(&host, "out/2/000/519/216.gph"), 18),
            word_at(file_of(&host, "out/2/000/519/232.gph"), 18),
        ],
        [
            0x49,
            0x1_004f_004f,
            0x2_004f_004f,
            0x3_004f_004f,
            0x4_004f_004f,
            0x5_004f_004f,
            0x6_004f_004f,
            0x7_004f_004f,
        ]
    );
    Ok(())
}
