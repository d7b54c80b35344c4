//! Roads of several levels over the border of a tile, and up to longitude 180.

use program_runs::built;
use std::test::Fail;
use test_support::{BlockWriter, file_is, puts_are};

const ALL: &str = "auto,pedestrian,bicycle,truck,bus";

/// The tile of level 0 at the place (0, 0): in row 22 and column 45 of 90.
const LEVEL_0: &str = "out/0/002/025.gph";

/// Primary way 10 from node 1 at (0, 39,990,000) to node 2 at (0, 40,000,000), where tile 2026 of level 0 begins, and
/// residential way 11 from there to node 3.
const BEFORE_THE_BORDER: [u64; 21] = [
    0x3130_454c_4954_4a4d,
    0x3f48,
    0xfece_d300,
    0x1_0000_0001,
    0,
    0,
    0x28,
    0x4f_0000_0000_00a8,
    1,
    0x262_32f0_0000_0000,
    0x20_0000,
    0x4f,
    0x3f50,
    0x2400_0000_2b7c,
    0x2_004f_004f,
    0,
    10,
    0,
    2,
    0x262_32f0,
    0x262_5a00,
];

/// Tile 2026 has node 2, with a transition to node 0 of tile 519136 of level 2, and the edge back to tile 2025.
const AT_THE_BORDER: [u64; 22] = [
    0x3130_454c_4954_4a4d,
    0x3f50,
    0x262_5a00_fece_d300,
    0x1_0000_0001,
    1,
    0,
    0x28,
    0x4f_0000_0000_00b0,
    2,
    0x262_5a00_0000_0000,
    0x8_0000_0020_0000,
    0x4f,
    0x3f48,
    0x400_0000_2b7c,
    0x2_004f_004f,
    0,
    0x3f_5f02,
    10,
    0,
    2,
    0x262_32f0,
    0x262_5a00,
];

/// Tile 519136 of level 2, in column 720 + 16: nodes 2 and 3.
const STREET_AT_THE_BORDER: [u64; 30] = [
    0x3130_454c_4954_4a4d,
    0x3f_5f02,
    0x262_5a00_0000_0000,
    0x2_0000_0002,
    1,
    0,
    0x28,
    0x4f_0000_0000_00f0,
    2,
    0x262_5a00_0000_0000,
    0x8_0000_0020_0000,
    0x4f,
    3,
    0x262_5a00_0000_2710,
    0x2020_0001,
    0x4f,
    0x23f_5f02,
    0x2000_1000_2b7c,
    0x6_004f_004f,
    0,
    0x3f_5f02,
    0x8_0000_2b7c,
    0x6_004f_004f,
    0,
    0x3f50,
    11,
    0,
    2,
    0x2710_0262_5a00,
    0x262_5a00,
];

#[test]
fn a_main_road_over_two_tiles(rt: HostRuntime) -> Result<(), Fail> {
    let mut objects = BlockWriter::new(rt.alloc())?;
    for (id, lat, lon) in [
        (1, 0, 39_990_000),
        (2, 0, 40_000_000),
        (3, 10_000, 40_000_000),
    ] {
        objects.node(id, lat, lon, "")?;
    }
    objects.way(10, "highway=primary", &[1, 2])?;
    objects.way(11, "highway=residential", &[2, 3])?;
    let (status, host) = built(&rt, &objects, ALL)?;
    assert_eq!(rt; (status, host.said.len()), (0, 0));
    assert!(rt;
        puts_are(
            rt.alloc(),
            &host,
            "out/0/002/025.gph out/0/002/026.gph out/2/000/519/136.gph"
        )?
    );
    assert!(rt; file_is(rt.alloc(), &host, LEVEL_0, &BEFORE_THE_BORDER)?);
    assert!(rt; file_is(rt.alloc(), &host, "out/0/002/026.gph", &AT_THE_BORDER)?);
    assert!(rt;
        file_is(
            rt.alloc(),
            &host,
            "out/2/000/519/136.gph",
            &STREET_AT_THE_BORDER
        )?
    );
    Ok(())
}

/// Primary way 10 from node 1 at (0, 1,799,990,000) to node 2 at (0, 1,800,000,000), which lies in the last column
/// too: tile 2069 of level 0, in row 22 and column 89.
const AT_THE_EDGE: [u64; 30] = [
    0x3130_454c_4954_4a4d,
    0x40a8,
    0x68e7_7800_fece_d300,
    0x2_0000_0002,
    1,
    0,
    0x28,
    0x4f_0000_0000_00f0,
    1,
    0x6b49_aaf0_0000_0000,
    0x20_0000,
    0x4f,
    2,
    0x6b49_d200_0000_0000,
    0x8_0000_0020_0001,
    0x4f,
    0x200_40a8,
    0x2000_0000_2b7c,
    0x2_004f_004f,
    0,
    0x40a8,
    0x2b7c,
    0x2_004f_004f,
    0,
    0x3_ffb9,
    10,
    0,
    2,
    0x6b49_aaf0,
    0x6b49_d200,
];

/// Secondary way 11 leads on from node 2 to node 3 at (0, -1,799,990,000), 111.32 m away. Node 3 lies in the first
/// column: tile 32400 of level 1.
const BEYOND_THE_EDGE: [u64; 21] = [
    0x3130_454c_4954_4a4d,
    0x3_f481,
    0x94b6_2e00_0000_0000,
    0x1_0000_0001,
    0,
    0,
    0x28,
    0x4f_0000_0000_00a8,
    3,
    0x94b6_5510_0000_0000,
    0x20_0000,
    0x4f,
    0x3_ffb9,
    0x408_0000_2b7c,
    0x3_004f_004f,
    0,
    11,
    0,
    2,
    0x6b49_d200,
    0x94b6_5510,
];

/// Node 2 lies in tile 32759 of level 1, in column 359.
const EDGE_OF_LEVEL_1: [u64; 22] = [
    0x3130_454c_4954_4a4d,
    0x3_ffb9,
    0x6ab1_3b80_0000_0000,
    0x1_0000_0001,
    1,
    0,
    0x28,
    0x4f_0000_0000_00b0,
    2,
    0x6b49_d200_0000_0000,
    0x8_0000_0020_0000,
    0x4f,
    0x3_f481,
    0x2400_1000_2b7c,
    0x3_004f_004f,
    0,
    0x200_40a8,
    11,
    0,
    2,
    0x6b49_d200,
    0x94b6_5510,
];

#[test]
fn longitude_180(rt: HostRuntime) -> Result<(), Fail> {
    let mut objects = BlockWriter::new(rt.alloc())?;
    for (id, lon) in [(1, 1_799_990_000), (2, 1_800_000_000), (3, -1_799_990_000)] {
        objects.node(id, 0, lon, "")?;
    }
    objects.way(10, "highway=primary", &[1, 2])?;
    objects.way(11, "highway=secondary", &[2, 3])?;
    let (status, host) = built(&rt, &objects, ALL)?;
    assert_eq!(rt; (status, host.said.len()), (0, 0));
    assert!(rt;
        puts_are(
            rt.alloc(),
            &host,
            "out/0/002/069.gph out/1/032/400.gph out/1/032/759.gph"
        )?
    );
    assert!(rt; file_is(rt.alloc(), &host, "out/0/002/069.gph", &AT_THE_EDGE)?);
    assert!(rt; file_is(rt.alloc(), &host, "out/1/032/400.gph", &BEYOND_THE_EDGE)?);
    assert!(rt; file_is(rt.alloc(), &host, "out/1/032/759.gph", &EDGE_OF_LEVEL_1)?);
    Ok(())
}
