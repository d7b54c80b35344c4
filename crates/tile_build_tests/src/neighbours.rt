//! Roads from one tile to another: a file for each tile, in order of number.

use program_runs::{build_for, built};
use std::alloc::{AllocError, Global};
use std::test::Fail;
use std::thread::Threads;
use test_support::{BlockWriter, TILE_PATH, file_is, file_of, holds, host_of, puts_are};

const ALL: &str = "auto,pedestrian,bicycle,truck,bus";

/// The longest piece, from (0, 0) to (241,138,569, 0): 268,435,455 cm. The end lies in row 456 and column 720, so in
/// tile 456 * 1440 + 720 = 657360.
const LONGEST_SOUTH: [u64; 21] = [
    0x3130_454c_4954_4a4d,
    0x3f_5e82,
    0,
    0x1_0000_0001,
    0,
    0,
    0x28,
    0x4f_0000_0000_00a8,
    1,
    0,
    0x20_0000,
    0x4f,
    0x50_3e82,
    0x2400_0fff_ffff,
    0x6_004f_004f,
    0,
    10,
    0,
    2,
    0xe5f_7b89_0000_0000,
    0,
];

/// The other end: tile 657360, whose value is 2 + 8 * 657360 = 5258882 and whose corner is at (240,000,000, 0).
const LONGEST_NORTH: [u64; 21] = [
    0x3130_454c_4954_4a4d,
    0x50_3e82,
    0xe4e_1c00,
    0x1_0000_0001,
    0,
    0,
    0x28,
    0x4f_0000_0000_00a8,
    2,
    0xe5f_7b89,
    0x20_0000,
    0x4f,
    0x3f_5e82,
    0x400_0fff_ffff,
    0x6_004f_004f,
    0,
    10,
    0,
    2,
    0xe5f_7b89_0000_0000,
    0,
];

const LONGEST_PATHS: &str = "out/2/000/519/120.gph out/2/000/657/360.gph";

#[test]
fn the_longest_piece(rt: HostRuntime) -> Result<(), Fail> {
    let mut objects = BlockWriter::new(rt.alloc())?;
    objects.node(1, 0, 0, "")?;
    objects.node(2, 241_138_569, 0, "")?;
    objects.way(10, "highway=residential", &[1, 2])?;
    let (status, host) = built(&rt, &objects, ALL)?;
    assert_eq!(rt; (status, host.said.len()), (0, 0));
    assert!(rt; puts_are(rt.alloc(), &host, LONGEST_PATHS)?);
    assert!(rt; file_is(rt.alloc(), &host, TILE_PATH, &LONGEST_SOUTH)?);
    assert!(rt; file_is(rt.alloc(), &host, "out/2/000/657/360.gph", &LONGEST_NORTH)?);
    Ok(())
}

/// Way 10 from node 1 at (0, 2,490,000) in tile 519120 to node 2 at (0, 2,500,000), where tile 519121 begins, and way 11
/// from there to node 3 at (10,000, 2,500,000). Tile 519120 has node 1 and its edge.
const WEST: [u64; 21] = [
    0x3130_454c_4954_4a4d,
    0x3f_5e82,
    0,
    0x1_0000_0001,
    0,
    0,
    0x28,
    0x4f_0000_0000_00a8,
    1,
    0x25_fe90_0000_0000,
    0x20_0000,
    0x4f,
    0x3f_5e8a,
    0x2400_0000_2b7c,
    0x6_004f_004f,
    0,
    10,
    0,
    2,
    0x25_fe90,
    0x26_25a0,
];

/// Tile 519121 has nodes 2 and 3. Way 10 has an entry in both.
const EAST: [u64; 38] = [
    0x3130_454c_4954_4a4d,
    0x3f_5e8a,
    0x26_25a0_0000_0000,
    0x3_0000_0002,
    0,
    0,
    0x50,
    0x4f_0000_0000_0130,
    2,
    0x26_25a0_0000_0000,
    0x40_0000,
    0x4f,
    3,
    0x26_25a0_0000_2710,
    0x20_0002,
    0x4f,
    0x3f_5e82,
    0x400_0000_2b7c,
    0x6_004f_004f,
    0,
    0x23f_5e8a,
    0x2000_1000_2b7c,
    0x6_004f_004f,
    0x28,
    0x40_0000_003f_5e8a,
    0x8_0000_2b7c,
    0x6_004f_004f,
    0x28,
    10,
    0,
    2,
    0x25_fe90,
    0x26_25a0,
    11,
    0,
    2,
    0x2710_0026_25a0,
    0x26_25a0,
];

/// Ways 10 and 11 over nodes 1, 2 and 3.
fn two_tiles(alloc: Global) -> Result<BlockWriter, AllocError> {
    let mut objects = BlockWriter::new(alloc)?;
    for (id, lat, lon) in [(1, 0, 2_490_000), (2, 0, 2_500_000), (3, 10_000, 2_500_000)] {
        objects.node(id, lat, lon, "")?;
    }
    objects.way(10, "highway=residential", &[1, 2])?;
    objects.way(11, "highway=residential", &[2, 3])?;
    Ok(objects)
}

#[test]
fn neighbouring_tiles(rt: HostRuntime) -> Result<(), Fail> {
    let (status, host) = built(&rt, &two_tiles(rt.alloc())?, ALL)?;
    assert_eq!(rt; (status, host.said.len()), (0, 0));
    assert!(rt;
        puts_are(
            rt.alloc(),
            &host,
            "out/2/000/519/120.gph out/2/000/519/121.gph"
        )?
    );
    assert!(rt; file_is(rt.alloc(), &host, TILE_PATH, &WEST)?);
    assert!(rt; file_is(rt.alloc(), &host, "out/2/000/519/121.gph", &EAST)?);
    Ok(())
}

/// Whether a build of the two tiles where this call fails ends with status 4 and its line.
fn put_fails<R: Threads + Sync + AllocGlobal>(
    rt: &R,
    failing: u64,
    tile: &[u8],
    puts: usize,
) -> Result<bool, AllocError> {
    let bytes = two_tiles(rt.alloc())?.extract()?;
    let mut host = host_of(rt.alloc(), &bytes, &[failing], 65_536)?;
    let status = build_for(rt, &mut host, ALL)?;
    Ok(
        status == 4
            && holds(&host, tile, puts)
            && host.said.as_slice() == b"error 4 put\n".as_slice(),
    )
}

// The last two calls put the files. Where the second fails, the first stands.
#[test]
fn a_put_fails(rt: HostRuntime) -> Result<(), Fail> {
    let (status, whole) = built(&rt, &two_tiles(rt.alloc())?, ALL)?;
    let last = whole.calls.saturating_sub(1);
    assert_eq!(rt;
        (status, file_is(rt.alloc(), &whole, TILE_PATH, &WEST)?),
        (0, true)
    );
    assert!(rt; put_fails(&rt, last.saturating_sub(1), b"older", 0)?);
    assert!(rt; put_fails(&rt, last, file_of(&whole, TILE_PATH), 1)?);
    Ok(())
}
