//! Junctions and pieces in one tile: nodes, edges with their opposing ones, entries.

use program_runs::{puts_nothing, puts_tile};
use std::alloc::{AllocError, Global};
use std::test::Fail;
use test_support::BlockWriter;

const ALL: &str = "auto,pedestrian,bicycle,truck,bus";

/// The extract of nodes 1 to 4, 10,000 units apart on a meridian, and residential way 10 with these refs.
fn way_with(alloc: Global, refs: &[i64]) -> Result<BlockWriter, AllocError> {
    let mut objects = BlockWriter::new(alloc)?;
    for (id, lat) in [(1, 0), (2, 10_000), (3, 20_000), (4, 30_000)] {
        objects.node(id, lat, 0, "")?;
    }
    objects.way(10, "highway=residential", refs)?;
    Ok(objects)
}

/// Refs 1, 2, 3, 4, 2: the pieces 1 to 2, and the loop over 3 and 4. Three base edges start at node 2: piece 0 backward
/// (local index 0), piece 1 forward (1) and backward (2), so that the edges of the loop oppose one another.
const LOOP: [u64; 44] = [
    0x3130_454c_4954_4a4d,
    0x3f_5e82,
    0,
    0x4_0000_0002,
    0,
    0,
    0x60,
    0x4f_0000_0000_0160,
    1,
    0,
    0x20_0000,
    0x4f,
    2,
    0x2710,
    0x60_0001,
    0x4f,
    0x23f_5e82,
    0x2000_0000_2b7c,
    0x6_004f_004f,
    0,
    0x3f_5e82,
    0x2b7c,
    0x6_004f_004f,
    0,
    0x80_0000_023f_5e82,
    0x2010_1000_adf0,
    0x6_004f_004f,
    0x28,
    0x40_0000_023f_5e82,
    0x8_2000_adf0,
    0x6_004f_004f,
    0x28,
    10,
    0,
    2,
    0x2710_0000_0000,
    0,
    10,
    0x1_0000_0000,
    0x2710_0000_0004,
    0x4e20_0000_0000,
    0x7530_0000_0000,
    0x2710_0000_0000,
    0,
];

#[test]
fn a_loop(rt: HostRuntime) -> Result<(), Fail> {
    let objects = way_with(rt.alloc(), &[1, 2, 3, 4, 2])?;
    assert!(rt; puts_tile(&rt, &objects, ALL, &LOOP)?);
    Ok(())
}

/// Refs 1, 1, 2: one piece, from 1 to 2.
const ONE_PIECE: [u64; 29] = [
    0x3130_454c_4954_4a4d,
    0x3f_5e82,
    0,
    0x2_0000_0002,
    0,
    0,
    0x28,
    0x4f_0000_0000_00e8,
    1,
    0,
    0x20_0000,
    0x4f,
    2,
    0x2710,
    0x20_0001,
    0x4f,
    0x23f_5e82,
    0x2000_0000_2b7c,
    0x6_004f_004f,
    0,
    0x3f_5e82,
    0x2b7c,
    0x6_004f_004f,
    0,
    10,
    0,
    2,
    0x2710_0000_0000,
    0,
];

// Equal neighbours are taken once, and one node alone is no road.
#[test]
fn equal_neighbours(rt: HostRuntime) -> Result<(), Fail> {
    let objects = way_with(rt.alloc(), &[1, 1, 2])?;
    assert!(rt; puts_tile(&rt, &objects, ALL, &ONE_PIECE)?);
    let alone = way_with(rt.alloc(), &[1, 1])?;
    assert!(rt; puts_nothing(&rt, &alone, 0, "")?);
    Ok(())
}

/// Refs 1, 2, 99, 3, 4: run 0 from 1 to 2, and run 1 from 3 to 4.
const TWO_RUNS: [u64; 50] = [
    0x3130_454c_4954_4a4d,
    0x3f_5e82,
    0,
    0x4_0000_0004,
    0,
    0,
    0x50,
    0x4f_0000_0000_0190,
    1,
    0,
    0x20_0000,
    0x4f,
    2,
    0x2710,
    0x20_0001,
    0x4f,
    3,
    0x4e20,
    0x20_0002,
    0x4f,
    4,
    0x7530,
    0x20_0003,
    0x4f,
    0x23f_5e82,
    0x2000_0000_2b7c,
    0x6_004f_004f,
    0,
    0x3f_5e82,
    0x2b7c,
    0x6_004f_004f,
    0,
    0x63f_5e82,
    0x2000_0000_2b7c,
    0x6_004f_004f,
    0x28,
    0x43f_5e82,
    0x2b7c,
    0x6_004f_004f,
    0x28,
    10,
    0,
    2,
    0x2710_0000_0000,
    0,
    10,
    1,
    0x4e20_0000_0002,
    0x7530_0000_0000,
    0,
];

// Node 99 isn't there.
#[test]
fn a_missing_node(rt: HostRuntime) -> Result<(), Fail> {
    let objects = way_with(rt.alloc(), &[1, 2, 99, 3, 4])?;
    assert!(rt; puts_tile(&rt, &objects, ALL, &TWO_RUNS)?);
    Ok(())
}

/// Way 10 from node 1 to node 2, and way 11, a service road, from 2 to 1. At node 1 way 10 runs forward and way 11
/// backward, at node 2 the other way round.
const PARALLEL: [u64; 42] = [
    0x3130_454c_4954_4a4d,
    0x3f_5e82,
    0,
    0x4_0000_0002,
    0,
    0,
    0x50,
    0x4f_0000_0000_0150,
    1,
    0,
    0x40_0000,
    0x4f,
    2,
    0x2710_0000_0000,
    0x40_0002,
    0x4f,
    0x23f_5e82,
    0x2000_0000_2b7c,
    0x6_004f_004f,
    0,
    0x40_0000_023f_5e82,
    0x8_1000_2b7c,
    0x7_004f_004f,
    0x28,
    0x3f_5e82,
    0x2b7c,
    0x6_004f_004f,
    0,
    0x40_0000_003f_5e82,
    0x2008_1000_2b7c,
    0x7_004f_004f,
    0x28,
    10,
    0,
    2,
    0,
    0x2710,
    11,
    0,
    2,
    0x2710,
    0,
];

#[test]
fn two_ways_over_the_same_nodes(rt: HostRuntime) -> Result<(), Fail> {
    let mut objects = BlockWriter::new(rt.alloc())?;
    objects.nodes_in_a_row(2)?;
    objects.way(10, "highway=residential", &[1, 2])?;
    objects.way(11, "highway=service", &[2, 1])?;
    assert!(rt; puts_tile(&rt, &objects, ALL, &PARALLEL)?);
    Ok(())
}
