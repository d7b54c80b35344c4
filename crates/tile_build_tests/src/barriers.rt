//! Nodes that are barriers: junctions, with the modes that pass them and a flag.

use program_runs::puts_tile;
use std::test::Fail;
use test_support::BlockWriter;

const ALL: &str = "auto,pedestrian,bicycle,truck,bus";

/// Nodes 1, 2 and 3 of a residential way, of which 2 is a bollard: pedestrians and bicycles pass it (6), and it has the
/// flag of a barrier in bit 20.
const BOLLARD: [u64; 46] = [
    0x3130_454c_4954_4a4d,
    0x3f_5e82,
    0,
    0x4_0000_0003,
    0,
    0,
    0x50,
    0x4f_0000_0000_0170,
    1,
    0,
    0x20_0000,
    0x4f,
    2,
    0x2710_0000_0000,
    0x40_0001,
    0x10_0006,
    3,
    0x4e20_0000_0000,
    0x20_0003,
    0x4f,
    0x23f_5e82,
    0x2000_0000_2b7c,
    0x6_004f_004f,
    0,
    0x3f_5e82,
    0x2b7c,
    0x6_004f_004f,
    0,
    0x43f_5e82,
    0x2000_1000_2b7c,
    0x6_004f_004f,
    0x28,
    0x40_0000_023f_5e82,
    0x8_0000_2b7c,
    0x6_004f_004f,
    0x28,
    10,
    0,
    2,
    0,
    0x2710,
    10,
    0x1_0000_0000,
    2,
    0x2710,
    0x4e20,
];

#[test]
fn a_bollard(rt: HostRuntime) -> Result<(), Fail> {
    let mut objects = BlockWriter::new(rt.alloc())?;
    objects.node(1, 0, 0, "")?;
    objects.node(2, 0, 10_000, "barrier=bollard")?;
    objects.node(3, 0, 20_000, "")?;
    objects.way(10, "highway=residential", &[1, 2, 3])?;
    assert!(rt; puts_tile(&rt, &objects, ALL, &BOLLARD)?);
    Ok(())
}

/// Nodes 1 to 4 of a residential way, of which 2 is a gate that is closed to all modes. Node 3 has `access=no` and is no
/// barrier, so no junction.
const CLOSED: [u64; 47] = [
    0x3130_454c_4954_4a4d,
    0x3f_5e82,
    0,
    0x4_0000_0003,
    0,
    0,
    0x58,
    0x4f_0000_0000_0178,
    1,
    0,
    0x20_0000,
    0x4f,
    2,
    0x2710_0000_0000,
    0x40_0001,
    0x10_0000,
    4,
    0x7530_0000_0000,
    0x20_0003,
    0x4f,
    0x23f_5e82,
    0x2000_0000_2b7c,
    0x6_004f_004f,
    0,
    0x3f_5e82,
    0x2b7c,
    0x6_004f_004f,
    0,
    0x43f_5e82,
    0x2000_1000_56f8,
    0x6_004f_004f,
    0x28,
    0x40_0000_023f_5e82,
    0x8_0000_56f8,
    0x6_004f_004f,
    0x28,
    10,
    0,
    2,
    0,
    0x2710,
    10,
    0x1_0000_0000,
    3,
    0x2710,
    0x4e20,
    0x7530,
];

#[test]
fn a_closed_gate(rt: HostRuntime) -> Result<(), Fail> {
    let mut objects = BlockWriter::new(rt.alloc())?;
    objects.node(1, 0, 0, "")?;
    objects.node(2, 0, 10_000, "barrier=gate;access=no")?;
    objects.node(3, 0, 20_000, "access=no")?;
    objects.node(4, 0, 30_000, "")?;
    objects.way(10, "highway=residential", &[1, 2, 3, 4])?;
    assert!(rt; puts_tile(&rt, &objects, ALL, &CLOSED)?);
    Ok(())
}
