//! Names of roads: each text of a tile once, in the order in which the entries first name them.

use program_runs::puts_tile;
use std::test::Fail;
use test_support::BlockWriter;

/// Way 10, `Main Street`; way 11, `Main Street` and `B 7`; way 12, `B 7` as name and as ref. The texts are 0 `Main Street`
/// and 1 `B 7`; the entries name 0; 0 and 1; 1.
const NAMES: [u64; 68] = [
    0x3130_454c_4954_4a4d,
    0x3f_5e82,
    0,
    0x6_0000_0004,
    0,
    0x2_0000_0000,
    0x16_0000_0088,
    0x4f_0000_0000_0220,
    1,
    0,
    0x20_0000,
    0x4f,
    2,
    0x2710_0000_0000,
    0x40_0001,
    0x4f,
    3,
    0x4e20_0000_0000,
    0x40_0003,
    0x4f,
    4,
    0x7530_0000_0000,
    0x20_0005,
    0x4f,
    0x23f_5e82,
    0x2000_0000_2b7c,
    0x6_004f_004f,
    0,
    0x3f_5e82,
    0x2b7c,
    0x6_004f_004f,
    0,
    0x43f_5e82,
    0x2000_1000_2b7c,
    0x6_004f_004f,
    0x2c,
    0x40_0000_023f_5e82,
    0x8_0000_2b7c,
    0x6_004f_004f,
    0x2c,
    0x63f_5e82,
    0x2000_1000_2b7c,
    0x6_004f_004f,
    0x5c,
    0x40_0000_043f_5e82,
    0x8_0000_2b7c,
    0x6_004f_004f,
    0x5c,
    10,
    0,
    2,
    0,
    0x1_0000_2710,
    0xb_0000_0000,
    0,
    0x2_0000_0000,
    0x2710_0000_0000,
    0x4e20_0000_0000,
    2,
    0xc_0000_0001,
    0,
    0x2_0000_0000,
    0x4e20_0000_0000,
    0x7530_0000_0000,
    0x1_0000_0001,
    0x6e69_614d_0000_000b,
    0x374_6565_7274_5320,
    0x3720_4200_0000,
];

#[test]
fn names_and_refs(rt: HostRuntime) -> Result<(), Fail> {
    let mut objects = BlockWriter::new(rt.alloc())?;
    objects.nodes_in_a_row(4)?;
    objects.way(10, "highway=residential;name=Main Street", &[1, 2])?;
    objects.way(11, "highway=residential;name=Main Street;ref=B 7", &[2, 3])?;
    objects.way(12, "highway=residential;name=B 7;ref=B 7", &[3, 4])?;
    assert!(rt; puts_tile(&rt, &objects, "auto,pedestrian,bicycle,truck,bus", &NAMES)?);
    Ok(())
}
