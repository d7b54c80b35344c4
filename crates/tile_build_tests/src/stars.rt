//! The most base edges at a junction.

use program_runs::{built, puts_nothing};
use std::alloc::{AllocError, Global};
use std::test::Fail;
use test_support::{BlockWriter, TILE_PATH, file_of, puts_are};

/// The extract of node 1000, and of so many residential ways from there: way k to node k, which is k units north of
/// (0, 0).
fn star(alloc: Global, ways: u8) -> Result<BlockWriter, AllocError> {
    let mut objects = BlockWriter::new(alloc)?;
    objects.node(1_000, 0, 10_000, "")?;
    for k in 1..=ways {
        let id = i64::from(k);
        objects.node(id, id, 0, "")?;
        objects.way(u64::from(k), "highway=residential", &[1_000, id])?;
    }
    Ok(objects)
}

/// A number that tells the bytes of a file: each is added to 31 times the number so far, modulo 2^64.
fn sum_of(bytes: &[u8]) -> u64 {
    let mut sum = 0u64;
    for byte in bytes {
        sum = sum.wrapping_mul(31).wrapping_add(u64::from(*byte));
    }
    sum
}

// 128 nodes, 254 edges and 127 entries: 64 + 128 * 32 + 254 * 32 + 127 * 40 bytes. The sum is that of a file which another
// program made.
#[test]
fn edges_at_a_junction(rt: HostRuntime) -> Result<(), Fail> {
    let (status, host) = built(&rt, &star(rt.alloc(), 127)?, "auto")?;
    let tile = file_of(&host, TILE_PATH);
    assert_eq!(rt;
        (status, tile.len(), sum_of(tile)),
        (0, 17_368, 0x360c_4983_7c42_e7cf)
    );
    assert!(rt; puts_are(rt.alloc(), &host, TILE_PATH)?);
    Ok(())
}

#[test]
fn one_edge_too_many(rt: HostRuntime) -> Result<(), Fail> {
    let objects = star(rt.alloc(), 128)?;
    assert!(rt;
        puts_nothing(
            &rt,
            &objects,
            6,
            "error 6 TooManyEdges node=1000 count=128\n"
        )?
    );
    Ok(())
}
