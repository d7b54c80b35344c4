//! The most edges in a tile.

use program_runs::build_for;
use std::alloc::{AllocError, Global};
use std::test::Fail;
use test_support::{BlockWriter, holds, host_of};

/// The extract of nodes 0, 1 and so on, one unit apart on the equator, and of a residential way that goes 63 times to and
/// fro between each two neighbours: 63 pieces of 1 cm for each of these pairs.
fn row_of_pairs(alloc: Global, pairs: u16) -> Result<BlockWriter, AllocError> {
    let mut objects = BlockWriter::new(alloc)?;
    objects.node(0, 0, 0, "")?;
    let mut refs = Vec::new(alloc);
    refs.push(0)?;
    for pair in 0..pairs {
        let here = i64::from(pair);
        let next = here.saturating_add(1);
        objects.node(next, 0, next, "")?;
        for _ in 0..31u8 {
            refs.push(next)?;
            refs.push(here)?;
        }
        refs.push(next)?;
    }
    objects.way(10, "highway=residential", &refs)?;
    Ok(objects)
}

// 16,645 pairs have 16,645 * 126 = 2,097,270 edges; no node has more than 126.
#[test]
fn edges_in_a_tile(rt: HostRuntime) -> Result<(), Fail> {
    let bytes = row_of_pairs(rt.alloc(), 16_645)?.extract()?;
    let mut host = host_of(rt.alloc(), &bytes, &[], 65_536)?;
    assert_eq!(rt; build_for(&rt, &mut host, "auto")?, 6);
    assert_eq!(rt;
        host.said.as_slice(),
        b"error 6 TileFull level=2 tile=519120 what=edges count=2097270\n".as_slice()
    );
    assert!(rt; holds(&host, b"older", 0));
    Ok(())
}
