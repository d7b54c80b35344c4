//! A path, stars, loops and two parts.

use crate::drawn::answers;
use std::alloc::{AllocError, Global};
use std::test::Fail;

/// How many are true.
fn count(found: &[bool]) -> usize {
    found.iter().filter(|b| **b).count()
}

/// Pieces 0-1, 1-2, .. of a path of 65 junctions.
fn path(alloc: Global) -> Result<Vec<(u32, u32)>, AllocError> {
    let mut pieces = Vec::new(alloc);
    for at in 0..64u32 {
        pieces.push((at, at + 1))?;
    }
    Ok(pieces)
}

/// Pieces from junction 0 to each of so many others.
fn star(alloc: Global, leaves: u32) -> Result<Vec<(u32, u32)>, AllocError> {
    let mut pieces = Vec::new(alloc);
    for leaf in 0..leaves {
        pieces.push((0, leaf.wrapping_add(1)))?;
    }
    Ok(pieces)
}

/// Behind 0 to 1 lie 64 junctions, and so behind 64 to 63; behind each other piece at most 63.
#[test]
fn path_of_65(rt: HostRuntime) -> Result<(), Fail> {
    let pieces = path(rt.alloc())?;
    let found = answers(rt.alloc(), 65, pieces.as_slice())?;
    assert!(rt; found.len() == 128 && !found[0] && !found[127]);
    assert!(rt; count(found.as_slice()) == 126);
    Ok(())
}

/// Behind a leaf's way in lie the centre and the 62 other leaves.
#[test]
fn star_of_63_leaves(rt: HostRuntime) -> Result<(), Fail> {
    let pieces = star(rt.alloc(), 63)?;
    let found = answers(rt.alloc(), 64, pieces.as_slice())?;
    assert!(rt; found.len() == 126 && count(found.as_slice()) == 126);
    Ok(())
}

/// One leaf more, and only the ways out have few behind them. The marks of each flood that was cut short are gone.
#[test]
fn star_of_64_leaves(rt: HostRuntime) -> Result<(), Fail> {
    let pieces = star(rt.alloc(), 64)?;
    let found = answers(rt.alloc(), 65, pieces.as_slice())?;
    assert!(rt; found.len() == 128 && found[0] && !found[1] && found[126] && !found[127]);
    assert!(rt; count(found.as_slice()) == 64);
    Ok(())
}

/// A triangle 0, 1, 2 with a dead end from 2 to 3: only the dead end's piece has few behind it, on both sides.
#[test]
fn triangle_with_dead_end(rt: HostRuntime) -> Result<(), Fail> {
    let found = answers(rt.alloc(), 4, &[(0, 1), (1, 2), (2, 0), (2, 3)])?;
    assert!(rt;
        found.as_slice() == [false, false, false, false, false, false, true, true].as_slice()
    );
    Ok(())
}

/// A piece that ends where it starts, and two pieces between the same junctions, never have.
#[test]
fn loop_and_pair(rt: HostRuntime) -> Result<(), Fail> {
    let found = answers(rt.alloc(), 2, &[(0, 0), (0, 1), (1, 0)])?;
    assert!(rt; found.as_slice() == [false, false, false, false, false, false].as_slice());
    Ok(())
}

/// Two parts, and a junction without a piece: what isn't connected doesn't count.
#[test]
fn two_parts(rt: HostRuntime) -> Result<(), Fail> {
    let found = answers(rt.alloc(), 6, &[(0, 1), (3, 4), (4, 5), (5, 3)])?;
    assert!(rt;
        found.as_slice() == [true, true, false, false, false, false, false, false].as_slice()
    );
    Ok(())
}
