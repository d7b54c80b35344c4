//! Ten streets that meet at junction 0, street `i` from there to junction `i + 1`; patterns worked out by hand.

use complex_restr::{TurnPatterns, flags, local_indexes, masks, stored};
use std::alloc::{AllocError, Global};
use std::test::Fail;

/// The number of streets.
const STREETS: u32 = 10;

/// Where the codes start.
fn star_starts(alloc: Global) -> Result<Vec<u32>, AllocError> {
    let mut starts = Vec::new(alloc);
    for street in 0..STREETS {
        starts.push(0)?;
        starts.push(street + 1)?;
    }
    Ok(starts)
}

/// The local indexes, and `None` where a start is no junction or there are too many.
fn locals_of(
    alloc: Global,
    starts: &[u32],
    junctions: usize,
) -> Result<Option<Vec<u8>>, AllocError> {
    if starts.len() > 255 || !starts.iter().all(|start| (*start as usize) < junctions) {
        return Ok(None);
    }
    let locals = local_indexes(alloc, starts, junctions)?;
    Ok(Some(locals))
}

/// Two patterns that masks tell, one past the bits, one that spares buses, one of three pieces, and the first again.
fn star_patterns(alloc: Global) -> Result<TurnPatterns, AllocError> {
    let mut patterns = TurnPatterns::new(alloc);
    patterns.push(&[1, 4], 77)?;
    patterns.push(&[1, 16], 77)?;
    patterns.push(&[1, 14], 77)?;
    patterns.push(&[3, 6], 13)?;
    patterns.push(&[5, 8, 9], 77)?;
    patterns.push(&[1, 4], 77)?;
    Ok(patterns)
}

// Street 2 has the bit 2 and street 7 the bit 7, street 8 none.
#[test]
fn star_masks(rt: HostRuntime) -> Result<(), Fail> {
    let alloc = rt.alloc();
    let starts = star_starts(alloc)?;
    let locals = locals_of(alloc, &starts, 11)?.ok_or("no locals")?;
    let told: &[u8] = &[0, 0, 1, 0, 2, 0, 3, 0, 4, 0, 5, 0, 6, 0, 7, 0, 8, 0, 9, 0];
    assert_eq!(rt; locals.as_slice(), told);
    let patterns = star_patterns(alloc)?;
    if !patterns.is_below(locals.len()) {
        return Err("a code past the last")?;
    }
    let masks = masks(alloc, &patterns, &locals)?;
    let told: &[u8] = &[0, 132, 0, 0, 0, 0, 0, 0, 0, 0, 0, 0, 0, 0, 0, 0, 0, 0, 0, 0];
    assert_eq!(rt; masks.as_slice(), told);
    Ok(())
}

// The patterns 1, 3 and 4 are sequences; the one that spares buses has a piece that isn't kept.
#[test]
fn star_sequences(rt: HostRuntime) -> Result<(), Fail> {
    let alloc = rt.alloc();
    let locals = [0, 0, 1, 0, 2, 0, 3, 0, 4, 0, 5, 0, 6, 0, 7, 0, 8, 0, 9, 0];
    let patterns = star_patterns(alloc)?;
    if !patterns.is_below(locals.len()) {
        return Err("a code past the last")?;
    }
    let flags = flags(alloc, &patterns, &locals, 10)?;
    let told: &[bool] = &[
        true, true, true, true, true, false, false, false, true, false,
    ];
    assert_eq!(rt; flags.as_slice(), told);
    let kept = [true, true, true, false, true, true, true, true, true, true];
    let stored = stored(alloc, &patterns, &locals, &kept)?;
    if stored.len() != 2 {
        return Err("two are stored")?;
    }
    assert_eq!(rt; stored.at(0).codes(), [1, 16].as_slice());
    assert_eq!(rt; stored.at(1).codes(), [5, 8, 9].as_slice());
    assert_eq!(rt; stored.at(1).modes(), 77);
    Ok(())
}
