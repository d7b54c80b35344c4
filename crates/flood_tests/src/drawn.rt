//! A graph that is given by its pieces, each a pair of junctions.

use bounded_flood::{FloodMarks, Link, lists_fit};
use std::alloc::{AllocError, Global};

/// Puts the links of one junction behind the others.
fn push_links(
    links: &mut Vec<Link>,
    pieces: &[(u32, u32)],
    junction: u32,
) -> Result<(), AllocError> {
    let mut piece = 0u32;
    for ends in pieces {
        let (from, to) = *ends;
        if from == junction {
            links.push(Link { end: to, piece })?;
        }
        if to == junction {
            links.push(Link { end: from, piece })?;
        }
        piece = piece.wrapping_add(1);
    }
    Ok(())
}

/// Puts the answer for a piece behind the others, or none where the lists aren't of one graph.
fn push_answer(
    found: &mut Vec<bool>,
    starts: &[u32],
    links: &[Link],
    marks: &mut FloodMarks,
    left: u32,
    ends: (u32, u32),
) -> Result<(), AllocError> {
    let (u, v) = ends;
    let inside = (u as usize) < marks.junctions() && (v as usize) < marks.junctions();
    if inside
        && marks.junctions() < starts.len()
        && marks.junctions() >= starts.len() - 1
        && lists_fit(starts, links)
    {
        found.push(marks.is_cut_off(starts, links, left, u, v))?;
    }
    Ok(())
}

/// Of each piece, forward and then backward, whether few junctions lie behind it. One set of marks serves all.
pub fn answers(
    alloc: Global,
    junctions: u32,
    pieces: &[(u32, u32)],
) -> Result<Vec<bool>, AllocError> {
    let mut starts = Vec::new(alloc);
    let mut links = Vec::new(alloc);
    starts.push(0)?;
    for junction in 0..junctions {
        push_links(&mut links, pieces, junction)?;
        starts.push(u32::try_from(links.len()).unwrap_or(0))?;
    }
    let mut marks = FloodMarks::new(alloc, junctions as usize)?;
    let mut found = Vec::new(alloc);
    let mut left = 0u32;
    for ends in pieces {
        let (from, to) = *ends;
        push_answer(
            &mut found,
            starts.as_slice(),
            links.as_slice(),
            &mut marks,
            left,
            (from, to),
        )?;
        push_answer(
            &mut found,
            starts.as_slice(),
            links.as_slice(),
            &mut marks,
            left,
            (to, from),
        )?;
        left = left.wrapping_add(1);
    }
    Ok(found)
}
