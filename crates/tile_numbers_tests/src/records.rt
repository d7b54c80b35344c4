//! Words and fields of records, by hand.

use crate::numbered_worked;
use std::test::Fail;
use tile_records::{EdgeRec, NodeRec};

/// The end, opposing index, local indexes, `leaves_tile` and `info` of an edge.
fn told(edge: &EdgeRec) -> (u64, u8, u8, u8, bool, u32) {
    (
        edge.end.value(),
        edge.opposing,
        edge.local,
        edge.opposing_local,
        edge.leaves_tile,
        edge.info,
    )
}

// Two nodes and the piece between them: the words of each record. The second has a node on level 0.
#[test]
#[tactic(auto, unfolding(crate::specs::Worked::worked_tiles))]
fn one_piece(rt: HostRuntime) -> Result<(), Fail> {
    let tile = numbered_worked(rt.alloc(), 1, &[0, 0])?;
    let mut nodes = Vec::new(rt.alloc());
    for node in &tile.nodes {
        nodes.push(node.words())?;
    }
    let mut edges = Vec::new(rt.alloc());
    for edge in &tile.edges {
        edges.push(edge.words())?;
    }
    assert!(rt;
        nodes.as_slice()
            == [
                [1, 0, 0x20_0000, 0x4f],
                [2, 0x2710_0000_0000, 0x8_0000_0020_0001, 0x4f]
            ]
            .as_slice()
    );
    assert!(rt;
        edges.as_slice()
            == [
                [0x023f_5e82, 0x2000_0000_2b7c, 0x6_004f_004f, 0],
                [0x003f_5e82, 0x2b7c, 0x6_004f_004f, 0],
            ]
            .as_slice()
    );
    Ok(())
}

// A piece over two tiles, and one whose opposing edge is the second at its node.
#[test]
#[tactic(auto, unfolding(crate::specs::Worked::worked_tiles))]
fn two_tiles(rt: HostRuntime) -> Result<(), Fail> {
    let second = numbered_worked(rt.alloc(), 2, &[44])?;
    let third = numbered_worked(rt.alloc(), 3, &[88, 44, 88])?;
    let mut edges = Vec::new(rt.alloc());
    for edge in &second.edges {
        edges.push(told(edge))?;
    }
    for edge in &third.edges {
        edges.push(told(edge))?;
    }
    let mut indexes = Vec::new(rt.alloc());
    for node in &third.nodes {
        indexes.push((node.osm, node.edge_index, node.edge_count))?;
    }
    assert!(rt;
        edges.as_slice()
            == [
                (37_707_410, 0, 0, 2, true, 44),
                (37_707_410, 1, 0, 3, false, 88),
                (4_152_970, 0, 2, 0, true, 44),
                (4_152_978, 0, 3, 0, false, 88),
            ]
            .as_slice()
    );
    assert!(rt; indexes.as_slice() == [(5, 0, 1), (7, 1, 2)].as_slice());
    Ok(())
}

// The nodes of a junction on two levels: each is a transition of the other, and no other node has one.
#[test]
#[tactic(auto, unfolding(crate::specs::Worked::worked_tiles))]
fn two_levels(rt: HostRuntime) -> Result<(), Fail> {
    let upper = numbered_worked(rt.alloc(), 0, &[0, 0])?;
    let first = numbered_worked(rt.alloc(), 1, &[0, 0])?;
    let mut ids = Vec::new(rt.alloc());
    for id in &upper.transitions {
        ids.push(id.value())?;
    }
    for id in &first.transitions {
        ids.push(id.value())?;
    }
    let mut counts = Vec::new(rt.alloc());
    for node in &upper.nodes {
        counts.push((node.osm, node.transition_index, node.transition_count))?;
    }
    for node in &first.nodes {
        counts.push((node.osm, node.transition_index, node.transition_count))?;
    }
    assert!(rt; ids.as_slice() == [37_707_394, 16_200].as_slice());
    assert!(rt; counts.as_slice() == [(2, 0, 1), (9, 1, 0), (1, 0, 0), (2, 0, 1)].as_slice());
    Ok(())
}
