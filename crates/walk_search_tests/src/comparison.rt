//! Both searches on extracts that are drawn at random: all pairs of junctions, all lengths up to the bound, each mode.

use crate::bits::count;
use crate::dice::Dice;
use crate::draws::{Drawn, draw, written};
use crate::read_graph::{Graph, graph_of};
use crate::road_search::{Roads, road_ends, roads_of};
use crate::tile_search::tile_ends;
use program_runs::built;
use std::alloc::{AllocError, Global};
use std::test::Fail;
use std::thread::Threads;

/// Lists of asked modes, and their numbers.
const ASKED: [(&str, u16); 4] = [
    ("auto,pedestrian,bicycle,truck,bus", 79),
    ("auto", 1),
    ("pedestrian,bicycle", 6),
    ("bus,truck", 72),
];

/// The number of each mode.
const MODES: [u16; 5] = [1, 2, 4, 8, 64];

/// What was compared: extracts on which the searches agree, those of them with transitions, and the walks, each told by its
/// mode, its ends and its length.
#[derive(Clone, Copy, Debug)]
struct Compared {
    agreed: u64,
    with_transitions: u64,
    walks: u64,
}

/// The walks of a mode, if both searches find the same ones from each node.
fn same_walks(
    alloc: Global,
    drawn: &Drawn,
    roads: &Roads,
    graph: &Graph,
    mode: u16,
) -> Result<Option<u64>, AllocError> {
    let mut walks = 0u64;
    for start in 1..8 {
        let ends = road_ends(alloc, drawn, roads, start, mode)?;
        if ends.as_slice() != tile_ends(alloc, graph, start, mode)?.as_slice() {
            return Ok(None);
        }
        walks = walks.saturating_add(count(&ends));
    }
    Ok(Some(walks))
}

/// The walks of all modes, if both searches find the same ones.
fn same_in_each_mode(
    alloc: Global,
    drawn: &Drawn,
    roads: &Roads,
    graph: &Graph,
) -> Result<Option<u64>, AllocError> {
    let mut walks = 0u64;
    for mode in MODES {
        match same_walks(alloc, drawn, roads, graph, mode)? {
            Some(more) => walks = walks.saturating_add(more),
            None => return Ok(None),
        }
    }
    Ok(Some(walks))
}

/// The graph of the tiles that are built of an extract for these modes, if that is done and its files spell tiles.
fn built_graph<R: Threads + Sync + AllocGlobal>(
    rt: &R,
    drawn: &Drawn,
    modes: &str,
) -> Result<Option<Graph>, AllocError> {
    let (status, host) = built(rt, &written(rt.alloc(), drawn)?, modes)?;
    if status != 0 {
        return Ok(None);
    }
    graph_of(rt.alloc(), &host)
}

/// Compares both searches on the next extract.
fn compare<R: Threads + Sync + AllocGlobal>(
    rt: &R,
    dice: &mut Dice,
    compared: &mut Compared,
) -> Result<(), AllocError> {
    let drawn = draw(rt.alloc(), dice)?;
    let (modes, asked) = ASKED[dice.roll(4) as usize];
    let roads = roads_of(rt.alloc(), &drawn, asked)?;
    if let Some(graph) = built_graph(rt, &drawn, modes)? {
        if let Some(walks) = same_in_each_mode(rt.alloc(), &drawn, &roads, &graph)? {
            compared.agreed = compared.agreed.saturating_add(1);
            compared.walks = compared.walks.saturating_add(walks);
        }
        if graph.items.iter().any(|item| item.is_transition) {
            compared.with_transitions = compared.with_transitions.saturating_add(1);
        }
    }
    Ok(())
}

/// Compares both searches on thirty extracts, drawn from there on.
fn compare_thirty<R: Threads + Sync + AllocGlobal>(
    rt: &R,
    state: u64,
) -> Result<[u64; 3], AllocError> {
    let mut dice = Dice { state };
    let mut compared = Compared {
        agreed: 0,
        with_transitions: 0,
        walks: 0,
    };
    for _ in 0..30 {
        compare(rt, &mut dice, &mut compared)?;
    }
    Ok([compared.agreed, compared.with_transitions, compared.walks])
}

// How many extracts have transitions, and how many walks there are, was counted by another program.
#[test]
fn first_thirty(rt: HostRuntime) -> Result<(), Fail> {
    assert_eq!(rt; compare_thirty(&rt, 1)?, [30, 10, 3_301]);
    Ok(())
}

#[test]
fn second_thirty(rt: HostRuntime) -> Result<(), Fail> {
    assert_eq!(rt; compare_thirty(&rt, 2)?, [30, 15, 2_416]);
    Ok(())
}

#[test]
fn third_thirty(rt: HostRuntime) -> Result<(), Fail> {
    assert_eq!(rt; compare_thirty(&rt, 3)?, [30, 7, 2_279]);
    Ok(())
}

#[test]
fn fourth_thirty(rt: HostRuntime) -> Result<(), Fail> {
    assert_eq!(rt; compare_thirty(&rt, 4)?, [30, 12, 2_749]);
    Ok(())
}

#[test]
fn fifth_thirty(rt: HostRuntime) -> Result<(), Fail> {
    assert_eq!(rt; compare_thirty(&rt, 5)?, [30, 13, 2_861]);
    Ok(())
}

#[test]
fn sixth_thirty(rt: HostRuntime) -> Result<(), Fail> {
    assert_eq!(rt; compare_thirty(&rt, 6)?, [30, 14, 2_722]);
    Ok(())
}

#[test]
fn seventh_thirty(rt: HostRuntime) -> Result<(), Fail> {
    assert_eq!(rt; compare_thirty(&rt, 7)?, [30, 7, 1_989]);
    Ok(())
}

#[test]
fn eighth_thirty(rt: HostRuntime) -> Result<(), Fail> {
    assert_eq!(rt; compare_thirty(&rt, 8)?, [30, 9, 4_352]);
    Ok(())
}

#[test]
fn ninth_thirty(rt: HostRuntime) -> Result<(), Fail> {
    assert_eq!(rt; compare_thirty(&rt, 9)?, [30, 13, 3_135]);
    Ok(())
}

#[test]
fn tenth_thirty(rt: HostRuntime) -> Result<(), Fail> {
    assert_eq!(rt; compare_thirty(&rt, 10)?, [30, 10, 2_950]);
    Ok(())
}
