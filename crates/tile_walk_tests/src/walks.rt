//! Items that are a walk, and items that are none.

use crate::graphs::graph;
use graph_id::GraphId;
use std::alloc::{AllocError, Global};
use std::test::Fail;
use tile_walks::{TileGraph, WalkItem};

/// The items that a text names, with a space between two: `e 0 2024 4` an edge by its level, tile and number, `t 0 2025 0`
/// the first transition of a node.
fn items_of(alloc: Global, text: &str) -> Result<Vec<WalkItem>, AllocError> {
    let mut items = Vec::new(alloc);
    for item in text.split(',') {
        if let Some(item) = item_of(item) {
            items.push(item)?;
        }
    }
    Ok(items)
}

/// A number in decimal, and 0 where it is none.
fn number(text: Option<&str>) -> u32 {
    match text {
        Some(text) => text.parse::<u32>().unwrap_or(0),
        None => 0,
    }
}

/// The item that a text names.
fn item_of(text: &str) -> Option<WalkItem> {
    let mut words = text.split(' ');
    let kind = words.next()?;
    let level = number(words.next());
    let tile = number(words.next());
    let id = GraphId::make(level, tile, number(words.next())).ok()?;
    if kind == "e" {
        Some(WalkItem::Edge(id))
    } else {
        Some(WalkItem::Transition { from: id, place: 0 })
    }
}

/// Whether these items are a walk for the mode.
fn is_walk(alloc: Global, graph: &TileGraph, text: &str, mode: u16) -> Result<bool, AllocError> {
    let items = items_of(alloc, text)?;
    Ok(graph.tile_walk_ok(&items, mode))
}

// Cars are mode 1, pedestrians 2.
#[test]
fn over_levels(rt: HostRuntime) -> Result<(), Fail> {
    let graph = graph(rt.alloc())?;
    for (text, mode, ok) in [
        // 3 to 4, down to level 2, 4 to 7, and the other way round
        ("e 0 2024 4,t 0 2025 0,e 2 519120 0", 1, true),
        ("e 2 519120 1,t 2 519120 0,e 0 2025 1", 1, true),
        // without the transition, twice over it, and in another order
        ("e 0 2024 4,e 2 519120 0", 1, false),
        ("t 0 2025 0,t 2 519120 0,e 0 2025 1", 1, true),
        ("t 0 2025 0,t 0 2025 0", 1, false),
        ("e 2 519120 0,t 0 2025 0,e 0 2024 4", 1, false),
        // no pedestrian goes on a motorway
        ("e 0 2024 4,t 0 2025 0,e 2 519120 0", 2, false),
        ("e 2 519120 0", 2, true),
    ] {
        assert_eq!(rt;
            is_walk(rt.alloc(), &graph, text, mode)?,
            ok,
            "{text} {mode}"
        );
    }
    Ok(())
}

#[test]
fn over_edges(rt: HostRuntime) -> Result<(), Fail> {
    let graph = graph(rt.alloc())?;
    for (text, ok) in [
        (
            "e 0 2024 0,e 0 2024 2,e 0 2024 4,e 0 2025 1,e 0 2025 3",
            true,
        ),
        ("e 0 2024 0,e 0 2024 1", true),
        ("e 0 2024 0,e 0 2024 4", false),
        ("e 0 2024 5", false),
        ("e 1 2024 0", false),
        ("t 0 2024 0", false),
    ] {
        assert_eq!(rt; is_walk(rt.alloc(), &graph, text, 1)?, ok, "{text}");
    }
    Ok(())
}
