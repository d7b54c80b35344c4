//! Extracts that are drawn at random: a few nodes close together where tiles of all levels meet, and ways of several
//! classes over them.

use crate::dice::Dice;
use crate::tag_table::{ROAD_ROWS, node_tags, road_tags};
use fixed_geo::Point;
use std::alloc::{AllocError, Global};
use test_support::BlockWriter;

/// A node, with the row of its tags in the table.
#[derive(Clone, Copy, Debug)]
pub(crate) struct DrawnNode {
    pub id: i64,
    pub at: Point,
    pub row: usize,
}

/// A way, with the row of its tags in the table.
#[derive(Debug, Drop)]
pub(crate) struct DrawnWay {
    pub row: usize,
    pub refs: Vec<i64>,
}

/// An extract.
#[derive(Debug, Drop)]
pub(crate) struct Drawn {
    pub nodes: Vec<DrawnNode>,
    pub ways: Vec<DrawnWay>,
}

impl Drawn {
    /// The node with this id, if it is in the extract.
    pub(crate) fn node(&self, id: i64) -> Option<DrawnNode> {
        self.nodes.iter().find(|node| node.id == id).copied()
    }
}

/// A number of units near to `middle`: at most three hundred apart.
fn draw_units(dice: &mut Dice, middle: i32) -> i32 {
    let hundreds = dice.roll(7) as i32;
    middle.saturating_add(hundreds.saturating_sub(3).saturating_mul(100))
}

/// Most of the nodes 1 to 7, near to the corner of tiles of all levels at (20,000,000, 40,000,000). Half of them and more
/// have no tags.
fn draw_nodes(alloc: Global, dice: &mut Dice) -> Result<Vec<DrawnNode>, AllocError> {
    let mut nodes = Vec::new(alloc);
    for id in 1..8 {
        if dice.roll(12) != 0 {
            let lat = draw_units(dice, 20_000_000);
            let lon = draw_units(dice, 40_000_000);
            let row = dice.roll(24) as usize;
            let at = Point { lat, lon };
            nodes.push(DrawnNode { id, at, row })?;
        }
    }
    Ok(nodes)
}

/// A way with tags of the table, over two to five of the nodes 1 to 7, whether they are there or not.
fn draw_way(alloc: Global, dice: &mut Dice) -> Result<DrawnWay, AllocError> {
    let row = dice.roll(ROAD_ROWS) as usize;
    let mut refs = Vec::new(alloc);
    for _ in 0..dice.roll(4).saturating_add(2) {
        refs.push((dice.roll(7) as i64).saturating_add(1))?;
    }
    Ok(DrawnWay { row, refs })
}

/// The next extract, of two to four ways.
pub(crate) fn draw(alloc: Global, dice: &mut Dice) -> Result<Drawn, AllocError> {
    let nodes = draw_nodes(alloc, dice)?;
    let mut ways = Vec::new(alloc);
    for _ in 0..dice.roll(3).saturating_add(2) {
        ways.push(draw_way(alloc, dice)?)?;
    }
    Ok(Drawn { nodes, ways })
}

/// The objects of an extract; the ways are numbered from 1.
pub(crate) fn written(alloc: Global, drawn: &Drawn) -> Result<BlockWriter, AllocError> {
    let mut objects = BlockWriter::new(alloc)?;
    for node in &drawn.nodes {
        let (lat, lon) = (i64::from(node.at.lat), i64::from(node.at.lon));
        objects.node(node.id, lat, lon, node_tags(node.row))?;
    }
    let mut id = 1u64;
    for way in &drawn.ways {
        objects.way(id, road_tags(way.row), &way.refs)?;
        id = id.saturating_add(1);
    }
    Ok(objects)
}
