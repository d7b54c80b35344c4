//! Where road is near a tile.
ghost use Rattle.std.specs.Prelude.{◌≡◌, ◌<◌, ◌≤◌, ◌++◌, List, map, IfOk, OnOk};
ghost use Rattle.tile_machine.specs.Late.{IfLate};
ghost use Rattle.work_tile.specs.WorkRows.{WorkRows};
ghost use Rattle.enhancer.specs.Enhanced.{FitPlaces};
ghost use Rattle.std.specs.List.Sorted.{IsPermutation, IsNonDecreasingBy};
ghost use Rattle.enhancer.specs.Cells.{InCells};
ghost use Rattle.enhancer.specs.declared.spots.Spot.{Spot};
ghost use Rattle.enhancer.specs.Density.{spot_of, near_tile, near_spots, tile_spots};

use crate::cells::cell_at;
use crate::density::cm_of;
use crate::held::place_of;
use crate::readable::ReadableTile;
use fixed_geo::Point;
use std::alloc::{AllocError, Global};
use tile_machine::{PartFault, Parts};
use work_tile::{NodeView, Places};

/// The place of a node with the number of its cell, and the length of the edges that start there, cut.
#[derive(Clone, Copy, Debug)]
pub(crate) struct Spot {
    pub cell: u32,
    pub at: Point,
    pub cm: u32,
}

/// The spot of a node.
fn spot_at(node: &NodeView<'_>) -> Spot
    ensures { result ≡ spot_of node.now }
{
    let at = node.at();
    Spot {
        cell: cell_at(at),
        at,
        cm: cm_of(node),
    }
}

/// Puts the spots in order of their cells.
fn put_in_order(spots: &mut Vec<Spot>)
    ensures permutation { IsPermutation spots.old.items spots.new.items }
    ensures order { IsNonDecreasingBy (λ (s : Spot). s.cell) spots.new.items }
{
    spots.sort_unstable_by_key(|spot| spot.cell);
}

/// Puts the spots of a tile behind the others.
fn put_spots(spots: &mut Vec<Spot>, rows: &ReadableTile) -> Result<(), AllocError>
    ensures { OnOk result (spots.new.items ≡ spots.old.items ++ map spot_of rows.now.nodes) }
{
    for i in 0..rows.nodes_len() {
        let node = rows.node(i);
        spots.push(spot_at(&node))?;
    }
    Ok(())
}

/// The number of a tile beside a tile, or of itself.
fn beside(tile: u32, k: u32) -> u32
    requires tile { tile < 1_036_800 }
    requires k { k < 9 }
    ensures { result ≡ near_tile tile k }
{
    (tile / 1440 + 719 + k / 3) % 720 * 1440 + (tile % 1440 + 1439 + k % 3) % 1440
}

/// Puts the spots of the tile with this number behind the others, if there is one.
fn read_spots<S: Parts<ReadableTile>>(
    alloc: Global,
    places: &Places,
    spots: &mut Vec<Spot>,
    parts: &mut S,
    tile: u32,
) -> Result<(), PartFault>
    requires shown { (ps : List WorkRows) × S.shows parts.old ps × FitPlaces places.now ps }
    ensures stays { S.stays parts.old parts.new }
    ensures lost { S.lost parts.old ≤ S.lost parts.new }
    ensures spots { OnOk result ((ps : List WorkRows) → S.shows parts.old ps → spots.new.items ≡ spots.old.items ++ tile_spots places.now ps tile) }
    ensures late { IfLate result (S.lost parts.old < S.lost parts.new) }
{
    let Some(j) = place_of(places, 2, tile) else {
        return Ok(());
    };
    let rows = parts.part(alloc, j)?;
    match put_spots(spots, &rows) {
        Ok(_) => Ok(()),
        Err(_) => Err(PartFault::OutOfMemory),
    }
}

/// The spots of the tiles that may have a node near one of this tile, tile by tile.
fn read_near<S: Parts<ReadableTile>>(
    alloc: Global,
    places: &Places,
    parts: &mut S,
    tile: u32,
) -> Result<Vec<Spot>, PartFault>
    requires tile { tile < 1_036_800 }
    requires shown { (ps : List WorkRows) × S.shows parts.old ps × FitPlaces places.now ps }
    ensures stays { S.stays parts.old parts.new }
    ensures lost { S.lost parts.old ≤ S.lost parts.new }
    ensures spots { IfOk result (λ spots. (ps : List WorkRows) → S.shows parts.old ps → spots.items ≡ near_spots places.now ps tile) }
    ensures late { IfLate result (S.lost parts.old < S.lost parts.new) }
{
    let mut spots = Vec::new(alloc);
    for k in 0..9 {
        read_spots(alloc, places, &mut spots, parts, beside(tile, k))?;
    }
    Ok(spots)
}

/// The spots of the tiles that may have a node near one of this tile, in order of their cells.
pub(crate) fn gather<S: Parts<ReadableTile>>(
    alloc: Global,
    places: &Places,
    parts: &mut S,
    tile: u32,
) -> Result<Vec<Spot>, PartFault>
    requires tile { tile < 1_036_800 }
    requires shown { (ps : List WorkRows) × S.shows parts.old ps × FitPlaces places.now ps }
    ensures stays { S.stays parts.old parts.new }
    ensures lost { S.lost parts.old ≤ S.lost parts.new }
    ensures cells { IfOk result (λ spots. InCells spots.items) }
    ensures spots { IfOk result (λ spots. (ps : List WorkRows) → S.shows parts.old ps → IsPermutation (near_spots places.now ps tile) spots.items) }
    ensures late { IfLate result (S.lost parts.old < S.lost parts.new) }
{
    let mut spots = read_near(alloc, places, parts, tile)?;
    put_in_order(&mut spots);
    Ok(spots)
}
