//! The phase: each tile is enhanced.
ghost use Rattle.std.specs.Prelude.{◌≡◌, ◌<◌, ◌≤◌, ◌++◌, ◌∷◌, [], List, length, map, All, IfOk, OnOk};
ghost use Rattle.tile_machine.specs.Late.{IfLate};
ghost use Rattle.tile_machine.specs.FinishedBy.{finished_by};
ghost use Rattle.tile_machine.proofs.FromParts.{finished-many, finished-parts, finished-agree};
ghost use Rattle.enhancer.specs.ReadableRows.{plain_rows};
ghost use Rattle.enhancer.specs.StaysPlain.{stays_plain};
ghost use Rattle.work_tile.specs.WorkRows.{WorkRows, rated_node};
ghost use Rattle.enhancer.specs.Graph.{end_of, leads_nowhere};
ghost use Rattle.enhancer.specs.NamesInCommon.{consistency_of};
ghost use Rattle.enhancer.specs.Enhanced.{FitPlaces, StandsIn, enhanced_edge, enhanced_node, enhanced_tile, enhanced_at};
ghost use Rattle.std.specs.List.Sorted.{IsPermutation};
ghost use Rattle.enhancer.specs.Cells.{InCells};
ghost use Rattle.enhancer.specs.Density.{near_spots};
ghost use Rattle.enhancer.specs.Tells.{Holds, HeldRise};

use crate::alike::consistency;
use crate::cells::density;
use crate::floods::side_of;
use crate::held::{Held, Told};
use crate::names::{NodeName, end_name, name_in};
use crate::readable::ReadableTile;
use crate::spots::{Spot, gather};
use road_pieces::{Junction, Pieces};
use std::alloc::{AllocError, Global};
use tile_machine::{PartFault, Parts, Phase};
use work_tile::{NodeView, Places, TileRows, WorkEdge, WorkTile, copy_tile};

/// Reads the rows of a place and keeps them at hand.
pub(crate) fn hold<S: Parts<ReadableTile>>(
    alloc: Global,
    places: &Places,
    held: &mut Vec<Held>,
    parts: &mut S,
    j: u64,
) -> Result<(), PartFault>
    requires inside { j < length places.now }
    requires shown { (ps : List WorkRows) × S.shows parts.old ps × FitPlaces places.now ps }
    ensures stays { S.stays parts.old parts.new }
    ensures lost { S.lost parts.old ≤ S.lost parts.new }
    ensures held { (ps : List WorkRows) → S.shows parts.old ps → Holds held.old.items ps → Holds held.new.items ps }
    ensures rise { HeldRise held.old.items → HeldRise held.new.items }
    ensures late { IfLate result (S.lost parts.old < S.lost parts.new) }
{
    let rows = parts.part(alloc, j)?;
    match held.push(Held { place: j, rows }) {
        Ok(_) => Ok(()),
        Err(_) => Err(PartFault::OutOfMemory),
    }
}

/// Whether few junctions lie behind an edge that starts at `from`. Rows that aren't at hand are read.
fn not_thru<S: Parts<ReadableTile>>(
    alloc: Global,
    places: &Places,
    held: &mut Vec<Held>,
    parts: &mut S,
    level: u32,
    from: NodeName,
    edge: &WorkEdge,
) -> Result<bool, PartFault>
    requires shown { (ps : List WorkRows) × S.shows parts.old ps × FitPlaces places.now ps }
    requires rise { HeldRise held.old.items }
    ensures stays { S.stays parts.old parts.new }
    ensures lost { S.lost parts.old ≤ S.lost parts.new }
    ensures held { (ps : List WorkRows) → S.shows parts.old ps → Holds held.old.items ps → Holds held.new.items ps }
    ensures rise { HeldRise held.new.items }
    ensures known { IfOk result (λ b. (ps : List WorkRows) → S.shows parts.old ps → Holds held.old.items ps → b ≡ leads_nowhere places.now ps level edge.now.place from (end_of edge.now)) }
    ensures late { IfLate result (S.lost parts.old < S.lost parts.new) }
{
    for _ in 0..u64::MAX {
        match side_of(
            places,
            held.as_slice(),
            level,
            edge.place,
            from,
            end_name(edge),
        ) {
            Told::Known(b) => return Ok(b),
            Told::Missing(j) => hold(alloc, places, held, parts, j)?,
        }
    }
    Err(PartFault::OutOfMemory)
}

/// The name consistency of an edge. Rows that aren't at hand are read.
fn alike<S: Parts<ReadableTile>>(
    alloc: Global,
    pieces: &Pieces,
    places: &Places,
    held: &mut Vec<Held>,
    parts: &mut S,
    level: u32,
    edge: &WorkEdge,
) -> Result<u8, PartFault>
    requires shown { (ps : List WorkRows) × S.shows parts.old ps × FitPlaces places.now ps }
    requires rise { HeldRise held.old.items }
    ensures stays { S.stays parts.old parts.new }
    ensures lost { S.lost parts.old ≤ S.lost parts.new }
    ensures held { (ps : List WorkRows) → S.shows parts.old ps → Holds held.old.items ps → Holds held.new.items ps }
    ensures rise { HeldRise held.new.items }
    ensures known { IfOk result (λ n. (ps : List WorkRows) → S.shows parts.old ps → Holds held.old.items ps → n ≡ consistency_of pieces.now places.now ps level edge.now) }
    ensures late { IfLate result (S.lost parts.old < S.lost parts.new) }
{
    for _ in 0..u64::MAX {
        match consistency(pieces, places, held.as_slice(), level, edge) {
            Told::Known(n) => return Ok(n),
            Told::Missing(j) => hold(alloc, places, held, parts, j)?,
        }
    }
    Err(PartFault::OutOfMemory)
}

/// The edge with its name consistency and whether it is not-thru. Rows that aren't at hand are read.
fn enhance_edge<S: Parts<ReadableTile>>(
    alloc: Global,
    pieces: &Pieces,
    places: &Places,
    held: &mut Vec<Held>,
    parts: &mut S,
    level: u32,
    from: NodeName,
    edge: &WorkEdge,
) -> Result<WorkEdge, PartFault>
    requires shown { (ps : List WorkRows) × S.shows parts.old ps × FitPlaces places.now ps }
    requires rise { HeldRise held.old.items }
    ensures stays { S.stays parts.old parts.new }
    ensures lost { S.lost parts.old ≤ S.lost parts.new }
    ensures held { (ps : List WorkRows) → S.shows parts.old ps → Holds held.old.items ps → Holds held.new.items ps }
    ensures rise { HeldRise held.new.items }
    ensures edge { IfOk result (λ e. (ps : List WorkRows) → S.shows parts.old ps → Holds held.old.items ps
        → e ≡ enhanced_edge pieces.now places.now ps level from.tile from.osm edge.now) }
    ensures late { IfLate result (S.lost parts.old < S.lost parts.new) }
{
    let consistency = alike(alloc, pieces, places, held, parts, level, edge)?;
    let not_thru = not_thru(alloc, places, held, parts, level, from, edge)?;
    Ok(WorkEdge {
        consistency,
        not_thru,
        ..*edge
    })
}

/// The edges of a node, with their name consistencies and whether they are not-thru, in place of those in `edges`.
fn enhance_edges<S: Parts<ReadableTile>>(
    alloc: Global,
    pieces: &Pieces,
    places: &Places,
    held: &mut Vec<Held>,
    parts: &mut S,
    level: u32,
    tile: u32,
    node: &NodeView<'_>,
    edges: &mut Vec<WorkEdge>,
) -> Result<(), PartFault>
    requires shown { (ps : List WorkRows) × S.shows parts.old ps × FitPlaces places.now ps }
    requires rise { HeldRise held.old.items }
    ensures stays { S.stays parts.old parts.new }
    ensures lost { S.lost parts.old ≤ S.lost parts.new }
    ensures held { (ps : List WorkRows) → S.shows parts.old ps → Holds held.old.items ps → Holds held.new.items ps }
    ensures rise { HeldRise held.new.items }
    ensures edges { OnOk result ((ps : List WorkRows) → S.shows parts.old ps → Holds held.old.items ps
        → edges.new.items ≡ map (enhanced_edge pieces.now places.now ps level tile node.now.osm) node.now.edges) }
    ensures late { IfLate result (S.lost parts.old < S.lost parts.new) }
{
    edges.clear();
    let from = name_in(tile, node);
    for k in 0..node.edges_len() {
        let edge = node.edge(k);
        let enhanced = enhance_edge(alloc, pieces, places, held, parts, level, from, &edge)?;
        match edges.push(enhanced) {
            Ok(_) => {}
            Err(_) => return Err(PartFault::OutOfMemory),
        }
    }
    Ok(())
}

/// Puts a node with these edges behind the others.
fn put_node(
    done: &mut TileRows,
    junction: Junction,
    density: u8,
    edges: &[WorkEdge],
) -> Result<(), AllocError>
    ensures { OnOk result (done.new ≡ record done.old { nodes = done.old.nodes ++ rated_node junction density edges.now ∷ [] }) }
{
    done.push_rated(junction, density)?;
    for edge in edges {
        done.push_edge(*edge)?;
    }
    Ok(())
}

/// Puts the node with its density and enhanced edges behind the others. `edges` is room for these.
fn enhance_node<S: Parts<ReadableTile>>(
    alloc: Global,
    pieces: &Pieces,
    places: &Places,
    held: &mut Vec<Held>,
    parts: &mut S,
    spots: &[Spot],
    node: &NodeView<'_>,
    edges: &mut Vec<WorkEdge>,
    done: &mut TileRows,
) -> Result<(), PartFault>
    requires shown { (ps : List WorkRows) × S.shows parts.old ps × FitPlaces places.now ps }
    requires rise { HeldRise held.old.items }
    requires spots { InCells spots.now }
    requires stands { StandsIn done.old.tile node.now }
    requires tile { done.old.tile < 1_036_800 }
    ensures stays { S.stays parts.old parts.new }
    ensures lost { S.lost parts.old ≤ S.lost parts.new }
    ensures held { (ps : List WorkRows) → S.shows parts.old ps → Holds held.old.items ps → Holds held.new.items ps }
    ensures rise { HeldRise held.new.items }
    ensures done { OnOk result ((ps : List WorkRows) → S.shows parts.old ps → Holds held.old.items ps → FitPlaces places.now ps
        → IsPermutation (near_spots places.now ps done.old.tile) spots.now
        → done.new ≡ record done.old { nodes = done.old.nodes ++ enhanced_node pieces.now places.now ps done.old.level done.old.tile node.now ∷ [] }) }
    ensures late { IfLate result (S.lost parts.old < S.lost parts.new) }
{
    let (level, tile) = (done.level(), done.tile());
    enhance_edges(alloc, pieces, places, held, parts, level, tile, node, edges)?;
    let density = density(spots, node.at());
    match put_node(done, node.junction(), density, edges.as_slice()) {
        Ok(_) => Ok(()),
        Err(_) => Err(PartFault::OutOfMemory),
    }
}

/// The rows of a tile, enhanced.
fn enhance_rows<S: Parts<ReadableTile>>(
    alloc: Global,
    pieces: &Pieces,
    places: &Places,
    parts: &mut S,
    rows: &TileRows,
) -> Result<TileRows, PartFault>
    requires shown { (ps : List WorkRows) × S.shows parts.old ps × FitPlaces places.now ps }
    requires tile { rows.now.tile < 1_036_800 }
    requires stand { All (StandsIn rows.now.tile) rows.now.nodes }
    ensures stays { S.stays parts.old parts.new }
    ensures lost { S.lost parts.old ≤ S.lost parts.new }
    ensures done { IfOk result (λ done. (ps : List WorkRows) → S.shows parts.old ps → FitPlaces places.now ps
        → done ≡ enhanced_tile pieces.now places.now ps rows.now) }
    ensures late { IfLate result (S.lost parts.old < S.lost parts.new) }
{
    let spots = gather(alloc, places, parts, rows.tile())?;
    let mut held = Vec::new(alloc);
    let mut edges = Vec::new(alloc);
    let mut done = TileRows::new(alloc, rows.level(), rows.tile());
    for i in 0..rows.nodes_len() {
        let node = rows.node(i);
        enhance_node(
            alloc,
            pieces,
            places,
            &mut held,
            parts,
            spots.as_slice(),
            &node,
            &mut edges,
            &mut done,
        )?;
    }
    Ok(done)
}

/// Phase Enhance: each tile gets the densities of its nodes, and the name consistency and not-thru of its edges. It reads
/// the names of the pieces of the roads; `places` are the numbers of the tiles of its world.
#[derive(Drop)]
pub struct Enhance<'a> {
    pub pieces: &'a Pieces,
    pub places: Places,
}

impl<'a> Phase for Enhance<'a> {
    type Tile = WorkTile;

    type Part = ReadableTile;

    ghost readable = { λ _ rows. plain_rows rows };

    ghost fits = { λ p world. FitPlaces p.places (map plain_rows world) };

    ghost finished = { λ p world. finished_by plain_rows (enhanced_at p.pieces.now p.places) world };

    ghost as_many = { λ p world fits. finished-many plain_rows (enhanced_at p.pieces.now p.places) world };

    ghost same_parts = { λ p world fits. finished-parts plain_rows (enhanced_at p.pieces.now p.places) (stays_plain p.pieces.now p.places) world };

    ghost from_parts = { λ p v w i fits_v fits_w here parts. finished-agree plain_rows (enhanced_at p.pieces.now p.places) v w i here parts };

    fn part(&self, _alloc: Global, tile: &WorkTile) -> Result<ReadableTile, AllocError> {
        ReadableTile::of_tile(tile)
    }

    fn copy(&self, _alloc: Global, tile: &WorkTile) -> Result<WorkTile, AllocError> {
        copy_tile(tile)
    }

    fn rewrite<S: Parts<ReadableTile>>(
        &self,
        alloc: Global,
        _i: u64,
        tile: WorkTile,
        parts: &mut S,
    ) -> Result<WorkTile, PartFault> {
        let rows = enhance_rows(alloc, self.pieces, &self.places, parts, tile.rows())?;
        match WorkTile::new(alloc, rows) {
            Ok(done) => Ok(done),
            Err(_) => Err(PartFault::OutOfMemory),
        }
    }
}
