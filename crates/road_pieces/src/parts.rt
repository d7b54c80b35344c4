//! Pieces: the parts of lines between junctions.

ghost use Rattle.std.specs.Prelude.{◌≡◌, ◌<◌, ◌≤◌, ◌+◌, ◌*◌, ◌++◌, ◌∷◌, [], length, map, All, OnOk};
ghost use Rattle.osm_model.specs.OsmNode.{IsPlaced};
ghost use Rattle.osm_model.specs.declared.limits.TheConstants.{MOST_REFS};
ghost use Rattle.road_pieces.specs.Lines.{Line, IsSound};
ghost use Rattle.road_pieces.specs.Rules.{class_of, forward_access, backward_access, names_of};
ghost use Rattle.road_pieces.specs.Runs.{is_junction};
ghost use Rattle.road_pieces.specs.Parts.{part_row, line_rows};

use crate::lines::Line;
use crate::pieces::{DraftPieces, PieceHead};
use crate::rules::{names_of, read_way};
use osm_model::{Extract, Nodes, PieceKey, WayView};
use std::alloc::{AllocError, Global};
use way_tags::RoadTags;

/// Adds the piece over the nodes at these places, two or more, of a way of which the tags say this. The pieces that
/// come next have its names.
fn add_piece(
    nodes: &Nodes,
    way: &WayView<'_>,
    road: RoadTags,
    run: u32,
    piece: u32,
    places: &[u32],
    pieces: &mut DraftPieces,
) -> Result<(), AllocError>
    requires placed { All IsPlaced nodes.now }
    requires inside { All (λ p. p < length nodes.now) places.now }
    requires some { 0 < length places.now }
    requires short { length places.now ≤ MOST_REFS }
    requires class { road.class ≡ class_of way.now.tags }
    requires forward { road.forward ≡ forward_access way.now.tags }
    requires backward { road.backward ≡ backward_access way.now.tags }
    requires names { pieces.old.names ≡ names_of way.now.tags }
    requires room { pieces.old.points + length places.now ≤ 4_294_967_295 }
    ensures done { OnOk result (pieces.new.done ≡ pieces.old.done ++ part_row nodes.now way.now run piece places.now ∷ []) }
    ensures points { OnOk result (pieces.new.points ≡ pieces.old.points + length places.now) }
    ensures named { pieces.new.named ≡ pieces.old.named }
    ensures names_stay { pieces.new.names ≡ pieces.old.names }
{
    let head = PieceHead {
        key: PieceKey {
            way: way.id(),
            run,
            piece,
        },
        start: nodes.id_at(places[0] as usize),
        end: nodes.id_at(places[places.len() - 1] as usize),
        class: road.class,
        forward: road.forward,
        backward: road.backward,
    };
    pieces.push(head, nodes, places)
}

/// Adds the pieces of a line to the pieces: one between each two successive junctions of the line, which
/// begins at a junction. The tags of its way are read once. No more than twice the places of the line are added as
/// points, since each place but the first ends a piece at most, and begins one; and no more than two names.
pub(crate) fn cut_line(
    alloc: Global,
    extract: &Extract,
    flags: &[bool],
    line: &Line<'_>,
    pieces: &mut DraftPieces,
) -> Result<(), AllocError>
    requires flagged { flags.now ≡ map (λ n. is_junction extract.now n.id) extract.now.nodes }
    requires sound { IsSound extract.now (record { way = line.now.way; number = line.now.number; places = line.now.places.now }) }
    requires room { pieces.old.points + 2 * length line.now.places.now ≤ 2 * MOST_REFS }
    requires names_room { pieces.old.named ≤ 2 * MOST_REFS }
    ensures done { OnOk result (pieces.new.done ≡ pieces.old.done ++ line_rows extract.now (record { way = line.now.way; number = line.now.number; places = line.now.places.now })) }
    ensures points { OnOk result (pieces.new.points ≤ pieces.old.points + 2 * length line.now.places.now) }
    ensures named { OnOk result (pieces.new.named ≤ pieces.old.named + 2) }
{
    let nodes = &extract.nodes;
    let way = extract.ways.at(line.way as usize);
    let road = read_way(way.tags());
    let names = names_of(alloc, way.tags())?;
    pieces.name(&names)?;
    let places = line.places;
    let mut piece = 0;
    let mut from = 0;
    for to in 1..places.len() {
        if flags[places[to] as usize] {
            add_piece(
                nodes,
                &way,
                road,
                line.number,
                piece,
                &places[from..to + 1],
                pieces,
            )?;
            piece += 1;
            from = to;
        }
    }
    Ok(())
}
