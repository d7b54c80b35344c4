//! Roads, cut into pieces at junctions.

ghost use Rattle.std.specs.Prelude.{◌≡◌, ◌<◌, ◌≤◌, ◌⊎◌, [], Option, None, Some, find, option_map, nat_lt, length, map, flat_map, All, IfOk, IfErr, OnOk};
ghost use Rattle.osm_model.specs.declared.nodes.OsmNode.{OsmNode};
ghost use Rattle.road_pieces.specs.declared.faults.CutFault.{CutFault};
ghost use Rattle.road_pieces.specs.Runs.{is_junction};
ghost use Rattle.road_pieces.specs.RoadsOf.{RoadsOf};
ghost use Rattle.road_pieces.specs.declared.limits.TheConstants.{MOST_PIECES, LONGEST_PIECE_CM};
ghost use Rattle.road_pieces.specs.Lines.{all_lines};
ghost use Rattle.road_pieces.specs.Parts.{line_rows};
ghost use Rattle.road_pieces.specs.Rows.{junction_row, junction_rows, piece_rows, too_long, refusal};

use crate::counts::{count_pieces, count_places};
use crate::crossings::find_junctions;
use crate::faults::CutFault;
use crate::limits::{LONGEST_PIECE_CM, MOST_PIECES};
use crate::lines::Lines;
use crate::parts::cut_line;
use crate::pieces::{DraftPieces, Pieces};
use crate::rows::{Junction, Junctions, Roads};
use crate::rules::{is_barrier, node_access};
use crate::survey::{Survey, find_lines};
use fixed_geo::Point;
use osm_model::{Extract, NodeView};
use std::alloc::{AllocError, Global};

/// The roads of an extract: its junctions in order of OSM id, and the pieces between them in order of key.
///
/// More than 4,000,000 pieces are refused, or else the first piece that is longer than 268,435,455 cm. Want of
/// memory is answered as `OutOfMemory`.
pub fn cut(alloc: Global, extract: &Extract) -> Result<Roads, CutFault>
    ensures roads { IfOk result (λ roads. RoadsOf extract.now roads) }

    // A refusal has its cause, and a cause is refused; only want of memory is free.
    ensures accepted { OnOk result (refusal (piece_rows extract.now) ≡ None) }
    ensures refused { IfErr result (λ fault. (fault ≡ CutFault.OutOfMemory) ⊎ (refusal (piece_rows extract.now) ≡ Some fault)) }
{
    let Survey {
        lines,
        ways,
        missing,
    } = find_lines(alloc, extract)?;
    let flags = find_junctions(alloc, extract, &lines)?;
    let count = count_pieces(&lines, flags.as_slice());
    if count > MOST_PIECES {
        return Err(CutFault::TooManyPieces { count });
    }
    let runs = lines.len() as u64;
    let pieces = cut_lines(alloc, extract, flags.as_slice(), &lines, count as usize)?;
    drop(lines);
    if let Some(fault) = first_too_long(&pieces) {
        return Err(fault);
    }
    let junctions = make_junctions(alloc, extract, flags.as_slice())?;
    Ok(Roads {
        junctions: Junctions::from_vec(junctions),
        pieces,
        ways,
        runs,
        missing,
    })
}

/// The pieces of all lines, which are so many.
fn cut_lines(
    alloc: Global,
    extract: &Extract,
    flags: &[bool],
    lines: &Lines,
    count: usize,
) -> Result<Pieces, AllocError>
    requires flagged { flags.now ≡ map (λ n. is_junction extract.now n.id) extract.now.nodes }
    requires found { lines.now.done ≡ all_lines extract.now }
    requires few { count ≤ MOST_PIECES }
    ensures { IfOk result (λ pieces. pieces ≡ flat_map (line_rows extract.now) (all_lines extract.now)) }
{
    // The pieces of a line have its points, and those between two pieces twice.
    let points = (count_places(lines) as usize + count).saturating_sub(lines.len());
    let mut pieces = DraftPieces::with_room(alloc, count, points)?;
    for i in 0..lines.len() {
        cut_line(alloc, extract, flags, &lines.line(i), &mut pieces)?;
    }
    Ok(pieces.finish())
}

/// Why the first piece that is too long is refused.
fn first_too_long(pieces: &Pieces) -> Option<CutFault>
    ensures { result ≡ option_map too_long (find (λ p. nat_lt LONGEST_PIECE_CM p.cm) pieces.now) }
{
    for i in 0..pieces.len() {
        let piece = pieces.at(i);
        if piece.cm() > LONGEST_PIECE_CM {
            let key = piece.key();
            return Some(CutFault::EdgeTooLong {
                way: key.way,
                run: key.run,
                piece: key.piece,
                cm: piece.cm(),
            });
        }
    }
    None
}

/// The nodes that are junctions.
fn make_junctions(
    alloc: Global,
    extract: &Extract,
    flags: &[bool],
) -> Result<Vec<Junction>, AllocError>
    requires { flags.now ≡ map (λ n. is_junction extract.now n.id) extract.now.nodes }
    ensures { IfOk result (λ junctions. junctions.items ≡ junction_rows extract.now) }
{
    let count = flags.iter().filter(|flag| **flag).count();
    let mut junctions = Vec::with_capacity(alloc, count)?;
    for place in 0..extract.nodes.len() {
        if flags[place] {
            junctions.push(junction_of(&extract.nodes.at(place)))?;
        }
    }
    Ok(junctions)
}

/// The junction of a node.
pub(crate) fn junction_of(node: &NodeView<'_>) -> Junction
    ensures { result ≡ junction_row node.now }
{
    Junction {
        osm: node.id(),
        at: Point {
            lat: node.lat(),
            lon: node.lon(),
        },
        access: node_access(&node.tags()),
        barrier: is_barrier(&node.tags()),
    }
}
