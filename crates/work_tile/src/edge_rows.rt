//! The rows of edges, in one list of words.
ghost use Rattle.std.specs.Prelude.{◌≡◌, ◌<◌, ◌++◌, ◌∷◌, [], length, OnOk, OnErr, slice_index_or};
ghost use Rattle.work_tile.specs.EdgeWords.{work_edge_word, work_edge_words, work_edge_of};

use bit_words::{get, word_and_fields};
use road_pieces::{DirKey, PieceKey};
use std::alloc::{AllocError, Global};
use std::marker::Model;

/// The words of a row.
const WIDTH: usize = 6;

/// A directed piece, at the junction where it starts. `place` is the index of its piece among the pieces of the
/// roads, `end` the OSM id of the junction where it ends, and `end_tile` the number of the tile where that stands, on
/// the level of the tile that has the edge. `cm` is its length in centimetres, and `local` its index among the directed
/// pieces that start at its junction. `forward_access` has a bit for each mode that may use it as it runs,
/// `reverse_access` for each that may use it the other way: auto 1, pedestrian 2, bicycle 4, truck 8, bus 64. `class`
/// is from 0, motorway, to 7. `mask` has a bit for each directed piece, by its local index at the end, to which no
/// vehicle may turn. `flagged` tells that a longer turn that is forbidden runs over its piece. Bit k of `consistency` is
/// set where the directed piece with local index k at the end, for k below 8, has a name in common with it.
/// `not_thru` tells that few junctions lie behind it, without a way back past it.
#[derive(Clone, Copy, Debug, PartialEq, Eq)]
pub struct WorkEdge {
    pub key: DirKey,
    pub place: u32,
    pub end: i64,
    pub end_tile: u32,
    pub cm: u32,
    pub local: u8,
    pub forward_access: u16,
    pub reverse_access: u16,
    pub class: u8,
    pub mask: u8,
    pub flagged: bool,
    pub consistency: u8,
    pub not_thru: bool,
}

/// The run and the piece.
fn run_word(edge: &WorkEdge) -> u64
    ensures { result ≡ work_edge_word edge.now 1 }
{
    u64::from(edge.key.key.run) + (u64::from(edge.key.key.piece) << 32)
}

/// The tile of the end, and the length.
fn end_word(edge: &WorkEdge) -> u64
    ensures { result ≡ work_edge_word edge.now 3 }
{
    u64::from(edge.end_tile) + (u64::from(edge.cm) << 32)
}

/// The accesses, the local index, the class, the mask and the flags.
fn access_word(edge: &WorkEdge) -> u64
    ensures { result ≡ work_edge_word edge.now 4 }
{
    u64::from(edge.forward_access)
        + (u64::from(edge.reverse_access) << 16)
        + (u64::from(edge.local) << 32)
        + (u64::from(edge.class) << 40)
        + (u64::from(edge.mask) << 48)
        + (u64::from(edge.key.forward) << 56)
        + (u64::from(edge.flagged) << 57)
        + (u64::from(edge.not_thru) << 58)
}

/// The place of the piece, and the name consistency.
fn place_word(edge: &WorkEdge) -> u64
    ensures { result ≡ work_edge_word edge.now 5 }
{
    u64::from(edge.place) + (u64::from(edge.consistency) << 32)
}

/// The words of an edge.
#[tactic(auto, unfolding(crate::specs::EdgeWords::work_edge_words))]
fn words_of(edge: &WorkEdge) -> [u64; WIDTH]
    ensures { result ≡ work_edge_words edge.now }
{
    [
        edge.key.key.way.cast_unsigned(),
        run_word(edge),
        edge.end.cast_unsigned(),
        end_word(edge),
        access_word(edge),
        place_word(edge),
    ]
}

/// The edge of six words.
#[tactic(auto, unfolding(crate::specs::EdgeWords::work_edge_of))]
fn edge_in(words: &[u64]) -> WorkEdge
    requires { length words.now ≡ 6 }
    ensures { result ≡ work_edge_of words.now }
{
    WorkEdge {
        key: DirKey {
            key: PieceKey {
                way: words[0].cast_signed(),
                run: get(words[1], 0, 32) as u32,
                piece: get(words[1], 32, 32) as u32,
            },
            forward: get(words[4], 56, 1) == 1,
        },
        place: get(words[5], 0, 32) as u32,
        end: words[2].cast_signed(),
        end_tile: get(words[3], 0, 32) as u32,
        cm: get(words[3], 32, 32) as u32,
        local: get(words[4], 32, 8) as u8,
        forward_access: get(words[4], 0, 16) as u16,
        reverse_access: get(words[4], 16, 16) as u16,
        class: get(words[4], 40, 8) as u8,
        mask: get(words[4], 48, 8) as u8,
        flagged: get(words[4], 57, 1) == 1,
        consistency: get(words[5], 32, 8) as u8,
        not_thru: get(words[4], 58, 1) == 1,
    }
}

/// Edges, each in six words. Contracts see them as their list.
#[derive(Debug, Drop)]
pub(crate) struct EdgeRows {
    words: Vec<u64>,
    count: usize,
}

impl Model for EdgeRows {
    ghost use Rattle.std.specs.Prelude.{◌≡◌, ◌*◌, List, length};
    ghost use Rattle.work_tile.specs.declared.edge_rows.WorkEdge.{WorkEdge};

    ghost Value = { List WorkEdge };

    ghost use Rattle.work_tile.specs.PackedRows.{packed_rows};
    ghost use Rattle.work_tile.specs.EdgeWords.{work_edge_of};

    ghost view = { λ a. packed_rows work_edge_of 6 a.count a.words.items };

    ghost invariant = { λ a. length a.words.items ≡ 6 * a.count };
}

impl EdgeRows {
    /// No edge yet. Takes no memory.
    pub fn new(alloc: Global) -> EdgeRows
        ensures { result ≡ [] }
    {
        EdgeRows {
            words: Vec::new(alloc),
            count: 0,
        }
    }

    /// The number of edges.
    pub fn len(&self) -> usize
        ensures { result ≡ length self.now }
    {
        self.count
    }

    /// The edge at index `i`.
    pub fn at(&self, i: usize) -> WorkEdge
        requires { i < length self.now }
        ensures { result ≡ slice_index_or self.now i result }
    {
        edge_in(&self.words[WIDTH * i..WIDTH * i + WIDTH])
    }

    /// Puts an edge after the last one. Without memory the list stays as it was.
    pub fn push(&mut self, edge: WorkEdge) -> Result<(), AllocError>
        ensures ok { OnOk result (self.new ≡ self.old ++ edge ∷ []) }
        ensures err { OnErr result (self.new ≡ self.old) }
    {
        let words = words_of(&edge);
        word_and_fields();
        match self.words.extend_from_slice(&words) {
            Ok(_) => {
                self.count += 1;
                Ok(())
            }
            Err(_) => Err(AllocError),
        }
    }
}
