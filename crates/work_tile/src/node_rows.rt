//! The rows of nodes, in one list of words.
ghost use Rattle.std.specs.Prelude.{◌≡◌, ◌<◌, ◌++◌, ◌∷◌, [], length, OnOk, OnErr, slice_index_or};
ghost use Rattle.work_tile.specs.NodeWords.{work_node_word, work_node_words, work_node_of};

use bit_words::{get, word_and_fields};
use fixed_geo::Point;
use road_pieces::Junction;
use std::alloc::{AllocError, Global};
use std::marker::Model;

/// The words of a row.
const WIDTH: usize = 3;

/// A junction with its density, and where its edges begin among those of its tile.
#[derive(Clone, Copy, Debug)]
pub(crate) struct NodeRow {
    pub junction: Junction,
    pub density: u8,
    pub from: u32,
}

/// The position of the junction.
fn position_word(row: &NodeRow) -> u64
    ensures { result ≡ work_node_word row.now 1 }
{
    u64::from(row.junction.at.lat.cast_unsigned())
        + (u64::from(row.junction.at.lon.cast_unsigned()) << 32)
}

/// Where its edges begin, the access, the barrier and the density.
fn access_word(row: &NodeRow) -> u64
    ensures { result ≡ work_node_word row.now 2 }
{
    u64::from(row.from)
        + (u64::from(row.junction.access) << 32)
        + (u64::from(row.junction.barrier) << 48)
        + (u64::from(row.density) << 49)
}

/// The words of a row.
#[tactic(auto, unfolding(crate::specs::NodeWords::work_node_words))]
fn words_of(row: &NodeRow) -> [u64; WIDTH]
    ensures { result ≡ work_node_words row.now }
{
    [
        row.junction.osm.cast_unsigned(),
        position_word(row),
        access_word(row),
    ]
}

/// The row of three words.
#[tactic(auto, unfolding(crate::specs::NodeWords::work_node_of))]
fn row_in(words: &[u64]) -> NodeRow
    requires { length words.now ≡ 3 }
    ensures { result ≡ work_node_of words.now }
{
    NodeRow {
        junction: Junction {
            osm: words[0].cast_signed(),
            at: Point {
                lat: (get(words[1], 0, 32) as u32).cast_signed(),
                lon: (get(words[1], 32, 32) as u32).cast_signed(),
            },
            access: get(words[2], 32, 16) as u16,
            barrier: get(words[2], 48, 1) == 1,
        },
        density: get(words[2], 49, 8) as u8,
        from: get(words[2], 0, 32) as u32,
    }
}

/// Rows of nodes, each in three words. Contracts see them as their list.
#[derive(Debug, Drop)]
pub(crate) struct NodeRows {
    words: Vec<u64>,
    count: usize,
}

impl Model for NodeRows {
    ghost use Rattle.std.specs.Prelude.{◌≡◌, ◌*◌, List, length};
    ghost use Rattle.work_tile.specs.declared.node_rows.NodeRow.{NodeRow};

    ghost Value = { List NodeRow };

    ghost use Rattle.work_tile.specs.PackedRows.{packed_rows};
    ghost use Rattle.work_tile.specs.NodeWords.{work_node_of};

    ghost view = { λ a. packed_rows work_node_of 3 a.count a.words.items };

    ghost invariant = { λ a. length a.words.items ≡ 3 * a.count };
}

impl NodeRows {
    /// No row yet. Takes no memory.
    pub fn new(alloc: Global) -> NodeRows
        ensures { result ≡ [] }
    {
        NodeRows {
            words: Vec::new(alloc),
            count: 0,
        }
    }

    /// The number of rows.
    pub fn len(&self) -> usize
        ensures { result ≡ length self.now }
    {
        self.count
    }

    /// The row at index `i`.
    pub fn at(&self, i: usize) -> NodeRow
        requires { i < length self.now }
        ensures { result ≡ slice_index_or self.now i result }
    {
        row_in(&self.words[WIDTH * i..WIDTH * i + WIDTH])
    }

    /// Puts a row after the last one. Without memory the list stays as it was.
    pub fn push(&mut self, row: NodeRow) -> Result<(), AllocError>
        ensures ok { OnOk result (self.new ≡ self.old ++ row ∷ []) }
        ensures err { OnErr result (self.new ≡ self.old) }
    {
        let words = words_of(&row);
        word_and_fields();
        match self.words.extend_from_slice(&words) {
            Ok(_) => {
                self.count += 1;
                Ok(())
            }
            Err(_) => Err(AllocError),
        }
    }
}
