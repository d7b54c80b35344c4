//! The sequences of a tile.
ghost use Rattle.std.specs.Prelude.{◌≡◌, ◌<◌, ◌↔◌, ◌++◌, ◌∷◌, [], length, OnOk, OnErr, IsTrue, slice_index_or};
ghost use Rattle.tile_bytes.specs.declared.sequences.Sequence.{Sequence};

use crate::ids::Ids;
use crate::spans::Span;
use graph_id::GraphId;
use std::alloc::{AllocError, Global};
use std::marker::Model;

/// The fewest edges of a sequence.
pub const FEWEST_EDGES: usize = 2;

/// The most edges of a sequence.
pub const MOST_EDGES: usize = 33;

/// Edges that may not be travelled one after the other, and the modes that may not.
#[derive(Debug, Drop)]
pub struct Sequence {
    pub edges: Ids,
    pub modes: u16,
}

/// Where a sequence's edges stand among those of all sequences, and its modes.
#[derive(Clone, Copy, Debug)]
pub(crate) struct SequenceRow {
    span: Span,
    modes: u16,
}

/// A list of sequences. Contracts see it as that list.
#[derive(Debug, Drop)]
pub struct Sequences {
    ids: Vec<GraphId>,
    rows: Vec<SequenceRow>,
}

impl Model for Sequences {
    ghost use Rattle.std.specs.Prelude.{List, map};
    ghost use Rattle.tile_bytes.specs.declared.sequences.Sequence.{Sequence};

    ghost Value = { List Sequence };

    ghost use Rattle.tile_bytes.specs.SequenceRows.{sequence_of, RowsLieWithin};

    ghost view = { λ s. map (sequence_of s.ids.items) s.rows.items };

    ghost invariant = { λ s. RowsLieWithin s.ids.items s.rows.items };
}

impl Sequences {
    /// No sequence yet. Takes no memory.
    pub fn new(alloc: Global) -> Sequences
        ensures { result ≡ [] }
    {
        Sequences {
            ids: Vec::new(alloc),
            rows: Vec::new(alloc),
        }
    }

    /// The number of sequences.
    pub fn len(&self) -> usize
        ensures { result ≡ length self.now }
    {
        self.rows.len()
    }

    /// Whether there is none.
    pub fn is_empty(&self) -> bool
        ensures { IsTrue result ↔ (self.now ≡ []) }
    {
        self.rows.is_empty()
    }

    /// Puts a sequence behind the others. Without memory the list stays as it was.
    #[tactic(auto, using(crate::proofs::RowLaws::rows_kept, crate::proofs::RowLaws::row_behind))]
    pub fn push(&mut self, edges: &[GraphId], modes: u16) -> Result<(), AllocError>
        ensures ok { OnOk result (self.new ≡ self.old ++ record { edges = edges.now; modes = modes } ∷ []) }
        ensures err { OnErr result (self.new ≡ self.old) }
    {
        let from = self.ids.len();
        self.ids.extend_from_slice(edges)?;
        let to = self.ids.len();
        let span = Span { from, to };
        self.rows.push(SequenceRow { span, modes })?;
        Ok(())
    }

    /// The GraphIds of the sequence at place `i`, from 0 on.
    pub fn edges(&self, i: usize) -> &[GraphId]
        requires { i < length self.now }
        ensures { (none : Sequence) → result.now ≡ (slice_index_or self.now i none).edges }
    {
        let span = self.rows[i].span;
        &self.ids[span.from..span.to]
    }

    /// The modes of the sequence at place `i`, from 0 on.
    pub fn modes(&self, i: usize) -> u16
        requires { i < length self.now }
        ensures { (none : Sequence) → result ≡ (slice_index_or self.now i none).modes }
    {
        self.rows[i].modes
    }
}
