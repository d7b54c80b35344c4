//! The chains of a tile's shortcuts.
ghost use Rattle.std.specs.Prelude.{◌≡◌, ◌<◌, ◌↔◌, ◌++◌, ◌∷◌, [], length, OnOk, OnErr, IsTrue, slice_index_or, List, ℕ};

use crate::spans::Span;
use graph_id::GraphId;
use std::alloc::{AllocError, Global};
use std::marker::Model;

/// A list of chains, each the GraphIds of its edges. Contracts see it as that list of lists.
#[derive(Debug, Drop)]
pub struct Chains {
    ids: Vec<GraphId>,
    spans: Vec<Span>,
}

impl Model for Chains {
    ghost use Rattle.std.specs.Prelude.{List, ℕ, map};

    ghost Value = { List (List ℕ) };

    ghost use Rattle.tile_bytes.specs.Spans.{part_of, LieWithin};

    ghost view = { λ c. map (part_of c.ids.items) c.spans.items };

    ghost invariant = { λ c. LieWithin c.ids.items c.spans.items };
}

impl Chains {
    /// No chain yet. Takes no memory.
    pub fn new(alloc: Global) -> Chains
        ensures { result ≡ [] }
    {
        Chains {
            ids: Vec::new(alloc),
            spans: Vec::new(alloc),
        }
    }

    /// The number of chains.
    pub fn len(&self) -> usize
        ensures { result ≡ length self.now }
    {
        self.spans.len()
    }

    /// Whether there is none.
    pub fn is_empty(&self) -> bool
        ensures { IsTrue result ↔ (self.now ≡ []) }
    {
        self.spans.is_empty()
    }

    /// Puts a chain behind the others. Without memory the list stays as it was.
    #[tactic(auto, using(crate::proofs::SpanLaws::parts_kept, crate::proofs::SpanLaws::part_behind))]
    pub fn push(&mut self, chain: &[GraphId]) -> Result<(), AllocError>
        ensures ok { OnOk result (self.new ≡ self.old ++ chain.now ∷ []) }
        ensures err { OnErr result (self.new ≡ self.old) }
    {
        let from = self.ids.len();
        self.ids.extend_from_slice(chain)?;
        let to = self.ids.len();
        self.spans.push(Span { from, to })?;
        Ok(())
    }

    /// The GraphIds of the chain at place `i`, from 0 on.
    pub fn at(&self, i: usize) -> &[GraphId]
        requires { i < length self.now }
        ensures { (none : List ℕ) → result.now ≡ slice_index_or self.now i none }
    {
        let span = self.spans[i];
        &self.ids[span.from..span.to]
    }
}
