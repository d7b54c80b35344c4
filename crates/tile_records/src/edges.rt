//! The record of a directed edge.
ghost use Rattle.std.specs.Prelude.{◌≡◌, ◌↔◌, IsSome, IfSome};
ghost use Rattle.bit_words.specs.Bits.{word_of};
ghost use Rattle.tile_records.specs.Layout.{fields_of_word};
ghost use Rattle.tile_records.specs.Edges.{EdgeFits, edge_parts, edge_words, edge_of, edge_read, AreEdgeWords};

use bit_words::get;
use graph_id::GraphId;
use std::marker::Model;

/// A directed edge of a tile. Contracts see it as its fields, each of which fits its bits.
#[derive(Clone, Copy, Debug, PartialEq, Eq)]
pub struct EdgeRec {
    pub end: GraphId,
    pub mask: u8,
    pub opposing: u8,
    pub cm: u32,
    pub local: u8,
    pub opposing_local: u8,
    pub leaves_tile: bool,
    pub shortcut: bool,
    pub not_thru: bool,
    pub forward: bool,
    pub flagged: bool,
    pub in_chain: bool,
    pub forward_access: u16,
    pub reverse_access: u16,
    pub class: u8,
    pub name_consistency: u8,
    pub info: u32,
    pub chain: u32,
}

impl Model for EdgeRec {
    ghost use Rattle.std.specs.Prelude.{ℕ, ◌<◌, ◌^◌};
    ghost use Rattle.graph_id.specs.GraphId.{invalid};
    ghost use Rattle.tile_records.specs.Edges.{EdgeFields};

    ghost Value = { EdgeFields };

    ghost view = { λ r. record {
      end = r.end;
      mask = r.mask;
      opposing = r.opposing;
      cm = r.cm;
      local = r.local;
      opposing_local = r.opposing_local;
      leaves_tile = r.leaves_tile;
      shortcut = r.shortcut;
      not_thru = r.not_thru;
      forward = r.forward;
      flagged = r.flagged;
      in_chain = r.in_chain;
      forward_access = r.forward_access;
      reverse_access = r.reverse_access;
      class = r.class;
      name_consistency = r.name_consistency;
      info = r.info;
      chain = r.chain;
    } };

    ghost invariant = { λ r. (r.end < invalid) × (r.mask < 2 ^ 8) × (r.opposing < 2 ^ 8) × (r.cm < 2 ^ 28) × (r.local < 2 ^ 7) × (r.opposing_local < 2 ^ 7) × (r.forward_access < 2 ^ 16) × (r.reverse_access < 2 ^ 16) × (r.class < 2 ^ 3) × (r.name_consistency < 2 ^ 8) × (r.info < 2 ^ 32) × (r.chain < 2 ^ 32) };

    ghost inverse = { λ r. record {
      end = r.end;
      mask = r.mask;
      opposing = r.opposing;
      cm = r.cm;
      local = r.local;
      opposing_local = r.opposing_local;
      leaves_tile = r.leaves_tile;
      shortcut = r.shortcut;
      not_thru = r.not_thru;
      forward = r.forward;
      flagged = r.flagged;
      in_chain = r.in_chain;
      forward_access = r.forward_access;
      reverse_access = r.reverse_access;
      class = r.class;
      name_consistency = r.name_consistency;
      info = r.info;
      chain = r.chain;
    } };
}

impl EdgeRec {
    /// The end, the mask and the opposing edge.
    fn end_word(&self) -> u64
        ensures { result ≡ word_of (fields_of_word 0 (edge_parts self.now)) }
    {
        self.end.value() + (u64::from(self.mask) << 46) + (u64::from(self.opposing) << 54)
    }

    /// The length, the local indexes and the flags.
    fn length_word(&self) -> u64
        ensures { result ≡ word_of (fields_of_word 1 (edge_parts self.now)) }
    {
        u64::from(self.cm)
            + (u64::from(self.local) << 28)
            + (u64::from(self.opposing_local) << 35)
            + (u64::from(self.leaves_tile) << 42)
            + (u64::from(self.shortcut) << 43)
            + (u64::from(self.not_thru) << 44)
            + (u64::from(self.forward) << 45)
            + (u64::from(self.flagged) << 46)
            + (u64::from(self.in_chain) << 47)
    }

    /// The accesses, the class and the name consistency.
    fn access_word(&self) -> u64
        ensures { result ≡ word_of (fields_of_word 2 (edge_parts self.now)) }
    {
        u64::from(self.forward_access)
            + (u64::from(self.reverse_access) << 16)
            + (u64::from(self.class) << 32)
            + (u64::from(self.name_consistency) << 35)
    }

    /// Where its entry and its chain are.
    fn place_word(&self) -> u64
        ensures { result ≡ word_of (fields_of_word 3 (edge_parts self.now)) }
    {
        u64::from(self.info) + (u64::from(self.chain) << 32)
    }

    /// Does nothing: it tells the caller that each field fits its bits.
    pub fn fit(&self)
        ensures { EdgeFits self.now }
    {
        let _ = &self.cm;
        let _ = self.end.value();
    }

    /// The four words of the edge.
    #[tactic(auto, unfolding(crate::specs::Edges::edge_words))]
    pub fn words(&self) -> [u64; 4]
        ensures { result ≡ edge_words self.now }
    {
        [
            self.end_word(),
            self.length_word(),
            self.access_word(),
            self.place_word(),
        ]
    }

    /// The edge of four words, and `None` where a bit is set that no field has, or the end is no GraphId.
    #[tactic(auto, unfolding(crate::specs::Edges::edge_of, crate::specs::Edges::edge_read))]
    pub fn of_words(words: [u64; 4]) -> Option<EdgeRec>
        ensures some { IsSome result ↔ AreEdgeWords words }
        ensures value { IfSome result (λ r. r ≡ edge_of words) }
        ensures read { result ≡ edge_read words }
    {
        if words[0] >> 62 != 0 || words[1] >> 48 != 0 || words[2] >> 43 != 0 {
            return None;
        }
        let end = GraphId::of_value(get(words[0], 0, 46)).ok()?;
        Some(EdgeRec {
            end,
            mask: get(words[0], 46, 8) as u8,
            opposing: get(words[0], 54, 8) as u8,
            cm: get(words[1], 0, 28) as u32,
            local: get(words[1], 28, 7) as u8,
            opposing_local: get(words[1], 35, 7) as u8,
            leaves_tile: get(words[1], 42, 1) == 1,
            shortcut: get(words[1], 43, 1) == 1,
            not_thru: get(words[1], 44, 1) == 1,
            forward: get(words[1], 45, 1) == 1,
            flagged: get(words[1], 46, 1) == 1,
            in_chain: get(words[1], 47, 1) == 1,
            forward_access: get(words[2], 0, 16) as u16,
            reverse_access: get(words[2], 16, 16) as u16,
            class: get(words[2], 32, 3) as u8,
            name_consistency: get(words[2], 35, 8) as u8,
            info: get(words[3], 0, 32) as u32,
            chain: get(words[3], 32, 32) as u32,
        })
    }
}
