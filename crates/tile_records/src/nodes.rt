//! The record of a node.
ghost use Rattle.std.specs.Prelude.{◌≡◌, ◌↔◌, IsSome, IfSome};
ghost use Rattle.bit_words.specs.Bits.{word_of};
ghost use Rattle.tile_records.specs.Layout.{fields_of_word};
ghost use Rattle.tile_records.specs.Nodes.{NodeFits, node_parts, node_words, node_of, node_read, AreNodeWords};

use bit_words::get;
use std::marker::Model;

/// A node of a tile. Contracts see it as its fields, each of which fits its bits.
#[derive(Clone, Copy, Debug, PartialEq, Eq)]
pub struct NodeRec {
    pub osm: i64,
    pub lat: i32,
    pub lon: i32,
    pub edge_index: u32,
    pub transition_index: u32,
    pub access: u16,
    pub edge_count: u8,
    pub transition_count: u8,
    pub density: u8,
    pub barrier: bool,
}

impl Model for NodeRec {
    ghost use Rattle.std.specs.Prelude.{ℕ, ◌<◌, ◌^◌};
    ghost use Rattle.tile_records.specs.Nodes.{NodeFields};

    ghost Value = { NodeFields };

    ghost view = { λ r. record {
      osm = r.osm;
      lat = r.lat;
      lon = r.lon;
      edge_index = r.edge_index;
      edge_count = r.edge_count;
      transition_index = r.transition_index;
      transition_count = r.transition_count;
      access = r.access;
      density = r.density;
      barrier = r.barrier;
    } };

    ghost invariant = { λ r. (r.edge_index < 2 ^ 21) × (r.edge_count < 2 ^ 8) × (r.transition_index < 2 ^ 22) × (r.transition_count < 2 ^ 2) × (r.access < 2 ^ 16) × (r.density < 2 ^ 4) };

    ghost inverse = { λ r. record {
      osm = r.osm;
      lat = r.lat;
      lon = r.lon;
      edge_index = r.edge_index;
      edge_count = r.edge_count;
      transition_index = r.transition_index;
      transition_count = r.transition_count;
      access = r.access;
      density = r.density;
      barrier = r.barrier;
    } };
}

impl NodeRec {
    /// The place of the node.
    fn place_word(&self) -> u64
        ensures { result ≡ word_of (fields_of_word 1 (node_parts self.now)) }
    {
        u64::from(self.lat.cast_unsigned()) + (u64::from(self.lon.cast_unsigned()) << 32)
    }

    /// Where the edges and the transitions of the node are.
    fn index_word(&self) -> u64
        ensures { result ≡ word_of (fields_of_word 2 (node_parts self.now)) }
    {
        u64::from(self.edge_index)
            + (u64::from(self.edge_count) << 21)
            + (u64::from(self.transition_index) << 29)
            + (u64::from(self.transition_count) << 51)
    }

    /// The access, the density and the barrier.
    fn access_word(&self) -> u64
        ensures { result ≡ word_of (fields_of_word 3 (node_parts self.now)) }
    {
        u64::from(self.access) + (u64::from(self.density) << 16) + (u64::from(self.barrier) << 20)
    }

    /// Does nothing: it tells the caller that each field fits its bits.
    pub fn fit(&self)
        ensures { NodeFits self.now }
    {
        let (_, _, _) = (self.osm, self.lat, self.lon);
    }

    /// The four words of the node.
    #[tactic(auto, unfolding(crate::specs::Nodes::node_words))]
    pub fn words(&self) -> [u64; 4]
        ensures { result ≡ node_words self.now }
    {
        [
            self.osm.cast_unsigned(),
            self.place_word(),
            self.index_word(),
            self.access_word(),
        ]
    }

    /// The node of four words, and `None` where a bit is set that no field has.
    #[tactic(auto, unfolding(crate::specs::Nodes::node_of, crate::specs::Nodes::node_read))]
    pub fn of_words(words: [u64; 4]) -> Option<NodeRec>
        ensures some { IsSome result ↔ AreNodeWords words }
        ensures value { IfSome result (λ r. r ≡ node_of words) }
        ensures read { result ≡ node_read words }
    {
        if words[2] >> 53 != 0 || words[3] >> 21 != 0 {
            return None;
        }
        Some(NodeRec {
            osm: words[0].cast_signed(),
            lat: (get(words[1], 0, 32) as u32).cast_signed(),
            lon: (get(words[1], 32, 32) as u32).cast_signed(),
            edge_index: get(words[2], 0, 21) as u32,
            edge_count: get(words[2], 21, 8) as u8,
            transition_index: get(words[2], 29, 22) as u32,
            transition_count: get(words[2], 51, 2) as u8,
            access: get(words[3], 0, 16) as u16,
            density: get(words[3], 16, 4) as u8,
            barrier: get(words[3], 20, 1) == 1,
        })
    }
}
