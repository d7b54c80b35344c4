//! The number of a record of a tile.
ghost use Rattle.std.specs.Prelude.{◌≡◌, ℕ, ◌^◌, ◌<◌, ◌≤◌, ◌↔◌, IsOk, IfOk};
ghost use Rattle.graph_id.specs.GraphId.{level_of, tile_of_id, id_of, value_of, invalid, AreParts};

use std::error::Error;
use std::fmt;
use std::marker::Model;

/// The greatest value of 46 bits, which stands for no record.
const INVALID: u64 = 0x3fff_ffff_ffff;

/// Parts or a value that no GraphId has.
#[derive(Clone, Copy, Debug, PartialEq, Eq)]
pub struct BadId;

impl fmt::Display for BadId {
    fn fmt<W: fmt::Write>(&self, f: &mut fmt::Formatter<W>) -> fmt::Result {
        write!(f, "no valid GraphId")
    }
}

impl Error for BadId {}

/// The number of a node or a directed edge, as in Valhalla's graph: its hierarchy level in 3 bits, its tile on
/// that level in 22, and its id within the tile in 21, the level lowest. Contracts see it as its value, which is
/// below 0x3fffffffffff.
#[derive(Clone, Copy, Debug, PartialEq, Eq, PartialOrd, Ord, Hash)]
pub struct GraphId {
    value: u64,
}

impl Model for GraphId {
    ghost use Rattle.std.specs.Prelude.{ℕ, ◌<◌};
    ghost use Rattle.graph_id.specs.GraphId.{invalid};

    ghost Value = { ℕ };

    ghost view = { λ g. g.value };

    ghost invariant = { λ g. g.value < invalid };

    ghost inverse = { λ n. record { value = n } };
}

impl GraphId {
    /// The GraphId of three parts: a level up to 7, a tile up to 4,194,303 and an id up to 2,097,151,
    /// all three of which at their greatest are refused too.
    pub fn make(level: u32, tile: u32, id: u32) -> Result<GraphId, BadId>
        ensures accepted { IsOk result ↔ AreParts level tile id }
        ensures value { IfOk result (λ g. g ≡ value_of level tile id) }
    {
        if level > 7 || tile > 4_194_303 || id > 2_097_151 {
            return Err(BadId);
        }
        let value = u64::from(level) + (u64::from(tile) << 3) + (u64::from(id) << 25);
        GraphId::of_value(value)
    }

    /// The GraphId of a value, which is refused from the invalid value 0x3fffffffffff on.
    pub fn of_value(value: u64) -> Result<GraphId, BadId>
        ensures accepted { IsOk result ↔ (value < invalid) }
        ensures value { IfOk result (λ g. g ≡ value) }
    {
        if value >= INVALID {
            return Err(BadId);
        }
        Ok(GraphId { value })
    }

    /// The hierarchy level, in bits 0 to 2.
    pub fn level(&self) -> u32
        ensures { result ≡ level_of self.now }
    {
        (self.value & 0x7) as u32
    }

    /// The tile's number on its level, in bits 3 to 24.
    pub fn tile(&self) -> u32
        ensures { result ≡ tile_of_id self.now }
    {
        (self.value >> 3 & 0x3f_ffff) as u32
    }

    /// The number within the tile, in bits 25 to 45.
    pub fn id(&self) -> u32
        ensures { result ≡ id_of self.now }
    {
        (self.value >> 25 & 0x1f_ffff) as u32
    }

    /// The three parts in one number.
    pub fn value(&self) -> u64
        ensures value { result ≡ self.now }
        ensures bound { result < invalid }
    {
        self.value
    }
}

/// Parts and value determine each other: a value of 46 bits is that of its parts, and the parts of
/// a value are those that it was made of.
pub fn parts_and_value()
    ensures whole { (value : ℕ) → value < 2 ^ 46
        → value_of (level_of value) (tile_of_id value) (id_of value) ≡ value }
    ensures level { (level tile id : ℕ) → level < 2 ^ 3 → level_of (value_of level tile id) ≡ level }
    ensures tile { (level tile id : ℕ) → level < 2 ^ 3 → tile < 2 ^ 22
        → tile_of_id (value_of level tile id) ≡ tile }
    ensures id { (level tile id : ℕ) → level < 2 ^ 3 → tile < 2 ^ 22 → id < 2 ^ 21
        → id_of (value_of level tile id) ≡ id }
{}
