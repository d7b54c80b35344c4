//! Each section is read as it was written, and was written as it is read.
ghost use Rattle.std.specs.Prelude.{◌≡◌, ℕ, List, Ok, Err};
ghost use Rattle.section_grammar.specs.Sections.{IsSection, FillsSection};
ghost use Rattle.tile_bytes.specs.Items.{node_record_at, node_bytes, IsNodeRecord, edge_record_at, edge_bytes, IsEdgeRecord, id_at, IsId};
ghost use Rattle.tile_bytes.specs.declared.ids.LevelRule.{LevelRule};
ghost use Rattle.section_grammar.specs.WordBytes.{word_bytes};
ghost use Rattle.tile_bytes.specs.Chains.{chain_at, chain_bytes, IsTileChain};
ghost use Rattle.tile_bytes.specs.Sequences.{sequence_at, sequence_bytes, IsTileSequence};
ghost use Rattle.section_grammar.specs.WordBytes.{IsByteList};
ghost use Rattle.tile_bytes.specs.declared.tile.Tile.{Tile};
ghost use Rattle.tile_bytes.specs.Tiles.{TileSpelled};
ghost use Rattle.tile_bytes.specs.TileReading.{tile_at};
ghost use Rattle.tile_bytes.specs.TileChecks.{TileCheck, check_number, CheckFails, IsFirstFailing, NoCheckFails};
ghost use Rattle.section_grammar.specs.Answers.{FailedCheck, Check};

use edge_info::{entries_law, padding_law, texts_law};
use tile_records::{edge_law, node_law};

/// The section of nodes.
pub fn nodes_law()
    ensures { (level tile end : ℕ) → IsSection (node_record_at level tile end) node_bytes (IsNodeRecord level tile) }
{
    node_law();
}

/// The section of edges.
pub fn edges_law()
    ensures { (level end : ℕ) → IsSection (edge_record_at level end) edge_bytes (IsEdgeRecord level) }
{
    edge_law();
}

/// GraphIds.
pub fn ids_law()
    ensures { (rule : LevelRule) (check end : ℕ) → IsSection (id_at rule check end) word_bytes (IsId rule) }
{}

/// The section of chains.
pub fn chains_law()
    ensures { (level end : ℕ) → IsSection (chain_at level end) chain_bytes (IsTileChain level) }
{}

/// The section of sequences.
pub fn sequences_law()
    ensures { (end : ℕ) → FillsSection (sequence_at end) sequence_bytes IsTileSequence }
{}

/// Bytes spell the tile that is read from them, a tile has one spelling, and bytes spell at most one tile.
pub fn tile_law()
    ensures found { (bytes : List ℕ) (tile : Tile) → IsByteList bytes → tile_at bytes ≡ Ok tile → TileSpelled bytes tile }
    ensures spelled { (bytes : List ℕ) (tile : Tile) → TileSpelled bytes tile → tile_at bytes ≡ Ok tile }
    ensures one_spelling { (a b : List ℕ) (tile : Tile) → TileSpelled a tile → TileSpelled b tile → a ≡ b }
    ensures one_tile { (bytes : List ℕ) (a b : Tile) → TileSpelled bytes a → TileSpelled bytes b → a ≡ b }
{
    nodes_law();
    edges_law();
    entries_law();
    texts_law();
    padding_law();
}

/// Bytes fail at the first check that fails and at its first place, and bytes spell a tile exactly where no check fails.
pub fn checks_law()
    ensures first { (bytes : List ℕ) (check : TileCheck) (at : ℕ) → IsByteList bytes → IsFirstFailing bytes check at
        → tile_at bytes ≡ Err (Check (check_number check) at) }
    ensures only { (bytes : List ℕ) (failure : FailedCheck) → IsByteList bytes → tile_at bytes ≡ Err failure
        → (check : TileCheck) × (at : ℕ) × IsFirstFailing bytes check at × (failure ≡ Check (check_number check) at) }
    ensures spelled { (bytes : List ℕ) (tile : Tile) → IsByteList bytes → TileSpelled bytes tile → NoCheckFails bytes }
    ensures spells { (bytes : List ℕ) → IsByteList bytes → NoCheckFails bytes → (tile : Tile) × TileSpelled bytes tile }
{
    node_law();
    edge_law();
    entries_law();
    texts_law();
    padding_law();
    tile_law();
}
