//! Words and records determine each other.
ghost use Rattle.std.specs.Prelude.{◌≡◌, ℕ, true, List, []};
ghost use Rattle.tile_records.specs.Layout.{AreWords, leave_no_gap};
ghost use Rattle.tile_records.specs.Nodes.{NodeFields, NodeFits, node_spans, node_words, node_of, AreNodeWords};
ghost use Rattle.tile_records.specs.Edges.{EdgeFields, EdgeFits, edge_spans, edge_words, edge_of, AreEdgeWords};

use bit_words::word_and_fields;

/// Words and nodes determine each other.
pub fn node_law()
    ensures table { leave_no_gap [] node_spans ≡ true }
    ensures back { (r : NodeFields) → NodeFits r → node_of (node_words r) ≡ r }
    ensures fits { (words : List ℕ) → AreWords words → NodeFits (node_of words) }
    ensures spelled { (r : NodeFields) → NodeFits r → AreWords (node_words r) × AreNodeWords (node_words r) }
    ensures whole { (words : List ℕ) → AreWords words → AreNodeWords words → node_words (node_of words) ≡ words }
{
    word_and_fields();
}

/// Words and directed edges determine each other.
pub fn edge_law()
    ensures table { leave_no_gap [] edge_spans ≡ true }
    ensures back { (r : EdgeFields) → EdgeFits r → edge_of (edge_words r) ≡ r }
    ensures fits { (words : List ℕ) → AreWords words → AreEdgeWords words → EdgeFits (edge_of words) }
    ensures spelled { (r : EdgeFields) → EdgeFits r → AreWords (edge_words r) × AreEdgeWords (edge_words r) }
    ensures whole { (words : List ℕ) → AreWords words → AreEdgeWords words → edge_words (edge_of words) ≡ words }
{
    word_and_fields();
}
