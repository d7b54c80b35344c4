//! What a field of a finished tile means.
ghost use Rattle.std.specs.Prelude.{◌≡◌, ◌↔◌, ℕ, List, true};
ghost use Rattle.bounded_flood.specs.Flood.{CutOff};
ghost use Rattle.bounded_flood.specs.FlatGraph.{side_limit};
ghost use Rattle.work_tile.specs.WorkRows.{WorkRows};
ghost use Rattle.enhancer.specs.declared.names.NodeName.{NodeName};
ghost use Rattle.enhancer.specs.Graph.{near, leads_nowhere};

/// A piece from u to v is not-thru exactly where, with it left out, at most 63 junctions are linked to v, itself among
/// them, and u isn't one of them; linked is the least relation that has v with itself and is kept along each other piece.
pub fn not_thru_law()
    ensures { (places : List ℕ) (ps : List WorkRows) (level left : ℕ) (u v : NodeName)
        → (leads_nowhere places ps level left u v ≡ true) ↔ CutOff (near places ps level left) side_limit u v }
{}
