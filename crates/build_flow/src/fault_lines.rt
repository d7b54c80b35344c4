//! Lines of limits that are written out.

ghost use Rattle.std.specs.Prelude.{◌≡◌, codes, pos, neg_ℤ};
ghost use Rattle.tile_numbers.specs.declared.room.What.TheVariants as kinds;
ghost use Rattle.build_flow.specs.declared.faults.LimitFault.TheVariants.{Pieces, EdgeTooLong, TooManyEdges, TileFull, Section};
ghost use Rattle.build_flow.specs.LimitLines.{limit_line};

/// A line of each limit. The call runs no code: its contract is what it is for.
pub fn limit_lines()
    ensures pieces { limit_line (Pieces 4_000_001) ≡ codes "Pieces count=4000001" }
    ensures edge_too_long { limit_line (EdgeTooLong (neg_ℤ (pos 7)) 1 2 268_435_456) ≡ codes "EdgeTooLong way=-7 run=1 piece=2 cm=268435456" }
    ensures too_many_edges { limit_line (TooManyEdges (pos 1000) 128) ≡ codes "TooManyEdges node=1000 count=128" }
    ensures nodes { limit_line (TileFull 2 519_120 kinds.Nodes 2_097_152) ≡ codes "TileFull level=2 tile=519120 what=nodes count=2097152" }
    ensures edges { limit_line (TileFull 0 7 kinds.Edges 2_097_152) ≡ codes "TileFull level=0 tile=7 what=edges count=2097152" }
    ensures section { limit_line (Section 2 519_120 4_294_967_296) ≡ codes "Section level=2 tile=519120 count=4294967296" }
{}
