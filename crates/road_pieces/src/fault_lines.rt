//! Lines of faults that are written out.

ghost use Rattle.std.specs.Prelude.{◌≡◌, codes, pos, neg_ℤ};
ghost use Rattle.road_pieces.specs.declared.faults.CutFault.TheVariants.{TooManyPieces, EdgeTooLong, OutOfMemory};
ghost use Rattle.road_pieces.specs.FaultLines.{cut_fault_line};

/// A line of each fault. The call runs no code: its contract is what it is for.
pub fn cut_fault_lines()
    ensures pieces { cut_fault_line (TooManyPieces 4_000_001) ≡ codes "Pieces count=4000001" }
    ensures edge_too_long { cut_fault_line (EdgeTooLong (neg_ℤ (pos 7)) 1 2 268_435_456) ≡ codes "EdgeTooLong way=-7 run=1 piece=2 cm=268435456" }
    ensures out_of_memory { cut_fault_line OutOfMemory ≡ codes "OutOfMemory" }
{}
