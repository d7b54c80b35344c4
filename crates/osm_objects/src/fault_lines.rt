//! Lines of faults that are written out.

ghost use Rattle.std.specs.Prelude.{◌≡◌, codes, pos, neg_ℤ};
ghost use Rattle.osm_objects.specs.declared.fault.ObjectFault.TheVariants.{MissingField, Uneven, BadNumber, BadString, BadCoordinate, OutOfMemory};
ghost use Rattle.osm_objects.specs.FaultLines.{object_fault_line};

/// A line of each fault. The call runs no code: its contract is what it is for.
pub fn object_fault_lines()
    ensures missing_field { object_fault_line (MissingField 58 8) ≡ codes "MissingField at=58 number=8" }
    ensures uneven { object_fault_line (Uneven 58) ≡ codes "Uneven at=58" }
    ensures bad_number { object_fault_line (BadNumber 58) ≡ codes "BadNumber at=58" }
    ensures bad_string { object_fault_line (BadString 100 3) ≡ codes "BadString at=100 index=3" }
    ensures bad_coordinate { object_fault_line (BadCoordinate (neg_ℤ (pos 7))) ≡ codes "BadCoordinate id=-7" }
    ensures out_of_memory { object_fault_line OutOfMemory ≡ codes "OutOfMemory" }
{}
