//! Lines of faults that are written out.

ghost use Rattle.std.specs.Prelude.{◌≡◌, codes};
ghost use Rattle.wire_read.specs.declared.fault.WireFault.TheVariants.{Short, LongVarint, BadWire, BadNumber};
ghost use Rattle.wire_read.specs.FaultLines.{wire_fault_line};

/// A line of each fault. The call runs no code: its contract is what it is for.
pub fn wire_fault_lines()
    ensures short { wire_fault_line (Short 3) ≡ codes "Short at=3" }
    ensures long_varint { wire_fault_line (LongVarint 40) ≡ codes "LongVarint at=40" }
    ensures bad_wire { wire_fault_line (BadWire 5 6) ≡ codes "BadWire at=5 kind=6" }
    ensures bad_number { wire_fault_line (BadNumber 7) ≡ codes "BadNumber at=7" }
{}
