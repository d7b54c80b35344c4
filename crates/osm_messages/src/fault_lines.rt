//! Lines of faults that are written out.

ghost use Rattle.std.specs.Prelude.{◌≡◌, codes};
ghost use Rattle.wire_read.specs.declared.fault.WireFault.TheVariants.{Short, BadWire};
ghost use Rattle.osm_messages.specs.declared.fault.MessageFault.TheVariants.{Wire, Repeated, OutOfMemory};
ghost use Rattle.osm_messages.specs.FaultLines.{message_fault_line};

/// A line of each fault. The call runs no code: its contract is what it is for.
pub fn message_fault_lines()
    ensures short { message_fault_line (Wire (Short 3)) ≡ codes "Wire fault=Short at=3" }
    ensures bad_wire { message_fault_line (Wire (BadWire 5 6)) ≡ codes "Wire fault=BadWire at=5 kind=6" }
    ensures repeated { message_fault_line (Repeated 40 2) ≡ codes "Repeated at=40 number=2" }
    ensures out_of_memory { message_fault_line OutOfMemory ≡ codes "OutOfMemory" }
{}
