//! Lines of faults that are written out.

ghost use Rattle.std.specs.Prelude.{◌≡◌, codes};
ghost use Rattle.wire_read.specs.declared.fault.WireFault.TheVariants.{Short};
ghost use Rattle.pbf_blobs.specs.declared.fault.PbfFault.TheVariants.{Read, Truncated, HeaderTooLong, BlobTooLong, Compressed, Wire, NoPayload, TooLarge, OutOfMemory, MissingField, BadType};
ghost use Rattle.pbf_blobs.specs.FaultLines.{pbf_fault_line};

/// A line of each fault. The call runs no code: its contract is what it is for.
pub fn pbf_fault_lines()
    ensures read { pbf_fault_line Read ≡ codes "Read" }
    ensures truncated { pbf_fault_line (Truncated 17) ≡ codes "Truncated at=17" }
    ensures header_too_long { pbf_fault_line (HeaderTooLong 0 65_536) ≡ codes "HeaderTooLong at=0 len=65536" }
    ensures blob_too_long { pbf_fault_line (BlobTooLong 0 33_554_497) ≡ codes "BlobTooLong at=0 len=33554497" }
    ensures compressed { pbf_fault_line (Compressed 17 3) ≡ codes "Compressed at=17 field=3" }
    ensures wire { pbf_fault_line (Wire (Short 15)) ≡ codes "Wire fault=Short at=15" }
    ensures no_payload { pbf_fault_line (NoPayload 17) ≡ codes "NoPayload at=17" }
    ensures too_large { pbf_fault_line (TooLarge 536_870_913) ≡ codes "TooLarge bytes=536870913" }
    ensures out_of_memory { pbf_fault_line OutOfMemory ≡ codes "OutOfMemory" }
    ensures missing_field { pbf_fault_line (MissingField 4 3) ≡ codes "MissingField at=4 number=3" }
    ensures bad_type { pbf_fault_line (BadType 4) ≡ codes "BadType at=4" }
{}
