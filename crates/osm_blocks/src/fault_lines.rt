//! Lines of faults that are written out.

ghost use Rattle.std.specs.Prelude.{◌≡◌, codes, pos, neg_ℤ};
ghost use Rattle.wire_read.specs.declared.fault.WireFault.TheVariants.{Short};
ghost use Rattle.osm_model.specs.declared.relations.MemberKind.TheVariants.{Node, Way, Relation};
ghost use Rattle.pbf_blobs.specs.declared.fault.PbfFault.{PbfFault};
ghost use Rattle.pbf_blobs.specs.FaultLines.{pbf_fault_line};
ghost use Rattle.osm_messages.specs.declared.fault.MessageFault.{MessageFault};
ghost use Rattle.osm_messages.specs.FaultLines.{message_fault_line};
ghost use Rattle.osm_objects.specs.declared.fault.ObjectFault.{ObjectFault};
ghost use Rattle.osm_objects.specs.FaultLines.{object_fault_line};
ghost use Rattle.osm_blocks.specs.declared.fault.Counted.TheVariants.{Nodes, Ways, Relations, Refs, Members, Tags};
ghost use Rattle.osm_blocks.specs.declared.fault.ExtractFault.TheVariants.{Read, Truncated, HeaderTooLong, BlobTooLong, Compressed, Wire, NoPayload, TooLarge, OutOfMemory, MissingField, BadType, NoHeader, Feature, BadString, Uneven, DuplicateId, BadCoordinate, TooMany, Repeated, BadNumber};
ghost use Rattle.osm_blocks.specs.Faults.{framed_as, spelled_as, meant_as};
ghost use Rattle.osm_blocks.specs.FaultLines.{extract_fault_line};

/// A line of each fault. The call runs no code: its contract is what it is for.
pub fn extract_fault_lines()
    ensures read { extract_fault_line Read ≡ codes "Read" }
    ensures truncated { extract_fault_line (Truncated 17) ≡ codes "Truncated at=17" }
    ensures header_too_long { extract_fault_line (HeaderTooLong 0 65_536) ≡ codes "HeaderTooLong at=0 len=65536" }
    ensures blob_too_long { extract_fault_line (BlobTooLong 0 33_554_497) ≡ codes "BlobTooLong at=0 len=33554497" }
    ensures compressed { extract_fault_line (Compressed 17 3) ≡ codes "Compressed at=17 field=3" }
    ensures wire { extract_fault_line (Wire (Short 15)) ≡ codes "Wire fault=Short at=15" }
    ensures no_payload { extract_fault_line (NoPayload 17) ≡ codes "NoPayload at=17" }
    ensures too_large { extract_fault_line (TooLarge 536_870_913) ≡ codes "TooLarge bytes=536870913" }
    ensures out_of_memory { extract_fault_line OutOfMemory ≡ codes "OutOfMemory" }
    ensures missing_field { extract_fault_line (MissingField 4 3) ≡ codes "MissingField at=4 number=3" }
    ensures bad_type { extract_fault_line (BadType 4) ≡ codes "BadType at=4" }
    ensures no_header { extract_fault_line (NoHeader 35) ≡ codes "NoHeader at=35" }
    ensures feature { extract_fault_line (Feature 19 (codes "LocationsOnWays")) ≡ codes "Feature at=19 text=LocationsOnWays" }
    ensures bad_string { extract_fault_line (BadString 100 3) ≡ codes "BadString at=100 index=3" }
    ensures uneven { extract_fault_line (Uneven 58) ≡ codes "Uneven at=58" }
    ensures duplicate_node { extract_fault_line (DuplicateId Node (pos 1)) ≡ codes "DuplicateId kind=node id=1" }
    ensures duplicate_way { extract_fault_line (DuplicateId Way (neg_ℤ (pos 3))) ≡ codes "DuplicateId kind=way id=-3" }
    ensures duplicate_relation { extract_fault_line (DuplicateId Relation (pos 7)) ≡ codes "DuplicateId kind=relation id=7" }
    ensures bad_coordinate { extract_fault_line (BadCoordinate (neg_ℤ (pos 7))) ≡ codes "BadCoordinate id=-7" }
    ensures too_many_nodes { extract_fault_line (TooMany Nodes 10_000_001) ≡ codes "TooMany what=nodes count=10000001" }
    ensures too_many_ways { extract_fault_line (TooMany Ways 2_000_001) ≡ codes "TooMany what=ways count=2000001" }
    ensures too_many_relations { extract_fault_line (TooMany Relations 500_001) ≡ codes "TooMany what=relations count=500001" }
    ensures too_many_refs { extract_fault_line (TooMany Refs 20_000_001) ≡ codes "TooMany what=refs count=20000001" }
    ensures too_many_members { extract_fault_line (TooMany Members 20_000_001) ≡ codes "TooMany what=members count=20000001" }
    ensures too_many_tags { extract_fault_line (TooMany Tags 20_000_001) ≡ codes "TooMany what=tags count=20000001" }
    ensures repeated { extract_fault_line (Repeated 40 2) ≡ codes "Repeated at=40 number=2" }
    ensures bad_number { extract_fault_line (BadNumber 58) ≡ codes "BadNumber at=58" }
{}

/// A fault that a layer below finds keeps the line that it has there. The call runs no code: its contract is what it is
/// for.
pub fn fault_lines_kept()
    ensures frames { (fault : PbfFault) → extract_fault_line (framed_as fault) ≡ pbf_fault_line fault }
    ensures messages { (fault : MessageFault) → extract_fault_line (spelled_as fault) ≡ message_fault_line fault }
    ensures objects { (fault : ObjectFault) → extract_fault_line (meant_as fault) ≡ object_fault_line fault }
{}
