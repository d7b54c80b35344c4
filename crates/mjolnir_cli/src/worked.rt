//! Lines that were worked out by hand, which the checker computes from the definitions.

ghost use Rattle.std.specs.Prelude.{◌≡◌, true, [], ◌∷◌, ◌++◌, codes, pos, neg_ℤ};
ghost use Rattle.wire_read.specs.declared.fault.WireFault.TheVariants as wire;
ghost use Rattle.osm_model.specs.declared.relations.MemberKind.TheVariants as kinds;
ghost use Rattle.osm_blocks.specs.declared.fault.Counted.TheVariants as counted;
ghost use Rattle.osm_blocks.specs.declared.fault.ExtractFault.TheVariants as faults;
ghost use Rattle.mjolnir_cli.specs.declared.failure.Failure.TheVariants.{Extract, OutOfMemory};
ghost use Rattle.mjolnir_cli.specs.Failures.{line_of};
ghost use Rattle.mjolnir_cli.specs.Commands.BlobsCommand.{blob_line};

/// A line of a list of blobs.
pub fn worked_lines()
    ensures blob { blob_line (record { at = 35; kind = codes "OSMData"; size = 62; known = true; raw_at = 52; raw = []; end = 112 }) ≡ codes "35 OSMData 62" ++ 10 ∷ [] }
{}

/// Lines of failures beside those of `failure_lines`: each ends its line, and a byte below 32 is said as `?`.
pub fn worked_failures()
    ensures compressed { line_of (Extract (faults.Compressed 17 3)) ≡ codes "error 5 Compressed at=17 field=3" ++ 10 ∷ [] }
    ensures wire { line_of (Extract (faults.Wire (wire.BadWire 17 3))) ≡ codes "error 5 Wire fault=BadWire at=17 kind=3" ++ 10 ∷ [] }
    ensures printable { line_of (Extract (faults.Feature 19 (97 ∷ 10 ∷ 98 ∷ []))) ≡ codes "error 5 Feature at=19 text=a?b" ++ 10 ∷ [] }
    ensures duplicate { line_of (Extract (faults.DuplicateId kinds.Node (neg_ℤ (pos 1)))) ≡ codes "error 5 DuplicateId kind=node id=-1" ++ 10 ∷ [] }
    ensures too_large { line_of (Extract (faults.TooLarge 536_870_913)) ≡ codes "error 5 TooLarge bytes=536870913" ++ 10 ∷ [] }
    ensures too_many_nodes { line_of (Extract (faults.TooMany counted.Nodes 10_000_001)) ≡ codes "error 5 TooMany what=nodes count=10000001" ++ 10 ∷ [] }
    ensures too_many_ways { line_of (Extract (faults.TooMany counted.Ways 2_000_001)) ≡ codes "error 5 TooMany what=ways count=2000001" ++ 10 ∷ [] }
    ensures too_many_relations { line_of (Extract (faults.TooMany counted.Relations 500_001)) ≡ codes "error 5 TooMany what=relations count=500001" ++ 10 ∷ [] }
    ensures too_many_refs { line_of (Extract (faults.TooMany counted.Refs 20_000_001)) ≡ codes "error 5 TooMany what=refs count=20000001" ++ 10 ∷ [] }
    ensures too_many_members { line_of (Extract (faults.TooMany counted.Members 20_000_001)) ≡ codes "error 5 TooMany what=members count=20000001" ++ 10 ∷ [] }
    ensures too_many_tags { line_of (Extract (faults.TooMany counted.Tags 20_000_001)) ≡ codes "error 5 TooMany what=tags count=20000001" ++ 10 ∷ [] }
    ensures memory { line_of OutOfMemory ≡ codes "error 7 memory" ++ 10 ∷ [] }
{}
