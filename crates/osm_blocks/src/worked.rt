//! Counts and limits that were worked out by hand, which the checker computes from the definitions.

ghost use Rattle.std.specs.Prelude.{◌≡◌, None, Some};
ghost use Rattle.osm_blocks.specs.declared.fault.Counted.TheVariants as counted;
ghost use Rattle.osm_blocks.specs.Counts.{counts_of, first_past, limited_counts};
ghost use Rattle.osm_blocks.specs.WorkedCounts.{three_two_one};

/// At its limit no count is too many; one more is, and the first such count is the one that is told.
pub fn worked_limits()
    ensures at_the_limits { first_past (limited_counts 10_000_000 2_000_000 500_000 20_000_000 20_000_000 20_000_000) ≡ None }
    ensures nodes { first_past (limited_counts 10_000_001 2_000_001 500_001 20_000_001 20_000_001 20_000_001) ≡ Some (counted.Nodes, 10_000_001) }
    ensures ways { first_past (limited_counts 10_000_000 2_000_001 500_001 20_000_001 20_000_001 20_000_001) ≡ Some (counted.Ways, 2_000_001) }
    ensures relations { first_past (limited_counts 10_000_000 2_000_000 500_002 20_000_001 20_000_001 20_000_001) ≡ Some (counted.Relations, 500_002) }
    ensures one_relation { first_past (limited_counts 0 0 500_001 0 0 0) ≡ Some (counted.Relations, 500_001) }
    ensures refs { first_past (limited_counts 10_000_000 2_000_000 500_000 20_000_001 20_000_001 20_000_001) ≡ Some (counted.Refs, 20_000_001) }
    ensures members { first_past (limited_counts 10_000_000 2_000_000 500_000 20_000_000 20_000_001 20_000_001) ≡ Some (counted.Members, 20_000_001) }
    ensures tags { first_past (limited_counts 10_000_000 2_000_000 500_000 20_000_000 20_000_000 20_000_001) ≡ Some (counted.Tags, 20_000_001) }
{}

/// The refs, members and tags of a few objects: the tags are 1 of nodes, 2 of ways and 4 of relations.
pub fn worked_counts()
    ensures { counts_of three_two_one ≡ limited_counts 3 2 1 3 5 7 }
{}
