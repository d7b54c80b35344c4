//! The numbers that osmformat.proto gives to the fields that are read, as digits, so that a wrong constant is refused
//! though code and definitions cite it.

ghost use Rattle.std.specs.Prelude.{◌≡◌};
ghost use Rattle.osm_messages.specs.declared.fields.TheConstants.{HEADER_REQUIRED_FEATURES, BLOCK_STRINGTABLE, BLOCK_PRIMITIVEGROUP, BLOCK_GRANULARITY, BLOCK_LAT_OFFSET, BLOCK_LON_OFFSET, STRINGTABLE_S, GROUP_NODES, GROUP_DENSE, GROUP_WAYS, GROUP_RELATIONS, NODE_ID, NODE_KEYS, NODE_VALS, NODE_LAT, NODE_LON, DENSE_ID, DENSE_LAT, DENSE_LON, DENSE_KEYS_VALS, WAY_ID, WAY_KEYS, WAY_VALS, WAY_REFS, RELATION_ID, RELATION_KEYS, RELATION_VALS, RELATION_ROLES_SID, RELATION_MEMIDS, RELATION_TYPES};

/// HeaderBlock, PrimitiveBlock, StringTable, PrimitiveGroup.
pub fn worked_block_fields()
    ensures required_features { HEADER_REQUIRED_FEATURES ≡ 4 }
    ensures stringtable { BLOCK_STRINGTABLE ≡ 1 }
    ensures primitivegroup { BLOCK_PRIMITIVEGROUP ≡ 2 }
    ensures granularity { BLOCK_GRANULARITY ≡ 17 }
    ensures lat_offset { BLOCK_LAT_OFFSET ≡ 19 }
    ensures lon_offset { BLOCK_LON_OFFSET ≡ 20 }
    ensures text { STRINGTABLE_S ≡ 1 }
    ensures nodes { GROUP_NODES ≡ 1 }
    ensures dense { GROUP_DENSE ≡ 2 }
    ensures ways { GROUP_WAYS ≡ 3 }
    ensures relations { GROUP_RELATIONS ≡ 4 }
{}

/// Node and DenseNodes.
pub fn worked_node_fields()
    ensures node_id { NODE_ID ≡ 1 }
    ensures node_keys { NODE_KEYS ≡ 2 }
    ensures node_vals { NODE_VALS ≡ 3 }
    ensures node_lat { NODE_LAT ≡ 8 }
    ensures node_lon { NODE_LON ≡ 9 }
    ensures dense_id { DENSE_ID ≡ 1 }
    ensures dense_lat { DENSE_LAT ≡ 8 }
    ensures dense_lon { DENSE_LON ≡ 9 }
    ensures dense_keys_vals { DENSE_KEYS_VALS ≡ 10 }
{}

/// Way and Relation.
pub fn worked_list_fields()
    ensures way_id { WAY_ID ≡ 1 }
    ensures way_keys { WAY_KEYS ≡ 2 }
    ensures way_vals { WAY_VALS ≡ 3 }
    ensures way_refs { WAY_REFS ≡ 8 }
    ensures relation_id { RELATION_ID ≡ 1 }
    ensures relation_keys { RELATION_KEYS ≡ 2 }
    ensures relation_vals { RELATION_VALS ≡ 3 }
    ensures relation_roles { RELATION_ROLES_SID ≡ 8 }
    ensures relation_memids { RELATION_MEMIDS ≡ 9 }
    ensures relation_types { RELATION_TYPES ≡ 10 }
{}
