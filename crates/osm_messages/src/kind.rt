//! The kinds of objects, and which of their fields hold numbers.
ghost use Rattle.std.specs.Prelude.{◌≡◌};
ghost use Rattle.osm_messages.specs.Numbers.{shape_of, is_field_among};

use crate::fields::{
    DENSE_ID, DENSE_KEYS_VALS, DENSE_LAT, DENSE_LON, NODE_ID, NODE_KEYS, NODE_LAT, NODE_LON,
    NODE_VALS, RELATION_ID, RELATION_KEYS, RELATION_MEMIDS, RELATION_ROLES_SID, RELATION_TYPES,
    RELATION_VALS, WAY_ID, WAY_KEYS, WAY_REFS, WAY_VALS,
};

/// What a message of a PrimitiveGroup (osmformat.proto) is: its field `nodes`, `dense`, `ways` or `relations`.
#[derive(Clone, Copy, Debug, PartialEq, Eq)]
pub enum ObjectKind {
    Node,
    /// Many nodes, list by list.
    DenseNodes,
    Way,
    Relation,
}

/// Whether this field holds a single number (not a list).
pub fn is_single(kind: ObjectKind, number: u32) -> bool
    ensures { result ≡ is_field_among number (shape_of kind).singles }
{
    match kind {
        ObjectKind::Node => matches!(number, NODE_ID | NODE_LAT | NODE_LON),
        ObjectKind::DenseNodes => false,
        ObjectKind::Way => number == WAY_ID,
        ObjectKind::Relation => number == RELATION_ID,
    }
}

/// Whether this field holds a list of numbers, packed or not.
pub fn is_list(kind: ObjectKind, number: u32) -> bool
    ensures { result ≡ is_field_among number (shape_of kind).lists }
{
    match kind {
        ObjectKind::Node => matches!(number, NODE_KEYS | NODE_VALS),
        ObjectKind::DenseNodes => matches!(
            number,
            DENSE_ID | DENSE_LAT | DENSE_LON | DENSE_KEYS_VALS
        ),
        ObjectKind::Way => matches!(number, WAY_KEYS | WAY_VALS | WAY_REFS),
        ObjectKind::Relation => matches!(
            number,
            RELATION_KEYS | RELATION_VALS | RELATION_ROLES_SID | RELATION_MEMIDS | RELATION_TYPES
        ),
    }
}
