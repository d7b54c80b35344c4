//! The numbers of one object, by the names that osmformat.proto gives its fields. Each field is a list, also where the
//! format has one number: the last of them counts.

/// The numbers of a `Node`.
#[derive(Clone, Copy, Debug)]
pub struct RawNode<'a> {
    pub id: &'a [u64],
    pub keys: &'a [u64],
    pub vals: &'a [u64],
    pub lat: &'a [u64],
    pub lon: &'a [u64],
}

/// The numbers of a `DenseNodes`.
#[derive(Clone, Copy, Debug)]
pub struct RawDenseNodes<'a> {
    pub id: &'a [u64],
    pub lat: &'a [u64],
    pub lon: &'a [u64],
    pub keys_vals: &'a [u64],
}

/// The numbers of a `Way`.
#[derive(Clone, Copy, Debug)]
pub struct RawWay<'a> {
    pub id: &'a [u64],
    pub keys: &'a [u64],
    pub vals: &'a [u64],
    pub refs: &'a [u64],
}

/// The numbers of a `Relation`.
#[derive(Clone, Copy, Debug)]
pub struct RawRelation<'a> {
    pub id: &'a [u64],
    pub keys: &'a [u64],
    pub vals: &'a [u64],
    pub roles_sid: &'a [u64],
    pub memids: &'a [u64],
    pub types: &'a [u64],
}
