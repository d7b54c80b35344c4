//! A blob of a PBF file.

use host_port::{Bytes, Text};

/// A blob (`BlobHeader` and `Blob` of fileformat.proto), with its place. Places are in bytes from the input's start,
/// sizes in bytes.
#[derive(Debug, Drop)]
pub struct Blob {
    /// The place of the triple, where its length stands.
    pub at: u64,
    /// The type that the BlobHeader gives.
    pub kind: Text,
    /// The size of the Blob, as the BlobHeader gives it.
    pub size: u64,
    /// Whether the type is `OSMHeader` or `OSMData`. The payload of other types isn't looked at.
    pub known: bool,
    /// The place of the first byte of the raw payload; for an unknown type that of the Blob.
    pub raw_at: u64,
    /// The raw payload; nothing for an unknown type.
    pub raw: Bytes,
    /// The place after the Blob, where the next triple begins.
    pub end: u64,
}

/// What is known of a triple when its Blob comes next.
#[derive(Debug, Drop)]
pub(crate) struct Head {
    /// The place of the triple.
    pub at: u64,
    /// The place of the Blob.
    pub body_at: u64,
    /// The type that the BlobHeader gives.
    pub kind: Text,
    /// The size of the Blob, as the BlobHeader gives it.
    pub size: u64,
}
