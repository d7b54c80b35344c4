//! Hosts in memory with an extract.

use crate::tiles::word_bytes;
use host_port::{Bytes, MemHost, Text};
use std::alloc::{AllocError, Global};

/// A host with one file, `city.osm.pbf`.
pub fn host_with(
    alloc: Global,
    bytes: &[u8],
    failing: &[u64],
    piece: u64,
) -> Result<MemHost, AllocError> {
    let mut files = Vec::new(alloc);
    files.push((
        Text::from_str(alloc, "city.osm.pbf")?,
        Bytes::from_slice(alloc, bytes)?,
    ))?;
    let failing = Vec::from_slice(alloc, failing)?;
    Ok(MemHost::new(alloc, files, failing, piece))
}

/// The path of the file of tile 519120 of level 2 in the folder `out`: the tile whose south-west corner is at (0, 0).
pub const TILE_PATH: &str = "out/2/000/519/120.gph";

/// A host with the extract `city.osm.pbf` of these bytes, an older file of tile 519120 and another file.
pub fn host_of(
    alloc: Global,
    bytes: &[u8],
    failing: &[u64],
    piece: u64,
) -> Result<MemHost, AllocError> {
    let mut files = Vec::new(alloc);
    for (path, bytes) in [
        (TILE_PATH, b"older".as_slice()),
        ("city.osm.pbf", bytes),
        ("out/other", b"other".as_slice()),
    ] {
        files.push((
            Text::from_str(alloc, path)?,
            Bytes::from_slice(alloc, bytes)?,
        ))?;
    }
    let failing = Vec::from_slice(alloc, failing)?;
    Ok(MemHost::new(alloc, files, failing, piece))
}

/// The bytes of the file of that path, or none where there is no such file.
pub fn file_of<'a>(host: &'a MemHost, path: &str) -> &'a [u8] {
    match host.files.number_of(path) {
        Some(number) => host.files.bytes_numbered(number).unwrap_or(b""),
        None => b"",
    }
}

/// Whether the host has the three files of `host_of`, with this one of tile 519120 among them and the others as they
/// were, and whether so many paths were put.
pub fn holds(host: &MemHost, tile: &[u8], puts: usize) -> bool {
    host.files.len() == 3
        && file_of(host, TILE_PATH) == tile
        && file_of(host, "out/other") == b"other".as_slice()
        && host.puts.len() == puts
}

/// Whether the file of that path has the bytes of these words.
pub fn file_is(
    alloc: Global,
    host: &MemHost,
    path: &str,
    words: &[u64],
) -> Result<bool, AllocError> {
    let bytes = word_bytes(alloc, words)?;
    Ok(file_of(host, path) == bytes.as_slice())
}

/// Whether these paths were put, in this order, and no other: they are told with a space between two.
pub fn puts_are(alloc: Global, host: &MemHost, paths: &str) -> Result<bool, AllocError> {
    let mut told = String::new(alloc);
    for put in host.puts.as_slice() {
        if !told.is_empty() {
            told.push_str(" ")?;
        }
        told.push_str(put.as_str())?;
    }
    Ok(told.as_str() == paths)
}
