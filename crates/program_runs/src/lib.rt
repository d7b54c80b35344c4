//! Runs of the program over a host in memory, as its tests make them.
#![tactic(auto)]

use host_port::{MemHost, NoGate};
use mjolnir_cli::mjolnir;
use std::alloc::AllocError;
use std::thread::Threads;
use test_support::{BlockWriter, HEADER, data_triple, holds, host_of, host_with, word_bytes};

/// Calls the top call with these words, and answers the status.
pub fn status_of<R: Threads + Sync + AllocGlobal>(
    rt: &R,
    words: &[&str],
    host: &mut MemHost,
) -> Result<u8, AllocError> {
    let alloc = rt.alloc();
    let mut owned = Vec::new(alloc);
    for word in words {
        owned.push(String::from_str(alloc, word)?)?;
    }
    Ok(mjolnir(rt, alloc, &owned, host, &NoGate))
}

/// Lists the blobs of these bytes.
pub fn blobs_of<R: Threads + Sync + AllocGlobal>(
    rt: &R,
    bytes: &[u8],
    piece: u64,
) -> Result<(u8, MemHost), AllocError> {
    let mut host = host_with(rt.alloc(), bytes, &[], piece)?;
    let status = status_of(rt, &["blobs", "city.osm.pbf"], &mut host)?;
    Ok((status, host))
}

/// Builds for all modes in the folder `out` of that host, and answers the status.
pub fn build_in<R: Threads + Sync + AllocGlobal>(
    rt: &R,
    host: &mut MemHost,
) -> Result<u8, AllocError> {
    status_of(
        rt,
        &["build", "--input", "city.osm.pbf", "--output", "out"],
        host,
    )
}

/// Builds for these modes in the folder `out` of that host, and answers the status.
pub fn build_for<R: Threads + Sync + AllocGlobal>(
    rt: &R,
    host: &mut MemHost,
    modes: &str,
) -> Result<u8, AllocError> {
    status_of(
        rt,
        &[
            "build",
            "--input",
            "city.osm.pbf",
            "--output",
            "out",
            "--modes",
            modes,
        ],
        host,
    )
}

/// Builds the extract of these objects for these modes, in the folder `out` of a host that has an older file of tile
/// 519120. Answers the status, and the host afterwards.
pub fn built<R: Threads + Sync + AllocGlobal>(
    rt: &R,
    objects: &BlockWriter,
    modes: &str,
) -> Result<(u8, MemHost), AllocError> {
    let mut host = host_of(rt.alloc(), &objects.extract()?, &[], 65_536)?;
    let status = build_for(rt, &mut host, modes)?;
    Ok((status, host))
}

/// Whether a build of the extract of these objects for these modes puts the file of tile 519120 with these words, and no
/// other, and says nothing.
pub fn puts_tile<R: Threads + Sync + AllocGlobal>(
    rt: &R,
    objects: &BlockWriter,
    modes: &str,
    words: &[u64],
) -> Result<bool, AllocError> {
    let (status, host) = built(rt, objects, modes)?;
    let tile = word_bytes(rt.alloc(), words)?;
    Ok(status == 0 && holds(&host, &tile, 1) && host.said.is_empty())
}

/// Whether a build of the extract of these objects for all modes ends with this status, says this line, and puts
/// nothing.
pub fn puts_nothing<R: Threads + Sync + AllocGlobal>(
    rt: &R,
    objects: &BlockWriter,
    status: u8,
    said: &str,
) -> Result<bool, AllocError> {
    ends(rt, &objects.extract()?, status, b"older", said)
}

/// Whether a build of these bytes ends so in pieces of each size: with this status, this file of tile 519120 and this
/// line. The host has an older file of it, `older`, which stays where nothing is put.
pub fn ends<R: Threads + Sync + AllocGlobal>(
    rt: &R,
    bytes: &[u8],
    status: u8,
    tile: &[u8],
    said: &str,
) -> Result<bool, AllocError> {
    let puts = if tile == b"older".as_slice() { 0 } else { 1 };
    for piece in [1, 2, 7, 65_536] {
        let mut host = host_of(rt.alloc(), bytes, &[], piece)?;
        if build_in(rt, &mut host)? != status
            || !holds(&host, tile, puts)
            || host.said.as_slice() != said.as_bytes()
        {
            return Ok(false);
        }
    }
    Ok(true)
}

/// Whether a build of the small header and this data block says this line, or is done where the line is empty; either
/// way it puts nothing.
pub fn says<R: Threads + Sync + AllocGlobal>(
    rt: &R,
    block: &[u8],
    said: &str,
) -> Result<bool, AllocError> {
    let mut bytes = Vec::from_slice(rt.alloc(), &HEADER)?;
    bytes.extend_from_slice(&data_triple(rt.alloc(), block)?)?;
    bytes_say(rt, &bytes, said)
}

/// The same, of two data blocks.
pub fn two_say<R: Threads + Sync + AllocGlobal>(
    rt: &R,
    first: &[u8],
    second: &[u8],
    said: &str,
) -> Result<bool, AllocError> {
    let mut bytes = Vec::from_slice(rt.alloc(), &HEADER)?;
    bytes.extend_from_slice(&data_triple(rt.alloc(), first)?)?;
    bytes.extend_from_slice(&data_triple(rt.alloc(), second)?)?;
    bytes_say(rt, &bytes, said)
}

/// The same, of the bytes of a whole file.
fn bytes_say<R: Threads + Sync + AllocGlobal>(
    rt: &R,
    bytes: &[u8],
    said: &str,
) -> Result<bool, AllocError> {
    let status = if said.is_empty() { 0 } else { 5 };
    ends(rt, bytes, status, b"older", said)
}
