//! The words of each command: which of them are refused, and that workers change nothing of what is put.

use program_runs::status_of;
use std::alloc::AllocError;
use std::test::Fail;
use std::thread::Threads;
use test_support::{HEADER, front, holds, host_of, host_with, road_tile};

/// Whether these words are refused, with one line and no other call of the host.
fn refuses<R: Threads + Sync + AllocGlobal>(rt: &R, words: &[&str]) -> Result<bool, AllocError> {
    let mut host = host_of(rt.alloc(), &HEADER, &[], 65_536)?;
    Ok(
        status_of(rt, words, &mut host)? == 2
            && host.said.as_slice() == b"error 2 words\n".as_slice()
            && host.calls == 1,
    )
}

#[test]
fn refused_words(rt: HostRuntime) -> Result<(), Fail> {
    for words in [
        [].as_slice(),
        &["blobs"],
        &["blobs", ""],
        &["blobs", "city.osm.pbf", "more"],
        &["Blobs", "city.osm.pbf"],
        &["blobs", "-x"],
        &["blobs", "--input", "city.osm.pbf", "--output", "out"],
        &["city.osm.pbf"],
        &["help"],
        &["--help"],
        &["--version"],
        &["blobs", "--help"],
        &["build", "-h"],
        &["demo", "100", "1"],
    ] {
        assert!(rt; refuses(&rt, words)?, "{words:?}");
    }
    Ok(())
}

// An option without its value, an empty value, a word too many, a name cut short, an option twice, numbers of workers
// outside 1 to 64 or not plain, modes twice or unknown.
#[test]
fn refused_options(rt: HostRuntime) -> Result<(), Fail> {
    for words in [
        ["build", "city.osm.pbf"].as_slice(),
        &["build", "--input", "city.osm.pbf"],
        &["build", "--input", "city.osm.pbf", "--output"],
        &["build", "--input", "", "--output", "out"],
        &["build", "--input=", "--output", "out"],
        &["build", "--input", "city.osm.pbf", "--output", ""],
        &["build", "--input", "city.osm.pbf", "--output", "out", "out"],
        &["build", "--input", "city.osm.pbf", "--out", "out"],
        &[
            "build",
            "--input",
            "a",
            "--input",
            "city.osm.pbf",
            "--output",
            "out",
        ],
        &[
            "build",
            "--input",
            "city.osm.pbf",
            "--output",
            "out",
            "--workers",
            "0",
        ],
        &[
            "build",
            "--input",
            "city.osm.pbf",
            "--output",
            "out",
            "--workers",
            "65",
        ],
        &[
            "build",
            "--input",
            "city.osm.pbf",
            "--output",
            "out",
            "--workers",
            "01",
        ],
        &[
            "build",
            "--input",
            "city.osm.pbf",
            "--output",
            "out",
            "--workers",
            "+1",
        ],
        &[
            "build",
            "--modes",
            "auto,auto",
            "--input",
            "city.osm.pbf",
            "--output",
            "out",
        ],
        &[
            "build",
            "--modes",
            "tram",
            "--input",
            "city.osm.pbf",
            "--output",
            "out",
        ],
    ] {
        assert!(rt; refuses(&rt, words)?, "{words:?}");
    }
    Ok(())
}

/// Whether these words build the tile of the small extract for these modes, in the folder `out`.
fn builds<R: Threads + Sync + AllocGlobal>(
    rt: &R,
    words: &[&str],
    modes: u8,
) -> Result<bool, AllocError> {
    let mut host = host_of(rt.alloc(), &front(rt.alloc(), 112)?, &[], 65_536)?;
    let status = status_of(rt, words, &mut host)?;
    let tile = road_tile(rt.alloc(), modes)?;
    Ok(status == 0 && holds(&host, &tile, 1) && host.said.is_empty())
}

// Options come in any order, with `=` or a word of their own. Without `--modes` all are asked for, 79; workers change
// nothing.
#[test]
fn options(rt: HostRuntime) -> Result<(), Fail> {
    for words in [
        ["build", "--input", "city.osm.pbf", "--output", "out"].as_slice(),
        &["build", "--output", "out", "--input", "city.osm.pbf"],
        &["build", "--output=out", "--input=city.osm.pbf"],
        &["build", "--output=out", "--input", "city.osm.pbf", "--"],
        &[
            "build",
            "--workers",
            "64",
            "--output",
            "out",
            "--input",
            "city.osm.pbf",
        ],
    ] {
        assert!(rt; builds(&rt, words, 79)?, "{words:?}");
    }
    Ok(())
}

// The names of modes come in any order: bus is 64, auto 1, pedestrian 2.
#[test]
fn options_with_modes(rt: HostRuntime) -> Result<(), Fail> {
    let two = builds(
        &rt,
        &[
            "build",
            "--modes=bus,auto",
            "--output",
            "out",
            "--input",
            "city.osm.pbf",
        ],
        65,
    )?;
    let one = builds(
        &rt,
        &[
            "build",
            "--modes",
            "pedestrian",
            "--workers=7",
            "--output",
            "out",
            "--input",
            "city.osm.pbf",
        ],
        2,
    )?;
    assert_eq!(rt; (two, one), (true, true));
    Ok(())
}

// Behind a bare `--` a path may begin with a dash; `-` is a plain word. No such file is there.
#[test]
fn dashes(rt: HostRuntime) -> Result<(), Fail> {
    for words in [["blobs", "--", "-x"].as_slice(), &["blobs", "-"]] {
        let mut host = host_with(rt.alloc(), &HEADER, &[], 65_536)?;
        assert_eq!(rt; status_of(&rt, words, &mut host)?, 3, "{words:?}");
    }
    Ok(())
}
