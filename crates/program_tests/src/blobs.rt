//! The command `blobs` over a host in memory: its text, its refusals with their places, and its faults.

use program_runs::{blobs_of, status_of};
use std::alloc::AllocError;
use std::process::Abort;
use std::test::Fail;
use std::thread::Threads;
use test_support::{COMPRESSED, HEADER, LONG, UNKNOWN, front, host_with};

#[test]
fn rows(rt: HostRuntime) -> Result<(), Fail> {
    let both = front(rt.alloc(), 112)?;
    for (bytes, status, said) in [
        (HEADER.as_slice(), 0, "0 OSMHeader 18\n"),
        (both.as_slice(), 0, "0 OSMHeader 18\n35 OSMData 62\n"),
        (UNKNOWN.as_slice(), 0, "0 Unknown00 4\n"),
        ([].as_slice(), 0, ""),
        (
            COMPRESSED.as_slice(),
            5,
            "error 5 Compressed at=17 field=3\n",
        ),
        (
            LONG.as_slice(),
            5,
            "error 5 HeaderTooLong at=0 len=16777229\n",
        ),
        (&HEADER[..34], 5, "error 5 Truncated at=17\n"),
        (&HEADER[..3], 5, "error 5 Truncated at=0\n"),
    ] {
        for piece in [1, 2, 7, 65_536] {
            let (found, host) = blobs_of(&rt, bytes, piece)?;
            assert_eq!(rt; found, status, "of {bytes:?}");
            assert_eq!(rt; host.said.as_slice(), said.as_bytes(), "of {bytes:?}");
        }
    }
    Ok(())
}

// An input without blobs has an empty text, for which the host isn't called.
#[test]
fn empty_input(rt: HostRuntime) -> Result<(), Fail> {
    let (status, host) = blobs_of(&rt, &[], 65_536)?;
    assert_eq!(rt; status, 0);
    assert_eq!(rt; host.calls, 2);
    Ok(())
}

// Where the two triples are cut, each part of them names the place where it begins.
#[test]
fn cut_at_each_byte(rt: HostRuntime) -> Result<(), Fail> {
    for count in 0..112 {
        let bytes = front(rt.alloc(), count)?;
        let (status, host) = blobs_of(&rt, &bytes, 65_536)?;
        let (expected, said) = match count {
            0 => (0, ""),
            1..=3 => (5, "error 5 Truncated at=0\n"),
            4..=16 => (5, "error 5 Truncated at=4\n"),
            17..=34 => (5, "error 5 Truncated at=17\n"),
            35 => (0, "0 OSMHeader 18\n"),
            36..=38 => (5, "error 5 Truncated at=35\n"),
            39..=49 => (5, "error 5 Truncated at=39\n"),
            _ => (5, "error 5 Truncated at=50\n"),
        };
        assert_eq!(rt; status, expected, "cut to {count}");
        assert_eq!(rt; host.said.as_slice(), said.as_bytes(), "cut to {count}");
    }
    Ok(())
}

#[test]
fn no_such_file(rt: HostRuntime) -> Result<(), Fail> {
    let mut host = host_with(rt.alloc(), &HEADER, &[], 65_536)?;
    let status = status_of(&rt, &["blobs", "town.osm.pbf"], &mut host)?;
    assert_eq!(rt; status, 3);
    assert_eq!(rt; host.said.as_slice(), b"error 3 read\n".as_slice());
    Ok(())
}

// Each call of the host fails in turn: opening, every read, and saying at last.
#[test]
fn each_call_fails(rt: HostRuntime) -> Result<(), Fail> {
    let both = front(rt.alloc(), 112)?;
    let (_, whole) = blobs_of(&rt, &both, 65_536)?;
    for number in 0..whole.calls {
        let mut host = host_with(rt.alloc(), &both, &[number], 65_536)?;
        let status = status_of(&rt, &["blobs", "city.osm.pbf"], &mut host)?;
        if number + 1 < whole.calls {
            assert_eq!(rt; status, 3, "call {number}");
            assert_eq!(rt; host.said.as_slice(), b"error 3 read\n".as_slice());
        } else {
            assert_eq!(rt; status, 9, "call {number}");
            assert_eq!(rt; host.said.len(), 0);
        }
    }
    Ok(())
}

/// The last call of the host, which says the line, fails: the line is lost, and the status stays.
fn loses_its_line<R: Threads + Sync + AllocGlobal + Abort>(
    rt: &R,
    words: &[&str],
    status: u8,
) -> Result<(), AllocError> {
    let mut heard = host_with(rt.alloc(), &HEADER[..20], &[], 65_536)?;
    assert_eq!(rt; status_of(rt, words, &mut heard)?, status);
    let last = heard.calls.saturating_sub(1);
    let mut lost = host_with(rt.alloc(), &HEADER[..20], &[last], 65_536)?;
    assert_eq!(rt; status_of(rt, words, &mut lost)?, status);
    assert_eq!(rt; lost.said.len(), 0);
    Ok(())
}

#[test]
fn lost_lines(rt: HostRuntime) -> Result<(), Fail> {
    loses_its_line(&rt, &["blobs", ""], 2)?;
    loses_its_line(&rt, &["blobs", "town.osm.pbf"], 3)?;
    loses_its_line(&rt, &["blobs", "city.osm.pbf"], 5)?;
    Ok(())
}
