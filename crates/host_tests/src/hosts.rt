//! Both hosts at work, their calls made through the bound where a caller would have it.

use host_port::{Bytes, Gate, Host, HostFault, MemHost, Moment, NoGate, RealHost, Text};
use std::alloc::{AllocError, Global};
use std::fs;
use std::rt::Files;
use std::test::Fail;

fn file(alloc: Global, path: &str, bytes: &[u8]) -> Result<(Text, Bytes), AllocError> {
    Ok((
        Text::from_str(alloc, path)?,
        Bytes::from_slice(alloc, bytes)?,
    ))
}

/// Two files, and before them one whose path stands twice.
fn some_files(alloc: Global) -> Result<Vec<(Text, Bytes)>, AllocError> {
    let mut files = Vec::new(alloc);
    files.push(file(alloc, "twice", b"one")?)?;
    files.push(file(alloc, "greeting", b"hello, world")?)?;
    files.push(file(alloc, "twice", b"two")?)?;
    Ok(files)
}

/// Reads the whole input through a buffer of five bytes, and gives how many bytes came and in how many reads.
fn read_all<H: Host>(alloc: Global, host: &mut H, path: &str) -> Result<(Vec<u8>, u64), Fail> {
    let mut bytes = Vec::new(alloc);
    let mut buf = [0u8; 5];
    host.open_input(path)?;
    for reads in 0..64u64 {
        let count = host.read(&mut buf)?;
        if count == 0 {
            return Ok((bytes, reads));
        }
        bytes.extend_from_slice(&buf[..count])?;
    }
    Err(Fail::from("too many reads"))
}

#[test]
fn reads_in_pieces(rt: HostRuntime) -> Result<(), Fail> {
    for (piece, reads) in [(1, 12), (2, 6), (7, 3), (65536, 3), (0, 12)] {
        let mut host = MemHost::new(
            rt.alloc(),
            some_files(rt.alloc())?,
            Vec::new(rt.alloc()),
            piece,
        );
        let (bytes, count) = read_all(rt.alloc(), &mut host, "greeting")?;
        assert_eq!(rt;
            bytes.as_slice(),
            b"hello, world".as_slice(),
            "pieces of {piece}"
        );
        assert_eq!(rt; count, reads, "pieces of {piece}");
        assert_eq!(rt; host.place, 12);
    }
    Ok(())
}

/// One call of each kind, in the order open, read, put, say: whether each one failed.
fn four_calls<H: Host>(host: &mut H) -> [bool; 4] {
    let mut buf = [0u8; 5];
    [
        host.open_input("greeting").is_err(),
        host.read(&mut buf).is_err(),
        host.put("new", b"bytes").is_err(),
        host.say(b"said").is_err(),
    ]
}

/// The calls, the three counts of faults, and how many bytes were said, paths put and files there are.
fn counts_of(host: &MemHost) -> [u64; 7] {
    [
        host.calls,
        host.read_faults,
        host.put_faults,
        host.say_faults,
        host.said.len() as u64,
        host.puts.len() as u64,
        host.files.len() as u64,
    ]
}

#[test]
fn fails_where_it_is_told_to(rt: HostRuntime) -> Result<(), Fail> {
    // Where the opening fails no input is open, so the read fails too.
    let rows = [
        (0, [true, true, false, false], [4, 2, 0, 0, 4, 1, 4]),
        (1, [false, true, false, false], [4, 1, 0, 0, 4, 1, 4]),
        (2, [false, false, true, false], [4, 0, 1, 0, 4, 0, 3]),
        (3, [false, false, false, true], [4, 0, 0, 1, 0, 1, 4]),
        (4, [false, false, false, false], [4, 0, 0, 0, 4, 1, 4]),
    ];
    for (number, failed, counts) in rows {
        let failing = vec![in rt.alloc(); number]?;
        let mut host = MemHost::new(rt.alloc(), some_files(rt.alloc())?, failing, 7);
        assert!(rt; four_calls(&mut host) == failed, "failing {number}");
        assert!(rt; counts_of(&host) == counts, "failing {number}");
    }
    Ok(())
}

fn are_files(files: &[(Text, Bytes)], expected: &[(&str, &str)]) -> bool {
    files.len() == expected.len()
        && files.iter().zip(expected).all(|(file, (path, bytes))| {
            file.0.as_str() == *path && file.1.as_slice() == bytes.as_bytes()
        })
}

fn are_paths(paths: &[Text], expected: &[&str]) -> bool {
    paths.len() == expected.len()
        && paths
            .iter()
            .zip(expected)
            .all(|(path, text)| path.as_str() == *text)
}

fn put_three<H: Host>(host: &mut H) -> Result<(), HostFault> {
    host.put("new", b"1")?;
    host.put("twice", b"three")?;
    host.put("new", b"")
}

#[test]
fn puts_files(rt: HostRuntime) -> Result<(), Fail> {
    let mut host = MemHost::new(rt.alloc(), some_files(rt.alloc())?, Vec::new(rt.alloc()), 7);
    put_three(&mut host)?;
    let files = [
        ("twice", "three"),
        ("greeting", "hello, world"),
        ("twice", "two"),
        ("new", ""),
    ];
    assert!(rt; are_files(host.files.as_slice(), &files));
    assert!(rt; are_paths(host.puts.as_slice(), &["new", "twice", "new"]));
    Ok(())
}

/// The answers of reads before an input is open, of one that is, and of one at a number that names no file.
fn reads_around(host: &mut MemHost, buf: &mut [u8; 3]) -> [Result<usize, HostFault>; 3] {
    let before = host.read(buf);
    let _ = host.open_input("greeting");
    let _ = host.open_input("greetin");
    let within = host.read(buf);
    host.input = Some(3);
    [before, within, host.read(buf)]
}

#[test]
fn meets_what_is_not_there(rt: HostRuntime) -> Result<(), Fail> {
    let mut host = MemHost::new(rt.alloc(), some_files(rt.alloc())?, Vec::new(rt.alloc()), 7);
    let mut buf = [9u8; 3];
    let answers = reads_around(&mut host, &mut buf);
    assert!(rt; answers == [Err(HostFault::Failed), Ok(3), Err(HostFault::Failed)]);
    assert!(rt; buf == *b"hel");
    assert!(rt; [host.read_faults, host.calls] == [3, 5]);
    Ok(())
}

#[test]
fn says_one_text(rt: HostRuntime) -> Result<(), Fail> {
    let mut host = MemHost::new(rt.alloc(), Vec::new(rt.alloc()), Vec::new(rt.alloc()), 7);
    host.say(b"a line\n")?;
    host.say(b"and more")?;
    assert!(rt; host.said.as_slice() == b"a line\nand more".as_slice());
    Ok(())
}

#[test]
fn stays_at_the_end_of_a_count(rt: HostRuntime) -> Result<(), Fail> {
    let failing = vec![in rt.alloc(); u64::MAX]?;
    let mut host = MemHost::new(rt.alloc(), some_files(rt.alloc())?, failing, 7);
    host.calls = u64::MAX;
    host.say_faults = u64::MAX;
    assert_eq!(rt; host.say(b"x"), Err(HostFault::Failed));
    assert_eq!(rt; [host.calls, host.say_faults], [u64::MAX, u64::MAX]);
    Ok(())
}

#[test]
fn gives_back_what_it_is_made_of(rt: HostRuntime) -> Result<(), Fail> {
    let text = Text::from(String::from_str(rt.alloc(), "grün")?);
    assert!(rt; text.len() == 5);
    let string: String = text.into();
    assert!(rt; string.as_str() == "grün");
    let bytes = Bytes::from(vec![in rt.alloc(); 1, 2, 3]?);
    assert!(rt; bytes == Bytes::from_slice(rt.alloc(), &[1, 2, 3])?);
    assert!(rt; bytes != Bytes::from_slice(rt.alloc(), &[1, 2])?);
    let items: Vec<u8> = bytes.into();
    assert!(rt; items.as_slice() == [1, 2, 3].as_slice());
    Ok(())
}

fn passes<G: Gate>(gate: &G) {
    gate.at(0, Moment::Claimed { phase: 1, tile: 7 });
    gate.at(0, Moment::Finished { phase: 1, tile: 7 });
}

const FOLDER: &str = "host_port_test";

const REAL_FILE: &str = "host_port_test/new/file";

const PART: &str = "host_port_test/new/file.7.part0";

/// Whether each fails: an opening of no file, a put where a folder stands, a read after a put.
fn real_faults<H: Host>(host: &mut H) -> [bool; 3] {
    [
        host.open_input("host_port_test/none").is_err(),
        host.put("host_port_test/new", b"").is_err(),
        host.put(REAL_FILE, b"").is_ok() && host.read(&mut [0u8; 1]).is_err(),
    ]
}

/// Whether a put fails where folders have all paths that a part may have, and one where a folder has the path itself;
/// and whether something of a part is left.
fn failed_puts<H: Host, R: Files + Alloc>(rt: &R, host: &mut H) -> Result<[bool; 3], Fail> {
    for number in 0..100u32 {
        fs::create_dir(
            rt,
            format!(in rt.alloc(); "{REAL_FILE}.7.part{number}")?.as_str(),
        )?;
    }
    let no_part = host.put(REAL_FILE, b"other bytes").is_err();
    fs::remove_dir(rt, PART)?;
    let no_path = host.put("host_port_test/new", b"other bytes").is_err();
    let is_left = fs::exists(rt, "host_port_test/new.7.part0")?;
    Ok([no_part, no_path, is_left])
}

/// Whether a put fails where another file has the first path of a part, and whether something of the next is left.
fn put_beside_a_part<H: Host>(rt: &impl Files, host: &mut H) -> Result<[bool; 2], Fail> {
    fs::write(rt, PART, b"another run's")?;
    let fails = host.put(REAL_FILE, b"hello, world").is_err();
    let is_left = fs::exists(rt, "host_port_test/new/file.7.part1")?;
    Ok([fails, is_left])
}

#[test]
fn works_on_real_files(rt: HostRuntime) -> Result<(), Fail> {
    let mut host = RealHost::new(&rt, 7);
    host.put(REAL_FILE, b"what was there before")?;
    assert!(rt; put_beside_a_part(&rt, &mut host)? == [false, false]);
    let (part, _) = read_all(rt.alloc(), &mut host, PART)?;
    assert!(rt; part.as_slice() == b"another run's".as_slice());
    fs::remove_file(&rt, PART)?;
    assert!(rt; failed_puts(&rt, &mut host)? == [true, true, false]);
    let (bytes, reads) = read_all(rt.alloc(), &mut host, REAL_FILE)?;
    assert!(rt; bytes.as_slice() == b"hello, world".as_slice());
    assert!(rt; reads == 3);
    assert!(rt; real_faults(&mut host) == [true, true, true]);
    host.say(b"said\n")?;
    fs::remove_dir_all(&rt, FOLDER)?;
    Ok(())
}
