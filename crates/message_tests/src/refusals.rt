//! The lines of inputs that `build` refuses, each with its bytes. Nothing is put, and the older file stays.

use program_runs::ends;
use std::alloc::{AllocError, Global};
use std::test::Fail;
use std::thread::Threads;
use test_support::{COMPRESSED, HEADER, UNKNOWN, data_triple, front};

/// Whether a build of these bytes is refused with this line, in pieces of each size.
fn refuses<R: Threads + Sync + AllocGlobal>(
    rt: &R,
    bytes: &[u8],
    said: &str,
) -> Result<bool, AllocError> {
    ends(rt, bytes, 5, b"older", said)
}

// The length and the header of a triple.
#[test]
fn headers(rt: HostRuntime) -> Result<(), Fail> {
    for (bytes, said) in [
        (
            b"\x00\x01\x00\x00\x0a\x09OSMHeader\x18\x12\x0a\x10\x22\x0eOsmSchema-V0.6".as_slice(),
            "error 5 HeaderTooLong at=0 len=65536\n",
        ),
        (b"\x00\x00\xff\xff\x0a\x09", "error 5 Truncated at=4\n"),
        (
            b"\x00\x00\x00\x0b\x0a\x09OSMHeader",
            "error 5 MissingField at=4 number=3\n",
        ),
        (
            b"\x00\x00\x00\x0c\x0a\x09OSMHeader\x18",
            "error 5 Wire fault=Short at=15\n",
        ),
        (
            b"\x00\x00\x00\x10\x0a\x09OSMHeader\x18\xc1\x80\x80\x10",
            "error 5 BlobTooLong at=0 len=33554497\n",
        ),
        (
            b"\x00\x00\x00\x05\x0a\x01\xff\x18\x00",
            "error 5 BadType at=4\n",
        ),
    ] {
        assert!(rt; refuses(&rt, bytes, said)?, "{said}");
    }
    Ok(())
}

// The Blob of a triple of type OSMHeader, and the features of a header block.
#[test]
fn blobs_of_headers(rt: HostRuntime) -> Result<(), Fail> {
    for (bytes, said) in [
        (
            b"\x00\x00\x00\x0d\x0a\x09OSMHeader\x18\x00".as_slice(),
            "error 5 NoPayload at=17\n",
        ),
        (
            b"\x00\x00\x00\x0d\x0a\x09OSMHeader\x18\x01\x0b",
            "error 5 Wire fault=BadWire at=17 kind=3\n",
        ),
        (
            b"\x00\x00\x00\x0d\x0a\x09OSMHeader\x18\x01\x00",
            "error 5 Wire fault=BadNumber at=17\n",
        ),
        (
            b"\x00\x00\x00\x0d\x0a\x09OSMHeader\x18\x0b\x08\xff\xff\xff\xff\xff\xff\xff\xff\xff\xff",
            "error 5 Wire fault=LongVarint at=17\n",
        ),
        (COMPRESSED.as_slice(), "error 5 Compressed at=17 field=3\n"),
        (
            b"\x00\x00\x00\x0d\x0a\x09OSMHeader\x18\x19\x0a\x17\x22\x15HistoricalInformation",
            "error 5 Feature at=19 text=HistoricalInformation\n",
        ),
        // the first of two, and behind a known one of 12 bytes
        (
            b"\x00\x00\x00\x0d\x0a\x09OSMHeader\x18\x08\x0a\x06\x22\x01B\x22\x01A",
            "error 5 Feature at=19 text=B\n",
        ),
        (
            b"\x00\x00\x00\x0d\x0a\x09OSMHeader\x18\x11\x0a\x0f\x22\x0aDenseNodes\x22\x01B",
            "error 5 Feature at=31 text=B\n",
        ),
        // a control character in it, so that the line stays one
        (
            b"\x00\x00\x00\x0d\x0a\x09OSMHeader\x18\x07\x0a\x05\x22\x03a\x0ab",
            "error 5 Feature at=19 text=a?b\n",
        ),
    ] {
        assert!(rt; refuses(&rt, bytes, said)?, "{said}");
    }
    Ok(())
}

// No header block comes: in an empty input, behind a blob of another type, before the objects.
#[test]
fn no_header(rt: HostRuntime) -> Result<(), Fail> {
    let both = front(rt.alloc(), 112)?;
    let data = both.get(35..).ok_or("a short file")?;
    assert!(rt; refuses(&rt, &[], "error 5 NoHeader at=0\n")?);
    assert!(rt; refuses(&rt, &UNKNOWN, "error 5 NoHeader at=21\n")?);
    assert!(rt; refuses(&rt, data, "error 5 NoHeader at=0\n")?);
    Ok(())
}

/// The two triples of the small extract, with another byte at a place, and so many bytes of the second one again.
fn changed(alloc: Global, place: usize, byte: u8, again: usize) -> Result<Vec<u8>, AllocError> {
    let both = front(alloc, 112)?;
    let mut bytes = front(alloc, 112)?;
    if let Some(changed) = bytes.get_mut(place) {
        *changed = byte;
    }
    for more in both.iter().skip(35).take(again) {
        bytes.push(*more)?;
    }
    Ok(bytes)
}

// The objects of a block: an id twice, a text that isn't in the table, one latitude for two nodes, a cut off Blob.
#[test]
fn objects(rt: HostRuntime) -> Result<(), Fail> {
    for (place, byte, again, said) in [
        (0, 0, 77, "error 5 DuplicateId kind=node id=1\n"),
        (107, 0x03, 0, "error 5 BadString at=100 index=3\n"),
        (88, 0x80, 0, "error 5 Uneven at=82\n"),
        (0, 0, 76, "error 5 Truncated at=127\n"),
    ] {
        let bytes = changed(rt.alloc(), place, byte, again)?;
        assert!(rt; refuses(&rt, &bytes, said)?, "{said}");
    }
    Ok(())
}

/// Whether an extract of this data block is refused with this line.
fn block_refuses<R: Threads + Sync + AllocGlobal>(
    rt: &R,
    block: &[u8],
    said: &str,
) -> Result<bool, AllocError> {
    let mut bytes = Vec::from_slice(rt.alloc(), &HEADER)?;
    bytes.extend_from_slice(&data_triple(rt.alloc(), block)?)?;
    refuses(rt, &bytes, said)
}

// Node 7 at latitude 900,000,001. What isn't built yet: type=restriction of relation 7.
#[test]
fn blocks(rt: HostRuntime) -> Result<(), Fail> {
    for (block, said) in [
        (
            b"\x0a\x02\x0a\x00\x12\x0f\x12\x0d\x0a\x01\x0e\x42\x05\x82\xa4\xa7\xda\x06\x4a\x01\x00".as_slice(),
            "error 5 BadCoordinate id=7\n",
        ),
        (
            b"\x0a\x15\x0a\x00\x0a\x04type\x0a\x0brestriction\x12\x0a\x22\x08\x08\x07\x12\x01\x01\x1a\x01\x02",
            "error 5 NotBuilt kind=relation id=7\n",
        ),
    ] {
        assert!(rt; block_refuses(&rt, block, said)?, "{said}");
    }
    Ok(())
}
