use host_port::{Bytes, Host, MemHost, Text};
use pbf_blobs::{Blob, PbfFault, next_blob};
use std::alloc::Global;
use std::test::Fail;
use wire_read::WireFault;

/// A header alone: a triple of type `OSMHeader`, whose Blob of 18 bytes stands at 17.
const HEADER: [u8; 35] = [
    0x00, 0x00, 0x00, 0x0d, 0x0a, 0x09, 0x4f, 0x53, 0x4d, 0x48, 0x65, 0x61, 0x64, 0x65, 0x72, 0x18,
    0x12, 0x0a, 0x10, 0x22, 0x0e, 0x4f, 0x73, 0x6d, 0x53, 0x63, 0x68, 0x65, 0x6d, 0x61, 0x2d, 0x56,
    0x30, 0x2e, 0x36,
];

/// A triple of type `OSMData` with two nodes and a way; its Blob of 62 bytes stands at 15.
const NODES: [u8; 77] = [
    0x00, 0x00, 0x00, 0x0b, 0x0a, 0x07, 0x4f, 0x53, 0x4d, 0x44, 0x61, 0x74, 0x61, 0x18, 0x3e, 0x0a,
    0x3c, 0x0a, 0x18, 0x0a, 0x00, 0x0a, 0x07, 0x68, 0x69, 0x67, 0x68, 0x77, 0x61, 0x79, 0x0a, 0x0b,
    0x72, 0x65, 0x73, 0x69, 0x64, 0x65, 0x6e, 0x74, 0x69, 0x61, 0x6c, 0x12, 0x10, 0x12, 0x0e, 0x0a,
    0x02, 0x02, 0x02, 0x42, 0x02, 0x00, 0x00, 0x4a, 0x04, 0x00, 0xa0, 0x9c, 0x01, 0x12, 0x0e, 0x1a,
    0x0c, 0x08, 0x0a, 0x12, 0x01, 0x01, 0x1a, 0x01, 0x02, 0x42, 0x02, 0x02, 0x02,
];

// A host in memory with one file, which is open.
fn opened(alloc: Global, bytes: &[u8], failing: Option<u64>, piece: u64) -> Result<MemHost, Fail> {
    let mut files = Vec::new(alloc);
    files.push((
        Text::from_str(alloc, "in.pbf")?,
        Bytes::from_slice(alloc, bytes)?,
    ))?;
    let mut numbers = Vec::new(alloc);
    if let Some(number) = failing {
        numbers.push(number)?;
    }
    let mut host = MemHost::new(alloc, files, numbers, piece);
    host.open_input("in.pbf")?;
    Ok(host)
}

// The blobs from the start on, and the fault behind them, if one is.
fn blobs_of(alloc: Global, host: &mut MemHost) -> Result<(Vec<Blob>, Option<PbfFault>), Fail> {
    let mut blobs = Vec::new(alloc);
    let mut at = 0;
    for _ in 0..10 {
        if at > 536_870_912 {
            break;
        }
        match next_blob(alloc, host, at) {
            Ok(None) => break,
            Ok(Some(blob)) => {
                at = blob.end;
                blobs.push(blob)?;
            }
            Err(fault) => return Ok((blobs, Some(fault))),
        }
    }
    Ok((blobs, None))
}

#[test]
fn two_blobs_in_any_pieces(rt: HostRuntime) -> Result<(), Fail> {
    let mut bytes = Vec::from_slice(rt.alloc(), HEADER.as_slice())?;
    bytes.extend_from_slice(NODES.as_slice())?;
    for piece in [1, 2, 7, 65_536] {
        let mut host = opened(rt.alloc(), &bytes, None, piece)?;
        let (blobs, fault) = blobs_of(rt.alloc(), &mut host)?;
        assert_eq!(rt; fault, None);
        assert_eq!(rt; blobs.len(), 2);
        let header = &blobs[0];
        assert_eq!(rt; header.kind.as_str(), "OSMHeader");
        assert_eq!(rt; (header.at, header.size, header.known), (0, 18, true));
        assert_eq!(rt; (header.raw_at, header.end), (19, 35));
        assert_eq!(rt; header.raw.as_slice(), &HEADER[19..]);
        let nodes = &blobs[1];
        assert_eq!(rt; nodes.kind.as_str(), "OSMData");
        assert_eq!(rt; (nodes.at, nodes.size, nodes.known), (35, 62, true));
        assert_eq!(rt; (nodes.raw_at, nodes.end), (52, 112));
        assert_eq!(rt; nodes.raw.as_slice(), &NODES[17..]);
        assert_eq!(rt; host.place, 112);
    }
    Ok(())
}

#[test]
fn cut_at_each_byte(rt: HostRuntime) -> Result<(), Fail> {
    for count in 0..35 {
        let mut host = opened(rt.alloc(), &HEADER[..count], None, 7)?;
        let (blobs, fault) = blobs_of(rt.alloc(), &mut host)?;
        assert_eq!(rt; blobs.len(), 0);
        let wanted = match count {
            0 => None,
            1..=3 => Some(PbfFault::Truncated { at: 0 }),
            4..=16 => Some(PbfFault::Truncated { at: 4 }),
            _ => Some(PbfFault::Truncated { at: 17 }),
        };
        assert_eq!(rt; fault, wanted, "of {count} bytes");
    }
    Ok(())
}

// What is read first, in pieces of 1, 7 and 65,536 bytes.
fn first_of(alloc: Global, bytes: &[u8]) -> Result<[Result<Option<Blob>, PbfFault>; 3], Fail> {
    let mut one = opened(alloc, bytes, None, 1)?;
    let mut seven = opened(alloc, bytes, None, 7)?;
    let mut whole = opened(alloc, bytes, None, 65_536)?;
    Ok([
        next_blob(alloc, &mut one, 0),
        next_blob(alloc, &mut seven, 0),
        next_blob(alloc, &mut whole, 0),
    ])
}

// The type, the place, whether it is known, the places of payload and end, and the payload; nothing of a fault.
fn shown(found: &Result<Option<Blob>, PbfFault>) -> (&str, u64, bool, u64, u64, &[u8]) {
    match found {
        Ok(Some(blob)) => (
            blob.kind.as_str(),
            blob.at,
            blob.known,
            blob.raw_at,
            blob.end,
            blob.raw.as_slice(),
        ),
        _ => ("", 0, false, 0, 0, &[]),
    }
}

// Files of one triple or less, and their fault. The header begins at 4 and mostly ends before 17.
#[test]
fn faults(rt: HostRuntime) -> Result<(), Fail> {
    for (bytes, wanted) in [
        // the length
        (
            b"\x00\x01\x00\x00".as_slice(),
            PbfFault::HeaderTooLong { at: 0, len: 65_536 },
        ),
        (
            b"\x01\x00\x00\x0d\x0a\x09OSMHeader\x18\x00".as_slice(),
            PbfFault::HeaderTooLong {
                at: 0,
                len: 16_777_229,
            },
        ),
        // a length of 65,535, of which 2 bytes are there
        (
            b"\x00\x00\xff\xff\x0a\x09".as_slice(),
            PbfFault::Truncated { at: 4 },
        ),
        // the header is cut off, or spells no message
        (
            b"\x00\x00\x00\x0c\x0a\x09OSMHeader\x18".as_slice(),
            PbfFault::Wire {
                fault: WireFault::Short { at: 15 },
            },
        ),
        (
            b"\x00\x00\x00\x03\x18\x00\x0b".as_slice(),
            PbfFault::Wire {
                fault: WireFault::BadWire { at: 6, kind: 3 },
            },
        ),
        // no datasize; none but one as bytes; no type; none but one as a number; neither
        (
            b"\x00\x00\x00\x0b\x0a\x09OSMHeader".as_slice(),
            PbfFault::MissingField { at: 4, number: 3 },
        ),
        (
            b"\x00\x00\x00\x0d\x0a\x09OSMHeader\x1a\x00".as_slice(),
            PbfFault::MissingField { at: 4, number: 3 },
        ),
        (
            b"\x00\x00\x00\x02\x18\x00".as_slice(),
            PbfFault::MissingField { at: 4, number: 1 },
        ),
        (
            b"\x00\x00\x00\x04\x08\x09\x18\x00".as_slice(),
            PbfFault::MissingField { at: 4, number: 1 },
        ),
        (
            b"\x00\x00\x00\x00".as_slice(),
            PbfFault::MissingField { at: 4, number: 1 },
        ),
        // a type that is no text; the missing datasize comes first
        (
            b"\x00\x00\x00\x05\x0a\x01\xff\x18\x00".as_slice(),
            PbfFault::BadType { at: 4 },
        ),
        (
            b"\x00\x00\x00\x03\x0a\x01\xff".as_slice(),
            PbfFault::MissingField { at: 4, number: 3 },
        ),
        // a size of 33,554,496 and one more, and the greatest
        (
            b"\x00\x00\x00\x10\x0a\x09OSMHeader\x18\xc0\x80\x80\x10".as_slice(),
            PbfFault::Truncated { at: 20 },
        ),
        (
            b"\x00\x00\x00\x10\x0a\x09OSMHeader\x18\xc1\x80\x80\x10".as_slice(),
            PbfFault::BlobTooLong {
                at: 0,
                len: 33_554_497,
            },
        ),
        (
            b"\x00\x00\x00\x10\x0a\x03Big\x18\xff\xff\xff\xff\xff\xff\xff\xff\xff\x01".as_slice(),
            PbfFault::BlobTooLong {
                at: 0,
                len: 18_446_744_073_709_551_615,
            },
        ),
    ] {
        for found in first_of(rt.alloc(), bytes)? {
            assert_eq!(rt; found.err(), Some(wanted), "of {bytes:?}");
        }
    }
    Ok(())
}

// Files of one triple of type OSMHeader, whose Blob begins at 17, and its fault.
#[test]
fn faults_of_blobs(rt: HostRuntime) -> Result<(), Fail> {
    for (bytes, wanted) in [
        // nothing; a payload as a number alone; others alone: field 2, the payload's size, and field 8
        (
            b"\x00\x00\x00\x0d\x0a\x09OSMHeader\x18\x00".as_slice(),
            PbfFault::NoPayload { at: 17 },
        ),
        (
            b"\x00\x00\x00\x0d\x0a\x09OSMHeader\x18\x02\x08\x05".as_slice(),
            PbfFault::NoPayload { at: 17 },
        ),
        (
            b"\x00\x00\x00\x0d\x0a\x09OSMHeader\x18\x04\x10\x05\x42\x00".as_slice(),
            PbfFault::NoPayload { at: 17 },
        ),
        // bytes that spell no message
        (
            b"\x00\x00\x00\x0d\x0a\x09OSMHeader\x18\x01\x0b".as_slice(),
            PbfFault::Wire {
                fault: WireFault::BadWire { at: 17, kind: 3 },
            },
        ),
        (
            b"\x00\x00\x00\x0d\x0a\x09OSMHeader\x18\x01\x00".as_slice(),
            PbfFault::Wire {
                fault: WireFault::BadNumber { at: 17 },
            },
        ),
        (
            b"\x00\x00\x00\x0d\x0a\x09OSMHeader\x18\x0b\x08\xff\xff\xff\xff\xff\xff\xff\xff\xff\xff".as_slice(),
            PbfFault::Wire {
                fault: WireFault::LongVarint { at: 17 },
            },
        ),
        // the payload's size is one more than there is, and one less
        (
            b"\x00\x00\x00\x0d\x0a\x09OSMHeader\x18\x03\x0a\x02\x41".as_slice(),
            PbfFault::Wire {
                fault: WireFault::Short { at: 17 },
            },
        ),
        (
            b"\x00\x00\x00\x0d\x0a\x09OSMHeader\x18\x04\x0a\x01\x41\x42".as_slice(),
            PbfFault::Wire {
                fault: WireFault::Short { at: 20 },
            },
        ),
        // compressed payloads: alone, behind a raw one, as a number, two of them; no message comes first
        (
            b"\x00\x00\x00\x0d\x0a\x09OSMHeader\x18\x04\x1a\x02\x78\x9c".as_slice(),
            PbfFault::Compressed { at: 17, field: 3 },
        ),
        (
            b"\x00\x00\x00\x0d\x0a\x09OSMHeader\x18\x06\x0a\x01\x41\x1a\x01\x00".as_slice(),
            PbfFault::Compressed { at: 17, field: 3 },
        ),
        (
            b"\x00\x00\x00\x0d\x0a\x09OSMHeader\x18\x02\x38\x00".as_slice(),
            PbfFault::Compressed { at: 17, field: 7 },
        ),
        (
            b"\x00\x00\x00\x0d\x0a\x09OSMHeader\x18\x04\x32\x00\x1a\x00".as_slice(),
            PbfFault::Compressed { at: 17, field: 6 },
        ),
        (
            b"\x00\x00\x00\x0d\x0a\x09OSMHeader\x18\x03\x1a\x00\x0b".as_slice(),
            PbfFault::Wire {
                fault: WireFault::BadWire { at: 19, kind: 3 },
            },
        ),
    ] {
        for found in first_of(rt.alloc(), bytes)? {
            assert_eq!(rt; found.err(), Some(wanted), "of {bytes:?}");
        }
    }
    Ok(())
}

// Triples of type OSMHeader, spelled in many ways: the places of the payload and of the end, and the payload.
#[test]
fn spellings(rt: HostRuntime) -> Result<(), Fail> {
    for (bytes, raw_at, end, raw) in [
        // as most are: more than six bytes, and fewer
        (
            b"\x00\x00\x00\x0d\x0a\x09OSMHeader\x18\x08\x0a\x06abcdef".as_slice(),
            19,
            25,
            b"abcdef".as_slice(),
        ),
        (
            b"\x00\x00\x00\x0d\x0a\x09OSMHeader\x18\x02\x0a\x00".as_slice(),
            19,
            19,
            b"".as_slice(),
        ),
        // the datasize before the type
        (
            b"\x00\x00\x00\x0d\x18\x03\x0a\x09OSMHeader\x0a\x01a".as_slice(),
            19,
            20,
            b"a".as_slice(),
        ),
        // two types and two sizes: the last ones count
        (
            b"\x00\x00\x00\x12\x0a\x01X\x18\x7f\x0a\x09OSMHeader\x18\x03\x0a\x01a".as_slice(),
            24,
            25,
            b"a".as_slice(),
        ),
        // other fields between, and a type and a size of other wire types at the end
        (
            b"\x00\x00\x00\x17\x10\x05\x0a\x09OSMHeader\x22\x01\xaa\x18\x03\x08\x07\x1a\x01\x58\x0a\x01a".as_slice(),
            29,
            30,
            b"a".as_slice(),
        ),
        // varints with groups of zero at the end: a tag, a length, a size; and in the Blob
        (
            b"\x00\x00\x00\x13\x8a\x80\x00\x89\x00OSMHeader\x18\x8a\x80\x80\x00\x0a\x86\x80\x00abcdef".as_slice(),
            27,
            33,
            b"abcdef".as_slice(),
        ),
        (
            b"\x00\x00\x00\x0d\x0a\x09OSMHeader\x18\x0e\x0a\x86\x80\x80\x80\x80\x80\x00abcdef".as_slice(),
            25,
            31,
            b"abcdef".as_slice(),
        ),
        // in the Blob: a field before, one behind; two payloads, of which the last counts; one as a number behind
        (
            b"\x00\x00\x00\x0d\x0a\x09OSMHeader\x18\x07\x10\x05\x0a\x01a\x42\x00".as_slice(),
            21,
            24,
            b"a".as_slice(),
        ),
        (
            b"\x00\x00\x00\x0d\x0a\x09OSMHeader\x18\x09\x0a\x01a\x0a\x02bc\x08\x05".as_slice(),
            22,
            26,
            b"bc".as_slice(),
        ),
    ] {
        for found in first_of(rt.alloc(), bytes)? {
            assert_eq!(rt;
                shown(&found),
                ("OSMHeader", 0, true, raw_at, end, raw),
                "of {bytes:?}"
            );
        }
    }
    Ok(())
}

// The payload of another type isn't looked at, compressed or not.
#[test]
fn unknown_type(rt: HostRuntime) -> Result<(), Fail> {
    let bytes = b"\x00\x00\x00\x0d\x0a\x09Unknown00\x18\x04\x1a\x02\x78\x9c".as_slice();
    for found in first_of(rt.alloc(), bytes)? {
        assert_eq!(rt;
            shown(&found),
            ("Unknown00", 0, false, 17, 21, b"".as_slice())
        );
    }
    Ok(())
}

// A Blob ends at 536,870,912 at the most: this one has its end 35 bytes behind the place.
#[test]
fn too_large(rt: HostRuntime) -> Result<(), Fail> {
    let mut host = opened(rt.alloc(), HEADER.as_slice(), None, 7)?;
    let found = next_blob(rt.alloc(), &mut host, 536_870_877)?;
    assert_eq!(rt; found.map(|blob| blob.end), Some(536_870_912));
    let mut host = opened(rt.alloc(), HEADER.as_slice(), None, 7)?;
    let found = next_blob(rt.alloc(), &mut host, 536_870_878);
    assert_eq!(rt;
        found.err(),
        Some(PbfFault::TooLarge { bytes: 536_870_913 })
    );
    Ok(())
}

// The call that opens has the number 0; in pieces of 7 bytes the reads have the numbers 1 to 6.
#[test]
fn failing_reads(rt: HostRuntime) -> Result<(), Fail> {
    for number in 1..7 {
        let mut host = opened(rt.alloc(), HEADER.as_slice(), Some(number), 7)?;
        let (blobs, fault) = blobs_of(rt.alloc(), &mut host)?;
        assert_eq!(rt; blobs.len(), 0);
        assert_eq!(rt; fault, Some(PbfFault::Read), "read {number}");
        assert_eq!(rt; host.read_faults, 1);
    }
    Ok(())
}

#[test]
fn texts(rt: HostRuntime) -> Result<(), Fail> {
    for (fault, text) in [
        (PbfFault::Read, "Read"),
        (PbfFault::Truncated { at: 4 }, "Truncated at=4"),
        (
            PbfFault::HeaderTooLong { at: 0, len: 65_536 },
            "HeaderTooLong at=0 len=65536",
        ),
        (
            PbfFault::BlobTooLong {
                at: 0,
                len: 33_554_497,
            },
            "BlobTooLong at=0 len=33554497",
        ),
        (
            PbfFault::Compressed { at: 17, field: 3 },
            "Compressed at=17 field=3",
        ),
        (
            PbfFault::Wire {
                fault: WireFault::Short { at: 15 },
            },
            "Wire fault=Short at=15",
        ),
        (PbfFault::NoPayload { at: 17 }, "NoPayload at=17"),
        (
            PbfFault::TooLarge { bytes: 536_870_913 },
            "TooLarge bytes=536870913",
        ),
        (PbfFault::OutOfMemory, "OutOfMemory"),
        (
            PbfFault::MissingField { at: 4, number: 3 },
            "MissingField at=4 number=3",
        ),
        (PbfFault::BadType { at: 4 }, "BadType at=4"),
    ] {
        let said = fault.to_string(rt.alloc())?;
        assert_eq!(rt; said.as_str(), text);
    }
    Ok(())
}
