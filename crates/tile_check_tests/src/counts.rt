//! Counts that a tile file says of its sequences and texts: the greatest, and one more.
use section_grammar::push_word;
use std::alloc::{AllocError, Global};
use std::test::Fail;
use tile_bytes::{TileFault, read_tile, write_tile};

/// The GraphId of node 0 of tile 519120 of level 2.
const NODE: u64 = 0x3f_5e82;

/// A tile without a node, and with one sequence of `count` GraphIds for motor cars: `count` + 1 words behind the header,
/// so that the file has 72 + 8 * `count` bytes.
fn with_sequence(alloc: Global, count: u8) -> Result<Vec<u8>, AllocError> {
    let count = u64::from(count);
    let mut out = Vec::new(alloc);
    for word in [
        0x3130_454c_4954_4a4d,
        NODE,
        0,
        0,
        0,
        count.saturating_add(1),
        0,
        count.saturating_mul(8).saturating_add(0x1_0000_0000_0048),
        count.saturating_add(0x1_0000),
    ] {
        push_word(&mut out, word)?;
    }
    for _ in 0..count {
        push_word(&mut out, NODE)?;
    }
    Ok(out)
}

/// The check and the place of the fault of these bytes, or zeros where they are read and written again.
fn fault_of(alloc: Global, bytes: &[u8]) -> (u8, u64) {
    match read_tile(alloc, bytes) {
        Ok(tile) => match write_tile(alloc, &tile) {
            Ok(written) => {
                if written.as_slice() == bytes {
                    (0, 0)
                } else {
                    (254, 0)
                }
            }
            Err(_) => (255, 0),
        },
        Err(TileFault::Bad { check, at }) => (check, at),
        Err(TileFault::OutOfMemory) => (255, 0),
    }
}

// A sequence has 2 to 33 GraphIds; the place is that of its first word.
#[test]
fn sequences(rt: HostRuntime) -> Result<(), Fail> {
    for (count, fault) in [
        (0, (12, 64)),
        (1, (12, 64)),
        (2, (0, 0)),
        (33, (0, 0)),
        (34, (12, 64)),
    ] {
        let bytes = with_sequence(rt.alloc(), count)?;
        assert_eq!(rt; fault_of(rt.alloc(), &bytes), fault, "{count}");
    }
    Ok(())
}

/// A tile without a node and without a byte of texts, whose header says so many texts.
fn with_texts(alloc: Global, count: u64) -> Result<Vec<u8>, AllocError> {
    let mut out = Vec::new(alloc);
    for word in [
        0x3130_454c_4954_4a4d,
        NODE,
        0,
        0,
        0,
        count << 32,
        0,
        0x1_0000_0000_0040,
    ] {
        push_word(&mut out, word)?;
    }
    Ok(out)
}

// A header that says one text, where there is none: the place is the end of the texts, of the file.
#[test]
fn too_few_texts(rt: HostRuntime) -> Result<(), Fail> {
    let none = with_texts(rt.alloc(), 0)?;
    assert_eq!(rt; fault_of(rt.alloc(), &none), (0, 0));
    let one = with_texts(rt.alloc(), 1)?;
    assert_eq!(rt; fault_of(rt.alloc(), &one), (15, 64));
    Ok(())
}
