//! The tile of a road between two nodes, a tile with an item in each section, and files that are broken in a word or two.
use section_grammar::{cut, push_word};
use std::alloc::{AllocError, Global};
use std::test::Fail;
use tile_bytes::{TileFault, read_tile, write_tile};

/// The nodes 1 and 2, and both directed edges of the way 10 between them.
const ROAD: [u64; 29] = [
    0x3130_454c_4954_4a4d,
    0x3f_5e82,
    0,
    0x2_0000_0002,
    0,
    0,
    0x28,
    0x1_0000_0000_00e8,
    1,
    0,
    0x20_0000,
    0x4f,
    2,
    0x2710_0000_0000,
    0x20_0001,
    0x4f,
    0x23f_5e82,
    0x3000_0000_2b7c,
    0x6_004f_004f,
    0,
    0x3f_5e82,
    0x1000_0000_2b7c,
    0x6_004f_004f,
    0,
    10,
    0,
    2,
    0,
    0x2710,
];

/// The road again, but edge 0 is a shortcut and node 1 has a node on level 1, with two sequences and the texts `A` and
/// `B`. Its sections begin at 64 (nodes), 128 (edges), 192 (the transition), 200 (the chain), 224 (the sequences), 272
/// (the entry), 320 (the texts) and 330 (the padding).
const FULL: [u64; 42] = [
    0x3130_454c_4954_4a4d,
    0x3f_5e82,
    0,
    0x2_0000_0002,
    0x3_0000_0001,
    0x2_0000_0006,
    0xa_0000_0030,
    0x1_0000_0000_0150,
    1,
    0,
    0x8_0000_0020_0000,
    0x4f,
    2,
    0x2710_0000_0000,
    0x2020_0001,
    0x4f,
    0x23f_5e82,
    0x3800_0000_2b7c,
    0x6_004f_004f,
    0,
    0x3f_5e82,
    0x1000_0000_2b7c,
    0x6_004f_004f,
    0,
    1,
    2,
    0x3f_5e82,
    0x23f_5e82,
    0x1_0002,
    0x3f_5e82,
    0x23f_5e82,
    0x1_0002,
    0x23f_5e82,
    0x3f_5e82,
    10,
    0,
    2,
    0,
    0x2_0000_2710,
    0x1_0000_0000,
    0x141_0000_0001,
    0x4200,
];

/// The same tile without a node: a header alone.
const EMPTY: [u64; 8] = [
    0x3130_454c_4954_4a4d,
    0x3f_5e82,
    0,
    0,
    0,
    0,
    0,
    0x1_0000_0000_0040,
];

/// The word at an index: the first of these changes that is for it, or the old word.
fn changed(changes: &[(usize, u64)], index: usize, old: u64) -> u64 {
    for (at, word) in changes {
        if *at == index {
            return *word;
        }
    }
    old
}

/// The bytes of a file, with these words changed.
fn with_words(
    alloc: Global,
    file: &[u64],
    changes: &[(usize, u64)],
) -> Result<Vec<u8>, AllocError> {
    let mut out = Vec::new(alloc);
    for (index, old) in file.iter().enumerate() {
        push_word(&mut out, changed(changes, index, *old))?;
    }
    Ok(out)
}

/// The check and the place of the fault of these bytes, or zeros where they have none.
fn fault_of(alloc: Global, bytes: &[u8]) -> (u8, u64) {
    match read_tile(alloc, bytes) {
        Ok(_) => (0, 0),
        Err(TileFault::Bad { check, at }) => (check, at),
        Err(TileFault::OutOfMemory) => (255, 0),
    }
}

/// The check and the place of the fault of a file with these words changed.
fn fault_with(
    alloc: Global,
    file: &[u64],
    changes: &[(usize, u64)],
) -> Result<(u8, u64), AllocError> {
    let bytes = with_words(alloc, file, changes)?;
    Ok(fault_of(alloc, &bytes))
}

/// Whether the tile of a file is written as that file.
fn is_written(alloc: Global, file: &[u64]) -> Result<bool, AllocError> {
    let bytes = with_words(alloc, file, &[])?;
    Ok(match read_tile(alloc, &bytes) {
        Ok(tile) => match write_tile(alloc, &tile) {
            Ok(written) => written.as_slice() == bytes.as_slice(),
            Err(_) => false,
        },
        Err(_) => false,
    })
}

#[test]
fn a_road(rt: HostRuntime) -> Result<(), Fail> {
    let bytes = with_words(rt.alloc(), &ROAD, &[])?;
    let tile = read_tile(rt.alloc(), &bytes).map_err(|_| "no tile")?;
    assert_eq!(rt;
        (
            tile.id.value(),
            tile.modes,
            tile.nodes.len(),
            tile.edges.len()
        ),
        (4_152_962, 1, 2, 2)
    );
    assert_eq!(rt;
        (tile.infos.len(), tile.texts.len(), tile.chains.len()),
        (1, 0, 0)
    );
    Ok(())
}

#[test]
fn written_files(rt: HostRuntime) -> Result<(), Fail> {
    assert_eq!(rt;
        (
            is_written(rt.alloc(), &ROAD)?,
            is_written(rt.alloc(), &FULL)?,
            is_written(rt.alloc(), &EMPTY)?
        ),
        (true, true, true)
    );
    Ok(())
}

/// Words of the road, and the check and the place that have to be answered.
const ROAD_ROWS: [((usize, u64), u8, u64); 17] = [
    ((0, 0x3130_454c_4954_4a4e), 2, 0),
    ((1, 0x3f_5e83), 3, 8),
    ((1, 0x23f_5e82), 3, 8),
    ((2, 1), 4, 16),
    ((3, 0x2_0020_0000), 5, 24),
    ((4, 5), 6, 32),
    ((7, 0x1_0000_0000_00e9), 7, 56),
    ((7, 0xe8), 7, 56),
    ((7, 0x10_0000_0000_00e8), 7, 56),
    ((10, 0x20_0001), 8, 64),
    ((12, 1), 8, 96),
    ((14, 0x40_0001), 8, 128),
    ((18, 0x2_004f_004f), 9, 128),
    ((23, 1 << 32), 9, 160),
    ((23, 4), 14, 160),
    ((26, 1), 13, 192),
    ((11, 0x20_004f), 8, 64),
];

#[test]
fn broken_roads(rt: HostRuntime) -> Result<(), Fail> {
    for (change, check, at) in ROAD_ROWS {
        assert_eq!(rt;
            fault_with(rt.alloc(), &ROAD, &[change])?,
            (check, at),
            "word {change:?}"
        );
    }
    Ok(())
}

#[test]
fn short_files(rt: HostRuntime) -> Result<(), Fail> {
    let bytes = with_words(rt.alloc(), &ROAD, &[])?;
    assert_eq!(rt;
        (
            fault_of(rt.alloc(), cut(&bytes, 0).0),
            fault_of(rt.alloc(), cut(&bytes, 63).0),
            fault_of(rt.alloc(), cut(&bytes, 64).0)
        ),
        ((1, 0), (1, 63), (7, 56))
    );
    Ok(())
}

/// A file that is too short and has another signature too: its length is looked at first.
#[test]
fn short_without_signature(rt: HostRuntime) -> Result<(), Fail> {
    let bytes = with_words(rt.alloc(), &ROAD, &[(0, 0x3130_454c_4954_4a4e)])?;
    assert_eq!(rt;
        (
            fault_of(rt.alloc(), cut(&bytes, 63).0),
            fault_of(rt.alloc(), cut(&bytes, 64).0)
        ),
        ((1, 63), (2, 0))
    );
    Ok(())
}

/// Further words of the road, one for each rule that has none above: a tile past the last of its level (1,036,800), too
/// many edges, a node to the south of the tile, with another first transition, with three transitions, and without an
/// edge, a transition more than the header says, an edge with a spare bit, with an end on level 1, and with the invalid
/// GraphId as its end.
const RULE_ROWS: [((usize, u64), u8, u64); 10] = [
    ((1, 0x7e_9002), 3, 8),
    ((3, 0x20_0000_0000_0002), 5, 24),
    ((9, 0xffff_ffff), 8, 64),
    ((10, 0x2020_0000), 8, 64),
    ((10, 0x18_0000_0020_0000), 8, 64),
    ((14, 1), 8, 96),
    ((14, 0x8_0000_0020_0001), 8, 128),
    ((16, 0x4000_0000_023f_5e82), 9, 128),
    ((16, 0x23f_5e81), 9, 128),
    ((16, 0x3fff_ffff_ffff), 9, 128),
];

#[test]
fn broken_rules(rt: HostRuntime) -> Result<(), Fail> {
    for (change, check, at) in RULE_ROWS {
        assert_eq!(rt;
            fault_with(rt.alloc(), &ROAD, &[change])?,
            (check, at),
            "word {change:?}"
        );
    }
    Ok(())
}

/// Further words of the tile with an item in each section: a sequence with a spare bit, and one without a mode; an
/// entry that runs past the infos; and a padding whose third byte isn't zero.
const SECTION_ROWS: [((usize, u64), u8, u64); 4] = [
    ((28, 0x1_0001_0002), 12, 224),
    ((28, 2), 12, 224),
    ((36, 0x2710_0000_0003), 13, 272),
    ((41, 0x1_0000_4200), 16, 332),
];

#[test]
fn broken_items(rt: HostRuntime) -> Result<(), Fail> {
    for (change, check, at) in SECTION_ROWS {
        assert_eq!(rt;
            fault_with(rt.alloc(), &FULL, &[change])?,
            (check, at),
            "word {change:?}"
        );
    }
    Ok(())
}

/// Nothing is reserved for records that a file has no room for: its size is looked at before.
#[test]
fn promised_records(rt: HostRuntime) -> Result<(), Fail> {
    let most = (3, 0x1f_ffff_001f_ffff);
    assert_eq!(rt; fault_with(rt.alloc(), &EMPTY, &[most])?, (7, 56));
    Ok(())
}

/// Words of the tile with an item in each section, and the check and the place that have to be answered.
const FULL_ROWS: [((usize, u64), u8, u64); 22] = [
    ((24, 2), 10, 192),
    ((24, 3), 10, 192),
    ((25, 1), 11, 200),
    ((25, 3), 11, 200),
    ((26, 1), 11, 208),
    ((17, 0x3000_0000_2b7c), 11, 200),
    ((21, 0x1800_0000_2b7c), 11, 224),
    ((19, 1 << 32), 11, 128),
    ((28, 0x1_0001), 12, 224),
    ((28, 0x2_0002), 12, 224),
    ((29, 3), 12, 232),
    ((29, 0x43f_5e82), 12, 248),
    ((31, 0x1_0003), 12, 248),
    ((39, 0x2_0000_0000), 13, 272),
    ((19, 8), 14, 128),
    ((39, 1), 15, 320),
    ((39, 0), 15, 330),
    ((40, 0x141_0000_0000), 15, 320),
    ((40, 0x1ff_0000_0001), 15, 320),
    ((41, 0x4100), 15, 325),
    ((41, 0x1_4200), 16, 330),
    ((41, 0x100_0000_0000_4200), 16, 335),
];

#[test]
fn broken_sections(rt: HostRuntime) -> Result<(), Fail> {
    for (change, check, at) in FULL_ROWS {
        assert_eq!(rt;
            fault_with(rt.alloc(), &FULL, &[change])?,
            (check, at),
            "word {change:?}"
        );
    }
    Ok(())
}

/// Words that break a check and the next one, and the first check and its place.
const PAIRS: [([(usize, u64); 2], u8, u64); 14] = [
    ([(0, 0x3130_454c_4954_4a4e), (1, 0x3f_5e83)], 2, 0),
    ([(1, 0x3f_5e83), (2, 1)], 3, 8),
    ([(2, 1), (3, 0x20_0000_0000_0002)], 4, 16),
    ([(3, 0x20_0000_0000_0002), (4, 0x3_0000_0005)], 5, 24),
    ([(4, 0x3_0000_0005), (7, 0x1_0000_0000_0151)], 6, 32),
    ([(7, 0x1_0000_0000_0151), (10, 0x8_0000_0020_0001)], 7, 56),
    ([(10, 0x8_0000_0020_0001), (18, 0x2_004f_004f)], 8, 64),
    ([(18, 0x2_004f_004f), (24, 2)], 9, 128),
    ([(24, 2), (25, 1)], 10, 192),
    ([(25, 1), (28, 0x1_0001)], 11, 200),
    ([(28, 0x1_0001), (36, 1)], 12, 224),
    ([(36, 1), (23, 4)], 13, 272),
    ([(23, 4), (40, 0x141_0000_0000)], 14, 160),
    ([(40, 0x141_0000_0000), (41, 0x1_4200)], 15, 320),
];

#[test]
fn two_broken_words(rt: HostRuntime) -> Result<(), Fail> {
    for (changes, check, at) in PAIRS {
        assert_eq!(rt;
            fault_with(rt.alloc(), &FULL, &changes)?,
            (check, at),
            "words {changes:?}"
        );
    }
    Ok(())
}
