//! Worked rows: the records of a tile with one road of two nodes, and words with spare bits.
use std::test::Fail;
use tile_records::{EdgeRec, NodeRec, edge_law, node_law};

/// The words of the road's two nodes and of its two directed edges.
const NODES: [[u64; 4]; 2] = [
    [0x1, 0x0, 0x0000_0000_0020_0000, 0x4f],
    [0x2, 0x0000_2710_0000_0000, 0x0000_0000_0020_0001, 0x4f],
];

const EDGES: [[u64; 4]; 2] = [
    [
        0x023f_5e82,
        0x0000_3000_0000_2b7c,
        0x0000_0006_004f_004f,
        0x0,
    ],
    [
        0x003f_5e82,
        0x0000_1000_0000_2b7c,
        0x0000_0006_004f_004f,
        0x0,
    ],
];

/// Words with one bit set, and whether a node's field has it.
const NODE_BITS: [([u64; 4], bool); 8] = [
    ([1 << 63, 0, 0, 0], true),
    ([0, 1 << 63, 0, 0], true),
    ([0, 0, 1 << 52, 0], true),
    ([0, 0, 1 << 53, 0], false),
    ([0, 0, 1 << 63, 0], false),
    ([0, 0, 0, 1 << 20], true),
    ([0, 0, 0, 1 << 21], false),
    ([0, 0, 0, 1 << 63], false),
];

/// Words, and whether they are an edge's: the last two have the invalid GraphId and the one before it.
const EDGE_BITS: [([u64; 4], bool); 9] = [
    ([1 << 61, 0, 0, 0], true),
    ([1 << 62, 0, 0, 0], false),
    ([0, 1 << 47, 0, 0], true),
    ([0, 1 << 48, 0, 0], false),
    ([0, 0, 1 << 42, 0], true),
    ([0, 0, 1 << 43, 0], false),
    ([0, 0, 0, 1 << 63], true),
    ([0x3fff_ffff_fffe, 0, 0, 0], true),
    ([0x3fff_ffff_ffff, 0, 0, 0], false),
];

#[test]
fn nodes_of_a_road(rt: HostRuntime) -> Result<(), Fail> {
    let [first, second] = NODES;
    let [first, second] = [
        NodeRec::of_words(first).ok_or("spare")?,
        NodeRec::of_words(second).ok_or("spare")?,
    ];
    let expected = NodeRec {
        osm: 2,
        lat: 0,
        lon: 10_000,
        edge_index: 1,
        transition_index: 0,
        access: 79,
        edge_count: 1,
        transition_count: 0,
        density: 0,
        barrier: false,
    };
    assert_eq!(rt; second, expected);
    assert_eq!(rt; [first.words(), expected.words()], NODES);
    node_law();
    Ok(())
}

#[test]
fn edges_of_a_road(rt: HostRuntime) -> Result<(), Fail> {
    let [first, second] = EDGES;
    let [first, second] = [
        EdgeRec::of_words(first).ok_or("spare")?,
        EdgeRec::of_words(second).ok_or("spare")?,
    ];
    assert_eq!(rt;
        [first.end.level(), first.end.tile(), first.end.id()],
        [2, 519_120, 1]
    );
    assert_eq!(rt;
        [first.cm, u32::from(first.class), first.info, first.chain],
        [11_132, 6, 0, 0]
    );
    assert_eq!(rt;
        [
            first.not_thru,
            first.forward,
            second.forward,
            first.shortcut
        ],
        [true, true, false, false]
    );
    assert_eq!(rt; [first.words(), second.words()], EDGES);
    edge_law();
    Ok(())
}

#[test]
fn negative_numbers(rt: HostRuntime) -> Result<(), Fail> {
    let words = [u64::MAX, 0xffff_fffe_8000_0000, 0, 0];
    let node = NodeRec::of_words(words).ok_or("spare")?;
    assert_eq!(rt; (node.osm, node.lat, node.lon), (-1, i32::MIN, -2));
    assert_eq!(rt; node.words(), words);
    Ok(())
}

#[test]
fn spare_bits(rt: HostRuntime) {
    for (words, accepted) in NODE_BITS {
        assert_eq!(rt; NodeRec::of_words(words).is_some(), accepted);
    }
    for (words, accepted) in EDGE_BITS {
        assert_eq!(rt; EdgeRec::of_words(words).is_some(), accepted);
    }
}
