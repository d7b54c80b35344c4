use osm_messages::{
    MessageFault, NumberLists, ObjectKind, RawDenseNodes, RawNode, RawObject, RawPrimitiveBlock,
    RawRelation, RawWay, read_features, read_numbers, read_primitive_block,
};
use std::alloc::{AllocError, Global};
use std::test::Fail;
use wire_read::WireFault;

// Whether the numbers of an object of this kind are read.
fn is_read(lists: &mut NumberLists, kind: ObjectKind, bytes: &[u8]) -> bool {
    let object = RawObject {
        kind,
        at: 100,
        bytes,
    };
    read_numbers(&object, lists).is_ok()
}

fn same_node(node: &RawNode<'_>, want: &RawNode<'_>) -> bool {
    node.id == want.id
        && node.keys == want.keys
        && node.vals == want.vals
        && node.lat == want.lat
        && node.lon == want.lon
}

fn same_dense(dense: &RawDenseNodes<'_>, want: &RawDenseNodes<'_>) -> bool {
    dense.id == want.id
        && dense.lat == want.lat
        && dense.lon == want.lon
        && dense.keys_vals == want.keys_vals
}

fn same_way(way: &RawWay<'_>, want: &RawWay<'_>) -> bool {
    way.id == want.id && way.keys == want.keys && way.vals == want.vals && way.refs == want.refs
}

fn same_relation(relation: &RawRelation<'_>, want: &RawRelation<'_>) -> bool {
    relation.id == want.id
        && relation.keys == want.keys
        && relation.vals == want.vals
        && relation.roles_sid == want.roles_sid
        && relation.memids == want.memids
        && relation.types == want.types
}

// Node 7 at 10 and 20 with keys 1, 2 and values 3, 300: packed, unpacked, mixed.
#[test]
fn nodes(rt: HostRuntime) {
    let mut lists = NumberLists::new(rt.alloc());
    for bytes in [
        [
            0x08, 0x07, 0x12, 0x02, 0x01, 0x02, 0x1a, 0x03, 0x03, 0xac, 0x02, 0x40, 0x0a, 0x48,
            0x14,
        ]
        .as_slice(),
        [
            0x08, 0x07, 0x10, 0x01, 0x10, 0x02, 0x18, 0x03, 0x18, 0xac, 0x02, 0x40, 0x0a, 0x48,
            0x14,
        ]
        .as_slice(),
        [
            0x18, 0x03, 0x48, 0x14, 0x12, 0x01, 0x01, 0x1a, 0x02, 0xac, 0x02, 0x10, 0x02, 0x40,
            0x0a, 0x08, 0x07,
        ]
        .as_slice(),
    ] {
        let want = RawNode {
            id: [7].as_slice(),
            keys: [1, 2].as_slice(),
            vals: [3, 300].as_slice(),
            lat: [10].as_slice(),
            lon: [20].as_slice(),
        };
        assert!(rt;
            is_read(&mut lists, ObjectKind::Node, bytes) && same_node(&lists.node(), &want),
            "{bytes:?}"
        );
    }
}

// Nodes 1 and 2 at (1, 3) and (2, 4), the second with key 1 and value 2.
#[test]
fn dense_nodes(rt: HostRuntime) {
    let mut lists = NumberLists::new(rt.alloc());
    for bytes in [
        [
            0x0a, 0x02, 0x02, 0x02, 0x42, 0x02, 0x02, 0x02, 0x4a, 0x02, 0x06, 0x02, 0x52, 0x04,
            0x00, 0x01, 0x02, 0x00,
        ]
        .as_slice(),
        [
            0x08, 0x02, 0x08, 0x02, 0x40, 0x02, 0x40, 0x02, 0x48, 0x06, 0x48, 0x02, 0x50, 0x00,
            0x50, 0x01, 0x50, 0x02, 0x50, 0x00,
        ]
        .as_slice(),
        [
            0x50, 0x00, 0x4a, 0x01, 0x06, 0x0a, 0x02, 0x02, 0x02, 0x52, 0x02, 0x01, 0x02, 0x40,
            0x02, 0x50, 0x00, 0x48, 0x02, 0x42, 0x01, 0x02,
        ]
        .as_slice(),
    ] {
        let want = RawDenseNodes {
            id: [2, 2].as_slice(),
            lat: [2, 2].as_slice(),
            lon: [6, 2].as_slice(),
            keys_vals: [0, 1, 2, 0].as_slice(),
        };
        assert!(rt;
            is_read(&mut lists, ObjectKind::DenseNodes, bytes)
                && same_dense(&lists.dense_nodes(), &want),
            "{bytes:?}"
        );
    }
}

// Way 5 with key 1, value 2 and refs 2, 4; the last spelling has a field 9, which a way's numbers don't have.
#[test]
fn ways(rt: HostRuntime) {
    let mut lists = NumberLists::new(rt.alloc());
    for bytes in [
        [
            0x08, 0x05, 0x12, 0x01, 0x01, 0x1a, 0x01, 0x02, 0x42, 0x02, 0x02, 0x04,
        ]
        .as_slice(),
        [0x08, 0x05, 0x10, 0x01, 0x18, 0x02, 0x40, 0x02, 0x40, 0x04].as_slice(),
        [
            0x40, 0x02, 0x18, 0x02, 0x4a, 0x01, 0x80, 0x42, 0x01, 0x04, 0x12, 0x01, 0x01, 0x08,
            0x05,
        ]
        .as_slice(),
    ] {
        let want = RawWay {
            id: [5].as_slice(),
            keys: [1].as_slice(),
            vals: [2].as_slice(),
            refs: [2, 4].as_slice(),
        };
        assert!(rt;
            is_read(&mut lists, ObjectKind::Way, bytes) && same_way(&lists.way(), &want),
            "{bytes:?}"
        );
    }
}

// Relation 9 with key 1, value 2, and members 4 and 9 with roles 3 and 3, of types 0 and 1.
#[test]
fn relations(rt: HostRuntime) {
    let mut lists = NumberLists::new(rt.alloc());
    for bytes in [
        [
            0x08, 0x09, 0x12, 0x01, 0x01, 0x1a, 0x01, 0x02, 0x42, 0x02, 0x03, 0x03, 0x4a, 0x02,
            0x08, 0x0a, 0x52, 0x02, 0x00, 0x01,
        ]
        .as_slice(),
        [
            0x08, 0x09, 0x10, 0x01, 0x18, 0x02, 0x40, 0x03, 0x40, 0x03, 0x48, 0x08, 0x48, 0x0a,
            0x50, 0x00, 0x50, 0x01,
        ]
        .as_slice(),
        [
            0x52, 0x01, 0x00, 0x4a, 0x02, 0x08, 0x0a, 0x40, 0x03, 0x42, 0x01, 0x03, 0x50, 0x01,
            0x10, 0x01, 0x1a, 0x01, 0x02, 0x08, 0x09,
        ]
        .as_slice(),
    ] {
        let want = RawRelation {
            id: [9].as_slice(),
            keys: [1].as_slice(),
            vals: [2].as_slice(),
            roles_sid: [3, 3].as_slice(),
            memids: [8, 10].as_slice(),
            types: [0, 1].as_slice(),
        };
        assert!(rt;
            is_read(&mut lists, ObjectKind::Relation, bytes)
                && same_relation(&lists.relation(), &want),
            "{bytes:?}"
        );
    }
}

// Fields with another wire type: an id as bytes, which aren't looked at; keys as four bytes; refs as eight.
#[test]
fn other_wire_types(rt: HostRuntime) {
    let mut lists = NumberLists::new(rt.alloc());
    let bytes = [
        0x0a, 0x01, 0x80, 0x15, 1, 0, 0, 0, 0x41, 1, 0, 0, 0, 0, 0, 0, 0, 0x08, 0x05, 0x08, 0x06,
    ];
    assert!(rt; is_read(&mut lists, ObjectKind::Way, bytes.as_slice()));
    let want = RawWay {
        id: [5, 6].as_slice(),
        keys: [].as_slice(),
        vals: [].as_slice(),
        refs: [].as_slice(),
    };
    assert!(rt; same_way(&lists.way(), &want));
}

fn short(at: u64) -> Option<MessageFault> {
    Some(MessageFault::Wire {
        fault: WireFault::Short { at },
    })
}

// The keys of a way at 100 are cut off.
#[test]
fn broken_numbers(rt: HostRuntime) {
    let mut lists = NumberLists::new(rt.alloc());
    let object = RawObject {
        kind: ObjectKind::Way,
        at: 100,
        bytes: [0x08, 0x05, 0x12, 0x02, 0x01, 0x80].as_slice(),
    };
    assert_eq!(rt; read_numbers(&object, &mut lists).err(), short(105));
}

fn repeated(at: u64, number: u32) -> Option<MessageFault> {
    Some(MessageFault::Repeated { at, number })
}

// The first fault of a block whose first byte stands at 1000.
#[test]
fn faults(rt: HostRuntime) {
    for (bytes, want) in [
        // no bytes; a table, and a second one that isn't bytes
        ([].as_slice(), None),
        ([0x0a, 0x00, 0x08, 0x05].as_slice(), None),
        // a second table, before what is in it, and before a way behind it whose keys are cut off
        ([0x0a, 0x00, 0x0a, 0x01, 0x80].as_slice(), repeated(1002, 1)),
        (
            [
                0x0a, 0x00, 0x0a, 0x00, 0x12, 0x05, 0x1a, 0x03, 0x12, 0x01, 0x80,
            ]
            .as_slice(),
            repeated(1002, 1),
        ),
        // that way before a second table
        (
            [
                0x0a, 0x00, 0x12, 0x05, 0x1a, 0x03, 0x12, 0x01, 0x80, 0x0a, 0x00,
            ]
            .as_slice(),
            short(1008),
        ),
        // two DenseNodes in one PrimitiveGroup, and in two
        (
            [0x12, 0x04, 0x12, 0x00, 0x12, 0x00].as_slice(),
            repeated(1004, 2),
        ),
        (
            [0x12, 0x02, 0x12, 0x00, 0x12, 0x02, 0x12, 0x00].as_slice(),
            None,
        ),
        // in the second object, behind a way; in the second group
        (
            [
                0x12, 0x09, 0x1a, 0x02, 0x08, 0x05, 0x1a, 0x03, 0x12, 0x01, 0x80,
            ]
            .as_slice(),
            short(1010),
        ),
        ([0x12, 0x00, 0x12, 0x02, 0x22, 0x01].as_slice(), short(1004)),
        // a field that is no list holds bytes that aren't looked at
        ([0x12, 0x05, 0x1a, 0x03, 0x22, 0x01, 0x80].as_slice(), None),
        // in the table, in a field of the block, behind a group
        ([0x0a, 0x01, 0x80].as_slice(), short(1002)),
        ([0x12, 0x05, 0x1a].as_slice(), short(1000)),
        (
            [0x12, 0x00, 0x0b].as_slice(),
            Some(MessageFault::Wire {
                fault: WireFault::BadWire { at: 1002, kind: 3 },
            }),
        ),
        // the second of a way's refs has eleven bytes
        (
            [
                0x12, 0x0f, 0x1a, 0x0d, 0x42, 0x0b, 0x05, 0x80, 0x80, 0x80, 0x80, 0x80, 0x80, 0x80,
                0x80, 0x80, 0x80,
            ]
            .as_slice(),
            Some(MessageFault::Wire {
                fault: WireFault::LongVarint { at: 1007 },
            }),
        ),
    ] {
        let found = read_primitive_block(rt.alloc(), bytes, 1000).err();
        assert_eq!(rt; found, want, "{bytes:?}");
    }
}

// The kinds, places and sizes of the objects.
fn places(
    alloc: Global,
    block: &RawPrimitiveBlock<'_>,
) -> Result<Vec<(ObjectKind, u64, usize)>, AllocError> {
    let mut places = Vec::new(alloc);
    for object in block.objects.iter() {
        places.push((object.kind, object.at, object.bytes.len()))?;
    }
    Ok(places)
}

// A table of "", "hi" and a field that is no string; a PrimitiveGroup of a way, and one of a node, a relation and a
// DenseNodes. The granularity comes twice, and the latitude's offset is the number of ten bytes.
const BLOCK: [u8; 50] = [
    0x88, 0x01, 0x0a, 0x0a, 0x08, 0x0a, 0x00, 0x0a, 0x02, 0x68, 0x69, 0x10, 0x05, 0x12, 0x04, 0x1a,
    0x02, 0x08, 0x05, 0x12, 0x08, 0x0a, 0x02, 0x08, 0x07, 0x22, 0x00, 0x12, 0x00, 0x88, 0x01, 0x14,
    0x98, 0x01, 0xff, 0xff, 0xff, 0xff, 0xff, 0xff, 0xff, 0xff, 0xff, 0x01, 0xa0, 0x01, 0x05, 0x92,
    0x01, 0x00,
];

#[test]
fn blocks(rt: HostRuntime) -> Result<(), Fail> {
    let Ok(block) = read_primitive_block(rt.alloc(), BLOCK.as_slice(), 1000) else {
        assert!(rt; false, "a block");
        return Ok(());
    };
    let places = places(rt.alloc(), &block)?;
    let want = [
        (ObjectKind::Way, 1017, 2),
        (ObjectKind::Node, 1023, 2),
        (ObjectKind::Relation, 1027, 0),
        (ObjectKind::DenseNodes, 1029, 0),
    ];
    assert_eq!(rt; places.as_slice(), want.as_slice());
    let scalars = (block.granularity, block.lat_offset, block.lon_offset);
    assert_eq!(rt; scalars, (20, -1, 5));
    let Some(texts) = &block.texts else {
        assert!(rt; false, "a table");
        return Ok(());
    };
    assert_eq!(rt; texts.len(), 2);
    assert!(rt; texts[0] == b"".as_slice() && texts[1] == b"hi".as_slice());
    Ok(())
}

#[test]
fn empty_block(rt: HostRuntime) {
    match read_primitive_block(rt.alloc(), [].as_slice(), 1000) {
        Ok(block) => {
            let scalars = (block.granularity, block.lat_offset, block.lon_offset);
            assert_eq!(rt; scalars, (100, 0, 0));
            assert!(rt; block.texts.is_none() && block.objects.is_empty());
        }
        Err(fault) => assert!(rt; false, "{fault}"),
    }
}

// Two required features, at 40 and 46, and an optional one between them.
#[test]
fn features(rt: HostRuntime) {
    let bytes = [0x22, 0x02, 0x68, 0x69, 0x2a, 0x00, 0x22, 0x00];
    match read_features(rt.alloc(), bytes.as_slice(), 40) {
        Ok(features) => {
            let places = features.len() == 2 && features[0].0 == 40 && features[1].0 == 46;
            assert!(rt; places && features[0].1 == b"hi".as_slice() && features[1].1.is_empty());
        }
        Err(fault) => assert!(rt; false, "{fault}"),
    }
    assert_eq!(rt;
        read_features(rt.alloc(), [0x2a, 0x01].as_slice(), 40).err(),
        short(40)
    );
}

#[test]
fn fault_texts(rt: HostRuntime) -> Result<(), Fail> {
    for (fault, text) in [
        (
            MessageFault::Wire {
                fault: WireFault::Short { at: 3 },
            },
            "Wire fault=Short at=3",
        ),
        (
            MessageFault::Repeated { at: 4, number: 1 },
            "Repeated at=4 number=1",
        ),
        (MessageFault::OutOfMemory, "OutOfMemory"),
    ] {
        let said = fault.to_string(rt.alloc())?;
        assert_eq!(rt; said.as_str(), text);
    }
    Ok(())
}
