use osm_messages::read_primitive_block;
use osm_model::MemberKind;
use osm_objects::{ObjectFault, ObjectLists, add_objects};
use std::alloc::{AllocError, Global};
use std::test::Fail;

// A string table: "", "highway", "a", a byte that isn't UTF-8, "restriction:hgv", "x".
const TABLE: [u8; 39] = [
    0x0a, 0x25, 0x0a, 0x00, 0x0a, 0x07, 0x68, 0x69, 0x67, 0x68, 0x77, 0x61, 0x79, 0x0a, 0x01, 0x61,
    0x0a, 0x01, 0xff, 0x0a, 0x0f, 0x72, 0x65, 0x73, 0x74, 0x72, 0x69, 0x63, 0x74, 0x69, 0x6f, 0x6e,
    0x3a, 0x68, 0x67, 0x76, 0x0a, 0x01, 0x78,
];

// The object of a block begins behind the table, the group's field and its own field.
const AT: u64 = 43;

const NODE: u8 = 0x0a;

const DENSE: u8 = 0x12;

const WAY: u8 = 0x1a;

const RELATION: u8 = 0x22;

// A block with the table, one object, and scalars.
fn block_of(alloc: Global, tag: u8, object: &[u8], scalars: &[u8]) -> Result<Vec<u8>, AllocError> {
    let len = (object.len() % 100) as u8;
    let mut bytes = Vec::from_slice(alloc, TABLE.as_slice())?;
    bytes.extend_from_slice([0x12, len + 2, tag, len].as_slice())?;
    bytes.extend_from_slice(object)?;
    bytes.extend_from_slice(scalars)?;
    Ok(bytes)
}

// What the bytes of a block mean.
fn meaning(alloc: Global, bytes: &[u8]) -> Result<ObjectLists, ObjectFault> {
    let mut lists = ObjectLists::new(alloc);
    if bytes.len() > 1_000_000 {
        return Err(ObjectFault::OutOfMemory);
    }
    let Ok(block) = read_primitive_block(alloc, bytes, 0) else {
        return Err(ObjectFault::OutOfMemory);
    };
    add_objects(alloc, &block, 0, &mut lists)?;
    Ok(lists)
}

fn fault_of(alloc: Global, tag: u8, object: &[u8]) -> Result<Option<ObjectFault>, AllocError> {
    let bytes = block_of(alloc, tag, object, &[])?;
    Ok(meaning(alloc, &bytes).err())
}

#[test]
fn faults_of_ways(rt: HostRuntime) -> Result<(), Fail> {
    let alloc = rt.alloc();
    let missing = Some(ObjectFault::MissingField { at: AT, number: 1 });
    let uneven = Some(ObjectFault::Uneven { at: AT });
    let past = Some(ObjectFault::BadString { at: AT, index: 9 });
    let no_text = Some(ObjectFault::BadString { at: AT, index: 3 });
    assert_eq!(rt; fault_of(alloc, WAY, &[0x12, 1, 1])?, missing);
    assert_eq!(rt; fault_of(alloc, WAY, &[8, 5, 0x12, 1, 9])?, uneven);
    assert_eq!(rt;
        fault_of(alloc, WAY, &[8, 5, 0x12, 1, 9, 0x1a, 1, 3])?,
        past
    );
    assert_eq!(rt;
        fault_of(alloc, WAY, &[8, 5, 0x12, 1, 1, 0x1a, 1, 3])?,
        no_text
    );
    Ok(())
}

#[test]
fn tags_that_are_dropped(rt: HostRuntime) -> Result<(), Fail> {
    let alloc = rt.alloc();
    let past = Some(ObjectFault::BadString { at: AT, index: 9 });
    let large = Some(ObjectFault::BadNumber { at: AT });
    assert_eq!(rt;
        fault_of(alloc, WAY, &[8, 5, 0x12, 1, 5, 0x1a, 1, 3])?,
        None
    );
    assert_eq!(rt;
        fault_of(alloc, WAY, &[8, 5, 0x12, 1, 5, 0x1a, 1, 9])?,
        past
    );
    // refs 2^63 - 1 and one more; the key's index is past the table too
    let refs = [
        8, 5, 0x12, 1, 9, 0x1a, 1, 9, 0x42, 11, 0xfe, 0xff, 0xff, 0xff, 0xff, 0xff, 0xff, 0xff,
        0xff, 1, 2,
    ];
    assert_eq!(rt; fault_of(alloc, WAY, refs.as_slice())?, large);
    Ok(())
}

#[test]
fn faults_of_nodes(rt: HostRuntime) -> Result<(), Fail> {
    let alloc = rt.alloc();
    let no_lat = Some(ObjectFault::MissingField { at: AT, number: 8 });
    let no_lon = Some(ObjectFault::MissingField { at: AT, number: 9 });
    let outside = Some(ObjectFault::BadCoordinate { id: 1 });
    let past = Some(ObjectFault::BadString { at: AT, index: 9 });
    assert_eq!(rt; fault_of(alloc, NODE, &[8, 2, 0x48, 0])?, no_lat);
    assert_eq!(rt; fault_of(alloc, NODE, &[8, 2, 0x40, 0])?, no_lon);
    // latitude 900,000,001
    let north = [8, 2, 0x40, 0x82, 0xa4, 0xa7, 0xda, 6, 0x48, 0];
    assert_eq!(rt; fault_of(alloc, NODE, north.as_slice())?, outside);
    let both = [
        8, 2, 0x40, 0x82, 0xa4, 0xa7, 0xda, 6, 0x48, 0, 0x12, 1, 9, 0x1a, 1, 9,
    ];
    assert_eq!(rt; fault_of(alloc, NODE, both.as_slice())?, past);
    Ok(())
}

#[test]
fn groups_of_keys_and_values(rt: HostRuntime) -> Result<(), Fail> {
    let alloc = rt.alloc();
    let uneven = Some(ObjectFault::Uneven { at: AT });
    // node 1; a group that isn't closed, a pair cut off, two groups, none
    assert_eq!(rt;
        fault_of(
            alloc,
            DENSE,
            &[10, 1, 2, 0x42, 1, 0, 0x4a, 1, 0, 0x52, 2, 1, 2]
        )?,
        uneven
    );
    assert_eq!(rt;
        fault_of(
            alloc,
            DENSE,
            &[10, 1, 2, 0x42, 1, 0, 0x4a, 1, 0, 0x52, 1, 1]
        )?,
        uneven
    );
    assert_eq!(rt;
        fault_of(
            alloc,
            DENSE,
            &[10, 1, 2, 0x42, 1, 0, 0x4a, 1, 0, 0x52, 2, 0, 0]
        )?,
        uneven
    );
    assert_eq!(rt;
        fault_of(alloc, DENSE, &[10, 1, 2, 0x42, 1, 0, 0x4a, 1, 0])?,
        None
    );
    assert_eq!(rt; fault_of(alloc, DENSE, &[10, 1, 2, 0x42, 1, 0])?, uneven);
    Ok(())
}

#[test]
fn dense_nodes(rt: HostRuntime) -> Result<(), Fail> {
    let alloc = rt.alloc();
    // nodes 1 and 3 at (1, -1) and (3, 0); the second has highway="" twice
    let object = [
        10, 2, 2, 4, 0x42, 2, 2, 4, 0x4a, 2, 1, 2, 0x52, 6, 0, 1, 0, 1, 0, 0,
    ];
    let bytes = block_of(alloc, DENSE, object.as_slice(), &[])?;
    let lists = meaning(alloc, &bytes).ok().ok_or("refused")?;
    let places = [(1, 1, -1, 0), (3, 3, 0, 2)];
    assert_eq!(rt; lists.nodes.len(), 2);
    for (i, (id, lat, lon, tags)) in places.iter().enumerate() {
        let node = lists.nodes.at(i);
        assert!(rt; (node.id(), node.lat(), node.lon()) == (*id, *lat, *lon));
        assert_eq!(rt; node.tags().len(), *tags);
    }
    Ok(())
}

// The latitude of node 1 with this number, and scalars.
fn latitude(alloc: Global, zigzag: u8, scalars: &[u8]) -> Result<Option<i32>, AllocError> {
    let object = [8, 2, 0x40, zigzag % 128, 0x48, 0];
    let bytes = block_of(alloc, NODE, object.as_slice(), scalars)?;
    let Ok(lists) = meaning(alloc, &bytes) else {
        return Ok(None);
    };
    if lists.nodes.is_empty() {
        return Ok(None);
    }
    Ok(Some(lists.nodes.at(0).lat()))
}

#[test]
fn units_are_rounded_down(rt: HostRuntime) -> Result<(), Fail> {
    let alloc = rt.alloc();
    // number -2; offset 50; granularity 1 and the numbers -1, 0 and 50
    assert_eq!(rt; latitude(alloc, 3, &[])?, Some(-2));
    assert_eq!(rt; latitude(alloc, 3, &[0x98, 1, 50])?, Some(-2));
    assert_eq!(rt; latitude(alloc, 1, &[0x88, 1, 1])?, Some(-1));
    assert_eq!(rt; latitude(alloc, 0, &[0x88, 1, 1])?, Some(0));
    assert_eq!(rt; latitude(alloc, 100, &[0x88, 1, 1, 0x98, 1, 50])?, Some(1));
    Ok(())
}

#[test]
fn a_way_and_a_relation(rt: HostRuntime) -> Result<(), Fail> {
    let alloc = rt.alloc();
    // way -1 with restriction:hgv=a and refs 1 and 0
    let way = [
        8, 0xff, 0xff, 0xff, 0xff, 0xff, 0xff, 0xff, 0xff, 0xff, 1, 0x12, 1, 4, 0x1a, 1, 2, 0x42,
        2, 2, 1,
    ];
    let bytes = block_of(alloc, WAY, way.as_slice(), &[])?;
    let lists = meaning(alloc, &bytes).ok().ok_or("refused")?;
    assert_eq!(rt; lists.ways.len(), 1);
    let way = lists.ways.at(0);
    assert_eq!(rt; way.id(), -1);
    assert_eq!(rt; way.refs(), [1, 0].as_slice());
    assert!(rt; way.tags().value("restriction:hgv") == Some("a"));
    Ok(())
}

#[test]
fn members(rt: HostRuntime) -> Result<(), Fail> {
    let alloc = rt.alloc();
    let uneven = Some(ObjectFault::Uneven { at: AT });
    let past = Some(ObjectFault::BadString { at: AT, index: 9 });
    // one member: type 3; a role that isn't in the table
    assert_eq!(rt;
        fault_of(alloc, RELATION, &[8, 5, 0x42, 1, 2, 0x4a, 1, 2, 0x52, 1, 3])?,
        uneven
    );
    assert_eq!(rt;
        fault_of(alloc, RELATION, &[8, 5, 0x42, 1, 9, 0x4a, 1, 2, 0x52, 1, 1])?,
        past
    );
    // way 1 in the role "a"
    let relation = [8, 5, 0x42, 1, 2, 0x4a, 1, 2, 0x52, 1, 1];
    let bytes = block_of(alloc, RELATION, relation.as_slice(), &[])?;
    let lists = meaning(alloc, &bytes).ok().ok_or("refused")?;
    assert_eq!(rt; lists.relations.len(), 1);
    let relation = lists.relations.at(0);
    assert_eq!(rt; relation.members().len(), 1);
    let member = relation.members().at(0);
    assert!(rt; member.kind() == MemberKind::Way && member.id() == 1 && member.role() == "a");
    Ok(())
}

#[test]
fn no_string_table(rt: HostRuntime) -> Result<(), Fail> {
    let found = meaning(rt.alloc(), &[0x12, 2, 0x1a, 0]).err();
    assert_eq!(rt; found, Some(ObjectFault::MissingField { at: 0, number: 1 }));
    Ok(())
}

// Whether this fault reads so.
fn reads(alloc: Global, fault: ObjectFault, text: &str) -> Result<bool, AllocError> {
    let said = fault.to_string(alloc)?;
    Ok(said.as_str() == text)
}

#[test]
fn texts_of_faults(rt: HostRuntime) -> Result<(), Fail> {
    for (fault, text) in [
        (
            ObjectFault::MissingField { at: 58, number: 8 },
            "MissingField at=58 number=8",
        ),
        (ObjectFault::Uneven { at: 58 }, "Uneven at=58"),
        (ObjectFault::BadNumber { at: 58 }, "BadNumber at=58"),
        (
            ObjectFault::BadString { at: 58, index: 9 },
            "BadString at=58 index=9",
        ),
        (ObjectFault::BadCoordinate { id: -7 }, "BadCoordinate id=-7"),
        (ObjectFault::OutOfMemory, "OutOfMemory"),
    ] {
        assert!(rt; reads(rt.alloc(), fault, text)?, "{text}");
    }
    Ok(())
}
