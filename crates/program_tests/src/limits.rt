//! The limits of an extract and of its roads, met by inputs that are made for it.

use program_runs::{build_in, ends, puts_nothing};
use std::test::Fail;
use test_support::{
    BlockWriter, HEADER, data_triple, extract_of, extract_with_way, holds, host_of, put_field,
    put_varint,
};

// A piece that is too long puts nothing, and the older file stays.
#[test]
fn longest_piece(rt: HostRuntime) -> Result<(), Fail> {
    let long = extract_with_way(rt.alloc(), &HEADER, &[0, 241_138_570], &[0, 0], 1, &[1, 2])?;
    let said = "error 6 EdgeTooLong way=1 run=0 piece=0 cm=268435456\n";
    assert!(rt; ends(&rt, &long, 6, b"older", said)?);
    Ok(())
}

// 128 ways start at node 1000, and the last of them is too long, which is said first.
#[test]
fn longest_piece_before_most_edges(rt: HostRuntime) -> Result<(), Fail> {
    let mut objects = BlockWriter::new(rt.alloc())?;
    objects.node(1_000, 0, 0, "")?;
    for k in 1..128u8 {
        objects.node(i64::from(k), i64::from(k), 0, "")?;
        objects.way(u64::from(k), "highway=residential", &[1_000, i64::from(k)])?;
    }
    objects.node(128, 241_138_570, 0, "")?;
    objects.way(128, "highway=residential", &[1_000, 128])?;
    let said = "error 6 EdgeTooLong way=128 run=0 piece=0 cm=268435456\n";
    assert!(rt; puts_nothing(&rt, &objects, 6, said)?);
    Ok(())
}

// 4,000,001 pieces are too many, which is said before that the first of them is too long: a way that goes to and fro
// between nodes 1 and 2, and is a junction at each place.
#[test]
fn most_pieces(rt: HostRuntime) -> Result<(), Fail> {
    let mut refs = Vec::new(rt.alloc());
    for place in 0..4_000_002i64 {
        refs.push(place % 2 + 1)?;
    }
    let many = extract_of(rt.alloc(), &HEADER, &[0, 241_138_570], &[0, 0], &refs)?;
    let mut host = host_of(rt.alloc(), &many, &[], 65_536)?;
    assert_eq!(rt; build_in(&rt, &mut host)?, 6);
    assert_eq!(rt;
        host.said.as_slice(),
        b"error 6 Pieces count=4000001\n".as_slice()
    );
    assert!(rt; holds(&host, b"older", 0));
    Ok(())
}

// 500,001 relations are too many: 1, 2 and so on, each its id alone, in one group (field 2 of the block, 4 of the group).
#[test]
fn most_relations(rt: HostRuntime) -> Result<(), Fail> {
    let mut group = Vec::new(rt.alloc());
    let mut relation = Vec::new(rt.alloc());
    for id in 1..500_002u64 {
        relation.clear();
        relation.push(0x08)?;
        put_varint(&mut relation, id)?;
        put_field(&mut group, 0x22, &relation)?;
    }
    let mut block = Vec::from_slice(rt.alloc(), &[0x0a, 0x00])?;
    put_field(&mut block, 0x12, &group)?;
    let mut bytes = Vec::from_slice(rt.alloc(), &HEADER)?;
    bytes.extend_from_slice(&data_triple(rt.alloc(), &block)?)?;
    let mut host = host_of(rt.alloc(), &bytes, &[], 65_536)?;
    assert_eq!(rt; build_in(&rt, &mut host)?, 5);
    assert_eq!(rt;
        host.said.as_slice(),
        b"error 5 TooMany what=relations count=500001\n".as_slice()
    );
    assert!(rt; holds(&host, b"older", 0));
    Ok(())
}
