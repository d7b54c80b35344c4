//! Worked rows: the infos of a tile with one road, and bytes that are none. The bytes and the offsets are counted by
//! hand.
use edge_info::{
    Info, InfoFault, InfoSet, InfoView, Infos, entries_law, entry_starts, infos_law, is_start,
    padding_law, read_infos, texts_law, write_infos,
};
use fixed_geo::{Point, Shape};
use osm_model::{PieceKey, Seq};
use std::alloc::{AllocError, Global};
use std::test::Fail;

/// The entry of way 10 with two points and no name: 40 bytes.
const ROAD: [u8; 40] = [
    10, 0, 0, 0, 0, 0, 0, 0, 0, 0, 0, 0, 0, 0, 0, 0, 2, 0, 0, 0, 0, 0, 0, 0, 0, 0, 0, 0, 0, 0, 0,
    0, 0x10, 0x27, 0, 0, 0, 0, 0, 0,
];

/// The entry of way -1, run 2, piece 3 with two points and the names 0, 1, 0 (52 bytes), the texts `Weg` and `B1`
/// (7 and 6 bytes), and 7 zeros.
const NAMED: [u8; 72] = [
    255, 255, 255, 255, 255, 255, 255, 255, 2, 0, 0, 0, 3, 0, 0, 0, 2, 0, 0, 0, 1, 0, 0, 0, 254,
    255, 255, 255, 0, 0, 0, 0, 0, 0, 0, 0, 3, 0, 0, 0, 0, 0, 0, 0, 1, 0, 0, 0, 0, 0, 0, 0, 3, 0, 0,
    0, b'W', b'e', b'g', 2, 0, 0, 0, b'B', b'1', 0, 0, 0, 0, 0, 0, 0,
];

/// One byte of `NAMED` changed: its offset, the new byte, and the check and the offset of the answer.
const BROKEN: [(usize, u8, u8, u64); 15] = [
    (16, 0, 13, 0),
    (16, 1, 13, 0),
    (16, 200, 13, 0),
    (23, 0x40, 13, 0),
    (36, 4, 13, 0),
    (36, 2, 13, 48),
    (40, 2, 13, 0),
    (44, 0, 15, 65),
    (40, 1, 15, 52),
    (52, 0, 15, 52),
    (52, 10, 15, 52),
    (56, 0xff, 15, 52),
    (59, 3, 15, 59),
    (65, 1, 16, 65),
    (71, 1, 16, 71),
];

/// The entry of way 1 with two points and the names 0 and 1 (48 bytes), the text `B1` twice (12 bytes), and 4 zeros.
const TWICE: [u8; 64] = [
    1, 0, 0, 0, 0, 0, 0, 0, 0, 0, 0, 0, 0, 0, 0, 0, 2, 0, 0, 0, 0, 0, 0, 0, 0, 0, 0, 0, 0, 0, 0, 0,
    0, 0, 0, 0, 2, 0, 0, 0, 0, 0, 0, 0, 1, 0, 0, 0, 2, 0, 0, 0, b'B', b'1', 2, 0, 0, 0, b'B', b'1',
    0, 0, 0, 0,
];

/// The road's entry with way 10, 9 or 11 behind it: 80 bytes.
fn two_roads(way: u8) -> [u8; 80] {
    let mut bytes = [0; 80];
    for (at, byte) in ROAD.iter().enumerate() {
        bytes[at] = *byte;
        bytes[at + 40] = *byte;
    }
    bytes[40] = way;
    bytes
}

/// The check and the offset that an answer names.
fn place_of(answer: Result<InfoSet, InfoFault>) -> Option<(u8, u64)> {
    match answer {
        Err(InfoFault::Bad { check, at }) => Some((check, at)),
        _ => None,
    }
}

#[test]
fn a_road(rt: HostRuntime) -> Result<(), Fail> {
    let set = read_infos(rt.alloc(), &ROAD, 40, 0, 0)?;
    assert_eq!(rt; set.infos.len(), 1);
    let info = first_entry(&set.infos).ok_or("no entry")?;
    assert_eq!(rt;
        (info.key().way, info.key().run, info.key().piece),
        (10, 0, 0)
    );
    assert_eq!(rt; (info.shape().len(), info.texts().len()), (2, 0));
    let end = info.shape().get(1).ok_or("no point")?;
    assert_eq!(rt; (end.lat, end.lon), (0, 10_000));
    let bytes = write_infos(rt.alloc(), &set.infos, &set.texts)?;
    assert_eq!(rt; bytes.as_slice(), ROAD.as_slice());
    Ok(())
}

#[test]
fn names(rt: HostRuntime) -> Result<(), Fail> {
    let set = read_infos(rt.alloc(), &NAMED, 52, 13, 2)?;
    let info = first_entry(&set.infos).ok_or("no entry")?;
    assert_eq!(rt;
        (info.key().way, info.key().run, info.key().piece),
        (-1, 2, 3)
    );
    assert_eq!(rt; info.texts(), [0, 1, 0].as_slice());
    let text = set.texts.get(1).ok_or("no text")?;
    assert_eq!(rt; text.as_str(), "B1");
    let bytes = write_infos(rt.alloc(), &set.infos, &set.texts)?;
    assert_eq!(rt; bytes.as_slice(), NAMED.as_slice());
    infos_law();
    Ok(())
}

#[test]
fn broken_bytes(rt: HostRuntime) {
    for (at, byte, check, place) in BROKEN {
        let mut bytes = NAMED;
        if at < 72 {
            bytes[at] = byte;
        }
        let answer = read_infos(rt.alloc(), &bytes, 52, 13, 2);
        assert_eq!(rt; place_of(answer), Some((check, place)), "at {at}");
    }
    entries_law();
    texts_law();
    padding_law();
}

#[test]
fn texts_and_counts(rt: HostRuntime) {
    let alloc = rt.alloc();
    let answers = [
        place_of(read_infos(alloc, &TWICE, 48, 12, 2)),
        place_of(read_infos(alloc, &NAMED, 52, 13, 1)),
        place_of(read_infos(alloc, &NAMED, 52, 13, 3)),
        place_of(read_infos(alloc, &NAMED, 53, 12, 2)),
        place_of(read_infos(alloc, &NAMED, 52, 14, 2)),
        place_of(read_infos(alloc, &NAMED, 52, 13, u64::MAX)),
    ];
    assert_eq!(rt;
        answers,
        [
            Some((15, 54)),
            Some((13, 0)),
            Some((15, 65)),
            Some((13, 52)),
            Some((15, 65)),
            Some((15, 65))
        ]
    );
}

#[test]
fn shared_beginning(rt: HostRuntime) -> Result<(), Fail> {
    let mut bytes = TWICE;
    bytes[54] = 1;
    bytes[59] = 0;
    let set = read_infos(rt.alloc(), &bytes, 48, 11, 2)?;
    let written = write_infos(rt.alloc(), &set.infos, &set.texts)?;
    assert_eq!(rt; written.as_slice(), bytes.as_slice());
    Ok(())
}

#[test]
fn keys_rise(rt: HostRuntime) {
    let alloc = rt.alloc();
    let answers = [
        place_of(read_infos(alloc, &two_roads(9), 80, 0, 0)),
        place_of(read_infos(alloc, &two_roads(10), 80, 0, 0)),
        place_of(read_infos(alloc, &two_roads(11), 80, 0, 0)),
        place_of(read_infos(alloc, &[], 0, 0, 0)),
    ];
    assert_eq!(rt; answers, [Some((13, 40)), Some((13, 40)), None, None]);
}

#[test]
fn starts(rt: HostRuntime) -> Result<(), Fail> {
    let set = read_infos(rt.alloc(), &two_roads(11), 80, 0, 0)?;
    assert_eq!(rt; set.infos.size(), 80);
    let marks = entry_starts(rt.alloc(), &set.infos, 80)?;
    let rows = [0, 20, 38, 40, 42, 80, u32::MAX];
    assert_eq!(rt;
        rows.map(|at| is_start(&marks, at)),
        [true, false, false, true, false, false, false]
    );
    Ok(())
}

/// The first entry.
fn first_entry(infos: &Infos) -> Option<InfoView<'_>> {
    if infos.is_empty() {
        None
    } else {
        Some(infos.at(0))
    }
}

/// A list of two entries, the second with a point and a name more than the road's.
fn pushed(alloc: Global) -> Result<Infos, AllocError> {
    let mut infos = Infos::new(alloc);
    let key = PieceKey {
        way: 7,
        run: 0,
        piece: 1,
    };
    let point = Point { lat: 1, lon: 2 };
    infos.push_parts(key, &[point, point], &[])?;
    let mut shape = Vec::new(alloc);
    let mut texts = Vec::new(alloc);
    for number in 0..3 {
        shape.push(Point { lat: 5, lon: 6 })?;
        texts.push(number)?;
    }
    let shape = Shape::from_vec(shape);
    let texts = Seq::from_vec(texts);
    let key = PieceKey {
        way: 8,
        run: 0,
        piece: 0,
    };
    infos.push(&Info { key, shape, texts })?;
    Ok(infos)
}

#[test]
fn pushed_entries(rt: HostRuntime) -> Result<(), Fail> {
    let infos = pushed(rt.alloc())?;
    if infos.len() != 2 {
        return Err("not two".into());
    }
    let (first, second) = (infos.at(0), infos.at(1));
    assert_eq!(rt;
        (first.key().way, first.shape().len(), first.texts().len()),
        (7, 2, 0)
    );
    assert_eq!(rt; (second.key().way, second.shape().len()), (8, 3));
    assert_eq!(rt;
        (second.texts(), infos.names()),
        ([0, 1, 2].as_slice(), [0, 1, 2].as_slice())
    );
    assert_eq!(rt; infos.size(), 24 + 16 + 24 + 24 + 12);
    Ok(())
}
