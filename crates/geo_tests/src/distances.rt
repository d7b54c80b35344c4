//! The worked rows of lengths and roots. The expected values are another program's, in whole numbers.
use fixed_geo::{Point, Shape, near, one_meridian, same_both_ways, segment_cm, whole_root};
use std::test::Fail;

/// Two points as latitude and longitude, and what their length is and whether they are near.
const SEGMENTS: [(i32, i32, i32, i32, u64, bool); 22] = [
    (0, 0, 0, 10_000, 11_132, true),
    (600_000_000, 0, 600_000_000, 10_000, 5_566, true),
    (
        412_500_000,
        -737_500_000,
        412_500_000,
        -737_500_000,
        0,
        true,
    ),
    // Across the meridian of 180 degrees.
    (0, 1_799_995_000, 0, -1_799_995_000, 11_132, true),
    (
        -123_456_788,
        1_799_999_999,
        123_456_789,
        -1_799_999_998,
        274_864_193,
        false,
    ),
    (
        649_637_123,
        -1_800_000_000,
        649_637_124,
        1_800_000_000,
        1,
        true,
    ),
    (
        -100_000,
        1_799_900_000,
        100_000,
        -1_799_900_000,
        314_859,
        true,
    ),
    (0, 1_799_900_000, 0, -1_799_899_999, 222_641, false),
    (5, 1_800_000_000, 5, -1_800_000_000, 0, true),
    // At the poles.
    (900_000_000, 0, 900_000_000, 1_800_000_000, 0, false),
    (-900_000_000, 5, -899_999_999, -1_799_999_995, 1, false),
    (
        890_000_001,
        0,
        890_000_004,
        1_800_000_000,
        35_581_598,
        false,
    ),
    // The largest distances.
    (
        900_000_000,
        -1_234_567_890,
        -900_000_000,
        987_654_321,
        2_523_374_601,
        false,
    ),
    (
        -899_999_000,
        -1_700_000_000,
        899_998_999,
        1_700_000_000,
        2_016_088_732,
        false,
    ),
    (0, -1_800_000_000, 0, 0, 2_003_760_000, false),
    (0, -900_000_000, 0, 900_000_000, 2_003_760_000, false),
    // Latitudes whose sum is odd, south and north.
    (
        -338_688_201,
        1_512_093_399,
        -338_701_340,
        1_512_150_002,
        54_245,
        true,
    ),
    (
        475_123_457,
        85_432_101,
        475_120_003,
        85_439_876,
        6_987,
        true,
    ),
    (-1, 3, 0, -4, 7, true),
    // The ends of what is near.
    (0, 0, 200_000, 200_000, 314_859, true),
    (0, 0, 200_001, 0, 222_641, false),
    (0, 0, 0, 200_001, 222_641, false),
];

const ROOTS: [(u128, u64); 24] = [
    (0, 0),
    (1, 1),
    (2, 1),
    (3, 1),
    (4, 2),
    (15, 3),
    (16, 4),
    (4_294_967_295, 65_535),
    (4_294_967_296, 65_536),
    (4_503_599_627_370_495, 67_108_863),
    (4_503_599_627_370_496, 67_108_864),
    (18_446_744_065_119_617_024, 4_294_967_294),
    (18_446_744_065_119_617_025, 4_294_967_295),
    (18_446_744_073_709_551_615, 4_294_967_295),
    (18_446_744_073_709_551_616, 4_294_967_296),
    (18_446_744_082_299_486_208, 4_294_967_296),
    (18_446_744_082_299_486_209, 4_294_967_297),
    (
        81_129_638_414_606_699_710_187_514_626_048,
        9_007_199_254_740_992,
    ),
    (
        81_129_638_414_606_699_710_187_514_626_049,
        9_007_199_254_740_993,
    ),
    (
        1_000_000_000_000_000_000_000_000_000_000,
        1_000_000_000_000_000,
    ),
    (12_345_678_901_234_567_890_123_456_789, 111_111_110_611_111),
    (
        340_282_366_920_938_463_426_481_119_284_349_108_224,
        18_446_744_073_709_551_614,
    ),
    (
        340_282_366_920_938_463_426_481_119_284_349_108_225,
        18_446_744_073_709_551_615,
    ),
    (
        340_282_366_920_938_463_463_374_607_431_768_211_455,
        18_446_744_073_709_551_615,
    ),
];

#[test]
fn segments(rt: HostRuntime) {
    for (from_lat, from_lon, to_lat, to_lon, length, is_near) in SEGMENTS {
        let from = Point {
            lat: from_lat,
            lon: from_lon,
        };
        let to = Point {
            lat: to_lat,
            lon: to_lon,
        };
        assert!(rt; from.is_place());
        assert!(rt; to.is_place());
        assert_eq!(rt; segment_cm(from, to), length, "from {from:?} to {to:?}");
        assert_eq!(rt; segment_cm(to, from), length, "from {to:?} to {from:?}");
        assert_eq!(rt; near(from, to), is_near, "from {from:?} to {to:?}");
    }
    one_meridian();
    same_both_ways();
}

#[test]
fn roots(rt: HostRuntime) {
    for (n, root) in ROOTS {
        assert_eq!(rt; whole_root(n), root, "of {n}");
    }
}

#[test]
fn places(rt: HostRuntime) {
    let rows = [
        (900_000_000, 1_800_000_000, true),
        (-900_000_000, -1_800_000_000, true),
        (900_000_001, 0, false),
        (-900_000_001, 0, false),
        (0, 1_800_000_001, false),
        (0, -1_800_000_001, false),
    ];
    for (lat, lon, is_place) in rows {
        let point = Point { lat, lon };
        assert_eq!(rt; point.is_place(), is_place, "at {point:?}");
    }
}

#[test]
fn shapes(rt: HostRuntime) -> Result<(), Fail> {
    let first = Point { lat: 1, lon: -2 };
    let second = Point { lat: -3, lon: 4 };
    let mut shape = Shape::new(rt.alloc());
    assert!(rt; shape.is_empty());
    shape.push(first)?;
    shape.push(second)?;
    assert_eq!(rt; shape.len(), 2);
    assert_eq!(rt; shape.get(1), Some(second));
    assert_eq!(rt; shape.get(2), None);
    let points = shape.into_vec();
    assert_eq!(rt; points.as_slice(), [first, second].as_slice());
    assert_eq!(rt;
        Shape::from_vec(points).as_slice(),
        [first, second].as_slice()
    );
    Ok(())
}
