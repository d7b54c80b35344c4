//! The worked rows of the grid; the values are computed by hand.
use fixed_geo::Point;
use graph_id::{GraphId, tile_path};
use std::test::Fail;
use tile_geometry::{level_of_class, south_west, tile_holds_place, tile_of};

/// A level, a place, the number of its tile, and the value and the path of that tile's first record.
const PLACES: [(u32, i32, i32, u32, u64, &str); 13] = [
    (
        2,
        412_500_000,
        -737_500_000,
        756_425,
        6_051_402,
        "2/000/756/425.gph",
    ),
    (
        1,
        412_500_000,
        -737_500_000,
        47_266,
        378_129,
        "1/047/266.gph",
    ),
    (0, 412_500_000, -737_500_000, 2_906, 23_248, "0/002/906.gph"),
    (2, 0, 1_800_000_000, 519_839, 4_158_714, "2/000/519/839.gph"),
    (
        2,
        900_000_000,
        1_800_000_000,
        1_036_799,
        8_294_394,
        "2/001/036/799.gph",
    ),
    (
        1,
        900_000_000,
        1_800_000_000,
        64_799,
        518_393,
        "1/064/799.gph",
    ),
    (
        0,
        900_000_000,
        1_800_000_000,
        4_049,
        32_392,
        "0/004/049.gph",
    ),
    (
        2,
        899_999_999,
        1_799_999_999,
        1_036_799,
        8_294_394,
        "2/001/036/799.gph",
    ),
    (2, -900_000_000, -1_800_000_000, 0, 2, "2/000/000/000.gph"),
    (0, -900_000_000, 1_800_000_000, 89, 712, "0/000/089.gph"),
    (2, 0, 0, 519_120, 4_152_962, "2/000/519/120.gph"),
    (0, 0, 0, 2_025, 16_200, "0/002/025.gph"),
    (0, 0, -1, 2_024, 16_192, "0/002/024.gph"),
];

#[test]
fn tiles(rt: HostRuntime) -> Result<(), Fail> {
    for (level, lat, lon, tile, value, path) in PLACES {
        let place = Point { lat, lon };
        assert!(rt; level <= 2);
        assert!(rt; place.is_place());
        assert_eq!(rt; tile_of(level, place), tile, "of {place:?} on {level}");
        let first = GraphId::make(level, tile, 0).ok().ok_or("refused")?;
        assert_eq!(rt; first.value(), value, "of {tile} on {level}");
        assert!(rt; first.level() <= 2);
        assert!(rt; first.level() == 2 || first.tile() < 1_000_000);
        assert_eq!(rt; tile_path(rt.alloc(), first)?.as_str(), path);
    }
    tile_holds_place();
    Ok(())
}

#[test]
fn corners(rt: HostRuntime) {
    let rows = [
        (2, 756_425, Some((412_500_000, -737_500_000))),
        (1, 47_266, Some((410_000_000, -740_000_000))),
        (0, 2_906, Some((380_000_000, -760_000_000))),
        (0, 0, Some((-900_000_000, -1_800_000_000))),
        (2, 1_036_799, Some((897_500_000, 1_797_500_000))),
        (1, 64_799, Some((890_000_000, 1_790_000_000))),
        (0, 4_049, Some((860_000_000, 1_760_000_000))),
        (2, 1_036_800, None),
        (1, 64_800, None),
        (0, 4_050, None),
        (3, 0, None),
        (2, u32::MAX, None),
    ];
    for (level, tile, corner) in rows {
        let corner = corner.map(|(lat, lon)| Point { lat, lon });
        assert_eq!(rt; south_west(level, tile), corner, "of {tile} on {level}");
    }
}

#[test]
fn classes(rt: HostRuntime) {
    for (class, level) in [
        (0, 0),
        (1, 0),
        (2, 0),
        (3, 1),
        (4, 1),
        (5, 2),
        (6, 2),
        (7, 2),
    ] {
        assert!(rt; class <= 7);
        assert_eq!(rt; level_of_class(class), level, "of {class}");
    }
}
