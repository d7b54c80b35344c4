//! The worked rows of GraphIds and paths; the values are computed by hand.
use graph_id::{BadId, GraphId, parts_and_value, tile_path};
use std::test::Fail;

#[test]
fn parts(rt: HostRuntime) -> Result<(), Fail> {
    let rows = [
        (0, 0, 0, Some(0)),
        (2, 756_425, 0, Some(6_051_402)),
        (7, 4_194_303, 2_097_150, Some(0x3fff_fdff_ffff)),
        (6, 4_194_303, 2_097_151, Some(0x3fff_ffff_fffe)),
        (7, 4_194_302, 2_097_151, Some(0x3fff_ffff_fff7)),
        (7, 4_194_303, 2_097_151, None),
        (8, 0, 0, None),
        (0, 4_194_304, 0, None),
        (0, 0, 2_097_152, None),
        (u32::MAX, u32::MAX, u32::MAX, None),
    ];
    for (level, tile, id, value) in rows {
        let made = GraphId::make(level, tile, id);
        assert_eq!(rt;
            made.ok().map(|made| made.value()),
            value,
            "of {level} {tile} {id}"
        );
        if let Some(value) = value {
            let read = GraphId::of_value(value).ok().ok_or("refused")?;
            assert_eq!(rt; read.level(), level, "of {value}");
            assert_eq!(rt; read.tile(), tile, "of {value}");
            assert_eq!(rt; read.id(), id, "of {value}");
        }
    }
    parts_and_value();
    Ok(())
}

#[test]
fn values(rt: HostRuntime) -> Result<(), Fail> {
    for value in [0x3fff_ffff_ffff, 0x4000_0000_0000, u64::MAX] {
        assert_eq!(rt; GraphId::of_value(value), Err(BadId), "of {value}");
    }
    assert_eq!(rt;
        format!(in rt.alloc(); "{}", BadId)?.as_str(),
        "no valid GraphId"
    );
    Ok(())
}

#[test]
fn paths(rt: HostRuntime) -> Result<(), Fail> {
    let rows = [
        (2, 756_425, 0, "2/000/756/425.gph"),
        (2, 0, 3, "2/000/000/000.gph"),
        (2, 4_194_303, 0, "2/004/194/303.gph"),
        (1, 47_266, 0, "1/047/266.gph"),
        (1, 7, 2_097_151, "1/000/007.gph"),
        (0, 2_906, 0, "0/002/906.gph"),
        (0, 999_999, 0, "0/999/999.gph"),
    ];
    for (level, tile, id, path) in rows {
        let made = GraphId::make(level, tile, id).ok().ok_or("refused")?;
        assert!(rt; made.level() <= 2);
        assert!(rt; made.level() == 2 || made.tile() < 1_000_000);
        assert_eq!(rt; tile_path(rt.alloc(), made)?.as_str(), path);
    }
    Ok(())
}
