//! The law.
ghost use Rattle.level_tiles.specs.LevelTiles.{LiftedMakeTiles};

use edge_builder::pieces_told_forward;
use kept_rows::{lifted_are_table, open_table_is_plain};
use tile_infos::starts_are_sums;

/// The tiles that the kept rows of an extract make on their levels are those of its folder, as far as they are built.
pub fn lifted_make_tiles()
    ensures { LiftedMakeTiles }
{
    pieces_told_forward();
    lifted_are_table();
    open_table_is_plain();
    starts_are_sums();
}
