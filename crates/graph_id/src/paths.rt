//! The paths of tile files.
ghost use Rattle.std.specs.Prelude.{◌≡◌, ◌+◌, ◌<◌, ◌≤◌, [], ◌∷◌, ◌++◌, OnOk, IfOk, string_bytes};
ghost use Rattle.graph_id.specs.GraphId.{level_of, tile_of_id};
ghost use Rattle.graph_id.specs.TilePath.{digit, group, groups, tile_path_of};

use crate::ids::GraphId;
use std::alloc::{AllocError, Global};

/// The path of the file of a GraphId's tile, as Valhalla names its tiles: the level, then the tile number with leading
/// zeros to six digits on levels 0 and 1 and to nine on level 2, cut into threes, joined by `/`, then `.gph`.
#[tactic(auto, unfolding(crate::specs::TilePath::tile_path_of))]
pub fn tile_path(alloc: Global, id: GraphId) -> Result<String, AllocError>
    requires three_levels { level_of id ≤ 2 }
    requires six_digits { level_of id < 2 → tile_of_id id < 1_000_000 }
    ensures { IfOk result (λ path. string_bytes path ≡ tile_path_of id) }
{
    let mut path = String::with_capacity(alloc, 15)?;
    push_digit(&mut path, id.level())?;
    push_groups(&mut path, id.level(), id.tile())?;
    path.push_str(".gph")?;
    Ok(path)
}

/// Puts the groups of three digits of a tile number behind a path.
#[tactic(auto, unfolding(crate::specs::TilePath::groups))]
fn push_groups(path: &mut String, level: u32, tile: u32) -> Result<(), AllocError>
    ensures { OnOk result (string_bytes path.new ≡ string_bytes path.old ++ groups level tile) }
{
    if level == 2 {
        push_group(path, tile / 1_000_000)?;
    }
    push_group(path, tile / 1000)?;
    push_group(path, tile)
}

/// Puts `/` and the last three digits of a number behind a path.
#[tactic(auto, unfolding(crate::specs::TilePath::group))]
fn push_group(path: &mut String, number: u32) -> Result<(), AllocError>
    ensures { OnOk result (string_bytes path.new ≡ string_bytes path.old ++ group number) }
{
    path.push('/')?;
    push_digit(path, number / 100)?;
    push_digit(path, number / 10)?;
    push_digit(path, number)
}

/// Puts the last digit of a number behind a path.
fn push_digit(path: &mut String, number: u32) -> Result<(), AllocError>
    ensures { OnOk result (string_bytes path.new ≡ string_bytes path.old ++ digit number ∷ []) }
{
    path.push(char::from(b'0' + (number % 10) as u8))
}
