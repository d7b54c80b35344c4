//! The list of the tile files of a folder, as the bytes of `tiles.lst`.

ghost use Rattle.std.specs.Prelude.{◌≡◌, ◌++◌, length, All, IfOk, OnOk};
ghost use Rattle.std.specs.String.{string_bytes};
ghost use Rattle.build_report.specs.TileLists.{HasTilePath, tile_line, tile_list};

use graph_id::{GraphId, tile_path};
use std::alloc::{AllocError, Global};

/// The bytes of `tiles.lst`: the form and its version, then a line for each tile, its path and its size in bytes.
pub fn list_text(alloc: Global, ids: &[GraphId], sizes: &[u64]) -> Result<Vec<u8>, AllocError>
    requires paths { All HasTilePath ids.now }
    requires sized { length ids.now ≡ length sizes.now }
    ensures { IfOk result (λ bytes. bytes.items ≡ tile_list ids.now sizes.now) }
{
    let text = lines(alloc, ids, sizes)?;
    Ok(text.into_bytes())
}

/// The first line, and those of the tiles.
fn lines(alloc: Global, ids: &[GraphId], sizes: &[u64]) -> Result<String, AllocError>
    requires paths { All HasTilePath ids.now }
    requires sized { length ids.now ≡ length sizes.now }
    ensures { IfOk result (λ text. string_bytes text ≡ tile_list ids.now sizes.now) }
{
    let mut text = String::from_str(alloc, "mjolnir-tiles 1\n")?;
    for i in 0..ids.len() {
        push_line(alloc, &mut text, ids[i], sizes[i])?;
    }
    Ok(text)
}

/// Adds the line of a tile.
fn push_line(alloc: Global, text: &mut String, id: GraphId, size: u64) -> Result<(), AllocError>
    requires { HasTilePath id }
    ensures { OnOk result (string_bytes text.new ≡ string_bytes text.old ++ tile_line id size) }
{
    let path = tile_path(alloc, id)?;
    text.push_str(path.as_str())?;
    writeln!(text, " {size}")
}
