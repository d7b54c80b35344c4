//! The string tables of blocks.

ghost use Rattle.std.specs.Prelude.{◌≡◌, ◌++◌, ◌∷◌, [], OnOk};
ghost use Rattle.extract_maker.specs.GridFile.{table_bytes, road_texts, turn_texts};
ghost use Rattle.std.specs.Prelude.{codes};

use crate::spelling::push_bytes;
use std::alloc::AllocError;

/// Makes the table of a block without tags.
pub(crate) fn write_empty_table(table: &mut Vec<u8>) -> Result<(), AllocError>
    ensures { OnOk result (table.new.items ≡ table_bytes []) }
{
    table.clear();
    push_bytes(table, 1, b"")
}

/// Makes the table of a road with this class and this name.
pub(crate) fn write_road_table(
    table: &mut Vec<u8>,
    class: &str,
    name: &str,
) -> Result<(), AllocError>
    ensures { OnOk result (table.new.items ≡ table_bytes (codes "highway" ∷ class.now ∷ codes "name" ∷ name.now ∷ [])) }
{
    write_empty_table(table)?;
    push_bytes(table, 1, "highway".as_bytes())?;
    push_bytes(table, 1, class.as_bytes())?;
    push_bytes(table, 1, "name".as_bytes())?;
    push_bytes(table, 1, name.as_bytes())
}

/// Makes the table of a turn restriction of this kind.
pub(crate) fn write_turn_table(table: &mut Vec<u8>, kind: &str) -> Result<(), AllocError>
    ensures { OnOk result (table.new.items ≡ table_bytes (turn_texts kind.now)) }
{
    write_empty_table(table)?;
    push_bytes(table, 1, "type".as_bytes())?;
    push_bytes(table, 1, "restriction".as_bytes())?;
    push_bytes(table, 1, kind.as_bytes())?;
    push_bytes(table, 1, "from".as_bytes())?;
    push_bytes(table, 1, "via".as_bytes())?;
    push_bytes(table, 1, "to".as_bytes())
}
