//! The messages of the grid's nodes, ways and relations.

ghost use Rattle.std.specs.Prelude.{◌≡◌, ◌<◌, ◌≤◌, ◌∷◌, [], pos, OnOk};
ghost use Rattle.extract_maker.specs.Grid.{node_row, turn_id, row_way_id, column_way_id, grid_node_id};
ghost use Rattle.extract_maker.specs.GridFile.{rising, dense_bytes, road_bytes, turn_bytes};
ghost use Rattle.std.specs.Prelude.{◌++◌};
ghost use Rattle.extract_maker.specs.Spelling.{bytes_field, packed, packed_differences};

use crate::spelling::{push_bytes, push_number, push_rising, push_varint};
use std::alloc::AllocError;

/// How far rows and columns are apart, in units of 1e-7 degree.
const SPACING: u64 = 10_000;

/// Puts a field of numbers as packed differences. The second list is for work.
fn push_rising_field(
    object: &mut Vec<u8>,
    numbers: &mut Vec<u8>,
    field: u64,
    first: u64,
    step: u64,
    many: u64,
) -> Result<(), AllocError>
    requires field { field < 16 }
    requires first { first ≤ 10000000 }
    requires step { step ≤ 10000 }
    requires many { many ≤ 500 }
    ensures { OnOk result (object.new.items ≡ object.old.items ++ bytes_field field (packed_differences (rising first step many))) }
{
    numbers.clear();
    push_rising(numbers, first, step, many)?;
    push_bytes(object, field, numbers.as_slice())
}

/// Makes the DenseNodes of a row of nodes.
pub(crate) fn write_node_row(
    object: &mut Vec<u8>,
    numbers: &mut Vec<u8>,
    side: u64,
    row: u64,
) -> Result<(), AllocError>
    requires side { side ≤ 500 }
    requires row { row < side }
    ensures { OnOk result (object.new.items ≡ dense_bytes (node_row side row)) }
{
    object.clear();
    push_rising_field(object, numbers, 1, row * side + 1, 1, side)?;
    push_rising_field(object, numbers, 8, row * SPACING, 0, side)?;
    push_rising_field(object, numbers, 9, 0, SPACING, side)
}

/// Puts the tags of a road, as indexes of texts.
fn push_road_texts(object: &mut Vec<u8>, numbers: &mut Vec<u8>) -> Result<(), AllocError>
    ensures { OnOk result (object.new.items ≡ object.old.items ++ bytes_field 2 (packed (1 ∷ 3 ∷ []))
        ++ bytes_field 3 (packed (2 ∷ 4 ∷ []))) }
{
    numbers.clear();
    push_varint(numbers, 1)?;
    push_varint(numbers, 3)?;
    push_bytes(object, 2, numbers.as_slice())?;
    numbers.clear();
    push_varint(numbers, 2)?;
    push_varint(numbers, 4)?;
    push_bytes(object, 3, numbers.as_slice())
}

/// Makes the message of a road over so many nodes, whose ids rise by a step.
pub(crate) fn write_road(
    object: &mut Vec<u8>,
    numbers: &mut Vec<u8>,
    id: u64,
    first: u64,
    step: u64,
    many: u64,
) -> Result<(), AllocError>
    requires first { first ≤ 10000000 }
    requires step { step ≤ 10000 }
    requires many { many ≤ 500 }
    ensures { OnOk result (object.new.items ≡ road_bytes id (rising first step many)) }
{
    object.clear();
    push_number(object, 1, id)?;
    push_road_texts(object, numbers)?;
    push_rising_field(object, numbers, 8, first, step, many)
}

/// Puts the ids of a restriction's members as packed differences: of the row, of the node and of the column.
fn push_turn_ids(numbers: &mut Vec<u8>, side: u64, place: u64) -> Result<(), AllocError>
    requires side { side ≤ 500 }
    requires place { place < side }
    ensures { OnOk result (numbers.new.items ≡ numbers.old.items ++
        packed_differences (pos (row_way_id place) ∷ pos (grid_node_id side place place) ∷ pos (column_way_id place) ∷ [])) }
{
    let row = 1_000_000 + place;
    let node = place * side + place + 1;
    let column = 2_000_000 + place;
    push_varint(numbers, 2 * row)?;
    push_varint(numbers, 2 * (row - node) - 1)?;
    push_varint(numbers, 2 * (column - node))
}

/// Puts the tags of a restriction, and the roles of its members, as indexes of texts.
fn push_turn_texts(object: &mut Vec<u8>, numbers: &mut Vec<u8>) -> Result<(), AllocError>
    ensures { OnOk result (object.new.items ≡ object.old.items ++ bytes_field 2 (packed (1 ∷ 2 ∷ []))
        ++ bytes_field 3 (packed (2 ∷ 3 ∷ [])) ++ bytes_field 8 (packed (4 ∷ 5 ∷ 6 ∷ []))) }
{
    numbers.clear();
    push_varint(numbers, 1)?;
    push_varint(numbers, 2)?;
    push_bytes(object, 2, numbers.as_slice())?;
    numbers.clear();
    push_varint(numbers, 2)?;
    push_varint(numbers, 3)?;
    push_bytes(object, 3, numbers.as_slice())?;
    numbers.clear();
    push_varint(numbers, 4)?;
    push_varint(numbers, 5)?;
    push_varint(numbers, 6)?;
    push_bytes(object, 8, numbers.as_slice())
}

/// Puts the ids and the types of a restriction's members.
fn push_turn_members(
    object: &mut Vec<u8>,
    numbers: &mut Vec<u8>,
    side: u64,
    place: u64,
) -> Result<(), AllocError>
    requires side { side ≤ 500 }
    requires place { place < side }
    ensures { OnOk result (object.new.items ≡ object.old.items
        ++ bytes_field 9 (packed_differences (pos (row_way_id place) ∷ pos (grid_node_id side place place) ∷ pos (column_way_id place) ∷ []))
        ++ bytes_field 10 (packed (1 ∷ 0 ∷ 1 ∷ []))) }
{
    numbers.clear();
    push_turn_ids(numbers, side, place)?;
    push_bytes(object, 9, numbers.as_slice())?;
    numbers.clear();
    push_varint(numbers, 1)?;
    push_varint(numbers, 0)?;
    push_varint(numbers, 1)?;
    push_bytes(object, 10, numbers.as_slice())
}

/// Makes the message of the restriction with this place.
pub(crate) fn write_turn(
    object: &mut Vec<u8>,
    numbers: &mut Vec<u8>,
    side: u64,
    place: u64,
) -> Result<(), AllocError>
    requires side { side ≤ 500 }
    requires place { place < side }
    ensures { OnOk result (object.new.items ≡ turn_bytes (turn_id place)
        (pos (row_way_id place) ∷ pos (grid_node_id side place place) ∷ pos (column_way_id place) ∷ [])) }
{
    object.clear();
    push_number(object, 1, 3_000_000 + place)?;
    push_turn_texts(object, numbers)?;
    push_turn_members(object, numbers, side, place)
}
