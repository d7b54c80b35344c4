//! The file of the grid.

ghost use Rattle.std.specs.Prelude.{◌≡◌, ◌<◌, ◌≤◌, ◌^◌, ◌+◌, ◌++◌, ◌∷◌, [], IsTrue, ◌↔◌, IfOk, OnOk, codes, length};
ghost use Rattle.std.specs.Fmt.{decimal};
ghost use Rattle.std.specs.String.{string_bytes};
ghost use Rattle.osm_blocks.specs.Extracts.{Reads};
ghost use Rattle.extract_maker.specs.Grid.{grid, row_class, column_class, turn_kind, counted};
ghost use Rattle.extract_maker.specs.GridFile.{data_bytes, node_block, row_block, column_block, turn_block, turn_data, node_file, row_file, column_file, turn_file, grid_file};

use crate::blocks::{push_data, push_header};
use crate::objects::{write_node_row, write_road, write_turn};
use crate::tables::{write_empty_table, write_road_table, write_turn_table};
use host_port::Bytes;
use osm_blocks::content_law;
use std::alloc::{AllocError, Global};

/// Lists that are used again for each object.
#[derive(Drop)]
struct Work {
    object: Vec<u8>,
    numbers: Vec<u8>,
    table: Vec<u8>,
    name: String,
}

/// Whether there is a grid with this side, from 2 to 500, and this seed, below 2^31.
pub fn can_be_made(side: u64, seed: u64) -> bool
    ensures { IsTrue result ↔ ((2 ≤ side) × (side ≤ 500) × (seed < 2 ^ 31)) }
{
    2 <= side && side <= 500 && seed < 2_147_483_648
}

/// The PBF file of the grid with this side and this seed. A reader finds exactly the grid in it.
///
/// `Err` is want of memory. The bytes are made in place: beside them there are lists for one object at a time.
pub fn make_extract(alloc: Global, side: u64, seed: u64) -> Result<Bytes, AllocError>
    requires least { 2 ≤ side }
    requires most { side ≤ 500 }
    requires seed { seed < 2 ^ 31 }
    ensures { IfOk result (λ bytes. Reads bytes (grid side seed)) }
{
    let file = make_file(alloc, side, seed)?;
    reads_as_grid(file.as_slice(), side, seed);
    Ok(Bytes::from(file))
}

/// The bytes of the grid's file.
fn make_file(alloc: Global, side: u64, seed: u64) -> Result<Vec<u8>, AllocError>
    requires most { side ≤ 500 }
    requires seed { seed < 2 ^ 31 }
    ensures { IfOk result (λ file. file.items ≡ grid_file side seed) }
{
    let mut file = Vec::with_capacity(alloc, room_of(side))?;
    let mut work = Work {
        object: Vec::new(alloc),
        numbers: Vec::new(alloc),
        table: Vec::new(alloc),
        name: String::new(alloc),
    };
    push_header(&mut file)?;
    push_nodes(&mut file, &mut work, side)?;
    push_rows(&mut file, &mut work, side)?;
    push_columns(&mut file, &mut work, side)?;
    push_turns(&mut file, &mut work, side, seed)?;
    Ok(file)
}

/// Enough bytes for the file, and not many more: a node takes 5 bytes in its row's block and 1 or 2 in each of its ways, and
/// what else a row, a column and a restriction take is below 300 bytes for each step of the side. A seed that draws more
/// restrictions than any other makes the list grow.
fn room_of(side: u64) -> usize
    requires { side ≤ 500 }
{
    let each_node = if side < 64 { 7 } else { 8 };
    (100 + side * 300 + side * side * each_node) as usize
}

/// The bytes of the file are those of a file that reads as the grid.
fn reads_as_grid(file: &[u8], side: u64, seed: u64)
    requires most { side ≤ 500 }
    requires seed { seed < 2 ^ 31 }
    ensures { file.now ≡ grid_file side seed → Reads file.now (grid side seed) }
{
    content_law();
}

/// Puts a block for each row of nodes.
fn push_nodes(file: &mut Vec<u8>, work: &mut Work, side: u64) -> Result<(), AllocError>
    requires { side ≤ 500 }
    ensures { OnOk result (file.new.items ≡ file.old.items ++ node_file side (counted side)) }
{
    write_empty_table(&mut work.table)?;
    for row in 0..side {
        write_node_row(&mut work.object, &mut work.numbers, side, row)?;
        push_data(file, work.table.as_slice(), 2, work.object.as_slice())?;
    }
    Ok(())
}

/// The class of a row.
fn class_of_row(row: u64) -> &'static str
    ensures { result.now ≡ row_class row }
{
    if row % 8 == 0 {
        "primary"
    } else if row % 4 == 0 {
        "secondary"
    } else {
        "residential"
    }
}

/// The class of a column.
fn class_of_column(column: u64) -> &'static str
    ensures { result.now ≡ column_class column }
{
    if column % 16 == 0 {
        "trunk"
    } else {
        "unclassified"
    }
}

/// Makes a name of a letter and a number.
fn write_name(name: &mut String, letter: &str, number: u64) -> Result<(), AllocError>
    ensures { OnOk result (string_bytes name.new ≡ letter.now ++ decimal number) }
{
    name.clear();
    write!(name, "{letter}{number}")
}

/// Puts the block of a row.
fn push_row(file: &mut Vec<u8>, work: &mut Work, side: u64, row: u64) -> Result<(), AllocError>
    requires side { side ≤ 500 }
    requires row { row < side }
    ensures { OnOk result (file.new.items ≡ file.old.items ++ data_bytes (row_block side row)) }
{
    write_name(&mut work.name, "R", row)?;
    write_road_table(&mut work.table, class_of_row(row), work.name.as_str())?;
    let id = 1_000_000 + row;
    write_road(
        &mut work.object,
        &mut work.numbers,
        id,
        row * side + 1,
        1,
        side,
    )?;
    push_data(file, work.table.as_slice(), 3, work.object.as_slice())
}

/// Puts the blocks of all rows.
fn push_rows(file: &mut Vec<u8>, work: &mut Work, side: u64) -> Result<(), AllocError>
    requires { side ≤ 500 }
    ensures { OnOk result (file.new.items ≡ file.old.items ++ row_file side (counted side)) }
{
    for row in 0..side {
        push_row(file, work, side, row)?;
    }
    Ok(())
}

/// Puts the block of a column.
fn push_column(
    file: &mut Vec<u8>,
    work: &mut Work,
    side: u64,
    column: u64,
) -> Result<(), AllocError>
    requires side { side ≤ 500 }
    requires column { column < side }
    ensures { OnOk result (file.new.items ≡ file.old.items ++ data_bytes (column_block side column)) }
{
    write_name(&mut work.name, "C", column)?;
    write_road_table(&mut work.table, class_of_column(column), work.name.as_str())?;
    let id = 2_000_000 + column;
    write_road(
        &mut work.object,
        &mut work.numbers,
        id,
        column + 1,
        side,
        side,
    )?;
    push_data(file, work.table.as_slice(), 3, work.object.as_slice())
}

/// Puts the blocks of all columns.
fn push_columns(file: &mut Vec<u8>, work: &mut Work, side: u64) -> Result<(), AllocError>
    requires { side ≤ 500 }
    ensures { OnOk result (file.new.items ≡ file.old.items ++ column_file side (counted side)) }
{
    for column in 0..side {
        push_column(file, work, side, column)?;
    }
    Ok(())
}

/// Puts the block of the restriction with this place.
fn push_turn(
    file: &mut Vec<u8>,
    work: &mut Work,
    side: u64,
    place: u64,
    kind: &str,
) -> Result<(), AllocError>
    requires side { side ≤ 500 }
    requires place { place < side }
    requires kind { length kind.now ≤ 100 }
    ensures { OnOk result (file.new.items ≡ file.old.items ++ data_bytes (turn_block side place kind.now)) }
{
    write_turn_table(&mut work.table, kind)?;
    write_turn(&mut work.object, &mut work.numbers, side, place)?;
    push_data(file, work.table.as_slice(), 4, work.object.as_slice())
}

/// Puts what a draw gives.
fn push_drawn(
    file: &mut Vec<u8>,
    work: &mut Work,
    side: u64,
    place: u64,
    draw: u64,
) -> Result<(), AllocError>
    requires side { side ≤ 500 }
    requires place { place < side }
    ensures { OnOk result (file.new.items ≡ file.old.items ++ turn_data side place (turn_kind draw)) }
{
    match draw % 3 {
        0 => Ok(()),
        1 => push_turn(file, work, side, place, "no_left_turn"),
        _ => push_turn(file, work, side, place, "only_right_turn"),
    }
}

/// Puts the blocks of all restrictions.
fn push_turns(file: &mut Vec<u8>, work: &mut Work, side: u64, seed: u64) -> Result<(), AllocError>
    requires side { side ≤ 500 }
    requires seed { seed < 2 ^ 31 }
    ensures { OnOk result (file.new.items ≡ file.old.items ++ turn_file side 0 side seed) }
{
    let mut state = seed;
    for place in 0..side {
        state = (state * 1_103_515_245 + 12_345) % 2_147_483_648;
        push_drawn(file, work, side, place, state / 65_536)?;
    }
    Ok(())
}
