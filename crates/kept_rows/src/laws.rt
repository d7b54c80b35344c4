//! The laws.

ghost use Rattle.kept_rows.specs.KeptRows.{KeptOwnNodes, LiftedAreTable, OpenTableIsPlain};

use edge_builder::base_stage;
use road_walks::keep_gives_stage;

/// The tiles of all levels that are made of what is kept of the base tiles are the rows of the folder, in order.
pub fn lifted_are_table()
    ensures { LiftedAreTable }
{
    base_stage();
    keep_gives_stage();
}

/// What is kept of the base tiles of an extract can be lifted: no junction has two nodes there.
pub fn kept_own_nodes()
    ensures { KeptOwnNodes }
{
    base_stage();
    keep_gives_stage();
}

/// Where no shortcut is built, each link of the folder is one edge.
pub fn open_table_is_plain()
    ensures { OpenTableIsPlain }
{}
