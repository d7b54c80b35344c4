//! The law.
ghost use Rattle.kept_checks.specs.KeptChecks.{LiftedAreFinishable};

use edge_builder::{extract_roads, pieces_told_forward};
use kept_rows::{lifted_are_table, open_table_is_plain};

/// Where no limit is passed, the tiles that are kept can be numbered and finished on their levels. That the numbers of a key fit their
/// bytes, and that names are UTF-8, is known of the pieces themselves, by their types.
pub fn lifted_are_finishable()
    ensures { LiftedAreFinishable }
{
    extract_roads();
    pieces_told_forward();
    lifted_are_table();
    open_table_is_plain();
}
