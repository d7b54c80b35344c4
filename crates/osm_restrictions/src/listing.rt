//! The rows of turns of an extract.

ghost use Rattle.std.specs.Prelude.{◌≡◌, ◌++◌, IfOk, OnOk, option_to_list};
ghost use Rattle.osm_restrictions.specs.Rows.{row_of, skipped_of, rows_of_turns, skipped_turns};
ghost use Rattle.osm_restrictions.specs.Reasons.{Tell, RowsRise, SkipsRise};

use crate::keys::is_restriction;
use crate::rows::{Skipped, SkippedRows, TurnRows, Turns};
use crate::turn::turn_of;
use osm_model::{Extract, RelationView};
use std::alloc::{AllocError, Global};

/// The rows of turns of an extract, and the restrictions that are skipped, each in order of id.
pub fn turn_rows(alloc: Global, extract: &Extract) -> Result<Turns, AllocError>
    ensures rows { IfOk result (λ turns. turns.rows ≡ rows_of_turns extract.now) }
    ensures skipped { IfOk result (λ turns. turns.skipped ≡ skipped_turns extract.now) }
    // each restriction is one row or one skip
    ensures told { IfOk result (λ turns. Tell extract.now.relations turns.rows turns.skipped) }
    ensures rows_rise { IfOk result (λ turns. RowsRise turns.rows) }
    ensures skips_rise { IfOk result (λ turns. SkipsRise turns.skipped) }
{
    let mut turns = Turns {
        rows: TurnRows::new(alloc),
        skipped: SkippedRows::new(alloc),
    };
    for i in 0..extract.relations.len() {
        add_turn(alloc, &mut turns, &extract.relations.at(i))?;
    }
    Ok(turns)
}

/// Puts what a relation says behind the others.
fn add_turn(alloc: Global, turns: &mut Turns, relation: &RelationView<'_>) -> Result<(), AllocError>
    ensures rows { OnOk result (turns.new.rows ≡ turns.old.rows ++ option_to_list (row_of relation.now)) }
    ensures skipped { OnOk result (turns.new.skipped ≡ turns.old.skipped ++ option_to_list (skipped_of relation.now)) }
{
    if !is_restriction(relation.tags()) {
        return Ok(());
    }
    match turn_of(alloc, relation)? {
        Ok(row) => turns.rows.push(row)?,
        Err(reason) => turns.skipped.push(Skipped {
            relation: relation.id(),
            reason,
        })?,
    }
    Ok(())
}
