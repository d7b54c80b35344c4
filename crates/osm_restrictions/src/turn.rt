//! What a restriction is.

ghost use Rattle.std.specs.Prelude.{◌≡◌, IfOk, Some};
ghost use Rattle.osm_restrictions.specs.Turns.{turn_of, of_kind};
ghost use Rattle.osm_restrictions.specs.Kinds.{KindRow};

use crate::exceptions::restricted_modes;
use crate::keys::{deciding_value, is_conditional};
use crate::kinds::{TurnKind, is_right_count, kind_of};
use crate::members::{ids_as, via_of};
use crate::rows::{SkipReason, TurnRow};
use osm_model::{MemberKind, RelationView};
use std::alloc::{AllocError, Global};

/// What a restriction is: a row of turns, or the reason for which it is skipped.
pub(crate) fn turn_of(
    alloc: Global,
    relation: &RelationView<'_>,
) -> Result<Result<TurnRow, SkipReason>, AllocError>
    ensures { IfOk result (λ turn. turn ≡ turn_of relation.now) }
{
    let tags = relation.tags();
    if is_conditional(tags) {
        return Ok(Err(SkipReason::Conditional));
    }
    let Some(value) = deciding_value(tags) else {
        return Ok(Err(SkipReason::UnknownKind));
    };
    match kind_of(value) {
        Some(kind) => turn_of_kind(alloc, relation, kind),
        None => Ok(Err(SkipReason::UnknownKind)),
    }
}

/// What a restriction of that kind is.
fn turn_of_kind(
    alloc: Global,
    relation: &RelationView<'_>,
    kind: TurnKind,
) -> Result<Result<TurnRow, SkipReason>, AllocError>
    ensures { (row : KindRow) → kind ≡ record { only = row.only; u_turn = row.u_turn; many_from = row.many_from; many_to = row.many_to } → IfOk result (λ turn. turn ≡ of_kind relation.now (Some row)) }
{
    let modes = restricted_modes(relation.tags());
    if modes == 0 {
        return Ok(Err(SkipReason::NoModes));
    }
    let from = ids_as(alloc, MemberKind::Way, "from", relation.members())?;
    if !is_right_count(kind.many_from, from.len()) {
        return Ok(Err(SkipReason::WrongFrom));
    }
    let to = ids_as(alloc, MemberKind::Way, "to", relation.members())?;
    if !is_right_count(kind.many_to, to.len()) {
        return Ok(Err(SkipReason::WrongTo));
    }
    let Some(via) = via_of(alloc, relation.members())? else {
        return Ok(Err(SkipReason::BadVia));
    };
    Ok(Ok(TurnRow {
        relation: relation.id(),
        only: kind.only,
        u_turn: kind.u_turn,
        from,
        via,
        to,
        modes,
    }))
}
