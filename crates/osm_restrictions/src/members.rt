//! The members of a restriction.

ghost use Rattle.std.specs.Prelude.{◌≡◌, ◌++◌, ◌∷◌, [], if◌then◌else◌, ◌&&◌, IfOk, OnOk};
ghost use Rattle.std.specs.Str.{bytes_eq};
ghost use Rattle.osm_restrictions.specs.Members.{is_kind, ids_as, via_by, via_of};

use crate::rows::Via;
use osm_model::{MemberKind, MemberView, MembersView, Refs};
use std::alloc::{AllocError, Global};

/// The ids of the members of a kind in a role, in order.
pub(crate) fn ids_as(
    alloc: Global,
    kind: MemberKind,
    role: &str,
    members: &MembersView<'_>,
) -> Result<Refs, AllocError>
    ensures { IfOk result (λ ids. ids ≡ ids_as kind role.now members.now) }
{
    let mut ids = Refs::new(alloc);
    for i in 0..members.len() {
        add_as(&mut ids, kind, role, &members.at(i))?;
    }
    Ok(ids)
}

/// Puts the id of a member behind the others where it is of that kind and in that role.
fn add_as(
    ids: &mut Refs,
    kind: MemberKind,
    role: &str,
    member: &MemberView<'_>,
) -> Result<(), AllocError>
    ensures { OnOk result (ids.new ≡ (if is_kind member.now.kind kind && bytes_eq member.now.role role.now then ids.old ++ member.now.id ∷ [] else ids.old)) }
{
    if is_kind(member.kind(), kind) && member.role() == role {
        ids.push(member.id())?;
    }
    Ok(())
}

/// Whether two kinds are the same.
fn is_kind(one: MemberKind, other: MemberKind) -> bool
    ensures { result ≡ is_kind one other }
{
    match (one, other) {
        (MemberKind::Node, MemberKind::Node) => true,
        (MemberKind::Way, MemberKind::Way) => true,
        (MemberKind::Relation, MemberKind::Relation) => true,
        _ => false,
    }
}

/// Where a turn leads through, and `None` where the members don't say it.
pub(crate) fn via_of(alloc: Global, members: &MembersView<'_>) -> Result<Option<Via>, AllocError>
    ensures { IfOk result (λ via. via ≡ via_of members.now) }
{
    let nodes = ids_as(alloc, MemberKind::Node, "via", members)?;
    let ways = ids_as(alloc, MemberKind::Way, "via", members)?;
    let others = ids_as(alloc, MemberKind::Relation, "via", members)?;
    Ok(via_by(nodes.as_slice(), ways, others.as_slice()))
}

/// Where a turn leads through, by the members of each kind.
fn via_by(nodes: &[i64], ways: Refs, others: &[i64]) -> Option<Via>
    ensures { result ≡ via_by nodes.now ways others.now }
{
    if !others.is_empty() {
        return None;
    }
    match nodes {
        [] if !ways.is_empty() => Some(Via::Ways(ways)),
        [node] if ways.is_empty() => Some(Via::Node(*node)),
        _ => None,
    }
}
