//! Relations.
ghost use Rattle.std.specs.Prelude.{◌≡◌, length};
ghost use Rattle.osm_messages.specs.RawNumbers.{seen_raw_relation};
ghost use Rattle.osm_objects.specs.Steps.{each};
ghost use Rattle.osm_objects.specs.Relations.{member_kind_of, members_of, decoded_relation};
ghost use Rattle.osm_objects.specs.Answers.{Answers, Becomes};
ghost use Rattle.osm_objects.specs.Seen.{table_of, relation_with};

use crate::fault::ObjectFault;
use crate::parts::{check_even, one_number};
use crate::sums::sum_up;
use crate::tags::read_tags;
use crate::texts::Texts;
use osm_messages::RawRelation;
use osm_messages::fields::RELATION_ID;
use osm_model::{Member, MemberKind, Tag};
use std::alloc::Global;

/// The kind of a member with this type.
fn member_kind_of(at: u64, number: u64) -> Result<MemberKind, ObjectFault>
    ensures { Answers (λ kind. kind) result (member_kind_of at number) }
{
    match number {
        0 => Ok(MemberKind::Node),
        1 => Ok(MemberKind::Way),
        2 => Ok(MemberKind::Relation),
        _ => Err(ObjectFault::Uneven { at }),
    }
}

/// Puts the kinds of members with these types into the list, in place of what it held.
fn read_kinds(at: u64, types: &[u64], kinds: &mut Vec<MemberKind>) -> Result<(), ObjectFault>
    ensures { Becomes result kinds.new.items (each (member_kind_of at) types.now) }
{
    kinds.clear();
    for i in 0..types.len() {
        kinds.push(member_kind_of(at, types[i])?)?;
    }
    Ok(())
}

/// Puts the members of these roles, ids and kinds, of the relation at `at`, into the list, in place of what it held.
fn read_members(
    alloc: Global,
    texts: &mut Texts<'_>,
    at: u64,
    roles: &[u64],
    ids: &[i64],
    kinds: &[MemberKind],
    members: &mut Vec<Member>,
) -> Result<(), ObjectFault>
    requires ids { length ids.now ≡ length roles.now }
    requires kinds { length kinds.now ≡ length roles.now }
    ensures members { Becomes result members.new.items (members_of (table_of texts.old) at roles.now ids.now kinds.now) }
    ensures table { table_of texts.new ≡ table_of texts.old }
{
    members.clear();
    for i in 0..roles.len() {
        let role = texts.text(alloc, at, roles[i])?;
        members.push(Member {
            role,
            kind: kinds[i],
            id: ids[i],
        })?;
    }
    Ok(())
}

#[tactic(auto, unfolding(crate::specs::Relations::decoded_relation))]
/// Decodes a relation, whose first byte stands at `at`, and gives its id. Its tags and members are put into the lists,
/// in place of what they held.
pub fn read_relation(
    alloc: Global,
    texts: &mut Texts<'_>,
    at: u64,
    relation: &RawRelation<'_>,
    ids: &mut Vec<i64>,
    kinds: &mut Vec<MemberKind>,
    tags: &mut Vec<Tag>,
    members: &mut Vec<Member>,
) -> Result<i64, ObjectFault>
    ensures relation { Answers (λ id. relation_with id tags.new.items members.new.items) result (decoded_relation (table_of texts.old) at (seen_raw_relation relation.now)) }
    ensures table { table_of texts.new ≡ table_of texts.old }
{
    let id = one_number(at, RELATION_ID, relation.id)?;
    check_even(at, relation.keys, relation.vals)?;
    check_even(at, relation.roles_sid, relation.memids)?;
    check_even(at, relation.roles_sid, relation.types)?;
    read_kinds(at, relation.types, kinds)?;
    sum_up(at, relation.memids, ids)?;
    read_tags(alloc, texts, at, relation.keys, relation.vals, tags)?;
    read_members(alloc, texts, at, relation.roles_sid, ids, kinds, members)?;
    Ok(id.cast_signed())
}
