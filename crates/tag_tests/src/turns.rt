use osm_model::{
    Extract, Member, MemberKind, Members, Nodes, OsmRelation, Relations, Tag, TagText, Tags, Ways,
};
use osm_restrictions::{SkipReason, TurnRow, Via, turn_rows};
use std::alloc::{AllocError, Global};
use std::test::Fail;

/// The tags `type=restriction` and these.
fn tags_with(alloc: Global, pairs: &[(&str, &str)]) -> Result<Tags, AllocError> {
    let mut tags = Tags::new(alloc);
    add_tag(alloc, &mut tags, "type", "restriction")?;
    for (key, value) in pairs {
        add_tag(alloc, &mut tags, key, value)?;
    }
    Ok(tags)
}

fn add_tag(alloc: Global, tags: &mut Tags, key: &str, value: &str) -> Result<(), AllocError> {
    let key = TagText::from_str(alloc, key)?;
    let value = TagText::from_str(alloc, value)?;
    tags.push(Tag { key, value })
}

fn add_member(
    alloc: Global,
    members: &mut Members,
    role: &str,
    kind: MemberKind,
    id: i64,
) -> Result<(), AllocError> {
    let role = TagText::from_str(alloc, role)?;
    members.push(Member { role, kind, id })
}

/// From way 1 through these ways, or node 5 where there are none, to way 2.
fn members_by(alloc: Global, ways: &[i64]) -> Result<Members, AllocError> {
    let mut members = Members::new(alloc);
    add_member(alloc, &mut members, "from", MemberKind::Way, 1)?;
    if ways.is_empty() {
        add_member(alloc, &mut members, "via", MemberKind::Node, 5)?;
    }
    for way in ways {
        add_member(alloc, &mut members, "via", MemberKind::Way, *way)?;
    }
    add_member(alloc, &mut members, "to", MemberKind::Way, 2)?;
    Ok(members)
}

/// The restriction with this id, these tags and these via ways.
fn add_relation(
    alloc: Global,
    relations: &mut Relations,
    id: i64,
    pairs: &[(&str, &str)],
    ways: &[i64],
) -> Result<(), AllocError> {
    relations.push(&OsmRelation {
        id,
        tags: tags_with(alloc, pairs)?,
        members: members_by(alloc, ways)?,
    })
}

/// Four restrictions.
fn some_relations(alloc: Global) -> Result<Relations, AllocError> {
    let mut relations = Relations::new(alloc);
    let hgv = [("restriction", "no_u_turn"), ("except", "psv; bicycle")];
    add_relation(alloc, &mut relations, -4, &hgv, &[])?;
    let when = [("restriction:conditional", "no_left_turn @ (wet)")];
    add_relation(alloc, &mut relations, 3, &when, &[])?;
    add_relation(
        alloc,
        &mut relations,
        7,
        &[("restriction:bus", "only_left_turn")],
        &[8, 6],
    )?;
    add_relation(alloc, &mut relations, 9, &[("restriction", "stop")], &[])?;
    Ok(relations)
}

/// Whether a row has these fields, and goes from way 1 to way 2.
fn is_row(row: &TurnRow, relation: i64, only: bool, u_turn: bool, modes: u16) -> bool {
    row.relation == relation
        && row.only == only
        && row.u_turn == u_turn
        && row.modes == modes
        && row.from.as_slice() == [1].as_slice()
        && row.to.as_slice() == [2].as_slice()
}

#[test]
fn restrictions_are_rows_or_skips(rt: HostRuntime) -> Result<(), Fail> {
    let alloc = rt.alloc();
    let relations = some_relations(alloc)?;
    let extract = Extract::of_lists(Nodes::new(alloc), Ways::new(alloc), relations);
    let turns = turn_rows(alloc, &extract.ok_or("no extract")?)?;
    let rows = turns.rows.as_slice();
    assert_eq!(rt; rows.len(), 2);
    assert!(rt; is_row(&rows[0], -4, false, true, 9));
    assert!(rt; matches!(&rows[0].via, Via::Node(5)));
    assert!(rt; is_row(&rows[1], 7, true, false, 64));
    assert!(rt; matches!(&rows[1].via, Via::Ways(ways) if ways.as_slice() == [8, 6].as_slice()));
    let skipped = turns.skipped.as_slice();
    assert_eq!(rt; skipped.len(), 2);
    assert!(rt; skipped[0].relation == 3 && skipped[0].reason == SkipReason::Conditional);
    assert!(rt; skipped[1].relation == 9 && skipped[1].reason == SkipReason::UnknownKind);
    Ok(())
}
