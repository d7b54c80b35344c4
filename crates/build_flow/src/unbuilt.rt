//! Objects of an extract that aren't built yet.

ghost use Rattle.std.specs.Prelude.{◌≡◌};
ghost use Rattle.osm_restrictions.specs.Keys.{is_restriction};
ghost use Rattle.build_flow.specs.Unbuilt.{first_restriction, unbuilt};

use osm_model::{Extract, Relations, TagsView};

/// The id of the first object that isn't built yet, of a relation with `type=restriction`.
pub fn first_unbuilt(extract: &Extract) -> Option<i64>
    ensures { result ≡ unbuilt extract.now }
{
    first_restriction(&extract.relations)
}

/// Whether a relation with these tags is a turn restriction.
fn is_restriction(tags: &TagsView<'_>) -> bool
    ensures { result ≡ is_restriction tags.now }
{
    match tags.value("type") {
        Some(kind) => kind == "restriction",
        None => false,
    }
}

/// The id of the first turn restriction.
fn first_restriction(relations: &Relations) -> Option<i64>
    ensures { result ≡ first_restriction relations.now }
{
    for i in 0..relations.len() {
        let relation = relations.at(i);
        if is_restriction(relation.tags()) {
            return Some(relation.id());
        }
    }
    None
}
