//! Ways.
ghost use Rattle.std.specs.Prelude.{◌≡◌};
ghost use Rattle.osm_messages.specs.RawNumbers.{seen_raw_way};
ghost use Rattle.osm_objects.specs.Ways.{decoded_way};
ghost use Rattle.osm_objects.specs.Answers.{Answers};
ghost use Rattle.osm_objects.specs.Seen.{table_of, way_with};

use crate::fault::ObjectFault;
use crate::parts::{check_even, one_number};
use crate::sums::sum_up;
use crate::tags::read_tags;
use crate::texts::Texts;
use osm_messages::RawWay;
use osm_messages::fields::WAY_ID;
use osm_model::Tag;
use std::alloc::Global;

#[tactic(auto, unfolding(crate::specs::Ways::decoded_way))]
/// Decodes a way, whose first byte stands at `at`, and gives its id. Its tags and refs are put into the lists, in place
/// of what they held.
pub fn read_way(
    alloc: Global,
    texts: &mut Texts<'_>,
    at: u64,
    way: &RawWay<'_>,
    tags: &mut Vec<Tag>,
    refs: &mut Vec<i64>,
) -> Result<i64, ObjectFault>
    ensures way { Answers (λ id. way_with id tags.new.items refs.new.items) result (decoded_way (table_of texts.old) at (seen_raw_way way.now)) }
    ensures table { table_of texts.new ≡ table_of texts.old }
{
    let id = one_number(at, WAY_ID, way.id)?;
    check_even(at, way.keys, way.vals)?;
    sum_up(at, way.refs, refs)?;
    read_tags(alloc, texts, at, way.keys, way.vals, tags)?;
    Ok(id.cast_signed())
}
