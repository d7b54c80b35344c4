//! How a way is named.

ghost use Rattle.std.specs.Prelude.{◌≡◌, IfOk};
ghost use Rattle.way_tags.specs.Names.{road_names};

use crate::found::{places_of, value_at};
use crate::known_keys::{NAME, REF};
use osm_model::{Names, TagText, TagsView};
use std::alloc::{AllocError, Global};

/// The names of a way: the value of `name`, then that of `ref`, each where it is there and not empty, and the
/// same text once.
pub fn names(alloc: Global, tags: &TagsView<'_>) -> Result<Names, AllocError>
    ensures { IfOk result (λ names. names ≡ road_names tags.now) }
{
    let places = places_of(tags);
    let name = value_at(tags, &places, NAME).filter(|text| !text.is_empty());
    let reference = value_at(tags, &places, REF).filter(|text| !text.is_empty());
    let mut names = Names::new(alloc);
    if let Some(name) = name {
        names.push(TagText::from_str(alloc, name)?)?;
    }
    if let Some(reference) = reference
        && name != Some(reference)
    {
        names.push(TagText::from_str(alloc, reference)?)?;
    }
    Ok(names)
}
