//! The keys that say what a restriction is.

ghost use Rattle.std.specs.Prelude.{◌≡◌};
ghost use Rattle.std.specs.Option.{option_copied};
ghost use Rattle.std.specs.List.{list_any};
ghost use Rattle.way_tags.specs.Modes.{word_of};
ghost use Rattle.osm_restrictions.specs.Keys.{is_restriction, deciding_value, is_spoken_of, is_conditional_key, is_conditional};

use osm_model::TagsView;
use way_tags::{AUTO, BICYCLE, BUS, TRUCK, VEHICLES};

/// Whether a relation is a restriction of turns.
pub(crate) fn is_restriction(tags: &TagsView<'_>) -> bool
    ensures { result ≡ is_restriction tags.now }
{
    match tags.value("type") {
        Some(kind) => kind == "restriction",
        None => false,
    }
}

/// The value of the key that decides.
pub(crate) fn deciding_value<'a>(tags: &TagsView<'a>) -> Option<&'a str>
    ensures { option_copied result ≡ deciding_value tags.now }
{
    if let Some(value) = tags.value("restriction") {
        return Some(value);
    }
    if let Some(value) = tags.value("restriction:motorcar") {
        return Some(value);
    }
    if let Some(value) = tags.value("restriction:hgv") {
        return Some(value);
    }
    if let Some(value) = tags.value("restriction:bus") {
        return Some(value);
    }
    tags.value("restriction:bicycle")
}

/// The modes of which the key that decides speaks.
pub(crate) fn spoken_modes(tags: &TagsView<'_>) -> u16
    ensures { result ≡ word_of (is_spoken_of tags.now) }
{
    if tags.value("restriction").is_some() {
        VEHICLES
    } else if tags.value("restriction:motorcar").is_some() {
        AUTO
    } else if tags.value("restriction:hgv").is_some() {
        TRUCK
    } else if tags.value("restriction:bus").is_some() {
        BUS
    } else if tags.value("restriction:bicycle").is_some() {
        BICYCLE
    } else {
        0
    }
}

/// Whether a restriction is told under a condition alone.
pub(crate) fn is_conditional(tags: &TagsView<'_>) -> bool
    ensures { result ≡ is_conditional tags.now }
{
    deciding_value(tags).is_none() && has_conditional_key(tags)
}

/// Whether a tag speaks of a restriction under a condition.
fn has_conditional_key(tags: &TagsView<'_>) -> bool
    ensures { result ≡ list_any (λ tag. is_conditional_key tag.key) tags.now }
{
    for i in 0..tags.len() {
        if is_conditional_key(tags.at(i).key()) {
            return true;
        }
    }
    false
}

/// Whether a key speaks of a restriction under a condition.
fn is_conditional_key(key: &str) -> bool
    ensures { result ≡ is_conditional_key key.now }
{
    key.starts_with("restriction") && key.ends_with(":conditional")
}
