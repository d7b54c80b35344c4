//! One pass over the tags of an object, which finds the first tag of each known key. Nothing else goes over
//! tags.

ghost use Rattle.std.specs.Prelude.{◌≡◌, ◌<◌};
ghost use Rattle.std.specs.Option.{option_copied};
ghost use Rattle.osm_model.specs.Tags.{value_of};
ghost use Rattle.way_tags.specs.KnownKeys.{ArePlaces, known_key};

use crate::known_keys::{KEY_COUNT, SLOTS, key_number};
use osm_model::TagsView;

/// For each known key where its first tag stands, or the number of tags where no tag has it; and one place
/// more, for the other keys.
pub(crate) type Places = [usize; SLOTS];

/// The places of the known keys. The pass is from the last tag to the first, so the first tag of a key counts.
pub(crate) fn places_of(tags: &TagsView<'_>) -> Places
    ensures { ArePlaces tags.now 0 result }
{
    let count = tags.len();
    let mut places = [count; SLOTS];
    let mut i = count;
    while i > 0 {
        i -= 1;
        places[key_number(tags.at(i).key())] = i;
    }
    places
}

/// The value of the first tag with the known key of that number.
pub(crate) fn value_at<'a>(tags: &TagsView<'a>, places: &Places, number: usize) -> Option<&'a str>
    requires places { ArePlaces tags.now 0 places.now }
    requires known { number < KEY_COUNT }
    ensures { option_copied result ≡ value_of (known_key number) tags.now }
{
    let place = places[number];
    if place < tags.len() {
        Some(tags.at(place).value())
    } else {
        None
    }
}
