//! The tags of access.

ghost use Rattle.std.specs.Prelude.{◌≡◌, ◌<◌, Bool, option_and_then};
ghost use Rattle.osm_model.specs.Tags.{value_of};
ghost use Rattle.way_tags.specs.Modes.{Mode, word_of};
ghost use Rattle.way_tags.specs.Access.{decision, keys_of, meaning, without_leave};
ghost use Rattle.way_tags.specs.KnownKeys.{ArePlaces, known_key};

use crate::found::{Places, value_at};
use crate::known_keys::{
    ACCESS, BICYCLE_KEY, BUS_KEY, FOOT, HGV, KEY_COUNT, MOTOR_VEHICLE, MOTORCAR, PSV, VEHICLE,
};
use crate::modes::{
    ALL, AUTO, BICYCLE, BUS, MOTOR_VEHICLES, PEDESTRIAN, TRUCK, VEHICLES, overridden,
};
use osm_model::TagsView;

/// The modes after the tags of access, where these modes are the default: from the key that is tried last for
/// a mode to that which is tried first.
pub(crate) fn decided_modes(tags: &TagsView<'_>, places: &Places, default: u16) -> u16
    requires { ArePlaces tags.now 0 places.now }
    ensures { (f : Mode → Bool) → default ≡ word_of f → result ≡ word_of (λ mode. decision tags.now (keys_of mode) (f mode)) }
{
    let refused = refusal(verdict(tags, places, ACCESS));
    let word = overridden(default, ALL, refused);
    let word = overridden(word, VEHICLES, verdict(tags, places, VEHICLE));
    let word = overridden(word, MOTOR_VEHICLES, verdict(tags, places, MOTOR_VEHICLE));
    let word = overridden(word, AUTO, verdict(tags, places, MOTORCAR));
    let word = overridden(word, TRUCK, verdict(tags, places, HGV));
    let word = overridden(word, BUS, verdict(tags, places, PSV));
    let word = overridden(word, BUS, verdict(tags, places, BUS_KEY));
    let word = overridden(word, BICYCLE, verdict(tags, places, BICYCLE_KEY));
    overridden(word, PEDESTRIAN, verdict(tags, places, FOOT))
}

/// What the known key of that number says: that its modes may, that they may not, or nothing.
fn verdict(tags: &TagsView<'_>, places: &Places, number: usize) -> Option<bool>
    requires places { ArePlaces tags.now 0 places.now }
    requires known { number < KEY_COUNT }
    ensures { result ≡ option_and_then meaning (value_of (known_key number) tags.now) }
{
    match value_at(tags, places, number) {
        Some(value) => verdict_of(value),
        None => None,
    }
}

/// What a value says.
fn verdict_of(value: &str) -> Option<bool>
    ensures { result ≡ meaning value.now }
{
    match value {
        "no" | "private" | "agricultural" | "forestry" | "use_sidepath" | "dismount" => Some(false),
        "yes"
        | "designated"
        | "permissive"
        | "destination"
        | "customers"
        | "delivery"
        | "official"
        | "public" => Some(true),
        _ => None,
    }
}

/// A verdict without a permission.
fn refusal(verdict: Option<bool>) -> Option<bool>
    ensures { result ≡ without_leave verdict }
{
    match verdict {
        Some(false) => Some(false),
        _ => None,
    }
}
