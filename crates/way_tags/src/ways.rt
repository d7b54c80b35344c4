//! What the tags of a way say.

ghost use Rattle.std.specs.Prelude.{◌≡◌, ◌<◌, ◌↔◌, ◌||◌, Some, option_map, bit_and, [], ◌∷◌, codes, if◌then◌else◌};
ghost use Rattle.way_tags.specs.declared.directions.Oneway.TheVariants as ways;
ghost use Rattle.way_tags.specs.declared.directions.Dir.TheVariants as dirs;
ghost use Rattle.way_tags.specs.Modes.{Mode, HasMode, word_of, is_listed};
ghost use Rattle.way_tags.specs.Values.{has_value_among};
ghost use Rattle.way_tags.specs.Oneways.{oneway_by_tags, is_along, is_exempt};
ghost use Rattle.way_tags.specs.Ways.{road_row, road_class, road_access, Permits, is_open};
ghost use Rattle.way_tags.specs.KnownKeys.{ArePlaces, known_key};

use crate::access::decided_modes;
use crate::directions::{Dir, Oneway};
use crate::found::{Places, places_of, value_at};
use crate::highways::{Road, road_of};
use crate::known_keys::{
    AREA, HIGHWAY, JUNCTION, KEY_COUNT, ONEWAY, ONEWAY_BICYCLE, ONEWAY_BUS, ONEWAY_PSV,
};
use crate::modes::{ALL, BICYCLE, BUS, PEDESTRIAN};
use osm_model::TagsView;

/// The class of a way, from 0, motorway, to 7. A way without a class is no road.
pub fn class_of(tags: &TagsView<'_>) -> Option<u8>
    ensures { result ≡ road_class tags.now }
{
    match road(tags, &places_of(tags)) {
        Some(road) => Some(road.class),
        None => None,
    }
}

/// In which directions a way is used.
pub fn oneway_of(tags: &TagsView<'_>) -> Oneway
    ensures { result ≡ oneway_by_tags tags.now }
{
    oneway(tags, &places_of(tags))
}

/// The modes that may use a way in a direction, as bits: none where the way is no road.
pub fn access_of(tags: &TagsView<'_>, direction: Dir) -> u16
    ensures word { result ≡ road_access tags.now direction }
    ensures modes { (mode : Mode) → HasMode result mode ↔ Permits tags.now direction mode }
    ensures within { bit_and result ALL ≡ result }
{
    let places = places_of(tags);
    let open = open_modes(tags, &places);
    open & modes_along(tags, &places, direction)
}

/// A road by the tags of its way: its class, and the modes that may use it in each direction.
#[derive(Clone, Copy, Debug, PartialEq, Eq)]
pub struct RoadTags {
    pub class: u8,
    pub forward: u16,
    pub backward: u16,
}

/// What `class_of` and `access_of` answer, with one pass over the tags: none where the way is no road.
pub fn read_road(tags: &TagsView<'_>) -> Option<RoadTags>
    ensures { result ≡ option_map (λ class. record { class = class; forward = road_access tags.now dirs.Forward; backward = road_access tags.now dirs.Backward }) (road_class tags.now) }
{
    let places = places_of(tags);
    match road(tags, &places) {
        Some(road) => Some(RoadTags {
            class: road.class,
            forward: used_modes(tags, &places, road, Dir::Forward),
            backward: used_modes(tags, &places, road, Dir::Backward),
        }),
        None => None,
    }
}

/// The modes that may use this road in a direction.
fn used_modes(tags: &TagsView<'_>, places: &Places, road: Road, direction: Dir) -> u16
    requires places { ArePlaces tags.now 0 places.now }
    requires road { Some road ≡ option_map (λ row. record { class = row.class; modes = word_of (is_listed row.modes) }) (road_row tags.now) }
    ensures { result ≡ road_access tags.now direction }
{
    let open = decided_modes(tags, places, road.modes);
    open & modes_along(tags, places, direction)
}

/// The road that a way is.
fn road(tags: &TagsView<'_>, places: &Places) -> Option<Road>
    requires { ArePlaces tags.now 0 places.now }
    ensures { result ≡ option_map (λ row. record { class = row.class; modes = word_of (is_listed row.modes) }) (road_row tags.now) }
{
    if says(tags, places, AREA, "yes") {
        return None;
    }
    match value_at(tags, places, HIGHWAY) {
        Some(highway) => road_of(highway),
        None => None,
    }
}

/// The modes to which a road is open in the directions in which it is used.
fn open_modes(tags: &TagsView<'_>, places: &Places) -> u16
    requires { ArePlaces tags.now 0 places.now }
    ensures { result ≡ word_of (is_open tags.now) }
{
    match road(tags, places) {
        Some(road) => decided_modes(tags, places, road.modes),
        None => 0,
    }
}

/// The modes that may go along a way in a direction, if it is open to them.
fn modes_along(tags: &TagsView<'_>, places: &Places, direction: Dir) -> u16
    requires { ArePlaces tags.now 0 places.now }
    ensures { result ≡ word_of (λ mode. is_along (oneway_by_tags tags.now) direction || is_exempt tags.now mode) }
{
    if along(oneway(tags, places), direction) {
        ALL
    } else {
        exempt_modes(tags, places)
    }
}

/// In which directions a way is used, by the first rule that holds.
fn oneway(tags: &TagsView<'_>, places: &Places) -> Oneway
    requires { ArePlaces tags.now 0 places.now }
    ensures { result ≡ oneway_by_tags tags.now }
{
    match value_at(tags, places, ONEWAY) {
        Some("yes" | "true" | "1") => Oneway::Forward,
        Some("-1" | "reverse") => Oneway::Backward,
        Some("no" | "false" | "0") => Oneway::Both,
        _ => oneway_otherwise(tags, places),
    }
}

/// In which directions a way is used of which the key `oneway` says nothing.
fn oneway_otherwise(tags: &TagsView<'_>, places: &Places) -> Oneway
    requires { ArePlaces tags.now 0 places.now }
    ensures { result ≡ (if has_value_among tags.now (codes "junction") (codes "roundabout" ∷ codes "circular" ∷ []) then ways.Forward else if has_value_among tags.now (codes "highway") (codes "motorway" ∷ []) then ways.Forward else ways.Both) }
{
    if says(tags, places, JUNCTION, "roundabout")
        || says(tags, places, JUNCTION, "circular")
        || says(tags, places, HIGHWAY, "motorway")
    {
        Oneway::Forward
    } else {
        Oneway::Both
    }
}

/// Whether a way is used in a direction.
fn along(oneway: Oneway, direction: Dir) -> bool
    ensures { result ≡ is_along oneway direction }
{
    match (oneway, direction) {
        (Oneway::Both, _) => true,
        (Oneway::Forward, Dir::Forward) | (Oneway::Backward, Dir::Backward) => true,
        _ => false,
    }
}

/// The modes that needn't heed that a way is used in one direction.
fn exempt_modes(tags: &TagsView<'_>, places: &Places) -> u16
    requires { ArePlaces tags.now 0 places.now }
    ensures { result ≡ word_of (is_exempt tags.now) }
{
    let bicycle = if says(tags, places, ONEWAY_BICYCLE, "no") {
        BICYCLE
    } else {
        0
    };
    let bus = if says(tags, places, ONEWAY_BUS, "no") || says(tags, places, ONEWAY_PSV, "no") {
        BUS
    } else {
        0
    };
    PEDESTRIAN | bicycle | bus
}

/// Whether the known key of that number is there with that value.
fn says(tags: &TagsView<'_>, places: &Places, number: usize, value: &str) -> bool
    requires places { ArePlaces tags.now 0 places.now }
    requires known { number < KEY_COUNT }
    ensures { result ≡ has_value_among tags.now (known_key number) (value.now ∷ []) }
{
    match value_at(tags, places, number) {
        Some(found) => found == value,
        None => false,
    }
}
