//! The values of `highway` and of `barrier`.

ghost use Rattle.std.specs.Prelude.{◌≡◌, option_map};
ghost use Rattle.way_tags.specs.Modes.{word_of, is_listed};
ghost use Rattle.way_tags.specs.Highways.{highway_row};
ghost use Rattle.way_tags.specs.Nodes.{barrier_modes};

use crate::modes::{ALL, BICYCLE, BUS, MOTOR_VEHICLES, PEDESTRIAN};

/// The class of a road, and the modes that may use it where no tag of access says otherwise.
#[derive(Clone, Copy, Debug)]
pub(crate) struct Road {
    pub class: u8,
    pub modes: u16,
}

/// The road of a value of `highway`.
pub(crate) fn road_of(highway: &str) -> Option<Road>
    ensures { result ≡ option_map (λ row. record { class = row.class; modes = word_of (is_listed row.modes) }) (highway_row highway.now) }
{
    let (class, modes) = match highway {
        "motorway" | "motorway_link" => (0, MOTOR_VEHICLES),
        "trunk" | "trunk_link" => (1, ALL),
        "primary" | "primary_link" => (2, ALL),
        "secondary" | "secondary_link" => (3, ALL),
        "tertiary" | "tertiary_link" => (4, ALL),
        "unclassified" => (5, ALL),
        "residential" => (6, ALL),
        "living_street" | "service" | "road" => (7, ALL),
        "track" | "path" | "cycleway" => (7, PEDESTRIAN | BICYCLE),
        "footway" | "pedestrian" | "steps" | "bridleway" => (7, PEDESTRIAN),
        _ => return None,
    };
    Some(Road { class, modes })
}

/// The modes that pass a barrier with that value where no tag of access says otherwise.
pub(crate) fn modes_at_barrier(barrier: &str) -> u16
    ensures { result ≡ word_of (is_listed (barrier_modes barrier.now)) }
{
    match barrier {
        "bollard" | "block" | "cycle_barrier" => PEDESTRIAN | BICYCLE,
        "bus_trap" => PEDESTRIAN | BICYCLE | BUS,
        "stile" | "turnstile" | "kissing_gate" => PEDESTRIAN,
        _ => ALL,
    }
}
