//! What tags say of roads and of nodes: a small table of its own.

/// Tags of a way, whether it is a road, and the modes that may use it forward and backward.
const ROADS: [(&str, bool, u16, u16); 24] = [
    ("highway=motorway", true, 73, 0),
    ("highway=motorway;oneway=no", true, 73, 73),
    ("highway=motorway_link;oneway=yes", true, 73, 0),
    ("highway=trunk", true, 79, 79),
    ("highway=trunk;hgv=no", true, 71, 71),
    ("highway=primary", true, 79, 79),
    ("highway=primary;oneway=yes", true, 79, 2),
    ("highway=primary;junction=roundabout", true, 79, 2),
    ("highway=secondary", true, 79, 79),
    ("highway=secondary;oneway=-1;oneway:bicycle=no", true, 6, 79),
    ("highway=tertiary", true, 79, 79),
    ("highway=tertiary;bicycle=no", true, 75, 75),
    ("highway=tertiary;access=private", true, 0, 0),
    ("highway=unclassified;motor_vehicle=no", true, 6, 6),
    ("highway=residential", true, 79, 79),
    ("highway=residential;name=Elm Street", true, 79, 79),
    ("highway=residential;oneway=yes;oneway:bus=no", true, 79, 66),
    ("highway=service;access=no;bus=yes", true, 64, 64),
    ("highway=path", true, 6, 6),
    ("highway=footway", true, 2, 2),
    ("highway=cycleway;foot=no", true, 4, 4),
    ("highway=primary;area=yes", false, 0, 0),
    ("highway=raceway", false, 0, 0),
    ("name=Nowhere", false, 0, 0),
];

/// Tags of a node, the modes that may pass it, and whether it is a barrier.
const NODES: [(&str, u16, bool); 10] = [
    ("", 79, false),
    ("barrier=gate", 79, true),
    ("barrier=bollard", 6, true),
    ("barrier=gate;access=no", 0, true),
    ("barrier=stile", 2, true),
    ("barrier=bus_trap", 70, true),
    ("barrier=block;bus=yes", 70, true),
    ("barrier=gate;motor_vehicle=no", 6, true),
    ("access=no", 79, false),
    ("barrier=no", 79, false),
];

/// How many rows the table of ways has.
pub(crate) const ROAD_ROWS: u64 = 24;

/// The tags of the row with this number; of another number, those of no road.
pub(crate) fn road_tags(row: usize) -> &'static str {
    match ROADS.get(row) {
        Some((tags, _, _, _)) => tags,
        None => "",
    }
}

/// Whether a way of this row is a road.
pub(crate) fn is_road(row: usize) -> bool {
    match ROADS.get(row) {
        Some((_, is_road, _, _)) => *is_road,
        None => false,
    }
}

/// The modes that may use a way of this row in a direction.
pub(crate) fn road_modes(row: usize, forward: bool) -> u16 {
    match ROADS.get(row) {
        Some((_, _, ahead, back)) => { if forward { *ahead } else { *back } }
        None => 0,
    }
}

/// The tags of the row with this number; of another number none.
pub(crate) fn node_tags(row: usize) -> &'static str {
    match NODES.get(row) {
        Some((tags, _, _)) => tags,
        None => "",
    }
}

/// The modes that may pass a node of this row, or of none.
pub(crate) fn node_modes(row: usize) -> u16 {
    match NODES.get(row) {
        Some((_, modes, _)) => *modes,
        None => 79,
    }
}

/// Whether a node of this row is a barrier.
pub(crate) fn is_barrier(row: usize) -> bool {
    match NODES.get(row) {
        Some((_, _, barrier)) => *barrier,
        None => false,
    }
}
