//! What the tags of OpenStreetMap say of roads: which way is a road and of which class, who may use it in
//! which direction, who may pass a node, and how a way is named.
#![tactic(auto)]

mod access;
mod directions;
mod found;
mod highways;
mod known_keys;
mod law;
mod modes;
mod naming;
mod nodes;
mod ways;

pub use directions::{Dir, Oneway};
pub use law::open_node_law;
pub use modes::{ALL, AUTO, BICYCLE, BUS, PEDESTRIAN, TRUCK, VEHICLES};
pub use naming::names;
pub use nodes::{is_barrier, node_access};
pub use ways::{RoadTags, access_of, class_of, oneway_of, read_road};
