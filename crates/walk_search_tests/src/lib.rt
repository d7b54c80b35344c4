//! Walks over the bytes of the files that `build` puts, beside walks over the segments of the extract: two slow searches
//! that stand apart from the program and from one another, and agree on extracts that are drawn at random.
#![tactic(auto)]

#[cfg(test)]
mod bits;
#[cfg(test)]
mod comparison;
#[cfg(test)]
mod dice;
#[cfg(test)]
mod draws;
#[cfg(test)]
mod read_graph;
#[cfg(test)]
mod road_search;
#[cfg(test)]
mod steps;
#[cfg(test)]
mod tag_table;
#[cfg(test)]
mod tile_search;
