//! Tests of the parts of a tile file: bit fields, sections, records and infos, with bytes counted by hand.
#![tactic(auto)]

#[cfg(test)]
mod infos;
#[cfg(test)]
mod records;
#[cfg(test)]
mod sections;
#[cfg(test)]
mod words;
