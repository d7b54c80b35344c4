//! Tests of the files that `build` puts: tiles of small extracts, word by word.
#![tactic(auto)]

#[cfg(test)]
mod access;
#[cfg(test)]
mod barriers;
#[cfg(test)]
mod full;
#[cfg(test)]
mod level_borders;
#[cfg(test)]
mod levels;
#[cfg(test)]
mod names;
#[cfg(test)]
mod neighbours;
#[cfg(test)]
mod roads;
#[cfg(test)]
mod stars;
