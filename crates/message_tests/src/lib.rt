//! Tests of what `build` refuses in frames, headers, messages, texts and places.
#![tactic(auto)]

#[cfg(test)]
mod refusals;
#[cfg(test)]
mod texts_and_places;
#[cfg(test)]
mod wire_faults;
