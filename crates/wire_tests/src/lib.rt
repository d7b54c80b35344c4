//! Tests of the wire format: numbers and fields of `wire_read`.
#![tactic(auto)]

#[cfg(test)]
mod fields;
#[cfg(test)]
mod numbers;
