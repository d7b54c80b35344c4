//! Tests of what `build` refuses in the objects of a block, and of which of two faults it says.
#![tactic(auto)]

#[cfg(test)]
mod fault_orders;
#[cfg(test)]
mod faults;
#[cfg(test)]
mod too_large;
