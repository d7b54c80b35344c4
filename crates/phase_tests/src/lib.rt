//! Tests of `phase_run`: phases by one worker and by many.
#![tactic(auto)]

#[cfg(test)]
mod phases;
