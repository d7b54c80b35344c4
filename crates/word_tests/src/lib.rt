//! Tests of the words of a command line and of the texts of a build: `command_words` and `build_report`.
#![tactic(auto)]

#[cfg(test)]
mod commands;
#[cfg(test)]
mod texts;
