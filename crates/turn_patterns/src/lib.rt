//! The patterns of turn restrictions, written in directed pieces.
#![tactic(auto)]

mod laws;

pub use laws::{
    first_pieces_rise, found_tells, matches_tell, node_answer, one_found, pieces_rise,
    row_numbers_tell, row_tests_decide, search_answers, search_rises, ways_answer, words_agree,
};
