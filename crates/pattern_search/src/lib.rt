//! Searches over words that are read member by member, and their laws.
#![tactic(auto)]

mod behind;
mod laws;
mod marks;
mod spelling;
mod stepping;

pub use behind::{Place, make_table, one_more};
pub use laws::{
    firsts_tell, most_tells, numbers_tell, renamed_words, rests_tell, rising_is_short, sets_tell,
    steps_tell, table_tells, tests_are_right, words_tell,
};
pub use marks::raise;
pub use spelling::{Readable, find_words, spell};
pub use stepping::next_members;
