//! The tiles of a stage, shared by threads: three atomic words and a slot for each, and seats that claim, take, mark and give
//! back tiles in single steps. No call but `new` and `look` takes memory, and none waits.
#![tactic(auto)]

mod aim;
mod answer;
mod claims;
mod closing;
mod events;
mod locks;
mod opening;
mod plays;
mod ranges;
mod rule;
mod seat;
mod table;
mod view;

pub use answer::{Busy, Claim, Unseen};
pub use events::steps_are_events;
pub use seat::{Closed, Seat, Turn};
pub use table::TileTable;
pub use view::{Hand, View};
