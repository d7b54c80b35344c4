//! The infos of a tile: an entry for each piece of a road, with its shape and the places of its names among the texts,
//! and these texts. Both ways: written, and read with the first check that fails.
#![tactic(auto)]

mod entries;
mod infos;
mod laws;
mod order;
mod padding;
mod sets;
mod starts;
mod texts;
mod writes;

pub use entries::read_entries;
pub use infos::{Info, InfoFault, InfoSet, InfoView, Infos, TextPlaces, Texts};
pub use laws::{entries_law, infos_law, padding_law, texts_law};
pub use padding::read_padding;
pub use sets::{read_infos, write_infos};
pub use starts::{entry_starts, is_start};
pub use texts::read_texts;
pub use writes::{push_infos, push_texts, texts_size};
