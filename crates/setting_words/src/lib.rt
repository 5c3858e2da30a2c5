//! The word of a setting, read and written, and the lines that list the frames of a stream.
//!
//! A setting is one word: the layers with commas between them, the fields of each with colons, as
//! `A:1:qpsk:2/3:4:partial,B:12:64qam:3/4:2`. The last field of a layer is its time interleaving length in symbols, one of
//! the four of the transmission mode: so a word is read and written in a mode, and the same word may spell other
//! parameters in another mode.
//!
//! Texts are written into fixed room, and no call takes memory.
#![tactic(auto)]

mod fields;
mod laws;
mod lines;
mod reading;
mod writing;

pub use fields::{guard_of, mode_of};
pub use laws::setting_law;
pub use lines::{BtsLine, CellsLine, Line, bts_line, cells_line};
pub use reading::setting_of;
pub use writing::{SettingWord, setting_word};

#[cfg(test)]
mod tests;
