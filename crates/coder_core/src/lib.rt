//! The channel coder: frames of broadcast packets into cells and TMCC bits (ARIB STD-B31 chapter 3).
//!
//! `code` runs over a stream of broadcast packets with a plan: it looks for the first frame head, and from there on reads,
//! checks, codes and writes frame after frame, with another coder from each switch on, in either version of the stream of
//! cells. `show_bts` runs over such a stream and writes a line for each frame. `Coder` codes the frames of one epoch, and
//! `check_frame` says whether the packets of a frame can be coded with a setting.
#![tactic(auto)]

mod buffers;
mod check;
mod coder;
mod coding;
mod fault;
mod frames;
mod laws;
mod layer_packets;
mod layer_part;
mod reading;
mod search;
mod showing;
mod symbols;

pub use check::check_frame;
pub use coder::Coder;
pub use coding::code;
pub use fault::CodeFault;
pub use frames::word_at;
pub use laws::{cells_law, word_law};
pub use layer_packets::gather;
pub use showing::show_bts;

#[cfg(test)]
mod tests;
