//! Information of a broadcast packet: eight bytes that follow the 188 bytes of a transport packet (after the
//! broadcast TS of ARIB STD-B31), before eight bytes FF.
//!
//! The layout is this project's own profile, not the standard's. The fields in order, each from its highest bit:
//!
//! | Field | Bits | Written |
//! |---|---|---|
//! | TMCC identifier | 2 | 10 |
//! | reserved | 1 | 1 |
//! | buffer reset | 1 | 0 |
//! | emergency switch-on | 1 | the tag's start-up bit |
//! | initialisation timing head | 1 | 1 in slot 0 of the first frame of an epoch |
//! | frame head | 1 | 1 in slot 0 |
//! | frame indicator | 1 | the tag's odd bit |
//! | layer indicator | 4 | 1, 2, 3 for the layers A, B, C; 0 for none |
//! | countdown | 4 | the tag's countdown |
//! | AC invalid | 1 | 1 |
//! | AC effective bytes | 2 | 11 |
//! | packet counter | 13 | the slot |
//! | AC data, or stuffing | 32 | ones |
//!
//! No call takes memory.
#![tactic(auto)]

mod bytes;
mod frame_tag;
mod info;
mod slot;

pub use bytes::{read, to_bytes};
pub use frame_tag::FrameTag;
pub use info::Info;
pub use slot::{info_of, layer_of};

#[cfg(test)]
mod tests;
