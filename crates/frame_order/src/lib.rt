//! Order of the packets of a frame: which slot of the frame bears which packet of which layer, and the bytes of the
//! frame's broadcast packets.
//!
//! The order follows the model receiver of ARIB STD-B31, in this project's own profile of it. A packet is complete
//! at the clock at which its last cell reaches the receiver. The packets stand in the order of these clocks, each in the
//! first slot that begins after its clock and after the packet before it, but no later than so that all packets after it
//! find a slot in the frame. A slot lasts 408 clocks. Slots that no layer has bear null packets; slot 0 is one of them.
//!
//! Slots of a frame, and packets of a layer in a frame, are counted from 0. Only [`order`] takes memory.
#![tactic(auto)]

mod bytes;
mod clocks;
mod frame_order;
mod laws;
mod layer_packets;
mod mark;

pub use frame_order::{FrameOrder, order};
pub use laws::{clock_law, rising_law, room_law};
pub use layer_packets::LayerPackets;
pub use mark::Mark;

#[cfg(test)]
mod tests;
