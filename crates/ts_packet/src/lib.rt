//! Transport stream packets of 188 bytes (ISO/IEC 13818-1 2.4.3): their sync byte, packet identifier and transport
//! error indicator, and the null packet.
//!
//! No call takes memory.
#![tactic(auto)]

mod packet;

pub use packet::{NotSync, PACKET_BYTES, Packet, SYNC};

#[cfg(test)]
mod tests;
