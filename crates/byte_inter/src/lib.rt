//! Byte interleaving (ARIB STD-B31 chapter 3): twelve paths, of which path p is late by 17 * p turns, the
//! stage that undoes it, and the places of a layer's bytes.
//!
//! Memory is taken by `open` alone.
#![tactic(auto)]

mod byte_deinter;
mod byte_inter;
mod laws;

pub use byte_deinter::ByteDeinter;
pub use byte_inter::ByteInter;
pub use laws::{held_law, partner_law, place_law, receiver_law, sender_law};

#[cfg(test)]
mod tests;
