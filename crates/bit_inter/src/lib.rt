//! Bit interleaving (ARIB STD-B31 chapter 3): one path for each bit of a cell, late by up to 120 cells,
//! the stage that undoes it, and the places of a layer's coded bits.
//!
//! Memory is taken by `open` alone.
#![tactic(auto)]

mod bit_deinter;
mod bit_inter;
mod laws;

pub use bit_deinter::BitDeinter;
pub use bit_inter::BitInter;
pub use laws::{held_law, partner_law, place_law, receiver_law, sender_law};

#[cfg(test)]
mod tests;
