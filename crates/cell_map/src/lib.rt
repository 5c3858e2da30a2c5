//! Carrier modulation: the cells of QPSK, 16QAM and 64QAM (ARIB STD-B31 chapter 3), without the normalising factor.
//!
//! The bits b0, b1, .. of a cell are the lowest two, four or six bits of a byte, b0 the highest of them. Those with even
//! numbers are of the axis I, those with odd numbers of the axis Q. Axis bits stand for these levels:
//!
//! | Modulation | 7 | 5 | 3 | 1 | -1 | -3 | -5 | -7 |
//! |---|---|---|---|---|---|---|---|---|
//! | QPSK | | | | 0 | 1 | | | |
//! | 16QAM | | | 00 | 01 | 11 | 10 | | |
//! | 64QAM | 000 | 001 | 011 | 010 | 110 | 111 | 101 | 100 |
//!
//! A received axis is read as its nearest level, of two as near the higher. No call takes memory.
#![tactic(auto)]

mod cell;
mod laws;
mod mapping;
mod tables;

pub use cell::Cell;
pub use laws::{nearest_law, read_back_law};
pub use mapping::{bits_of, cell_of};

#[cfg(test)]
mod tests;
