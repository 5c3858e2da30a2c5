//! The inner code: a convolutional code of mother rate 1/2, punctured to the rate of a layer (ARIB STD-B31 chapter 3).
//!
//! Each input bit is a step of the mother code. It has two outputs: X, the sum modulo 2 of the step's bit and of the bits
//! 1, 2, 3 and 6 steps before (171 octal), and Y, of the step's bit and of the bits 2, 3, 5 and 6 steps before (133
//! octal). Zero bits stand before the first. Of each k steps of rate k/n these n outputs are sent, in this order:
//!
//! | Rate | Sent |
//! |---|---|
//! | 1/2 | X1 Y1 |
//! | 2/3 | X1 Y1 Y2 |
//! | 3/4 | X1 Y1 Y2 X3 |
//! | 5/6 | X1 Y1 Y2 X3 Y4 X5 |
//! | 7/8 | X1 Y1 Y2 Y3 Y4 X5 Y6 X7 |
//!
//! The inputs are the bits of bytes, the highest first. No call takes memory.
#![tactic(auto)]

mod encoder;
mod laws;
mod mother_code;
mod pattern;
mod puncture;

pub use encoder::Encoder;
pub use laws::{count_law, prefix_law, uniqueness_law};
pub use pattern::coded_len;

#[cfg(test)]
mod tests;
