//! Energy dispersal: the pseudo-random sequence that is added to the bytes that are sent, so that no long runs of equal
//! bits go out (ARIB STD-B31 chapter 3).
//!
//! Bit n of the sequence is the sum modulo 2 of the bits 14 and 15 places before it, and the fifteen bits before bit 0
//! are 1 0 0 1 0 1 0 1 0 0 0 0 0 0 0, the newest first. Byte b is bits 8b to 8b + 7, the first highest.
//!
//! No call takes memory.
#![tactic(auto)]

mod laws;
mod prbs;

pub use laws::recurrence_law;
pub use prbs::Prbs;

#[cfg(test)]
mod tests;
