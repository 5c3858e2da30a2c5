//! The outer code: bytes as the field of 256 elements, and shortened Reed-Solomon codes over it, both ways
//! (ARIB STD-B31 chapter 3: 188 bytes of data and 16 of parity).
//!
//! A byte is a polynomial over two elements, its top bit at x^7, taken modulo x^8 + x^4 + x^3 + x^2 + 1; λ is the byte
//! 02 hex. A word is a polynomial over this field, its first byte at the highest power. It is a codeword for so many roots
//! where it vanishes at λ^0, λ^1 and so on. Words have at most 255 bytes.
//!
//! No call takes memory.
#![tactic(auto)]

mod correction;
mod field;
mod generator;
mod laws;
mod locator;
mod nearest;
mod products;
mod register;
mod rs;
mod syndromes;
mod tables;

pub use field::Gf;
pub use laws::{codeword_law, field_law, near_law, power_law, root_count_law};
pub use nearest::Nearest;
pub use rs::Rs;

#[cfg(test)]
mod tests;
