//! Cells of a symbol spread over its segments: a profile of this project's own, after the standard's frequency
//! interleaving (ARIB STD-B31 chapter 3), without its randomising. No command uses it yet: it is for users of the library.
//!
//! Where the partial reception flag is set, segment 0 is a section by itself and segments 1 to 12 are one; else all 13
//! are one section. The cells of a section are numbered from 0, segment after segment, and in it carrier after carrier.
//! They are dealt to its segments in turn, and those of segment p are then rotated by p carriers: in a section of M
//! segments from segment f on, cell x goes to segment p = f + x mod M, carrier (x div M + p) mod n, n being the mode's
//! carriers of a segment.
//!
//! The cells of a symbol are a slice of 13 * n cells, by segment and then by carrier. No call takes memory, and none
//! refuses.
#![tactic(auto)]

mod laws;
mod numbers;
mod section;
mod spreading;

pub use laws::{inverse_law, neighbour_law, one_to_one_law, stay_law};
pub use spreading::{gather, spread, spread_place};

#[cfg(test)]
mod tests;
