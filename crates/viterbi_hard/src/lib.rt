//! The inner decoder: the input bits of the inner code from bits that were read, of which some may be wrong
//! (ARIB STD-B31 chapter 3; the coded bits of `conv_punct`).
//!
//! The cost of a list of input bits is the count of places where its coded bits differ from the bits that were read. The
//! least path over n steps is the list of n bits of least cost; among lists of equal cost the one that is first when read
//! from the newest bit back, 0 before 1. Decided bit b is bit b of the least path over the first b + 128 steps: it waits for
//! 127 further steps, the traceback window. So after n steps in all n - 127 bits are decided, or none.
//!
//! The least path is found by the algorithm of Viterbi. The six newest bits of a path are its trellis state, one of 64. Of
//! all paths that end in a state the decoder keeps the least, the state's survivor, and its cost, the state's path metric;
//! a step goes on from the survivors of the two states before (add, compare, select). Metrics stand in 64 lanes of a byte
//! each, and beside each a tag that says where the survivor was at the last boundary, one each eight steps; so a step is some
//! dozens of vector instructions.
//!
//! At a boundary the tags are a map from lane to lane, and no survivor is moved. Maps are composed back until all lanes lead to
//! one: the bits before are then those of the least path at every later step, and no least metric is searched for.
//!
//! No call takes memory.
#![tactic(auto)]

mod blocks;
mod decoder;
mod kept;
mod lanes;
mod laws;
mod least;
mod maps;
mod received;

pub use decoder::Decoder;
pub use laws::{clean_law, least_path_law, window_law};

#[cfg(test)]
mod search;
#[cfg(test)]
mod tests;
