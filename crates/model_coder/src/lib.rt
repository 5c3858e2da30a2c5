//! A second coder, for tests alone: the cells of a layer's packets by closed formulas.
//!
//! It shares no code and no definition with the coder that is proved, and has no contracts: it is a second, independent
//! computation of the same numbers. Packets, bytes, bits and cells are counted from the start of the stream, and each goes to
//! the place that its formula says, so nothing is held from one frame to the next. It is slow, and holds a whole stream.
#![tactic(auto)]

mod bits;
mod bytes;
mod cells;
mod outer_code;
mod places;
mod scale;

pub use bits::coded_bits;
pub use bytes::dispersal;
pub use cells::{Difference, first_difference};
pub use outer_code::OuterCode;
pub use places::{add_layer, layer_packets};
pub use scale::{LayerScale, Scale};
