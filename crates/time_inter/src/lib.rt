//! Segments and time interleaving (ARIB STD-B31 chapter 3): one path for each carrier of a segment, late by up to 95 times
//! the interleaving length in symbols, the stage that undoes it, and the places of a layer's cells.
//!
//! A stage serves one segment, or the segments of a layer side by side (`LayerInter`, `LayerDeinter`). Its items are the
//! bits of cells, and a turn is the cells of one symbol. Memory is taken by `open` alone.
#![tactic(auto)]

mod cell_place;
mod laws;
mod layer_deinter;
mod layer_inter;
mod time_deinter;
mod time_inter;

pub use cell_place::{CellPlace, place};
pub use laws::{held_law, layer_partner_law, partner_law};
pub use layer_deinter::LayerDeinter;
pub use layer_inter::LayerInter;
pub use time_deinter::TimeDeinter;
pub use time_inter::TimeInter;

#[cfg(test)]
mod tests;
