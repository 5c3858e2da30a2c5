//! Parameters of an ISDB-T transmission: modes, guard intervals, the settings of the layers, plans of settings over
//! the frames, and the numbers that follow from them (ARIB STD-B31 chapter 3). Also the head of a frame of cells, which
//! says mode and guard interval in a layout of this project's own.
//!
//! Frames, symbols, segments, slots and packets are counted from 0. Only [`zeros`] takes memory.
#![tactic(auto)]

mod buffer;
mod epoch;
mod fault;
mod head;
mod kinds;
mod layer_numbers;
mod layer_setting;
mod memory;
mod numbers;
mod plan;
mod setting;
mod stream;
mod switch;

pub use buffer::{put, zeros};
pub use epoch::At;
pub use fault::PlanFault;
pub use head::{
    HEAD_BYTES, HeadFault, guard_byte, guard_in, head_of, mode_byte, mode_in, read_head,
};
pub use kinds::{DepthCode, Guard, Layer, Mode, Modulation, Rate};
pub use layer_numbers::{cells_of, packets_of};
pub use layer_setting::LayerSetting;
pub use memory::NoMemory;
pub use numbers::{
    BROADCAST_BYTES, SYMBOLS, adjust_of, bits_per_cell, carriers, depth_law, depth_of, frames_over,
    rate_pair, slots, symbol_clocks, symbol_size,
};
pub use plan::Plan;
pub use setting::{Setting, SettingFault};
pub use stream::{Form, Reading, Writing};

#[cfg(test)]
mod head_tests;
#[cfg(test)]
mod plan_tests;
#[cfg(test)]
mod tests;
