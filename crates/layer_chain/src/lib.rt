//! One layer of the chain, from its packets to its cells (ARIB STD-B31 chapter 3).
//!
//! A layer's packets come frame by frame, as many as the layer has in a frame. Of each the unit of 204 bytes is sent: its
//! codeword without the first byte, with the sequence of energy dispersal added, and the sync byte of the next. The
//! sequence begins anew at each frame. Delay adjustment, byte interleaving and the inner code make coded bits of the
//! units (`CodedLayer`); bit adjustment and interleaving, mapping, symbol adjustment and time interleaving make cells of
//! them (`LayerCoder`). Every delay line and the encoder begin with zeros at each epoch.
//!
//! At the receiving side (`LayerDecoder`) a layer's cells come symbol by symbol: from the bits that are read in them the inner
//! decoder decides the bits of each unit's outer word, and the packet of the codeword near this word is given out D frames
//! after its own.
//!
//! Memory is taken at `open` alone.
#![tactic(auto)]

mod adjusted;
mod bit_deinterleaver;
mod bit_paths;
mod cell_bits;
mod cell_numbers;
mod coded_layer;
mod coder_laws;
mod decided_bytes;
mod decoder_laws;
mod layer_coder;
mod layer_decoder;
mod outer_decoder;
mod symbol_reader;
mod units;

pub use coded_layer::CodedLayer;
pub use coder_laws::{
    bit_partner_law, cell_prefix_law, distinct_places_law, prefix_law, read_back_law,
};
pub use decoder_laws::{
    answer_law, clean_words_law, given_packet_law, near_answer_law, near_codeword_law, window_law,
};
pub use layer_coder::{Held, LayerCoder};
pub use layer_decoder::LayerDecoder;

#[cfg(test)]
mod cell_tests;
#[cfg(test)]
mod decoder_tests;
#[cfg(test)]
mod tests;
