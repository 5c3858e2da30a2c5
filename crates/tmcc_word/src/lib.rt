//! TMCC words (ARIB STD-B31 chapter 3): the control word of a frame, 204 bits, one for each symbol.
//!
//! | Bits | Contents | Written |
//! |---|---|---|
//! | B0 | reference | 0 |
//! | B1 to B16 | sync word | 0011010111101110 in even frames, 1100101000010001 in odd frames |
//! | B17 to B19 | segment type | 000 |
//! | B20, B21 | system | 00 |
//! | B22 to B25 | countdown | the record's countdown |
//! | B26 | start-up | the record's start-up bit |
//! | B27 | partial reception, now | the setting's flag |
//! | B28 to B66 | layers A, B, C now, 13 bits each | layer fields |
//! | B67 to B106 | the next setting, likewise | its bits, or ones where there is none |
//! | B107 to B121 | reserved | ones |
//! | B122 to B203 | parity | the shortened (184,102) difference-set cyclic code over B20 to B121 |
//!
//! A layer field is modulation (3 bits: 1, 2, 3 for QPSK, 16QAM, 64QAM), inner rate (3 bits: 0 to 4), time interleaving
//! length (3 bits: 0 to 3) and segments (4 bits). A layer that is not used has 13 ones. Numbers stand highest bit first.
//!
//! Bits B20 to B121 are the information of the word: they are also written and read by themselves, without the rest.
//!
//! No call takes memory, and none fails for any 204 bits. Frames are even or odd by their number, counted from 0.
#![tactic(auto)]

mod bits;
mod codes;
mod cyclic_code;
mod fault;
mod info;
mod laws;
mod layer_bits;
mod reading;
mod writing;

pub use cyclic_code::parity;
pub use fault::TmccFault;
pub use info::TmccInfo;
pub use laws::{info_law, parity_law, reading_law, word_law};
pub use reading::{read_info, read_word};
pub use writing::{info_bits, word_of};

#[cfg(test)]
mod tests;
