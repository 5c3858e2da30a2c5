//! The receivers: cells of a broadcast back into packets.
//!
//! Three commands work over a stream of cells, each frame after frame. [`receive`] writes broadcast packets, with the packets
//! of each layer put off by its delay. [`receive_partial`] writes layer A's packets alone: partial reception, from segment 0
//! and the TMCC words. [`show_cells`] writes a line for each frame, which tells what its word says.
//!
//! A receiver knows the mode and the guard interval from its caller or, in version 2 of the stream, from the head of each
//! frame, and all else from the stream: the TMCC word of each frame says the setting, and the countdown of the words where an
//! epoch ends. Frame after frame is read, checked, received and written, and each symbol is worked on as it is read. At each
//! epoch a new [`Receiver`] begins, or a new [`PartialReceiver`].
//!
//! What is given out is a definition for any stream, and so is which frames are refused, and why: frames that are
//! unfinished or past the limit, heads and words that are refused, and for packets also a sync word that is that of the frame
//! before, a setting that wasn't announced, and in partial reception one without its flag. Each answer of a command says by
//! these definitions what of the stream was written and taken.
//!
//! The laws say of which streams these are the packets that were sent, and that none of their frames is refused. And the
//! commands compose: what `code` finds in what `remux` writes is what was multiplexed, and it refuses none of it.
#![tactic(auto)]

mod aim;
mod buffers;
mod check_word;
mod compose_laws;
mod corrections;
mod decoder_part;
mod epoch_receiver;
mod epochs;
mod fault;
mod feeding;
mod frames;
mod heads;
mod laws;
mod layer_cells;
mod limit;
mod outcome_laws;
mod partial_receiver;
mod receiver;
mod receiving;
mod showing;
mod symbols;
mod unread_laws;
mod words;

pub use aim::{Aim, aim_of};
pub use compose_laws::{
    accepted_law, chain_law, code_near_law, composed_law, found_law, headline_law, input_law,
    multiplexed_law,
};
pub use fault::ReceiveFault;
pub use laws::{near_law, partial_law, prefix_law, received_law, row_law};
pub use outcome_laws::{head_law, near_outcome_law, restored_law, same_setting_law};
pub use partial_receiver::PartialReceiver;
pub use receiver::Receiver;
pub use receiving::{receive, receive_partial};
pub use showing::show_cells;
pub use symbols::{read_cells, symbol_start};
pub use unread_laws::unread_law;
pub use words::{check_part, expected_setting};
