//! The remultiplexer: layers' transport packets into frames of broadcast packets.
//!
//! Frame after frame, the next packets of each layer's input are put into the layer's slots; all other slots get null
//! packets. Before a switch of the plan, frames whose packets of a layer would be given out behind the switch place none of
//! it. In the last epoch, after the frames with input packets come as many frames of null packets as the receiver delays a
//! packet.
#![tactic(auto)]

mod buffers;
mod epochs;
mod fault;
mod frame;
mod inputs;
mod last_epoch;
mod layer_input;
mod packets;
mod refusal;
mod remultiplex;
mod wanted;

pub use fault::RemuxFault;
pub use remultiplex::remux;
