//! What is held of the frame in work.

use crate::inputs::Inputs;

/// The packets that were read for the frame in work, and the bytes that are written of it.
#[derive(Drop)]
pub struct Buffers {
    pub inputs: Inputs,
    pub out: Vec<u8>,
}
