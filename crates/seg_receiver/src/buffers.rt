//! The buffers of a receiving.

ghost use Rattle.std.specs.Prelude.{◌≡◌, IfOk, vec_len};
ghost use Rattle.coder_core.specs.SentCells.{frame_size};
ghost use Rattle.seg_receiver.specs.Buffers.{largest_mode, largest_guard, HasRoom};

use cell_map::Cell;
use isdbt_base::{
    BROADCAST_BYTES, Form, Guard, Mode, NoMemory, SYMBOLS, carriers, slots, symbol_size, zeros,
};
use std::alloc::Global;

/// The buffers of a receiving, for the largest frames that a stream of its version can have.
#[derive(Drop)]
pub struct ReceiveBuffers {
    /// The symbols of a frame of cells: 204.
    pub frame: Vec<u8>,
    /// The cells of a symbol.
    pub cells: Vec<Cell>,
    /// A frame of broadcast packets: 204 bytes for each slot.
    pub out: Vec<u8>,
}

/// The mode and the guard interval of the largest frames that a stream of a version can have: in version 2 any.
fn largest(form: Form) -> (Mode, Guard)
    ensures { result ≡ (largest_mode form, largest_guard form) }
{
    match form {
        Form::V1 { mode, guard } => (mode, guard),
        Form::V2 => (Mode::M3, Guard::G4),
    }
}

/// A buffer for the symbols of the largest frame that a stream of this version can have. Fails only if memory runs out.
pub fn frame_buffer(alloc: Global, form: Form) -> Result<Vec<u8>, NoMemory>
    ensures { IfOk result (λ b. vec_len b ≡ frame_size (largest_mode form)) }
{
    let (mode, _) = largest(form);
    zeros(alloc, SYMBOLS * symbol_size(mode))
}

impl ReceiveBuffers {
    /// The buffers for a stream of this version. Fails only if memory runs out.
    pub fn open(alloc: Global, form: Form) -> Result<ReceiveBuffers, NoMemory>
        ensures { IfOk result (HasRoom form) }
    {
        let (mode, guard) = largest(form);
        let frame = frame_buffer(alloc, form)?;
        let cells = vec![in alloc; Cell { i: 0, q: 0 }; 13 * carriers(mode) as usize]?;
        let out = zeros(alloc, BROADCAST_BYTES * slots(mode, guard) as usize)?;
        Ok(ReceiveBuffers { frame, cells, out })
    }
}
