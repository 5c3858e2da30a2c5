//! The buffers of a sample.

ghost use Rattle.std.specs.Prelude.{IfOk};
ghost use Rattle.sample.specs.Chain.{HasRoom};

use cell_map::Cell;
use isdbt_base::{
    BROADCAST_BYTES, Guard, Mode, NoMemory, SYMBOLS, carriers, slots, symbol_size, zeros,
};
use std::alloc::Global;
use ts_packet::Packet;

/// The buffers of a sample, for frames of mode 1 and guard interval 1/4.
#[derive(Drop)]
pub struct Buffers {
    /// A frame of cells: 204 symbols.
    pub symbols: Vec<u8>,
    /// The cells of a symbol.
    pub cells: Vec<Cell>,
    /// A frame of broadcast packets as it is received.
    pub out: Vec<u8>,
    /// The packets of a layer in a frame, at most 432.
    pub packets: Vec<Packet>,
}

impl Buffers {
    /// All buffers. Fails only if memory runs out.
    pub fn open(alloc: Global) -> Result<Buffers, NoMemory>
        ensures { IfOk result HasRoom }
    {
        let symbols = zeros(alloc, SYMBOLS * symbol_size(Mode::M1))?;
        let cells = vec![in alloc; Cell { i: 0, q: 0 }; 13 * carriers(Mode::M1) as usize]?;
        let out = zeros(alloc, BROADCAST_BYTES * slots(Mode::M1, Guard::G4) as usize)?;
        let packets = vec![in alloc; Packet::null(); 432]?;
        Ok(Buffers {
            symbols,
            cells,
            out,
            packets,
        })
    }
}
