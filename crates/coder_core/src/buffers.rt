//! The buffers of a coding.

ghost use Rattle.std.specs.Prelude.{IfOk};
ghost use Rattle.coder_core.specs.Buffers.{HasRoom};

use isdbt_base::{BROADCAST_BYTES, HEAD_BYTES, NoMemory, Plan, SYMBOLS, zeros};
use std::alloc::Global;

/// The buffers of a coding, each with room for the greatest frame of the plan.
#[derive(Drop)]
pub struct CodeBuffers {
    /// A frame of broadcast packets: 204 bytes for each slot.
    pub frame: Vec<u8>,
    /// A frame of cells: a head and 204 symbols.
    pub cells: Vec<u8>,
}

impl CodeBuffers {
    /// The buffers for a plan. Fails only if memory runs out.
    pub fn open(alloc: Global, plan: &Plan) -> Result<CodeBuffers, NoMemory>
        ensures { IfOk result (HasRoom plan.now) }
    {
        let frame = zeros(alloc, BROADCAST_BYTES * plan.most_slots() as usize)?;
        let cells = zeros(
            alloc,
            HEAD_BYTES + SYMBOLS * (1 + 26 * plan.most_carriers() as usize),
        )?;
        Ok(CodeBuffers { frame, cells })
    }
}
