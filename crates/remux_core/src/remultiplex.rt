//! Input packets into frames.

ghost use Rattle.std.specs.Prelude.{◌≡◌, ℕ, List, ◌≤◌, ◌<◌, true};
ghost use Rattle.isdbt_base.specs.declared.kinds.Layer.{Layer as Which};
ghost use Rattle.edge_io.specs.FrameAnswers.{AnswerRoom};
ghost use Rattle.remux_core.specs.Answers.{IsUsed, Tells, remux_kind, RemuxAnswer, RemuxCause};
ghost use Rattle.remux_core.specs.Refusals.{seat_of};

use crate::buffers::Buffers;
use crate::epochs::write_epochs;
use crate::fault::RemuxFault;
use crate::inputs::Inputs;
use crate::last_epoch::write_last;
use edge_io::{Shelf, Sink};
use isdbt_base::{BROADCAST_BYTES, Plan, zeros};
use std::alloc::Global;

/// Writes the frames of a plan and of the inputs at the seats of its layers, at most `limit` of them, and answers how many
/// were written. Frame after frame is read, layer A first, checked and written: no byte past the frame in work is asked for.
/// Only where the last epoch begins at the limit, one byte more is asked for at each input that goes on.
///
/// The memory for the frames' packets and bytes is taken before the first read. Where an epoch opens, memory is asked for
/// before its first frame is read.
pub fn remux<H: Shelf, K: Sink>(
    alloc: Global,
    plan: &Plan,
    limit: u32,
    shelf: &mut H,
    sink: &mut K,
) -> Result<u32, RemuxFault>
    requires some { 0 < limit }
    requires few { limit ≤ 16777216 }
    requires open { (x : Which) → IsUsed plan.now x → H.is_open shelf.old (seat_of x) ≡ true }
    ensures answer { (input : Which → List ℕ) → Tells plan.now (H.left shelf.old) input
        → RemuxAnswer plan.now input limit (K.written sink.old) (K.written sink.new) (H.left shelf.new) result }
    ensures still_open { H.is_open shelf.new ≡ H.is_open shelf.old }
    ensures cause { RemuxCause plan.now (H.faults shelf.old) (H.faults shelf.new) (K.faults sink.old) (K.faults sink.new) result }

    // The sink's room stays, and a write fails only where what was written reaches it.
    ensures room { K.room sink.new ≡ K.room sink.old }
    ensures reached { AnswerRoom remux_kind (K.room sink.old) (K.written sink.new) result }
{
    plan.acceptance_law();
    let Ok(inputs) = Inputs::open(alloc, plan) else {
        return Err(RemuxFault::NoMemory);
    };
    let Ok(out) = zeros(alloc, BROADCAST_BYTES * plan.most_slots() as usize) else {
        return Err(RemuxFault::NoMemory);
    };
    let mut buffers = Buffers { inputs, out };
    let start = write_epochs(alloc, plan, limit, &mut buffers, shelf, sink)?;
    if start == limit {
        return buffers.inputs.ask(limit, shelf);
    }
    write_last(alloc, plan, start, limit, &mut buffers, shelf, sink)
}
