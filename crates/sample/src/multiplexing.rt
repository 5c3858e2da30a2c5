//! The inputs of a sample into frames of broadcast packets.

ghost use Rattle.std.specs.Prelude.{◌≡◌, ◌≤◌, true, IfOk};
ghost use Rattle.isdbt_base.specs.declared.kinds.Layer.TheVariants as layers;
ghost use Rattle.isdbt_base.specs.Outcome.{product};
ghost use Rattle.edge_io.specs.declared.shelf.Seat.TheVariants as seats;
ghost use Rattle.edge_io.specs.MemorySink.{written_bytes};
ghost use Rattle.edge_io.specs.QuietShelf.{is_seat_open, rest_of};
ghost use Rattle.remux_core.specs.Multiplex.{written_frame};
ghost use Rattle.sample.specs.Inputs.{number_of};
ghost use Rattle.sample.specs.SamplePlan.{sample_plan, sample_frames};
ghost use Rattle.sample.specs.SampleInputs.{sample_input};

use crate::inputs::Inputs;
use edge_io::{Failed, MemorySink, QuietShelf, Seat, Shelf};
use isdbt_base::{BROADCAST_BYTES, NoMemory, Plan};
use remux_core::remux;
use std::alloc::Global;

/// Bytes of a frame: 1280 broadcast packets.
pub const FRAME_BYTES: usize = 1280 * BROADCAST_BYTES;

/// Room for one frame more than are written, so that no write fails.
const ROOM: usize = 16 * FRAME_BYTES;

/// A shelf with the inputs, at the seats of their layers. Fails only if memory runs out.
fn shelf_of(alloc: Global, inputs: &Inputs) -> Result<QuietShelf, NoMemory>
    ensures a_open { IfOk result (λ s. is_seat_open s seats.A ≡ true) }
    ensures b_open { IfOk result (λ s. is_seat_open s seats.B ≡ true) }
    ensures a_left { IfOk result (λ s. rest_of s seats.A ≡ sample_input (number_of inputs.now) layers.A) }
    ensures b_left { IfOk result (λ s. rest_of s seats.B ≡ sample_input (number_of inputs.now) layers.B) }
{
    let mut shelf = QuietShelf::new(alloc);
    shelf.put("A", inputs.a())?;
    shelf.put("B", inputs.b())?;
    match shelf.open(Seat::A, "A") {
        Ok(()) => {}
        Err(Failed) => unreachable!(),
    }
    match shelf.open(Seat::B, "B") {
        Ok(()) => {}
        Err(Failed) => unreachable!(),
    }
    Ok(shelf)
}

/// The frames of broadcast packets of the inputs of a sample, one behind the other. Fails only if memory runs out.
pub fn multiplex(alloc: Global, plan: &Plan, inputs: &Inputs) -> Result<MemorySink, NoMemory>
    requires { plan.now ≡ sample_plan }
    ensures { IfOk result (λ frames. written_bytes frames ≡ product (written_frame sample_plan (sample_input (number_of inputs.now))) sample_frames) }
{
    let mut shelf = shelf_of(alloc, inputs)?;
    let mut frames = MemorySink::new(alloc, ROOM)?;
    match remux(alloc, plan, 16, &mut shelf, &mut frames) {
        Ok(_) => Ok(frames),
        Err(_) => Err(NoMemory),
    }
}
