//! The epochs before the last.

ghost use Rattle.std.specs.Prelude.{◌≡◌, ℕ, List, ◌+◌, ◌*◌, ◌≤◌, ◌<◌, vec_len, OnOk, IfOk};
ghost use Rattle.std.specs.declared.option.Option.{Option};
ghost use Rattle.isdbt_base.specs.declared.kinds.Layer.{Layer as Which};
ghost use Rattle.isdbt_base.specs.Epochs.{last_start};
ghost use Rattle.isdbt_base.specs.Plans.{IsPlan};
ghost use Rattle.edge_io.specs.FrameAnswers.{AnswerCause, AnswerRoom};
ghost use Rattle.remux_core.specs.Answers.{remux_kind, IsInputSeat, RemuxCause};
ghost use Rattle.remux_core.specs.Epoch.{Progress, EpochAnswer, EpochsAnswer};
ghost use Rattle.remux_core.specs.Frames.{most_slots, sent_at};
ghost use Rattle.remux_core.specs.Reading.{Stands};

use crate::buffers::Buffers;
use crate::fault::RemuxFault;
use crate::frame::{packets_of, read_frame, write_frame};
use edge_io::{Failed, Shelf, Sink};
use frame_order::{FrameOrder, order};
use isdbt_base::{NoMemory, Plan};
use std::alloc::Global;

/// The order of the packets of a frame, and of all frames of its epoch.
pub fn order_at(alloc: Global, plan: &Plan, frame: u32) -> Result<FrameOrder, NoMemory>
    ensures { IfOk result (λ o. o ≡ sent_at plan.now frame) }
{
    let at = plan.at(frame);
    order(alloc, &at.setting, at.mode, at.guard)
}

/// Reads, checks and writes frames of an epoch before the last.
fn write_epoch<H: Shelf, K: Sink>(
    plan: &Plan,
    order: &FrameOrder,
    start: u32,
    end: u32,
    buffers: &mut Buffers,
    shelf: &mut H,
    sink: &mut K,
) -> Result<(), RemuxFault>
    requires plan { IsPlan plan.now }
    requires order { (f : ℕ) → start ≤ f → f < end → order.now ≡ sent_at plan.now f }
    requires rising { start ≤ end }
    requires early { end ≤ last_start plan.now }
    requires few { end ≤ 16777216 }
    requires stands { Stands plan.now start buffers.old.inputs (H.is_open shelf.old) }
    requires size { 204 * most_slots plan.now ≤ vec_len buffers.old.out }
    ensures stands { OnOk result (Stands plan.now end buffers.new.inputs (H.is_open shelf.new)) }
    ensures size { vec_len buffers.new.out ≡ vec_len buffers.old.out }
    ensures answer { (input : Which → List ℕ) (limit : ℕ) (before : Option (List ℕ)) → end ≤ limit
        → Progress plan.now input limit start buffers.old.inputs (H.left shelf.old) before (K.written sink.old)
        → EpochAnswer plan.now input limit end buffers.new.inputs (H.left shelf.new) before (K.written sink.new) result }
    ensures still_open { H.is_open shelf.new ≡ H.is_open shelf.old }
    ensures cause { AnswerCause remux_kind (IsInputSeat plan.now) (H.faults shelf.old) (H.faults shelf.new) (K.faults sink.old) (K.faults sink.new) result }
    ensures room { K.room sink.new ≡ K.room sink.old }
    ensures reached { AnswerRoom remux_kind (K.room sink.old) (K.written sink.new) result }
{
    for frame in start..end {
        read_frame(plan, frame, &mut buffers.inputs, shelf)?;
        let packets = packets_of(&buffers.inputs);
        match write_frame(plan, order, frame, &packets, &mut buffers.out, sink) {
            Ok(()) => {}
            Err(Failed) => return Err(RemuxFault::WriteFault),
        }
    }
    Ok(())
}

/// Writes all epochs before the last, one after another, and answers where the last begins. The order of the frames is made
/// anew for each.
pub fn write_epochs<H: Shelf, K: Sink>(
    alloc: Global,
    plan: &Plan,
    limit: u32,
    buffers: &mut Buffers,
    shelf: &mut H,
    sink: &mut K,
) -> Result<u32, RemuxFault>
    requires plan { IsPlan plan.now }
    requires some { 0 < limit }
    requires few { limit ≤ 16777216 }
    requires stands { Stands plan.now 0 buffers.old.inputs (H.is_open shelf.old) }
    requires size { 204 * most_slots plan.now ≤ vec_len buffers.old.out }
    ensures last { IfOk result (λ start. start ≡ last_start plan.now) }
    ensures within { IfOk result (λ start. start ≤ limit) }
    ensures stands { IfOk result (λ start. Stands plan.now start buffers.new.inputs (H.is_open shelf.new)) }
    ensures size { vec_len buffers.new.out ≡ vec_len buffers.old.out }
    ensures answer { (input : Which → List ℕ) (before : Option (List ℕ))
        → Progress plan.now input limit 0 buffers.old.inputs (H.left shelf.old) before (K.written sink.old)
        → EpochsAnswer plan.now input limit buffers.new.inputs (H.left shelf.new) before (K.written sink.new) result }
    ensures still_open { H.is_open shelf.new ≡ H.is_open shelf.old }
    ensures cause { RemuxCause plan.now (H.faults shelf.old) (H.faults shelf.new) (K.faults sink.old) (K.faults sink.new) result }
    ensures room { K.room sink.new ≡ K.room sink.old }
    ensures reached { AnswerRoom remux_kind (K.room sink.old) (K.written sink.new) result }
{
    let mut start = 0;
    while let Some(end) = plan.at(start).end {
        if start == limit {
            return Err(RemuxFault::TooLong);
        }
        let Ok(order) = order_at(alloc, plan, start) else {
            return Err(RemuxFault::NoMemory);
        };
        let stop = end.min(limit);
        write_epoch(plan, &order, start, stop, buffers, shelf, sink)?;
        start = stop;
    }
    Ok(start)
}
