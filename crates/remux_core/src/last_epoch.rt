//! The last epoch: the frames with input packets, and those of null packets behind them.

ghost use Rattle.std.specs.Prelude.{◌≡◌, ℕ, List, [], ◌+◌, ◌*◌, ◌≤◌, ◌<◌, vec_len, length, IfOk};
ghost use Rattle.std.specs.declared.option.Option.{Option};
ghost use Rattle.isdbt_base.specs.declared.kinds.Layer.{Layer as Which};
ghost use Rattle.isdbt_base.specs.Epochs.{last_start, last_sent};
ghost use Rattle.isdbt_base.specs.Numbers.{greatest_delay};
ghost use Rattle.isdbt_base.specs.Plans.{IsPlan};
ghost use Rattle.edge_io.specs.declared.shelf.Seat.{Seat};
ghost use Rattle.edge_io.specs.Causes.{Cause};
ghost use Rattle.edge_io.specs.FrameAnswers.{AnswerRoom};
ghost use Rattle.remux_core.specs.Answers.{remux_kind, RemuxAnswer, RemuxCause};
ghost use Rattle.remux_core.specs.Epoch.{Progress, DataDone, DataAnswer};
ghost use Rattle.remux_core.specs.Frames.{packets_of as layer_packets, most_slots, sent_at};
ghost use Rattle.remux_core.specs.Reading.{Stands};

use crate::buffers::Buffers;
use crate::epochs::order_at;
use crate::fault::RemuxFault;
use crate::frame::{no_packets, packets_of, read_frame, write_frame};
use edge_io::{Failed, Shelf, Sink};
use frame_order::FrameOrder;
use isdbt_base::Plan;
use std::alloc::Global;

/// The frames with input packets: reads, checks and writes one after another, and answers where they end.
fn write_data<H: Shelf, K: Sink>(
    plan: &Plan,
    order: &FrameOrder,
    start: u32,
    limit: u32,
    buffers: &mut Buffers,
    shelf: &mut H,
    sink: &mut K,
) -> Result<u32, RemuxFault>
    requires plan { IsPlan plan.now }
    requires order { order.now ≡ last_sent plan.now }
    requires last { start ≡ last_start plan.now }
    requires some { start < limit }
    requires few { limit ≤ 16777216 }
    requires stands { Stands plan.now start buffers.old.inputs (H.is_open shelf.old) }
    requires size { 204 * most_slots plan.now ≤ vec_len buffers.old.out }
    ensures least { IfOk result (λ frames. start ≤ frames) }
    ensures within { IfOk result (λ frames. frames ≤ limit) }
    ensures size { vec_len buffers.new.out ≡ vec_len buffers.old.out }
    ensures answer { (input : Which → List ℕ) (before : Option (List ℕ))
        → Progress plan.now input limit start buffers.old.inputs (H.left shelf.old) before (K.written sink.old)
        → DataAnswer plan.now input limit before (K.written sink.new) (H.left shelf.new) result }
    ensures still_open { H.is_open shelf.new ≡ H.is_open shelf.old }
    ensures cause { RemuxCause plan.now (H.faults shelf.old) (H.faults shelf.new) (K.faults sink.old) (K.faults sink.new) result }
    ensures room { K.room sink.new ≡ K.room sink.old }
    ensures reached { AnswerRoom remux_kind (K.room sink.old) (K.written sink.new) result }
{
    for frame in start..limit {
        read_frame(plan, frame, &mut buffers.inputs, shelf)?;
        if buffers.inputs.is_empty() {
            return Ok(frame);
        }
        let packets = packets_of(&buffers.inputs);
        match write_frame(plan, order, frame, &packets, &mut buffers.out, sink) {
            Ok(()) => {}
            Err(Failed) => return Err(RemuxFault::WriteFault),
        }
        if buffers.inputs.have_ended() {
            return Ok(frame + 1);
        }
    }
    Err(RemuxFault::TooLong)
}

/// The frames of null packets behind the data: as many as the delay.
fn drain<K: Sink>(
    plan: &Plan,
    order: &FrameOrder,
    frames: u32,
    end: u32,
    limit: u32,
    out: &mut [u8],
    sink: &mut K,
) -> Result<u32, RemuxFault>
    requires plan { IsPlan plan.now }
    requires order { order.now ≡ last_sent plan.now }
    requires some { last_start plan.now < frames }
    requires end { end ≡ frames + greatest_delay (last_sent plan.now).mode (last_sent plan.now).setting }
    requires frames { frames ≤ limit }
    requires few { limit ≤ 16777216 }
    requires size { 204 * most_slots plan.now ≤ length out.old }
    ensures answer { (input : Which → List ℕ) (before : Option (List ℕ)) (left : Seat → Option (List ℕ))
        → ((x : Which) → layer_packets plan.now.first x ≡ 0 → input x ≡ [])
        → DataDone plan.now input limit frames before (K.written sink.old) left
        → RemuxAnswer plan.now input limit before (K.written sink.new) left result }
    ensures cause { (shelf : Cause → ℕ) → RemuxCause plan.now shelf shelf (K.faults sink.old) (K.faults sink.new) result }
    ensures room { K.room sink.new ≡ K.room sink.old }
    ensures reached { AnswerRoom remux_kind (K.room sink.old) (K.written sink.new) result }
{
    for frame in frames..end {
        if frame >= limit {
            return Err(RemuxFault::TooLong);
        }
        match write_frame(plan, order, frame, &no_packets(), out, sink) {
            Ok(()) => {}
            Err(Failed) => return Err(RemuxFault::WriteFault),
        }
    }
    Ok(end)
}

/// Writes the last epoch, and answers how many frames there are.
pub fn write_last<H: Shelf, K: Sink>(
    alloc: Global,
    plan: &Plan,
    start: u32,
    limit: u32,
    buffers: &mut Buffers,
    shelf: &mut H,
    sink: &mut K,
) -> Result<u32, RemuxFault>
    requires plan { IsPlan plan.now }
    requires last { start ≡ last_start plan.now }
    requires some { start < limit }
    requires few { limit ≤ 16777216 }
    requires stands { Stands plan.now start buffers.old.inputs (H.is_open shelf.old) }
    requires size { 204 * most_slots plan.now ≤ vec_len buffers.old.out }
    ensures answer { (input : Which → List ℕ) (before : Option (List ℕ))
        → Progress plan.now input limit start buffers.old.inputs (H.left shelf.old) before (K.written sink.old)
        → RemuxAnswer plan.now input limit before (K.written sink.new) (H.left shelf.new) result }
    ensures still_open { H.is_open shelf.new ≡ H.is_open shelf.old }
    ensures cause { RemuxCause plan.now (H.faults shelf.old) (H.faults shelf.new) (K.faults sink.old) (K.faults sink.new) result }
    ensures room { K.room sink.new ≡ K.room sink.old }
    ensures reached { AnswerRoom remux_kind (K.room sink.old) (K.written sink.new) result }
{
    let Ok(order) = order_at(alloc, plan, start) else {
        return Err(RemuxFault::NoMemory);
    };
    let frames = write_data(plan, &order, start, limit, buffers, shelf, sink)?;
    if frames == start {
        return Ok(frames);
    }
    let at = plan.at(start);
    let end = frames + at.setting.max_delay(at.mode);
    drain(plan, &order, frames, end, limit, &mut buffers.out, sink)
}
