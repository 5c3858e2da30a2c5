//! One frame: read, checked, made and written.

ghost use Rattle.std.specs.Prelude.{◌≡◌, ℕ, List, [], ◌+◌, ◌*◌, ◌<◌, ◌≤◌, length, take, OnOk, OnErr, IfOk};
ghost use Rattle.std.specs.declared.option.Option.{Option};
ghost use Rattle.isdbt_base.specs.declared.kinds.Layer.{Layer as Which};
ghost use Rattle.isdbt_base.specs.Numbers.{slots_per_frame};
ghost use Rattle.isdbt_base.specs.Plans.{IsPlan, at_frame};
ghost use Rattle.edge_io.specs.Known.{append_known, ReachesRoom};
ghost use Rattle.edge_io.specs.Causes.{HasCause};
ghost use Rattle.edge_io.specs.FrameAnswers.{AnswerCause, AnswerRoom};
ghost use Rattle.frame_order.specs.LayerBytes.{layer_bytes, layer_packet, AreWhole};
ghost use Rattle.remux_core.specs.Answers.{remux_kind, IsInputSeat};
ghost use Rattle.remux_core.specs.Frames.{frame_made};
ghost use Rattle.remux_core.specs.Multiplex.{frame_tag};
ghost use Rattle.remux_core.specs.Reading.{input_of, Stands, IsReady, AreGood, FrameAnswer};

use crate::fault::RemuxFault;
use crate::inputs::Inputs;
use crate::refusal::fault_of;
use crate::wanted::wanted_at;
use bts_info::FrameTag;
use edge_io::{Failed, Shelf, Sink, write_whole};
use frame_order::{FrameOrder, LayerPackets};
use isdbt_base::{BROADCAST_BYTES, Plan};
use ts_packet::Packet;

/// Reads the packets that a frame places, layer A first, and checks them.
pub fn read_frame<H: Shelf>(
    plan: &Plan,
    frame: u32,
    inputs: &mut Inputs,
    shelf: &mut H,
) -> Result<(), RemuxFault>
    requires plan { IsPlan plan.now }
    requires few { frame < 16777216 }
    requires stands { Stands plan.now frame inputs.old (H.is_open shelf.old) }
    ensures stands { OnOk result (Stands plan.now (frame + 1) inputs.new (H.is_open shelf.new)) }
    ensures good { OnOk result (AreGood inputs.new) }
    ensures answer { (input : Which → List ℕ) (limit : ℕ) → frame < limit → IsReady plan.now input frame inputs.old (H.left shelf.old)
        → FrameAnswer plan.now input limit frame inputs.new (H.left shelf.new) result }
    ensures still_open { H.is_open shelf.new ≡ H.is_open shelf.old }
    ensures cause { (sink : ℕ) → AnswerCause remux_kind (IsInputSeat plan.now) (H.faults shelf.old) (H.faults shelf.new) sink sink result }
    ensures reached { (room : Option ℕ) (written : Option (List ℕ)) → AnswerRoom remux_kind room written result }
{
    match inputs.read(shelf, &wanted_at(plan, frame)) {
        Ok(()) => {}
        Err(seat) => return Err(RemuxFault::ReadFault(seat)),
    }
    match fault_of(inputs) {
        Some(fault) => Err(fault),
        None => Ok(()),
    }
}

/// The packets that were read for a frame.
pub fn packets_of(inputs: &Inputs) -> LayerPackets<'_>
    requires { AreGood inputs.now }
    ensures bytes { (x : Which) → layer_bytes result x ≡ take (input_of inputs.now x).count (input_of inputs.now x).bytes.items }
    ensures whole { AreWhole result }
{
    LayerPackets {
        a: inputs.a.part(),
        b: inputs.b.part(),
        c: inputs.c.part(),
    }
}

/// No packets.
pub fn no_packets() -> LayerPackets<'static>
    ensures bytes { (x : Which) → layer_bytes result x ≡ [] }
    ensures whole { AreWhole result }
{
    LayerPackets {
        a: &[],
        b: &[],
        c: &[],
    }
}

/// What the packets of a frame bear alike.
fn tag_of(plan: &Plan, frame: u32) -> FrameTag
    ensures { result ≡ frame_tag (at_frame plan.now frame) frame }
{
    let at = plan.at(frame);
    FrameTag {
        odd: frame % 2 == 1,
        first: at.start == frame,
        start_up: false,
        countdown: at.countdown,
    }
}

/// Makes a frame of the packets at the front of `out`, and writes it.
pub fn write_frame<K: Sink>(
    plan: &Plan,
    order: &FrameOrder,
    frame: u32,
    packets: &LayerPackets,
    out: &mut [u8],
    sink: &mut K,
) -> Result<(), Failed>
    requires whole { AreWhole packets.now }
    requires size { 204 * slots_per_frame order.now.mode order.now.guard ≤ length out.old }
    ensures size { length out.new ≡ length out.old }
    ensures ok { OnOk result (K.written sink.new ≡ append_known (K.written sink.old)
        (frame_made plan.now order.now frame (layer_packet packets.now))) }
    ensures some { OnErr result ((n : ℕ) × (n < length (frame_made plan.now order.now frame (layer_packet packets.now)))
        × (K.written sink.new ≡ append_known (K.written sink.old)
        (take n (frame_made plan.now order.now frame (layer_packet packets.now))))) }
    ensures room { K.room sink.new ≡ K.room sink.old }
    ensures reached { OnErr result (ReachesRoom (K.room sink.old) (K.written sink.new)) }
    ensures cause { HasCause (K.faults sink.old) (K.faults sink.new) result }
{
    let bytes = &mut out[..BROADCAST_BYTES * order.slot_count() as usize];
    order.write(&tag_of(plan, frame), &Packet::null(), packets, bytes);
    write_whole(sink, bytes)
}
