//! Broadcast packets into cells.

ghost use Rattle.std.specs.Prelude.{◌≡◌, ℕ, List, ◌≤◌, ◌<◌, Some, true, false, take, vec_items};
ghost use Rattle.isdbt_base.specs.Plans.{KeepsMode};
ghost use Rattle.isdbt_base.specs.Frames.{FramePackets};
ghost use Rattle.edge_io.specs.declared.shelf.Seat.TheVariants as seats;
ghost use Rattle.edge_io.specs.FrameAnswers.{LoneAnswer, LoneCause, AnswerRoom};
ghost use Rattle.coder_core.specs.Answers.{Found, code_kind, code_command};
ghost use Rattle.coder_core.specs.Buffers.{HasRoom};
ghost use Rattle.coder_core.specs.FrameSteps.{IsOfFrame, StandsAt};

use crate::buffers::CodeBuffers;
use crate::coder::Coder;
use crate::fault::CodeFault;
use crate::frames::{Sending, code_frame, slots_at};
use crate::reading::{FramePlace, FrameSpan, end_at_limit};
use crate::search::find_head;
use edge_io::{Shelf, Sink};
use isdbt_base::{BROADCAST_BYTES, Plan, Writing, put};
use std::alloc::Global;

/// The frames from the first head on, whose packet stands at the front of the buffer, one after another; answers how many
/// there are. The coder is that of frame 0, and has seen no frame.
fn code_frames<H: Shelf, K: Sink>(
    alloc: Global,
    sending: Sending,
    coder: &mut Coder,
    span: FrameSpan,
    buffers: &mut CodeBuffers,
    shelf: &mut H,
    sink: &mut K,
) -> Result<u32, CodeFault>
    requires coder { IsOfFrame coder.old sending.plan.now 0 }
    requires fresh { (frames : FramePackets) → StandsAt coder.old sending.plan.now frames 0 }
    requires head { span.head < 65536 }
    requires some { 0 < span.limit }
    requires few { span.limit ≤ 16777216 }
    requires has_room { HasRoom sending.plan.now buffers.old }
    requires is_open { H.is_open shelf.old seats.In ≡ true }
    ensures answer { (input : List ℕ) → Found input span.head (take 204 (vec_items buffers.old.frame)) (H.left shelf.old seats.In)
        → LoneAnswer code_kind (code_command sending.entry.how sending.entry.plan.now input span.limit) (K.written sink.old) (K.written sink.new) (H.left shelf.new seats.In) result }
    ensures still_open { H.is_open shelf.new ≡ H.is_open shelf.old }
    ensures cause { LoneCause code_kind (H.faults shelf.old) (H.faults shelf.new) (K.faults sink.old) (K.faults sink.new) result }
    ensures sink_room { K.room sink.new ≡ K.room sink.old }
    ensures reached { AnswerRoom code_kind (K.room sink.old) (K.written sink.new) result }
{
    let mut first_packet = u64::from(span.head);
    let mut held = BROADCAST_BYTES;
    for number in 0..span.limit {
        let place = FramePlace {
            number,
            first_packet,
            held,
        };
        match code_frame(alloc, sending, coder, place, buffers, shelf, sink) {
            Ok(true) => {}
            Ok(false) => return Ok(number),
            Err(fault) => return Err(fault),
        }
        first_packet += u64::from(slots_at(sending.plan, number));
        held = 0;
    }
    end_at_limit(span.limit, shelf)
}

/// Codes a stream with the coder of frame 0, which has seen no frame.
fn code_stream<H: Shelf, K: Sink>(
    alloc: Global,
    sending: Sending,
    coder: &mut Coder,
    limit: u32,
    buffers: &mut CodeBuffers,
    shelf: &mut H,
    sink: &mut K,
) -> Result<u32, CodeFault>
    requires coder { IsOfFrame coder.old sending.plan.now 0 }
    requires fresh { (frames : FramePackets) → StandsAt coder.old sending.plan.now frames 0 }
    requires some { 0 < limit }
    requires few { limit ≤ 16777216 }
    requires has_room { HasRoom sending.plan.now buffers.old }
    requires is_open { H.is_open shelf.old seats.In ≡ true }
    ensures answer { (input : List ℕ) → H.left shelf.old seats.In ≡ Some input
        → LoneAnswer code_kind (code_command sending.entry.how sending.entry.plan.now input limit) (K.written sink.old) (K.written sink.new) (H.left shelf.new seats.In) result }
    ensures still_open { H.is_open shelf.new ≡ H.is_open shelf.old }
    ensures cause { LoneCause code_kind (H.faults shelf.old) (H.faults shelf.new) (K.faults sink.old) (K.faults sink.new) result }
    ensures sink_room { K.room sink.new ≡ K.room sink.old }
    ensures reached { AnswerRoom code_kind (K.room sink.old) (K.written sink.new) result }
{
    let mut packet = [0u8; BROADCAST_BYTES];
    let head = match find_head(shelf, &mut packet) {
        Ok(Some(head)) => head,
        Ok(None) => return Ok(0),
        Err(fault) => return Err(fault),
    };
    put(&mut buffers.frame, 0, &packet);
    let span = FrameSpan { head, limit };
    code_frames(alloc, sending, coder, span, buffers, shelf, sink)
}

/// Codes a stream with these buffers, and takes the first coder's memory before the first read.
fn code_within<H: Shelf, K: Sink>(
    alloc: Global,
    sending: Sending,
    limit: u32,
    buffers: &mut CodeBuffers,
    shelf: &mut H,
    sink: &mut K,
) -> Result<u32, CodeFault>
    requires some { 0 < limit }
    requires few { limit ≤ 16777216 }
    requires has_room { HasRoom sending.plan.now buffers.old }
    requires is_open { H.is_open shelf.old seats.In ≡ true }
    ensures answer { (input : List ℕ) → H.left shelf.old seats.In ≡ Some input
        → LoneAnswer code_kind (code_command sending.entry.how sending.entry.plan.now input limit) (K.written sink.old) (K.written sink.new) (H.left shelf.new seats.In) result }
    ensures still_open { H.is_open shelf.new ≡ H.is_open shelf.old }
    ensures cause { LoneCause code_kind (H.faults shelf.old) (H.faults shelf.new) (K.faults sink.old) (K.faults sink.new) result }
    ensures sink_room { K.room sink.new ≡ K.room sink.old }
    ensures reached { AnswerRoom code_kind (K.room sink.old) (K.written sink.new) result }
{
    let at = sending.plan.at(0);
    let Ok(mut coder) = Coder::open(alloc, &at.setting, at.mode, at.guard) else {
        return Err(CodeFault::NoMemory);
    };
    code_stream(alloc, sending, &mut coder, limit, buffers, shelf, sink)
}

/// Codes the frames of the broadcast packets at the seat In with a plan, at most `limit` of them, and answers how many were
/// written. The packets before the first that bears the frame head flag are passed over; it is looked for in 65,536.
/// Frame after frame is read, checked, coded and written: no byte past the frame in work is asked for. Each epoch of the
/// plan has frames of its own size and a coder of its own.
///
/// In version 2 a head of eight bytes stands before each frame's symbols, which says the frame's mode and guard interval.
/// Version 1 has none, so the plan must keep its mode and guard interval.
///
/// Memory for all but the later coders is taken before the first read, so that its want comes with nothing read and nothing
/// written. A later coder is opened behind the check of its epoch's first frame: where memory runs out then, the frames
/// before are written, and that frame is taken.
pub fn code<H: Shelf, K: Sink>(
    alloc: Global,
    plan: &Plan,
    how: Writing,
    limit: u32,
    shelf: &mut H,
    sink: &mut K,
) -> Result<u32, CodeFault>
    requires version { how.v2 ≡ false → KeepsMode plan.now.first plan.now.switches }
    requires some { 0 < limit }
    requires few { limit ≤ 16777216 }
    requires is_open { H.is_open shelf.old seats.In ≡ true }
    ensures answer { (input : List ℕ) → H.left shelf.old seats.In ≡ Some input
        → LoneAnswer code_kind (code_command how plan.now input limit) (K.written sink.old) (K.written sink.new) (H.left shelf.new seats.In) result }
    ensures still_open { H.is_open shelf.new ≡ H.is_open shelf.old }
    ensures cause { LoneCause code_kind (H.faults shelf.old) (H.faults shelf.new) (K.faults sink.old) (K.faults sink.new) result }

    // The sink's room stays, and a write fails only where what was written reaches it.
    ensures room { K.room sink.new ≡ K.room sink.old }
    ensures reached { AnswerRoom code_kind (K.room sink.old) (K.written sink.new) result }
{
    let Ok(mut buffers) = CodeBuffers::open(alloc, plan) else {
        return Err(CodeFault::NoMemory);
    };
    let sending = Sending { plan, how };
    code_within(alloc, sending, limit, &mut buffers, shelf, sink)
}
