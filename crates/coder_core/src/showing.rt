//! The frames of a stream of broadcast packets, a line for each.

ghost use Rattle.std.specs.Prelude.{◌≡◌, ℕ, List, ◌+◌, ◌*◌, ◌/◌, ◌≤◌, ◌<◌, ◌^◌, Some, true, take, length};
ghost use Rattle.std.specs.declared.option.Option.{Option};
ghost use Rattle.edge_io.specs.declared.shelf.Seat.TheVariants as seats;
ghost use Rattle.edge_io.specs.FrameAnswers.{LoneAnswer, LoneCause, AnswerRoom};
ghost use Rattle.coder_core.specs.ShownFrames.{shown};
ghost use Rattle.coder_core.specs.Answers.{Found, code_kind, showing, packet_command, show_command};
ghost use Rattle.coder_core.specs.FrameSteps.{Progress, StepAnswer, showing_run};

use crate::check::{framing_fault, info_in, layer_count, slots_of};
use crate::fault::CodeFault;
use crate::reading::{FramePlace, FrameSpan, end_at_limit, read_frame};
use crate::search::find_head;
use edge_io::{Failed, Shelf, Sink, write_whole};
use isdbt_base::{BROADCAST_BYTES, Guard, Layer, Mode, slots, zeros};
use setting_words::{BtsLine, bts_line};
use std::alloc::Global;

/// What a frame shows.
fn shown(number: u32, frame: &[u8]) -> BtsLine
    requires some { 204 ≤ length frame.now }
    requires size { length frame.now ≤ 2 ^ 32 }
    ensures { result ≡ shown number frame.now }
{
    let info = info_in(frame, 0);
    let a = layer_count(frame, Layer::A);
    let b = layer_count(frame, Layer::B);
    let c = layer_count(frame, Layer::C);
    BtsLine {
        frame: number,
        odd: info.odd,
        countdown: info.countdown,
        a,
        b,
        c,
        unused: slots_of(frame) - a - b - c,
    }
}

/// Reads and checks a frame of so many slots, and writes its line. It is false where the input ended before the frame.
fn show_frame<H: Shelf, K: Sink>(
    slots: u32,
    place: FramePlace,
    frame: &mut [u8],
    shelf: &mut H,
    sink: &mut K,
) -> Result<bool, CodeFault>
    requires some { 0 < slots }
    requires few { slots ≤ 5120 }
    requires size { length frame.old ≡ 204 * slots }
    requires first { place.first_packet ≤ 2 ^ 60 }
    requires held { place.held ≤ 204 }
    requires is_open { H.is_open shelf.old seats.In ≡ true }
    ensures still_open { H.is_open shelf.new ≡ H.is_open shelf.old }
    ensures answer { (input : List ℕ) (limit head : ℕ) (before : Option (List ℕ)) → place.number < limit → place.first_packet ≡ head + slots * place.number
        → Progress (showing_run slots input limit head) place.number place.held frame.old (H.left shelf.old seats.In) before (K.written sink.old)
        → StepAnswer (showing_run slots input limit head) place.number
        (Progress (showing_run slots input limit head) (place.number + 1) 0 frame.new (H.left shelf.new seats.In) before (K.written sink.new))
        (H.left shelf.new seats.In) before (K.written sink.new) result }
    ensures cause { LoneCause code_kind (H.faults shelf.old) (H.faults shelf.new) (K.faults sink.old) (K.faults sink.new) result }
    ensures sink_room { K.room sink.new ≡ K.room sink.old }
    ensures reached { AnswerRoom code_kind (K.room sink.old) (K.written sink.new) result }
{
    match read_frame(place.held, frame, shelf) {
        Ok(true) => {}
        Ok(false) => return Ok(false),
        Err(fault) => return Err(fault),
    }
    match framing_fault(place.number, place.first_packet, frame) {
        Some(fault) => return Err(fault),
        None => {}
    }
    let line = bts_line(&shown(place.number, frame));
    match write_whole(sink, line.as_str().as_bytes()) {
        Ok(()) => Ok(true),
        Err(Failed) => Err(CodeFault::WriteFault),
    }
}

/// The frames of so many slots from the first head on, whose packet stands at the front of the buffer, one after another;
/// answers how many there are.
fn show_frames<H: Shelf, K: Sink>(
    slots: u32,
    span: FrameSpan,
    frame: &mut [u8],
    shelf: &mut H,
    sink: &mut K,
) -> Result<u32, CodeFault>
    requires slots { 0 < slots }
    requires few_slots { slots ≤ 5120 }
    requires size { length frame.old ≡ 204 * slots }
    requires head { span.head < 65536 }
    requires some { 0 < span.limit }
    requires few { span.limit ≤ 16777216 }
    requires is_open { H.is_open shelf.old seats.In ≡ true }
    ensures answer { (input : List ℕ) → Found input span.head (take 204 frame.old) (H.left shelf.old seats.In)
        → LoneAnswer code_kind (packet_command (showing slots) input span.limit) (K.written sink.old) (K.written sink.new) (H.left shelf.new seats.In) result }
    ensures still_open { H.is_open shelf.new ≡ H.is_open shelf.old }
    ensures cause { LoneCause code_kind (H.faults shelf.old) (H.faults shelf.new) (K.faults sink.old) (K.faults sink.new) result }
    ensures sink_room { K.room sink.new ≡ K.room sink.old }
    ensures reached { AnswerRoom code_kind (K.room sink.old) (K.written sink.new) result }
{
    let mut held = BROADCAST_BYTES;
    for number in 0..span.limit {
        let place = FramePlace {
            number,
            first_packet: u64::from(span.head) + u64::from(slots) * u64::from(number),
            held,
        };
        match show_frame(slots, place, frame, shelf, sink) {
            Ok(true) => {}
            Ok(false) => return Ok(number),
            Err(fault) => return Err(fault),
        }
        held = 0;
    }
    end_at_limit(span.limit, shelf)
}

/// The frames of so many slots of a stream, in a buffer of a frame.
fn show_stream<H: Shelf, K: Sink>(
    slots: u32,
    limit: u32,
    frame: &mut [u8],
    shelf: &mut H,
    sink: &mut K,
) -> Result<u32, CodeFault>
    requires slots { 0 < slots }
    requires few_slots { slots ≤ 5120 }
    requires size { length frame.old ≡ 204 * slots }
    requires some { 0 < limit }
    requires few { limit ≤ 16777216 }
    requires is_open { H.is_open shelf.old seats.In ≡ true }
    ensures answer { (input : List ℕ) → H.left shelf.old seats.In ≡ Some input
        → LoneAnswer code_kind (packet_command (showing slots) input limit) (K.written sink.old) (K.written sink.new) (H.left shelf.new seats.In) result }
    ensures still_open { H.is_open shelf.new ≡ H.is_open shelf.old }
    ensures cause { LoneCause code_kind (H.faults shelf.old) (H.faults shelf.new) (K.faults sink.old) (K.faults sink.new) result }
    ensures sink_room { K.room sink.new ≡ K.room sink.old }
    ensures reached { AnswerRoom code_kind (K.room sink.old) (K.written sink.new) result }
{
    let head = match find_head(shelf, &mut frame[..BROADCAST_BYTES]) {
        Ok(Some(head)) => head,
        Ok(None) => return Ok(0),
        Err(fault) => return Err(fault),
    };
    let span = FrameSpan { head, limit };
    show_frames(slots, span, frame, shelf, sink)
}

/// Writes a line for each frame of the broadcast packets at the seat In, of a mode and a guard interval, at most `limit` of
/// them, and answers how many were written. A line has the frame's number, the frame indicator and the countdown of its
/// slot 0, and how many slots name the layers A, B, C and none.
///
/// The packets before the first that bears the frame head flag are passed over; it is looked for in 65,536. Frame after
/// frame is read, checked and shown: no byte past the frame in work is asked for. Refused are a packet without sync byte
/// and a misplaced head flag, but no count of a layer's packets.
///
/// All memory is taken before the first read, so that its want comes with nothing read and nothing written.
pub fn show_bts<H: Shelf, K: Sink>(
    alloc: Global,
    mode: Mode,
    guard: Guard,
    limit: u32,
    shelf: &mut H,
    sink: &mut K,
) -> Result<u32, CodeFault>
    requires some { 0 < limit }
    requires few { limit ≤ 16777216 }
    requires is_open { H.is_open shelf.old seats.In ≡ true }
    ensures answer { (input : List ℕ) → H.left shelf.old seats.In ≡ Some input
        → LoneAnswer code_kind (show_command mode guard input limit) (K.written sink.old) (K.written sink.new) (H.left shelf.new seats.In) result }
    ensures still_open { H.is_open shelf.new ≡ H.is_open shelf.old }
    ensures cause { LoneCause code_kind (H.faults shelf.old) (H.faults shelf.new) (K.faults sink.old) (K.faults sink.new) result }

    // The sink's room stays, and a write fails only where what was written reaches it.
    ensures room { K.room sink.new ≡ K.room sink.old }
    ensures reached { AnswerRoom code_kind (K.room sink.old) (K.written sink.new) result }
{
    let slots = slots(mode, guard);
    let Ok(mut frame) = zeros(alloc, BROADCAST_BYTES * slots as usize) else {
        return Err(CodeFault::NoMemory);
    };
    show_stream(slots, limit, &mut frame, shelf, sink)
}
