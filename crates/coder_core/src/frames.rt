//! The frames of a plan in a stream of broadcast packets, one after another: read, checked, coded and written.

ghost use Rattle.std.specs.Prelude.{◌≡◌, ℕ, List, ◌++◌, ◌+◌, ◌*◌, ◌%◌, ◌==◌, ◌≤◌, ◌<◌, ◌^◌, true, false, length, take, vec_items, IfOk, OnOk, OnErr};
ghost use Rattle.std.specs.declared.option.Option.{Option};
ghost use Rattle.isdbt_base.specs.Numbers.{slots_per_frame};
ghost use Rattle.isdbt_base.specs.Plans.{at_frame};
ghost use Rattle.isdbt_base.specs.Epochs.{begins_later};
ghost use Rattle.isdbt_base.specs.Frames.{FramePackets};
ghost use Rattle.isdbt_base.specs.declared.stream.Writing.{Writing};
ghost use Rattle.edge_io.specs.declared.shelf.Seat.TheVariants as seats;
ghost use Rattle.edge_io.specs.Known.{append_known, ReachesRoom};
ghost use Rattle.edge_io.specs.Causes.{HasCause};
ghost use Rattle.edge_io.specs.FrameAnswers.{ReadingCause, LoneCause, AnswerRoom};
ghost use Rattle.coder_core.specs.FrameChecks.{CanCode};
ghost use Rattle.coder_core.specs.InputFrames.{slots_at, packets_before};
ghost use Rattle.coder_core.specs.SentCells.{epoch_frame_cells, frame_size, plan_word, sent_head};
ghost use Rattle.coder_core.specs.Coder.{mode_of, guard_of, setting_of, IsFrameOf, StandsFor};
ghost use Rattle.coder_core.specs.Answers.{code_kind};
ghost use Rattle.coder_core.specs.Buffers.{HasRoom};
ghost use Rattle.coder_core.specs.FrameSteps.{Progress, Taken, StepAnswer, IsOfFrame, StandsAt, coding_run, AtFrame};

use crate::buffers::CodeBuffers;
use crate::check::check_frame;
use crate::coder::Coder;
use crate::fault::CodeFault;
use crate::reading::{FramePlace, read_frame};
use edge_io::{Failed, Shelf, Sink, write_whole};
use isdbt_base::{
    BROADCAST_BYTES, NoMemory, Plan, SYMBOLS, Writing, head_of, put, slots, symbol_size,
};
use std::alloc::Global;
use tmcc_word::{TmccInfo, word_of};

/// What is sent: a plan, in a version of the stream of cells.
#[derive(Clone, Copy)]
pub struct Sending<'a> {
    pub plan: &'a Plan,
    pub how: Writing,
}

/// Slots of a frame of the plan.
pub fn slots_at(plan: &Plan, frame: u32) -> u32
    ensures value { result ≡ slots_at plan.now frame }
    ensures least { 1056 ≤ result }
    ensures most { result ≤ 5120 }
{
    let at = plan.at(frame);
    slots(at.mode, at.guard)
}

/// The TMCC word of a frame of the plan.
pub fn word_at(plan: &Plan, frame: u32) -> [bool; 204]
    ensures { result ≡ plan_word plan.now frame }
{
    let at = plan.at(frame);
    let info = TmccInfo {
        start_up: false,
        countdown: at.countdown,
        now: at.setting,
        next: at.next,
    };
    word_of(&info, frame % 2 == 1)
}

/// Reads a frame behind its bytes that stand in the buffer already, and checks it. It is false where the input ended before
/// the frame.
fn take_frame<H: Shelf>(
    plan: &Plan,
    place: FramePlace,
    buffer: &mut [u8],
    shelf: &mut H,
) -> Result<bool, CodeFault>
    requires first { place.first_packet ≤ 2 ^ 60 }
    requires held { place.held ≤ 204 }
    requires room { 204 * slots_at plan.now place.number ≤ length buffer.old }
    requires is_open { H.is_open shelf.old seats.In ≡ true }
    ensures still_open { H.is_open shelf.new ≡ H.is_open shelf.old }
    ensures codable { IfOk result (λ there. there ≡ true
        → CanCode (at_frame plan.now place.number).setting (at_frame plan.now place.number).mode (take (204 * slots_at plan.now place.number) buffer.new)) }
    ensures answer { (how : Writing) (input : List ℕ) (limit head : ℕ) (before now : Option (List ℕ)) → place.number < limit → place.first_packet ≡ head + packets_before (slots_at plan.now) place.number
        → Progress (coding_run how plan.now input limit head) place.number place.held buffer.old (H.left shelf.old seats.In) before now
        → StepAnswer (coding_run how plan.now input limit head) place.number
        (Taken (coding_run how plan.now input limit head) place.number (take (204 * slots_at plan.now place.number) buffer.new) (H.left shelf.new seats.In) before now)
        (H.left shelf.new seats.In) before now result }
    ensures cause { ReadingCause code_kind (H.faults shelf.old) (H.faults shelf.new) result }
{
    let at = plan.at(place.number);
    let size = BROADCAST_BYTES * slots_at(plan, place.number) as usize;
    let frame = &mut buffer[..size];
    match read_frame(place.held, frame, shelf) {
        Ok(true) => {}
        Ok(false) => return Ok(false),
        Err(fault) => return Err(fault),
    }
    match check_frame(
        &at.setting,
        at.mode,
        place.number,
        place.first_packet,
        frame,
    ) {
        Ok(()) => Ok(true),
        Err(fault) => Err(fault),
    }
}

/// Whether an epoch behind the first begins with a frame.
fn begins_epoch(plan: &Plan, number: u32) -> bool
    ensures { result ≡ begins_later plan.now number }
{
    number > 0 && plan.at(number).start == number
}

/// Makes the coder that of a frame's epoch: where one begins behind the first, a coder that has seen no frame. Fails only
/// if memory runs out.
fn turn_to(alloc: Global, plan: &Plan, number: u32, coder: &mut Coder) -> Result<(), NoMemory>
    requires { begins_later plan.now number ≡ false → IsOfFrame coder.old plan.now number }
    ensures of_frame { OnOk result (IsOfFrame coder.new plan.now number) }
    ensures stands { OnOk result ((frames : FramePackets) → (begins_later plan.now number ≡ false → StandsAt coder.old plan.now frames number) → StandsAt coder.new plan.now frames number) }
    ensures opens { OnErr result (begins_later plan.now number ≡ true) }
{
    if !begins_epoch(plan, number) {
        return Ok(());
    }
    let at = plan.at(number);
    *coder = Coder::open(alloc, &at.setting, at.mode, at.guard)?;
    Ok(())
}

/// Puts what stands before a frame's symbols into the buffer, and says how many bytes that is.
fn put_head(sending: Sending, number: u32, buffer: &mut [u8]) -> usize
    requires { 8 ≤ length buffer.old }
    ensures size { result ≡ length (sent_head sending.entry.how sending.entry.plan.now number) }
    ensures most { result ≤ 8 }
    ensures bytes { take result buffer.new ≡ sent_head sending.entry.how sending.entry.plan.now number }
{
    if !sending.how.v2 {
        return 0;
    }
    let at = sending.plan.at(number);
    put(buffer, 0, &head_of(at.mode, at.guard))
}

/// Codes a frame that can be coded into the buffer, and writes its head and its cells.
fn write_cells<K: Sink>(
    sending: Sending,
    coder: &mut Coder,
    number: u32,
    frame: &[u8],
    buffer: &mut [u8],
    sink: &mut K,
) -> Result<(), Failed>
    requires size { length frame.now ≡ 204 * slots_per_frame (mode_of coder.old) (guard_of coder.old) }
    requires codable { CanCode (setting_of coder.old) (mode_of coder.old) frame.now }
    requires mode { mode_of coder.old ≡ (at_frame sending.plan.now number).mode }
    requires room { 8 + frame_size (at_frame sending.plan.now number).mode ≤ length buffer.old }
    ensures ok { OnOk result ((frames : FramePackets) (start g : ℕ) → StandsFor coder.old frames start g → IsFrameOf (setting_of coder.old) (mode_of coder.old) frame.now frames (start + g)
        → K.written sink.new ≡ append_known (K.written sink.old) (sent_head sending.entry.how sending.entry.plan.now number ++ epoch_frame_cells (mode_of coder.old) (setting_of coder.old) frames start g (plan_word sending.entry.plan.now number))) }
    ensures some { OnErr result ((frames : FramePackets) (start g : ℕ) → StandsFor coder.old frames start g → IsFrameOf (setting_of coder.old) (mode_of coder.old) frame.now frames (start + g)
        → (n : ℕ) × (n < length (sent_head sending.entry.how sending.entry.plan.now number ++ epoch_frame_cells (mode_of coder.old) (setting_of coder.old) frames start g (plan_word sending.entry.plan.now number)))
        × (K.written sink.new ≡ append_known (K.written sink.old) (take n (sent_head sending.entry.how sending.entry.plan.now number ++ epoch_frame_cells (mode_of coder.old) (setting_of coder.old) frames start g (plan_word sending.entry.plan.now number))))) }
    ensures state { (frames : FramePackets) (start g : ℕ) → StandsFor coder.old frames start g → IsFrameOf (setting_of coder.old) (mode_of coder.old) frame.now frames (start + g) → StandsFor coder.new frames start (g + 1) }
    ensures mode_kept { mode_of coder.new ≡ mode_of coder.old }
    ensures guard { guard_of coder.new ≡ guard_of coder.old }
    ensures setting { setting_of coder.new ≡ setting_of coder.old }
    ensures sink_room { K.room sink.new ≡ K.room sink.old }
    ensures reached { OnErr result (ReachesRoom (K.room sink.old) (K.written sink.new)) }
    ensures cause { HasCause (K.faults sink.old) (K.faults sink.new) result }
{
    let head = put_head(sending, number, buffer);
    let end = head + SYMBOLS * symbol_size(sending.plan.at(number).mode);
    coder.frame(
        frame,
        &word_at(sending.plan, number),
        &mut buffer[head..end],
    );
    write_whole(sink, &buffer[..end])
}

/// Reads, checks, codes and writes a frame. It is false where the input ended before the frame.
///
/// Where an epoch begins with the frame, its coder is opened behind the check.
pub fn code_frame<H: Shelf, K: Sink>(
    alloc: Global,
    sending: Sending,
    coder: &mut Coder,
    place: FramePlace,
    buffers: &mut CodeBuffers,
    shelf: &mut H,
    sink: &mut K,
) -> Result<bool, CodeFault>
    requires coder { begins_later sending.plan.now place.number ≡ false → IsOfFrame coder.old sending.plan.now place.number }
    requires first { place.first_packet ≤ 2 ^ 60 }
    requires held { place.held ≤ 204 }
    requires room { HasRoom sending.plan.now buffers.old }
    requires is_open { H.is_open shelf.old seats.In ≡ true }
    ensures still_open { H.is_open shelf.new ≡ H.is_open shelf.old }
    ensures kept { HasRoom sending.entry.plan.now buffers.new }
    ensures next_coder { IfOk result (λ there. there ≡ true → begins_later sending.entry.plan.now (place.number + 1) ≡ false → IsOfFrame coder.new sending.entry.plan.now (place.number + 1)) }
    ensures answer { (input : List ℕ) (limit head : ℕ) (first : Option (List ℕ)) → place.number < limit → place.first_packet ≡ head + packets_before (slots_at sending.entry.plan.now) place.number
        → AtFrame sending.entry.how sending.entry.plan.now input limit head place.number place.held coder.old (vec_items buffers.old.frame) (H.left shelf.old seats.In) first (K.written sink.old)
        → StepAnswer (coding_run sending.entry.how sending.entry.plan.now input limit head) place.number
        (AtFrame sending.entry.how sending.entry.plan.now input limit head (place.number + 1) 0 coder.new (vec_items buffers.new.frame) (H.left shelf.new seats.In) first (K.written sink.new))
        (H.left shelf.new seats.In) first (K.written sink.new) result }
    ensures cause { LoneCause code_kind (H.faults shelf.old) (H.faults shelf.new) (K.faults sink.old) (K.faults sink.new) result }
    ensures sink_room { K.room sink.new ≡ K.room sink.old }
    ensures reached { AnswerRoom code_kind (K.room sink.old) (K.written sink.new) result }
{
    sending.plan.acceptance_law();
    let number = place.number;
    match take_frame(sending.plan, place, &mut buffers.frame, shelf) {
        Ok(true) => {}
        Ok(false) => return Ok(false),
        Err(fault) => return Err(fault),
    }
    match turn_to(alloc, sending.plan, number, coder) {
        Ok(()) => {}
        Err(NoMemory) => return Err(CodeFault::NoMemory),
    }
    let size = BROADCAST_BYTES * slots_at(sending.plan, number) as usize;
    let frame = &buffers.frame[..size];
    match write_cells(sending, coder, number, frame, &mut buffers.cells, sink) {
        Ok(()) => Ok(true),
        Err(Failed) => Err(CodeFault::WriteFault),
    }
}
