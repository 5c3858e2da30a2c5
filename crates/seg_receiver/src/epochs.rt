//! The frames of an epoch, with the receiver that is opened for it.

ghost use Rattle.std.specs.Prelude.{◌≡◌, ℕ, List, ◌+◌, ◌≤◌, ◌<◌, Bool, true, false, IfOk, IfSome};
ghost use Rattle.std.specs.declared.option.Option.{Option};
ghost use Rattle.edge_io.specs.declared.shelf.Seat.TheVariants as seats;
ghost use Rattle.edge_io.specs.FrameAnswers.{LoneCause, ReadingCause, AnswerRoom};
ghost use Rattle.tmcc_word.specs.Fields.{TmccFields};
ghost use Rattle.seg_receiver.specs.Aims.{aim_of};
ghost use Rattle.seg_receiver.specs.Buffers.{CanHave, HasRoom};
ghost use Rattle.seg_receiver.specs.CellStream.{view_of};
ghost use Rattle.seg_receiver.specs.EpochReceiver.{symbols_of, IsReceiverOf, StandsFor};
ghost use Rattle.isdbt_base.specs.declared.kinds.Mode.{Mode as SomeMode};
ghost use Rattle.isdbt_base.specs.declared.kinds.Guard.{Guard as SomeGuard};
ghost use Rattle.isdbt_base.specs.Parameters.{Parameters};
ghost use Rattle.seg_receiver.specs.ReceiveAnswers.{receive_kind};
ghost use Rattle.seg_receiver.specs.EpochAnswers.{Taken, TakeAnswer, AtEpoch, InEpoch, EpochAnswer, EndsPast};

use crate::aim::aim_of;
use crate::buffers::ReceiveBuffers;
use crate::epoch_receiver::{EpochReceiver, open_receiver};
use crate::fault::ReceiveFault;
use crate::feeding::feed_held;
use crate::frames::{CellFrame, read_further, read_held, write_received};
use crate::heads::take_head;
use edge_io::{Failed, Shelf, Sink};
use isdbt_base::{Guard, Mode, Reading};
use std::alloc::Global;
use tmcc_word::TmccInfo;

/// What is received: a stream that is read so, in full or for partial reception, at most so many frames of it.
#[derive(Clone, Copy)]
pub struct Reception {
    pub how: Reading,
    pub partial: bool,
    pub limit: u32,
}

/// What is received in an epoch: frames of this mode and guard interval.
#[derive(Clone, Copy)]
pub struct Epoch {
    pub how: Reading,
    pub partial: bool,
    pub limit: u32,
    pub mode: Mode,
    pub guard: Guard,
}

/// Where an epoch begins.
#[derive(Clone, Copy)]
pub struct EpochStart {
    /// Its first frame, or the limit of frames.
    pub frame: u32,
    /// The word of the frame before, if there is one.
    pub before: Option<(TmccInfo, bool)>,
}

/// How an epoch ends.
#[derive(Clone, Copy)]
pub enum EpochEnd {
    /// The stream ends, with so many frames in all.
    Input(u32),
    /// Another epoch begins, or the limit of frames is reached.
    Next(EpochStart),
}

/// Takes, feeds and checks the next frame of an epoch, if there is one, behind a frame with this word.
fn next_frame<H: Shelf>(
    receiver: &mut EpochReceiver,
    epoch: Epoch,
    number: u32,
    last: &(TmccInfo, bool),
    buffers: &mut ReceiveBuffers,
    shelf: &mut H,
) -> Result<Option<(TmccInfo, bool)>, ReceiveFault>
    requires receiver { (s : Parameters) × IsReceiverOf epoch.partial epoch.mode epoch.guard s receiver.old }
    requires fresh { symbols_of receiver.old ≡ 0 }
    requires below { number < epoch.limit }
    requires can_have { CanHave epoch.how.form epoch.mode epoch.guard }
    requires room { HasRoom epoch.how.form buffers.old }
    requires is_open { H.is_open shelf.old seats.In ≡ true }
    ensures still_open { H.is_open shelf.new ≡ H.is_open shelf.old }
    ensures room_kept { HasRoom epoch.how.form buffers.new }
    ensures answer { (stream : List ℕ) (start : ℕ) (first now : Option (List ℕ))
        → InEpoch (view_of epoch.how stream) (aim_of epoch.partial) stream epoch.limit start number (epoch.mode, epoch.guard) last.now (H.left shelf.old seats.In) first now → (last.now.0.countdown ≡ 0 → ⊥)
        → TakeAnswer (view_of epoch.how stream) (aim_of epoch.partial) stream epoch.limit number (epoch.mode, epoch.guard) (Option.Some last.now) buffers.new.frame.items first now (H.left shelf.new seats.In) result }
    ensures state { IfOk result (λ o. IfSome o (λ word. (stream : List ℕ) (start h : ℕ) (first now : Option (List ℕ))
        → InEpoch (view_of epoch.how stream) (aim_of epoch.partial) stream epoch.limit start number (epoch.mode, epoch.guard) last.now (H.left shelf.old seats.In) first now → (last.now.0.countdown ≡ 0 → ⊥)
        → start + h ≡ number → StandsFor receiver.old (view_of epoch.how stream).cell start h → StandsFor receiver.new (view_of epoch.how stream).cell start h)) }
    ensures symbols { IfOk result (λ o. IfSome o (λ word. symbols_of receiver.new ≡ 204)) }
    ensures kept { (partial : Bool) (m : SomeMode) (g : SomeGuard) (s : Parameters) → IsReceiverOf partial m g s receiver.old → IsReceiverOf partial m g s receiver.new }
    ensures cause { ReadingCause receive_kind (H.faults shelf.old) (H.faults shelf.new) result }
{
    let due = Some((epoch.mode, epoch.guard));
    match take_head(epoch.how, number, due, shelf) {
        Ok(Some(_)) => {}
        Ok(None) => return Ok(None),
        Err(fault) => return Err(fault),
    }
    let frame = CellFrame {
        how: epoch.how,
        aim: aim_of(epoch.partial),
        number,
        mode: epoch.mode,
        guard: epoch.guard,
    };
    read_further(
        receiver,
        frame,
        &Some(*last),
        &mut buffers.frame,
        &mut buffers.cells,
        shelf,
    )
}

/// The frames of an epoch behind its first, from frame `next` on: reads, checks, receives and writes one after another.
fn receive_further<H: Shelf, K: Sink>(
    receiver: &mut EpochReceiver,
    epoch: Epoch,
    next: u32,
    word: &(TmccInfo, bool),
    buffers: &mut ReceiveBuffers,
    shelf: &mut H,
    sink: &mut K,
) -> Result<EpochEnd, ReceiveFault>
    requires receiver { IsReceiverOf epoch.partial epoch.mode epoch.guard word.now.0.now receiver.old }
    requires fresh { symbols_of receiver.old ≡ 0 }
    requires some { 0 < next }
    requires most { next ≤ epoch.limit }
    requires can_have { CanHave epoch.how.form epoch.mode epoch.guard }
    requires room { HasRoom epoch.how.form buffers.old }
    requires is_open { H.is_open shelf.old seats.In ≡ true }
    ensures still_open { H.is_open shelf.new ≡ H.is_open shelf.old }
    ensures kept { HasRoom epoch.how.form buffers.new }
    ensures past { (f : ℕ) → f < next → EndsPast f epoch.limit result }
    ensures answer { (stream : List ℕ) (start h : ℕ) (first : Option (List ℕ)) → start + h ≡ next → 0 < h
        → StandsFor receiver.old (view_of epoch.how stream).cell start h
        → InEpoch (view_of epoch.how stream) (aim_of epoch.partial) stream epoch.limit start next (epoch.mode, epoch.guard) word.now (H.left shelf.old seats.In) first (K.written sink.old)
        → EpochAnswer (view_of epoch.how stream) (aim_of epoch.partial) stream epoch.limit first (K.written sink.new) (H.left shelf.new seats.In) result }
    ensures cause { LoneCause receive_kind (H.faults shelf.old) (H.faults shelf.new) (K.faults sink.old) (K.faults sink.new) result }
    ensures sink_room { K.room sink.new ≡ K.room sink.old }
    ensures reached { AnswerRoom receive_kind (K.room sink.old) (K.written sink.new) result }
{
    let mut last = *word;
    for number in next..epoch.limit {
        if last.0.countdown == 0 {
            return Ok(EpochEnd::Next(EpochStart {
                frame: number,
                before: Some(last),
            }));
        }
        let word = match next_frame(receiver, epoch, number, &last, buffers, shelf) {
            Ok(Some(word)) => word,
            Ok(None) => return Ok(EpochEnd::Input(number)),
            Err(fault) => return Err(fault),
        };
        match write_received(receiver, &word, false, &mut buffers.out, sink) {
            Ok(()) => {}
            Err(Failed) => return Err(ReceiveFault::WriteFault),
        }
        last = word;
    }
    Ok(EpochEnd::Next(EpochStart {
        frame: epoch.limit,
        before: Some(last),
    }))
}

/// An epoch whose first frame is held and checked, and has this word: opens the receiver, and gives out this frame and those
/// behind it.
fn receive_held<H: Shelf, K: Sink>(
    alloc: Global,
    epoch: Epoch,
    number: u32,
    word: &(TmccInfo, bool),
    buffers: &mut ReceiveBuffers,
    shelf: &mut H,
    sink: &mut K,
) -> Result<EpochEnd, ReceiveFault>
    requires flag { epoch.partial ≡ true → word.now.0.now.partial ≡ true }
    requires below { number < epoch.limit }
    requires few { epoch.limit ≤ 16777216 }
    requires can_have { CanHave epoch.how.form epoch.mode epoch.guard }
    requires room { HasRoom epoch.how.form buffers.old }
    requires is_open { H.is_open shelf.old seats.In ≡ true }
    ensures still_open { H.is_open shelf.new ≡ H.is_open shelf.old }
    ensures kept { HasRoom epoch.how.form buffers.new }
    ensures past { EndsPast number epoch.limit result }
    ensures answer { (stream : List ℕ) (last : Option (TmccFields × Bool)) (known first : Option (List ℕ))
        → AtEpoch (view_of epoch.how stream) (aim_of epoch.partial) stream epoch.limit number last known first (K.written sink.old)
        → Taken (view_of epoch.how stream) (aim_of epoch.partial) stream epoch.limit number (epoch.mode, epoch.guard) last word.now buffers.old.frame.items (H.left shelf.old seats.In)
        → EpochAnswer (view_of epoch.how stream) (aim_of epoch.partial) stream epoch.limit first (K.written sink.new) (H.left shelf.new seats.In) result }
    ensures cause { LoneCause receive_kind (H.faults shelf.old) (H.faults shelf.new) (K.faults sink.old) (K.faults sink.new) result }
    ensures sink_room { K.room sink.new ≡ K.room sink.old }
    ensures reached { AnswerRoom receive_kind (K.room sink.old) (K.written sink.new) result }
{
    let info = word.0;
    let Ok(mut receiver) = open_receiver(alloc, epoch.partial, &info.now, epoch.mode, epoch.guard)
    else {
        return Err(ReceiveFault::NoMemory);
    };
    feed_held(
        &mut receiver,
        epoch.mode,
        &buffers.frame,
        &mut buffers.cells,
    );
    match write_received(&mut receiver, word, true, &mut buffers.out, sink) {
        Ok(()) => {}
        Err(Failed) => return Err(ReceiveFault::WriteFault),
    }
    receive_further(&mut receiver, epoch, number + 1, word, buffers, shelf, sink)
}

/// The epoch that begins at a frame below the limit.
pub fn receive_epoch<H: Shelf, K: Sink>(
    alloc: Global,
    reception: Reception,
    start: &EpochStart,
    buffers: &mut ReceiveBuffers,
    shelf: &mut H,
    sink: &mut K,
) -> Result<EpochEnd, ReceiveFault>
    requires below { start.now.frame < reception.limit }
    requires few { reception.limit ≤ 16777216 }
    requires room { HasRoom reception.how.form buffers.old }
    requires is_open { H.is_open shelf.old seats.In ≡ true }
    ensures still_open { H.is_open shelf.new ≡ H.is_open shelf.old }
    ensures kept { HasRoom reception.how.form buffers.new }
    ensures past { EndsPast start.now.frame reception.limit result }
    ensures answer { (stream : List ℕ) (first : Option (List ℕ))
        → AtEpoch (view_of reception.how stream) (aim_of reception.partial) stream reception.limit start.now.frame start.now.before (H.left shelf.old seats.In) first (K.written sink.old)
        → EpochAnswer (view_of reception.how stream) (aim_of reception.partial) stream reception.limit first (K.written sink.new) (H.left shelf.new seats.In) result }
    ensures cause { LoneCause receive_kind (H.faults shelf.old) (H.faults shelf.new) (K.faults sink.old) (K.faults sink.new) result }
    ensures sink_room { K.room sink.new ≡ K.room sink.old }
    ensures reached { AnswerRoom receive_kind (K.room sink.old) (K.written sink.new) result }
{
    let number = start.frame;
    let before = start.before;
    let how = reception.how;
    let (mode, guard) = match take_head(how, number, None, shelf) {
        Ok(Some(said)) => said,
        Ok(None) => return Ok(EpochEnd::Input(number)),
        Err(fault) => return Err(fault),
    };
    let partial = reception.partial;
    let frame = CellFrame {
        how,
        aim: aim_of(partial),
        number,
        mode,
        guard,
    };
    let word = match read_held(frame, &before, &mut buffers.frame, shelf) {
        Ok(Some(word)) => word,
        Ok(None) => return Ok(EpochEnd::Input(number)),
        Err(fault) => return Err(fault),
    };
    let epoch = Epoch {
        how,
        partial,
        limit: reception.limit,
        mode,
        guard,
    };
    receive_held(alloc, epoch, number, &word, buffers, shelf, sink)
}
