//! Cells into broadcast packets.

ghost use Rattle.std.specs.Prelude.{◌≡◌, ℕ, List, ◌≤◌, ◌<◌, Some, true, false};
ghost use Rattle.edge_io.specs.declared.shelf.Seat.TheVariants as seats;
ghost use Rattle.edge_io.specs.FrameAnswers.{LoneAnswer, LoneCause, AnswerRoom};
ghost use Rattle.seg_receiver.specs.declared.aim.Aim.TheVariants as aims;
ghost use Rattle.seg_receiver.specs.Aims.{aim_of};
ghost use Rattle.seg_receiver.specs.Buffers.{HasRoom};
ghost use Rattle.seg_receiver.specs.CellStream.{view_of};
ghost use Rattle.seg_receiver.specs.ReceiveAnswers.{receive_kind, receive_command};

use crate::buffers::ReceiveBuffers;
use crate::epochs::{EpochEnd, EpochStart, Reception, receive_epoch};
use crate::fault::ReceiveFault;
use crate::limit::end_at_limit;
use edge_io::{Shelf, Sink};
use isdbt_base::Reading;
use std::alloc::Global;

/// The epochs of the stream, one after another, with these buffers.
fn receive_epochs<H: Shelf, K: Sink>(
    alloc: Global,
    reception: Reception,
    buffers: &mut ReceiveBuffers,
    shelf: &mut H,
    sink: &mut K,
) -> Result<u32, ReceiveFault>
    requires few { reception.limit ≤ 16777216 }
    requires room_for { HasRoom reception.how.form buffers.old }
    requires is_open { H.is_open shelf.old seats.In ≡ true }
    ensures answer { (stream : List ℕ) → H.left shelf.old seats.In ≡ Some stream
        → LoneAnswer receive_kind (receive_command (view_of reception.how stream) (aim_of reception.partial) stream reception.limit) (K.written sink.old) (K.written sink.new) (H.left shelf.new seats.In) result }
    ensures still_open { H.is_open shelf.new ≡ H.is_open shelf.old }
    ensures cause { LoneCause receive_kind (H.faults shelf.old) (H.faults shelf.new) (K.faults sink.old) (K.faults sink.new) result }
    ensures room { K.room sink.new ≡ K.room sink.old }
    ensures reached { AnswerRoom receive_kind (K.room sink.old) (K.written sink.new) result }
{
    let mut start = EpochStart {
        frame: 0,
        before: None,
    };
    while start.frame < reception.limit {
        let end = receive_epoch(alloc, reception, &start, buffers, shelf, sink);
        match end {
            Ok(EpochEnd::Input(count)) => return Ok(count),
            Ok(EpochEnd::Next(next)) => start = next,
            Err(fault) => return Err(fault),
        }
    }
    end_at_limit(reception.limit, shelf)
}

/// A reception, with buffers of its own.
fn receive_stream<H: Shelf, K: Sink>(
    alloc: Global,
    reception: Reception,
    shelf: &mut H,
    sink: &mut K,
) -> Result<u32, ReceiveFault>
    requires few { reception.limit ≤ 16777216 }
    requires is_open { H.is_open shelf.old seats.In ≡ true }
    ensures answer { (stream : List ℕ) → H.left shelf.old seats.In ≡ Some stream
        → LoneAnswer receive_kind (receive_command (view_of reception.how stream) (aim_of reception.partial) stream reception.limit) (K.written sink.old) (K.written sink.new) (H.left shelf.new seats.In) result }
    ensures still_open { H.is_open shelf.new ≡ H.is_open shelf.old }
    ensures cause { LoneCause receive_kind (H.faults shelf.old) (H.faults shelf.new) (K.faults sink.old) (K.faults sink.new) result }
    ensures room { K.room sink.new ≡ K.room sink.old }
    ensures reached { AnswerRoom receive_kind (K.room sink.old) (K.written sink.new) result }
{
    let Ok(mut buffers) = ReceiveBuffers::open(alloc, reception.how.form) else {
        return Err(ReceiveFault::NoMemory);
    };
    receive_epochs(alloc, reception, &mut buffers, shelf, sink)
}

/// Receives the stream of cells at the seat In, read as `how` says, at most `limit` frames, and answers how many were
/// written. For each frame of cells one frame of broadcast packets is written: each layer's packets as many frames late
/// as the layer's delay, with null packets before. The mode and the guard interval of a frame are those of the reading in
/// version 1, and in version 2 those of the frame's head. All else is said by the TMCC word of each frame: the setting, and by
/// the countdown where an epoch ends; at each epoch a new receiver begins. Frame after frame is read, checked,
/// received and written, and each symbol is worked on as it is read; only the first frame of an epoch is held
/// whole, as its receiver is opened after its checks. No byte past the frame in work is asked for.
///
/// Each frame is checked in this order: a failed read, the limit, an end inside the head, the head, an end inside the
/// symbols, the word, and the setting that was announced.
///
/// Memory is taken before the first read, for the largest frames that the version can have, and behind the first frame of each
/// epoch.
pub fn receive<H: Shelf, K: Sink>(
    alloc: Global,
    how: Reading,
    limit: u32,
    shelf: &mut H,
    sink: &mut K,
) -> Result<u32, ReceiveFault>
    requires some { 0 < limit }
    requires few { limit ≤ 16777216 }
    requires is_open { H.is_open shelf.old seats.In ≡ true }
    ensures answer { (stream : List ℕ) → H.left shelf.old seats.In ≡ Some stream
        → LoneAnswer receive_kind (receive_command (view_of how stream) aims.Full stream limit) (K.written sink.old) (K.written sink.new) (H.left shelf.new seats.In) result }
    ensures still_open { H.is_open shelf.new ≡ H.is_open shelf.old }
    ensures cause { LoneCause receive_kind (H.faults shelf.old) (H.faults shelf.new) (K.faults sink.old) (K.faults sink.new) result }

    // The sink's room stays, and a write fails only where what was written reaches it.
    ensures room { K.room sink.new ≡ K.room sink.old }
    ensures reached { AnswerRoom receive_kind (K.room sink.old) (K.written sink.new) result }
{
    let reception = Reception {
        how,
        partial: false,
        limit,
    };
    receive_stream(alloc, reception, shelf, sink)
}

/// Receives layer A alone of the stream of cells at the seat In: partial reception, from segment 0 and the TMCC words. For each
/// frame of cells layer A's packets are written, 188 bytes each, as many frames late as the layer's delay: none in the first
/// frames of each epoch. The other segments may hold any bytes. All else is as in [`receive`]; behind the setting that was
/// announced a frame is checked for its partial reception flag.
pub fn receive_partial<H: Shelf, K: Sink>(
    alloc: Global,
    how: Reading,
    limit: u32,
    shelf: &mut H,
    sink: &mut K,
) -> Result<u32, ReceiveFault>
    requires some { 0 < limit }
    requires few { limit ≤ 16777216 }
    requires is_open { H.is_open shelf.old seats.In ≡ true }
    ensures answer { (stream : List ℕ) → H.left shelf.old seats.In ≡ Some stream
        → LoneAnswer receive_kind (receive_command (view_of how stream) aims.Partial stream limit) (K.written sink.old) (K.written sink.new) (H.left shelf.new seats.In) result }
    ensures still_open { H.is_open shelf.new ≡ H.is_open shelf.old }
    ensures cause { LoneCause receive_kind (H.faults shelf.old) (H.faults shelf.new) (K.faults sink.old) (K.faults sink.new) result }

    // The sink's room stays, and a write fails only where what was written reaches it.
    ensures room { K.room sink.new ≡ K.room sink.old }
    ensures reached { AnswerRoom receive_kind (K.room sink.old) (K.written sink.new) result }
{
    let reception = Reception {
        how,
        partial: true,
        limit,
    };
    receive_stream(alloc, reception, shelf, sink)
}
