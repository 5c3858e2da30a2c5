//! Cells into lines that list their frames.

ghost use Rattle.std.specs.Prelude.{◌≡◌, ℕ, List, ◌≤◌, ◌<◌, Some, Ok, None, true, length, take};
ghost use Rattle.edge_io.specs.declared.shelf.Seat.TheVariants as seats;
ghost use Rattle.edge_io.specs.FrameAnswers.{LoneAnswer, LoneCause, AnswerRoom};
ghost use Rattle.coder_core.specs.SentCells.{frame_size};
ghost use Rattle.seg_receiver.specs.declared.aim.Aim.TheVariants as aims;
ghost use Rattle.seg_receiver.specs.Buffers.{largest_mode};
ghost use Rattle.seg_receiver.specs.CellStream.{stream_word, view_of};
ghost use Rattle.seg_receiver.specs.Epochs.{due_behind};
ghost use Rattle.seg_receiver.specs.FrameLines.{restored, word_line};
ghost use Rattle.seg_receiver.specs.ReceiveAnswers.{receive_kind, receive_command};

use crate::aim::Aim;
use crate::buffers::frame_buffer;
use crate::corrections::restored;
use crate::fault::ReceiveFault;
use crate::frames::{CellFrame, read_held};
use crate::heads::take_head;
use crate::limit::end_at_limit;
use crate::symbols::word_in;
use edge_io::{Failed, Shelf, Sink, write_whole};
use isdbt_base::{Guard, Mode, Reading, SYMBOLS, symbol_size};
use setting_words::{CellsLine, Line, cells_line};
use std::alloc::Global;
use tmcc_word::TmccInfo;

/// The line of a frame of this mode whose word says this, of which so many bits were restored, where words are corrected.
fn line_of(frame: u32, mode: Mode, restored: Option<u32>, word: &(TmccInfo, bool)) -> Line
    ensures { result.bytes ≡ word_line mode frame restored (Ok word.now) }
{
    cells_line(&CellsLine {
        frame,
        odd: word.1,
        countdown: word.0.countdown,
        mode,
        now: word.0.now,
        next: word.0.next,
        restored,
    })
}

/// What the head of a frame must repeat behind a frame of this mode and guard interval, whose word says this.
fn due_behind(mode: Mode, guard: Guard, word: &(TmccInfo, bool)) -> Option<(Mode, Guard)>
    ensures { result ≡ due_behind (mode, guard) word.now }
{
    if word.0.countdown == 0 {
        None
    } else {
        Some((mode, guard))
    }
}

/// How many bits of the word of a frame are restored whose symbols stand at the front of a buffer, where words are corrected.
fn restored_in(fix: bool, mode: Mode, buffer: &[u8]) -> Option<u32>
    requires { frame_size mode ≤ length buffer.now }
    ensures { result ≡ restored fix (stream_word mode (take (frame_size mode) buffer.now) 0) }
{
    restored(fix, word_in(&buffer[..SYMBOLS * symbol_size(mode)], mode))
}

/// The frames of the stream, each read into this buffer and listed.
fn show_frames<H: Shelf, K: Sink>(
    how: Reading,
    limit: u32,
    buffer: &mut [u8],
    shelf: &mut H,
    sink: &mut K,
) -> Result<u32, ReceiveFault>
    requires few { limit ≤ 16777216 }
    requires room_for { length buffer.old ≡ frame_size (largest_mode how.form) }
    requires is_open { H.is_open shelf.old seats.In ≡ true }
    ensures answer { (stream : List ℕ) → H.left shelf.old seats.In ≡ Some stream
        → LoneAnswer receive_kind (receive_command (view_of how stream) aims.Lines stream limit) (K.written sink.old) (K.written sink.new) (H.left shelf.new seats.In) result }
    ensures still_open { H.is_open shelf.new ≡ H.is_open shelf.old }
    ensures cause { LoneCause receive_kind (H.faults shelf.old) (H.faults shelf.new) (K.faults sink.old) (K.faults sink.new) result }
    ensures room { K.room sink.new ≡ K.room sink.old }
    ensures reached { AnswerRoom receive_kind (K.room sink.old) (K.written sink.new) result }
{
    let mut due = None;
    let mut last = None;
    for number in 0..limit {
        let (mode, guard) = match take_head(how, number, due, shelf) {
            Ok(Some(said)) => said,
            Ok(None) => return Ok(number),
            Err(fault) => return Err(fault),
        };
        let frame = CellFrame {
            how,
            aim: Aim::Lines,
            number,
            mode,
            guard,
        };
        let word = match read_held(frame, &last, buffer, shelf) {
            Ok(Some(word)) => word,
            Ok(None) => return Ok(number),
            Err(fault) => return Err(fault),
        };
        let line = line_of(number, mode, restored_in(how.fix, mode, buffer), &word);
        match write_whole(sink, line.as_bytes()) {
            Ok(()) => {}
            Err(Failed) => return Err(ReceiveFault::WriteFault),
        }
        due = due_behind(mode, guard, &word);
        last = Some(word);
    }
    end_at_limit(limit, shelf)
}

/// Lists the frames of the stream of cells at the seat In, read as `how` says, at most `limit` of them, and answers how many.
/// For each frame one line is written, [`setting_words::cells_line`] of what its TMCC word says: both settings in the time
/// interleaving lengths of the frame's own mode. Each line is written as its frame is read, and no byte past that frame is
/// asked for.
///
/// Each frame is checked as [`receive`](crate::receive) does, but its word by its reading alone: it may have the sync word of
/// the frame before and a setting that wasn't announced.
///
/// Memory is taken before the first read alone, for the largest frame that the version can have.
pub fn show_cells<H: Shelf, K: Sink>(
    alloc: Global,
    how: Reading,
    limit: u32,
    shelf: &mut H,
    sink: &mut K,
) -> Result<u32, ReceiveFault>
    requires some { 0 < limit }
    requires few { limit ≤ 16777216 }
    requires is_open { H.is_open shelf.old seats.In ≡ true }
    ensures answer { (stream : List ℕ) → H.left shelf.old seats.In ≡ Some stream
        → LoneAnswer receive_kind (receive_command (view_of how stream) aims.Lines stream limit) (K.written sink.old) (K.written sink.new) (H.left shelf.new seats.In) result }
    ensures still_open { H.is_open shelf.new ≡ H.is_open shelf.old }
    ensures cause { LoneCause receive_kind (H.faults shelf.old) (H.faults shelf.new) (K.faults sink.old) (K.faults sink.new) result }

    // The sink's room stays, and a write fails only where what was written reaches it.
    ensures room { K.room sink.new ≡ K.room sink.old }
    ensures reached { AnswerRoom receive_kind (K.room sink.old) (K.written sink.new) result }
{
    let Ok(mut buffer) = frame_buffer(alloc, how.form) else {
        return Err(ReceiveFault::NoMemory);
    };
    show_frames(how, limit, &mut buffer, shelf, sink)
}
