//! The frames of a stream of cells, one after another: read, checked and written.

ghost use Rattle.std.specs.Prelude.{◌≡◌, ℕ, Bool, List, ◌+◌, ◌*◌, ◌≤◌, ◌<◌, Some, None, true, false, length, take, OnOk, OnErr, IfOk, IfSome};
ghost use Rattle.std.specs.declared.option.Option.{Option};
ghost use Rattle.isdbt_base.specs.Numbers.{carriers};
ghost use Rattle.edge_io.specs.declared.shelf.Seat.TheVariants as seats;
ghost use Rattle.edge_io.specs.Known.{append_known, ReachesRoom};
ghost use Rattle.edge_io.specs.Causes.{HasCause};
ghost use Rattle.edge_io.specs.FrameAnswers.{ReadingCause};
ghost use Rattle.coder_core.specs.SentCells.{frame_size};
ghost use Rattle.seg_receiver.specs.declared.aim.Aim.TheVariants as aims;
ghost use Rattle.seg_receiver.specs.CellStream.{FrameCells, view_of};
ghost use Rattle.seg_receiver.specs.EpochReceiver.{mode_of, segments_of, symbols_of, frame_room, IsReceiverOf, StandsFor, epoch_frame};
ghost use Rattle.isdbt_base.specs.declared.kinds.Mode.{Mode as SomeMode};
ghost use Rattle.isdbt_base.specs.declared.kinds.Guard.{Guard as SomeGuard};
ghost use Rattle.isdbt_base.specs.Parameters.{Parameters};
ghost use Rattle.seg_receiver.specs.ReceiveAnswers.{receive_kind};
ghost use Rattle.seg_receiver.specs.EpochAnswers.{tag_of, FrameCheck, Progress, HeadTaken, TakeAnswer};

use crate::aim::Aim;
use crate::check_word::check_word;
use crate::corrections::word_by;
use crate::epoch_receiver::{EpochReceiver, put_frame, segments};
use crate::fault::ReceiveFault;
use crate::feeding::feed_read;
use crate::heads::head_bytes;
use crate::symbols::word_in;
use bts_info::FrameTag;
use cell_map::Cell;
use edge_io::{Failed, Seat, Shelf, Sink, fill, write_whole};
use isdbt_base::{Guard, Mode, Reading, SYMBOLS, carriers, symbol_size};
use tmcc_word::TmccInfo;

/// A frame of a stream that is read so, of which this is asked, whose head is taken, of this mode and guard interval.
#[derive(Clone, Copy)]
pub struct CellFrame {
    pub how: Reading,
    pub aim: Aim,
    pub number: u32,
    pub mode: Mode,
    pub guard: Guard,
}

/// The word of a frame of which so many bytes of its symbols came, None where neither its head nor they came, or why the frame
/// is refused.
fn word_read(
    frame: CellFrame,
    before: &Option<(TmccInfo, bool)>,
    symbols: &[u8],
    count: usize,
) -> Result<Option<(TmccInfo, bool)>, ReceiveFault>
    requires size { length symbols.now ≡ frame_size frame.mode }
    requires most { count ≤ length symbols.now }
    ensures check { (stream : List ℕ) → FrameCheck (view_of frame.how stream).fix frame.mode (view_of frame.how stream).head frame.aim frame.number before.now symbols.now count result }
    ensures flag { IfOk result (λ o. IfSome o (λ word. frame.aim ≡ aims.Partial → word.0.now.partial ≡ true)) }
{
    let over = head_bytes(frame.how.form) + count;
    if over == 0 {
        return Ok(None);
    }
    if count < symbols.len() {
        return Err(ReceiveFault::Truncated {
            seat: Seat::In,
            over: over as u32,
        });
    }
    let word = check_word(
        frame.number,
        frame.aim,
        before,
        &word_by(frame.how.fix, word_in(symbols, frame.mode)),
    )?;
    Ok(Some(word))
}

/// Reads the symbols of a frame into the front of a buffer, where they are held, and checks the frame.
pub fn read_held<H: Shelf>(
    frame: CellFrame,
    before: &Option<(TmccInfo, bool)>,
    buffer: &mut [u8],
    shelf: &mut H,
) -> Result<Option<(TmccInfo, bool)>, ReceiveFault>
    requires size { frame_size frame.mode ≤ length buffer.old }
    requires is_open { H.is_open shelf.old seats.In ≡ true }
    ensures still_open { H.is_open shelf.new ≡ H.is_open shelf.old }
    ensures answer { (stream : List ℕ) (limit : ℕ) (known first now : Option (List ℕ)) → frame.number < limit
        → Progress (view_of frame.how stream) frame.aim stream limit frame.number before.now known first now
        → HeadTaken (view_of frame.how stream) stream frame.number (frame.mode, frame.guard) (H.left shelf.old seats.In)
        → TakeAnswer (view_of frame.how stream) frame.aim stream limit frame.number (frame.mode, frame.guard) before.now buffer.new first now (H.left shelf.new seats.In) result }
    ensures flag { IfOk result (λ o. IfSome o (λ word. frame.aim ≡ aims.Partial → word.0.now.partial ≡ true)) }
    ensures cause { ReadingCause receive_kind (H.faults shelf.old) (H.faults shelf.new) result }
{
    let symbols = &mut buffer[..SYMBOLS * symbol_size(frame.mode)];
    let count = match fill(shelf, Seat::In, symbols) {
        Ok(count) => count,
        Err(Failed) => return Err(ReceiveFault::ReadFault(Seat::In)),
    };
    word_read(frame, before, symbols, count)
}

/// Reads the symbols of a further frame of an epoch, feeds each as it comes, and checks the frame.
pub fn read_further<H: Shelf>(
    receiver: &mut EpochReceiver,
    frame: CellFrame,
    before: &Option<(TmccInfo, bool)>,
    buffer: &mut [u8],
    cells: &mut [Cell],
    shelf: &mut H,
) -> Result<Option<(TmccInfo, bool)>, ReceiveFault>
    requires mode { mode_of receiver.old ≡ frame.mode }
    requires fresh { symbols_of receiver.old ≡ 0 }
    requires size { frame_size frame.mode ≤ length buffer.old }
    requires room { segments_of receiver.old * carriers frame.mode ≤ length cells.old }
    requires is_open { H.is_open shelf.old seats.In ≡ true }
    ensures still_open { H.is_open shelf.new ≡ H.is_open shelf.old }
    ensures answer { (stream : List ℕ) (limit : ℕ) (known first now : Option (List ℕ)) → frame.number < limit
        → Progress (view_of frame.how stream) frame.aim stream limit frame.number before.now known first now
        → HeadTaken (view_of frame.how stream) stream frame.number (frame.mode, frame.guard) (H.left shelf.old seats.In)
        → TakeAnswer (view_of frame.how stream) frame.aim stream limit frame.number (frame.mode, frame.guard) before.now buffer.new first now (H.left shelf.new seats.In) result }
    ensures state { IfOk result (λ o. IfSome o (λ word. (stream : List ℕ)
        → HeadTaken (view_of frame.how stream) stream frame.number (frame.mode, frame.guard) (H.left shelf.old seats.In)
        → (start h : ℕ) → start + h ≡ frame.number → StandsFor receiver.old (view_of frame.how stream).cell start h → StandsFor receiver.new (view_of frame.how stream).cell start h)) }
    ensures symbols { IfOk result (λ o. IfSome o (λ word. symbols_of receiver.new ≡ 204)) }
    ensures kept { (partial : Bool) (m : SomeMode) (g : SomeGuard) (s : Parameters) → IsReceiverOf partial m g s receiver.old → IsReceiverOf partial m g s receiver.new }
    ensures cause { ReadingCause receive_kind (H.faults shelf.old) (H.faults shelf.new) result }
{
    let symbols = &mut buffer[..SYMBOLS * symbol_size(frame.mode)];
    let cells = &mut cells[..segments(receiver) * carriers(frame.mode) as usize];
    let count = match feed_read(receiver, frame.mode, symbols, cells, shelf) {
        Ok(count) => count,
        Err(Failed) => return Err(ReceiveFault::ReadFault(Seat::In)),
    };
    word_read(frame, before, symbols, count)
}

/// What the packets of a frame with this word bear.
fn tag_of(word: &(TmccInfo, bool), first: bool) -> FrameTag
    ensures { result ≡ tag_of word.now first }
{
    FrameTag {
        odd: word.1,
        first,
        start_up: word.0.start_up,
        countdown: word.0.countdown,
    }
}

/// Writes what a receiver gives out behind a frame of cells with this word; it has room in `out`.
pub fn write_received<K: Sink>(
    receiver: &mut EpochReceiver,
    word: &(TmccInfo, bool),
    first: bool,
    out: &mut [u8],
    sink: &mut K,
) -> Result<(), Failed>
    requires whole { symbols_of receiver.old ≡ 204 }
    requires room { frame_room receiver.old ≤ length out.old }
    ensures ok { OnOk result ((partial : Bool) (m : SomeMode) (g : SomeGuard) (s : Parameters) (cell : FrameCells) (start h : ℕ) → IsReceiverOf partial m g s receiver.old → StandsFor receiver.old cell start h
        → K.written sink.new ≡ append_known (K.written sink.old) (epoch_frame partial m g s cell start h (tag_of word.now first))) }
    ensures some { OnErr result ((partial : Bool) (m : SomeMode) (g : SomeGuard) (s : Parameters) (cell : FrameCells) (start h : ℕ) → IsReceiverOf partial m g s receiver.old → StandsFor receiver.old cell start h
        → (n : ℕ) × (n < length (epoch_frame partial m g s cell start h (tag_of word.now first)))
        × (K.written sink.new ≡ append_known (K.written sink.old) (take n (epoch_frame partial m g s cell start h (tag_of word.now first))))) }
    ensures state { (cell : FrameCells) (start h : ℕ) → StandsFor receiver.old cell start h → StandsFor receiver.new cell start (h + 1) }
    ensures symbols { symbols_of receiver.new ≡ 0 }
    ensures kept { (partial : Bool) (m : SomeMode) (g : SomeGuard) (s : Parameters) → IsReceiverOf partial m g s receiver.old → IsReceiverOf partial m g s receiver.new }
    ensures sink_room { K.room sink.new ≡ K.room sink.old }
    ensures reached { OnErr result (ReachesRoom (K.room sink.old) (K.written sink.new)) }
    ensures cause { HasCause (K.faults sink.old) (K.faults sink.new) result }
{
    let count = put_frame(receiver, &tag_of(word, first), out);
    write_whole(sink, &out[..count])
}
