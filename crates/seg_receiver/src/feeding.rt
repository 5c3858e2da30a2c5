//! The symbols of a frame into a receiver.

ghost use Rattle.std.specs.Prelude.{◌≡◌, ℕ, ◌+◌, ◌*◌, ◌≤◌, Bool, List, Some, true, length, IfOk};
ghost use Rattle.isdbt_base.specs.Numbers.{carriers};
ghost use Rattle.edge_io.specs.declared.shelf.Seat.TheVariants as seats;
ghost use Rattle.edge_io.specs.Causes.{Reading, ShelfCause};
ghost use Rattle.coder_core.specs.SentCells.{frame_size};
ghost use Rattle.seg_receiver.specs.CellStream.{FrameCells};
ghost use Rattle.seg_receiver.specs.FrameReading.{AreCellsOf, ShowsFrame, ReadAnswer};
ghost use Rattle.seg_receiver.specs.EpochReceiver.{mode_of, segments_of, symbols_of, IsReceiverOf, StandsFor};
ghost use Rattle.isdbt_base.specs.declared.kinds.Mode.{Mode as SomeMode};
ghost use Rattle.isdbt_base.specs.declared.kinds.Guard.{Guard as SomeGuard};
ghost use Rattle.isdbt_base.specs.Parameters.{Parameters};

use crate::epoch_receiver::{EpochReceiver, segments, take_symbol};
use crate::symbols::{read_cells, symbol_start};
use cell_map::Cell;
use edge_io::{Failed, Seat, Shelf, fill};
use isdbt_base::{Mode, carriers, symbol_size};

/// Feeds the symbols of a frame that are held at the front of a buffer; the cells of a symbol have room in `cells`.
pub fn feed_held(receiver: &mut EpochReceiver, mode: Mode, frame: &[u8], cells: &mut [Cell])
    requires mode { mode_of receiver.old ≡ mode }
    requires fresh { symbols_of receiver.old ≡ 0 }
    requires size { frame_size mode ≤ length frame.now }
    requires room { segments_of receiver.old * carriers mode ≤ length cells.old }
    ensures state { (cell : FrameCells) (start h : ℕ) → StandsFor receiver.old cell start h → ShowsFrame mode cell (start + h) frame.now → StandsFor receiver.new cell start h }
    ensures symbols { symbols_of receiver.new ≡ 204 }
    ensures kept { (partial : Bool) (m : SomeMode) (g : SomeGuard) (s : Parameters) → IsReceiverOf partial m g s receiver.old → IsReceiverOf partial m g s receiver.new }
{
    let size = symbol_size(mode);
    let cells = &mut cells[..segments(receiver) * carriers(mode) as usize];
    for k in 0..204 {
        let from = symbol_start(k, size);
        read_cells(&frame[from..from + size], cells);
        take_symbol(receiver, cells);
    }
}

/// Reads a symbol, and puts its cells where all of it came; answers how many bytes came.
fn read_symbol<H: Shelf>(
    symbol: &mut [u8],
    cells: &mut [Cell],
    shelf: &mut H,
) -> Result<usize, Failed>
    requires is_open { H.is_open shelf.old seats.In ≡ true }
    requires room { 1 + 2 * length cells.old ≤ length symbol.old }
    ensures still_open { H.is_open shelf.new ≡ H.is_open shelf.old }
    ensures most { IfOk result (λ n. n ≤ length symbol.new) }
    ensures answer { (rest : List ℕ) → H.left shelf.old seats.In ≡ Some rest → ReadAnswer symbol.new rest (H.left shelf.new seats.In) result }
    ensures cells { IfOk result (λ n. n ≡ length symbol.new → AreCellsOf symbol.new cells.new) }
    ensures cause { ShelfCause (Reading seats.In) (H.faults shelf.old) (H.faults shelf.new) result }
{
    let count = fill(shelf, Seat::In, symbol)?;
    if count == symbol.len() {
        read_cells(symbol, cells);
    }
    Ok(count)
}

/// Reads a frame and feeds each of its symbols as it comes; answers how many bytes came.
pub fn feed_read<H: Shelf>(
    receiver: &mut EpochReceiver,
    mode: Mode,
    frame: &mut [u8],
    cells: &mut [Cell],
    shelf: &mut H,
) -> Result<usize, Failed>
    requires mode { mode_of receiver.old ≡ mode }
    requires fresh { symbols_of receiver.old ≡ 0 }
    requires size { length frame.old ≡ frame_size mode }
    requires segments { segments_of receiver.old ≤ 13 }
    requires room { length cells.old ≡ segments_of receiver.old * carriers mode }
    requires is_open { H.is_open shelf.old seats.In ≡ true }
    ensures still_open { H.is_open shelf.new ≡ H.is_open shelf.old }
    ensures most { IfOk result (λ n. n ≤ length frame.new) }
    ensures answer { (rest : List ℕ) → H.left shelf.old seats.In ≡ Some rest → ReadAnswer frame.new rest (H.left shelf.new seats.In) result }
    ensures state { IfOk result (λ n. n ≡ length frame.new → (rest : List ℕ) → H.left shelf.old seats.In ≡ Some rest
        → (cell : FrameCells) (start h : ℕ) → StandsFor receiver.old cell start h → ShowsFrame mode cell (start + h) rest → StandsFor receiver.new cell start h) }
    ensures symbols { IfOk result (λ n. n ≡ length frame.new → symbols_of receiver.new ≡ 204) }
    ensures kept { (partial : Bool) (m : SomeMode) (g : SomeGuard) (s : Parameters) → IsReceiverOf partial m g s receiver.old → IsReceiverOf partial m g s receiver.new }
    ensures cause { ShelfCause (Reading seats.In) (H.faults shelf.old) (H.faults shelf.new) result }
{
    let size = symbol_size(mode);
    for k in 0..204 {
        let from = symbol_start(k, size);
        let count = match read_symbol(&mut frame[from..from + size], cells, shelf) {
            Ok(count) => count,
            Err(Failed) => return Err(Failed),
        };
        if count < size {
            return Ok(from + count);
        }
        take_symbol(receiver, cells);
    }
    Ok(204 * size)
}
