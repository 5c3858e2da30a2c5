//! The symbols of a frame of cells that is held: its TMCC word, and the cells of a symbol.

ghost use Rattle.std.specs.Prelude.{◌≡◌, ◌+◌, ◌*◌, ◌≤◌, ◌<◌, length};
ghost use Rattle.coder_core.specs.SentCells.{frame_size};
ghost use Rattle.seg_receiver.specs.CellStream.{stream_word};
ghost use Rattle.seg_receiver.specs.FrameReading.{cell_at, AreCellsOf};

use cell_map::Cell;
use isdbt_base::{Mode, symbol_size};

/// Where a symbol begins in a frame.
pub fn symbol_start(k: usize, size: usize) -> usize
    requires within { k < 204 }
    requires most { size ≤ 9985 }
    ensures value { result ≡ k * size }
    ensures end { result + size ≤ 204 * size }
    ensures small { result ≤ 2036940 }
{
    k * size
}

/// The cell whose two bytes, I and Q in two's complement, begin at `at`.
fn cell_at(bytes: &[u8], at: usize) -> Cell
    requires { at + 2 ≤ length bytes.now }
    ensures { result ≡ cell_at bytes.now at }
{
    Cell {
        i: bytes[at].cast_signed(),
        q: bytes[at + 1].cast_signed(),
    }
}

/// Reads the first cells of a symbol, which stand behind its TMCC byte.
pub fn read_cells(symbol: &[u8], cells: &mut [Cell])
    requires { 1 + 2 * length cells.old ≤ length symbol.now }
    ensures { AreCellsOf symbol.now cells.new }
{
    for n in 0..cells.len() {
        cells[n] = cell_at(symbol, 1 + 2 * n);
    }
}

/// The TMCC word of a frame: of each symbol the lowest bit of the first byte, whatever the others are.
pub fn word_in(frame: &[u8], mode: Mode) -> [bool; 204]
    requires { length frame.now ≡ frame_size mode }
    ensures { result ≡ stream_word mode frame.now 0 }
{
    let size = symbol_size(mode);
    let mut word = [false; 204];
    for k in 0..204 {
        word[k] = frame[symbol_start(k, size)] % 2 == 1;
    }
    word
}
