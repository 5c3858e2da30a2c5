//! The spoiled symbols of a frame into a receiver.

ghost use Rattle.std.specs.Prelude.{◌≡◌, ℕ, ◌+◌, ◌<◌, ◌≤◌, length};
ghost use Rattle.isdbt_base.specs.declared.kinds.Mode.TheVariants.{M1};
ghost use Rattle.coder_core.specs.SentCells.{frame_size};
ghost use Rattle.seg_receiver.specs.CellStream.{FrameCells};
ghost use Rattle.seg_receiver.specs.FrameReading.{ShowsFrame};
ghost use Rattle.seg_receiver.specs.Receiver.{mode_of, guard_of, setting_of, symbols_of, StandsFor};
ghost use Rattle.sample.specs.SpoiledCells.{spoiled, HasNegation};

use crate::spoiling::spoil;
use cell_map::Cell;
use isdbt_base::{Mode, symbol_size};
use seg_receiver::{Receiver, read_cells, symbol_start};

/// Feeds the symbols of a frame of mode 1, spoiled, to a receiver; the cells of a symbol have room in `cells`.
pub fn feed(receiver: &mut Receiver, frame: u32, symbols: &[u8], cells: &mut [Cell])
    requires mode { mode_of receiver.old ≡ M1 }
    requires fresh { symbols_of receiver.old ≡ 0 }
    requires size { length symbols.now ≡ frame_size M1 }
    requires room { length cells.old ≡ 1248 }
    requires few { frame ≤ 1000 }
    ensures state { (cell : FrameCells) (start h : ℕ) → start + h ≡ frame → ((k segment carrier : ℕ) → HasNegation (cell frame k segment carrier))
        → StandsFor receiver.old (spoiled cell) start h → ShowsFrame M1 cell frame symbols.now → StandsFor receiver.new (spoiled cell) start h }
    ensures symbols { symbols_of receiver.new ≡ 204 }
    ensures mode { mode_of receiver.new ≡ mode_of receiver.old }
    ensures guard { guard_of receiver.new ≡ guard_of receiver.old }
    ensures setting { setting_of receiver.new ≡ setting_of receiver.old }
{
    let size = symbol_size(Mode::M1);
    for k in 0..204 {
        let from = symbol_start(k, size);
        read_cells(&symbols[from..from + size], cells);
        spoil(frame, k as u32, cells);
        receiver.symbol(cells);
    }
}
