//! The cells of a layer in a symbol.

ghost use Rattle.std.specs.Prelude.{◌≡◌, ℕ, ◌*◌, length};
ghost use Rattle.isdbt_base.specs.Parameters.{layer_of, number_of};
ghost use Rattle.isdbt_base.specs.Numbers.{carriers, layer_cells, first_segment};
ghost use Rattle.seg_receiver.specs.CellStream.{FrameCells};
ghost use Rattle.seg_receiver.specs.UsedDecoders.{AreCellsFrom};
ghost use Rattle.seg_receiver.specs.Receiver.{IsSymbolOf};

use cell_map::Cell;
use isdbt_base::{Layer, Mode, Setting};

/// The cells of a layer among those of a symbol: layers take segments in the order A, B, C.
pub fn layer_part<'a>(setting: &Setting, mode: Mode, layer: Layer, cells: &'a [Cell]) -> &'a [Cell]
    requires { length cells.now ≡ 13 * carriers mode }
    ensures size { length result.now ≡ number_of (layer_cells mode) (layer_of setting.now layer) }
    ensures cells { (cell : FrameCells) (f k : ℕ) → IsSymbolOf 13 mode cell f k cells.now → AreCellsFrom mode cell (first_segment setting.now layer) f k result.now }
{
    setting.acceptance_law();
    let from = setting.cells_before(mode, layer) as usize;
    let end = from + setting.cells(layer, mode) as usize;
    &cells[from..end]
}
