//! The cells that are spoiled on their way.

ghost use Rattle.std.specs.Prelude.{◌≡◌, ℕ, ◌<◌, ◌≤◌, length};
ghost use Rattle.isdbt_base.specs.declared.kinds.Mode.TheVariants.{M1};
ghost use Rattle.seg_receiver.specs.CellStream.{FrameCells};
ghost use Rattle.seg_receiver.specs.Receiver.{IsSymbolOf};
ghost use Rattle.sample.specs.SpoiledCells.{negated, spoiled, HasNegation};

use cell_map::Cell;

/// The cell with both numbers negated.
fn negated(cell: Cell) -> Cell
    ensures { HasNegation cell → result ≡ negated cell }
{
    Cell {
        i: cell.i.wrapping_neg(),
        q: cell.q.wrapping_neg(),
    }
}

/// Negates the cells of a symbol of mode 1 that are spoiled: in symbol 7 f mod 204 of each frame f those at carrier f mod 96 of
/// segments 0 and 5.
pub fn spoil(frame: u32, symbol: u32, cells: &mut [Cell])
    requires size { length cells.old ≡ 1248 }
    requires few { frame ≤ 1000 }
    ensures { (cell : FrameCells) → ((segment carrier : ℕ) → HasNegation (cell frame symbol segment carrier))
        → IsSymbolOf 13 M1 cell frame symbol cells.old → IsSymbolOf 13 M1 (spoiled cell) frame symbol cells.new }
{
    if symbol != 7 * frame % 204 {
        return;
    }
    let first = (frame % 96) as usize;
    let sixth = 5 * 96 + first;
    cells[first] = negated(cells[first]);
    cells[sixth] = negated(cells[sixth]);
}
