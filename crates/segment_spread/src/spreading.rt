//! The cells of a symbol spread, and gathered again.

ghost use Rattle.std.specs.Prelude.{◌≡◌, ◌+◌, ◌*◌, ◌<◌, length};
ghost use Rattle.isdbt_base.specs.Numbers.{carriers};
ghost use Rattle.segment_spread.specs.Places.{IsPlace, spread_place};
ghost use Rattle.segment_spread.specs.Spreading.{symbol_cells, spread_cells, gathered_cells, AreSpread, AreGathered};

use crate::numbers::gathered_number;
use crate::section::section_of;
use cell_map::Cell;
use isdbt_base::{Mode, carriers};
use time_inter::CellPlace;

/// The place to which the cell of a place goes.
pub fn spread_place(partial: bool, mode: Mode, place: CellPlace) -> CellPlace
    requires { IsPlace mode place }
    ensures value { result ≡ spread_place partial mode place }
    ensures within { IsPlace mode result }
{
    let section = section_of(partial, place.segment);
    let number = (place.segment - section.first) * carriers(mode) + place.carrier;
    let segment = section.first + number % section.segments;
    CellPlace {
        segment,
        carrier: (number / section.segments + segment) % carriers(mode),
    }
}

/// Writes the cells of a symbol spread over its segments.
pub fn spread(partial: bool, mode: Mode, cells: &[Cell], out: &mut [Cell])
    requires cells { length cells.now ≡ symbol_cells mode }
    requires out { length out.old ≡ symbol_cells mode }
    ensures { out.new ≡ spread_cells partial mode cells.now }
{
    for segment in 0..13 {
        spread_segment(partial, mode, segment, cells, out);
    }
}

/// Writes the cells of one more segment spread.
fn spread_segment(partial: bool, mode: Mode, segment: u32, cells: &[Cell], out: &mut [Cell])
    requires segment { segment < 13 }
    requires cells { length cells.now ≡ symbol_cells mode }
    requires out { length out.old ≡ symbol_cells mode }
    requires before { AreSpread partial mode cells.now out.old (segment * carriers mode) }
    ensures { AreSpread partial mode cells.now out.new ((segment + 1) * carriers mode) }
{
    let size = carriers(mode);
    let first = (segment * size) as usize;
    for carrier in 0..size {
        let from = gathered_number(partial, size, segment, carrier);
        out[first + carrier as usize] = cells[from];
    }
}

/// Writes the cells of a symbol that were spread back to their segments.
pub fn gather(partial: bool, mode: Mode, cells: &[Cell], out: &mut [Cell])
    requires cells { length cells.now ≡ symbol_cells mode }
    requires out { length out.old ≡ symbol_cells mode }
    ensures { out.new ≡ gathered_cells partial mode cells.now }
{
    for segment in 0..13 {
        gather_segment(partial, mode, segment, cells, out);
    }
}

/// Puts the cells of one more segment back.
fn gather_segment(partial: bool, mode: Mode, segment: u32, cells: &[Cell], out: &mut [Cell])
    requires segment { segment < 13 }
    requires cells { length cells.now ≡ symbol_cells mode }
    requires out { length out.old ≡ symbol_cells mode }
    requires before { AreGathered partial mode cells.now out.old (segment * carriers mode) }
    ensures { AreGathered partial mode cells.now out.new ((segment + 1) * carriers mode) }
{
    let size = carriers(mode);
    let first = (segment * size) as usize;
    for carrier in 0..size {
        let to = gathered_number(partial, size, segment, carrier);
        out[to] = cells[first + carrier as usize];
    }
}
