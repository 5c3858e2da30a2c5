//! Laws of the places of spread cells.

ghost use Rattle.std.specs.Prelude.{◌≡◌, ◌≢◌, ℕ, Bool, true, List, ◌+◌, ◌*◌, ◌%◌, ◌<◌, length};
ghost use Rattle.isdbt_base.specs.Numbers.{carriers};
ghost use Rattle.cell_map.specs.declared.cell.Cell.{Cell};
ghost use Rattle.time_inter.specs.declared.cell_place.CellPlace.{CellPlace};
ghost use Rattle.segment_spread.specs.Places.{IsPlace, section_of, number_in, spread_place, gathered_place};
ghost use Rattle.segment_spread.specs.Spreading.{symbol_cells, spread_number, cell_at, spread_cells, gathered_cells};

use isdbt_base::Mode;

/// With the partial reception flag the cells of segment 0 stay in their places.
pub fn stay_law(mode: Mode)
    ensures { (place : CellPlace) → IsPlace mode place → place.segment ≡ 0 → spread_place true mode place ≡ place }
{}

/// Each place is taken once: a cell goes to each place, one alone, and no cell goes anywhere else.
pub fn one_to_one_law(mode: Mode)
    ensures onto { (partial : Bool) (place : CellPlace) → IsPlace mode place → spread_place partial mode (gathered_place partial mode place) ≡ place }
    ensures once { (partial : Bool) (place : CellPlace) → IsPlace mode place → gathered_place partial mode (spread_place partial mode place) ≡ place }
    ensures to { (partial : Bool) (place : CellPlace) → IsPlace mode place → IsPlace mode (spread_place partial mode place) }
    ensures from { (partial : Bool) (place : CellPlace) → IsPlace mode place → IsPlace mode (gathered_place partial mode place) }
{}

/// Two cells that go to neighbouring carriers of one segment p, the last carrier and the first being neighbours, have
/// numbers in their section that differ by its segments; but for the pair whose second goes to carrier p mod the carriers.
pub fn neighbour_law(mode: Mode)
    ensures { (partial : Bool) (p : ℕ) (a b : CellPlace) → IsPlace mode a → IsPlace mode b
        → (spread_place partial mode a).segment ≡ p → (spread_place partial mode b).segment ≡ p
        → (spread_place partial mode b).carrier ≡ ((spread_place partial mode a).carrier + 1) % carriers mode
        → (spread_place partial mode b).carrier ≢ p % carriers mode
        → let section = section_of partial p in number_in section mode b ≡ number_in section mode a + section.segments }
{}

/// Gathering undoes spreading, and spreading gathering; each cell of a symbol stands where it goes in the spread symbol.
pub fn inverse_law(mode: Mode)
    ensures undone { (partial : Bool) (cells : List Cell) → length cells ≡ symbol_cells mode → gathered_cells partial mode (spread_cells partial mode cells) ≡ cells }
    ensures redone { (partial : Bool) (cells : List Cell) → length cells ≡ symbol_cells mode → spread_cells partial mode (gathered_cells partial mode cells) ≡ cells }
    ensures moved { (partial : Bool) (cells : List Cell) (n : ℕ) → n < symbol_cells mode → cell_at (spread_cells partial mode cells) (spread_number partial mode n) ≡ cell_at cells n }
{}
