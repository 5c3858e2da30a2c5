//! Laws of the cells.

ghost use Rattle.std.specs.Prelude.{◌≡◌, ◌<◌, ◌^◌, ◌/◌, ℕ, ℤ};
ghost use Rattle.isdbt_base.specs.Numbers.{cell_bits};
ghost use Rattle.cell_map.specs.declared.cell.Cell.{Cell as AnyCell};
ghost use Rattle.cell_map.specs.Levels.{cell_of, bits_of, axis_bits_of, level_of, IsTakenBefore};

use isdbt_base::Modulation;

/// The bits of the cell that is sent for bits are these bits.
pub fn read_back_law(modulation: Modulation, bits: u8)
    requires { bits < 2 ^ cell_bits modulation }
    ensures { bits_of modulation (cell_of modulation bits) ≡ bits }
{}

/// Reading takes the level nearest to each axis, and of two as near the higher, whatever whole numbers the axes have.
pub fn nearest_law(modulation: Modulation)
    ensures axis { (x : ℤ) (b : ℕ) → IsTakenBefore x (level_of modulation (axis_bits_of modulation x)) (level_of modulation b) }
    ensures axis_most { (x : ℤ) → axis_bits_of modulation x < 2 ^ (cell_bits modulation / 2) }
    ensures i { (cell : AnyCell) (b : ℕ) → IsTakenBefore cell.i (cell_of modulation (bits_of modulation cell)).i (cell_of modulation b).i }
    ensures q { (cell : AnyCell) (b : ℕ) → IsTakenBefore cell.q (cell_of modulation (bits_of modulation cell)).q (cell_of modulation b).q }
{}
