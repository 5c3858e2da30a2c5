//! The cell of bits, and the bits of a cell.

ghost use Rattle.std.specs.Prelude.{◌≡◌, ◌<◌, ◌^◌, ◌≤ℤ◌, pos};
ghost use Rattle.isdbt_base.specs.Numbers.{cell_bits};
ghost use Rattle.cell_map.specs.Levels.{cell_of, bits_of, axis_bits_of, apart, highest};

use crate::cell::Cell;
use crate::tables::{level_bits, qam16_cell, qam64_cell, qpsk_cell};
use isdbt_base::Modulation;

/// Cell that is sent for the bits of a cell: the lowest two, four or six bits of a byte, b0 the highest of them.
#[inline]
pub fn cell_of(modulation: Modulation, bits: u8) -> Cell
    requires { bits < 2 ^ cell_bits modulation }
    ensures { result ≡ cell_of modulation bits }
{
    match modulation {
        Modulation::Qpsk => qpsk_cell(bits),
        Modulation::Qam16 => qam16_cell(bits),
        Modulation::Qam64 => qam64_cell(bits),
    }
}

/// Bits of a received cell, as `cell_of` takes them. Each axis is read as its nearest level, of two as near the higher.
#[inline]
pub fn bits_of(modulation: Modulation, cell: Cell) -> u8
    ensures value { result ≡ bits_of modulation cell }
    ensures most { result < 2 ^ cell_bits modulation }
{
    2 * axis_bits(modulation, cell.i) + axis_bits(modulation, cell.q)
}

/// Axis bits of a value of an axis, with a free place above each.
#[inline]
fn axis_bits(modulation: Modulation, value: i8) -> u8
    ensures value { result ≡ apart (axis_bits_of modulation value) }
{
    let highest = highest_level(modulation);
    // The levels lie 2 apart, as far down as up.
    let within = value.clamp(-highest, highest);
    level_bits((highest - within) as u8 / 2)
}

/// Highest level of a modulation.
#[inline]
fn highest_level(modulation: Modulation) -> i8
    ensures value { result ≡ (highest modulation).level }
    ensures least { pos 1 ≤ℤ result }
    ensures most { result ≤ℤ pos 7 }
{
    match modulation {
        Modulation::Qpsk => 1,
        Modulation::Qam16 => 3,
        Modulation::Qam64 => 7,
    }
}
