//! The bits of received cells.

ghost use Rattle.std.specs.Prelude.{◌≡◌, ℕ, ◌+◌, ◌*◌, ◌<◌, ◌≤◌, Some, false, length, slice_get, slice_index_or};
ghost use Rattle.std.specs.Option.{option_map};
ghost use Rattle.cell_map.specs.Levels.{bits_of};
ghost use Rattle.layer_chain.specs.LayerCells.{bit_of_number};

use cell_map::{Cell, bits_of};
use isdbt_base::Modulation;

/// Writes the bits of received cells, a number for each cell.
#[inline(always)]
fn read_as(modulation: Modulation, cells: &[Cell], numbers: &mut [u8])
    requires { length cells.now ≡ length numbers.old }
    ensures { (w : ℕ) → w < length numbers.new → option_map (bits_of modulation) (slice_get cells.now w) ≡ Some (slice_index_or numbers.new w 0) }
{
    for place in 0..cells.len() {
        numbers[place] = bits_of(modulation, cells[place]);
    }
}

/// The same, with code of its own for each modulation.
pub fn read_numbers(modulation: Modulation, cells: &[Cell], numbers: &mut [u8])
    requires { length cells.now ≡ length numbers.old }
    ensures { (w : ℕ) → w < length numbers.new → option_map (bits_of modulation) (slice_get cells.now w) ≡ Some (slice_index_or numbers.new w 0) }
{
    match modulation {
        Modulation::Qpsk => read_as(Modulation::Qpsk, cells, numbers),
        Modulation::Qam16 => read_as(Modulation::Qam16, cells, numbers),
        Modulation::Qam64 => read_as(Modulation::Qam64, cells, numbers),
    }
}

/// Writes the bits of a number, the highest first.
#[inline(always)]
fn put_number(number: u8, bits: &mut [bool])
    requires { length bits.old ≤ 6 }
    ensures { (r : ℕ) → r < length bits.new → slice_index_or bits.new r false ≡ bit_of_number (length bits.new) number r }
{
    let width = bits.len();
    for bit in 0..width {
        bits[bit] = (number >> (width - 1 - bit)) & 1 == 1;
    }
}

/// Writes the bits of numbers of so many bits each, the highest first.
#[inline(always)]
fn put_wide(numbers: &[u8], width: usize, bits: &mut [bool])
    requires least { 1 ≤ width }
    requires most { width ≤ 6 }
    requires room { length bits.old ≡ width * length numbers.now }
    ensures { (e r : ℕ) → e < length numbers.now → r < width → slice_index_or bits.new (width * e + r) false ≡ bit_of_number width (slice_index_or numbers.now e 0) r }
{
    for cell in 0..numbers.len() {
        let start = width * cell;
        put_number(numbers[cell], &mut bits[start..start + width]);
    }
}

/// The same, with code of its own for the cells of each modulation.
pub fn put_bits(numbers: &[u8], width: usize, bits: &mut [bool])
    requires least { 1 ≤ width }
    requires most { width ≤ 6 }
    requires room { length bits.old ≡ width * length numbers.now }
    ensures { (e r : ℕ) → e < length numbers.now → r < width → slice_index_or bits.new (width * e + r) false ≡ bit_of_number width (slice_index_or numbers.now e 0) r }
{
    match width {
        2 => put_wide(numbers, 2, bits),
        4 => put_wide(numbers, 4, bits),
        6 => put_wide(numbers, 6, bits),
        _ => put_wide(numbers, width, bits),
    }
}
