//! The bits of cells as numbers.

ghost use Rattle.std.specs.Prelude.{◌≡◌, ℕ, ◌+◌, ◌*◌, ◌<◌, ◌≤◌, ◌%◌, ◌^◌, Some, false, length, slice_get, slice_index, slice_index_or};
ghost use Rattle.isdbt_base.specs.Numbers.{cell_bits};
ghost use Rattle.cell_map.specs.Levels.{cell_of};
ghost use Rattle.layer_chain.specs.LayerCells.{cell_number};

use cell_map::{Cell, cell_of};
use isdbt_base::Modulation;

/// The number of a cell's bits, the first highest.
#[inline(always)]
fn number_of(bits: &[bool]) -> u8
    requires { length bits.now ≤ 6 }
    ensures { result ≡ cell_number (length bits.now) (λ r. slice_index_or bits.now r false) }
{
    let mut number = 0;
    for bit in bits {
        number = 2 * number + u8::from(*bit);
    }
    number
}

/// Writes the numbers of the cells' bits, of so many bits a cell.
#[inline(always)]
fn number_each(bits: &[bool], width: usize, numbers: &mut [u8])
    requires width { width ≤ 6 }
    requires room { length bits.now ≡ width * length numbers.old }
    ensures { (e : ℕ) → e < length numbers.new → slice_index numbers.new e ≡ cell_number width (λ r. slice_index_or bits.now (width * e + r) false) }
{
    for cell in 0..numbers.len() {
        let start = width * cell;
        numbers[cell] = number_of(&bits[start..start + width]);
    }
}

/// The same, with code of its own for each modulation's width.
pub fn number_cells(bits: &[bool], width: usize, numbers: &mut [u8])
    requires width { width ≤ 6 }
    requires room { length bits.now ≡ width * length numbers.old }
    ensures { (e : ℕ) → e < length numbers.new → slice_index numbers.new e ≡ cell_number width (λ r. slice_index_or bits.now (width * e + r) false) }
{
    match width {
        2 => number_each(bits, 2, numbers),
        4 => number_each(bits, 4, numbers),
        6 => number_each(bits, 6, numbers),
        _ => number_each(bits, width, numbers),
    }
}

/// Writes the cells of these numbers, each of as many low bits as a cell has.
#[inline(always)]
fn map_each(modulation: Modulation, numbers: &[u8], out: &mut [Cell])
    requires { length numbers.now ≡ length out.old }
    ensures { (e : ℕ) → e < length numbers.now → slice_get out.new e ≡ Some (cell_of modulation (slice_index numbers.now e % 2 ^ cell_bits modulation)) }
{
    let count = match modulation {
        Modulation::Qpsk => 4,
        Modulation::Qam16 => 16,
        Modulation::Qam64 => 64,
    };
    for cell in 0..numbers.len() {
        out[cell] = cell_of(modulation, numbers[cell] % count);
    }
}

/// The same, with code of its own for each modulation.
pub fn map_cells(modulation: Modulation, numbers: &[u8], out: &mut [Cell])
    requires { length numbers.now ≡ length out.old }
    ensures { (e : ℕ) → e < length numbers.now → slice_get out.new e ≡ Some (cell_of modulation (slice_index numbers.now e % 2 ^ cell_bits modulation)) }
{
    match modulation {
        Modulation::Qpsk => map_each(Modulation::Qpsk, numbers, out),
        Modulation::Qam16 => map_each(Modulation::Qam16, numbers, out),
        Modulation::Qam64 => map_each(Modulation::Qam64, numbers, out),
    }
}
