//! Tables of the cells that are sent and of the bits that are read.

ghost use Rattle.std.specs.Prelude.{◌≡◌, ◌<◌, ◌≤◌, pos, get_or, slice_index};

use crate::cell::Cell;

/// The cells of the bits 00 to 11, as (I, Q).
#[rattlefmt::skip]
pub static QPSK_CELLS: [(i8, i8); 4] = [
    (1, 1), (1, -1), (-1, 1), (-1, -1),
];

/// In 4 rows of 4, the cells of the bits 0000 to 1111: entry j of row i has the bits 4 i + j.
#[rattlefmt::skip]
pub static QAM16_CELLS: [(i8, i8); 16] = [
    (3, 3), (3, 1), (1, 3), (1, 1),
    (3, -3), (3, -1), (1, -3), (1, -1),
    (-3, 3), (-3, 1), (-1, 3), (-1, 1),
    (-3, -3), (-3, -1), (-1, -3), (-1, -1),
];

/// In 8 rows of 8, the cells of the bits 000000 to 111111: entry j of row i has the bits 8 i + j.
#[rattlefmt::skip]
pub static QAM64_CELLS: [(i8, i8); 64] = [
    (7, 7), (7, 5), (5, 7), (5, 5), (7, 1), (7, 3), (5, 1), (5, 3),
    (1, 7), (1, 5), (3, 7), (3, 5), (1, 1), (1, 3), (3, 1), (3, 3),
    (7, -7), (7, -5), (5, -7), (5, -5), (7, -1), (7, -3), (5, -1), (5, -3),
    (1, -7), (1, -5), (3, -7), (3, -5), (1, -1), (1, -3), (3, -1), (3, -3),
    (-7, 7), (-7, 5), (-5, 7), (-5, 5), (-7, 1), (-7, 3), (-5, 1), (-5, 3),
    (-1, 7), (-1, 5), (-3, 7), (-3, 5), (-1, 1), (-1, 3), (-3, 1), (-3, 3),
    (-7, -7), (-7, -5), (-5, -7), (-5, -5), (-7, -1), (-7, -3), (-5, -1), (-5, -3),
    (-1, -7), (-1, -5), (-3, -7), (-3, -5), (-1, -1), (-1, -3), (-3, -1), (-3, -3),
];

/// The axis bits of the levels from the highest down, each bit with a free place above it. All modulations begin alike:
/// QPSK has the first two, 16QAM the first four.
pub static AXIS_BITS: [u8; 8] = [
    0b00000, 0b00001, 0b00101, 0b00100, 0b10100, 0b10101, 0b10001, 0b10000,
];

/// Cell of the bits of a QPSK cell.
#[inline]
pub fn qpsk_cell(bits: u8) -> Cell
    requires { bits < 4 }
    ensures i { result.i ≡ (get_or QPSK_CELLS bits (pos 0, pos 0)).0 }
    ensures q { result.q ≡ (get_or QPSK_CELLS bits (pos 0, pos 0)).1 }
{
    let (i, q) = QPSK_CELLS[bits as usize];
    Cell { i, q }
}

/// Cell of the bits of a 16QAM cell.
#[inline]
pub fn qam16_cell(bits: u8) -> Cell
    requires { bits < 16 }
    ensures i { result.i ≡ (get_or QAM16_CELLS bits (pos 0, pos 0)).0 }
    ensures q { result.q ≡ (get_or QAM16_CELLS bits (pos 0, pos 0)).1 }
{
    let (i, q) = QAM16_CELLS[bits as usize];
    Cell { i, q }
}

/// Cell of the bits of a 64QAM cell.
#[inline]
pub fn qam64_cell(bits: u8) -> Cell
    requires { bits < 64 }
    ensures i { result.i ≡ (get_or QAM64_CELLS bits (pos 0, pos 0)).0 }
    ensures q { result.q ≡ (get_or QAM64_CELLS bits (pos 0, pos 0)).1 }
{
    let (i, q) = QAM64_CELLS[bits as usize];
    Cell { i, q }
}

/// Axis bits, with a free place above each, of the level that has so many levels above it.
#[inline]
pub fn level_bits(above: u8) -> u8
    requires { above < 8 }
    ensures { result ≡ slice_index AXIS_BITS above }
{
    AXIS_BITS[above as usize]
}
