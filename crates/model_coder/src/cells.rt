//! The cells of bits by the tables of levels, compared with bytes.

use crate::scale::{Scale, byte_at};

/// Where cells differ.
#[derive(Clone, Copy, Debug, PartialEq, Eq, Drop)]
pub struct Difference {
    pub frame: usize,
    pub symbol: usize,
    pub segment: usize,
    pub carrier: usize,
}

/// The levels of an axis by its bits, in two's complement.
fn levels(bits: usize) -> &'static [u8] {
    match bits {
        2 => &[0x01, 0xFF],
        4 => &[0x03, 0x01, 0xFD, 0xFF],
        _ => &[0x07, 0x05, 0x01, 0x03, 0xF9, 0xFB, 0xFF, 0xFD],
    }
}

/// The two bytes of a cell: bits with even numbers are those of I, bits with odd numbers those of Q.
fn cell_bytes(bits: usize, cell: u8) -> [u8; 2] {
    let i = cell / 32 % 2 * 4 + cell / 8 % 2 * 2 + cell / 2 % 2;
    let q = cell / 16 % 2 * 4 + cell / 4 % 2 * 2 + cell % 2;
    let levels = levels(bits);
    [byte_at(levels, i as usize), byte_at(levels, q as usize)]
}

/// The first place of a segment's cells at which the bytes are others.
fn first_other(bits: usize, cells: &[u8], bytes: &[u8]) -> Option<usize> {
    if cells.len().wrapping_mul(2) != bytes.len() {
        return Some(0);
    }
    for (place, (cell, pair)) in cells.iter().zip(bytes.chunks_exact(2)).enumerate() {
        if pair != cell_bytes(bits, *cell).as_slice() {
            return Some(place);
        }
    }
    None
}

/// The bytes from one place to another, none where they aren't there.
fn part_of(bytes: &[u8], from: usize, to: usize) -> &[u8] {
    bytes.get(from..to).unwrap_or(&[])
}

/// The first carrier at which a segment of a symbol is other in the bytes, by the segment's number among those of all symbols.
fn other_carrier(scale: &Scale, place: usize, cells: &[u8], bytes: &[u8]) -> Option<usize> {
    let from = place.wrapping_mul(scale.carriers);
    let to = from.wrapping_add(scale.carriers);
    let heads = place / 13 + 1;
    let pairs = part_of(
        bytes,
        heads.wrapping_add(from.wrapping_mul(2)),
        heads.wrapping_add(to.wrapping_mul(2)),
    );
    first_other(scale.layer.bits, part_of(cells, from, to), pairs)
}

/// The first cell of a layer that is other in the bytes of a stream of cells, of which each symbol has one byte before its
/// cells, or `None` where all are the same. `cells` are those that `add_layer` made.
pub fn first_difference(scale: &Scale, cells: &[u8], bytes: &[u8]) -> Option<Difference> {
    let segments = 13usize.wrapping_mul(204).wrapping_mul(scale.frames);
    let last = scale.first.wrapping_add(scale.layer.segments);
    for place in 0..segments {
        let segment = place % 13;
        if segment < scale.first || segment >= last {
            continue;
        }
        if let Some(carrier) = other_carrier(scale, place, cells, bytes) {
            return Some(Difference {
                frame: place / 13 / 204,
                symbol: place / 13 % 204,
                segment,
                carrier,
            });
        }
    }
    None
}
