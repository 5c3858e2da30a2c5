//! Where the bits of a layer's packets are sent.

use crate::bits::layer_bits;
use crate::scale::{Scale, byte_at, quotient, remainder};
use isdbt_base::NoMemory;
use std::alloc::Global;

/// The packets of a layer in frames of broadcast packets, one after another, by the layer's indicator. Fails only if memory
/// runs out.
pub fn layer_packets(alloc: Global, frames: &[u8], indicator: u8) -> Result<Vec<u8>, NoMemory> {
    let mut packets = Vec::new(alloc);
    for slot in frames.chunks_exact(204) {
        if slot[189] / 16 == indicator {
            packets.extend_from_slice(slot.get(..188).unwrap_or(&[]))?;
        }
    }
    Ok(packets)
}

/// The delay adjustment of the time interleaving, in symbols.
fn adjustment(carriers: usize, length: usize) -> usize {
    match (carriers, length) {
        (96, 4) => 28,
        (96, 8) => 56,
        (96, 16) => 112,
        (192, 2) => 14,
        (192, 4) => 28,
        (192, 8) => 56,
        (384, 1) => 109,
        (384, 2) => 14,
        (384, 4) => 28,
        _ => 0,
    }
}

/// Where a layer cell is sent: its number among the cells of all symbols, by segment and then by carrier.
fn sent_place(scale: &Scale, cell: usize) -> usize {
    let width = scale.width();
    let place = remainder(cell, width);
    let carrier = remainder(place, scale.carriers);
    let length = scale.layer.length;
    let delay = (carrier % 96 * 5 % 96).wrapping_mul(length);
    let symbol = quotient(cell, width)
        .wrapping_add(adjustment(scale.carriers, length))
        .wrapping_add(delay);
    let segment = symbol.wrapping_mul(13).wrapping_add(scale.first);
    segment.wrapping_mul(scale.carriers).wrapping_add(place)
}

/// The weight of bit r of a cell of so many bits, of which the first is highest.
fn weight(bits: usize, r: usize) -> u8 {
    match bits.wrapping_sub(r) {
        1 => 1,
        2 => 2,
        3 => 4,
        4 => 8,
        5 => 16,
        6 => 32,
        _ => 0,
    }
}

/// Adds bits r of all layer cells to the cells that are sent, of which each is a number below 64.
fn add_bits(scale: &Scale, coded: &[u8], r: usize, cells: &mut [u8]) {
    let bits = scale.layer.bits;
    if bits == 0 {
        return;
    }
    let weight = weight(bits, r);
    let delay = scale
        .width()
        .wrapping_mul(2)
        .wrapping_sub(120)
        .wrapping_add(quotient(r.wrapping_mul(120), bits.wrapping_sub(1)));
    for (number, of_cell) in coded.chunks_exact(bits).enumerate() {
        if byte_at(of_cell, r) == 1 {
            let place = sent_place(scale, number.wrapping_add(delay));
            if let Some(cell) = cells.get_mut(place) {
                *cell = cell.wrapping_add(weight);
            }
        }
    }
}

/// Adds the bits of a layer's packets to the cells that are sent in all frames, of which each is a number below 64: the cells of
/// a symbol by segment and then by carrier, one symbol after another. Fails only if memory runs out.
pub fn add_layer(
    alloc: Global,
    packets: &[u8],
    scale: &Scale,
    cells: &mut [u8],
) -> Result<(), NoMemory> {
    let coded = layer_bits(alloc, packets, scale)?;
    for r in 0..scale.layer.bits {
        add_bits(scale, &coded, r, cells);
    }
    Ok(())
}
