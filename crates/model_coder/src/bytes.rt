//! Sent bytes: codewords, dispersed, at their places.

use crate::outer_code::OuterCode;
use crate::scale::{byte_at, remainder};
use isdbt_base::NoMemory;
use std::alloc::Global;

/// So many bits of the dispersal sequence behind its initial value, bits -15 to -1.
fn dispersal_bits(alloc: Global, count: usize) -> Result<Vec<u8>, NoMemory> {
    let mut bits = [0, 0, 0, 0, 0, 0, 0, 1, 0, 1, 0, 1, 0, 0, 1].to_vec(alloc)?;
    for n in 0..count {
        bits.push(byte_at(&bits, n.wrapping_add(1)) ^ byte_at(&bits, n))?;
    }
    Ok(bits)
}

/// The byte of eight bits, the first highest.
fn byte_of(bits: &[u8]) -> u8 {
    let mut byte = 0u8;
    for bit in bits {
        byte = byte.wrapping_mul(2).wrapping_add(*bit);
    }
    byte
}

/// So many bytes of the dispersal sequence. Fails only if memory runs out.
pub fn dispersal(alloc: Global, count: usize) -> Result<Vec<u8>, NoMemory> {
    let bits = dispersal_bits(alloc, count.wrapping_mul(8))?;
    let mut bytes = Vec::new(alloc);
    for eight in bits.get(15..).unwrap_or(&[]).chunks_exact(8) {
        bytes.push(byte_of(eight))?;
    }
    Ok(bytes)
}

/// Adds the bytes of a packet's codeword from byte 1 on, and the sync byte of the next.
fn add_unit(
    alloc: Global,
    packet: &[u8],
    code: &OuterCode,
    units: &mut Vec<u8>,
) -> Result<(), NoMemory> {
    let parity = code.parity(alloc, packet)?;
    units.extend_from_slice(packet.get(1..).unwrap_or(&[]))?;
    units.extend_from_slice(&parity)?;
    units.push(0x47)?;
    Ok(())
}

/// Adds the dispersal sequence, which begins anew after so many bytes, to all but each last byte of 204.
fn disperse(units: &mut [u8], sequence: &[u8], frame: usize) {
    for (place, byte) in units.iter_mut().enumerate() {
        if place % 204 < 203 {
            *byte ^= byte_at(sequence, remainder(place, frame));
        }
    }
}

/// The sent bytes of a layer's packets, of so many bytes a frame.
fn sent_bytes(alloc: Global, packets: &[u8], frame: usize) -> Result<Vec<u8>, NoMemory> {
    let code = OuterCode::new(alloc)?;
    let mut units = Vec::new(alloc);
    for packet in packets.chunks_exact(188) {
        add_unit(alloc, packet, &code, &mut units)?;
    }
    disperse(&mut units, &dispersal(alloc, frame)?, frame);
    Ok(units)
}

/// The sent bytes of a layer's packets, of so many a frame, at their places behind the byte interleaving.
pub fn placed_bytes(alloc: Global, packets: &[u8], count: usize) -> Result<Vec<u8>, NoMemory> {
    let sent = sent_bytes(alloc, packets, count.wrapping_mul(204))?;
    let mut places = vec![in alloc; 0; sent.len()]?;
    let delay = count.wrapping_sub(11).wrapping_mul(204);
    for (n, byte) in sent.iter().enumerate() {
        let place = n.wrapping_add(delay).wrapping_add(n % 12 * 204);
        if let Some(to) = places.get_mut(place) {
            *to = *byte;
        }
    }
    Ok(places)
}
