//! The outer code by long division.

use crate::scale::byte_at;
use isdbt_base::NoMemory;
use std::alloc::Global;

/// Twice a byte of the field.
fn twice(byte: u8) -> u8 {
    if byte < 128 {
        byte.wrapping_mul(2)
    } else {
        byte.wrapping_mul(2) ^ 0x1D
    }
}

/// The product of two bytes of the field.
fn product(a: u8, b: u8) -> u8 {
    let mut sum = 0;
    let mut power = a;
    let mut rest = b;
    for _bit in 0..8 {
        if rest % 2 == 1 {
            sum ^= power;
        }
        power = twice(power);
        rest /= 2;
    }
    sum
}

/// Multiplies a polynomial, its highest coefficient first, by x less a root.
fn times_root(polynomial: &mut [u8; 17], root: u8) {
    for place in 0..16 {
        let at = 16 - place;
        polynomial[at] ^= product(root, polynomial[at - 1]);
    }
}

/// The generator polynomial, its highest coefficient first: the first 16 powers of 02 are its roots.
fn generator() -> [u8; 17] {
    let mut polynomial = [0; 17];
    polynomial[0] = 1;
    let mut root = 1;
    for _power in 0..16 {
        times_root(&mut polynomial, root);
        root = twice(root);
    }
    polynomial
}

/// The outer code: the multiples of its generator polynomial without the highest coefficient, 16 bytes for each factor.
#[derive(Drop)]
pub struct OuterCode {
    multiples: Vec<u8>,
}

impl OuterCode {
    /// The code. Fails only if memory runs out.
    pub fn new(alloc: Global) -> Result<OuterCode, NoMemory> {
        let polynomial = generator();
        let mut multiples = Vec::new(alloc);
        for place in 0..4096 {
            let factor = place / 16;
            multiples.push(product(factor as u8, polynomial[place % 16 + 1]))?;
        }
        Ok(OuterCode { multiples })
    }

    /// The parity of a packet: the remainder of its bytes with 16 zeros behind them. Fails only if memory runs out.
    pub fn parity(&self, alloc: Global, packet: &[u8]) -> Result<Vec<u8>, NoMemory> {
        let mut rest = packet.to_vec(alloc)?;
        rest.extend_from_slice(&[0; 16])?;
        for place in 0..packet.len() {
            self.take_away(&mut rest, place);
        }
        Ok(rest.get(packet.len()..).unwrap_or(&[]).to_vec(alloc)?)
    }

    /// Takes that multiple away behind a place which has the coefficient that stands there.
    fn take_away(&self, rest: &mut [u8], place: usize) {
        let row = 16 * byte_at(rest, place) as usize;
        for number in 0..16 {
            let at = place.wrapping_add(number).wrapping_add(1);
            if let Some(byte) = rest.get_mut(at) {
                *byte ^= byte_at(&self.multiples, row + number);
            }
        }
    }
}
