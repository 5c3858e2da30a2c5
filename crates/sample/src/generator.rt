//! The generator of the bytes of a made input.

ghost use Rattle.std.specs.Prelude.{◌≡◌, ◌≤◌, IfOk, vec_items};
ghost use Rattle.sample.specs.Generator.{made_input};

use isdbt_base::{NoMemory, put, zeros};
use std::alloc::Global;
use ts_packet::{PACKET_BYTES, SYNC};

/// A generator of bytes: its state of 32 bits goes on by a multiplication and an addition with each byte.
#[derive(Clone, Copy, Debug, PartialEq, Eq)]
pub struct Generator {
    state: u32,
}

impl Generator {
    ghost use Rattle.std.specs.Prelude.{◌≡◌, ℕ, ◌+◌, ◌*◌};
    ghost use Rattle.sample.specs.Generator.{next_state, byte_of, state_after, made_packet};

    /// A generator that begins with this state.
    pub fn new(seed: u32) -> Generator
        ensures { result.state ≡ seed }
    {
        Generator { state: seed }
    }

    /// The next byte: bits 16 to 23 of the next state.
    fn byte(&mut self) -> u8
        ensures state { self.new.state ≡ next_state self.old.state }
        ensures value { result ≡ byte_of self.new.state }
    {
        self.state = self.state.wrapping_mul(1_103_515_245).wrapping_add(12_345);
        (self.state / 65_536 % 256) as u8
    }

    /// The next packet: the sync byte and 187 bytes, of which the first has its top bit cleared.
    pub fn packet(&mut self) -> [u8; PACKET_BYTES]
        ensures packet { (seed p : ℕ) → self.old.state ≡ state_after seed (187 * p) → result ≡ made_packet seed p }
        ensures state { (seed p : ℕ) → self.old.state ≡ state_after seed (187 * p) → self.new.state ≡ state_after seed (187 * (p + 1)) }
    {
        let mut packet = [SYNC; PACKET_BYTES];
        for k in 1..PACKET_BYTES {
            packet[k] = self.byte();
        }
        packet[1] %= 128;
        packet
    }
}

/// The first so many packets of the generator that begins with this state. Fails only if memory runs out.
pub fn made_input(alloc: Global, seed: u32, count: u32) -> Result<Vec<u8>, NoMemory>
    requires { count ≤ 3000 }
    ensures { IfOk result (λ bytes. vec_items bytes ≡ made_input seed count) }
{
    let mut bytes = zeros(alloc, PACKET_BYTES * count as usize)?;
    let mut generator = Generator::new(seed);
    let mut end = 0;
    for p in 0..count {
        end = put(&mut bytes, end, &generator.packet());
    }
    Ok(bytes)
}
