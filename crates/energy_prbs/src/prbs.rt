//! The generator of the sequence.

ghost use Rattle.std.specs.Prelude.{◌≡◌, ℕ, ◌+◌, ◌<◌, length, slice_index, bit_xor};
ghost use Rattle.energy_prbs.specs.Sequence.{sequence_byte};
ghost use Rattle.energy_prbs.specs.StandsFor.{StandsFor};

/// The initial value 100101010000000, its first bit lowest.
const INITIAL_VALUE: u16 = 0b000_0000_1010_1001;

/// Bytes of a unit that are dispersed: all but the last.
const DISPERSED: usize = 203;

/// Generator of the sequence, byte by byte.
#[derive(Clone, Copy, Debug, PartialEq, Eq)]
pub struct Prbs {
    /// The fifteen bits before the next byte, the newest lowest.
    register: u16,
}

impl Prbs {
    /// The generator that has given no byte.
    pub fn start() -> Prbs
        ensures { StandsFor result 0 }
    {
        Prbs {
            register: INITIAL_VALUE,
        }
    }

    /// The next byte of the sequence.
    pub fn next_byte(&mut self) -> u8
        ensures byte { (n : ℕ) → StandsFor self.old n → result ≡ sequence_byte n }
        ensures state { (n : ℕ) → StandsFor self.old n → StandsFor self.new (n + 1) }
    {
        let byte = (((self.register >> 7) ^ (self.register >> 6)) & 0xFF) as u8;
        self.register = ((self.register & 0x7F) << 8) | u16::from(byte);
        byte
    }

    /// Disperses a unit of 204 bytes: adds the next 203 bytes of the sequence, bit by bit modulo 2, to all bytes but the
    /// last, which stays as it was. The sequence runs on through the last byte too.
    pub fn disperse(&mut self, unit: &mut [u8])
        requires { length unit.old ≡ 204 }
        ensures dispersed { (n : ℕ) → StandsFor self.old n → (i : ℕ) → i < 203 → slice_index unit.new i ≡ bit_xor (slice_index unit.old i) (sequence_byte (n + i)) }
        ensures last { slice_index unit.new 203 ≡ slice_index unit.old 203 }
        ensures state { (n : ℕ) → StandsFor self.old n → StandsFor self.new (n + 204) }
    {
        for i in 0..DISPERSED {
            unit[i] ^= self.next_byte();
        }
        let _ = self.next_byte();
    }
}
