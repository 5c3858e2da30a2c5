//! The encoder.

ghost use Rattle.std.specs.Prelude.{◌≡◌, ℕ, ◌+◌, ◌*◌, ◌%◌, ◌<◌, ◌≤◌, false, List, [], ◌++◌, length, slice_index_or};
ghost use Rattle.isdbt_base.specs.Numbers.{rate_steps};
ghost use Rattle.conv_punct.specs.CodedBits.{bit_of, coded_bit};
ghost use Rattle.conv_punct.specs.StandsFor.{StandsFor, BeginsWith, coded_size, rate_of};

use crate::mother_code::{joined, mother_code_of};
use crate::puncture::put_coded;
use isdbt_base::Rate;

/// Encoder of the inner code at one rate.
#[derive(Clone, Copy, Debug)]
pub struct Encoder {
    rate: Rate,
    /// The six newest input bits, the newest lowest.
    newest: u8,
}

/// The fewest bytes whose bits are whole patterns, and how many patterns.
fn unit_of(rate: Rate) -> (usize, u32)
    ensures patterns { 8 * result.0 ≡ rate_steps rate * result.1 }
    ensures bytes { (n : ℕ) → 8 * n % rate_steps rate ≡ 0 → n % result.0 ≡ 0 }
    ensures few { (1 ≤ result.0) × (result.0 ≤ 7) × (result.1 ≤ 8) }
{
    match rate {
        Rate::R12 => (1, 8),
        Rate::R23 => (1, 4),
        Rate::R34 => (3, 8),
        Rate::R56 => (5, 8),
        Rate::R78 => (7, 8),
    }
}

impl Encoder {
    /// The encoder that was fed nothing: zero bits stand before the first input.
    pub fn start(rate: Rate) -> Encoder
        ensures state { StandsFor result [] }
        ensures rate { rate_of result ≡ rate }
    {
        Encoder { rate, newest: 0 }
    }

    /// Feeds bytes, whose bits are whole patterns: 8 times their count is a multiple of the k of the rate k/n. Writes
    /// their coded bits to the front of `out`, which has room for them, and answers their count; the rest of `out` stays
    /// as it was. The bits go on from those of the bytes fed before.
    pub fn feed(&mut self, bytes: &[u8], out: &mut [bool]) -> usize
        requires whole { 8 * length bytes.now % rate_steps (rate_of self.old) ≡ 0 }
        requires room { coded_size (rate_of self.old) (length bytes.now) ≤ length out.old }
        ensures count { result ≡ coded_size (rate_of self.old) (length bytes.now) }
        ensures coded { (fed : List ℕ) (stream : ℕ → ℕ) → StandsFor self.old fed → BeginsWith stream (fed ++ bytes.now) → (i : ℕ) → i < result → slice_index_or out.new i false ≡ coded_bit (rate_of self.old) (bit_of stream) (coded_size (rate_of self.old) (length fed) + i) }
        ensures rest { (i : ℕ) → result ≤ i → slice_index_or out.new i false ≡ slice_index_or out.old i false }
        ensures state { (fed : List ℕ) → StandsFor self.old fed → StandsFor self.new (fed ++ bytes.now) }
        ensures rate { rate_of self.new ≡ rate_of self.old }
    {
        let (unit, patterns) = unit_of(self.rate);
        let mut inputs = u64::from(self.newest);
        let mut at = 0;
        for index in 0..bytes.len() / unit {
            let start = index * unit;
            inputs = joined(inputs, &bytes[start..start + unit]);
            at = put_coded(out, at, self.rate, &mother_code_of(inputs), patterns);
        }
        self.newest = (inputs & 0x3F) as u8;
        at
    }
}
