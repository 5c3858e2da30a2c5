//! Sending the outputs of some steps.

ghost use Rattle.std.specs.Prelude.{◌≡◌, ℕ, ◌+◌, ◌*◌, ◌<◌, ◌≤◌, Bool, length};
ghost use Rattle.isdbt_base.specs.Numbers.{rate_steps, rate_bits};
ghost use Rattle.conv_punct.specs.CodedBits.{step_of};
ghost use Rattle.conv_punct.specs.Sending.{output_of, sent_bit};
ghost use Rattle.conv_punct.specs.declared.pattern.Sent.{Sent};
ghost use Rattle.conv_punct.specs.MotherCode.{AreMotherBits, AreCoded, ChangesOnly};

use crate::mother_code::MotherBits;
use crate::pattern::{Sent, pattern_of};
use isdbt_base::{Rate, rate_pair};

/// The output of a pattern whose first step has bit `first`. The work is on bytes, so that it is done for a whole pattern
/// at once.
#[inline(always)]
fn sent_bit(sent: Sent, outputs: &MotherBits, first: u32) -> bool
    requires within { step_of (output_of sent) ≤ first }
    requires place { first < 8 }
    ensures { result ≡ sent_bit outputs.now first sent }
{
    match sent {
        Sent::X(step) => ((outputs.x % 256) as u8 >> (first - step)) & 1 == 1,
        Sent::Y(step) => ((outputs.y % 256) as u8 >> (first - step)) & 1 == 1,
    }
}

/// The outputs without those of so many newest steps.
#[inline(always)]
fn moved_down(outputs: &MotherBits, count: u32) -> MotherBits
    requires { count < 64 }
    ensures { (first : ℕ) (sent : Sent) → step_of (output_of sent) ≤ first → sent_bit result first sent ≡ sent_bit outputs.now (count + first) sent }
{
    MotherBits {
        x: outputs.x >> count,
        y: outputs.y >> count,
    }
}

/// Puts the coded bits of one pattern, whose last step has bit `last`, at a place of `out`, and says where they end.
#[inline(always)]
fn put_pattern(out: &mut [bool], at: usize, rate: Rate, outputs: &MotherBits, last: u32) -> usize
    requires room { at + rate_bits rate ≤ length out.old }
    requires place { last + rate_steps rate ≤ 64 }
    ensures end { result ≡ at + rate_bits rate }
    ensures coded { (u : ℕ → Bool) (i before : ℕ) → AreMotherBits outputs.now (last + rate_steps rate) u i → i ≡ rate_steps rate * (before + 1) + last → AreCoded rate u (rate_bits rate * before) out.new at (rate_bits rate) }
    ensures others { ChangesOnly out.old out.new at (rate_bits rate) }
{
    let (steps, _) = rate_pair(rate);
    // Moved down, so that the place of each bit is known when the program is built.
    let moved = moved_down(outputs, last);
    let pattern = pattern_of(rate);
    for (index, sent) in pattern.iter().enumerate() {
        out[at + index] = sent_bit(*sent, &moved, steps - 1);
    }
    at + pattern.len()
}

/// Puts the coded bits of so many patterns, the last steps of `outputs`, at a place of `out`, and says where they end.
#[inline(always)]
fn put_patterns(
    out: &mut [bool],
    at: usize,
    rate: Rate,
    outputs: &MotherBits,
    patterns: u32,
) -> usize
    requires room { at + rate_bits rate * patterns ≤ length out.old }
    requires few { rate_steps rate * patterns ≤ 56 }
    ensures end { result ≡ at + rate_bits rate * patterns }
    ensures coded { (u : ℕ → Bool) (i before : ℕ) → AreMotherBits outputs.now (rate_steps rate * patterns) u i → i ≡ rate_steps rate * (before + patterns) → AreCoded rate u (rate_bits rate * before) out.new at (rate_bits rate * patterns) }
    ensures others { ChangesOnly out.old out.new at (rate_bits rate * patterns) }
{
    let (steps, _) = rate_pair(rate);
    let mut end = at;
    for done in 0..patterns {
        let last = steps * (patterns - done - 1);
        end = put_pattern(out, end, rate, outputs, last);
    }
    end
}

/// The same, with code of its own for each rate.
pub fn put_coded(
    out: &mut [bool],
    at: usize,
    rate: Rate,
    outputs: &MotherBits,
    patterns: u32,
) -> usize
    requires room { at + rate_bits rate * patterns ≤ length out.old }
    requires few { rate_steps rate * patterns ≤ 56 }
    ensures end { result ≡ at + rate_bits rate * patterns }
    ensures coded { (u : ℕ → Bool) (i before : ℕ) → AreMotherBits outputs.now (rate_steps rate * patterns) u i → i ≡ rate_steps rate * (before + patterns) → AreCoded rate u (rate_bits rate * before) out.new at (rate_bits rate * patterns) }
    ensures others { ChangesOnly out.old out.new at (rate_bits rate * patterns) }
{
    match rate {
        Rate::R12 => put_patterns(out, at, Rate::R12, outputs, patterns),
        Rate::R23 => put_patterns(out, at, Rate::R23, outputs, patterns),
        Rate::R34 => put_patterns(out, at, Rate::R34, outputs, patterns),
        Rate::R56 => put_patterns(out, at, Rate::R56, outputs, patterns),
        Rate::R78 => put_patterns(out, at, Rate::R78, outputs, patterns),
    }
}
