//! What was read of a step: hard decisions in the places of its outputs.

ghost use Rattle.std.specs.Prelude.{◌≡◌, ℕ, ◌+◌, ◌*◌, ◌<◌, ◌≤◌, ◌⊎◌, false, length, slice_index, slice_index_or};
ghost use Rattle.isdbt_base.specs.Numbers.{rate_steps, rate_bits};
ghost use Rattle.viterbi_hard.specs.States.{place_of};
ghost use Rattle.viterbi_hard.specs.Steps.{decision_of, read_of, received_from, sends_x, sends_y, sent_before, step_at, used_at};

use isdbt_base::{Rate, rate_pair};

/// What was read in the place of an output.
#[derive(Clone, Copy)]
pub enum Decision {
    /// The output was not sent: it costs nothing.
    Punctured,
    /// A 0 was read.
    Zero,
    /// A 1 was read.
    One,
}

/// What was read of one step.
#[derive(Clone, Copy)]
pub struct Received {
    /// In the place of X.
    pub x: Decision,
    /// In the place of Y.
    pub y: Decision,
}

/// What was read in a place as a number.
#[inline(always)]
fn place(decision: Decision) -> u8
    ensures row { result ≡ place_of decision }
    ensures within { result < 3 }
{
    match decision {
        Decision::Punctured => 0,
        Decision::Zero => 1,
        Decision::One => 2,
    }
}

/// What was read of a step as a number: X in the higher two bits, Y in the lower two.
#[inline(always)]
fn number(received: Received) -> u8
    ensures { read_of result ≡ received }
{
    4 * place(received.x) + place(received.y)
}

/// Whether X of a step of the puncturing pattern is sent.
#[inline(always)]
fn sends_x(rate: Rate, step: u32) -> bool
    ensures { result ≡ sends_x rate step }
{
    match rate {
        Rate::R12 => step == 0,
        Rate::R23 => step == 0,
        Rate::R34 => step == 0 || step == 2,
        Rate::R56 => step == 0 || step == 2 || step == 4,
        Rate::R78 => step == 0 || step == 4 || step == 6,
    }
}

/// Whether Y of a step of the puncturing pattern is sent.
#[inline(always)]
fn sends_y(rate: Rate, step: u32) -> bool
    ensures { result ≡ sends_y rate step }
{
    match rate {
        Rate::R12 => step == 0,
        Rate::R23 => step == 0 || step == 1,
        Rate::R34 => step == 0 || step == 1,
        Rate::R56 => step == 0 || step == 1 || step == 3,
        Rate::R78 => step == 0 || step == 1 || step == 2 || step == 3 || step == 5,
    }
}

#[inline(always)]
fn hard_decision(bit: bool) -> Decision
    ensures { result ≡ decision_of bit }
{
    if bit { Decision::One } else { Decision::Zero }
}

/// How many bits are sent of a step of the pattern.
#[inline(always)]
fn used(rate: Rate, step: u32) -> usize
    ensures { result ≡ used_at rate step }
{
    sends_x(rate, step) as usize + sends_y(rate, step) as usize
}

/// What was read of a step of the pattern, whose bits begin at a place: X before Y.
#[inline(always)]
fn received_step(rate: Rate, bits: &[bool], at: usize, step: u32) -> Received
    requires { at + used_at rate step ≤ length bits.now }
    ensures { result ≡ received_from rate (λ i. slice_index_or bits.now i false) at step }
{
    let has_x = sends_x(rate, step);
    let has_y = sends_y(rate, step);
    let x = if has_x {
        hard_decision(bits[at])
    } else {
        Decision::Punctured
    };
    let next = at + has_x as usize;
    let y = if has_y {
        hard_decision(bits[next])
    } else {
        Decision::Punctured
    };
    Received { x, y }
}

/// Puts the numbers of what was read of the steps of one pattern, whose bits begin at a place, to some steps from a place on.
#[inline(always)]
fn expand_pattern(rate: Rate, bits: &[bool], at: usize, steps: &mut [u8], first: usize)
    requires bits { at + rate_bits rate ≤ length bits.now }
    requires room { first + rate_steps rate ≤ length steps.old }
    ensures steps { (j : ℕ) → j < rate_steps rate → step_at steps.new (first + j) ≡ received_from rate (λ i. slice_index_or bits.now i false) (at + sent_before rate j) j }
    ensures others { (i : ℕ) → i < first → slice_index steps.new i ≡ slice_index steps.old i }
{
    let (count, _) = rate_pair(rate);
    let mut next = at;
    for step in 0..count {
        let received = received_step(rate, bits, next, step);
        steps[first + step as usize] = number(received);
        next += used(rate, step);
    }
}

/// Puts what was read of the steps of so many patterns, whose bits begin at a place, to the front of some steps.
#[inline(always)]
fn expand_at(rate: Rate, bits: &[bool], at: usize, steps: &mut [u8], count: usize)
    requires bits { at + rate_bits rate * count ≤ length bits.now }
    requires room { rate_steps rate * count ≤ length steps.old }
    ensures { (q j : ℕ) → q < count → j < rate_steps rate → step_at steps.new (rate_steps rate * q + j) ≡ received_from rate (λ i. slice_index_or bits.now i false) (at + rate_bits rate * q + sent_before rate j) j }
{
    let (pattern_steps, pattern_bits) = rate_pair(rate);
    for pattern in 0..count {
        let next = at + pattern_bits as usize * pattern;
        expand_pattern(rate, bits, next, steps, pattern_steps as usize * pattern);
    }
}

/// The same, by code of its own for each rate, in which the puncturing pattern is a constant.
pub fn expand(rate: Rate, bits: &[bool], at: usize, steps: &mut [u8], count: usize)
    requires bits { at + rate_bits rate * count ≤ length bits.now }
    requires room { rate_steps rate * count ≤ length steps.old }
    ensures { (q j : ℕ) → q < count → j < rate_steps rate → step_at steps.new (rate_steps rate * q + j) ≡ received_from rate (λ i. slice_index_or bits.now i false) (at + rate_bits rate * q + sent_before rate j) j }
{
    match rate {
        Rate::R12 => expand_at(Rate::R12, bits, at, steps, count),
        Rate::R23 => expand_at(Rate::R23, bits, at, steps, count),
        Rate::R34 => expand_at(Rate::R34, bits, at, steps, count),
        Rate::R56 => expand_at(Rate::R56, bits, at, steps, count),
        Rate::R78 => expand_at(Rate::R78, bits, at, steps, count),
    }
}
