//! The decoder.

ghost use Rattle.std.specs.Prelude.{◌≡◌, ℕ, ◌+◌, ◌-◌, ◌*◌, ◌^◌, ◌/◌, ◌%◌, ◌<◌, ◌≤◌, ◌⊎◌, Bool, true, false, List, ◌∷◌, drop, length, slice_index_or};
ghost use Rattle.isdbt_base.specs.Numbers.{rate_steps, rate_bits};
ghost use Rattle.viterbi_hard.specs.LeastPath.{decided_bit};
ghost use Rattle.viterbi_hard.specs.Blocks.{Traced};
ghost use Rattle.viterbi_hard.specs.States.{AreTags, Holds, odd};
ghost use Rattle.viterbi_hard.specs.declared.received.Received.{Received};
ghost use Rattle.viterbi_hard.specs.Steps.{pushed, read_of};
ghost use Rattle.viterbi_hard.specs.Trellis.{IsDecided};

use crate::blocks::Blocks;
use crate::lanes::{eight_steps, lowered, next_step};
use crate::least::{first_least, least_of_all};
use crate::maps::OWN_LANES;
use crate::received::expand;
use isdbt_base::{Rate, rate_pair};
use std::simd::prelude::*;

/// The path metric before the first step of each state but state 0: more than any six steps can cost, so that no path from
/// there is ever the least.
const OTHER_START: u8 = 16;

/// The steps that a decided bit waits for: the traceback window is 128 steps with its own.
const WAIT: u8 = 127;

/// The steps that are expanded at a time: whole patterns at each rate.
const MOST_STEPS: usize = 840;

/// Puts the lower seven bits of a label, the highest first, to some bits from a place on.
#[inline(always)]
fn put_bits(label: u8, out: &mut [bool], at: usize)
    requires { at + 7 ≤ length out.old }
    ensures put { (j : ℕ) → j < 7 → slice_index_or out.new (at + j) false ≡ odd (label / 2 ^ (6 - j)) }
    ensures rest { (i : ℕ) → (i < at) ⊎ (at + 7 ≤ i) → slice_index_or out.new i false ≡ slice_index_or out.old i false }
{
    for bit in 0..7usize {
        out[at + bit] = (label >> (6 - bit)) % 2 == 1;
    }
}

/// Decoder of the inner code at one rate.
#[derive(Drop)]
pub struct Decoder {
    /// Lane n: the path metric of the survivor of lane n's state, less a number that all lanes share.
    metrics: u8x64,
    /// Lane n: where that survivor was at the last boundary, and the first two bits behind it.
    tags: u8x64,
    rate: Rate,
    /// The steps so far, at most `WAIT`.
    steps: u8,
    /// The steps since the last boundary.
    age: u8,
    /// The blocks since the metrics were lowered.
    high: u8,
    traceback: Blocks,
}

impl Decoder {
    ghost use Rattle.viterbi_hard.specs.StandsFor.{AreSteps, EndsBlock, FeedsTo, GoesOn, HasLabel, Keeps, StandsFor, rate_of, steps_in};

    /// The decoder that read nothing: zero bits stand before the first input.
    pub fn start(rate: Rate) -> Decoder
        ensures state { (read : ℕ → Bool) → StandsFor result read 0 }
        ensures rate { rate_of result ≡ rate }
    {
        let mut metrics = [OTHER_START; 64];
        metrics[0] = 0;
        Decoder {
            rate,
            steps: 0,
            metrics: u8x64::from_array(metrics),
            tags: u8x64::from_array(OWN_LANES),
            age: 0,
            high: 0,
            traceback: Blocks::start(),
        }
    }

    /// The end of a block. The metrics stay small: two of them differ by at most 28, and a step adds at most 2. So every eight
    /// blocks the least of them is taken off them all, and a byte never overflows.
    #[inline(always)]
    fn end_block(&mut self)
        ensures keeps { (rs : List Received) → EndsBlock self.old rs → Keeps self.new rs }
        ensures rate { self.new.rate ≡ self.old.rate }
        ensures steps { self.new.steps ≡ self.old.steps }
    {
        let tags = self.tags;
        self.traceback.push(tags);
        self.tags = u8x64::from_array(OWN_LANES);
        self.age = 0;
        if self.high < 7 {
            self.high += 1;
        } else {
            let least = least_of_all(self.metrics);
            self.metrics = lowered(self.metrics, least);
            self.high = 0;
        }
    }

    /// Goes one step on.
    #[inline(always)]
    fn advance(&mut self, read: u8)
        ensures keeps { (rs : List Received) → Keeps self.old rs → Keeps self.new (read_of read ∷ rs) }
        ensures rate { self.new.rate ≡ self.old.rate }
        ensures steps { self.new.steps ≡ self.old.steps }
    {
        let (metrics, tags) = next_step(self.metrics, self.tags, self.age, read);
        self.metrics = metrics;
        self.tags = tags;
        if self.age < 7 {
            self.age += 1;
        } else {
            self.end_block();
        }
    }

    /// The label of the oldest block on the least path, where it is not known for all survivors: by the lane of least metric.
    #[inline(always)]
    fn searched_label(&self, metrics: u8x64, tags: u8x64) -> u8
        ensures { (since age : ℕ) (rs : List Received) → Holds metrics since rs → AreTags tags age rs → Traced self.now.traceback (drop age rs) → self.now.traceback.known ≡ 0 → HasLabel result age rs }
    {
        let all = tags.to_array();
        self.traceback.label_from(all[first_least(metrics)])
    }

    /// The label of the block that holds the decided bit, sixteen blocks before the one in work.
    #[inline(always)]
    fn oldest_label(&self) -> u8
        ensures { (rs : List Received) → Keeps self.now rs → HasLabel result self.now.age rs }
    {
        if self.traceback.known > 0 {
            self.traceback.known_label()
        } else {
            self.searched_label(self.metrics, self.tags)
        }
    }

    /// The bit 127 steps before the newest, of the least path.
    #[inline(always)]
    fn oldest_bit(&self) -> bool
        ensures { (rs : List Received) → Keeps self.now rs → 128 ≤ length rs → IsDecided rs result }
    {
        (self.oldest_label() >> (7 - self.age % 8)) % 2 == 1
    }

    /// One step; the bit is the decided one where 127 steps came before.
    #[inline(always)]
    fn step(&mut self, read: u8) -> bool
        ensures keeps { (rs : List Received) → Keeps self.old rs → Keeps self.new (read_of read ∷ rs) }
        ensures decides { (rs : List Received) → Keeps self.old rs → 127 ≤ length rs → IsDecided (read_of read ∷ rs) result }
        ensures rate { self.new.rate ≡ self.old.rate }
        ensures steps { self.new.steps ≡ self.old.steps }
    {
        self.advance(read);
        self.oldest_bit()
    }

    /// Eight steps from a boundary on, where the oldest block is known: its bits are decided, and the first of the next.
    #[inline(always)]
    fn known_block(&mut self, steps: &[u8], at: usize, out: &mut [bool], end: usize)
        requires steps { at + 8 ≤ length steps.now }
        requires room { end + 8 ≤ length out.old }
        ensures keeps { (rs : List Received) → Keeps self.old rs → self.old.age ≡ 0 → Keeps self.new (pushed steps.now at 8 rs) }
        ensures decides { (rs : List Received) → Keeps self.old rs → self.old.age ≡ 0 → 1 ≤ self.old.traceback.known → 127 ≤ length rs → (j : ℕ) → j < 8 → IsDecided (pushed steps.now at (j + 1) rs) (slice_index_or out.new (end + j) false) }
        ensures rest { (i : ℕ) → (i < end) ⊎ (end + 8 ≤ i) → slice_index_or out.new i false ≡ slice_index_or out.old i false }
        ensures rate { self.new.rate ≡ self.old.rate }
        ensures steps { self.new.steps ≡ self.old.steps }
    {
        let label = self.traceback.known_label();
        let (metrics, tags) = eight_steps(self.metrics, steps, at);
        self.metrics = metrics;
        self.tags = tags;
        self.end_block();
        put_bits(label, out, end);
        out[end + 7] = self.oldest_bit();
    }

    /// The same where the oldest block is not known: each of its bits is searched for.
    #[inline(always)]
    fn searched_block(&mut self, steps: &[u8], at: usize, out: &mut [bool], end: usize)
        requires steps { at + 8 ≤ length steps.now }
        requires room { end + 8 ≤ length out.old }
        ensures keeps { (rs : List Received) → Keeps self.old rs → self.old.age ≡ 0 → Keeps self.new (pushed steps.now at 8 rs) }
        ensures decides { (rs : List Received) → Keeps self.old rs → self.old.age ≡ 0 → self.old.traceback.known ≡ 0 → 127 ≤ length rs → (j : ℕ) → j < 8 → IsDecided (pushed steps.now at (j + 1) rs) (slice_index_or out.new (end + j) false) }
        ensures rest { (i : ℕ) → (i < end) ⊎ (end + 8 ≤ i) → slice_index_or out.new i false ≡ slice_index_or out.old i false }
        ensures rate { self.new.rate ≡ self.old.rate }
        ensures steps { self.new.steps ≡ self.old.steps }
    {
        let mut metrics = self.metrics;
        let mut tags = u8x64::from_array(OWN_LANES);
        for step in 0..7u8 {
            let (next_metrics, next_tags) = next_step(
                metrics,
                tags,
                step,
                steps[at + step as usize],
            );
            metrics = next_metrics;
            tags = next_tags;
            let label = self.searched_label(metrics, tags);
            out[end + step as usize] = (label >> (6 - step)) % 2 == 1;
        }
        let (last_metrics, last_tags) = next_step(metrics, tags, 7, steps[at + 7]);
        self.metrics = last_metrics;
        self.tags = last_tags;
        self.end_block();
        out[end + 7] = self.oldest_bit();
    }

    /// Whether so many steps are a whole block and more, from a boundary on, of which all eight bits are decided.
    #[inline(always)]
    fn begins_block(&self, left: usize) -> bool
        ensures age { result ≡ true → self.now.age ≡ 0 }
        ensures steps { result ≡ true → 127 ≤ self.now.steps }
        ensures left { result ≡ true → 8 ≤ left }
    {
        left >= 8 && self.age == 0 && self.steps >= WAIT
    }

    /// A whole block.
    #[inline(always)]
    fn feed_block(&mut self, steps: &[u8], at: usize, out: &mut [bool], end: usize)
        requires steps { at + 8 ≤ length steps.now }
        requires room { end + 8 ≤ length out.old }
        ensures keeps { (rs : List Received) → Keeps self.old rs → self.old.age ≡ 0 → Keeps self.new (pushed steps.now at 8 rs) }
        ensures decides { (rs : List Received) → Keeps self.old rs → self.old.age ≡ 0 → 127 ≤ length rs → (j : ℕ) → j < 8 → IsDecided (pushed steps.now at (j + 1) rs) (slice_index_or out.new (end + j) false) }
        ensures rest { (i : ℕ) → (i < end) ⊎ (end + 8 ≤ i) → slice_index_or out.new i false ≡ slice_index_or out.old i false }
        ensures rate { self.new.rate ≡ self.old.rate }
        ensures steps { self.new.steps ≡ self.old.steps }
    {
        if self.traceback.known > 0 {
            self.known_block(steps, at, out, end);
        } else {
            self.searched_block(steps, at, out, end);
        }
    }

    /// Feeds steps, and puts what is decided behind the first `decided` bits of `out`. Answers where it ends.
    fn run(&mut self, steps: &[u8], out: &mut [bool], decided: usize) -> usize
        requires room { decided + length steps.now ≤ length out.old }
        ensures fed { (start : Decoder) (bits before : List Bool) (done : ℕ) → AreSteps start bits steps.now done → FeedsTo start self.old bits before out.old decided done → FeedsTo start self.new bits before out.new result (done + length steps.now) }
        ensures count { result ≤ decided + length steps.now }
        ensures rate { self.new.rate ≡ self.old.rate }
    {
        let mut end = decided;
        let mut at = 0usize;
        while at < steps.len() {
            if self.begins_block(steps.len() - at) {
                self.feed_block(steps, at, out, end);
                at += 8;
                end += 8;
            } else {
                let bit = self.step(steps[at]);
                at += 1;
                if self.steps < WAIT {
                    self.steps += 1;
                } else {
                    out[end] = bit;
                    end += 1;
                }
            }
        }
        end
    }

    /// Feeds read bits, whole puncturing patterns: their count is a multiple of the n of the rate k/n. Writes the bits that
    /// are decided to the front of `out`, which has room for as many as there are steps, k of each n bits, and answers
    /// their count; the rest of `out` stays as it was. The bits go on from those fed before. After n steps in all n - 127
    /// bits are decided, or none: decided bit b is bit b of the least path over the first b + 128 steps. Takes no memory.
    pub fn feed(&mut self, bits: &[bool], out: &mut [bool]) -> usize
        requires whole { length bits.now % rate_bits (rate_of self.old) ≡ 0 }
        requires room { steps_in (rate_of self.old) (length bits.now) ≤ length out.old }
        ensures count { (read : ℕ → Bool) (steps : ℕ) → StandsFor self.old read steps → result + (steps - 127) ≡ steps + steps_in (rate_of self.old) (length bits.now) - 127 }
        ensures most { result ≤ steps_in (rate_of self.old) (length bits.now) }
        ensures decided { (read : ℕ → Bool) (steps : ℕ) → StandsFor self.old read steps → GoesOn (rate_of self.old) read steps bits.now → (i : ℕ) → i < result → slice_index_or out.new i false ≡ decided_bit (rate_of self.old) read (steps - 127 + i) }
        ensures rest { (i : ℕ) → result ≤ i → slice_index_or out.new i false ≡ slice_index_or out.old i false }
        ensures state { (read : ℕ → Bool) (steps : ℕ) → StandsFor self.old read steps → GoesOn (rate_of self.old) read steps bits.now → StandsFor self.new read (steps + steps_in (rate_of self.old) (length bits.now)) }
        ensures rate { rate_of self.new ≡ rate_of self.old }
    {
        let (pattern_steps, pattern_bits) = rate_pair(self.rate);
        let patterns = bits.len() / pattern_bits as usize;
        let most = MOST_STEPS / pattern_steps as usize;
        let mut steps = [0u8; MOST_STEPS];
        let mut decided = 0usize;
        let mut done = 0usize;
        while done < patterns {
            let count = most.min(patterns - done);
            expand(
                self.rate,
                bits,
                done * pattern_bits as usize,
                &mut steps,
                count,
            );
            decided = self.run(&steps[..count * pattern_steps as usize], out, decided);
            done += count;
        }
        decided
    }
}
