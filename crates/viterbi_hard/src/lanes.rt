//! Vectors of a byte for each trellis state. Lane n is of the state whose six bits are those of n, the newest lowest.
//!
//! A step into lane n leaves lane n / 2, where the oldest bit before is 0 (the even state), or lane 32 + n / 2, where it is 1
//! (the odd state). So lanes 2 * i and 2 * i + 1, whose newest bits are 0 and 1, are both made of lane i of the low half and
//! lane i of the high half, and the new halves are woven into one another.
//!
//! X and Y both have the step's own bit and the bit six steps before. To turn both of these turns neither output: so the
//! branch into lane 2 * i + 1 from its odd state costs what the branch into lane 2 * i costs from its even state, and the
//! other way round. Two vectors of 32 branch metrics serve all.

ghost use Rattle.std.specs.Prelude.{◌≡◌, ℕ, ◌+◌, ◌-◌, ◌*◌, ◌%◌, ◌<◌, ◌≤◌, true, false, cond, nat_lt, ◌∷◌, slice_index, All, length, List};
ghost use Rattle.viterbi_hard.specs.declared.received.Received.{Received};
ghost use Rattle.viterbi_hard.specs.Steps.{pushed, read_of};
ghost use Rattle.viterbi_hard.specs.States.{AreLow, AreTags, Holds, branch_metric_at, next_metric, next_tag};

use crate::maps::OWN_LANES;
use std::simd::prelude::*;

/// What the step into lane 2 * i costs from its even state, in a row for each number of what was read.
static EVEN_COSTS: [[u8; 32]; 16] = [
    [
        0, 0, 0, 0, 0, 0, 0, 0, 0, 0, 0, 0, 0, 0, 0, 0, 0, 0, 0, 0, 0, 0, 0, 0, 0, 0, 0, 0, 0, 0,
        0, 0,
    ],
    [
        0, 0, 1, 1, 1, 1, 0, 0, 0, 0, 1, 1, 1, 1, 0, 0, 1, 1, 0, 0, 0, 0, 1, 1, 1, 1, 0, 0, 0, 0,
        1, 1,
    ],
    [
        1, 1, 0, 0, 0, 0, 1, 1, 1, 1, 0, 0, 0, 0, 1, 1, 0, 0, 1, 1, 1, 1, 0, 0, 0, 0, 1, 1, 1, 1,
        0, 0,
    ],
    [
        0, 0, 0, 0, 0, 0, 0, 0, 0, 0, 0, 0, 0, 0, 0, 0, 0, 0, 0, 0, 0, 0, 0, 0, 0, 0, 0, 0, 0, 0,
        0, 0,
    ],
    [
        0, 1, 1, 0, 1, 0, 0, 1, 0, 1, 1, 0, 1, 0, 0, 1, 0, 1, 1, 0, 1, 0, 0, 1, 0, 1, 1, 0, 1, 0,
        0, 1,
    ],
    [
        0, 1, 2, 1, 2, 1, 0, 1, 0, 1, 2, 1, 2, 1, 0, 1, 1, 2, 1, 0, 1, 0, 1, 2, 1, 2, 1, 0, 1, 0,
        1, 2,
    ],
    [
        1, 2, 1, 0, 1, 0, 1, 2, 1, 2, 1, 0, 1, 0, 1, 2, 0, 1, 2, 1, 2, 1, 0, 1, 0, 1, 2, 1, 2, 1,
        0, 1,
    ],
    [
        0, 1, 1, 0, 1, 0, 0, 1, 0, 1, 1, 0, 1, 0, 0, 1, 0, 1, 1, 0, 1, 0, 0, 1, 0, 1, 1, 0, 1, 0,
        0, 1,
    ],
    [
        1, 0, 0, 1, 0, 1, 1, 0, 1, 0, 0, 1, 0, 1, 1, 0, 1, 0, 0, 1, 0, 1, 1, 0, 1, 0, 0, 1, 0, 1,
        1, 0,
    ],
    [
        1, 0, 1, 2, 1, 2, 1, 0, 1, 0, 1, 2, 1, 2, 1, 0, 2, 1, 0, 1, 0, 1, 2, 1, 2, 1, 0, 1, 0, 1,
        2, 1,
    ],
    [
        2, 1, 0, 1, 0, 1, 2, 1, 2, 1, 0, 1, 0, 1, 2, 1, 1, 0, 1, 2, 1, 2, 1, 0, 1, 0, 1, 2, 1, 2,
        1, 0,
    ],
    [
        1, 0, 0, 1, 0, 1, 1, 0, 1, 0, 0, 1, 0, 1, 1, 0, 1, 0, 0, 1, 0, 1, 1, 0, 1, 0, 0, 1, 0, 1,
        1, 0,
    ],
    [
        0, 0, 0, 0, 0, 0, 0, 0, 0, 0, 0, 0, 0, 0, 0, 0, 0, 0, 0, 0, 0, 0, 0, 0, 0, 0, 0, 0, 0, 0,
        0, 0,
    ],
    [
        0, 0, 1, 1, 1, 1, 0, 0, 0, 0, 1, 1, 1, 1, 0, 0, 1, 1, 0, 0, 0, 0, 1, 1, 1, 1, 0, 0, 0, 0,
        1, 1,
    ],
    [
        1, 1, 0, 0, 0, 0, 1, 1, 1, 1, 0, 0, 0, 0, 1, 1, 0, 0, 1, 1, 1, 1, 0, 0, 0, 0, 1, 1, 1, 1,
        0, 0,
    ],
    [
        0, 0, 0, 0, 0, 0, 0, 0, 0, 0, 0, 0, 0, 0, 0, 0, 0, 0, 0, 0, 0, 0, 0, 0, 0, 0, 0, 0, 0, 0,
        0, 0,
    ],
];

/// The same from its odd state.
static ODD_COSTS: [[u8; 32]; 16] = [
    [
        0, 0, 0, 0, 0, 0, 0, 0, 0, 0, 0, 0, 0, 0, 0, 0, 0, 0, 0, 0, 0, 0, 0, 0, 0, 0, 0, 0, 0, 0,
        0, 0,
    ],
    [
        1, 1, 0, 0, 0, 0, 1, 1, 1, 1, 0, 0, 0, 0, 1, 1, 0, 0, 1, 1, 1, 1, 0, 0, 0, 0, 1, 1, 1, 1,
        0, 0,
    ],
    [
        0, 0, 1, 1, 1, 1, 0, 0, 0, 0, 1, 1, 1, 1, 0, 0, 1, 1, 0, 0, 0, 0, 1, 1, 1, 1, 0, 0, 0, 0,
        1, 1,
    ],
    [
        0, 0, 0, 0, 0, 0, 0, 0, 0, 0, 0, 0, 0, 0, 0, 0, 0, 0, 0, 0, 0, 0, 0, 0, 0, 0, 0, 0, 0, 0,
        0, 0,
    ],
    [
        1, 0, 0, 1, 0, 1, 1, 0, 1, 0, 0, 1, 0, 1, 1, 0, 1, 0, 0, 1, 0, 1, 1, 0, 1, 0, 0, 1, 0, 1,
        1, 0,
    ],
    [
        2, 1, 0, 1, 0, 1, 2, 1, 2, 1, 0, 1, 0, 1, 2, 1, 1, 0, 1, 2, 1, 2, 1, 0, 1, 0, 1, 2, 1, 2,
        1, 0,
    ],
    [
        1, 0, 1, 2, 1, 2, 1, 0, 1, 0, 1, 2, 1, 2, 1, 0, 2, 1, 0, 1, 0, 1, 2, 1, 2, 1, 0, 1, 0, 1,
        2, 1,
    ],
    [
        1, 0, 0, 1, 0, 1, 1, 0, 1, 0, 0, 1, 0, 1, 1, 0, 1, 0, 0, 1, 0, 1, 1, 0, 1, 0, 0, 1, 0, 1,
        1, 0,
    ],
    [
        0, 1, 1, 0, 1, 0, 0, 1, 0, 1, 1, 0, 1, 0, 0, 1, 0, 1, 1, 0, 1, 0, 0, 1, 0, 1, 1, 0, 1, 0,
        0, 1,
    ],
    [
        1, 2, 1, 0, 1, 0, 1, 2, 1, 2, 1, 0, 1, 0, 1, 2, 0, 1, 2, 1, 2, 1, 0, 1, 0, 1, 2, 1, 2, 1,
        0, 1,
    ],
    [
        0, 1, 2, 1, 2, 1, 0, 1, 0, 1, 2, 1, 2, 1, 0, 1, 1, 2, 1, 0, 1, 0, 1, 2, 1, 2, 1, 0, 1, 0,
        1, 2,
    ],
    [
        0, 1, 1, 0, 1, 0, 0, 1, 0, 1, 1, 0, 1, 0, 0, 1, 0, 1, 1, 0, 1, 0, 0, 1, 0, 1, 1, 0, 1, 0,
        0, 1,
    ],
    [
        0, 0, 0, 0, 0, 0, 0, 0, 0, 0, 0, 0, 0, 0, 0, 0, 0, 0, 0, 0, 0, 0, 0, 0, 0, 0, 0, 0, 0, 0,
        0, 0,
    ],
    [
        1, 1, 0, 0, 0, 0, 1, 1, 1, 1, 0, 0, 0, 0, 1, 1, 0, 0, 1, 1, 1, 1, 0, 0, 0, 0, 1, 1, 1, 1,
        0, 0,
    ],
    [
        0, 0, 1, 1, 1, 1, 0, 0, 0, 0, 1, 1, 1, 1, 0, 0, 1, 1, 0, 0, 0, 0, 1, 1, 1, 1, 0, 0, 0, 0,
        1, 1,
    ],
    [
        0, 0, 0, 0, 0, 0, 0, 0, 0, 0, 0, 0, 0, 0, 0, 0, 0, 0, 0, 0, 0, 0, 0, 0, 0, 0, 0, 0, 0, 0,
        0, 0,
    ],
];

/// The branch metrics into the lanes 2 * i from their even states, and into the lanes 2 * i + 1 from their odd states.
#[inline(always)]
fn even_costs(read: u8) -> u8x32
    ensures { (i : ℕ) → i < 32 → slice_index result i ≡ branch_metric_at (read_of read) (2 * i) false }
{
    u8x32::from_array(EVEN_COSTS[(read % 16) as usize])
}

/// The branch metrics into the lanes 2 * i from their odd states, and into the lanes 2 * i + 1 from their even states.
#[inline(always)]
fn odd_costs(read: u8) -> u8x32
    ensures { (i : ℕ) → i < 32 → slice_index result i ≡ branch_metric_at (read_of read) (2 * i) true }
{
    u8x32::from_array(ODD_COSTS[(read % 16) as usize])
}

/// Two vectors lane by lane, each lane that does not overflow.
#[inline(always)]
fn sum(a: u8x32, b: u8x32) -> u8x32
    ensures { (n : ℕ) → n < 32 → slice_index a n + slice_index b n < 256 → slice_index result n ≡ slice_index a n + slice_index b n }
{
    a + b
}

/// The lesser of two metrics: that of the survivor.
#[inline(always)]
fn surviving_metrics(even: u8x32, odd: u8x32) -> u8x32
    ensures { (i : ℕ) → i < 32 → slice_index result i ≡ cond (nat_lt (slice_index odd i) (slice_index even i)) (slice_index odd i) (slice_index even i) }
{
    even.simd_min(odd)
}

/// The tag of the survivor: that of the odd state only where this costs less, so on equal metrics the older bit is 0.
#[inline(always)]
fn surviving_tags(even: u8x32, odd: u8x32, even_tags: u8x32, odd_tags: u8x32) -> u8x32
    ensures { (i : ℕ) → i < 32 → slice_index result i ≡ cond (nat_lt (slice_index odd i) (slice_index even i)) (slice_index odd_tags i) (slice_index even_tags i) }
{
    even.simd_le(odd).select(even_tags, odd_tags)
}

/// The lanes of even states before a step.
#[inline(always)]
fn low_half(v: u8x64) -> u8x32
    ensures { (i : ℕ) → i < 32 → slice_index result i ≡ slice_index v i }
{
    v.extract::<0, 32>()
}

/// The lanes of odd states before a step.
#[inline(always)]
fn high_half(v: u8x64) -> u8x32
    ensures { (i : ℕ) → i < 32 → slice_index result i ≡ slice_index v (32 + i) }
{
    v.extract::<32, 32>()
}

/// All lanes in their order.
const ORDER: [usize; 64] = [
    0, 1, 2, 3, 4, 5, 6, 7, 8, 9, 10, 11, 12, 13, 14, 15, 16, 17, 18, 19, 20, 21, 22, 23, 24, 25,
    26, 27, 28, 29, 30, 31, 32, 33, 34, 35, 36, 37, 38, 39, 40, 41, 42, 43, 44, 45, 46, 47, 48, 49,
    50, 51, 52, 53, 54, 55, 56, 57, 58, 59, 60, 61, 62, 63,
];

/// The first lanes of two vectors, the second lanes, and so on.
#[inline(always)]
fn woven(zeros: u8x32, ones: u8x32) -> u8x64
    ensures zeros { (i : ℕ) → i < 32 → slice_index result (2 * i) ≡ slice_index zeros i }
    ensures ones { (i : ℕ) → i < 32 → slice_index result (2 * i + 1) ≡ slice_index ones i }
{
    let (low, high) = zeros.interleave(ones);
    low.shuffle::<64>(high, ORDER)
}

/// The metrics and the tags one step on: to the metrics of the even and of the odd states before the branch metrics are
/// added, the two are compared, and the survivor's metric and tag are selected.
#[inline(always)]
fn add_compare_select(metrics: u8x64, tags: u8x64, read: u8) -> (u8x64, u8x64)
    ensures metrics { AreLow metrics → (n : ℕ) → n < 64 → slice_index result.0 n ≡ next_metric (read_of read) metrics n }
    ensures tags { AreLow metrics → (n : ℕ) → n < 64 → slice_index result.1 n ≡ next_tag (read_of read) metrics tags n }
{
    let same = even_costs(read);
    let other = odd_costs(read);
    let even = low_half(metrics);
    let odd = high_half(metrics);
    let even_tags = low_half(tags);
    let odd_tags = high_half(tags);
    let zero_even = sum(even, same);
    let zero_odd = sum(odd, other);
    let one_even = sum(even, other);
    let one_odd = sum(odd, same);
    let zero_metrics = surviving_metrics(zero_even, zero_odd);
    let one_metrics = surviving_metrics(one_even, one_odd);
    let zero_tags = surviving_tags(zero_even, zero_odd, even_tags, odd_tags);
    let one_tags = surviving_tags(one_even, one_odd, even_tags, odd_tags);
    let new_metrics = woven(zero_metrics, one_metrics);
    let new_tags = woven(zero_tags, one_tags);
    (new_metrics, new_tags)
}

/// The two newest bits of each lane's state, where a tag has the first two bits of its block.
static FIRST_BITS: [u8; 64] = [
    0, 64, 128, 192, 0, 64, 128, 192, 0, 64, 128, 192, 0, 64, 128, 192, 0, 64, 128, 192, 0, 64,
    128, 192, 0, 64, 128, 192, 0, 64, 128, 192, 0, 64, 128, 192, 0, 64, 128, 192, 0, 64, 128, 192,
    0, 64, 128, 192, 0, 64, 128, 192, 0, 64, 128, 192, 0, 64, 128, 192, 0, 64, 128, 192,
];

/// The tags one step on, where `age` steps came before behind the boundary: at the second step the first two bits of the
/// block, which are then the two newest of each lane, are put to them.
#[inline(always)]
fn marked(tags: u8x64, age: u8) -> u8x64
    ensures second { age ≡ 1 → (n : ℕ) → n < 64 → slice_index tags n < 64 → slice_index result n ≡ slice_index tags n + 64 * (n % 4) }
    ensures other { (age ≡ 1 → ⊥) → result ≡ tags }
{
    if age == 1 {
        return tags + u8x64::from_array(FIRST_BITS);
    }
    tags
}

/// The metrics, less the least of them.
#[inline(always)]
pub fn lowered(v: u8x64, least: u8) -> u8x64
    requires { All (λ x. least ≤ x) v }
    ensures { (n : ℕ) → n < 64 → slice_index result n ≡ slice_index v n - least }
{
    v - u8x64::splat(least)
}

/// The metrics and the tags one step on, where `age` steps came before behind the boundary.
#[inline(always)]
pub fn next_step(metrics: u8x64, tags: u8x64, age: u8, read: u8) -> (u8x64, u8x64)
    ensures metrics { (since : ℕ) (rs : List Received) → Holds metrics since rs → since < 64 → Holds result.0 (since + 1) (read_of read ∷ rs) }
    ensures tags { (since : ℕ) (rs : List Received) → Holds metrics since rs → since < 64 → AreTags tags age rs → AreTags result.1 (age + 1) (read_of read ∷ rs) }
{
    let (next_metrics, next_tags) = add_compare_select(metrics, tags, read);
    let new_tags = marked(next_tags, age);
    (next_metrics, new_tags)
}

/// The metrics and the tags eight steps behind a boundary, from the metrics there and the steps from a place on.
#[inline(always)]
pub fn eight_steps(start: u8x64, steps: &[u8], at: usize) -> (u8x64, u8x64)
    requires { at + 8 ≤ length steps.now }
    ensures metrics { (since : ℕ) (rs : List Received) → Holds start since rs → since ≤ 56 → Holds result.0 (since + 8) (pushed steps.now at 8 rs) }
    ensures tags { (since : ℕ) (rs : List Received) → Holds start since rs → since ≤ 56 → AreTags result.1 8 (pushed steps.now at 8 rs) }
{
    let mut metrics = start;
    let mut tags = u8x64::from_array(OWN_LANES);
    for step in 0..8u8 {
        let (next_metrics, next_tags) = next_step(metrics, tags, step, steps[at + step as usize]);
        metrics = next_metrics;
        tags = next_tags;
    }
    (metrics, tags)
}
