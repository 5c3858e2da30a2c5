//! The least lane, and the first state that has it.

ghost use Rattle.std.specs.Prelude.{◌≡◌, ℕ, ◌+◌, ◌<◌, ◌≤◌, cond, nat_eq, slice_index, All, Contains};
ghost use Rattle.viterbi_hard.specs.States.{natural_of};

use std::simd::prelude::*;

/// The lesser of each two lanes that lie so far apart, in the first ones; this is the form that compilers know.
#[inline(always)]
fn folded_by_eight(v: u8x16) -> u8x16
    ensures here { (i : ℕ) → i < 8 → slice_index result i ≤ slice_index v i }
    ensures there { (i : ℕ) → i < 8 → slice_index result i ≤ slice_index v (i + 8) }
    ensures lane { (i : ℕ) → i < 16 → (j : ℕ) × ((j < 16) × (slice_index result i ≡ slice_index v j)) }
{
    v.simd_min(v.rotate_elements_left::<8>())
}

#[inline(always)]
fn folded_by_four(v: u8x16) -> u8x16
    ensures here { (i : ℕ) → i < 4 → slice_index result i ≤ slice_index v i }
    ensures there { (i : ℕ) → i < 4 → slice_index result i ≤ slice_index v (i + 4) }
    ensures lane { (i : ℕ) → i < 16 → (j : ℕ) × ((j < 16) × (slice_index result i ≡ slice_index v j)) }
{
    v.simd_min(v.rotate_elements_left::<4>())
}

#[inline(always)]
fn folded_by_two(v: u8x16) -> u8x16
    ensures here { (i : ℕ) → i < 2 → slice_index result i ≤ slice_index v i }
    ensures there { (i : ℕ) → i < 2 → slice_index result i ≤ slice_index v (i + 2) }
    ensures lane { (i : ℕ) → i < 16 → (j : ℕ) × ((j < 16) × (slice_index result i ≡ slice_index v j)) }
{
    v.simd_min(v.rotate_elements_left::<2>())
}

#[inline(always)]
fn folded_by_one(v: u8x16) -> u8x16
    ensures here { (i : ℕ) → i < 1 → slice_index result i ≤ slice_index v i }
    ensures there { (i : ℕ) → i < 1 → slice_index result i ≤ slice_index v (i + 1) }
    ensures lane { (i : ℕ) → i < 16 → (j : ℕ) × ((j < 16) × (slice_index result i ≡ slice_index v j)) }
{
    v.simd_min(v.rotate_elements_left::<1>())
}

/// The least lane, by halves.
#[inline(always)]
fn least_of_sixteen(v: u8x16) -> u8
    ensures least { All (λ x. result ≤ x) v }
    ensures lane { Contains v result }
{
    let eight = folded_by_eight(v);
    let four = folded_by_four(eight);
    let two = folded_by_two(four);
    let one = folded_by_one(two);
    let lanes = one.to_array();
    lanes[0]
}

#[inline(always)]
fn least_of_thirty_two(v: u8x32) -> u8
    ensures least { All (λ x. result ≤ x) v }
    ensures lane { Contains v result }
{
    least_of_sixteen(v.extract::<0, 16>().simd_min(v.extract::<16, 16>()))
}

/// The least lane.
#[inline(always)]
pub fn least_of_all(v: u8x64) -> u8
    ensures least { All (λ x. result ≤ x) v }
    ensures lane { Contains v result }
{
    least_of_thirty_two(v.extract::<0, 32>().simd_min(v.extract::<32, 32>()))
}

/// The number of each lane's state in natural order, the newest bit highest; and the lane of each number.
static NATURAL: [u8; 64] = [
    0, 32, 16, 48, 8, 40, 24, 56, 4, 36, 20, 52, 12, 44, 28, 60, 2, 34, 18, 50, 10, 42, 26, 58, 6,
    38, 22, 54, 14, 46, 30, 62, 1, 33, 17, 49, 9, 41, 25, 57, 5, 37, 21, 53, 13, 45, 29, 61, 3, 35,
    19, 51, 11, 43, 27, 59, 7, 39, 23, 55, 15, 47, 31, 63,
];

/// Of the lanes that have this value their states' numbers in natural order, and 255 in the others.
#[inline(always)]
fn numbers_of(v: u8x64, value: u8) -> u8x64
    ensures { (i : ℕ) → i < 64 → slice_index result i ≡ cond (nat_eq (slice_index v i) value) (natural_of i) 255 }
{
    v.simd_eq(u8x64::splat(value))
        .select(u8x64::from_array(NATURAL), u8x64::splat(255))
}

/// The lane of a number in natural order.
#[inline(always)]
fn lane_of(number: u8) -> usize
    ensures within { result < 64 }
    ensures lane { (i : ℕ) → i < 64 → natural_of i ≡ number → result ≡ i }
{
    NATURAL[number as usize % 64] as usize
}

/// The lane of the least value; of equals the first by their states' numbers in natural order.
#[inline(always)]
pub fn first_least(v: u8x64) -> usize
    ensures within { result < 64 }
    ensures least { (i : ℕ) → i < 64 → slice_index v result ≤ slice_index v i }
    ensures first { (i : ℕ) → i < 64 → slice_index v i ≡ slice_index v result → natural_of result ≤ natural_of i }
{
    let least = least_of_all(v);
    let numbers = numbers_of(v, least);
    let number = least_of_all(numbers);
    lane_of(number)
}
