//! Maps from the lanes at the end of a block to tags: where each lane's path was at the beginning of the block.

ghost use Rattle.std.specs.Prelude.{◌≡◌, ℕ, ◌+◌, ◌*◌, ◌/◌, ◌%◌, ◌<◌, true, cond, nat_eq, slice_index, bit_and};

use std::simd::prelude::*;

/// The lanes themselves: the tags at a boundary.
pub static OWN_LANES: [u8; 64] = [
    0, 1, 2, 3, 4, 5, 6, 7, 8, 9, 10, 11, 12, 13, 14, 15, 16, 17, 18, 19, 20, 21, 22, 23, 24, 25,
    26, 27, 28, 29, 30, 31, 32, 33, 34, 35, 36, 37, 38, 39, 40, 41, 42, 43, 44, 45, 46, 47, 48, 49,
    50, 51, 52, 53, 54, 55, 56, 57, 58, 59, 60, 61, 62, 63,
];

/// The first quarter of a vector, four times.
const FIRST: [usize; 64] = [
    0, 1, 2, 3, 4, 5, 6, 7, 8, 9, 10, 11, 12, 13, 14, 15, 0, 1, 2, 3, 4, 5, 6, 7, 8, 9, 10, 11, 12,
    13, 14, 15, 0, 1, 2, 3, 4, 5, 6, 7, 8, 9, 10, 11, 12, 13, 14, 15, 0, 1, 2, 3, 4, 5, 6, 7, 8, 9,
    10, 11, 12, 13, 14, 15,
];

const SECOND: [usize; 64] = [
    16, 17, 18, 19, 20, 21, 22, 23, 24, 25, 26, 27, 28, 29, 30, 31, 16, 17, 18, 19, 20, 21, 22, 23,
    24, 25, 26, 27, 28, 29, 30, 31, 16, 17, 18, 19, 20, 21, 22, 23, 24, 25, 26, 27, 28, 29, 30, 31,
    16, 17, 18, 19, 20, 21, 22, 23, 24, 25, 26, 27, 28, 29, 30, 31,
];

const THIRD: [usize; 64] = [
    32, 33, 34, 35, 36, 37, 38, 39, 40, 41, 42, 43, 44, 45, 46, 47, 32, 33, 34, 35, 36, 37, 38, 39,
    40, 41, 42, 43, 44, 45, 46, 47, 32, 33, 34, 35, 36, 37, 38, 39, 40, 41, 42, 43, 44, 45, 46, 47,
    32, 33, 34, 35, 36, 37, 38, 39, 40, 41, 42, 43, 44, 45, 46, 47,
];

const FOURTH: [usize; 64] = [
    48, 49, 50, 51, 52, 53, 54, 55, 56, 57, 58, 59, 60, 61, 62, 63, 48, 49, 50, 51, 52, 53, 54, 55,
    56, 57, 58, 59, 60, 61, 62, 63, 48, 49, 50, 51, 52, 53, 54, 55, 56, 57, 58, 59, 60, 61, 62, 63,
    48, 49, 50, 51, 52, 53, 54, 55, 56, 57, 58, 59, 60, 61, 62, 63,
];

/// The lanes of a quarter that stands there four times, at the low four bits of each place.
#[inline(always)]
fn within_quarter(quarters: u8x64, places: u8x64) -> u8x64
    ensures { (i : ℕ) → i < 64 → slice_index result i ≡ slice_index quarters (16 * (i / 16) + slice_index places i % 16) }
{
    quarters.swizzle_dyn_within::<16>(places & u8x64::splat(15))
}

/// Lane by lane the one vector where the place lacks this bit, and the other where it has it.
#[inline(always)]
fn by_bit(places: u8x64, bit: u8, without: u8x64, with: u8x64) -> u8x64
    ensures { (i : ℕ) → i < 64 → slice_index result i ≡ cond (nat_eq (bit_and (slice_index places i) bit) 0) (slice_index without i) (slice_index with i) }
{
    (places & u8x64::splat(bit))
        .simd_eq(u8x64::splat(0))
        .select(without, with)
}

/// What a map holds at the lanes that the low six bits of some tags name.
#[inline(always)]
pub fn looked_up(map: u8x64, tags: u8x64) -> u8x64
    ensures { (i : ℕ) → i < 64 → slice_index result i ≡ slice_index map (slice_index tags i % 64) }
{
    let first = within_quarter(map.swizzle::<64>(FIRST), tags);
    let second = within_quarter(map.swizzle::<64>(SECOND), tags);
    let third = within_quarter(map.swizzle::<64>(THIRD), tags);
    let fourth = within_quarter(map.swizzle::<64>(FOURTH), tags);
    let low = by_bit(tags, 16, first, second);
    let high = by_bit(tags, 16, third, fourth);
    by_bit(tags, 32, low, high)
}

/// The lanes that tags name.
#[inline(always)]
pub fn lanes_of(tags: u8x64) -> u8x64
    ensures { (i : ℕ) → i < 64 → slice_index result i ≡ slice_index tags i % 64 }
{
    tags & u8x64::splat(63)
}

/// The labels of a block, from the lanes at its end and the tags there.
#[inline(always)]
pub fn labels_of(lanes: u8x64, tags: u8x64) -> u8x64
    ensures { (i : ℕ) → i < 64 → slice_index lanes i < 64 → slice_index result i ≡ slice_index lanes i + 64 * (slice_index tags i / 64) }
{
    let began = lanes_of(tags);
    lanes + (tags - began)
}

/// The label of a block, from the lane at its end and the tag there.
#[inline(always)]
pub fn label_of(lane: u8, tag: u8) -> u8
    ensures { result ≡ tag / 64 * 64 + lane % 64 }
{
    tag / 64 * 64 + lane % 64
}

/// Whether all lanes are as the first.
#[inline(always)]
pub fn are_equal(v: u8x64) -> bool
    ensures equal { result ≡ true → (i : ℕ) → i < 64 → slice_index v i ≡ slice_index v 0 }
    ensures all { ((i : ℕ) → i < 64 → slice_index v i ≡ slice_index v 0) → result ≡ true }
{
    let lanes = v.to_array();
    v.simd_eq(u8x64::splat(lanes[0])).to_bitmask() == u64::MAX
}
