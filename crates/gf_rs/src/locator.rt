//! The error locator: the shortest recurrence of the syndromes, by the search of Berlekamp and Massey.

ghost use Rattle.std.specs.Prelude.{◌≡◌, ℕ, ◌+◌, ◌-◌, ◌<◌, bit_xor, length, slice_index};
ghost use Rattle.gf_rs.specs.Field.{gf_mul};
ghost use Rattle.gf_rs.specs.Polynomials.{along, moved, IsBerlekampMassey};

use crate::field::{inverse, product};
use crate::register::clear;

/// Sum of a locator's coefficients up to a degree times the syndromes, downwards to one: the discrepancy.
fn discrepancy(locator: &[u8], syndromes: &[u8], degree: usize, from: usize) -> u8
    requires locator { degree < length locator.now }
    requires syndromes { from + degree < length syndromes.now }
    ensures { result ≡ along (λ j. slice_index locator.now j) (λ m. slice_index syndromes.now m) degree from }
{
    let mut sum = product(locator[0], syndromes[from + degree]);
    for j in 0..degree {
        sum ^= product(locator[j + 1], syndromes[from + degree - j - 1]);
    }
    sum
}

/// Moves the coefficients up by one; the last, which is lost, is 0.
fn move_up(coefficients: &mut [u8])
    requires some { 0 < length coefficients.old }
    requires last { slice_index coefficients.old (length coefficients.old - 1) ≡ 0 }
    ensures { (j : ℕ) → slice_index coefficients.new j ≡ moved (λ k. slice_index coefficients.old k) j }
{
    let mut carried = 0;
    for c in coefficients.iter_mut() {
        let next = *c;
        *c = carried;
        carried = next;
    }
}

/// Adds a multiple of other coefficients.
fn add_scaled(coefficients: &mut [u8], other: &[u8], factor: u8)
    requires { length other.now ≡ length coefficients.old }
    ensures { (j : ℕ) → slice_index coefficients.new j ≡
        bit_xor (slice_index coefficients.old j) (gf_mul factor (slice_index other.now j)) }
{
    for j in 0..coefficients.len() {
        coefficients[j] ^= product(factor, other[j]);
    }
}

/// Adds a multiple of other coefficients, and leaves in their place a multiple of the coefficients.
fn add_and_swap(coefficients: &mut [u8], other: &mut [u8], factor: u8, scale: u8)
    requires { length other.old ≡ length coefficients.old }
    ensures coefficients { (j : ℕ) → slice_index coefficients.new j ≡
        bit_xor (slice_index coefficients.old j) (gf_mul factor (slice_index other.old j)) }
    ensures other { (j : ℕ) → slice_index other.new j ≡ gf_mul scale (slice_index coefficients.old j) }
{
    for j in 0..coefficients.len() {
        let before = coefficients[j];
        coefficients[j] = before ^ product(factor, other[j]);
        other[j] = product(scale, before);
    }
}

/// Writes the coefficients of the error locator of the syndromes, and answers its degree. Where a codeword is near, its
/// roots are the powers of λ that belong to the wrong places.
pub fn error_locator(syndromes: &[u8], locator: &mut [u8], previous: &mut [u8]) -> usize
    requires locator { length locator.old ≡ length syndromes.now + 1 }
    requires previous { length previous.old ≡ length syndromes.now + 1 }
    ensures { IsBerlekampMassey (length syndromes.now) result
        (λ j. slice_index locator.new j) (λ j. slice_index previous.new j) (λ m. slice_index syndromes.now m) }
{
    clear(locator);
    locator[0] = 1;
    clear(previous);
    previous[0] = 1;
    let mut degree: usize = 0;
    for n in 0..syndromes.len() {
        let miss = discrepancy(locator, syndromes, degree, n - degree);
        move_up(previous);
        if miss != 0 {
            if 2 * degree <= n {
                add_and_swap(locator, previous, miss, inverse(miss));
                degree = n + 1 - degree;
            } else {
                add_scaled(locator, previous, miss);
            }
        }
    }
    degree
}
