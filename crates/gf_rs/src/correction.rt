//! Error values, and the corrected word.

ghost use Rattle.std.specs.Prelude.{◌≡◌, ℕ, ◌-◌, ◌<◌, ◌≤◌, List, length, slice_index};
ghost use Rattle.gf_rs.specs.Field.{gf_pow};
ghost use Rattle.gf_rs.specs.Codewords.{value_at, differing, IsNear};
ghost use Rattle.gf_rs.specs.Polynomials.{value_to, IsErrorValue};

use crate::field::{inverse, product};
use crate::locator::error_locator;
use crate::tables::power;

/// Error value of the place whose power of λ is this root of the error locator.
fn error_value(locator: &[u8], syndromes: &[u8], degree: usize, point: u8) -> u8
    requires degree { 0 < degree }
    requires locator { degree < length locator.now }
    requires syndromes { degree ≤ length syndromes.now }
    ensures { IsErrorValue (λ j. slice_index locator.now j) (λ m. slice_index syndromes.now m) (degree - 1) point result }
{
    let mut quotient = locator[0];
    let mut top = product(quotient, syndromes[degree - 1]);
    let mut bottom = quotient;
    for j in 0..degree - 1 {
        quotient = product(quotient, point) ^ locator[j + 1];
        top ^= product(quotient, syndromes[degree - 2 - j]);
        bottom = product(bottom, point) ^ quotient;
    }
    if bottom == 0 {
        0
    } else {
        product(top, inverse(bottom))
    }
}

/// Value at a point of the polynomial of a degree, the first coefficient at the highest power.
#[inline(always)]
fn value(coefficients: &[u8], degree: usize, point: u8) -> u8
    requires { degree < length coefficients.now }
    ensures { result ≡ value_to (λ j. slice_index coefficients.now j) degree point }
{
    let mut value = coefficients[0];
    for j in 0..degree {
        value = product(value, point) ^ coefficients[j + 1];
    }
    value
}

/// Makes a word with these syndromes the codeword near it, where there is one.
pub fn correct(word: &mut [u8], syndromes: &[u8])
    requires size { length word.old ≤ 255 }
    requires few { length syndromes.now ≤ 32 }
    requires syndromes { (i : ℕ) → i < length syndromes.now → slice_index syndromes.now i ≡ value_at word.old (gf_pow 2 i) }
    ensures { (near : List ℕ) → IsNear (length syndromes.now) word.old near → word.new ≡ near }
{
    let mut locator = [0u8; 33];
    let mut previous = [0u8; 33];
    let locator = &mut locator[..syndromes.len() + 1];
    let degree = error_locator(syndromes, locator, &mut previous[..syndromes.len() + 1]);
    if 2 * degree <= syndromes.len() {
        let size = word.len();
        for place in 0..size {
            let point = power(size - 1 - place);
            if value(locator, degree, point) == 0 {
                word[place] ^= error_value(locator, syndromes, degree, point);
            }
        }
    }
}

/// How many bytes of two words of one length differ.
pub fn count_differing(word: &[u8], other: &[u8]) -> usize
    requires { length other.now ≡ length word.now }
    ensures { result ≡ differing word.now other.now }
{
    let mut count = 0;
    for i in 0..word.len() {
        if word[i] != other[i] {
            count += 1;
        }
    }
    count
}
