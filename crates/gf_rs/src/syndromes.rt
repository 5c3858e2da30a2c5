//! Syndromes: the values of a word at the roots.

ghost use Rattle.std.specs.Prelude.{◌≡◌, ℕ, ◌<◌, ◌≤◌, ◌↔◌, bit_xor, length, slice_index, IsTrue, All};
ghost use Rattle.gf_rs.specs.Field.{gf_mul, gf_pow};
ghost use Rattle.gf_rs.specs.Codewords.{value_at};

use crate::field::scaled;
use crate::register::clear;

/// One step of Horner's rule at each of the first powers of λ.
#[inline(always)]
fn advance(values: &mut [u8], byte: u8)
    requires { length values.old ≤ 32 }
    ensures { (i : ℕ) → i < length values.old →
        slice_index values.new i ≡ bit_xor (gf_mul (slice_index values.old i) (gf_pow 2 i)) byte }
{
    for i in 0..values.len() {
        values[i] = scaled(values[i], i) ^ byte;
    }
}

/// Writes the syndromes of a word: its values at the first powers of λ.
pub fn fill_syndromes(word: &[u8], syndromes: &mut [u8])
    requires { length syndromes.old ≤ 32 }
    ensures { (i : ℕ) → i < length syndromes.old → slice_index syndromes.new i ≡ value_at word.now (gf_pow 2 i) }
{
    clear(syndromes);
    for byte in word {
        advance(syndromes, *byte);
    }
}

/// Whether each byte is 0.
pub fn are_zero(values: &[u8]) -> bool
    ensures { IsTrue result ↔ All (λ v. v ≡ 0) values.now }
{
    values.iter().all(|v| *v == 0)
}
