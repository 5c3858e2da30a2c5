//! The outer code.

ghost use Rattle.std.specs.Prelude.{◌≡◌, ℕ, ◌+◌, ◌-◌, ◌<◌, ◌%◌, ◌≤◌, ◌↔◌, ◌++◌, List, length, slice_index, All};
ghost use Rattle.gf_rs.specs.Field.{gf_mul, gf_pow};
ghost use Rattle.gf_rs.specs.Polynomials.{value_to};
ghost use Rattle.gf_rs.specs.Codewords.{value_at, IsCodeword, IsNear, added, codeword_of};

use crate::correction::{correct, count_differing};
use crate::generator::generator;
use crate::nearest::Nearest;
use crate::products::put_parity_16;
use crate::register::{clear, shift_in};
use crate::syndromes::{are_zero, fill_syndromes};

/// Adds bytes to as many others, byte by byte.
fn add_all(bytes: &mut [u8], other: &[u8])
    requires { length other.now ≡ length bytes.old }
    ensures { bytes.new ≡ added bytes.old other.now }
{
    for k in 0..bytes.len() {
        bytes[k] ^= other[k];
    }
}

/// The outer code with so many roots, an even number from 2 to 32: as many bytes are parity, and half as many can be
/// corrected.
pub struct Rs<const ROOTS: usize>;

impl<const ROOTS: usize> Rs<ROOTS> {
    ghost use Rattle.gf_rs.specs.Answers.{IsAnswer};

    /// Writes the parity of a message: the bytes that make it a codeword.
    pub fn parity(message: &[u8], out: &mut [u8])
        requires even { ROOTS % 2 ≡ 0 }
        requires least { 2 ≤ ROOTS }
        requires most { ROOTS ≤ 32 }
        requires room { length out.old ≡ ROOTS }
        requires some { 0 < length message.now }
        requires size { length message.now + ROOTS ≤ 255 }
        ensures codeword { IsCodeword ROOTS (message.now ++ out.new) }
        ensures value { message.now ++ out.new ≡ codeword_of ROOTS message.now }
    {
        Self::put_parity(message, out);
    }

    /// Writes the remainder by the generator polynomial of the message with as many zeros behind it as there are roots: from
    /// the table of products for 16 roots, and byte by byte for others.
    #[inline(always)]
    fn put_parity(message: &[u8], out: &mut [u8])
        requires even { ROOTS % 2 ≡ 0 }
        requires least { 2 ≤ ROOTS }
        requires most { ROOTS ≤ 32 }
        requires room { length out.old ≡ ROOTS }
        ensures { (i : ℕ) → i < ROOTS → value_to (λ j. slice_index out.new j) (ROOTS - 1) (gf_pow 2 i) ≡ gf_mul (value_at message.now (gf_pow 2 i)) (gf_pow (gf_pow 2 i) ROOTS) }
    {
        if ROOTS == 16 {
            put_parity_16(message, out);
        } else {
            Self::shift_all(message, out);
        }
    }

    /// The same, byte by byte for any count of roots.
    #[inline(always)]
    fn shift_all(message: &[u8], out: &mut [u8])
        requires even { ROOTS % 2 ≡ 0 }
        requires least { 2 ≤ ROOTS }
        requires most { ROOTS ≤ 32 }
        requires room { length out.old ≡ ROOTS }
        ensures { (i : ℕ) → i < ROOTS → value_to (λ j. slice_index out.new j) (ROOTS - 1) (gf_pow 2 i) ≡ gf_mul (value_at message.now (gf_pow 2 i)) (gf_pow (gf_pow 2 i) ROOTS) }
    {
        clear(out);
        let generator = generator(ROOTS);
        for byte in message {
            shift_in::<ROOTS>(out, generator, *byte);
        }
    }

    /// Writes what the last bytes of a word differ by from the parity of those before: a polynomial that has the word's
    /// values at the roots.
    #[inline(always)]
    fn remainder(word: &[u8], rest: &mut [u8])
        requires even { ROOTS % 2 ≡ 0 }
        requires least { 2 ≤ ROOTS }
        requires most { ROOTS ≤ 32 }
        requires room { length rest.old ≡ ROOTS }
        requires longer { ROOTS < length word.now }
        requires size { length word.now ≤ 255 }
        ensures values { (i : ℕ) → i < ROOTS → value_at rest.new (gf_pow 2 i) ≡ value_at word.now (gf_pow 2 i) }
        ensures zero { All (λ b. b ≡ 0) rest.new ↔ IsCodeword ROOTS word.now }
    {
        let message = word.len() - ROOTS;
        Self::parity(&word[..message], rest);
        add_all(rest, &word[message..]);
    }

    /// Makes a word the codeword near it, where there is one, and otherwise leaves it as it was.
    pub fn nearest(word: &mut [u8]) -> Nearest
        requires even { ROOTS % 2 ≡ 0 }
        requires least { 2 ≤ ROOTS }
        requires most { ROOTS ≤ 32 }
        requires longer { ROOTS < length word.old }
        requires size { length word.old ≤ 255 }
        ensures answer { IsAnswer ROOTS word.old word.new result }
        ensures only { (near : List ℕ) → IsNear ROOTS word.old near → word.new ≡ near }
    {
        let mut rest = [0u8; 32];
        let rest = &mut rest[..ROOTS];
        Self::remainder(word, rest);
        if are_zero(rest) {
            return Nearest::Codeword(0);
        }
        let mut syndromes = [0u8; 32];
        let syndromes = &mut syndromes[..ROOTS];
        fill_syndromes(rest, syndromes);
        let mut copy = [0u8; 255];
        let copy = &mut copy[..word.len()];
        copy.copy_from_slice(word);
        correct(copy, syndromes);
        Self::remainder(copy, rest);
        let changed = count_differing(word, copy);
        if are_zero(rest) && changed <= ROOTS / 2 {
            word.copy_from_slice(copy);
            Nearest::Codeword(changed as u32)
        } else {
            Nearest::Far
        }
    }
}
