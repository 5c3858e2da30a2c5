//! The shortened (184,102) difference-set cyclic code.
//!
//! A number is a polynomial over two elements, bit i the coefficient of x^i; in a list of bits the highest coefficient
//! stands first.

ghost use Rattle.std.specs.Prelude.{◌≡◌, ◌*◌, ◌+◌, ◌^◌, ◌<◌, ◌==◌, length};
ghost use Rattle.std.specs.Int.{from_bool};
ghost use Rattle.isdbt_base.specs.Bits.{number_from, bits_number};
ghost use Rattle.tmcc_word.specs.CyclicCode.{remainder, parity_of};

use crate::bits::put_number;

/// x^82 + x^77 + x^76 + x^71 + x^67 + x^66 + x^56 + x^52 + x^48 + x^40 + x^36 + x^34 + x^24 + x^22 + x^18 + x^10 + x^4 + 1
const GENERATOR: u128 = (1 << 82)
    + (1 << 77)
    + (1 << 76)
    + (1 << 71)
    + (1 << 67)
    + (1 << 66)
    + (1 << 56)
    + (1 << 52)
    + (1 << 48)
    + (1 << 40)
    + (1 << 36)
    + (1 << 34)
    + (1 << 24)
    + (1 << 22)
    + (1 << 18)
    + (1 << 10)
    + (1 << 4)
    + 1;

/// The parity of 102 bits, so that bits and parity together are a codeword: a multiple of the generator polynomial.
pub fn parity(info: &[bool; 102]) -> [bool; 82]
    ensures { result ≡ parity_of info.now }
{
    let rest = divided(divided(0, info), &[false; 82]);
    let mut bits = [false; 82];
    put_number(&mut bits, 0, 82, rest);
    bits
}

/// Whether 184 bits are a codeword: bits and their parity.
pub fn is_codeword(bits: &[bool]) -> bool
    requires { length bits.now ≡ 184 }
    ensures { result ≡ (remainder 102 (bits_number bits.now) == 0) }
{
    divided(0, bits) == 0
}

/// The remainder of a polynomial whose higher coefficients leave `rest`, and whose other coefficients are these bits.
fn divided(mut rest: u128, bits: &[bool]) -> u128
    requires { rest < 2 ^ 82 }
    ensures value { result ≡ remainder (length bits.now) (number_from rest bits.now) }
    ensures most { result < 2 ^ 82 }
{
    for bit in bits {
        rest = reduced(2 * rest + u128::from(*bit));
    }
    rest
}

/// The remainder of a polynomial of at most 83 coefficients.
fn reduced(polynomial: u128) -> u128
    requires { polynomial < 2 ^ 83 }
    ensures value { result ≡ remainder 1 polynomial }
    ensures most { result < 2 ^ 82 }
{
    if polynomial >> 82 & 1 == 1 {
        polynomial ^ GENERATOR
    } else {
        polynomial
    }
}
