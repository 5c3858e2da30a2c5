//! The field of 256 elements.

ghost use Rattle.std.specs.Prelude.{◌≡◌, ◌<◌, bit_xor};
ghost use Rattle.gf_rs.specs.Field.{gf_mul, gf_pow};

use crate::tables::{logarithm, power};

/// Product of two bytes in the field.
#[inline(always)]
pub fn product(a: u8, b: u8) -> u8
    ensures { result ≡ gf_mul a b }
{
    power(logarithm(a) + logarithm(b))
}

/// Product of a byte and a power of λ.
#[inline(always)]
pub fn scaled(number: u8, exponent: usize) -> u8
    requires { exponent < 255 }
    ensures { result ≡ gf_mul number (gf_pow 2 exponent) }
{
    power(logarithm(number) + exponent)
}

/// Inverse in the field of a byte that is not 0.
#[inline(always)]
pub fn inverse(a: u8) -> u8
    requires { 0 < a }
    ensures { gf_mul a result ≡ 1 }
{
    power(255 - logarithm(a))
}

/// A number of the field of 256 elements: a byte as a polynomial over two elements, its top bit at x^7, modulo
/// x^8 + x^4 + x^3 + x^2 + 1.
#[derive(Clone, Copy, Debug, PartialEq, Eq)]
pub struct Gf(pub u8);

impl Gf {
    /// Sum, which is also the difference.
    pub fn add(self, other: Gf) -> Gf
        ensures { result.0 ≡ bit_xor self.0 other.0 }
    {
        Gf(self.0 ^ other.0)
    }

    /// Product.
    pub fn mul(self, other: Gf) -> Gf
        ensures { result.0 ≡ gf_mul self.0 other.0 }
    {
        Gf(product(self.0, other.0))
    }

    /// Inverse of a number that is not 0: the only one whose product with it is 1.
    pub fn inv(self) -> Gf
        requires { 0 < self.0 }
        ensures { gf_mul self.0 result.0 ≡ 1 }
    {
        Gf(inverse(self.0))
    }
}
