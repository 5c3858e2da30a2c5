//! Laws of the field and of the outer code.

ghost use Rattle.std.specs.Prelude.{◌≡◌, ◌≢◌, ℕ, ◌+◌, ◌<◌, ◌≤◌, ◌++◌, List, length, bit_xor, All};
ghost use Rattle.std.specs.List.{AllPairs};
ghost use Rattle.gf_rs.specs.Field.{gf_mul, gf_pow, IsUniqueBelow};
ghost use Rattle.gf_rs.specs.Codewords.{value_at, IsCodeword, IsNear, codeword_of};

use crate::field::Gf;

/// The laws of the field.
pub fn field_law(a: Gf, b: Gf, c: Gf)
    ensures add_associative { bit_xor (bit_xor a.0 b.0) c.0 ≡ bit_xor a.0 (bit_xor b.0 c.0) }
    ensures add_commutative { bit_xor a.0 b.0 ≡ bit_xor b.0 a.0 }
    ensures add_zero { bit_xor a.0 0 ≡ a.0 }
    ensures add_self { bit_xor a.0 a.0 ≡ 0 }
    ensures mul_associative { gf_mul (gf_mul a.0 b.0) c.0 ≡ gf_mul a.0 (gf_mul b.0 c.0) }
    ensures mul_commutative { gf_mul a.0 b.0 ≡ gf_mul b.0 a.0 }
    ensures mul_one { gf_mul a.0 1 ≡ a.0 }
    ensures distributive { gf_mul a.0 (bit_xor b.0 c.0) ≡ bit_xor (gf_mul a.0 b.0) (gf_mul a.0 c.0) }
    ensures inverse { 0 < a.0 → IsUniqueBelow 256 (λ x. gf_mul a.0 x ≡ 1) }
    ensures no_zero_divisors { gf_mul a.0 b.0 ≡ 0 → 0 < a.0 → b.0 ≡ 0 }
{}

/// λ has order 255: each number but 0 is one of its first 255 powers, and no other.
pub fn power_law(a: Gf)
    ensures order { gf_pow 2 255 ≡ 1 }
    ensures least { (k : ℕ) → 0 < k → k < 255 → gf_pow 2 k ≢ 1 }
    ensures logarithm { 0 < a.0 → IsUniqueBelow 255 (λ k. gf_pow 2 k ≡ a.0) }
{}

/// A polynomial of degree below n that vanishes at n different numbers of the field is zero.
pub fn root_count_law(coefficients: &[u8], roots: &[u8])
    requires degree { length coefficients.now ≤ length roots.now }
    requires different { AllPairs (λ x y. x ≢ y) roots.now }
    requires vanishes { All (λ x. value_at coefficients.now x ≡ 0) roots.now }
    ensures { All (λ c. c ≡ 0) coefficients.now }
{}

/// The codeword that begins with a message is one, and no other with as many bytes of parity begins so.
pub fn codeword_law(message: &[u8], roots: u8)
    requires { 0 < roots }
    ensures size { length (codeword_of roots message.now) ≡ length message.now + roots }
    ensures codeword { IsCodeword roots (codeword_of roots message.now) }
    ensures only { (tail : List ℕ) → length tail ≡ roots → IsCodeword roots (message.now ++ tail) →
        message.now ++ tail ≡ codeword_of roots message.now }
{}

/// No two codewords are near one word.
pub fn near_law(word: &[u8])
    requires { length word.now ≤ 255 }
    ensures { (roots : ℕ) (near other : List ℕ) → IsNear roots word.now near → IsNear roots word.now other → near ≡ other }
{}
