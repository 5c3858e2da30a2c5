//! The encoder's shift register.

ghost use Rattle.std.specs.Prelude.{◌≡◌, ℕ, ◌+◌, ◌<◌, bit_xor, length, slice_index};
ghost use Rattle.gf_rs.specs.Field.{gf_mul, gf_pow};

use crate::field::scaled;

/// Makes each byte 0.
#[inline(always)]
pub fn clear(values: &mut [u8])
    ensures { (i : ℕ) → slice_index values.new i ≡ 0 }
{
    for v in values.iter_mut() {
        *v = 0;
    }
}

/// One step of the register: the remainder by the generator polynomial goes on by a byte.
#[inline(always)]
pub fn shift_in<const ROOTS: usize>(register: &mut [u8], generator: &[u8], byte: u8)
    requires some { 0 < ROOTS }
    requires register { length register.old ≡ ROOTS }
    requires generator { length generator.now ≡ ROOTS }
    requires exponents { (k : ℕ) → k < ROOTS → slice_index generator.now k < 255 }
    ensures { (k : ℕ) → k < ROOTS → slice_index register.new k ≡
        bit_xor (slice_index register.old (k + 1)) (gf_mul (bit_xor byte (slice_index register.old 0)) (gf_pow 2 (slice_index generator.now k))) }
{
    let factor = byte ^ register[0];
    let last = ROOTS - 1;
    for i in 0..last {
        register[i] = register[i + 1] ^ scaled(factor, generator[i] as usize);
    }
    register[last] = scaled(factor, generator[last] as usize);
}
