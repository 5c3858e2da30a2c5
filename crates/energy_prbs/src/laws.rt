//! The law of the sequence.

ghost use Rattle.std.specs.Prelude.{◌≡◌, ℕ};
ghost use Rattle.energy_prbs.specs.Sequence.{sequence_bit, earlier_bit, bit_sum};

/// Each bit is the sum of the bits 14 and 15 places before it, of the sequence or of the initial value.
pub fn recurrence_law()
    ensures { (n : ℕ) → sequence_bit n ≡ bit_sum (earlier_bit n 14) (earlier_bit n 15) }
{}
