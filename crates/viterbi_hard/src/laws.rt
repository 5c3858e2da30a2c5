//! Laws of the decided bits.

ghost use Rattle.std.specs.Prelude.{◌≡◌, ℕ, ◌+◌, ◌<◌, ◌≤◌, Bool};
ghost use Rattle.conv_punct.specs.CodedBits.{coded_bit, coded_len};
ghost use Rattle.viterbi_hard.specs.LeastPath.{IsLeast, decided_bit, least_path, path_cost};

use isdbt_base::Rate;

/// The least path is better than each other over as many steps: it costs less, or as much and has 0 where, from the newest
/// bit back, the two first differ.
pub fn least_path_law(rate: Rate)
    ensures { (read : ℕ → Bool) (steps : ℕ) → IsLeast (path_cost rate read) steps (least_path rate read steps) }
{}

/// From bits that were read as they were coded, the decided bits are the inputs.
pub fn clean_law(rate: Rate)
    ensures { (u read : ℕ → Bool) (steps : ℕ) → ((c : ℕ) → c < coded_len rate steps → read c ≡ coded_bit rate u c) → (b : ℕ) → b + 128 ≤ steps → decided_bit rate read b ≡ u b }
{}

/// A decided bit depends on the bits that are read of its own step, of those before and of the next 127 alone.
pub fn window_law(rate: Rate)
    ensures { (read other : ℕ → Bool) (b : ℕ) → ((c : ℕ) → c < coded_len rate (b + 128) → read c ≡ other c) → decided_bit rate read b ≡ decided_bit rate other b }
{}
