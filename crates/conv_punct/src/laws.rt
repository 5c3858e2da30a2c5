//! Laws of the coded bits.

ghost use Rattle.std.specs.Prelude.{◌≡◌, ℕ, ◌<◌, ◌↔◌, Bool, List, length};
ghost use Rattle.conv_punct.specs.CodedBits.{coded_bit, coded_len, coded_step};
ghost use Rattle.conv_punct.specs.CodedCost.{coded_cost, input_of};

use isdbt_base::Rate;

/// Just the coded bits below `coded_len` of some steps are of these steps.
pub fn count_law(rate: Rate)
    ensures { (steps c : ℕ) → (coded_step rate c < steps) ↔ (c < coded_len rate steps) }
{}

/// The coded bits of some steps depend on the inputs of these steps alone.
pub fn prefix_law(rate: Rate)
    ensures { (u v : ℕ → Bool) (steps : ℕ) → ((i : ℕ) → i < steps → u i ≡ v i) → (c : ℕ) → c < coded_len rate steps → coded_bit rate u c ≡ coded_bit rate v c }
{}

/// The coded bits of a list of inputs are met at cost 0 by that list and by no other of the same length.
pub fn uniqueness_law(rate: Rate)
    ensures { (inputs others : List Bool) → length others ≡ length inputs → (coded_cost rate (coded_bit rate (input_of inputs)) (length inputs) (input_of others) ≡ 0) ↔ (others ≡ inputs) }
{}
