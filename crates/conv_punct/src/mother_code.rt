//! The outputs of the mother code.

ghost use Rattle.std.specs.Prelude.{◌≡◌, ℕ, ◌+◌, ◌*◌, ◌<◌, ◌≤◌, Bool, length};
ghost use Rattle.conv_punct.specs.MotherCode.{AreNewest, AreMotherBits};
ghost use Rattle.conv_punct.specs.StandsFor.{bits_of};

/// Outputs of the mother code of some steps: X and Y of the newest step are the lowest bits.
#[derive(Clone, Copy, Debug)]
pub struct MotherBits {
    /// Of each step its X.
    pub x: u64,
    /// Of each step its Y.
    pub y: u64,
}

/// The inputs, the newest lowest, with the bits of at most seven bytes behind them.
pub fn joined(inputs: u64, bytes: &[u8]) -> u64
    requires { length bytes.now ≤ 7 }
    ensures { (u : ℕ → Bool) (i : ℕ) → AreNewest inputs 6 u i → ((k : ℕ) → k < 8 * length bytes.now → bits_of bytes.now k ≡ u (i + k)) → AreNewest result (6 + 8 * length bytes.now) u (i + 8 * length bytes.now) }
{
    let mut word = inputs;
    for byte in bytes {
        word = (word << 8) | u64::from(*byte);
    }
    word
}

/// The outputs of the mother code of the inputs' steps, the newest lowest. Those of the six oldest steps mean nothing.
pub fn mother_code_of(inputs: u64) -> MotherBits
    ensures { (u : ℕ → Bool) (count i : ℕ) → count ≤ i → AreNewest inputs (count + 6) u i → AreMotherBits result count u i }
{
    let both = inputs ^ (inputs >> 2) ^ (inputs >> 3) ^ (inputs >> 6);
    MotherBits {
        x: both ^ (inputs >> 1),
        y: both ^ (inputs >> 5),
    }
}
