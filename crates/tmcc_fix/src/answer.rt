//! What `fix` answers.

/// Whether a codeword is near the bits of a word from B20 on: at most eight places apart.
#[derive(Clone, Copy, Debug, PartialEq, Eq)]
pub enum Fixed {
    /// There is one; so many bits were changed, 0 where the bits are one.
    Restored(u32),
    /// There is none, and the word is as it was.
    Far,
}
