//! What the outer decoder answers.

/// Whether a codeword is near a word: of the same length, and no more bytes apart than half as many as there are roots.
#[derive(Clone, Copy, Debug, PartialEq, Eq)]
pub enum Nearest {
    /// There is one; so many bytes were changed.
    Codeword(u32),
    /// There is none.
    Far,
}
