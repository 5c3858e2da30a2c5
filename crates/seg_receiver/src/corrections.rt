//! TMCC words as they are read: as they came, or corrected.

ghost use Rattle.std.specs.Prelude.{◌≡◌};
ghost use Rattle.seg_receiver.specs.CellStream.{word_by};
ghost use Rattle.seg_receiver.specs.FrameLines.{restored};

use tmcc_fix::{Fixed, fix as correct};

/// A TMCC word as it is read, by whether words are corrected.
pub fn word_by(fix: bool, came: [bool; 204]) -> [bool; 204]
    ensures { result ≡ word_by fix came }
{
    let mut word = came;
    if fix {
        correct(&mut word);
    }
    word
}

/// How many bits of a TMCC word are restored, where words are corrected: none where no codeword is near.
pub fn restored(fix: bool, came: [bool; 204]) -> Option<u32>
    ensures { result ≡ restored fix came }
{
    if !fix {
        return None;
    }
    let mut word = came;
    match correct(&mut word) {
        Fixed::Restored(changed) => Some(changed),
        Fixed::Far => Some(0),
    }
}
