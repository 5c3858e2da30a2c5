//! Numbers of the cells of a symbol.

ghost use Rattle.std.specs.Prelude.{◌≡◌, ◌+◌, ◌*◌, ◌%◌, ◌<◌, ◌≤◌};
ghost use Rattle.isdbt_base.specs.declared.kinds.Mode.{Mode};
ghost use Rattle.isdbt_base.specs.Numbers.{carriers};
ghost use Rattle.segment_spread.specs.Spreading.{gathered_number};

use crate::section::section_of;

/// The number in its symbol of the cell that goes to a place, in the mode whose segments have `size` carriers.
#[inline]
pub fn gathered_number(partial: bool, size: u32, segment: u32, carrier: u32) -> usize
    requires least { 96 ≤ size }
    requires most { size ≤ 384 }
    requires segment { segment < 13 }
    requires carrier { carrier < size }
    ensures value { (mode : Mode) → size ≡ carriers mode → result ≡ gathered_number partial mode (segment * size + carrier) }
    ensures most { result < 13 * size }
{
    let section = section_of(partial, segment);
    let before = wrapped(carrier + (size - segment), size);
    (section.first * size + (before * section.segments + (segment - section.first))) as usize
}

/// A carrier counted on past the last one, taken round once.
#[inline]
fn wrapped(carrier: u32, size: u32) -> u32
    requires { carrier < 2 * size }
    ensures value { result ≡ carrier % size }
    ensures most { result < size }
{
    if carrier < size {
        carrier
    } else {
        carrier - size
    }
}
