//! Correction by majority.

ghost use Rattle.std.specs.Prelude.{◌≡◌, ℕ, ◌<◌, ◌≤◌, ◌↔◌, List, Bool, length, IsTrue, drop};
ghost use Rattle.tmcc_word.specs.CyclicCode.{IsCodeword};
ghost use Rattle.tmcc_fix.specs.NearCodewords.{differing, IsNear};
ghost use Rattle.tmcc_fix.specs.Corrected.{corrected};
ghost use Rattle.tmcc_fix.specs.Answers.{IsAnswer};

use crate::answer::Fixed;
use crate::checks::{odd_checks, parities_of_checks};
use tmcc_word::parity;

/// Most places that are corrected.
const MOST: u32 = 8;

/// How many of the 17 checks of a place are odd at least where its bit is wrong.
const MAJORITY: u8 = 9;

/// Whether 184 bits are a codeword.
fn is_codeword(bits: &[bool; 184]) -> bool
    ensures { IsTrue result ↔ IsCodeword bits.now }
{
    let mut info = [false; 102];
    info.copy_from_slice(&bits[..102]);
    let parity = parity(&info);
    parity[..] == bits[102..]
}

/// Makes 184 bits the codeword near them, where there is one. Not inlined, so that a word without wrong bits doesn't pay for
/// the arrays.
#[inline(never)]
fn correct(bits: &mut [bool; 184])
    ensures { (near : List Bool) → IsNear bits.old near → bits.new ≡ near }
{
    let odd = odd_checks(&parities_of_checks(bits));
    for place in 0..184 {
        if odd[place] >= MAJORITY {
            bits[place] = !bits[place];
        }
    }
}

/// At how many places two words differ.
fn count_differing(bits: &[bool; 184], other: &[bool; 184]) -> u32
    ensures { result ≡ differing bits.now other.now }
{
    let mut count: u32 = 0;
    for i in 0..184 {
        if bits[i] != other[i] {
            count += 1;
        }
    }
    count
}

/// Makes the bits of a word from B20 on the codeword that differs from them in at most eight places, and says in how many it
/// does; leaves the word as it is where there is none. B0 to B19 are never changed.
pub fn fix(word: &mut [bool; 204]) -> Fixed
    ensures answer { IsAnswer word.old word.new result }
    ensures value { word.new ≡ corrected word.old }
{
    let mut bits = [false; 184];
    bits.copy_from_slice(&word[20..]);
    if is_codeword(&bits) {
        return Fixed::Restored(0);
    }
    let received = bits;
    correct(&mut bits);
    let changed = count_differing(&received, &bits);
    if changed <= MOST && is_codeword(&bits) {
        word[20..].copy_from_slice(&bits);
        Fixed::Restored(changed)
    } else {
        Fixed::Far
    }
}
