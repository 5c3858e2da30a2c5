//! Codes of the sync word, modulations, inner rates and time interleaving lengths.

ghost use Rattle.std.specs.Prelude.{◌≡◌};
ghost use Rattle.tmcc_word.specs.Words.{sync_code, modulation_code, rate_code, depth_code};
ghost use Rattle.tmcc_word.specs.Reading.{odd_in, modulation_in, rate_in, depth_in};

use isdbt_base::{DepthCode, Modulation, Rate};

/// Sync word of even frames; that of odd frames has the other bits.
const EVEN_SYNC: u32 = 0b0011_0101_1110_1110;

/// Sync word of odd frames.
const ODD_SYNC: u32 = 0b1100_1010_0001_0001;

/// The sync word of even or odd frames, as a number.
pub fn sync_code(odd: bool) -> u128
    ensures { result ≡ sync_code odd }
{
    if odd {
        u128::from(ODD_SYNC)
    } else {
        u128::from(EVEN_SYNC)
    }
}

/// Whether a sync word is that of odd frames, or None where it is neither.
pub fn odd_in(sync: u32) -> Option<bool>
    ensures { result ≡ odd_in sync }
{
    match sync {
        EVEN_SYNC => Some(false),
        ODD_SYNC => Some(true),
        _ => None,
    }
}

/// The code of a modulation: 1, 2 or 3.
pub fn modulation_code(modulation: Modulation) -> u128
    ensures { result ≡ modulation_code modulation }
{
    match modulation {
        Modulation::Qpsk => 1,
        Modulation::Qam16 => 2,
        Modulation::Qam64 => 3,
    }
}

/// The code of an inner rate: 0 to 4.
pub fn rate_code(rate: Rate) -> u128
    ensures { result ≡ rate_code rate }
{
    match rate {
        Rate::R12 => 0,
        Rate::R23 => 1,
        Rate::R34 => 2,
        Rate::R56 => 3,
        Rate::R78 => 4,
    }
}

/// The code of a time interleaving length: 0 to 3.
pub fn depth_code(depth: DepthCode) -> u128
    ensures { result ≡ depth_code depth }
{
    match depth {
        DepthCode::D0 => 0,
        DepthCode::D1 => 1,
        DepthCode::D2 => 2,
        DepthCode::D3 => 3,
    }
}

/// The modulation of a code, or None where it has no meaning.
pub fn modulation_in(code: u32) -> Option<Modulation>
    ensures { result ≡ modulation_in code }
{
    match code {
        1 => Some(Modulation::Qpsk),
        2 => Some(Modulation::Qam16),
        3 => Some(Modulation::Qam64),
        _ => None,
    }
}

/// The inner rate of a code, or None where it has no meaning.
pub fn rate_in(code: u32) -> Option<Rate>
    ensures { result ≡ rate_in code }
{
    match code {
        0 => Some(Rate::R12),
        1 => Some(Rate::R23),
        2 => Some(Rate::R34),
        3 => Some(Rate::R56),
        4 => Some(Rate::R78),
        _ => None,
    }
}

/// The time interleaving length of a code, or None where it has no meaning.
pub fn depth_in(code: u32) -> Option<DepthCode>
    ensures { result ≡ depth_in code }
{
    match code {
        0 => Some(DepthCode::D0),
        1 => Some(DepthCode::D1),
        2 => Some(DepthCode::D2),
        3 => Some(DepthCode::D3),
        _ => None,
    }
}
