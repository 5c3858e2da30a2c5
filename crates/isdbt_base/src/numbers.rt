//! The numbers of a mode, a guard interval, a modulation, an inner rate and a time interleaving length.

ghost use Rattle.std.specs.Prelude.{◌≡◌, ◌+◌, ◌*◌, ◌<◌, ◌≤◌};
ghost use Rattle.isdbt_base.specs.Numbers.{carriers, symbol_clocks, slots_per_frame, cell_bits, rate_steps, rate_bits, time_depth, time_adjust, frames_over};

use crate::kinds::{DepthCode, Guard, Mode, Modulation, Rate};

/// Symbols of a frame.
pub const SYMBOLS: usize = 204;

/// Bytes of a broadcast packet: 188 of its transport packet, 8 of information, and 8 where parity may stand.
pub const BROADCAST_BYTES: usize = 204;

/// Data carriers of a segment: 96, 192 or 384.
pub fn carriers(mode: Mode) -> u32
    ensures value { result ≡ carriers mode }
    ensures least { 96 ≤ result }
    ensures most { result ≤ 384 }
{
    match mode {
        Mode::M1 => 96,
        Mode::M2 => 192,
        Mode::M3 => 384,
    }
}

/// Bytes of a symbol in a stream of cells: one for its TMCC bit, and two for each cell of its 13 segments.
pub fn symbol_size(mode: Mode) -> usize
    ensures value { result ≡ 1 + 26 * carriers mode }
    ensures most { result ≤ 9985 }
{
    1 + 26 * carriers(mode) as usize
}

/// Clocks of a symbol with its guard interval.
pub fn symbol_clocks(mode: Mode, guard: Guard) -> u32
    ensures value { result ≡ symbol_clocks mode guard }
    ensures least { 2112 ≤ result }
    ensures most { result ≤ 10240 }
{
    let useful = match mode {
        Mode::M1 => 2048,
        Mode::M2 => 4096,
        Mode::M3 => 8192,
    };
    match guard {
        Guard::G4 => useful + useful / 4,
        Guard::G8 => useful + useful / 8,
        Guard::G16 => useful + useful / 16,
        Guard::G32 => useful + useful / 32,
    }
}

/// Slots of a frame, each for one broadcast packet of 408 clocks.
pub fn slots(mode: Mode, guard: Guard) -> u32
    ensures value { result ≡ slots_per_frame mode guard }
    ensures least { 1056 ≤ result }
    ensures most { result ≤ 5120 }
{
    204 * symbol_clocks(mode, guard) / 408
}

/// Bits of a cell: 2, 4 or 6.
pub fn bits_per_cell(modulation: Modulation) -> u32
    ensures value { result ≡ cell_bits modulation }
    ensures least { 2 ≤ result }
    ensures most { result ≤ 6 }
{
    match modulation {
        Modulation::Qpsk => 2,
        Modulation::Qam16 => 4,
        Modulation::Qam64 => 6,
    }
}

/// The inner rate as two numbers: of so many steps of the inner coder so many bits are sent.
pub fn rate_pair(rate: Rate) -> (u32, u32)
    ensures steps { result.0 ≡ rate_steps rate }
    ensures bits { result.1 ≡ rate_bits rate }
    ensures most { (1 ≤ result.0) × (result.0 < result.1) × (result.1 ≤ 8) × (result.1 ≤ 2 * result.0) }
{
    match rate {
        Rate::R12 => (1, 2),
        Rate::R23 => (2, 3),
        Rate::R34 => (3, 4),
        Rate::R56 => (5, 6),
        Rate::R78 => (7, 8),
    }
}

/// Time interleaving length, in symbols.
pub fn depth_of(mode: Mode, code: DepthCode) -> u32
    ensures value { result ≡ time_depth mode code }
    ensures most { result ≤ 16 }
{
    let least = match mode {
        Mode::M1 => 4,
        Mode::M2 => 2,
        Mode::M3 => 1,
    };
    match code {
        DepthCode::D0 => 0,
        DepthCode::D1 => least,
        DepthCode::D2 => 2 * least,
        DepthCode::D3 => 4 * least,
    }
}

/// Delay adjustment of the time interleaving, in symbols.
pub fn adjust_of(mode: Mode, code: DepthCode) -> u32
    ensures value { result ≡ time_adjust mode code }
    ensures most { result ≤ 112 }
{
    204 * frames_over(mode, code) - 95 * depth_of(mode, code)
}

/// Frames that time interleaving with its adjustment takes over both ends.
pub fn frames_over(mode: Mode, code: DepthCode) -> u32
    ensures value { result ≡ frames_over mode code }
    ensures most { result ≤ 8 }
{
    match (mode, code) {
        (_, DepthCode::D0) => 0,
        (Mode::M1, DepthCode::D1) => 2,
        (Mode::M1, DepthCode::D2) => 4,
        (Mode::M1, DepthCode::D3) => 8,
        (Mode::M2, DepthCode::D1) => 1,
        (Mode::M2, DepthCode::D2) => 2,
        (Mode::M2, DepthCode::D3) => 4,
        (Mode::M3, DepthCode::D1) => 1,
        (Mode::M3, DepthCode::D2) => 1,
        (Mode::M3, DepthCode::D3) => 2,
    }
}

/// Time interleaving over both ends, 95 lengths, and its adjustment take whole frames.
pub fn depth_law(mode: Mode, code: DepthCode)
    ensures { 95 * time_depth mode code + time_adjust mode code ≡ 204 * frames_over mode code }
{}
