//! Modes and guard intervals as bytes, and the heads of frames of cells.

ghost use Rattle.std.specs.Prelude.{◌≡◌, ◌≤◌, Some, Ok};
ghost use Rattle.isdbt_base.specs.Heads.{mode_byte, guard_byte, mode_in, guard_in, head_bytes, head_read};

use crate::kinds::{Guard, Mode};

/// Bytes of a head.
pub const HEAD_BYTES: usize = 8;

/// The least of the bytes 0 to 5 of a head that is not an allowed value.
#[derive(Clone, Copy, Debug, PartialEq, Eq)]
pub struct HeadFault {
    /// The number of the byte, counted from 0.
    pub byte: u8,
}

/// The byte of a mode: 01, 02 or 03.
pub fn mode_byte(mode: Mode) -> u8
    ensures value { result ≡ mode_byte mode }
    ensures reads { mode_in result ≡ Some mode }
{
    match mode {
        Mode::M1 => 0x01,
        Mode::M2 => 0x02,
        Mode::M3 => 0x03,
    }
}

/// The byte of a guard interval: 04, 08, 10 or 20 hex for 1/4, 1/8, 1/16 and 1/32.
pub fn guard_byte(guard: Guard) -> u8
    ensures value { result ≡ guard_byte guard }
    ensures reads { guard_in result ≡ Some guard }
{
    match guard {
        Guard::G4 => 0x04,
        Guard::G8 => 0x08,
        Guard::G16 => 0x10,
        Guard::G32 => 0x20,
    }
}

/// The mode of a byte, or None where it is no mode's.
pub fn mode_in(byte: u8) -> Option<Mode>
    ensures { result ≡ mode_in byte }
{
    match byte {
        0x01 => Some(Mode::M1),
        0x02 => Some(Mode::M2),
        0x03 => Some(Mode::M3),
        _ => None,
    }
}

/// The guard interval of a byte, or None where it is none's.
pub fn guard_in(byte: u8) -> Option<Guard>
    ensures { result ≡ guard_in byte }
{
    match byte {
        0x04 => Some(Guard::G4),
        0x08 => Some(Guard::G8),
        0x10 => Some(Guard::G16),
        0x20 => Some(Guard::G32),
        _ => None,
    }
}

/// The head of a frame of cells of version 2: 49 53 43 32, mode, guard interval, and two bytes 00. `read_head` undoes it.
#[tactic(auto, unfolding(crate::specs::Heads::head_read))]
pub fn head_of(mode: Mode, guard: Guard) -> [u8; 8]
    ensures value { result ≡ head_bytes mode guard }
    ensures reads { head_read result ≡ Ok (mode, guard) }
{
    [
        0x49,
        0x53,
        0x43,
        0x32,
        mode_byte(mode),
        guard_byte(guard),
        0x00,
        0x00,
    ]
}

/// What a head says, or the least of its bytes 0 to 5 that is not an allowed value. Bytes 6 and 7 are not read.
#[tactic(auto, unfolding(crate::specs::Heads::head_read))]
pub fn read_head(head: &[u8; 8]) -> Result<(Mode, Guard), HeadFault>
    ensures { result ≡ head_read head.now }
{
    if head[0] != 0x49 {
        return Err(HeadFault { byte: 0 });
    }
    if head[1] != 0x53 {
        return Err(HeadFault { byte: 1 });
    }
    if head[2] != 0x43 {
        return Err(HeadFault { byte: 2 });
    }
    if head[3] != 0x32 {
        return Err(HeadFault { byte: 3 });
    }
    match (mode_in(head[4]), guard_in(head[5])) {
        (None, _) => Err(HeadFault { byte: 4 }),
        (_, None) => Err(HeadFault { byte: 5 }),
        (Some(mode), Some(guard)) => Ok((mode, guard)),
    }
}
