//! Packets as they are read: whole or cut, with or without their sync byte.

ghost use Rattle.std.specs.Prelude.{◌≤◌, ◌^◌, length};
ghost use Rattle.remux_core.specs.Parts.{Says};

use ts_packet::{PACKET_BYTES, SYNC};

/// What the bytes of some packets are.
#[derive(Clone, Copy, Debug, PartialEq, Eq)]
pub enum Part {
    /// Whole packets that begin with the sync byte.
    Good,
    /// Whole packets, and this is the first that doesn't begin with the sync byte.
    NoSync(u32),
    /// So many bytes of an unfinished packet stand at the end.
    Cut(u32),
}

/// Checks the bytes of packets that were read one after another.
pub fn check_packets(part: &[u8]) -> Part
    requires { length part.now ≤ 2 ^ 32 }
    ensures { Says part.now result }
{
    let over = part.len() % PACKET_BYTES;
    if over != 0 {
        return Part::Cut(over as u32);
    }
    for packet in 0..(part.len() / PACKET_BYTES) as u32 {
        if part[packet as usize * PACKET_BYTES] != SYNC {
            return Part::NoSync(packet);
        }
    }
    Part::Good
}
