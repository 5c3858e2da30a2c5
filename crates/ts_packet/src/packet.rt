//! The packet.

ghost use Rattle.std.specs.Prelude.{◌≡◌, ℕ, List, length, slice_index};

use byteorder::{BigEndian, ByteOrder};
use std::marker::Model;

/// Bytes of a transport packet.
pub const PACKET_BYTES: usize = 188;

/// The sync byte: the first byte of each packet (ISO/IEC 13818-1 2.4.3.2).
pub const SYNC: u8 = 0x47;

/// The first byte is not the sync byte.
#[derive(Clone, Copy, Debug, PartialEq, Eq)]
pub struct NotSync;

/// Transport packet: 188 bytes, the first of them the sync byte 47 (ISO/IEC 13818-1 2.4.3.2).
#[derive(Clone, Copy, Debug, PartialEq, Eq)]
pub struct Packet {
    bytes: [u8; PACKET_BYTES],
}

impl Model for Packet {
    ghost use Rattle.std.specs.Prelude.{ℕ, List};
    ghost use Rattle.ts_packet.specs.Packets.{IsPacket};

    ghost Value = { List ℕ };

    ghost view = { λ p. p.bytes };

    ghost invariant = { λ p. IsPacket p.bytes };

    ghost inverse = { λ bytes. record { bytes = bytes } };
}

impl Packet {
    ghost use Rattle.std.specs.Prelude.{◌≡◌, ◌≢◌, ℕ, ◌<◌, ◌≤◌, ◌↔◌, List, length, slice_index, MatchResult, IsTrue};
    ghost use Rattle.ts_packet.specs.Packets.{IsPacket, pid_of, marked, null_packet, sync_byte, packet_bytes};

    /// The packet of 188 bytes, refused exactly where the first is not the sync byte.
    pub fn read(bytes: &[u8]) -> Result<Packet, NotSync>
        requires { length bytes.now ≡ packet_bytes }
        ensures { MatchResult result (λ p. (p ≡ bytes.now) × IsPacket p) (λ _. slice_index bytes.now 0 ≢ sync_byte) }
    {
        if bytes[0] != SYNC {
            return Err(NotSync);
        }
        let mut copy = [0u8; PACKET_BYTES];
        copy.copy_from_slice(bytes);
        Ok(Packet { bytes: copy })
    }

    /// The null packet: packet identifier 1FFF, and 184 bytes FF (ISO/IEC 13818-1 2.4.3.3).
    #[tactic(auto, unfolding(crate::specs::Packets::null_packet))]
    pub fn null() -> Packet
        ensures value { result ≡ null_packet }
        ensures packet { IsPacket result }
    {
        let mut bytes = [0xFFu8; PACKET_BYTES];
        bytes[0] = SYNC;
        bytes[1] = 0x1F;
        bytes[3] = 0x10;
        Packet { bytes }
    }

    /// The 188 bytes.
    pub fn bytes(&self) -> &[u8]
        ensures value { result.now ≡ self.now }
        ensures packet { IsPacket self.now }
    {
        &self.bytes
    }

    /// Packet identifier (PID): the low 13 bits of bytes 1 and 2.
    pub fn pid(&self) -> u16
        ensures value { result ≡ pid_of self.now }
        ensures most { result < 8192 }
    {
        BigEndian::read_u16(&self.bytes[1..]) % 8192
    }

    /// Transport error indicator: the top bit of byte 1.
    pub fn error_mark(&self) -> bool
        ensures { IsTrue result ↔ (128 ≤ slice_index self.now 1) }
    {
        self.bytes[1] >= 128
    }

    /// The packet with its transport error indicator set, and all else as it was.
    pub fn with_error_mark(self) -> Packet
        ensures value { result ≡ marked self }
        ensures packet { IsPacket result }
    {
        let mut bytes = self.bytes;
        bytes[1] = 128 + bytes[1] % 128;
        Packet { bytes }
    }
}
