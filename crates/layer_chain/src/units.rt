//! The units of a frame: the bytes that are sent of its packets, before delay adjustment and interleaving.

ghost use Rattle.std.specs.Prelude.{◌≡◌, ℕ, ◌+◌, ◌*◌, ◌<◌, [], length, slice_index, slice_index_or, bit_xor};
ghost use Rattle.gf_rs.specs.Codewords.{codeword_of};
ghost use Rattle.energy_prbs.specs.Sequence.{sequence_byte};
ghost use Rattle.energy_prbs.specs.StandsFor.{StandsFor};
ghost use Rattle.layer_chain.specs.SentBytes.{sent_byte};

use energy_prbs::Prbs;
use gf_rs::Rs;
use isdbt_base::put;
use ts_packet::{PACKET_BYTES, Packet, SYNC};

/// Bytes of parity.
const PARITY: usize = 16;

/// Bytes of a unit.
pub const UNIT: usize = PACKET_BYTES + PARITY;

/// The unit of a packet: its codeword without the first byte, dispersed, and the sync byte.
fn unit_of(packet: &Packet, prbs: &mut Prbs) -> [u8; UNIT]
    ensures bytes { (n : ℕ) → StandsFor prbs.old n → (a : ℕ) → a < 203
        → slice_index result a ≡ bit_xor (slice_index (codeword_of 16 packet.now) (a + 1)) (sequence_byte (n + a)) }
    ensures sync { slice_index result 203 ≡ 0x47 }
    ensures state { (n : ℕ) → StandsFor prbs.old n → StandsFor prbs.new (n + 204) }
{
    let bytes = packet.bytes();
    let mut parity = [0u8; PARITY];
    Rs::<16>::parity(bytes, &mut parity);
    let mut unit = [0u8; UNIT];
    let at = put(&mut unit, 0, &bytes[1..]);
    let at = put(&mut unit, at, &parity);
    put(&mut unit, at, &[SYNC]);
    prbs.disperse(&mut unit);
    unit
}

/// Writes the units of the packets of a frame, one behind the other.
pub fn put_units(packets: &[Packet], out: &mut [u8])
    requires { length out.old ≡ 204 * length packets.now }
    ensures { (n : ℕ) → n < 204 * length packets.now → slice_index out.new n ≡ sent_byte (length packets.now) (λ m. slice_index_or packets.now m []) n }
{
    let mut prbs = Prbs::start();
    let mut at = 0;
    for packet in packets {
        at = put(out, at, &unit_of(packet, &mut prbs));
    }
}
