//! The bytes of a frame.

ghost use Rattle.std.specs.Prelude.{◌≡◌, ◌+◌, ◌*◌, ◌%◌, ◌≤◌, ◌++◌, length, take, replicate, MatchOption};
ghost use Rattle.std.specs.Option.{option_map};
ghost use Rattle.isdbt_base.specs.Numbers.{slots_per_frame};
ghost use Rattle.ts_packet.specs.Packets.{null_packet, piece_or_null, packet_bytes};
ghost use Rattle.frame_order.specs.OrderedFrame.{marked_packet, unmarked_packet, ordered_frame};
ghost use Rattle.frame_order.specs.LayerBytes.{layer_bytes, layer_packet, AreWhole};

use crate::frame_order::FrameOrder;
use crate::layer_packets::LayerPackets;
use crate::mark::Mark;
use bts_info::{FrameTag, info_of, to_bytes};
use isdbt_base::{Layer, put};
use ts_packet::{PACKET_BYTES, Packet};

/// The bytes behind the information of a slot.
const STUFFING: [u8; 8] = [0xFF; 8];

impl FrameOrder {
    /// Writes the broadcast packets of the frame, 204 bytes for each slot in their order: the slot's packet, which is
    /// `first` in slot 0, and the null packet where else no layer has the slot or the layer has fewer packets; the
    /// information of the slot; and eight bytes FF. `out` has just these bytes' room.
    pub fn write(&self, tag: &FrameTag, first: &Packet, packets: &LayerPackets, out: &mut [u8])
        requires whole { AreWhole packets.now }
        requires room { length out.old ≡ 204 * slots_per_frame self.now.mode self.now.guard }
        ensures { out.new ≡ ordered_frame self.now.mode self.now.guard self.now.setting tag.now first.now (layer_packet packets.now) }
    {
        let null = Packet::null();
        let mut at = 0;
        for slot in 0..self.slot_count() {
            let mark = self.mark(slot);
            at = put_packet(out, at, slot, mark, first, packets, &null);
            let info = to_bytes(&info_of(tag, layer_of(mark), slot));
            at = put(out, at, &info);
            at = put(out, at, &STUFFING);
        }
    }
}

/// The layer that a mark names.
fn layer_of(mark: Option<Mark>) -> Option<Layer>
    ensures { result ≡ option_map (λ m. m.layer) mark }
{
    mark.map(|mark| mark.layer)
}

/// The packets of a layer.
fn bytes_of<'a>(packets: &LayerPackets<'a>, layer: Layer) -> &'a [u8]
    requires { AreWhole packets.now }
    ensures whole { length result.now % packet_bytes ≡ 0 }
    ensures value { result.now ≡ layer_bytes packets.now layer }
{
    match layer {
        Layer::A => packets.a,
        Layer::B => packets.b,
        Layer::C => packets.c,
    }
}

/// A packet of whole packets, or None past the last.
fn piece_of(bytes: &[u8], index: u32) -> Option<&[u8]>
    requires { length bytes.now % packet_bytes ≡ 0 }
    ensures { MatchOption result (piece_or_null bytes.now index ≡ null_packet) (λ p. (p.now ≡ piece_or_null bytes.now index) × (length p.now ≡ packet_bytes)) }
{
    let at = index as usize * PACKET_BYTES;
    if at < bytes.len() {
        Some(&bytes[at..at + PACKET_BYTES])
    } else {
        None
    }
}

/// Puts the packet of a slot behind the first `at` bytes, and says where it ends: the packet that the mark names, which
/// is the null packet past the layer's last; and without a mark `first` in slot 0, and else the null packet.
fn put_packet(
    out: &mut [u8],
    at: usize,
    slot: u32,
    mark: Option<Mark>,
    first: &Packet,
    packets: &LayerPackets,
    null: &Packet,
) -> usize
    requires whole { AreWhole packets.now }
    requires null { null.now ≡ null_packet }
    requires room { at + packet_bytes ≤ length out.old }
    ensures end { result ≡ at + packet_bytes }
    ensures bytes { take result out.new ≡ take at out.old ++ marked_packet (unmarked_packet first.now slot) (layer_packet packets.now) mark }
{
    match mark {
        Some(mark) => match piece_of(bytes_of(packets, mark.layer), mark.index) {
            Some(packet) => put(out, at, packet),
            None => put(out, at, null.bytes()),
        },
        None if slot == 0 => put(out, at, first.bytes()),
        None => put(out, at, null.bytes()),
    }
}
