//! The packets of a layer in a frame.

ghost use Rattle.std.specs.Prelude.{◌≡◌, ℕ, ◌+◌, ◌*◌, ◌<◌, ◌≤◌, ◌^◌, None, [], length, take, slice_index, slice_index_or};
ghost use Rattle.ts_packet.specs.Packets.{piece, sync_byte};
ghost use Rattle.coder_core.specs.FrameChecks.{bad_sync_slot, layer_count};
ghost use Rattle.coder_core.specs.InputFrames.{packet_in};

use crate::check::{names, slots_of};
use isdbt_base::{BROADCAST_BYTES, Layer};
use ts_packet::{PACKET_BYTES, Packet};

/// The packet in a slot of a frame.
fn packet_of(frame: &[u8], slot: u32) -> Packet
    requires room { 204 * slot + 204 ≤ length frame.now }
    requires sync { slice_index (piece 204 frame.now slot) 0 ≡ sync_byte }
    ensures { result ≡ take 188 (piece 204 frame.now slot) }
{
    let start = BROADCAST_BYTES * slot as usize;
    match Packet::read(&frame[start..start + PACKET_BYTES]) {
        Ok(packet) => packet,
        Err(_) => Packet::null(),
    }
}

/// Gathers the packets of a layer out of a frame. The frame is whole broadcast packets of 204 bytes, at most 2^32 bytes, and
/// each begins with the sync byte. `packets` has a place for each slot that names the layer, as many as `check_frame`
/// accepts; behind the call they hold the transport packets of these slots, in the order of the slots.
pub fn gather(frame: &[u8], layer: Layer, packets: &mut [Packet])
    requires size { length frame.now ≤ 2 ^ 32 }
    requires sync { bad_sync_slot frame.now ≡ None }
    requires count { layer_count frame.now layer ≡ length packets.old }
    ensures { (j : ℕ) → j < length packets.new → slice_index_or packets.new j [] ≡ packet_in frame.now layer j }
{
    let mut next = 0;
    for slot in 0..slots_of(frame) {
        if names(frame, slot, layer) {
            packets[next] = packet_of(frame, slot);
            next += 1;
        }
    }
}
