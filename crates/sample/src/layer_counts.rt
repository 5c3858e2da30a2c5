//! What is counted of a layer, frame by frame.

ghost use Rattle.std.specs.Prelude.{◌≡◌, ℕ, ◌+◌, ◌<◌, ◌≤◌, ◌^◌, None, length};
ghost use Rattle.coder_core.specs.FrameChecks.{bad_sync_slot, layer_count};
ghost use Rattle.coder_core.specs.InputFrames.{packet_in};
ghost use Rattle.sample.specs.SampleInputs.{sample_input};
ghost use Rattle.sample.specs.Places.{sample_share};
ghost use Rattle.sample.specs.Tallies.{sample_received};
ghost use Rattle.sample.specs.LayerCounts.{IsBounded, IsCounted};

use crate::counting::{Tally, count_met, marked_count};
use crate::places::{Share, due_packets};
use coder_core::gather;
use isdbt_base::Layer;
use ts_packet::{PACKET_BYTES, Packet};

/// What was counted of a layer so far.
#[derive(Clone, Copy, Debug, PartialEq, Eq)]
pub struct LayerCount {
    /// The input packets that were given out.
    pub given: u32,
    /// What was counted of them and of the frames.
    pub tally: Tally,
}

impl LayerCount {
    ghost use Rattle.std.specs.Prelude.{◌≡◌};

    /// Where nothing was counted.
    pub fn none() -> LayerCount
        ensures given { result.given ≡ 0 }
        ensures tally { result.tally ≡ record { met = 0; marked = 0; sum = 0 } }
    {
        let tally = Tally {
            met: 0,
            marked: 0,
            sum: 0,
        };
        LayerCount { given: 0, tally }
    }
}

/// A layer of a received frame.
#[derive(Clone, Copy)]
pub struct LayerFrame<'a> {
    pub layer: Layer,
    pub share: Share,
    /// The frame's number.
    pub frame: u32,
    /// The layer's whole input.
    pub input: &'a [u8],
    /// The broadcast packets of the frame.
    pub out: &'a [u8],
}

/// Counts a layer of the next frame. There is room for its packets.
pub fn count_layer(of: LayerFrame, packets: &mut [Packet], count: &mut LayerCount)
    requires size { length of.out.now ≤ 2 ^ 32 }
    requires sync { bad_sync_slot of.out.now ≡ None }
    requires named { layer_count of.out.now of.layer ≡ of.share.packets }
    requires room { of.share.packets ≤ length packets.old }
    requires few { of.share.packets ≤ 432 }
    requires start { of.share.start ≤ of.frame }
    requires delay { of.share.delay ≤ 10 }
    requires frame { of.frame ≤ 1000 }
    requires input { length of.input.now ≤ 564000 }
    requires bounds { IsBounded (length of.input.now) of.frame count.old }
    ensures bounds { IsBounded (length of.entry.input.now) (of.entry.frame + 1) count.new }
    ensures counted { (number : ℕ) → of.entry.input.now ≡ sample_input number of.entry.layer → of.entry.share ≡ sample_share of.entry.layer of.entry.frame → of.entry.frame < 15
        → ((j : ℕ) → j < of.entry.share.packets → packet_in of.entry.out.now of.entry.layer j ≡ sample_received number of.entry.frame of.entry.layer j)
        → IsCounted number of.entry.layer of.entry.frame count.old → IsCounted number of.entry.layer (of.entry.frame + 1) count.new }
{
    let packets = &mut packets[..of.share.packets as usize];
    gather(of.out, of.layer, packets);
    let left = (of.input.len() / PACKET_BYTES) as u32 - count.given;
    let due = due_packets(of.share, of.frame, left);
    count_met(
        &mut count.tally,
        of.input,
        count.given as usize,
        &packets[..due as usize],
    );
    count.tally.marked += marked_count(packets);
    count.given += due;
}
