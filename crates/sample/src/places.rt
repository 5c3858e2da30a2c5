//! Where the packets of an input are given out.

ghost use Rattle.std.specs.Prelude.{◌≡◌, ◌≤◌};
ghost use Rattle.isdbt_base.specs.Plans.{at_frame};
ghost use Rattle.sample.specs.Places.{share_in, due_in};

use isdbt_base::{Layer, Plan};

/// A layer in a frame.
#[derive(Clone, Copy, Debug, PartialEq, Eq)]
pub struct Share {
    /// The first frame of the frame's epoch.
    pub start: u32,
    /// The layer's packets in a frame.
    pub packets: u32,
    /// The layer's delay in frames.
    pub delay: u32,
}

/// The share of a layer in a frame of a plan.
pub fn share_at(plan: &Plan, layer: Layer, frame: u32) -> Share
    ensures value { result ≡ share_in (at_frame plan.now frame) layer }
    ensures start { result.start ≤ frame }
    ensures packets { result.packets ≤ 3276 }
    ensures delay { result.delay ≤ 10 }
{
    let at = plan.at(frame);
    match at.setting.layer(layer) {
        Some(used) => Share {
            start: at.start,
            packets: used.packets(at.mode),
            delay: used.delay(at.mode),
        },
        None => Share {
            start: at.start,
            packets: 0,
            delay: 0,
        },
    }
}

/// How many input packets are given out in a frame, where so many are left: none in the first frames of an epoch.
pub fn due_packets(share: Share, frame: u32, left: u32) -> u32
    requires start { share.start ≤ frame }
    requires delay { share.delay ≤ 10 }
    requires few { frame ≤ 1000 }
    ensures value { result ≡ due_in share frame left }
    ensures left { result ≤ left }
    ensures packets { result ≤ share.packets }
{
    if frame < share.start + share.delay {
        return 0;
    }
    share.packets.min(left)
}
