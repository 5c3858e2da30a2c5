//! The packets that a frame places.

ghost use Rattle.std.specs.Prelude.{◌≡◌, ◌≤◌};
ghost use Rattle.isdbt_base.specs.declared.kinds.Layer.{Layer as Which};
ghost use Rattle.isdbt_base.specs.Epochs.{leaves_after};
ghost use Rattle.remux_core.specs.Multiplex.{filled, filled_at};
ghost use Rattle.remux_core.specs.Wanted.{wanted_of};

use isdbt_base::{At, Layer, Plan};

/// The input packets that a frame places of each layer.
#[derive(Clone, Copy, Debug, PartialEq, Eq)]
pub struct Wanted {
    pub a: u32,
    pub b: u32,
    pub c: u32,
}

/// The packets that a frame of the plan places of each layer: none of a layer whose packets would not be given out within
/// the frame's epoch.
pub fn wanted_at(plan: &Plan, frame: u32) -> Wanted
    requires { frame ≤ 16777216 }
    ensures { (x : Which) → wanted_of result x ≡ filled plan.now x frame }
{
    let at = plan.at(frame);
    Wanted {
        a: filled_at(&at, frame, Layer::A),
        b: filled_at(&at, frame, Layer::B),
        c: filled_at(&at, frame, Layer::C),
    }
}

/// The packets that a frame places of a layer, where this holds at the frame.
fn filled_at(at: &At, frame: u32, layer: Layer) -> u32
    requires { frame ≤ 16777216 }
    ensures { result ≡ filled_at at.now frame layer }
{
    match at.setting.layer(layer) {
        Some(used) => {
            if leaves_after(frame, at.end, used.delay(at.mode)) {
                used.packets(at.mode)
            } else {
                0
            }
        }
        None => 0,
    }
}

/// Whether a frame is at least so many frames before the end of its epoch.
fn leaves_after(frame: u32, end: Option<u32>, delay: u32) -> bool
    requires frame { frame ≤ 16777216 }
    requires delay { delay ≤ 10 }
    ensures { result ≡ leaves_after frame end delay }
{
    match end {
        Some(end) => frame + delay < end,
        None => true,
    }
}
