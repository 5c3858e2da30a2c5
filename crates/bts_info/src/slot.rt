//! The information of a slot, and the layer that it names.

ghost use Rattle.std.specs.Prelude.{◌≡◌, ◌<◌};
ghost use Rattle.bts_info.specs.Information.{info_for, indicator, named_layer};

use crate::frame_tag::FrameTag;
use crate::info::Info;
use isdbt_base::Layer;

/// The information that is written for a slot of a frame, by the layer of the slot's packet, or None where no layer has
/// the slot.
pub fn info_of(tag: &FrameTag, layer: Option<Layer>, slot: u32) -> Info
    requires { slot < 8192 }
    ensures { result ≡ info_for tag.now layer slot }
{
    Info {
        identifier: 2,
        reserved: true,
        buffer_reset: false,
        start_up: tag.start_up,
        first: tag.first && slot == 0,
        head: slot == 0,
        odd: tag.odd,
        layer: indicator_of(layer),
        countdown: tag.countdown,
        ac_invalid: true,
        ac_effective: 3,
        counter: slot as u16,
        ac: 0xFFFF_FFFF,
    }
}

fn indicator_of(layer: Option<Layer>) -> u8
    ensures value { result ≡ indicator layer }
    ensures most { result < 4 }
{
    match layer {
        None => 0,
        Some(Layer::A) => 1,
        Some(Layer::B) => 2,
        Some(Layer::C) => 3,
    }
}

/// The layer that the indicator names: A, B, C for 1, 2, 3, and None for every other indicator.
pub fn layer_of(info: &Info) -> Option<Layer>
    ensures { result ≡ named_layer info.now.layer }
{
    match info.layer {
        1 => Some(Layer::A),
        2 => Some(Layer::B),
        3 => Some(Layer::C),
        _ => None,
    }
}
