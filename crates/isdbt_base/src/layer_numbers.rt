//! Numbers of a layer that may be unused: 0 where it is.

ghost use Rattle.std.specs.Prelude.{◌≡◌, ℕ, ◌≤◌};
ghost use Rattle.isdbt_base.specs.Parameters.{HasSegmentsIfUsed, number_of};
ghost use Rattle.isdbt_base.specs.Numbers.{packets_per_frame, layer_delay, layer_cells};

use crate::kinds::Mode;
use crate::layer_setting::LayerSetting;

/// Segments of a layer, or 0 where it is unused.
pub fn segments_of(layer: &Option<LayerSetting>) -> u32
    ensures value { result ≡ number_of (λ l. l.segments) layer.now }
    ensures range { HasSegmentsIfUsed layer.now }
    ensures most { result ≤ 13 }
{
    match layer {
        Some(used) => used.segments(),
        None => 0,
    }
}

/// Cells of a layer in a symbol, or 0 where it is unused.
pub fn cells_of(layer: &Option<LayerSetting>, mode: Mode) -> u32
    ensures value { result ≡ number_of (layer_cells mode) layer.now }
    ensures most { result ≤ 4992 }
{
    match layer {
        Some(used) => used.cells(mode),
        None => 0,
    }
}

/// Packets of a layer in a frame, or 0 where it is unused.
pub fn packets_of(layer: &Option<LayerSetting>, mode: Mode) -> u32
    ensures value { result ≡ number_of (packets_per_frame mode) layer.now }
    ensures most { result ≤ 3276 }
{
    match layer {
        Some(used) => used.packets(mode),
        None => 0,
    }
}

/// Frames of delay of a layer, from a packet's frame to the frame in which the receiver gives it out, or 0 where it is unused.
pub fn delay_of(layer: &Option<LayerSetting>, mode: Mode) -> u32
    ensures value { result ≡ number_of (layer_delay mode) layer.now }
    ensures most { result ≤ 10 }
{
    match layer {
        Some(used) => used.delay(mode),
        None => 0,
    }
}
