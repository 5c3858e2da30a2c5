//! A packet of a frame.

use isdbt_base::Layer;

/// Packet of a frame, by its layer and its number among the layer's packets of the frame.
#[derive(Clone, Copy, Debug, PartialEq, Eq)]
pub struct Mark {
    /// Hierarchical layer.
    pub layer: Layer,
    /// Packets of the layer before it in the frame.
    pub index: u32,
}
