//! What the bits of a layer say.

use isdbt_base::LayerSetting;

/// What the 13 bits of a layer say.
#[derive(Clone, Copy, Debug, PartialEq, Eq)]
pub enum LayerBits {
    /// The layer is not used: its modulation bits are 111.
    Unused,
    /// The layer is used so.
    Used(LayerSetting),
    /// A code has no meaning, or the segments are none or more than 13.
    Refused,
}
