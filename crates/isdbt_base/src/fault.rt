//! Why a plan takes no further switch.

use crate::kinds::Layer;

/// Why a plan takes no further switch.
#[derive(Clone, Copy, Debug, PartialEq, Eq)]
pub enum PlanFault {
    /// There are seven switches.
    TooMany,
    /// The frame is 0 or above 16,777,215.
    OutOfRange(u32),
    /// The frame is not above that of the last switch, which is this.
    NotRising(u32),
    /// The setting uses other layers than the first, and this is the first that differs.
    OtherLayers(Layer),
}
