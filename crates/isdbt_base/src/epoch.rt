//! What holds at a frame.

use crate::kinds::{Guard, Mode};
use crate::setting::Setting;

/// What holds at a frame of a plan. All but the countdown is that of the frame's epoch, the run of frames from frame 0
/// or a switch up to the next switch.
#[derive(Clone, Copy, Debug, PartialEq, Eq)]
pub struct At {
    /// The mode.
    pub mode: Mode,
    /// The guard interval.
    pub guard: Guard,
    /// The parameters of the layers.
    pub setting: Setting,
    /// The epoch's first frame.
    pub start: u32,
    /// The first frame after the epoch, if a switch ends it.
    pub end: Option<u32>,
    /// The setting from there on.
    pub next: Option<Setting>,
    /// The mode from there on, None exactly where `next` is.
    pub next_mode: Option<Mode>,
    /// The guard interval from there on, None exactly where `next` is.
    pub next_guard: Option<Guard>,
    /// The frames that are left before the switch less one where at most 15 are left, and else 15.
    pub countdown: u8,
}
