//! Laws of the order of a frame.

ghost use Rattle.std.specs.Prelude.{◌≡◌, ℕ, ◌<◌, ◌≤◌, None};
ghost use Rattle.isdbt_base.specs.Parameters.{layer_of, number_of};
ghost use Rattle.isdbt_base.specs.Numbers.{packets_per_frame, slots_per_frame, total_packets};
ghost use Rattle.frame_order.specs.Order.{clock_of, slot_of, mark_at};
ghost use Rattle.frame_order.specs.Places.{IsInFrame};

use crate::mark::Mark;
use isdbt_base::{Guard, Layer, Mode, Setting};

/// No two packets of a frame have the same clock.
pub fn clock_law(setting: &Setting, mode: Mode, guard: Guard, first: Mark, second: Mark)
    requires first { IsInFrame mode setting.now first }
    requires second { IsInFrame mode setting.now second }
    ensures { clock_of mode guard setting.now first ≡ clock_of mode guard setting.now second → first ≡ second }
{
    setting.acceptance_law();
}

/// Each layer's slots rise.
pub fn rising_law(
    setting: &Setting,
    mode: Mode,
    guard: Guard,
    layer: Layer,
    first: u32,
    second: u32,
)
    requires order { first < second }
    requires second { second < number_of (packets_per_frame mode) (layer_of setting.now layer) }
    ensures { slot_of mode guard setting.now (record { layer = layer; index = first })
        < slot_of mode guard setting.now (record { layer = layer; index = second }) }
{
    setting.acceptance_law();
}

/// Slot 0 has no layer, since there are fewer packets than slots.
pub fn room_law(setting: &Setting, mode: Mode, guard: Guard)
    ensures room { total_packets mode setting.now < slots_per_frame mode guard }
    ensures first { mark_at mode guard setting.now 0 ≡ None }
{
    setting.acceptance_law();
}
