//! The slots of the packets of a frame.

ghost use Rattle.std.specs.Prelude.{◌≡◌, IfOk};

use crate::clocks::in_clock_order;
use crate::mark::Mark;
use isdbt_base::{Guard, Layer, Mode, NoMemory, Setting, slots};
use std::alloc::Global;
use std::marker::Model;

/// Packet of each slot of a frame, and slot of each packet, for one mode, guard interval and setting (after
/// the model receiver of ARIB STD-B31).
#[derive(Debug, Drop)]
pub struct FrameOrder {
    setting: Setting,
    mode: Mode,
    guard: Guard,
    marks: Vec<Option<Mark>>,
    slots: Vec<u32>,
}

impl Model for FrameOrder {
    ghost use Rattle.isdbt_base.specs.Plans.{Transmission};
    ghost use Rattle.frame_order.specs.Places.{IsFilled};

    ghost Value = { Transmission };

    ghost view = { λ o. record { mode = o.mode; guard = o.guard; setting = o.setting } };

    ghost invariant = { λ o. IsFilled o.mode o.guard o.setting o.marks.items o.slots.items };
}

impl FrameOrder {
    ghost use Rattle.std.specs.Prelude.{◌≡◌, ℕ, ◌<◌, ◌≤◌, IfOk, IfSome, Some};
    ghost use Rattle.isdbt_base.specs.Parameters.{layer_of, number_of};
    ghost use Rattle.isdbt_base.specs.Numbers.{slots_per_frame, packets_per_frame};
    ghost use Rattle.frame_order.specs.Order.{mark_at, slot_of};
    ghost use Rattle.frame_order.specs.Places.{IsInFrame};

    /// Slots of the frame.
    pub fn slot_count(&self) -> u32
        ensures value { result ≡ slots_per_frame self.now.mode self.now.guard }
        ensures most { result ≤ 5120 }
    {
        slots(self.mode, self.guard)
    }

    /// The packet in a slot, or None where no layer has the slot.
    pub fn mark(&self, slot: u32) -> Option<Mark>
        requires { slot < slots_per_frame self.now.mode self.now.guard }
        ensures value { result ≡ mark_at self.now.mode self.now.guard self.now.setting slot }
        ensures inverse { IfSome result (λ m. IsInFrame self.now.mode self.now.setting m × (slot_of self.now.mode self.now.guard self.now.setting m ≡ slot)) }
    {
        self.marks[slot as usize]
    }

    /// The slot of a packet: never 0.
    pub fn slot(&self, layer: Layer, index: u32) -> u32
        requires { index < number_of (packets_per_frame self.now.mode) (layer_of self.now.setting layer) }
        ensures value { result ≡ slot_of self.now.mode self.now.guard self.now.setting (record { layer = layer; index = index }) }
        ensures first { 0 < result }
        ensures last { result < slots_per_frame self.now.mode self.now.guard }
        ensures inverse { mark_at self.now.mode self.now.guard self.now.setting result ≡ Some (record { layer = layer; index = index }) }
    {
        self.slots[(self.setting.packets_before(self.mode, layer) + index) as usize]
    }
}

/// The order of the packets of a frame. Fails only if memory runs out.
pub fn order(
    alloc: Global,
    setting: &Setting,
    mode: Mode,
    guard: Guard,
) -> Result<FrameOrder, NoMemory>
    ensures { IfOk result (λ o. o ≡ record { mode = mode; guard = guard; setting = setting.now }) }
{
    setting.acceptance_law();
    let timed = in_clock_order(alloc, setting, mode, guard)?;
    let total = setting.total(mode);
    let free = slots(mode, guard) - total;
    let mut by_slot = Vec::new(alloc);
    by_slot.resize(slots(mode, guard) as usize, None)?;
    let mut by_place = Vec::new(alloc);
    by_place.resize(total as usize, 0)?;
    let mut next = 0;
    for (rank, packet) in timed.iter().enumerate() {
        let ready = next.max(packet.clock.div_ceil(408));
        let slot = ready.min(free + rank as u32);
        by_slot[slot as usize] = Some(packet.mark);
        by_place[packet.place as usize] = slot;
        next = slot + 1;
    }
    Ok(FrameOrder {
        setting: *setting,
        mode,
        guard,
        marks: by_slot,
        slots: by_place,
    })
}
