//! Plans.

use crate::epoch::At;
use crate::fault::PlanFault;
use crate::kinds::{Guard, Layer, Mode};
use crate::numbers::{carriers, slots};
use crate::setting::Setting;
use crate::switch::{Switch, Transmission};
use arrayvec::ArrayVec;
use std::marker::Model;

/// What is sent from frame 0 on, and at most seven switches to something else at later frames. A switch may bring another
/// mode, guard interval and setting; all settings use the same layers.
#[derive(Debug, Drop)]
pub struct Plan {
    first: Transmission,
    switches: ArrayVec<Switch, 7>,
}

impl Model for Plan {
    ghost use Rattle.isdbt_base.specs.Plans.{Schedule, IsPlan};

    ghost Value = { Schedule };

    ghost view = { λ p. record { first = p.first; switches = p.switches.items } };

    ghost invariant = { λ p. IsPlan (record { first = p.first; switches = p.switches.items }) };
}

impl Plan {
    ghost use Rattle.std.specs.Prelude.{◌≡◌, ℕ, ◌≤◌, ◌<◌, [], None, Some, IfSome, true, false, MatchResult};
    ghost use Rattle.isdbt_base.specs.Parameters.{layer_of, number_of};
    ghost use Rattle.isdbt_base.specs.Numbers.{packets_per_frame, slots_per_frame, carriers};
    ghost use Rattle.isdbt_base.specs.Plans.{IsPlan, KeepsMode, at_frame, greatest_of};
    ghost use Rattle.isdbt_base.specs.Epochs.{last_start, last_sent};
    ghost use Rattle.isdbt_base.specs.Switching.{switch_fault, with_switch};

    /// The plan that has this setting at every frame.
    pub fn new(mode: Mode, guard: Guard, first: Setting) -> Plan
        ensures { result ≡ record { first = record { mode = mode; guard = guard; setting = first }; switches = [] } }
    {
        let first = Transmission {
            mode,
            guard,
            setting: first,
        };
        Plan {
            first,
            switches: ArrayVec::new(),
        }
    }

    /// From this frame on the plan has this mode, guard interval and setting. The first cause to refuse it, in the order of
    /// [`PlanFault`], leaves the plan as it was.
    pub fn add_switch_at(
        &mut self,
        frame: u32,
        mode: Mode,
        guard: Guard,
        setting: Setting,
    ) -> Result<(), PlanFault>
        ensures { MatchResult result
            (λ u. (switch_fault self.old frame setting ≡ None) × (self.new ≡ with_switch self.old (record { frame = frame; after = record { mode = mode; guard = guard; setting = setting } })))
            (λ fault. (switch_fault self.old frame setting ≡ Some fault) × (self.new ≡ self.old)) }
    {
        if self.switches.is_full() {
            return Err(PlanFault::TooMany);
        }
        if frame == 0 || frame > 16_777_215 {
            return Err(PlanFault::OutOfRange(frame));
        }
        let last = self.last_switch();
        if frame <= last.frame {
            return Err(PlanFault::NotRising(last.frame));
        }
        if let Some(layer) = self.first.setting.other_layer(&setting) {
            return Err(PlanFault::OtherLayers(layer));
        }
        self.acceptance_law();
        setting.acceptance_law();
        let after = Transmission {
            mode,
            guard,
            setting,
        };
        self.push(Switch { frame, after });
        Ok(())
    }

    /// Adds a switch with which the plan stays one.
    fn push(&mut self, switch: Switch)
        requires { IsPlan (with_switch self.old switch) }
        ensures { self.new ≡ with_switch self.old switch }
    {
        self.switches.push(switch);
    }

    /// As [`Plan::add_switch_at`], with the mode and the guard interval of the last switch, or else of the first setting.
    pub fn add_switch(&mut self, frame: u32, setting: Setting) -> Result<(), PlanFault>
        ensures { MatchResult result
            (λ u. (switch_fault self.old frame setting ≡ None) × (self.new ≡ with_switch self.old (record { frame = frame; after = record { mode = (last_sent self.old).mode; guard = (last_sent self.old).guard; setting = setting } })))
            (λ fault. (switch_fault self.old frame setting ≡ Some fault) × (self.new ≡ self.old)) }
    {
        let last = self.last_switch().after;
        self.add_switch_at(frame, last.mode, last.guard, setting)
    }

    /// Each plan is accepted.
    pub fn acceptance_law(&self)
        ensures { IsPlan self.now }
    {
        let _first = &self.first;
    }

    /// The mode of frame 0.
    pub fn mode(&self) -> Mode
        ensures { result ≡ self.now.first.mode }
    {
        self.first.mode
    }

    /// The guard interval of frame 0.
    pub fn guard(&self) -> Guard
        ensures { result ≡ self.now.first.guard }
    {
        self.first.guard
    }

    /// Whether some switch has another mode or guard interval than what stands before it.
    pub fn changes_mode(&self) -> bool
        ensures keeps { result ≡ false → KeepsMode self.now.first self.now.switches }
        ensures changes { KeepsMode self.now.first self.now.switches → result ≡ false }
    {
        let mut before = self.first;
        for switch in self.switches.as_slice() {
            if switch.after.mode != before.mode || switch.after.guard != before.guard {
                return true;
            }
            before = switch.after;
        }
        false
    }

    /// The last switch, or else what is sent from frame 0 on.
    fn last_switch(&self) -> Switch
        ensures frame { result.frame ≡ last_start self.now }
        ensures after { result.after ≡ last_sent self.now }
    {
        let mut last = self.opening();
        for switch in self.switches.as_slice() {
            last = *switch;
        }
        last
    }

    /// What is sent from frame 0 on.
    fn opening(&self) -> Switch
        ensures { result ≡ record { frame = 0; after = self.now.first } }
    {
        Switch {
            frame: 0,
            after: self.first,
        }
    }

    /// What holds at a frame.
    pub fn at(&self, frame: u32) -> At
        ensures value { result ≡ at_frame self.now frame }
        ensures countdown { result.countdown ≤ 15 }
        ensures start { result.start ≤ frame }
        ensures end { IfSome result.end (λ e. (frame < e) × (e ≤ 16777215)) }
    {
        let mut now = self.opening();
        for switch in self.switches.as_slice() {
            if frame < switch.frame {
                return now.until(switch, frame);
            }
            now = *switch;
        }
        now.to_the_end()
    }

    /// The slots of the plan's greatest frame.
    pub fn most_slots(&self) -> u32
        ensures value { result ≡ greatest_of (λ t. slots_per_frame t.mode t.guard) self.now }
        ensures most { result ≤ 5120 }
    {
        let mut most = slots(self.first.mode, self.first.guard);
        for switch in self.switches.as_slice() {
            most = most.max(slots(switch.after.mode, switch.after.guard));
        }
        most
    }

    /// The most packets of a layer in a frame of the plan: none where the layer is unused.
    pub fn most_packets(&self, layer: Layer) -> u32
        ensures value { result ≡ greatest_of (λ t. number_of (packets_per_frame t.mode) (layer_of t.setting layer)) self.now }
        ensures most { result ≤ 3276 }
    {
        let mut most = self.first.setting.packets(layer, self.first.mode);
        for switch in self.switches.as_slice() {
            most = most.max(switch.after.setting.packets(layer, switch.after.mode));
        }
        most
    }

    /// The most data carriers that a segment has in the plan.
    pub fn most_carriers(&self) -> u32
        ensures value { result ≡ greatest_of (λ t. carriers t.mode) self.now }
        ensures most { result ≤ 384 }
    {
        let mut most = carriers(self.first.mode);
        for switch in self.switches.as_slice() {
            most = most.max(carriers(switch.after.mode));
        }
        most
    }
}
