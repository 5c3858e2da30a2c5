//! What the epochs of a plan send.

use crate::epoch::At;
use crate::kinds::{Guard, Mode};
use crate::setting::Setting;
use std::marker::Model;

/// What an epoch sends.
#[derive(Clone, Copy, Debug)]
pub struct Transmission {
    pub mode: Mode,
    pub guard: Guard,
    pub setting: Setting,
}

impl Model for Transmission {
    ghost use Rattle.isdbt_base.specs.Plans.{Transmission as Sent};

    ghost Value = { Sent };

    ghost view = { λ t. record { mode = t.mode; guard = t.guard; setting = t.setting } };

    ghost inverse = { λ t. record { mode = t.mode; guard = t.guard; setting = t.setting } };
}

/// From this frame on it is sent so.
#[derive(Clone, Copy, Debug)]
pub struct Switch {
    pub frame: u32,
    pub after: Transmission,
}

impl Model for Switch {
    ghost use Rattle.isdbt_base.specs.Plans.{Switch as Change};

    ghost Value = { Change };

    ghost view = { λ s. record { frame = s.frame; after = s.after } };

    ghost inverse = { λ s. record { frame = s.frame; after = s.after } };
}

impl Switch {
    ghost use Rattle.std.specs.Prelude.{◌≡◌, ◌<◌, ◌∷◌, []};
    ghost use Rattle.isdbt_base.specs.Plans.{in_epoch};

    /// What holds at a frame from this switch on, where the next one is still to come.
    pub fn until(&self, next: &Switch, frame: u32) -> At
        requires { frame < next.now.frame }
        ensures { result ≡ in_epoch self.now.after self.now.frame (next.now ∷ []) frame }
    {
        let left = next.frame - frame;
        At {
            mode: self.after.mode,
            guard: self.after.guard,
            setting: self.after.setting,
            start: self.frame,
            end: Some(next.frame),
            next: Some(next.after.setting),
            next_mode: Some(next.after.mode),
            next_guard: Some(next.after.guard),
            countdown: if left <= 15 { left as u8 - 1 } else { 15 },
        }
    }

    /// What holds at the frame of this switch and at each behind it, where no other follows.
    pub fn to_the_end(&self) -> At
        ensures { result ≡ in_epoch self.now.after self.now.frame [] self.now.frame }
    {
        At {
            mode: self.after.mode,
            guard: self.after.guard,
            setting: self.after.setting,
            start: self.frame,
            end: None,
            next: None,
            next_mode: None,
            next_guard: None,
            countdown: 15,
        }
    }
}

/// What stands in the places of a plan that hold no switch; it is never read.
impl Default for Switch {
    fn default() -> Switch {
        let after = Transmission {
            mode: Mode::M1,
            guard: Guard::G4,
            setting: Setting::default(),
        };
        Switch { frame: 0, after }
    }
}
