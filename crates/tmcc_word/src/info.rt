//! What a TMCC word says.

use isdbt_base::Setting;
use std::marker::Model;

/// What a TMCC word says of its frame. Its countdown is at most 15.
#[derive(Clone, Copy, Debug, PartialEq, Eq)]
pub struct TmccInfo {
    /// Emergency switch-on, 1 bit.
    pub start_up: bool,
    /// Countdown to a switch of parameters, 4 bits.
    pub countdown: u8,
    /// The setting of the frame.
    pub now: Setting,
    /// The setting after the next switch, if one is announced.
    pub next: Option<Setting>,
}

impl Model for TmccInfo {
    ghost use Rattle.std.specs.Prelude.{◌≤◌};
    ghost use Rattle.tmcc_word.specs.Fields.{TmccFields};

    ghost Value = { TmccFields };

    ghost view = { λ i. record { start_up = i.start_up; countdown = i.countdown; now = i.now; next = i.next } };

    ghost invariant = { λ i. i.countdown ≤ 15 };

    ghost inverse = { λ i. record { start_up = i.start_up; countdown = i.countdown; now = i.now; next = i.next } };
}

impl TmccInfo {
    ghost use Rattle.tmcc_word.specs.Fields.{FitsWord};

    /// A word can bear each record.
    pub fn acceptance_law(&self)
        ensures { FitsWord self.entry.now }
    {
        self.now.acceptance_law();
        if let Some(next) = &self.next {
            next.acceptance_law();
        }
    }
}
