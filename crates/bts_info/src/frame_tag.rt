//! What a frame's packets bear alike.

use std::marker::Model;

/// What the information of all packets of a frame bears alike. Its countdown is at most 15.
#[derive(Clone, Copy, Debug, PartialEq, Eq)]
pub struct FrameTag {
    /// Frame indicator, 1 bit: set in odd frames.
    pub odd: bool,
    /// The frame is the first of an epoch: 1 bit, the initialisation timing head, which slot 0 alone bears.
    pub first: bool,
    /// Emergency switch-on, 1 bit.
    pub start_up: bool,
    /// Countdown to a switch of parameters, 4 bits.
    pub countdown: u8,
}

impl Model for FrameTag {
    ghost use Rattle.std.specs.Prelude.{◌≤◌};
    ghost use Rattle.bts_info.specs.Fields.{Tag};

    ghost Value = { Tag };

    ghost view = { λ t. record { odd = t.odd; first = t.first; start_up = t.start_up; countdown = t.countdown } };

    ghost invariant = { λ t. t.countdown ≤ 15 };

    ghost inverse = { λ t. record { odd = t.odd; first = t.first; start_up = t.start_up; countdown = t.countdown } };
}
