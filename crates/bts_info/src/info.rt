//! The information of a broadcast packet.

use std::marker::Model;

/// Fields of the information, in their order, each in the range of its bits.
#[derive(Clone, Copy, Debug, PartialEq, Eq)]
pub struct Info {
    /// TMCC identifier, 2 bits: 2 in what is written.
    pub identifier: u8,
    /// Reserved, 1 bit: set in what is written.
    pub reserved: bool,
    /// Buffer reset, 1 bit: clear in what is written.
    pub buffer_reset: bool,
    /// Emergency switch-on, 1 bit: the start-up bit of the frame's tag.
    pub start_up: bool,
    /// Initialisation timing head, 1 bit: set in slot 0 of the first frame of an epoch.
    pub first: bool,
    /// Frame head, 1 bit: set in slot 0.
    pub head: bool,
    /// Frame indicator, 1 bit: the odd bit of the frame's tag.
    pub odd: bool,
    /// Layer indicator, 4 bits: 1, 2, 3 for the layers A, B, C, and 0 for none.
    pub layer: u8,
    /// Countdown, 4 bits.
    pub countdown: u8,
    /// AC invalid, 1 bit: set in what is written.
    pub ac_invalid: bool,
    /// AC effective bytes, 2 bits: 3 in what is written.
    pub ac_effective: u8,
    /// Packet counter, 13 bits: the slot.
    pub counter: u16,
    /// AC data or stuffing, 32 bits: ones in what is written.
    pub ac: u32,
}

impl Model for Info {
    ghost use Rattle.bts_info.specs.Fields.{Fields, FitsFields};

    ghost Value = { Fields };

    ghost view = { λ i. record {
      identifier = i.identifier;
      reserved = i.reserved;
      buffer_reset = i.buffer_reset;
      start_up = i.start_up;
      first = i.first;
      head = i.head;
      odd = i.odd;
      layer = i.layer;
      countdown = i.countdown;
      ac_invalid = i.ac_invalid;
      ac_effective = i.ac_effective;
      counter = i.counter;
      ac = i.ac;
    } };

    ghost invariant = { λ i. FitsFields (record {
      identifier = i.identifier;
      reserved = i.reserved;
      buffer_reset = i.buffer_reset;
      start_up = i.start_up;
      first = i.first;
      head = i.head;
      odd = i.odd;
      layer = i.layer;
      countdown = i.countdown;
      ac_invalid = i.ac_invalid;
      ac_effective = i.ac_effective;
      counter = i.counter;
      ac = i.ac;
    }) };

    ghost inverse = { λ i. record {
      identifier = i.identifier;
      reserved = i.reserved;
      buffer_reset = i.buffer_reset;
      start_up = i.start_up;
      first = i.first;
      head = i.head;
      odd = i.odd;
      layer = i.layer;
      countdown = i.countdown;
      ac_invalid = i.ac_invalid;
      ac_effective = i.ac_effective;
      counter = i.counter;
      ac = i.ac;
    } };
}
