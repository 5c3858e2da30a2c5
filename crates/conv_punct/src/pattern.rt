//! The puncturing pattern of a rate.

ghost use Rattle.std.specs.Prelude.{◌≡◌, ◌*◌, ◌/◌, ◌%◌, map};
ghost use Rattle.isdbt_base.specs.Numbers.{rate_steps, rate_bits};
ghost use Rattle.conv_punct.specs.CodedBits.{pattern, coded_len};
ghost use Rattle.conv_punct.specs.Sending.{output_of};

use isdbt_base::{Rate, rate_pair};

/// An output that is sent: X or Y of a step of the pattern, counted from 0.
#[derive(Clone, Copy, Debug)]
pub enum Sent {
    /// X of a step.
    X(u32),
    /// Y of a step.
    Y(u32),
}

/// The outputs that are sent of each so many steps, in their order.
pub fn pattern_of(rate: Rate) -> &'static [Sent]
    ensures { map output_of result.now ≡ pattern rate }
{
    match rate {
        Rate::R12 => &[Sent::X(0), Sent::Y(0)],
        Rate::R23 => &[Sent::X(0), Sent::Y(0), Sent::Y(1)],
        Rate::R34 => &[Sent::X(0), Sent::Y(0), Sent::Y(1), Sent::X(2)],
        Rate::R56 => &[
            Sent::X(0),
            Sent::Y(0),
            Sent::Y(1),
            Sent::X(2),
            Sent::Y(3),
            Sent::X(4),
        ],
        Rate::R78 => &[
            Sent::X(0),
            Sent::Y(0),
            Sent::Y(1),
            Sent::Y(2),
            Sent::Y(3),
            Sent::X(4),
            Sent::Y(5),
            Sent::X(6),
        ],
    }
}

/// Coded bits of the first `steps` steps: all outputs of whole patterns, and of a part of one the outputs of its steps.
pub fn coded_len(rate: Rate, steps: u32) -> u64
    ensures value { result ≡ coded_len rate steps }
    ensures whole { steps % rate_steps rate ≡ 0 → result ≡ rate_bits rate * (steps / rate_steps rate) }
{
    let (pattern_steps, pattern_bits) = rate_pair(rate);
    let whole = u64::from(steps / pattern_steps) * u64::from(pattern_bits);
    // The first step of a pattern sends X and Y, each other step one of them.
    match steps % pattern_steps {
        0 => whole,
        part => whole + u64::from(part) + 1,
    }
}
