//! Coded bits that are known: by hand, or from an independent program.

ghost use Rattle.std.specs.Prelude.{◌≡◌};
ghost use Rattle.conv_punct.specs.StandsFor.{rate_of};

use crate::{Encoder, coded_len};
use isdbt_base::{Rate, rate_pair};
use std::process::Abort;
use std::test::Fail;

/// Feeds whole patterns, and checks the coded bits, which the bytes `wanted` have from bit `from` on, and the rest of `out`.
fn feed_known(
    rt: &impl Abort,
    encoder: &mut Encoder,
    rate: Rate,
    bytes: &[u8],
    wanted: &[u8],
    from: usize,
) -> usize
    requires { rate_of encoder.old ≡ rate }
    ensures { rate_of encoder.new ≡ rate }
{
    let (steps, bits) = rate_pair(rate);
    assert!(rt; bytes.len() <= 20 && from <= 200);
    assert_eq!(rt; 8 * bytes.len() as u32 % steps, 0);
    let count = (bits * (8 * bytes.len() as u32 / steps)) as usize;
    let mut out = [true; 400];
    assert!(rt; count <= out.len());
    assert_eq!(rt; encoder.feed(bytes, &mut out), count);
    for (index, bit) in out.iter().enumerate() {
        if index < count {
            let place = from + index;
            assert!(rt; place / 8 < wanted.len());
            assert_eq!(rt;
                *bit,
                (wanted[place / 8] >> (7 - place % 8)) & 1 == 1,
                "coded bit {place}"
            );
        } else {
            assert!(rt; *bit, "place {index} is not written");
        }
    }
    count
}

#[test]
fn impulse_at_rate_one_half(rt: HostRuntime) -> Result<(), Fail> {
    let mut encoder = Encoder::start(Rate::R12);
    feed_known(
        &rt,
        &mut encoder,
        Rate::R12,
        &[0x80],
        &[0b11101111, 0b00011100],
        0,
    );
    Ok(())
}

#[test]
fn impulse_at_rate_seven_eighths(rt: HostRuntime) -> Result<(), Fail> {
    let mut encoder = Encoder::start(Rate::R78);
    let wanted = [0b11011011, 0, 0, 0, 0, 0, 0, 0];
    feed_known(
        &rt,
        &mut encoder,
        Rate::R78,
        &[0x80, 0, 0, 0, 0, 0, 0],
        &wanted,
        0,
    );
    Ok(())
}

/// What the first `last` of some bytes become, fed as the first `first` and then the others.
#[derive(Clone, Copy)]
struct TwoParts<'a> {
    rate: Rate,
    first: usize,
    last: usize,
    coded: &'a [u8],
}

#[test]
fn fed_in_two_parts(rt: HostRuntime) -> Result<(), Fail> {
    let bytes = [
        0x47, 0x1F, 0xFF, 0x10, 0xA5, 0x00, 0x3C, 0x81, 0x7E, 0x55, 0xC0, 0xDE, 0x12, 0x9B,
    ];
    let rows = [
        TwoParts {
            rate: Rate::R12,
            first: 1,
            last: 3,
            coded: &[0x3B, 0xF1, 0x89, 0xD5, 0x3F, 0xFF],
        },
        TwoParts {
            rate: Rate::R23,
            first: 1,
            last: 3,
            coded: &[0x37, 0x99, 0x7B, 0x3F, 0xF0],
        },
        TwoParts {
            rate: Rate::R34,
            first: 3,
            last: 6,
            coded: &[0x3F, 0x30, 0xE5, 0xFF, 0x04, 0xD4, 0xE5, 0xAC],
        },
        TwoParts {
            rate: Rate::R56,
            first: 5,
            last: 10,
            coded: &[
                0x3F, 0x0B, 0x97, 0xFA, 0x8D, 0x9A, 0xBB, 0x0F, 0xD2, 0x3C, 0x51, 0x21,
            ],
        },
        TwoParts {
            rate: Rate::R78,
            first: 7,
            last: 14,
            coded: &[
                0x2E, 0x42, 0x6F, 0xF6, 0x16, 0x79, 0xB8, 0x30, 0x93, 0xC5, 0x01, 0x1B, 0x8E, 0xDA,
                0xB8, 0xB1,
            ],
        },
    ];
    for row in rows {
        let mut encoder = Encoder::start(row.rate);
        assert!(rt; row.first <= row.last && row.last <= bytes.len());
        let (first, others) = (&bytes[..row.first], &bytes[row.first..row.last]);
        let from = feed_known(&rt, &mut encoder, row.rate, first, row.coded, 0);
        feed_known(&rt, &mut encoder, row.rate, others, row.coded, from);
    }
    Ok(())
}

/// The coded bits of 0 to 8 steps, and those of 1632.
#[derive(Clone, Copy)]
struct Lengths {
    rate: Rate,
    of_few: [u64; 9],
    of_1632: u64,
}

#[test]
fn coded_lengths(rt: HostRuntime) -> Result<(), Fail> {
    let rows = [
        Lengths {
            rate: Rate::R12,
            of_few: [0, 2, 4, 6, 8, 10, 12, 14, 16],
            of_1632: 3264,
        },
        Lengths {
            rate: Rate::R23,
            of_few: [0, 2, 3, 5, 6, 8, 9, 11, 12],
            of_1632: 2448,
        },
        Lengths {
            rate: Rate::R34,
            of_few: [0, 2, 3, 4, 6, 7, 8, 10, 11],
            of_1632: 2176,
        },
        Lengths {
            rate: Rate::R56,
            of_few: [0, 2, 3, 4, 5, 6, 8, 9, 10],
            of_1632: 1959,
        },
        Lengths {
            rate: Rate::R78,
            of_few: [0, 2, 3, 4, 5, 6, 7, 8, 10],
            of_1632: 1866,
        },
    ];
    for row in rows {
        for (steps, bits) in row.of_few.iter().enumerate() {
            assert_eq!(rt; coded_len(row.rate, steps as u32), *bits, "steps {steps}");
        }
        assert_eq!(rt; coded_len(row.rate, 1632), row.of_1632);
    }
    Ok(())
}
