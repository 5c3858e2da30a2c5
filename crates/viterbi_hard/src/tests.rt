//! Decided bits that are known: by hand, or from a plain search over all lists of bits.

ghost use Rattle.std.specs.Prelude.{◌≡◌, ◌≤◌, length};
ghost use Rattle.viterbi_hard.specs.StandsFor.{rate_of};

use crate::Decoder;
use crate::search::Search;
use conv_punct::Encoder;
use isdbt_base::{Rate, rate_pair};
use std::process::Abort;
use std::test::Fail;

const RATES: [Rate; 5] = [Rate::R12, Rate::R23, Rate::R34, Rate::R56, Rate::R78];

/// Feeds whole patterns to a decoder of this rate.
fn feed(
    rt: &impl Abort,
    decoder: &mut Decoder,
    rate: Rate,
    bits: &[bool],
    out: &mut [bool],
) -> usize
    requires { rate_of decoder.old ≡ rate }
    ensures { rate_of decoder.new ≡ rate }
{
    let (steps, sent) = rate_pair(rate);
    assert!(rt; bits.len() <= 2000);
    let (steps, sent) = (steps as usize, sent as usize);
    assert_eq!(rt; bits.len() % sent, 0);
    assert!(rt; steps * (bits.len() / sent) <= out.len());
    decoder.feed(bits, out)
}

/// Sets so many bits, from a random seed.
fn fill(bits: &mut [bool], seed: u32, count: usize) {
    let mut state = seed;
    for (place, bit) in bits.iter_mut().enumerate() {
        state = state.wrapping_mul(1_664_525).wrapping_add(1_013_904_223);
        *bit = place < count && (state >> 27) & 1 == 1;
    }
}

#[test]
fn no_bit_before_the_window(rt: HostRuntime) -> Result<(), Fail> {
    let mut decoder = Decoder::start(Rate::R12);
    let bits = [false; 254];
    let mut out = [true; 127];
    assert_eq!(rt; feed(&rt, &mut decoder, Rate::R12, &bits, &mut out), 0);
    assert!(rt; out[0], "nothing is written");
    assert_eq!(rt; feed(&rt, &mut decoder, Rate::R12, &bits[..2], &mut out), 1);
    assert!(rt; !out[0]);
    assert!(rt; out[1], "the rest stays");
    Ok(())
}

/// The first decided bit at rate 1/2 of eight bits and 248 zeros.
fn first_decided(rt: &impl Abort, first: [bool; 8]) -> bool {
    let mut bits = [false; 256];
    for (place, bit) in first.iter().enumerate() {
        bits[place] = *bit;
    }
    let mut decoder = Decoder::start(Rate::R12);
    let mut out = [false; 128];
    assert_eq!(rt; feed(rt, &mut decoder, Rate::R12, &bits, &mut out), 1);
    out[0]
}

#[test]
fn tie_goes_to_zero(rt: HostRuntime) -> Result<(), Fail> {
    // The list of zeros and the one that begins with 1 both cost 5.
    let even = [true, true, true, false, true, true, false, false];
    assert!(rt; !first_decided(&rt, even));
    // They cost 6 and 4.
    let uneven = [true, true, true, false, true, true, true, false];
    assert!(rt; first_decided(&rt, uneven));
    Ok(())
}

/// Whether two feeds of a stream decide as one feed did.
fn same_when_cut(
    rt: &impl Abort,
    rate: Rate,
    bits: &[bool; 384],
    cut: usize,
    whole: &[bool; 384],
    count: usize,
) -> bool {
    assert!(rt; cut <= 384);
    let mut decoder = Decoder::start(rate);
    let mut out = [false; 384];
    let first = feed(rt, &mut decoder, rate, &bits[..cut], &mut out);
    assert!(rt; first <= 384);
    let second = feed(rt, &mut decoder, rate, &bits[cut..], &mut out[first..]);
    assert!(rt; second <= 384);
    first + second == count && out == *whole
}

/// Cuts a stream in two at the end of each pattern.
fn compare_cuts(rt: &impl Abort, rate: Rate, bits: &[bool; 384]) {
    let (_, sent) = rate_pair(rate);
    let mut decoder = Decoder::start(rate);
    let mut whole = [false; 384];
    let count = feed(rt, &mut decoder, rate, bits, &mut whole);
    for cut in 0..=384usize {
        if cut % sent as usize == 0 {
            assert!(rt;
                same_when_cut(rt, rate, bits, cut, &whole, count),
                "{rate:?} cut at {cut}"
            );
        }
    }
}

#[test]
fn cut_feeds_equal_one_feed(rt: HostRuntime) -> Result<(), Fail> {
    let mut bits = [false; 384];
    fill(&mut bits, 7, 384);
    for rate in RATES {
        compare_cuts(&rt, rate, &bits);
    }
    Ok(())
}

/// Compares the first eight decided bits of a noisy beginning with the least of all lists of bits; whether one of them is 1.
fn compare_with_search(rt: &impl Abort, rate: Rate, seed: u32) -> bool {
    let (steps, sent) = rate_pair(rate);
    let patterns = (134 + steps) / steps;
    let mut read = [false; 272];
    fill(&mut read, seed, 16);
    let mut out = [false; 160];
    let mut decoder = Decoder::start(rate);
    let length = (patterns * sent) as usize;
    assert!(rt; length <= 272);
    let count = feed(rt, &mut decoder, rate, &read[..length], &mut out);
    assert_eq!(rt; count, (patterns * steps) as usize - 127);
    let mut one = false;
    for bit in 0..8usize {
        let mut search = Search::start();
        search.go(rate, &read, bit + 128, 0, 0, 0);
        assert!(rt;
            search.best[bit] == out[bit],
            "{rate:?} seed {seed} bit {bit}"
        );
        one = one || out[bit];
    }
    one
}

/// Compares some beginnings, of which one at least leads to a bit that is 1.
fn compare_beginnings(rt: &impl Abort, rate: Rate) {
    let mut one = false;
    for seed in 1..6u32 {
        let found = compare_with_search(rt, rate, seed);
        one = one || found;
    }
    assert!(rt; one, "{rate:?} decides a bit 1");
}

#[test]
fn least_of_all_lists(rt: HostRuntime) -> Result<(), Fail> {
    for rate in RATES {
        compare_beginnings(&rt, rate);
    }
    Ok(())
}

/// Bytes of many kinds.
fn fill_bytes(bytes: &mut [u8]) {
    let mut next = 1u8;
    for byte in bytes.iter_mut() {
        next = next.wrapping_mul(77).wrapping_add(13);
        *byte = next;
    }
}

/// Turns every 200th bit.
fn turn_isolated(bits: &mut [bool]) {
    for (place, bit) in bits.iter_mut().enumerate() {
        if place % 200 == 100 {
            *bit = !*bit;
        }
    }
}

/// Encodes 105 bytes at a rate, turns every 200th coded bit, and compares what is decided with the bytes' bits.
fn correct_isolated(rt: &impl Abort, rate: Rate) {
    let (steps, bits) = rate_pair(rate);
    let mut bytes = [0u8; 105];
    fill_bytes(&mut bytes);
    assert_eq!(rt; 840 % steps, 0);
    let count = (bits * (840 / steps)) as usize;
    let mut coded = [false; 1680];
    assert!(rt; count <= 1680);
    let mut encoder = Encoder::start(rate);
    assert_eq!(rt; encoder.feed(&bytes, &mut coded), count);
    turn_isolated(&mut coded);
    let mut decoder = Decoder::start(rate);
    let mut out = [false; 840];
    let decided = feed(rt, &mut decoder, rate, &coded[..count], &mut out);
    assert_eq!(rt; decided, 713);
    for place in 0..713usize {
        let bit = (bytes[place / 8] >> (7 - place % 8)) & 1 == 1;
        assert_eq!(rt; out[place], bit, "{rate:?} bit {place}");
    }
}

#[test]
fn isolated_wrong_bits_are_corrected(rt: HostRuntime) -> Result<(), Fail> {
    for rate in RATES {
        correct_isolated(&rt, rate);
    }
    Ok(())
}
