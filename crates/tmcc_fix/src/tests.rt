//! Words with wrong bits.

use crate::{Fixed, fix};
use std::process::Abort;
use std::test::Fail;

/// Places of the ones of the generator polynomial: a word with these bits inverted has another codeword from B20 on.
const GENERATOR_PLACES: [usize; 18] = [
    121, 126, 127, 132, 136, 137, 147, 151, 155, 163, 167, 169, 179, 181, 185, 193, 199, 203,
];

/// Writes bits from a place on.
fn write_bits(word: &mut [bool; 204], at: usize, text: &[u8]) {
    for (bit, digit) in word.iter_mut().skip(at).zip(text) {
        *bit = *digit == b'1';
    }
}

/// Word of an even frame without a switch: layer A of one segment with partial reception, and layer B.
fn tmcc_word_of_two_layers() -> [bool; 204] {
    let mut word = [true; 204];
    write_bits(&mut word, 0, b"00011010111101110000");
    write_bits(&mut word, 20, b"0011110100100101100010110100101100");
    write_bits(
        &mut word,
        122,
        b"1001011110000110000011000010000100111011101100010011011000010010101100011011110101",
    );
    word
}

/// The word with the bits at these places inverted.
fn inverted(word: &[bool; 204], places: &[usize]) -> [bool; 204] {
    let mut inverted = *word;
    for (place, bit) in inverted.iter_mut().enumerate() {
        if places.contains(&place) {
            *bit = !*bit;
        }
    }
    inverted
}

/// The word with so many bits from B20 on inverted, at places that look random.
fn spoiled(word: &[bool; 204], count: u32, seed: u32) -> [bool; 204] {
    let mut spoiled = *word;
    let mut random = seed;
    let mut left = count;
    for place in 20..204u32 {
        random = random.wrapping_mul(1664525).wrapping_add(1013904223);
        if (random >> 16) % (204 - place) < left {
            let bit = &mut spoiled[place as usize];
            *bit = !*bit;
            left -= 1;
        }
    }
    spoiled
}

/// From a wrong word `fix` makes the right one, and answers so.
fn expect_fixed(rt: &impl Abort, wrong: &[bool; 204], right: &[bool; 204], answer: Fixed) {
    let mut word = *wrong;
    assert_eq!(rt; fix(&mut word), answer);
    assert!(rt; word == *right, "{answer:?}");
}

/// Places of wrong bits.
#[derive(Clone, Copy)]
struct WrongBits<'a> {
    places: &'a [usize],
    count: u32,
}

#[test]
fn wrong_bits_restored(rt: HostRuntime) -> Result<(), Fail> {
    let word = tmcc_word_of_two_layers();
    let rows = [
        WrongBits {
            places: &[],
            count: 0,
        },
        WrongBits {
            places: &[203],
            count: 1,
        },
        WrongBits {
            places: &[20, 40, 121, 122, 123, 202, 203],
            count: 7,
        },
        WrongBits {
            places: &[20, 21, 22, 23, 24, 25, 26, 27],
            count: 8,
        },
    ];
    for WrongBits { places, count } in rows {
        expect_fixed(&rt, &inverted(&word, places), &word, Fixed::Restored(count));
    }
    Ok(())
}

#[test]
fn nine_wrong_bits_are_far(rt: HostRuntime) -> Result<(), Fail> {
    let word = tmcc_word_of_two_layers();
    let rows = [
        [20, 21, 22, 23, 24, 25, 26, 27, 28].as_slice(),
        [195, 196, 197, 198, 199, 200, 201, 202, 203].as_slice(),
        &GENERATOR_PLACES[..9],
    ];
    for places in rows {
        let far = inverted(&word, places);
        expect_fixed(&rt, &far, &far, Fixed::Far);
    }
    Ok(())
}

#[test]
fn ten_wrong_bits_near_another_codeword(rt: HostRuntime) -> Result<(), Fail> {
    let word = tmcc_word_of_two_layers();
    let wrong = inverted(&word, &GENERATOR_PLACES[..10]);
    let other = inverted(&word, &GENERATOR_PLACES);
    expect_fixed(&rt, &wrong, &other, Fixed::Restored(8));
    Ok(())
}

#[test]
fn first_bits_kept(rt: HostRuntime) -> Result<(), Fail> {
    let word = inverted(&tmcc_word_of_two_layers(), &[0, 1, 10, 19]);
    let wrong = inverted(&word, &[150]);
    expect_fixed(&rt, &wrong, &word, Fixed::Restored(1));
    Ok(())
}

#[test]
fn each_bit_and_each_pair_restored(rt: HostRuntime) -> Result<(), Fail> {
    let word = tmcc_word_of_two_layers();
    for pair in 0..184 * 184usize {
        let first = 20 + pair / 184;
        let second = 20 + pair % 184;
        let count = if first == second { 1 } else { 2 };
        let wrong = inverted(&word, &[first, second]);
        expect_fixed(&rt, &wrong, &word, Fixed::Restored(count));
    }
    Ok(())
}

#[test]
fn three_to_eight_random_wrong_bits_restored(rt: HostRuntime) -> Result<(), Fail> {
    let word = tmcc_word_of_two_layers();
    for seed in 0..6000u32 {
        let count = 3 + seed % 6;
        let wrong = spoiled(&word, count, seed);
        expect_fixed(&rt, &wrong, &word, Fixed::Restored(count));
    }
    Ok(())
}

#[test]
fn nine_random_wrong_bits_are_far(rt: HostRuntime) -> Result<(), Fail> {
    let word = tmcc_word_of_two_layers();
    for seed in 0..1000u32 {
        let far = spoiled(&word, 9, seed);
        expect_fixed(&rt, &far, &far, Fixed::Far);
    }
    Ok(())
}
