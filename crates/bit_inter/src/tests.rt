//! Bits whose places are known.

use crate::{BitDeinter, BitInter};
use delay_line::{Line, Stage, through};
use std::process::Abort;
use std::test::Fail;

#[test]
fn delay_line_vectors(rt: HostRuntime) -> Result<(), Fail> {
    let mut inter = BitInter::<2>::open(rt.alloc())?;
    let mut deinter = BitDeinter::<2>::open(rt.alloc())?;
    // Both bits of the first cell, and then 120 cells of zeros.
    let mut sent = [false; 242];
    sent[0] = true;
    sent[1] = true;
    let mut given = [true; 242];
    inter.feed(&sent, &mut given);
    for (place, bit) in given.iter().enumerate() {
        assert_eq!(rt; *bit, place == 0 || place == 241, "place {place}");
    }
    deinter.feed(&sent, &mut given);
    for (place, bit) in given.iter().enumerate() {
        assert_eq!(rt; *bit, place == 1 || place == 240, "place {place}");
    }
    Ok(())
}

#[test]
fn delays_of_the_bits(rt: HostRuntime) -> Result<(), Fail> {
    let inter = BitInter::<6>::open(rt.alloc())?;
    let deinter = BitDeinter::<6>::open(rt.alloc())?;
    assert_eq!(rt;
        (inter.paths(), inter.delay(), inter.zero()),
        (6, 120, false)
    );
    assert_eq!(rt;
        (deinter.paths(), deinter.delay(), deinter.zero()),
        (6, 120, false)
    );
    for (path, delay) in [0, 24, 48, 72, 96, 120].iter().enumerate() {
        if path < 6 {
            assert_eq!(rt; inter.path_delay(path as u32), *delay);
            assert_eq!(rt; deinter.path_delay(path as u32), 120 - *delay);
        }
    }
    let inter = BitInter::<4>::open(rt.alloc())?;
    assert_eq!(rt; (inter.path_delay(1), inter.path_delay(2)), (40, 80));
    Ok(())
}

/// Coded bits that are set among 800, and the places at which they come.
#[derive(Clone, Copy)]
struct SetBits<'a> {
    coded: &'a [usize],
    placed: &'a [usize],
}

/// Sends the coded bits through the adjustment and then the stage, and checks that the set bits come at their places alone.
fn expect_places<S: Stage<Item = bool>>(
    rt: &impl Abort,
    adjustment: &mut Line<bool>,
    stage: &mut S,
    bits: &SetBits,
) {
    let mut coded = [false; 800];
    for (place, bit) in coded.iter_mut().enumerate() {
        *bit = bits.coded.contains(&place);
    }
    let mut adjusted = [true; 800];
    adjustment.feed(&coded, &mut adjusted);
    let mut placed = [true; 800];
    assert_eq!(rt; adjusted.len() % stage.paths() as usize, 0);
    stage.feed(&adjusted, &mut placed);
    for (place, bit) in placed.iter().enumerate() {
        assert_eq!(rt; *bit, bits.placed.contains(&place), "place {place}");
    }
}

#[test]
fn bits_behind_the_adjustment(rt: HostRuntime) -> Result<(), Fail> {
    // One segment of mode 1 has 96 cells a symbol. QPSK: coded bit 0 is bit 0 of layer cell 72, coded
    // bit 1 bit 1 of cell 192.
    let mut line = Line::open(rt.alloc(), 144, false)?;
    let mut inter = BitInter::<2>::open(rt.alloc())?;
    let first_two = SetBits {
        coded: &[0, 1],
        placed: &[144, 385],
    };
    expect_places(&rt, &mut line, &mut inter, &first_two);

    // 16QAM: coded bit 6 is bit 2 of cell 1 + 72 + 80.
    let mut line = Line::open(rt.alloc(), 288, false)?;
    let mut inter = BitInter::<4>::open(rt.alloc())?;
    let sixth = SetBits {
        coded: &[6],
        placed: &[614],
    };
    expect_places(&rt, &mut line, &mut inter, &sixth);
    Ok(())
}

#[test]
fn bit_pair(rt: HostRuntime) -> Result<(), Fail> {
    let mut inter = BitInter::<6>::open(rt.alloc())?;
    let mut deinter = BitDeinter::<6>::open(rt.alloc())?;
    let mut middle = [false; 6];
    for turn in 0..300usize {
        let mut bits = [false; 6];
        for path in 0..6 {
            bits[path] = bit_of(turn, path);
        }
        through(&mut inter, &mut deinter, &mut bits, &mut middle);
        for path in 0..6 {
            let wanted = turn >= 120 && bit_of(turn - 120, path);
            assert_eq!(rt; bits[path], wanted, "turn {turn}, path {path}");
        }
    }
    Ok(())
}

/// A bit of a turn and a path.
fn bit_of(turn: usize, path: usize) -> bool {
    turn % 7 == path % 7 || turn % 5 == path % 5
}
