//! Cells by hand, and all cells against a plain search for the nearest level.

use crate::{Cell, bits_of, cell_of};
use isdbt_base::{Modulation, bits_per_cell};
use std::test::Fail;

/// A level with its axis bits, as a number of a byte.
#[derive(Clone, Copy)]
struct Axis {
    level: i8,
    bits: u8,
}

// In no order that the search rests on.
static LEVELS_OF_QPSK: [Axis; 2] = [
    Axis {
        level: -1,
        bits: 0b1,
    },
    Axis {
        level: 1,
        bits: 0b0,
    },
];

static LEVELS_OF_16QAM: [Axis; 4] = [
    Axis {
        level: -3,
        bits: 0b10,
    },
    Axis {
        level: 1,
        bits: 0b01,
    },
    Axis {
        level: 3,
        bits: 0b00,
    },
    Axis {
        level: -1,
        bits: 0b11,
    },
];

static LEVELS_OF_64QAM: [Axis; 8] = [
    Axis {
        level: -7,
        bits: 0b100,
    },
    Axis {
        level: -5,
        bits: 0b101,
    },
    Axis {
        level: -1,
        bits: 0b110,
    },
    Axis {
        level: -3,
        bits: 0b111,
    },
    Axis {
        level: 7,
        bits: 0b000,
    },
    Axis {
        level: 5,
        bits: 0b001,
    },
    Axis {
        level: 1,
        bits: 0b010,
    },
    Axis {
        level: 3,
        bits: 0b011,
    },
];

fn levels_of(modulation: Modulation) -> &'static [Axis] {
    match modulation {
        Modulation::Qpsk => &LEVELS_OF_QPSK,
        Modulation::Qam16 => &LEVELS_OF_16QAM,
        Modulation::Qam64 => &LEVELS_OF_64QAM,
    }
}

/// The bits of a cell with these axis bits: a bit of I before each bit of Q.
fn joined(i: u8, q: u8) -> u8 {
    let mut bits = 0;
    for shift in [2, 1, 0] {
        bits = bits << 2 | (i >> shift & 1) << 1 | q >> shift & 1;
    }
    bits
}

/// The axis bits of the nearest of these levels, and of two as near of the higher.
fn searched(levels: &[Axis], value: i8) -> u8 {
    let mut nearest = Axis { level: 0, bits: 0 };
    let mut least = u8::MAX;
    for axis in levels {
        let distance = value.abs_diff(axis.level);
        if distance < least || distance == least && axis.level > nearest.level {
            nearest = *axis;
            least = distance;
        }
    }
    nearest.bits
}

/// Bits of a cell, and the cell that they are sent as or read from.
#[derive(Clone, Copy)]
struct Mapped {
    modulation: Modulation,
    bits: u8,
    cell: Cell,
}

static SENT: [Mapped; 5] = [
    Mapped {
        modulation: Modulation::Qam64,
        bits: 0b000000,
        cell: Cell { i: 7, q: 7 },
    },
    Mapped {
        modulation: Modulation::Qam64,
        bits: 0b100000,
        cell: Cell { i: -7, q: 7 },
    },
    Mapped {
        modulation: Modulation::Qam64,
        bits: 0b010011,
        cell: Cell { i: 5, q: -5 },
    },
    Mapped {
        modulation: Modulation::Qam16,
        bits: 0b0110,
        cell: Cell { i: 1, q: -3 },
    },
    Mapped {
        modulation: Modulation::Qpsk,
        bits: 0b01,
        cell: Cell { i: 1, q: -1 },
    },
];

static READ: [Mapped; 7] = [
    Mapped {
        modulation: Modulation::Qam64,
        bits: 0b001100,
        cell: Cell { i: 0, q: 0 },
    },
    Mapped {
        modulation: Modulation::Qam64,
        bits: 0b100000,
        cell: Cell { i: -128, q: 127 },
    },
    Mapped {
        modulation: Modulation::Qam64,
        bits: 0b010001,
        cell: Cell { i: 6, q: -6 },
    },
    Mapped {
        modulation: Modulation::Qam16,
        bits: 0b0011,
        cell: Cell { i: 0, q: 0 },
    },
    Mapped {
        modulation: Modulation::Qam16,
        bits: 0b0101,
        cell: Cell { i: 2, q: -2 },
    },
    Mapped {
        modulation: Modulation::Qpsk,
        bits: 0b00,
        cell: Cell { i: 0, q: 0 },
    },
    Mapped {
        modulation: Modulation::Qpsk,
        bits: 0b01,
        cell: Cell { i: 127, q: -1 },
    },
];

#[test]
fn levels_and_ties(rt: HostRuntime) -> Result<(), Fail> {
    for row in SENT.iter() {
        assert!(rt; row.bits < 1 << bits_per_cell(row.modulation));
        assert_eq!(rt; cell_of(row.modulation, row.bits), row.cell);
    }
    for row in READ.iter() {
        assert_eq!(rt; bits_of(row.modulation, row.cell), row.bits);
    }
    Ok(())
}

#[test]
fn every_cell_by_search(rt: HostRuntime) -> Result<(), Fail> {
    for modulation in [Modulation::Qpsk, Modulation::Qam16, Modulation::Qam64] {
        let levels = levels_of(modulation);
        for i in i8::MIN..=i8::MAX {
            let of_i = searched(levels, i);
            for q in i8::MIN..=i8::MAX {
                let wanted = joined(of_i, searched(levels, q));
                assert_eq!(rt; bits_of(modulation, Cell { i, q }), wanted, "I {i}, Q {q}");
            }
        }
    }
    Ok(())
}
