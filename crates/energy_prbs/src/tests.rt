//! Bytes of the sequence that are known.

use crate::Prbs;
use std::test::Fail;

/// A byte of the sequence.
#[derive(Clone, Copy)]
struct Known {
    index: usize,
    byte: u8,
}

#[test]
fn sequence_begins(rt: HostRuntime) -> Result<(), Fail> {
    let mut prbs = Prbs::start();
    let mut bytes = [0u8; 204];
    for byte in &mut bytes {
        *byte = prbs.next_byte();
    }
    let rows = [
        Known {
            index: 0,
            byte: 0x03,
        },
        Known {
            index: 1,
            byte: 0xF6,
        },
        Known {
            index: 2,
            byte: 0x08,
        },
        Known {
            index: 3,
            byte: 0x34,
        },
        Known {
            index: 203,
            byte: 0xD2,
        },
    ];
    for row in rows {
        assert_eq!(rt; bytes.get(row.index), Some(&row.byte), "byte {}", row.index);
    }
    Ok(())
}

/// What a unit of 203 equal bytes and a sync byte becomes: its first four bytes, and its last before the sync byte.
#[derive(Clone, Copy)]
struct Dispersed {
    unit_of: u8,
    begins: [u8; 4],
    ends: u8,
}

#[test]
fn units_of_a_frame(rt: HostRuntime) -> Result<(), Fail> {
    let rows = [
        Dispersed {
            unit_of: 0x00,
            begins: [0x03, 0xF6, 0x08, 0x34],
            ends: 0x02,
        },
        Dispersed {
            unit_of: 0xFF,
            begins: [0xF1, 0x13, 0xD9, 0x97],
            ends: 0xAC,
        },
    ];
    let mut prbs = Prbs::start();
    for row in rows {
        let mut unit = [row.unit_of; 204];
        unit[203] = 0x47;
        prbs.disperse(&mut unit);
        assert!(rt; unit.starts_with(&row.begins));
        assert!(rt; unit.ends_with(&[row.ends, 0x47]));
    }
    assert_eq!(rt; prbs.next_byte(), 0xE8, "byte 408");
    Ok(())
}
