//! Heads of frames of cells: what they say, and which are refused.

use crate::{Guard, HeadFault, Mode, head_of, read_head};

/// A mode and its byte.
#[derive(Clone, Copy)]
struct ModeRow {
    mode: Mode,
    byte: u8,
}

/// A guard interval and its byte.
#[derive(Clone, Copy)]
struct GuardRow {
    guard: Guard,
    byte: u8,
}

const MODES: [ModeRow; 3] = [
    ModeRow {
        mode: Mode::M1,
        byte: 0x01,
    },
    ModeRow {
        mode: Mode::M2,
        byte: 0x02,
    },
    ModeRow {
        mode: Mode::M3,
        byte: 0x03,
    },
];

const GUARDS: [GuardRow; 4] = [
    GuardRow {
        guard: Guard::G4,
        byte: 0x04,
    },
    GuardRow {
        guard: Guard::G8,
        byte: 0x08,
    },
    GuardRow {
        guard: Guard::G16,
        byte: 0x10,
    },
    GuardRow {
        guard: Guard::G32,
        byte: 0x20,
    },
];

/// The head of a mode and a guard interval by their bytes.
fn head_with(mode: u8, guard: u8) -> [u8; 8] {
    [0x49, 0x53, 0x43, 0x32, mode, guard, 0, 0]
}

#[test]
fn heads_both_ways(rt: HostRuntime) {
    for mode in MODES {
        for guard in GUARDS {
            let head = head_with(mode.byte, guard.byte);
            assert_eq!(rt; head_of(mode.mode, guard.guard), head);
            assert_eq!(rt; read_head(&head), Ok((mode.mode, guard.guard)));
        }
    }
}

/// What a head says of which one byte was changed to a value.
fn changed(
    row: ModeRow,
    other: GuardRow,
    number: u8,
    value: u8,
) -> Result<(Mode, Guard), HeadFault> {
    let refused = Err(HeadFault { byte: number });
    let unchanged = Ok((row.mode, other.guard));
    match number {
        0 if value != 0x49 => refused,
        1 if value != 0x53 => refused,
        2 if value != 0x43 => refused,
        3 if value != 0x32 => refused,
        4 => match MODES.iter().find(|m| m.byte == value) {
            Some(found) => Ok((found.mode, other.guard)),
            None => refused,
        },
        5 => match GUARDS.iter().find(|g| g.byte == value) {
            Some(found) => Ok((row.mode, found.guard)),
            None => refused,
        },
        _ => unchanged,
    }
}

#[test]
fn one_byte_changed(rt: HostRuntime) {
    for row in MODES {
        for other in GUARDS {
            for number in 0..8u8 {
                for value in 0..=255u8 {
                    let mut head = head_with(row.byte, other.byte);
                    head[usize::from(number)] = value;
                    assert_eq!(rt; read_head(&head), changed(row, other, number, value));
                }
            }
        }
    }
}

/// A head that is refused, and the least of its bytes that is not allowed.
#[derive(Clone, Copy)]
struct RefusedHead {
    head: [u8; 8],
    byte: u8,
}

#[test]
fn least_refused_byte(rt: HostRuntime) {
    let rows = [
        RefusedHead {
            head: [0x00, 0x54, 0x43, 0x32, 0x01, 0x04, 0, 0],
            byte: 0,
        },
        RefusedHead {
            head: [0x49, 0x54, 0x42, 0x32, 0x01, 0x04, 0, 0],
            byte: 1,
        },
        RefusedHead {
            head: [0x49, 0x53, 0x63, 0x31, 0x01, 0x04, 0, 0],
            byte: 2,
        },
        RefusedHead {
            head: [0x49, 0x53, 0x43, 0x31, 0x00, 0x04, 0, 0],
            byte: 3,
        },
        RefusedHead {
            head: [0x49, 0x53, 0x43, 0x32, 0x04, 0x05, 0, 0],
            byte: 4,
        },
        RefusedHead {
            head: [0x49, 0x53, 0x43, 0x32, 0x02, 0x40, 0, 0],
            byte: 5,
        },
    ];
    for RefusedHead { head, byte } in rows {
        assert_eq!(rt; read_head(&head), Err(HeadFault { byte }));
    }
}
