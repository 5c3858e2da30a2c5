//! What `receive` answers and writes where countdowns end.

use crate::commands::{received, single_cells};
use crate::plans::SINGLE;
use crate::streams::{FRAME, check, check_count, check_null_packets, frame_at, marked_packets};
use crate::words::{COUNTDOWN, Change, changed_cells, information, receive_single};
use model_coder::layer_packets;
use seg_receiver::ReceiveFault;
use std::alloc::Global;
use std::process::Abort;
use std::test::Fail;

/// A change of three frames of a single layer, the countdown of the changed frame, how the receiving ends, and the frames that
/// are written.
struct Switch {
    change: Change,
    countdown: u8,
    answer: Result<u32, u32>,
    frames: usize,
}

/// Countdowns to nothing, to a setting of rate 2/3 and to the present one in the last frame; and frames of rate 2/3 that
/// nothing announced. An `Err` names the frame whose setting nothing announced.
const SWITCHES: [Switch; 9] = [
    Switch {
        change: Change {
            frame: 1,
            is_announced: false,
            bits: COUNTDOWN,
            fits: true,
        },
        countdown: 0,
        answer: Err(2),
        frames: 2,
    },
    Switch {
        change: Change {
            frame: 1,
            is_announced: true,
            bits: &[22, 23, 24, 25, 73],
            fits: true,
        },
        countdown: 0,
        answer: Err(2),
        frames: 2,
    },
    Switch {
        change: Change {
            frame: 0,
            is_announced: false,
            bits: COUNTDOWN,
            fits: true,
        },
        countdown: 0,
        answer: Err(1),
        frames: 1,
    },
    Switch {
        change: Change {
            frame: 1,
            is_announced: false,
            bits: &[33],
            fits: true,
        },
        countdown: 15,
        answer: Err(1),
        frames: 1,
    },
    Switch {
        change: Change {
            frame: 2,
            is_announced: true,
            bits: &[33],
            fits: true,
        },
        countdown: 15,
        answer: Err(2),
        frames: 2,
    },
    Switch {
        change: Change {
            frame: 2,
            is_announced: false,
            bits: COUNTDOWN,
            fits: true,
        },
        countdown: 0,
        answer: Ok(3),
        frames: 3,
    },
    Switch {
        change: Change {
            frame: 2,
            is_announced: true,
            bits: COUNTDOWN,
            fits: true,
        },
        countdown: 0,
        answer: Ok(3),
        frames: 3,
    },
    Switch {
        change: Change {
            frame: 1,
            is_announced: true,
            bits: &[22, 23, 24],
            fits: true,
        },
        countdown: 1,
        answer: Ok(3),
        frames: 3,
    },
    Switch {
        change: Change {
            frame: 1,
            is_announced: false,
            bits: &[22, 23, 24],
            fits: true,
        },
        countdown: 1,
        answer: Ok(3),
        frames: 3,
    },
];

/// The countdown of each slot of a frame, if all are the same.
pub fn countdown_of(frame: &[u8]) -> Option<u8> {
    let countdown = frame.get(189).copied()? % 16;
    let are_same = frame
        .chunks_exact(204)
        .all(|slot| slot[189] % 16 == countdown);
    are_same.then_some(countdown)
}

/// Frames of broadcast packets with countdown 15.
pub fn without_countdown(alloc: Global, frames: &[u8]) -> Result<Vec<u8>, Fail> {
    let mut bytes = frames.to_vec(alloc)?;
    for slot in bytes.chunks_exact_mut(204) {
        slot[189] |= 15;
    }
    Ok(bytes)
}

/// Checks that each frame is written as without the change, but for the countdown of the changed one.
fn check_countdowns(
    rt: &impl Abort,
    alloc: Global,
    row: &Switch,
    written: &[u8],
    whole: &[u8],
) -> Result<(), Fail> {
    let same = without_countdown(alloc, written)?;
    check(
        rt,
        Some(same.as_slice()) == whole.get(..FRAME.wrapping_mul(row.frames)),
    );
    for (number, frame) in written.chunks_exact(FRAME).enumerate() {
        let wanted = if number == row.change.frame {
            row.countdown
        } else {
            15
        };
        check(rt, countdown_of(frame) == Some(wanted));
    }
    Ok(())
}

#[test]
fn countdown_ends_without_a_next_setting(rt: HostRuntime) -> Result<(), Fail> {
    let alloc = rt.alloc();
    let cells = single_cells(alloc)?;
    let (_, whole) = received(alloc, &SINGLE, &cells)?;
    for row in &SWITCHES {
        let ended = receive_single(alloc, &changed_cells(alloc, &cells, &row.change)?)?;
        let answer = match row.answer {
            Ok(count) => Ok(count),
            Err(frame) => Err(ReceiveFault::Unannounced { frame }),
        };
        check(&rt, ended.answer == answer);
        check_countdowns(&rt, alloc, row, ended.out.bytes(), whole.bytes())?;
    }
    Ok(())
}

/// A countdown in frame 1 to the present setting.
const SAME_SETTING: Change = Change {
    frame: 1,
    is_announced: true,
    bits: COUNTDOWN,
    fits: true,
};

/// Frame 2 begins an epoch as frame 0 does.
#[test]
fn countdown_ends_with_the_same_setting(rt: HostRuntime) -> Result<(), Fail> {
    let alloc = rt.alloc();
    let cells = single_cells(alloc)?;
    let (_, whole) = received(alloc, &SINGLE, &cells)?;
    let last = frame_at(whole.bytes(), FRAME, 2);
    check(
        &rt,
        layer_packets(alloc, last, 1)? == marked_packets(alloc, 156, 0x55)?,
    );
    let ended = receive_single(alloc, &changed_cells(alloc, &cells, &SAME_SETTING)?)?;
    check(&rt, ended.answer == Ok(3));
    let written = ended.out.bytes();
    check_count(&rt, written.len(), 783_360);
    check_null_packets(&rt, written);
    for (slot, wanted) in [
        (0, [0xA6, 0x0F]),
        (8, [0xA0, 0x1F]),
        (1280, [0xA3, 0x00]),
        (1288, [0xA1, 0x10]),
        (2560, [0xA6, 0x0F]),
        (2568, [0xA0, 0x1F]),
    ] {
        check(&rt, information(written, slot) == wanted.as_slice());
    }
    check(
        &rt,
        frame_at(written, FRAME, 2) == frame_at(whole.bytes(), FRAME, 0),
    );
    Ok(())
}

/// A countdown in frame 0 to rate 2/3.
const TO_ANOTHER_RATE: Change = Change {
    frame: 0,
    is_announced: true,
    bits: &[22, 23, 24, 25, 73],
    fits: true,
};

/// Frame 1 of rate 2/3.
const OF_ANOTHER_RATE: Change = Change {
    frame: 1,
    is_announced: false,
    bits: &[33],
    fits: true,
};

/// Frame 0 announces rate 2/3, which frame 1 has; frame 2, of rate 1/2, nothing announced.
#[test]
fn countdown_ends_with_another_setting(rt: HostRuntime) -> Result<(), Fail> {
    let alloc = rt.alloc();
    let cells = changed_cells(alloc, &single_cells(alloc)?, &TO_ANOTHER_RATE)?;
    let cells = changed_cells(alloc, &cells, &OF_ANOTHER_RATE)?;
    let ended = receive_single(alloc, &cells)?;
    check(
        &rt,
        ended.answer == Err(ReceiveFault::Unannounced { frame: 2 }),
    );
    let written = ended.out.bytes();
    check_count(&rt, written.len(), 2 * FRAME);
    check_null_packets(&rt, written);
    check(&rt, information(written, 0) == [0xA6, 0x00].as_slice());
    check(&rt, information(written, 1280) == [0xA7, 0x0F].as_slice());
    for (number, count) in [(0, 156), (1, 208)] {
        let packets = layer_packets(alloc, frame_at(written, FRAME, number), 1)?;
        check_count(&rt, packets.len(), 188 * count);
    }
    Ok(())
}
