//! What `receive` says of the heads of streams of version 2, and of where these end or fail.

use crate::commands::{LoneInput, ROOM, plain, receive_headed, receive_stream, send, single_cells};
use crate::epoch_rows::EPOCHS;
use crate::head_rows::{CHANGED_HEADS, CUT_STREAMS, ChangedByte, HeadRow, OUTSIDE};
use crate::placed::placed_packets;
use crate::plans::plan_with;
use crate::streams::{FRAME, HEADED, check, check_count, first_frames, marked_packets, with_heads};
use edge_io::MemorySink;
use isdbt_base::{Form, Writing};
use seg_receiver::ReceiveFault;
use std::alloc::Global;
use std::process::Abort;
use std::test::Fail;
use tmcc_word::TmccFault;

/// The front of a stream with changed bytes.
pub fn changed_stream(
    alloc: Global,
    stream: &[u8],
    bytes: usize,
    changes: &[ChangedByte],
) -> Result<Vec<u8>, Fail> {
    let mut changed = stream.get(..bytes).unwrap_or(stream).to_vec(alloc)?;
    for change in changes {
        if let Some(byte) = changed.get_mut(change.at) {
            *byte = change.byte;
        }
    }
    Ok(changed)
}

/// Checks how the receiving of changed streams ends, and that the frames that are written are those of the stream that isn't
/// changed.
fn check_changed(rt: &impl Abort, alloc: Global, rows: &[HeadRow]) -> Result<(), Fail> {
    let cells = with_heads(alloc, &single_cells(alloc)?)?;
    let whole = receive_headed(alloc, &cells)?;
    check(rt, whole.answer == Ok(3));
    for row in rows {
        let changed = changed_stream(alloc, &cells, row.bytes, row.changes)?;
        let ended = receive_headed(alloc, &changed)?;
        check(rt, ended.answer == row.answer);
        let front = first_frames(whole.out.bytes(), FRAME, row.frames);
        check(rt, ended.out.bytes() == front);
    }
    Ok(())
}

#[test]
fn heads_received(rt: HostRuntime) -> Result<(), Fail> {
    let alloc = rt.alloc();
    check_changed(&rt, alloc, &CHANGED_HEADS)?;
    check_changed(&rt, alloc, &CUT_STREAMS)
}

/// Changed heads of the stream whose mode changes; how its receiving ends, the bytes that are written, and how many of the packets
/// are among them.
struct SwitchHeadRow {
    changes: &'static [ChangedByte],
    answer: Result<u32, ReceiveFault>,
    written: usize,
    packets: usize,
}

/// Where frames 4 to 6 begin, those of mode 2.
const FOURTH: usize = 4 * HEADED;

const FIFTH: usize = FOURTH + 1_018_580;

const SIXTH: usize = FIFTH + 1_018_580;

/// A frame within an epoch has the mode and the guard interval of the one before. The first frame of an epoch may have any that are
/// allowed: other modes are those of other symbols, and with guard intervals 1/4 and 1/32 there are 2560 and 2112 slots.
const SWITCH_HEADS: [SwitchHeadRow; 8] = [
    SwitchHeadRow {
        changes: &[ChangedByte {
            at: FIFTH + 4,
            byte: 0x01,
        }],
        answer: Err(ReceiveFault::BadHead { frame: 5, byte: 4 }),
        written: 1_514_496,
        packets: 312,
    },
    SwitchHeadRow {
        changes: &[ChangedByte {
            at: FIFTH + 5,
            byte: 0x04,
        }],
        answer: Err(ReceiveFault::BadHead { frame: 5, byte: 5 }),
        written: 1_514_496,
        packets: 312,
    },
    SwitchHeadRow {
        changes: &[ChangedByte {
            at: 3 * HEADED + 4,
            byte: 0x02,
        }],
        answer: Err(ReceiveFault::BadHead { frame: 3, byte: 4 }),
        written: 783_360,
        packets: 156,
    },
    SwitchHeadRow {
        changes: &[ChangedByte {
            at: FOURTH + 4,
            byte: 0x04,
        }],
        answer: Err(ReceiveFault::BadHead { frame: 4, byte: 4 }),
        written: 1_044_480,
        packets: 312,
    },
    SwitchHeadRow {
        changes: &[ChangedByte {
            at: FOURTH + 4,
            byte: 0x01,
        }],
        answer: Err(ReceiveFault::BadTmcc {
            frame: 4,
            reason: TmccFault::Sync,
        }),
        written: 1_044_480,
        packets: 312,
    },
    SwitchHeadRow {
        changes: &[ChangedByte {
            at: FOURTH + 4,
            byte: 0x03,
        }],
        answer: Err(ReceiveFault::BadTmcc {
            frame: 4,
            reason: TmccFault::Sync,
        }),
        written: 1_044_480,
        packets: 312,
    },
    SwitchHeadRow {
        changes: &[ChangedByte {
            at: FOURTH + 5,
            byte: 0x04,
        }],
        answer: Err(ReceiveFault::BadHead { frame: 5, byte: 5 }),
        written: 1_566_720,
        packets: 312,
    },
    SwitchHeadRow {
        changes: &[
            ChangedByte {
                at: FOURTH + 5,
                byte: 0x20,
            },
            ChangedByte {
                at: FIFTH + 5,
                byte: 0x20,
            },
            ChangedByte {
                at: SIXTH + 5,
                byte: 0x20,
            },
        ],
        answer: Ok(7),
        written: 2_337_024,
        packets: 400,
    },
];

#[test]
fn heads_over_a_switch(rt: HostRuntime) -> Result<(), Fail> {
    let alloc = rt.alloc();
    let row = &EPOCHS[1];
    let plan = plan_with(&row.first, row.switches)?;
    let packets = marked_packets(alloc, row.packets[0], 0xAA)?;
    let sent = send(alloc, &plan, Writing { v2: true }, [&packets, &[], &[]])?;
    let cells = sent.cells.bytes();
    for row in &SWITCH_HEADS {
        let changed = changed_stream(alloc, cells, cells.len(), row.changes)?;
        let ended = receive_headed(alloc, &changed)?;
        check(&rt, ended.answer == row.answer);
        let written = ended.out.bytes();
        check_count(&rt, written.len(), row.written);
        let front = first_frames(&packets, 188, row.packets);
        check(&rt, placed_packets(alloc, written, 1)?.as_slice() == front);
    }
    Ok(())
}

/// What was written is whole frames, those of the receiving in which nothing fails, and nothing past the frame in work was taken.
#[test]
fn outside_of_receive(rt: HostRuntime) -> Result<(), Fail> {
    let alloc = rt.alloc();
    let cells = with_heads(alloc, &single_cells(alloc)?)?;
    let whole = receive_headed(alloc, &cells)?;
    check_count(&rt, whole.out.bytes().len(), 3 * FRAME);
    for row in &OUTSIDE {
        let input = LoneInput {
            stream: &cells,
            pieces: row.pieces,
            fails_from: row.reads_until,
        };
        let mut out = MemorySink::new(alloc, ROOM)?;
        out.fail_from(row.writes_until);
        let limit = row.limit.clamp(1, 1000);
        let ended = receive_stream(alloc, plain(Form::V2), limit, &input, out)?;
        check(&rt, ended.answer == row.answer);
        check_count(&rt, ended.left, row.left);
        let front = first_frames(whole.out.bytes(), FRAME, row.frames);
        check(&rt, ended.out.bytes() == front);
    }
    Ok(())
}
