//! What `show_bts` writes, mostly of what `remux` writes, and what it leaves of its input.

use crate::commands::{
    LIMIT, LayerInputs, LoneInput, ROOM, remux_plan, show_packets, whole, wide_stream,
};
use crate::head_tests::changed_stream;
use crate::plans::{PARTIAL_AND_WIDE, SINGLE, SwitchRow, THREE_QUARTERS, plan_with};
use crate::show_bts_rows::{LINES, SHOWN, ShowRow};
use crate::streams::{FRAME, WIDE_FRAME, check, check_count, marked_packets};
use coder_core::CodeFault;
use edge_io::MemorySink;
use std::alloc::Global;
use std::process::Abort;
use std::test::Fail;

/// The first of the seven lines, one behind the other.
fn first_lines(alloc: Global, count: usize) -> Result<Vec<u8>, Fail> {
    let mut bytes = Vec::new(alloc);
    for line in LINES.iter().take(count) {
        bytes.extend_from_slice(line.as_bytes())?;
    }
    Ok(bytes)
}

/// Frames of a partial and a wide layer behind the packet in slot 1 of the first, as often as told.
fn behind(alloc: Global, passed: usize, frames: &[u8]) -> Result<Vec<u8>, Fail> {
    let mut bytes = Vec::new(alloc);
    for _packet in 0..passed {
        bytes.extend_from_slice(frames.get(204..408).unwrap_or(&[]))?;
    }
    bytes.extend_from_slice(frames)?;
    Ok(bytes)
}

/// Checks how the listing of frames ends, behind packets and changed as a row says.
fn check_row(rt: &impl Abort, alloc: Global, row: &ShowRow, frames: &[u8]) -> Result<(), Fail> {
    let stream = behind(alloc, row.passed, frames)?;
    let changed = changed_stream(alloc, &stream, row.bytes, row.changes)?;
    let input = LoneInput {
        stream: &changed,
        pieces: row.pieces,
        fails_from: row.read_fails_from,
    };
    let mut out = MemorySink::new(alloc, ROOM)?;
    out.fail_from(row.write_fails_from);
    let limit = row.limit.clamp(1, LIMIT);
    let ended = show_packets(alloc, &PARTIAL_AND_WIDE, limit, &input, out)?;
    check(rt, ended.answer == row.answer);
    check(
        rt,
        ended.out.bytes() == first_lines(alloc, row.lines)?.as_slice(),
    );
    check_count(rt, ended.left, row.left);
    Ok(())
}

#[test]
fn changed_streams_listed(rt: HostRuntime) -> Result<(), Fail> {
    let alloc = rt.alloc();
    let (_, frames) = wide_stream(alloc, &PARTIAL_AND_WIDE)?;
    check_count(&rt, frames.bytes().len(), 7 * WIDE_FRAME);
    for row in &SHOWN {
        check_row(&rt, alloc, row, frames.bytes())?;
    }
    Ok(())
}

/// The line that reaches past the room is written up to there.
#[test]
fn line_cut_at_the_room(rt: HostRuntime) -> Result<(), Fail> {
    let alloc = rt.alloc();
    let (_, frames) = wide_stream(alloc, &PARTIAL_AND_WIDE)?;
    let out = MemorySink::new(alloc, 60)?;
    let ended = show_packets(alloc, &PARTIAL_AND_WIDE, LIMIT, &whole(frames.bytes()), out)?;
    check(&rt, ended.answer == Err(CodeFault::WriteFault));
    let front = "frame 0 even countdown 15 A 64 B 2592 C 0 none 1952\nframe 1 ";
    check(&rt, ended.out.bytes() == front.as_bytes());
    check_count(&rt, ended.left, 5 * WIDE_FRAME);
    Ok(())
}

/// A byte that stands in each of some slots behind slot 0, and how many slots these are.
struct SlotsRow {
    information: u8,
    slots: usize,
}

/// Indicators of the layers, of none, and such as name none; and a countdown that is not that of slot 0.
const SLOTS: [SlotsRow; 5] = [
    SlotsRow {
        information: 0x13,
        slots: 10,
    },
    SlotsRow {
        information: 0x23,
        slots: 200,
    },
    SlotsRow {
        information: 0x33,
        slots: 30,
    },
    SlotsRow {
        information: 0x43,
        slots: 5,
    },
    SlotsRow {
        information: 0xF3,
        slots: 7,
    },
];

/// Sets a byte of the packet in a slot.
fn set(frame: &mut [u8], slot: usize, at: usize, value: u8) {
    if let Some(byte) = frame.get_mut(slot.wrapping_mul(204).wrapping_add(at)) {
        *byte = value;
    }
}

/// A frame of 1280 slots. Slot 0 is of an odd frame with countdown 9 and names no layer, and those of the rows follow.
fn made_frame(alloc: Global) -> Result<Vec<u8>, Fail> {
    let mut frame = vec![in alloc; 0; FRAME]?;
    for slot in 0..1280 {
        set(&mut frame, slot, 0, 0x47);
        set(&mut frame, slot, 189, 0x03);
    }
    set(&mut frame, 0, 188, 0x03);
    set(&mut frame, 0, 189, 0x09);
    let mut slot = 1usize;
    for row in &SLOTS {
        for _slot in 0..row.slots {
            set(&mut frame, slot, 189, row.information);
            slot = slot.wrapping_add(1);
        }
    }
    Ok(frame)
}

/// Whatever the counts of a frame, they are shown: 10, 200, 30 and the 1040 others.
#[test]
fn slots_of_each_layer(rt: HostRuntime) -> Result<(), Fail> {
    let alloc = rt.alloc();
    let frame = made_frame(alloc)?;
    let out = MemorySink::new(alloc, ROOM)?;
    let ended = show_packets(alloc, &SINGLE, LIMIT, &whole(&frame), out)?;
    check(&rt, ended.answer == Ok(1));
    let line = "frame 0 odd countdown 9 A 10 B 200 C 30 none 1040\n";
    check(&rt, ended.out.bytes() == line.as_bytes());
    Ok(())
}

/// The line of a frame of a plan that switches at frame 20 from 156 packets of layer A to 234.
fn switch_line(alloc: Global, frame: u32) -> Result<String, Fail> {
    let parity = if frame % 2 == 1 { "odd" } else { "even" };
    let countdown = if (5..20).contains(&frame) {
        19 - frame
    } else {
        15
    };
    let a = if frame < 20 { 156 } else { 234 };
    Ok(format!(in alloc;
        "frame {frame} {parity} countdown {countdown} A {a} B 0 C 0 none {}\n",
        1280 - a
    )?)
}

/// The lines of its first frames.
fn switch_lines(alloc: Global, frames: u32) -> Result<Vec<u8>, Fail> {
    let mut bytes = Vec::new(alloc);
    for frame in 0..frames {
        bytes.extend_from_slice(switch_line(alloc, frame)?.as_bytes())?;
    }
    Ok(bytes)
}

#[test]
fn countdown_over_a_switch(rt: HostRuntime) -> Result<(), Fail> {
    let alloc = rt.alloc();
    let switch = SwitchRow {
        frame: 20,
        to: THREE_QUARTERS,
    };
    let plan = plan_with(&SINGLE, &[switch])?;
    let packets = marked_packets(alloc, 3000, 0xAA)?;
    let inputs = LayerInputs {
        layers: [&packets, &[], &[]],
        fails_from: u64::MAX,
    };
    let sent = remux_plan(alloc, &plan, &inputs, LIMIT, MemorySink::new(alloc, ROOM)?)?;
    let frames = sent.answer?;
    check(&rt, frames > 20);
    let out = MemorySink::new(alloc, ROOM)?;
    let ended = show_packets(alloc, &SINGLE, LIMIT, &whole(sent.out.bytes()), out)?;
    check(&rt, ended.answer == Ok(frames));
    check(
        &rt,
        ended.out.bytes() == switch_lines(alloc, frames)?.as_slice(),
    );
    Ok(())
}
