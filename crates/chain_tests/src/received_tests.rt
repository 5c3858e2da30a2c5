//! What comes through all three commands, over plans with switches.

use crate::commands::{receive_headed, send};
use crate::epoch_rows::{DelaysRow, EPOCHS, EpochsRow, RECEIVED};
use crate::placed::{check_delivered, check_frames, placed_packets};
use crate::plans::plan_with;
use crate::streams::{
    CELLS, FRAME, check, check_count, first_frames, frames_behind, marked_inputs, marked_packets,
    slot_at,
};
use crate::words::{receive_single, word_at};
use isdbt_base::{Plan, Writing};
use seg_receiver::ReceiveFault;
use std::alloc::Global;
use std::process::Abort;
use std::test::Fail;
use tmcc_word::{TmccFault, TmccInfo, read_word};

/// Checks that the packets of a row come through all three commands in version 2, each layer's late by its delay, and that
/// no packet is lost.
fn check_received(rt: &impl Abort, alloc: Global, row: &EpochsRow) -> Result<(), Fail> {
    let plan = plan_with(&row.first, row.switches)?;
    let inputs = marked_inputs(alloc, row.packets)?;
    let layers = [
        inputs[0].as_slice(),
        inputs[1].as_slice(),
        inputs[2].as_slice(),
    ];
    let sent = send(alloc, &plan, Writing { v2: true }, layers)?;
    let ended = receive_headed(alloc, sent.cells.bytes())?;
    let received = ended.out.bytes();
    let frames = check_delivered(rt, sent.packets.bytes(), received, row.epochs)?;
    check_count(rt, ended.answer? as usize, frames);
    for (input, indicator) in layers.iter().zip([1, 2, 3]) {
        check(
            rt,
            placed_packets(alloc, received, indicator)?.as_slice() == *input,
        );
    }
    Ok(())
}

#[test]
fn epochs_received(rt: HostRuntime) -> Result<(), Fail> {
    let alloc = rt.alloc();
    for row in &EPOCHS {
        check_received(&rt, alloc, row)?;
    }
    Ok(())
}

/// Checks that the tag of each frame is that of an epoch of 20 frames and of one without an end: whether the frame is odd,
/// whether it begins an epoch, and its countdown.
fn check_tags(rt: &impl Abort, written: &[u8]) {
    for (number, frame) in written.chunks_exact(FRAME).enumerate() {
        let left = if number < 20 { 19 - number } else { 15 };
        let first = u8::from(number == 0 || number == 20);
        let tag = 0xA2 | first << 2 | (number % 2) as u8;
        let countdown = left.min(15) as u8;
        check(
            rt,
            slot_at(frame, 0).get(188..190) == Some([tag, countdown].as_slice()),
        );
    }
}

/// Checks that each word says what the plan does at its frame.
fn check_words(rt: &impl Abort, plan: &Plan, cells: &[u8], frames: u32) {
    for number in 0..frames {
        let at = plan.at(number);
        let info = TmccInfo {
            start_up: false,
            countdown: at.countdown,
            now: at.setting,
            next: at.next,
        };
        let word = word_at(cells, number as usize);
        check(rt, read_word(&word) == Ok((info, number % 2 == 1)));
    }
}

/// In both versions all 3000 packets come, the last 192 in frame 24.
#[test]
fn announced_switch(rt: HostRuntime) -> Result<(), Fail> {
    let alloc = rt.alloc();
    let row = &EPOCHS[0];
    let plan = plan_with(&row.first, row.switches)?;
    let packets = marked_packets(alloc, 3000, 0xAA)?;
    let layers = [packets.as_slice(), &[], &[]];
    let sent = send(alloc, &plan, Writing { v2: false }, layers)?;
    check_tags(&rt, sent.packets.bytes());
    check_count(&rt, sent.cells.bytes().len(), 25 * CELLS);
    check_words(&rt, &plan, sent.cells.bytes(), 25);
    let ended = receive_single(alloc, sent.cells.bytes())?;
    check(&rt, ended.answer == Ok(25));
    check_tags(&rt, ended.out.bytes());
    let frames = check_frames(&rt, alloc, ended.out.bytes(), &RECEIVED, layers)?;
    check_count(&rt, frames, 25);
    Ok(())
}

/// Frames that are cut out of the cells of the announced switch, from one up to another, and why the frame in their place is
/// refused.
struct CutRow {
    from: usize,
    to: usize,
    fault: ReceiveFault,
}

/// Frame 20 behind frame 18, both even; then behind frame 17, whose countdown is 2.
const CUTS: [CutRow; 2] = [
    CutRow {
        from: 19,
        to: 20,
        fault: ReceiveFault::BadTmcc {
            frame: 19,
            reason: TmccFault::Sync,
        },
    },
    CutRow {
        from: 18,
        to: 20,
        fault: ReceiveFault::Unannounced { frame: 18 },
    },
];

#[test]
fn frames_cut_out(rt: HostRuntime) -> Result<(), Fail> {
    let alloc = rt.alloc();
    let row = &EPOCHS[0];
    let plan = plan_with(&row.first, row.switches)?;
    let packets = marked_packets(alloc, 3000, 0xAA)?;
    let sent = send(alloc, &plan, Writing { v2: false }, [&packets, &[], &[]])?;
    for cut in &CUTS {
        let mut cells = first_frames(sent.cells.bytes(), CELLS, cut.from).to_vec(alloc)?;
        cells.extend_from_slice(frames_behind(sent.cells.bytes(), CELLS, cut.to))?;
        let ended = receive_single(alloc, &cells)?;
        check(&rt, ended.answer == Err(cut.fault));
        let before = first_frames(sent.packets.bytes(), FRAME, cut.from);
        let epoch = DelaysRow {
            frames: cut.from,
            slots: 1280,
            delays: [2, 0, 0],
        };
        let frames = check_delivered(&rt, before, ended.out.bytes(), &[epoch])?;
        check_count(&rt, frames, cut.from);
    }
    Ok(())
}
