//! Input packets among the frames of broadcast packets: how many a frame has, and how many frames late they are received.

use crate::epoch_rows::{DelaysRow, FramesRow};
use crate::streams::{check, check_count, is_null_packet, slot_at};
use std::alloc::Global;
use std::process::Abort;
use std::test::Fail;

/// Whether a slot has a packet of this layer indicator that is no null packet.
fn is_placed(slot: &[u8], indicator: u8) -> bool {
    let layer = slot.get(189).map(|byte| *byte / 16);
    layer == Some(indicator) && !is_null_packet(slot)
}

/// The packets of frames with this layer indicator that are no null packets.
pub fn placed_packets(alloc: Global, frames: &[u8], indicator: u8) -> Result<Vec<u8>, Fail> {
    let mut bytes = Vec::new(alloc);
    for slot in frames.chunks_exact(204) {
        if is_placed(slot, indicator) {
            bytes.extend_from_slice(slot.get(..188).unwrap_or(&[]))?;
        }
    }
    Ok(bytes)
}

/// Adds the packets of a frame to those of the frames before, layer by layer, and checks how many they are.
fn add_placed(
    rt: &impl Abort,
    alloc: Global,
    frame: &[u8],
    placed: &[usize; 3],
    found: &mut [Vec<u8>; 3],
) -> Result<(), Fail> {
    for ((packets, count), indicator) in found.iter_mut().zip(placed).zip([1, 2, 3]) {
        let more = placed_packets(alloc, frame, indicator)?;
        check_count(rt, more.len() / 188, *count);
        packets.extend_from_slice(&more)?;
    }
    Ok(())
}

/// Checks that frames have so many input packets each, and in all those of the inputs in their order. Answers how many
/// frames there are.
pub fn check_frames(
    rt: &impl Abort,
    alloc: Global,
    written: &[u8],
    rows: &[FramesRow],
    inputs: [&[u8]; 3],
) -> Result<usize, Fail> {
    let mut found = [Vec::new(alloc), Vec::new(alloc), Vec::new(alloc)];
    let mut rest = written;
    let mut frames = 0usize;
    for row in rows {
        for _frame in 0..row.frames {
            let size = row.slots.wrapping_mul(204);
            let Some((frame, behind)) = rest.split_at_checked(size) else {
                return Err(Fail::from("a frame is missing"));
            };
            add_placed(rt, alloc, frame, &row.placed, &mut found)?;
            rest = behind;
            frames = frames.wrapping_add(1);
        }
    }
    check(rt, rest.is_empty());
    for (packets, input) in found.iter().zip(inputs) {
        check(rt, packets.as_slice() == input);
    }
    Ok(frames)
}

/// How many slots late the packets of a layer are received, by the indicator of the layer: of no layer none are.
fn slots_late(row: &DelaysRow, indicator: u8) -> Option<usize> {
    let place = usize::from(indicator).checked_sub(1)?;
    let delay = row.delays.get(place)?;
    Some(delay.wrapping_mul(row.slots))
}

/// Whether a slot of an epoch has the packet that was sent so many slots before, or the null packet where none was.
fn is_late(sent: &[u8], number: usize, late: Option<usize>, slot: &[u8]) -> bool {
    let Some(late) = late else {
        return is_null_packet(slot);
    };
    match number.checked_sub(late) {
        Some(from) => slot.get(..188) == slot_at(sent, from).get(..188),
        None => is_null_packet(slot),
    }
}

/// Checks the frames that are received of an epoch against those that were sent in it: each slot is of the same layer and has
/// the same information, and a layer's packets come late.
fn check_epoch(rt: &impl Abort, sent: &[u8], received: &[u8], row: &DelaysRow) {
    let slots = received.chunks_exact(204).zip(sent.chunks_exact(204));
    for (number, (slot, other)) in slots.enumerate() {
        check(rt, slot.get(188..) == other.get(188..));
        let indicator = other.get(189).copied().unwrap_or(0) / 16;
        let late = slots_late(row, indicator);
        check(rt, is_late(sent, number, late, slot));
    }
}

/// Checks the frames that are received against those that were sent, epoch by epoch. Answers how many there are.
pub fn check_delivered(
    rt: &impl Abort,
    sent: &[u8],
    received: &[u8],
    epochs: &[DelaysRow],
) -> Result<usize, Fail> {
    check_count(rt, received.len(), sent.len());
    let mut rest = received;
    let mut frames = 0usize;
    for row in epochs {
        let size = row.frames.wrapping_mul(row.slots).wrapping_mul(204);
        let from = received.len().wrapping_sub(rest.len());
        let Some((epoch, behind)) = rest.split_at_checked(size) else {
            return Err(Fail::from("a frame is missing"));
        };
        let sent_then = sent.get(from..from.wrapping_add(size)).unwrap_or(&[]);
        check_count(rt, sent_then.len(), size);
        check_epoch(rt, sent_then, epoch, row);
        rest = behind;
        frames = frames.wrapping_add(row.frames);
    }
    check(rt, rest.is_empty());
    Ok(frames)
}
