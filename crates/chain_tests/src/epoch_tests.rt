//! Plans with switches: what `remux` writes and leaves of its inputs.

use crate::commands::{LayerInputs, ROOM, RemuxEnd, remux_plan};
use crate::end_rows::{ENDS, WRONG};
use crate::epoch_rows::EPOCHS;
use crate::placed::check_frames;
use crate::plans::{SINGLE, SwitchRow, plan_with};
use crate::streams::{FRAME, check, check_count, marked_inputs, marked_packets};
use edge_io::MemorySink;
use isdbt_base::Plan;
use std::process::Abort;
use std::test::Fail;

#[test]
fn epochs_of_remux(rt: HostRuntime) -> Result<(), Fail> {
    let alloc = rt.alloc();
    for row in &EPOCHS {
        let plan = plan_with(&row.first, row.switches)?;
        let [a, b, c] = marked_inputs(alloc, row.packets)?;
        let inputs = LayerInputs {
            layers: [&a, &b, &c],
            fails_from: u64::MAX,
        };
        let out = MemorySink::new(alloc, ROOM)?;
        let ended = remux_plan(alloc, &plan, &inputs, 1000, out)?;
        let frames = check_frames(&rt, alloc, ended.out.bytes(), row.frames, inputs.layers)?;
        check_count(&rt, ended.left, 0);
        check_count(&rt, ended.answer? as usize, frames);
    }
    Ok(())
}

/// The plan of a single layer with a switch to the same at frame 3.
fn twice_single() -> Result<Plan, Fail> {
    let switch = SwitchRow {
        frame: 3,
        to: SINGLE,
    };
    plan_with(&SINGLE, &[switch])
}

/// Checks how many frames of mode 1 were written, and how many bytes of layer A's input are left.
fn check_end(rt: &impl Abort, ended: &RemuxEnd, frames: usize, left: usize) {
    check_count(rt, ended.out.bytes().len(), FRAME.wrapping_mul(frames));
    check_count(rt, ended.left, left);
}

#[test]
fn ends_over_epochs(rt: HostRuntime) -> Result<(), Fail> {
    let alloc = rt.alloc();
    let plan = twice_single()?;
    for row in &ENDS {
        let packets = marked_packets(alloc, row.packets, 0xAA)?;
        let inputs = LayerInputs {
            layers: [&packets, &[], &[]],
            fails_from: row.fails_from,
        };
        let out = MemorySink::new(alloc, ROOM)?;
        let limit = row.limit.clamp(1, 1000);
        let ended = remux_plan(alloc, &plan, &inputs, limit, out)?;
        check(&rt, ended.answer == row.answer);
        check_end(&rt, &ended, row.frames, row.left);
    }
    Ok(())
}

#[test]
fn refused_over_epochs(rt: HostRuntime) -> Result<(), Fail> {
    let alloc = rt.alloc();
    let plan = twice_single()?;
    for row in &WRONG {
        let mut packets = marked_packets(alloc, 200, 0xAA)?;
        if let Some(byte) = packets.get_mut(row.packet.wrapping_mul(188)) {
            *byte = 0;
        }
        let whole = packets.len().wrapping_sub(row.missing);
        let inputs = LayerInputs {
            layers: [packets.get(..whole).unwrap_or(&[]), &[], &[]],
            fails_from: u64::MAX,
        };
        let mut out = MemorySink::new(alloc, ROOM)?;
        out.fail_from(row.writes_until);
        let ended = remux_plan(alloc, &plan, &inputs, 1000, out)?;
        check(&rt, ended.answer == Err(row.answer));
        check_end(&rt, &ended, row.frames, row.left);
    }
    Ok(())
}
