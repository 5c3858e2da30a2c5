//! What `show_cells` writes of streams of cells.

use crate::commands::{
    LIMIT, LoneInput, ROOM, plain, receive_into, send, show_stream, single_cells, whole,
};
use crate::head_tests::changed_stream;
use crate::partial_tests::first_form;
use crate::plans::{PARTIAL_AND_WIDE, SINGLE, THREE_QUARTERS, plan_of, plan_with};
use crate::show_cells_rows::{
    CUT_LINES, LISTINGS, SINGLE_LINES, SWITCH_LINES, THERE_AND_BACK, TWO_LAYER_LINES, TWO_SWITCHES,
    WORDS,
};
use crate::streams::{
    CELLS, check, check_count, first_frames, frames_behind, marked_packets, with_heads,
};
use crate::words::changed_cells;
use edge_io::MemorySink;
use isdbt_base::{Form, Writing};
use seg_receiver::ReceiveFault;
use std::alloc::Global;
use std::process::Abort;
use std::test::Fail;

/// Checks that all frames of a stream are listed by these lines.
pub fn check_lines(
    rt: &impl Abort,
    alloc: Global,
    form: Form,
    cells: &[u8],
    lines: &[&str],
) -> Result<(), Fail> {
    let mut wanted = Vec::new(alloc);
    for line in lines {
        wanted.extend_from_slice(line.as_bytes())?;
    }
    let out = MemorySink::new(alloc, ROOM)?;
    let ended = show_stream(alloc, plain(form), LIMIT, &whole(cells), out)?;
    check_count(rt, ended.answer? as usize, lines.len());
    check(rt, ended.out.bytes() == wanted.as_slice());
    Ok(())
}

#[test]
fn two_layers_listed(rt: HostRuntime) -> Result<(), Fail> {
    let alloc = rt.alloc();
    let plan = plan_of(&PARTIAL_AND_WIDE)?;
    let packets = marked_packets(alloc, 64, 0xAA)?;
    for (v2, form) in [(false, first_form(&plan)), (true, Form::V2)] {
        let sent = send(alloc, &plan, Writing { v2 }, [&packets, &[], &[]])?;
        check_lines(&rt, alloc, form, sent.cells.bytes(), &TWO_LAYER_LINES)?;
    }
    Ok(())
}

/// The settings of each frame in its own mode, the countdown before the switch, and a head of another mode behind it.
#[test]
fn switch_listed(rt: HostRuntime) -> Result<(), Fail> {
    let alloc = rt.alloc();
    let plan = plan_with(&THREE_QUARTERS, &TWO_SWITCHES)?;
    let sent = send(alloc, &plan, Writing { v2: true }, [&[], &[], &[]])?;
    check_lines(&rt, alloc, Form::V2, sent.cells.bytes(), &SWITCH_LINES)
}

/// Reads give at most 4000 bytes each.
#[test]
fn listings_end(rt: HostRuntime) -> Result<(), Fail> {
    let alloc = rt.alloc();
    let cells = with_heads(alloc, &single_cells(alloc)?)?;
    for row in &LISTINGS {
        let stream = changed_stream(alloc, &cells, row.bytes, row.changes)?;
        let input = LoneInput {
            stream: &stream,
            pieces: 4000,
            fails_from: row.reads_until,
        };
        let mut out = MemorySink::new(alloc, row.room)?;
        out.fail_from(row.writes_until);
        let ended = show_stream(
            alloc,
            plain(Form::V2),
            row.limit.clamp(1, LIMIT),
            &input,
            out,
        )?;
        check(&rt, ended.answer == row.answer);
        check_count(&rt, ended.left, row.left);
        check(
            &rt,
            Some(ended.out.bytes()) == SINGLE_LINES.as_bytes().get(..row.written),
        );
    }
    Ok(())
}

#[test]
fn words_listed(rt: HostRuntime) -> Result<(), Fail> {
    let alloc = rt.alloc();
    let cells = single_cells(alloc)?;
    for row in &WORDS {
        let changed = with_heads(alloc, &changed_cells(alloc, &cells, &row.change)?)?;
        check_lines(&rt, alloc, Form::V2, &changed, &row.lines)?;
    }
    Ok(())
}

/// Where frames are cut out `receive` refuses a frame, and each is listed.
#[test]
fn cut_out_listed(rt: HostRuntime) -> Result<(), Fail> {
    let alloc = rt.alloc();
    let plan = plan_with(&SINGLE, &THERE_AND_BACK)?;
    let sent = send(alloc, &plan, Writing { v2: false }, [&[], &[], &[]])?;
    let mut cells = first_frames(sent.cells.bytes(), CELLS, 1).to_vec(alloc)?;
    cells.extend_from_slice(frames_behind(sent.cells.bytes(), CELLS, 3))?;
    let out = MemorySink::new(alloc, ROOM)?;
    let ended = receive_into(alloc, SINGLE.mode, SINGLE.guard, &cells, out)?;
    check(
        &rt,
        ended.answer == Err(ReceiveFault::Unannounced { frame: 1 }),
    );
    check_lines(&rt, alloc, first_form(&plan), &cells, &CUT_LINES)
}
