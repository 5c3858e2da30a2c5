//! Partial reception: layer A alone, from segment 0.

ghost use Rattle.std.specs.Prelude.{◌≡◌, length, IfOk};
ghost use Rattle.isdbt_base.specs.declared.kinds.Mode.TheVariants.{M1 as first_mode};
ghost use Rattle.seg_receiver.specs.PartialReceiver.{mode_of, symbols_of};

use crate::commands::{LoneInput, ROOM, plain, receive_part, send, single_cells, whole};
use crate::head_tests::changed_stream;
use crate::partial_rows::{PARTIAL, PARTIAL_ENDS, PARTIAL_EPOCHS, PartialRow};
use crate::plans::{PARTIAL_AND_WIDE, SINGLE, plan_of, plan_with};
use crate::streams::{
    CELLS, SYMBOL, WIDE_CELLS, among_nulls, check, check_count, first_frames, frame_at,
    marked_packets,
};
use crate::words::{COUNTDOWN, Change, changed_cells};
use cell_map::Cell;
use edge_io::MemorySink;
use isdbt_base::{DepthCode, Form, LayerSetting, Mode, Modulation, Plan, Rate, Writing};
use seg_receiver::{PartialReceiver, ReceiveFault};
use std::alloc::Global;
use std::process::Abort;
use std::test::Fail;

/// Checks that partial reception of all frames of a stream of this version writes these packets.
fn check_part(
    rt: &impl Abort,
    alloc: Global,
    form: Form,
    cells: &[u8],
    frames: u32,
    packets: &[u8],
) -> Result<(), Fail> {
    let out = MemorySink::new(alloc, ROOM)?;
    let ended = receive_part(alloc, plain(form), &whole(cells), out)?;
    check(rt, ended.answer == Ok(frames));
    check(rt, ended.out.bytes() == packets);
    Ok(())
}

/// Overwrites the cells of segments 1 to 12 of mode 3.
fn overwrite_other_segments(cells: &mut [u8]) {
    for symbol in cells.chunks_exact_mut(9985) {
        for byte in symbol.iter_mut().skip(769) {
            *byte = 0x80;
        }
    }
}

/// What is written is layer A's input, whatever the other segments hold.
#[test]
fn partial_reception_alone(rt: HostRuntime) -> Result<(), Fail> {
    let alloc = rt.alloc();
    let row = &PARTIAL_AND_WIDE;
    let packets = marked_packets(alloc, 64, 0xAA)?;
    check_count(&rt, packets.len(), 12_032);
    let how = Writing { v2: false };
    let sent = send(alloc, &plan_of(row)?, how, [&packets, &[], &[]])?;
    let mut cells = sent.cells.bytes().to_vec(alloc)?;
    check_count(&rt, cells.len(), 5 * WIDE_CELLS);
    let form = Form::V1 {
        mode: row.mode,
        guard: row.guard,
    };
    check_part(&rt, alloc, form, &cells, 5, &packets)?;
    overwrite_other_segments(&mut cells);
    check_part(&rt, alloc, form, &cells, 5, &packets)
}

/// The form of a plan's cells in version 1.
pub fn first_form(plan: &Plan) -> Form {
    Form::V1 {
        mode: plan.mode(),
        guard: plan.guard(),
    }
}

/// Checks what partial reception writes of a row in version 2, and in version 1 where it has one mode and guard interval.
fn check_epochs(rt: &impl Abort, alloc: Global, row: &PartialRow) -> Result<(), Fail> {
    let plan = plan_with(&row.first, row.switches)?;
    let packets = marked_packets(alloc, row.packets, 0xAA)?;
    let layers = [packets.as_slice(), &[], &[]];
    let wanted = among_nulls(alloc, 0, &packets, row.nulls)?;
    let sent = send(alloc, &plan, Writing { v2: true }, layers)?;
    check_part(rt, alloc, Form::V2, sent.cells.bytes(), row.frames, &wanted)?;
    if plan.changes_mode() {
        return Ok(());
    }
    let form = first_form(&plan);
    let sent = send(alloc, &plan, Writing { v2: false }, layers)?;
    check_part(rt, alloc, form, sent.cells.bytes(), row.frames, &wanted)
}

#[test]
fn partial_over_switches(rt: HostRuntime) -> Result<(), Fail> {
    let alloc = rt.alloc();
    for row in &PARTIAL_EPOCHS {
        check_epochs(&rt, alloc, row)?;
    }
    Ok(())
}

/// Of 32 packets of layer A, which come with the last two of four frames, so many are written; reads give a byte each.
#[test]
fn partial_ends(rt: HostRuntime) -> Result<(), Fail> {
    let alloc = rt.alloc();
    let packets = marked_packets(alloc, 32, 0xAA)?;
    let how = Writing { v2: true };
    let sent = send(alloc, &plan_of(&PARTIAL)?, how, [&packets, &[], &[]])?;
    for row in &PARTIAL_ENDS {
        let stream = changed_stream(alloc, sent.cells.bytes(), row.bytes, row.changes)?;
        let input = LoneInput {
            stream: &stream,
            pieces: 1,
            fails_from: row.reads_until,
        };
        let mut out = MemorySink::new(alloc, ROOM)?;
        out.fail_from(row.writes_until);
        let ended = receive_part(alloc, plain(Form::V2), &input, out)?;
        check(&rt, ended.answer == row.answer);
        check_count(&rt, ended.left, row.left);
        let front = first_frames(&packets, 188, row.packets);
        check(&rt, ended.out.bytes() == front);
    }
    Ok(())
}

/// The flag cleared in a frame's word.
fn clear_flag(alloc: Global, cells: &[u8], frame: usize) -> Result<Vec<u8>, Fail> {
    let change = Change {
        frame,
        is_announced: false,
        bits: &[27],
        fits: true,
    };
    changed_cells(alloc, cells, &change)
}

/// Checks that partial reception of a stream of version 1 is refused at its start, with nothing written.
fn check_refused(
    rt: &impl Abort,
    alloc: Global,
    cells: &[u8],
    fault: ReceiveFault,
) -> Result<(), Fail> {
    let form = first_form(&plan_of(&SINGLE)?);
    let out = MemorySink::new(alloc, ROOM)?;
    let ended = receive_part(alloc, plain(form), &whole(cells), out)?;
    check(rt, ended.answer == Err(fault));
    check(rt, ended.out.bytes().is_empty());
    Ok(())
}

/// A countdown to the present setting without the flag.
const TO_NO_FLAG: Change = Change {
    frame: 0,
    is_announced: true,
    bits: &[22, 23, 24, 25, 67],
    fits: true,
};

/// Frames without the flag: of a single layer; the first frame; another, which nothing announced; one that was announced.
#[test]
fn no_partial_reception(rt: HostRuntime) -> Result<(), Fail> {
    let alloc = rt.alloc();
    let single = single_cells(alloc)?;
    check_refused(&rt, alloc, &single, ReceiveFault::NotPartial { frame: 0 })?;
    let packets = marked_packets(alloc, 16, 0xAA)?;
    let how = Writing { v2: false };
    let sent = send(alloc, &plan_of(&PARTIAL)?, how, [&packets, &[], &[]])?;
    let cells = sent.cells.bytes();
    let first = clear_flag(alloc, cells, 0)?;
    check_refused(&rt, alloc, &first, ReceiveFault::NotPartial { frame: 0 })?;
    let second = clear_flag(alloc, cells, 1)?;
    check_refused(&rt, alloc, &second, ReceiveFault::Unannounced { frame: 1 })?;
    let announced = changed_cells(alloc, &second, &TO_NO_FLAG)?;
    check_refused(
        &rt,
        alloc,
        &announced,
        ReceiveFault::NotPartial { frame: 1 },
    )
}

/// The cells of segment 0 in a symbol of mode 1.
fn segment_cells(symbol: &[u8]) -> [Cell; 96]
    ensures { length result ≡ 96 }
{
    let mut cells = [Cell { i: 0, q: 0 }; 96];
    let pairs = symbol.get(1..).unwrap_or(&[]).chunks_exact(2);
    for (cell, pair) in cells.iter_mut().zip(pairs) {
        if let [i, q] = pair {
            *cell = Cell {
                i: i.cast_signed(),
                q: q.cast_signed(),
            };
        }
    }
    cells
}

/// Feeds a receiver the cells of segment 0 in a frame of mode 1.
fn feed_segment(receiver: &mut PartialReceiver, frame: &[u8])
    requires mode { mode_of receiver.old ≡ first_mode }
    requires fresh { symbols_of receiver.old ≡ 0 }
    ensures mode { mode_of receiver.new ≡ first_mode }
    ensures symbols { symbols_of receiver.new ≡ 204 }
{
    for k in 0..204 {
        let cells = segment_cells(frame_at(frame, SYMBOL, k));
        receiver.symbol(&cells);
    }
}

/// Whether a receiver gives out packets after a frame of mode 1, and what then stands in a buffer of bytes 7.
fn give(
    alloc: Global,
    receiver: &mut PartialReceiver,
    frame: &[u8],
) -> Result<(bool, Vec<u8>), Fail>
    requires mode { mode_of receiver.old ≡ first_mode }
    requires fresh { symbols_of receiver.old ≡ 0 }
    ensures mode { IfOk result (λ r. mode_of receiver.new ≡ first_mode) }
    ensures fresh { IfOk result (λ r. symbols_of receiver.new ≡ 0) }
{
    let mut out = vec![in alloc; 7; 16 * 188]?;
    feed_segment(receiver, frame);
    if receiver.frame_bytes() != out.len() {
        return Err(Fail::from("another count of packets"));
    }
    let given = receiver.frame(&mut out);
    Ok((given, out))
}

/// In the first two frames, as many as the delay, nothing is given out and the buffer stays.
#[test]
fn partial_receiver_alone(rt: HostRuntime) -> Result<(), Fail> {
    let alloc = rt.alloc();
    let packets = marked_packets(alloc, 32, 0xAA)?;
    let how = Writing { v2: false };
    let sent = send(alloc, &plan_of(&PARTIAL)?, how, [&packets, &[], &[]])?;
    let cells = sent.cells.bytes();
    let Some(layer) = LayerSetting::new(1, Modulation::Qpsk, Rate::R23, DepthCode::D0) else {
        return Err(Fail::from("one segment is refused"));
    };
    let mut receiver = PartialReceiver::open(alloc, &layer, Mode::M1)?;
    let kept = vec![in alloc; 7; 16 * 188]?;
    let first = give(alloc, &mut receiver, frame_at(cells, CELLS, 0))?;
    check(&rt, !first.0 && first.1 == kept);
    let second = give(alloc, &mut receiver, frame_at(cells, CELLS, 1))?;
    check(&rt, !second.0 && second.1 == kept);
    let third = give(alloc, &mut receiver, frame_at(cells, CELLS, 2))?;
    check(
        &rt,
        third.0 && third.1.as_slice() == frame_at(&packets, 3008, 0),
    );
    let fourth = give(alloc, &mut receiver, frame_at(cells, CELLS, 3))?;
    check(
        &rt,
        fourth.0 && fourth.1.as_slice() == frame_at(&packets, 3008, 1),
    );
    Ok(())
}
