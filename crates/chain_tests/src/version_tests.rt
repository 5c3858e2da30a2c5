//! Streams of cells of version 2, and codings whose reads or writes fail.

use crate::commands::{LoneInput, ROOM, code_plan, receive_headed, remuxed, send, whole};
use crate::epoch_rows::{EPOCHS, RECEIVED_MODES};
use crate::placed::check_frames;
use crate::plans::{SINGLE, plan_of, plan_with};
use crate::streams::{
    CELLS, FRAME, HEAD, HEADED, check, check_count, first_frames, frames_behind, marked_packets,
    with_heads,
};
use crate::words::receive_single;
use coder_core::CodeFault;
use edge_io::{MemorySink, Seat};
use isdbt_base::Writing;
use std::process::Abort;
use std::test::Fail;

/// Checks that frames of this many bytes have this head, and answers how many there are.
fn check_heads(rt: &impl Abort, frames: &[u8], size: usize, head: [u8; 8]) -> usize {
    let mut count = 0usize;
    for frame in frames.chunks(size.max(1)) {
        check_count(rt, frame.len(), size);
        check(rt, frame.starts_with(&head));
        count = count.wrapping_add(1);
    }
    count
}

/// In version 2 each frame of the first cells has the head of mode 1 and guard interval 1/4, and is else that of version 1; what
/// is received is the same.
#[test]
fn first_cells_with_heads(rt: HostRuntime) -> Result<(), Fail> {
    let alloc = rt.alloc();
    let packet = marked_packets(alloc, 1, 0x55)?;
    let layers = [packet.as_slice(), &[], &[]];
    let plan = plan_of(&SINGLE)?;
    let plain = send(alloc, &plan, Writing { v2: false }, layers)?;
    let second = send(alloc, &plan, Writing { v2: true }, layers)?;
    let cells = second.cells.bytes();
    check_count(&rt, cells.len(), 1_528_188);
    check_count(&rt, check_heads(&rt, cells, HEADED, HEAD), 3);
    let headed = with_heads(alloc, plain.cells.bytes())?;
    check(&rt, headed.as_slice() == cells);
    let ended = receive_single(alloc, plain.cells.bytes())?;
    check(&rt, ended.answer == Ok(3));
    Ok(())
}

/// Four frames of mode 1 with guard interval 1/4, and three of mode 2 with 1/8: the packets are received in frames 2, 3 and 6.
#[test]
fn mode_changes_at_a_switch(rt: HostRuntime) -> Result<(), Fail> {
    let alloc = rt.alloc();
    let row = &EPOCHS[1];
    let plan = plan_with(&row.first, row.switches)?;
    let packets = marked_packets(alloc, row.packets[0], 0xAA)?;
    let layers = [packets.as_slice(), &[], &[]];
    let sent = send(alloc, &plan, Writing { v2: true }, layers)?;
    let cells = sent.cells.bytes();
    check_count(&rt, cells.len(), 5_093_324);
    let before = first_frames(cells, HEADED, 4);
    check_count(&rt, check_heads(&rt, before, HEADED, HEAD), 4);
    let behind = frames_behind(cells, HEADED, 4);
    let second = [0x49, 0x53, 0x43, 0x32, 0x02, 0x08, 0, 0];
    check_count(&rt, check_heads(&rt, behind, 1_018_580, second), 3);
    let ended = receive_headed(alloc, cells)?;
    check(&rt, ended.answer == Ok(7));
    check_count(&rt, ended.out.bytes().len(), 2_454_528);
    let frames = check_frames(&rt, alloc, ended.out.bytes(), &RECEIVED_MODES, layers)?;
    check_count(&rt, frames, 7);
    Ok(())
}

/// Where a read and where a write fails of a coding of five frames, and how it ends.
struct OutsideRow {
    pieces: usize,
    reads_until: u64,
    writes_until: u64,
    answer: Result<u32, CodeFault>,
    frames: usize,
    left: usize,
}

/// Reads that fail in the search for the head, behind the packet that bears it, in the second frame, behind the third, and behind
/// the last; a write that fails behind the first frame; reads of a byte each.
const OUTSIDE: [OutsideRow; 7] = [
    OutsideRow {
        pieces: 1,
        reads_until: 100,
        writes_until: u64::MAX,
        answer: Err(CodeFault::ReadFault(Seat::In)),
        frames: 0,
        left: 1_305_500,
    },
    OutsideRow {
        pieces: usize::MAX,
        reads_until: 204,
        writes_until: u64::MAX,
        answer: Err(CodeFault::ReadFault(Seat::In)),
        frames: 0,
        left: 1_305_396,
    },
    OutsideRow {
        pieces: 1000,
        reads_until: 261_121,
        writes_until: u64::MAX,
        answer: Err(CodeFault::ReadFault(Seat::In)),
        frames: 1,
        left: 1_043_480,
    },
    OutsideRow {
        pieces: usize::MAX,
        reads_until: 1_305_600,
        writes_until: u64::MAX,
        answer: Err(CodeFault::ReadFault(Seat::In)),
        frames: 5,
        left: 0,
    },
    OutsideRow {
        pieces: usize::MAX,
        reads_until: 600_000,
        writes_until: u64::MAX,
        answer: Err(CodeFault::ReadFault(Seat::In)),
        frames: 3,
        left: 522_240,
    },
    OutsideRow {
        pieces: usize::MAX,
        reads_until: u64::MAX,
        writes_until: 509_388,
        answer: Err(CodeFault::WriteFault),
        frames: 1,
        left: 783_360,
    },
    OutsideRow {
        pieces: 1,
        reads_until: u64::MAX,
        writes_until: u64::MAX,
        answer: Ok(5),
        frames: 5,
        left: 0,
    },
];

/// What was written is whole frames, those of the coding in which nothing fails.
#[test]
fn outside_of_code(rt: HostRuntime) -> Result<(), Fail> {
    let alloc = rt.alloc();
    let plan = plan_of(&SINGLE)?;
    let packets = marked_packets(alloc, 3 * 156, 0x55)?;
    let (frames, stream) = remuxed(alloc, &SINGLE, [&packets, &[], &[]])?;
    check_count(&rt, frames as usize, 5);
    check_count(&rt, stream.bytes().len(), 5 * FRAME);
    let how = Writing { v2: false };
    let out = MemorySink::new(alloc, ROOM)?;
    let all = code_plan(alloc, &plan, how, &whole(stream.bytes()), out)?;
    check_count(&rt, all.out.bytes().len(), 5 * CELLS);
    for row in &OUTSIDE {
        let input = LoneInput {
            stream: stream.bytes(),
            pieces: row.pieces,
            fails_from: row.reads_until,
        };
        let mut out = MemorySink::new(alloc, ROOM)?;
        out.fail_from(row.writes_until);
        let ended = code_plan(alloc, &plan, how, &input, out)?;
        check(&rt, ended.answer == row.answer);
        check_count(&rt, ended.left, row.left);
        let written = all.out.bytes().get(..row.frames.wrapping_mul(CELLS));
        check(&rt, written == Some(ended.out.bytes()));
    }
    Ok(())
}
