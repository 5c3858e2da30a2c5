//! Whole runs of `receive` over cells that `code` writes of what `remux` writes: how each ends, and that it wrote the frames
//! before.

use crate::testing::{
    CELLS, End, FRAME, Outside, SINGLE, WELL, check_end, marked_packets, product_of, run_over,
};
use edge_io::Seat;
use std::alloc::Global;
use std::process::Abort;
use std::test::Fail;

/// The words for a stream of version 1, and for one of version 2.
const RECEIVE: &[&str] = &["receive", "1", "1/4", "IN=a"];

const RECEIVE_HEADS: &[&str] = &["receive", "IN=a"];

/// The words that code it in version 1, and in version 2.
const CODE: &[&str] = &["code", "1", "1/4", SINGLE, "IN=a"];

const CODE_HEADS: &[&str] = &["code", "1", "1/4", SINGLE, "IN=a", "v2"];

/// How many bytes are there of the cells of three frames, what the run meets outside, and how it must end.
#[derive(Clone, Copy)]
struct ReceiveRow {
    len: usize,
    outside: Outside,
    end: End,
}

/// The end of a run that writes three frames.
const THREE_FRAMES: End = End {
    status: 0,
    line: "",
    written: 3 * FRAME,
};

/// All three frames.
const GOOD: ReceiveRow = ReceiveRow {
    len: 3 * CELLS,
    outside: WELL,
    end: THREE_FRAMES,
};

/// The cells of 156 packets in a single layer, coded by these words: three frames.
fn single_cells(alloc: Global, code: &[&str]) -> Result<Vec<u8>, Fail> {
    let packets = marked_packets(alloc, 156 * 188, 0x55)?;
    let stream = product_of(alloc, &["remux", "1", "1/4", SINGLE, "A=a"], &packets, &[])?;
    product_of(alloc, code, &stream, &[])
}

/// Receives the cells of each row, and checks the end against what is received of all.
fn check_rows(rt: &impl Abort, alloc: Global, rows: &[ReceiveRow]) -> Result<(), Fail> {
    let cells = single_cells(alloc, CODE)?;
    let product = product_of(alloc, RECEIVE, &cells, &[])?;
    for row in rows {
        let part = cells.get(..row.len).unwrap_or(&[]);
        let ran = run_over(alloc, RECEIVE, part, &[], &row.outside)?;
        check_end(rt, &ran, &row.end, &product, FRAME);
    }
    Ok(())
}

/// A stream of nothing.
const EMPTY: [ReceiveRow; 1] = [ReceiveRow {
    len: 0,
    end: End {
        status: 0,
        line: "",
        written: 0,
    },
    ..GOOD
}];

#[test]
fn empty_input_received(rt: HostRuntime) -> Result<(), Fail> {
    check_rows(&rt, rt.alloc(), &EMPTY)
}

/// Streams that end inside a frame, and between two.
const UNFINISHED: [ReceiveRow; 11] = [
    ReceiveRow {
        len: 1,
        end: End {
            status: 3,
            line: "isdbt: 3 truncated: input IN over 1\n",
            written: 0,
        },
        ..GOOD
    },
    ReceiveRow {
        len: 2497,
        end: End {
            status: 3,
            line: "isdbt: 3 truncated: input IN over 2497\n",
            written: 0,
        },
        ..GOOD
    },
    ReceiveRow {
        len: CELLS - 1,
        end: End {
            status: 3,
            line: "isdbt: 3 truncated: input IN over 509387\n",
            written: 0,
        },
        ..GOOD
    },
    ReceiveRow {
        len: CELLS + 1,
        end: End {
            status: 3,
            line: "isdbt: 3 truncated: input IN over 1\n",
            written: FRAME,
        },
        ..GOOD
    },
    ReceiveRow {
        len: CELLS + 2496,
        end: End {
            status: 3,
            line: "isdbt: 3 truncated: input IN over 2496\n",
            written: FRAME,
        },
        ..GOOD
    },
    ReceiveRow {
        len: CELLS + 2497,
        end: End {
            status: 3,
            line: "isdbt: 3 truncated: input IN over 2497\n",
            written: FRAME,
        },
        ..GOOD
    },
    ReceiveRow {
        len: CELLS + 2498,
        end: End {
            status: 3,
            line: "isdbt: 3 truncated: input IN over 2498\n",
            written: FRAME,
        },
        ..GOOD
    },
    ReceiveRow {
        len: 2 * CELLS - 1,
        end: End {
            status: 3,
            line: "isdbt: 3 truncated: input IN over 509387\n",
            written: FRAME,
        },
        ..GOOD
    },
    ReceiveRow {
        len: 2 * CELLS + 5000,
        end: End {
            status: 3,
            line: "isdbt: 3 truncated: input IN over 5000\n",
            written: 2 * FRAME,
        },
        ..GOOD
    },
    ReceiveRow {
        len: CELLS,
        end: End {
            status: 0,
            line: "",
            written: FRAME,
        },
        ..GOOD
    },
    ReceiveRow {
        len: 2 * CELLS,
        end: End {
            status: 0,
            line: "",
            written: 2 * FRAME,
        },
        ..GOOD
    },
];

#[test]
fn input_ends_inside_frame(rt: HostRuntime) -> Result<(), Fail> {
    check_rows(&rt, rt.alloc(), &UNFINISHED)
}

/// Reads that fail once so many bytes are taken; no read finds 1,528,165 taken.
const READ_FAULTS: [ReceiveRow; 10] = [
    ReceiveRow {
        outside: Outside {
            read: Seat::In,
            taken: 0,
            ..WELL
        },
        end: End {
            status: 11,
            line: "isdbt: 11 read fault: IN\n",
            written: 0,
        },
        ..GOOD
    },
    ReceiveRow {
        outside: Outside {
            most: 1000,
            read: Seat::In,
            taken: 1000,
            ..WELL
        },
        end: End {
            status: 11,
            line: "isdbt: 11 read fault: IN\n",
            written: 0,
        },
        ..GOOD
    },
    ReceiveRow {
        outside: Outside {
            most: 1000,
            read: Seat::In,
            taken: 509_000,
            ..WELL
        },
        end: End {
            status: 11,
            line: "isdbt: 11 read fault: IN\n",
            written: 0,
        },
        ..GOOD
    },
    ReceiveRow {
        outside: Outside {
            most: 1000,
            read: Seat::In,
            taken: 509_001,
            ..WELL
        },
        end: End {
            status: 11,
            line: "isdbt: 11 read fault: IN\n",
            written: FRAME,
        },
        ..GOOD
    },
    ReceiveRow {
        outside: Outside {
            read: Seat::In,
            taken: 509_388,
            ..WELL
        },
        end: End {
            status: 11,
            line: "isdbt: 11 read fault: IN\n",
            written: FRAME,
        },
        ..GOOD
    },
    ReceiveRow {
        outside: Outside {
            read: Seat::In,
            taken: 509_389,
            ..WELL
        },
        end: End {
            status: 11,
            line: "isdbt: 11 read fault: IN\n",
            written: FRAME,
        },
        ..GOOD
    },
    ReceiveRow {
        outside: Outside {
            most: 1000,
            read: Seat::In,
            taken: 512_000,
            ..WELL
        },
        end: End {
            status: 11,
            line: "isdbt: 11 read fault: IN\n",
            written: FRAME,
        },
        ..GOOD
    },
    ReceiveRow {
        outside: Outside {
            read: Seat::In,
            taken: 1_018_776,
            ..WELL
        },
        end: End {
            status: 11,
            line: "isdbt: 11 read fault: IN\n",
            written: 2 * FRAME,
        },
        ..GOOD
    },
    ReceiveRow {
        outside: Outside {
            read: Seat::In,
            taken: 1_528_164,
            ..WELL
        },
        end: End {
            status: 11,
            line: "isdbt: 11 read fault: IN\n",
            written: 3 * FRAME,
        },
        ..GOOD
    },
    ReceiveRow {
        outside: Outside {
            most: 1000,
            read: Seat::In,
            taken: 1_528_165,
            ..WELL
        },
        ..GOOD
    },
];

#[test]
fn read_fault_at_a_byte(rt: HostRuntime) -> Result<(), Fail> {
    check_rows(&rt, rt.alloc(), &READ_FAULTS)
}

/// Writes that fail once so many bytes are written, and an output that is full inside of frame 1.
const WRITE_FAULTS: [ReceiveRow; 4] = [
    ReceiveRow {
        outside: Outside { written: 0, ..WELL },
        end: End {
            status: 12,
            line: "isdbt: 12 write fault\n",
            written: 0,
        },
        ..GOOD
    },
    ReceiveRow {
        outside: Outside {
            written: 261_120,
            ..WELL
        },
        end: End {
            status: 12,
            line: "isdbt: 12 write fault\n",
            written: FRAME,
        },
        ..GOOD
    },
    ReceiveRow {
        outside: Outside {
            written: 522_240,
            ..WELL
        },
        end: End {
            status: 12,
            line: "isdbt: 12 write fault\n",
            written: 2 * FRAME,
        },
        ..GOOD
    },
    ReceiveRow {
        outside: Outside {
            room: 300_000,
            ..WELL
        },
        end: End {
            status: 12,
            line: "isdbt: 12 write fault\n",
            written: 300_000,
        },
        ..GOOD
    },
];

#[test]
fn write_fault_at_a_byte(rt: HostRuntime) -> Result<(), Fail> {
    check_rows(&rt, rt.alloc(), &WRITE_FAULTS)
}

/// A byte that stands at a place of the stream of version 2, how many bytes of it are there, and how the run must end.
struct HeadRow {
    at: usize,
    byte: u8,
    len: usize,
    end: End,
}

/// The end of a run over a stream whose first byte is not that of a head.
const NO_HEAD: End = End {
    status: 15,
    line: "isdbt: 15 bad frame head: frame 0 byte 0\n",
    written: 0,
};

/// Three frames of 509,396 bytes as they are; the guard interval 1/8 in the head of frame 1, which must repeat 1/4; no mark of
/// a head at the first byte; and the first five bytes alone.
const HEADS: [HeadRow; 4] = [
    HeadRow {
        at: 0,
        byte: 0x49,
        len: 1_528_188,
        end: THREE_FRAMES,
    },
    HeadRow {
        at: 509_401,
        byte: 0x08,
        len: 1_528_188,
        end: End {
            status: 15,
            line: "isdbt: 15 bad frame head: frame 1 byte 5\n",
            written: FRAME,
        },
    },
    HeadRow {
        at: 0,
        byte: 0x00,
        len: 1_528_188,
        end: NO_HEAD,
    },
    HeadRow {
        at: 0,
        byte: 0x49,
        len: 5,
        end: End {
            status: 3,
            line: "isdbt: 3 truncated: input IN over 5\n",
            written: 0,
        },
    },
];

/// The same frames in version 2 are received as in version 1. A stream of version 1, whose first byte is a TMCC bit, 00 or 01,
/// has no head.
#[test]
fn frames_with_heads(rt: HostRuntime) -> Result<(), Fail> {
    let alloc = rt.alloc();
    let cells = single_cells(alloc, CODE)?;
    let product = product_of(alloc, RECEIVE, &cells, &[])?;
    let ran = run_over(alloc, RECEIVE_HEADS, &cells, &[], &WELL)?;
    check_end(&rt, &ran, &NO_HEAD, &product, FRAME);
    let stream = single_cells(alloc, CODE_HEADS)?;
    for row in &HEADS {
        let mut part = stream.get(..row.len).unwrap_or(&[]).to_vec(alloc)?;
        if let Some(byte) = part.get_mut(row.at) {
            *byte = row.byte;
        }
        let ran = run_over(alloc, RECEIVE_HEADS, &part, &[], &WELL)?;
        check_end(&rt, &ran, &row.end, &product, FRAME);
    }
    Ok(())
}
