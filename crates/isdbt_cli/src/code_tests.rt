//! Whole runs of `code` over what `remux` writes: how each ends, and that it wrote the frames before.

use crate::testing::{
    CELLS, End, FRAME, SINGLE, WELL, check_end, marked_packets, product_of, run_over,
};
use std::alloc::Global;
use std::process::Abort;
use std::test::Fail;

const CODE: &[&str] = &["code", "1", "1/4", SINGLE, "IN=a"];

/// Packets without frame head, behind which so many bytes of a stream of three frames stand; a byte of all these and the bits of
/// it that are turned over; and how the run must end.
#[derive(Clone, Copy)]
struct CodeRow {
    before: usize,
    len: usize,
    at: usize,
    bits: u8,
    end: End,
}

/// The same in version 2 of the stream.
const CODE_V2: &[&str] = &["code", "1", "1/4", SINGLE, "IN=a", "v2"];

/// The head of each of its frames.
const HEAD: [u8; 8] = [0x49, 0x53, 0x43, 0x32, 0x01, 0x04, 0x00, 0x00];

/// Bytes of a frame with its head.
const HEADED: usize = 509_396;

/// The end of a run that writes three frames.
const THREE_FRAMES: End = End {
    status: 0,
    line: "",
    written: 3 * CELLS,
};

/// All three frames.
const GOOD: CodeRow = CodeRow {
    before: 0,
    len: 3 * FRAME,
    at: 0,
    bits: 0,
    end: THREE_FRAMES,
};

/// The broadcast packets of one packet: three frames.
fn single_stream(alloc: Global) -> Result<Vec<u8>, Fail> {
    let packet = marked_packets(alloc, 188, 0x55)?;
    product_of(alloc, &["remux", "1", "1/4", SINGLE, "A=a"], &packet, &[])
}

/// The input of a row.
fn input_of(alloc: Global, row: &CodeRow, stream: &[u8]) -> Result<Vec<u8>, Fail> {
    let mut packet = vec![in alloc; 0; 204]?;
    packet[0] = 0x47;
    let mut bytes = Vec::new(alloc);
    for _packet in 0..row.before {
        bytes.extend_from_slice(&packet)?;
    }
    bytes.extend_from_slice(stream.get(..row.len).unwrap_or(&[]))?;
    if let Some(byte) = bytes.get_mut(row.at) {
        *byte ^= row.bits;
    }
    Ok(bytes)
}

/// Codes the input of each row, and checks the end against the cells of the stream.
fn check_rows(rt: &impl Abort, alloc: Global, rows: &[CodeRow]) -> Result<(), Fail> {
    let stream = single_stream(alloc)?;
    let product = product_of(alloc, CODE, &stream, &[])?;
    for row in rows {
        let input = input_of(alloc, row, &stream)?;
        let ran = run_over(alloc, CODE, &input, &[], &WELL)?;
        check_end(rt, &ran, &row.end, &product, CELLS);
    }
    Ok(())
}

/// A stream of nothing.
const EMPTY: [CodeRow; 1] = [CodeRow {
    len: 0,
    end: End {
        status: 0,
        line: "",
        written: 0,
    },
    ..GOOD
}];

#[test]
fn empty_input(rt: HostRuntime) -> Result<(), Fail> {
    check_rows(&rt, rt.alloc(), &EMPTY)
}

/// Streams behind packets without frame head, of which 65,536 may come.
const HEADS: [CodeRow; 8] = [
    CodeRow {
        before: 2,
        len: 0,
        end: End {
            status: 5,
            line: "isdbt: 5 no frame head\n",
            written: 0,
        },
        ..GOOD
    },
    CodeRow {
        before: 65_536,
        len: 0,
        end: End {
            status: 5,
            line: "isdbt: 5 no frame head\n",
            written: 0,
        },
        ..GOOD
    },
    CodeRow {
        before: 65_537,
        len: 0,
        end: End {
            status: 13,
            line: "isdbt: 13 too long\n",
            written: 0,
        },
        ..GOOD
    },
    CodeRow {
        before: 65_536,
        len: 1,
        end: End {
            status: 13,
            line: "isdbt: 13 too long\n",
            written: 0,
        },
        ..GOOD
    },
    CodeRow {
        before: 65_536,
        len: FRAME,
        end: End {
            status: 13,
            line: "isdbt: 13 too long\n",
            written: 0,
        },
        ..GOOD
    },
    CodeRow {
        before: 65_535,
        len: FRAME,
        end: End {
            status: 0,
            line: "",
            written: CELLS,
        },
        ..GOOD
    },
    CodeRow {
        before: 65_535,
        len: 1,
        end: End {
            status: 3,
            line: "isdbt: 3 truncated: input IN over 1\n",
            written: 0,
        },
        ..GOOD
    },
    CodeRow {
        before: 1,
        len: 96,
        end: End {
            status: 3,
            line: "isdbt: 3 truncated: input IN over 96\n",
            written: 0,
        },
        ..GOOD
    },
];

#[test]
fn search_for_a_head(rt: HostRuntime) -> Result<(), Fail> {
    check_rows(&rt, rt.alloc(), &HEADS)
}

/// Faults of packets, of which those before the first head are counted too, and of frames, before which all are written.
const CHANGED: [CodeRow; 14] = [
    CodeRow {
        before: 3,
        end: End {
            status: 0,
            line: "",
            written: 3 * CELLS,
        },
        ..GOOD
    },
    CodeRow {
        before: 3,
        len: FRAME,
        at: 204,
        bits: 1,
        end: End {
            status: 2,
            line: "isdbt: 2 no sync byte: input IN packet 1\n",
            written: 0,
        },
        ..GOOD
    },
    CodeRow {
        before: 3,
        len: FRAME,
        at: 408,
        bits: 0x47,
        end: End {
            status: 2,
            line: "isdbt: 2 no sync byte: input IN packet 2\n",
            written: 0,
        },
        ..GOOD
    },
    CodeRow {
        before: 3,
        len: FRAME,
        at: 612,
        bits: 2,
        end: End {
            status: 2,
            line: "isdbt: 2 no sync byte: input IN packet 3\n",
            written: 0,
        },
        ..GOOD
    },
    CodeRow {
        before: 3,
        len: 2 * FRAME,
        at: 1022 * 204,
        bits: 2,
        end: End {
            status: 2,
            line: "isdbt: 2 no sync byte: input IN packet 1022\n",
            written: 0,
        },
        ..GOOD
    },
    CodeRow {
        before: 3,
        len: 2 * FRAME,
        at: 1288 * 204,
        bits: 2,
        end: End {
            status: 2,
            line: "isdbt: 2 no sync byte: input IN packet 1288\n",
            written: CELLS,
        },
        ..GOOD
    },
    CodeRow {
        len: 2 * FRAME,
        at: 1287 * 204 + 188,
        bits: 2,
        end: End {
            status: 4,
            line: "isdbt: 4 frame head misplaced: frame 1 slot 7\n",
            written: CELLS,
        },
        ..GOOD
    },
    CodeRow {
        before: 3,
        len: 2 * FRAME,
        at: 1290 * 204 + 188,
        bits: 2,
        end: End {
            status: 4,
            line: "isdbt: 4 frame head misplaced: frame 1 slot 7\n",
            written: CELLS,
        },
        ..GOOD
    },
    CodeRow {
        len: 2 * FRAME,
        at: 1280 * 204 + 188,
        bits: 2,
        end: End {
            status: 4,
            line: "isdbt: 4 frame head misplaced: frame 1 slot 0\n",
            written: CELLS,
        },
        ..GOOD
    },
    CodeRow {
        len: 2 * FRAME,
        at: 1279 * 204 + 188,
        bits: 2,
        end: End {
            status: 4,
            line: "isdbt: 4 frame head misplaced: frame 0 slot 1279\n",
            written: 0,
        },
        ..GOOD
    },
    CodeRow {
        len: 204,
        end: End {
            status: 3,
            line: "isdbt: 3 truncated: input IN over 204\n",
            written: 0,
        },
        ..GOOD
    },
    CodeRow {
        before: 3,
        len: 1000,
        end: End {
            status: 3,
            line: "isdbt: 3 truncated: input IN over 1000\n",
            written: 0,
        },
        ..GOOD
    },
    CodeRow {
        before: 3,
        len: FRAME + 205,
        end: End {
            status: 3,
            line: "isdbt: 3 truncated: input IN over 205\n",
            written: CELLS,
        },
        ..GOOD
    },
    CodeRow {
        len: 3 * FRAME - 1,
        end: End {
            status: 3,
            line: "isdbt: 3 truncated: input IN over 261119\n",
            written: 2 * CELLS,
        },
        ..GOOD
    },
];

#[test]
fn faults_of_changed_streams(rt: HostRuntime) -> Result<(), Fail> {
    check_rows(&rt, rt.alloc(), &CHANGED)
}

/// Checks that a frame of version 2 is the head and behind it the cells of the frame in version 1.
fn check_headed(rt: &impl Abort, headed: &[u8], cells: &[u8]) {
    assert_eq!(rt; headed.len(), HEADED);
    assert_eq!(rt; cells.len(), CELLS);
    assert!(rt; headed.starts_with(&HEAD));
    assert!(rt; headed.ends_with(cells));
}

#[test]
fn first_cells(rt: HostRuntime) -> Result<(), Fail> {
    let alloc = rt.alloc();
    let stream = single_stream(alloc)?;
    let cells = product_of(alloc, CODE, &stream, &[])?;
    let headed = product_of(alloc, CODE_V2, &stream, &[])?;
    assert_eq!(rt; headed.len(), 3 * HEADED);
    for frame in 0..3usize {
        let with_head = headed
            .get(frame * HEADED..(frame + 1) * HEADED)
            .unwrap_or(&[]);
        let without = cells.get(frame * CELLS..(frame + 1) * CELLS).unwrap_or(&[]);
        check_headed(&rt, with_head, without);
    }
    Ok(())
}
