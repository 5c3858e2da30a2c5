//! Streams of broadcast packets that are changed, cut or fail, and how their listing ends, as rows of a table.

use crate::commands::LIMIT;
use crate::head_rows::ChangedByte;
use crate::streams::WIDE_FRAME;
use coder_core::CodeFault;
use edge_io::Seat;

/// The lines of seven frames of 64 packets of layer A and 2592 of B.
pub const LINES: [&str; 7] = [
    "frame 0 even countdown 15 A 64 B 2592 C 0 none 1952\n",
    "frame 1 odd countdown 15 A 64 B 2592 C 0 none 1952\n",
    "frame 2 even countdown 15 A 64 B 2592 C 0 none 1952\n",
    "frame 3 odd countdown 15 A 64 B 2592 C 0 none 1952\n",
    "frame 4 even countdown 15 A 64 B 2592 C 0 none 1952\n",
    "frame 5 odd countdown 15 A 64 B 2592 C 0 none 1952\n",
    "frame 6 even countdown 15 A 64 B 2592 C 0 none 1952\n",
];

/// Bytes of three packets without the head flag, which mostly stand before the frames.
const PASSED: usize = 612;

/// Bytes of 65,536 such packets: in so many the head is looked for.
const SEARCHED: usize = 13_369_344;

/// Where frame 1 begins, an odd one.
const FIRST: usize = PASSED + WIDE_FRAME;

/// The bytes of the packets and of seven frames.
const SEVEN: usize = PASSED + 7 * WIDE_FRAME;

/// How many packets without the head flag stand before seven frames, how many bytes come of all these, which of them are
/// changed, the most that a read gives, the bytes from which on a read and a write fail, and the limit on frames; how the
/// listing ends, the lines that are written, and the bytes that are left.
#[derive(Clone, Copy)]
pub struct ShowRow {
    pub passed: usize,
    pub bytes: usize,
    pub changes: &'static [ChangedByte],
    pub pieces: usize,
    pub read_fails_from: u64,
    pub write_fails_from: u64,
    pub limit: u32,
    pub answer: Result<u32, CodeFault>,
    pub lines: usize,
    pub left: usize,
}

/// All is listed.
const ALL: ShowRow = ShowRow {
    passed: 3,
    bytes: SEVEN,
    changes: &[],
    pieces: usize::MAX,
    read_fails_from: u64::MAX,
    write_fails_from: u64::MAX,
    limit: LIMIT,
    answer: Ok(7),
    lines: 7,
    left: 0,
};

/// The whole stream, also in pieces; streams that end in the search or in a frame; packets without sync byte and head flags that
/// are misplaced, in the search, in frame 0 and in frame 1; limits; reads and writes that fail. A frame is taken whole before
/// it is checked, and nothing behind it, but a byte behind the limit, or behind the last packet of the search.
pub const SHOWN: [ShowRow; 30] = [
    ALL,
    ShowRow {
        pieces: 1000,
        ..ALL
    },
    ShowRow {
        bytes: FIRST,
        pieces: 1,
        answer: Ok(1),
        lines: 1,
        ..ALL
    },
    ShowRow { limit: 7, ..ALL },
    ShowRow {
        bytes: 0,
        answer: Ok(0),
        lines: 0,
        ..ALL
    },
    ShowRow {
        bytes: PASSED,
        answer: Err(CodeFault::NoHead),
        lines: 0,
        ..ALL
    },
    ShowRow {
        passed: 65_535,
        bytes: SEARCHED - 204 + WIDE_FRAME,
        answer: Ok(1),
        lines: 1,
        ..ALL
    },
    ShowRow {
        passed: 65_536,
        bytes: SEARCHED,
        answer: Err(CodeFault::NoHead),
        lines: 0,
        ..ALL
    },
    ShowRow {
        passed: 65_536,
        bytes: SEARCHED + 1,
        answer: Err(CodeFault::TooLong),
        lines: 0,
        ..ALL
    },
    ShowRow {
        passed: 65_536,
        bytes: SEARCHED + WIDE_FRAME,
        answer: Err(CodeFault::TooLong),
        lines: 0,
        left: WIDE_FRAME - 1,
        ..ALL
    },
    ShowRow {
        passed: 65_536,
        bytes: SEARCHED,
        read_fails_from: SEARCHED as u64,
        answer: Err(CodeFault::ReadFault(Seat::In)),
        lines: 0,
        ..ALL
    },
    ShowRow {
        bytes: 508,
        answer: Err(CodeFault::Truncated {
            seat: Seat::In,
            over: 100,
        }),
        lines: 0,
        ..ALL
    },
    ShowRow {
        bytes: FIRST + 1000,
        answer: Err(CodeFault::Truncated {
            seat: Seat::In,
            over: 1000,
        }),
        lines: 1,
        ..ALL
    },
    ShowRow {
        bytes: SEVEN - 1,
        answer: Err(CodeFault::Truncated {
            seat: Seat::In,
            over: 940_031,
        }),
        lines: 6,
        ..ALL
    },
    ShowRow {
        changes: &[ChangedByte { at: 204, byte: 0 }],
        answer: Err(CodeFault::BadSync {
            seat: Seat::In,
            packet: 1,
        }),
        lines: 0,
        left: SEVEN - 408,
        ..ALL
    },
    ShowRow {
        changes: &[ChangedByte {
            at: FIRST - 204,
            byte: 0x46,
        }],
        answer: Err(CodeFault::BadSync {
            seat: Seat::In,
            packet: 4610,
        }),
        lines: 0,
        left: 6 * WIDE_FRAME,
        ..ALL
    },
    ShowRow {
        changes: &[ChangedByte {
            at: FIRST + 1020,
            byte: 0,
        }],
        answer: Err(CodeFault::BadSync {
            seat: Seat::In,
            packet: 4616,
        }),
        lines: 1,
        left: 5 * WIDE_FRAME,
        ..ALL
    },
    ShowRow {
        changes: &[ChangedByte {
            at: FIRST + 1208,
            byte: 0xA3,
        }],
        answer: Err(CodeFault::HeadMisplaced { frame: 1, slot: 5 }),
        lines: 1,
        left: 5 * WIDE_FRAME,
        ..ALL
    },
    ShowRow {
        changes: &[ChangedByte {
            at: FIRST + 188,
            byte: 0xA1,
        }],
        answer: Err(CodeFault::HeadMisplaced { frame: 1, slot: 0 }),
        lines: 1,
        left: 5 * WIDE_FRAME,
        ..ALL
    },
    ShowRow {
        changes: &[
            ChangedByte {
                at: FIRST + 1208,
                byte: 0xA3,
            },
            ChangedByte {
                at: FIRST + 1428,
                byte: 0,
            },
        ],
        answer: Err(CodeFault::BadSync {
            seat: Seat::In,
            packet: 4618,
        }),
        lines: 1,
        left: 5 * WIDE_FRAME,
        ..ALL
    },
    ShowRow {
        limit: 6,
        answer: Err(CodeFault::TooLong),
        lines: 6,
        left: WIDE_FRAME - 1,
        ..ALL
    },
    ShowRow {
        limit: 1,
        answer: Err(CodeFault::TooLong),
        lines: 1,
        left: 6 * WIDE_FRAME - 1,
        ..ALL
    },
    ShowRow {
        read_fails_from: 0,
        answer: Err(CodeFault::ReadFault(Seat::In)),
        lines: 0,
        left: SEVEN,
        ..ALL
    },
    ShowRow {
        read_fails_from: 204,
        answer: Err(CodeFault::ReadFault(Seat::In)),
        lines: 0,
        left: SEVEN - 204,
        ..ALL
    },
    ShowRow {
        read_fails_from: FIRST as u64,
        answer: Err(CodeFault::ReadFault(Seat::In)),
        lines: 1,
        left: 6 * WIDE_FRAME,
        ..ALL
    },
    ShowRow {
        pieces: 1000,
        read_fails_from: FIRST as u64 + 1,
        answer: Err(CodeFault::ReadFault(Seat::In)),
        lines: 1,
        left: 6 * WIDE_FRAME - 1000,
        ..ALL
    },
    ShowRow {
        read_fails_from: SEVEN as u64,
        answer: Err(CodeFault::ReadFault(Seat::In)),
        ..ALL
    },
    ShowRow {
        write_fails_from: 0,
        answer: Err(CodeFault::WriteFault),
        lines: 0,
        left: 6 * WIDE_FRAME,
        ..ALL
    },
    ShowRow {
        write_fails_from: 1,
        answer: Err(CodeFault::WriteFault),
        lines: 1,
        left: 5 * WIDE_FRAME,
        ..ALL
    },
    ShowRow {
        write_fails_from: 103,
        answer: Err(CodeFault::WriteFault),
        lines: 2,
        left: 4 * WIDE_FRAME,
        ..ALL
    },
];
