//! Streams of cells of version 2 that are changed, cut or fail, and how their receiving ends, as rows of tables.

use crate::streams::HEADED;
use edge_io::Seat;
use seg_receiver::ReceiveFault;
use tmcc_word::TmccFault;

/// A byte of a stream that is changed.
pub struct ChangedByte {
    pub at: usize,
    pub byte: u8,
}

/// How many bytes of three frames come, of mode 1 with guard interval 1/4, which of them are changed, how the receiving ends,
/// and the frames that are written.
pub struct HeadRow {
    pub bytes: usize,
    pub changes: &'static [ChangedByte],
    pub answer: Result<u32, ReceiveFault>,
    pub frames: usize,
}

/// The bytes of three frames.
const THREE: usize = 3 * HEADED;

/// The TMCC byte of the second symbol of frame 1. It holds the first bit of the sync word, which is 1.
const SYNC_BYTE: usize = HEADED + 8 + 2497;

/// Heads that say another mode or guard interval than the frame before, or none; of two such bytes the least is told. The last two
/// bytes of a head aren't read. The first frame may have any mode: in the last row it has that of longer symbols, whose first bytes
/// are those of cells, all odd.
pub const CHANGED_HEADS: [HeadRow; 10] = [
    HeadRow {
        bytes: THREE,
        changes: &[ChangedByte {
            at: HEADED + 5,
            byte: 0x08,
        }],
        answer: Err(ReceiveFault::BadHead { frame: 1, byte: 5 }),
        frames: 1,
    },
    HeadRow {
        bytes: THREE,
        changes: &[ChangedByte {
            at: 2 * HEADED + 4,
            byte: 0x03,
        }],
        answer: Err(ReceiveFault::BadHead { frame: 2, byte: 4 }),
        frames: 2,
    },
    HeadRow {
        bytes: THREE,
        changes: &[ChangedByte { at: 0, byte: 0x00 }],
        answer: Err(ReceiveFault::BadHead { frame: 0, byte: 0 }),
        frames: 0,
    },
    HeadRow {
        bytes: THREE,
        changes: &[ChangedByte { at: 5, byte: 0x00 }],
        answer: Err(ReceiveFault::BadHead { frame: 0, byte: 5 }),
        frames: 0,
    },
    HeadRow {
        bytes: THREE,
        changes: &[
            ChangedByte {
                at: HEADED + 4,
                byte: 0x02,
            },
            ChangedByte {
                at: HEADED + 5,
                byte: 0x00,
            },
        ],
        answer: Err(ReceiveFault::BadHead { frame: 1, byte: 4 }),
        frames: 1,
    },
    HeadRow {
        bytes: THREE,
        changes: &[
            ChangedByte {
                at: HEADED + 4,
                byte: 0x00,
            },
            ChangedByte {
                at: HEADED + 5,
                byte: 0x08,
            },
        ],
        answer: Err(ReceiveFault::BadHead { frame: 1, byte: 4 }),
        frames: 1,
    },
    HeadRow {
        bytes: THREE,
        changes: &[
            ChangedByte {
                at: HEADED + 3,
                byte: 0x33,
            },
            ChangedByte {
                at: HEADED + 4,
                byte: 0x02,
            },
        ],
        answer: Err(ReceiveFault::BadHead { frame: 1, byte: 3 }),
        frames: 1,
    },
    HeadRow {
        bytes: THREE,
        changes: &[ChangedByte {
            at: HEADED + 5,
            byte: 0x06,
        }],
        answer: Err(ReceiveFault::BadHead { frame: 1, byte: 5 }),
        frames: 1,
    },
    HeadRow {
        bytes: THREE,
        changes: &[
            ChangedByte { at: 6, byte: 0xFF },
            ChangedByte { at: 7, byte: 0xFF },
            ChangedByte {
                at: HEADED + 6,
                byte: 0x01,
            },
            ChangedByte {
                at: HEADED + 7,
                byte: 0x32,
            },
        ],
        answer: Ok(3),
        frames: 3,
    },
    HeadRow {
        bytes: THREE,
        changes: &[ChangedByte { at: 4, byte: 0x02 }],
        answer: Err(ReceiveFault::BadTmcc {
            frame: 0,
            reason: TmccFault::Sync,
        }),
        frames: 0,
    },
];

/// Streams that end inside a head, behind it, inside the symbols and behind a frame: an end inside the head comes before what is
/// wrong with the head, that before an end inside the symbols, and this before what is wrong with the word.
pub const CUT_STREAMS: [HeadRow; 13] = [
    HeadRow {
        bytes: 0,
        changes: &[],
        answer: Ok(0),
        frames: 0,
    },
    HeadRow {
        bytes: 5,
        changes: &[],
        answer: Err(ReceiveFault::Truncated {
            seat: Seat::In,
            over: 5,
        }),
        frames: 0,
    },
    HeadRow {
        bytes: 5,
        changes: &[ChangedByte { at: 0, byte: 0x00 }],
        answer: Err(ReceiveFault::Truncated {
            seat: Seat::In,
            over: 5,
        }),
        frames: 0,
    },
    HeadRow {
        bytes: 8,
        changes: &[],
        answer: Err(ReceiveFault::Truncated {
            seat: Seat::In,
            over: 8,
        }),
        frames: 0,
    },
    HeadRow {
        bytes: 8,
        changes: &[ChangedByte { at: 5, byte: 0x00 }],
        answer: Err(ReceiveFault::BadHead { frame: 0, byte: 5 }),
        frames: 0,
    },
    HeadRow {
        bytes: HEADED,
        changes: &[],
        answer: Ok(1),
        frames: 1,
    },
    HeadRow {
        bytes: HEADED + 3,
        changes: &[],
        answer: Err(ReceiveFault::Truncated {
            seat: Seat::In,
            over: 3,
        }),
        frames: 1,
    },
    HeadRow {
        bytes: HEADED + 8,
        changes: &[],
        answer: Err(ReceiveFault::Truncated {
            seat: Seat::In,
            over: 8,
        }),
        frames: 1,
    },
    HeadRow {
        bytes: 2 * HEADED - 1,
        changes: &[],
        answer: Err(ReceiveFault::Truncated {
            seat: Seat::In,
            over: 509_395,
        }),
        frames: 1,
    },
    HeadRow {
        bytes: 2 * HEADED - 1,
        changes: &[ChangedByte {
            at: SYNC_BYTE,
            byte: 0x00,
        }],
        answer: Err(ReceiveFault::Truncated {
            seat: Seat::In,
            over: 509_395,
        }),
        frames: 1,
    },
    HeadRow {
        bytes: 2 * HEADED,
        changes: &[],
        answer: Ok(2),
        frames: 2,
    },
    HeadRow {
        bytes: 2 * HEADED,
        changes: &[ChangedByte {
            at: SYNC_BYTE,
            byte: 0x00,
        }],
        answer: Err(ReceiveFault::BadTmcc {
            frame: 1,
            reason: TmccFault::Sync,
        }),
        frames: 1,
    },
    HeadRow {
        bytes: 2 * HEADED,
        changes: &[
            ChangedByte {
                at: SYNC_BYTE,
                byte: 0x00,
            },
            ChangedByte {
                at: HEADED + 5,
                byte: 0x08,
            },
        ],
        answer: Err(ReceiveFault::BadHead { frame: 1, byte: 5 }),
        frames: 1,
    },
];

/// A limit on frames, the most bytes that a read gives, and the bytes of input and output from which on a read and a write fail;
/// how the receiving of three frames ends, the frames that are written, and the bytes that are left.
pub struct OutsideRow {
    pub limit: u32,
    pub pieces: usize,
    pub reads_until: u64,
    pub writes_until: u64,
    pub answer: Result<u32, ReceiveFault>,
    pub frames: usize,
    pub left: usize,
}

/// Reads of a byte each, which fail in a head, behind it, and in the symbols, in the first frame and behind it; reads that fail
/// behind the last frame; writes that fail; the limit on frames, behind which a byte is asked for.
pub const OUTSIDE: [OutsideRow; 13] = [
    OutsideRow {
        limit: 10,
        pieces: 1,
        reads_until: u64::MAX,
        writes_until: u64::MAX,
        answer: Ok(3),
        frames: 3,
        left: 0,
    },
    OutsideRow {
        limit: 10,
        pieces: 1,
        reads_until: 3,
        writes_until: u64::MAX,
        answer: Err(ReceiveFault::ReadFault(Seat::In)),
        frames: 0,
        left: THREE - 3,
    },
    OutsideRow {
        limit: 10,
        pieces: 1,
        reads_until: 8,
        writes_until: u64::MAX,
        answer: Err(ReceiveFault::ReadFault(Seat::In)),
        frames: 0,
        left: THREE - 8,
    },
    OutsideRow {
        limit: 10,
        pieces: 1,
        reads_until: 509_395,
        writes_until: u64::MAX,
        answer: Err(ReceiveFault::ReadFault(Seat::In)),
        frames: 0,
        left: 2 * HEADED + 1,
    },
    OutsideRow {
        limit: 10,
        pieces: 1,
        reads_until: 509_401,
        writes_until: u64::MAX,
        answer: Err(ReceiveFault::ReadFault(Seat::In)),
        frames: 1,
        left: 2 * HEADED - 5,
    },
    OutsideRow {
        limit: 10,
        pieces: 1,
        reads_until: 509_504,
        writes_until: u64::MAX,
        answer: Err(ReceiveFault::ReadFault(Seat::In)),
        frames: 1,
        left: 2 * HEADED - 108,
    },
    OutsideRow {
        limit: 10,
        pieces: usize::MAX,
        reads_until: 1_528_188,
        writes_until: u64::MAX,
        answer: Err(ReceiveFault::ReadFault(Seat::In)),
        frames: 3,
        left: 0,
    },
    OutsideRow {
        limit: 10,
        pieces: usize::MAX,
        reads_until: u64::MAX,
        writes_until: 0,
        answer: Err(ReceiveFault::WriteFault),
        frames: 0,
        left: 2 * HEADED,
    },
    OutsideRow {
        limit: 10,
        pieces: usize::MAX,
        reads_until: u64::MAX,
        writes_until: 1,
        answer: Err(ReceiveFault::WriteFault),
        frames: 1,
        left: HEADED,
    },
    OutsideRow {
        limit: 10,
        pieces: usize::MAX,
        reads_until: u64::MAX,
        writes_until: 522_240,
        answer: Err(ReceiveFault::WriteFault),
        frames: 2,
        left: 0,
    },
    OutsideRow {
        limit: 3,
        pieces: 7,
        reads_until: u64::MAX,
        writes_until: u64::MAX,
        answer: Ok(3),
        frames: 3,
        left: 0,
    },
    OutsideRow {
        limit: 2,
        pieces: usize::MAX,
        reads_until: u64::MAX,
        writes_until: u64::MAX,
        answer: Err(ReceiveFault::TooLong),
        frames: 2,
        left: HEADED - 1,
    },
    OutsideRow {
        limit: 2,
        pieces: 1,
        reads_until: 1_018_792,
        writes_until: u64::MAX,
        answer: Err(ReceiveFault::ReadFault(Seat::In)),
        frames: 2,
        left: HEADED,
    },
];
