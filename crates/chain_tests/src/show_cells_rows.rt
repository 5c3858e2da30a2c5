//! Streams of cells, also changed, cut or failing, and the lines that list their frames, as rows of tables.

use crate::commands::ROOM;
use crate::head_rows::ChangedByte;
use crate::plans::{LayerRow, PLAIN, PlanRow, SECOND_MODE, SINGLE, SwitchRow, THREE_QUARTERS};
use crate::streams::HEADED;
use crate::words::{COUNTDOWN, Change, SYNC};
use edge_io::Seat;
use isdbt_base::DepthCode;
use seg_receiver::ReceiveFault;

/// The lines of five frames of the partial and the wide layer.
pub const TWO_LAYER_LINES: [&str; 5] = [
    "frame 0 even countdown 15 now A:1:qpsk:2/3:4:partial,B:12:64qam:3/4:2 next -\n",
    "frame 1 odd countdown 15 now A:1:qpsk:2/3:4:partial,B:12:64qam:3/4:2 next -\n",
    "frame 2 even countdown 15 now A:1:qpsk:2/3:4:partial,B:12:64qam:3/4:2 next -\n",
    "frame 3 odd countdown 15 now A:1:qpsk:2/3:4:partial,B:12:64qam:3/4:2 next -\n",
    "frame 4 even countdown 15 now A:1:qpsk:2/3:4:partial,B:12:64qam:3/4:2 next -\n",
];

/// Switches behind a plan of rate 3/4 in mode 1: to mode 2 with the same code of the time interleaving length, 4 symbols in
/// mode 1 and 2 in mode 2; and back to the single layer.
pub const TWO_SWITCHES: [SwitchRow; 2] = [
    SwitchRow {
        frame: 17,
        to: PlanRow {
            layers: &[LayerRow {
                depth: DepthCode::D1,
                ..PLAIN
            }],
            ..SECOND_MODE
        },
    },
    SwitchRow {
        frame: 20,
        to: SINGLE,
    },
];

/// The lines of these epochs but the last, of which no frame is there where no input has a packet.
pub const SWITCH_LINES: [&str; 20] = [
    "frame 0 even countdown 15 now A:13:qpsk:3/4:4 next A:13:qpsk:1/2:4\n",
    "frame 1 odd countdown 15 now A:13:qpsk:3/4:4 next A:13:qpsk:1/2:4\n",
    "frame 2 even countdown 14 now A:13:qpsk:3/4:4 next A:13:qpsk:1/2:4\n",
    "frame 3 odd countdown 13 now A:13:qpsk:3/4:4 next A:13:qpsk:1/2:4\n",
    "frame 4 even countdown 12 now A:13:qpsk:3/4:4 next A:13:qpsk:1/2:4\n",
    "frame 5 odd countdown 11 now A:13:qpsk:3/4:4 next A:13:qpsk:1/2:4\n",
    "frame 6 even countdown 10 now A:13:qpsk:3/4:4 next A:13:qpsk:1/2:4\n",
    "frame 7 odd countdown 9 now A:13:qpsk:3/4:4 next A:13:qpsk:1/2:4\n",
    "frame 8 even countdown 8 now A:13:qpsk:3/4:4 next A:13:qpsk:1/2:4\n",
    "frame 9 odd countdown 7 now A:13:qpsk:3/4:4 next A:13:qpsk:1/2:4\n",
    "frame 10 even countdown 6 now A:13:qpsk:3/4:4 next A:13:qpsk:1/2:4\n",
    "frame 11 odd countdown 5 now A:13:qpsk:3/4:4 next A:13:qpsk:1/2:4\n",
    "frame 12 even countdown 4 now A:13:qpsk:3/4:4 next A:13:qpsk:1/2:4\n",
    "frame 13 odd countdown 3 now A:13:qpsk:3/4:4 next A:13:qpsk:1/2:4\n",
    "frame 14 even countdown 2 now A:13:qpsk:3/4:4 next A:13:qpsk:1/2:4\n",
    "frame 15 odd countdown 1 now A:13:qpsk:3/4:4 next A:13:qpsk:1/2:4\n",
    "frame 16 even countdown 0 now A:13:qpsk:3/4:4 next A:13:qpsk:1/2:4\n",
    "frame 17 odd countdown 2 now A:13:qpsk:1/2:2 next A:13:qpsk:1/2:0\n",
    "frame 18 even countdown 1 now A:13:qpsk:1/2:2 next A:13:qpsk:1/2:0\n",
    "frame 19 odd countdown 0 now A:13:qpsk:1/2:2 next A:13:qpsk:1/2:0\n",
];

/// How many bytes of three frames of version 2 come, which of them are changed, the limit on frames, the bytes of input and
/// output from which on a read and a write fail, and the room of the output; how the listing ends, the bytes of the lines that
/// are written, and the bytes of input that are left.
pub struct ListingRow {
    pub bytes: usize,
    pub changes: &'static [ChangedByte],
    pub limit: u32,
    pub reads_until: u64,
    pub writes_until: u64,
    pub room: usize,
    pub answer: Result<u32, ReceiveFault>,
    pub written: usize,
    pub left: usize,
}

/// The lines of the three frames, of 53, 52 and 53 bytes.
pub const SINGLE_LINES: &str =
    "frame 0 even countdown 15 now A:13:qpsk:1/2:0 next -\nframe 1 odd countdown 15 now A:13:qpsk:1/2:0 next -\nframe 2 even countdown 15 now A:13:qpsk:1/2:0 next -\n";

/// All three frames.
const WHOLE: ListingRow = ListingRow {
    bytes: 3 * HEADED,
    changes: &[],
    limit: 1000,
    reads_until: u64::MAX,
    writes_until: u64::MAX,
    room: ROOM,
    answer: Ok(3),
    written: 158,
    left: 0,
};

/// As many frames as the limit allows, and one more; ends within the symbols and a head; a head of another guard interval and
/// one of no stream, whose symbols are left; reads that fail at a head and in the symbols; a write that fails, and room that
/// ends within a line.
pub const LISTINGS: [ListingRow; 11] = [
    WHOLE,
    ListingRow { limit: 3, ..WHOLE },
    ListingRow {
        limit: 2,
        answer: Err(ReceiveFault::TooLong),
        written: 105,
        left: HEADED - 1,
        ..WHOLE
    },
    ListingRow {
        bytes: 2 * HEADED + 100,
        answer: Err(ReceiveFault::Truncated {
            seat: Seat::In,
            over: 100,
        }),
        written: 105,
        ..WHOLE
    },
    ListingRow {
        bytes: HEADED + 5,
        answer: Err(ReceiveFault::Truncated {
            seat: Seat::In,
            over: 5,
        }),
        written: 53,
        ..WHOLE
    },
    ListingRow {
        changes: &[ChangedByte {
            at: HEADED + 5,
            byte: 0x08,
        }],
        answer: Err(ReceiveFault::BadHead { frame: 1, byte: 5 }),
        written: 53,
        left: 2 * HEADED - 8,
        ..WHOLE
    },
    ListingRow {
        changes: &[ChangedByte { at: 0, byte: 0x00 }],
        answer: Err(ReceiveFault::BadHead { frame: 0, byte: 0 }),
        written: 0,
        left: 3 * HEADED - 8,
        ..WHOLE
    },
    ListingRow {
        reads_until: 509_396,
        answer: Err(ReceiveFault::ReadFault(Seat::In)),
        written: 53,
        left: 2 * HEADED,
        ..WHOLE
    },
    ListingRow {
        reads_until: 1_018_801,
        answer: Err(ReceiveFault::ReadFault(Seat::In)),
        written: 105,
        left: HEADED - 4008,
        ..WHOLE
    },
    ListingRow {
        writes_until: 53,
        answer: Err(ReceiveFault::WriteFault),
        written: 53,
        left: HEADED,
        ..WHOLE
    },
    ListingRow {
        room: 60,
        answer: Err(ReceiveFault::WriteFault),
        written: 60,
        left: HEADED,
        ..WHOLE
    },
];

/// A change of the word of a frame of three, and the lines that are written.
pub struct WordRow {
    pub change: Change,
    pub lines: [&'static str; 3],
}

/// Words that `receive` refuses, or those behind them: the sync word of the frame before; a rate that nothing announced; a
/// countdown of 0 with no next setting. And a countdown of 0 to the present one.
pub const WORDS: [WordRow; 4] = [
    WordRow {
        change: Change {
            frame: 1,
            is_announced: false,
            bits: SYNC,
            fits: false,
        },
        lines: [
            "frame 0 even countdown 15 now A:13:qpsk:1/2:0 next -\n",
            "frame 1 even countdown 15 now A:13:qpsk:1/2:0 next -\n",
            "frame 2 even countdown 15 now A:13:qpsk:1/2:0 next -\n",
        ],
    },
    WordRow {
        change: Change {
            frame: 1,
            is_announced: false,
            bits: &[33],
            fits: true,
        },
        lines: [
            "frame 0 even countdown 15 now A:13:qpsk:1/2:0 next -\n",
            "frame 1 odd countdown 15 now A:13:qpsk:2/3:0 next -\n",
            "frame 2 even countdown 15 now A:13:qpsk:1/2:0 next -\n",
        ],
    },
    WordRow {
        change: Change {
            frame: 1,
            is_announced: false,
            bits: COUNTDOWN,
            fits: true,
        },
        lines: [
            "frame 0 even countdown 15 now A:13:qpsk:1/2:0 next -\n",
            "frame 1 odd countdown 0 now A:13:qpsk:1/2:0 next -\n",
            "frame 2 even countdown 15 now A:13:qpsk:1/2:0 next -\n",
        ],
    },
    WordRow {
        change: Change {
            frame: 1,
            is_announced: true,
            bits: COUNTDOWN,
            fits: true,
        },
        lines: [
            "frame 0 even countdown 15 now A:13:qpsk:1/2:0 next -\n",
            "frame 1 odd countdown 0 now A:13:qpsk:1/2:0 next A:13:qpsk:1/2:0\n",
            "frame 2 even countdown 15 now A:13:qpsk:1/2:0 next -\n",
        ],
    },
];

/// Switches behind the single layer: to rate 3/4, and back.
pub const THERE_AND_BACK: [SwitchRow; 2] = [
    SwitchRow {
        frame: 3,
        to: THREE_QUARTERS,
    },
    SwitchRow {
        frame: 5,
        to: SINGLE,
    },
];

/// The lines of the first five of these frames with frames 1 and 2 cut out: frame 3, of rate 3/4, stands behind one with
/// countdown 2.
pub const CUT_LINES: [&str; 3] = [
    "frame 0 even countdown 2 now A:13:qpsk:1/2:0 next A:13:qpsk:3/4:4\n",
    "frame 1 odd countdown 1 now A:13:qpsk:3/4:4 next A:13:qpsk:1/2:0\n",
    "frame 2 even countdown 0 now A:13:qpsk:3/4:4 next A:13:qpsk:1/2:0\n",
];
