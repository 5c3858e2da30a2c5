//! Partial reception of plans with switches, and of streams that are changed, cut or fail, as rows of tables.

use crate::head_rows::ChangedByte;
use crate::plans::{LayerRow, PLAIN, PlanRow, SINGLE, SwitchRow};
use crate::streams::HEADED;
use edge_io::Seat;
use isdbt_base::{DepthCode, Guard, Mode, Modulation, Rate};
use seg_receiver::ReceiveFault;

/// Twelve segments beside the one of layer A.
const TWELVE: LayerRow = LayerRow {
    segments: 12,
    ..PLAIN
};

/// Layer A of one segment at rate 2/3 without time interleaving: 16 packets a frame, with a delay of 2 frames.
pub const PARTIAL: PlanRow = PlanRow {
    is_partial: true,
    layers: &[
        LayerRow {
            segments: 1,
            rate: Rate::R23,
            ..PLAIN
        },
        TWELVE,
    ],
    ..SINGLE
};

/// The same with time interleaving: with a delay of 4 frames.
const PARTIAL_DEEP: PlanRow = PlanRow {
    layers: &[
        LayerRow {
            segments: 1,
            rate: Rate::R23,
            depth: DepthCode::D1,
            ..PLAIN
        },
        TWELVE,
    ],
    ..PARTIAL
};

/// Layer A of 16QAM at rate 1/2: 24 packets a frame, with a delay of 2 frames.
const PARTIAL_QAM16: PlanRow = PlanRow {
    layers: &[
        LayerRow {
            segments: 1,
            modulation: Modulation::Qam16,
            ..PLAIN
        },
        TWELVE,
    ],
    ..PARTIAL
};

/// Layer A at rate 7/8 with time interleaving: 21 packets a frame, with a delay of 4 frames.
const PARTIAL_FAST: PlanRow = PlanRow {
    layers: &[
        LayerRow {
            segments: 1,
            rate: Rate::R78,
            depth: DepthCode::D1,
            ..PLAIN
        },
        TWELVE,
    ],
    ..PARTIAL
};

/// A plan with switches, the packets of layer A's input, the frames that are sent, and the null packets that stand behind the input's
/// packets in the last of them.
pub struct PartialRow {
    pub first: PlanRow,
    pub switches: &'static [SwitchRow],
    pub packets: usize,
    pub frames: u32,
    pub nulls: usize,
}

/// Layer A's packets of an epoch come from the frame on that is as late as its delay. Epochs of 6, 3 and 6 frames, which give 2, 1
/// and 2 frames of 16, 24 and 21 packets; the same over modes 1, 2 and 1, with 48 packets in mode 2; an epoch of 3 frames, which
/// gives none, and one of 6.
pub const PARTIAL_EPOCHS: [PartialRow; 3] = [
    PartialRow {
        first: PARTIAL_DEEP,
        switches: &[
            SwitchRow {
                frame: 6,
                to: PARTIAL_QAM16,
            },
            SwitchRow {
                frame: 9,
                to: PARTIAL_FAST,
            },
        ],
        packets: 86,
        frames: 15,
        nulls: 12,
    },
    PartialRow {
        first: PARTIAL_DEEP,
        switches: &[
            SwitchRow {
                frame: 6,
                to: PlanRow {
                    mode: Mode::M2,
                    guard: Guard::G8,
                    ..PARTIAL_QAM16
                },
            },
            SwitchRow {
                frame: 9,
                to: PlanRow {
                    guard: Guard::G32,
                    ..PARTIAL_FAST
                },
            },
        ],
        packets: 110,
        frames: 15,
        nulls: 12,
    },
    PartialRow {
        first: PARTIAL_DEEP,
        switches: &[SwitchRow {
            frame: 3,
            to: PARTIAL_FAST,
        }],
        packets: 30,
        frames: 9,
        nulls: 12,
    },
];

/// How many bytes of four frames of version 2 come, which of them are changed, and the bytes of input and output from which on a read
/// and a write fail; how the partial reception ends, the packets that are written, and the bytes that are left.
pub struct PartialEndRow {
    pub bytes: usize,
    pub changes: &'static [ChangedByte],
    pub reads_until: u64,
    pub writes_until: u64,
    pub answer: Result<u32, ReceiveFault>,
    pub packets: usize,
    pub left: usize,
}

/// All four frames, of which the last two give 16 packets each, 3008 bytes.
const WHOLE: PartialEndRow = PartialEndRow {
    bytes: 4 * HEADED,
    changes: &[],
    reads_until: u64::MAX,
    writes_until: u64::MAX,
    answer: Ok(4),
    packets: 32,
    left: 0,
};

/// Ends within the symbols and a head; another guard interval in a head, whose symbols are left; reads that fail; writes that fail:
/// the first comes with the third frame.
pub const PARTIAL_ENDS: [PartialEndRow; 9] = [
    WHOLE,
    PartialEndRow {
        bytes: 3 * HEADED + 100,
        answer: Err(ReceiveFault::Truncated {
            seat: Seat::In,
            over: 100,
        }),
        packets: 16,
        ..WHOLE
    },
    PartialEndRow {
        bytes: 2 * HEADED + 5,
        answer: Err(ReceiveFault::Truncated {
            seat: Seat::In,
            over: 5,
        }),
        packets: 0,
        ..WHOLE
    },
    PartialEndRow {
        bytes: 2 * HEADED + 8,
        changes: &[ChangedByte {
            at: 2 * HEADED + 5,
            byte: 0x08,
        }],
        answer: Err(ReceiveFault::BadHead { frame: 2, byte: 5 }),
        packets: 0,
        ..WHOLE
    },
    PartialEndRow {
        bytes: 3 * HEADED + 8,
        changes: &[ChangedByte {
            at: 3 * HEADED,
            byte: 0x00,
        }],
        answer: Err(ReceiveFault::BadHead { frame: 3, byte: 0 }),
        packets: 16,
        ..WHOLE
    },
    PartialEndRow {
        reads_until: 509_404,
        answer: Err(ReceiveFault::ReadFault(Seat::In)),
        packets: 0,
        left: 3 * HEADED - 8,
        ..WHOLE
    },
    PartialEndRow {
        reads_until: 1_528_388,
        answer: Err(ReceiveFault::ReadFault(Seat::In)),
        packets: 16,
        left: HEADED - 200,
        ..WHOLE
    },
    PartialEndRow {
        writes_until: 0,
        answer: Err(ReceiveFault::WriteFault),
        packets: 0,
        left: HEADED,
        ..WHOLE
    },
    PartialEndRow {
        writes_until: 3008,
        answer: Err(ReceiveFault::WriteFault),
        packets: 16,
        ..WHOLE
    },
];
