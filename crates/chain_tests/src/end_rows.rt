//! How `remux` ends over a plan of a single layer with a switch to the same at frame 3, as rows of tables.

use edge_io::Seat;
use remux_core::RemuxFault;

/// The packets of layer A, the limit on frames, the byte from which on
/// a read fails; the answer, the frames that are written, and the bytes of layer A's input that are left.
pub struct EndRow {
    pub packets: usize,
    pub limit: u32,
    pub fails_from: u64,
    pub answer: Result<u32, RemuxFault>,
    pub frames: usize,
    pub left: usize,
}

/// Of each frame before the switch the first alone has packets, 156 of them: 29,328 bytes. The limit within an epoch that isn't
/// the last, at the start of the last one (where a byte is asked for), behind a frame with packets, within the null packets
/// behind, and past the end; then reads that fail in the second epoch, and where that byte is asked for.
pub const ENDS: [EndRow; 12] = [
    EndRow {
        packets: 200,
        limit: 2,
        fails_from: u64::MAX,
        answer: Err(RemuxFault::TooLong),
        frames: 2,
        left: 44 * 188,
    },
    EndRow {
        packets: 156,
        limit: 2,
        fails_from: u64::MAX,
        answer: Err(RemuxFault::TooLong),
        frames: 2,
        left: 0,
    },
    EndRow {
        packets: 200,
        limit: 3,
        fails_from: u64::MAX,
        answer: Err(RemuxFault::TooLong),
        frames: 3,
        left: 44 * 188 - 1,
    },
    EndRow {
        packets: 156,
        limit: 3,
        fails_from: u64::MAX,
        answer: Ok(3),
        frames: 3,
        left: 0,
    },
    EndRow {
        packets: 0,
        limit: 3,
        fails_from: u64::MAX,
        answer: Ok(3),
        frames: 3,
        left: 0,
    },
    EndRow {
        packets: 200,
        limit: 4,
        fails_from: u64::MAX,
        answer: Err(RemuxFault::TooLong),
        frames: 4,
        left: 0,
    },
    EndRow {
        packets: 200,
        limit: 5,
        fails_from: u64::MAX,
        answer: Err(RemuxFault::TooLong),
        frames: 5,
        left: 0,
    },
    EndRow {
        packets: 200,
        limit: 6,
        fails_from: u64::MAX,
        answer: Ok(6),
        frames: 6,
        left: 0,
    },
    EndRow {
        packets: 156,
        limit: 10,
        fails_from: u64::MAX,
        answer: Ok(3),
        frames: 3,
        left: 0,
    },
    EndRow {
        packets: 200,
        limit: 10,
        fails_from: 29_328,
        answer: Err(RemuxFault::ReadFault(Seat::A)),
        frames: 3,
        left: 44 * 188,
    },
    EndRow {
        packets: 200,
        limit: 10,
        fails_from: 29_329,
        answer: Err(RemuxFault::ReadFault(Seat::A)),
        frames: 3,
        left: 0,
    },
    EndRow {
        packets: 156,
        limit: 3,
        fails_from: 29_328,
        answer: Err(RemuxFault::ReadFault(Seat::A)),
        frames: 3,
        left: 0,
    },
];

/// What is wrong with the input of 200 packets: the packet that has no sync byte, the bytes that are missing at its end, the byte
/// of the output from which on a write fails; and the answer, the frames that are written, and the bytes that are left.
pub struct WrongRow {
    pub packet: usize,
    pub missing: usize,
    pub writes_until: u64,
    pub answer: RemuxFault,
    pub frames: usize,
    pub left: usize,
}

/// Packets without a sync byte behind the switch and before it, an end within a packet, and writes that fail behind the
/// switch and before it.
pub const WRONG: [WrongRow; 5] = [
    WrongRow {
        packet: 170,
        missing: 0,
        writes_until: u64::MAX,
        answer: RemuxFault::BadSync {
            seat: Seat::A,
            packet: 170,
        },
        frames: 3,
        left: 0,
    },
    WrongRow {
        packet: 155,
        missing: 0,
        writes_until: u64::MAX,
        answer: RemuxFault::BadSync {
            seat: Seat::A,
            packet: 155,
        },
        frames: 0,
        left: 44 * 188,
    },
    WrongRow {
        packet: 1000,
        missing: 3,
        writes_until: u64::MAX,
        answer: RemuxFault::Truncated {
            seat: Seat::A,
            over: 185,
        },
        frames: 3,
        left: 0,
    },
    WrongRow {
        packet: 1000,
        missing: 0,
        writes_until: 3 * 261_120,
        answer: RemuxFault::WriteFault,
        frames: 3,
        left: 0,
    },
    WrongRow {
        packet: 1000,
        missing: 0,
        writes_until: 2 * 261_120,
        answer: RemuxFault::WriteFault,
        frames: 2,
        left: 44 * 188,
    },
];
