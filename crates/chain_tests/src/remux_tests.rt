//! What `remux` writes, and what it leaves of its inputs.

use crate::commands::{ROOM, remux_within, remuxed, wide_stream};
use crate::plans::{DEEP, LayerRow, PARTIAL_AND_WIDE, PlanRow, SINGLE};
use crate::streams::{
    FRAME, NULL, Piece, WIDE_FRAME, check, check_count, check_pieces, check_wide_slots,
    is_null_packet, marked_packets, slot_at,
};
use edge_io::MemorySink;
use isdbt_base::{DepthCode, Guard, Mode, Modulation, Rate};
use remux_core::RemuxFault;
use std::alloc::Global;
use std::test::Fail;

/// Slot 0, a slot of the layer and one of none, packets 1 and 155, and slot 8 of frame 1, which has the layer's indicator where
/// its packet is a null packet.
const FIRST_PACKETS: [Piece; 7] = [
    Piece {
        at: 188,
        bytes: &[0xA6, 0x0F, 0xE0, 0x00, 0xFF, 0xFF, 0xFF, 0xFF],
    },
    Piece {
        at: 8 * 204,
        bytes: &[0x47, 0, 0, 0x55],
    },
    Piece {
        at: 9 * 204,
        bytes: &NULL,
    },
    Piece {
        at: 15 * 204,
        bytes: &[0x47, 0, 1, 0x55],
    },
    Piece {
        at: 1277 * 204,
        bytes: &[0x47, 0, 155, 0x55],
    },
    Piece {
        at: FRAME + 8 * 204,
        bytes: &NULL,
    },
    Piece {
        at: FRAME + 8 * 204 + 188,
        bytes: &[0xA1, 0x1F, 0xE0, 0x08, 0xFF, 0xFF, 0xFF, 0xFF],
    },
];

#[test]
fn first_packet_out(rt: HostRuntime) -> Result<(), Fail> {
    let alloc = rt.alloc();
    let packets = marked_packets(alloc, 156, 0x55)?;
    let (frames, out) = remuxed(alloc, &SINGLE, [&packets, &[], &[]])?;
    let written = out.bytes();
    check_count(&rt, frames as usize, 3);
    check_count(&rt, written.len(), 783_360);
    check(&rt, is_null_packet(slot_at(written, 0)));
    check(&rt, slot_at(written, 0).ends_with(&[0xFF; 8]));
    check_pieces(&rt, written, &FIRST_PACKETS);
    Ok(())
}

/// Packets among the frames of a partial and a wide layer, of 4608 slots each.
const WIDE_PACKETS: [Piece; 10] = [
    Piece {
        at: 0,
        bytes: &NULL,
    },
    Piece {
        at: 204,
        bytes: &NULL,
    },
    Piece {
        at: 2 * 204,
        bytes: &[0x47, 0, 0, 0xBB],
    },
    Piece {
        at: 3 * 204,
        bytes: &[0x47, 0, 1, 0xBB],
    },
    Piece {
        at: 68 * 204,
        bytes: &[0x47, 0, 0, 0xAA],
    },
    Piece {
        at: 4610 * 204,
        bytes: &[0x47, 10, 32, 0xBB],
    },
    Piece {
        at: 4676 * 204,
        bytes: &[0x47, 0, 64, 0xAA],
    },
    Piece {
        at: 9218 * 204,
        bytes: &[0x47, 20, 64, 0xBB],
    },
    Piece {
        at: 9284 * 204,
        bytes: &NULL,
    },
    Piece {
        at: 13_826 * 204,
        bytes: &NULL,
    },
];

#[test]
fn partial_and_wide_layer(rt: HostRuntime) -> Result<(), Fail> {
    let (frames, out) = wide_stream(rt.alloc(), &PARTIAL_AND_WIDE)?;
    check_count(&rt, frames as usize, 7);
    check_count(&rt, out.bytes().len(), 7 * WIDE_FRAME);
    check_pieces(&rt, out.bytes(), &WIDE_PACKETS);
    check_wide_slots(&rt, out.bytes());
    Ok(())
}

#[test]
fn deep_interleaving_of_one_packet(rt: HostRuntime) -> Result<(), Fail> {
    let alloc = rt.alloc();
    let packet = marked_packets(alloc, 1, 0xAA)?;
    let (frames, out) = remuxed(alloc, &DEEP, [&packet, &[], &[]])?;
    check_count(&rt, frames as usize, 11);
    check_count(&rt, out.bytes().len(), 11 * FRAME);
    for (number, slot) in out.bytes().chunks_exact(204).enumerate() {
        check(&rt, slot.starts_with(&packet) == (number == 8));
        check(&rt, slot.starts_with(&NULL) == (number != 8));
    }
    Ok(())
}

/// A limit on frames, the answer, and the frames that are written.
struct LimitRow {
    limit: u32,
    answer: Result<u32, RemuxFault>,
    frames: usize,
}

const LIMITS: [LimitRow; 5] = [
    LimitRow {
        limit: 2,
        answer: Err(RemuxFault::TooLong),
        frames: 2,
    },
    LimitRow {
        limit: 3,
        answer: Err(RemuxFault::TooLong),
        frames: 3,
    },
    LimitRow {
        limit: 4,
        answer: Err(RemuxFault::TooLong),
        frames: 4,
    },
    LimitRow {
        limit: 5,
        answer: Ok(5),
        frames: 5,
    },
    LimitRow {
        limit: 6,
        answer: Ok(5),
        frames: 5,
    },
];

#[test]
fn frame_limit(rt: HostRuntime) -> Result<(), Fail> {
    let alloc = rt.alloc();
    let input = marked_packets(alloc, 400, 0xAA)?;
    for row in &LIMITS {
        let out = MemorySink::new(alloc, ROOM)?;
        let limit = row.limit.clamp(1, 100);
        let ended = remux_within(alloc, &SINGLE, [&input, &[], &[]], limit, out)?;
        check(&rt, ended.answer == row.answer);
        check(
            &rt,
            Some(ended.out.bytes().len()) == FRAME.checked_mul(row.frames),
        );
    }
    Ok(())
}

/// Where a write fails, and how many bytes of an input of 400 packets are left.
struct LeftRow {
    byte: u64,
    left: usize,
}

/// A frame takes 156 packets of 188 bytes, before it is written.
const LEFT: [LeftRow; 4] = [
    LeftRow {
        byte: 0,
        left: 244 * 188,
    },
    LeftRow {
        byte: 261_120,
        left: 88 * 188,
    },
    LeftRow {
        byte: 522_240,
        left: 0,
    },
    LeftRow {
        byte: 1_044_480,
        left: 0,
    },
];

#[test]
fn input_left_after_a_failed_write(rt: HostRuntime) -> Result<(), Fail> {
    let alloc = rt.alloc();
    let input = marked_packets(alloc, 400, 0xAA)?;
    for row in &LEFT {
        let mut out = MemorySink::new(alloc, ROOM)?;
        out.fail_from(row.byte);
        let ended = remux_within(alloc, &SINGLE, [&input, &[], &[]], 10, out)?;
        check(&rt, ended.answer == Err(RemuxFault::WriteFault));
        check_count(&rt, ended.left, row.left);
    }
    Ok(())
}

/// Settings of one to three layers in each mode.
const SETTINGS: [PlanRow; 12] = [
    PlanRow {
        mode: Mode::M1,
        guard: Guard::G4,
        is_partial: false,
        layers: &[LayerRow {
            segments: 13,
            modulation: Modulation::Qpsk,
            rate: Rate::R12,
            depth: DepthCode::D0,
        }],
    },
    PlanRow {
        mode: Mode::M1,
        guard: Guard::G8,
        is_partial: false,
        layers: &[LayerRow {
            segments: 13,
            modulation: Modulation::Qam64,
            rate: Rate::R78,
            depth: DepthCode::D3,
        }],
    },
    PlanRow {
        mode: Mode::M1,
        guard: Guard::G16,
        is_partial: true,
        layers: &[
            LayerRow {
                segments: 1,
                modulation: Modulation::Qpsk,
                rate: Rate::R23,
                depth: DepthCode::D1,
            },
            LayerRow {
                segments: 12,
                modulation: Modulation::Qam16,
                rate: Rate::R56,
                depth: DepthCode::D2,
            },
        ],
    },
    PlanRow {
        mode: Mode::M1,
        guard: Guard::G32,
        is_partial: false,
        layers: &[
            LayerRow {
                segments: 5,
                modulation: Modulation::Qam16,
                rate: Rate::R12,
                depth: DepthCode::D2,
            },
            LayerRow {
                segments: 4,
                modulation: Modulation::Qpsk,
                rate: Rate::R34,
                depth: DepthCode::D0,
            },
            LayerRow {
                segments: 4,
                modulation: Modulation::Qam64,
                rate: Rate::R23,
                depth: DepthCode::D3,
            },
        ],
    },
    PlanRow {
        mode: Mode::M2,
        guard: Guard::G4,
        is_partial: false,
        layers: &[LayerRow {
            segments: 13,
            modulation: Modulation::Qam16,
            rate: Rate::R34,
            depth: DepthCode::D1,
        }],
    },
    PlanRow {
        mode: Mode::M2,
        guard: Guard::G8,
        is_partial: false,
        layers: &[
            LayerRow {
                segments: 6,
                modulation: Modulation::Qpsk,
                rate: Rate::R56,
                depth: DepthCode::D3,
            },
            LayerRow {
                segments: 7,
                modulation: Modulation::Qam64,
                rate: Rate::R12,
                depth: DepthCode::D0,
            },
        ],
    },
    PlanRow {
        mode: Mode::M2,
        guard: Guard::G16,
        is_partial: false,
        layers: &[
            LayerRow {
                segments: 1,
                modulation: Modulation::Qam16,
                rate: Rate::R78,
                depth: DepthCode::D2,
            },
            LayerRow {
                segments: 1,
                modulation: Modulation::Qpsk,
                rate: Rate::R12,
                depth: DepthCode::D1,
            },
            LayerRow {
                segments: 11,
                modulation: Modulation::Qam64,
                rate: Rate::R34,
                depth: DepthCode::D3,
            },
        ],
    },
    PlanRow {
        mode: Mode::M2,
        guard: Guard::G32,
        is_partial: true,
        layers: &[
            LayerRow {
                segments: 1,
                modulation: Modulation::Qam64,
                rate: Rate::R12,
                depth: DepthCode::D0,
            },
            LayerRow {
                segments: 12,
                modulation: Modulation::Qpsk,
                rate: Rate::R78,
                depth: DepthCode::D2,
            },
        ],
    },
    PlanRow {
        mode: Mode::M3,
        guard: Guard::G4,
        is_partial: false,
        layers: &[LayerRow {
            segments: 13,
            modulation: Modulation::Qam64,
            rate: Rate::R56,
            depth: DepthCode::D3,
        }],
    },
    PlanRow {
        mode: Mode::M3,
        guard: Guard::G8,
        is_partial: true,
        layers: &[
            LayerRow {
                segments: 1,
                modulation: Modulation::Qpsk,
                rate: Rate::R23,
                depth: DepthCode::D3,
            },
            LayerRow {
                segments: 12,
                modulation: Modulation::Qam64,
                rate: Rate::R34,
                depth: DepthCode::D2,
            },
        ],
    },
    PlanRow {
        mode: Mode::M3,
        guard: Guard::G16,
        is_partial: false,
        layers: &[
            LayerRow {
                segments: 3,
                modulation: Modulation::Qpsk,
                rate: Rate::R12,
                depth: DepthCode::D1,
            },
            LayerRow {
                segments: 5,
                modulation: Modulation::Qam16,
                rate: Rate::R23,
                depth: DepthCode::D2,
            },
            LayerRow {
                segments: 5,
                modulation: Modulation::Qam64,
                rate: Rate::R56,
                depth: DepthCode::D0,
            },
        ],
    },
    PlanRow {
        mode: Mode::M3,
        guard: Guard::G32,
        is_partial: false,
        layers: &[
            LayerRow {
                segments: 7,
                modulation: Modulation::Qam16,
                rate: Rate::R78,
                depth: DepthCode::D1,
            },
            LayerRow {
                segments: 6,
                modulation: Modulation::Qam64,
                rate: Rate::R78,
                depth: DepthCode::D3,
            },
        ],
    },
];

/// The packets of a layer as the frames have them, slot by slot: all but null packets.
fn read_back(alloc: Global, frames: &[u8], indicator: u8) -> Result<Vec<u8>, Fail> {
    let mut bytes = Vec::new(alloc);
    for slot in frames.chunks_exact(204) {
        if slot[189] / 16 == indicator && !slot.starts_with(&NULL) {
            bytes.extend_from_slice(slot.get(..188).unwrap_or(&[]))?;
        }
    }
    Ok(bytes)
}

#[test]
fn settings_read_back(rt: HostRuntime) -> Result<(), Fail> {
    let alloc = rt.alloc();
    let a = marked_packets(alloc, 1000, 0xAA)?;
    let b = marked_packets(alloc, 900, 0xBB)?;
    let c = marked_packets(alloc, 800, 0xCC)?;
    for row in &SETTINGS {
        let (_, out) = remuxed(alloc, row, [&a, &b, &c])?;
        let packets = [(1, &a), (2, &b), (3, &c)];
        for (indicator, packets) in packets.into_iter().take(row.layers.len()) {
            check(&rt, read_back(alloc, out.bytes(), indicator)? == *packets);
        }
    }
    Ok(())
}
