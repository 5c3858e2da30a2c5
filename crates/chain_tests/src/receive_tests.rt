//! What `receive` writes of cells that `code` writes of what `remux` writes, and what it leaves of its input.

use crate::commands::{ROOM, cells_of, coded, receive_into, received, single_cells, wide_stream};
use crate::plans::{DEEP, LayerRow, PARTIAL_AND_WIDE, PLAIN, PlanRow, SINGLE};
use crate::streams::{
    CELLS, FRAME, NULL, Piece, SYMBOL, WIDE_CELLS, WIDE_FRAME, among_nulls, check, check_count,
    check_null_packets, check_pieces, check_wide_slots, is_null_packet, marked_packets, slot_at,
};
use edge_io::MemorySink;
use isdbt_base::{DepthCode, Modulation, Rate};
use model_coder::layer_packets;
use seg_receiver::ReceiveFault;
use std::alloc::Global;
use std::process::Abort;
use std::test::Fail;

/// Packets among the frames that are received of a partial and a wide layer, of 4608 slots each.
const WIDE_PACKETS: [Piece; 12] = [
    Piece {
        at: 2 * 204,
        bytes: &NULL,
    },
    Piece {
        at: 68 * 204,
        bytes: &NULL,
    },
    Piece {
        at: 9218 * 204,
        bytes: &NULL,
    },
    Piece {
        at: 13_826 * 204,
        bytes: &[0x47, 0, 0, 0xBB],
    },
    Piece {
        at: 13_827 * 204,
        bytes: &[0x47, 0, 1, 0xBB],
    },
    Piece {
        at: 13_892 * 204,
        bytes: &NULL,
    },
    Piece {
        at: 18_434 * 204,
        bytes: &[0x47, 10, 32, 0xBB],
    },
    Piece {
        at: 18_500 * 204,
        bytes: &[0x47, 0, 0, 0xAA],
    },
    Piece {
        at: 23_042 * 204,
        bytes: &[0x47, 20, 64, 0xBB],
    },
    Piece {
        at: 23_108 * 204,
        bytes: &[0x47, 0, 64, 0xAA],
    },
    Piece {
        at: 27_650 * 204,
        bytes: &NULL,
    },
    Piece {
        at: 27_716 * 204,
        bytes: &NULL,
    },
];

/// Packets that come behind so many null packets of their layer, and before so many.
#[derive(Clone, Copy)]
struct Late {
    indicator: u8,
    packets: usize,
    mark: u8,
    before: usize,
    after: usize,
}

/// Layer A is put off by four frames of 64 slots, and layer B by three of 2592; the other slots are of no layer.
const WIDE_LAYERS: [Late; 3] = [
    Late {
        indicator: 1,
        packets: 100,
        mark: 0xAA,
        before: 256,
        after: 92,
    },
    Late {
        indicator: 2,
        packets: 6000,
        mark: 0xBB,
        before: 7776,
        after: 4368,
    },
    Late {
        indicator: 0,
        packets: 0,
        mark: 0,
        before: 13_664,
        after: 0,
    },
];

/// Checks that the packets of a layer come late, and no others.
fn check_late(rt: &impl Abort, alloc: Global, frames: &[u8], late: &Late) -> Result<(), Fail> {
    let packets = marked_packets(alloc, late.packets, late.mark)?;
    let wanted = among_nulls(alloc, late.before, &packets, late.after)?;
    let found = layer_packets(alloc, frames, late.indicator)?;
    check_count(rt, found.len(), wanted.len());
    check(rt, found == wanted);
    Ok(())
}

#[test]
fn partial_and_wide_layer_received(rt: HostRuntime) -> Result<(), Fail> {
    let alloc = rt.alloc();
    let (_, stream) = wide_stream(alloc, &PARTIAL_AND_WIDE)?;
    let (_, cells) = coded(alloc, &PARTIAL_AND_WIDE, stream.bytes())?;
    check_count(&rt, cells.bytes().len(), 7 * WIDE_CELLS);
    let (frames, out) = received(alloc, &PARTIAL_AND_WIDE, cells.bytes())?;
    check_count(&rt, frames as usize, 7);
    check_count(&rt, out.bytes().len(), 7 * WIDE_FRAME);
    check_pieces(&rt, out.bytes(), &WIDE_PACKETS);
    check_wide_slots(&rt, out.bytes());
    for late in &WIDE_LAYERS {
        check_late(&rt, alloc, out.bytes(), late)?;
    }
    Ok(())
}

#[test]
fn deep_interleaving_of_one_packet(rt: HostRuntime) -> Result<(), Fail> {
    let alloc = rt.alloc();
    let packet = marked_packets(alloc, 1, 0xAA)?;
    let cells = cells_of(alloc, &DEEP, &packet)?;
    check_count(&rt, cells.len(), 11 * CELLS);
    let (frames, out) = received(alloc, &DEEP, &cells)?;
    check_count(&rt, frames as usize, 11);
    check_count(&rt, out.bytes().len(), 11 * FRAME);
    // Slot 8 of frame 10.
    let slot = slot_at(out.bytes(), 12_808);
    check(&rt, slot.starts_with(&packet));
    let information = [0xA0, 0x1F, 0xE0, 0x08, 0xFF, 0xFF, 0xFF, 0xFF];
    check(&rt, slot.get(188..196) == Some(information.as_slice()));
    for (number, slot) in out.bytes().chunks_exact(204).enumerate() {
        check(&rt, is_null_packet(slot) == (number != 12_808));
    }
    Ok(())
}

/// The information of slots of three frames of 1280, and the bytes FF behind it.
const INFORMATION: [Piece; 7] = [
    Piece {
        at: 188,
        bytes: b"\xA6\x0F\xE0\x00\xFF\xFF\xFF\xFF\xFF\xFF\xFF\xFF\xFF\xFF\xFF\xFF",
    },
    Piece {
        at: 8 * 204 + 188,
        bytes: b"\xA0\x1F\xE0\x08\xFF\xFF\xFF\xFF\xFF\xFF\xFF\xFF\xFF\xFF\xFF\xFF",
    },
    Piece {
        at: 1280 * 204 + 188,
        bytes: b"\xA3\x0F\xE0\x00\xFF\xFF\xFF\xFF\xFF\xFF\xFF\xFF\xFF\xFF\xFF\xFF",
    },
    Piece {
        at: 1288 * 204 + 188,
        bytes: b"\xA1\x1F\xE0\x08\xFF\xFF\xFF\xFF\xFF\xFF\xFF\xFF\xFF\xFF\xFF\xFF",
    },
    Piece {
        at: 2560 * 204 + 188,
        bytes: b"\xA2\x0F\xE0\x00\xFF\xFF\xFF\xFF\xFF\xFF\xFF\xFF\xFF\xFF\xFF\xFF",
    },
    Piece {
        at: 2568 * 204 + 188,
        bytes: b"\xA0\x1F\xE0\x08\xFF\xFF\xFF\xFF\xFF\xFF\xFF\xFF\xFF\xFF\xFF\xFF",
    },
    Piece {
        at: 3837 * 204 + 188,
        bytes: b"\xA0\x1F\xE4\xFD\xFF\xFF\xFF\xFF\xFF\xFF\xFF\xFF\xFF\xFF\xFF\xFF",
    },
];

/// A frame of 156 packets comes two frames late, in the order of its slots, and before it come null packets.
#[test]
fn packets_come_two_frames_late(rt: HostRuntime) -> Result<(), Fail> {
    let alloc = rt.alloc();
    let (frames, out) = received(alloc, &SINGLE, &single_cells(alloc)?)?;
    check_count(&rt, frames as usize, 3);
    let written = out.bytes();
    check_count(&rt, written.len(), 783_360);
    let late = Late {
        indicator: 1,
        packets: 156,
        mark: 0x55,
        before: 312,
        after: 0,
    };
    check_late(&rt, alloc, written, &late)?;
    check_null_packets(&rt, written.get(..2 * FRAME).unwrap_or(&[]));
    check_pieces(&rt, written, &INFORMATION);
    Ok(())
}

/// Checks that changed cells are received as those of three frames of a single layer are.
fn check_unchanged(
    rt: &impl Abort,
    alloc: Global,
    changed: &[u8],
    whole: &MemorySink,
) -> Result<(), Fail> {
    let (frames, out) = received(alloc, &SINGLE, changed)?;
    check_count(rt, frames as usize, 3);
    check(rt, out.bytes() == whole.bytes());
    Ok(())
}

/// Sets bits of each symbol's first byte.
fn set_head_bits(cells: &mut [u8], bits: u8) {
    for symbol in cells.chunks_exact_mut(SYMBOL) {
        symbol[0] |= bits;
    }
}

#[test]
fn upper_bits_of_symbol_bytes_say_nothing(rt: HostRuntime) -> Result<(), Fail> {
    let alloc = rt.alloc();
    let cells = single_cells(alloc)?;
    let (_, whole) = received(alloc, &SINGLE, &cells)?;
    for bits in [0xFE, 0x02, 0x80] {
        let mut changed = cells.to_vec(alloc)?;
        set_head_bits(&mut changed, bits);
        check(&rt, changed != cells);
        check_unchanged(&rt, alloc, &changed, &whole)?;
    }
    Ok(())
}

/// Turns the axis I of two cells of each symbol to the other sign.
fn spoil_two_cells(cells: &mut [u8]) {
    for symbol in cells.chunks_exact_mut(SYMBOL) {
        for at in [101, 1301] {
            symbol[at] = symbol[at].wrapping_neg();
        }
    }
}

/// Wrong bits that stand 1200 coded bits and more apart are put right.
#[test]
fn few_wrong_bits_change_nothing(rt: HostRuntime) -> Result<(), Fail> {
    let alloc = rt.alloc();
    let cells = single_cells(alloc)?;
    let (_, whole) = received(alloc, &SINGLE, &cells)?;
    let mut changed = cells.to_vec(alloc)?;
    spoil_two_cells(&mut changed);
    check(&rt, changed != cells);
    check_unchanged(&rt, alloc, &changed, &whole)
}

/// A level that is sent, and another that is read as it, in two's complement.
struct Level {
    sent: u8,
    other: u8,
}

/// The level that stands for another in a table.
fn level_for(byte: u8, levels: &[Level]) -> u8 {
    for level in levels {
        if level.sent == byte {
            return level.other;
        }
    }
    byte
}

/// Puts other levels for those of a table.
fn put_levels(cells: &mut [u8], levels: &[Level]) {
    for symbol in cells.chunks_exact_mut(SYMBOL) {
        for byte in symbol.iter_mut().skip(1) {
            *byte = level_for(*byte, levels);
        }
    }
}

/// A single layer, its packets in a frame, and other levels for its own.
struct LevelRow {
    plan: PlanRow,
    packets: usize,
    levels: &'static [Level],
}

/// A single layer of this modulation.
const QAM16: PlanRow = PlanRow {
    layers: &[LayerRow {
        segments: 13,
        modulation: Modulation::Qam16,
        rate: Rate::R12,
        depth: DepthCode::D0,
    }],
    ..SINGLE
};

/// A single layer of this modulation.
const QAM64: PlanRow = PlanRow {
    layers: &[LayerRow {
        segments: 13,
        modulation: Modulation::Qam64,
        rate: Rate::R12,
        depth: DepthCode::D0,
    }],
    ..SINGLE
};

/// Levels that no modulation sends: what lies past the outermost level, and the middle between two, which is read as the
/// higher.
const OTHER_LEVELS: [LevelRow; 4] = [
    LevelRow {
        plan: SINGLE,
        packets: 156,
        levels: &[
            Level { sent: 1, other: 0 },
            Level {
                sent: 0xFF,
                other: 0xFE,
            },
        ],
    },
    LevelRow {
        plan: SINGLE,
        packets: 156,
        levels: &[
            Level {
                sent: 1,
                other: 0x7F,
            },
            Level {
                sent: 0xFF,
                other: 0x80,
            },
        ],
    },
    LevelRow {
        plan: QAM16,
        packets: 312,
        levels: &[
            Level { sent: 3, other: 2 },
            Level { sent: 1, other: 0 },
            Level {
                sent: 0xFF,
                other: 0xFE,
            },
            Level {
                sent: 0xFD,
                other: 0x80,
            },
        ],
    },
    LevelRow {
        plan: QAM64,
        packets: 468,
        levels: &[
            Level {
                sent: 7,
                other: 0x7F,
            },
            Level { sent: 5, other: 4 },
            Level { sent: 3, other: 2 },
            Level { sent: 1, other: 0 },
            Level {
                sent: 0xFF,
                other: 0xFE,
            },
            Level {
                sent: 0xFD,
                other: 0xFC,
            },
            Level {
                sent: 0xFB,
                other: 0xFA,
            },
            Level {
                sent: 0xF9,
                other: 0x80,
            },
        ],
    },
];

#[test]
fn cells_of_an_unused_level_are_read_as_the_nearest(rt: HostRuntime) -> Result<(), Fail> {
    let alloc = rt.alloc();
    for row in &OTHER_LEVELS {
        let packets = marked_packets(alloc, row.packets, 0x55)?;
        let mut cells = cells_of(alloc, &row.plan, &packets)?;
        put_levels(&mut cells, row.levels);
        let (frames, out) = received(alloc, &row.plan, &cells)?;
        check_count(&rt, frames as usize, 3);
        let late = Late {
            indicator: 1,
            packets: row.packets,
            mark: 0x55,
            before: row.packets.wrapping_mul(2),
            after: 0,
        };
        check_late(&rt, alloc, out.bytes(), &late)?;
    }
    Ok(())
}

/// Where a write fails, and how many bytes of an input of three frames are left.
struct LeftRow {
    byte: u64,
    left: usize,
}

/// A frame of cells is taken whole before its packets are written.
const LEFT: [LeftRow; 4] = [
    LeftRow {
        byte: 0,
        left: 2 * CELLS,
    },
    LeftRow {
        byte: 1,
        left: CELLS,
    },
    LeftRow {
        byte: 261_120,
        left: CELLS,
    },
    LeftRow {
        byte: 522_240,
        left: 0,
    },
];

#[test]
fn input_left_after_a_failed_write(rt: HostRuntime) -> Result<(), Fail> {
    let alloc = rt.alloc();
    let cells = single_cells(alloc)?;
    for row in &LEFT {
        let mut out = MemorySink::new(alloc, ROOM)?;
        out.fail_from(row.byte);
        let ended = receive_into(alloc, SINGLE.mode, SINGLE.guard, &cells, out)?;
        check(&rt, ended.answer == Err(ReceiveFault::WriteFault));
        check_count(&rt, ended.left, row.left);
    }
    Ok(())
}
