//! What `code` writes, mostly of what `remux` writes, and what it leaves of its input.

use crate::commands::{CodeEnd, ROOM, code_into, coded, remuxed, wide_stream};
use crate::plans::{PARTIAL_AND_WIDE, SINGLE, TWO_LAYERS};
use crate::streams::{
    CELLS, FRAME, SYMBOL, WIDE_CELLS, WIDE_FRAME, add_nulls, check, check_count, frame_at,
    marked_packets, slot_at,
};
use coder_core::CodeFault;
use edge_io::MemorySink;
use isdbt_base::Layer;
use std::alloc::Global;
use std::test::Fail;

#[test]
fn partial_and_wide_layer_coded(rt: HostRuntime) -> Result<(), Fail> {
    let alloc = rt.alloc();
    let (_, stream) = wide_stream(alloc, &PARTIAL_AND_WIDE)?;
    let (frames, cells) = coded(alloc, &PARTIAL_AND_WIDE, stream.bytes())?;
    check_count(&rt, frames as usize, 7);
    check_count(&rt, cells.bytes().len(), 7 * WIDE_CELLS);
    Ok(())
}

/// The cells of one null packet in a single layer: three frames.
fn null_cells(alloc: Global) -> Result<(u32, MemorySink), Fail> {
    let mut packet = Vec::new(alloc);
    add_nulls(&mut packet, 1)?;
    let (_, stream) = remuxed(alloc, &SINGLE, [&packet, &[], &[]])?;
    coded(alloc, &SINGLE, stream.bytes())
}

/// How many bytes stand at the front of the cells, the first byte of each symbol left out, that are 01.
fn plain_bytes(cells: &[u8]) -> usize {
    let mut count = 0usize;
    for (place, byte) in cells.iter().enumerate() {
        if place % SYMBOL == 0 {
            continue;
        }
        if *byte != 1 {
            return count;
        }
        count = count.wrapping_add(1);
    }
    count
}

#[test]
fn first_cells(rt: HostRuntime) -> Result<(), Fail> {
    let (frames, out) = null_cells(rt.alloc())?;
    check_count(&rt, frames as usize, 3);
    let cells = out.bytes();
    check_count(&rt, cells.len(), 1_528_164);
    // Symbol 0: a TMCC bit, and cells of zero bits.
    check(&rt, cells.first() == Some(&0));
    check(&rt, cells.get(1..SYMBOL) == Some([1u8; 2496].as_slice()));
    // The first cell that isn't of zero bits is cell 651 of symbol 191.
    let next = [1, 1, 1, 1, 1, 1, 0xFF, 1, 1, 1, 0xFF, 1, 0xFF, 1, 1, 1];
    check(&rt, cells.get(478_224..478_240) == Some(next.as_slice()));
    check_count(&rt, plain_bytes(cells), 191 * 2496 + 2 * 651);
    Ok(())
}

/// The first byte of each symbol of a frame of cells.
fn heads_of(alloc: Global, cells: &[u8], frame: usize) -> Result<Vec<u8>, Fail> {
    let mut heads = Vec::new(alloc);
    for symbol in frame_at(cells, CELLS, frame).chunks_exact(SYMBOL) {
        heads.push(symbol.first().copied().unwrap_or(2))?;
    }
    Ok(heads)
}

/// The TMCC bits of even frames of a single layer up to bit 40: the reference, the sync word, the segment type, the system, no
/// countdown, no start-up, no partial reception, and layer A.
const EVEN: [u8; 41] = [
    0, 0, 0, 1, 1, 0, 1, 0, 1, 1, 1, 1, 0, 1, 1, 1, 0, 0, 0, 0, 0, 0, 1, 1, 1, 1, 0, 0, 0, 0, 1, 0,
    0, 0, 0, 0, 0, 1, 1, 0, 1,
];

/// Those of odd frames.
const ODD: [u8; 41] = [
    0, 1, 1, 0, 0, 1, 0, 1, 0, 0, 0, 0, 1, 0, 0, 0, 1, 0, 0, 0, 0, 0, 1, 1, 1, 1, 0, 0, 0, 0, 1, 0,
    0, 0, 0, 0, 0, 1, 1, 0, 1,
];

/// The bits behind those, of unused layers, of no next setting and reserved, are ones up to bit 121, and then comes the parity.
#[test]
fn word_of_each_frame(rt: HostRuntime) -> Result<(), Fail> {
    let alloc = rt.alloc();
    let (frames, out) = null_cells(alloc)?;
    check_count(&rt, frames as usize, 3);
    for (frame, bits) in [(0, &EVEN), (1, &ODD), (2, &EVEN)] {
        let heads = heads_of(alloc, out.bytes(), frame)?;
        check_count(&rt, heads.len(), 204);
        check(&rt, heads.starts_with(bits));
        check(&rt, heads.get(41..122) == Some([1; 81].as_slice()));
        check(&rt, heads.iter().all(|bit| *bit < 2));
    }
    Ok(())
}

/// The layer indicator of a slot.
fn indicator_of(slot: &[u8]) -> u8 {
    slot.get(189).copied().unwrap_or(0) / 16
}

/// Gives the first slot without a layer, behind slot 0, to layer B.
fn give_slot(frame: &mut [u8]) {
    for slot in frame.chunks_exact_mut(204).skip(1) {
        if slot[189] < 16 {
            slot[189] = slot[189].wrapping_add(32);
            return;
        }
    }
}

/// Slot 0, and then the others from the last to the first.
fn reversed(alloc: Global, frame: &[u8]) -> Result<Vec<u8>, Fail> {
    let slots = frame.len() / 204;
    let mut bytes = slot_at(frame, 0).to_vec(alloc)?;
    for place in 1..slots {
        bytes.extend_from_slice(slot_at(frame, slots - place))?;
    }
    Ok(bytes)
}

/// Adds the slots behind slot 0 with this layer indicator.
fn add_slots(frame: &[u8], indicator: u8, bytes: &mut Vec<u8>) -> Result<(), Fail> {
    for slot in frame.chunks_exact(204).skip(1) {
        if indicator_of(slot) == indicator {
            bytes.extend_from_slice(slot)?;
        }
    }
    Ok(())
}

/// Slot 0, and then those of layer B, of A, and of none.
fn by_layer(alloc: Global, frame: &[u8]) -> Result<Vec<u8>, Fail> {
    let mut bytes = slot_at(frame, 0).to_vec(alloc)?;
    for indicator in [2, 1, 0] {
        add_slots(frame, indicator, &mut bytes)?;
    }
    Ok(bytes)
}

/// Codes a frame of two layers and the next.
fn code_two(alloc: Global, frame: &[u8], next: &[u8]) -> Result<MemorySink, Fail> {
    let mut stream = frame.to_vec(alloc)?;
    stream.extend_from_slice(next)?;
    let (_, out) = coded(alloc, &TWO_LAYERS, &stream)?;
    Ok(out)
}

/// The broadcast packets of 20 and 500 packets of two layers.
fn two_layers(alloc: Global) -> Result<MemorySink, Fail> {
    let a = marked_packets(alloc, 20, 0xAA)?;
    let b = marked_packets(alloc, 500, 0xBB)?;
    let (_, stream) = remuxed(alloc, &TWO_LAYERS, [&a, &b, &[]])?;
    Ok(stream)
}

/// The cells depend on the order of the slots within each layer alone.
#[test]
fn order_of_slots(rt: HostRuntime) -> Result<(), Fail> {
    let alloc = rt.alloc();
    let stream = two_layers(alloc)?;
    let frame = frame_at(stream.bytes(), FRAME, 0);
    let next = frame_at(stream.bytes(), FRAME, 1);
    let cells = code_two(alloc, frame, next)?;
    check_count(&rt, cells.bytes().len(), 2 * CELLS);
    let orders = [
        (by_layer(alloc, frame)?, true),
        (reversed(alloc, frame)?, false),
    ];
    for (other, is_same) in &orders {
        check_count(&rt, other.len(), FRAME);
        check(&rt, other.as_slice() != frame);
        let found = code_two(alloc, other, next)?;
        check(&rt, (found.bytes() == cells.bytes()) == *is_same);
        check_count(&rt, found.bytes().len(), 2 * CELLS);
    }
    Ok(())
}

/// Codes one frame of a partial and a wide layer.
fn code_wide(alloc: Global, frame: &[u8]) -> Result<CodeEnd, Fail> {
    let out = MemorySink::new(alloc, ROOM)?;
    code_into(alloc, &PARTIAL_AND_WIDE, frame, out)
}

#[test]
fn count_not_order_of_slots(rt: HostRuntime) -> Result<(), Fail> {
    let alloc = rt.alloc();
    let (_, stream) = wide_stream(alloc, &PARTIAL_AND_WIDE)?;
    let frame = frame_at(stream.bytes(), WIDE_FRAME, 0);
    let mut more = frame.to_vec(alloc)?;
    give_slot(&mut more);
    let ended = code_wide(alloc, &more)?;
    let fault = CodeFault::WrongCount {
        frame: 0,
        layer: Layer::B,
        found: 2593,
    };
    check(&rt, ended.answer == Err(fault));
    check_count(&rt, ended.out.bytes().len(), 0);
    let other = reversed(alloc, frame)?;
    check_count(&rt, other.len(), WIDE_FRAME);
    check(&rt, other.as_slice() != frame);
    let ended = code_wide(alloc, &other)?;
    check(&rt, ended.answer == Ok(1));
    check_count(&rt, ended.out.bytes().len(), WIDE_CELLS);
    Ok(())
}

/// Where a write fails, and how many bytes of an input of three frames are left.
struct LeftRow {
    byte: u64,
    left: usize,
}

/// A frame is taken whole before its cells are written.
const LEFT: [LeftRow; 4] = [
    LeftRow {
        byte: 0,
        left: 2 * FRAME,
    },
    LeftRow {
        byte: 1,
        left: FRAME,
    },
    LeftRow {
        byte: 509_388,
        left: FRAME,
    },
    LeftRow {
        byte: 1_018_776,
        left: 0,
    },
];

#[test]
fn input_left_after_a_failed_write(rt: HostRuntime) -> Result<(), Fail> {
    let alloc = rt.alloc();
    let packet = marked_packets(alloc, 1, 0x55)?;
    let (_, stream) = remuxed(alloc, &SINGLE, [&packet, &[], &[]])?;
    for row in &LEFT {
        let mut out = MemorySink::new(alloc, ROOM)?;
        out.fail_from(row.byte);
        let ended = code_into(alloc, &SINGLE, stream.bytes(), out)?;
        check(&rt, ended.answer == Err(CodeFault::WriteFault));
        check_count(&rt, ended.left, row.left);
    }
    Ok(())
}
