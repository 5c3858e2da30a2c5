//! Streams of packets and of cells, and parts of them.

use std::alloc::Global;
use std::process::Abort;
use std::test::Fail;

/// Bytes of a frame of broadcast packets of mode 1 with guard interval 1/4: 1280 of 204.
pub const FRAME: usize = 261_120;

/// Bytes of its frame of cells: 204 symbols.
pub const CELLS: usize = 509_388;

/// Bytes of its symbol: one, and 1248 cells of two.
pub const SYMBOL: usize = 2497;

/// The head that a frame of cells has before its symbols in version 2, for that mode and guard interval.
pub const HEAD: [u8; 8] = [0x49, 0x53, 0x43, 0x32, 0x01, 0x04, 0, 0];

/// Bytes of its frame of cells with the head.
pub const HEADED: usize = 509_396;

/// Bytes of a frame of broadcast packets of mode 3 with guard interval 1/8: 4608 of 204.
pub const WIDE_FRAME: usize = 940_032;

/// Bytes of its frame of cells.
pub const WIDE_CELLS: usize = 2_036_940;

/// The first bytes of the null packet that is written.
pub const NULL: [u8; 4] = [0x47, 0x1F, 0xFF, 0x10];

/// Checks a fact. An assertion is long in a proof, so tests call this one.
pub fn check(rt: &impl Abort, holds: bool) {
    assert!(rt; holds);
}

/// Checks a count.
pub fn check_count(rt: &impl Abort, found: usize, wanted: usize) {
    assert_eq!(rt; found, wanted);
}

/// So many packets that begin with the sync byte, are numbered by the next two and filled with a mark.
pub fn marked_packets(alloc: Global, count: usize, mark: u8) -> Result<Vec<u8>, Fail> {
    let mut bytes = Vec::new(alloc);
    for packet in 0..count {
        let number = [0x47, (packet / 256 % 256) as u8, (packet % 256) as u8];
        bytes.extend_from_slice(&number)?;
        bytes.extend_from_slice(&[mark; 185])?;
    }
    Ok(bytes)
}

/// So many packets of each of layers A, B and C, filled with a mark of their layer.
pub fn marked_inputs(alloc: Global, packets: [usize; 3]) -> Result<[Vec<u8>; 3], Fail> {
    let a = marked_packets(alloc, packets[0], 0xAA)?;
    let b = marked_packets(alloc, packets[1], 0xBB)?;
    let c = marked_packets(alloc, packets[2], 0xCC)?;
    Ok([a, b, c])
}

/// A stream of cells of version 1 in version 2: each frame with its head.
pub fn with_heads(alloc: Global, cells: &[u8]) -> Result<Vec<u8>, Fail> {
    let mut bytes = Vec::new(alloc);
    for frame in cells.chunks(CELLS) {
        bytes.extend_from_slice(&HEAD)?;
        bytes.extend_from_slice(frame)?;
    }
    Ok(bytes)
}

/// Adds so many null packets.
pub fn add_nulls(bytes: &mut Vec<u8>, count: usize) -> Result<(), Fail> {
    for _packet in 0..count {
        bytes.extend_from_slice(&NULL)?;
        bytes.extend_from_slice(&[0xFF; 184])?;
    }
    Ok(())
}

/// Packets behind so many null packets, and before so many.
pub fn among_nulls(
    alloc: Global,
    before: usize,
    packets: &[u8],
    after: usize,
) -> Result<Vec<u8>, Fail> {
    let mut bytes = Vec::new(alloc);
    add_nulls(&mut bytes, before)?;
    bytes.extend_from_slice(packets)?;
    add_nulls(&mut bytes, after)?;
    Ok(bytes)
}

/// Whether a slot has the null packet that is written.
pub fn is_null_packet(slot: &[u8]) -> bool {
    let rest = slot.get(4..188).unwrap_or(&[]);
    slot.starts_with(&NULL) && rest.len() == 184 && rest.iter().all(|byte| *byte == 0xFF)
}

/// Checks that all packets of frames of broadcast packets are null packets.
pub fn check_null_packets(rt: &impl Abort, frames: &[u8]) {
    for slot in frames.chunks_exact(204) {
        check(rt, is_null_packet(slot));
    }
}

/// A frame of a stream, of frames of so many bytes, or nothing where it isn't there.
pub fn frame_at(stream: &[u8], size: usize, number: usize) -> &[u8] {
    let from = size.wrapping_mul(number);
    stream.get(from..from.wrapping_add(size)).unwrap_or(&[])
}

/// The first frames of a stream, of frames of so many bytes, as far as they are there.
pub fn first_frames(stream: &[u8], size: usize, count: usize) -> &[u8] {
    stream.get(..size.wrapping_mul(count)).unwrap_or(stream)
}

/// What follows so many frames of a stream, of frames of so many bytes.
pub fn frames_behind(stream: &[u8], size: usize, count: usize) -> &[u8] {
    stream.get(size.wrapping_mul(count)..).unwrap_or(&[])
}

/// The slot with a number among the slots of all frames, or nothing where it isn't there.
pub fn slot_at(frames: &[u8], number: usize) -> &[u8] {
    frame_at(frames, 204, number)
}

/// The slots of frames with this layer indicator.
pub fn slots_of(frames: &[u8], indicator: u8) -> usize {
    frames
        .chunks_exact(204)
        .filter(|slot| slot[189] / 16 == indicator)
        .count()
}

/// Bytes that must stand at a place.
#[derive(Clone, Copy)]
pub struct Piece {
    pub at: usize,
    pub bytes: &'static [u8],
}

/// Checks that these bytes stand in a stream at their places.
pub fn check_pieces(rt: &impl Abort, stream: &[u8], pieces: &[Piece]) {
    for piece in pieces {
        let rest = stream.get(piece.at..).unwrap_or(&[]);
        check(rt, rest.starts_with(piece.bytes));
    }
}

/// Checks that frames of a partial and a wide layer have the slots of each.
pub fn check_wide_slots(rt: &impl Abort, frames: &[u8]) {
    for frame in frames.chunks_exact(WIDE_FRAME) {
        for (indicator, count) in [(0, 1952), (1, 64), (2, 2592)] {
            check_count(rt, slots_of(frame, indicator), count);
        }
    }
}
