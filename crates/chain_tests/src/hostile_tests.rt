//! Words and cells that no sender sends.

use crate::commands::{
    LIMIT, ROOM, plain, receive_into, received, send, show_stream, single_cells, whole,
};
use crate::partial_tests::first_form;
use crate::placed::placed_packets;
use crate::plans::{PARTIAL_AND_WIDE, SINGLE, plan_of};
use crate::show_cells_tests::check_lines;
use crate::streams::{
    CELLS, FRAME, SYMBOL, WIDE_CELLS, check, check_count, frame_at, marked_packets,
};
use crate::switch_tests::{countdown_of, without_countdown};
use crate::words::{fit, put_word, word_at, word_of_symbols};
use edge_io::{MemorySink, Seat};
use isdbt_base::{Layer, Writing};
use seg_receiver::ReceiveFault;
use std::alloc::Global;
use std::process::Abort;
use std::test::Fail;
use tmcc_word::{TmccFault, read_word};

/// Bits of a word from a bit on.
#[derive(Clone, Copy)]
struct Bits {
    from: usize,
    bits: &'static str,
}

/// Bits that are put into the word of the partial and the wide layer, whether the parity is made anew, and why the word is
/// refused.
struct WordRow {
    pieces: &'static [Bits],
    fits: bool,
    reason: TmccFault,
}

/// A sync word of ones; a segment type that begins with 1; a system of 01; layer A's field of ones; layer B's field of ones
/// where layer C is used; layer B of 11 segments; layer A of rate 101.
const WORDS: [WordRow; 7] = [
    WordRow {
        pieces: &[Bits {
            from: 1,
            bits: "1111111111111111",
        }],
        fits: false,
        reason: TmccFault::Sync,
    },
    WordRow {
        pieces: &[Bits {
            from: 17,
            bits: "1",
        }],
        fits: false,
        reason: TmccFault::SegmentType,
    },
    WordRow {
        pieces: &[Bits {
            from: 20,
            bits: "01",
        }],
        fits: true,
        reason: TmccFault::System,
    },
    WordRow {
        pieces: &[Bits {
            from: 28,
            bits: "1111111111111",
        }],
        fits: true,
        reason: TmccFault::LayerField(Layer::A),
    },
    WordRow {
        pieces: &[
            Bits {
                from: 41,
                bits: "1111111111111",
            },
            Bits {
                from: 54,
                bits: "0010010000001",
            },
        ],
        fits: true,
        reason: TmccFault::LayerField(Layer::B),
    },
    WordRow {
        pieces: &[Bits {
            from: 50,
            bits: "1011",
        }],
        fits: true,
        reason: TmccFault::Segments(12),
    },
    WordRow {
        pieces: &[Bits {
            from: 31,
            bits: "101",
        }],
        fits: true,
        reason: TmccFault::LayerField(Layer::A),
    },
];

/// Puts bits into a word.
fn put_bits(word: &mut [bool; 204], piece: &Bits) {
    for (bit, letter) in word.iter_mut().skip(piece.from).zip(piece.bits.bytes()) {
        *bit = letter == b'1';
    }
}

/// Checks that a first frame is refused, by `receive` and in its listing, with nothing written.
fn check_refused(
    rt: &impl Abort,
    alloc: Global,
    cells: &[u8],
    reason: TmccFault,
) -> Result<(), Fail> {
    let row = &PARTIAL_AND_WIDE;
    let fault = ReceiveFault::BadTmcc { frame: 0, reason };
    let out = MemorySink::new(alloc, ROOM)?;
    let ended = receive_into(alloc, row.mode, row.guard, cells, out)?;
    check(rt, ended.answer == Err(fault));
    check(rt, ended.out.bytes().is_empty());
    let out = MemorySink::new(alloc, ROOM)?;
    let listed = show_stream(
        alloc,
        plain(first_form(&plan_of(row)?)),
        LIMIT,
        &whole(cells),
        out,
    )?;
    check(rt, listed.answer == Err(fault));
    check(rt, listed.out.bytes().is_empty());
    Ok(())
}

#[test]
fn hostile_words(rt: HostRuntime) -> Result<(), Fail> {
    let alloc = rt.alloc();
    let packets = marked_packets(alloc, 64, 0xAA)?;
    let how = Writing { v2: false };
    let sent = send(
        alloc,
        &plan_of(&PARTIAL_AND_WIDE)?,
        how,
        [&packets, &[], &[]],
    )?;
    let frame = frame_at(sent.cells.bytes(), WIDE_CELLS, 0);
    for row in &WORDS {
        let mut word = word_of_symbols(frame, 9985);
        for piece in row.pieces {
            put_bits(&mut word, piece);
        }
        if row.fits {
            fit(&mut word);
        }
        check(&rt, read_word(&word) == Err(row.reason));
        let mut cells = frame.to_vec(alloc)?;
        put_word(&mut cells, 9985, 0, &word);
        check_refused(&rt, alloc, &cells, row.reason)?;
    }
    Ok(())
}

/// How many bytes come of three frames and one byte more, and the frames that are written before the input ends in one.
struct CutRow {
    bytes: usize,
    over: u32,
    frames: usize,
}

const CUTS: [CutRow; 2] = [
    CutRow {
        bytes: 509_387,
        over: 509_387,
        frames: 0,
    },
    CutRow {
        bytes: 3 * CELLS + 1,
        over: 1,
        frames: 3,
    },
];

#[test]
fn cells_cut_by_a_byte(rt: HostRuntime) -> Result<(), Fail> {
    let alloc = rt.alloc();
    let mut cells = single_cells(alloc)?;
    cells.extend_from_slice(&[1])?;
    for row in &CUTS {
        let out = MemorySink::new(alloc, ROOM)?;
        let front = cells.get(..row.bytes).unwrap_or(&[]);
        let ended = receive_into(alloc, SINGLE.mode, SINGLE.guard, front, out)?;
        let fault = ReceiveFault::Truncated {
            seat: Seat::In,
            over: row.over,
        };
        check(&rt, ended.answer == Err(fault));
        check_count(&rt, ended.out.bytes().len(), FRAME.wrapping_mul(row.frames));
    }
    Ok(())
}

/// The lines of three frames with countdown 5.
const LINES: [&str; 3] = [
    "frame 0 even countdown 5 now A:13:qpsk:1/2:0 next -\n",
    "frame 1 odd countdown 5 now A:13:qpsk:1/2:0 next -\n",
    "frame 2 even countdown 5 now A:13:qpsk:1/2:0 next -\n",
];

/// A countdown of 5 in each word, which never comes to its end: the same packets, with that countdown in each information.
#[test]
fn countdown_that_stays(rt: HostRuntime) -> Result<(), Fail> {
    let alloc = rt.alloc();
    let mut cells = single_cells(alloc)?;
    let (_, whole) = received(alloc, &SINGLE, &cells)?;
    let five = Bits {
        from: 22,
        bits: "0101",
    };
    for number in 0..3 {
        let mut word = word_at(&cells, number);
        put_bits(&mut word, &five);
        fit(&mut word);
        put_word(&mut cells, SYMBOL, number, &word);
    }
    let (frames, out) = received(alloc, &SINGLE, &cells)?;
    check_count(&rt, frames as usize, 3);
    let same = without_countdown(alloc, out.bytes())?;
    check(&rt, same.as_slice() == whole.bytes());
    for frame in out.bytes().chunks_exact(FRAME) {
        check(&rt, countdown_of(frame) == Some(5));
    }
    check_lines(&rt, alloc, first_form(&plan_of(&SINGLE)?), &cells, &LINES)
}

/// The next byte of the dispersal sequence, each bit of which is the sum of those 14 and 15 before. The newest 15 bits stand in
/// the register, the newest lowest.
fn sequence_byte(register: &mut u16) -> u8 {
    let mut byte = 0u8;
    for _bit in 0..8 {
        let next = ((*register >> 13) ^ (*register >> 14)) & 1;
        *register = (*register << 1) | next;
        byte = (byte << 1) | (next as u8);
    }
    byte
}

/// The packets of a frame of which each bit is decided as 1: behind the sync byte the opposite of the sequence, which lies far
/// from each codeword, and so with the error mark.
fn packets_of_ones(alloc: Global) -> Result<Vec<u8>, Fail> {
    let mut bytes = Vec::new(alloc);
    let mut register = 0xA9u16;
    for _packet in 0..156 {
        bytes.push(0x47)?;
        bytes.push(!sequence_byte(&mut register) | 0x80)?;
        for place in 2..205 {
            let byte = !sequence_byte(&mut register);
            if place < 188 {
                bytes.push(byte)?;
            }
        }
    }
    Ok(bytes)
}

/// Each cell at the least level of both parts, so that each bit is read as 1: all frames are received, and the third has the
/// packets of these bits.
#[test]
fn cells_of_the_least_byte(rt: HostRuntime) -> Result<(), Fail> {
    let alloc = rt.alloc();
    let mut cells = single_cells(alloc)?;
    for symbol in cells.chunks_exact_mut(SYMBOL) {
        for byte in symbol.iter_mut().skip(1) {
            *byte = 0x80;
        }
    }
    let (frames, out) = received(alloc, &SINGLE, &cells)?;
    check_count(&rt, frames as usize, 3);
    check_count(&rt, out.bytes().len(), 3 * FRAME);
    let packets = placed_packets(alloc, out.bytes(), 1)?;
    check(
        &rt,
        packets.as_slice() == packets_of_ones(alloc)?.as_slice(),
    );
    Ok(())
}
