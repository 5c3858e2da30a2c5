//! What is read of streams of cells whose TMCC words have wrong bits, where words are corrected.

use crate::commands::{
    LIMIT, ROOM, ReceiveEnd, plain, receive_part, receive_stream, send, show_stream, single_cells,
    whole,
};
use crate::epoch_rows::EPOCHS;
use crate::partial_rows::PARTIAL;
use crate::partial_tests::first_form;
use crate::plans::{SINGLE, plan_of, plan_with};
use crate::streams::{SYMBOL, check, marked_packets};
use crate::words::{Change, changed_cells, put_word, word_at};
use edge_io::MemorySink;
use isdbt_base::{Form, Reading, Writing};
use seg_receiver::ReceiveFault;
use std::alloc::Global;
use std::process::Abort;
use std::test::Fail;
use tmcc_word::TmccFault;

/// A stream of this version, read with its TMCC words corrected.
fn corrected(form: Form) -> Reading {
    Reading { form, fix: true }
}

/// Wrong bits of the word of frame 0 of single-layer cells, how a reception ends that corrects words, and what a listing
/// begins with.
struct WordRow {
    bits: &'static [usize],
    answer: Result<u32, ReceiveFault>,
    line: &'static str,
}

/// A parity bit; the first eight bits of the information; bits of all its parts and of the parity; nine bits; a bit of the sync
/// word, which is never changed.
const WORDS: [WordRow; 5] = [
    WordRow {
        bits: &[150],
        answer: Ok(3),
        line: "frame 0 even countdown 15 now A:13:qpsk:1/2:0 next - restored 1\n",
    },
    WordRow {
        bits: &[20, 21, 22, 23, 24, 25, 26, 27],
        answer: Ok(3),
        line: "frame 0 even countdown 15 now A:13:qpsk:1/2:0 next - restored 8\n",
    },
    WordRow {
        bits: &[20, 26, 27, 67, 121, 122, 202, 203],
        answer: Ok(3),
        line: "frame 0 even countdown 15 now A:13:qpsk:1/2:0 next - restored 8\n",
    },
    WordRow {
        bits: &[20, 21, 22, 23, 24, 25, 26, 27, 28],
        answer: Err(ReceiveFault::BadTmcc {
            frame: 0,
            reason: TmccFault::Parity,
        }),
        line: "",
    },
    WordRow {
        bits: &[16, 150],
        answer: Err(ReceiveFault::BadTmcc {
            frame: 0,
            reason: TmccFault::Sync,
        }),
        line: "",
    },
];

/// What is received of a stream of cells that is read so.
fn received_so(alloc: Global, how: Reading, cells: &[u8]) -> Result<ReceiveEnd, Fail> {
    receive_stream(
        alloc,
        how,
        LIMIT,
        &whole(cells),
        MemorySink::new(alloc, ROOM)?,
    )
}

/// The lines of a stream of cells that is read so.
fn listed_so(alloc: Global, how: Reading, cells: &[u8]) -> Result<ReceiveEnd, Fail> {
    show_stream(
        alloc,
        how,
        LIMIT,
        &whole(cells),
        MemorySink::new(alloc, ROOM)?,
    )
}

/// Checks that cells with wrong bits in a word are received as the right packets, or refused with nothing written.
fn check_word(
    rt: &impl Abort,
    alloc: Global,
    row: &WordRow,
    cells: &[u8],
    right: &[u8],
) -> Result<(), Fail> {
    let change = Change {
        frame: 0,
        is_announced: false,
        bits: row.bits,
        fits: false,
    };
    let changed = changed_cells(alloc, cells, &change)?;
    let how = corrected(first_form(&plan_of(&SINGLE)?));
    let received = received_so(alloc, how, &changed)?;
    let listed = listed_so(alloc, how, &changed)?;
    check(rt, received.answer == row.answer);
    check(rt, listed.answer == row.answer);
    let wanted = if row.line.is_empty() { &[] } else { right };
    check(rt, received.out.bytes() == wanted);
    check(rt, listed.out.bytes().starts_with(row.line.as_bytes()));
    check(rt, listed.out.bytes().is_empty() == row.line.is_empty());
    Ok(())
}

#[test]
fn wrong_words(rt: HostRuntime) -> Result<(), Fail> {
    let alloc = rt.alloc();
    let cells = single_cells(alloc)?;
    let form = first_form(&plan_of(&SINGLE)?);
    let right = received_so(alloc, plain(form), &cells)?;
    for row in &WORDS {
        check_word(&rt, alloc, row, &cells, right.out.bytes())?;
    }
    Ok(())
}

/// Turns over eight bits from B20 on of the word of each of so many frames of mode 1, in each frame others.
fn spoil_words(alloc: Global, cells: &[u8], frames: usize) -> Result<Vec<u8>, Fail> {
    let mut spoilt = cells.to_vec(alloc)?;
    for frame in 0..frames {
        let mut word = word_at(cells, frame);
        for n in 0..8usize {
            let place = 20 + n.wrapping_mul(17).wrapping_add(frame.wrapping_mul(5)) % 184;
            if let Some(bit) = word.get_mut(place) {
                *bit = !*bit;
            }
        }
        put_word(&mut spoilt, SYMBOL, frame, &word);
    }
    Ok(spoilt)
}

/// Lines, each with eight restored bits.
fn with_restored(alloc: Global, lines: &[u8]) -> Result<Vec<u8>, Fail> {
    let mut bytes = Vec::new(alloc);
    for byte in lines {
        if *byte == b'\n' {
            bytes.extend_from_slice(b" restored 8")?;
        }
        bytes.push(*byte)?;
    }
    Ok(bytes)
}

/// With eight wrong bits in each word nothing is received of them as they came, and all packets where they are corrected.
#[test]
fn spoilt_words_over_a_switch(rt: HostRuntime) -> Result<(), Fail> {
    let alloc = rt.alloc();
    let row = &EPOCHS[0];
    let plan = plan_with(&row.first, row.switches)?;
    let packets = marked_packets(alloc, 3000, 0xAA)?;
    let sent = send(alloc, &plan, Writing { v2: false }, [&packets, &[], &[]])?;
    let cells = sent.cells.bytes();
    let spoilt = spoil_words(alloc, cells, 25)?;
    let form = first_form(&plan);
    let refused = received_so(alloc, plain(form), &spoilt)?;
    let reason = TmccFault::Parity;
    check(
        &rt,
        refused.answer == Err(ReceiveFault::BadTmcc { frame: 0, reason }),
    );
    let right = received_so(alloc, plain(form), cells)?;
    let received = received_so(alloc, corrected(form), &spoilt)?;
    check(&rt, received.answer == Ok(25));
    check(&rt, received.out.bytes() == right.out.bytes());
    let lines = listed_so(alloc, plain(form), cells)?;
    let listed = listed_so(alloc, corrected(form), &spoilt)?;
    let wanted = with_restored(alloc, lines.out.bytes())?;
    check(&rt, listed.out.bytes() == wanted.as_slice());
    Ok(())
}

/// The same for partial reception.
#[test]
fn spoilt_words_in_part(rt: HostRuntime) -> Result<(), Fail> {
    let alloc = rt.alloc();
    let plan = plan_of(&PARTIAL)?;
    let packets = marked_packets(alloc, 32, 0xAA)?;
    let sent = send(alloc, &plan, Writing { v2: false }, [&packets, &[], &[]])?;
    let spoilt = spoil_words(alloc, sent.cells.bytes(), 4)?;
    let how = corrected(first_form(&plan));
    let ended = receive_part(alloc, how, &whole(&spoilt), MemorySink::new(alloc, ROOM)?)?;
    check(&rt, ended.answer == Ok(4));
    check(&rt, ended.out.bytes() == packets.as_slice());
    Ok(())
}
