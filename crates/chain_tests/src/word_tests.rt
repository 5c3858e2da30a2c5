//! What `receive` answers and writes where TMCC words are changed. Bits of a word are named by their numbers, B0 to B203.

use crate::commands::{LIMIT, ROOM, ReceiveEnd, plain, received, show_stream, single_cells, whole};
use crate::partial_tests::first_form;
use crate::plans::{SINGLE, plan_of};
use crate::show_cells_rows::SINGLE_LINES;
use crate::streams::{CELLS, FRAME, check, check_count, check_null_packets, frame_at};
use crate::words::{COUNTDOWN, Change, SYNC, changed_cells, information, receive_single};
use edge_io::MemorySink;
use isdbt_base::Layer;
use seg_receiver::ReceiveFault;
use std::alloc::Global;
use std::process::Abort;
use std::test::Fail;
use tmcc_word::TmccFault;

/// Bits that are turned over, whether the parity is made to fit, and why the word is refused.
struct Refusal {
    bits: &'static [usize],
    fits: bool,
    reason: TmccFault,
}

/// Refused words, each for the first of its causes.
const REFUSED: [Refusal; 11] = [
    Refusal {
        bits: &[1],
        fits: false,
        reason: TmccFault::Sync,
    },
    Refusal {
        bits: &[16, 17, 122],
        fits: false,
        reason: TmccFault::Sync,
    },
    Refusal {
        bits: &[17],
        fits: false,
        reason: TmccFault::SegmentType,
    },
    Refusal {
        bits: &[19, 122],
        fits: false,
        reason: TmccFault::SegmentType,
    },
    Refusal {
        bits: &[122],
        fits: false,
        reason: TmccFault::Parity,
    },
    Refusal {
        bits: &[203],
        fits: false,
        reason: TmccFault::Parity,
    },
    Refusal {
        bits: &[107],
        fits: false,
        reason: TmccFault::Parity,
    },
    Refusal {
        bits: &[20, 30],
        fits: false,
        reason: TmccFault::Parity,
    },
    Refusal {
        bits: &[20],
        fits: true,
        reason: TmccFault::System,
    },
    Refusal {
        bits: &[21, 30],
        fits: true,
        reason: TmccFault::System,
    },
    Refusal {
        bits: &[40],
        fits: true,
        reason: TmccFault::Segments(12),
    },
];

/// Words whose layers are refused: A of modulation 000, of rate 101, of depth 100, of 15 segments and of 13 with partial
/// reception; B of modulation 011 and rate 111, and not used where C's field is another than of no layer; C of modulation
/// 011 and rate 111 where B has one segment, and what that sums up to where C is not used.
const REFUSED_LAYERS: [Refusal; 9] = [
    Refusal {
        bits: &[30],
        fits: true,
        reason: TmccFault::LayerField(Layer::A),
    },
    Refusal {
        bits: &[31, 33],
        fits: true,
        reason: TmccFault::LayerField(Layer::A),
    },
    Refusal {
        bits: &[34],
        fits: true,
        reason: TmccFault::LayerField(Layer::A),
    },
    Refusal {
        bits: &[39],
        fits: true,
        reason: TmccFault::LayerField(Layer::A),
    },
    Refusal {
        bits: &[27],
        fits: true,
        reason: TmccFault::LayerField(Layer::A),
    },
    Refusal {
        bits: &[41],
        fits: true,
        reason: TmccFault::LayerField(Layer::B),
    },
    Refusal {
        bits: &[54],
        fits: true,
        reason: TmccFault::LayerField(Layer::B),
    },
    Refusal {
        bits: &[41, 42, 44, 45, 46, 47, 48, 49, 50, 51, 52, 54],
        fits: true,
        reason: TmccFault::LayerField(Layer::C),
    },
    Refusal {
        bits: &[41, 42, 44, 45, 46, 47, 48, 49, 50, 51, 52],
        fits: true,
        reason: TmccFault::Segments(14),
    },
];

/// Checks that a frame is refused in the listing too, behind the lines of the frames before.
fn check_listed(
    rt: &impl Abort,
    alloc: Global,
    cells: &[u8],
    frame: u32,
    fault: ReceiveFault,
) -> Result<(), Fail> {
    let out = MemorySink::new(alloc, ROOM)?;
    let form = first_form(&plan_of(&SINGLE)?);
    let ended = show_stream(alloc, plain(form), LIMIT, &whole(cells), out)?;
    check(rt, ended.answer == Err(fault));
    let lines = ended.out.bytes();
    let ends = lines.iter().filter(|byte| **byte == 0x0A).count();
    check_count(rt, ends, frame as usize);
    check(rt, SINGLE_LINES.as_bytes().starts_with(lines));
    Ok(())
}

/// Checks that a frame is refused with these words in it, and that the frames before are written.
fn check_refusals(
    rt: &impl Abort,
    alloc: Global,
    frame: u32,
    rows: &[Refusal],
) -> Result<(), Fail> {
    let cells = single_cells(alloc)?;
    let (_, whole) = received(alloc, &SINGLE, &cells)?;
    for row in rows {
        let change = Change {
            frame: frame as usize,
            is_announced: false,
            bits: row.bits,
            fits: row.fits,
        };
        let changed = changed_cells(alloc, &cells, &change)?;
        let ended = receive_single(alloc, &changed)?;
        let fault = ReceiveFault::BadTmcc {
            frame,
            reason: row.reason,
        };
        check(rt, ended.answer == Err(fault));
        let written = FRAME.wrapping_mul(frame as usize);
        check(rt, Some(ended.out.bytes()) == whole.bytes().get(..written));
        check_listed(rt, alloc, &changed, frame, fault)?;
    }
    Ok(())
}

#[test]
fn unlawful_tmcc_words(rt: HostRuntime) -> Result<(), Fail> {
    let alloc = rt.alloc();
    check_refusals(&rt, alloc, 0, &REFUSED)?;
    check_refusals(&rt, alloc, 0, &REFUSED_LAYERS)?;
    check_refusals(&rt, alloc, 1, &REFUSED)?;
    check_refusals(&rt, alloc, 2, &REFUSED_LAYERS)
}

/// Bits that are turned over in the first frame's word, and the information of slots 0 and 8.
struct InformationRow {
    bits: &'static [usize],
    first: [u8; 2],
    eighth: [u8; 2],
}

const INFORMATION: [InformationRow; 8] = [
    InformationRow {
        bits: &[],
        first: [0xA6, 0x0F],
        eighth: [0xA0, 0x1F],
    },
    InformationRow {
        bits: &[0],
        first: [0xA6, 0x0F],
        eighth: [0xA0, 0x1F],
    },
    InformationRow {
        bits: &[107, 114, 121],
        first: [0xA6, 0x0F],
        eighth: [0xA0, 0x1F],
    },
    InformationRow {
        bits: &[67, 68, 106],
        first: [0xA6, 0x0F],
        eighth: [0xA0, 0x1F],
    },
    InformationRow {
        bits: &[26],
        first: [0xAE, 0x0F],
        eighth: [0xA8, 0x1F],
    },
    InformationRow {
        bits: &[24],
        first: [0xA6, 0x0D],
        eighth: [0xA0, 0x1D],
    },
    InformationRow {
        bits: COUNTDOWN,
        first: [0xA6, 0x00],
        eighth: [0xA0, 0x10],
    },
    InformationRow {
        bits: SYNC,
        first: [0xA7, 0x0F],
        eighth: [0xA1, 0x1F],
    },
];

/// Words that are received: what they say of start-up, countdown and odd frames stands in the information, and of the
/// reference bit, the reserved bits and a next setting that is unlawful nothing does.
#[test]
fn words_in_the_information(rt: HostRuntime) -> Result<(), Fail> {
    let alloc = rt.alloc();
    let cells = single_cells(alloc)?;
    let first = frame_at(&cells, CELLS, 0);
    for row in &INFORMATION {
        let change = Change {
            frame: 0,
            is_announced: false,
            bits: row.bits,
            fits: true,
        };
        let changed = changed_cells(alloc, first, &change)?;
        check(&rt, (changed.as_slice() == first) == (row.bits.is_empty()));
        let (frames, out) = received(alloc, &SINGLE, &changed)?;
        check_count(&rt, frames as usize, 1);
        check_count(&rt, out.bytes().len(), FRAME);
        check_null_packets(&rt, out.bytes());
        check(&rt, information(out.bytes(), 0) == row.first.as_slice());
        check(&rt, information(out.bytes(), 8) == row.eighth.as_slice());
    }
    Ok(())
}

/// Cells of three frames of which one has the sync word of the others, received.
fn receive_same_sync(alloc: Global, frame: usize) -> Result<ReceiveEnd, Fail> {
    let change = Change {
        frame,
        is_announced: false,
        bits: SYNC,
        fits: false,
    };
    receive_single(
        alloc,
        &changed_cells(alloc, &single_cells(alloc)?, &change)?,
    )
}

/// The frame behind two with the same sync word is refused. A first frame may be odd.
#[test]
fn same_sync_twice(rt: HostRuntime) -> Result<(), Fail> {
    let alloc = rt.alloc();
    let (_, whole) = received(alloc, &SINGLE, &single_cells(alloc)?)?;
    // The frame whose sync word is that of the others, and the frame that is refused.
    for (changed, frame) in [(0, 1), (1, 1), (2, 2)] {
        let ended = receive_same_sync(alloc, changed)?;
        let reason = TmccFault::Sync;
        check(
            &rt,
            ended.answer == Err(ReceiveFault::BadTmcc { frame, reason }),
        );
        let written = ended.out.bytes();
        let front = whole.bytes().get(..written.len()).unwrap_or(&[]);
        check_count(&rt, written.len(), FRAME.wrapping_mul(frame as usize));
        check(&rt, (written == front) == (changed > 0));
        let odd = [0xA7, 0x0F].as_slice();
        check(&rt, (information(written, 0) == odd) == (changed == 0));
    }
    Ok(())
}
