//! Whole runs of `remux` and `code` with plans that have switches.

use crate::fault::Outcome;
use crate::testing::{WELL, marked_packets, product_of, run_over};
use std::alloc::Global;
use std::process::Abort;
use std::test::Fail;

/// Words, the bytes of layer A's input, and the frames and the bytes that are written.
struct SwitchedRun {
    words: &'static [&'static str],
    len: usize,
    frames: u32,
    written: usize,
}

/// Runs the words over a row's bytes of packets, and checks what is written.
fn check_run(rt: &impl Abort, alloc: Global, row: &SwitchedRun) -> Result<(), Fail> {
    let a = marked_packets(alloc, row.len, 0xAA)?;
    let ran = run_over(alloc, row.words, &a, &[], &WELL)?;
    match ran.outcome {
        Outcome::Done(frames) => assert_eq!(rt; frames, row.frames),
        Outcome::Fault(_) => return Err(Fail::from("a fault")),
    }
    assert_eq!(rt; ran.out.bytes().len(), row.written);
    Ok(())
}

/// A switch to another rate and length, one to another mode and guard interval, and two switches of an empty input, of which
/// the frames before the last epoch are written.
const RUNS: [SwitchedRun; 3] = [
    SwitchedRun {
        words: &[
            "remux",
            "1",
            "1/4",
            "A:13:qpsk:1/2:0",
            "@20",
            "A:13:qpsk:3/4:4",
            "A=a",
        ],
        len: 3000 * 188,
        frames: 25,
        written: 25 * 261_120,
    },
    SwitchedRun {
        words: &[
            "remux",
            "1",
            "1/4",
            "A:13:qpsk:1/2:0",
            "@4",
            "2",
            "1/8",
            "A:13:qpsk:1/2:0",
            "A=a",
        ],
        len: 400 * 188,
        frames: 7,
        written: 4 * 261_120 + 3 * 470_016,
    },
    SwitchedRun {
        words: &[
            "remux",
            "1",
            "1/4",
            "A:13:qpsk:1/2:0",
            "@2",
            "2",
            "1/8",
            "A:13:qpsk:1/2:0",
            "@3",
            "A:13:qpsk:3/4:8",
            "A=a",
        ],
        len: 0,
        frames: 3,
        written: 2 * 261_120 + 470_016,
    },
];

#[test]
fn switches(rt: HostRuntime) -> Result<(), Fail> {
    for row in &RUNS {
        check_run(&rt, rt.alloc(), row)?;
    }
    Ok(())
}

/// A coding of what the second of these runs writes, in version 2.
const CODE_OVER_MODES: &[&str] = &[
    "code",
    "1",
    "1/4",
    "A:13:qpsk:1/2:0",
    "@4",
    "2",
    "1/8",
    "A:13:qpsk:1/2:0",
    "IN=a",
    "v2",
];

/// A receiving of these cells, with the mode and the guard interval of their heads.
const RECEIVE_OVER_MODES: &[&str] = &["receive", "IN=a"];

/// Bytes at which frames begin, and the mode and the guard interval in their heads: four frames of mode 1, and three of mode 2
/// behind them.
const HEADS: [(usize, u8, u8); 4] = [
    (0, 0x01, 0x04),
    (3 * 509_396, 0x01, 0x04),
    (4 * 509_396, 0x02, 0x08),
    (4 * 509_396 + 2 * 1_018_580, 0x02, 0x08),
];

#[test]
fn mode_changes_at_a_switch(rt: HostRuntime) -> Result<(), Fail> {
    let alloc = rt.alloc();
    let a = marked_packets(alloc, 400 * 188, 0xAA)?;
    let stream = product_of(alloc, RUNS[1].words, &a, &[])?;
    let cells = product_of(alloc, CODE_OVER_MODES, &stream, &[])?;
    assert_eq!(rt; cells.len(), 5_093_324);
    for (start, mode, guard) in HEADS {
        let frame = cells.get(start..).unwrap_or(&[]);
        assert!(rt; frame.starts_with(&[0x49, 0x53, 0x43, 0x32, mode, guard, 0x00, 0x00]));
    }
    let back = product_of(alloc, RECEIVE_OVER_MODES, &cells, &[])?;
    assert_eq!(rt; back.len(), RUNS[1].written);
    Ok(())
}
