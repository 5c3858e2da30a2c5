//! The word `fix`, and whole runs over cells whose TMCC words have wrong bits.

use crate::command::Command;
use crate::testing::{CELLS, SINGLE, WELL, marked_packets, product_of, run_over, words_in};
use isdbt_base::Reading;
use std::alloc::Global;
use std::process::Abort;
use std::test::Fail;

/// Lines, and whether reception is partial and words are corrected, or the place of their fault.
const LINES: [(&str, Result<(bool, bool), u64>); 14] = [
    ("receive IN=x fix", Ok((false, true))),
    ("receive IN=x partial fix", Ok((true, true))),
    ("receive 3 1/8 IN=x fix", Ok((false, true))),
    ("receive 3 1/8 IN=fix partial", Ok((true, false))),
    ("show cells IN=x fix", Ok((false, true))),
    ("show cells 1 1/4 IN=fix", Ok((false, false))),
    ("receive IN=x fix partial", Err(3)),
    ("receive IN=x fix fix", Err(3)),
    ("receive fix IN=x", Err(1)),
    ("receive 1 1/4 IN=x Fix", Err(4)),
    ("show cells IN=x fix fix", Err(4)),
    ("show bts 1 1/4 IN=x fix", Err(5)),
    ("code 1 1/4 A:13:qpsk:1/2:0 IN=x fix", Err(5)),
    ("code 1 1/4 A:13:qpsk:1/2:0 IN=x v2 fix", Err(6)),
];

/// Checks one of them.
fn check_line(
    rt: &impl Abort,
    alloc: Global,
    line: &str,
    expected: Result<(bool, bool), u64>,
) -> Result<(), Fail> {
    let words = words_in(alloc, &[line])?;
    let (how, partial): (Reading, bool) = match words.command() {
        Ok(Command::Receive { how, partial, .. }) => (how, partial),
        Ok(Command::ShowCells { how, .. }) => (how, false),
        Ok(_) => return Err(Fail::from("the words are another command")),
        Err(place) => {
            assert_eq!(rt; Err(place), expected, "{}", line);
            return Ok(());
        }
    };
    assert_eq!(rt; Ok((partial, how.fix)), expected, "{}", line);
    Ok(())
}

#[test]
fn words_of_fix(rt: HostRuntime) -> Result<(), Fail> {
    for (line, expected) in LINES {
        check_line(&rt, rt.alloc(), line, expected)?;
    }
    Ok(())
}

/// Bytes of a symbol of mode 1.
const SYMBOL: usize = 2497;

/// Turns over bits of the word of a frame: the lowest of the first byte of each of these symbols.
fn turn(cells: &mut [u8], frame: usize, bits: &[usize]) {
    let start = frame.wrapping_mul(CELLS);
    for bit in bits {
        if let Some(byte) = cells.get_mut(start.wrapping_add(bit.wrapping_mul(SYMBOL))) {
            *byte ^= 1;
        }
    }
}

/// Wrong bits of the word of frame 0, the words of a run, and how it ends: its status and its line.
struct WrongRow {
    bits: &'static [usize],
    words: &'static [&'static str],
    status: u8,
    line: &'static str,
}

const RECEIVE: &[&str] = &["receive", "1", "1/4", "IN=a"];

const RECEIVE_FIX: &[&str] = &["receive", "1", "1/4", "IN=a", "fix"];

/// One parity bit and eight bits are restored, where that is asked for; nine are not.
const WRONG: [WrongRow; 4] = [
    WrongRow {
        bits: &[150],
        words: RECEIVE_FIX,
        status: 0,
        line: "",
    },
    WrongRow {
        bits: &[20, 21, 22, 23, 24, 25, 26, 27],
        words: RECEIVE_FIX,
        status: 0,
        line: "",
    },
    WrongRow {
        bits: &[150],
        words: RECEIVE,
        status: 7,
        line: "isdbt: 7 tmcc: frame 0 parity\n",
    },
    WrongRow {
        bits: &[20, 21, 22, 23, 24, 25, 26, 27, 28],
        words: RECEIVE_FIX,
        status: 7,
        line: "isdbt: 7 tmcc: frame 0 parity\n",
    },
];

/// The cells of 156 packets in a single layer: three frames.
fn single_cells(alloc: Global) -> Result<Vec<u8>, Fail> {
    let packets = marked_packets(alloc, 156 * 188, 0x55)?;
    let stream = product_of(alloc, &["remux", "1", "1/4", SINGLE, "A=a"], &packets, &[])?;
    product_of(alloc, &["code", "1", "1/4", SINGLE, "IN=a"], &stream, &[])
}

/// What is written is what is received of the right cells, or nothing.
#[test]
fn wrong_words_received(rt: HostRuntime) -> Result<(), Fail> {
    let alloc = rt.alloc();
    let cells = single_cells(alloc)?;
    let right = product_of(alloc, RECEIVE, &cells, &[])?;
    for row in &WRONG {
        let mut wrong = cells.as_slice().to_vec(alloc)?;
        turn(&mut wrong, 0, row.bits);
        let ran = run_over(alloc, row.words, &wrong, &[], &WELL)?;
        assert_eq!(rt; ran.outcome.status(), row.status);
        assert!(rt; ran.err.bytes() == row.line.as_bytes(), "{}", row.line);
        let written = if row.status == 0 {
            right.as_slice()
        } else {
            &[]
        };
        assert!(rt; ran.out.bytes() == written);
    }
    Ok(())
}

/// A wrong parity bit in the first word: each line says how many bits were restored.
#[test]
fn wrong_word_listed(rt: HostRuntime) -> Result<(), Fail> {
    let alloc = rt.alloc();
    let mut cells = single_cells(alloc)?;
    turn(&mut cells, 0, &[150]);
    let show = ["show", "cells", "1", "1/4", "IN=a", "fix"];
    let lines = product_of(alloc, &show, &cells, &[])?;
    let wanted = "frame 0 even countdown 15 now A:13:qpsk:1/2:0 next - restored 1
frame 1 odd countdown 15 now A:13:qpsk:1/2:0 next - restored 0
frame 2 even countdown 15 now A:13:qpsk:1/2:0 next - restored 0
";
    assert!(rt; lines.as_slice() == wanted.as_bytes());
    Ok(())
}
