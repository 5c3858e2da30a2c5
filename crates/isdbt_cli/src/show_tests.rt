//! The words `show` and `sample`, and whole runs of them.

use crate::command::Command;
use crate::testing::{End, Outside, WELL, marked_packets, product_of, run_over, words_in};
use edge_io::Seat;
use std::alloc::Global;
use std::process::Abort;
use std::test::Fail;

/// A setting with partial reception and a wide layer.
const WIDE: &str = "A:1:qpsk:2/3:4:partial,B:12:64qam:3/4:2";

/// Room for five frames of cells of mode 3.
const ROOMY: Outside = Outside {
    room: 12_000_000,
    ..WELL
};

/// What a line asks for.
#[derive(Clone, Copy, Debug, PartialEq, Eq)]
enum Asked {
    Bts,
    Cells,
    Sample(u16),
}

/// Lines, and what they ask for, or the place of their fault.
const LINES: [(&str, Result<Asked, u64>); 29] = [
    ("show bts 3 1/8 IN=x", Ok(Asked::Bts)),
    ("show bts 1 1/32 IN=IN=", Ok(Asked::Bts)),
    ("show cells 3 1/8 IN=x", Ok(Asked::Cells)),
    ("show cells IN=x", Ok(Asked::Cells)),
    ("sample 0", Ok(Asked::Sample(0))),
    ("sample 7", Ok(Asked::Sample(7))),
    ("sample 65535", Ok(Asked::Sample(65_535))),
    ("show", Err(1)),
    ("show Bts 1 1/4 IN=x", Err(1)),
    ("show 1 1/4 IN=x", Err(1)),
    ("show show bts 1 1/4 IN=x", Err(1)),
    ("show bts", Err(2)),
    ("show bts IN=x", Err(2)),
    ("show bts 1 IN=x", Err(3)),
    ("show bts 1 1/4", Err(4)),
    ("show bts 1 1/4 IN=", Err(4)),
    ("show bts 1 1/4 A=x", Err(4)),
    ("show bts 1 1/4 IN=x v2", Err(5)),
    ("show cells 1 IN=x", Err(3)),
    ("show cells 1 1/4", Err(4)),
    ("show cells IN=x partial", Err(3)),
    ("show cells 1 1/4 IN=x IN=x", Err(5)),
    ("Sample 7", Err(0)),
    ("sample", Err(1)),
    ("sample 65536", Err(1)),
    ("sample 4294967303", Err(1)),
    ("sample 007", Err(1)),
    ("sample +7", Err(1)),
    ("sample 7 7", Err(2)),
];

/// Checks one of them.
fn check_line(
    rt: &impl Abort,
    alloc: Global,
    line: &str,
    expected: Result<Asked, u64>,
) -> Result<(), Fail> {
    let words = words_in(alloc, &[line])?;
    let found = match words.command() {
        Ok(Command::ShowBts { .. }) => Ok(Asked::Bts),
        Ok(Command::ShowCells { .. }) => Ok(Asked::Cells),
        Ok(Command::Sample { number }) => Ok(Asked::Sample(number)),
        Ok(_) => return Err(Fail::from("the words are another command")),
        Err(place) => Err(place),
    };
    assert_eq!(rt; found, expected, "{}", line);
    Ok(())
}

#[test]
fn words_of_show_and_sample(rt: HostRuntime) -> Result<(), Fail> {
    for (line, expected) in LINES {
        check_line(&rt, rt.alloc(), line, expected)?;
    }
    Ok(())
}

/// The lines of five frames of broadcast packets with this setting.
const BTS_LINES: &str = "frame 0 even countdown 15 A 64 B 2592 C 0 none 1952
frame 1 odd countdown 15 A 64 B 2592 C 0 none 1952
frame 2 even countdown 15 A 64 B 2592 C 0 none 1952
frame 3 odd countdown 15 A 64 B 2592 C 0 none 1952
frame 4 even countdown 15 A 64 B 2592 C 0 none 1952
";

/// The lines of their cells.
const CELL_LINES: &str =
    "frame 0 even countdown 15 now A:1:qpsk:2/3:4:partial,B:12:64qam:3/4:2 next -
frame 1 odd countdown 15 now A:1:qpsk:2/3:4:partial,B:12:64qam:3/4:2 next -
frame 2 even countdown 15 now A:1:qpsk:2/3:4:partial,B:12:64qam:3/4:2 next -
frame 3 odd countdown 15 now A:1:qpsk:2/3:4:partial,B:12:64qam:3/4:2 next -
frame 4 even countdown 15 now A:1:qpsk:2/3:4:partial,B:12:64qam:3/4:2 next -
";

/// A run over a stream of bytes, what it meets, and how it ends.
struct ShowRow {
    words: &'static [&'static str],
    outside: Outside,
    end: End,
}

/// Checks runs over a stream, each of which writes a front part of these lines.
fn check_rows(
    rt: &impl Abort,
    alloc: Global,
    rows: &[ShowRow],
    stream: &[u8],
    lines: &str,
) -> Result<(), Fail> {
    for row in rows {
        let ran = run_over(alloc, row.words, stream, &[], &row.outside)?;
        assert_eq!(rt; ran.outcome.status(), row.end.status);
        assert!(rt;
            ran.err.bytes() == row.end.line.as_bytes(),
            "{}",
            row.end.line
        );
        assert_eq!(rt; ran.out.bytes().len(), row.end.written);
        assert!(rt; lines.as_bytes().starts_with(ran.out.bytes()));
    }
    Ok(())
}

/// Five frames of broadcast packets: all lines; with a write that fails behind two lines; with another guard interval, whose
/// frames have 5120 packets and not 4608, so that a second head stands in the first; and a seat that can't be opened.
const BTS_ROWS: [ShowRow; 4] = [
    ShowRow {
        words: &["show", "bts", "3", "1/8", "IN=a"],
        outside: WELL,
        end: End {
            status: 0,
            line: "",
            written: 258,
        },
    },
    ShowRow {
        words: &["show", "bts", "3", "1/8", "IN=a"],
        outside: Outside {
            written: 60,
            ..WELL
        },
        end: End {
            status: 12,
            line: "isdbt: 12 write fault\n",
            written: 103,
        },
    },
    ShowRow {
        words: &["show", "bts", "3", "1/4", "IN=a"],
        outside: WELL,
        end: End {
            status: 4,
            line: "isdbt: 4 frame head misplaced: frame 0 slot 4608\n",
            written: 0,
        },
    },
    ShowRow {
        words: &["show", "bts", "3", "1/8", "IN=none"],
        outside: WELL,
        end: End {
            status: 10,
            line: "isdbt: 10 cannot open: IN\n",
            written: 0,
        },
    },
];

/// Five frames of cells with heads: all lines, and with a read that fails behind the head of the second frame.
const CELL_ROWS: [ShowRow; 2] = [
    ShowRow {
        words: &["show", "cells", "IN=a"],
        outside: WELL,
        end: End {
            status: 0,
            line: "",
            written: 383,
        },
    },
    ShowRow {
        words: &["show", "cells", "IN=a"],
        outside: Outside {
            read: Seat::In,
            taken: 2_036_948 + 8,
            ..WELL
        },
        end: End {
            status: 11,
            line: "isdbt: 11 read fault: IN\n",
            written: 77,
        },
    },
];

/// What stands in five frames of broadcast packets, and in their cells.
#[test]
fn frames_shown(rt: HostRuntime) -> Result<(), Fail> {
    let alloc = rt.alloc();
    let packets = marked_packets(alloc, 64 * 188, 0x55)?;
    let remux = ["remux", "3", "1/8", WIDE, "A=a", "B=b"];
    let stream = product_of(alloc, &remux, &packets, &[])?;
    check_rows(&rt, alloc, &BTS_ROWS, &stream, BTS_LINES)?;
    let code = ["code", "3", "1/8", WIDE, "IN=a", "v2"];
    let cells = run_over(alloc, &code, &stream, &[], &ROOMY)?;
    check_rows(&rt, alloc, &CELL_ROWS, cells.out.bytes(), CELL_LINES)
}

/// The lines of two samples. All packets are met, so the sums are those of the inputs' bytes, which a program made from the
/// generator's rule alone has added up.
const SAMPLES: [(&str, &str); 2] = [
    (
        "7",
        "frames 15\nA sent 100 met 100 marked 0 sum 2383457\nB sent 3000 met 3000 marked 0 sum 71497833\n",
    ),
    (
        "65535",
        "frames 15\nA sent 100 met 100 marked 0 sum 2365530\nB sent 3000 met 3000 marked 0 sum 71545471\n",
    ),
];

#[test]
fn samples(rt: HostRuntime) -> Result<(), Fail> {
    for (number, lines) in SAMPLES {
        let ran = run_over(rt.alloc(), &["sample", number], &[], &[], &WELL)?;
        assert_eq!(rt; ran.outcome.status(), 0);
        assert_eq!(rt; ran.err.bytes().len(), 0);
        assert!(rt; ran.out.bytes() == lines.as_bytes(), "{}", number);
    }
    Ok(())
}

/// A write that fails leaves a front part of the lines.
#[test]
fn sample_unwritten(rt: HostRuntime) -> Result<(), Fail> {
    let outside = Outside { room: 13, ..WELL };
    let ran = run_over(rt.alloc(), &["sample", "7"], &[], &[], &outside)?;
    assert_eq!(rt; ran.outcome.status(), 12);
    assert!(rt; ran.err.bytes() == "isdbt: 12 write fault\n".as_bytes());
    assert!(rt; ran.out.bytes() == "frames 15\nA s".as_bytes());
    Ok(())
}
