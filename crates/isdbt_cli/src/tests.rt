//! Words that are no command, and a run over a file.

use crate::fault::Outcome;
use crate::run::run;
use crate::testing::{
    End, FRAME, SINGLE, WELL, check_end, marked_packets, product_of, run_over, words_of,
};
use edge_io::{FileShelf, MemorySink, QuietShelf};
use std::fs;
use std::test::Fail;

/// Words that are no command, and the line that names the first that is not accepted.
struct UsageRow {
    words: &'static [&'static str],
    line: &'static str,
}

const USAGE: [UsageRow; 18] = [
    UsageRow {
        words: &["remux", "1", "1/4", "A:1:qpsk:1/2:0", "A=a"],
        line: "isdbt: 1 usage: word 3\n",
    },
    UsageRow {
        words: &[],
        line: "isdbt: 1 usage: word 0\n",
    },
    UsageRow {
        words: &["remux"],
        line: "isdbt: 1 usage: word 1\n",
    },
    UsageRow {
        words: &["REMUX", "1", "1/4", SINGLE, "A=a"],
        line: "isdbt: 1 usage: word 0\n",
    },
    UsageRow {
        words: &["cod", "1", "1/4", SINGLE, "IN=a"],
        line: "isdbt: 1 usage: word 0\n",
    },
    UsageRow {
        words: &["code", "1", "1/4", SINGLE, "A=a"],
        line: "isdbt: 1 usage: word 4\n",
    },
    UsageRow {
        words: &["receive", "4", "1/4", "IN=a"],
        line: "isdbt: 1 usage: word 1\n",
    },
    UsageRow {
        words: &["receive", "1", "1/4", "A=a"],
        line: "isdbt: 1 usage: word 3\n",
    },
    UsageRow {
        words: &["receive", "1", "1/4", "IN=a", "IN=a"],
        line: "isdbt: 1 usage: word 4\n",
    },
    UsageRow {
        words: &["remux", "01", "1/4", SINGLE, "A=a"],
        line: "isdbt: 1 usage: word 1\n",
    },
    UsageRow {
        words: &["remux", "1", "1/3", SINGLE, "A=a"],
        line: "isdbt: 1 usage: word 2\n",
    },
    UsageRow {
        words: &["remux", "1", "1/4", SINGLE],
        line: "isdbt: 1 usage: word 4\n",
    },
    UsageRow {
        words: &["remux", "1", "1/4", SINGLE, "A="],
        line: "isdbt: 1 usage: word 4\n",
    },
    UsageRow {
        words: &["remux", "1", "1/4", SINGLE, "a=a"],
        line: "isdbt: 1 usage: word 4\n",
    },
    UsageRow {
        words: &["remux", "1", "1/4", SINGLE, "B=a"],
        line: "isdbt: 1 usage: word 4\n",
    },
    UsageRow {
        words: &["remux", "1", "1/4", SINGLE, ""],
        line: "isdbt: 1 usage: word 4\n",
    },
    UsageRow {
        words: &["remux", "1", "1/4", SINGLE, "A=a", "B=b"],
        line: "isdbt: 1 usage: word 5\n",
    },
    UsageRow {
        words: &["remux", "1", "1/4", SINGLE, "A=a", ""],
        line: "isdbt: 1 usage: word 5\n",
    },
];

#[test]
fn usage_at_word_three(rt: HostRuntime) -> Result<(), Fail> {
    for row in &USAGE {
        let ran = run_over(rt.alloc(), row.words, &[], &[], &WELL)?;
        let end = End {
            status: 1,
            line: row.line,
            written: 0,
        };
        check_end(&rt, &ran, &end, &[], FRAME);
    }
    Ok(())
}

/// The line finds no room: the status stays.
#[test]
fn usage_without_room_for_the_line(rt: HostRuntime) -> Result<(), Fail> {
    let alloc = rt.alloc();
    let words = words_of(alloc, &["remux", "1", "1/4", "A:14:qpsk:1/2:0", "A=a"])?;
    let mut shelf = QuietShelf::new(alloc);
    let mut out = MemorySink::new(alloc, 0)?;
    let mut err = MemorySink::new(alloc, 0)?;
    let outcome = run(alloc, &words, &mut shelf, &mut out, &mut err);
    assert_eq!(rt; outcome.status(), 1);
    assert_eq!(rt; err.bytes().len(), 0);
    Ok(())
}

/// A file, of which the run writes what it writes of the same bytes in memory.
#[test]
fn over_a_file(rt: HostRuntime) -> Result<(), Fail> {
    let alloc = rt.alloc();
    let input = marked_packets(alloc, 157 * 188, 0x55)?;
    let name = "isdbt_cli_over_a_file.ts";
    fs::write(&rt, name, input.as_slice())?;
    let list = ["remux", "1", "1/4", SINGLE, "A=isdbt_cli_over_a_file.ts"];
    let words = words_of(alloc, &list)?;
    let mut shelf = FileShelf::new(&rt);
    let mut out = MemorySink::new(alloc, 6 * FRAME)?;
    let mut err = MemorySink::new(alloc, 0)?;
    let outcome = run(alloc, &words, &mut shelf, &mut out, &mut err);
    fs::remove_file(&rt, name)?;
    assert_eq!(rt; outcome, Outcome::Done(4));
    let list = ["remux", "1", "1/4", SINGLE, "A=a"];
    assert!(rt; out.bytes() == product_of(alloc, &list, &input, &[])?.as_slice());
    Ok(())
}
