//! Partial reception: its words, and whole runs.

use crate::command::Command;
use crate::testing::{Outside, SINGLE, WELL, marked_packets, product_of, run_over, words_of};
use std::alloc::Global;
use std::process::Abort;
use std::test::Fail;

/// A setting with partial reception and a wide layer.
const WIDE: &str = "A:1:qpsk:2/3:4:partial,B:12:64qam:3/4:2";

/// Room for five frames of cells of mode 3.
const ROOMY: Outside = Outside {
    room: 12_000_000,
    ..WELL
};

/// Words behind `receive`, and whether reception is partial, or the place of their fault.
const LINES: [(&[&str], Result<bool, u64>); 9] = [
    (&["receive", "IN=x"], Ok(false)),
    (&["receive", "IN=x", "partial"], Ok(true)),
    (&["receive", "3", "1/8", "IN=x", "partial"], Ok(true)),
    (&["receive", "3", "1/8", "IN=partial"], Ok(false)),
    (&["receive", "partial", "IN=x"], Err(1)),
    (&["receive", "3", "1/8", "partial", "IN=x"], Err(3)),
    (&["receive", "IN=x", "Partial"], Err(2)),
    (&["receive", "IN=x", "partial", "partial"], Err(3)),
    (&["code", "1", "1/4", SINGLE, "IN=x", "partial"], Err(5)),
];

/// Checks one of them.
fn check_line(
    rt: &impl Abort,
    alloc: Global,
    list: &[&str],
    expected: Result<bool, u64>,
) -> Result<(), Fail> {
    let words = words_of(alloc, list)?;
    let found = match words.command() {
        Ok(Command::Receive { partial, .. }) => Ok(partial),
        Ok(_) => return Err(Fail::from("the words are another command")),
        Err(place) => Err(place),
    };
    assert_eq!(rt; found, expected);
    Ok(())
}

#[test]
fn words_of_partial_reception(rt: HostRuntime) -> Result<(), Fail> {
    for (list, expected) in LINES {
        check_line(&rt, rt.alloc(), list, expected)?;
    }
    Ok(())
}

/// 64 packets in layer A and none in layer B: five frames of cells, in version 2 of the stream. Partial reception gives layer
/// A's input back.
#[test]
fn partial_reception_alone(rt: HostRuntime) -> Result<(), Fail> {
    let alloc = rt.alloc();
    let packets = marked_packets(alloc, 64 * 188, 0x55)?;
    let remux = ["remux", "3", "1/8", WIDE, "A=a", "B=b"];
    let stream = product_of(alloc, &remux, &packets, &[])?;
    let code = ["code", "3", "1/8", WIDE, "IN=a", "v2"];
    let cells = run_over(alloc, &code, &stream, &[], &ROOMY)?;
    assert_eq!(rt; cells.out.bytes().len(), 5 * 2_036_948);
    let receive = ["receive", "IN=a", "partial"];
    let ran = run_over(alloc, &receive, cells.out.bytes(), &[], &ROOMY)?;
    assert_eq!(rt; ran.outcome.status(), 0);
    assert_eq!(rt; ran.out.bytes().len(), 12_032);
    assert!(rt; ran.out.bytes() == packets.as_slice());
    Ok(())
}

/// A stream of a single layer has no flag.
#[test]
fn no_partial_reception(rt: HostRuntime) -> Result<(), Fail> {
    let alloc = rt.alloc();
    let packets = marked_packets(alloc, 188, 0x55)?;
    let stream = product_of(alloc, &["remux", "1", "1/4", SINGLE, "A=a"], &packets, &[])?;
    let cells = product_of(alloc, &["code", "1", "1/4", SINGLE, "IN=a"], &stream, &[])?;
    let receive = ["receive", "1", "1/4", "IN=a", "partial"];
    let ran = run_over(alloc, &receive, &cells, &[], &WELL)?;
    assert_eq!(rt; ran.outcome.status(), 9);
    assert!(rt; ran.err.bytes() == "isdbt: 9 no partial reception: frame 0\n".as_bytes());
    assert_eq!(rt; ran.out.bytes().len(), 0);
    Ok(())
}
