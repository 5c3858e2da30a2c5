//! Whole runs of `remux`: how each ends, and that it wrote the frames before.

use crate::testing::{
    End, FRAME, Outside, SINGLE, WELL, check_end, marked_packets, product_of, run_over,
};
use edge_io::Seat;
use std::alloc::Global;
use std::process::Abort;
use std::test::Fail;

/// A layer of thirteen segments.
const ONE_LAYER: &[&str] = &["remux", "1", "1/4", SINGLE, "A=a"];

/// A partial layer of one segment and a layer of twelve.
const TWO_LAYERS: &[&str] = &[
    "remux",
    "3",
    "1/8",
    "A:1:qpsk:2/3:4:partial,B:12:64qam:3/4:2",
    "A=a",
    "B=b",
];

/// Bytes of its frames of broadcast packets: 4608 of 204.
const WIDE_FRAME: usize = 940_032;

/// No packet of an input.
const NONE: usize = usize::MAX;

/// Bytes of the inputs of layers A and B, the packet of each that has no sync byte, what the run meets outside, and how it must
/// end.
#[derive(Clone, Copy)]
struct RemuxRow {
    a: usize,
    b: usize,
    bad_a: usize,
    bad_b: usize,
    outside: Outside,
    end: End,
}

/// The end of a run that writes all five frames of 400 packets.
const FIVE_FRAMES: End = End {
    status: 0,
    line: "",
    written: 5 * FRAME,
};

/// 400 packets of layer A: five frames.
const GOOD: RemuxRow = RemuxRow {
    a: 400 * 188,
    b: 0,
    bad_a: NONE,
    bad_b: NONE,
    outside: WELL,
    end: FIVE_FRAMES,
};

/// 100 packets of layer A and 6000 of layer B: seven frames.
const GOOD_WIDE: RemuxRow = RemuxRow {
    a: 100 * 188,
    b: 6000 * 188,
    ..GOOD
};

/// Takes the sync byte of a packet away, where the input has the packet.
fn spoil(bytes: &mut [u8], packet: usize) {
    if let Some(first) = bytes.get_mut(packet.wrapping_mul(188)) {
        *first = 0;
    }
}

/// Runs the words over a row's inputs, and checks the end against the frames of their whole and good packets.
fn check_row(
    rt: &impl Abort,
    alloc: Global,
    words: &[&str],
    frame: usize,
    row: &RemuxRow,
) -> Result<(), Fail> {
    let mut a = marked_packets(alloc, row.a, 0xAA)?;
    let mut b = marked_packets(alloc, row.b, 0xBB)?;
    let whole_a = a.get(..row.a / 188 * 188).unwrap_or(&[]);
    let whole_b = b.get(..row.b / 188 * 188).unwrap_or(&[]);
    let product = product_of(alloc, words, whole_a, whole_b)?;
    spoil(&mut a, row.bad_a);
    spoil(&mut b, row.bad_b);
    let ran = run_over(alloc, words, &a, &b, &row.outside)?;
    check_end(rt, &ran, &row.end, &product, frame);
    Ok(())
}

/// Checks rows of a layer of thirteen segments.
fn check_single(rt: &impl Abort, alloc: Global, rows: &[RemuxRow]) -> Result<(), Fail> {
    for row in rows {
        check_row(rt, alloc, ONE_LAYER, FRAME, row)?;
    }
    Ok(())
}

/// Checks rows of a partial and a wide layer.
fn check_wide(rt: &impl Abort, alloc: Global, rows: &[RemuxRow]) -> Result<(), Fail> {
    for row in rows {
        check_row(rt, alloc, TWO_LAYERS, WIDE_FRAME, row)?;
    }
    Ok(())
}

/// Inputs that end inside a packet.
const UNFINISHED: [RemuxRow; 5] = [
    RemuxRow {
        a: 381,
        end: End {
            status: 3,
            line: "isdbt: 3 truncated: input A over 5\n",
            written: 0,
        },
        ..GOOD
    },
    RemuxRow {
        a: 1,
        end: End {
            status: 3,
            line: "isdbt: 3 truncated: input A over 1\n",
            written: 0,
        },
        ..GOOD
    },
    RemuxRow {
        a: 187,
        end: End {
            status: 3,
            line: "isdbt: 3 truncated: input A over 187\n",
            written: 0,
        },
        ..GOOD
    },
    RemuxRow {
        a: 29_329,
        end: End {
            status: 3,
            line: "isdbt: 3 truncated: input A over 1\n",
            written: FRAME,
        },
        ..GOOD
    },
    RemuxRow {
        a: 2 * 29_328 + 188 + 100,
        end: End {
            status: 3,
            line: "isdbt: 3 truncated: input A over 100\n",
            written: 2 * FRAME,
        },
        ..GOOD
    },
];

#[test]
fn input_ends_inside_packet(rt: HostRuntime) -> Result<(), Fail> {
    check_single(&rt, rt.alloc(), &UNFINISHED)
}

/// Inputs with a packet without sync byte.
const BAD_PACKETS: [RemuxRow; 4] = [
    RemuxRow {
        a: 10 * 188,
        bad_a: 3,
        end: End {
            status: 2,
            line: "isdbt: 2 no sync byte: input A packet 3\n",
            written: 0,
        },
        ..GOOD
    },
    RemuxRow {
        a: 188,
        bad_a: 0,
        end: End {
            status: 2,
            line: "isdbt: 2 no sync byte: input A packet 0\n",
            written: 0,
        },
        ..GOOD
    },
    RemuxRow {
        a: 400 * 188,
        bad_a: 200,
        end: End {
            status: 2,
            line: "isdbt: 2 no sync byte: input A packet 200\n",
            written: FRAME,
        },
        ..GOOD
    },
    RemuxRow {
        a: 400 * 188,
        bad_a: 399,
        end: End {
            status: 2,
            line: "isdbt: 2 no sync byte: input A packet 399\n",
            written: 2 * FRAME,
        },
        ..GOOD
    },
];

#[test]
fn bad_sync_inside_a_frame(rt: HostRuntime) -> Result<(), Fail> {
    check_single(&rt, rt.alloc(), &BAD_PACKETS)
}

/// Reads in pieces of several sizes; and a read, a write or an open that fails, and an output that is full inside of a frame.
const FAULTS: [RemuxRow; 12] = [
    RemuxRow {
        outside: Outside { most: 1000, ..WELL },
        ..GOOD
    },
    RemuxRow {
        outside: Outside { most: 188, ..WELL },
        ..GOOD
    },
    RemuxRow {
        outside: Outside { most: 1, ..WELL },
        ..GOOD
    },
    GOOD,
    RemuxRow {
        outside: Outside {
            read: Seat::A,
            taken: 29_328,
            ..WELL
        },
        end: End {
            status: 11,
            line: "isdbt: 11 read fault: A\n",
            written: FRAME,
        },
        ..GOOD
    },
    RemuxRow {
        outside: Outside {
            read: Seat::A,
            taken: 0,
            ..WELL
        },
        end: End {
            status: 11,
            line: "isdbt: 11 read fault: A\n",
            written: 0,
        },
        ..GOOD
    },
    RemuxRow {
        outside: Outside {
            read: Seat::A,
            taken: 2 * 29_328,
            ..WELL
        },
        end: End {
            status: 11,
            line: "isdbt: 11 read fault: A\n",
            written: 2 * FRAME,
        },
        ..GOOD
    },
    RemuxRow {
        outside: Outside {
            written: 261_120,
            ..WELL
        },
        end: End {
            status: 12,
            line: "isdbt: 12 write fault\n",
            written: FRAME,
        },
        ..GOOD
    },
    RemuxRow {
        outside: Outside { written: 0, ..WELL },
        end: End {
            status: 12,
            line: "isdbt: 12 write fault\n",
            written: 0,
        },
        ..GOOD
    },
    RemuxRow {
        outside: Outside {
            written: 1_044_480,
            ..WELL
        },
        end: End {
            status: 12,
            line: "isdbt: 12 write fault\n",
            written: 4 * FRAME,
        },
        ..GOOD
    },
    RemuxRow {
        outside: Outside {
            open: Seat::A,
            ..WELL
        },
        end: End {
            status: 10,
            line: "isdbt: 10 cannot open: A\n",
            written: 0,
        },
        ..GOOD
    },
    RemuxRow {
        a: 188,
        outside: Outside {
            room: 300_000,
            ..WELL
        },
        end: End {
            status: 12,
            line: "isdbt: 12 write fault\n",
            written: 300_000,
        },
        ..GOOD
    },
];

#[test]
fn fault_at_a_byte(rt: HostRuntime) -> Result<(), Fail> {
    check_single(&rt, rt.alloc(), &FAULTS)
}

#[test]
fn missing_name(rt: HostRuntime) -> Result<(), Fail> {
    let words = ["remux", "1", "1/4", SINGLE, "A=missing"];
    let ran = run_over(rt.alloc(), &words, &[], &[], &WELL)?;
    let end = End {
        status: 10,
        line: "isdbt: 10 cannot open: A\n",
        written: 0,
    };
    check_end(&rt, &ran, &end, &[], FRAME);
    Ok(())
}

/// The first bad packet of two inputs: of the earlier frame, and of layer A in the same frame.
const FIRST_BAD: [RemuxRow; 5] = [
    RemuxRow {
        bad_b: 3,
        end: End {
            status: 2,
            line: "isdbt: 2 no sync byte: input B packet 3\n",
            written: 0,
        },
        ..GOOD_WIDE
    },
    RemuxRow {
        bad_a: 70,
        bad_b: 3,
        end: End {
            status: 2,
            line: "isdbt: 2 no sync byte: input B packet 3\n",
            written: 0,
        },
        ..GOOD_WIDE
    },
    RemuxRow {
        bad_a: 63,
        bad_b: 3,
        end: End {
            status: 2,
            line: "isdbt: 2 no sync byte: input A packet 63\n",
            written: 0,
        },
        ..GOOD_WIDE
    },
    RemuxRow {
        bad_a: 64,
        bad_b: 2592,
        end: End {
            status: 2,
            line: "isdbt: 2 no sync byte: input A packet 64\n",
            written: WIDE_FRAME,
        },
        ..GOOD_WIDE
    },
    RemuxRow {
        bad_b: 5999,
        end: End {
            status: 2,
            line: "isdbt: 2 no sync byte: input B packet 5999\n",
            written: 2 * WIDE_FRAME,
        },
        ..GOOD_WIDE
    },
];

#[test]
fn first_bad_sync(rt: HostRuntime) -> Result<(), Fail> {
    check_wide(&rt, rt.alloc(), &FIRST_BAD)
}

/// The first unfinished packet of two inputs, which comes before one without sync byte.
const FIRST_UNFINISHED: [RemuxRow; 4] = [
    RemuxRow {
        a: 100 * 188,
        b: 188 + 7,
        bad_a: 0,
        end: End {
            status: 3,
            line: "isdbt: 3 truncated: input B over 7\n",
            written: 0,
        },
        ..GOOD_WIDE
    },
    RemuxRow {
        a: 188 + 9,
        b: 188 + 7,
        bad_a: 0,
        end: End {
            status: 3,
            line: "isdbt: 3 truncated: input A over 9\n",
            written: 0,
        },
        ..GOOD_WIDE
    },
    RemuxRow {
        a: 100 * 188 + 9,
        b: 188 + 7,
        bad_a: 0,
        end: End {
            status: 3,
            line: "isdbt: 3 truncated: input B over 7\n",
            written: 0,
        },
        ..GOOD_WIDE
    },
    RemuxRow {
        a: 100 * 188 + 9,
        b: 188,
        end: End {
            status: 3,
            line: "isdbt: 3 truncated: input A over 9\n",
            written: WIDE_FRAME,
        },
        ..GOOD_WIDE
    },
];

#[test]
fn input_ends_inside_packet_of_two_layers(rt: HostRuntime) -> Result<(), Fail> {
    check_wide(&rt, rt.alloc(), &FIRST_UNFINISHED)
}

/// A read or an open of layer B's input that fails.
const FAULTS_OF_B: [RemuxRow; 3] = [
    RemuxRow {
        outside: Outside {
            read: Seat::B,
            taken: 0,
            ..WELL
        },
        end: End {
            status: 11,
            line: "isdbt: 11 read fault: B\n",
            written: 0,
        },
        ..GOOD_WIDE
    },
    RemuxRow {
        outside: Outside {
            read: Seat::B,
            taken: 487_296,
            ..WELL
        },
        end: End {
            status: 11,
            line: "isdbt: 11 read fault: B\n",
            written: WIDE_FRAME,
        },
        ..GOOD_WIDE
    },
    RemuxRow {
        outside: Outside {
            open: Seat::B,
            ..WELL
        },
        end: End {
            status: 10,
            line: "isdbt: 10 cannot open: B\n",
            written: 0,
        },
        ..GOOD_WIDE
    },
];

#[test]
fn fault_at_a_byte_of_layer_b(rt: HostRuntime) -> Result<(), Fail> {
    check_wide(&rt, rt.alloc(), &FAULTS_OF_B)
}
