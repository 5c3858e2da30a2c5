//! The lines of faults, and their statuses.

use crate::fault::{Outcome, RunFault};
use crate::lines::write_line;
use coder_core::CodeFault;
use edge_io::{MemorySink, Seat};
use isdbt_base::Layer;
use seg_receiver::ReceiveFault;
use std::alloc::Global;
use std::process::Abort;
use std::test::Fail;
use tmcc_word::TmccFault;

/// Checks the status and the line of an outcome.
fn check_line(
    rt: &impl Abort,
    alloc: Global,
    outcome: Outcome,
    status: u8,
    line: &str,
) -> Result<(), Fail> {
    let mut err = MemorySink::new(alloc, 100)?;
    write_line(&outcome, &mut err);
    assert_eq!(rt; outcome.status(), status);
    assert!(rt; err.bytes() == line.as_bytes(), "{line}");
    Ok(())
}

/// A fault, its status and its line.
struct RunLine {
    fault: RunFault,
    status: u8,
    line: &'static str,
}

const RUN_LINES: [RunLine; 8] = [
    RunLine {
        fault: RunFault::Usage { word: 3 },
        status: 1,
        line: "isdbt: 1 usage: word 3\n",
    },
    RunLine {
        fault: RunFault::BadSync {
            seat: Seat::B,
            packet: 18_446_744_073_709_551_615,
        },
        status: 2,
        line: "isdbt: 2 no sync byte: input B packet 18446744073709551615\n",
    },
    RunLine {
        fault: RunFault::Truncated {
            seat: Seat::B,
            over: 187,
        },
        status: 3,
        line: "isdbt: 3 truncated: input B over 187\n",
    },
    RunLine {
        fault: RunFault::OpenFault(Seat::A),
        status: 10,
        line: "isdbt: 10 cannot open: A\n",
    },
    RunLine {
        fault: RunFault::ReadFault(Seat::C),
        status: 11,
        line: "isdbt: 11 read fault: C\n",
    },
    RunLine {
        fault: RunFault::WriteFault,
        status: 12,
        line: "isdbt: 12 write fault\n",
    },
    RunLine {
        fault: RunFault::TooLong,
        status: 13,
        line: "isdbt: 13 too long\n",
    },
    RunLine {
        fault: RunFault::NoMemory,
        status: 14,
        line: "isdbt: 14 no memory\n",
    },
];

#[test]
fn fault_lines(rt: HostRuntime) -> Result<(), Fail> {
    let alloc = rt.alloc();
    for row in &RUN_LINES {
        check_line(&rt, alloc, Outcome::Fault(row.fault), row.status, row.line)?;
    }
    check_line(&rt, alloc, Outcome::Done(5), 0, "")?;
    let mut full = MemorySink::new(alloc, 10)?;
    write_line(&Outcome::Fault(RunFault::NoMemory), &mut full);
    assert!(rt; full.bytes() == b"isdbt: 14 ".as_slice());
    Ok(())
}

/// A fault of a coding, its status and its line.
struct CodeLine {
    fault: CodeFault,
    status: u8,
    line: &'static str,
}

const CODE_LINES: [CodeLine; 6] = [
    CodeLine {
        fault: CodeFault::HeadMisplaced {
            frame: 16_777_215,
            slot: 4607,
        },
        status: 4,
        line: "isdbt: 4 frame head misplaced: frame 16777215 slot 4607\n",
    },
    CodeLine {
        fault: CodeFault::NoHead,
        status: 5,
        line: "isdbt: 5 no frame head\n",
    },
    CodeLine {
        fault: CodeFault::WrongCount {
            frame: 16_777_215,
            layer: Layer::A,
            found: 4_294_967_295,
        },
        status: 6,
        line: "isdbt: 6 wrong count: frame 16777215 layer A found 4294967295\n",
    },
    CodeLine {
        fault: CodeFault::WrongCount {
            frame: 16_777_215,
            layer: Layer::B,
            found: 4_294_967_295,
        },
        status: 6,
        line: "isdbt: 6 wrong count: frame 16777215 layer B found 4294967295\n",
    },
    CodeLine {
        fault: CodeFault::WrongCount {
            frame: 16_777_215,
            layer: Layer::C,
            found: 4_294_967_295,
        },
        status: 6,
        line: "isdbt: 6 wrong count: frame 16777215 layer C found 4294967295\n",
    },
    CodeLine {
        fault: CodeFault::WrongCount {
            frame: 0,
            layer: Layer::B,
            found: 2593,
        },
        status: 6,
        line: "isdbt: 6 wrong count: frame 0 layer B found 2593\n",
    },
];

#[test]
fn frame_fault_lines(rt: HostRuntime) -> Result<(), Fail> {
    for row in &CODE_LINES {
        let outcome = Outcome::Fault(RunFault::from(row.fault));
        check_line(&rt, rt.alloc(), outcome, row.status, row.line)?;
    }
    Ok(())
}

/// A fault of a receiving, its status and its line.
struct ReceiveLine {
    fault: ReceiveFault,
    status: u8,
    line: &'static str,
}

const RECEIVE_LINES: [ReceiveLine; 38] = [
    ReceiveLine {
        fault: ReceiveFault::BadTmcc {
            frame: 16_777_215,
            reason: TmccFault::Sync,
        },
        status: 7,
        line: "isdbt: 7 tmcc: frame 16777215 sync\n",
    },
    ReceiveLine {
        fault: ReceiveFault::BadTmcc {
            frame: 16_777_215,
            reason: TmccFault::SegmentType,
        },
        status: 7,
        line: "isdbt: 7 tmcc: frame 16777215 segment type\n",
    },
    ReceiveLine {
        fault: ReceiveFault::BadTmcc {
            frame: 16_777_215,
            reason: TmccFault::Parity,
        },
        status: 7,
        line: "isdbt: 7 tmcc: frame 16777215 parity\n",
    },
    ReceiveLine {
        fault: ReceiveFault::BadTmcc {
            frame: 16_777_215,
            reason: TmccFault::System,
        },
        status: 7,
        line: "isdbt: 7 tmcc: frame 16777215 system\n",
    },
    ReceiveLine {
        fault: ReceiveFault::BadTmcc {
            frame: 16_777_215,
            reason: TmccFault::LayerField(Layer::A),
        },
        status: 7,
        line: "isdbt: 7 tmcc: frame 16777215 layer A\n",
    },
    ReceiveLine {
        fault: ReceiveFault::BadTmcc {
            frame: 16_777_215,
            reason: TmccFault::LayerField(Layer::B),
        },
        status: 7,
        line: "isdbt: 7 tmcc: frame 16777215 layer B\n",
    },
    ReceiveLine {
        fault: ReceiveFault::BadTmcc {
            frame: 16_777_215,
            reason: TmccFault::LayerField(Layer::C),
        },
        status: 7,
        line: "isdbt: 7 tmcc: frame 16777215 layer C\n",
    },
    ReceiveLine {
        fault: ReceiveFault::BadTmcc {
            frame: 16_777_215,
            reason: TmccFault::Segments(4_294_967_295),
        },
        status: 7,
        line: "isdbt: 7 tmcc: frame 16777215 segments 4294967295\n",
    },
    ReceiveLine {
        fault: ReceiveFault::BadTmcc {
            frame: 0,
            reason: TmccFault::Sync,
        },
        status: 7,
        line: "isdbt: 7 tmcc: frame 0 sync\n",
    },
    ReceiveLine {
        fault: ReceiveFault::BadTmcc {
            frame: 0,
            reason: TmccFault::SegmentType,
        },
        status: 7,
        line: "isdbt: 7 tmcc: frame 0 segment type\n",
    },
    ReceiveLine {
        fault: ReceiveFault::BadTmcc {
            frame: 0,
            reason: TmccFault::Parity,
        },
        status: 7,
        line: "isdbt: 7 tmcc: frame 0 parity\n",
    },
    ReceiveLine {
        fault: ReceiveFault::BadTmcc {
            frame: 0,
            reason: TmccFault::System,
        },
        status: 7,
        line: "isdbt: 7 tmcc: frame 0 system\n",
    },
    ReceiveLine {
        fault: ReceiveFault::BadTmcc {
            frame: 0,
            reason: TmccFault::Segments(12),
        },
        status: 7,
        line: "isdbt: 7 tmcc: frame 0 segments 12\n",
    },
    ReceiveLine {
        fault: ReceiveFault::BadTmcc {
            frame: 1,
            reason: TmccFault::Sync,
        },
        status: 7,
        line: "isdbt: 7 tmcc: frame 1 sync\n",
    },
    ReceiveLine {
        fault: ReceiveFault::BadTmcc {
            frame: 1,
            reason: TmccFault::SegmentType,
        },
        status: 7,
        line: "isdbt: 7 tmcc: frame 1 segment type\n",
    },
    ReceiveLine {
        fault: ReceiveFault::BadTmcc {
            frame: 1,
            reason: TmccFault::Parity,
        },
        status: 7,
        line: "isdbt: 7 tmcc: frame 1 parity\n",
    },
    ReceiveLine {
        fault: ReceiveFault::BadTmcc {
            frame: 1,
            reason: TmccFault::System,
        },
        status: 7,
        line: "isdbt: 7 tmcc: frame 1 system\n",
    },
    ReceiveLine {
        fault: ReceiveFault::BadTmcc {
            frame: 1,
            reason: TmccFault::Segments(12),
        },
        status: 7,
        line: "isdbt: 7 tmcc: frame 1 segments 12\n",
    },
    ReceiveLine {
        fault: ReceiveFault::BadTmcc {
            frame: 0,
            reason: TmccFault::LayerField(Layer::A),
        },
        status: 7,
        line: "isdbt: 7 tmcc: frame 0 layer A\n",
    },
    ReceiveLine {
        fault: ReceiveFault::BadTmcc {
            frame: 0,
            reason: TmccFault::LayerField(Layer::B),
        },
        status: 7,
        line: "isdbt: 7 tmcc: frame 0 layer B\n",
    },
    ReceiveLine {
        fault: ReceiveFault::BadTmcc {
            frame: 0,
            reason: TmccFault::LayerField(Layer::C),
        },
        status: 7,
        line: "isdbt: 7 tmcc: frame 0 layer C\n",
    },
    ReceiveLine {
        fault: ReceiveFault::BadTmcc {
            frame: 0,
            reason: TmccFault::Segments(14),
        },
        status: 7,
        line: "isdbt: 7 tmcc: frame 0 segments 14\n",
    },
    ReceiveLine {
        fault: ReceiveFault::BadTmcc {
            frame: 2,
            reason: TmccFault::LayerField(Layer::A),
        },
        status: 7,
        line: "isdbt: 7 tmcc: frame 2 layer A\n",
    },
    ReceiveLine {
        fault: ReceiveFault::BadTmcc {
            frame: 2,
            reason: TmccFault::LayerField(Layer::B),
        },
        status: 7,
        line: "isdbt: 7 tmcc: frame 2 layer B\n",
    },
    ReceiveLine {
        fault: ReceiveFault::BadTmcc {
            frame: 2,
            reason: TmccFault::LayerField(Layer::C),
        },
        status: 7,
        line: "isdbt: 7 tmcc: frame 2 layer C\n",
    },
    ReceiveLine {
        fault: ReceiveFault::BadTmcc {
            frame: 2,
            reason: TmccFault::Segments(14),
        },
        status: 7,
        line: "isdbt: 7 tmcc: frame 2 segments 14\n",
    },
    ReceiveLine {
        fault: ReceiveFault::BadTmcc {
            frame: 2,
            reason: TmccFault::Sync,
        },
        status: 7,
        line: "isdbt: 7 tmcc: frame 2 sync\n",
    },
    ReceiveLine {
        fault: ReceiveFault::BadHead {
            frame: 16_777_215,
            byte: 255,
        },
        status: 15,
        line: "isdbt: 15 bad frame head: frame 16777215 byte 255\n",
    },
    ReceiveLine {
        fault: ReceiveFault::BadHead { frame: 0, byte: 0 },
        status: 15,
        line: "isdbt: 15 bad frame head: frame 0 byte 0\n",
    },
    ReceiveLine {
        fault: ReceiveFault::Unannounced { frame: 0 },
        status: 8,
        line: "isdbt: 8 unannounced setting: frame 0\n",
    },
    ReceiveLine {
        fault: ReceiveFault::Unannounced { frame: 1 },
        status: 8,
        line: "isdbt: 8 unannounced setting: frame 1\n",
    },
    ReceiveLine {
        fault: ReceiveFault::Unannounced { frame: 2 },
        status: 8,
        line: "isdbt: 8 unannounced setting: frame 2\n",
    },
    ReceiveLine {
        fault: ReceiveFault::NotPartial { frame: 16_777_215 },
        status: 9,
        line: "isdbt: 9 no partial reception: frame 16777215\n",
    },
    ReceiveLine {
        fault: ReceiveFault::Truncated {
            seat: Seat::In,
            over: 509_387,
        },
        status: 3,
        line: "isdbt: 3 truncated: input IN over 509387\n",
    },
    ReceiveLine {
        fault: ReceiveFault::ReadFault(Seat::In),
        status: 11,
        line: "isdbt: 11 read fault: IN\n",
    },
    ReceiveLine {
        fault: ReceiveFault::WriteFault,
        status: 12,
        line: "isdbt: 12 write fault\n",
    },
    ReceiveLine {
        fault: ReceiveFault::TooLong,
        status: 13,
        line: "isdbt: 13 too long\n",
    },
    ReceiveLine {
        fault: ReceiveFault::NoMemory,
        status: 14,
        line: "isdbt: 14 no memory\n",
    },
];

#[test]
fn cell_fault_lines(rt: HostRuntime) -> Result<(), Fail> {
    for row in &RECEIVE_LINES {
        let outcome = Outcome::Fault(RunFault::from(row.fault));
        check_line(&rt, rt.alloc(), outcome, row.status, row.line)?;
    }
    Ok(())
}
