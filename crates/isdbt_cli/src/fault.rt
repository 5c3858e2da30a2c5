//! How a command ends.

ghost use Rattle.std.specs.Prelude.{◌≡◌};

use coder_core::CodeFault;
use edge_io::Seat;
use isdbt_base::Layer;
use remux_core::RemuxFault;
use sample::SampleFault;
use seg_receiver::ReceiveFault;
use thiserror::Error;
use tmcc_word::TmccFault;

/// Why a command ended early. The frames before the refused one are written whole, and nothing else; after a write fault a
/// front part of the output is written. Frames are those of the output; those of a coding count from the first frame head,
/// and those of a receiving are those of the cells too.
#[derive(Clone, Copy, Debug, PartialEq, Eq, Error)]
pub enum RunFault {
    /// The words are not a command: no command begins with words 0 to `word`, or the words are too few.
    #[error("word {word} isn't accepted")]
    Usage {
        word: u64,
    },
    /// Packet `packet` of the seat's input, the first such, doesn't begin with the sync byte 47 hex.
    #[error("no sync byte in packet {packet}")]
    BadSync {
        seat: Seat,
        packet: u64,
    },
    /// The seat's input ends `over` bytes into a packet, or into a frame of broadcast packets or of cells.
    #[error("the input ends {over} bytes into a packet or frame")]
    Truncated {
        seat: Seat,
        over: u32,
    },
    /// The frame head flag is clear in slot 0 of a frame, or set in another.
    #[error("frame head misplaced in frame {frame}, slot {slot}")]
    HeadMisplaced {
        frame: u32,
        slot: u32,
    },
    /// No packet bears the frame head flag.
    #[error("no frame head")]
    NoHead,
    /// A layer has another count of packets in a frame than the setting says.
    #[error("{found} packets of a layer in frame {frame}")]
    WrongCount {
        frame: u32,
        layer: Layer,
        found: u32,
    },
    /// The TMCC word of a frame is refused, or its sync word is that of the frame before.
    #[error("bad TMCC word in frame {frame}")]
    BadTmcc {
        frame: u32,
        reason: TmccFault,
    },
    /// The setting of a frame is another than the word of the frame before lets expect.
    #[error("another setting than announced in frame {frame}")]
    Unannounced {
        frame: u32,
    },
    /// Partial reception is asked for, and the word of a frame has its flag clear.
    #[error("no partial reception in frame {frame}")]
    NotPartial {
        frame: u32,
    },
    /// The seat's input can't be opened.
    #[error("an input can't be opened")]
    OpenFault(Seat),
    /// A read of the seat failed.
    #[error("a read failed")]
    ReadFault(Seat),
    /// A write failed.
    #[error("a write failed")]
    WriteFault,
    /// There are more frames than 16,777,216, or no frame head comes in 65,536 packets and more follow.
    #[error("too many frames")]
    TooLong,
    /// Memory ran out.
    #[error("no memory")]
    NoMemory,
    /// The head of a frame of cells is refused at this byte, the least such: it is no allowed value, or in a frame that doesn't
    /// begin an epoch it is another than in the frame before.
    #[error("bad head of frame {frame}, byte {byte}")]
    BadHead {
        frame: u32,
        byte: u8,
    },
}

/// How a command ended: with so many frames written, or with a fault.
#[derive(Clone, Copy, Debug, PartialEq, Eq)]
pub enum Outcome {
    Done(u32),
    Fault(RunFault),
}

impl Outcome {
    ghost use Rattle.isdbt_cli.specs.Faults.{status_of};

    /// The exit status: 0, or the fault's number.
    pub fn status(&self) -> u8
        ensures { result ≡ status_of self.now }
    {
        match self {
            Outcome::Done(_) => 0,
            Outcome::Fault(RunFault::Usage { .. }) => 1,
            Outcome::Fault(RunFault::BadSync { .. }) => 2,
            Outcome::Fault(RunFault::Truncated { .. }) => 3,
            Outcome::Fault(RunFault::HeadMisplaced { .. }) => 4,
            Outcome::Fault(RunFault::NoHead) => 5,
            Outcome::Fault(RunFault::WrongCount { .. }) => 6,
            Outcome::Fault(RunFault::BadTmcc { .. }) => 7,
            Outcome::Fault(RunFault::Unannounced { .. }) => 8,
            Outcome::Fault(RunFault::NotPartial { .. }) => 9,
            Outcome::Fault(RunFault::OpenFault(_)) => 10,
            Outcome::Fault(RunFault::ReadFault(_)) => 11,
            Outcome::Fault(RunFault::WriteFault) => 12,
            Outcome::Fault(RunFault::TooLong) => 13,
            Outcome::Fault(RunFault::NoMemory) => 14,
            Outcome::Fault(RunFault::BadHead { .. }) => 15,
        }
    }
}

impl From<RemuxFault> for RunFault {
    ghost use Rattle.isdbt_cli.specs.Faults.{run_fault_of};
    ghost use Rattle.std.specs.Prelude.{◌≡◌};

    ghost from_gives = { λ fault e. e ≡ run_fault_of fault };

    fn from(fault: RemuxFault) -> RunFault {
        match fault {
            RemuxFault::BadSync { seat, packet } => RunFault::BadSync { seat, packet },
            RemuxFault::Truncated { seat, over } => RunFault::Truncated { seat, over },
            RemuxFault::ReadFault(seat) => RunFault::ReadFault(seat),
            RemuxFault::WriteFault => RunFault::WriteFault,
            RemuxFault::TooLong => RunFault::TooLong,
            RemuxFault::NoMemory => RunFault::NoMemory,
        }
    }
}

impl From<CodeFault> for RunFault {
    ghost use Rattle.isdbt_cli.specs.Faults.{run_fault_of_code};
    ghost use Rattle.std.specs.Prelude.{◌≡◌};

    ghost from_gives = { λ fault e. e ≡ run_fault_of_code fault };

    fn from(fault: CodeFault) -> RunFault {
        match fault {
            CodeFault::BadSync { seat, packet } => RunFault::BadSync { seat, packet },
            CodeFault::Truncated { seat, over } => RunFault::Truncated { seat, over },
            CodeFault::HeadMisplaced { frame, slot } => RunFault::HeadMisplaced { frame, slot },
            CodeFault::NoHead => RunFault::NoHead,
            CodeFault::WrongCount {
                frame,
                layer,
                found,
            } => RunFault::WrongCount {
                frame,
                layer,
                found,
            },
            CodeFault::ReadFault(seat) => RunFault::ReadFault(seat),
            CodeFault::WriteFault => RunFault::WriteFault,
            CodeFault::TooLong => RunFault::TooLong,
            CodeFault::NoMemory => RunFault::NoMemory,
        }
    }
}

impl From<ReceiveFault> for RunFault {
    ghost use Rattle.isdbt_cli.specs.Faults.{run_fault_of_receive};
    ghost use Rattle.std.specs.Prelude.{◌≡◌};

    ghost from_gives = { λ fault e. e ≡ run_fault_of_receive fault };

    fn from(fault: ReceiveFault) -> RunFault {
        match fault {
            ReceiveFault::Truncated { seat, over } => RunFault::Truncated { seat, over },
            ReceiveFault::BadHead { frame, byte } => RunFault::BadHead { frame, byte },
            ReceiveFault::BadTmcc { frame, reason } => RunFault::BadTmcc { frame, reason },
            ReceiveFault::Unannounced { frame } => RunFault::Unannounced { frame },
            ReceiveFault::NotPartial { frame } => RunFault::NotPartial { frame },
            ReceiveFault::ReadFault(seat) => RunFault::ReadFault(seat),
            ReceiveFault::WriteFault => RunFault::WriteFault,
            ReceiveFault::TooLong => RunFault::TooLong,
            ReceiveFault::NoMemory => RunFault::NoMemory,
        }
    }
}

impl From<SampleFault> for RunFault {
    ghost use Rattle.isdbt_cli.specs.Faults.{run_fault_of_sample};
    ghost use Rattle.std.specs.Prelude.{◌≡◌};

    ghost from_gives = { λ fault e. e ≡ run_fault_of_sample fault };

    fn from(fault: SampleFault) -> RunFault {
        match fault {
            SampleFault::WriteFault => RunFault::WriteFault,
            SampleFault::NoMemory => RunFault::NoMemory,
        }
    }
}
