//! Why a coding ends early.

use edge_io::Seat;
use isdbt_base::Layer;
use thiserror::Error;

/// Why a coding ends early. A refused frame and those after it are not written.
#[derive(Clone, Copy, Debug, PartialEq, Eq, Error)]
pub enum CodeFault {
    /// Packet `packet` of the seat's input, the first such, doesn't begin with the sync byte 47 hex.
    #[error("no sync byte in packet {packet}")]
    BadSync {
        seat: Seat,
        packet: u64,
    },
    /// The seat's input ends `over` bytes into a packet before the first frame head, or into a frame.
    #[error("the input ends {over} bytes into a packet or frame")]
    Truncated {
        seat: Seat,
        over: u32,
    },
    /// The frame head flag is clear in slot 0 of a frame, or set in another.
    #[error("frame head misplaced in frame {frame}, slot {slot}")]
    HeadMisplaced {
        frame: u32,
        slot: u32,
    },
    /// No packet bears the frame head flag.
    #[error("no frame head")]
    NoHead,
    /// A layer has another count of packets in a frame than the setting says.
    #[error("{found} packets of a layer in frame {frame}")]
    WrongCount {
        frame: u32,
        layer: Layer,
        found: u32,
    },
    /// A read of the seat failed.
    #[error("a read failed")]
    ReadFault(Seat),
    /// A write failed.
    #[error("a write failed")]
    WriteFault,
    /// The limit of frames is reached and more follow, or no frame head came in 65,536 packets and more follow.
    #[error("too many frames")]
    TooLong,
    /// Memory ran out.
    #[error("no memory")]
    NoMemory,
}
