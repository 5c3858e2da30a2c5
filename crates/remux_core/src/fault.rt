//! Why a remultiplexing ends early.

use edge_io::Seat;
use thiserror::Error;

/// Why a remultiplexing ends early. A refused frame and those after it are not written.
#[derive(Clone, Copy, Debug, PartialEq, Eq, Error)]
pub enum RemuxFault {
    /// Packet `packet` of the seat's input, the first such, doesn't begin with the sync byte 47 hex.
    #[error("no sync byte in packet {packet}")]
    BadSync { seat: Seat, packet: u64 },
    /// The seat's input ends `over` bytes into a packet.
    #[error("the input ends {over} bytes into a packet")]
    Truncated { seat: Seat, over: u32 },
    /// A read of the seat failed.
    #[error("a read failed")]
    ReadFault(Seat),
    /// A write failed.
    #[error("a write failed")]
    WriteFault,
    /// The limit of frames is reached and more follow.
    #[error("too many frames")]
    TooLong,
    /// Memory ran out.
    #[error("no memory")]
    NoMemory,
}
