//! Why a receiving ends early.

use edge_io::Seat;
use thiserror::Error;
use tmcc_word::TmccFault;

/// Why a receiving ends early. A refused frame and those after it are not given out.
#[derive(Clone, Copy, Debug, PartialEq, Eq, Error)]
pub enum ReceiveFault {
    /// The seat's input ends `over` bytes into a frame.
    #[error("the input ends {over} bytes into a frame")]
    Truncated { seat: Seat, over: u32 },
    /// The head of a frame is refused at this byte, the least such: it is no allowed value, or in a frame that doesn't begin an
    /// epoch it is another than in the frame before.
    #[error("bad head of frame {frame}, byte {byte}")]
    BadHead { frame: u32, byte: u8 },
    /// The TMCC word of a frame is refused, or its sync word is that of the frame before.
    #[error("bad TMCC word in frame {frame}")]
    BadTmcc { frame: u32, reason: TmccFault },
    /// The setting of a frame is another than the frame before lets expect.
    #[error("another setting than announced in frame {frame}")]
    Unannounced { frame: u32 },
    /// Partial reception is asked for, and the word of a frame has its flag clear.
    #[error("no partial reception in frame {frame}")]
    NotPartial { frame: u32 },
    /// A read of the seat failed.
    #[error("a read failed")]
    ReadFault(Seat),
    /// A write failed.
    #[error("a write failed")]
    WriteFault,
    /// The limit of frames is reached and more follow.
    #[error("too many frames")]
    TooLong,
    /// Memory ran out.
    #[error("no memory")]
    NoMemory,
}
