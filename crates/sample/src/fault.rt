//! Why a sample ends early.

use thiserror::Error;

/// Why a sample ends early.
#[derive(Clone, Copy, Debug, PartialEq, Eq, Error)]
pub enum SampleFault {
    /// A write failed.
    #[error("a write failed")]
    WriteFault,
    /// Memory ran out.
    #[error("no memory")]
    NoMemory,
}
