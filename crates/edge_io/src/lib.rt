//! Where a command's input comes from, where its output goes, and how often either fails.
//!
//! A `Shelf` has names that hold bytes, and four seats at which a name is read. A `Sink` takes
//! bytes. Both count their faults. `MemoryShelf` and `MemorySink` stand for the outside world in a
//! test: they fail where they are told to. `QuietShelf` and `QuietSink` never fail. `FileShelf` and
//! `StreamSink` are the real files and streams. `fill`, `fill_behind` and `write_whole` go on over short
//! reads and writes until all is done, or until a call fails. `ends` asks whether an input has ended.
#![tactic(auto)]

mod entries;
mod failure;
mod file_shelf;
mod memory_shelf;
mod memory_sink;
mod per_seat;
mod quiet_shelf;
mod quiet_sink;
mod reading;
mod shelf;
mod sink;
mod stream_sink;
#[cfg(test)]
mod tests;
mod writing;

pub use file_shelf::FileShelf;
pub use memory_shelf::MemoryShelf;
pub use memory_sink::MemorySink;
pub use quiet_shelf::QuietShelf;
pub use quiet_sink::QuietSink;
pub use reading::{ends, fill, fill_behind};
pub use shelf::{Failed, Seat, Shelf};
pub use sink::Sink;
pub use stream_sink::StreamSink;
pub use writing::write_whole;
