//! The real streams.

ghost use Rattle.std.specs.Prelude.{◌≡◌, ◌<◌, ◌≤◌, length, take, IfOk};
ghost use Rattle.std.specs.Io.KnownBytes.{Appends};
ghost use Rattle.edge_io.specs.Causes.{Counts, HasCause};

use crate::{Failed, Sink};
use std::io::Write;

/// A writer as a sink.
///
/// It tells nothing of content and keeps no bytes. Each error of the runtime, whatever its cause,
/// is a fault, and so is a write that takes nothing. Its count of faults stays at its last value.
#[derive(Drop)]
pub struct StreamSink<W: Write + Drop> {
    inner: W,
    faults: u64,
}

impl<W: Write + Drop> StreamSink<W> {
    ghost use Rattle.edge_io.specs.StreamSink.{writer_of, fault_count};

    /// A sink over a writer, which counted no fault.
    pub fn new(inner: W) -> StreamSink<W>
        ensures writer { writer_of result ≡ inner }
        ensures count { fault_count result ≡ 0 }
    {
        StreamSink { inner, faults: 0 }
    }
}

impl<W: Write + Drop> Sink for StreamSink<W> {
    ghost use Rattle.std.specs.Prelude.{None};
    ghost use Rattle.edge_io.specs.StreamSink.{writer_of, fault_count};

    ghost written = { λ _. None };

    ghost room = { λ _. None };

    ghost faults = { fault_count };

    fn write(&mut self, piece: &[u8]) -> Result<usize, Failed>
        requires { 0 < length piece.now }
        ensures some { IfOk result (λ n. 0 < n) }
        ensures bound { IfOk result (λ n. n ≤ length piece.now) }
        ensures passed { IfOk result (λ n. Appends (W.contents (writer_of self.old)) (W.contents (writer_of self.new)) (take n piece.now)) }
        ensures counts { Counts (fault_count self.old) (fault_count self.new) result }
        ensures cause { HasCause (fault_count self.old) (fault_count self.new) result }
    {
        match self.inner.write(piece) {
            Ok(count) if count > 0 => Ok(count),
            _ => {
                self.faults = self.faults.saturating_add(1);
                Err(Failed)
            }
        }
    }
}
