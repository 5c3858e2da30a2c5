//! A sink that never fails.

ghost use Rattle.std.specs.Prelude.{◌≡◌, ◌+◌, ◌-◌, ◌^◌, ◌<◌, min, length, Ok};
ghost use Rattle.edge_io.specs.QuietSink.{taken_by};

use crate::{Failed, Sink};

/// Takes each piece whole, counts its bytes and keeps none of them. It tells nothing of what was
/// written, and its count of faults is 0 for ever.
#[derive(Drop)]
pub struct QuietSink {
    count: u64,
}

impl QuietSink {
    /// A sink that took nothing.
    pub fn new() -> QuietSink
        ensures { taken_by result ≡ 0 }
    {
        QuietSink { count: 0 }
    }

    /// How many bytes were taken; at 2^64 - 1 that many or more.
    pub fn count(&self) -> u64
        ensures { result ≡ taken_by self.now }
    {
        self.count
    }
}

impl Sink for QuietSink {
    ghost use Rattle.std.specs.Prelude.{None};

    ghost written = { λ _. None };

    ghost room = { λ _. None };

    ghost faults = { λ _. 0 };

    fn write(&mut self, piece: &[u8]) -> Result<usize, Failed>
        requires { 0 < length piece.now }
        ensures whole { result ≡ Ok (length piece.now) }
        ensures counted { taken_by self.new ≡ min (taken_by self.old + length piece.now) (2 ^ 64 - 1) }
    {
        self.count = self.count.saturating_add(piece.len() as u64);
        Ok(piece.len())
    }
}
