//! Writes that go on until all bytes are written.

ghost use Rattle.std.specs.Prelude.{◌≡◌, ℕ, ◌<◌, length, take, OnOk, OnErr};
ghost use Rattle.edge_io.specs.Known.{append_known, ReachesRoom};
ghost use Rattle.edge_io.specs.Causes.{HasCause};

use crate::{Failed, Sink};

/// Writes all of the bytes, also where each write takes some of them.
///
/// It fails where a write fails, and writes no more then.
pub fn write_whole<K: Sink>(sink: &mut K, bytes: &[u8]) -> Result<(), Failed>
    ensures ok { OnOk result (K.written sink.new ≡ append_known (K.written sink.old) bytes.now) }

    // After a failure it has written the first n bytes, fewer than all.
    ensures some { OnErr result ((n : ℕ) × (n < length bytes.now) × (K.written sink.new ≡ append_known (K.written sink.old) (take n bytes.now))) }
    ensures room { K.room sink.new ≡ K.room sink.old }

    // Where room and content are told, it fails only where what was written reaches the room.
    ensures reached { OnErr result (ReachesRoom (K.room sink.old) (K.written sink.new)) }
    ensures cause { HasCause (K.faults sink.old) (K.faults sink.new) result }
{
    let mut at = 0;
    while at < bytes.len() {
        let count = sink.write(&bytes[at..])?;
        at += count;
    }
    Ok(())
}
