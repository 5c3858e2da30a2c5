//! A sink in memory, which fails where it is told to.

ghost use Rattle.std.specs.Prelude.{◌≡◌, ◌≤◌, ◌<◌, ◌-◌, ◌++◌, ◌↔◌, ◌⊎◌, [], None, Some, true, length, take, min, vec_len, vec_capacity, IsErr, IsSomeAnd, IfOk, OnOk, OnErr};
ghost use Rattle.std.specs.Option.{ForSome};
ghost use Rattle.edge_io.specs.Causes.{Counts, HasCause};

use crate::failure::is_due;
use crate::{Failed, Sink};
use isdbt_base::NoMemory;
use std::alloc::Global;

/// Takes what is written until its room is full, for tests. It tells what was written, and its
/// room until it is told to fail. Its count of faults stays at its last value.
#[derive(Drop)]
pub struct MemorySink {
    bytes: Vec<u8>,
    room: usize,
    fail_from: Option<u64>,
    may_fail: bool,
    faults: u64,
    ghost within: { vec_len bytes ≤ room },
    ghost reserved: { room ≤ vec_capacity bytes },
    ghost was_told: { ForSome fail_from (λ _. may_fail ≡ true) },
}

impl MemorySink {
    ghost use Rattle.edge_io.specs.MemorySink.{written_bytes, room_of, told_room, fails_from, fault_count};

    /// A sink with room for so many bytes, of which none is written. All the memory that it ever
    /// takes is taken here.
    pub fn new(alloc: Global, room: usize) -> Result<MemorySink, NoMemory>
        ensures empty { IfOk result (λ s. written_bytes s ≡ []) }
        ensures room { IfOk result (λ s. room_of s ≡ room) }
        ensures told { IfOk result (λ s. told_room s ≡ Some room) }
        ensures never_fails { IfOk result (λ s. fails_from s ≡ None) }
        ensures count { IfOk result (λ s. fault_count s ≡ 0) }
    {
        let bytes = Vec::with_capacity(alloc, room)?;
        Ok(MemorySink {
            bytes,
            room,
            fail_from: None,
            may_fail: false,
            faults: 0,
        })
    }

    /// What was written.
    pub fn bytes(&self) -> &[u8]
        ensures { result.now ≡ written_bytes self.now }
    {
        &self.bytes
    }

    /// The first write that finds at least so many bytes written fails, once. An earlier setting
    /// no longer holds. The room is not told from here on.
    pub fn fail_from(&mut self, byte: u64)
        ensures fails { fails_from self.new ≡ Some byte }
        ensures untold { told_room self.new ≡ None }
        ensures written { written_bytes self.new ≡ written_bytes self.old }
        ensures room { room_of self.new ≡ room_of self.old }
        ensures count { fault_count self.new ≡ fault_count self.old }
    {
        self.may_fail = true;
        self.fail_from = Some(byte);
    }
}

impl Sink for MemorySink {
    ghost use Rattle.std.specs.Prelude.{Some};
    ghost use Rattle.edge_io.specs.MemorySink.{written_bytes, room_of, told_room, fails_from, fault_count};

    ghost written = { λ s. Some (written_bytes s) };

    ghost room = { told_room };

    ghost faults = { fault_count };

    fn write(&mut self, piece: &[u8]) -> Result<usize, Failed>
        requires { 0 < length piece.now }

        // It fails exactly where it was told to, which holds once, or where its room is full.
        ensures fails { IsErr result ↔ (IsSomeAnd (fails_from self.old) (λ byte. byte ≤ length (written_bytes self.old))
            ⊎ (length (written_bytes self.old) ≡ room_of self.old)) }
        ensures cleared { OnErr result (fails_from self.new ≡ None) }
        ensures still_set { OnOk result (fails_from self.new ≡ fails_from self.old) }

        // It takes what fits into the room.
        ensures count { IfOk result (λ n. n ≡ min (length piece.now) (room_of self.old - length (written_bytes self.old))) }
        ensures some { IfOk result (λ n. 0 < n) }
        ensures appended { IfOk result (λ n. written_bytes self.new ≡ written_bytes self.old ++ take n piece.now) }
        ensures kept { OnErr result (written_bytes self.new ≡ written_bytes self.old) }
        ensures counts { Counts (fault_count self.old) (fault_count self.new) result }
        ensures cause { HasCause (fault_count self.old) (fault_count self.new) result }

        // The room stays.
        ensures room { room_of self.new ≡ room_of self.old }
        ensures told { told_room self.new ≡ told_room self.old }
    {
        let len = self.bytes.len();
        let count = piece.len().min(self.room - len);
        if is_due(self.fail_from, len) || count == 0 {
            self.fail_from = None;
            self.faults = self.faults.saturating_add(1);
            return Err(Failed);
        }
        match self.bytes.extend_from_slice(&piece[..count]) {
            Ok(()) => Ok(count),
            Err(_) => unreachable!(),
        }
    }
}
