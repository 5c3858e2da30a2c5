//! A shelf in memory, which fails where it is told to.

ghost use Rattle.std.specs.Prelude.{◌≡◌, ℕ, ◌<◌, ◌≤◌, ◌+◌, ◌-◌, ◌^◌, ◌↔◌, ◌⊎◌, List, [], length, take, min, true, false, None, Some, IsErr, IsNone, IsSomeAnd, OnOk, OnErr, IfOk, drop};
ghost use Rattle.edge_io.specs.declared.shelf.Seat.{Seat};
ghost use Rattle.edge_io.specs.Causes.{Counts, Opening, Reading, ShelfCause};
ghost use Rattle.edge_io.specs.Entries.{Puts, ReadEntries};
ghost use Rattle.edge_io.specs.Seats.{OthersKeep};

use crate::entries::{Cursor, Entry, add, read_on, start_of};
use crate::failure::is_due;
use crate::per_seat::PerSeat;
use crate::{Failed, Seat, Shelf};
use isdbt_base::NoMemory;
use std::alloc::Global;

/// Names with the bytes that they hold, for tests. It tells all its content, and fails only where
/// a name isn't there or where it was told to fail. It has one count of its faults, which stays at
/// its last value.
#[derive(Drop)]
pub struct MemoryShelf {
    alloc: Global,
    entries: Vec<Entry>,
    cursors: PerSeat<Option<Cursor>>,
    most: usize,
    fail_open: PerSeat<bool>,
    fail_from: PerSeat<Option<u64>>,
    faults: u64,
    ghost gives_some: { 0 < most },
    ghost read_entries: { ReadEntries cursors entries.items },
}

impl MemoryShelf {
    ghost use Rattle.edge_io.specs.MemoryShelf.{content_of, is_seat_open, fault_count, most_given, next_open_fails, fails_from, KeepsSeats};

    /// A shelf with no names, which gives all that a buffer holds and is not told to fail.
    pub fn new(alloc: Global) -> MemoryShelf
        ensures no_names { (name : List ℕ) → content_of result name ≡ None }
        ensures closed { (seat : Seat) → is_seat_open result seat ≡ false }
        ensures pieces { most_given result ≡ 2 ^ 64 - 1 }
        ensures opens { (seat : Seat) → next_open_fails result seat ≡ false }
        ensures reads { (seat : Seat) → fails_from result seat ≡ None }
        ensures count { fault_count result ≡ 0 }
    {
        MemoryShelf {
            alloc,
            entries: Vec::new(alloc),
            cursors: PerSeat::of(None),
            most: usize::MAX,
            fail_open: PerSeat::of(false),
            fail_from: PerSeat::of(None),
            faults: 0,
        }
    }

    /// Lets a new name hold these bytes. Without memory for them nothing changes.
    pub fn put(&mut self, name: &str, bytes: &[u8]) -> Result<(), NoMemory>
        requires { content_of self.old name.now ≡ None }
        ensures ok { OnOk result (Puts (content_of self.old) (content_of self.new) name.now bytes.now) }
        ensures err { OnErr result (content_of self.new ≡ content_of self.old) }
        ensures seats { KeepsSeats self.old self.new }
        ensures pieces { most_given self.new ≡ most_given self.old }
        ensures opens { next_open_fails self.new ≡ next_open_fails self.old }
        ensures reads { fails_from self.new ≡ fails_from self.old }
        ensures count { fault_count self.new ≡ fault_count self.old }
    {
        add(self.alloc, &mut self.entries, name, bytes)
    }

    /// Each read gives at most so many bytes.
    pub fn pieces(&mut self, most: usize)
        requires { 0 < most }
        ensures pieces { most_given self.new ≡ most }
        ensures names { content_of self.new ≡ content_of self.old }
        ensures seats { KeepsSeats self.old self.new }
        ensures opens { next_open_fails self.new ≡ next_open_fails self.old }
        ensures reads { fails_from self.new ≡ fails_from self.old }
        ensures count { fault_count self.new ≡ fault_count self.old }
    {
        self.most = most;
    }

    /// The next open of the seat fails.
    pub fn fail_open(&mut self, seat: Seat)
        ensures fails { next_open_fails self.new seat ≡ true }
        ensures other_opens { OthersKeep seat (next_open_fails self.old) (next_open_fails self.new) }
        ensures names { content_of self.new ≡ content_of self.old }
        ensures seats { KeepsSeats self.old self.new }
        ensures pieces { most_given self.new ≡ most_given self.old }
        ensures reads { fails_from self.new ≡ fails_from self.old }
        ensures count { fault_count self.new ≡ fault_count self.old }
    {
        self.fail_open.set(seat, true);
    }

    /// The first read that finds at least so many bytes of the seat taken fails, once. An earlier
    /// setting of the seat no longer holds.
    pub fn fail_from(&mut self, seat: Seat, byte: u64)
        ensures fails { fails_from self.new seat ≡ Some byte }
        ensures other_reads { OthersKeep seat (fails_from self.old) (fails_from self.new) }
        ensures names { content_of self.new ≡ content_of self.old }
        ensures seats { KeepsSeats self.old self.new }
        ensures pieces { most_given self.new ≡ most_given self.old }
        ensures opens { next_open_fails self.new ≡ next_open_fails self.old }
        ensures count { fault_count self.new ≡ fault_count self.old }
    {
        self.fail_from.set(seat, Some(byte));
    }
}

impl Shelf for MemoryShelf {
    ghost use Rattle.std.specs.Prelude.{Some};
    ghost use Rattle.edge_io.specs.MemoryShelf.{content_of, rest_of, taken_of, is_seat_open, fault_count, most_given, next_open_fails, fails_from};

    ghost holds = { content_of };

    ghost left = { λ s seat. Some (rest_of s seat) };

    ghost is_open = { is_seat_open };

    ghost faults = { λ s _. fault_count s };

    fn open(&mut self, seat: Seat, name: &str) -> Result<(), Failed>
        requires { is_seat_open self.old seat ≡ false }

        // It fails exactly where it was told to, which holds once, or where the name isn't there.
        ensures fails { IsErr result ↔ ((next_open_fails self.old seat ≡ true) ⊎ IsNone (content_of self.old name.now)) }
        ensures cleared { next_open_fails self.new seat ≡ false }

        ensures opened { OnOk result (is_seat_open self.new seat ≡ true) }
        ensures content { OnOk result (Some (rest_of self.new seat) ≡ content_of self.old name.now) }
        ensures closed { OnErr result (is_seat_open self.new seat ≡ false) }
        ensures kept { OnErr result (rest_of self.new seat ≡ rest_of self.old seat) }
        ensures none_taken { taken_of self.new seat ≡ 0 }
        ensures counts { Counts (fault_count self.old) (fault_count self.new) result }
        ensures cause { ShelfCause (Opening seat name.now) (λ _. fault_count self.old) (λ _. fault_count self.new) result }

        // All else stays.
        ensures names { content_of self.new ≡ content_of self.old }
        ensures other_left { OthersKeep seat (rest_of self.old) (rest_of self.new) }
        ensures other_taken { OthersKeep seat (taken_of self.old) (taken_of self.new) }
        ensures other_open { OthersKeep seat (is_seat_open self.old) (is_seat_open self.new) }
        ensures other_opens { OthersKeep seat (next_open_fails self.old) (next_open_fails self.new) }
        ensures pieces { most_given self.new ≡ most_given self.old }
        ensures reads { fails_from self.new ≡ fails_from self.old }
    {
        let must_fail = self.fail_open.at(seat);
        self.fail_open.set(seat, false);
        let start = start_of(&self.entries, name);
        if must_fail || start.is_none() {
            self.faults = self.faults.saturating_add(1);
            return Err(Failed);
        }
        self.cursors.set(seat, start);
        Ok(())
    }

    fn read(&mut self, seat: Seat, buf: &mut [u8]) -> Result<usize, Failed>
        requires open { is_seat_open self.old seat ≡ true }
        requires room { 0 < length buf.old }

        // It fails exactly where it was told to, which holds once.
        ensures fails { IsErr result ↔ IsSomeAnd (fails_from self.old seat) (λ byte. byte ≤ taken_of self.old seat) }
        ensures cleared { OnErr result (fails_from self.new seat ≡ None) }
        ensures still_set { OnOk result (fails_from self.new ≡ fails_from self.old) }

        // A read gives as many bytes as are left, fit into the buffer and are given at once.
        ensures count { IfOk result (λ n. n ≡ min (most_given self.old) (min (length buf.new) (length (rest_of self.old seat)))) }
        ensures copied { IfOk result (λ n. take n buf.new ≡ take n (rest_of self.old seat)) }
        ensures rest { IfOk result (λ n. rest_of self.new seat ≡ drop n (rest_of self.old seat)) }
        ensures taken { IfOk result (λ n. taken_of self.new seat ≡ taken_of self.old seat + n) }
        ensures end { IfOk result (λ n. n ≡ 0 → rest_of self.old seat ≡ []) }
        ensures kept { OnErr result (rest_of self.new seat ≡ rest_of self.old seat) }
        ensures none_taken { OnErr result (taken_of self.new seat ≡ taken_of self.old seat) }
        ensures buffer { OnErr result (buf.new ≡ buf.old) }
        ensures counts { Counts (fault_count self.old) (fault_count self.new) result }
        ensures cause { ShelfCause (Reading seat) (λ _. fault_count self.old) (λ _. fault_count self.new) result }

        // All else stays.
        ensures names { content_of self.new ≡ content_of self.old }
        ensures other_left { OthersKeep seat (rest_of self.old) (rest_of self.new) }
        ensures other_taken { OthersKeep seat (taken_of self.old) (taken_of self.new) }
        ensures still_open { is_seat_open self.new ≡ is_seat_open self.old }
        ensures other_reads { OthersKeep seat (fails_from self.old) (fails_from self.new) }
        ensures pieces { most_given self.new ≡ most_given self.old }
        ensures opens { next_open_fails self.new ≡ next_open_fails self.old }
    {
        let Some(mut cursor) = self.cursors.at(seat) else {
            unreachable!()
        };
        if is_due(self.fail_from.at(seat), cursor.taken) {
            self.fail_from.set(seat, None);
            self.faults = self.faults.saturating_add(1);
            return Err(Failed);
        }
        let count = read_on(&self.entries, &mut cursor, self.most, buf);
        self.cursors.set(seat, Some(cursor));
        Ok(count)
    }
}
