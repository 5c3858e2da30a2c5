//! A shelf of which nothing fails.

ghost use Rattle.std.specs.Prelude.{◌≡◌, ℕ, ◌<◌, List, [], length, take, drop, min, true, false, None, Some, Ok, IfOk, OnOk, OnErr};
ghost use Rattle.edge_io.specs.declared.shelf.Seat.{Seat};
ghost use Rattle.edge_io.specs.Entries.{Puts, ReadEntries};
ghost use Rattle.edge_io.specs.Seats.{OthersKeep};

use crate::entries::{Cursor, Entry, add, read_on, start_of};
use crate::per_seat::PerSeat;
use crate::{Failed, Seat, Shelf};
use isdbt_base::NoMemory;
use std::alloc::Global;

/// Names with the bytes that they hold, none where nothing was put under them. It tells all its
/// content, gives all that a buffer holds, and never fails: its counts are 0 for ever.
#[derive(Drop)]
pub struct QuietShelf {
    alloc: Global,
    entries: Vec<Entry>,
    opened: PerSeat<bool>,
    cursors: PerSeat<Option<Cursor>>,
    ghost read_entries: { ReadEntries cursors entries.items },
}

impl QuietShelf {
    ghost use Rattle.edge_io.specs.QuietShelf.{put_under, is_seat_open, KeepsSeats};

    /// A shelf of which every name holds nothing.
    pub fn new(alloc: Global) -> QuietShelf
        ensures nothing_put { (name : List ℕ) → put_under result name ≡ None }
        ensures closed { (seat : Seat) → is_seat_open result seat ≡ false }
    {
        QuietShelf {
            alloc,
            entries: Vec::new(alloc),
            opened: PerSeat::of(false),
            cursors: PerSeat::of(None),
        }
    }

    /// Lets a name hold these bytes. Without memory for them nothing changes.
    pub fn put(&mut self, name: &str, bytes: &[u8]) -> Result<(), NoMemory>
        requires { put_under self.old name.now ≡ None }
        ensures ok { OnOk result (Puts (put_under self.old) (put_under self.new) name.now bytes.now) }
        ensures err { OnErr result (put_under self.new ≡ put_under self.old) }
        ensures seats { KeepsSeats self.old self.new }
    {
        add(self.alloc, &mut self.entries, name, bytes)
    }
}

impl Shelf for QuietShelf {
    ghost use Rattle.std.specs.Prelude.{Some};
    ghost use Rattle.edge_io.specs.QuietShelf.{content_of, rest_of, is_seat_open};

    ghost holds = { λ s name. Some (content_of s name) };

    ghost left = { λ s seat. Some (rest_of s seat) };

    ghost is_open = { is_seat_open };

    ghost faults = { λ _ _. 0 };

    fn open(&mut self, seat: Seat, name: &str) -> Result<(), Failed>
        requires { is_seat_open self.old seat ≡ false }
        ensures succeeds { result ≡ Ok tt }
        ensures opened { is_seat_open self.new seat ≡ true }
        ensures content { rest_of self.new seat ≡ content_of self.old name.now }

        // All else stays.
        ensures names { content_of self.new ≡ content_of self.old }
        ensures other_left { OthersKeep seat (rest_of self.old) (rest_of self.new) }
        ensures other_open { OthersKeep seat (is_seat_open self.old) (is_seat_open self.new) }
    {
        let start = start_of(&self.entries, name);
        self.cursors.set(seat, start);
        self.opened.set(seat, true);
        Ok(())
    }

    fn read(&mut self, seat: Seat, buf: &mut [u8]) -> Result<usize, Failed>
        requires open { is_seat_open self.old seat ≡ true }
        requires room { 0 < length buf.old }

        // A read gives as many bytes as are left and fit into the buffer.
        ensures count { result ≡ Ok (min (length buf.new) (length (rest_of self.old seat))) }
        ensures copied { IfOk result (λ n. take n buf.new ≡ take n (rest_of self.old seat)) }
        ensures rest { IfOk result (λ n. rest_of self.new seat ≡ drop n (rest_of self.old seat)) }
        ensures end { IfOk result (λ n. n ≡ 0 → rest_of self.old seat ≡ []) }

        // All else stays.
        ensures names { content_of self.new ≡ content_of self.old }
        ensures other_left { OthersKeep seat (rest_of self.old) (rest_of self.new) }
        ensures still_open { is_seat_open self.new ≡ is_seat_open self.old }
    {
        let Some(mut cursor) = self.cursors.at(seat) else {
            return Ok(0);
        };
        let count = read_on(&self.entries, &mut cursor, usize::MAX, buf);
        self.cursors.set(seat, Some(cursor));
        Ok(count)
    }
}
