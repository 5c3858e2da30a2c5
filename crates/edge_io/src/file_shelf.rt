//! The real files and standard input.

ghost use Rattle.std.specs.Prelude.{◌≡◌, ◌≢◌, ◌<◌, ◌≤◌, ◌↔◌, is_some, true, false, not, ◌||◌, codes, length, IsOk, OnOk, OnErr, IfOk};
ghost use Rattle.std.specs.Io.{ReadsAtMost};
ghost use Rattle.std.specs.Io.KnownBytes.{ReadConsumes};
ghost use Rattle.std.specs.Str.{bytes_eq};
ghost use Rattle.edge_io.specs.declared.shelf.Seat.{Seat};
ghost use Rattle.edge_io.specs.Causes.{Counts, Opening, Reading, ShelfCause};
ghost use Rattle.edge_io.specs.Seats.{OthersKeep};
ghost use Rattle.edge_io.specs.Source.{source_left};

use crate::per_seat::PerSeat;
use crate::{Failed, Seat, Shelf};
use std::io;
use std::io::{Input, Read};
use std::rt::Files;

/// What a seat reads.
#[derive(Drop)]
enum Source<F: Read + Drop, I: Read + Drop> {
    File(F),
    Standard(I),
}

/// Files by their paths, and standard input by the name `-`, which can be opened once.
///
/// It tells nothing of content and keeps no bytes: a read goes from the file to the caller's
/// buffer. Each error of the runtime, whatever its cause, is a fault. There is one count of the
/// faults, which stays at its last value.
#[derive(Drop)]
pub struct FileShelf<'a, R: Files + Input> {
    rt: &'a R,
    sources: PerSeat<Option<Source<R::File, R::Reader>>>,
    standard_taken: bool,
    faults: u64,
}

impl<'a, R: Files + Input> FileShelf<'a, R> {
    ghost use Rattle.edge_io.specs.FileShelf.{standard_was_opened, is_seat_open, fault_count};

    /// A shelf of which no seat is open, and which counted no fault.
    pub fn new(rt: &'a R) -> FileShelf<'a, R>
        ensures closed { (seat : Seat) → is_seat_open result seat ≡ false }
        ensures standard { standard_was_opened result ≡ false }
        ensures count { fault_count result ≡ 0 }
    {
        FileShelf {
            rt,
            sources: PerSeat {
                a: None,
                b: None,
                c: None,
                input: None,
            },
            standard_taken: false,
            faults: 0,
        }
    }

    /// What a name stands for, where it can be opened.
    fn source(&mut self, name: &str) -> Option<Source<R::File, R::Reader>>
        ensures standard { name.now ≡ codes "-" → is_some result ≡ not (standard_was_opened self.old) }
        ensures after { self.new ≡ record self.old { standard_taken = self.old.standard_taken || bytes_eq name.now (codes "-") } }
    {
        if name == "-" {
            if self.standard_taken {
                return None;
            }
            self.standard_taken = true;
            return Some(Source::Standard(self.rt.reader()));
        }
        match std::fs::open(self.rt, name) {
            Ok(file) => Some(Source::File(file)),
            Err(_) => None,
        }
    }
}

fn read_source<F: Read + Drop, I: Read + Drop>(
    source: &mut Option<Source<F, I>>,
    buf: &mut [u8],
) -> io::Result<usize>
    ensures bound { ReadsAtMost result buf.new }
    ensures bytes { ReadConsumes (source_left F.remaining I.remaining source.old) (source_left F.remaining I.remaining source.new) result buf.new }
    ensures open { is_some source.new ≡ is_some source.old }
{
    match source {
        Some(Source::File(file)) => file.read(buf),
        Some(Source::Standard(input)) => input.read(buf),
        None => Ok(0),
    }
}

impl<'a, R: Files + Input> Shelf for FileShelf<'a, R> {
    ghost use Rattle.std.specs.Prelude.{None};
    ghost use Rattle.edge_io.specs.FileShelf.{standard_was_opened, is_seat_open, known_left, fault_count};

    ghost holds = { λ _ _. None };

    ghost left = { λ _ _. None };

    ghost is_open = { is_seat_open };

    ghost faults = { λ s _. fault_count s };

    fn open(&mut self, seat: Seat, name: &str) -> Result<(), Failed>
        requires { is_seat_open self.old seat ≡ false }
        ensures standard { name.now ≡ codes "-" → (IsOk result ↔ (standard_was_opened self.old ≡ false)) }
        ensures standard_once { name.now ≡ codes "-" → standard_was_opened self.new ≡ true }
        ensures standard_kept { name.now ≢ codes "-" → standard_was_opened self.new ≡ standard_was_opened self.old }
        ensures opened { OnOk result (is_seat_open self.new seat ≡ true) }
        ensures closed { OnErr result (is_seat_open self.new seat ≡ false) }
        ensures kept { OnErr result
            (known_left R.File.remaining R.Reader.remaining self.new seat ≡ known_left R.File.remaining R.Reader.remaining self.old seat) }
        ensures other_open { OthersKeep seat (is_seat_open self.old) (is_seat_open self.new) }
        ensures other_left { OthersKeep seat (known_left R.File.remaining R.Reader.remaining self.old)
            (known_left R.File.remaining R.Reader.remaining self.new) }
        ensures counts { Counts (fault_count self.old) (fault_count self.new) result }
        ensures cause { ShelfCause (Opening seat name.now) (λ _. fault_count self.old) (λ _. fault_count self.new) result }
    {
        match self.source(name) {
            Some(source) => {
                self.sources.set(seat, Some(source));
                Ok(())
            }
            None => {
                self.faults = self.faults.saturating_add(1);
                Err(Failed)
            }
        }
    }

    fn read(&mut self, seat: Seat, buf: &mut [u8]) -> Result<usize, Failed>
        requires open { is_seat_open self.old seat ≡ true }
        requires room { 0 < length buf.old }
        ensures bound { IfOk result (λ n. n ≤ length buf.new) }
        ensures still_open { is_seat_open self.new ≡ is_seat_open self.old }
        ensures standard { standard_was_opened self.new ≡ standard_was_opened self.old }

        // The bytes come from what stands at the seat, where that tells its bytes.
        ensures bytes { ReadConsumes (known_left R.File.remaining R.Reader.remaining self.old seat)
            (known_left R.File.remaining R.Reader.remaining self.new seat) result buf.new }
        ensures other_left { OthersKeep seat (known_left R.File.remaining R.Reader.remaining self.old)
            (known_left R.File.remaining R.Reader.remaining self.new) }
        ensures counts { Counts (fault_count self.old) (fault_count self.new) result }
        ensures cause { ShelfCause (Reading seat) (λ _. fault_count self.old) (λ _. fault_count self.new) result }
    {
        let outcome = match seat {
            Seat::A => read_source(&mut self.sources.a, buf),
            Seat::B => read_source(&mut self.sources.b, buf),
            Seat::C => read_source(&mut self.sources.c, buf),
            Seat::In => read_source(&mut self.sources.input, buf),
        };
        match outcome {
            Ok(count) => Ok(count),
            Err(_) => {
                self.faults = self.faults.saturating_add(1);
                Err(Failed)
            }
        }
    }
}
