//! What the tests of whole runs share: a run over inputs in memory, and how it must end.

ghost use Rattle.std.specs.Prelude.{◌≡◌, false, IfOk};
ghost use Rattle.edge_io.specs.declared.shelf.Seat.{Seat as Place};
ghost use Rattle.edge_io.specs.MemoryShelf.{is_seat_open};

use crate::fault::Outcome;
use crate::run::run;
use crate::words::Words;
use edge_io::{MemoryShelf, MemorySink, Seat};
use std::alloc::Global;
use std::process::Abort;
use std::test::Fail;

/// A setting of one layer of thirteen segments, of 156 packets a frame.
pub const SINGLE: &str = "A:13:qpsk:1/2:0";

/// Bytes of its frames of broadcast packets in mode 1 with guard interval 1/4: 1280 of 204.
pub const FRAME: usize = 261_120;

/// Bytes of its frames of cells.
pub const CELLS: usize = 509_388;

/// What a run meets outside: the most bytes that a read gives, the seat that can't be opened (one that the run doesn't open
/// where none is to fail), how many bytes of a seat are taken before a read of it fails, how many are written before a write
/// fails, and the room of the output.
#[derive(Clone, Copy)]
pub struct Outside {
    pub most: usize,
    pub open: Seat,
    pub read: Seat,
    pub taken: u64,
    pub written: u64,
    pub room: usize,
}

/// An outside where nothing fails that takes no input of layer C.
pub const WELL: Outside = Outside {
    most: usize::MAX,
    open: Seat::C,
    read: Seat::C,
    taken: u64::MAX,
    written: u64::MAX,
    room: 10_000_000,
};

/// How a run must end: its status, its line, and how many bytes it wrote.
#[derive(Clone, Copy)]
pub struct End {
    pub status: u8,
    pub line: &'static str,
    pub written: usize,
}

/// How a run ended, and what it wrote.
#[derive(Drop)]
pub struct Ran {
    pub outcome: Outcome,
    pub out: MemorySink,
    pub err: MemorySink,
}

/// A command line.
pub fn words_of(alloc: Global, list: &[&str]) -> Result<Words, Fail> {
    let mut words = Words::new(alloc);
    for word in list {
        words.push(word)?;
    }
    Ok(words)
}

/// The words of texts, which are cut at blanks.
pub fn words_in(alloc: Global, texts: &[&str]) -> Result<Words, Fail> {
    let mut words = Words::new(alloc);
    for text in texts {
        for word in text.split(' ') {
            words.push(word)?;
        }
    }
    Ok(words)
}

/// Packets that begin with the sync byte, are numbered by the next two and filled with a mark, cut or drawn out to `len`
/// bytes.
pub fn marked_packets(alloc: Global, len: usize, mark: u8) -> Result<Vec<u8>, Fail> {
    let mut bytes = Vec::new(alloc);
    for at in 0..len {
        let packet = at / 188;
        let byte = match at % 188 {
            0 => 0x47,
            1 => packet / 256 % 256,
            2 => packet % 256,
            _ => mark as usize,
        };
        bytes.push((byte % 256) as u8)?;
    }
    Ok(bytes)
}

/// A shelf at which `a` and `b` hold these bytes.
fn shelf_of(alloc: Global, a: &[u8], b: &[u8], outside: &Outside) -> Result<MemoryShelf, Fail>
    ensures { IfOk result (λ shelf. (seat : Place) → is_seat_open shelf seat ≡ false) }
{
    let mut shelf = MemoryShelf::new(alloc);
    shelf.put("a", a)?;
    shelf.put("b", b)?;
    shelf.pieces(outside.most.max(1));
    shelf.fail_open(outside.open);
    shelf.fail_from(outside.read, outside.taken);
    Ok(shelf)
}

/// Runs the words over inputs that are named `a` and `b`.
pub fn run_over(
    alloc: Global,
    list: &[&str],
    a: &[u8],
    b: &[u8],
    outside: &Outside,
) -> Result<Ran, Fail> {
    let words = words_of(alloc, list)?;
    let mut shelf = shelf_of(alloc, a, b, outside)?;
    let mut out = MemorySink::new(alloc, outside.room)?;
    out.fail_from(outside.written);
    let mut err = MemorySink::new(alloc, 112)?;
    let outcome = run(alloc, &words, &mut shelf, &mut out, &mut err);
    Ok(Ran { outcome, out, err })
}

/// What a run of the words writes over inputs that are named `a` and `b`. It must end well.
pub fn product_of(alloc: Global, list: &[&str], a: &[u8], b: &[u8]) -> Result<Vec<u8>, Fail> {
    let ran = run_over(alloc, list, a, b, &WELL)?;
    match ran.outcome {
        Outcome::Done(_) => Ok(ran.out.bytes().to_vec(alloc)?),
        Outcome::Fault(_) => Err(Fail::from("a fault")),
    }
}

/// Checks how a run ended, and that it wrote a front part of a product, of frames of so many bytes.
pub fn check_end(rt: &impl Abort, ran: &Ran, end: &End, product: &[u8], frame: usize) {
    assert_eq!(rt; ran.outcome.status(), end.status);
    assert!(rt; ran.err.bytes() == end.line.as_bytes(), "{}", end.line);
    assert_eq!(rt; ran.out.bytes().len(), end.written);
    assert!(rt; product.starts_with(ran.out.bytes()));
    if let Outcome::Done(frames) = ran.outcome {
        assert_eq!(rt; Some(end.written), frame.checked_mul(frames as usize));
    }
}
