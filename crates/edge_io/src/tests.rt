//! Shelves and sinks at values worked out by hand.

ghost use Rattle.std.specs.Prelude.{◌≡◌, ◌<◌, ◌≤◌, length, true, false, IfOk};
ghost use Rattle.edge_io.specs.FileShelf.{is_seat_open as file_seat_open};
ghost use Rattle.edge_io.specs.MemoryShelf.{is_seat_open};
ghost use Rattle.edge_io.specs.declared.shelf.Seat.TheVariants.{A, B};

use crate::{
    Failed, FileShelf, MemoryShelf, MemorySink, QuietShelf, QuietSink, Seat, Shelf, Sink,
    StreamSink, ends, fill, fill_behind, write_whole,
};
use std::alloc::Global;
use std::io::{Error, ErrorKind, Write};
use std::test::Fail;
use std::{fs, io};

/// A closed shelf with the name `ten`, which holds ten bytes, and which may be told to fail.
fn shelf_with_ten(alloc: Global, told: bool) -> Result<MemoryShelf, Fail>
    ensures { IfOk result (λ shelf. is_seat_open shelf A ≡ false) }
{
    let mut shelf = MemoryShelf::new(alloc);
    shelf.put("ten", b"abcdefghij")?;
    if told {
        shelf.fail_open(Seat::A);
    }
    Ok(shelf)
}

/// A shelf on which the seat A reads ten bytes, at most so many at once.
fn shelf_of_ten(alloc: Global, most: usize) -> Result<MemoryShelf, Fail>
    requires { 0 < most }
    ensures { IfOk result (λ shelf. is_seat_open shelf A ≡ true) }
{
    let mut shelf = shelf_with_ten(alloc, false)?;
    shelf.pieces(most);
    shelf.open(Seat::A, "ten")?;
    Ok(shelf)
}

fn fail_a(shelf: &mut MemoryShelf, byte: u64)
    requires { is_seat_open shelf.old A ≡ true }
    ensures { is_seat_open shelf.new A ≡ true }
{
    shelf.fail_from(Seat::A, byte);
}

fn read_a<H: Shelf>(shelf: &mut H, buf: &mut [u8]) -> Result<usize, Failed>
    requires open { H.is_open shelf.old A ≡ true }
    requires room { 0 < length buf.old }
    ensures { H.is_open shelf.new A ≡ true }
{
    shelf.read(Seat::A, buf)
}

fn fill_a<H: Shelf>(shelf: &mut H, buf: &mut [u8]) -> Result<usize, Failed>
    requires { H.is_open shelf.old A ≡ true }
    ensures { H.is_open shelf.new A ≡ true }
{
    fill(shelf, Seat::A, buf)
}

#[test]
fn reads_in_pieces(rt: HostRuntime) -> Result<(), Fail> {
    for (most, counts) in [
        (1, [1, 1, 1, 1, 1]),
        (3, [3, 3, 3, 1, 0]),
        (100, [4, 4, 2, 0, 0]),
    ] {
        let mut shelf = shelf_of_ten(rt.alloc(), most)?;
        let mut buf = [0u8; 4];
        for count in counts {
            assert_eq!(rt; read_a(&mut shelf, &mut buf), Ok(count), "{most} at most");
        }
    }
    Ok(())
}

#[test]
fn fills_over_pieces(rt: HostRuntime) -> Result<(), Fail> {
    for most in [1, 3, 100] {
        let mut shelf = shelf_of_ten(rt.alloc(), most)?;
        let mut buf = [0u8; 7];
        assert_eq!(rt; fill_a(&mut shelf, &mut buf), Ok(7), "{most} at most");
        assert_eq!(rt; buf.as_slice(), b"abcdefg".as_slice(), "{most} at most");
        assert_eq!(rt; fill_a(&mut shelf, &mut buf), Ok(3), "{most} at most");
        assert_eq!(rt; &buf[..3], b"hij".as_slice(), "{most} at most");
    }
    Ok(())
}

fn fill_a_behind<H: Shelf>(shelf: &mut H, held: usize, buf: &mut [u8]) -> Result<usize, Failed>
    requires open { H.is_open shelf.old A ≡ true }
    requires held { held ≤ length buf.old }
    ensures { H.is_open shelf.new A ≡ true }
{
    fill_behind(shelf, Seat::A, held, buf)
}

fn a_ends<H: Shelf>(shelf: &mut H) -> Result<bool, Failed>
    requires { H.is_open shelf.old A ≡ true }
    ensures { H.is_open shelf.new A ≡ true }
{
    ends(shelf, Seat::A)
}

#[test]
fn fills_behind_up_to_the_end(rt: HostRuntime) -> Result<(), Fail> {
    let mut shelf = shelf_of_ten(rt.alloc(), 3)?;
    let mut buf = *b"12345678";
    assert_eq!(rt; fill_a_behind(&mut shelf, 2, &mut buf), Ok(8));
    assert_eq!(rt; buf.as_slice(), b"12abcdef".as_slice());
    assert_eq!(rt; a_ends(&mut shelf), Ok(false));
    assert_eq!(rt; fill_a_behind(&mut shelf, 1, &mut buf), Ok(4));
    assert_eq!(rt; &buf[..4], b"1hij".as_slice());
    assert_eq!(rt; a_ends(&mut shelf), Ok(true));
    Ok(())
}

#[test]
fn fails_from_a_byte_once(rt: HostRuntime) -> Result<(), Fail> {
    for (first, last, results) in [
        (4, 4, [Ok(3), Ok(3), Err(Failed), Ok(3), Ok(1), Ok(0)]),
        (4, 7, [Ok(3), Ok(3), Ok(3), Err(Failed), Ok(1), Ok(0)]),
        (7, 0, [Err(Failed), Ok(3), Ok(3), Ok(3), Ok(1), Ok(0)]),
        (0, 10, [Ok(3), Ok(3), Ok(3), Ok(1), Err(Failed), Ok(0)]),
        (0, 11, [Ok(3), Ok(3), Ok(3), Ok(1), Ok(0), Ok(0)]),
    ] {
        let mut shelf = shelf_of_ten(rt.alloc(), 3)?;
        fail_a(&mut shelf, first);
        fail_a(&mut shelf, last);
        let mut buf = [0u8; 4];
        for result in results {
            assert_eq!(rt; read_a(&mut shelf, &mut buf), result, "from {last}");
        }
    }
    Ok(())
}

#[test]
fn fills_on_after_a_failure(rt: HostRuntime) -> Result<(), Fail> {
    let mut shelf = shelf_of_ten(rt.alloc(), 3)?;
    fail_a(&mut shelf, 4);
    let mut buf = [0u8; 10];
    assert_eq!(rt; fill_a(&mut shelf, &mut buf), Err(Failed));
    assert_eq!(rt; &buf[..6], b"abcdef".as_slice());
    assert_eq!(rt; fill_a(&mut shelf, &mut buf), Ok(4));
    assert_eq!(rt; &buf[..4], b"ghij".as_slice());
    Ok(())
}

#[test]
fn opens_names_that_are_there(rt: HostRuntime) -> Result<(), Fail> {
    for (told, name, first, again) in [
        (false, "ten", Ok(()), Ok(())),
        (false, "none", Err(Failed), Err(Failed)),
        (true, "ten", Err(Failed), Ok(())),
        (true, "none", Err(Failed), Err(Failed)),
    ] {
        let mut shelf = shelf_with_ten(rt.alloc(), told)?;
        let opened = shelf.open(Seat::A, name);
        assert_eq!(rt; opened, first, "{name}");
        if opened.is_err() {
            assert_eq!(rt; shelf.open(Seat::A, name), again, "{name} again");
        }
    }
    Ok(())
}

#[test]
fn takes_what_fits(rt: HostRuntime) -> Result<(), Fail> {
    let mut sink = MemorySink::new(rt.alloc(), 5)?;
    for (piece, result) in [("abc", Ok(3)), ("def", Ok(2)), ("g", Err(Failed))] {
        assert_eq!(rt; sink.write(piece.as_bytes()), result, "{piece}");
    }
    assert_eq!(rt; sink.bytes(), b"abcde".as_slice());
    Ok(())
}

#[test]
fn writes_the_whole_or_fails(rt: HostRuntime) -> Result<(), Fail> {
    for (room, byte, text, results) in [
        (6, 100, "abcdef", [Ok(()), Ok(())]),
        (4, 100, "abcd", [Ok(()), Err(Failed)]),
        (6, 0, "def", [Err(Failed), Ok(())]),
        (6, 2, "abc", [Ok(()), Err(Failed)]),
    ] {
        let mut sink = MemorySink::new(rt.alloc(), room)?;
        sink.fail_from(1);
        sink.fail_from(byte);
        for (piece, result) in ["abc", "def"].into_iter().zip(results) {
            assert_eq!(rt;
                write_whole(&mut sink, piece.as_bytes()),
                result,
                "from {byte}"
            );
        }
        assert_eq!(rt; sink.bytes(), text.as_bytes(), "from {byte}");
    }
    Ok(())
}

/// A new shelf on which the seat A reads a file.
fn opened<'a>(rt: &'a HostRuntime, path: &str) -> Result<FileShelf<'a, HostRuntime>, Failed>
    ensures open { IfOk result (λ shelf. file_seat_open shelf A ≡ true) }
    ensures closed { IfOk result (λ shelf. file_seat_open shelf B ≡ false) }
{
    let mut shelf = FileShelf::new(rt);
    shelf.open(Seat::A, path)?;
    Ok(shelf)
}

#[test]
fn reads_a_file(rt: HostRuntime) -> Result<(), Fail> {
    let path = "edge_io_reads_a_file.txt";
    fs::write(&rt, path, "sixteen bytes ..")?;
    let mut shelf = opened(&rt, path)?;
    let mut buf = [0u8; 12];
    assert_eq!(rt; fill_a(&mut shelf, &mut buf), Ok(12));
    assert_eq!(rt; buf.as_slice(), b"sixteen byte".as_slice());
    assert_eq!(rt; fill_a(&mut shelf, &mut buf), Ok(4));
    assert_eq!(rt; &buf[..4], b"s ..".as_slice());
    fs::remove_file(&rt, path)?;
    Ok(())
}

#[test]
fn fails_where_nothing_can_be_read(rt: HostRuntime) -> Result<(), Fail> {
    assert!(rt; opened(&rt, "edge_io_no_such_file.txt").is_err());
    let mut buf = [0u8; 1];
    let folder = match opened(&rt, ".") {
        Ok(mut shelf) => read_a(&mut shelf, &mut buf),
        Err(Failed) => Err(Failed),
    };
    assert_eq!(rt; folder, Err(Failed), "a folder");
    let mut shelf = opened(&rt, "-")?;
    assert_eq!(rt;
        shelf.open(Seat::B, "-"),
        Err(Failed),
        "standard input again"
    );
    Ok(())
}

/// Takes one byte, then none, and fails from then on.
#[derive(Drop)]
struct Tired {
    writes: u8,
}

impl Write for Tired {
    fn write(&mut self, buf: &[u8]) -> io::Result<usize> {
        self.writes = self.writes.saturating_add(1);
        match self.writes {
            1 => Ok(buf.len().min(1)),
            2 => Ok(0),
            _ => Err(Error::from(ErrorKind::Interrupted)),
        }
    }

    fn flush(&mut self) -> io::Result<()> {
        Ok(())
    }
}

#[test]
fn counts_each_error_of_a_stream(rt: HostRuntime) {
    let mut sink = StreamSink::new(Tired { writes: 0 });
    for result in [Ok(1), Err(Failed), Err(Failed)] {
        assert_eq!(rt; sink.write(b"ab"), result);
    }
}

#[test]
fn writes_to_a_stream(rt: HostRuntime) -> Result<(), Fail> {
    let mut bytes = Vec::new(rt.alloc());
    let mut sink = StreamSink::new(&mut bytes);
    write_whole(&mut sink, b"abc")?;
    write_whole(&mut sink, b"def")?;
    assert_eq!(rt; bytes.as_slice(), b"abcdef".as_slice());
    Ok(())
}

/// What a quiet shelf, on which `ten` holds ten bytes, gives of a name into four bytes, read after read.
fn quiet_reads(alloc: Global, name: &str) -> Result<[usize; 4], Fail> {
    let mut shelf = QuietShelf::new(alloc);
    shelf.put("ten", b"abcdefghij")?;
    shelf.open(Seat::A, name)?;
    let mut buf = [0u8; 4];
    Ok([
        read_a(&mut shelf, &mut buf)?,
        read_a(&mut shelf, &mut buf)?,
        read_a(&mut shelf, &mut buf)?,
        read_a(&mut shelf, &mut buf)?,
    ])
}

#[test]
fn quiet_names_hold_what_was_put(rt: HostRuntime) -> Result<(), Fail> {
    assert_eq!(rt; quiet_reads(rt.alloc(), "ten")?, [4, 4, 2, 0]);
    assert_eq!(rt; quiet_reads(rt.alloc(), "eleven")?, [0, 0, 0, 0]);
    Ok(())
}

#[test]
fn quiet_sink_counts_bytes(rt: HostRuntime) -> Result<(), Fail> {
    let mut sink = QuietSink::new();
    assert_eq!(rt; sink.write(b"abc"), Ok(3));
    write_whole(&mut sink, b"defg")?;
    assert_eq!(rt; sink.count(), 7);
    Ok(())
}
