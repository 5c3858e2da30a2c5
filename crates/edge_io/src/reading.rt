//! Reads that go on until a buffer is full or the input ends.

ghost use Rattle.std.specs.Prelude.{◌≡◌, ℕ, List, ◌+◌, ◌++◌, [], ◌<◌, ◌≤◌, Some, true, length, take, min, OnErr, IfOk, IfSome};
ghost use Rattle.edge_io.specs.Known.{drop_known};
ghost use Rattle.edge_io.specs.Causes.{Reading, ShelfCause};
ghost use Rattle.edge_io.specs.Seats.{OthersKeep};
ghost use Rattle.edge_io.specs.Reading.{FillAnswer, EndsAnswer};

use crate::{Failed, Seat, Shelf};

/// Reads once, behind the first `at` bytes of the buffer.
fn read_behind<H: Shelf>(
    shelf: &mut H,
    seat: Seat,
    buf: &mut [u8],
    at: usize,
) -> Result<usize, Failed>
    requires open { H.is_open shelf.old seat ≡ true }
    requires room { at < length buf.old }
    ensures names { H.holds shelf.new ≡ H.holds shelf.old }
    ensures other_left { OthersKeep seat (H.left shelf.old) (H.left shelf.new) }
    ensures still_open { H.is_open shelf.new ≡ H.is_open shelf.old }
    ensures front { take at buf.new ≡ take at buf.old }
    ensures bound { IfOk result (λ n. at + n ≤ length buf.new) }
    ensures taken { IfOk result (λ n. H.left shelf.new seat ≡ drop_known n (H.left shelf.old seat)) }
    ensures copied { IfOk result (λ n. IfSome (H.left shelf.old seat) (λ bytes.
        take (at + n) buf.new ≡ take at buf.old ++ take n bytes)) }
    ensures within { IfOk result (λ n. IfSome (H.left shelf.old seat) (λ bytes. n ≤ length bytes)) }
    ensures end { IfOk result (λ n. n ≡ 0 → IfSome (H.left shelf.old seat) (λ bytes. bytes ≡ [])) }
    ensures kept { OnErr result (H.left shelf.new seat ≡ H.left shelf.old seat) }
    ensures cause { ShelfCause (Reading seat) (H.faults shelf.old) (H.faults shelf.new) result }
{
    let count = shelf.read(seat, &mut buf[at..])?;
    Ok(count)
}

/// Reads until the buffer is full or the input ends, and gives how many bytes it took.
///
/// It fails where a read fails, and reads no more then. Besides the seat's bytes and the counts
/// nothing of the shelf changes, after a failure too.
pub fn fill<H: Shelf>(shelf: &mut H, seat: Seat, buf: &mut [u8]) -> Result<usize, Failed>
    requires { H.is_open shelf.old seat ≡ true }
    ensures names { H.holds shelf.new ≡ H.holds shelf.old }
    ensures other_left { OthersKeep seat (H.left shelf.old) (H.left shelf.new) }
    ensures still_open { H.is_open shelf.new ≡ H.is_open shelf.old }
    ensures bound { IfOk result (λ n. n ≤ length buf.new) }
    ensures taken { IfOk result (λ n. H.left shelf.new seat ≡ drop_known n (H.left shelf.old seat)) }
    ensures copied { IfOk result (λ n. IfSome (H.left shelf.old seat) (λ bytes. take n buf.new ≡ take n bytes)) }
    ensures count { IfOk result (λ n. IfSome (H.left shelf.old seat) (λ bytes. n ≡ min (length buf.new) (length bytes))) }

    // After a failure it has taken n bytes, fewer than the buffer holds, into the front of the buffer.
    ensures some { OnErr result ((n : ℕ) × (n < length buf.new) × (H.left shelf.new seat ≡ drop_known n (H.left shelf.old seat))
        × IfSome (H.left shelf.old seat) (λ bytes. n ≤ length bytes)
        × IfSome (H.left shelf.old seat) (λ bytes. take n buf.new ≡ take n bytes)) }
    ensures cause { ShelfCause (Reading seat) (H.faults shelf.old) (H.faults shelf.new) result }
{
    let mut at = 0;
    while at < buf.len() {
        let count = read_behind(shelf, seat, buf, at)?;
        if count == 0 {
            return Ok(at);
        }
        at += count;
    }
    Ok(at)
}

/// Reads until the buffer is full or the input ends, behind its first `held` bytes, and answers how many bytes it holds.
///
/// It fails where a read fails, and reads no more then. The first `held` bytes stay.
pub fn fill_behind<H: Shelf>(
    shelf: &mut H,
    seat: Seat,
    held: usize,
    buf: &mut [u8],
) -> Result<usize, Failed>
    requires is_open { H.is_open shelf.old seat ≡ true }
    requires held { held ≤ length buf.old }
    ensures names { H.holds shelf.new ≡ H.holds shelf.old }
    ensures other_left { OthersKeep seat (H.left shelf.old) (H.left shelf.new) }
    ensures still_open { H.is_open shelf.new ≡ H.is_open shelf.old }
    ensures front { take held buf.new ≡ take held buf.old }
    ensures least { IfOk result (λ n. held ≤ n) }
    ensures most { IfOk result (λ n. n ≤ length buf.new) }
    ensures answer { (bytes : List ℕ) → H.left shelf.old seat ≡ Some bytes
        → FillAnswer held buf.old buf.new bytes (H.left shelf.new seat) result }
    ensures cause { ShelfCause (Reading seat) (H.faults shelf.old) (H.faults shelf.new) result }
{
    let count = fill(shelf, seat, &mut buf[held..])?;
    Ok(held + count)
}

/// Whether the input at a seat has ended: asks for one byte more, which is then taken where there is one.
pub fn ends<H: Shelf>(shelf: &mut H, seat: Seat) -> Result<bool, Failed>
    requires { H.is_open shelf.old seat ≡ true }
    ensures names { H.holds shelf.new ≡ H.holds shelf.old }
    ensures other_left { OthersKeep seat (H.left shelf.old) (H.left shelf.new) }
    ensures still_open { H.is_open shelf.new ≡ H.is_open shelf.old }
    ensures answer { (bytes : List ℕ) → H.left shelf.old seat ≡ Some bytes → EndsAnswer bytes (H.left shelf.new seat) result }
    ensures cause { ShelfCause (Reading seat) (H.faults shelf.old) (H.faults shelf.new) result }
{
    let mut byte = [0u8; 1];
    let count = shelf.read(seat, &mut byte)?;
    Ok(count == 0)
}
