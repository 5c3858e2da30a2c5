//! The input of one layer, frame by frame.

ghost use Rattle.std.specs.Prelude.{◌≡◌, ℕ, List, ◌+◌, ◌*◌, ◌≤◌, ◌<◌, ◌^◌, true, false, length, take, drop, min, vec_len, Some, OnOk, OnErr, IfOk, IfSome};
ghost use Rattle.edge_io.specs.Causes.{Reading, ShelfCause};
ghost use Rattle.edge_io.specs.Known.{drop_known};
ghost use Rattle.edge_io.specs.Seats.{OthersKeep};
ghost use Rattle.remux_core.specs.Asking.{StandsAt, AskAnswer, AskCause};

use crate::fault::RemuxFault;
use edge_io::{Failed, Seat, Shelf, ends, fill};
use isdbt_base::{NoMemory, zeros};
use std::alloc::Global;
use ts_packet::PACKET_BYTES;

/// What was read of one layer for the frame in work, and whether its input has ended. A layer that is unused has ended at
/// once.
#[derive(Drop)]
pub struct LayerInput {
    pub seat: Seat,
    pub bytes: Vec<u8>,
    /// Packets that the frames before the frame in work place.
    pub first: u64,
    /// Packets that the frame in work places.
    pub wanted: u32,
    /// Bytes that were read for the frame in work.
    pub count: usize,
    pub ended: bool,
    pub ghost within: { count ≤ vec_len bytes },
}

impl LayerInput {
    /// An input with room for so many packets of a frame.
    pub fn open(alloc: Global, seat: Seat, packets: u32) -> Result<LayerInput, NoMemory>
        requires { packets ≤ 3276 }
        ensures seat { IfOk result (λ input. input.seat ≡ seat) }
        ensures room { IfOk result (λ input. vec_len input.bytes ≡ 188 * packets) }
        ensures none { IfOk result (λ input. input.first + input.wanted ≡ 0) }
        ensures used { IfOk result (λ input. 0 < packets → input.ended ≡ false) }
        ensures unused { IfOk result (λ input. packets ≡ 0 → input.ended ≡ true) }
    {
        let bytes = zeros(alloc, PACKET_BYTES * packets as usize)?;
        Ok(LayerInput {
            seat,
            bytes,
            first: 0,
            wanted: 0,
            count: 0,
            ended: packets == 0,
        })
    }

    /// Reads the packets that the next frame places, if it places any and the input hasn't ended.
    pub fn read<H: Shelf>(&mut self, shelf: &mut H, wanted: u32) -> Result<(), Failed>
        requires is_open { self.old.ended ≡ false → H.is_open shelf.old self.old.seat ≡ true }
        requires fits { 188 * wanted ≤ vec_len self.old.bytes }
        requires few { self.old.first + self.old.wanted ≤ 2 ^ 40 }
        ensures seat { self.new.seat ≡ self.old.seat }
        ensures room { vec_len self.new.bytes ≡ vec_len self.old.bytes }
        ensures first { self.new.first ≡ self.old.first + self.old.wanted }
        ensures wanted { self.new.wanted ≡ wanted }

        // An input that has ended is read no more, and gives nothing.
        ensures nothing { self.old.ended ≡ true → (self.new.count ≡ 0) × (self.new.ended ≡ true) }
        ensures still { self.old.ended ≡ true → shelf.new ≡ shelf.old }
        ensures never { OnErr result (self.old.ended ≡ false) }

        // An input ends where fewer bytes came than the frame takes.
        ensures ended { OnOk result (self.old.ended ≡ false → self.new.count < 188 * wanted → self.new.ended ≡ true) }
        ensures goes_on { OnOk result (self.old.ended ≡ false → 188 * wanted ≤ self.new.count → self.new.ended ≡ false) }
        ensures count { OnOk result (self.old.ended ≡ false → IfSome (H.left shelf.old self.old.seat) (λ bytes. self.new.count ≡ min (188 * wanted) (length bytes))) }

        ensures taken { OnOk result (H.left shelf.new self.old.seat ≡ drop_known self.new.count (H.left shelf.old self.old.seat)) }
        ensures copied { OnOk result (IfSome (H.left shelf.old self.old.seat) (λ bytes. take self.new.count self.new.bytes.items ≡ take self.new.count bytes)) }
        ensures some { OnErr result ((n : ℕ) × (n < 188 * wanted) × (H.left shelf.new self.old.seat ≡ drop_known n (H.left shelf.old self.old.seat))
            × IfSome (H.left shelf.old self.old.seat) (λ bytes. n ≤ length bytes)) }
        ensures other_left { OthersKeep self.old.seat (H.left shelf.old) (H.left shelf.new) }
        ensures still_open { H.is_open shelf.new ≡ H.is_open shelf.old }
        ensures cause { ShelfCause (Reading self.old.seat) (H.faults shelf.old) (H.faults shelf.new) result }
    {
        self.first += u64::from(self.wanted);
        self.wanted = wanted;
        self.count = 0;
        if self.ended || wanted == 0 {
            return Ok(());
        }
        let size = PACKET_BYTES * wanted as usize;
        let count = fill_front(shelf, self.seat, size, &mut self.bytes)?;
        self.count = count;
        self.ended = count < size;
        Ok(())
    }

    /// The bytes that were read for the frame in work.
    pub fn part(&self) -> &[u8]
        ensures value { result.now ≡ take self.now.count self.now.bytes.items }
        ensures len { length result.now ≡ self.now.count }
        ensures most { length result.now ≤ vec_len self.now.bytes }
    {
        &self.bytes[..self.count]
    }

    /// Asks for one byte more, if the input hasn't ended: there must be none.
    pub fn ask<H: Shelf>(&self, shelf: &mut H) -> Result<(), RemuxFault>
        requires is_open { self.now.ended ≡ false → H.is_open shelf.old self.now.seat ≡ true }
        ensures never { OnErr result (self.now.ended ≡ false) }
        ensures answer { (first : ℕ) (bytes : List ℕ) → StandsAt first bytes self.now.ended → H.left shelf.old self.now.seat ≡ Some (drop (188 * first) bytes)
            → AskAnswer first bytes self.now.seat (H.left shelf.new self.now.seat) result }
        ensures other_left { OthersKeep self.now.seat (H.left shelf.old) (H.left shelf.new) }
        ensures still_open { H.is_open shelf.new ≡ H.is_open shelf.old }
        ensures cause { AskCause self.now.seat (H.faults shelf.old) (H.faults shelf.new) result }
    {
        if self.ended {
            return Ok(());
        }
        match ends(shelf, self.seat) {
            Ok(true) => Ok(()),
            Ok(false) => Err(RemuxFault::TooLong),
            Err(Failed) => Err(RemuxFault::ReadFault(self.seat)),
        }
    }
}

/// Reads until the first `size` bytes of a buffer are filled or the input ends, and answers how many bytes came.
fn fill_front<H: Shelf>(
    shelf: &mut H,
    seat: Seat,
    size: usize,
    buf: &mut [u8],
) -> Result<usize, Failed>
    requires is_open { H.is_open shelf.old seat ≡ true }
    requires fits { size ≤ length buf.old }
    ensures room { length buf.new ≡ length buf.old }
    ensures other_left { OthersKeep seat (H.left shelf.old) (H.left shelf.new) }
    ensures still_open { H.is_open shelf.new ≡ H.is_open shelf.old }
    ensures bound { IfOk result (λ n. n ≤ size) }
    ensures taken { IfOk result (λ n. H.left shelf.new seat ≡ drop_known n (H.left shelf.old seat)) }
    ensures copied { IfOk result (λ n. IfSome (H.left shelf.old seat) (λ bytes. take n buf.new ≡ take n bytes)) }
    ensures count { IfOk result (λ n. IfSome (H.left shelf.old seat) (λ bytes. n ≡ min size (length bytes))) }
    ensures some { OnErr result ((n : ℕ) × (n < size) × (H.left shelf.new seat ≡ drop_known n (H.left shelf.old seat))
        × IfSome (H.left shelf.old seat) (λ bytes. n ≤ length bytes)) }
    ensures cause { ShelfCause (Reading seat) (H.faults shelf.old) (H.faults shelf.new) result }
{
    let count = fill(shelf, seat, &mut buf[..size])?;
    Ok(count)
}
