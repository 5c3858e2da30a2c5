//! The frames of a stream of broadcast packets: read one after another.

ghost use Rattle.std.specs.Prelude.{◌≡◌, ℕ, List, ◌*◌, ◌≤◌, ◌<◌, ◌^◌, true, length};
ghost use Rattle.std.specs.declared.option.Option.{Option};
ghost use Rattle.edge_io.specs.declared.shelf.Seat.TheVariants as seats;
ghost use Rattle.edge_io.specs.FrameAnswers.{ReadingCause, LoneAnswer};
ghost use Rattle.coder_core.specs.Answers.{code_kind};
ghost use Rattle.coder_core.specs.FrameSteps.{PacketRun, slots_of, command_of, Progress, Whole, StepAnswer};

use crate::fault::CodeFault;
use edge_io::{Failed, Seat, Shelf, ends, fill_behind};

/// Which frames of an input are taken: from the packet of the first head on, at most so many.
#[derive(Clone, Copy)]
pub struct FrameSpan {
    pub head: u32,
    pub limit: u32,
}

/// Where a frame of the input stands.
#[derive(Clone, Copy)]
pub struct FramePlace {
    /// Its number.
    pub number: u32,
    /// The packets of the input before its first.
    pub first_packet: u64,
    /// How many of its bytes stand in the buffer already.
    pub held: usize,
}

/// Reads a frame into a buffer of its size, behind its bytes that stand there already. It is false where the input ended
/// before the frame, and an input that ends in the frame is refused.
pub fn read_frame<H: Shelf>(held: usize, frame: &mut [u8], shelf: &mut H) -> Result<bool, CodeFault>
    requires held { held ≤ length frame.old }
    requires size { length frame.old ≤ 2 ^ 32 }
    requires is_open { H.is_open shelf.old seats.In ≡ true }
    ensures still_open { H.is_open shelf.new ≡ H.is_open shelf.old }
    ensures answer { (r : PacketRun) (f : ℕ) (before now : Option (List ℕ)) → f < r.limit → ((g : ℕ) → 0 < slots_of r g) → length frame.new ≡ 204 * slots_of r f
        → Progress r f held frame.old (H.left shelf.old seats.In) before now
        → StepAnswer r f (Whole r f frame.new (H.left shelf.new seats.In) before now) (H.left shelf.new seats.In) before now result }
    ensures cause { ReadingCause code_kind (H.faults shelf.old) (H.faults shelf.new) result }
{
    let count = match fill_behind(shelf, Seat::In, held, frame) {
        Ok(count) => count,
        Err(Failed) => return Err(CodeFault::ReadFault(Seat::In)),
    };
    if count == 0 {
        return Ok(false);
    }
    if count < frame.len() {
        return Err(CodeFault::Truncated {
            seat: Seat::In,
            over: count as u32,
        });
    }
    Ok(true)
}

/// The end of the work at the limit of frames: the input must end there too. Answers the limit.
pub fn end_at_limit<H: Shelf>(limit: u32, shelf: &mut H) -> Result<u32, CodeFault>
    requires some { 0 < limit }
    requires is_open { H.is_open shelf.old seats.In ≡ true }
    ensures still_open { H.is_open shelf.new ≡ H.is_open shelf.old }
    ensures answer { (r : PacketRun) (frame : List ℕ) (before now : Option (List ℕ)) → r.limit ≡ limit → ((g : ℕ) → 0 < slots_of r g) → Progress r limit 0 frame (H.left shelf.old seats.In) before now
        → LoneAnswer code_kind (command_of r) before now (H.left shelf.new seats.In) result }
    ensures cause { ReadingCause code_kind (H.faults shelf.old) (H.faults shelf.new) result }
{
    match ends(shelf, Seat::In) {
        Ok(true) => Ok(limit),
        Ok(false) => Err(CodeFault::TooLong),
        Err(Failed) => Err(CodeFault::ReadFault(Seat::In)),
    }
}
