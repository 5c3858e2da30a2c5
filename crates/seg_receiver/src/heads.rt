//! The heads of the frames of a stream of cells.

ghost use Rattle.std.specs.Prelude.{◌≡◌, ℕ, Bool, List, ◌≤◌, ◌<◌, Ok, Some, None, true, false, IfOk, IfSome, MatchResult};
ghost use Rattle.std.specs.declared.option.Option.{Option};
ghost use Rattle.isdbt_base.specs.Heads.{head_read};
ghost use Rattle.edge_io.specs.declared.shelf.Seat.TheVariants as seats;
ghost use Rattle.edge_io.specs.FrameAnswers.{ReadingCause};
ghost use Rattle.tmcc_word.specs.Fields.{TmccFields};
ghost use Rattle.seg_receiver.specs.declared.aim.Aim.{Aim};
ghost use Rattle.seg_receiver.specs.CellStream.{second_version, second_due, version_of, view_of};
ghost use Rattle.seg_receiver.specs.Buffers.{CanHave};
ghost use Rattle.seg_receiver.specs.HeadChecks.{other_byte, bad_byte};
ghost use Rattle.seg_receiver.specs.ReceiveRefusals.{head_refusal};
ghost use Rattle.seg_receiver.specs.ReceiveAnswers.{receive_kind};
ghost use Rattle.seg_receiver.specs.EpochAnswers.{Progress, HeadAnswer, DueIn};

use crate::fault::ReceiveFault;
use edge_io::{Failed, Seat, Shelf, fill};
use isdbt_base::{Form, Guard, HEAD_BYTES, Mode, Reading, guard_byte, mode_byte, read_head};

/// The least of bytes 4 and 5 by which a head says another mode or guard interval than it must repeat, if it must repeat any.
fn other_byte(due: Option<(Mode, Guard)>, head: &[u8; 8]) -> Option<u8>
    ensures { result ≡ other_byte due head.now }
{
    let (mode, guard) = due?;
    if head[4] != mode_byte(mode) {
        return Some(4);
    }
    if head[5] != guard_byte(guard) {
        return Some(5);
    }
    None
}

/// What the head of a frame says, or at which byte it is refused, by what it must repeat.
#[tactic(auto, unfolding(crate::specs::HeadChecks::bad_byte))]
fn check_head(
    number: u32,
    due: Option<(Mode, Guard)>,
    head: &[u8; 8],
) -> Result<(Mode, Guard), ReceiveFault>
    ensures { MatchResult result (λ said. (head_read head.now ≡ Ok said) × (bad_byte due head.now ≡ None))
        (λ fault. head_refusal number (bad_byte due head.now) ≡ Some fault) }
{
    match (read_head(head), other_byte(due, head)) {
        (Ok(said), None) => Ok(said),
        (Ok(_), Some(byte)) => Err(ReceiveFault::BadHead {
            frame: number,
            byte,
        }),
        (Err(fault), None) => Err(ReceiveFault::BadHead {
            frame: number,
            byte: fault.byte,
        }),
        (Err(fault), Some(byte)) => Err(ReceiveFault::BadHead {
            frame: number,
            byte: fault.byte.min(byte),
        }),
    }
}

/// Takes the head of the next frame of a stream of version 2, if there is one, and checks it.
fn take_second<H: Shelf>(
    number: u32,
    due: Option<(Mode, Guard)>,
    shelf: &mut H,
) -> Result<Option<(Mode, Guard)>, ReceiveFault>
    requires is_open { H.is_open shelf.old seats.In ≡ true }
    ensures still_open { H.is_open shelf.new ≡ H.is_open shelf.old }
    ensures answer { (fix : Bool) (aim : Aim) (stream : List ℕ) (limit : ℕ) (last : Option (TmccFields × Bool)) (first now : Option (List ℕ)) → number < limit
        → Progress (second_version fix stream) aim stream limit number last (H.left shelf.old seats.In) first now → second_due fix stream number ≡ due
        → HeadAnswer (second_version fix stream) aim stream limit number first now (H.left shelf.new seats.In) result }
    ensures cause { ReadingCause receive_kind (H.faults shelf.old) (H.faults shelf.new) result }
{
    let mut head = [0; HEAD_BYTES];
    let count = match fill(shelf, Seat::In, &mut head) {
        Ok(count) => count,
        Err(Failed) => return Err(ReceiveFault::ReadFault(Seat::In)),
    };
    if count == 0 {
        return Ok(None);
    }
    if count < HEAD_BYTES {
        return Err(ReceiveFault::Truncated {
            seat: Seat::In,
            over: count as u32,
        });
    }
    match check_head(number, due, &head) {
        Ok(said) => Ok(Some(said)),
        Err(fault) => Err(fault),
    }
}

/// Takes the head of the next frame of a stream, where frames have heads, and checks it by what it must repeat: what it says,
/// or None where the stream ends before it.
pub fn take_head<H: Shelf>(
    how: Reading,
    number: u32,
    due: Option<(Mode, Guard)>,
    shelf: &mut H,
) -> Result<Option<(Mode, Guard)>, ReceiveFault>
    requires is_open { H.is_open shelf.old seats.In ≡ true }
    ensures still_open { H.is_open shelf.new ≡ H.is_open shelf.old }
    ensures can_have { IfOk result (λ o. IfSome o (λ said. CanHave how.form said.0 said.1)) }
    ensures answer { (aim : Aim) (stream : List ℕ) (limit : ℕ) (last : Option (TmccFields × Bool)) (first now : Option (List ℕ)) → number < limit
        → Progress (view_of how stream) aim stream limit number last (H.left shelf.old seats.In) first now → DueIn (view_of how stream) number due
        → HeadAnswer (view_of how stream) aim stream limit number first now (H.left shelf.new seats.In) result }
    ensures cause { ReadingCause receive_kind (H.faults shelf.old) (H.faults shelf.new) result }
{
    match how.form {
        Form::V1 { mode, guard } => Ok(Some((mode, guard))),
        Form::V2 => take_second(number, due, shelf),
    }
}

/// Bytes of a frame's head: none in version 1.
pub fn head_bytes(form: Form) -> usize
    ensures value { (fix : Bool) (stream : List ℕ) → (version_of fix form stream).head ≡ result }
    ensures most { result ≤ 8 }
{
    match form {
        Form::V1 { .. } => 0,
        Form::V2 => HEAD_BYTES,
    }
}
