//! The end of a stream of cells at the limit of frames.

ghost use Rattle.std.specs.Prelude.{◌≡◌, ℕ, Bool, List, Some, true};
ghost use Rattle.std.specs.declared.option.Option.{Option};
ghost use Rattle.isdbt_base.specs.declared.stream.Reading.{Reading};
ghost use Rattle.edge_io.specs.declared.shelf.Seat.TheVariants as seats;
ghost use Rattle.edge_io.specs.FrameAnswers.{LoneAnswer, ReadingCause};
ghost use Rattle.tmcc_word.specs.Fields.{TmccFields};
ghost use Rattle.seg_receiver.specs.declared.aim.Aim.{Aim};
ghost use Rattle.seg_receiver.specs.CellStream.{view_of};
ghost use Rattle.seg_receiver.specs.ReceiveAnswers.{receive_kind, receive_command};
ghost use Rattle.seg_receiver.specs.EpochAnswers.{Progress};

use crate::fault::ReceiveFault;
use edge_io::{Failed, Seat, Shelf, ends};

/// Ends a stream of which as many frames were taken as the limit allows: their number, or a refusal of what follows them.
pub fn end_at_limit<H: Shelf>(limit: u32, shelf: &mut H) -> Result<u32, ReceiveFault>
    requires is_open { H.is_open shelf.old seats.In ≡ true }
    ensures still_open { H.is_open shelf.new ≡ H.is_open shelf.old }
    ensures answer { (how : Reading) (aim : Aim) (stream : List ℕ) (last : Option (TmccFields × Bool)) (first now : Option (List ℕ))
        → Progress (view_of how stream) aim stream limit limit last (H.left shelf.old seats.In) first now
        → LoneAnswer receive_kind (receive_command (view_of how stream) aim stream limit) first now (H.left shelf.new seats.In) result }
    ensures cause { ReadingCause receive_kind (H.faults shelf.old) (H.faults shelf.new) result }
{
    match ends(shelf, Seat::In) {
        Ok(true) => Ok(limit),
        Ok(false) => Err(ReceiveFault::TooLong),
        Err(Failed) => Err(ReceiveFault::ReadFault(Seat::In)),
    }
}
