//! The law of what no command reads.

ghost use Rattle.std.specs.Prelude.{◌≡◌, ℕ, List};
ghost use Rattle.std.specs.declared.option.Option.{Option};
ghost use Rattle.isdbt_base.specs.declared.stream.Reading.{Reading};
ghost use Rattle.isdbt_base.specs.Outcome.{IsOutcome, product};
ghost use Rattle.seg_receiver.specs.declared.aim.Aim.{Aim};
ghost use Rattle.seg_receiver.specs.declared.fault.ReceiveFault.{ReceiveFault};
ghost use Rattle.seg_receiver.specs.CellStream.{view_of};
ghost use Rattle.seg_receiver.specs.ReceiveRefusals.{receive_is_there, receive_refusal};
ghost use Rattle.seg_receiver.specs.ReceiveAnswers.{given_frame};
ghost use Rattle.seg_receiver.specs.UnreadBits.{DifferUnread};

/// Two streams that are read so and differ at most in bit B0 of words, in the seven upper bits of symbols' first bytes and in the
/// two last bytes of heads end alike, whatever is asked of them and with any limit on frames, and the same is written for both.
pub fn unread_law()
    ensures outcome { (how : Reading) (s t : List ℕ) (aim : Aim) (limit count : ℕ) (fault : Option ReceiveFault) → DifferUnread (view_of how s) s t → IsOutcome (receive_refusal (view_of how s) aim limit) (receive_is_there (view_of how s)) count fault
        → IsOutcome (receive_refusal (view_of how t) aim limit) (receive_is_there (view_of how t)) count fault }
    ensures written { (how : Reading) (s t : List ℕ) (aim : Aim) (limit count : ℕ) (fault : Option ReceiveFault) → DifferUnread (view_of how s) s t → IsOutcome (receive_refusal (view_of how s) aim limit) (receive_is_there (view_of how s)) count fault
        → product (given_frame (view_of how s) aim) count ≡ product (given_frame (view_of how t) aim) count }
{}
