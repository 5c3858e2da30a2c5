//! Laws of which frames of a stream of cells are refused.

ghost use Rattle.std.specs.Prelude.{◌≡◌, ℕ, ◌≤◌, Bool, true, None, List};
ghost use Rattle.isdbt_base.specs.declared.kinds.Mode.{Mode};
ghost use Rattle.isdbt_base.specs.declared.kinds.Guard.{Guard};
ghost use Rattle.isdbt_base.specs.declared.stream.Reading.{Reading};
ghost use Rattle.isdbt_base.specs.Parameters.{Parameters, IsAccepted};
ghost use Rattle.isdbt_base.specs.Plans.{Schedule, IsPlan};
ghost use Rattle.isdbt_base.specs.Frames.{FramePackets};
ghost use Rattle.isdbt_base.specs.Outcome.{IsOutcome};
ghost use Rattle.seg_receiver.specs.declared.aim.Aim.TheVariants as aims;
ghost use Rattle.seg_receiver.specs.CellStream.{View, first_version, view_of, AreInRow, NoBadHead};
ghost use Rattle.seg_receiver.specs.Delivered.{HaveWords, AreRestorable, IsNear, IsNearPartial};
ghost use Rattle.seg_receiver.specs.ReceiveRefusals.{receive_is_there, same_setting, receive_refusal};

/// No frame of a view that is near the cells of a plan, whose frames stand in a row and of which no head is refused, is
/// refused, with partial reception neither: of as many as the limit allows all are there and passed, and none follows.
pub fn near_outcome_law()
    ensures whole { (v : View) (p : Schedule) (frames : FramePackets) (count limit : ℕ) → IsPlan p → AreInRow v count → NoBadHead v count → IsNear v p frames count → count ≤ limit
        → IsOutcome (receive_refusal v aims.Full limit) (receive_is_there v) count None }
    ensures partial { (v : View) (p : Schedule) (frames : FramePackets) (count limit : ℕ) → IsPlan p → AreInRow v count → NoBadHead v count → IsNearPartial v p frames count → count ≤ limit
        → IsOutcome (receive_refusal v aims.Partial limit) (receive_is_there v) count None }
{}

/// No head of a stream that is near the cells of a plan is refused. In version 1 none is of any stream.
pub fn head_law()
    ensures near { (how : Reading) (stream : List ℕ) (p : Schedule) (frames : FramePackets) (count : ℕ) → IsPlan p → IsNear (view_of how stream) p frames count → NoBadHead (view_of how stream) count }
    ensures plain { (fix : Bool) (mode : Mode) (guard : Guard) (stream : List ℕ) (count : ℕ) → NoBadHead (first_version fix mode guard stream) count }
{}

/// Where words are corrected, the words of a stream are those of a plan, if each came with at most eight wrong bits from B20 on
/// and with none before.
pub fn restored_law()
    ensures { (how : Reading) (stream : List ℕ) (p : Schedule) (count : ℕ) → how.fix ≡ true → AreRestorable (view_of how stream) p count → HaveWords (view_of how stream) p count }
{}

/// Two accepted settings are the same to a receiver just where they are equal.
pub fn same_setting_law()
    ensures equal { (s u : Parameters) → IsAccepted s → IsAccepted u → same_setting s u ≡ true → s ≡ u }
    ensures itself { (s : Parameters) → same_setting s s ≡ true }
{}
