//! Laws of what is received.

ghost use Rattle.std.specs.Prelude.{◌≡◌, ℕ, ◌<◌, true, List, length};
ghost use Rattle.isdbt_base.specs.declared.stream.Reading.{Reading};
ghost use Rattle.isdbt_base.specs.Plans.{Schedule, IsPlan, at_frame};
ghost use Rattle.isdbt_base.specs.Frames.{FramePackets};
ghost use Rattle.isdbt_base.specs.Outcome.{product};
ghost use Rattle.coder_core.specs.SentCells.{sent_frame};
ghost use Rattle.remux_core.specs.Multiplex.{broadcast};
ghost use Rattle.seg_receiver.specs.CellStream.{View, view_of, writing_of, AreInRow, AgreeUpTo};
ghost use Rattle.seg_receiver.specs.Received.{received, received_frame, partial_frame, received_partial};
ghost use Rattle.seg_receiver.specs.Delivered.{CanCarry, CanCarryPartial, delivered, delivered_packets, delivered_partial_frame, delivered_partial, ArePackets, IsNear, IsNearPartial};

/// A view that is near the cells of a plan, with switches or without, is received as the plan's packets, each put off by
/// its layer's delay: all frames, and each of them.
pub fn received_law()
    ensures whole { (v : View) (p : Schedule) (frames : FramePackets) (count : ℕ) → IsPlan p → ArePackets p frames count → IsNear v p frames count
        → received v count ≡ delivered p frames count }
    ensures each { (v : View) (p : Schedule) (frames : FramePackets) (count : ℕ) → IsPlan p → ArePackets p frames count → IsNear v p frames count
        → (f : ℕ) → f < count → received_frame v f ≡ broadcast p (delivered_packets p frames) f }
{}

/// The cells of a plan are near it in each version of the stream that can carry it.
pub fn near_law()
    ensures { (how : Reading) (p : Schedule) (frames : FramePackets) (count : ℕ) → IsPlan p → CanCarry how.form p count → ArePackets p frames count
        → IsNear (view_of how (product (sent_frame (writing_of how.form) p frames) count)) p frames count }
{}

/// A view that is near the cells of a plan with partial reception gives layer A's packets, from the words and the cells
/// of segment 0 alone; and the cells of such a plan are near it, whatever its guard intervals.
pub fn partial_law()
    ensures near { (v : View) (p : Schedule) (frames : FramePackets) (count : ℕ) → IsPlan p → ArePackets p frames count → IsNearPartial v p frames count
        → received_partial v count ≡ delivered_partial p frames count }
    ensures each { (v : View) (p : Schedule) (frames : FramePackets) (count : ℕ) → IsPlan p → ArePackets p frames count → IsNearPartial v p frames count
        → (f : ℕ) → f < count → partial_frame v f ≡ delivered_partial_frame p frames f }
    ensures clean { (how : Reading) (p : Schedule) (frames : FramePackets) (count : ℕ) → IsPlan p → CanCarryPartial how.form p count → ArePackets p frames count
        → ((f : ℕ) → f < count → (at_frame p f).setting.partial ≡ true) → IsNearPartial (view_of how (product (sent_frame (writing_of how.form) p frames) count)) p frames count }
{}

/// An output frame needs its mode and guard interval, and the words and the cells of the frames up to it alone, whatever
/// they say.
pub fn prefix_law()
    ensures { (v w : View) (f : ℕ) → AgreeUpTo f v w → received_frame v f ≡ received_frame w f }
{}

/// Where a stream ends with a frame, each frame up to it ends where the next begins.
pub fn row_law()
    ensures { (how : Reading) (stream : List ℕ) (count : ℕ) → length stream ≡ (view_of how stream).starts count → AreInRow (view_of how stream) count }
{}
