//! Laws of the commands one after another: `code` of what `remux` writes, and what is received of it.

ghost use Rattle.std.specs.Prelude.{◌≡◌, ℕ, ◌+◌, ◌-◌, ◌<◌, ◌≤◌, Some, None, List, []};
ghost use Rattle.isdbt_base.specs.declared.stream.Writing.{Writing};
ghost use Rattle.isdbt_base.specs.declared.stream.Reading.{Reading};
ghost use Rattle.isdbt_base.specs.declared.kinds.Layer.{Layer};
ghost use Rattle.isdbt_base.specs.LayerParameters.{LayerParameters};
ghost use Rattle.isdbt_base.specs.Parameters.{layer_of};
ghost use Rattle.isdbt_base.specs.Numbers.{packets_per_frame};
ghost use Rattle.isdbt_base.specs.Plans.{Schedule, IsPlan, at_frame};
ghost use Rattle.isdbt_base.specs.Frames.{FramePackets};
ghost use Rattle.isdbt_base.specs.Outcome.{product, ArePassed, IsOutcome};
ghost use Rattle.ts_packet.specs.Packets.{IsPacket, piece};
ghost use Rattle.gf_rs.specs.Codewords.{IsBytes};
ghost use Rattle.remux_core.specs.Multiplex.{placed_before, multiplexed, packet_count, frame_delay, broadcast, written_frame};
ghost use Rattle.remux_core.specs.Answers.{IsPlacedIn};
ghost use Rattle.remux_core.specs.Parts.{IsGood};
ghost use Rattle.coder_core.specs.InputFrames.{first_head, slots_at, frame_at, input_frames};
ghost use Rattle.coder_core.specs.SentCells.{sent_frame};
ghost use Rattle.coder_core.specs.CodeRefusals.{code_refusal, is_there, coded_frame};
ghost use Rattle.seg_receiver.specs.CellStream.{view_of, writing_of};
ghost use Rattle.seg_receiver.specs.Received.{received};
ghost use Rattle.seg_receiver.specs.Delivered.{CanCarry, delivered, ArePackets, IsNear, IsDelivered};
ghost use Rattle.seg_receiver.specs.Composed.{broadcast_stream, HaveSize};

/// What `code` finds in the broadcast packets of a plan's frames, with switches or without, is what was multiplexed: the
/// first head at the first packet, the bytes of each frame, and each packet of each layer.
pub fn found_law()
    ensures head { (p : Schedule) (frames : FramePackets) (count : ℕ) → IsPlan p → HaveSize p frames count → 0 < count → first_head (broadcast_stream p frames count) ≡ Some 0 }
    ensures frame { (p : Schedule) (frames : FramePackets) (count f : ℕ) → IsPlan p → HaveSize p frames count → f < count → frame_at (slots_at p) (broadcast_stream p frames count) 0 f ≡ broadcast p frames f }
    ensures packets { (p : Schedule) (frames : FramePackets) (count f j : ℕ) (x : Layer) (l : LayerParameters) → IsPlan p → HaveSize p frames count → f < count → layer_of (at_frame p f).setting x ≡ Some l → j < packets_per_frame (at_frame p f).mode l
        → input_frames p (broadcast_stream p frames count) 0 f x j ≡ frames f x j }
{}

/// So the cells that `code` writes of them are those of the plan and the packets.
pub fn composed_law()
    ensures frame { (how : Writing) (p : Schedule) (frames : FramePackets) (count f : ℕ) → IsPlan p → HaveSize p frames count → f < count → coded_frame how p (broadcast_stream p frames count) f ≡ sent_frame how p frames f }
    ensures stream { (how : Writing) (p : Schedule) (frames : FramePackets) (count : ℕ) → IsPlan p → HaveSize p frames count
        → product (coded_frame how p (broadcast_stream p frames count)) count ≡ product (sent_frame how p frames) count }
{}

/// And they are received as the multiplexed packets, each put off by its layer's delay.
pub fn headline_law()
    ensures { (how : Reading) (p : Schedule) (frames : FramePackets) (count : ℕ) → IsPlan p → CanCarry how.form p count → ArePackets p frames count
        → received (view_of how (product (coded_frame (writing_of how.form) p (product (broadcast p frames) count)) count)) count ≡ delivered p frames count }
{}

/// The packets of the multiplex of inputs of whole packets with their sync bytes are packets of bytes, over switches too.
pub fn multiplexed_law()
    ensures each { (p : Schedule) (input : Layer → List ℕ) → ((x : Layer) → IsGood (input x)) → ((x : Layer) → IsBytes (input x)) → (f : ℕ) (x : Layer) (j : ℕ) → IsPacket (multiplexed p input f x j) × IsBytes (multiplexed p input f x j) }
    ensures packets { (p : Schedule) (input : Layer → List ℕ) (count : ℕ) → ((x : Layer) → IsGood (input x)) → ((x : Layer) → IsBytes (input x)) → ArePackets p (multiplexed p input) count }
{}

/// So what `remux` writes of such inputs, coded by `code`, is received as the multiplex of them, each layer's packets put off
/// by its delay, for any number of frames.
pub fn chain_law()
    ensures { (how : Reading) (p : Schedule) (input : Layer → List ℕ) (count : ℕ) → IsPlan p → CanCarry how.form p count → ((x : Layer) → IsGood (input x)) → ((x : Layer) → IsBytes (input x))
        → received (view_of how (product (coded_frame (writing_of how.form) p (product (written_frame p input) count)) count)) count ≡ delivered p (multiplexed p input) count }
{}

/// And `code` refuses no frame of what `remux` writes: of a plan's frames of packets, as many as its limit allows, it finds all
/// and ends behind the last.
pub fn accepted_law()
    ensures each { (p : Schedule) (frames : FramePackets) (count limit : ℕ) → IsPlan p → ArePackets p frames count → count ≤ limit
        → IsOutcome (code_refusal p (product (broadcast p frames) count) limit) (is_there p (product (broadcast p frames) count)) count None }
    ensures written { (p : Schedule) (input : Layer → List ℕ) (count limit : ℕ) → IsPlan p → ((x : Layer) → IsGood (input x)) → ((x : Layer) → IsBytes (input x)) → count ≤ limit
        → IsOutcome (code_refusal p (product (written_frame p input) count) limit) (is_there p (product (written_frame p input) count)) count None }
{}

/// Each packet of an input that a frame of the multiplex places is delivered at that place of its layer, as many frames later as
/// the layer's delay.
pub fn input_law()
    ensures { (p : Schedule) (input : Layer → List ℕ) (x : Layer) (i f : ℕ) → i < packet_count input x → IsPlacedIn p x i f
        → IsDelivered p (multiplexed p input) x (f + frame_delay p f x) (i - placed_before p x f) (piece 188 (input x) i) }
{}

/// And whatever bytes `code` is given: the frames that it passes hold packets of bytes, and the cells that it writes of them are
/// near these packets, in each version of the stream that can carry the plan. Where no packet bears the head it writes nothing.
pub fn code_near_law()
    ensures near { (how : Reading) (p : Schedule) (input : List ℕ) (count limit head : ℕ) → IsPlan p → IsBytes input → ArePassed (code_refusal p input limit) (is_there p input) count → CanCarry how.form p count → first_head input ≡ Some head
        → ArePackets p (input_frames p input head) count × IsNear (view_of how (product (coded_frame (writing_of how.form) p input) count)) p (input_frames p input head) count }
    ensures none { (how : Writing) (p : Schedule) (input : List ℕ) (count limit : ℕ) → ArePassed (code_refusal p input limit) (is_there p input) count → first_head input ≡ None
        → (count ≡ 0) × (product (coded_frame how p input) count ≡ []) }
{}
