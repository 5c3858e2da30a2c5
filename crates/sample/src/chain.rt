//! The chain of an epoch: frames of broadcast packets coded, spoiled and received.

ghost use Rattle.std.specs.Prelude.{◌≡◌};
ghost use Rattle.isdbt_base.specs.Plans.{at_frame};
ghost use Rattle.remux_core.specs.Multiplex.{frame_tag};

use crate::buffers::Buffers;
use crate::feeding::feed;
use bts_info::FrameTag;
use coder_core::{Coder, word_at};
use isdbt_base::{NoMemory, Plan};
use seg_receiver::Receiver;
use std::alloc::Global;

/// The coder of an epoch, and the receiver of its spoiled cells.
#[derive(Drop)]
pub struct Chain {
    coder: Coder,
    receiver: Receiver,
}

/// What the packets of a frame bear.
fn tag_at(plan: &Plan, frame: u32) -> FrameTag
    ensures { result ≡ frame_tag (at_frame plan.now frame) frame }
{
    let at = plan.at(frame);
    FrameTag {
        odd: frame % 2 == 1,
        first: at.start == frame,
        start_up: false,
        countdown: at.countdown,
    }
}

impl Chain {
    ghost use Rattle.std.specs.Prelude.{◌≡◌, ℕ, ◌+◌, ◌*◌, ◌≤◌, false, length, vec_items, IfOk};
    ghost use Rattle.isdbt_base.specs.declared.kinds.Mode.TheVariants.{M1};
    ghost use Rattle.isdbt_base.specs.declared.kinds.Guard.TheVariants.{G4};
    ghost use Rattle.isdbt_base.specs.Epochs.{begins_later};
    ghost use Rattle.isdbt_base.specs.Frames.{FramePackets};
    ghost use Rattle.isdbt_base.specs.Plans.{at_frame};
    ghost use Rattle.coder_core.specs.Coder.{IsFrameOf};
    ghost use Rattle.coder_core.specs.FrameChecks.{CanCode};
    ghost use Rattle.coder_core.specs.InputFrames.{slots_at};
    ghost use Rattle.seg_receiver.specs.Received.{received_frame};
    ghost use Rattle.sample.specs.SpoiledCells.{spoiled_view};
    ghost use Rattle.sample.specs.Chain.{IsOfFrame, StandsAt, HasRoom};

    /// The chain of the epoch that begins at a frame, which has seen no frame. Fails only if memory runs out.
    pub fn open(alloc: Global, plan: &Plan, start: u32) -> Result<Chain, NoMemory>
        ensures of { IfOk result (IsOfFrame plan.now start) }
        ensures stands { IfOk result (λ c. (frames : FramePackets) → (at_frame plan.now start).start ≡ start → StandsAt plan.now frames start c) }
    {
        let at = plan.at(start);
        let coder = Coder::open(alloc, &at.setting, at.mode, at.guard)?;
        let receiver = Receiver::open(alloc, &at.setting, at.mode, at.guard)?;
        Ok(Chain { coder, receiver })
    }

    /// Sends the next frame of broadcast packets of the epoch through the chain, and leaves the frame that is given out in
    /// the buffer.
    pub fn pass(&mut self, plan: &Plan, frame: u32, broadcast: &[u8], buffers: &mut Buffers)
        requires of { IsOfFrame plan.now frame self.old }
        requires mode { (at_frame plan.now frame).mode ≡ M1 }
        requires guard { (at_frame plan.now frame).guard ≡ G4 }
        requires size { length broadcast.now ≡ 204 * slots_at plan.now frame }
        requires codable { CanCode (at_frame plan.now frame).setting (at_frame plan.now frame).mode broadcast.now }
        requires room { HasRoom buffers.old }
        requires few { frame ≤ 1000 }
        ensures room { HasRoom buffers.new }
        ensures of { begins_later plan.now (frame + 1) ≡ false → IsOfFrame plan.now (frame + 1) self.new }
        ensures given { (frames : FramePackets) (count : ℕ) → StandsAt plan.now frames frame self.old → IsFrameOf (at_frame plan.now frame).setting (at_frame plan.now frame).mode broadcast.now frames frame
            → vec_items buffers.new.out ≡ received_frame (spoiled_view plan.now frames count) frame }
        ensures stands { (frames : FramePackets) → StandsAt plan.now frames frame self.old → IsFrameOf (at_frame plan.now frame).setting (at_frame plan.now frame).mode broadcast.now frames frame
            → begins_later plan.now (frame + 1) ≡ false → StandsAt plan.now frames (frame + 1) self.new }
    {
        plan.acceptance_law();
        let word = word_at(plan, frame);
        let tag = tag_at(plan, frame);
        self.coder.frame(broadcast, &word, &mut buffers.symbols);
        feed(
            &mut self.receiver,
            frame,
            &buffers.symbols,
            &mut buffers.cells,
        );
        self.receiver.frame(&tag, &mut buffers.out);
    }
}
