//! The frames of a sample, through the chains of its epochs, and what is counted of them.

ghost use Rattle.std.specs.Prelude.{◌≡◌, ℕ, ◌+◌, ◌<◌, ◌≤◌, false, vec_items, IfOk, OnOk};
ghost use Rattle.isdbt_base.specs.declared.kinds.Layer.TheVariants.{A, B};
ghost use Rattle.isdbt_base.specs.Epochs.{begins_later};
ghost use Rattle.isdbt_base.specs.Outcome.{product};
ghost use Rattle.isdbt_base.specs.Plans.{at_frame};
ghost use Rattle.coder_core.specs.FrameChecks.{CanCode};
ghost use Rattle.remux_core.specs.Multiplex.{written_frame};
ghost use Rattle.seg_receiver.specs.Received.{received_frame};
ghost use Rattle.sample.specs.SamplePlan.{sample_plan, sample_frames};
ghost use Rattle.sample.specs.SampleInputs.{sample_input};
ghost use Rattle.sample.specs.SpoiledCells.{spoiled_view};
ghost use Rattle.sample.specs.Tallies.{sample_sent, sample_tally};
ghost use Rattle.sample.specs.Inputs.{number_of};
ghost use Rattle.sample.specs.Chain.{IsOfFrame, StandsAt, HasRoom};
ghost use Rattle.sample.specs.Counts.{AreBounded, AreCounted};

use crate::buffers::Buffers;
use crate::chain::Chain;
use crate::inputs::Inputs;
use crate::layer_counts::{LayerCount, LayerFrame, count_layer};
use crate::multiplexing::{FRAME_BYTES, multiplex};
use crate::places::share_at;
use crate::plan::{FRAMES, SWITCH, sample_plan};
use isdbt_base::{Layer, NoMemory, Plan};
use std::alloc::Global;

/// What a sample sends: its inputs, by its plan, as the frames of broadcast packets that were made of them.
#[derive(Clone, Copy)]
pub struct Sending<'a> {
    pub plan: &'a Plan,
    pub inputs: &'a Inputs,
    pub frames: &'a [u8],
}

/// What was counted of the layers so far.
#[derive(Clone, Copy, Debug, PartialEq, Eq)]
pub struct Counts {
    pub a: LayerCount,
    pub b: LayerCount,
}

/// The frames of an epoch: from `start` up to `end`.
#[derive(Clone, Copy)]
struct Span {
    start: u32,
    end: u32,
}

/// Counts both layers of the frame that was received last.
fn count_frame(sending: Sending, frame: u32, buffers: &mut Buffers, counts: &mut Counts)
    requires plan { sending.plan.now ≡ sample_plan }
    requires frame { frame < 15 }
    requires room { HasRoom buffers.old }
    requires codable { CanCode (at_frame sample_plan frame).setting (at_frame sample_plan frame).mode (vec_items buffers.old.out) }
    requires bounds { AreBounded frame counts.old }
    ensures room { HasRoom buffers.new }
    ensures bounds { AreBounded (frame + 1) counts.new }
    ensures counted { vec_items buffers.old.out ≡ received_frame (spoiled_view sample_plan (sample_sent (number_of sending.entry.inputs.now)) sample_frames) frame
        → AreCounted (number_of sending.entry.inputs.now) frame counts.old → AreCounted (number_of sending.entry.inputs.now) (frame + 1) counts.new }
{
    let a = LayerFrame {
        layer: Layer::A,
        share: share_at(sending.plan, Layer::A, frame),
        frame,
        input: sending.inputs.a(),
        out: &buffers.out,
    };
    count_layer(a, &mut buffers.packets, &mut counts.a);
    let b = LayerFrame {
        layer: Layer::B,
        share: share_at(sending.plan, Layer::B, frame),
        frame,
        input: sending.inputs.b(),
        out: &buffers.out,
    };
    count_layer(b, &mut buffers.packets, &mut counts.b);
}

/// Sends the frames of an epoch through its chain, and counts what is received.
fn run_frames(
    sending: Sending,
    span: Span,
    chain: &mut Chain,
    buffers: &mut Buffers,
    counts: &mut Counts,
)
    requires plan { sending.plan.now ≡ sample_plan }
    requires frames { sending.frames.now ≡ product (written_frame sample_plan (sample_input (number_of sending.inputs.now))) sample_frames }
    requires rising { span.start ≤ span.end }
    requires most { span.end ≤ 15 }
    requires epoch { (f : ℕ) → span.start < f → f < span.end → begins_later sample_plan f ≡ false }
    requires of { IsOfFrame sample_plan span.start chain.old }
    requires stands { StandsAt sample_plan (sample_sent (number_of sending.inputs.now)) span.start chain.old }
    requires room { HasRoom buffers.old }
    requires bounds { AreBounded span.start counts.old }
    ensures room { HasRoom buffers.new }
    ensures bounds { AreBounded span.end counts.new }
    ensures counted { AreCounted (number_of sending.entry.inputs.now) span.start counts.old → AreCounted (number_of sending.entry.inputs.now) span.end counts.new }
{
    for frame in span.start..span.end {
        let from = FRAME_BYTES * frame as usize;
        let broadcast = &sending.frames[from..from + FRAME_BYTES];
        chain.pass(sending.plan, frame, broadcast, buffers);
        count_frame(sending, frame, buffers, counts);
    }
}

/// Runs an epoch through a chain of its own. Fails only if memory runs out.
fn run_epoch(
    alloc: Global,
    sending: Sending,
    span: Span,
    buffers: &mut Buffers,
    counts: &mut Counts,
) -> Result<(), NoMemory>
    requires plan { sending.plan.now ≡ sample_plan }
    requires frames { sending.frames.now ≡ product (written_frame sample_plan (sample_input (number_of sending.inputs.now))) sample_frames }
    requires rising { span.start ≤ span.end }
    requires most { span.end ≤ 15 }
    requires begins { (at_frame sample_plan span.start).start ≡ span.start }
    requires epoch { (f : ℕ) → span.start < f → f < span.end → begins_later sample_plan f ≡ false }
    requires room { HasRoom buffers.old }
    requires bounds { AreBounded span.start counts.old }
    ensures room { OnOk result (HasRoom buffers.new) }
    ensures bounds { OnOk result (AreBounded span.end counts.new) }
    ensures counted { OnOk result (AreCounted (number_of sending.entry.inputs.now) span.start counts.old → AreCounted (number_of sending.entry.inputs.now) span.end counts.new) }
{
    let mut chain = Chain::open(alloc, sending.plan, span.start)?;
    run_frames(sending, span, &mut chain, buffers, counts);
    Ok(())
}

/// Runs both epochs: a new chain begins at the switch. Fails only if memory runs out.
fn run_epochs(
    alloc: Global,
    sending: Sending,
    buffers: &mut Buffers,
    counts: &mut Counts,
) -> Result<(), NoMemory>
    requires plan { sending.plan.now ≡ sample_plan }
    requires frames { sending.frames.now ≡ product (written_frame sample_plan (sample_input (number_of sending.inputs.now))) sample_frames }
    requires room { HasRoom buffers.old }
    requires bounds { AreBounded 0 counts.old }
    requires none { AreCounted (number_of sending.inputs.now) 0 counts.old }
    ensures { OnOk result (AreCounted (number_of sending.entry.inputs.now) 15 counts.new) }
{
    let first = Span {
        start: 0,
        end: SWITCH,
    };
    run_epoch(alloc, sending, first, buffers, counts)?;
    let second = Span {
        start: SWITCH,
        end: FRAMES,
    };
    run_epoch(alloc, sending, second, buffers, counts)?;
    Ok(())
}

/// Where nothing was counted.
fn no_counts() -> Counts
    ensures bounds { AreBounded 0 result }
    ensures counted { (number : ℕ) → AreCounted number 0 result }
{
    let none = LayerCount::none();
    Counts { a: none, b: none }
}

/// Sends the frames, and counts what is received of them. Fails only if memory runs out.
fn run_sending(alloc: Global, sending: Sending) -> Result<Counts, NoMemory>
    requires plan { sending.plan.now ≡ sample_plan }
    requires frames { sending.frames.now ≡ product (written_frame sample_plan (sample_input (number_of sending.inputs.now))) sample_frames }
    ensures { IfOk result (AreCounted (number_of sending.entry.inputs.now) 15) }
{
    let mut buffers = Buffers::open(alloc)?;
    let mut counts = no_counts();
    run_epochs(alloc, sending, &mut buffers, &mut counts)?;
    Ok(counts)
}

/// Sends these inputs, and counts what is received of them. Fails only if memory runs out.
fn run_inputs(alloc: Global, inputs: &Inputs) -> Result<Counts, NoMemory>
    ensures { IfOk result (AreCounted (number_of inputs.now) 15) }
{
    let plan = sample_plan();
    let frames = multiplex(alloc, &plan, inputs)?;
    let sending = Sending {
        plan: &plan,
        inputs,
        frames: frames.bytes(),
    };
    run_sending(alloc, sending)
}

/// What is counted of layers A and B in the sample with a number. Fails only if memory runs out.
pub fn run(alloc: Global, number: u16) -> Result<Counts, NoMemory>
    ensures a { IfOk result (λ counts. counts.a.tally ≡ sample_tally number A) }
    ensures b { IfOk result (λ counts. counts.b.tally ≡ sample_tally number B) }
{
    let inputs = Inputs::make(alloc, number)?;
    let counts = run_inputs(alloc, &inputs)?;
    Ok(counts)
}
