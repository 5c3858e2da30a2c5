//! The command.

ghost use Rattle.std.specs.Prelude.{◌≡◌, ℕ};
ghost use Rattle.edge_io.specs.Causes.{Cause};
ghost use Rattle.edge_io.specs.FrameAnswers.{AnswerRoom};
ghost use Rattle.sample.specs.Answers.{sample_kind, SampleAnswer, SampleCause};

use crate::fault::SampleFault;
use crate::lines::text_of;
use crate::plan::FRAMES;
use crate::running::run;
use edge_io::{Failed, Sink, write_whole};
use std::alloc::Global;

/// Runs the chain over the made inputs of the sample with a number, which is 0 to 65535, and writes what it counts: three
/// lines, the frames, and for each layer the packets that were sent, how many of them were met, how many of the received
/// packets are marked, and the sum of all bytes of those that were met. It answers how many frames there are.
///
/// The inputs are put into frames, these are coded and received by the sample's plan, and in each frame of cells four numbers
/// are negated on the way. An input packet is met where what is received in its place, as many frames later as the layer's
/// delay, is the same packet. Nothing is read, and nothing is written before the last memory is taken.
pub fn sample<K: Sink>(alloc: Global, number: u16, sink: &mut K) -> Result<u32, SampleFault>
    ensures answer { SampleAnswer number (K.written sink.old) (K.written sink.new) result }
    ensures cause { (shelf : Cause → ℕ) → SampleCause shelf (K.faults sink.old) (K.faults sink.new) result }

    // The sink's room stays, and a write fails only where what was written reaches it.
    ensures room { K.room sink.new ≡ K.room sink.old }
    ensures reached { AnswerRoom sample_kind (K.room sink.old) (K.written sink.new) result }
{
    let Ok(counts) = run(alloc, number) else {
        return Err(SampleFault::NoMemory);
    };
    let text = text_of(&counts.a.tally, &counts.b.tally);
    match write_whole(sink, text.as_str().as_bytes()) {
        Ok(()) => Ok(FRAMES),
        Err(Failed) => Err(SampleFault::WriteFault),
    }
}
