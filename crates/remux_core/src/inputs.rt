//! The inputs of all layers.

use crate::fault::RemuxFault;
use crate::layer_input::LayerInput;
use crate::wanted::Wanted;
use edge_io::{Failed, Seat, Shelf};
use isdbt_base::{Layer, NoMemory, Plan};
use std::alloc::Global;

/// The inputs of the layers, frame by frame.
#[derive(Drop)]
pub struct Inputs {
    pub a: LayerInput,
    pub b: LayerInput,
    pub c: LayerInput,
}

impl Inputs {
    ghost use Rattle.std.specs.Prelude.{◌≡◌, ℕ, List, ◌+◌, ◌*◌, ◌≤◌, ◌<◌, ◌^◌, true, false, vec_len, IfOk, OnOk};
    ghost use Rattle.std.specs.declared.option.Option.{Option};
    ghost use Rattle.isdbt_base.specs.declared.kinds.Layer.{Layer as Which};
    ghost use Rattle.isdbt_base.specs.Epochs.{last_start};
    ghost use Rattle.isdbt_base.specs.Plans.{Schedule, IsPlan};
    ghost use Rattle.edge_io.specs.FrameAnswers.{AnswerRoom};
    ghost use Rattle.remux_core.specs.Answers.{RemuxAnswer, RemuxCause, remux_kind};
    ghost use Rattle.remux_core.specs.Epoch.{Progress};
    ghost use Rattle.remux_core.specs.Frames.{most_packets};
    ghost use Rattle.remux_core.specs.Multiplex.{filled};
    ghost use Rattle.remux_core.specs.Refusals.{seat_of};
    ghost use Rattle.remux_core.specs.Reading.{input_of, counted, HasSeats, Stands, IsReady, ReadAnswer, InputsCause};
    ghost use Rattle.remux_core.specs.Wanted.{wanted_of};

    /// Inputs with room for the packets of each frame of the plan. Unused layers have ended.
    pub fn open(alloc: Global, plan: &Plan) -> Result<Inputs, NoMemory>
        ensures seats { IfOk result HasSeats }
        ensures room { IfOk result (λ i. (x : Which) → vec_len (input_of i x).bytes ≡ 188 * most_packets plan.now x) }
        ensures small { IfOk result (λ i. (x : Which) → most_packets plan.now x ≤ 3276) }
        ensures none { IfOk result (λ i. (x : Which) → counted (input_of i x) ≡ 0) }
        ensures used { IfOk result (λ i. (x : Which) → 0 < most_packets plan.now x → (input_of i x).ended ≡ false) }
        ensures unused { IfOk result (λ i. (x : Which) → most_packets plan.now x ≡ 0 → (input_of i x).ended ≡ true) }
    {
        let a = LayerInput::open(alloc, Seat::A, plan.most_packets(Layer::A))?;
        let b = LayerInput::open(alloc, Seat::B, plan.most_packets(Layer::B))?;
        let c = LayerInput::open(alloc, Seat::C, plan.most_packets(Layer::C))?;
        Ok(Inputs { a, b, c })
    }

    /// Reads the packets that the next frame places of each layer, A first. An `Err` is the seat at which a read failed.
    pub fn read<H: Shelf>(&mut self, shelf: &mut H, wanted: &Wanted) -> Result<(), Seat>
        requires seats { HasSeats self.old }
        requires is_open { (x : Which) → (input_of self.old x).ended ≡ false → H.is_open shelf.old (seat_of x) ≡ true }
        requires fits { (x : Which) → 188 * wanted_of wanted.now x ≤ vec_len (input_of self.old x).bytes }
        requires few { (x : Which) → counted (input_of self.old x) ≤ 2 ^ 40 }
        ensures seats { HasSeats self.new }
        ensures room { (x : Which) → vec_len (input_of self.new x).bytes ≡ vec_len (input_of self.old x).bytes }
        ensures first { OnOk result ((x : Which) → (input_of self.new x).first ≡ counted (input_of self.old x)) }
        ensures wanted { OnOk result ((x : Which) → (input_of self.new x).wanted ≡ wanted_of wanted.now x) }
        ensures ended { (x : Which) → (input_of self.old x).ended ≡ true → (input_of self.new x).ended ≡ true }
        ensures still_open { H.is_open shelf.new ≡ H.is_open shelf.old }
        ensures answer { (p : Schedule) (input : Which → List ℕ) (f : ℕ) → ((x : Which) → wanted_of wanted.now x ≡ filled p x f)
            → IsReady p input f self.old (H.left shelf.old) → ReadAnswer p input f self.new (H.left shelf.new) result }
        ensures cause { InputsCause self.old (H.faults shelf.old) (H.faults shelf.new) result }
    {
        match self.a.read(shelf, wanted.a) {
            Ok(()) => {}
            Err(Failed) => return Err(Seat::A),
        }
        match self.b.read(shelf, wanted.b) {
            Ok(()) => {}
            Err(Failed) => return Err(Seat::B),
        }
        match self.c.read(shelf, wanted.c) {
            Ok(()) => Ok(()),
            Err(Failed) => Err(Seat::C),
        }
    }

    /// Whether no packet was read for the frame.
    pub fn is_empty(&self) -> bool
        ensures none { result ≡ true → (x : Which) → (input_of self.now x).count ≡ 0 }
        ensures some { result ≡ false → (x : Which) × (0 < (input_of self.now x).count) }
    {
        self.a.count == 0 && self.b.count == 0 && self.c.count == 0
    }

    /// Whether all inputs have ended.
    pub fn have_ended(&self) -> bool
        ensures all { result ≡ true → (x : Which) → (input_of self.now x).ended ≡ true }
        ensures one { result ≡ false → (x : Which) × ((input_of self.now x).ended ≡ false) }
    {
        self.a.ended && self.b.ended && self.c.ended
    }

    /// Where the last epoch begins at the limit: asks each input that goes on for one byte more, A first. With none there
    /// are as many frames as the limit.
    pub fn ask<H: Shelf>(&self, limit: u32, shelf: &mut H) -> Result<u32, RemuxFault>
        requires seats { HasSeats self.now }
        requires is_open { (x : Which) → (input_of self.now x).ended ≡ false → H.is_open shelf.old (seat_of x) ≡ true }
        ensures answer { (p : Schedule) (input : Which → List ℕ) (before after : Option (List ℕ)) → IsPlan p → last_start p ≡ limit
            → Progress p input limit limit self.now (H.left shelf.old) before after → RemuxAnswer p input limit before after (H.left shelf.new) result }
        ensures still_open { H.is_open shelf.new ≡ H.is_open shelf.old }
        ensures cause { (p : Schedule) (f sink : ℕ) → Stands p f self.now (H.is_open shelf.old)
            → RemuxCause p (H.faults shelf.old) (H.faults shelf.new) sink sink result }
        ensures reached { (room : Option ℕ) (written : Option (List ℕ)) → AnswerRoom remux_kind room written result }
    {
        self.a.ask(shelf)?;
        self.b.ask(shelf)?;
        self.c.ask(shelf)?;
        Ok(limit)
    }
}
