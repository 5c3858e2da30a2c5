//! The channel coder of an epoch.

ghost use Rattle.std.specs.Prelude.{◌≡◌};
ghost use Rattle.isdbt_base.specs.declared.kinds.Layer.TheVariants.{A, B, C};
ghost use Rattle.isdbt_base.specs.Parameters.{layer_of};

use crate::check::check_frame;
use crate::fault::CodeFault;
use crate::layer_part::LayerPart;
use crate::symbols::put_symbol;
use isdbt_base::{Guard, Layer, Mode, NoMemory, Setting};
use std::alloc::Global;

/// Channel coder of one epoch, for up to three layers: each layer's coded bits, interleaving and cells, and the symbols
/// that they make with the bits of the TMCC word (ARIB STD-B31 chapter 3).
///
/// It takes an epoch's frames of broadcast packets one by one, and gives each frame's cells at once: 204 symbols, each a
/// byte whose lowest bit is the TMCC bit, and 13 segments of 96, 192 or 384 cells, by segment and then by carrier, each
/// of two bytes, I and Q in two's complement. All memory is taken at `open`.
#[derive(Drop)]
pub struct Coder {
    setting: Setting,
    mode: Mode,
    guard: Guard,
    a: LayerPart,
    b: LayerPart,
    c: LayerPart,
    ghost a_mode: { a.mode ≡ mode },
    ghost b_mode: { b.mode ≡ mode },
    ghost c_mode: { c.mode ≡ mode },
    ghost a_layer: { a.layer ≡ layer_of setting A },
    ghost b_layer: { b.layer ≡ layer_of setting B },
    ghost c_layer: { c.layer ≡ layer_of setting C },
}

impl Coder {
    ghost use Rattle.std.specs.Prelude.{◌≡◌, ℕ, List, ◌+◌, ◌*◌, ◌≤◌, ◌^◌, None, Some, IfOk, MatchResult, length};
    ghost use Rattle.isdbt_base.specs.Numbers.{slots_per_frame};
    ghost use Rattle.isdbt_base.specs.Frames.{FramePackets};
    ghost use Rattle.coder_core.specs.FrameChecks.{CanCode, refusal};
    ghost use Rattle.coder_core.specs.LayerPart.{symbol_cells};
    ghost use Rattle.coder_core.specs.SentCells.{epoch_frame_cells, frame_size};
    ghost use Rattle.coder_core.specs.Symbols.{first_symbols};
    ghost use Rattle.coder_core.specs.Coder.{mode_of, guard_of, setting_of, IsFrameOf, StandsFor};

    /// A coder of an epoch that has seen no frame. Fails only if memory runs out.
    pub fn open(
        alloc: Global,
        setting: &Setting,
        mode: Mode,
        guard: Guard,
    ) -> Result<Coder, NoMemory>
        ensures mode { IfOk result (λ c. mode_of c ≡ mode) }
        ensures guard { IfOk result (λ c. guard_of c ≡ guard) }
        ensures setting { IfOk result (λ c. setting_of c ≡ setting.now) }
        ensures state { IfOk result (λ c. (frames : FramePackets) (start : ℕ) → StandsFor c frames start 0) }
    {
        let a = LayerPart::open(alloc, setting.layer(Layer::A), mode)?;
        let b = LayerPart::open(alloc, setting.layer(Layer::B), mode)?;
        let c = LayerPart::open(alloc, setting.layer(Layer::C), mode)?;
        Ok(Coder {
            setting: *setting,
            mode,
            guard,
            a,
            b,
            c,
        })
    }

    /// Whether the frame with this number can be coded, or the first cause to refuse it: a packet without sync byte, a
    /// misplaced head flag, a layer (A, B, C) with another count of packets. The frame is a broadcast packet of 204 bytes
    /// for each slot, and before its first stand `first_packet` packets of the input.
    pub fn check(&self, frame: u32, first_packet: u64, bytes: &[u8]) -> Result<(), CodeFault>
        requires first { first_packet ≤ 2 ^ 60 }
        requires size { length bytes.now ≡ 204 * slots_per_frame (mode_of self.now) (guard_of self.now) }
        ensures answer { MatchResult result (λ coded. refusal (setting_of self.now) (mode_of self.now) frame first_packet bytes.now ≡ None) (λ fault. refusal (setting_of self.now) (mode_of self.now) frame first_packet bytes.now ≡ Some fault) }
        ensures codable { IfOk result (λ coded. CanCode (setting_of self.now) (mode_of self.now) bytes.now) }
    {
        check_frame(&self.setting, self.mode, frame, first_packet, bytes)
    }

    /// Writes the symbols of the next frame, without a head, whose bytes are a broadcast packet of 204 bytes for each slot,
    /// with the bits of its TMCC word. `out` has just these symbols' room.
    pub fn frame(&mut self, bytes: &[u8], word: &[bool; 204], out: &mut [u8])
        requires size { length bytes.now ≡ 204 * slots_per_frame (mode_of self.old) (guard_of self.old) }
        requires codable { CanCode (setting_of self.old) (mode_of self.old) bytes.now }
        requires room { length out.old ≡ frame_size (mode_of self.old) }
        ensures cells { (frames : FramePackets) (start g : ℕ) → StandsFor self.old frames start g → IsFrameOf (setting_of self.old) (mode_of self.old) bytes.now frames (start + g)
            → out.new ≡ epoch_frame_cells (mode_of self.old) (setting_of self.old) frames start g word.now }
        ensures state { (frames : FramePackets) (start g : ℕ) → StandsFor self.old frames start g → IsFrameOf (setting_of self.old) (mode_of self.old) bytes.now frames (start + g)
            → StandsFor self.new frames start (g + 1) }
        ensures mode { mode_of self.new ≡ mode_of self.old }
        ensures guard { guard_of self.new ≡ guard_of self.old }
        ensures setting { setting_of self.new ≡ setting_of self.old }
    {
        self.setting.acceptance_law();
        self.a.code(bytes, Layer::A);
        self.b.code(bytes, Layer::B);
        self.c.code(bytes, Layer::C);
        self.write(word, out);
    }

    /// Writes the symbols of the frame that was coded last.
    fn write(&self, word: &[bool; 204], out: &mut [u8])
        requires { length out.old ≡ frame_size (mode_of self.now) }
        ensures { out.new ≡ first_symbols word.now (symbol_cells self.now.a) (symbol_cells self.now.b) (symbol_cells self.now.c) 204 }
    {
        self.setting.acceptance_law();
        let mut at = 0;
        for k in 0..204 {
            let a = self.a.symbol(k);
            let b = self.b.symbol(k);
            let c = self.c.symbol(k);
            at = put_symbol(out, at, word[k], a, b, c);
        }
    }
}
