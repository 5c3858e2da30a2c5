//! The coded bits of one layer.

ghost use Rattle.std.specs.Prelude.{◌≡◌, ◌*◌, vec_len};
ghost use Rattle.isdbt_base.specs.Numbers.{packets_per_frame};
ghost use Rattle.conv_punct.specs.StandsFor.{rate_of};

use crate::adjusted::Adjusted;
use crate::units::{UNIT, put_units};
use byte_inter::ByteInter;
use conv_punct::Encoder;
use isdbt_base::{LayerSetting, Mode, NoMemory};
use std::alloc::Global;
use ts_packet::Packet;

/// Coder of one layer up to its coded bits, for one epoch: the outer code, energy dispersal, delay adjustment, byte
/// interleaving and the inner code.
///
/// It takes the layer's packets frame by frame, and gives each frame's coded bits at once. All memory is taken at `open`.
#[derive(Drop)]
pub struct CodedLayer {
    mode: Mode,
    layer: LayerSetting,
    interleaver: Adjusted<ByteInter<12, 17>>,
    encoder: Encoder,
    /// The units of a frame.
    units: Vec<u8>,
    /// The bytes of a frame at their places.
    placed: Vec<u8>,
    ghost middle_room: { vec_len interleaver.middle ≡ 204 * packets_per_frame mode layer },
    ghost units_room: { vec_len units ≡ 204 * packets_per_frame mode layer },
    ghost placed_room: { vec_len placed ≡ 204 * packets_per_frame mode layer },
    ghost same_rate: { rate_of encoder ≡ layer.rate },
}

impl CodedLayer {
    ghost use Rattle.std.specs.Prelude.{◌≡◌, ℕ, List, ◌+◌, ◌*◌, ◌<◌, false, length, slice_index_or, IfOk};
    ghost use Rattle.isdbt_base.specs.Numbers.{packets_per_frame, layer_cells, cell_bits};
    ghost use Rattle.layer_chain.specs.CodedBits.{layer_coded_bit};
    ghost use Rattle.layer_chain.specs.CodedLayer.{mode_of, layer_of, packets_of, StandsFor, IsFrame};

    /// A coder of a layer that has seen no packet. Fails only if memory runs out.
    pub fn open(alloc: Global, setting: &LayerSetting, mode: Mode) -> Result<CodedLayer, NoMemory>
        ensures mode { IfOk result (λ s. mode_of s ≡ mode) }
        ensures layer { IfOk result (λ s. layer_of s ≡ setting.now) }
        ensures state { IfOk result (λ s. (packet : ℕ → List ℕ) → StandsFor s packet 0) }
    {
        let packets = setting.packets(mode);
        let size = UNIT * packets as usize;
        let stage = ByteInter::open(alloc)?;
        let interleaver = Adjusted::open(alloc, 204 * (packets - 11), stage, size)?;
        let units = vec![in alloc; 0; size]?;
        let placed = vec![in alloc; 0; size]?;
        Ok(CodedLayer {
            mode,
            layer: *setting,
            interleaver,
            encoder: Encoder::start(setting.rate()),
            units,
            placed,
        })
    }

    /// Transmission mode.
    pub fn mode(&self) -> Mode
        ensures { result ≡ mode_of self.now }
    {
        self.mode
    }

    /// Setting of the layer.
    pub fn layer(&self) -> LayerSetting
        ensures { result ≡ layer_of self.now }
    {
        self.layer
    }

    /// Writes the coded bits of the next frame: those of its packets, which are as many as the layer has in a frame,
    /// behind those of the frames before. `out` has room for just the bits of the layer's cells in 204 symbols.
    pub fn frame(&mut self, packets: &[Packet], out: &mut [bool])
        requires packets { length packets.now ≡ packets_of self.old }
        requires room { length out.old ≡ 204 * layer_cells (mode_of self.old) (layer_of self.old) * cell_bits (layer_of self.old).modulation }
        ensures coded { (packet : ℕ → List ℕ) (frame : ℕ) → StandsFor self.old packet frame → IsFrame (packets_of self.old) packet frame packets.now
            → (i : ℕ) → i < length out.new → slice_index_or out.new i false ≡ layer_coded_bit (mode_of self.old) (layer_of self.old) packet (length out.new * frame + i) }
        ensures state { (packet : ℕ → List ℕ) (frame : ℕ) → StandsFor self.old packet frame → IsFrame (packets_of self.old) packet frame packets.now
            → StandsFor self.new packet (frame + 1) }
        ensures mode { mode_of self.new ≡ mode_of self.old }
        ensures layer { layer_of self.new ≡ layer_of self.old }
    {
        put_units(packets, &mut self.units);
        self.interleaver.feed(&self.units, &mut self.placed);
        self.encoder.feed(&self.placed, out);
    }
}
