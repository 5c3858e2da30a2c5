//! The coder of a layer that may be unused.

ghost use Rattle.std.specs.Prelude.{◌≡◌, ℕ, ◌*◌, ◌≤◌, vec_len, IfOk};
ghost use Rattle.isdbt_base.specs.declared.kinds.Layer.{Layer as AnyLayer};
ghost use Rattle.isdbt_base.specs.Frames.{FramePackets};
ghost use Rattle.isdbt_base.specs.Parameters.{number_of};
ghost use Rattle.isdbt_base.specs.Numbers.{packets_per_frame, layer_cells};
ghost use Rattle.coder_core.specs.UsedLayers.{IsCoderOf, CoderStandsFor, HasPackets, HasRoom, CodesIfUsed};

use crate::layer_packets::gather;
use cell_map::Cell;
use isdbt_base::{Layer, LayerSetting, Mode, NoMemory, cells_of, packets_of};
use layer_chain::LayerCoder;
use std::alloc::Global;
use ts_packet::Packet;

/// Coder of a layer for one epoch, with room for a frame's packets and cells, or nothing where the layer is unused: it
/// has no packets and no cells then.
#[derive(Drop)]
pub struct LayerPart {
    mode: Mode,
    layer: Option<LayerSetting>,
    coder: Option<LayerCoder>,
    /// The packets of a frame.
    packets: Vec<Packet>,
    /// The cells of a frame, symbol after symbol.
    cells: Vec<Cell>,
    ghost fits: { IsCoderOf mode layer coder },
    ghost packet_room: { vec_len packets ≡ number_of (packets_per_frame mode) layer },
    ghost cell_room: { vec_len cells ≡ 204 * number_of (layer_cells mode) layer },
}

impl LayerPart {
    ghost use Rattle.std.specs.Prelude.{◌≡◌, ℕ, ◌+◌, ◌<◌, ◌≤◌, ◌^◌, None, IfOk, length};
    ghost use Rattle.isdbt_base.specs.declared.kinds.Layer.{Layer as AnyLayer};
    ghost use Rattle.isdbt_base.specs.Frames.{FramePackets};
    ghost use Rattle.coder_core.specs.FrameChecks.{bad_sync_slot, layer_count};
    ghost use Rattle.coder_core.specs.InputFrames.{packet_in};
    ghost use Rattle.coder_core.specs.LayerPart.{packets_of, cells_of, symbol_cells, PartStandsFor, HasCellsOf};

    /// A coder that has seen no frame. Fails only if memory runs out.
    pub fn open(
        alloc: Global,
        layer: Option<LayerSetting>,
        mode: Mode,
    ) -> Result<LayerPart, NoMemory>
        ensures mode { IfOk result (λ p. p.mode ≡ mode) }
        ensures layer { IfOk result (λ p. p.layer ≡ layer) }
        ensures state { IfOk result (λ p. (x : AnyLayer) (frames : FramePackets) (start : ℕ) → PartStandsFor p x frames start 0) }
    {
        let coder = open_used(alloc, &layer, mode)?;
        let count = packets_of(&layer, mode) as usize;
        let packets = vec![in alloc; Packet::null(); count]?;
        let count = 204 * cells_of(&layer, mode) as usize;
        let cells = vec![in alloc; Cell { i: 0, q: 0 }; count]?;
        Ok(LayerPart {
            mode,
            layer,
            coder,
            packets,
            cells,
        })
    }

    /// Codes the packets of a layer in the next frame.
    pub fn code(&mut self, frame: &[u8], layer: Layer)
        requires size { length frame.now ≤ 2 ^ 32 }
        requires sync { bad_sync_slot frame.now ≡ None }
        requires count { layer_count frame.now layer ≡ packets_of self.old }
        ensures cells { (frames : FramePackets) (start g : ℕ) → PartStandsFor self.old layer frames start g
            → ((j : ℕ) → j < packets_of self.old → frames (start + g) layer j ≡ packet_in frame.now layer j) → HasCellsOf self.new layer frames start g }
        ensures state { (frames : FramePackets) (start g : ℕ) → PartStandsFor self.old layer frames start g
            → ((j : ℕ) → j < packets_of self.old → frames (start + g) layer j ≡ packet_in frame.now layer j) → PartStandsFor self.new layer frames start (g + 1) }
        ensures mode { self.new.mode ≡ self.old.mode }
        ensures layer { self.new.layer ≡ self.old.layer }
    {
        gather(frame, layer, &mut self.packets);
        code_used(&mut self.coder, &self.packets, &mut self.cells);
    }

    /// Cells of a symbol of the frame that was coded last, in the order of the layer's places.
    pub fn symbol(&self, k: usize) -> &[Cell]
        requires { k < 204 }
        ensures value { result.now ≡ symbol_cells self.now k }
        ensures size { length result.now ≡ cells_of self.now }
    {
        let width = cells_of(&self.layer, self.mode) as usize;
        &self.cells[width * k..width * k + width]
    }
}

/// The coder of a layer, if it is used.
fn open_used(
    alloc: Global,
    layer: &Option<LayerSetting>,
    mode: Mode,
) -> Result<Option<LayerCoder>, NoMemory>
    ensures fits { IfOk result (λ coder. IsCoderOf mode layer.now coder) }
    ensures state { IfOk result (λ coder. (x : AnyLayer) (frames : FramePackets) (start : ℕ) → CoderStandsFor mode layer.now coder x frames start 0) }
{
    match layer {
        Some(used) => {
            let coder = LayerCoder::open(alloc, used, mode)?;
            Ok(Some(coder))
        }
        None => Ok(None),
    }
}

/// Codes a frame of packets, where the layer is used.
fn code_used(coder: &mut Option<LayerCoder>, packets: &[Packet], cells: &mut [Cell])
    requires packets { HasPackets coder.old packets.now }
    requires room { HasRoom coder.old cells.old }
    ensures { CodesIfUsed coder.old packets.now coder.new cells.new }
{
    match coder {
        Some(used) => used.frame(packets, cells),
        None => {}
    }
}
