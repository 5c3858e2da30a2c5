//! The cells of one layer.

ghost use Rattle.std.specs.Prelude.{◌≡◌, ◌*◌, length, vec_len};
ghost use Rattle.isdbt_base.specs.Numbers.{layer_cells, cell_bits};
ghost use Rattle.time_inter.specs.LayerStage.{layout_of};
ghost use Rattle.layer_chain.specs.BitPaths.{lines_of};

use crate::adjusted::Adjusted;
use crate::bit_paths::BitPaths;
use crate::cell_numbers::{map_cells, number_cells};
use crate::coded_layer::CodedLayer;
use cell_map::Cell;
use isdbt_base::{LayerSetting, Mode, Modulation, NoMemory, adjust_of, bits_per_cell, depth_of};
use std::alloc::Global;
use time_inter::LayerInter;
use ts_packet::Packet;

/// How many items the delay lines of a layer hold, its adjustments' and its interleavers'.
#[derive(Copy, Clone, Debug, PartialEq, Eq)]
pub struct Held {
    /// Before and in byte interleaving.
    pub bytes: u64,
    /// Before and in bit interleaving.
    pub bits: u64,
    /// Before and in time interleaving.
    pub cells: u64,
}

/// Coder of one layer, for one epoch: its coded bits, bit adjustment and interleaving, mapping, and symbol adjustment and
/// time interleaving.
///
/// It takes the layer's packets frame by frame, and gives each frame's cells at once. All memory is taken at `open`.
#[derive(Drop)]
pub struct LayerCoder {
    coded: CodedLayer,
    modulation: Modulation,
    bits: BitPaths,
    cells: Adjusted<LayerInter>,
    /// The coded bits of a frame.
    coded_bits: Vec<bool>,
    /// The coded bits of a cell as a number, for each cell.
    coded_numbers: Vec<u8>,
    /// The bits at their places in the layer's cells, a number for each cell.
    numbers: Vec<u8>,
    /// The same at the cells' places in the frame's symbols.
    placed_numbers: Vec<u8>,
    ghost bit_paths: { length (lines_of bits) ≡ cell_bits coded.layer.modulation },
    ghost cell_paths: { (layout_of cells.stage).paths ≡ layer_cells coded.mode coded.layer },
    ghost bit_room: { vec_len bits.late ≡ 204 * layer_cells coded.mode coded.layer },
    ghost coded_room: { vec_len coded_bits ≡ 204 * layer_cells coded.mode coded.layer * cell_bits coded.layer.modulation },
    ghost coded_number_room: { vec_len coded_numbers ≡ 204 * layer_cells coded.mode coded.layer },
    ghost cell_middle: { vec_len cells.middle ≡ 204 * layer_cells coded.mode coded.layer },
    ghost number_room: { vec_len numbers ≡ 204 * layer_cells coded.mode coded.layer },
    ghost placed_number_room: { vec_len placed_numbers ≡ 204 * layer_cells coded.mode coded.layer },
    ghost same_modulation: { modulation ≡ coded.layer.modulation },
}

impl LayerCoder {
    ghost use Rattle.std.specs.Prelude.{◌≡◌, ℕ, List, ◌+◌, ◌-◌, ◌*◌, ◌/◌, ◌<◌, Some, length, slice_get, IfOk};
    ghost use Rattle.isdbt_base.specs.Numbers.{cell_bits, time_depth, time_adjust};
    ghost use Rattle.cell_map.specs.Levels.{cell_of};
    ghost use Rattle.layer_chain.specs.Held.{bytes_in, bits_in, cells_in};
    ghost use Rattle.layer_chain.specs.LayerCells.{cell_bits_at};
    ghost use Rattle.layer_chain.specs.CodedLayer.{IsFrame};
    ghost use Rattle.layer_chain.specs.LayerCoder.{mode_of, layer_of, cells_of, packets_of, coded_of, StandsFor};

    /// A coder of a layer that has seen no packet. Fails only if memory runs out.
    pub fn open(alloc: Global, setting: &LayerSetting, mode: Mode) -> Result<LayerCoder, NoMemory>
        ensures mode { IfOk result (λ s. mode_of s ≡ mode) }
        ensures layer { IfOk result (λ s. layer_of s ≡ setting.now) }
        ensures state { IfOk result (λ s. (packet : ℕ → List ℕ) → StandsFor s packet 0) }
    {
        let modulation = setting.modulation();
        let width = bits_per_cell(modulation);
        let symbol = setting.cells(mode);
        let cell_count = 204 * symbol as usize;
        let bit_count = cell_count * width as usize;
        let coded = CodedLayer::open(alloc, setting, mode)?;
        let bits = BitPaths::open(alloc, modulation, symbol, cell_count)?;
        let stage = LayerInter::open(alloc, setting, mode)?;
        let adjustment = adjust_of(mode, setting.depth()) * symbol;
        let cells = Adjusted::open(alloc, adjustment, stage, cell_count)?;
        let coded_bits = vec![in alloc; false; bit_count]?;
        let coded_numbers = vec![in alloc; 0; cell_count]?;
        let numbers = vec![in alloc; 0; cell_count]?;
        let placed_numbers = vec![in alloc; 0; cell_count]?;
        Ok(LayerCoder {
            coded,
            modulation,
            bits,
            cells,
            coded_bits,
            coded_numbers,
            numbers,
            placed_numbers,
        })
    }

    /// Writes the cells of the next frame, symbol after symbol, each in the order of the layer's places. The packets are
    /// as many as the layer has in a frame, and `out` has room for just the layer's cells in 204 symbols.
    pub fn frame(&mut self, packets: &[Packet], out: &mut [Cell])
        requires packets { length packets.now ≡ packets_of self.old }
        requires room { length out.old ≡ 204 * cells_of self.old }
        ensures cells { (packet : ℕ → List ℕ) (frame : ℕ) → StandsFor self.old packet frame → IsFrame (packets_of self.old) packet frame packets.now
            → (y w : ℕ) → y < 204 → w < cells_of self.old
            → slice_get out.new (cells_of self.old * y + w) ≡ Some (cell_of (layer_of self.old).modulation (cell_bits_at (mode_of self.old) (layer_of self.old) (coded_of self.old packet) (204 * frame + y) w)) }
        ensures state { (packet : ℕ → List ℕ) (frame : ℕ) → StandsFor self.old packet frame → IsFrame (packets_of self.old) packet frame packets.now
            → StandsFor self.new packet (frame + 1) }
        ensures mode { mode_of self.new ≡ mode_of self.old }
        ensures layer { layer_of self.new ≡ layer_of self.old }
    {
        self.coded.frame(packets, &mut self.coded_bits);
        let width = bits_per_cell(self.modulation) as usize;
        number_cells(&self.coded_bits, width, &mut self.coded_numbers);
        self.bits.feed(&self.coded_numbers, &mut self.numbers);
        self.cells.feed(&self.numbers, &mut self.placed_numbers);
        map_cells(self.modulation, &self.placed_numbers, out);
    }

    /// What the delay lines hold: the same at every moment after opening.
    pub fn held(&self) -> Held
        ensures bytes { result.bytes ≡ 204 * (packets_of self.now - 11) + 1122 }
        ensures bits { result.bits ≡ cell_bits (layer_of self.now).modulation * (2 * cells_of self.now - 120) + 60 * cell_bits (layer_of self.now).modulation }
        ensures cells { result.cells ≡ cells_of self.now * (2 * time_adjust (mode_of self.now) (layer_of self.now).depth + 95 * time_depth (mode_of self.now) (layer_of self.now).depth) / 2 }
        ensures all_bytes { (packet : ℕ → List ℕ) (frames : ℕ) → StandsFor self.now packet frames → bytes_in self.now ≡ result.bytes }
        ensures all_bits { (packet : ℕ → List ℕ) (frames : ℕ) → StandsFor self.now packet frames → bits_in self.now ≡ result.bits }
        ensures all_cells { (packet : ℕ → List ℕ) (frames : ℕ) → StandsFor self.now packet frames → cells_in self.now ≡ result.cells }
    {
        let mode = self.coded.mode();
        let layer = self.coded.layer();
        let symbol = layer.cells(mode);
        let width = bits_per_cell(layer.modulation());
        let delay = 2 * adjust_of(mode, layer.depth()) + 95 * depth_of(mode, layer.depth());
        Held {
            bytes: u64::from(204 * (layer.packets(mode) - 11) + 1122),
            bits: u64::from(width * (2 * symbol - 120) + 60 * width),
            cells: u64::from(symbol * delay / 2),
        }
    }
}
