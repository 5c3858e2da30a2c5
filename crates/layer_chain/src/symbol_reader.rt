//! The bits that are read in the cells of one layer.

ghost use Rattle.std.specs.Prelude.{◌≡◌, ◌*◌, vec_len};
ghost use Rattle.isdbt_base.specs.Numbers.{layer_cells, cell_bits};
ghost use Rattle.time_inter.specs.LayerPartner.{layout_of};
ghost use Rattle.layer_chain.specs.BitDeinterleaver.{layout_of as bit_layout_of};

use crate::bit_deinterleaver::BitDeinterleaver;
use crate::cell_bits::{put_bits, read_numbers};
use cell_map::Cell;
use delay_line::Stage;
use isdbt_base::{LayerSetting, Mode, NoMemory, bits_per_cell};
use std::alloc::Global;
use time_inter::LayerDeinter;

/// Reader of one layer, for one epoch: its cells, symbol by symbol, through time and bit deinterleaving to the bits that are
/// read at the places of the coded bits. They come late, by the whole frames that time
/// interleaving takes over both ends and the two symbols of bit interleaving.
///
/// All memory is taken at `open`.
#[derive(Drop)]
pub struct SymbolReader {
    mode: Mode,
    layer: LayerSetting,
    cells: LayerDeinter,
    bits: BitDeinterleaver,
    /// The bits of a symbol's cells, a number for each cell.
    numbers: Vec<u8>,
    /// The same behind time deinterleaving.
    late_numbers: Vec<u8>,
    /// Their bits.
    late_bits: Vec<bool>,
    ghost cell_paths: { (layout_of cells).paths ≡ layer_cells mode layer },
    ghost bit_paths: { (bit_layout_of bits).paths ≡ cell_bits layer.modulation },
    ghost number_room: { vec_len numbers ≡ layer_cells mode layer },
    ghost late_room: { vec_len late_numbers ≡ layer_cells mode layer },
    ghost bit_room: { vec_len late_bits ≡ cell_bits layer.modulation * layer_cells mode layer },
}

impl SymbolReader {
    ghost use Rattle.std.specs.Prelude.{◌≡◌, ℕ, ◌+◌, ◌*◌, ◌<◌, false, length, slice_index_or, IfOk};
    ghost use Rattle.layer_chain.specs.LayerCells.{read_bit};
    ghost use Rattle.layer_chain.specs.SymbolReader.{mode_of, layer_of, cells_of, bits_of_symbol, read_delay, IsSymbol, StandsFor};

    /// A reader of a layer that has seen no symbol. Fails only if memory runs out.
    pub fn open(alloc: Global, setting: &LayerSetting, mode: Mode) -> Result<SymbolReader, NoMemory>
        ensures mode { IfOk result (λ s. mode_of s ≡ mode) }
        ensures layer { IfOk result (λ s. layer_of s ≡ setting.now) }
        ensures state { IfOk result (λ s. (cell : ℕ → ℕ → ℕ) → StandsFor s cell 0) }
    {
        let modulation = setting.modulation();
        let symbol = setting.cells(mode) as usize;
        let cells = LayerDeinter::open(alloc, setting, mode)?;
        let bits = BitDeinterleaver::open(alloc, modulation)?;
        let numbers = vec![in alloc; 0; symbol]?;
        let late_numbers = vec![in alloc; 0; symbol]?;
        let late_bits = vec![in alloc; false; bits_per_cell(modulation) as usize * symbol]?;
        Ok(SymbolReader {
            mode,
            layer: *setting,
            cells,
            bits,
            numbers,
            late_numbers,
            late_bits,
        })
    }

    /// Transmission mode.
    pub fn mode(&self) -> Mode
        ensures { result ≡ mode_of self.now }
    {
        self.mode
    }

    /// Setting of the layer.
    pub fn layer(&self) -> LayerSetting
        ensures { result ≡ layer_of self.now }
    {
        self.layer
    }

    /// Takes the cells of the next symbol, in the order of the layer's places, and writes the bits that are read for it: those
    /// of the symbol's number less the delay over both ends, once there is one. `out` has room for just the bits of the
    /// layer's cells in a symbol.
    pub fn symbol(&mut self, cells: &[Cell], out: &mut [bool])
        requires size { length cells.now ≡ cells_of self.old }
        requires room { length out.old ≡ bits_of_symbol (mode_of self.old) (layer_of self.old) }
        ensures bits { (cell : ℕ → ℕ → ℕ) (y : ℕ) → StandsFor self.old cell (y + read_delay (mode_of self.old) (layer_of self.old)) → IsSymbol (layer_of self.old).modulation cell (y + read_delay (mode_of self.old) (layer_of self.old)) cells.now
            → (i : ℕ) → i < bits_of_symbol (mode_of self.old) (layer_of self.old) → slice_index_or out.new i false ≡ read_bit (mode_of self.old) (layer_of self.old) cell (bits_of_symbol (mode_of self.old) (layer_of self.old) * y + i) }
        ensures state { (cell : ℕ → ℕ → ℕ) (symbols : ℕ) → StandsFor self.old cell symbols → IsSymbol (layer_of self.old).modulation cell symbols cells.now → StandsFor self.new cell (symbols + 1) }
        ensures mode { mode_of self.new ≡ mode_of self.old }
        ensures layer { layer_of self.new ≡ layer_of self.old }
    {
        let modulation = self.layer.modulation();
        read_numbers(modulation, cells, &mut self.numbers);
        self.cells.feed(&self.numbers, &mut self.late_numbers);
        let width = bits_per_cell(modulation) as usize;
        put_bits(&self.late_numbers, width, &mut self.late_bits);
        self.bits.feed(&self.late_bits, out);
    }
}
