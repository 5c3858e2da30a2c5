//! The packets of one layer, from its cells.

ghost use Rattle.std.specs.Prelude.{◌≡◌, ◌*◌, ◌%◌, ◌≤◌, length, vec_len};
ghost use Rattle.isdbt_base.specs.Numbers.{packets_per_frame, layer_delay};
ghost use Rattle.layer_chain.specs.SymbolReader.{mode_of as reader_mode, layer_of as reader_layer, bits_of_symbol as reader_bits};
ghost use Rattle.layer_chain.specs.DecidedBytes.{rate_of, bits_of_symbol, frame_of, TakesFrame};

use crate::decided_bytes::DecidedBytes;
use crate::layer_coder::Held;
use crate::outer_decoder::{put_answers, put_nulls};
use crate::symbol_reader::SymbolReader;
use crate::units::UNIT;
use byte_inter::ByteDeinter;
use cell_map::Cell;
use delay_line::Stage;
use isdbt_base::{LayerSetting, Mode, NoMemory, bits_per_cell, depth_of};
use std::alloc::Global;

/// Decoder of one layer, for one epoch: time and bit deinterleaving, the inner decoder, byte deinterleaving, energy dispersal
/// and the outer decoder.
///
/// It takes the layer's cells symbol by symbol and works on each at once, and gives out the packets of a frame after every
/// 204 symbols: those of the frame before by the layer's delay, and null packets where the epoch has none so far before. All
/// memory is taken at `open`.
#[derive(Drop)]
pub struct LayerDecoder {
    reader: SymbolReader,
    decided: DecidedBytes,
    deinterleaver: ByteDeinter<12, 17>,
    /// The bits that are read for a symbol.
    read: Vec<bool>,
    /// The units of a frame.
    units: Vec<u8>,
    /// The layer's delay in frames.
    delay: u32,
    /// The frames that were taken, at most the delay.
    frames: u32,
    /// The symbols since the last frame was taken.
    symbols: u32,
    ghost delay_is: { delay ≡ layer_delay (reader_mode reader) (reader_layer reader) },
    ghost same_rate: { rate_of decided ≡ (reader_layer reader).rate },
    ghost same_bits: { bits_of_symbol decided ≡ reader_bits (reader_mode reader) (reader_layer reader) },
    ghost same_frame: { frame_of decided ≡ 204 * packets_per_frame (reader_mode reader) (reader_layer reader) },
    ghost read_room: { vec_len read ≡ reader_bits (reader_mode reader) (reader_layer reader) },
    ghost unit_room: { vec_len units ≡ 204 * packets_per_frame (reader_mode reader) (reader_layer reader) },
    ghost some_packets: { 12 ≤ packets_per_frame (reader_mode reader) (reader_layer reader) },
    ghost few_frames: { frames ≤ delay },
    ghost few_symbols: { symbols ≤ 204 },
}

impl LayerDecoder {
    ghost use Rattle.std.specs.Prelude.{◌≡◌, ℕ, ◌+◌, ◌*◌, ◌/◌, ◌<◌, ◌≤◌, ◌↔◌, true, min, length, IfOk};
    ghost use Rattle.isdbt_base.specs.Numbers.{cell_bits, time_depth, layer_delay, frames_over};
    ghost use Rattle.ts_packet.specs.Packets.{packet_bytes, piece_or_null};
    ghost use Rattle.layer_chain.specs.Held.{decoder_bytes, decoder_bits, decoder_cells};
    ghost use Rattle.layer_chain.specs.OuterWords.{given_out};
    ghost use Rattle.layer_chain.specs.SymbolReader.{IsSymbol, read_delay};
    ghost use Rattle.layer_chain.specs.LayerDecoder.{mode_of, layer_of, cells_of, packets_of, symbols_of, StandsFor};

    /// A decoder of a layer that has seen no symbol. Fails only if memory runs out.
    pub fn open(alloc: Global, setting: &LayerSetting, mode: Mode) -> Result<LayerDecoder, NoMemory>
        ensures mode { IfOk result (λ s. mode_of s ≡ mode) }
        ensures layer { IfOk result (λ s. layer_of s ≡ setting.now) }
        ensures symbols { IfOk result (λ s. symbols_of s ≡ 0) }
        ensures state { IfOk result (λ s. (cell : ℕ → ℕ → ℕ) → StandsFor s cell 0) }
    {
        let width = bits_per_cell(setting.modulation()) as usize;
        let bits = width * setting.cells(mode) as usize;
        let size = UNIT * setting.packets(mode) as usize;
        let reader = SymbolReader::open(alloc, setting, mode)?;
        let decided = DecidedBytes::open(alloc, setting.rate(), bits, size)?;
        let deinterleaver = ByteDeinter::open(alloc)?;
        let read = vec![in alloc; false; bits]?;
        let units = vec![in alloc; 0; size]?;
        Ok(LayerDecoder {
            reader,
            decided,
            deinterleaver,
            read,
            units,
            delay: setting.delay(mode),
            frames: 0,
            symbols: 0,
        })
    }

    /// Whether the bits that are read for the next symbol are coded bits: the first frames of an epoch, which time
    /// interleaving takes over both ends, and two symbols more bear none.
    fn bears_bits(&self) -> bool
        ensures { (frames : ℕ) → self.now.frames ≡ min frames (layer_delay (mode_of self.now) (layer_of self.now))
            → (result ≡ true) ↔ (read_delay (mode_of self.now) (layer_of self.now) ≤ 204 * frames + symbols_of self.now) }
    {
        let over = self.delay - 2;
        self.frames > over || (self.frames == over && self.symbols >= 2)
    }

    /// Takes the cells of the next symbol, in the order of the layer's places; a frame has 204 symbols.
    pub fn symbol(&mut self, cells: &[Cell])
        requires size { length cells.now ≡ cells_of self.old }
        requires few { symbols_of self.old < 204 }
        ensures state { (cell : ℕ → ℕ → ℕ) (frames : ℕ) → StandsFor self.old cell frames → IsSymbol (layer_of self.old).modulation cell (204 * frames + symbols_of self.old) cells.now
            → StandsFor self.new cell frames }
        ensures symbols { symbols_of self.new ≡ symbols_of self.old + 1 }
        ensures mode { mode_of self.new ≡ mode_of self.old }
        ensures layer { layer_of self.new ≡ layer_of self.old }
    {
        let bears_bits = self.bears_bits();
        self.reader.symbol(cells, &mut self.read);
        self.decided.symbol_if(bears_bits, &self.read);
        self.symbols += 1;
    }

    /// Gives out the packets of a frame, as many as the layer has in a frame, 188 bytes each, one behind the other, after just
    /// 204 symbols.
    pub fn take_frame(&mut self, out: &mut [u8])
        requires size { length out.old ≡ packet_bytes * packets_of self.old }
        requires whole { symbols_of self.old ≡ 204 }
        ensures packets { (cell : ℕ → ℕ → ℕ) (frames : ℕ) → StandsFor self.old cell frames
            → (j : ℕ) → j < packets_of self.old → piece_or_null out.new j ≡ given_out (mode_of self.old) (layer_of self.old) cell frames j }
        ensures state { (cell : ℕ → ℕ → ℕ) (frames : ℕ) → StandsFor self.old cell frames → StandsFor self.new cell (frames + 1) }
        ensures symbols { symbols_of self.new ≡ 0 }
        ensures mode { mode_of self.new ≡ mode_of self.old }
        ensures layer { layer_of self.new ≡ layer_of self.old }
    {
        self.symbols = 0;
        if self.frames + 1 < self.delay {
            self.frames += 1;
            put_nulls(out);
        } else if self.frames < self.delay {
            self.frames += 1;
            deinterleave(&mut self.decided, &mut self.deinterleaver, &mut self.units);
            put_nulls(out);
        } else {
            deinterleave(&mut self.decided, &mut self.deinterleaver, &mut self.units);
            put_answers(&self.units, out);
        }
    }

    /// What the delay lines hold: the same at every moment after opening.
    pub fn held(&self) -> Held
        ensures bytes { result.bytes ≡ 1122 }
        ensures bits { result.bits ≡ 60 * cell_bits (layer_of self.now).modulation }
        ensures cells { result.cells ≡ cells_of self.now * (95 * time_depth (mode_of self.now) (layer_of self.now).depth) / 2 }
        ensures all_bytes { (cell : ℕ → ℕ → ℕ) (frames : ℕ) → StandsFor self.now cell frames → decoder_bytes self.now ≡ result.bytes }
        ensures all_bits { (cell : ℕ → ℕ → ℕ) (frames : ℕ) → StandsFor self.now cell frames → decoder_bits self.now ≡ result.bits }
        ensures all_cells { (cell : ℕ → ℕ → ℕ) (frames : ℕ) → StandsFor self.now cell frames → decoder_cells self.now ≡ result.cells }
    {
        let mode = self.reader.mode();
        let layer = self.reader.layer();
        let cells = layer.cells(mode) * (95 * depth_of(mode, layer.depth())) / 2;
        Held {
            bytes: 1122,
            bits: u64::from(60 * bits_per_cell(layer.modulation())),
            cells: u64::from(cells),
        }
    }
}

/// Takes a frame of decided bytes through byte deinterleaving, and writes what comes out.
fn deinterleave(
    decided: &mut DecidedBytes,
    deinterleaver: &mut ByteDeinter<12, 17>,
    units: &mut [u8],
)
    requires size { length units.old ≡ frame_of decided.old }
    requires turns { frame_of decided.old % 12 ≡ 0 }
    ensures taken { TakesFrame decided.old deinterleaver.old decided.new deinterleaver.new units.new }
    ensures rate { rate_of decided.new ≡ rate_of decided.old }
    ensures bits { bits_of_symbol decided.new ≡ bits_of_symbol decided.old }
    ensures frame { frame_of decided.new ≡ frame_of decided.old }
{
    deinterleaver.feed(decided.frame(), units);
    decided.take_frame();
}
